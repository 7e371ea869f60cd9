ghost use Rattle.std.specs.Prelude.{◌≡◌, ◌++◌, replicate, string_bytes, IfOk, OnOk};
ghost use Rattle.tw_text.specs.Columns.{columns_of, padded_left, padded_right, blanked, cell_text};

use std::alloc::Global;
use tw_world::Memory;
use unicode_width::UnicodeWidthStr;

/// The columns that the text takes in a terminal, by the widths of Unicode Standard Annex 11.
pub fn columns(text: &str) -> u64
    ensures { result ≡ columns_of text.now }
{
    text.width() as u64
}

/// The text with spaces before it until it has `width` columns; a wider text is unchanged.
pub fn pad_left(alloc: Global, text: &str, width: u64) -> Result<String, Memory>
    ensures { IfOk result (λ s. string_bytes s ≡ padded_left text.now width) }
{
    let mut out = String::new(alloc);
    push_spaces(&mut out, width.saturating_sub(columns(text)))?;
    out.push_str(text)?;
    Ok(out)
}

/// The text with spaces after it until it has `width` columns; a wider text is unchanged.
pub fn pad_right(alloc: Global, text: &str, width: u64) -> Result<String, Memory>
    ensures { IfOk result (λ s. string_bytes s ≡ padded_right text.now width) }
{
    let mut out = String::from_str(alloc, text)?;
    push_spaces(&mut out, width.saturating_sub(columns(text)))?;
    Ok(out)
}

/// The text on one line, with one space in place of each ASCII control character.
pub fn cell(alloc: Global, text: &str) -> Result<String, Memory>
    ensures { IfOk result (λ s. string_bytes s ≡ cell_text text.now) }
{
    let mut out = String::new(alloc);
    for c in text.chars() {
        out.push(blanked(c))?;
    }
    Ok(out)
}

fn push_spaces(out: &mut String, count: u64) -> Result<(), Memory>
    ensures { OnOk result (string_bytes out.new ≡ string_bytes out.old ++ replicate count 32) }
{
    for i in 0..count {
        out.push(' ')?;
    }
    Ok(())
}

fn blanked(c: char) -> char
    ensures { result ≡ blanked c }
{
    if c < ' ' || c == '\x7f' { ' ' } else { c }
}
