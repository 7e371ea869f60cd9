// Where a text occurs in another.
ghost use Rattle.std.specs.Prelude.{◌≡◌, false};
ghost use Rattle.tw_terms.specs.Occurs.{occurs, is_word_byte, begins_word, is_word_here, has_word, begins_point, is_below};

/// Whether it occurs anywhere.
pub(crate) fn occurs(value: &str, text: &str) -> bool
    ensures { result ≡ occurs value.now text.now }
{
    text.contains(value)
}

fn is_word_byte(byte: u8) -> bool
    ensures { result ≡ is_word_byte byte }
{
    byte.is_ascii_alphanumeric() || byte == b'_' || byte >= 128
}

fn begins_word(text: &[u8]) -> bool
    ensures { result ≡ begins_word text.now }
{
    match text.first() {
        Some(byte) => is_word_byte(*byte),
        None => false,
    }
}

// Whether a text begins with the value, and no letter, digit or the like is beside it.
fn is_word_here(before: bool, value: &[u8], text: &[u8]) -> bool
    ensures { result ≡ is_word_here before value.now text.now }
{
    !before && text.starts_with(value) && !begins_word(&text[value.len()..])
}

fn has_word_in(value: &[u8], text: &[u8]) -> bool
    ensures { result ≡ has_word false value.now text.now }
{
    let mut before = false;
    for at in 0..text.len() {
        if is_word_here(before, value, &text[at..]) {
            return true;
        }
        before = is_word_byte(text[at]);
    }
    is_word_here(before, value, &text[text.len()..])
}

/// Whether it occurs as a word.
pub(crate) fn has_word(value: &str, text: &str) -> bool
    ensures { result ≡ has_word false value.now text.now }
{
    has_word_in(value.as_bytes(), text.as_bytes())
}

fn begins_point(text: &[u8]) -> bool
    ensures { result ≡ begins_point text.now }
{
    match text.first() {
        Some(byte) => *byte == b'.',
        None => false,
    }
}

fn is_below_in(value: &[u8], text: &[u8]) -> bool
    ensures { result ≡ is_below value.now text.now }
{
    text.starts_with(value) && begins_point(&text[value.len()..])
}

/// Whether a project is below another.
pub(crate) fn is_below(value: &str, text: &str) -> bool
    ensures { result ≡ is_below value.now text.now }
{
    is_below_in(value.as_bytes(), text.as_bytes())
}
