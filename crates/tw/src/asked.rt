// What a request asks for, as the first bytes of it say.
ghost use Rattle.std.specs.Prelude.{◌≡◌, ◌≤◌, ◌++◌, length, map, take, option_map, OnOk};
ghost use Rattle.tw.specs.Asked.{shown, shown_word, word_len, first_word, ends_word, after_blank, after_client, client_of, asked};

use tw_world::Memory;

// The header that names the client (TaskChampion book, "HTTP Representation"), from the end of the line before it on.
const CLIENT: &[u8] = b"\nX-Client-Id:";

// An id is shown by its first digits, since it is the client's password.
const SHOWN_DIGITS: usize = 8;

/// Puts the method, the path and the first eight digits of the client's id to the end of a line, with a blank between. What is not there
/// is a dash. After an error a part of them is there.
pub fn push_asked(line: &mut Vec<u8>, front: &[u8]) -> Result<(), Memory>
    ensures { OnOk result (line.new.items ≡ line.old.items ++ asked front.now) }
{
    let (method, rest) = front.split_at(word_len(front));
    let rest = without_blank(rest);
    let (path, _) = rest.split_at(word_len(rest));
    push_word(line, method)?;
    line.push(b' ')?;
    push_word(line, path)?;
    line.push(b' ')?;
    push_word(line, client_of(front))
}

// The digits of the client's id that are shown.
#[tactic(auto, using(crate::proofs::Requests::found_here))]
fn client_of(front: &[u8]) -> &[u8]
    ensures { result.now ≡ client_of front.now }
{
    for at in 0..front.len() {
        match after_client(&front[at..]) {
            Some(value) => return shown_digits(value),
            None => {}
        }
    }
    &[]
}

// The first digits of a value.
fn shown_digits(value: &[u8]) -> &[u8]
    ensures { result.now ≡ take 8 (first_word (after_blank value.now)) }
{
    let value = without_blank(value);
    let (word, _) = value.split_at(word_len(value));
    &word[..SHOWN_DIGITS.min(word.len())]
}

// What follows the header's name, if the bytes begin with it. A name has no case (RFC 9110, 5.1).
fn after_client(bytes: &[u8]) -> Option<&[u8]>
    ensures { option_map (λ value. value.now) result ≡ after_client bytes.now }
{
    if bytes.len() < CLIENT.len() {
        return None;
    }
    let (name, value) = bytes.split_at(CLIENT.len());
    if name.eq_ignore_ascii_case(CLIENT) {
        Some(value)
    } else {
        None
    }
}

// The bytes after the blank that they begin with, if they do.
fn without_blank(bytes: &[u8]) -> &[u8]
    ensures { result.now ≡ after_blank bytes.now }
{
    match bytes {
        [b' ', rest @ ..] => rest,
        _ => bytes,
    }
}

// How many bytes there are before the first blank, or the end of the line.
fn word_len(bytes: &[u8]) -> usize
    ensures len { result ≡ word_len bytes.now }
    ensures within { result ≤ length bytes.now }
{
    let mut len = 0;
    for byte in bytes {
        if ends_word(*byte) {
            return len;
        }
        len += 1;
    }
    len
}

fn ends_word(byte: u8) -> bool
    ensures { result ≡ ends_word byte }
{
    byte == b' ' || byte == b'\r' || byte == b'\n'
}

// Puts a word to the end of a line.
fn push_word(line: &mut Vec<u8>, word: &[u8]) -> Result<(), Memory>
    ensures { OnOk result (line.new.items ≡ line.old.items ++ shown_word word.now) }
{
    if word.is_empty() {
        line.push(b'-')?;
        return Ok(());
    }
    push_shown(line, word)
}

fn push_shown(line: &mut Vec<u8>, word: &[u8]) -> Result<(), Memory>
    ensures { OnOk result (line.new.items ≡ line.old.items ++ map shown word.now) }
{
    for byte in word {
        line.push(shown(*byte))?;
    }
    Ok(())
}

fn shown(byte: u8) -> u8
    ensures { result ≡ shown byte }
{
    if b'!' <= byte && byte <= b'~' {
        byte
    } else {
        b'?'
    }
}
