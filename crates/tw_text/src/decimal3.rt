ghost use Rattle.std.specs.Prelude.{◌≡◌, ◌≤◌, ◌<◌, ◌++◌, ◌+◌, ◌∷◌, [], take, length, IfSome};
ghost use Rattle.std.specs.Fmt.{decimal};
ghost use Rattle.tw_text.specs.Decimal.{fraction, unsigned_thousandths, thousandths, decimal3, sign};

use crate::digits::{are_digits, count_digits, number};

/// A number with three decimals as text: the first `len` of the bytes.
#[derive(Clone, Copy)]
pub struct Decimal3 {
    pub bytes: [u8; 24],
    pub len: u64,
}

/// A number of thousandths with three decimals, as `-3.000`.
pub fn put_decimal3(n: i64) -> Decimal3
    ensures text { take result.len result.bytes ≡ decimal3 n }
    ensures len { result.len ≤ 24 }
{
    let mut out = Decimal3 {
        bytes: [0; 24],
        len: 0,
    };
    let size = n.unsigned_abs();
    push_sign(&mut out, n);
    push_decimal(&mut out, size / 1000);
    push(&mut out, b'.');
    push(&mut out, b'0' + (size / 100 % 10) as u8);
    push(&mut out, b'0' + (size / 10 % 10) as u8);
    push(&mut out, b'0' + (size % 10) as u8);
    out
}

fn push_sign(out: &mut Decimal3, n: i64)
    requires { out.old.len < 24 }
    ensures len { out.new.len ≡ out.old.len + length (sign n) }
    ensures text { take out.new.len out.new.bytes ≡ take out.old.len out.old.bytes ++ sign n }
{
    if n < 0 {
        push(out, b'-');
    }
}

fn push_decimal(out: &mut Decimal3, n: u64)
    requires { out.old.len + length (decimal n) ≤ 24 }
    ensures len { out.new.len ≡ out.old.len + length (decimal n) }
    ensures text { take out.new.len out.new.bytes ≡ take out.old.len out.old.bytes ++ decimal n }
{
    if n < 10 {
        push(out, b'0' + n as u8);
        return;
    }
    push_decimal(out, n / 10);
    push(out, b'0' + (n % 10) as u8);
}

fn push(out: &mut Decimal3, byte: u8)
    requires { out.old.len < 24 }
    ensures len { out.new.len ≡ out.old.len + 1 }
    ensures text { take out.new.len out.new.bytes ≡ take out.old.len out.old.bytes ++ byte ∷ [] }
{
    out.bytes[out.len as usize] = byte;
    out.len += 1;
}

/// The thousandths of a decimal number: a minus or none, one to seven digits, and a point with
/// one to three digits or none, of at most 1,000,000 in size (a coefficient of urgency in
/// taskrc(5)).
#[tactic(auto, unfolding(crate::specs::Decimal::thousandths))]
pub fn read_decimal3(text: &str) -> Option<i64>
    ensures { result ≡ thousandths text.now }
{
    let bytes = text.as_bytes();
    if !bytes.is_empty() && bytes[0] == b'-' {
        let size = unsigned_thousandths(&bytes[1..])?;
        return Some(-(size as i64));
    }
    let size = unsigned_thousandths(bytes)?;
    Some(size as i64)
}

#[tactic(auto, unfolding(crate::specs::Decimal::unsigned_thousandths))]
fn unsigned_thousandths(text: &[u8]) -> Option<u64>
    ensures value { result ≡ unsigned_thousandths text.now }
    ensures bound { IfSome result (λ n. n ≤ 1_000_000_000) }
{
    let (digits, rest) = text.split_at(count_digits(text));
    if digits.is_empty() || digits.len() > 7 {
        return None;
    }
    let Some(part) = fraction(rest) else {
        return None;
    };
    let size = number(digits) * 1000 + part;
    if size <= 1_000_000_000 {
        Some(size)
    } else {
        None
    }
}

// The thousandths of a point and one to three digits, or of nothing.
fn fraction(text: &[u8]) -> Option<u64>
    ensures value { result ≡ fraction text.now }
    ensures bound { IfSome result (λ n. n < 1000) }
{
    if text.is_empty() {
        return Some(0);
    }
    let digits = &text[1..];
    if text[0] != b'.' || !are_digits(digits) || digits.is_empty() || digits.len() > 3 {
        return None;
    }
    let part = number(digits);
    match digits.len() {
        1 => Some(part * 100),
        2 => Some(part * 10),
        _ => Some(part),
    }
}
