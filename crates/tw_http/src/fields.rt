// The fields of a head (RFC 9110, section 5).
ghost use Rattle.std.specs.Prelude.{◌≡◌, length, map, All, IfSome, option_map};
ghost use Rattle.uuid.specs.Text.{parsed_hyphenated};
ghost use Rattle.httparse.specs.Spans.{IsHeaderWithin, header_bytes};
ghost use Rattle.tw_http.specs.Fields.{values_of, same_name, only, listed, is_empty, uuid_field};

use crate::message::HttpError;
use httparse::spans::HeaderSpan;
use uuid::Uuid;

// The uuid of a field that is there exactly once.
pub(crate) fn uuid_field(
    front: &[u8],
    headers: &[HeaderSpan],
    name: &[u8],
) -> Result<Uuid, HttpError>
    requires { All (IsHeaderWithin (length front.now)) headers.now }
    ensures { result ≡ uuid_field name.now (map (header_bytes front.now) headers.now) }
{
    match only_value(front, headers, name) {
        Some(value) => match read_uuid(value) {
            Some(uuid) => Ok(uuid),
            None => Err(HttpError::Header),
        },
        None => Err(HttpError::Header),
    }
}

// The value of a field that is there exactly once.
pub(crate) fn only_value<'f>(
    front: &'f [u8],
    headers: &[HeaderSpan],
    name: &[u8],
) -> Option<&'f [u8]>
    requires { All (IsHeaderWithin (length front.now)) headers.now }
    ensures { option_map (λ v. v.now) result ≡ only (values_of name.now (map (header_bytes front.now) headers.now)) }
{
    let (value, rest) = first_field(front, headers, name)?;
    match first_field(front, rest, name) {
        Some(_) => None,
        None => Some(value),
    }
}

pub(crate) fn is_absent(front: &[u8], headers: &[HeaderSpan], name: &[u8]) -> bool
    requires { All (IsHeaderWithin (length front.now)) headers.now }
    ensures { result ≡ is_empty (values_of name.now (map (header_bytes front.now) headers.now)) }
{
    first_field(front, headers, name).is_none()
}

// The first field of a name, and the fields after it.
fn first_field<'f, 'h>(
    front: &'f [u8],
    headers: &'h [HeaderSpan],
    name: &[u8],
) -> Option<(&'f [u8], &'h [HeaderSpan])>
    requires { All (IsHeaderWithin (length front.now)) headers.now }
    ensures read { values_of name.now (map (header_bytes front.now) headers.now)
        ≡ listed (option_map (λ x. (x.0.now, values_of name.now (map (header_bytes front.now) x.1.now))) result) }
    ensures within { IfSome result (λ x. All (IsHeaderWithin (length front.now)) x.1.now) }
{
    let mut at = 0;
    while at < headers.len() {
        let header = headers[at];
        if same_name(header.name.of(front), name) {
            return Some((header.value.of(front), &headers[at + 1..]));
        }
        at += 1;
    }
    None
}

// The name of a field is the same in any case (RFC 9110, section 5.1).
pub(crate) fn same_name(a: &[u8], b: &[u8]) -> bool
    ensures { result ≡ same_name a.now b.now }
{
    a.eq_ignore_ascii_case(b)
}

// A uuid of 36 characters, in either case.
#[tactic(auto, using(crate::proofs::Options::none_unless))]
pub(crate) fn read_uuid(text: &[u8]) -> Option<Uuid>
    ensures { result ≡ parsed_hyphenated text.now }
{
    if text.len() != 36 {
        return None;
    }
    match Uuid::try_parse_ascii(text) {
        Ok(uuid) => Some(uuid),
        Err(_) => None,
    }
}
