// What is taken from the front of the tokens. If it is not there, some of them may be lost.
ghost use Rattle.std.specs.Prelude.{◌≡◌, ◌++◌, ◌∷◌, [], true, codes, IfSome, option_map};
ghost use Rattle.json.specs.Token.{begin_object, end_object, begin_array, key, string};
ghost use Rattle.tw_segment.specs.Segment.{value_data};
ghost use Rattle.tw_segment.specs.Tokens.{data_tokens, UuidAt, MomentAt};

use crate::reading::read_uuid;
use crate::timestamp::read_timestamp;
use json::{Reader, Token};
use tw_world::Moment;
use uuid::Uuid;

// Takes what is before the operations.
pub(crate) fn take_start(reader: &mut Reader<'_>) -> bool
    ensures { result ≡ true → reader.old ≡ begin_object ∷ key (codes "operations") ∷ begin_array ∷ reader.new }
{
    take_object(reader) && take_key(reader, "operations") && take_array(reader)
}

// Takes what is after them, if nothing more is there.
pub(crate) fn take_finish(reader: &mut Reader<'_>) -> bool
    ensures { result ≡ true → reader.old ≡ end_object ∷ [] }
{
    take_end(reader) && reader.next().is_none()
}

// The name of an operation, up to the brace that opens its members.
pub(crate) fn take_name<'a>(reader: &mut Reader<'a>) -> Option<&'a str>
    ensures { IfSome result (λ name. reader.old ≡ begin_object ∷ key name.now ∷ begin_object ∷ reader.new) }
{
    if !take_object(reader) {
        return None;
    }
    match reader.next() {
        Some(Token::Key(name)) => {
            if take_object(reader) {
                Some(name)
            } else {
                None
            }
        }
        _ => None,
    }
}

// The uuid, if no other member is there, and the brace.
pub(crate) fn take_only_uuid(reader: &mut Reader<'_>) -> Option<Uuid>
    ensures { IfSome result (λ uuid. UuidAt reader.old uuid (end_object ∷ reader.new)) }
{
    let uuid = take_uuid(reader)?;
    if take_end(reader) { Some(uuid) } else { None }
}

// The value, or none for null, if it is the last member, and the brace.
pub(crate) fn take_last_value<'a>(reader: &mut Reader<'a>) -> Option<Option<&'a str>>
    ensures { IfSome result (λ v. reader.old ≡ key (codes "value") ∷ data_tokens (value_data (option_map (λ s. s.now) v)) ++ end_object ∷ reader.new) }
{
    let value = take_value(reader)?;
    if take_end(reader) { Some(value) } else { None }
}

// The moment, if it is the last member, and the brace.
pub(crate) fn take_last_moment(reader: &mut Reader<'_>) -> Option<Moment>
    ensures { IfSome result (λ at. MomentAt reader.old at (end_object ∷ reader.new)) }
{
    let at = take_moment(reader)?;
    if take_end(reader) { Some(at) } else { None }
}

pub(crate) fn take_moment(reader: &mut Reader<'_>) -> Option<Moment>
    ensures { IfSome result (λ at. MomentAt reader.old at reader.new) }
{
    read_timestamp(take_text(reader, "timestamp")?)
}

pub(crate) fn take_uuid(reader: &mut Reader<'_>) -> Option<Uuid>
    ensures { IfSome result (λ uuid. UuidAt reader.old uuid reader.new) }
{
    read_uuid(take_text(reader, "uuid")?)
}

pub(crate) fn take_uuid_text(reader: &mut Reader<'_>) -> Option<Uuid>
    ensures { IfSome result (λ uuid. UuidAt (key (codes "uuid") ∷ reader.old) uuid reader.new) }
{
    read_uuid(take_string(reader)?)
}

pub(crate) fn take_value<'a>(reader: &mut Reader<'a>) -> Option<Option<&'a str>>
    ensures { IfSome result (λ v. reader.old ≡ key (codes "value") ∷ data_tokens (value_data (option_map (λ s. s.now) v)) ++ reader.new) }
{
    if !take_key(reader, "value") {
        return None;
    }
    match reader.next() {
        Some(Token::Null) => Some(None),
        Some(Token::String(text)) => Some(Some(text)),
        _ => None,
    }
}

// The text under a key.
pub(crate) fn take_text<'a>(reader: &mut Reader<'a>, name: &str) -> Option<&'a str>
    ensures { IfSome result (λ s. reader.old ≡ key name.now ∷ string s.now ∷ reader.new) }
{
    if !take_key(reader, name) {
        return None;
    }
    take_string(reader)
}

pub(crate) fn take_string<'a>(reader: &mut Reader<'a>) -> Option<&'a str>
    ensures { IfSome result (λ s. reader.old ≡ string s.now ∷ reader.new) }
{
    match reader.next() {
        Some(Token::String(text)) => Some(text),
        _ => None,
    }
}

fn take_key(reader: &mut Reader<'_>, name: &str) -> bool
    ensures { result ≡ true → reader.old ≡ key name.now ∷ reader.new }
{
    match reader.next() {
        Some(Token::Key(found)) => found == name,
        _ => false,
    }
}

// Takes the brace that opens an object.
fn take_object(reader: &mut Reader<'_>) -> bool
    ensures { result ≡ true → reader.old ≡ begin_object ∷ reader.new }
{
    match reader.next() {
        Some(Token::BeginObject) => true,
        _ => false,
    }
}

// Takes the brace that closes one.
pub(crate) fn take_end(reader: &mut Reader<'_>) -> bool
    ensures { result ≡ true → reader.old ≡ end_object ∷ reader.new }
{
    match reader.next() {
        Some(Token::EndObject) => true,
        _ => false,
    }
}

// Takes the bracket that opens a list.
fn take_array(reader: &mut Reader<'_>) -> bool
    ensures { result ≡ true → reader.old ≡ begin_array ∷ reader.new }
{
    match reader.next() {
        Some(Token::BeginArray) => true,
        _ => false,
    }
}
