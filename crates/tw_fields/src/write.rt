// Writing the fields of a body. After want of memory a part of a field may be written.
ghost use Rattle.std.specs.Prelude.{◌≡◌, ◌++◌, OnOk, IfSome};
ghost use Rattle.std.specs.Int.{w32, to_be_bytes};
ghost use Rattle.tw_fields.specs.Fields.{field_bytes, text_bytes, option_bytes, moment_bytes, IsText, IsUuid};

use tw_world::{Memory, Moment, Text};
use uuid::Uuid;

/// Four bytes, the most significant first, of the number modulo 2^32.
pub fn put_count(out: &mut Vec<u8>, count: usize) -> Result<(), Memory>
    ensures { OnOk result (out.new.items ≡ out.old.items ++ to_be_bytes w32 count) }
{
    let bytes = (count as u64).to_be_bytes();
    out.extend_from_slice(&[bytes[4], bytes[5], bytes[6], bytes[7]])?;
    Ok(())
}

// The bytes of a text, which are UTF-8.
fn bytes_of(text: &str) -> &[u8]
    ensures bytes { result.now ≡ text.now }
    ensures is { IsText text.now }
{
    text.as_bytes()
}

/// The text after its length.
pub fn put_text(out: &mut Vec<u8>, text: &str) -> Result<(), Memory>
    ensures put { OnOk result (out.new.items ≡ out.old.items ++ text_bytes text.now) }
    ensures is { OnOk result (IsText text.now) }
{
    put_count(out, text.len())?;
    out.extend_from_slice(bytes_of(text))?;
    Ok(())
}

/// The bytes after their length.
pub fn put_bytes(out: &mut Vec<u8>, bytes: &[u8]) -> Result<(), Memory>
    ensures { OnOk result (out.new.items ≡ out.old.items ++ field_bytes bytes.now) }
{
    put_count(out, bytes.len())?;
    out.extend_from_slice(bytes)?;
    Ok(())
}

/// The sixteen bytes of a uuid.
pub fn put_uuid(out: &mut Vec<u8>, uuid: &Uuid) -> Result<(), Memory>
    ensures put { OnOk result (out.new.items ≡ out.old.items ++ uuid.now) }
    ensures is { OnOk result (IsUuid uuid.now) }
{
    let bytes = uuid.as_bytes();
    out.extend_from_slice(bytes)?;
    Ok(())
}

/// A 1 and the text, or a 0 if there is none.
pub fn put_option(out: &mut Vec<u8>, text: &Option<Text>) -> Result<(), Memory>
    ensures put { OnOk result (out.new.items ≡ out.old.items ++ option_bytes text.now) }
    ensures is { OnOk result (IfSome text.now IsText) }
{
    match text {
        None => out.push(0)?,
        Some(text) => {
            out.push(1)?;
            put_text(out, text.as_str())?;
        }
    }
    Ok(())
}

/// The seconds in eight bytes, and the nanoseconds in four.
pub fn put_moment(out: &mut Vec<u8>, at: &Moment) -> Result<(), Memory>
    ensures { OnOk result (out.new.items ≡ out.old.items ++ moment_bytes at.now) }
{
    out.extend_from_slice(&at.seconds.to_be_bytes())?;
    out.extend_from_slice(&at.nanos.to_be_bytes())?;
    Ok(())
}
