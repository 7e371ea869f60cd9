// Writes a response.
ghost use Rattle.std.specs.Prelude.{◌≡◌, ◌++◌, IfOk, OnOk, [], None, false, option_map, unwrap_or};
ghost use Rattle.http.specs.StatusCode.{reason_phrase};
ghost use Rattle.tw_http.specs.Messages.{status_line, type_line, bytes_in, uuid_line, wanted_line, text_of_parts, response_text};
ghost use Rattle.tw_http.specs.Messages.{id_of, parent_of, IsReadBack};
ghost use Rattle.tw_http.specs.Responses.{IsReadAs};

use crate::lines::{put, put_length_line, put_line, put_uuid_line};
use crate::message::Response;
use http::StatusCode;
use std::alloc::{AllocError, Global};
use tw_world::Memory;
use uuid::Uuid;

/// Writes a response as HTTP/1.1 with its status, its length, its ids and its body
/// (TaskChampion book, "HTTP Representation"; RFC 9110, section 15, has the statuses).
///
/// A body of more than 16,777,216 bytes is written too, and no client reads it.
pub fn write_response(alloc: Global, response: &Response) -> Result<Vec<u8>, Memory>
    ensures text { IfOk result (λ v. v.items ≡ response_text response.now) }
    ensures back { IfOk result (λ v. IsReadAs response.now v.items) }
{
    Ok(parts(alloc, response)?)
}

fn parts(alloc: Global, response: &Response) -> Result<Vec<u8>, AllocError>
    ensures text { IfOk result (λ v. v.items ≡ response_text response.now) }
    ensures back { IfOk result (λ v. IsReadBack (id_of response.now) × IsReadBack (parent_of response.now)) }
{
    match response {
        Response::Added { id, wanted } => {
            write_parts(alloc, StatusCode::OK, None, Some(*id), None, *wanted)
        }
        Response::Conflict { latest } => {
            let parent = Some(*latest);
            write_parts(alloc, StatusCode::CONFLICT, None, None, parent, false)
        }
        Response::Child {
            id,
            parent,
            segment,
        } => {
            let kind = "application/vnd.taskchampion.history-segment";
            let content = Some((kind, segment.as_slice()));
            write_parts(
                alloc,
                StatusCode::OK,
                content,
                Some(*id),
                Some(*parent),
                false,
            )
        }
        Response::UpToDate => write_bare(alloc, StatusCode::NOT_FOUND),
        Response::Gone => write_bare(alloc, StatusCode::GONE),
        Response::Bad => write_bare(alloc, StatusCode::BAD_REQUEST),
        Response::TooLong => write_bare(alloc, StatusCode::PAYLOAD_TOO_LARGE),
        Response::Taken => write_bare(alloc, StatusCode::INTERNAL_SERVER_ERROR),
        Response::Stored => write_bare(alloc, StatusCode::OK),
        Response::Snapshot { version, bytes } => {
            let kind = "application/vnd.taskchampion.snapshot";
            let content = Some((kind, bytes.as_slice()));
            write_parts(alloc, StatusCode::OK, content, Some(*version), None, false)
        }
    }
}

fn write_bare(alloc: Global, status: StatusCode) -> Result<Vec<u8>, AllocError>
    ensures { IfOk result (λ v. v.items ≡ text_of_parts status None None None false) }
{
    write_parts(alloc, status, None, None, None, false)
}

#[tactic(auto, unfolding(crate::specs::Messages::head_of_parts))]
fn write_parts(
    alloc: Global,
    status: StatusCode,
    content: Option<(&str, &[u8])>,
    id: Option<Uuid>,
    parent: Option<Uuid>,
    wanted: bool,
) -> Result<Vec<u8>, AllocError>
    ensures text { IfOk result (λ v. v.items ≡ text_of_parts status (option_map (λ c. (c.0.now, c.1.now)) content.entry) id parent wanted) }
    ensures back { IfOk result (λ v. IsReadBack id × IsReadBack parent) }
{
    let mut out = Vec::new(alloc);
    put_status_line(&mut out, status)?;
    put_type_line(&mut out, content)?;
    let bytes = bytes_in(content);
    put_length_line(alloc, &mut out, bytes.len())?;
    put_some_uuid(&mut out, "X-Version-Id: ", id)?;
    put_some_uuid(&mut out, "X-Parent-Version-Id: ", parent)?;
    put_wanted_line(&mut out, wanted)?;
    put(&mut out, "Connection: close\r\n\r\n")?;
    out.extend_from_slice(bytes)?;
    Ok(out)
}

fn put_status_line(out: &mut Vec<u8>, status: StatusCode) -> Result<(), AllocError>
    ensures { OnOk result (out.new.items ≡ out.old.items ++ status_line status) }
{
    put(out, "HTTP/1.1 ")?;
    put(out, status.as_str())?;
    put(out, " ")?;
    put(out, phrase(status))?;
    put(out, "\r\n")
}

fn phrase(status: StatusCode) -> &'static str
    ensures { result.now ≡ unwrap_or (reason_phrase status) [] }
{
    match status.canonical_reason() {
        Some(phrase) => phrase,
        None => "",
    }
}

fn put_type_line(out: &mut Vec<u8>, content: Option<(&str, &[u8])>) -> Result<(), AllocError>
    ensures { OnOk result (out.new.items ≡ out.old.items ++ type_line (option_map (λ c. (c.0.now, c.1.now)) content.entry)) }
{
    match content {
        Some((kind, _)) => put_line(out, "Content-Type: ", kind),
        None => Ok(()),
    }
}

fn put_some_uuid(out: &mut Vec<u8>, name: &str, uuid: Option<Uuid>) -> Result<(), AllocError>
    ensures text { OnOk result (out.new.items ≡ out.old.items ++ uuid_line name.now uuid) }
    ensures back { OnOk result (IsReadBack uuid) }
{
    match uuid {
        Some(uuid) => put_uuid_line(out, name, uuid),
        None => Ok(()),
    }
}

fn put_wanted_line(out: &mut Vec<u8>, wanted: bool) -> Result<(), AllocError>
    ensures { OnOk result (out.new.items ≡ out.old.items ++ wanted_line wanted) }
{
    if wanted {
        put(out, "X-Snapshot-Request: urgency=high\r\n")
    } else {
        Ok(())
    }
}

fn bytes_in<'c>(content: Option<(&str, &'c [u8])>) -> &'c [u8]
    ensures { result.now ≡ bytes_in (option_map (λ c. (c.0.now, c.1.now)) content.entry) }
{
    match content {
        Some((_, bytes)) => bytes,
        None => &[],
    }
}
