// Writes a request.
ghost use Rattle.std.specs.Prelude.{◌≡◌, ◌++◌, length, ◌≤◌, List, ℕ, codes, IfOk, OnOk, Some, Ok};
ghost use Rattle.tw_http.specs.Messages.{line, uuid_text, get_head, post_head, get_lines, request_text, request_body, asked_uuid};
ghost use Rattle.tw_http.specs.Messages.{max_body, child_path, fetch_path, IsHost, IsReadBack};
ghost use Rattle.tw_http.specs.Requests.{IsRequestAnswer};
ghost use Rattle.tw_http.specs.Serving.{client_of};

use crate::lines::{put, put_length_line, put_line, put_uuid, put_uuid_line};
use crate::message::Request;
use std::alloc::{AllocError, Global};
use tw_world::Memory;
use uuid::Uuid;

/// Writes a request to a host, `name:port`, as HTTP/1.1 with the fields `Host`, `X-Client-Id` and, if
/// there is a segment or a snapshot, `Content-Type` and `Content-Length` (TaskChampion book, "HTTP Representation").
///
/// A body of more than 16,777,216 bytes is written too, and no server reads it.
pub fn write_request(alloc: Global, request: &Request, host: &str) -> Result<Vec<u8>, Memory>
    requires { IsHost host.now }
    ensures text { IfOk result (λ v. v.items ≡ request_text request.now host.now) }
    ensures back { IfOk result (λ v. (more : List ℕ) → length (request_body request.now) ≤ max_body → IsRequestAnswer (v.items ++ more) (Ok request.now)) }
{
    Ok(parts(alloc, request, host)?)
}

fn parts(alloc: Global, request: &Request, host: &str) -> Result<Vec<u8>, AllocError>
    ensures text { IfOk result (λ v. v.items ≡ request_text request.now host.now) }
    ensures back { IfOk result (λ v. IsReadBack (Some (client_of request.now)) × IsReadBack (asked_uuid request.now)) }
{
    match request {
        Request::Add {
            client,
            parent,
            segment,
        } => write_post(
            alloc,
            "/v1/client/add-version/",
            *parent,
            "application/vnd.taskchampion.history-segment",
            *client,
            host,
            segment.as_slice(),
        ),
        Request::Child { client, parent } => write_child(alloc, *parent, *client, host),
        Request::AddSnapshot {
            client,
            version,
            snapshot,
        } => write_post(
            alloc,
            "/v1/client/add-snapshot/",
            *version,
            "application/vnd.taskchampion.snapshot",
            *client,
            host,
            snapshot.as_slice(),
        ),
        Request::Snapshot { client } => write_fetch(alloc, *client, host),
    }
}

#[tactic(auto, unfolding(crate::specs::Messages::post_head))]
fn write_post(
    alloc: Global,
    path: &str,
    uuid: Uuid,
    kind: &str,
    client: Uuid,
    host: &str,
    body: &[u8],
) -> Result<Vec<u8>, AllocError>
    ensures text { IfOk result (λ v. v.items ≡ post_head (path.now ++ uuid_text uuid) kind.now client host.now (length body.now) ++ body.now) }
    ensures back { IfOk result (λ v. IsReadBack (Some client) × IsReadBack (Some uuid)) }
{
    let mut out = Vec::new(alloc);
    put_start_line(&mut out, "POST ", path, uuid)?;
    put_line(&mut out, "Host: ", host)?;
    put_uuid_line(&mut out, "X-Client-Id: ", client)?;
    put_line(&mut out, "Content-Type: ", kind)?;
    put_length_line(alloc, &mut out, body.len())?;
    put(&mut out, "Connection: close\r\n\r\n")?;
    out.extend_from_slice(body)?;
    Ok(out)
}

fn write_child(alloc: Global, parent: Uuid, client: Uuid, host: &str) -> Result<Vec<u8>, AllocError>
    ensures text { IfOk result (λ v. v.items ≡ get_head (child_path ++ uuid_text parent) client host.now) }
    ensures back { IfOk result (λ v. IsReadBack (Some client) × IsReadBack (Some parent)) }
{
    let mut out = Vec::new(alloc);
    put_start_line(&mut out, "GET ", "/v1/client/get-child-version/", parent)?;
    put_get_lines(&mut out, client, host)?;
    Ok(out)
}

fn write_fetch(alloc: Global, client: Uuid, host: &str) -> Result<Vec<u8>, AllocError>
    ensures text { IfOk result (λ v. v.items ≡ get_head fetch_path client host.now) }
    ensures back { IfOk result (λ v. IsReadBack (Some client)) }
{
    let mut out = Vec::new(alloc);
    put_line(&mut out, "GET /v1/client/snapshot", " HTTP/1.1")?;
    put_get_lines(&mut out, client, host)?;
    Ok(out)
}

#[tactic(auto, unfolding(crate::specs::Messages::get_lines))]
fn put_get_lines(out: &mut Vec<u8>, client: Uuid, host: &str) -> Result<(), AllocError>
    ensures text { OnOk result (out.new.items ≡ out.old.items ++ get_lines client host.now) }
    ensures back { OnOk result (IsReadBack (Some client)) }
{
    put_line(out, "Host: ", host)?;
    put_uuid_line(out, "X-Client-Id: ", client)?;
    put(out, "Connection: close\r\n\r\n")
}

fn put_start_line(out: &mut Vec<u8>, method: &str, path: &str, uuid: Uuid) -> Result<(), AllocError>
    ensures text { OnOk result (out.new.items ≡ out.old.items ++ line (method.now ++ (path.now ++ uuid_text uuid) ++ codes " HTTP/1.1")) }
    ensures back { OnOk result (IsReadBack (Some uuid)) }
{
    put(out, method)?;
    put(out, path)?;
    put_uuid(out, uuid)?;
    put(out, " HTTP/1.1\r\n")
}
