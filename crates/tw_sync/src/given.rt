// What a new replica asks first: the snapshot of the server.
ghost use Rattle.std.specs.Prelude.{◌≡◌, IfOk, IfErr, Ok};
ghost use Rattle.tw_http.specs.Messages.{IsHost};
ghost use Rattle.tw_http.specs.declared.message.Response.TheVariants as replies;
ghost use Rattle.tw_sync.specs.declared.error.AskError.TheVariants as asking;
ghost use Rattle.tw_sync.specs.Replies.Given.{Brings, ReadsResponse, ReadsGiven, IsAskedFor, IsUnheard};
ghost use Rattle.tw_sync.specs.Replies.Answers.{AskRefused, NoReply};
ghost use Rattle.tw_sync.specs.Ends.Causes.{of_ask};

use crate::ask::exchange;
use crate::error::AskError;
use std::alloc::Global;
use tw_http::{Asked, HttpError, Link, Request, Response, read_response};
use tw_model::Tasks;
use tw_snapshot::read_snapshot;
use uuid::Uuid;

/// The tasks at a version.
#[derive(Drop)]
pub(crate) struct Given {
    pub version: Uuid,
    pub tasks: Tasks,
}

/// Asks for the snapshot that the server stores. A reply that brings none that can be read is passed over.
pub(crate) fn ask_snapshot<L: Link>(
    alloc: Global,
    link: &mut L,
    client: Uuid,
    host: &str,
) -> Result<Option<Given>, AskError>
    requires host { IsHost host.now }
    ensures asked { IfOk result (λ given. IsAskedFor L.model client host.now link.old link.new given) }
    ensures unheard { IfErr result (λ e. IsUnheard L.model client host.now link.old link.new (of_ask e)) }
    ensures no_reply { IfErr result NoReply }
    ensures refused { IfErr result (AskRefused L.model link.old link.new) }
{
    let request = Request::Snapshot { client };
    let reply = exchange(alloc, link, &request, host)?;
    given_in(alloc, reply.as_slice())
}

// The snapshot that a reply brings.
fn given_in(alloc: Global, bytes: &[u8]) -> Result<Option<Given>, AskError>
    ensures read { IfOk result (λ given. ReadsGiven bytes.now given) }
    ensures refused { IfErr result (λ e. e ≡ asking.Memory) }
{
    match response_in(alloc, bytes)? {
        Some(response) => given_by(alloc, response),
        None => Ok(None),
    }
}

// The response that bytes are read as, if they are one.
fn response_in(alloc: Global, bytes: &[u8]) -> Result<Option<Response>, AskError>
    ensures read { IfOk result (ReadsResponse bytes.now) }
    ensures refused { IfErr result (λ e. e ≡ asking.Memory) }
{
    match read_response(alloc, bytes, Asked::Snapshot) {
        Ok(response) => Ok(Some(response)),
        Err(HttpError::Memory) => Err(AskError::Memory),
        Err(_) => Ok(None),
    }
}

fn given_by(alloc: Global, response: Response) -> Result<Option<Given>, AskError>
    ensures brings { IfOk result (λ given. Brings given (Ok response)) }
    ensures refused { IfErr result (λ e. e ≡ asking.Memory) }
{
    match response {
        Response::Snapshot { version, bytes } => given_of(alloc, version, bytes.as_slice()),
        Response::UpToDate | Response::Bad | Response::TooLong | Response::Taken => Ok(None),
        Response::Added { .. } | Response::Conflict { .. } | Response::Child { .. } => Ok(None),
        Response::Gone | Response::Stored => Ok(None),
    }
}

fn given_of(alloc: Global, version: Uuid, bytes: &[u8]) -> Result<Option<Given>, AskError>
    ensures brings { IfOk result (λ given. Brings given (Ok (replies.Snapshot version bytes.now))) }
    ensures refused { IfErr result (λ e. e ≡ asking.Memory) }
{
    match read_snapshot(alloc, bytes)? {
        Some(tasks) => Ok(Some(Given { version, tasks })),
        None => Ok(None),
    }
}
