// What is asked of the server, and its answers.
ghost use Rattle.std.specs.Prelude.{◌≡◌, ◌≤◌, ◌+◌, List, ℕ, length, IsTrue, IfOk, IfErr, OnErr, Ok};
ghost use Rattle.tw_http.specs.Link.{IsHonest};
ghost use Rattle.tw_http.specs.Messages.{IsHost, max_body, request_text};
ghost use Rattle.tw_http.specs.Responses.{IsResponseAnswer};
ghost use Rattle.tw_http.specs.Serving.{kind_of};
ghost use Rattle.tw_http.specs.declared.message.Request.{Request as HttpRequest};
ghost use Rattle.tw_http.specs.declared.message.Asked.TheVariants as asked;
ghost use Rattle.tw_http.specs.declared.message.Request.TheVariants as asks;
ghost use Rattle.tw_sync.specs.declared.error.AskError.TheVariants as asking;
ghost use Rattle.tw_sync.specs.Ends.Causes.{of_ask};
ghost use Rattle.tw_sync.specs.declared.error.ReplyKind.TheVariants as kinds;
ghost use Rattle.tw_sync.specs.Replies.Heard.{HearsOne, HearsUntilThat};
ghost use Rattle.tw_sync.specs.Ends.Refused.{IsWelcome};
ghost use Rattle.tw_sync.specs.Replies.Answers.{IsLinkKept, GrowsOn, ListsOne, ListsAtMostOne, ServesOn, MayServeOn};
ghost use Rattle.tw_sync.specs.Replies.Answers.{IsChildAnswer, child_response, child_heard, IsAddAnswer, add_response, add_heard};
ghost use Rattle.tw_sync.specs.Replies.Answers.{HasStatus, IsBadlyAnswered, HeardRefusedAsk, AskRefused, NoReply, AddRefused};

use crate::error::{AskError, ReplyKind};
use std::alloc::Global;
use tw_http::{Asked, Bytes, HttpError, Link, Request, Response, read_response, write_request};
use uuid::Uuid;

/// What the server knows after a version.
#[derive(Drop)]
pub enum ChildAnswer {
    /// The version after it, whose id is not nil.
    Found { id: Uuid, segment: Bytes },
    /// There is none.
    UpToDate,
    /// The server does not know the version.
    Gone,
}

/// What became of a version that was sent.
#[derive(Clone, Copy, Drop)]
pub(crate) enum AddAnswer {
    /// It is in the chain under this id, which is not nil.
    /// A snapshot is wanted, or not.
    Added { id: Uuid, wanted: bool },
    /// Its parent is not the latest version, which is this.
    Conflict { latest: Uuid },
}

/// Asks for the version after another.
pub fn ask_child<L: Link>(
    alloc: Global,
    link: &mut L,
    client: Uuid,
    host: &str,
    parent: Uuid,
) -> Result<ChildAnswer, AskError>
    requires host { IsHost host.now }
    ensures answer { IfOk result (λ answer. IsHonest L.model link.old client → IsChildAnswer L.model link.old link.new parent answer) }
    ensures grows { IsHonest L.model link.old client → GrowsOn L.model link.old link.new client }
    ensures own { IsHonest L.model link.old client → L.model.own link.new ≡ L.model.own link.old }
    ensures sends { ListsAtMostOne L.model link.old link.new (request_text (asks.Child client parent) host.now) }
    ensures heard { IfOk result (λ answer. HearsOne L.model client host.now link.old link.new (child_heard client parent answer)) }
    ensures welcome { IfOk result (λ answer. IsWelcome (child_heard client parent answer)) }
    ensures refused { IfErr result (AskRefused L.model link.old link.new) }
    ensures refused_heard { IfErr result (λ e. HearsUntilThat L.model client host.now link.old link.new (of_ask e) (λ hs. HeardRefusedAsk hs e)) }
    ensures refused_honest { IfErr result (λ e. IsHonest L.model link.old client → NoReply e) }
    ensures count { L.model.exchanges link.new ≤ L.model.exchanges link.old + 1 }
    ensures kept { IsLinkKept L.model link.old link.new }
{
    let request = Request::Child { client, parent };
    let reply = exchange(alloc, link, &request, host)?;
    child_answer(alloc, reply.as_slice(), parent)
}

/// Sends a version to be added after another.
pub(crate) fn ask_add<L: Link>(
    alloc: Global,
    link: &mut L,
    client: Uuid,
    host: &str,
    parent: Uuid,
    segment: Vec<u8>,
) -> Result<AddAnswer, AskError>
    requires host { IsHost host.now }
    requires within { length segment.items ≤ max_body }
    ensures answer { IfOk result (λ answer. IsHonest L.model link.old client → IsAddAnswer L.model link.old link.new parent segment.items answer) }
    ensures grows { IsHonest L.model link.old client → GrowsOn L.model link.old link.new client }
    ensures heard { IfOk result (λ answer. HearsOne L.model client host.now link.old link.new (add_heard client parent segment.items answer)) }
    ensures welcome { IfOk result (λ answer. IsWelcome (add_heard client parent segment.items answer)) }
    ensures refused { IfErr result (AskRefused L.model link.old link.new) }
    ensures refused_heard { IfErr result (λ e. HearsUntilThat L.model client host.now link.old link.new (of_ask e) (λ hs. HeardRefusedAsk hs e)) }
    ensures refused_honest { IfErr result (λ e. IsHonest L.model link.old client → AddRefused L.model link.old link.new parent segment.items e) }
    ensures count { L.model.exchanges link.new ≤ L.model.exchanges link.old + 1 }
    ensures kept { IsLinkKept L.model link.old link.new }
{
    let request = Request::Add {
        client,
        parent,
        segment: Bytes::from_vec(segment),
    };
    let reply = exchange(alloc, link, &request, host)?;
    add_answer(alloc, reply.as_slice())
}

/// Sends a request, and gives the bytes of the reply.
pub(crate) fn exchange<L: Link>(
    alloc: Global,
    link: &mut L,
    request: &Request,
    host: &str,
) -> Result<Vec<u8>, AskError>
    requires host { IsHost host.now }
    ensures listed { IfOk result (λ reply. ListsOne L.model link.old link.new (request_text request.now host.now) reply.items) }
    ensures unlisted { OnErr result (IsTrue (L.model.tells_list link.old) → L.model.list link.new ≡ L.model.list link.old) }
    ensures served { IfOk result (λ reply. ServesOn L.model link.old link.new request.now reply.items) }
    ensures may_serve { OnErr result (MayServeOn L.model link.old link.new request.now) }
    ensures refused { IfErr result (AskRefused L.model link.old link.new) }
    ensures no_reply { IfErr result NoReply }
    ensures count { L.model.exchanges link.new ≤ L.model.exchanges link.old + 1 }
    ensures kept { IsLinkKept L.model link.old link.new }
{
    let text = write_request(alloc, request, host)?;
    let mut reply = Vec::new(alloc);
    link.exchange(text.as_slice(), &mut reply)?;
    Ok(reply)
}

// The answer that a reply to get-child-version brings.
fn child_answer(alloc: Global, bytes: &[u8], parent: Uuid) -> Result<ChildAnswer, AskError>
    ensures read { IfOk result (λ answer. IsResponseAnswer asked.Child bytes.now (Ok (child_response parent answer))) }
    ensures welcome { IfOk result (λ answer. (client : List ℕ) → IsWelcome (child_heard client parent answer)) }
    ensures refused { IfErr result (λ e. (client : List ℕ) → IsBadlyAnswered (asks.Child client parent) bytes.now e) }
{
    match read_reply(alloc, bytes, Asked::Child)? {
        Response::Child {
            id: child,
            parent: named,
            segment,
        } => {
            if named != parent {
                return Err(bad_reply(ReplyKind::Parent));
            }
            if child == Uuid::nil() {
                return Err(bad_reply(ReplyKind::Nil));
            }
            Ok(ChildAnswer::Found { id: child, segment })
        }
        Response::UpToDate => Ok(ChildAnswer::UpToDate),
        Response::Gone => Ok(ChildAnswer::Gone),
        Response::Bad | Response::TooLong | Response::Taken => unreachable!(),
        Response::Added { .. } | Response::Conflict { .. } => unreachable!(),
        Response::Stored | Response::Snapshot { .. } => unreachable!(),
    }
}

// The answer that a reply to add-version brings.
fn add_answer(alloc: Global, bytes: &[u8]) -> Result<AddAnswer, AskError>
    ensures read { IfOk result (λ answer. IsResponseAnswer asked.Add bytes.now (Ok (add_response answer))) }
    ensures welcome { IfOk result (λ answer. (client parent segment : List ℕ) → IsWelcome (add_heard client parent segment answer)) }
    ensures refused { IfErr result (λ e. (client parent segment : List ℕ) → IsBadlyAnswered (asks.Add client parent segment) bytes.now e) }
{
    match read_reply(alloc, bytes, Asked::Add)? {
        Response::Added { id, wanted } => {
            if id == Uuid::nil() {
                return Err(bad_reply(ReplyKind::Nil));
            }
            Ok(AddAnswer::Added { id, wanted })
        }
        Response::Conflict { latest } => Ok(AddAnswer::Conflict { latest }),
        Response::Bad | Response::TooLong | Response::Taken => unreachable!(),
        Response::Child { .. } | Response::UpToDate | Response::Gone => unreachable!(),
        Response::Stored | Response::Snapshot { .. } => unreachable!(),
    }
}

// Reads a reply. What can't be read is a bad reply, by its kind.
fn read_reply(alloc: Global, bytes: &[u8], asked: Asked) -> Result<Response, AskError>
    ensures read { IfOk result (λ response. IsResponseAnswer asked bytes.now (Ok response)) }
    ensures answers { IfOk result HasStatus }
    ensures refused { IfErr result (λ e. (request : HttpRequest) → kind_of request ≡ asked → IsBadlyAnswered request bytes.now e) }
{
    match read_response(alloc, bytes, asked) {
        Ok(Response::Bad) => Err(bad_status(400)),
        Ok(Response::TooLong) => Err(bad_status(413)),
        Ok(Response::Taken) => Err(bad_status(500)),
        Ok(response) => Ok(response),
        Err(HttpError::NotYet) => Err(bad_reply(ReplyKind::Cut)),
        Err(HttpError::Head) => Err(bad_reply(ReplyKind::Head)),
        Err(HttpError::Header) => Err(bad_reply(ReplyKind::Header)),
        Err(HttpError::Length) => Err(bad_reply(ReplyKind::Length)),
        Err(HttpError::Status { code }) => Err(bad_status(code)),
        Err(HttpError::TooLong) => Err(bad_reply(ReplyKind::TooLong)),
        Err(HttpError::Memory) => Err(AskError::Memory),
        Err(HttpError::Path) => unreachable!(),
    }
}

fn bad_status(code: u16) -> AskError
    ensures { result ≡ asking.Reply (kinds.Status code) }
{
    bad_reply(ReplyKind::Status { code })
}

fn bad_reply(kind: ReplyKind) -> AskError
    ensures { result ≡ asking.Reply kind }
{
    AskError::Reply { kind }
}
