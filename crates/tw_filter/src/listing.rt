// The part of a filter that lists the tasks to look at.
ghost use Rattle.std.specs.Prelude.{◌≡◌, ◌<◌, ◌+◌, ◌^◌, false};
ghost use Rattle.std.specs.Option.{option_copied};
ghost use Rattle.tw_urgency.specs.Status.{has_status};
ghost use Rattle.tw_terms.specs.Holds.{passes};
ghost use Rattle.tw_filter.specs.Looked.{stored_word, is_listing, is_listed, depth_after, joins_otherwise, is_one_and};
ghost use Rattle.tw_filter.specs.Looked.{is_turned_after, asked_part, listing_here, first_listing, listing_part};

use tw_model::TaskMap;
use tw_terms::{Term, Test, Token, has, is_within};
use tw_urgency::{Status, is_tag};

// The word with which the tasks of a status are stored.
fn stored_word(status: Status) -> Option<&'static str>
    ensures { option_copied result ≡ stored_word status }
{
    match status {
        Status::Pending => Some("pending"),
        Status::Waiting => Some("pending"),
        Status::Completed => Some("completed"),
        Status::Deleted => Some("deleted"),
        Status::Recurring => Some("recurring"),
        Status::Other => None,
    }
}

// Whether it asks for a tag, a status or a project.
fn is_listing(test: &Test) -> bool
    ensures { result ≡ is_listing test.now }
{
    match test {
        Test::Has(property) => is_tag(property.as_str()),
        Test::HasStatus(status) => stored_word(*status).is_some(),
        Test::IsWithin(_, _) => true,
        _ => false,
    }
}

// Whether a task is stored with a status.
fn is_stored_as(task: &TaskMap, status: Status) -> bool
    ensures { result ≡ passes (λ word. has_status word task.now) (stored_word status) }
{
    match stored_word(status) {
        Some(word) => task.get("status") == Some(word),
        None => false,
    }
}

/// Whether a part lists a task, which one property of it says. Without a part each task is listed.
pub(crate) fn is_listed(part: Option<&Test>, task: &TaskMap) -> bool
    ensures { result ≡ is_listed (option_copied part.entry) task.now }
{
    match part {
        Some(Test::Has(property)) => has(task, property),
        Some(Test::HasStatus(status)) => is_stored_as(task, *status),
        Some(Test::IsWithin(property, project)) => is_within(task, property, project),
        _ => true,
    }
}

// How many brackets are open after a token.
fn depth_after(depth: usize, token: &Token) -> usize
    requires { depth + 1 < 2 ^ 64 }
    ensures { result ≡ depth_after depth token.now }
{
    match token {
        Token::Open => depth + 1,
        Token::Close => depth.saturating_sub(1),
        _ => depth,
    }
}

// Whether a token joins what is outside of brackets otherwise than by `and`.
fn joins_otherwise(depth: usize, token: &Token) -> bool
    ensures { result ≡ joins_otherwise depth token.now }
{
    match token {
        Token::Xor | Token::Or | Token::Close => depth == 0,
        _ => false,
    }
}

// Whether tokens are the parts of one `and`.
fn is_one_and(tokens: &[Token]) -> bool
    ensures { result ≡ is_one_and 0 tokens.now }
{
    let mut depth = 0;
    for token in tokens {
        if joins_otherwise(depth, token) {
            return false;
        }
        depth = depth_after(depth, token);
    }
    depth == 0
}

// Whether `!` turns round what comes after a token.
fn is_turned_after(is_turned: bool, token: &Token) -> bool
    ensures { result ≡ is_turned_after is_turned token.now }
{
    match token {
        Token::Not => true,
        Token::And => is_turned,
        _ => false,
    }
}

fn asked_part(is_part: bool, term: &Term) -> Option<&Test>
    ensures { option_copied result ≡ asked_part is_part term.now }
{
    if is_part && term.wanted && is_listing(&term.test) {
        Some(&term.test)
    } else {
        None
    }
}

// The test of a token outside of brackets and not after `!`, if it lists tasks.
fn listing_here(depth: usize, is_turned: bool, token: &Token) -> Option<&Test>
    ensures { option_copied result ≡ listing_here depth is_turned token.now }
{
    match token {
        Token::Asked(term) => asked_part(depth == 0 && !is_turned, term),
        _ => None,
    }
}

// The first such test.
fn first_listing(tokens: &[Token]) -> Option<&Test>
    ensures { option_copied result ≡ first_listing 0 false tokens.now }
{
    let mut depth = 0;
    let mut is_turned = false;
    for token in tokens {
        if let Some(test) = listing_here(depth, is_turned, token) {
            return Some(test);
        }
        is_turned = is_turned_after(is_turned, token);
        depth = depth_after(depth, token);
    }
    None
}

/// The first part that lists tasks, if all tokens are parts of one `and`.
pub(crate) fn listing_part(tokens: &[Token]) -> Option<&Test>
    ensures { option_copied result ≡ listing_part tokens.now }
{
    if is_one_and(tokens) {
        first_listing(tokens)
    } else {
        None
    }
}
