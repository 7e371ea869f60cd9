// Tags.
ghost use Rattle.std.specs.Prelude.{◌≡◌, ◌++◌, IfOk, codes, option_map};
ghost use Rattle.std.specs.List.{list_all};
ghost use Rattle.tw_terms.specs.Tags.{is_tag_start, is_tag_byte, is_tag_text, virtual_tag, is_virtual, virtual_test, tag_test, signed_tag, tag_in};

use crate::term::Test;
use std::alloc::Global;
use tw_time::look_up;
use tw_urgency::Status;
use tw_world::{Memory, Text};

fn is_tag_start(byte: u8) -> bool
    ensures { result ≡ is_tag_start byte }
{
    byte.is_ascii_uppercase()
        || byte.is_ascii_lowercase()
        || byte == b'_'
        || byte == b'@'
        || byte == b'#'
        || byte == b'$'
        || byte >= 128
}

fn is_tag_byte(byte: u8) -> bool
    ensures { result ≡ is_tag_byte byte }
{
    is_tag_start(byte) || byte.is_ascii_digit() || byte == b'-' || byte == b'.'
}

fn are_tag_bytes(text: &[u8]) -> bool
    ensures { result ≡ list_all is_tag_byte text.now }
{
    text.iter().all(|b| is_tag_byte(*b))
}

// Whether a text may be a tag.
fn is_tag_text(text: &[u8]) -> bool
    ensures { result ≡ is_tag_text text.now }
{
    match text.split_first() {
        Some((first, rest)) => is_tag_start(*first) && are_tag_bytes(rest),
        None => false,
    }
}

// The text of a tag's property.
fn property_of(alloc: Global, tag: &str) -> Result<Text, Memory>
    ensures { IfOk result (λ text. text ≡ codes "tag_" ++ tag.now) }
{
    let mut property = String::from_str(alloc, "tag_")?;
    property.push_str(tag)?;
    Text::from_str(alloc, property.as_str())
}

/// What a virtual tag stands for.
#[derive(Clone, Copy)]
pub(crate) enum VirtualTag {
    Status(Status),
    Active,
    Overdue,
    Blocked,
    Blocking,
    Tagged,
    Annotated,
}

// The virtual tags, by their names.
const VIRTUAL_TAGS: [(&str, VirtualTag); 10] = [
    ("PENDING", VirtualTag::Status(Status::Pending)),
    ("WAITING", VirtualTag::Status(Status::Waiting)),
    ("COMPLETED", VirtualTag::Status(Status::Completed)),
    ("DELETED", VirtualTag::Status(Status::Deleted)),
    ("ACTIVE", VirtualTag::Active),
    ("OVERDUE", VirtualTag::Overdue),
    ("BLOCKED", VirtualTag::Blocked),
    ("BLOCKING", VirtualTag::Blocking),
    ("TAGGED", VirtualTag::Tagged),
    ("ANNOTATED", VirtualTag::Annotated),
];

#[tactic(auto, unfolding(crate::specs::Tags::virtual_tag))]
fn virtual_tag(tag: &str) -> Option<VirtualTag>
    ensures { result ≡ virtual_tag tag.now }
{
    look_up(tag.as_bytes(), &VIRTUAL_TAGS)
}

/// Whether a tag is a virtual one (task(1), "VIRTUAL TAGS"), which stands for a test and can't be set.
pub fn is_virtual(tag: &str) -> bool
    ensures { result ≡ is_virtual tag.now }
{
    virtual_tag(tag).is_some()
}

fn virtual_test(tag: VirtualTag) -> Test
    ensures { result ≡ virtual_test tag }
{
    match tag {
        VirtualTag::Status(status) => Test::HasStatus(status),
        VirtualTag::Active => Test::IsActive,
        VirtualTag::Overdue => Test::IsOverdue,
        VirtualTag::Blocked => Test::IsBlocked,
        VirtualTag::Blocking => Test::IsBlocking,
        VirtualTag::Tagged => Test::IsTagged,
        VirtualTag::Annotated => Test::IsAnnotated,
    }
}

/// The test of a tag: a virtual one, or a property of its own.
pub(crate) fn tag_test(alloc: Global, tag: &str) -> Result<Test, Memory>
    ensures { IfOk result (λ test. test ≡ tag_test tag.now) }
{
    match virtual_tag(tag) {
        Some(tag) => Ok(virtual_test(tag)),
        None => Ok(Test::Has(property_of(alloc, tag)?)),
    }
}

/// The tag of a word `+tag` or `-tag`, and whether it is wanted: an ASCII letter, `_`, `@`, `#`, `$` or a character past
/// ASCII, and after it such ones, ASCII digits, `-` and `.`.
#[tactic(auto, unfolding(crate::specs::Tags::tag_in))]
pub fn tag_in(word: &str) -> Option<(bool, &str)>
    ensures { option_map (λ x. (x.0, x.1.now)) result ≡ tag_in word.now }
{
    if let Some(tag) = word.strip_prefix("+") {
        return signed_tag(true, tag);
    }
    if let Some(tag) = word.strip_prefix("-") {
        return signed_tag(false, tag);
    }
    None
}

fn signed_tag(wanted: bool, tag: &str) -> Option<(bool, &str)>
    ensures { option_map (λ x. (x.0, x.1.now)) result ≡ signed_tag wanted tag.now }
{
    if is_tag_text(tag.as_bytes()) {
        Some((wanted, tag))
    } else {
        None
    }
}
