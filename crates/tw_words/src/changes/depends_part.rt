// What `depends:` names.
ghost use Rattle.std.specs.Prelude.{◌≡◌, is_some, option_map, drop, cond};
ghost use Rattle.tw_terms.specs.Cuts.{parts};
ghost use Rattle.tw_words.specs.Modifications.{named_number, named_in, takes_out, item_in, are_items};

use tw_terms::{cut_part, number_in, uuid_of_36};
use uuid::Uuid;

/// A task, by its uuid or its number.
#[derive(Clone, Copy, Drop)]
pub(crate) enum Named {
    Task(Uuid),
    Number(u64),
}

fn named_in(text: &str) -> Option<Named>
    ensures { result ≡ named_in text.now }
{
    match uuid_of_36(text) {
        Some(uuid) => Some(Named::Task(uuid)),
        None => match number_in(text) {
            Some(n) => Some(Named::Number(n)),
            None => None,
        },
    }
}

/// Whether a part takes a dependency out.
pub(crate) fn takes_out(text: &str) -> bool
    ensures { result ≡ takes_out text.now }
{
    text.as_bytes().starts_with(b"-")
}

/// The task that a part names.
pub(crate) fn item_in(text: &str) -> Option<Named>
    ensures { result ≡ item_in text.now }
{
    match text.strip_prefix("-") {
        Some(rest) => named_in(rest),
        None => named_in(text),
    }
}

/// Whether each part of a text with commas names a task.
pub(crate) fn are_items(text: &str) -> bool
    ensures { result ≡ are_items (parts 44 text.now) }
{
    let mut left = Some(text);
    while let Some(text) = left {
        let (part, rest) = cut_part(text);
        if item_in(part).is_none() {
            return false;
        }
        left = rest;
    }
    true
}
