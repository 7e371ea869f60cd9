// What a line has after its moments, and whether it is there as it is written.
ghost use Rattle.std.specs.Prelude.{◌≡◌, ◌++◌, [], true, option_map, codes, IfOk, IfSome};
ghost use Rattle.timew_month.specs.Exact.{IsTail, read_of};
ghost use Rattle.timew_month.specs.Line.{after};
ghost use Rattle.timew_month.specs.Tail.{marked, tail_of};

use crate::read::bare::bare_tags;
use crate::read::reader::marked_by_steps;
use std::alloc::Global;
use timew_interval::{Texts, put_tail};
use tw_world::{Memory, Text};

/// The tags and the annotation of a line, and whether the line has them as they are written.
#[derive(Drop)]
pub(crate) struct Tail {
    pub tags: Texts,
    pub annotation: Text,
    pub is_exact: bool,
}

/// What follows a text, if the bytes begin with it.
pub(crate) fn after<'a>(front: &[u8], bytes: &'a [u8]) -> Option<&'a [u8]>
    ensures { option_map (λ b. b.now) result ≡ after front.now bytes.now }
{
    if bytes.len() >= front.len() && &bytes[..front.len()] == front {
        Some(&bytes[front.len()..])
    } else {
        None
    }
}

// Whether tags and an annotation are written as these bytes after ` # `.
fn is_written(alloc: Global, tags: &Texts, annotation: &Text, bytes: &[u8]) -> Result<bool, Memory>
    ensures { IfOk result (λ is. is ≡ true → IsTail tags.now annotation.now (codes " # " ++ bytes.now)) }
{
    let mut text = Vec::with_capacity(alloc, bytes.len().saturating_add(3))?;
    put_tail(&mut text, tags, annotation.as_str().as_bytes())?;
    match after(b" # ", &text) {
        Some(rest) => Ok(rest == bytes),
        None => Ok(false),
    }
}

// The tags and the annotation after ` # `.
fn marked(alloc: Global, bytes: &[u8]) -> Result<Option<Tail>, Memory>
    ensures value { IfOk result (λ read. option_map read_of read ≡ marked bytes.now) }
    ensures exact { IfOk result (λ read. IfSome read (λ t. t.is_exact ≡ true → IsTail t.tags t.annotation (codes " # " ++ bytes.now))) }
{
    if let Some(tags) = bare_tags(alloc, bytes)? {
        return Ok(Some(Tail {
            tags,
            annotation: Text::from_str(alloc, "")?,
            is_exact: true,
        }));
    }
    let Some((tags, annotation)) = marked_by_steps(alloc, bytes)? else {
        return Ok(None);
    };
    let is_exact = is_written(alloc, &tags, &annotation, bytes)?;
    Ok(Some(Tail {
        tags,
        annotation,
        is_exact,
    }))
}

/// The tags and the annotation after the moments.
pub(crate) fn tail_of(alloc: Global, bytes: &[u8]) -> Result<Option<Tail>, Memory>
    ensures value { IfOk result (λ read. option_map read_of read ≡ tail_of bytes.now) }
    ensures exact { IfOk result (λ read. IfSome read (λ t. t.is_exact ≡ true → IsTail t.tags t.annotation bytes.now)) }
{
    match bytes {
        [] => Ok(Some(Tail {
            annotation: Text::from_str(alloc, "")?,
            tags: Texts::new(alloc),
            is_exact: true,
        })),
        [b' ', b'#', b' ', rest @ ..] => marked(alloc, rest),
        _ => Ok(None),
    }
}
