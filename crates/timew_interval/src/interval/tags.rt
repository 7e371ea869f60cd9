// Tags in byte order, each once.
ghost use Rattle.std.specs.Prelude.{◌≡◌, ◌≤◌, ◌==◌, ◌++◌, ◌∷◌, [], fold, length, OnOk, IfOk, IfErr, true, false, ◌<◌, filter, not};
ghost use Rattle.std.specs.List.{insert as insert_at, list_any};
ghost use Rattle.tw_world.specs.Folder.{bytes_cmp, add_name as add_tag, same_bytes};

use std::alloc::Global;
use std::cmp::Ordering;
use tw_world::{Memory, Text};

// Whether a text is before another in byte order, after it, or the same.
fn order_of(tag: &str, other: &Text) -> Ordering
    ensures { result ≡ bytes_cmp tag.now other.now }
{
    tag.cmp(&other.as_str())
}

// The index of a tag among tags that rise: its own, or the one that it would get.
fn index_of(tags: &Vec<Text>, tag: &str) -> Result<usize, usize>
    ensures there { OnOk result (add_tag tag.now tags.now.items ≡ tags.now.items) }
    ensures absent { IfErr result (λ at. (at ≤ length tags.now.items) × (add_tag tag.now tags.now.items ≡ insert_at tags.now.items at tag.now)) }
{
    for at in 0..tags.len() {
        match order_of(tag, &tags[at]) {
            Ordering::Less => return Err(at),
            Ordering::Equal => return Ok(at),
            Ordering::Greater => {}
        }
    }
    Err(tags.len())
}

/// Puts a tag among tags that rise, if it is not there.
pub fn add_tag(alloc: Global, tags: &mut Vec<Text>, tag: &str) -> Result<(), Memory>
    ensures { OnOk result (tags.new.items ≡ add_tag tag.now tags.old.items) }
{
    if let Err(at) = index_of(tags, tag) {
        let tag = Text::from_str(alloc, tag)?;
        tags.insert(at, tag)?;
    }
    Ok(())
}

pub(crate) fn with_all(
    alloc: Global,
    tags: Vec<Text>,
    others: &Vec<Text>,
) -> Result<Vec<Text>, Memory>
    ensures { IfOk result (λ all. all.items ≡ fold (λ had tag. add_tag tag had) tags.items others.now.items) }
{
    let mut tags = tags;
    for tag in others {
        add_tag(alloc, &mut tags, tag.as_str())?;
    }
    Ok(tags)
}

fn is_same(tag: &Text, other: &Text) -> bool
    ensures { result ≡ same_bytes tag.now other.now }
{
    tag.as_str() == other.as_str()
}

fn is_one_of(tag: &Text, tags: &Vec<Text>) -> bool
    ensures { result ≡ list_any (same_bytes tag.now) tags.now.items }
{
    for other in tags {
        if is_same(tag, other) {
            return true;
        }
    }
    false
}

pub(crate) fn without_all(
    alloc: Global,
    tags: &Vec<Text>,
    others: &Vec<Text>,
) -> Result<Vec<Text>, Memory>
    ensures { IfOk result (λ left. left.items ≡ filter (λ tag. not (list_any (same_bytes tag) others.now.items)) tags.now.items) }
{
    let mut left = Vec::new(alloc);
    for tag in tags {
        if !is_one_of(tag, others) {
            push_copy(alloc, &mut left, tag)?;
        }
    }
    Ok(left)
}

/// Puts a copy of a text after others.
pub fn push_copy(alloc: Global, texts: &mut Vec<Text>, text: &Text) -> Result<(), Memory>
    ensures { OnOk result (texts.new.items ≡ texts.old.items ++ text.now ∷ []) }
{
    let copy = text.copy(alloc)?;
    texts.push(copy)?;
    Ok(())
}

pub(crate) fn copy_texts(alloc: Global, texts: &Vec<Text>) -> Result<Vec<Text>, Memory>
    ensures { IfOk result (λ copies. copies.items ≡ texts.now.items) }
{
    let mut copies = Vec::with_capacity(alloc, texts.len())?;
    for text in texts {
        push_copy(alloc, &mut copies, text)?;
    }
    Ok(copies)
}
