// Where an opening finds each version and each snapshot: the walk over records, from the last one back.
ghost use Rattle.std.specs.Prelude.{◌≡◌, ◌<◌, ◌^◌, ◌++◌, [], ◌∷◌, zero, List, ℕ, map, length, reverse, All, OnOk, IfOk};
ghost use Rattle.tw_records.specs.Bodies.{block_size, kind_in};
ghost use Rattle.tw_records.specs.Table.{sources_of, passing_after, block_after, found_at, version_at, missing};
ghost use Rattle.tw_records.specs.Opening.{IsInside, fresh_by, fresh_after};

use std::alloc::{AllocError, Global};

/// What tells of a record. An opening has one of each record, so that they are small.
#[derive(Clone, Copy)]
pub enum Source {
    /// The version is told by its own record.
    Own { number: u32 },
    /// The version is told by a block, at this place in it.
    Named { block: u32, place: u16, number: u32 },
    /// The record is a block.
    Block { number: u32 },
    /// The record is a stored snapshot.
    Stored { number: u32 },
    /// The record is none of these, or a block that names records that are not there.
    Odd { number: u32 },
}

/// So many records have a number of 32 bits.
const MOST: usize = 0xffff_ffff;

// How many versions are still to be passed over, for which block.
#[derive(Clone, Copy)]
struct Walk {
    passing: u16,
    block: u32,
}

/// The sources of records with these kinds, the last one first. More records than have a number of 32 bits count as want of
/// memory.
pub fn sources_of(alloc: Global, kinds: &[u8]) -> Result<Vec<Source>, AllocError>
    ensures walked { IfOk result (λ sources. (bodies : List (List ℕ)) → kinds.now ≡ map kind_in bodies
        → reverse sources.items ≡ sources_of block_size zero zero (reverse bodies)) }
    ensures inside { IfOk result (λ sources. All (IsInside (length kinds.now)) sources.items) }
{
    if MOST <= kinds.len() {
        return Err(AllocError);
    }
    walk_back(alloc, kinds)
}

fn walk_back(alloc: Global, kinds: &[u8]) -> Result<Vec<Source>, AllocError>
    requires { length kinds.now < 2 ^ 32 }
    ensures { IfOk result (λ sources. (bodies : List (List ℕ)) → kinds.now ≡ map kind_in bodies
        → reverse sources.items ≡ sources_of block_size zero zero (reverse bodies)) }
{
    let mut found = Vec::new(alloc);
    let mut walk = Walk {
        passing: 0,
        block: 0,
    };
    let mut n = kinds.len();
    while 0 < n {
        n -= 1;
        let next = step(&mut found, walk, kinds[n], n as u32)?;
        walk = next;
    }
    end(&mut found, walk)?;
    Ok(found)
}

// One record before those that were walked over.
fn step(found: &mut Vec<Source>, walk: Walk, kind: u8, number: u32) -> Result<Walk, AllocError>
    ensures passing { IfOk result (λ w. w.passing ≡ passing_after block_size walk.passing kind) }
    ensures block { IfOk result (λ w. w.block ≡ block_after walk.block kind number) }
    ensures found { OnOk result (found.new.items ≡ found.old.items ++ reverse (found_at walk.passing walk.block kind number)) }
{
    match kind {
        1 => {
            found.push(version_at(walk, number))?;
            Ok(Walk {
                passing: walk.passing.saturating_sub(1),
                block: walk.block,
            })
        }
        2 => {
            end(found, walk)?;
            found.push(Source::Block { number })?;
            Ok(Walk {
                passing: 256,
                block: number,
            })
        }
        3 => {
            found.push(Source::Stored { number })?;
            Ok(walk)
        }
        _ => {
            found.push(Source::Odd { number })?;
            Ok(walk)
        }
    }
}

fn version_at(walk: Walk, number: u32) -> Source
    ensures { result ≡ version_at walk.passing walk.block number }
{
    if 0 < walk.passing {
        Source::Named {
            block: walk.block,
            place: walk.passing - 1,
            number,
        }
    } else {
        Source::Own { number }
    }
}

// If versions are still to be passed over, the block names records that are not there.
fn end(found: &mut Vec<Source>, walk: Walk) -> Result<(), AllocError>
    ensures { OnOk result (found.new.items ≡ found.old.items ++ missing walk.passing walk.block) }
{
    if 0 < walk.passing {
        found.push(Source::Odd { number: walk.block })?;
    }
    Ok(())
}

/// How many versions come after the last block, by the kinds of the records.
pub fn fresh_versions(kinds: &[u8]) -> u64
    ensures { result ≡ fresh_after 0 kinds.now }
{
    let mut fresh = 0;
    for kind in kinds {
        fresh = fresh_by(fresh, *kind);
    }
    fresh
}

fn fresh_by(fresh: u64, kind: u8) -> u64
    requires { fresh < 2 ^ 63 }
    ensures { result ≡ fresh_by fresh kind }
{
    match kind {
        1 => fresh + 1,
        2 => 0,
        _ => fresh,
    }
}
