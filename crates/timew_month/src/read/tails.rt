// What lines had after their moments, so that tags that come again are not read again.
ghost use Rattle.std.specs.Prelude.{◌≡◌, ◌<◌, length, option_map, true, false, Some, None, IfOk, IfSome, slice_index_or};
ghost use Rattle.timew_month.specs.Exact.{IsTail, IsTailOf, read_of};
ghost use Rattle.timew_month.specs.Tail.{tail_of};
ghost use Rattle.timew_month.specs.Tails.{HasBytes};
ghost use Rattle.timew_month.specs.declared.read.tails.TheConstants.{PLACES};

use crate::read::seen::Seen;
use crate::read::tail::{Tail, tail_of};
use std::alloc::Global;
use tw_world::Memory;

const PLACES: usize = 64;

/// What was read of lines, the last one of those that share a place.
#[derive(Drop)]
pub(crate) struct Tails<'a> {
    places: Vec<Option<Seen<'a>>>,
    ghost all: { length places.items ≡ PLACES },
}

// The place of bytes. Tags that differ in their first letter, their last one or in length mostly have places of their own.
fn place_of(bytes: &[u8]) -> usize
    ensures { result < PLACES }
{
    match bytes {
        [b' ', b'#', b' ', first, .., last] => {
            (usize::from(*first) * 5 + usize::from(*last) * 3 + bytes.len() % PLACES) % PLACES
        }
        _ => 0,
    }
}

impl<'a> Tails<'a> {
    pub fn new(alloc: Global) -> Result<Tails<'a>, Memory> {
        let mut places = Vec::with_capacity(alloc, PLACES)?;
        while places.len() < PLACES {
            places.push(None)?;
        }
        Ok(Tails { places })
    }

    /// The tags and the annotation after the moments of a line.
    #[inline(always)]
    pub fn read(&mut self, alloc: Global, bytes: &'a [u8]) -> Result<Option<&Tail>, Memory>
        ensures value { IfOk result (λ read. option_map (λ t. read_of t.now) read ≡ tail_of bytes.now) }
        ensures exact { IfOk result (λ read. IfSome read (λ t. t.now.is_exact ≡ true → IsTail t.now.tags t.now.annotation bytes.now)) }
    {
        let place = place_of(bytes);
        if !self.has(place, bytes) && !self.learn(alloc, place, bytes)? {
            return Ok(None);
        }
        Ok(Some(self.at(place, bytes)))
    }

    // Whether a place has these bytes.
    fn has(&self, place: usize, bytes: &[u8]) -> bool
        requires { place < PLACES }
        ensures { result ≡ true → HasBytes (slice_index_or self.now.places.items place None) bytes.now }
    {
        match &self.places[place] {
            Some(seen) => seen.bytes == bytes,
            None => false,
        }
    }

    // Reads bytes and puts what was read into a place, if they are so written.
    // Not inlined, so that what was seen is found without what this needs.
    #[inline(never)]
    fn learn(&mut self, alloc: Global, place: usize, bytes: &'a [u8]) -> Result<bool, Memory>
        requires { place < PLACES }
        ensures some { IfOk result (λ is. is ≡ true → HasBytes (slice_index_or self.new.places.items place None) bytes.now) }
        ensures none { IfOk result (λ is. is ≡ false → tail_of bytes.now ≡ None) }
    {
        let Some(tail) = tail_of(alloc, bytes)? else {
            return Ok(false);
        };
        self.places[place] = Some(Seen { bytes, tail });
        Ok(true)
    }

    // What was read of these bytes, which a place has.
    fn at(&self, place: usize, bytes: &[u8]) -> &Tail
        requires place { place < PLACES }
        requires has { HasBytes (slice_index_or self.now.places.items place None) bytes.now }
        ensures { IsTailOf result.now bytes.now }
    {
        match &self.places[place] {
            Some(seen) => &seen.tail,
            None => unreachable!(),
        }
    }
}
