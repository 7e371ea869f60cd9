// The numbers of the rows that a command is about.
ghost use Rattle.std.specs.Prelude.{ℕ, ◌≡◌, ◌≤◌, ◌-◌, IfOk};
ghost use Rattle.std.specs.List.Sorted.{IsNonDecreasing};
ghost use Rattle.std.proofs.Props.{props};
ghost use Rattle.timew_cmd.specs.Numbers.{is_among, NoneAmong, IsWindow};

use std::alloc::Global;
use tw_world::Memory;

/// Numbers of rows, as they were given and in rising order, by which each is found by halving.
#[derive(Drop)]
pub struct Chosen<'a> {
    given: &'a [u64],
    rising: Vec<u64>,
    ghost rises: { IsNonDecreasing rising.items } by { Prim.hlevel props },
    ghost same: { (id : ℕ) → is_among rising.items id ≡ is_among given.now id } by { Prim.hlevel props },
}

impl<'a> Chosen<'a> {
    pub fn of(alloc: Global, ids: &'a [u64]) -> Result<Chosen<'a>, Memory>
        ensures { IfOk result (λ chosen. chosen.given.now ≡ ids.now) }
    {
        let mut rising = ids.to_vec(alloc)?;
        rising.sort_unstable();
        let chosen = Chosen { given: ids, rising };
        Ok(chosen)
    }

    /// Whether a number is one of them.
    pub fn has(&self, id: u64) -> bool
        ensures { result ≡ is_among self.now.given.now id }
    {
        self.rising.binary_search(&id).is_ok()
    }

    /// The index of the first of so many rows that has one of these numbers, and the one after the last such row.
    pub fn window(&self, count: usize) -> (usize, usize)
        ensures { IsWindow self.now.given.now count result.0 result.1 }
    {
        let front = self.in_front(count);
        (front, count - self.at_the_end(count - front))
    }

    // How many of so many rows have none of these numbers at the front.
    fn in_front(&self, count: usize) -> usize
        ensures inside { result ≤ count }
        ensures others { NoneAmong self.now.given.now (count - result) count }
    {
        let mut front = 0;
        while front < count && !self.has((count - front) as u64) {
            front += 1;
        }
        front
    }

    // How many of so many rows have none of these numbers at the end.
    fn at_the_end(&self, count: usize) -> usize
        ensures inside { result ≤ count }
        ensures others { NoneAmong self.now.given.now 0 result }
    {
        let mut back = 0;
        while back < count && !self.has(back as u64 + 1) {
            back += 1;
        }
        back
    }
}
