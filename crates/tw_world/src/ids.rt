// The identifiers that a run draws.
ghost use Rattle.std.specs.Prelude.{◌≡◌, ◌+◌, ◌/◌, ◌%◌, ◌^◌, take, drop, bit_or, slice_index};
ghost use Rattle.std.specs.Int.{from_be_bytes, w128};
ghost use Rattle.tw_world.specs.Ids.{id_bytes};

/// What the identifiers of a run are drawn from: a point on a circle of 2^128 points, and an odd step.
#[derive(Drop)]
pub struct IdWords {
    pub start: u128,
    pub step: u128,
}

impl IdWords {
    /// The words of 32 random bytes. Takes no memory.
    pub fn from_seed(seed: [u8; 32]) -> IdWords
        ensures start { result.start ≡ from_be_bytes w128 (take 16 seed) }
        ensures step { result.step ≡ bit_or (from_be_bytes w128 (drop 16 seed)) 1 }
    {
        let mut start = [0; 16];
        let mut step = [0; 16];
        start.copy_from_slice(&seed[..16]);
        step.copy_from_slice(&seed[16..]);
        IdWords {
            start: u128::from_be_bytes(start),
            step: u128::from_be_bytes(step) | 1,
        }
    }

    /// Draws an identifier: a random UUID by RFC 9562, section 5.4, of version 4 and variant 10. Takes no memory.
    pub fn next(&mut self) -> [u8; 16]
        ensures id { result ≡ id_bytes self.old.start }
        ensures version { slice_index result 6 / 16 ≡ 4 }
        ensures variant { slice_index result 8 / 64 ≡ 2 }

        ensures start { self.new.start ≡ (self.old.start + self.old.step) % 2 ^ 128 }
        ensures step { self.new.step ≡ self.old.step }
    {
        let mut bytes = self.start.to_be_bytes();
        bytes[6] = (bytes[6] & 0x0f) | 0x40;
        bytes[8] = (bytes[8] & 0x3f) | 0x80;
        self.start = self.start.wrapping_add(self.step);
        bytes
    }
}
