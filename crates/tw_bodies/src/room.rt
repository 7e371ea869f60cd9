// How much room is made before the items of a body are read.
ghost use Rattle.std.specs.Prelude.{◌≡◌, ◌+◌, ◌/◌, min, length};

/// For how many items room is made at first. Each takes some bytes, so that a count which is wrong takes little memory.
pub fn room_for(count: u32, bytes: &[u8]) -> usize
    ensures { result ≡ min (length bytes.now / 16 + 1) count }
{
    let most = bytes.len() / 16 + 1;
    most.min(count as usize)
}
