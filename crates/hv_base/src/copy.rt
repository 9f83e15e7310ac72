//! Copies the next bytes of a source that holds them in memory.
ghost use Rattle.std.specs.Prelude.{◌≡◌, ◌<◌, length, take, min};

/// Copies the front of the bytes, at most `most` of them, and says how many.
pub fn copy_front(from: &[u8], most: usize, into: &mut [u8]) -> usize
    ensures count { result ≡ min (min (length from.now) most) (length into.old) }
    ensures bytes { take result into.new ≡ take result from.now }
{
    let count = from.len().min(most).min(into.len());
    into[..count].copy_from_slice(&from[..count]);
    count
}
