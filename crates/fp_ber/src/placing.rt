//! Octets written before a position.

ghost use Rattle.std.specs.Prelude.{◌≤◌, length};
ghost use Rattle.fp_ber.specs.Canon.{Puts};

/// Writes octets so that they end at `end`, and gives their position. There must be room before
/// `end`.
pub fn put(octets: &[u8], out: &mut [u8], end: usize) -> usize
    requires room { length octets.now ≤ end }
    requires end { end ≤ length out.old }
    ensures { Puts octets.now out.old out.new result end }
{
    let start = end - octets.len();
    out[start..end].copy_from_slice(octets);
    start
}
