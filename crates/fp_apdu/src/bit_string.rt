//! Bit strings (X.690, 8.6).

ghost use Rattle.std.specs.Prelude.{◌↔◌, IsTrue, MatchOption};
ghost use Rattle.fp_apdu.specs.BitString.{IsBitString, HasFirstBit};

/// The most bits that may be unused in the last octet.
const MOST_UNUSED: u8 = 7;

/// Whether the first bit of a bit string with these contents is there and set; `None` if they aren't a bit string.
pub(crate) fn first_bit(octets: &[u8]) -> Option<bool>
    ensures { MatchOption result (¬ IsBitString octets.now)
        (λ first. IsBitString octets.now × (IsTrue first ↔ HasFirstBit octets.now)) }
{
    match octets {
        [0] => Some(false),
        [0..=MOST_UNUSED, octet, ..] => Some(*octet >= 0x80),
        _ => None,
    }
}
