//! The hash of a local identifier.

ghost use Rattle.std.specs.Prelude.{◌≡◌};
ghost use Rattle.fp_row.specs.proof_only.IdentifierHash.{hash_of, written};

use std::hash::Hasher;

/// An odd number near 2^32 divided by the golden ratio.
const MULTIPLIER: u32 = 0x9E37_79B9;

/// Hashes an identifier by its lowest bits, so that identifiers given one after another are side by side in a hash map.
/// For example, the lowest 32 bits of the hash of 7 are 7. You must not use it for keys that a peer can choose: a link
/// gives the identifiers itself, and its peer can only ask for them.
#[derive(Clone, Copy, Debug, Drop)]
pub struct IdentifierHasher {
    // The last identifier.
    identifier: u32,
}

impl Default for IdentifierHasher {
    ghost is_default = { λ hasher. hasher ≡ record { identifier = 0 } };

    fn default() -> IdentifierHasher {
        IdentifierHasher { identifier: 0 }
    }
}

impl Hasher for IdentifierHasher {
    ghost write = { λ hasher octets. record { identifier = written hasher.identifier octets } };

    ghost finish = { λ hasher. hash_of hasher.identifier };

    fn finish(&self) -> u64 {
        let mixed = self.identifier.wrapping_mul(MULTIPLIER) >> 24;
        u64::from(self.identifier) + (u64::from(mixed) << 56)
    }

    fn write(&mut self, octets: &[u8]) {
        if octets.len() >= 4 {
            self.identifier = u32::from_le_bytes([octets[0], octets[1], octets[2], octets[3]]);
        }
    }
}
