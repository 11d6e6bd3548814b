//! Devices that count their failures.

ghost use Rattle.std.specs.Prelude.{ℕ, List, Option, None};
ghost use Rattle.std.specs.Io.{ReadsAtMost, WritesAtMost};
ghost use Rattle.std.specs.Io.KnownBytes.{Keeps, ReadConsumes, WriteAppends};
ghost use Rattle.fp_streams.specs.Device.{CountsFailure, WritesSome};
ghost use Rattle.fp_streams.specs.Grows.{TellsPiece};

use crate::DeviceFault;

/// A device to read octets from. It counts its failures.
pub trait LinkRead {
    // The octets that later reads will give, if they are known.
    ghost remaining: { Self → Option (List ℕ) } = { λ _. None };

    // The octets of each read so far, in their order, if they are known.
    ghost pieces: { Self → Option (List (List ℕ)) } = { λ _. None };

    // The number of failures, up to the limit of the count.
    ghost failures: { Self → ℕ };

    /// Reads octets into the front of `octets`, and gives their number. It is 0 only at the end of the input, or if
    /// `octets` has no room. A failed read takes no octets.
    fn read(&mut self, octets: &mut [u8]) -> Result<usize, DeviceFault>
        ensures bound { ReadsAtMost result octets.new }
        ensures octets { ReadConsumes (remaining self.old) (remaining self.new) result octets.new }
        ensures piece { TellsPiece (pieces self.old) (pieces self.new) result octets.new }
        ensures failure { CountsFailure result (failures self.old) (failures self.new) };
}

/// A device to write octets to. It counts its failures. If a write of some octets takes none of them, that is a
/// failure.
pub trait LinkWrite {
    // The octets that the device holds, if they are known.
    ghost contents: { Self → Option (List ℕ) } = { λ _. None };

    // The number of failures, up to the limit of the count.
    ghost failures: { Self → ℕ };

    /// Writes a prefix of `octets`, and gives its length: at least one octet, if there is any. A failed write writes
    /// none.
    fn write(&mut self, octets: &[u8]) -> Result<usize, DeviceFault>
        ensures bound { WritesAtMost result octets.now }
        ensures some { WritesSome result octets.now }
        ensures octets { WriteAppends (contents self.old) (contents self.new) result octets.now }
        ensures failure { CountsFailure result (failures self.old) (failures self.new) };

    /// Hands on all octets that the device has buffered.
    fn flush(&mut self) -> Result<(), DeviceFault>
        ensures octets { Keeps (contents self.old) (contents self.new) }
        ensures failure { CountsFailure result (failures self.old) (failures self.new) };
}
