//! Readers and writers with a count of their failures.

ghost use Rattle.std.specs.Prelude.{◌≡◌, ◌≢◌};

use crate::{DeviceFault, LinkRead, LinkWrite};
use std::io::{ErrorKind, Read, Write};

/// A reader or a writer, and the number of its failures. The count wraps after 2^64 - 1.
///
/// An interrupted call is repeated and is no failure, up to 2^64 - 1 times.
#[derive(Drop)]
pub struct Counted<D> {
    /// The reader or the writer.
    pub device: D,
    /// The number of failures.
    pub failed: u64,
}

impl<D> Counted<D> {
    /// A reader or a writer that hasn't failed yet.
    pub fn new(device: D) -> Counted<D>
        ensures device { result.device ≡ device }
        ensures failed { result.failed ≡ 0 }
    {
        Counted { device, failed: 0 }
    }

    /// Counts a failure.
    fn fail(&mut self) -> DeviceFault
        ensures device { self.new.device ≡ self.old.device }
        ensures failed { self.new.failed ≢ self.old.failed }
    {
        self.failed = self.failed.wrapping_add(1);
        DeviceFault
    }
}

impl<R: Read> LinkRead for Counted<R> {
    ghost remaining = { λ counted. R.remaining counted.device };

    ghost failures = { λ counted. counted.failed };

    fn read(&mut self, octets: &mut [u8]) -> Result<usize, DeviceFault> {
        for _ in 0..u64::MAX {
            match self.device.read(octets) {
                Ok(count) => return Ok(count),
                Err(error) if error.kind() == ErrorKind::Interrupted => {}
                Err(_) => return Err(self.fail()),
            }
        }
        Err(self.fail())
    }
}

impl<W: Write> LinkWrite for Counted<W> {
    ghost contents = { λ counted. W.contents counted.device };

    ghost failures = { λ counted. counted.failed };

    fn write(&mut self, octets: &[u8]) -> Result<usize, DeviceFault> {
        for _ in 0..u64::MAX {
            match self.device.write(octets) {
                Ok(0) if !octets.is_empty() => return Err(self.fail()),
                Ok(count) => return Ok(count),
                Err(error) if error.kind() == ErrorKind::Interrupted => {}
                Err(_) => return Err(self.fail()),
            }
        }
        Err(self.fail())
    }

    fn flush(&mut self) -> Result<(), DeviceFault> {
        for _ in 0..u64::MAX {
            match self.device.flush() {
                Ok(()) => return Ok(()),
                Err(error) if error.kind() == ErrorKind::Interrupted => {}
                Err(_) => return Err(self.fail()),
            }
        }
        Err(self.fail())
    }
}
