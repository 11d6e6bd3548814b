//! A buffer of octets in front of a device.

ghost use Rattle.std.specs.Prelude.{◌≡◌, ◌↔◌, ◌≤◌, ◌+◌, [], IfOk, IsTrue, OnOk, drop, length, vec_capacity};
ghost use Rattle.std.specs.Io.{WritesAtMost};
ghost use Rattle.std.specs.Io.KnownBytes.{Keeps, WriteAppends, append_known};
ghost use Rattle.fp_streams.specs.Device.{CountsFailure, WritesSome};

use fp_streams::{DeviceFault, LinkWrite};
use std::alloc::{AllocError, Global};
use std::marker::Model;

/// Removes this number of octets from the front of a list.
fn drop_front(octets: &mut Vec<u8>, count: usize)
    requires { count ≤ length octets.old.items }
    ensures items { octets.new.items ≡ drop count octets.old.items }
    ensures capacity { vec_capacity octets.new ≡ vec_capacity octets.old }
{
    let left = octets.len() - count;
    if left == 0 {
        octets.clear();
        return;
    }
    octets.rotate_left(count);
    octets.truncate(left);
}

/// Octets that were accepted and that the device doesn't have yet, at most 32,768. The room for them is allocated once.
/// Contracts see the list of the octets.
///
/// Each call borrows the device. So several threads can share this buffer under a lock, each with its own handle of the
/// device. The output is the octets that the device has, followed by the octets in the buffer: `write` adds to it, and
/// `hand_on` doesn't change it.
#[derive(Drop)]
pub struct Gathered {
    octets: Vec<u8>,
}

impl Model for Gathered {
    ghost use Rattle.std.specs.Prelude.{ℕ, ◌≤◌, List, length, vec_capacity};

    ghost Value = { List ℕ };

    ghost view = { λ own. own.octets.items };

    ghost invariant = { λ own. (length own.octets.items ≤ 32768) × (32768 ≤ vec_capacity own.octets) };
}

impl Gathered {
    /// The most octets in the buffer.
    pub const MOST: usize = 32_768;

    /// An empty buffer. The room is allocated here.
    pub fn new(alloc: Global) -> Result<Gathered, AllocError>
        ensures { IfOk result (λ gathered. gathered ≡ []) }
    {
        Ok(Gathered {
            octets: Vec::with_capacity(alloc, Gathered::MOST)?,
        })
    }

    /// Whether the buffer is empty.
    pub fn is_empty(&self) -> bool
        ensures { IsTrue result ↔ (self.now ≡ []) }
    {
        self.octets.is_empty()
    }

    /// Accepts octets, as [`LinkWrite::write`] does: all of them, unless there are more than 32,768. If there is room
    /// for them, the device isn't called. Else the buffer is first handed on to it, and if that fails, no octets are
    /// accepted. Takes no memory.
    pub fn write<W: LinkWrite>(
        &mut self,
        device: &mut W,
        octets: &[u8],
    ) -> Result<usize, DeviceFault>
        ensures bound { WritesAtMost result octets.now }
        ensures some { WritesSome result octets.now }
        ensures octets { WriteAppends (append_known (W.contents device.old) self.old)
            (append_known (W.contents device.new) self.new) result octets.now }
        ensures room { length self.old + length octets.now ≤ Gathered.MOST → device.new ≡ device.old }
        ensures failure { CountsFailure result (W.failures device.old) (W.failures device.new) }
    {
        if octets.len() > Gathered::MOST - self.octets.len() {
            self.hand_on(device)?;
            if octets.len() > Gathered::MOST {
                return device.write(octets);
            }
        }
        let Ok(()) = self.octets.extend_from_slice(octets) else {
            unreachable!()
        };
        Ok(octets.len())
    }

    /// Hands the whole buffer on to the device. If that fails, the octets that the device didn't take stay in the
    /// buffer. Takes no memory.
    pub fn hand_on<W: LinkWrite>(&mut self, device: &mut W) -> Result<(), DeviceFault>
        ensures all { OnOk result (self.new ≡ []) }
        ensures octets { Keeps (append_known (W.contents device.old) self.old)
            (append_known (W.contents device.new) self.new) }
        ensures failure { CountsFailure result (W.failures device.old) (W.failures device.new) }
    {
        while !self.octets.is_empty() {
            let count = device.write(self.octets.as_slice())?;
            drop_front(&mut self.octets, count);
        }
        Ok(())
    }
}

/// A device with a buffer in front of it. Its contents are all octets that it accepted, whether the device has them or
/// not. The buffer is handed on by [`LinkWrite::flush`], and when it is full.
#[derive(Drop)]
pub struct Gathering<W: LinkWrite> {
    /// The device.
    pub device: W,
    /// The octets that the device doesn't have yet.
    pub gathered: Gathered,
}

impl<W: LinkWrite> LinkWrite for Gathering<W> {
    ghost use Rattle.std.specs.Io.KnownBytes.{append_known};

    ghost contents = { λ gathering. append_known (W.contents gathering.device) gathering.gathered };

    ghost failures = { λ gathering. W.failures gathering.device };

    fn write(&mut self, octets: &[u8]) -> Result<usize, DeviceFault> {
        self.gathered.write(&mut self.device, octets)
    }

    fn flush(&mut self) -> Result<(), DeviceFault> {
        self.gathered.hand_on(&mut self.device)?;
        self.device.flush()
    }
}
