//! A device over memory for the log of a run, which may be slow, fail or hang.

ghost use Rattle.std.specs.Prelude.{◌≤◌, IfSome};

use std::alloc::AllocError;
use std::io::{ErrorKind, Write};
use std::rt::Clock;
use std::sync::{Arc, Mutex, Wait};
use std::time::Duration;
use std::{io, thread};

/// How a device takes octets.
#[derive(Clone, Copy)]
pub enum Mood {
    /// Each write takes this number of milliseconds.
    Takes(u64),
    /// This number of octets are taken, and then each write fails.
    Fails(usize),
    /// A write doesn't return.
    Hangs,
}

/// A device over memory whose mood another thread may change.
#[derive(Drop)]
pub struct Device<R: Wait + Clock + Copy> {
    rt: R,
    text: Arc<Mutex<Vec<u8>>>,
    mood: Arc<Mutex<Mood>>,
}

impl<R: Wait + Clock + Copy> Device<R> {
    /// A device that writes to this text, in this mood.
    pub fn new(
        rt: &R,
        text: &Arc<Mutex<Vec<u8>>>,
        mood: &Arc<Mutex<Mood>>,
    ) -> Result<Device<R>, AllocError> {
        Ok(Device {
            rt: *rt,
            text: Arc::try_clone(text)?,
            mood: Arc::try_clone(mood)?,
        })
    }

    /// How many of this number of octets are taken now. `None`: none, the write hangs.
    fn take(&mut self, count: usize) -> Option<usize>
        ensures { IfSome result (λ taken. taken ≤ count) }
    {
        let mut mood = self.mood.lock(&self.rt);
        match *mood {
            Mood::Takes(_) => Some(count),
            Mood::Fails(room) => {
                let count = count.min(room);
                *mood = Mood::Fails(room - count);
                Some(count)
            }
            Mood::Hangs => None,
        }
    }

    /// How long a write takes.
    fn pause(&self) -> Duration {
        match *self.mood.lock(&self.rt) {
            Mood::Takes(milliseconds) => Duration::from_millis(milliseconds),
            Mood::Fails(_) | Mood::Hangs => Duration::ZERO,
        }
    }
}

impl<R: Wait + Clock + Copy> Write for Device<R> {
    fn write(&mut self, octets: &[u8]) -> io::Result<usize> {
        let own = self.rt;
        for _ in own.forever() {
            thread::sleep(&own, self.pause());
            match self.take(octets.len()) {
                Some(0) => return Err(io::Error::from(ErrorKind::StorageFull)),
                Some(count) => {
                    let taken = octets.get(..count).unwrap_or(octets);
                    self.text.lock(&own).extend_from_slice(taken)?;
                    return Ok(count);
                }
                None => thread::sleep(&own, Duration::from_millis(10)),
            }
        }
        unreachable!()
    }

    fn flush(&mut self) -> io::Result<()> {
        Ok(())
    }
}
