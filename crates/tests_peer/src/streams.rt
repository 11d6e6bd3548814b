//! The streams of a run in memory, which its clients and its test share.

use crate::device::{Device, Mood};
use crate::memory::{Shared, Text, await_text, lacks_text, text};
use crate::typed::{Given, Typed, given};
use crate::unmet::Unmet;
use std::alloc::{AllocError, Global};
use std::net::SocketAddr;
use std::rt::Clock;
use std::sync::{Arc, Mutex, Wait};
use std::thread;
use std::time::Duration;

/// How often it is looked whether an address or enough octets came, each 20 milliseconds.
const MOST_LOOKS: u32 = 3_000;

/// How many of these looks in turn find a log that doesn't grow any more.
const STILL_LOOKS: u32 = 100;

/// The output, the log, the errors and the commands of a run.
#[derive(Drop)]
pub struct Streams {
    output: Text,
    // The log, as far as it was written.
    log: Text,
    // The events, as far as they were written.
    errors: Text,
    mood: Arc<Mutex<Mood>>,
    // The commands that the run is given, which have no end if it ends with its links.
    commands: Given,
}

/// The first line of a text, if it is complete, and what follows it.
fn first_line(text: &[u8]) -> Option<(&str, &str)> {
    str::from_utf8(text).ok()?.split_once('\n')
}

/// The address in the first line of a text, if that line is complete.
fn address_in(text: &[u8]) -> Option<SocketAddr> {
    let (line, _) = first_line(text)?;
    line.strip_prefix("listening ")?.parse().ok()
}

impl Streams {
    /// Empty streams of a run, the device of whose log has this mood. Commands may come if this says so.
    pub fn new(alloc: Global, mood: Mood, has_commands: bool) -> Result<Streams, AllocError> {
        Ok(Streams {
            output: text(alloc)?,
            log: text(alloc)?,
            errors: text(alloc)?,
            mood: Arc::new(alloc, Mutex::new(mood))?,
            commands: given(alloc, has_commands)?,
        })
    }

    /// The writer of the output.
    pub fn output<'x, R: Wait>(&'x self, rt: &'x R, alloc: Global) -> Shared<'x, R> {
        Shared::new(rt, alloc, &self.output)
    }

    /// The device of the log.
    pub fn log<R: Wait + Clock + Copy>(&self, rt: &R) -> Result<Device<R>, AllocError> {
        Device::new(rt, &self.log, &self.mood)
    }

    /// The device of the errors, which takes octets at once.
    pub fn errors<R: Wait + Clock + Copy>(
        &self,
        rt: &R,
        alloc: Global,
    ) -> Result<Device<R>, AllocError> {
        let ready = Arc::new(alloc, Mutex::new(Mood::Takes(0)))?;
        Device::new(rt, &self.errors, &ready)
    }

    /// The reader of the commands.
    pub fn commands<R: Wait + Clock + Copy>(&self, rt: &R) -> Result<Typed<R>, AllocError> {
        Typed::new(rt, &self.commands)
    }

    /// Waits until the run reports its address, and gives it. It is an error if it hadn't in time.
    pub fn address<R: Wait + Clock>(&self, rt: &R) -> Result<SocketAddr, Unmet> {
        for _ in 0..MOST_LOOKS {
            if let Some(address) = address_in(self.output.lock(rt).as_slice()) {
                return Ok(address);
            }
            thread::sleep(rt, Duration::from_millis(20));
        }
        Err(Unmet::Failed("the run reported no address in time"))
    }

    /// Waits until the log has this in it. It is an error if it hadn't in time.
    pub fn await_log<R: Wait + Clock>(
        &self,
        rt: &R,
        alloc: Global,
        wanted: &str,
    ) -> Result<(), Unmet> {
        await_text(rt, alloc, "log", &self.log, wanted)
    }

    /// It is an error if the log has this in it.
    pub fn lacks_in_log<R: Wait>(&self, rt: &R, unwanted: &str) -> Result<(), Unmet> {
        lacks_text(rt, &self.log, unwanted)
    }

    /// Waits until the errors have this in them. It is an error if they hadn't in time.
    pub fn await_errors<R: Wait + Clock>(
        &self,
        rt: &R,
        alloc: Global,
        wanted: &str,
    ) -> Result<(), Unmet> {
        await_text(rt, alloc, "events", &self.errors, wanted)
    }

    /// Waits until the log has at least this number of octets. It is an error if it hadn't in time.
    pub fn await_octets<R: Wait + Clock>(&self, rt: &R, count: usize) -> Result<(), Unmet> {
        for _ in 0..MOST_LOOKS {
            if self.log.lock(rt).len() >= count {
                return Ok(());
            }
            thread::sleep(rt, Duration::from_millis(20));
        }
        Err(Unmet::Failed("the log hadn't enough octets in time"))
    }

    /// Waits until the log hasn't grown for two seconds. It is an error if it grew all the time.
    pub fn await_still_log<R: Wait + Clock>(&self, rt: &R) -> Result<(), Unmet> {
        let mut count = 0;
        let mut still: u32 = 0;
        for _ in 0..MOST_LOOKS {
            let now = self.log.lock(rt).len();
            still = if now == count {
                still.saturating_add(1)
            } else {
                0
            };
            if still >= STILL_LOOKS {
                return Ok(());
            }
            count = now;
            thread::sleep(rt, Duration::from_millis(20));
        }
        Err(Unmet::Failed("the log grew all the time"))
    }

    /// Gives the run commands. It is an error if it takes none.
    pub fn command<R: Wait>(&self, rt: &R, text: &str) -> Result<(), Unmet> {
        let mut commands = self.commands.lock(rt);
        let given = commands.as_mut().ok_or("the run takes no commands")?;
        given.extend_from_slice(text.as_bytes())?;
        Ok(())
    }

    /// From now on the device of the log has this mood.
    pub fn set_mood<R: Wait>(&self, rt: &R, mood: Mood) {
        *self.mood.lock(rt) = mood;
    }

    /// Ends the threads of a run that is over: one that still writes the log, and one that reads commands. Gives what
    /// the log had before. `None`: out of memory.
    pub fn end<R: Wait>(&self, rt: &R, alloc: Global) -> Option<Vec<u8>> {
        let log = self.log.lock(rt).to_vec(alloc).ok();
        self.set_mood(rt, Mood::Takes(0));
        *self.commands.lock(rt) = None;
        log
    }

    /// What the run printed, without the line of its address. `None`: out of memory.
    pub fn told<R: Wait>(&self, rt: &R, alloc: Global) -> Option<Vec<u8>> {
        let output = self.output.lock(rt);
        match first_line(output.as_slice()) {
            Some((_, told)) => told.as_bytes().to_vec(alloc).ok(),
            None => Some(Vec::new(alloc)),
        }
    }

    /// What the run wrote to its errors. `None`: out of memory.
    pub fn written_errors<R: Wait>(&self, rt: &R, alloc: Global) -> Option<Vec<u8>> {
        self.errors.lock(rt).to_vec(alloc).ok()
    }
}
