//! Commands that a test gives while a run goes on.

use std::alloc::{AllocError, Global};
use std::io::Read;
use std::rt::Clock;
use std::sync::{Arc, Mutex, Wait};
use std::time::Duration;
use std::{io, thread};

/// For how many milliseconds a reader sleeps that finds no commands.
const REST_MILLISECONDS: u64 = 10;

/// Commands that were given and aren't read yet. `None`: no more come.
pub type Given = Arc<Mutex<Option<Vec<u8>>>>;

/// No commands yet. More may come if this says so.
pub fn given(alloc: Global, is_open: bool) -> Result<Given, AllocError> {
    let commands = if is_open { Some(Vec::new(alloc)) } else { None };
    Ok(Arc::new(alloc, Mutex::new(commands))?)
}

/// A reader of such commands. It waits for the next one, as a reader of a FIFO does.
#[derive(Drop)]
pub struct Typed<R: Wait + Clock + Copy> {
    rt: R,
    given: Given,
}

impl<R: Wait + Clock + Copy> Typed<R> {
    /// A reader of what is given here.
    pub fn new(rt: &R, given: &Given) -> Result<Typed<R>, AllocError> {
        Ok(Typed {
            rt: *rt,
            given: Arc::try_clone(given)?,
        })
    }
}

impl<R: Wait + Clock + Copy> Read for Typed<R> {
    fn read(&mut self, room: &mut [u8]) -> io::Result<usize> {
        let own = self.rt;
        for _ in own.forever() {
            let mut guard = self.given.lock(&own);
            let Some(commands) = guard.as_mut() else {
                return Ok(0);
            };
            let count = commands.len().min(room.len());
            if count > 0 {
                for (place, octet) in room.iter_mut().zip(commands.drain(..count)) {
                    *place = octet;
                }
                return Ok(count);
            }
            drop(guard);
            thread::sleep(&own, Duration::from_millis(REST_MILLISECONDS));
        }
        unreachable!()
    }
}
