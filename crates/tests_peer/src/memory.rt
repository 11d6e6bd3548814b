//! Texts that one thread writes and others read meanwhile.

use crate::unmet::Unmet;
use std::alloc::{AllocError, Global};
use std::io::Write;
use std::rt::Clock;
use std::sync::{Arc, Mutex, Wait};
use std::time::Duration;
use std::{io, str, thread};

/// How often it is looked whether a text came, each 20 milliseconds.
const MOST_LOOKS: u32 = 3_000;

/// A text that one thread writes and others read.
pub type Text = Arc<Mutex<Vec<u8>>>;

/// An empty text.
pub fn text(alloc: Global) -> Result<Text, AllocError> {
    Ok(Arc::new(alloc, Mutex::new(Vec::new(alloc)))?)
}

/// Whether octets have this in them, after this number of them.
fn has_text(octets: &[u8], seen: usize, wanted: &str) -> bool {
    match str::from_utf8(octets.get(seen..).unwrap_or(&[])) {
        Ok(text) => text.contains(wanted),
        Err(_) => false,
    }
}

/// Waits until a text, the log or the like, has this in it. It is an error if it hadn't in time.
pub fn await_text<R: Wait + Clock>(
    rt: &R,
    alloc: Global,
    name: &str,
    text: &Text,
    wanted: &str,
) -> Result<(), Unmet> {
    // What was looked at, except what may be the beginning.
    let mut seen: usize = 0;
    for _ in 0..MOST_LOOKS {
        let octets = text.lock(rt);
        if has_text(octets.as_slice(), seen, wanted) {
            return Ok(());
        }
        seen = octets.len().saturating_sub(wanted.len());
        drop(octets);
        thread::sleep(rt, Duration::from_millis(20));
    }
    Err(Unmet::missing(alloc, name, wanted, seen))
}

/// It is an error if a text has this in it.
pub fn lacks_text<R: Wait>(rt: &R, text: &Text, unwanted: &str) -> Result<(), Unmet> {
    let octets = text.lock(rt);
    if has_text(octets.as_slice(), 0, unwanted) {
        Err(Unmet::Failed("a line came that may not come yet"))
    } else {
        Ok(())
    }
}

/// A writer to a text that other threads share. What it was given is there once it was flushed.
#[derive(Drop)]
pub struct Shared<'x, R: Wait> {
    rt: &'x R,
    text: &'x Text,
    unflushed: Vec<u8>,
}

impl<'x, R: Wait> Shared<'x, R> {
    /// A writer to this text.
    pub fn new(rt: &'x R, alloc: Global, text: &'x Text) -> Shared<'x, R> {
        Shared {
            rt,
            text,
            unflushed: Vec::new(alloc),
        }
    }
}

impl<R: Wait> Write for Shared<'_, R> {
    fn write(&mut self, octets: &[u8]) -> io::Result<usize> {
        self.unflushed.extend_from_slice(octets)?;
        Ok(octets.len())
    }

    fn flush(&mut self) -> io::Result<()> {
        self.text
            .lock(self.rt)
            .extend_from_slice(self.unflushed.as_slice())?;
        self.unflushed.clear();
        Ok(())
    }
}
