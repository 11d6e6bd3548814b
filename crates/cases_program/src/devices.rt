//! Readers and writers that replace a run's devices. All except `Paced` and `Shown` take or give one octet at a time.

use std::alloc::Global;
use std::cell::Cell;
use std::io;
use std::io::{ErrorKind, Read, Write};

/// A reader that is interrupted before each octet, and fails after the last one.
#[derive(Drop)]
pub(crate) struct Torn<'a> {
    octets: &'a [u8],
    was_interrupted: bool,
}

impl Torn<'_> {
    /// A reader of these octets.
    pub(crate) fn new<'a>(octets: &'a [u8]) -> Torn<'a> {
        Torn {
            octets,
            was_interrupted: false,
        }
    }
}

impl Read for Torn<'_> {
    fn read(&mut self, buf: &mut [u8]) -> io::Result<usize> {
        self.was_interrupted = !self.was_interrupted;
        if self.was_interrupted {
            return Err(io::Error::from(ErrorKind::Interrupted));
        }
        match (self.octets, buf) {
            ([first, rest @ ..], [place, ..]) => {
                *place = *first;
                self.octets = rest;
                Ok(1)
            }
            _ => Err(io::Error::from(ErrorKind::Other)),
        }
    }
}

/// A reader that fails after `reads` reads.
#[derive(Drop)]
pub(crate) struct Failing<'a> {
    /// The octets that have not been read.
    pub(crate) octets: &'a [u8],
    /// How many more reads succeed.
    pub(crate) reads: usize,
}

impl Read for Failing<'_> {
    fn read(&mut self, buf: &mut [u8]) -> io::Result<usize> {
        if self.reads == 0 {
            return Err(io::Error::from(ErrorKind::Other));
        }
        self.reads -= 1;
        match (self.octets, buf) {
            ([first, rest @ ..], [place, ..]) => {
                *place = *first;
                self.octets = rest;
                Ok(1)
            }
            _ => Ok(0),
        }
    }
}

/// A reader that gives at most `size` octets a read, and notes before each read how many lines were written and flushed;
/// where it gives one octet a read, before each line and at the end alone.
#[derive(Drop)]
pub(crate) struct Paced<'a> {
    octets: &'a [u8],
    size: usize,
    is_at_line: bool,
    flushed: &'a Cell<usize>,
    notes: &'a mut Vec<usize>,
}

impl Paced<'_> {
    /// A reader of these octets, which notes the number in a cell.
    pub(crate) fn new<'a>(
        octets: &'a [u8],
        size: usize,
        flushed: &'a Cell<usize>,
        notes: &'a mut Vec<usize>,
    ) -> Paced<'a> {
        Paced {
            octets,
            size,
            is_at_line: true,
            flushed,
            notes,
        }
    }
}

impl Read for Paced<'_> {
    fn read(&mut self, buf: &mut [u8]) -> io::Result<usize> {
        if self.size > 1 || self.is_at_line || self.octets.is_empty() {
            self.notes.push(self.flushed.get())?;
        }
        let count = self.size.min(self.octets.len()).min(buf.len());
        let (front, rest) = self.octets.split_at(count);
        buf[..count].copy_from_slice(front);
        self.is_at_line = front.last() == Some(&b'\n');
        self.octets = rest;
        Ok(count)
    }
}

/// A writer that keeps in a cell how many lines were written and flushed.
#[derive(Drop)]
pub(crate) struct Shown<'a> {
    /// The octets written.
    pub(crate) octets: Vec<u8>,
    flushed: &'a Cell<usize>,
}

impl Shown<'_> {
    /// An empty writer.
    pub(crate) fn new<'a>(alloc: Global, flushed: &'a Cell<usize>) -> Shown<'a> {
        Shown {
            octets: Vec::new(alloc),
            flushed,
        }
    }
}

impl Write for Shown<'_> {
    fn write(&mut self, buf: &[u8]) -> io::Result<usize> {
        self.octets.extend_from_slice(buf)?;
        Ok(buf.len())
    }

    fn flush(&mut self) -> io::Result<()> {
        let lines = self.octets.iter().filter(|octet| **octet == b'\n').count();
        self.flushed.set(lines);
        Ok(())
    }
}

/// A writer with room for a limited number of octets, which may refuse to be flushed.
#[derive(Drop)]
pub(crate) struct Sink {
    /// The octets written.
    pub(crate) octets: Vec<u8>,
    room: usize,
    is_flushed: bool,
}

impl Sink {
    /// An empty writer.
    pub(crate) fn new(alloc: Global, room: usize, is_flushed: bool) -> Sink {
        Sink {
            octets: Vec::new(alloc),
            room,
            is_flushed,
        }
    }
}

impl Write for Sink {
    fn write(&mut self, buf: &[u8]) -> io::Result<usize> {
        match buf {
            [first, ..] if self.octets.len() < self.room => {
                self.octets.push(*first)?;
                Ok(1)
            }
            _ => Err(io::Error::from(ErrorKind::StorageFull)),
        }
    }

    fn flush(&mut self) -> io::Result<()> {
        if self.is_flushed {
            Ok(())
        } else {
            Err(io::Error::from(ErrorKind::StorageFull))
        }
    }
}
