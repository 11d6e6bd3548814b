//! Readers and writers that do what a case says.

use cases::first_word;
use std::alloc::Global;
use std::cell::Cell;
use std::io;
use std::io::{ErrorKind, Read, Write};

/// A reader that gives what its words say, one a read. A word that spells no octets is a failure. After the last one
/// the input is at its end.
#[derive(Drop)]
pub(crate) struct Reads<'a> {
    pub(crate) alloc: Global,
    pub(crate) words: &'a str,
    // How many reads were made.
    pub(crate) made: u32,
}

impl Read for Reads<'_> {
    fn read(&mut self, room: &mut [u8]) -> io::Result<usize> {
        self.made = self.made.saturating_add(1);
        if self.words.is_empty() {
            return Ok(0);
        }
        let (word, rest) = first_word(self.words);
        self.words = rest;
        if word == "interrupted" {
            return Err(io::Error::from(ErrorKind::Interrupted));
        }
        let Ok(octets) = hex::decode(self.alloc, word) else {
            return Err(io::Error::from(ErrorKind::Other));
        };
        let mut octets = octets.as_slice();
        octets.read(room)
    }
}

/// A reader that gives octets, at most `most` a read, also cut at two places. The read number `failing` fails, from 1;
/// 0: none.
#[derive(Drop)]
pub(crate) struct Octets<'a> {
    pub(crate) octets: &'a [u8],
    pub(crate) given: usize,
    pub(crate) most: usize,
    pub(crate) cuts: [usize; 2],
    pub(crate) failing: u32,
    // How many reads were made.
    pub(crate) made: u32,
}

impl Read for Octets<'_> {
    fn read(&mut self, room: &mut [u8]) -> io::Result<usize> {
        self.made = self.made.saturating_add(1);
        if self.made == self.failing {
            return Err(io::Error::from(ErrorKind::Other));
        }
        let mut end = self.octets.len().min(self.given.saturating_add(self.most));
        for cut in self.cuts {
            if self.given < cut && cut < end {
                end = cut;
            }
        }
        let Some(mut piece) = self.octets.get(self.given..end) else {
            return Ok(0);
        };
        let taken = piece.read(room)?;
        self.given = self.given.saturating_add(taken);
        Ok(taken)
    }
}

/// A reader that gives a piece only after `wanted` frames were handed on, and fails otherwise.
#[derive(Drop)]
pub(crate) struct Waits<'a> {
    pub(crate) alloc: Global,
    // Each piece, and after it how many frames are to be handed on before the next read.
    pub(crate) words: &'a str,
    pub(crate) wanted: u32,
    pub(crate) count: &'a Cell<u32>,
}

impl Read for Waits<'_> {
    fn read(&mut self, room: &mut [u8]) -> io::Result<usize> {
        if self.count.get() != self.wanted {
            return Err(io::Error::from(ErrorKind::Other));
        }
        if self.words.is_empty() {
            return Ok(0);
        }
        let (word, rest) = first_word(self.words);
        let (wanted, rest) = first_word(rest);
        self.words = rest;
        let (Ok(octets), Ok(wanted)) = (hex::decode(self.alloc, word), wanted.parse()) else {
            return Err(io::Error::from(ErrorKind::Other));
        };
        self.wanted = wanted;
        let mut octets = octets.as_slice();
        octets.read(room)
    }
}

/// A writer that takes at most `most` octets a write. The write number `failing` fails or takes none, from 1; 0: none.
#[derive(Drop)]
pub(crate) struct Pieces {
    pub(crate) octets: Vec<u8>,
    pub(crate) most: usize,
    pub(crate) failing: u32,
    // Whether that write takes none, and doesn't fail.
    pub(crate) takes_none: bool,
    // Whether a flush doesn't fail.
    pub(crate) flushes: bool,
    // How many writes were made.
    pub(crate) made: u32,
}

impl Write for Pieces {
    fn write(&mut self, octets: &[u8]) -> io::Result<usize> {
        self.made = self.made.saturating_add(1);
        if self.made == self.failing {
            if self.takes_none {
                return Ok(0);
            }
            return Err(io::Error::from(ErrorKind::Other));
        }
        let count = octets.len().min(self.most);
        self.octets.extend_from_slice(&octets[..count])?;
        Ok(count)
    }

    fn flush(&mut self) -> io::Result<()> {
        if !self.flushes {
            return Err(io::Error::from(ErrorKind::Other));
        }
        Ok(())
    }
}
