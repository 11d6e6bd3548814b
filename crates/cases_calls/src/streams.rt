//! The lines of a reader, and octets written whole.
//!
//! | Case | Result |
//! |---|---|
//! | `lines MOST READS READ ..` | the lines that are taken, each followed by `; `, or by `, ` if the next line was read already, if a line has at most MOST octets and there are at most READS reads; then why there are no more: `end`, or a fault and how often the reader failed. The line FF is refused |
//! | `write-all PIECE ROOM HEX` | the result of writing these octets, the contents of the writer afterwards, and how often it failed; the writer takes PIECE octets a write, and ROOM in all |
//!
//! A READ is the octets that one read gives, `interrupted`, or `fault`. After the last one the input is at its end.
//! Lines and octets are hexadecimal, and `empty` if there are none.

use cases::{Answer, first_word, number_of, octets_of};
use fp_streams::{Counted, LinesFault, TakesLine, follow_lines, write_all};
use std::alloc::Global;
use std::io;
use std::io::{ErrorKind, Read};

/// A reader that gives the octets of one word in each read. The word `interrupted` interrupts the read, and a word that
/// isn't octets makes it fail.
#[derive(Drop)]
struct Reads<'a> {
    alloc: Global,
    words: &'a str,
}

impl Read for Reads<'_> {
    fn read(&mut self, room: &mut [u8]) -> io::Result<usize> {
        if self.words.is_empty() {
            return Ok(0);
        }
        let (word, rest) = first_word(self.words);
        self.words = rest;
        if word == "interrupted" {
            return Err(io::Error::from(ErrorKind::Interrupted));
        }
        let mut fault = Answer::new(self.alloc);
        let octets = octets_of(self.alloc, word, &mut fault);
        if fault.is_faulty() {
            return Err(io::Error::from(ErrorKind::Other));
        }
        let mut octets = octets.as_slice();
        octets.read(room)
    }
}

/// A writer that takes at most `piece` octets a write, and has room for `room` more.
#[derive(Drop)]
struct Pieces {
    octets: Vec<u8>,
    piece: usize,
    room: usize,
}

impl io::Write for Pieces {
    fn write(&mut self, octets: &[u8]) -> io::Result<usize> {
        let count = octets.len().min(self.piece).min(self.room);
        self.octets.extend_from_slice(&octets[..count])?;
        self.room -= count;
        Ok(count)
    }

    fn flush(&mut self) -> io::Result<()> {
        Ok(())
    }
}

/// A taker of lines that writes each one down.
#[derive(Drop)]
struct Taken {
    lines: Answer,
}

/// A line that is refused: the octet FF.
#[derive(Drop)]
struct RefusedLine;

impl TakesLine for Taken {
    type Fault = RefusedLine;

    ghost takes = { λ _ _ _ _. Unit {0} };

    ghost refuses = { λ _ _ _ _ _. Unit {0} };

    fn take_line(
        &mut self,
        line: &[u8],
        has_line_feed: bool,
        is_followed: bool,
    ) -> Result<(), RefusedLine> {
        if line == b"\xFF".as_slice() {
            return Err(RefusedLine);
        }
        self.lines.octets(line);
        self.lines.text(after_line(has_line_feed, is_followed));
        Ok(())
    }
}

/// The text after a line.
fn after_line(has_line_feed: bool, is_followed: bool) -> &'static str {
    match (has_line_feed, is_followed) {
        (true, true) => ", ",
        (true, false) => "; ",
        (false, _) => " with no line feed; ",
    }
}

/// Writes why no more lines were taken.
fn push_fault(out: &mut Answer, fault: LinesFault<RefusedLine>) {
    let (number, why) = match fault {
        LinesFault::TooLong(number) => (number, "too long"),
        LinesFault::Refused(number, _) => (number, "refused"),
        LinesFault::ReadFault => return out.text("read fault"),
        LinesFault::TurnLimit => return out.text("turn limit"),
        LinesFault::Memory => return out.text("out of memory"),
    };
    out.labeled("line ", number);
    out.text(" ");
    out.text(why);
}

/// Writes the lines that are taken from a reader, and why there are no more.
fn push_lines(
    out: &mut Answer,
    most_octets: usize,
    most_reads: u64,
    reader: &mut Counted<Reads<'_>>,
) {
    let alloc = reader.device.alloc;
    let mut taken = Taken {
        lines: Answer::new(alloc),
    };
    let end = follow_lines(alloc, most_octets, most_reads, reader, &mut taken);
    out.append(&taken.lines);
    match end {
        Ok(_) => out.text("end"),
        Err(fault) => {
            push_fault(out, fault);
            out.labeled(", ", reader.failed);
            out.text(" failed");
        }
    }
}

/// The lines that are taken from a reader, and why there are no more.
fn lines(alloc: Global, text: &str, out: &mut Answer) {
    let (most, text) = first_word(text);
    let (reads, words) = first_word(text);
    let mut reader = Counted::new(Reads { alloc, words });
    let most: usize = number_of(most, out);
    let reads: u64 = number_of(reads, out);
    push_lines(out, most, reads, &mut reader);
}

/// A writer of pieces.
fn counted_pieces(alloc: Global, piece: &str, room: &str, out: &mut Answer) -> Counted<Pieces> {
    let piece: usize = number_of(piece, out);
    let room: usize = number_of(room, out);
    Counted::new(Pieces {
        octets: Vec::new(alloc),
        piece,
        room,
    })
}

/// Writes these octets to a writer of pieces, and the result to `out`.
fn push_written(out: &mut Answer, writer: &mut Counted<Pieces>, octets: &[u8]) {
    match write_all(writer, octets) {
        Ok(()) => out.text("written: "),
        Err(fault) => {
            out.value(fault);
            out.text(": ");
        }
    }
}

/// The result of writing octets, the octets written, and how often the writer failed.
fn written(alloc: Global, text: &str, out: &mut Answer) {
    let (piece, text) = first_word(text);
    let (room, text) = first_word(text);
    let mut writer = counted_pieces(alloc, piece, room, out);
    let octets = octets_of(alloc, text, out);
    push_written(out, &mut writer, octets.as_slice());
    out.octets(writer.device.octets.as_slice());
    out.labeled(", ", writer.failed);
    out.text(" failed");
}

/// Writes the result of a case of this kind. `false` if this module has no such cases.
pub(crate) fn answer(alloc: Global, kind: &str, rest: &str, out: &mut Answer) -> bool {
    match kind {
        "lines" => lines(alloc, rest, out),
        "write-all" => written(alloc, rest, out),
        _ => return false,
    }
    true
}
