//! The text that the writing thread took, and the device takes part by part.

ghost use Rattle.std.specs.Prelude.{◌≡◌, ◌≢◌, ◌+◌, ◌<◌, ◌≤◌, ◌++◌, ◌↔◌, IsTrue, [], ◌∷◌, length, take, drop, min, IfOk, OnOk, OnErr};
ghost use Rattle.std.specs.Io.KnownBytes.{Appends};
ghost use Rattle.std.specs.List.{count_by};
ghost use Rattle.memchr.specs.Find.{is_byte};
ghost use Rattle.fp_replay.specs.Format.{text_of};

use crate::MadeText;
use crate::made::LONGER_THAN_A_LINE;
use fp_book::Line;
use fp_replay::write_line;
use fp_streams::LinkWrite;
use std::alloc::{AllocError, Global};
use std::marker::Model;

/// Writes a text, and returns how many octets of it the device took: all, or those before a failed write.
fn write_front<L: LinkWrite>(device: &mut L, text: &[u8]) -> usize
    ensures most { result ≤ length text.now }
    ensures wrote { Appends (L.contents device.old) (L.contents device.new) (take result text.now) }
    ensures failed { result < length text.now → L.failures device.new ≢ L.failures device.old }
    ensures fine { result ≡ length text.now → L.failures device.new ≡ L.failures device.old }
{
    let mut at = 0;
    while at < text.len() {
        let Ok(count) = device.write(&text[at..]) else {
            return at;
        };
        at += count;
    }
    at
}

/// The most octets that are counted at once, so that their number of line feeds fits an octet.
const MOST_COUNTED: usize = 240;

/// The number of line feeds in a text of at most 240 octets.
fn few_line_count(text: &[u8]) -> u8
    requires { length text.now ≤ MOST_COUNTED }
    ensures { result ≡ count_by (is_byte 10) text.now }
{
    let mut count = 0u8;
    // The count is an octet, so that the compiler can add sixteen octets at a time.
    for octet in text {
        count += u8::from(*octet == b'\n');
    }
    count
}

/// The number of line feeds in a text.
fn line_count(text: &[u8]) -> usize
    ensures { result ≡ count_by (is_byte 10) text.now }
{
    let mut count = 0;
    let mut rest = text;
    while !rest.is_empty() {
        let (front, after) = rest.split_at(rest.len().min(MOST_COUNTED));
        count += usize::from(few_line_count(front));
        rest = after;
    }
    count
}

/// The part of a text that a device took.
#[derive(Clone, Copy, Debug, PartialEq, Eq)]
pub struct WrittenPart {
    /// The number of octets.
    pub octets: usize,
    /// The number of lines that end in them.
    pub lines: usize,
    /// Whether no write failed.
    pub is_all: bool,
}

/// The text that the device of a log hasn't taken yet. Contracts see its octets.
#[derive(Drop)]
pub struct UnwrittenText {
    text: Vec<u8>,
    // How many octets of the text the device took.
    taken: usize,
}

impl Model for UnwrittenText {
    ghost use Rattle.std.specs.Prelude.{ℕ, List, drop, length, ◌≤◌};

    ghost Value = { List ℕ };

    ghost view = { λ unwritten. drop unwritten.taken unwritten.text.items };

    ghost invariant = { λ unwritten. unwritten.taken ≤ length unwritten.text.items };
}

impl UnwrittenText {
    /// The most octets that are written at once: more than a line has, so that a slow device's octets are counted in
    /// time.
    pub const MOST_AT_ONCE: usize = 16_384;

    /// An empty text. There is room for the most text of one link.
    pub fn new(alloc: Global) -> Result<UnwrittenText, AllocError>
        ensures { IfOk result (λ unwritten. unwritten ≡ []) }
    {
        Ok(UnwrittenText {
            text: Vec::with_capacity(alloc, MadeText::MOST + LONGER_THAN_A_LINE)?,
            taken: 0,
        })
    }

    /// Adds a line that no link has. For example, the head of a log.
    pub fn add(&mut self, line: &Line) -> Result<(), AllocError>
        ensures ok { OnOk result (self.new ≡ self.old ++ text_of line.now ++ 10 ∷ []) }
        ensures err { OnErr result (self.new ≡ self.old) }
    {
        write_line(line, &mut self.text)
    }

    /// Whether the device took all octets.
    pub fn is_empty(&self) -> bool
        ensures { IsTrue result ↔ (self.now ≡ []) }
    {
        self.text[self.taken..].is_empty()
    }

    /// Takes the text of a link, if the device took all octets here. Else nothing changes.
    pub fn take(&mut self, made: &mut MadeText)
        ensures taken { self.old ≡ [] → (self.new ≡ made.old.text) × (made.new ≡ record made.old { text = [] }) }
        ensures unchanged { self.old ≢ [] → (self.new ≡ self.old) × (made.new ≡ made.old) }
    {
        if !self.is_empty() {
            return;
        }
        made.hand_out(&mut self.text);
        self.taken = 0;
    }

    /// Writes a part of the text, at most 16,384 octets. If a write fails, the text keeps the octets that the device
    /// didn't take.
    pub fn write_part<L: LinkWrite>(&mut self, device: &mut L) -> WrittenPart
        ensures wrote { Appends (L.contents device.old) (L.contents device.new) (take result.octets self.old) }
        ensures left { self.new ≡ drop result.octets self.old }
        ensures lines { result.lines ≡ count_by (is_byte 10) (take result.octets self.old) }
        ensures most { result.octets ≤ Self.MOST_AT_ONCE }
        ensures full { IsTrue result.is_all → result.octets ≡ min (length self.old) Self.MOST_AT_ONCE }
        ensures all { IsTrue result.is_all ↔ (L.failures device.new ≡ L.failures device.old) }
    {
        let left = &self.text[self.taken..];
        let part = &left[..left.len().min(UnwrittenText::MOST_AT_ONCE)];
        let octets = write_front(device, part);
        let lines = line_count(&part[..octets]);
        let is_all = octets == part.len();
        self.taken += octets;
        WrittenPart {
            octets,
            lines,
            is_all,
        }
    }
}
