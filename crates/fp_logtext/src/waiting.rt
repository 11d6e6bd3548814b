//! Log lines that wait for their text.

ghost use Rattle.std.specs.Prelude.{◌≡◌, ◌+◌, ◌<◌, ◌≤◌, ◌⊎◌, ◌↔◌, ◌++◌, IsTrue, [], length, min, IfOk, OnOk, OnErr};
ghost use Rattle.fp_logtext.specs.Waiting.{message_len, messages_len};

use fp_book::{Line, LoggedStep};
use std::alloc::{AllocError, Global};
use std::marker::Model;
use std::mem;

/// The number of octets of a line's message, if it has one.
fn message_len(line: &Line) -> usize
    ensures { result ≡ message_len line.now }
{
    match line {
        Line::Step {
            link: _,
            step: LoggedStep::Post { message, .. } | LoggedStep::Lost { message, .. },
        } => message.octets().len(),
        Line::Step { .. } | Line::Head { .. } => 0,
    }
}

/// `octets` plus the octets of the messages of lines, at most the greatest number.
fn plus_messages_len(octets: usize, lines: &[Line]) -> usize
    ensures { result ≡ min (octets + messages_len lines.now) usize.MAX }
{
    let mut sum = octets;
    for line in lines {
        sum = sum.saturating_add(message_len(line));
    }
    sum
}

/// Lines of a link that were moved out of its book and wait for their text, in their order. Contracts see their list.
#[derive(Drop)]
pub struct WaitingLines {
    lines: Vec<Line>,
    // The octets of their messages, which take most of the memory, or the greatest number.
    octets: usize,
}

impl Model for WaitingLines {
    ghost use Rattle.std.specs.Prelude.{◌≡◌, ◌-◌, ◌^◌, List, min};
    ghost use Rattle.fp_book.specs.declared.line.Line.{Line};
    ghost use Rattle.fp_logtext.specs.Waiting.{messages_len};

    ghost Value = { List Line };

    ghost view = { λ waiting. waiting.lines.items };

    ghost invariant = { λ waiting. waiting.octets ≡ min (messages_len waiting.lines.items) (2 ^ 64 - 1) };
}

impl WaitingLines {
    /// The most lines that may wait.
    pub const MOST: usize = 32_768;

    /// The most lines that are moved at once.
    pub const MOST_AT_ONCE: usize = 256;

    /// The limit on octets of messages: from there on no more lines are moved.
    pub const MOST_OCTETS: usize = 4 << 20;

    /// The fewest lines of a list that is filling up: three quarters of its places.
    pub const FILLING_LINES: usize = WaitingLines::MOST / 4 * 3;

    /// The fewest octets of messages of a list that is filling up: three quarters of the limit.
    pub const FILLING_OCTETS: usize = WaitingLines::MOST_OCTETS / 4 * 3;

    /// An empty list. There is room for the most lines that may wait.
    pub fn new(alloc: Global) -> Result<WaitingLines, AllocError>
        ensures { IfOk result (λ waiting. waiting ≡ []) }
    {
        Ok(WaitingLines {
            lines: Vec::with_capacity(alloc, WaitingLines::MOST)?,
            octets: 0,
        })
    }

    /// Whether more lines may be moved here.
    pub fn has_room(&self) -> bool
        ensures { IsTrue result ↔ (length self.now + Self.MOST_AT_ONCE ≤ Self.MOST)
            × (messages_len self.now < Self.MOST_OCTETS) }
    {
        self.lines.len() <= WaitingLines::MOST - WaitingLines::MOST_AT_ONCE
            && self.octets < WaitingLines::MOST_OCTETS
    }

    /// Whether the list is filling up, so that a thread that reads messages should wait.
    pub fn is_filling(&self) -> bool
        ensures { IsTrue result ↔ (Self.FILLING_LINES ≤ length self.now)
            ⊎ (Self.FILLING_OCTETS ≤ messages_len self.now) }
    {
        self.lines.len() >= WaitingLines::FILLING_LINES
            || self.octets >= WaitingLines::FILLING_OCTETS
    }

    /// Takes in lines that were moved out of the book. If an allocation fails, they stay where they are.
    pub fn take_in(&mut self, moved: &mut Vec<Line>) -> Result<(), AllocError>
        ensures ok { OnOk result ((self.new ≡ self.old ++ moved.old.items) × (moved.new.items ≡ [])) }
        ensures err { OnErr result ((self.new ≡ self.old) × (moved.new.items ≡ moved.old.items)) }
    {
        let octets = plus_messages_len(self.octets, moved);
        self.lines.append(moved)?;
        self.octets = octets;
        Ok(())
    }

    /// Hands out all lines in `lines`, whose lines are dropped, and keeps none.
    pub(crate) fn hand_out(&mut self, lines: &mut Vec<Line>)
        ensures lines { lines.new.items ≡ self.old }
        ensures left { self.new ≡ [] }
    {
        lines.clear();
        mem::swap(&mut self.lines, lines);
        self.octets = 0;
    }
}
