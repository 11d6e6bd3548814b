//! Log lines whose text is being made, and the text so far.

ghost use Rattle.std.specs.Prelude.{◌≡◌, ◌≢◌, ◌⊎◌, ◌+◌, ◌-◌, ◌≤◌, ◌++◌, ◌↔◌, IsTrue, [], length, drop, min, IfOk, OnOk};
ghost use Rattle.fp_book.specs.Log.{lines_of};
ghost use Rattle.fp_logtext.specs.Logged.{EndsBelow, lines_text, no_text};

use crate::WaitingLines;
use crate::exchanged::ExchangedLines;
use fp_book::{Line, Log};
use fp_replay::write_line;
use std::alloc::{AllocError, Global};
use std::marker::Model;
use std::mem;

/// More octets than the longest line has, with its line feed.
pub(crate) const LONGER_THAN_A_LINE: usize = 8_301;

/// Text for the writing thread, and the lines without text after it. Contracts see the text and these lines.
#[derive(Drop)]
pub struct MadeText {
    // A `Vec`, not a deque: nothing is taken from its front, so that with few lines only its first part is touched.
    lines: Vec<Line>,
    // How many of `lines` have their text.
    made: usize,
    // The lines after `lines`.
    exchanged: ExchangedLines,
    text: Vec<u8>,
    // How many lines got their text so far. Saturates.
    line_count: u64,
}

impl Model for MadeText {
    ghost use Rattle.std.specs.Prelude.{◌≤◌, ◌++◌, drop, length};
    ghost use Rattle.fp_logtext.specs.Logged.{LogPart};

    ghost Value = { LogPart };

    ghost view = { λ made. record {
      text = made.text.items;
      lines = drop made.made made.lines.items ++ made.exchanged;
      line_count = made.line_count;
    } };

    ghost invariant = { λ made. made.made ≤ length made.lines.items };
}

/// Adds the text of lines from the place `made` on, while the text has fewer than `most` octets, and moves the place
/// on.
fn add_lines(
    lines: &[Line],
    made: &mut usize,
    text: &mut Vec<u8>,
    most: usize,
) -> Result<(), AllocError>
    requires { made.old ≤ length lines.now }
    ensures within { made.new ≤ length lines.now }
    ensures forth { made.old ≤ made.new }
    ensures in_order { text.new.items ++ lines_text (drop made.new lines.now)
        ≡ text.old.items ++ lines_text (drop made.old lines.now) }
    ensures ok { OnOk result ((drop made.new lines.now ≡ []) ⊎ (most ≤ length text.new.items)) }
    ensures limit { (text.new.items ≡ text.old.items) ⊎ EndsBelow most text.new.items }
{
    while *made < lines.len() {
        if text.len() >= most {
            return Ok(());
        }
        write_line(&lines[*made], text)?;
        *made += 1;
    }
    Ok(())
}

/// Adds the text of lines from the place `made` on, and then of the exchanged ones, while the text has fewer than
/// `most` octets. Moves the place on.
fn add_all(
    lines: &[Line],
    made: &mut usize,
    exchanged: &mut ExchangedLines,
    text: &mut Vec<u8>,
    most: usize,
) -> Result<(), AllocError>
    requires { made.old ≤ length lines.now }
    ensures within { made.new ≤ length lines.now }
    ensures forth { made.old ≤ made.new }
    ensures fewer { length exchanged.new ≤ length exchanged.old }
    ensures in_order { text.new.items ++ lines_text (drop made.new lines.now ++ exchanged.new)
        ≡ text.old.items ++ lines_text (drop made.old lines.now ++ exchanged.old) }
    ensures ok { OnOk result ((drop made.new lines.now ++ exchanged.new ≡ []) ⊎ (most ≤ length text.new.items)) }
    ensures limit { (text.new.items ≡ text.old.items) ⊎ EndsBelow most text.new.items }
{
    add_lines(lines, made, text, most)?;
    if *made < lines.len() {
        return Ok(());
    }
    exchanged.add_text(text, most)
}

impl MadeText {
    /// The limit on octets of text that wait for the writing thread: from there on no more text is made while the link
    /// is up. At 100 calls a second, of five lines each, a device that takes nothing fills them in five minutes.
    pub const MOST: usize = 6 << 20;

    /// No lines and no text. Reserves memory for all that may wait, so that none is needed while calls are served.
    pub fn new(alloc: Global) -> Result<MadeText, AllocError>
        ensures { IfOk result (λ made. made ≡ no_text) }
    {
        Ok(MadeText {
            lines: Vec::with_capacity(alloc, WaitingLines::MOST)?,
            made: 0,
            exchanged: ExchangedLines::new(alloc)?,
            text: Vec::with_capacity(alloc, MadeText::MOST + LONGER_THAN_A_LINE)?,
            line_count: 0,
        })
    }

    /// Whether all lines have their text.
    pub fn has_all_text(&self) -> bool
        ensures { IsTrue result ↔ (self.now.lines ≡ []) }
    {
        self.made >= self.lines.len() && self.exchanged.len() == 0
    }

    /// The number of octets of text.
    pub fn len(&self) -> usize
        ensures { result ≡ length self.now.text }
    {
        self.text.len()
    }

    /// The number of lines that got their text since the link began, or the greatest number.
    pub fn line_count(&self) -> u64
        ensures { result ≡ self.now.line_count }
    {
        self.line_count
    }

    /// Takes the waiting lines, if all lines here have their text. Else nothing changes.
    pub fn refill(&mut self, waiting: &mut WaitingLines)
        ensures taken { self.old.lines ≡ [] → (self.new ≡ record self.old { lines = waiting.old }) × (waiting.new ≡ []) }
        ensures unchanged { self.old.lines ≢ [] → (self.new ≡ self.old) × (waiting.new ≡ waiting.old) }
    {
        if !self.has_all_text() {
            return;
        }
        self.made = 0;
        waiting.hand_out(&mut self.lines);
    }

    /// Takes the lines that the book of this link handed out all at once, as by [`Book::exchange_log`](fp_book::Book),
    /// if all lines here have their text; `log` gets an empty list. Else nothing changes.
    pub fn take_log(&mut self, link: u8, log: &mut Log)
        ensures taken { self.old.lines ≡ [] → (self.new ≡ record self.old { lines = lines_of link log.old }) × (log.new ≡ []) }
        ensures unchanged { self.old.lines ≢ [] → (self.new ≡ self.old) × (log.new ≡ log.old) }
    {
        if !self.has_all_text() {
            return;
        }
        self.made = 0;
        self.lines.clear();
        self.exchanged.take(link, log);
    }

    /// Makes the text of lines, while the text has fewer than `most` octets. If an allocation fails, the lines without
    /// text stay.
    #[tactic(auto, using(crate::proofs::OneAfterOther::both_count))]
    pub fn add_text(&mut self, most: usize) -> Result<(), AllocError>
        ensures in_order { self.new.text ++ lines_text self.new.lines ≡ self.old.text ++ lines_text self.old.lines }
        ensures ok { OnOk result ((self.new.lines ≡ []) ⊎ (most ≤ length self.new.text)) }
        ensures limit { (self.new.text ≡ self.old.text) ⊎ EndsBelow most self.new.text }
        ensures count { self.new.line_count
            ≡ min (self.old.line_count + (length self.old.lines - length self.new.lines)) u64.MAX }
    {
        let before = self.made;
        let after = self.exchanged.len();
        let added = add_all(
            &self.lines,
            &mut self.made,
            &mut self.exchanged,
            &mut self.text,
            most,
        );
        let count = (self.made - before) as u64;
        let more = (after - self.exchanged.len()) as u64;
        self.line_count = self.line_count.saturating_add(count).saturating_add(more);
        added
    }

    /// Hands out all text in `text`, whose octets are dropped, and keeps none.
    pub fn hand_out(&mut self, text: &mut Vec<u8>)
        ensures text { text.new.items ≡ self.old.text }
        ensures left { self.new ≡ record self.old { text = [] } }
    {
        text.clear();
        mem::swap(&mut self.text, text);
    }
}
