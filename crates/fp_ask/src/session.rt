//! Messages and moments, one after another.

ghost use Rattle.std.specs.Prelude.{◌≡◌, ◌<◌, ◌≤◌, [], true, vec_capacity, IfOk, OnOk};
ghost use Rattle.fp_book.specs.Shelf.{Sound};
ghost use Rattle.fp_ask.specs.Solo.{Outcome, at_first, is_read, post, tick};
ghost use Rattle.fp_ask.specs.Tied.{Follows, GoesOn, IsOfFrame, Matches, Rest};
ghost use Rattle.fp_ask.specs.proof_only.Serving.{Came, Fit};
ghost use Rattle.fp_tids.specs.Identifiers.{base_of};

use crate::SentFrame;
use crate::engine::{send_waiting, serve_waiting};
use fp_book::{Book, Line};
use fp_digits::Moment;
use fp_entry::Prepared;
use fp_tids::LocalIds;
use std::alloc::{AllocError, Global};
use std::marker::Model;

/// A link that takes messages and moments one after another: for each of them all entries are served and all frames
/// sent before the next one. Contracts see its book.
#[derive(Debug, Drop)]
pub struct Session {
    book: Book,
    // Room for log lines of the book, which nobody reads.
    lines: Vec<Line>,
}

impl Model for Session {
    ghost use Rattle.std.specs.Prelude.{◌<◌, vec_capacity};
    ghost use Rattle.std.specs.Coded.{codes, coded_ℕ};
    ghost use Rattle.std.specs.Ordering.{nat_cmp};
    ghost use Rattle.std.specs.FinMap as map;
    ghost use Rattle.fp_book.specs.Shelf.{Shelf};
    ghost use Rattle.fp_row.specs.contracts.row.Row as row_type;

    ghost Value = { Shelf };

    ghost coded = { Prim.hlevel (codes, map.code {R = nat_cmp} coded_ℕ row_type.the_row.coded) };

    ghost view = { λ session. session.book };

    ghost invariant = { λ session. 0 < vec_capacity session.lines };
}

/// Whether a message was read, and not lost because an allocation failed.
fn was_read(came: &Prepared) -> bool
    ensures { result ≡ is_read came.now }
{
    !matches!(came, Prepared::Lost { .. })
}

/// Drops the log lines, so that the log keeps no message. A call can add more lines than `lines` has room for. Takes no
/// memory.
fn clear_log(book: &mut Book, lines: &mut Vec<Line>)
    requires { 0 < vec_capacity lines.old }
    ensures book { book.new ≡ record book.old { log = [] } }
    ensures sound { Sound book.new }
    ensures capacity { vec_capacity lines.new ≡ vec_capacity lines.old }
{
    loop {
        lines.clear();
        book.drain(lines);
        if lines.is_empty() {
            return;
        }
    }
}

impl Session {
    /// The number of log lines that are drained at a time.
    const LINES: usize = 64;

    /// A session without messages yet, in a run with this tag, 0 to 4,094; 0 for a run without one.
    pub fn new(alloc: Global, tag: u16) -> Result<Session, AllocError>
        requires { tag ≤ LocalIds.LAST_TAG }
        ensures rest { IfOk result Rest }
        ensures matches { IfOk result (Matches (at_first (base_of 0 tag))) }
    {
        Ok(Session {
            book: Book::with_tag(alloc, 0, tag)?,
            lines: Vec::with_capacity(alloc, Self::LINES)?,
        })
    }

    /// Takes a message, and returns the frames that are sent for it. If memory runs out, or ran out when the message
    /// was read, no clause speaks of the session after that, and you must not use it again.
    pub fn post(&mut self, alloc: Global, came: Prepared) -> Result<Vec<SentFrame>, AllocError>
        requires rest { Rest self.old }
        ensures rest { OnOk result (Rest self.new) }
        ensures read { OnOk result (is_read came ≡ true) }
        ensures follows { IfOk result (λ frames. IsOfFrame came
            → Follows (λ w. post w came) self.old self.new frames.items) }
    {
        if !was_read(&came) {
            return Err(AllocError);
        }
        let receipt = self.book.post_with_receipt(alloc, came);
        if receipt.lost {
            return Err(AllocError);
        }
        self.serve_and_send(alloc)
    }

    /// Moves the clock to this moment, and returns the frames that are sent then. If memory runs out, no clause speaks
    /// of the session after that, and you must not use it again.
    pub fn tick(&mut self, alloc: Global, moment: Moment) -> Result<Vec<SentFrame>, AllocError>
        requires rest { Rest self.old }
        ensures rest { OnOk result (Rest self.new) }
        ensures follows { IfOk result (λ frames. Follows (λ w. tick w moment) self.old self.new frames.items) }
    {
        let ticked = self.book.tick(moment);
        if ticked.wanting > 0 {
            return Err(AllocError);
        }
        self.serve_and_send(alloc)
    }

    /// Serves the waiting entries, sends the waiting frames, and drops the log lines.
    fn serve_and_send(&mut self, alloc: Global) -> Result<Vec<SentFrame>, AllocError>
        requires fit { Fit self.old }
        ensures rest { OnOk result (Rest self.new) }
        ensures goes_on { IfOk result (λ frames. (p : Outcome) → Came p self.old → GoesOn p self.new frames.items) }
    {
        serve_waiting(alloc, &mut self.book)?;
        let frames = send_waiting(alloc, &mut self.book)?;
        clear_log(&mut self.book, &mut self.lines);
        Ok(frames)
    }
}
