//! The book of a link.

ghost use Rattle.std.specs.Prelude.{◌≡◌, ◌+◌, ◌-◌, ◌<◌, ◌≤◌, [], IfOk, length, vec_capacity, vec_len};
ghost use Rattle.std.specs.FinMap as map;
ghost use Rattle.fp_book.specs.Calls.{DrainsBook};
ghost use Rattle.fp_book.specs.Log.{Drains, lines_of};
ghost use Rattle.fp_book.specs.Outbox.{frames_held};
ghost use Rattle.fp_book.specs.Shelf.{Sound, empty_shelf, places_held};
ghost use Rattle.fp_book.specs.declared.totals.Totals as counts;

use crate::{Line, Log, Outbox, ReadyQueue, Status, Totals};
use fp_row::Rows;
use fp_tids::{LocalIds, serials_are_distinct};
use fp_timers::Deadlines;
use std::alloc::{AllocError, Global};
use std::marker::Model;

/// All dialogues of a link, the order in which they are served, the frames that wait to be sent, the totals and the
/// log. Contracts see a [`Shelf`](crate): the parts as lists and finite maps.
#[derive(Debug, Drop)]
pub struct Book {
    // The link, 0 to 7.
    pub(crate) link: u8,
    // The tag of the run, 0 to 4,094.
    pub(crate) tag: u16,
    pub(crate) ids: LocalIds,
    // How many Begins were accepted.
    pub(crate) births: u64,
    // How many entries were ever accepted.
    pub(crate) entries: u64,
    // The dialogues that are held.
    pub(crate) rows: Rows,
    // The deadline of each dialogue that has one.
    pub(crate) deadlines: Deadlines,
    pub(crate) ready: ReadyQueue,
    pub(crate) outbox: Outbox,
    // How many entries are out as turns.
    pub(crate) turns: usize,
    pub(crate) totals: Totals,
    pub(crate) log: Log,
    pub(crate) is_down: bool,
}

impl Model for Book {
    ghost use Rattle.std.specs.Coded.{codes, coded_ℕ};
    ghost use Rattle.std.specs.Ordering.{nat_cmp};
    ghost use Rattle.std.specs.FinMap as map;
    ghost use Rattle.fp_book.specs.Shelf.{Shelf};
    ghost use Rattle.fp_row.specs.contracts.row.Row as row_type;

    ghost Value = { Shelf };

    ghost coded = { Prim.hlevel (codes, map.code {R = nat_cmp} coded_ℕ row_type.the_row.coded) };

    ghost use Rattle.fp_book.specs.proof_only.Views.{IsKept, shelf_of};

    ghost view = { λ book. shelf_of book };

    ghost invariant = { λ book. IsKept book };
}

impl Book {
    /// The most dialogues that may be held: each may have a deadline.
    pub const MOST_DIALOGUES: usize = Deadlines::MOST;

    /// The most entries of a dialogue that may wait to be served or be out, not counting entries of the clock and of
    /// the peer's end and abort.
    pub const MOST_ENTRIES: usize = 64;

    /// The most elements that the component portion of a message may hold.
    pub const MOST_ELEMENTS: usize = 16;

    /// The most entries that a link accepts. From then on each Begin, Continue and End is refused, and no dialogue is
    /// given a Clock. An Abort of the peer is accepted all the same.
    pub const ALL_ENTRIES: u64 = 1 << 63;

    /// The book of a link, 0 to 7, which is up, in a run without a tag: its tag is 0. It holds no dialogue, and has
    /// memory for everything except the dialogues; the queue of serials is reserved too.
    pub fn new(alloc: Global, link: u8) -> Result<Book, AllocError>
        requires { link < LocalIds.LINKS }
        ensures value { IfOk result (λ book. book ≡ empty_shelf link 0) }
        ensures sound { IfOk result (λ book. Sound book) }
    {
        Self::with_tag(alloc, link, 0)
    }

    /// The book of a link, 0 to 7, in a run with this tag, 0 to 4,094: as the book of [`Book::new`], except for the
    /// identifiers of its dialogues.
    pub fn with_tag(alloc: Global, link: u8, tag: u16) -> Result<Book, AllocError>
        requires links { link < LocalIds.LINKS }
        requires tags { tag ≤ LocalIds.LAST_TAG }
        ensures value { IfOk result (λ book. book ≡ empty_shelf link tag) }
        ensures sound { IfOk result (λ book. Sound book) }
    {
        serials_are_distinct();
        Ok(Book {
            link,
            tag,
            ids: LocalIds::with_tag(alloc, link, tag)?,
            births: 0,
            entries: 0,
            rows: Rows::new(alloc),
            deadlines: Deadlines::new(alloc)?,
            ready: ReadyQueue::new(alloc)?,
            outbox: Outbox::new(alloc)?,
            turns: 0,
            totals: Totals {
                accepted: 0,
                served: 0,
                sent: 0,
            },
            log: Log::new(alloc)?,
            is_down: false,
        })
    }

    /// The totals since the book was made.
    pub fn totals(&self) -> Totals
        ensures value { result ≡ self.now.totals }
        ensures sound { Sound self.now }
    {
        self.totals
    }

    /// Whether the link is down. Takes no memory.
    pub fn is_down(&self) -> bool
        ensures value { result ≡ self.now.is_down }
        ensures sound { Sound self.now }
    {
        self.is_down
    }

    /// The status of the link. Takes no memory, and goes through no dialogues.
    pub fn status(&self) -> Status
        ensures value { result ≡ record { is_down = self.now.is_down; totals = self.now.totals; dialogues = map.len self.now.rows; places = places_held self.now } }
        ensures sound { Sound self.now }
    {
        Status {
            is_down: self.is_down,
            totals: self.totals,
            dialogues: self.rows.len(),
            places: self.places_held(),
        }
    }

    /// The number of log lines, at most [`Log::MOST`]. Takes no memory.
    pub fn line_count(&self) -> usize
        ensures value { result ≡ length self.now.log }
    {
        self.log.len()
    }

    /// The number of ready dialogues, at most [`Book::MOST_DIALOGUES`]. Takes no memory.
    pub fn ready_count(&self) -> usize
        ensures value { result ≡ length self.now.ready }
    {
        self.ready.len()
    }

    /// Moves the oldest lines of the log to the end of `lines`, as many as `lines` has room for, and changes nothing
    /// else. Takes no memory.
    pub fn drain(&mut self, lines: &mut Vec<Line>)
        ensures drains { DrainsBook self.old lines.old.items (vec_capacity lines.old - vec_len lines.old) self.new lines.new.items }
        ensures capacity { vec_capacity lines.new ≡ vec_capacity lines.old }
        ensures sound { Sound self.new }
    {
        self.log.drain(self.link, lines);
    }

    /// Exchanges the log for an empty one, so that all its lines are handed out at once, and returns their link.
    /// Changes nothing else. Takes no memory and frees none.
    pub fn exchange_log(&mut self, log: &mut Log) -> u8
        requires empty { log.old ≡ [] }
        ensures link { result ≡ self.old.link }
        ensures drains { DrainsBook self.old [] Log.MOST self.new (lines_of result log.new) }
        ensures sound { Sound self.new }
    {
        self.log.exchange(log);
        self.link
    }

    /// How many places for frames are held: by frames that wait, by the frame that is being sent, and by entries that
    /// are out.
    pub(crate) fn places_held(&self) -> usize
        ensures { result ≡ places_held self.now }
    {
        self.outbox.frames_held() + self.turns
    }
}
