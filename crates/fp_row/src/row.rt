//! One dialogue.

ghost use Rattle.std.specs.Prelude.{◌≡◌, ◌≢◌, [], ◌≤◌, ◌<◌, ◌+◌, ◌^◌, ◌&&◌, ◌↔◌, nat_eq, nat_lt, not, false, true, Some, is_some, length, min, take, IsTrue, IfOk, IfErr, IsOk, OnErr, OnOk};
ghost use Rattle.std.specs.Coded.{Coded-set};
ghost use Rattle.fp_service.specs.Dialogue.{fresh, is_over};
ghost use Rattle.fp_service.specs.Fold.{core_after, cut, requests};

use crate::heap_core::HeapCore;
use crate::lists::{append, copies};
use crate::serving::Steps;
use crate::{Done, Ending, Requested, ServedTurn, Turn};
use fp_digits::Moment;
use fp_entry::{Entries, Entry, EntryKind, equal_entries_are_the_same};
use fp_q773::Tid;
use fp_service::{
    Core, births_stay, cut_is_a_front, entries_ask_once_at_most, equal_cores_are_the_same,
    folds_along_a_grown_list,
};
use std::alloc::{AllocError, Global};

/// One dialogue: the entries that it accepted, how many of them were served, and how many of its requests were sent.
#[derive(Debug, Drop)]
pub struct Row {
    pub(crate) local: u32,
    pub(crate) peer: Tid,
    pub(crate) birth: u64,
    // The moment of its Begin.
    pub(crate) opened: Moment,
    // All entries that it accepted, in their order.
    pub(crate) accepted: Entries,
    // How many of them were served.
    pub(crate) served: usize,
    // The core after the served entries.
    pub(crate) core: Core,
    // How many requests of the dialogue were accepted for sending.
    pub(crate) queued: usize,
    // How many of those are still to be sent, or were sent.
    pub(crate) kept: usize,
    // How many were sent.
    pub(crate) sent: usize,
    // How many of the unserved entries are out as a turn. They are the first of these.
    pub(crate) out: usize,
    pub(crate) ended: Option<Ending>,

    // The served entries are the front of the accepted ones.
    pub ghost served_within: { served ≤ length accepted },

    // The core is the one after the entries that were served.
    pub ghost core_is: { core ≡ core_after (fresh birth opened) (take served accepted) } by { Coded-set core-code _ _ },

    // No served entry follows the one that ends the dialogue.
    pub ghost cut_is: { cut (fresh birth opened) (take served accepted) ≡ take served accepted },

    // Each request is one of those entries'.
    pub ghost queued_within: { queued ≤ length (requests (fresh birth opened) (take served accepted)) },
    pub ghost kept_within: { kept ≤ queued },
    pub ghost sent_within: { sent ≤ kept },

    // All of them are kept until the dialogue is ended from outside.
    pub ghost all_kept: { (not (is_some ended) && not (nat_eq kept (length (requests (fresh birth opened) (take served accepted))))) ≡ false },

    // The entries that are out are the next ones, of a dialogue that isn't over.
    pub ghost out_within: { served + out ≤ length accepted },
    pub ghost out_is_live: { (nat_lt 0 out && is_over core) ≡ false },
}

impl Row {
    ghost use Rattle.fp_row.specs.Row.{IsFromHere, deadline_of, entries_out, has_clock, has_turn_out, is_admitted, is_due, is_held, is_ready, places_taken, turn_out, unserved, waits};
    ghost use Rattle.fp_row.specs.Turn.{most_entries};
    ghost use Rattle.fp_row.specs.Calls.{Accepts, Clocks, Ends, Gives, Opens, PutsBack, Sends, ServesNext, Takes, sending};

    /// The dialogue that a Begin opens at this moment: this end knows it by `local`, its peer by `peer`, and it is the
    /// `birth`-th of its link. It accepted nothing yet. Takes no memory.
    pub fn open(alloc: Global, local: u32, peer: Tid, birth: u64, moment: Moment) -> Row
        ensures { Opens local peer birth moment result }
    {
        Row {
            local,
            peer,
            birth,
            opened: moment,
            accepted: Entries::new(alloc),
            served: 0,
            core: Core::new(birth, moment),
            queued: 0,
            kept: 0,
            sent: 0,
            out: 0,
            ended: None,
        }
    }

    /// The local transaction identifier.
    pub fn local(&self) -> u32
        ensures { result ≡ self.now.local }
    {
        self.local
    }

    /// The transaction identifier of the peer.
    pub fn peer(&self) -> Tid
        ensures { result ≡ self.now.peer }
    {
        self.peer
    }

    /// The number of the dialogue among those that its link accepted, from 1.
    pub fn birth(&self) -> u64
        ensures { result ≡ self.now.birth }
    {
        self.birth
    }

    /// Whether the dialogue takes messages: its core isn't over, and it wasn't ended from outside.
    pub fn is_admitted(&self) -> bool
        ensures { result ≡ is_admitted self.now }
    {
        self.ended.is_none() && !self.core.is_over()
    }

    /// The entries that weren't served, the turn that is out first.
    fn unserved(&self) -> &[Entry]
        ensures { result.now ≡ unserved self.now }
    {
        &self.accepted.as_slice()[self.served..]
    }

    /// Whether an entry is still to be served.
    fn waits(&self) -> bool
        ensures { result ≡ waits self.now }
    {
        self.ended != Some(Ending::Closed)
            && !self.core.is_over()
            && self.served < self.accepted.len()
    }

    /// Whether a turn is out.
    fn has_turn_out(&self) -> bool
        ensures { result ≡ has_turn_out self.now }
    {
        self.out > 0
    }

    /// Whether an entry waits, and no turn is out.
    pub fn is_ready(&self) -> bool
        ensures { result ≡ is_ready self.now }
    {
        !self.has_turn_out() && self.waits()
    }

    /// Whether something of the dialogue is left: it is admitted, an entry waits, a turn is out, or a kept request
    /// wasn't sent.
    pub fn is_held(&self) -> bool
        ensures { result ≡ is_held self.now }
    {
        self.is_admitted() || self.has_turn_out() || self.waits() || self.sent < self.kept
    }

    /// How many of the unserved entries, including the turn that is out, take a place of the dialogue.
    pub fn places_taken(&self) -> usize
        ensures { result ≡ places_taken self.now }
    {
        self.unserved()
            .iter()
            .filter(|entry| entry.kind.takes_a_place())
            .count()
    }

    /// Whether a Clock waits or is out.
    fn has_clock(&self) -> bool
        ensures { result ≡ has_clock self.now }
    {
        self.unserved().iter().any(|entry| entry.kind.is_clock())
    }

    /// The earliest moment when the dialogue is given a Clock, in milliseconds since 1970-01-01T00:00:00Z. `None` if it
    /// isn't admitted, or if a Clock waits or is out.
    pub fn deadline(&self) -> Option<u64>
        ensures { result ≡ deadline_of self.now }
    {
        if !self.is_admitted() || self.has_clock() {
            return None;
        }
        Some(self.core.next_due())
    }

    /// Whether the dialogue is due at a moment: it has a deadline, at or before that moment.
    pub fn is_due(&self, moment: Moment) -> bool
        ensures { result ≡ is_due self.now moment }
    {
        match self.deadline() {
            Some(deadline) => deadline <= moment.milliseconds(),
            None => false,
        }
    }

    /// Puts the entries of a message after the others, and answers true. If the dialogue isn't admitted, it answers
    /// false; then, and if memory runs out, nothing changes, and the entries are lost. For no entries memory never runs
    /// out. If you hand in the peer's end or abort, you must also end the dialogue ([`Row::end`]).
    #[inline(always)]
    pub fn accept(&mut self, entries: Entries) -> Result<bool, AllocError>
        ensures ok { IfOk result (λ taken. (taken ≡ is_admitted self.old) × Accepts taken self.old entries self.new) }
        ensures err { OnErr result (self.new ≡ self.old) }
        ensures only { OnErr result ((is_admitted self.old ≡ true) × (entries ≢ [])) }
    {
        if !self.is_admitted() {
            return Ok(false);
        }
        if entries.is_empty() {
            return Ok(true);
        }
        append(&mut self.accepted, entries)?;
        Ok(true)
    }

    /// Puts a Clock of this moment after the entries, and answers true. If the dialogue isn't due, it answers false and
    /// nothing changes; nor does anything if memory runs out.
    pub fn accept_clock(&mut self, moment: Moment) -> Result<bool, AllocError>
        ensures ok { IfOk result (λ taken. (taken ≡ is_due self.old moment) × Clocks taken self.old moment self.new) }
        ensures err { OnErr result (self.new ≡ self.old) }
        ensures only { OnErr result (is_due self.old moment ≡ true) }
    {
        if !self.is_due(moment) {
            return Ok(false);
        }
        let kind = EntryKind::Clock;
        self.accepted.push(Entry { moment, kind })?;
        Ok(true)
    }

    /// The number of entries in the next turn of a ready dialogue, with this many free places.
    fn next_count(&self, free: usize) -> usize
        requires within { self.now.served ≤ length self.now.accepted }
        requires room { 0 < free }
        ensures value { result ≡ min most_entries (min (length (unserved self.now)) free) }
        ensures most { result ≤ length (unserved self.now) }
        ensures some { self.now.served < length self.now.accepted → 0 < result }
    {
        let waiting = self.accepted.len() - self.served;
        Turn::MOST_ENTRIES.min(waiting.min(free))
    }

    /// Hands out the turn of the next waiting entries: at most `free` of them, since each needs a place for a frame,
    /// and at most [`Turn::MOST_ENTRIES`]. `None` exactly if the dialogue isn't ready. Then, and if memory runs out for
    /// a copy of the entries and of the core, nothing changes. A row hands out one turn at a time.
    pub fn take(&mut self, alloc: Global, free: usize) -> Result<Option<Turn>, AllocError>
        requires { 0 < free }
        ensures ok { IfOk result (λ taken. Takes free self.old taken self.new) }
        ensures err { OnErr result (self.new ≡ self.old) }
        ensures only { OnErr result (is_ready self.old ≡ true) }
    {
        if !self.is_ready() {
            return Ok(None);
        }
        births_stay();
        let count = self.next_count(free);
        let entries = copies(alloc, &self.unserved()[..count])?;
        let before = HeapCore::copy_of(alloc, &self.core)?;
        self.out = count;
        Ok(Some(Turn {
            local: self.local,
            peer: self.peer,
            position: self.served,
            before,
            entries,
        }))
    }

    /// The entries that are out.
    fn entries_out(&self) -> &[Entry]
        ensures { result.now ≡ entries_out self.now }
    {
        &self.unserved()[..self.out]
    }

    /// Whether these are the entries that are out.
    fn are_out(&self, entries: &Entries) -> bool
        ensures { IsTrue result ↔ (entries_out self.now ≡ entries.now) }
    {
        equal_entries_are_the_same();
        self.entries_out() == entries.as_slice()
    }

    /// Whether this is the core, as a turn has it before its entries.
    fn is_before(&self, core: &Core) -> bool
        ensures { IsTrue result ↔ (self.now.core ≡ core.now) }
    {
        equal_cores_are_the_same();
        self.core == *core
    }

    /// Whether a turn is of this dialogue, at its next position.
    fn is_from_here(&self, turn: &Turn) -> bool
        ensures { IsTrue result ↔ IsFromHere self.now turn.now }
    {
        self.local == turn.local
            && self.peer == turn.peer
            && self.served == turn.position
            && self.is_before(turn.before.as_core())
    }

    /// Whether this turn is the one that is out.
    fn is_turn_out(&self, turn: &Turn) -> bool
        ensures { IsTrue result ↔ (turn_out self.now ≡ Some turn.now) }
    {
        self.has_turn_out() && self.is_from_here(turn) && self.are_out(&turn.entries)
    }

    /// The number of accepted entries is less than 2^64.
    fn accepted_fits(&self)
        ensures { length self.now.accepted < 2 ^ 64 }
    {
        let _count = self.accepted.len();
    }

    /// Takes back the turn that is out, served: its served entries count as served, and their requests are to be sent
    /// unless the dialogue was ended from outside. A stale or foreign turn is returned, and nothing changes: its
    /// identifiers, position, entries or core before aren't those of the turn that is out. Takes no memory.
    pub fn give(&mut self, done: Done) -> Result<Requested, Done>
        ensures ok { IfOk result (λ requested. Gives self.old done requested self.new) }
        ensures err { IfErr result (λ back. (back ≡ done) × (self.new ≡ self.old)) }
        ensures known { IsOk result ↔ (turn_out self.old ≡ Some done.turn) }
    {
        if !self.is_turn_out(&done.turn) {
            return Err(done);
        }
        folds_along_a_grown_list();
        cut_is_a_front();
        entries_ask_once_at_most();
        self.accepted_fits();
        let Done {
            turn,
            served,
            after,
            frames,
        } = done;
        turn.spend();
        let requested = Requested::of(self.ended, frames);
        let count = requested.frame_count();
        self.served += served;
        self.core = after.into_core();
        self.queued += count;
        self.kept += count;
        self.out = 0;
        Ok(requested)
    }

    /// Serves the next entries in their place, with the same result as handing out their turn ([`Row::take`]), serving
    /// it ([`Turn::serve`]) and giving it back ([`Row::give`]). `None` exactly if the dialogue isn't ready. Then, and
    /// if memory runs out for the frames, nothing changes.
    pub fn serve_next(
        &mut self,
        alloc: Global,
        free: usize,
    ) -> Result<Option<ServedTurn>, AllocError>
        requires { 0 < free }
        ensures ok { IfOk result (λ turn. ServesNext free self.old turn self.new) }
        ensures err { OnErr result (self.new ≡ self.old) }
        ensures only { OnErr result (is_ready self.old ≡ true) }
    {
        if !self.is_ready() {
            return Ok(None);
        }
        births_stay();
        folds_along_a_grown_list();
        cut_is_a_front();
        entries_ask_once_at_most();
        self.accepted_fits();
        let position = self.served;
        let count = self.next_count(free);
        let mut after = self.core;
        let entries = &self.unserved()[..count];
        let steps = Steps::of(alloc, &mut after, entries, self.local, &self.peer)?;
        let Steps { served, frames } = steps;
        let asked = Requested::of(self.ended, frames);
        let queued = asked.frame_count();
        self.served = position + served;
        self.core = after;
        self.queued += queued;
        self.kept += queued;
        self.out = 0;
        Ok(Some(ServedTurn {
            position,
            count,
            served,
            requested: asked,
        }))
    }

    /// Takes back the turn that is out, not served: its entries are the next ones again. A stale or foreign turn is
    /// returned, and nothing changes. Takes no memory.
    pub fn put_back(&mut self, turn: Turn) -> Result<(), Turn>
        ensures ok { OnOk result (PutsBack self.old turn self.new) }
        ensures err { IfErr result (λ back. (back ≡ turn) × (self.new ≡ self.old)) }
        ensures known { IsOk result ↔ (turn_out self.old ≡ Some turn) }
    {
        if !self.is_turn_out(&turn) {
            return Err(turn);
        }
        turn.spend();
        self.out = 0;
        Ok(())
    }

    /// Counts one more of the kept requests as sent, and answers true. If all were sent, it answers false and nothing
    /// changes. Takes no memory.
    pub fn sent(&mut self) -> bool
        ensures { Sends result self.old self.new }
    {
        if self.sent == self.kept {
            return false;
        }
        self.sent += 1;
        true
    }

    /// How many requests are kept when the dialogue is ended from outside: those that were sent, and the one that is
    /// being sent.
    fn kept_by_end(&self, is_sending: bool) -> usize
        ensures { result ≡ min self.now.kept (self.now.sent + sending is_sending) }
    {
        if is_sending && self.sent < self.kept {
            self.sent + 1
        } else {
            self.sent
        }
    }

    /// Ends the dialogue from outside. Requests that wait to be sent are dropped; if `is_sending`, except the one that
    /// is being sent now. With [`Ending::Closed`] the waiting entries are dropped too. A closed dialogue stays closed.
    /// Returns whether a request was dropped. Takes no memory.
    pub fn end(&mut self, ending: Ending, is_sending: bool) -> bool
        ensures ends { Ends ending is_sending self.old self.new }
        ensures drops { result ≡ nat_lt self.new.kept self.old.kept }
    {
        let kept = self.kept_by_end(is_sending);
        let drops = kept < self.kept;
        self.kept = kept;
        self.ended = Some(ending.after(self.ended));
        drops
    }
}
