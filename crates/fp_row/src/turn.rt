//! Turns.

ghost use Rattle.std.specs.Prelude.{◌≡◌, [], IfOk, IfErr, IsOk, length};
ghost use Rattle.fp_tids.specs.Identifiers.{link_of};
ghost use Rattle.fp_row.specs.Turn.{birth_of};

use crate::Done;
use crate::heap_core::HeapCore;
use crate::serving::Steps;
use fp_entry::Entries;
use fp_q773::Tid;
use fp_tids::link_of;
use std::alloc::Global;

/// The next entries of a dialogue, at most [`Turn::MOST_ENTRIES`], with the core before them. A row hands out one turn
/// at a time. You must serve it, put it back or abandon it.
#[must_use]
#[derive(Debug)]
pub struct Turn {
    pub(crate) local: u32,
    pub(crate) peer: Tid,
    pub(crate) position: usize,
    pub(crate) before: HeapCore,
    pub(crate) entries: Entries,
}

impl Turn {
    /// The most entries of a turn.
    pub const MOST_ENTRIES: usize = 16;

    /// The link of the dialogue, 0 to 7.
    pub fn link(&self) -> u8
        ensures { result ≡ link_of self.now.local }
    {
        link_of(self.local)
    }

    /// The local transaction identifier of the dialogue.
    pub fn local(&self) -> u32
        ensures { result ≡ self.now.local }
    {
        self.local
    }

    /// The transaction identifier of the peer.
    pub fn peer(&self) -> Tid
        ensures { result ≡ self.now.peer }
    {
        self.peer
    }

    /// The birth of the dialogue: its number among those that its link accepted, from 1.
    pub fn birth(&self) -> u64
        ensures { result ≡ birth_of self.now }
    {
        self.before.as_core().birth()
    }

    /// The place of the first entry among those that the dialogue accepted, from 0.
    pub fn position(&self) -> u64
        ensures { result ≡ self.now.position }
    {
        self.position as u64
    }

    /// The number of entries.
    pub fn count(&self) -> usize
        ensures { result ≡ length self.now.entries }
    {
        self.entries.len()
    }

    /// Serves the entries: makes the step of the service logic for one after the other, until the dialogue is over, and
    /// the frames of their requests. If memory runs out, the turn is returned unchanged.
    pub fn serve(self, alloc: Global) -> Result<Done, Turn>
        ensures turn { IfOk result (λ done. done.turn ≡ self) }
        ensures same { IfErr result (λ turn. turn ≡ self) }
    {
        let Ok(mut after) = HeapCore::copy_of(alloc, self.before.as_core()) else {
            return Err(self);
        };
        let entries = self.entries.as_slice();
        let Ok(steps) = after.serve_all(alloc, entries, self.local, &self.peer) else {
            return Err(self);
        };
        let Steps { served, frames } = steps;
        Ok(Done {
            turn: self,
            served,
            after,
            frames,
        })
    }

    /// Gives up a turn without serving it. Its dialogue stays held forever. Takes no memory.
    pub fn abandon(self) {
        self.spend();
    }

    /// Spends a turn that is back in its dialogue. Takes no memory.
    pub(crate) fn spend(self) {
        let Turn {
            local: _,
            peer: _,
            position: _,
            before: _,
            entries: _,
        } = self;
    }
}
