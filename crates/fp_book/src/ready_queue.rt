//! The order in which dialogues are served.

ghost use Rattle.std.specs.Prelude.{◌≡◌, ◌<◌, ◌≤◌, ◌∷◌, ◌++◌, [], IfOk, filter, length};
ghost use Rattle.std.specs.List.{slice_get};
ghost use Rattle.std.specs.Option.{option_to_list};
ghost use Rattle.fp_book.specs.ReadyQueue.{IsEmptyIfNone, is_other};

use crate::Book;
use std::alloc::{AllocError, Global};
use std::collections::VecDeque;
use std::marker::Model;

/// The local transaction identifiers of dialogues in the order in which they are served, at most [`ReadyQueue::MOST`].
/// Contracts see their list.
#[derive(Debug, Drop)]
pub struct ReadyQueue {
    locals: VecDeque<u32>,
}

impl Model for ReadyQueue {
    ghost use Rattle.std.specs.Prelude.{ℕ, ◌≤◌, List, length};
    ghost use Rattle.std.specs.VecDeque.{deque_capacity};
    ghost use Rattle.fp_book.specs.Limits.{most_dialogues};

    ghost Value = { List ℕ };

    ghost view = { λ queue. queue.locals.items };

    ghost invariant = { λ queue. (length queue.locals.items ≤ most_dialogues) × (most_dialogues ≤ deque_capacity queue.locals) };
}

impl ReadyQueue {
    /// The most identifiers in a queue.
    pub const MOST: usize = Book::MOST_DIALOGUES;

    /// An empty queue. Reserves memory for [`ReadyQueue::MOST`] identifiers.
    pub fn new(alloc: Global) -> Result<ReadyQueue, AllocError>
        ensures { IfOk result (λ queue. queue ≡ []) }
    {
        Ok(ReadyQueue {
            locals: VecDeque::with_capacity(alloc, Self::MOST)?,
        })
    }

    /// The number of identifiers, at most [`ReadyQueue::MOST`].
    pub fn len(&self) -> usize
        ensures count { result ≡ length self.now }
        ensures most { result ≤ Self.MOST }
    {
        self.locals.len()
    }

    /// Puts an identifier after the others. There must be fewer than [`ReadyQueue::MOST`]. Takes no memory.
    pub fn join(&mut self, local: u32)
        requires room { length self.old < Self.MOST }
        ensures { self.new ≡ self.old ++ local ∷ [] }
    {
        self.locals.push_back_reserved(local);
    }

    /// The identifier that is served next, if there is one.
    pub fn first(&self) -> Option<u32>
        ensures { result ≡ slice_get self.now 0 }
    {
        self.locals.front().copied()
    }

    /// Takes off the identifier that is served next, if there is one. Takes no memory.
    pub fn next(&mut self) -> Option<u32>
        ensures taken { self.old ≡ option_to_list result ++ self.new }
        ensures none { IsEmptyIfNone result self.old }
    {
        self.locals.pop_front()
    }

    /// Removes an identifier, wherever it is, and keeps the order of the others. Takes no memory.
    pub fn leave(&mut self, local: u32)
        ensures { self.new ≡ filter (is_other local) self.old }
    {
        self.locals.retain(|other| *other != local);
    }

    /// Removes all identifiers. Takes no memory.
    pub fn clear(&mut self)
        ensures { self.new ≡ [] }
    {
        self.locals.clear();
    }
}
