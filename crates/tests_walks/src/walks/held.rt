//! The messages, turns, parcels and hints that a walk has at hand between its calls.

use fp_book::Parcel;
use fp_entry::Prepared;
use fp_hub::{Hints, Work, abandon_all};
use fp_records::Table;
use std::alloc::Global;
use std::collections::VecDeque;
use std::mem;

/// How many turns a list has room for.
pub(super) const MOST_TURNS: usize = 32;

/// The values that a walk has at hand between its calls. They must be given up.
#[must_use]
pub(super) struct Held<'a> {
    pub(super) alloc: Global,
    /// The records that messages are prepared with.
    pub(super) table: &'a Table,
    /// The words that the calls of a line answered.
    pub(super) words: String,
    /// Messages that are prepared, and not posted yet.
    pub(super) came: VecDeque<Prepared>,
    /// Turns that were taken, and not given back yet.
    pub(super) work: VecDeque<Work>,
    /// The parcel that was picked and isn't reported yet.
    pub(super) parcel: Option<Parcel>,
    /// The hints that workers wait for.
    pub(super) hints: Vec<Hints>,
}

impl<'a> Held<'a> {
    /// Nothing. `None`: out of memory.
    pub(super) fn new(alloc: Global, table: &'a Table) -> Option<Held<'a>> {
        let work = match VecDeque::with_capacity(alloc, MOST_TURNS) {
            Ok(work) => work,
            Err(_) => return None,
        };
        Some(Held {
            alloc,
            table,
            words: String::new(alloc),
            came: VecDeque::new(alloc),
            work,
            parcel: None,
            hints: Vec::new(alloc),
        })
    }

    /// Gives up all of them.
    pub(super) fn abandon(self) {
        let Held {
            alloc: _,
            table: _,
            words,
            came,
            work,
            parcel,
            hints,
        } = self;
        drop(words);
        drop(came);
        drop(hints);
        abandon_all(work);
        if let Some(parcel) = parcel {
            parcel.abandon();
        }
    }
}

/// Puts a turn at the end of a list, if that has room.
pub(super) fn put(list: &mut VecDeque<Work>, work: Work) {
    if list.len() < list.capacity() {
        list.push_back_reserved(work);
    } else {
        work.abandon();
    }
}

/// Keeps a parcel in the place of the one that is there.
pub(super) fn keep(place: &mut Option<Parcel>, parcel: Parcel) {
    if let Some(old) = mem::replace(place, Some(parcel)) {
        old.abandon();
    }
}

/// Serves the turns of a list.
pub(super) fn serve_each(alloc: Global, work: &mut VecDeque<Work>) {
    for _ in 0..work.len() {
        let served = match work.pop_front() {
            Some(Work::Unserved(turn)) => match turn.serve(alloc) {
                Ok(done) => Work::Served(done),
                Err(turn) => Work::Unserved(turn),
            },
            Some(Work::Served(done)) => Work::Served(done),
            None => return,
        };
        work.push_back_reserved(served);
    }
}
