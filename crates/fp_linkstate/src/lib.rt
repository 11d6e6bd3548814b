//! The state of a link that its threads share, without the threads: the course of its end, and its frames between their
//! receipt and their post to the book.
//!
//! This layer gets events, times, frames, tables and moments. It starts no thread, takes no lock, reads no clock and no
//! socket; it takes memory. The caller keeps a [`LinkEnd`] under a lock, and an [`ArrivalQueue`] in the receiving
//! thread.
//!
//! # The end of a link
//!
//! A [`LinkEnd`] takes [`LinkEvent`]s, and returns an [`Action`] for each. The code has a function for each state, with
//! the rows of this table in this order. The first reason belongs to the first event that has one, and it stays. `at +
//! 2 s` is 2,000 milliseconds after the time of the event; `earlier` is the earlier of two times.
//!
//! | State | Event | Next state | Action |
//! |---|---|---|---|
//! | `Up` | `CallFailed` | `Up`, the reason noted | |
//! | | `EndOfInput` | `Draining` until at + 2 s, the peer has closed | |
//! | | `Quit` | `Draining` until at + 2 s | |
//! | | `LoopFault`, `RunFault`, `TooManyEntries` | `Down` | `End` with the first reason |
//! | | `Clock`, `Quiet`, `PeerClosed` | `Up` | |
//! | `Draining` | `CallFailed` | `Draining` | |
//! | | `EndOfInput` | `Draining` until the earlier of its time and at + 2 s, the peer has closed | |
//! | | `Quit` | `Draining` until the earlier of its time and at + 2 s | |
//! | | `PeerClosed` | `Draining`, the peer has closed | |
//! | | `Quiet`, if the peer has closed | `Down` | `End` with the first reason |
//! | | `Quiet` otherwise | `Lingering` | `EndSending` with the first reason |
//! | | `Clock`, if its time is over | `Down` | `End` with the first reason |
//! | | `Clock` otherwise | `Draining` | |
//! | | `LoopFault`, `RunFault`, `TooManyEntries` | `Down` | `End` with the first reason |
//! | `Lingering` | `CallFailed` | `Lingering` | |
//! | | `Quit` | `Lingering` until the earlier of its time and at + 2 s | |
//! | | `Quiet` | `Lingering` | |
//! | | `Clock`, if its time is over | `Down` | `Close` |
//! | | `Clock` otherwise | `Lingering` | |
//! | | `EndOfInput`, `PeerClosed`, `LoopFault`, `RunFault`, `TooManyEntries` | `Down` | `Close` |
//! | `Down` | any | `Down` | |
//!
//! `End` reports the reason, takes the book down and shuts both sides of the socket; `EndSending` does the same, but
//! shuts only the writing side; `Close` shuts both sides. So the thread that gets `EndSending` takes the book down
//! before the link lingers.
//!
//! # The frames of a link
//!
//! An [`ArrivalQueue`] is fed the received frames. A portion from its front is prepared for a post, into a list of the
//! caller. The messages that are still in that list after the post return to the front.
//!
//! # What the layer above may rely on
//!
//! * If the link lingers or is down, the book was taken down and the end reported once, with the first reason;
//!   otherwise neither was done. If it is down, both sides of the socket were shut once ([`LinkEnd::new`]: `once`).
//! * The first `Clock` that is at least two seconds after `Quit` or `EndOfInput` finds the link down or takes it down
//!   ([`LinkEnd::new`]: `in_time`). Until then a link that was up drains, unless all is sent or there is a fault
//!   (`no_sooner`). A fault takes it down at once (`at_once`). For example, after `Quit` at 5,000 a `Clock` at 7,000
//!   takes it down.
//! * The frames that were fed are, in this order: the posted ones, the prepared ones, the waiting ones, and the dropped
//!   ones, only after [`ArrivalQueue::quit`] or a failed allocation (`Arrived` in `specs/Arrivals.antt`;
//!   [`queue_keeps_order`]). At most 64 are prepared at once, each with the table, the names and the moment of its
//!   [`Reading`].
#![tactic(auto)]

mod arrivals;
mod link_end;
mod why;

pub use arrivals::{ArrivalQueue, Reading, queue_keeps_order};
pub use link_end::{Action, LinkEnd, LinkEvent};
pub use why::Why;
