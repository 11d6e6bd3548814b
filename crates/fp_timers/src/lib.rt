//! The deadlines of the dialogues of a link: when each has to be served even without a message, by its local
//! transaction identifier (ITU-T Q.773, 4.2.1.3).
//!
//! The layer is handed identifiers, deadlines and the moment, and asks no clock. A deadline is a number of milliseconds
//! since 1970-01-01T00:00:00Z, as a moment is, and may lie beyond the last moment. Memory for all of them,
//! [`Deadlines::MOST`], is taken by [`Deadlines::new`], and none after it.
//!
//! Each deadline is in a list in the order of identifiers, and in one of four lanes, each in the order of deadlines. A
//! new one goes to the end of the first lane where it is last. Deadlines that are set the same time ahead are set in
//! order. So they mostly share a lane, and one is seldom put between others. A change looks for its deadline at both
//! ends of the list and of the lanes first, and then searches by halves. [`Deadlines::due`] looks only at the first of
//! each lane. [`Deadlines::due_after`] searches each lane by halves, unless it is asked for the first of all.
//!
//! The layer above may rely on this: contracts see [`Deadlines`] as a finite map from identifier to deadline, which
//! [`Deadlines::set`] and [`Deadlines::clear`] change at one identifier alone, and [`Deadlines::clear_all`] empties.
//! [`Deadlines::due`] gives the identifier of the earliest deadline, the smallest if several have it, exactly if that
//! deadline is at or before the moment. [`Deadlines::due_after`] gives the same of the deadlines after a [`Timer`] in
//! this order (`specs/Deadlines.antt`).
#![tactic(auto)]

mod by_deadline;
mod by_local;
mod deadlines;
mod lane;
mod laws;
mod timers;

pub use deadlines::Deadlines;
pub use laws::{earliest_due_after_is_one, earliest_due_is_one};
pub use timers::Timer;
