//! Tests of `fp_hub`, for those who change it: threads that share the hub of a link, over memory.
//!
//! No contract of `fp_hub` can say that each call of a hub makes the book's call of that name, or that hints and
//! parcels reach the threads that wait for them, since no clause names what another thread may have changed. The tests
//! here and in `tests_walks` show it. They are in crates of their own so that `fp_hub` is proved once.
//!
//! * `relays` are the tests of this crate: one thread posts messages, workers serve them, another thread sends. The
//!   answers are compared octet by octet.
//! * [`messages`] are the records and the messages, also for `tests_walks`.
//! * [`SecondFirst`] is a gate that holds a turn until another dialogue was answered, also for `tests_serve`.
#![tactic(auto)]

pub mod messages;
mod second_first;

pub use second_first::{EACH_ONCE, SecondFirst};

#[cfg(test)]
mod relays;
