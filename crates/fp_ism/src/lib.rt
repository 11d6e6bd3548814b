//! The invocations of a dialogue: the invocation state machines of ITU-T Q.774, 3.2, for operations of the four
//! classes of Q.771.
//!
//! This layer takes classes, identifiers and moments and returns identifiers and outcomes. It asks the system for
//! nothing: no memory, no clock, no input. Its values have a fixed size and may be copied.
//!
//! * [`Invocations`] holds at most eight active invocations, each with its identifier, its class and the moment
//!   when it is due.
//! * [`Outcome`] is the effect of a ReturnResult, a ReturnError or a Reject on the invocation that it names:
//!
//! | Component | Not active | Class 1 | Class 2 | Class 3 | Class 4 |
//! |---|---|---|---|---|---|
//! | ReturnResult, last | problem: unrecognized | success | problem: unexpected | success | problem: unexpected |
//! | ReturnResult, not last | problem: unrecognized | stays | problem: unexpected | stays | problem: unexpected |
//! | ReturnError | problem: unrecognized | failure | failure | problem: unexpected | problem: unexpected |
//! | Reject | ignored | failure | failure | failure | failure |
//!
//! Every outcome of an active invocation except "stays" ends it. "Unrecognized" is the problem unrecognized invoke
//! identifier, "unexpected" the problem ReturnResult or ReturnError unexpected (Q.773, 4.2.2).
//!
//! An invocation of class 3 is a test of its dialogue: ActivityTest is the only operation of that class.
//! `specs/Testing.antt` defines whether a test is active, and whether one is due.
//!
//! The layer above may rely on this: contracts see [`Invocations`] as the identifier started last and the list of the
//! active invocations (`specs/Invocations.antt`). Outcomes follow the table (`specs/Outcome.antt`). A new identifier is
//! the first one after the last started one that isn't active (`specs/Identifier.antt`). Time limits depend only on the
//! class (`specs/Due.antt`). The least deadline is at most each of them ([`least_is_at_most_each`]). [`Full`] is
//! returned exactly if eight are active.
#![tactic(auto)]

mod active;
mod invocation;
mod invocations;
mod laws;
mod outcome;

pub use invocations::{Full, Invocations};
pub use laws::least_is_at_most_each;
pub use outcome::Outcome;
