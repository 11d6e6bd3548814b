//! The counters of a link, for its operators: the received messages, by kind and by outcome; the dialogues, the turns
//! and the requests; and the sent messages, by kind, with their components and causes.
//!
//! The layer is handed steps of a link's log and sent frames, and keeps numbers. It asks the system for nothing, and
//! takes no memory.
//!
//! * [`Counter`]: an event that is counted. `specs/Steps.antt` and `specs/Frames.antt` define the events of each step
//!   and each frame.
//! * [`FrameCounts`]: the counts of a frame, found in its octets by [`frame_counts`].
//! * [`Counters`]: the number of each event. A thread keeps its own, and a reader adds them up.
//! * [`Histogram`]: how many times are between each two of a list of bounds.
//! * [`Highest`]: the greatest number so far.
//!
//! The layer above may rely on this: the number of a counter is the number of its events that were handed in, up to
//! 2^64 - 1, in any order and shared among threads in any way.
#![tactic(auto)]

mod component;
mod counter;
mod counters;
mod ends;
mod frame;
mod highest;
mod histogram;
mod kind;
mod octets;
mod steps;

pub use counter::{COUNTERS, Counter, all_counters_are_listed};
pub use counters::Counters;
pub use frame::{FrameCounts, frame_counts};
pub use highest::Highest;
pub use histogram::{BOUNDS, BUCKETS, Histogram};
