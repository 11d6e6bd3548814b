//! The counters of a link: what its threads count of log lines, of sent frames, of each called number and of its rare
//! events.
//!
//! The layer is handed log lines, parcels, the status of the book, moments and the newest records. It takes memory and
//! locks, and reads the clock. It starts no thread, and knows no book and no socket.
//!
//! ```text
//!   thread          call                          counts
//!   takes lines --> StepCounts::count ----------> steps by their kind -------------------+
//!      |   \------> LinkMetrics::note_lines ----> lines that wait -----------------------|
//!      \----------> LineCounts::count_lines ----> NumberRows: each called number         |
//!                   or count_log                    ^   (read by NumberCounts::add_to)   |
//!                                                   | the frames noted so far            |
//!   sends --------> LinkMetrics::count_parcel ------+-> sent messages and components ----|--> LinkMetrics::numbers
//!       \---------> close_sample <-- Sample <-- open_sample <-- receives                 |
//!   any ----------> note_up, note_tick, note_status, count_end, ..: the link's state ----+
//! ```
//!
//! * [`LinkMetrics`] has all counters of a link, and [`LinkMetrics::numbers`] adds them up for a reader.
//! * [`StepCounts`] and [`SentCounts`] are locked by the thread that counts, for a portion of lines and a series of
//!   parcels.
//! * [`NumberCounts`] has the counters of each called number ([`CalledNumber`]), if the run counts numbers.
//!   [`LineCounts`] counts lines that left the book together, and then the frames that were sent before. `called.rt`
//!   and `plain_begin.rt` find the number that a Begin calls.
//! * [`now`] and [`time_since`] read the clock, for the threads of a run.
//!
//! The layer above may rely on this: [`StepCounts::count`] counts what `fp_counters` defines for a step, and
//! [`LinkMetrics::count_parcel`] what it defines for the frame of a request or for an Abort of the provider. No
//! contract says what a reader finds under the locks, which other threads change, or what is counted for a called
//! number: `tools/counters` compares it with the log and with what the clients saw.
#![tactic(auto)]

mod called;
mod frames;
mod link_metrics;
mod moment;
mod number_counts;
mod number_rows;
mod plain_begin;
mod sample;

pub use called::CalledNumber;
pub use link_metrics::{LinkMetrics, SentCounts, StepCounts};
pub use moment::{now, time_since};
pub use number_counts::{LineCounts, NumberCounts};
