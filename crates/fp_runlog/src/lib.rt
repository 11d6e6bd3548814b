//! The log of a run, from the lines that the books of its links hand out to the device.
//!
//! The layer is handed the hubs of the links, the counters of their lines, the records, a device and the run
//! ([`LogRun`]). It takes memory, locks and sleep, and reads the clock. It starts no thread and opens no file: the caller
//! runs the writing thread ([`LogWriter::run`]), and knows the device.
//!
//! ```text
//!   book --exchange--> LinkLog (one for each link) --take--> LogWriter --> device
//!     \---drain-----/    |                                     |(one thread of the run)
//!     ^  (LogSide)       \--- lines that have their text       |
//!     |                                 v                      v
//!   threads of the link <---------- RunLog: lines and octets that the device took
//! ```
//!
//! * [`RunLog`]: the state that the run, its links and the writing thread share, and who waits for whom.
//! * [`LinkLog`]: the lines of a link that left its book and wait (values of `fp_logtext`), under their locks.
//! * [`LogSide`]: the calls of a link's threads: they take lines out of the book, count them, report gaps, and make
//!   text. [`LogWait`] says how long the receiving thread waits for places for lines.
//! * [`LogWriter`]: the state of the thread that writes the log. [`WhenLogFails`] is the reaction to a write that fails.
//!
//! | File | Contents |
//! |---|---|
//! | `run_log.rt` | [`RunLog`], and the table of its waits |
//! | `link_log.rt`, `log_side.rt` | the lines of a link that wait; the calls that move them and make their text |
//! | `log_wait.rt` | how the receiving thread of a link waits for places for lines |
//! | `log_writer.rt`, `when_log_fails.rt` | the thread that writes the log; the reaction to a write that fails |
//! | `log_run.rt` | [`LogRun`]: the run as the log sees it, with its events ([`LogEvent`]) and faults ([`LogFault`]) |
//!
//! The layer above may rely on this: the text of a link's lines is that of `fp_logtext`, and each line is counted as
//! `fp_tally` says. No contract speaks of the octets of the device, or says that a wait ends: `tests_serve` and
//! `tools/attacks` test these.
#![tactic(auto)]

mod link_log;
mod log_run;
mod log_side;
mod log_wait;
mod log_writer;
mod run_log;
mod when_log_fails;

pub use link_log::LinkLog;
pub use log_run::{LogEvent, LogFault, LogRun};
pub use log_side::{Left, LogSide};
pub use log_wait::LogWait;
pub use log_writer::LogWriter;
pub use run_log::{RunLog, WriterEnds};
pub use when_log_fails::WhenLogFails;
