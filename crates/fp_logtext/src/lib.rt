//! The text of a link's log: from the lines that its book hands out to the octets that the log's device takes.
//!
//! The layer is handed log lines and a device to write to, and takes memory. It starts no thread and has no lock: each
//! value below is kept under a lock of the caller, or by one thread.
//!
//! ```text
//!   book --exchange_log--------------------> MadeText --> UnwrittenText --> device
//!     \---drain--> moved --> WaitingLines ---/ (lines, text)  (text)
//!                            (lines)
//! ```
//!
//! * [`WaitingLines`]: lines that were moved out of the book and wait for their text.
//! * [`MadeText`]: lines whose text is being made, and the text so far. They are lines that waited, or, if none does,
//!   all lines of the book ([`MadeText::take_log`]).
//! * [`UnwrittenText`]: text that the writing thread took, and that the device takes part by part.
//!
//! The layer above may rely on this: no line is lost, doubled or moved before another one. The text handed to the
//! writing thread, the text so far, and the text of the waiting lines, in their order, is the text of all lines taken
//! in (`Logged` in `specs/Logged.antt`). The text handed to the writing thread is the text that the device took, octet
//! by octet, and the rest that it hasn't taken (`Written`, there). [`lines_keep_their_order`] says how each call keeps
//! both. A gap in a book's log is a line of its own. If an allocation fails, the line stays where it is.
#![tactic(auto)]

mod exchanged;
mod laws;
mod made;
mod unwritten;
mod waiting;

pub use laws::lines_keep_their_order;
pub use made::MadeText;
pub use unwritten::{UnwrittenText, WrittenPart};
pub use waiting::WaitingLines;
