//! Streams of octets: every part of the program that reads or writes octets is built on this layer.
//!
//! This layer gets readers and writers, a limit on the length of a line, and a limit on the number of reads. It asks
//! the system only for the memory of a line, 4,096 octets or more.
//!
//! * [`LinkRead`] and [`LinkWrite`] are devices that count their failures, so that a reported failure can be shown to
//!   have happened. [`Counted`] makes them of a [`Read`](std::io::Read) and a [`Write`](std::io::Write).
//! * [`follow_lines`] hands the lines of a reader to a [`TakesLine`], one after another, however the reads divide them.
//! * [`write_all`] writes octets, in one or more writes.
//!
//! The layer above may rely on this. The octets that [`follow_lines`] read are the taken lines, each with its line
//! feed, and a rest. Each line was taken in the state after the lines before it. The rest shows why no more lines were
//! taken, or is the last line (`specs/Following.antt`). All reads that gave octets are known one by one, and also
//! whether one more was made (`specs/Reads.antt`). [`line_feeds_end_lines`] says where lines end (`specs/Line.antt`). A
//! fault of a device is reported only if the device failed in that call. A failed write has written a prefix of the
//! octets (`specs/Write.antt`).
#![tactic(auto)]

mod counted;
mod fault;
mod following;
mod laws;
mod link;
mod takes_line;
mod write;

pub use counted::Counted;
pub use fault::{DeviceFault, LinesFault, WriteFault};
pub use following::follow_lines;
pub use laws::line_feeds_end_lines;
pub use link::{LinkRead, LinkWrite};
pub use takes_line::TakesLine;
pub use write::write_all;
