//! The run of a log, as the log sees it.

use std::rt::Clock;
use std::sync::Wait;

/// An event of a log.
#[derive(Clone, Copy, Debug, PartialEq, Eq)]
pub enum LogEvent {
    /// The log can't be written, and the run goes on.
    Fails,
    /// The log is written again.
    GoesOn,
    /// Lines of a link found no place, and the log has a gap there.
    Gap {
        /// The number of the link.
        link: u8,
        /// The number of lines.
        lines: u64,
    },
}

/// The fault of a log that ends its run: all links must go down.
#[derive(Clone, Copy, Debug, PartialEq, Eq)]
pub enum LogFault {
    /// A write failed, and the run must not go on without its log.
    Unwritten,
    /// Memory ran out for the text of a link's last lines, which are lost.
    Memory,
}

/// The run of a log: its time, its end, and its events. All threads that use the log share it.
pub trait LogRun {
    /// The time since the run began, in milliseconds. If the clock gives no time, the greatest number.
    fn time<R: Clock>(&self, rt: &R) -> u64;

    /// Whether the links are to end as at the end of their input: no further message is posted.
    fn is_quitting(&self) -> bool;

    /// Whether the run is to end: its links are to end as at the end of their input, or it had a fault.
    fn is_ending<R: Wait>(&self, rt: &R) -> bool;

    /// Reports an event. Must wait for no device.
    fn report<R: Wait + Clock>(&self, rt: &R, event: LogEvent);

    /// Takes all links down, because of this fault.
    fn end<R: Wait>(&self, rt: &R, fault: LogFault);
}
