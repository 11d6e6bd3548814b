//! The events of a run, and their lines.

use crate::Peer;
use arrayvec::ArrayString;
use fp_digits::Moment;
use fp_linkstate::Why;
use fp_network::NetworkEvent;
use jiff::Timestamp;
use std::alloc::{AllocError, Global};
use std::fmt;

/// The version of a program, in at most 20 octets.
pub type Version = ArrayString<20>;

/// An event of a run.
#[derive(Clone, Copy, Debug, PartialEq, Eq)]
pub enum Event {
    /// The run began, with a program of this version.
    Program {
        /// The version.
        version: Version,
    },
    /// The records were read from a file of this SHA-256 digest.
    Records {
        /// The digest.
        digest: [u8; 32],
    },
    /// The records were read again, from a file of this SHA-256 digest.
    Reloaded {
        /// The index of the records among those of the run, from 1.
        index: u32,
        /// The digest.
        digest: [u8; 32],
    },
    /// A link went up.
    Up {
        /// The number of the link.
        link: u8,
        /// The peer of the link.
        peer: Peer,
    },
    /// A link went down.
    Down {
        /// The number of the link.
        link: u8,
        /// The first reason for it.
        why: Why,
    },
    /// Messages of a link were held back for the longest time allowed, and then posted.
    Late {
        /// The number of the link.
        link: u8,
        /// The number of messages.
        messages: u64,
    },
    /// An event of the network that carries the link.
    Network(NetworkEvent),
    /// The log can't be written, and the run goes on.
    LogFails,
    /// The log is written again.
    LogGoesOn,
    /// Lines of a link found no place, and the log has a gap there.
    LogGap {
        /// The number of the link.
        link: u8,
        /// The number of lines.
        lines: u64,
    },
    /// The run ended without having written this number of lines.
    LogLost {
        /// The number of lines.
        lines: u64,
    },
}

/// Writes a digest in hexadecimal digits.
fn write_digest<W: fmt::Write>(digest: &[u8; 32], f: &mut fmt::Formatter<W>) -> fmt::Result {
    for octet in digest {
        write!(f, "{octet:02x}")?;
    }
    Ok(())
}

impl fmt::Display for Event {
    fn fmt<W: fmt::Write>(&self, f: &mut fmt::Formatter<W>) -> fmt::Result {
        match self {
            Event::Program { version } => write!(f, "scp {}", version.as_str()),
            Event::Records { digest } => {
                f.write_str("records ")?;
                write_digest(digest, f)
            }
            Event::Reloaded { index, digest } => {
                write!(f, "reloaded {index} ")?;
                write_digest(digest, f)
            }
            Event::Up { link, peer } => write!(f, "link {link} up {peer}"),
            Event::Down { link, why } => write!(f, "link {link} down {why}"),
            Event::Late { link, messages: 1 } => {
                write!(f, "link {link}: 1 message was held back too long")
            }
            Event::Late { link, messages } => {
                write!(
                    f,
                    "link {link}: {messages} messages were held back too long"
                )
            }
            Event::Network(event) => event.fmt(f),
            Event::LogFails => f.write_str("log: cannot be written, lines are lost"),
            Event::LogGoesOn => f.write_str("log: written again"),
            Event::LogGap { link, lines: 1 } => write!(f, "link {link} log: 1 line is lost"),
            Event::LogGap { link, lines } => write!(f, "link {link} log: {lines} lines are lost"),
            Event::LogLost { lines: 1 } => f.write_str("log: 1 line is lost"),
            Event::LogLost { lines } => write!(f, "log: {lines} lines are lost"),
        }
    }
}

/// The events that are written.
#[derive(Clone, Copy, Debug, PartialEq, Eq)]
pub enum Wanted {
    /// All of them, each after its moment.
    All,
    /// Only `LogFails` and `LogGoesOn`, without a moment.
    LogFaults,
}

impl Wanted {
    /// Whether this event is written.
    pub fn includes(self, event: &Event) -> bool {
        match self {
            Wanted::All => true,
            Wanted::LogFaults => matches!(event, Event::LogFails | Event::LogGoesOn),
        }
    }
}

/// An event, and its moment.
#[derive(Clone, Copy)]
pub struct TimedEvent {
    /// The moment.
    pub moment: Moment,
    /// The event.
    pub event: Event,
}

impl TimedEvent {
    /// The line of the event, with its moment.
    pub(crate) fn line_of_all(&self, alloc: Global) -> Result<String, AllocError> {
        self.line(alloc, Wanted::All)
    }

    /// The line of the event, with a line feed: after its moment if all events are wanted. If memory runs out, there is
    /// none. For example, `2026-01-05T09:00:00.250Z link 0 down peer closed`.
    pub fn line(&self, alloc: Global, wanted: Wanted) -> Result<String, AllocError> {
        let event = self.event;
        let milliseconds = i64::try_from(self.moment.milliseconds()).unwrap_or(i64::MAX);
        match (wanted, Timestamp::from_millisecond(milliseconds)) {
            (Wanted::All, Ok(moment)) => format!(in alloc; "{moment:.3} {event}\n"),
            (Wanted::All | Wanted::LogFaults, _) => format!(in alloc; "{event}\n"),
        }
    }
}
