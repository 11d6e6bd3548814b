//! A socket that is waited at.

use mio::event::Event;
use mio::{Interest, Registry, Token};
use std::io;
use std::io::ErrorKind;

/// A socket among the sources of a poll. The socket is always watched for input. It is watched for
/// room for output only after a write found none. The system reports only once that a socket is
/// ready. So that is noted until a read or a write finds that it isn't ready any more.
#[derive(Drop)]
pub(crate) struct Source<S: mio::event::Source + Drop> {
    pub(crate) stream: S,
    watched: Option<Interest>,
    // Whether there may be something to be read.
    pub(crate) has_input: bool,
    // Whether its peer sends no more, or it failed: a read will say so.
    is_ended: bool,
    // Whether it had no room for output that waits.
    pub(crate) is_full: bool,
}

impl<S: mio::event::Source + Drop> Source<S> {
    /// A socket that isn't watched yet.
    pub(crate) fn new(stream: S) -> Source<S> {
        Source {
            stream,
            watched: None,
            has_input: false,
            is_ended: false,
            is_full: false,
        }
    }

    /// The readiness that it is watched for.
    fn wanted(&self) -> Interest {
        if self.is_full {
            Interest::READABLE | Interest::WRITABLE
        } else {
            Interest::READABLE
        }
    }

    /// Watches it for the readiness that is wanted. `false`: the system refuses.
    pub(crate) fn watch(&mut self, registry: &Registry, place: usize) -> bool {
        let wanted = self.wanted();
        if self.watched == Some(wanted) {
            return true;
        }
        let answer = if self.watched.is_some() {
            registry.reregister(&mut self.stream, Token(place), wanted)
        } else {
            registry.register(&mut self.stream, Token(place), wanted)
        };
        self.watched = Some(wanted);
        answer.is_ok()
    }

    /// Notes the readiness that an event reports.
    pub(crate) fn note(&mut self, event: &Event) {
        self.has_input |= event.is_readable() || event.is_read_closed() || event.is_error();
        self.is_ended |= event.is_read_closed() || event.is_error();
        self.is_full &= !event.is_writable();
    }

    /// A read gave less than it had room for, so that nothing more is there, unless its peer ended.
    pub(crate) fn has_no_more(&mut self) {
        self.has_input = self.is_ended;
    }

    /// A read failed. It is to be retried once there is input, or at once if a signal ended it.
    pub(crate) fn awaits_input(&mut self, error: &io::Error) {
        self.has_input = matches!(error.kind(), ErrorKind::Interrupted);
    }
}

/// Whether a call that failed is to be retried once the socket is ready.
pub(crate) fn is_again(error: &io::Error) -> bool {
    match error.kind() {
        ErrorKind::WouldBlock | ErrorKind::Interrupted => true,
        _ => false,
    }
}
