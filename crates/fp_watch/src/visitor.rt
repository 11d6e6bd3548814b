//! A connection for requests of a run's state.

use fp_metrics::Pages;
use fp_tally::time_since;
use http_server::{Config, Connection};
use libc::net::{POLLIN, POLLOUT};
use libc::types::pollfd;
use std::alloc::Global;
use std::hash::RandomState;
use std::io;
use std::io::{ErrorKind, Read};
use std::net::{Shutdown, TcpStream};
use std::os::fd::AsRawFd;
use std::rt::Clock;
use std::time::{Duration, Instant};

/// How long a connection may go on without an answer, in seconds.
const MOST_SECONDS: u64 = 4;

/// The most writes of one step.
const MOST_WRITES: usize = 16;

/// The longest body of a request. It isn't read.
const MOST_OCTETS_OF_A_BODY: usize = 4_096;

/// The most octets that are dropped at once after the last answer.
const MOST_DROPPED: usize = 4_096;

/// A connection for requests of a run's state.
#[derive(Drop)]
pub(crate) struct Visitor {
    // The number of the connection among all accepted ones, from 1.
    number: u64,
    stream: TcpStream,
    connection: Connection,
    // When the connection was accepted, or its last answer was written.
    since: Option<Instant>,
    // The last answer was written, and further octets are dropped until the client closes.
    is_closing: bool,
}

/// Whether a call that failed with this error is made again.
fn is_passing(error: &io::Error) -> bool {
    match error.kind() {
        ErrorKind::WouldBlock | ErrorKind::Interrupted => true,
        _ => false,
    }
}

impl Visitor {
    /// A connection that was accepted just now, the one of this number. `None` if it can't be served without waiting
    /// for it.
    pub(crate) fn new<R: Clock>(
        rt: &R,
        alloc: Global,
        keys: RandomState,
        stream: TcpStream,
        number: u64,
    ) -> Option<Visitor> {
        if stream.set_nonblocking(true).is_err() {
            return None;
        }
        let config = Config {
            max_body_len: MOST_OCTETS_OF_A_BODY,
            ..Config::default()
        };
        Some(Visitor {
            number,
            stream,
            connection: Connection::new(alloc, keys, config),
            since: Instant::now(rt).ok(),
            is_closing: false,
        })
    }

    /// The number of the connection among all accepted ones.
    pub(crate) fn number(&self) -> u64 {
        self.number
    }

    /// The events that the system is asked for.
    pub(crate) fn asked(&self) -> pollfd {
        let reads = if self.is_closing || self.connection.wants_read() {
            POLLIN
        } else {
            0
        };
        let writes = if !self.is_closing && self.connection.wants_write() {
            POLLOUT
        } else {
            0
        };
        pollfd {
            fd: self.stream.as_raw_fd(),
            events: reads | writes,
            revents: 0,
        }
    }

    /// Whether the connection's time is over. `true` if the clock gives no time.
    pub(crate) fn is_late<R: Clock>(&self, rt: &R) -> bool {
        let most = Duration::from_secs(MOST_SECONDS);
        time_since(rt, self.since).unwrap_or(most) >= most
    }

    /// Drops received octets. `false` if no more can arrive.
    fn drop_input(&self) -> bool {
        let mut room = [0; MOST_DROPPED];
        let mut stream = &self.stream;
        match stream.read(&mut room) {
            Ok(count) => count > 0,
            Err(error) => is_passing(&error),
        }
    }

    /// Reads once, if it may. `false` if that failed.
    fn read(&mut self) -> bool {
        if !self.connection.wants_read() {
            return true;
        }
        let mut stream = &self.stream;
        match self.connection.read_from(&mut stream) {
            Ok(_) => true,
            Err(error) => is_passing(&error),
        }
    }

    /// Answers the requests that were read, and writes as much as the system takes. `false` if a write failed.
    fn answer<R: Clock>(&mut self, rt: &R, pages: &mut Pages<'_>) -> bool {
        self.connection.advance(pages);
        for _ in 0..MOST_WRITES {
            if !self.connection.wants_write() {
                break;
            }
            let mut stream = &self.stream;
            match self.connection.write_to(&mut stream) {
                Ok(0) => return false,
                Ok(_) => {}
                Err(error) => return is_passing(&error),
            }
            if !self.connection.wants_write() {
                self.since = Instant::now(rt).ok();
            }
            self.connection.advance(pages);
        }
        true
    }

    /// Reads, answers and writes as far as that goes without waiting. `false` if the connection is to be closed.
    pub(crate) fn step<R: Clock>(&mut self, rt: &R, pages: &mut Pages<'_>) -> bool {
        if self.is_closing {
            return self.drop_input();
        }
        if !self.read() || !self.answer(rt, pages) {
            return false;
        }
        if self.connection.is_done() {
            // A connection that is closed while octets arrive is reset, and the answer may be lost on its way.
            let _ = self.stream.shutdown(Shutdown::Write);
            self.is_closing = true;
        }
        true
    }
}
