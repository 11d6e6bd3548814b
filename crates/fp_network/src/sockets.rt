//! A node with its sockets: the end of its link, and the sockets that are watched and written.
//!
//! `turn.rt` has the work of the reading thread once sockets are ready.

ghost use Rattle.std.specs.Prelude.{IfSome};
ghost use Rattle.std.specs.Io.{ReadsAtMost, WritesAtMost};

mod turn;

use crate::source::{Source, is_again};
use crate::{Closing, Drain, NetworkEvent, NetworkFault, Node, Tally};
use mio::Registry;
use mio::net::{TcpListener, TcpStream};
use std::io;
use std::io::{ErrorKind, Write};
use std::net::Shutdown;
use std::sync::Arc;
use std::time::Duration;

/// How many octets one read of a connection may give.
pub(crate) const MOST_READ: usize = 16_384;

/// The place of the listener among the sources, after all connections.
const LISTENER: usize = Node::PLACES;

/// The place of the waker of the reading thread.
pub(crate) const WAKER: usize = LISTENER + 1;

/// How many sources there are.
pub(crate) const SOURCES: usize = WAKER + 1;

/// How the end of a link goes on. Times are milliseconds.
#[derive(Clone, Copy, Debug, PartialEq, Eq)]
enum End {
    /// The link is read and written.
    Open,
    /// The link ended at this time. Octets that wait for connections are written, and octets that
    /// they bring are dropped.
    Ended(u64),
    /// All connections are to be closed.
    Over,
}

/// A node with the sockets of its connections, and the end of its link.
#[derive(Drop)]
pub(crate) struct Sockets {
    node: Node,
    // Where transfer points connect, until the end.
    listener: Option<Source<TcpListener>>,
    // The socket of the connection in each place.
    streams: Vec<Option<Source<TcpStream>>>,
    drain: Arc<Drain>,
    end: End,
    // Whether the link isn't read any more.
    is_deaf: bool,
    // Whether the sending sides were shut since the link ended.
    has_shut: bool,
    // Why the network ended before its link did, if it did.
    fault: Option<NetworkFault>,
    // Whether no connection is accepted in the next turn, since the system refused one.
    is_refused: bool,
    // Whether the reading thread has to watch a socket anew, or to drop one.
    has_changed: bool,
    // No place from this one on has a socket.
    used: usize,
    // The time of the last look for connections that aren't active, in milliseconds.
    looked_at: u64,
    // The place at which the next turn begins to read, below the number of places.
    first: usize,
}

/// The error of a call of the link after a fault of its network.
fn error_of(fault: NetworkFault) -> io::Error {
    match fault {
        NetworkFault::Memory => io::Error::from(ErrorKind::OutOfMemory),
        NetworkFault::NoReadiness | NetworkFault::BadFrames => io::Error::from(ErrorKind::Other),
    }
}

impl Sockets {
    /// A node without connections, whose transfer points connect to this listener.
    pub(crate) fn new(
        node: Node,
        listener: TcpListener,
        streams: Vec<Option<Source<TcpStream>>>,
        drain: Arc<Drain>,
    ) -> Sockets {
        Sockets {
            node,
            listener: Some(Source::new(listener)),
            streams,
            drain,
            end: End::Open,
            is_deaf: false,
            has_shut: false,
            fault: None,
            is_refused: false,
            has_changed: false,
            used: 0,
            looked_at: 0,
            first: 0,
        }
    }

    /// The next event, if there is one that wasn't returned yet.
    pub(crate) fn next_event(&mut self) -> Option<NetworkEvent> {
        self.node.next_event()
    }

    /// Whether messages of the link have a connection to go by.
    pub(crate) fn is_connected(&self) -> bool {
        self.node.sends_by().is_some()
    }

    /// The numbers so far.
    pub(crate) fn tally(&self) -> Tally {
        self.node.tally()
    }

    /// Why the network ended before its link did, if it did.
    pub(crate) fn fault(&self) -> Option<NetworkFault> {
        self.fault
    }

    /// The network ends for this reason, unless it did for another one.
    fn fail(&mut self, fault: NetworkFault) {
        self.fault = self.fault.or(Some(fault));
        self.end = End::Over;
    }

    /// Whether all connections are to be closed.
    pub(crate) fn is_over(&self) -> bool {
        self.end == End::Over
    }

    /// Whether the reading thread has to look at it.
    pub(crate) fn has_changed(&self) -> bool {
        self.has_changed
    }

    /// The link ends at this time. Once it ended, the end of both directions closes all.
    pub(crate) fn shut_down(&mut self, at: u64, how: Shutdown) {
        let is_write_alone = how == Shutdown::Write;
        self.end = match self.end {
            End::Open => End::Ended(at),
            End::Ended(then) if is_write_alone => End::Ended(then),
            End::Ended(_) | End::Over => End::Over,
        };
        self.is_deaf |= !is_write_alone;
        self.shut_if_quiet();
    }

    /// The link ends at this time, if it didn't before. It isn't read any more.
    pub(crate) fn end(&mut self, at: u64) {
        if self.end == End::Open {
            self.shut_down(at, Shutdown::Both);
        }
    }

    /// Closes all connections, and accepts no more.
    pub(crate) fn close(&mut self) {
        self.end = End::Over;
        self.listener = None;
        self.node.close_all();
        self.clear_places();
    }

    /// The result of a read of the link now. `None`: nothing waits for the link.
    pub(crate) fn answer(&mut self, octets: &mut [u8]) -> Option<io::Result<usize>>
        ensures { IfSome result (λ answer. ReadsAtMost answer octets.new) }
    {
        if let Some(fault) = self.fault {
            return Some(Err(error_of(fault)));
        }
        if self.is_deaf || self.end == End::Over {
            return Some(Ok(0));
        }
        let waiting = self.node.waiting_for_link();
        if waiting.is_empty() {
            return None;
        }
        let count = waiting.len().min(octets.len());
        octets[..count].copy_from_slice(&waiting[..count]);
        self.node.written_to_link(count);
        Some(Ok(count))
    }

    /// Takes frames of the link, the last one perhaps in part. They are written as far as the
    /// sockets take them.
    pub(crate) fn write_from_link(&mut self, octets: &[u8]) -> io::Result<usize>
        ensures { WritesAtMost result octets.now }
    {
        if self.end != End::Open {
            return Err(io::Error::from(ErrorKind::BrokenPipe));
        }
        if let Err(fault) = self.node.received_from_link(octets) {
            self.fail(fault);
            return Err(error_of(fault));
        }
        self.write_all();
        Ok(octets.len())
    }

    /// Whether connections are read: few octets wait for the link, or the link ended and the octets
    /// of connections are dropped.
    fn reads(&self) -> bool {
        self.end != End::Open || !self.node.is_link_busy()
    }

    /// Shuts the sending side of all connections, once the link ended and nothing waits to be
    /// written.
    fn shut_if_quiet(&mut self) {
        if self.has_shut || self.end == End::Open || !self.node.is_quiet() {
            return;
        }
        self.has_shut = true;
        for slot in &self.streams {
            if let Some(socket) = slot {
                // If a call fails, the connection is still closed in the end.
                let _ = socket.stream.shutdown(Shutdown::Write);
            }
        }
    }

    /// Shuts the sending side of the connection in a place, if that is due since the node drains.
    fn shut_if_drained(&mut self, place: usize) {
        if !self.node.is_to_shut(place) {
            return;
        }
        self.node.shut(place);
        let Some(slot) = self.streams.get(place) else {
            return;
        };
        if let Some(socket) = slot {
            // If a call fails, the connection is still closed in the end.
            let _ = socket.stream.shutdown(Shutdown::Write);
        }
    }

    /// Watches the connection in a place, if there is one.
    fn watch(&mut self, registry: &Registry, place: usize) {
        let Some(slot) = self.streams.get_mut(place) else {
            return;
        };
        let Some(socket) = slot.as_mut() else {
            return;
        };
        if !socket.watch(registry, place) {
            self.node.close(place, Closing::Failed);
        }
    }

    /// Watches all sources for the readiness that is wanted.
    pub(crate) fn watch_all(&mut self, registry: &Registry) {
        self.has_changed = false;
        for place in 0..self.used {
            self.watch(registry, place);
        }
        let Some(listener) = &mut self.listener else {
            return;
        };
        if !listener.watch(registry, LISTENER) {
            self.fail(NetworkFault::NoReadiness);
        }
    }

    /// Whether the connection in a place is to be read.
    fn is_to_read(&self, place: usize) -> bool {
        let Some(slot) = self.streams.get(place) else {
            return false;
        };
        let Some(socket) = slot.as_ref() else {
            return false;
        };
        socket.has_input && self.reads()
    }

    /// Whether connections are to be accepted.
    fn is_to_accept(&self) -> bool {
        let Some(listener) = &self.listener else {
            return false;
        };
        listener.has_input && !self.is_refused && self.end == End::Open
    }

    /// For how long sources are awaited: not at all if a source that is ready is to be read, else
    /// for this time.
    pub(crate) fn rest(&self, most: Duration) -> Duration {
        let mut is_ready = self.is_to_accept();
        for place in 0..self.used {
            is_ready |= self.is_to_read(place);
        }
        if is_ready {
            Duration::from_millis(0)
        } else {
            most
        }
    }

    /// Writes the octets that wait to each connection, as far as its socket takes them. Then shuts
    /// its sending side if that is due.
    fn write_all(&mut self) {
        for place in 0..self.used {
            self.write(place);
            self.shut_if_drained(place);
            self.has_changed |= self.is_to_clear(place);
        }
    }

    /// Whether there is a socket in a place whose connection is to be closed.
    fn is_to_clear(&self, place: usize) -> bool {
        let Some(slot) = self.streams.get(place) else {
            return false;
        };
        slot.is_some() && self.node.is_over(place)
    }

    /// Writes the octets that wait to the connection in a place, as far as it takes them.
    fn write(&mut self, place: usize) {
        let octets = self.node.waiting(place);
        if octets.is_empty() {
            return;
        }
        let Some(slot) = self.streams.get_mut(place) else {
            return;
        };
        let Some(socket) = slot.as_mut() else {
            return;
        };
        if socket.is_full {
            return;
        }
        let most = octets.len();
        let mut stream = &socket.stream;
        match stream.write(octets) {
            Ok(count) => {
                socket.is_full = count < most;
                self.has_changed |= socket.is_full;
                self.node.written(place, count);
            }
            Err(error) if is_again(&error) => {
                socket.is_full = true;
                self.has_changed = true;
            }
            Err(_) => self.node.close(place, Closing::Failed),
        }
    }

    /// Drops the sockets of connections that are to be closed.
    fn clear_places(&mut self) {
        for place in 0..self.used {
            if self.node.is_over(place) && place < self.streams.len() {
                self.streams[place] = None;
                self.node.clear(place);
            }
        }
        for _ in 0..Node::PLACES {
            let last = self.used.saturating_sub(1);
            match self.streams.get(last) {
                Some(None) => self.used = last,
                Some(Some(_)) | None => break,
            }
        }
    }
}
