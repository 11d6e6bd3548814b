//! The link of a node, as the threads that serve it read and write it.

ghost use Rattle.std.specs.Prelude.{◌≡◌};
ghost use Rattle.std.specs.Io.{ReadsAtMost, WritesAtMost};

use crate::sockets::{MOST_READ, SOURCES, Sockets, WAKER};
use crate::{Drain, NetworkEvent, NetworkFault, Node, Tally};
use mio::net::TcpListener;
use mio::{Events, Poll, Token, Waker};
use std::alloc::Global;
use std::io::ErrorKind;
use std::net::{Net, Shutdown};
use std::rt::Clock;
use std::sync::{Arc, Mutex, Wait};
use std::time::{Duration, Instant};
use std::{io, net};

/// After this number of milliseconds at most the thread looks whether the node is to drain, and
/// which connections are late.
const LOOK_MILLISECONDS: u64 = 200;

/// The poll of the reading thread.
#[derive(Drop)]
struct Waiter {
    poll: Poll,
    events: Events,
    // Room for octets that are read.
    room: Vec<u8>,
    // For how long a read of the link waits at most.
    most: Duration,
}

/// The link of a node: frames that its network brings, and frames that go there.
///
/// One thread reads it, and drives the network while it waits. Any thread may write it and end it.
/// The list at the crate's root says what each thread does.
#[derive(Drop)]
pub struct NetworkLink {
    waiter: Mutex<Waiter>,
    sockets: Mutex<Sockets>,
    waker: Waker,
    start: Option<Instant>,
}

/// The fault of a network for an error of the system.
fn no_readiness(_error: io::Error) -> NetworkFault {
    NetworkFault::NoReadiness
}

impl NetworkLink {
    /// The link of this node, whose transfer points connect to this listener.
    ///
    /// [`NetworkFault::NoReadiness`] if the system can't watch sockets; [`NetworkFault::Memory`] if
    /// memory runs out.
    pub fn new<R: Net + Clock>(
        rt: &R,
        alloc: Global,
        listener: net::TcpListener,
        node: Node,
        drain: Arc<Drain>,
    ) -> Result<NetworkLink, NetworkFault> {
        let mut streams = Vec::with_capacity(alloc, Node::PLACES)?;
        for _ in 0..Node::PLACES {
            let Ok(()) = streams.push(None) else {
                return Err(NetworkFault::Memory);
            };
        }
        let mut room = Vec::new(alloc);
        room.resize(MOST_READ, 0)?;
        let events = Events::with_capacity(alloc, SOURCES)?;
        let poll = Poll::new(rt).map_err(no_readiness)?;
        let waker = Waker::new(poll.registry(), Token(WAKER)).map_err(no_readiness)?;
        listener.set_nonblocking(true).map_err(no_readiness)?;
        let listener = TcpListener::from_std(listener);
        Ok(NetworkLink {
            waiter: Mutex::new(Waiter {
                poll,
                events,
                room,
                most: Duration::from_millis(LOOK_MILLISECONDS),
            }),
            sockets: Mutex::new(Sockets::new(node, listener, streams, drain)),
            waker,
            start: Instant::now(rt).ok(),
        })
    }

    /// The number of milliseconds since the link was made, or 0 if the clock gives no time.
    fn time<R: Clock>(&self, rt: &R) -> u64 {
        match self.start.and_then(|start| start.elapsed(rt).ok()) {
            Some(since) => u64::try_from(since.as_millis()).unwrap_or(u64::MAX),
            None => 0,
        }
    }

    /// Sets how long a read waits at most, but never longer than a fifth of a second.
    pub fn set_read_timeout<R: Wait>(&self, rt: &R, most: Duration) {
        self.waiter.lock(rt).most = most;
    }

    /// Waits until a socket is ready, for this time at most. Then reads the sockets that are, and
    /// writes the octets that wait. The lock of the sockets is free during the wait.
    fn drive<R: Wait + Clock>(&self, rt: &R, waiter: &mut Waiter, most: Duration) {
        let most = self.prepare(rt, waiter, most);
        let answer = waiter.poll.poll(&mut waiter.events, Some(most));
        let at = self.time(rt);
        let mut sockets = self.sockets.lock(rt);
        sockets.turn(answer, &waiter.events, waiter.room.as_mut_slice(), at);
    }

    /// Watches all sources. Returns how long the thread must wait for them: at most this time, and
    /// at most a fifth of a second.
    fn prepare<R: Wait>(&self, rt: &R, waiter: &Waiter, most: Duration) -> Duration {
        let mut sockets = self.sockets.lock(rt);
        sockets.watch_all(waiter.poll.registry());
        sockets.rest(most.min(Duration::from_millis(LOOK_MILLISECONDS)))
    }

    /// Drives the network once before the link is read: waits until sockets are ready, for this
    /// time at most. Then connections are accepted and asked for their units, and their messages
    /// wait for the link. `false`: the network is over.
    ///
    /// You must fetch the events after each call ([`NetworkLink::next_event`]), since nothing
    /// bounds their number but memory.
    pub fn wait<R: Wait + Clock>(&self, rt: &R, most: Duration) -> bool {
        let mut waiter = self.waiter.lock(rt);
        if self.sockets.lock(rt).is_over() {
            return false;
        }
        self.drive(rt, &mut waiter, most);
        true
    }

    /// Reads frames, whole or in part, that wait for the link. If none do, waits for a while until
    /// the network is ready for something, and does that. You must read from one thread alone.
    ///
    /// `Ok(0)`: the link ended in both directions; or it ended for writing, and its connections are
    /// over, or two seconds went by. [`ErrorKind::WouldBlock`]: no frames arrived. Any other error:
    /// the network had a fault, and ended.
    pub fn read<R: Wait + Clock>(&self, rt: &R, octets: &mut [u8]) -> io::Result<usize>
        ensures { ReadsAtMost result octets.new }
    {
        let mut waiter = self.waiter.lock(rt);
        if let Some(answer) = self.sockets.lock(rt).answer(octets) {
            return answer;
        }
        let most = waiter.most;
        self.drive(rt, &mut waiter, most);
        match self.sockets.lock(rt).answer(octets) {
            Some(answer) => answer,
            None => Err(io::Error::from(ErrorKind::WouldBlock)),
        }
    }

    /// Writes frames of the link, whole or in part. Takes all octets; a frame goes out once it is
    /// whole.
    ///
    /// [`ErrorKind::BrokenPipe`]: the link ended. Any other error: they are no frames, or memory
    /// ran out, and the network ended.
    pub fn write<R: Wait>(&self, rt: &R, octets: &[u8]) -> io::Result<usize>
        ensures { WritesAtMost result octets.now }
    {
        let (answer, has_changed) = self.write_under_lock(rt, octets);
        if has_changed {
            // Without it the reading thread looks after a fifth of a second.
            let _ = self.waker.wake();
        }
        answer
    }

    /// Writes frames of the link. Returns the answer, and whether the reading thread has to be
    /// woken.
    fn write_under_lock<R: Wait>(&self, rt: &R, octets: &[u8]) -> (io::Result<usize>, bool)
        ensures { WritesAtMost result.0 octets.now }
    {
        let mut sockets = self.sockets.lock(rt);
        let answer = sockets.write_from_link(octets);
        (answer, sockets.has_changed())
    }

    /// Ends the link. The octets that wait for connections are written, and then their sending
    /// sides are shut. Octets that connections bring are dropped, until all are closed by their
    /// peers or two seconds are over. If the link ended before, the end of both directions closes
    /// all connections.
    pub fn shutdown<R: Wait + Clock>(&self, rt: &R, how: Shutdown) {
        let at = self.time(rt);
        self.sockets.lock(rt).shut_down(at, how);
        let _ = self.waker.wake();
    }

    /// Waits until the end of the link is over, and closes all connections. No more are accepted
    /// from then on. Ends the link first, if that wasn't done. Nobody may read or write the link
    /// any more.
    ///
    /// The error: why the network ended before its link did.
    pub fn finish<R: Wait + Clock>(&self, rt: &R) -> Result<(), NetworkFault> {
        let mut waiter = self.waiter.lock(rt);
        let at = self.time(rt);
        self.sockets.lock(rt).end(at);
        for _ in rt.forever() {
            if self.sockets.lock(rt).is_over() {
                break;
            }
            self.drive(rt, &mut waiter, Duration::from_millis(LOOK_MILLISECONDS));
        }
        let mut sockets = self.sockets.lock(rt);
        sockets.close();
        match sockets.fault() {
            Some(fault) => Err(fault),
            None => Ok(()),
        }
    }

    /// The next event on the network, if there is one that wasn't returned yet.
    pub fn next_event<R: Wait>(&self, rt: &R) -> Option<NetworkEvent> {
        self.sockets.lock(rt).next_event()
    }

    /// Whether messages of the link have a connection to go by.
    pub fn is_connected<R: Wait>(&self, rt: &R) -> bool {
        self.sockets.lock(rt).is_connected()
    }

    /// The numbers so far.
    pub fn tally<R: Wait>(&self, rt: &R) -> Tally {
        self.sockets.lock(rt).tally()
    }
}
