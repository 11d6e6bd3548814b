//! The connection of a link: a socket, or a network.

ghost use Rattle.std.specs.Prelude.{◌≡◌};
ghost use Rattle.std.specs.Io.{ReadsAtMost, WritesAtMost};

use crate::run::{Events, Run};
use crate::system::System;
use fp_network::NetworkLink;
use fp_watch::Event;
use std::io;
use std::io::{Read, Write};
use std::net::{Shutdown, TcpStream};
use std::rt::Clock;
use std::sync::{Arc, Wait};
use std::time::Duration;

/// The connection of a link, read and written as a socket, whatever carries its frames.
#[derive(Drop)]
pub(crate) enum LinkStream {
    /// A socket, whose peer is the client.
    Socket(TcpStream),
    /// The network of a node, with the frames of the link, and events.
    Network(Arc<NetworkLink>),
}

/// Reports the events of a network that weren't reported yet.
pub(crate) fn report_news<R: Wait + Clock>(rt: &R, network: &NetworkLink, events: &Events) {
    for _ in 0..u64::MAX {
        let Some(event) = network.next_event(rt) else {
            break;
        };
        events.report(rt, Event::Network(event));
    }
}

/// Reports the events of a network, and notes for the run's watchers whether there is a connection to send by. An event
/// may be missing because memory ran out, so the network itself is asked about the connection.
fn report_events<R: System>(run: &Run<'_, R>, network: &NetworkLink) {
    report_news(run.rt, network, run.events);
    if let Some(watch) = run.watch {
        watch.metrics.note_connected(network.is_connected(run.rt));
    }
}

/// Reads frames of a network, and notes the state of its node's drain, if the node is to drain.
fn read_network<R: System>(
    run: &Run<'_, R>,
    network: &NetworkLink,
    octets: &mut [u8],
) -> io::Result<usize>
    ensures { ReadsAtMost result octets.new }
{
    let Some(draining) = run.draining else {
        return network.read(run.rt, octets);
    };
    let room = octets.len();
    let is_set = draining.drain.is_set();
    let answer = network.read(run.rt, octets);
    if is_set {
        draining.end_read(run.rt, &answer, room);
    }
    answer
}

impl LinkStream {
    /// Reads octets, as [`Read::read`] of a socket with a limit on its time. Events of a network are reported
    /// meanwhile.
    pub(crate) fn read<R: System>(&self, run: &Run<'_, R>, octets: &mut [u8]) -> io::Result<usize>
        ensures { ReadsAtMost result octets.new }
    {
        match self {
            LinkStream::Socket(socket) => {
                let mut socket = socket;
                socket.read(octets)
            }
            LinkStream::Network(network) => {
                let answer = read_network(run, network, octets);
                report_events(run, network);
                answer
            }
        }
    }

    /// Writes octets, as [`Write::write`] of a socket.
    pub(crate) fn write<R: System>(&self, run: &Run<'_, R>, octets: &[u8]) -> io::Result<usize>
        ensures { WritesAtMost result octets.now }
    {
        match self {
            LinkStream::Socket(socket) => {
                let mut socket = socket;
                socket.write(octets)
            }
            LinkStream::Network(network) => network.write(run.rt, octets),
        }
    }

    /// Ends one of the directions, or both. If that fails the peer has ended it.
    pub(crate) fn shutdown<R: System>(&self, run: &Run<'_, R>, how: Shutdown) {
        match self {
            LinkStream::Socket(socket) => {
                let _ = socket.shutdown(how);
            }
            LinkStream::Network(network) => network.shutdown(run.rt, how),
        }
    }

    /// Lets a read end after this time. `false` if the system refuses that.
    pub(crate) fn set_read_timeout<R: System>(&self, run: &Run<'_, R>, most: Duration) -> bool {
        match self {
            LinkStream::Socket(socket) => socket.set_read_timeout(Some(most)).is_ok(),
            LinkStream::Network(network) => {
                network.set_read_timeout(run.rt, most);
                true
            }
        }
    }

    /// Waits until the end of a network is over, at most two seconds. Call it once no thread reads or writes the
    /// connection any more. A socket is closed as it is dropped.
    pub(crate) fn finish<R: System>(&self, run: &Run<'_, R>) {
        if let LinkStream::Network(network) = self {
            // The run finds the fault of its network in the end.
            let _ = network.finish(run.rt);
            report_events(run, network);
        }
    }
}
