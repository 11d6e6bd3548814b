//! A turn of a node with its sockets: connections are accepted, read and written.

use crate::keep_alive::watch_transfer_point;
use crate::rotation::place_in_turn;
use crate::sockets::{End, LISTENER, Sockets};
use crate::source::{Source, is_again};
use crate::{Closing, NetworkFault, Node};
use mio::Events;
use mio::net::TcpStream;
use std::alloc::AllocError;
use std::io;
use std::io::Read;
use std::net::SocketAddr;

/// For how many milliseconds at most connections stay once the link is down.
const MILLISECONDS_TO_END: u64 = 2_000;

impl Sockets {
    /// Notes for the connection in a place, if there is one, the readiness that an event reports.
    fn note_all(&mut self, events: &Events) {
        for event in events.iter() {
            let place = usize::from(event.token());
            if place == LISTENER {
                if let Some(listener) = &mut self.listener {
                    listener.note(&event);
                }
            }
            if let Some(slot) = self.streams.get_mut(place) {
                if let Some(socket) = slot.as_mut() {
                    socket.note(&event);
                }
            }
        }
    }

    /// Reads the sockets that are ready by these and earlier events, and writes the octets that
    /// wait. `Err`: the network must end.
    fn take_turn(&mut self, events: &Events, room: &mut [u8], at: u64) -> Result<(), NetworkFault> {
        self.note_all(events);
        if self.is_to_accept() {
            self.accept(at)?;
        } else {
            self.is_refused = false;
        }
        let drains = self.drain.is_set();
        if drains {
            self.node.drain(at);
            self.read_late(room, at)?;
        }
        self.read_all(room, at)?;
        if drains && self.node.has_no_common() {
            self.drain.close();
        }
        // Within a millisecond no time goes by.
        if at > self.looked_at {
            self.looked_at = at;
            self.node.tick(at);
        }
        self.write_all();
        self.shut_if_quiet();
        self.clear_places();
        self.look_whether_over(at);
        Ok(())
    }

    /// Reads the connections that are ready once each, from the one after the last that was read,
    /// as long as the link has room.
    fn read_all(&mut self, room: &mut [u8], at: u64) -> Result<(), AllocError> {
        let first = self.first.min(Node::PLACES - 1);
        for step in 0..Node::PLACES {
            let place = place_in_turn(first, step);
            if self.is_to_read(place) {
                self.read_once(place, room, at)?;
                self.first = place_in_turn(place, 1);
            }
        }
        Ok(())
    }

    /// Reads each late connection once, as long as the link has room: before the others, which may
    /// fill it in each turn.
    fn read_late(&mut self, room: &mut [u8], at: u64) -> Result<(), AllocError> {
        for place in 0..self.used {
            if self.node.is_late(place, at) && self.reads() {
                self.read_once(place, room, at)?;
            }
        }
        Ok(())
    }

    /// Reads the connection in a place once. If it is late, this read is counted, and may close it.
    fn read_once(&mut self, place: usize, room: &mut [u8], at: u64) -> Result<(), AllocError> {
        let found_no_more = self.read(place, room)?;
        self.node.read_late(place, at, found_no_more);
        Ok(())
    }

    /// Reads the sockets that are ready by these and earlier events, and writes the octets that
    /// wait. If the system gave no events, or memory runs out, the network ends.
    pub(crate) fn turn(
        &mut self,
        answer: io::Result<()>,
        events: &Events,
        room: &mut [u8],
        at: u64,
    ) {
        if answer.is_err() {
            self.fail(NetworkFault::NoReadiness);
            return;
        }
        if let Err(fault) = self.take_turn(events, room, at) {
            self.fail(fault);
        }
    }

    /// Once the link ended: looks whether no connection is left, or two seconds went by.
    fn look_whether_over(&mut self, at: u64) {
        let End::Ended(then) = self.end else {
            return;
        };
        let has_none = self.streams.iter().all(|slot| slot.is_none());
        if has_none || at.saturating_sub(then) >= MILLISECONDS_TO_END {
            self.end = End::Over;
        }
    }

    /// Accepts connections, as long as some wait. If the system refuses one, as without
    /// descriptors, the next is accepted after a turn.
    fn accept(&mut self, at: u64) -> Result<(), AllocError> {
        for _ in 0..Node::PLACES {
            let Some(listener) = &mut self.listener else {
                return Ok(());
            };
            match listener.stream.accept() {
                Ok((stream, peer)) => self.came(stream, peer, at)?,
                Err(error) if is_again(&error) => {
                    listener.awaits_input(&error);
                    return Ok(());
                }
                Err(_) => {
                    self.is_refused = true;
                    return Ok(());
                }
            }
        }
        Ok(())
    }

    /// Accepts a connection.
    fn came(&mut self, stream: TcpStream, peer: SocketAddr, at: u64) -> Result<(), AllocError> {
        let Some(place) = self.node.came(peer, at)? else {
            return Ok(());
        };
        // Each message goes out at once. If the system refuses that option, a message may wait for
        // an acknowledgement.
        let _ = stream.set_nodelay(true);
        watch_transfer_point(&stream);
        if place < self.streams.len() {
            self.streams[place] = Some(Source::new(stream));
            self.used = self.used.max(place + 1);
        }
        Ok(())
    }

    /// Reads the connection in a place once. Returns whether its socket had no more octets.
    fn read(&mut self, place: usize, room: &mut [u8]) -> Result<bool, AllocError> {
        let Some(slot) = self.streams.get_mut(place) else {
            return Ok(true);
        };
        let Some(socket) = slot.as_mut() else {
            return Ok(true);
        };
        let most = room.len();
        let mut stream = &socket.stream;
        match stream.read(room) {
            Ok(0) => {
                self.node.close(place, Closing::PeerClosed);
                Ok(true)
            }
            Ok(count) => {
                if count < most {
                    socket.has_no_more();
                }
                // Octets that arrive after the link ended are dropped.
                if self.end == End::Open {
                    let octets = room.get(..count).unwrap_or_default();
                    self.node.received(place, octets)?;
                }
                Ok(count < most)
            }
            Err(error) if is_again(&error) => {
                socket.awaits_input(&error);
                Ok(!socket.has_input)
            }
            Err(_) => {
                self.node.close(place, Closing::Failed);
                Ok(true)
            }
        }
    }
}
