//! The connections of a run.

use crate::run::{ServeFault, Stop};
use fp_network::watch_peer;
use libc::net::{POLLIN, poll};
use libc::types::pollfd;
use std::io::ErrorKind;
use std::net::{SocketAddr, TcpListener, TcpStream};
use std::os::fd::AsRawFd;
use std::rt::Clock;
use std::sync::Wait;
use std::time::Duration;
use std::{io, thread};

/// The time between two looks whether a fault occurred while a connection is awaited, in milliseconds.
const LOOK_MILLISECONDS: i32 = 200;

/// Linux's number of an error: the machine isn't on the network.
const ENONET: i32 = 64;

/// An error of the protocol.
const EPROTO: i32 = 71;

/// The protocol isn't available.
const ENOPROTOOPT: i32 = 92;

/// The operation isn't supported.
const EOPNOTSUPP: i32 = 95;

/// No room for the buffers of a connection.
const ENOBUFS: i32 = 105;

/// The host of the client is down.
const EHOSTDOWN: i32 = 112;

/// Whether an error means that no connection waits, or belongs to one connection that failed while it waited: the
/// system reports such an error when the connection is accepted, and the next one may be fine.
fn is_of_one_connection(error: &io::Error) -> bool {
    match error.kind() {
        ErrorKind::WouldBlock
        | ErrorKind::Interrupted
        | ErrorKind::ConnectionAborted
        | ErrorKind::NetworkDown
        | ErrorKind::NetworkUnreachable
        | ErrorKind::HostUnreachable => true,
        _ => matches!(
            error.raw_os_error(),
            Some(ENONET | EPROTO | ENOPROTOOPT | EOPNOTSUPP | EHOSTDOWN)
        ),
    }
}

/// Whether an error means that memory ran out. No room for the buffers of a connection is reported as `out of memory`
/// too, and not as a listener that can't listen.
fn is_of_memory(error: &io::Error) -> bool {
    error.kind() == ErrorKind::OutOfMemory || error.raw_os_error() == Some(ENOBUFS)
}

/// Accepts the next connection, if one waits within a fifth of a second, and returns it with the address of its client.
/// `None` if none waited, or it was gone before it was accepted. `Err`: none can be had any more.
fn look_for_one<R: Wait + Clock>(
    rt: &R,
    listener: &TcpListener,
) -> Result<Option<(TcpStream, SocketAddr)>, ServeFault> {
    let mut asked = [pollfd {
        fd: listener.as_raw_fd(),
        events: POLLIN,
        revents: 0,
    }];
    let ready_count = poll(&mut asked, LOOK_MILLISECONDS);
    if ready_count == 0 {
        return Ok(None);
    }
    if ready_count < 0 {
        // The listener doesn't block, so that the call below returns at once; without this the caller's loop would
        // spin.
        thread::sleep(
            rt,
            Duration::from_millis(LOOK_MILLISECONDS.unsigned_abs().into()),
        );
    }
    match listener.accept() {
        Ok(came) => Ok(Some(came)),
        Err(error) if is_of_one_connection(&error) => Ok(None),
        Err(error) if is_of_memory(&error) => Err(ServeFault::Memory),
        Err(_) => Err(ServeFault::NoConnection),
    }
}

/// Lets a read of a connection end after a fifth of a second, so that a thread that reads notices the command to end
/// even without input.
fn look_often(stream: &TcpStream) {
    let most = Duration::from_millis(LOOK_MILLISECONDS.unsigned_abs().into());
    let _ = stream.set_read_timeout(Some(most));
}

/// Awaits the next connection of a listener that doesn't block, and returns it with the address of its client. `None`
/// if all links are to go down or to end, or if none can be had: then they are to go down.
pub(crate) fn connection<R: Wait + Clock>(
    rt: &R,
    listener: &TcpListener,
    stop: &Stop,
) -> Option<(TcpStream, SocketAddr)> {
    for _ in rt.forever() {
        if stop.refuses_connections(rt) {
            return None;
        }
        match look_for_one(rt, listener) {
            Ok(Some((stream, peer))) => {
                // A fault, or the command to end, may have occurred while the connection was awaited.
                if stop.refuses_connections(rt) {
                    return None;
                }
                // Each answer goes out at once, whether the client has acknowledged the one before or not. If the
                // system refuses that, answers go out all the same.
                let _ = stream.set_nodelay(true);
                look_often(&stream);
                watch_peer(&stream);
                return Some((stream, peer));
            }
            Ok(None) => {}
            Err(fault) => stop.ask_for(rt, fault),
        }
    }
    None
}
