//! Clients of a server.

use crate::unmet::Unmet;
use libc::net::{
    IPPROTO_TCP, SHUT_RDWR, SO_SNDBUF, SOL_SOCKET, TCP_USER_TIMEOUT, getsockopt, setsockopt,
    shutdown,
};
use std::alloc::Global;
use std::io::{Read, Write};
use std::net::{Net, Shutdown, SocketAddr, TcpListener, TcpStream};
use std::os::fd::AsRawFd;
use std::rt::Clock;
use std::sync::Wait;
use std::thread;
use std::time::Duration;

/// How many seconds an answer is waited for.
const MOST_SECONDS: u64 = 30;

/// How often it is looked in a second whether connections are refused.
const LOOKS: u32 = 100;

/// How many octets that were written the system keeps for a connection with a small buffer, until its client takes
/// them.
const SMALL_BUFFER: i32 = 32_768;

/// For how many milliseconds a client may have no room for them, if that limit was shortened.
const SHORT_LIMIT: i32 = 500;

/// How many octets the value of an option has.
const OCTETS_OF_A_NUMBER: u32 = 4;

/// Connections are among this number of descriptors.
const MOST_DESCRIPTORS: i32 = 64;

/// A number as the system takes the value of an option: in the first octets of a room for the longest.
fn value(number: i32) -> [u8; 16] {
    let mut octets = [0u8; 16];
    octets[..4].copy_from_slice(&number.to_ne_bytes());
    octets
}

/// Gives the connections that a listener accepts from now on a small buffer for what is written, so that some 4,500
/// answers that aren't read block it: without that it is 80,000 to 120,000.
pub fn shrink_buffers(listener: &TcpListener) {
    // SAFETY: it is an option of its level whose value is a number.
    unsafe {
        setsockopt(
            listener.as_raw_fd(),
            SOL_SOCKET,
            SO_SNDBUF,
            &value(SMALL_BUFFER),
            OCTETS_OF_A_NUMBER,
        );
    }
}

/// Whether a descriptor is that of a connection with a small buffer, or of its listener. The system keeps as many
/// octets again for itself, and says so.
fn has_small_buffer(fd: i32) -> bool {
    let mut octets = [0u8; 16];
    let mut length = OCTETS_OF_A_NUMBER;
    // SAFETY: it is an option of its level whose value is a number.
    let status = unsafe { getsockopt(fd, SOL_SOCKET, SO_SNDBUF, &mut octets, &mut length) };
    status == 0 && octets == value(2 * SMALL_BUFFER)
}

/// The system gives up each connection with a small buffer once its client had no room for half a second.
pub fn shorten_limits() {
    for fd in 0..MOST_DESCRIPTORS {
        if has_small_buffer(fd) {
            // SAFETY: it is an option of its level whose value is a number.
            unsafe {
                setsockopt(
                    fd,
                    IPPROTO_TCP,
                    TCP_USER_TIMEOUT,
                    &value(SHORT_LIMIT),
                    OCTETS_OF_A_NUMBER,
                );
            }
        }
    }
}

/// Ends a listener: it accepts no connection any more. `false`: it goes on.
pub fn stop_listening(listener: &TcpListener) -> bool {
    shutdown(listener.as_raw_fd(), SHUT_RDWR) == 0
}

/// Whether connections to this address are refused within a second.
pub fn is_refused<R: Net<Stream = TcpStream> + Wait + Clock>(rt: &R, address: SocketAddr) -> bool {
    for _ in 0..LOOKS {
        if TcpStream::connect(rt, address).is_err() {
            return true;
        }
        thread::sleep(rt, Duration::from_millis(10));
    }
    false
}

/// A connection to a server.
#[derive(Drop)]
pub struct Client {
    stream: TcpStream,
    // For a test that fails: which of the clients it is.
    number: usize,
}

impl Client {
    /// Connects to this address. The client has this number.
    pub fn connect<R: Net<Stream = TcpStream>>(
        rt: &R,
        address: SocketAddr,
        number: usize,
    ) -> Result<Client, Unmet> {
        let stream = TcpStream::connect(rt, address)?;
        let most = Some(Duration::from_secs(MOST_SECONDS));
        stream.set_read_timeout(most)?;
        Ok(Client { stream, number })
    }

    /// The number of the client.
    pub fn number(&self) -> usize {
        self.number
    }

    /// Writes octets.
    pub fn write(&mut self, octets: &[u8]) -> Result<(), Unmet> {
        self.stream.write_all(octets)?;
        Ok(())
    }

    /// Writes the octets of a hexadecimal text.
    pub fn write_text(&mut self, alloc: Global, text: &str) -> Result<(), Unmet> {
        let octets = hex::decode(alloc, text)
            .ok()
            .ok_or("no octets in hexadecimal")?;
        self.write(octets.as_slice())
    }

    /// Closes its sending side.
    pub fn end_input(&self) -> Result<(), Unmet> {
        self.stream.shutdown(Shutdown::Write)?;
        Ok(())
    }

    /// Reads this number of octets, and gives their hexadecimal text, in upper case.
    fn read_text(&mut self, alloc: Global, count: usize) -> Result<String, Unmet> {
        let mut octets = Vec::new(alloc);
        octets.resize(count, 0)?;
        self.stream.read_exact(octets.as_mut_slice())?;
        Ok(hex::encode_upper(alloc, octets.as_slice())?)
    }

    /// Reads the next frame, and gives the hexadecimal text of its message.
    pub fn message(&mut self, alloc: Global) -> Result<String, Unmet> {
        let head = self.read_text(alloc, 4)?;
        let count = u32::from_str_radix(head.as_str(), 16)
            .ok()
            .ok_or("no length of a frame")?;
        self.read_text(alloc, usize::try_from(count).ok().ok_or("a long frame")?)
    }

    /// Reads the next frame, which must have this message.
    pub fn expect(&mut self, alloc: Global, wanted: &str) -> Result<(), Unmet> {
        match self.message(alloc) {
            Ok(came) => Unmet::unless_same(alloc, self.number, wanted, came.as_str()),
            Err(_unmet) => Err(Unmet::differs(alloc, self.number, wanted, "no frame")),
        }
    }

    /// Reads this number of frames, which must each have this message.
    pub fn messages(&mut self, alloc: Global, count: u32, wanted: &str) -> Result<(), Unmet> {
        for _ in 0..count {
            self.expect(alloc, wanted)?;
        }
        Ok(())
    }

    /// Reads on. The server must end the connection before anything more comes.
    pub fn expect_end(&mut self, alloc: Global) -> Result<(), Unmet> {
        let mut octet = [0u8; 1];
        match self.stream.read(&mut octet) {
            Ok(0) => Ok(()),
            Ok(_) => Err(Unmet::differs(alloc, self.number, "the end", "more octets")),
            Err(_) => Err(Unmet::differs(alloc, self.number, "the end", "no end in time")),
        }
    }
}
