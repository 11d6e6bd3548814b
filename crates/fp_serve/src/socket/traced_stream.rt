//! A connection that remembers the end of its last read or write.

use crate::run::Run;
use crate::socket::LinkStream;
use crate::system::System;
use fp_linkio::Ended;
use fp_linkstate::{LinkEnd, LinkEvent, Why};
use std::io;
use std::io::{ErrorKind, Read, Write};
use std::sync::Mutex;

/// The end of a read or a write.
#[derive(Clone, Copy, Debug, PartialEq, Eq)]
pub(crate) enum LastCall {
    /// The call moved octets, or was interrupted, or nothing arrived for a while: it is made again.
    Moved,
    /// The call moved no octet: the input is at its end.
    AtEnd,
    /// The peer acknowledged nothing for too long, or can't be reached.
    PeerGone,
    /// The call failed otherwise.
    Failed,
}

impl LastCall {
    /// The end of a call with this answer. The system reports a peer that acknowledges nothing as unreachable if it
    /// knows that, and else as timed out. For example, no machine of its network has the peer's address.
    fn of(answer: &io::Result<usize>) -> LastCall {
        match answer {
            Ok(0) => LastCall::AtEnd,
            Ok(_) => LastCall::Moved,
            Err(error) => match error.kind() {
                ErrorKind::Interrupted | ErrorKind::WouldBlock => LastCall::Moved,
                ErrorKind::TimedOut
                | ErrorKind::HostUnreachable
                | ErrorKind::NetworkUnreachable
                | ErrorKind::NetworkDown => LastCall::PeerGone,
                _ => LastCall::Failed,
            },
        }
    }

    /// The reason for a link to go down, after its receiving or sending loop ended with this and this last call.
    pub(crate) fn why(self, ended: Ended) -> Why {
        match (ended, self) {
            (Ended::BadFrame, LastCall::AtEnd) => Why::ClosedInsideFrame,
            (Ended::BadFrame, _) => Why::BadFrameLength,
            (Ended::ReadFault | Ended::WriteFault, LastCall::PeerGone) => Why::PeerGone,
            (Ended::ReadFault, _) => Why::ReadFault,
            (Ended::WriteFault, _) => Why::WriteFault,
            (Ended::EndOfInput, _) => Why::PeerClosed,
            (Ended::TurnLimit, _) => Why::Limit,
            (Ended::Memory, _) => Why::Memory,
        }
    }
}

/// The connection of a link, and the end of the last read or write through it. Its input is at its end once the links
/// are to end: octets of later reads are dropped.
///
/// A call that fails notes the reason at once. The system reports a fault of the connection to one thread only, and the
/// other thread then finds the end of the input, or a broken pipe. That is later, and the first reason counts.
#[derive(Drop)]
pub(crate) struct TracedStream<'x, R> {
    run: &'x Run<'x, R>,
    stream: &'x LinkStream,
    // The end of the link. A call that fails is reported to it.
    end: &'x Mutex<LinkEnd>,
    pub(crate) last: LastCall,
}

impl<'x, R: System> TracedStream<'x, R> {
    /// A connection that wasn't read or written yet.
    pub(crate) fn new(
        run: &'x Run<'x, R>,
        stream: &'x LinkStream,
        end: &'x Mutex<LinkEnd>,
    ) -> TracedStream<'x, R> {
        TracedStream {
            run,
            stream,
            end,
            last: LastCall::Moved,
        }
    }

    /// Notes the end of a call; `ended` is the end of its loop if it failed.
    fn trace(&mut self, last: LastCall, ended: Ended) {
        self.last = last;
        match last {
            LastCall::PeerGone | LastCall::Failed => {
                let why = last.why(ended);
                let run = self.run;
                let _ = self.end.lock(run.rt).meet(LinkEvent::CallFailed { why });
            }
            LastCall::Moved | LastCall::AtEnd => {}
        }
    }
}

impl<R: System> Read for TracedStream<'_, R> {
    fn read(&mut self, octets: &mut [u8]) -> io::Result<usize> {
        let run = self.run;
        if run.stop.is_quitting() {
            self.last = LastCall::AtEnd;
            return Ok(0);
        }
        let answer = self.stream.read(run, octets);
        if run.stop.is_quitting() {
            self.last = LastCall::AtEnd;
            return Ok(0);
        }
        self.trace(LastCall::of(&answer), Ended::ReadFault);
        match answer {
            // Nothing arrived for a while. A call that was interrupted is made again.
            Err(error) if error.kind() == ErrorKind::WouldBlock => {
                Err(io::Error::from(ErrorKind::Interrupted))
            }
            answer => answer,
        }
    }
}

impl<R: System> Write for TracedStream<'_, R> {
    fn write(&mut self, octets: &[u8]) -> io::Result<usize> {
        let answer = self.stream.write(self.run, octets);
        self.trace(LastCall::of(&answer), Ended::WriteFault);
        answer
    }

    fn flush(&mut self) -> io::Result<()> {
        Ok(())
    }
}
