//! The end of a link, once its receiving thread reads no more messages.
//!
//! A link that drains sends the answers to all accepted messages. After the command `quit` it then lingers: its book is
//! down, the writing side of its socket is shut, and received octets are dropped until the client closes. The table is
//! in `fp_linkstate`.
//!
//! The system resets a connection that is closed while octets arrive, and then drops answers that the client hasn't
//! taken yet. So a client that goes on sending gets all answers that it takes within the two seconds.

use crate::link::Link;
use crate::run::Run;
use crate::socket::LinkStream;
use crate::system::System;
use fp_linkstate::{LinkEnd, LinkEvent};
use std::io::ErrorKind;
use std::sync::ledger::Ledger;
use std::time::Duration;

/// The most octets that are dropped at once.
const MOST_DROPPED: usize = 16_384;

/// The longest wait of a read, in milliseconds, before the thread looks whether all was sent.
const LOOK_MILLISECONDS: u64 = 10;

/// Waits for octets, at most for this time, and drops them. `false` if no more can arrive.
fn drop_input<R: System>(
    run: &Run<'_, R>,
    stream: &LinkStream,
    most: Duration,
    room: &mut [u8],
) -> bool {
    if !stream.set_read_timeout(run, most) {
        return false;
    }
    match stream.read(run, room) {
        Ok(count) => count > 0,
        Err(error) => match error.kind() {
            ErrorKind::WouldBlock | ErrorKind::Interrupted => true,
            _ => false,
        },
    }
}

impl<R: System, A: Ledger, B: Ledger, C: Ledger> Link<'_, R, A, B, C> {
    /// Waits until a link whose end has begun is down. Drops the octets that the client sends meanwhile, unless it
    /// closed its sending side.
    pub(crate) fn await_down(self) {
        let look = Duration::from_millis(LOOK_MILLISECONDS);
        let mut room = [0; MOST_DROPPED];
        for _ in self.run.rt.forever() {
            self.look_at_clock();
            if self.is_quiet() {
                self.meet(LinkEvent::Quiet);
            }
            let (end, left) = self.end_and_time_left();
            let has_more = match end {
                LinkEnd::Up { .. } | LinkEnd::Down => break,
                LinkEnd::Draining {
                    has_closed: true,
                    ..
                } => {
                    self.await_quiet(left);
                    true
                }
                LinkEnd::Draining { .. } => {
                    drop_input(self.run, self.stream, left.min(look), &mut room)
                }
                LinkEnd::Lingering { .. } => drop_input(self.run, self.stream, left, &mut room),
            };
            if !has_more {
                self.meet(LinkEvent::PeerClosed);
            }
        }
    }
}
