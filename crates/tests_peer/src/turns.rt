//! Calls whose turns are held meanwhile.

use crate::client::Client;
use crate::streams::Streams;
use crate::talk::{END, REJECT, answers, begin, continues, long_begin};
use crate::unmet::Unmet;
use std::alloc::Global;
use std::net::{Net, TcpStream};
use std::rt::Clock;
use std::sync::Wait;
use std::sync::atomic::{AtomicBool, Ordering};
use std::test::Fail;
use std::thread;
use std::time::Duration;

/// Makes two calls at once, and marks that the first answer came. It is an error if that isn't the answer to
/// the second call, or if the next one isn't that to the first.
pub(crate) fn two_calls<R: Net<Stream = TcpStream> + Wait + Clock>(
    rt: &R,
    alloc: Global,
    streams: &Streams,
    is_answered: &AtomicBool,
) -> Result<(), Unmet> {
    let mut client = Client::connect(rt, streams.address(rt)?, 0)?;
    client.write_text(alloc, begin(alloc, 0x2A)?.as_str())?;
    client.write_text(alloc, begin(alloc, 0x2B)?.as_str())?;
    let first = answers(alloc, &mut client, 0x2B);
    is_answered.store(true, Ordering::SeqCst);
    first?;
    answers(alloc, &mut client, 0x2A)
}

/// Opens a dialogue and gives it 80 entries, all in one write, reads its answer, and ends it.
pub(crate) fn fill_dialogue<R: Net<Stream = TcpStream> + Wait + Clock>(
    rt: &R,
    alloc: Global,
    streams: &Streams,
) -> Result<(), Unmet> {
    let mut client = Client::connect(rt, streams.address(rt)?, 0)?;
    let mut frames = long_begin(alloc)?;
    frames.push_str(continues(alloc, REJECT, 5)?.as_str())?;
    client.write_text(alloc, frames.as_str())?;
    client.message(alloc)?;
    // Not before, since an End drops an answer that waits to be sent.
    client.write_text(alloc, END)
}

/// How many milliseconds a door holds a turn at most.
const MOST_MILLISECONDS: u32 = 30_000;

/// A door that turns wait at until it is opened.
#[derive(Drop)]
pub struct Door {
    is_reached: AtomicBool,
    is_open: AtomicBool,
}

impl Door {
    /// A closed door, at which no turn waits.
    pub fn new() -> Door {
        Door {
            is_reached: AtomicBool::new(false),
            is_open: AtomicBool::new(false),
        }
    }

    /// Waits until a turn has reached it. It is an error if none did in time.
    fn await_turn<R: Clock>(&self, rt: &R) -> Result<(), Unmet> {
        for _ in 0..MOST_MILLISECONDS {
            if self.is_reached.load(Ordering::SeqCst) {
                return Ok(());
            }
            thread::sleep(rt, Duration::from_millis(1));
        }
        Err(Unmet::Failed("no turn reached the door in time"))
    }

    /// A turn reaches it, and waits until it is open, or for half a minute.
    pub fn pass<R: Clock>(&self, rt: &R) {
        self.is_reached.store(true, Ordering::SeqCst);
        for _ in 0..MOST_MILLISECONDS {
            if self.is_open.load(Ordering::SeqCst) {
                break;
            }
            thread::sleep(rt, Duration::from_millis(1));
        }
    }
}

/// Makes a call, gives the command to end while its turn waits, makes another one, and opens the door. It is an
/// error if the first answer isn't that to the first call.
pub(crate) fn call_and_quit<R: Net<Stream = TcpStream> + Wait + Clock>(
    rt: &R,
    alloc: Global,
    streams: &Streams,
    door: &Door,
) -> Result<(), Unmet> {
    let mut client = Client::connect(rt, streams.address(rt)?, 0)?;
    client.write_text(alloc, begin(alloc, 0x2A)?.as_str())?;
    door.await_turn(rt)?;
    streams.command(rt, "quit\n")?;
    // Meanwhile the run reads it.
    thread::sleep(rt, Duration::from_millis(500));
    client.write_text(alloc, begin(alloc, 0x2B)?.as_str())?;
    door.is_open.store(true, Ordering::SeqCst);
    answers(alloc, &mut client, 0x2A)
}

/// How many milliseconds the last message of a log was posted after the first one.
pub fn posted_apart(log: &str) -> Result<u64, Fail> {
    let first = post_moment(log.split_once("\n0 P "))?;
    let last = post_moment(log.rsplit_once("\n0 P "))?;
    Ok(last.saturating_sub(first))
}

/// The moment of the message whose line of the log comes after a cut.
fn post_moment(cut: Option<(&str, &str)>) -> Result<u64, Fail> {
    let (_, line) = cut.ok_or("no line")?;
    let (moment, _) = line.split_once(' ').ok_or("no moment")?;
    Ok(moment.parse()?)
}
