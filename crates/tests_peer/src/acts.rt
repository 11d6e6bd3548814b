//! What clients do while a run goes on.

use crate::client::{Client, shrink_buffers, stop_listening};
use crate::connections::{break_off, call_beside_refused, wait_for_end};
use crate::crowd::{call_at_once, make_all_calls, write_bursts};
use crate::ends::{Ending, call_on_at_the_end, end_link};
use crate::logs::{Trouble, fill_and_mend};
use crate::streams::Streams;
use crate::talk::{ANSWER_WITH_CONTEXT, BEGIN_WITH_CONTEXT, all_kinds};
use crate::turns::{Door, call_and_quit, fill_dialogue, two_calls};
use crate::unmet::Unmet;
use std::alloc::Global;
use std::net::{Net, TcpListener, TcpStream};
use std::rt::Clock;
use std::sync::Wait;
use std::sync::atomic::AtomicBool;
use std::thread;
use std::thread::Threads;
use std::time::Instant;

/// How many seconds 40 calls take at most: less than a tick each.
const MOST_SECONDS: u64 = 20;

/// What clients do, on connections of their own.
#[derive(Clone, Copy)]
pub enum Act<'x> {
    /// One makes a call that names an application context.
    Call,
    /// Eight make calls of all kinds at once.
    AllKinds,
    /// Two make thousands of calls each.
    ManyCalls,
    /// One writes more at once than a link holds ([`write_bursts`]).
    Bursts,
    /// One makes this number of calls at once.
    AtOnce(u32),
    /// Two break off, and a third goes on ([`break_off`]).
    BreakOff,
    /// One makes a call, and connects again once the log has failed ([`wait_for_end`]).
    FailedLog,
    /// No connection can be accepted, and none comes.
    NoListener,
    /// One makes a call once further connections are refused.
    BesideRefused,
    /// Two make calls beside a log that has more lines than there is room for ([`fill_and_mend`]).
    FillLog(Trouble),
    /// The link of one ends, and another goes on ([`end_link`]).
    End(Ending),
    /// One goes on making calls after the command to end ([`call_on_at_the_end`]).
    CallOnAtTheEnd,
    /// One makes two calls at once, and marks that the first answer came.
    TwoCalls(&'x AtomicBool),
    /// One fills a dialogue with entries ([`fill_dialogue`]).
    FillDialogue,
    /// One makes a call whose turn is held while it gives the command to end ([`call_and_quit`]).
    Quit(&'x Door),
}

/// How an act went.
#[derive(Clone, Copy)]
pub struct Played {
    /// How many seconds after its cause link 0 was down, for [`Act::End`]; else 0.
    pub seconds: u64,
    /// When it was over.
    pub end: Instant,
}

impl Act<'_> {
    /// Prepares the listener of the run, before it begins. `false`: the system refused.
    pub fn prepare(self, listener: &TcpListener) -> bool {
        match self {
            Act::End(_) => {
                shrink_buffers(listener);
                true
            }
            Act::NoListener => stop_listening(listener),
            _ => true,
        }
    }

    /// Does it. It is an error if something else comes than has to.
    pub fn play<R>(self, rt: &R, alloc: Global, streams: &Streams) -> Result<Played, Unmet>
    where
        R: Net<Listener = TcpListener, Stream = TcpStream>
            + Threads
            + Wait
            + Clock
            + Copy
            + Send
            + Sync
            + 'static,
    {
        let seconds = match self {
            Act::End(ending) => end_link(rt, alloc, streams, ending)?,
            Act::AllKinds => self.play_beside(rt, alloc, streams, 8)?,
            Act::ManyCalls => self.play_beside(rt, alloc, streams, 2)?,
            _ => self.play_alone(rt, alloc, streams)?,
        };
        let end = Instant::now(rt)?;
        Ok(Played { seconds, end })
    }

    /// This number of clients do it at once, and give no seconds.
    fn play_beside<R>(
        self,
        rt: &R,
        alloc: Global,
        streams: &Streams,
        count: usize,
    ) -> Result<u64, Unmet>
    where
        R: Net<Listener = TcpListener, Stream = TcpStream>,
        R: Threads + Wait + Clock + Copy + Send + Sync + 'static,
    {
        let address = streams.address(rt)?;
        let is_many = matches!(self, Act::ManyCalls);
        let results = thread::map_indices(
            rt,
            alloc,
            count,
            &|number| if is_many {
                make_all_calls(rt, alloc, address, number)
            } else {
                all_kinds(rt, alloc, address, number)
            },
        )?;
        let mut found = found_in(alloc, results)?;
        if is_many {
            return are_soon(found.as_slice());
        }
        found.sort_unstable();
        are_links(found.as_slice())
    }

    /// Does it in this thread alone, and gives no seconds.
    fn play_alone<R>(self, rt: &R, alloc: Global, streams: &Streams) -> Result<u64, Unmet>
    where
        R: Net<Stream = TcpStream> + Wait + Clock,
    {
        match self {
            Act::Call => one_call(rt, alloc, streams)?,
            Act::Bursts => write_bursts(rt, alloc, streams)?,
            Act::AtOnce(count) => call_at_once(rt, alloc, streams, count)?,
            Act::BreakOff => break_off(rt, alloc, streams)?,
            Act::FailedLog => wait_for_end(rt, alloc, streams)?,
            Act::BesideRefused => call_beside_refused(rt, alloc, streams)?,
            Act::FillLog(trouble) => fill_and_mend(rt, alloc, streams, trouble)?,
            Act::CallOnAtTheEnd => call_on_at_the_end(rt, alloc, streams)?,
            Act::TwoCalls(is_answered) => two_calls(rt, alloc, streams, is_answered)?,
            Act::FillDialogue => fill_dialogue(rt, alloc, streams)?,
            Act::Quit(door) => call_and_quit(rt, alloc, streams, door)?,
            Act::NoListener => {}
            Act::End(_) | Act::AllKinds | Act::ManyCalls => {
                return Err(Unmet::Failed("an act of several clients"));
            }
        }
        Ok(0)
    }
}

/// Makes one call.
fn one_call<R: Net<Stream = TcpStream> + Wait + Clock>(
    rt: &R,
    alloc: Global,
    streams: &Streams,
) -> Result<(), Unmet> {
    let mut client = Client::connect(rt, streams.address(rt)?, 0)?;
    client.write_text(alloc, BEGIN_WITH_CONTEXT)?;
    client.expect(alloc, ANSWER_WITH_CONTEXT)
}

/// What all clients found, or the first error.
fn found_in(alloc: Global, results: Vec<Result<u64, Unmet>>) -> Result<Vec<u64>, Unmet> {
    let mut found = Vec::new(alloc);
    for result in results {
        found.push(result?)?;
    }
    Ok(found)
}

/// It is an error if the calls waited for a tick each.
fn are_soon(seconds: &[u64]) -> Result<u64, Unmet> {
    for taken in seconds {
        if *taken >= MOST_SECONDS {
            return Err(Unmet::Failed("40 calls took 20 seconds or more"));
        }
    }
    Ok(0)
}

/// It is an error if the clients weren't answered on a link of their own each.
fn are_links(found: &[u64]) -> Result<u64, Unmet> {
    for (link, found) in (0u64..).zip(found) {
        if *found != link {
            return Err(Unmet::Failed("two clients were answered on one link"));
        }
    }
    Ok(0)
}
