//! What ends a link: its client, which may read nothing, its dialogues, the log, or a command.

use crate::client::{Client, shorten_limits};
use crate::crowd::{make_calls, read_answers, read_answers_and_call, write_begins};
use crate::device::Mood;
use crate::streams::Streams;
use crate::talk::{REJECT, UNKNOWN, continues, long_begin};
use crate::unmet::Unmet;
use std::alloc::Global;
use std::net::{Net, TcpStream};
use std::rt::Clock;
use std::sync::Wait;
use std::test::Fail;
use std::thread;
use std::time::{Duration, Instant};

/// What ends link 0, whose client has made calls and read no answer.
#[derive(Clone, Copy, PartialEq, Eq)]
pub enum Cause {
    /// The client closes its sending side, and reads the answers.
    EndOfInput,
    /// It closes its sending side, and reads nothing.
    UnreadAnswers,
    /// It closes its sending side, and reads the answers half a second later.
    LateReader,
    /// It closes its sending side, and reads nothing: the system gives it up, for which it needs half a second here.
    GivenUp,
    /// It goes.
    ClientGone,
    /// The log can't be written any more.
    LogFault,
    /// One dialogue keeps more entries than the dialogues of a link may.
    Entries,
    /// The run is given the command to end.
    Quit,
}

/// A way in which link 0 ends.
#[derive(Clone, Copy)]
pub struct Ending {
    /// How many calls its client makes first.
    calls: u32,
    /// Whether its receiving thread serves turns, too.
    pub is_helped: bool,
    /// What its log has in it before the cause comes.
    log: &'static str,
    pub cause: Cause,
    /// The seconds from the cause to the end, at least, unless all that was accepted is served and sent.
    least_seconds: u64,
    /// Its event: this one or the other.
    event: &'static str,
    other_event: &'static str,
    /// What the run reports of it begins so.
    told: &'static str,
}

/// The line of the log that says that the last of 7,000 calls is served. So many answers block the sending thread. Of
/// 10,000 calls some are held back then: 4,096 dialogues wait for their answers to be sent.
const SERVED_7000: &str = "\n0 T 7000 0 2\n";

/// The line of the log that says that the last of 4,000 calls is served. The answers of some more block the receiving
/// thread, if it serves and sends.
const SERVED_4000: &str = "\n0 T 4000 0 2\n";

/// The end of the line of the log that says that the last of 9,000 calls was posted.
const POSTED_9000: &str = " O00002328\n";

/// After how many milliseconds a late client reads.
const LATE: u64 = 500;

/// The ways in which link 0 ends. Where a client reads nothing while its link serves and sends in the receiving thread,
/// that one is blocked, and sees the end of the input only once the client reads.
pub const ENDINGS: [Ending; 12] = [
    Ending {
        calls: 500,
        is_helped: true,
        log: "",
        cause: Cause::EndOfInput,
        least_seconds: 0,
        event: " link 0 down peer closed\n",
        other_event: " link 0 down peer closed\n",
        told: "link 0 accepted 500 served 1000 sent 500\n",
    },
    Ending {
        calls: 6_500,
        is_helped: false,
        log: "",
        cause: Cause::UnreadAnswers,
        least_seconds: 2,
        event: " link 0 down peer closed\n",
        other_event: " link 0 down peer closed\n",
        told: "link 0 accepted 6500 served ",
    },
    Ending {
        calls: 10_000,
        is_helped: false,
        log: SERVED_7000,
        cause: Cause::ClientGone,
        least_seconds: 0,
        event: " link 0 down write fault\n",
        other_event: " link 0 down read fault\n",
        told: "link 0 accepted ",
    },
    Ending {
        calls: 10_000,
        is_helped: false,
        log: SERVED_7000,
        cause: Cause::LogFault,
        least_seconds: 0,
        event: " link 0 down log fault\n",
        other_event: " link 0 down log fault\n",
        told: "link 0 accepted ",
    },
    Ending {
        calls: 10_000,
        is_helped: true,
        log: SERVED_4000,
        cause: Cause::ClientGone,
        least_seconds: 0,
        event: " link 0 down write fault\n",
        other_event: " link 0 down read fault\n",
        told: "link 0 accepted ",
    },
    Ending {
        calls: 10_000,
        is_helped: true,
        log: SERVED_4000,
        cause: Cause::LogFault,
        least_seconds: 0,
        event: " link 0 down log fault\n",
        other_event: " link 0 down log fault\n",
        told: "link 0 accepted ",
    },
    Ending {
        calls: 10_000,
        is_helped: true,
        log: SERVED_4000,
        cause: Cause::LateReader,
        least_seconds: 0,
        event: " link 0 down peer closed\n",
        other_event: " link 0 down peer closed\n",
        told: "link 0 accepted 10000 served 20000 sent 10000\n",
    },
    Ending {
        calls: 10_000,
        is_helped: true,
        log: SERVED_4000,
        cause: Cause::GivenUp,
        least_seconds: 0,
        event: " link 0 down peer gone\n",
        other_event: " link 0 down peer gone\n",
        told: "link 0 accepted ",
    },
    Ending {
        calls: 0,
        is_helped: true,
        log: "",
        cause: Cause::Entries,
        least_seconds: 0,
        event: " link 0 down entries\n",
        other_event: " link 0 down entries\n",
        told: "link 0 accepted 1009 served ",
    },
    Ending {
        calls: 500,
        is_helped: true,
        log: "\n0 Y 500\n",
        cause: Cause::Quit,
        least_seconds: 0,
        event: " link 0 down quit\n",
        other_event: " link 0 down quit\n",
        told: "link 0 accepted 500 served 1000 sent 500\n",
    },
    Ending {
        calls: 10_000,
        is_helped: false,
        log: SERVED_7000,
        cause: Cause::Quit,
        least_seconds: 2,
        event: " link 0 down quit\n",
        other_event: " link 0 down quit\n",
        told: "link 0 accepted ",
    },
    Ending {
        calls: 10_000,
        is_helped: true,
        log: SERVED_4000,
        cause: Cause::Quit,
        least_seconds: 2,
        event: " link 0 down quit\n",
        other_event: " link 0 down quit\n",
        told: "link 0 accepted ",
    },
];

/// How many seconds it takes at most from the cause to the end of link 0.
const MOST_SECONDS: u64 = 30;

/// Brings a cause about, except that the client goes.
fn bring_about<R: Wait + Clock>(
    rt: &R,
    alloc: Global,
    streams: &Streams,
    ending: Ending,
    client: &mut Client,
    other: &mut Client,
) -> Result<(), Unmet> {
    match ending.cause {
        Cause::EndOfInput => {
            client.end_input()?;
            read_answers(alloc, client, 0, ending.calls)
        }
        Cause::UnreadAnswers => client.end_input(),
        Cause::LateReader => {
            client.end_input()?;
            thread::sleep(rt, Duration::from_millis(LATE));
            // So the end of the input wasn't seen either.
            streams.lacks_in_log(rt, POSTED_9000)?;
            read_answers(alloc, client, 0, ending.calls)
        }
        Cause::GivenUp => {
            shorten_limits();
            client.end_input()
        }
        Cause::ClientGone => Ok(()),
        Cause::LogFault => {
            streams.set_mood(rt, Mood::Fails(0));
            // So that there is a line to be written.
            other.write_text(alloc, UNKNOWN)
        }
        Cause::Entries => {
            client.write_text(alloc, long_begin(alloc)?.as_str())?;
            client.message(alloc)?;
            client.write_text(alloc, continues(alloc, REJECT, 63)?.as_str())
        }
        Cause::Quit => streams.command(rt, "quit\n"),
    }
}

/// Makes the calls of an ending on link 0 and one on link 1, and waits until the log has what the ending wants.
fn make_calls_before<R: Net<Stream = TcpStream> + Wait + Clock>(
    rt: &R,
    alloc: Global,
    streams: &Streams,
    ending: Ending,
    client: &mut Client,
) -> Result<Client, Unmet> {
    write_begins(alloc, client, 0, ending.calls)?;
    streams.await_log(rt, alloc, ending.log)?;
    let mut other = Client::connect(rt, streams.address(rt)?, 1)?;
    make_calls(alloc, &mut other, 0x2A, 1)?;
    if ending.cause == Cause::Quit {
        // What comes later would be read no more.
        streams.await_still_log(rt)?;
    }
    Ok(other)
}

/// Ends link 0 in this way, after another client made a call on link 1, and waits until that is reported. Gives how
/// many seconds after the cause it was. It is an error if something else came than has to.
pub(crate) fn end_link<R: Net<Stream = TcpStream> + Wait + Clock>(
    rt: &R,
    alloc: Global,
    streams: &Streams,
    ending: Ending,
) -> Result<u64, Unmet> {
    let mut client = Client::connect(rt, streams.address(rt)?, 0)?;
    let mut other = make_calls_before(rt, alloc, streams, ending, &mut client)?;
    let start = Instant::now(rt)?;
    bring_about(rt, alloc, streams, ending, &mut client, &mut other)?;
    if ending.cause == Cause::ClientGone {
        drop(client);
        streams.await_errors(rt, alloc, " link 0 down ")?;
    } else {
        streams.await_errors(rt, alloc, " link 0 down ")?;
        drop(client);
    }
    Ok(start.elapsed(rt)?.as_secs())
}

/// The counts of link 0, as a run reports them.
fn counts(told: &str) -> Option<(u64, u64, u64)> {
    let (_, rest) = told.split_once(" accepted ")?;
    let (accepted, rest) = rest.split_once(" served ")?;
    let (served, rest) = rest.split_once(" sent ")?;
    let (sent, _) = rest.split_once('\n')?;
    Some((
        accepted.parse().ok()?,
        served.parse().ok()?,
        sent.parse().ok()?,
    ))
}

/// Whether all calls that link 0 accepted were served and answered, each by two entries and a frame.
fn is_all_sent(told: &str) -> bool {
    match counts(told) {
        Some((accepted, served, sent)) => served == accepted.saturating_mul(2) && sent == accepted,
        None => false,
    }
}

impl Ending {
    /// Fails unless link 0 ended in this way, this number of seconds after the cause, with these reports of the two
    /// links and these events.
    pub fn want(&self, seconds: u64, told: &str, events: &str) -> Result<(), Fail> {
        if !events.contains(self.event) && !events.contains(self.other_event) {
            let (wanted, other) = (self.event, self.other_event);
            return Err(Fail::new(format_args!("wanted{wanted}or{other}came {events}")));
        }
        if seconds >= MOST_SECONDS || seconds < self.least_seconds && !is_all_sent(told) {
            let least = self.least_seconds;
            return Err(Fail::new(format_args!(
                "wanted {least} to {MOST_SECONDS} seconds, came {seconds}, and {told}"
            )));
        }
        if !told.starts_with(self.told)
            || !told.ends_with("\nlink 1 accepted 1 served 2 sent 1\n")
        {
            let wanted = self.told;
            return Err(Fail::new(format_args!(
                "wanted {wanted} and one call of link 1, came {told}"
            )));
        }
        Ok(())
    }
}

/// How many calls a client makes before the command to end: their answers are more than the system hands over before
/// the client reads.
const CALLS: u32 = 8_000;

/// The line of the log that says that the last of them is answered.
const SENT_8000: &str = "\n0 Y 8000\n";

/// Makes calls, ends the run once all answers are on their way, and reads these only once the link is down, while it
/// goes on making calls. It is an error if an answer is missing, or another one came.
pub(crate) fn call_on_at_the_end<R: Net<Stream = TcpStream> + Wait + Clock>(
    rt: &R,
    alloc: Global,
    streams: &Streams,
) -> Result<(), Unmet> {
    let mut client = Client::connect(rt, streams.address(rt)?, 0)?;
    write_begins(alloc, &mut client, 0, CALLS)?;
    streams.await_log(rt, alloc, SENT_8000)?;
    streams.command(rt, "quit\n")?;
    streams.await_errors(rt, alloc, " link 0 down quit\n")?;
    read_answers_and_call(alloc, &mut client, 0, CALLS)?;
    client.expect_end(alloc)
}
