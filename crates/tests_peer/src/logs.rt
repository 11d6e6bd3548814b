//! Calls beside a log whose device hangs or fails for a while, and what the log has then.

use crate::client::Client;
use crate::device::Mood;
use crate::streams::Streams;
use crate::talk::calls;
use crate::unmet::Unmet;
use std::alloc::Global;
use std::net::{Net, TcpStream};
use std::rt::Clock;
use std::sync::Wait;
use std::test::Fail;

/// A device that hangs or fails for a while.
#[derive(Clone, Copy)]
pub struct Trouble {
    pub mood: Mood,
    /// Whether the run goes on with `--log-gaps`, and reports faults of the log alone.
    pub has_gaps: bool,
    // What is reported before the first call is made, and in the end, if only faults of the log are.
    first_event: &'static str,
    events: &'static str,
}

/// How a device may be for a while.
pub const TROUBLES: [Trouble; 2] = [
    Trouble {
        mood: Mood::Hangs,
        has_gaps: false,
        first_event: "",
        events: "",
    },
    // It stops in a line.
    Trouble {
        mood: Mood::Fails(100),
        has_gaps: true,
        first_event: "lines are lost\n",
        events: "log: cannot be written, lines are lost\nlog: written again\n",
    },
];

/// How many frames of 500 octets, which nobody can read, have more lines than there is room for: 8,191 in the book,
/// 4 MiB of messages that wait, about 8,600, as many whose text is being made, and 6 MiB of text, about 6,200.
const MANY_FRAMES: usize = 33_000;

/// How many of them are written at once.
const FRAMES_AT_ONCE: usize = 100;

/// Makes a call on each of two links, fills the places for lines of the first one, makes another call on each, mends
/// the device, and makes a third one once the log is written again. It is an error if one wasn't answered, or if
/// the log wasn't written.
pub(crate) fn fill_and_mend<R: Net<Stream = TcpStream> + Wait + Clock>(
    rt: &R,
    alloc: Global,
    streams: &Streams,
    trouble: Trouble,
) -> Result<(), Unmet> {
    let address = streams.address(rt)?;
    let mut first = Client::connect(rt, address, 0)?;
    let mut second = Client::connect(rt, address, 1)?;
    call_on_each(alloc, &mut first, &mut second, 0)?;
    streams.await_errors(rt, alloc, trouble.first_event)?;
    write_many(alloc, &mut first)?;
    // Its answer shows that all of them came; its lines find no place.
    call_on_each(alloc, &mut first, &mut second, 1)?;
    streams.set_mood(rt, Mood::Takes(0));
    // What waited was written, so that the run doesn't give up on it.
    streams.await_log(rt, alloc, "\n0 Z ")?;
    call_on_each(alloc, &mut first, &mut second, 2)
}

/// Makes a call from this identifier on each of two links. It is an error if one wasn't
/// answered.
fn call_on_each(
    alloc: Global,
    first: &mut Client,
    second: &mut Client,
    identifier: u32,
) -> Result<(), Unmet> {
    calls(alloc, first, identifier)?;
    calls(alloc, second, identifier)
}

/// Writes many frames that nobody can read.
fn write_many(alloc: Global, client: &mut Client) -> Result<(), Unmet> {
    let mut frames = Vec::new(alloc);
    for _ in 0..FRAMES_AT_ONCE {
        frames.extend_from_slice(&[0, 0, 1, 244])?;
        frames.resize(frames.len() + 500, 0)?;
    }
    for _ in 0..MANY_FRAMES / FRAMES_AT_ONCE {
        client.write(frames.as_slice())?;
    }
    Ok(())
}

/// How many lines of a log begin so.
fn count_lines(log: &str, begin: &str) -> usize {
    let mut count: usize = 0;
    for line in log.lines() {
        if line.starts_with(begin) {
            count = count.saturating_add(1);
        }
    }
    count
}

/// Fails unless a log has one gap, which counts the lines that link 0 lacks, and all lines of link 1. Gives the number
/// of the line that has the gap, and how many lines it counts.
pub fn gap_in(log: &str) -> Result<(u128, usize), Fail> {
    let (before, after) = log.split_once("\n0 Z ").ok_or("no gap")?;
    let (gap, _) = after.split_once('\n').ok_or("no line")?;
    let lost: usize = gap.parse()?;
    let lines = count_lines(log, "0 ");
    // Three calls of five lines each, the other frames, the end, and the gap; and three calls and the end.
    if lost.saturating_add(lines) != MANY_FRAMES + 17
        || count_lines(log, "1 ") != 16
        || after.contains("\n0 Z ")
        || !log.ends_with('\n')
    {
        return Err(Fail::new(format_args!(
            "wanted one gap and all lines, came {lost} lost lines and {lines} lines of link 0"
        )));
    }
    Ok((u128::try_from(before.lines().count())? + 1, lost))
}

impl Trouble {
    /// Fails unless the events of a run are its own, or, if all are reported, one of them is that link 0 lacks this
    /// number of lines.
    pub fn want_events(&self, alloc: Global, told: &str, lost: usize) -> Result<(), Fail> {
        let is_right = if self.has_gaps {
            told == self.events
        } else {
            let gap = format!(in alloc; " link 0 log: {lost} lines are lost\n")?;
            told.contains(gap.as_str()) && told.matches(" lost\n").count() == 1
        };
        if is_right {
            Ok(())
        } else {
            Err(Fail::new(format_args!("wanted {lost} lost lines, came {told}")))
        }
    }
}
