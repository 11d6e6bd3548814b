//! The commands of a run as lines of a reader, and the thread that reads them.

use crate::run::commands::{Command, Notice};
use crate::run::{ServeFault, Stop};
use crate::system::{System, start_thread};
use crossbeam_channel::Sender;
use fp_tally::CalledNumber;
use std::io::{ErrorKind, Read};
use std::rt::Clock;
use std::str;
use std::sync::{Arc, Wait};

/// The most octets of one read of the commands.
const MOST_READ: usize = 512;

/// The number of octets of a line that are kept: more than any command has.
const MOST_OCTETS: usize = 32;

/// The most reads of the commands.
const MOST_READS: u64 = 1 << 40;

/// The octets of a line, read so far.
#[derive(Clone, Copy)]
struct CommandLine {
    octets: [u8; MOST_OCTETS],
    // How many octets were read, at most one more than are kept.
    count: usize,
}

impl CommandLine {
    /// A line without octets.
    fn new() -> CommandLine {
        CommandLine {
            octets: [0; MOST_OCTETS],
            count: 0,
        }
    }

    /// Adds an octet.
    fn push(&mut self, octet: u8) {
        if self.count < MOST_OCTETS {
            self.octets[self.count] = octet;
        }
        if self.count <= MOST_OCTETS {
            self.count += 1;
        }
    }

    /// The command of the line.
    fn command(&self) -> Command {
        let octets = self.octets.get(..self.count).unwrap_or_default();
        match str::from_utf8(octets) {
            Ok("reload") => Command::Reload,
            Ok("links") => Command::Links,
            Ok("counters") => Command::Counters,
            Ok("drain") => Command::Drain,
            Ok("quit") => Command::Quit,
            Ok(text) => command_with_word(text),
            Err(_) => Command::Unknown,
        }
    }
}

/// The command of a line of two words.
fn command_with_word(text: &str) -> Command {
    let Some((first, second)) = text.split_once(' ') else {
        return Command::Unknown;
    };
    match CalledNumber::from_text(second) {
        Some(number) if first == "counters" => Command::CountersOf(number),
        Some(_) | None => Command::Unknown,
    }
}

/// Sends a notice of a line that was read. If the line is `quit` and `ended` is given, it also ends the links at once,
/// without waiting for the commands before it. `false` if no thread takes notices any more.
fn send_command<R: Wait + Clock>(
    rt: &R,
    line: &CommandLine,
    ended: Option<&Arc<Stop>>,
    notices: &Sender<Notice>,
) -> bool {
    let command = line.command();
    if let (Command::Quit, Some(stop)) = (command, ended) {
        stop.quit(rt);
    }
    notices.send(rt, Notice::Command(command)).is_ok()
}

/// Sends a notice of each line that is read, until the input ends, and ends the links if a line is `quit` and `ended`
/// is given. The last line may have no line feed.
fn read_commands<R: Wait + Clock, I: Read>(
    rt: &R,
    input: &mut I,
    ended: Option<&Arc<Stop>>,
    notices: &Sender<Notice>,
) {
    let mut room = [0; MOST_READ];
    let mut line = CommandLine::new();
    for _ in 0..MOST_READS {
        let count = match input.read(&mut room) {
            Ok(0) => break,
            Ok(count) => count,
            Err(error) if error.kind() == ErrorKind::Interrupted => continue,
            Err(_) => break,
        };
        for octet in room.iter().take(count) {
            if *octet != b'\n' {
                line.push(*octet);
                continue;
            }
            if !send_command(rt, &line, ended, notices) {
                return;
            }
            line = CommandLine::new();
        }
    }
    if line.count > 0 {
        let _ = send_command(rt, &line, ended, notices);
    }
    let _ = notices.send(rt, Notice::NoCommands);
}

/// Starts a thread that reads commands. If more commands are known, it ends the links at `quit`. The thread isn't
/// joined: it may wait for its input when the run is over.
pub(crate) fn start_reading<R: System + Copy + Send + 'static, I: Read + Send + Drop + 'static>(
    rt: &R,
    input: I,
    stop: &Arc<Stop>,
    has_commands: bool,
    notices: Sender<Notice>,
) -> Result<(), ServeFault> {
    let own = *rt;
    let ended = if has_commands {
        Some(Arc::try_clone(stop)?)
    } else {
        None
    };
    start_thread(rt, move || {
        let mut input = input;
        read_commands(&own, &mut input, ended.as_ref(), &notices);
    })
}
