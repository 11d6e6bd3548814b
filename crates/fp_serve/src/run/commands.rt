//! The commands of a run, executed one after another until it is over.

ghost use Rattle.std.specs.Prelude.{◌≤◌, IfOk, IfSome, OnOk, string_bytes};
ghost use Rattle.fp_serve.specs.Report.{TellsAnswers, TellsOfLinks};

use crate::run::report::{write_flushed, write_reloaded};
use crate::run::{Run, ServeFault, Statuses};
use crate::system::System;
use crossbeam_channel::Receiver;
use fp_hub::Tables;
use fp_streams::LinkWrite;
use fp_tally::{CalledNumber, time_since};
use fp_watch::{links_answer, number_answer};
use std::alloc::{AllocError, Global};
use std::rt::Clock;
use std::sync::Wait;
use std::thread;
use std::time::{Duration, Instant};
use thiserror::Error;

/// How many commands that were read may wait.
pub(crate) const MOST_WAITING: usize = 16;

/// The time between two looks whether replaced tables can be freed, in seconds.
const REST_SECONDS: u64 = 1;

/// The time between two looks whether the thread of the links runs, until it does, in milliseconds.
const LOOK_MILLISECONDS: u64 = 200;

/// The longest time until the thread of the links must run, in seconds.
const SECONDS_AT_THE_START: u64 = 10;

/// The reason why a command isn't followed.
#[derive(Clone, Copy, Debug, PartialEq, Eq, Error)]
pub enum Refusal {
    /// The command isn't known.
    #[error("command: unknown")]
    Unknown,
    /// The node has no unit of its own, so without the common one it couldn't send its answers.
    #[error("command: drain: no unit but the common one")]
    NoOwnUnit,
    /// The counters of a called number are asked for, and the run doesn't count numbers.
    #[error("command: counters: numbers aren't counted")]
    NoNumbers,
}

/// The operator of a run: reads the records again, and reports faults of commands.
pub trait Operator {
    /// Reads the records again, replaces the newest table with theirs, and returns the new table's index. `None` if the
    /// newest table stays: then the fault was reported.
    fn reload(&mut self, tables: &Tables) -> Option<u32>
        ensures { IfSome result (λ index. (1 ≤ index) × (index ≤ tables.now)) };

    /// Reports why a command isn't followed.
    fn refuse(&mut self, refusal: Refusal);

    /// Reports why a command that was followed got no answer.
    fn fail(&mut self, fault: ServeFault);
}

/// The commands of a run, and its operator.
#[derive(Drop)]
pub struct Commands<I: Drop, O: Drop> {
    /// The input: lines, each a command.
    pub input: I,
    /// The operator that the run calls.
    pub operator: O,
}

/// A command.
#[derive(Clone, Copy, Debug, PartialEq, Eq)]
pub(crate) enum Command {
    /// `reload`: the records are read again.
    Reload,
    /// `links`: the status of each link.
    Links,
    /// `counters`: the counters of the run.
    Counters,
    /// `counters NUMBER`: the counters of a called number.
    CountersOf(CalledNumber),
    /// `drain`: the node must ask for no new dialogues, and all links end once none is held.
    Drain,
    /// `quit`: all links are to end.
    Quit,
    /// Any other line.
    Unknown,
}

/// A notice to the thread that follows the commands.
#[derive(Clone, Copy, Debug, Drop)]
pub(crate) enum Notice {
    /// A command was read.
    Command(Command),
    /// No more commands can follow: the input ended, or a read failed.
    NoCommands,
    /// All links are down.
    LinksDown,
}

/// The answer to `links`.
fn links_text<R: Wait>(run: &Run<'_, R>) -> Result<String, AllocError>
    ensures { IfOk result (λ text. TellsOfLinks run.entry.now.settings.first_link (string_bytes text)) }
{
    let alloc = run.service.alloc;
    let links = run.statuses.links(run.rt, alloc)?;
    links_answer(alloc, run.settings.first_link, links.as_slice())
}

/// Writes the counters, if more commands are known and the run has counters; else the command isn't known. If memory
/// runs out for the text, the operator reports it, and nothing is written.
fn answer_counters<R: System, O: Operator, W: LinkWrite>(
    run: &Run<'_, R>,
    operator: &mut O,
    output: &mut W,
) -> Result<(), ServeFault>
    ensures { OnOk result (TellsAnswers run.entry.now.service.tables.now
        run.entry.now.settings.first_link run.entry.now.settings.has_commands
        (W.contents output.old) (W.contents output.new)) }
{
    let Some(watch) = run.watch else {
        operator.refuse(Refusal::Unknown);
        return Ok(());
    };
    if !run.settings.has_commands {
        operator.refuse(Refusal::Unknown);
        return Ok(());
    }
    match watch.counters_text(run.rt, run.service.alloc) {
        Ok(text) => write_flushed(text.as_str(), output),
        Err(_) => {
            operator.fail(ServeFault::Memory);
            Ok(())
        }
    }
}

/// Begins the drain of the node whose network carries the link. If there is none, or it has no unit of its own, the
/// operator reports why.
fn drain<R, O: Operator>(run: &Run<'_, R>, operator: &mut O) {
    let Some(draining) = run.draining else {
        operator.refuse(Refusal::Unknown);
        return;
    };
    if !draining.drain.set() {
        operator.refuse(Refusal::NoOwnUnit);
    }
}

/// Writes the counters of a called number, if more commands are known and the run counts numbers; else the operator
/// reports that the command isn't known, or that numbers aren't counted. If memory runs out for the text, the operator
/// reports it, and nothing is written.
fn answer_number<R: System, O: Operator, W: LinkWrite>(
    run: &Run<'_, R>,
    number: CalledNumber,
    operator: &mut O,
    output: &mut W,
) -> Result<(), ServeFault>
    ensures { OnOk result (TellsAnswers run.entry.now.service.tables.now
        run.entry.now.settings.first_link run.entry.now.settings.has_commands
        (W.contents output.old) (W.contents output.new)) }
{
    if !run.settings.has_commands {
        operator.refuse(Refusal::Unknown);
        return Ok(());
    }
    let counters = match run.watch {
        Some(watch) => watch.metrics.counters_of(run.rt, number),
        None => None,
    };
    let Some(counters) = counters else {
        operator.refuse(Refusal::NoNumbers);
        return Ok(());
    };
    match number_answer(run.service.alloc, number, &counters) {
        Ok(text) => write_flushed(text.as_str(), output),
        Err(_) => {
            operator.fail(ServeFault::Memory);
            Ok(())
        }
    }
}

/// Follows a command, if there is one, and writes its answer, if it has one. If memory runs out for the answer to
/// `links`, the operator reports it, and nothing is written.
fn obey<R: System, O: Operator, W: LinkWrite>(
    run: &Run<'_, R>,
    command: Option<Command>,
    operator: &mut O,
    output: &mut W,
) -> Result<(), ServeFault>
    ensures { OnOk result (TellsAnswers run.entry.now.service.tables.now
        run.entry.now.settings.first_link run.entry.now.settings.has_commands
        (W.contents output.old) (W.contents output.new)) }
{
    let has_commands = run.settings.has_commands;
    match command {
        None => Ok(()),
        Some(Command::Reload) => {
            let Some(index) = operator.reload(run.service.tables) else {
                return Ok(());
            };
            write_reloaded(index, output)
        }
        Some(Command::Links) if has_commands => match links_text(run) {
            Ok(text) => write_flushed(text.as_str(), output),
            Err(_) => {
                operator.fail(ServeFault::Memory);
                Ok(())
            }
        },
        Some(Command::Counters) => answer_counters(run, operator, output),
        Some(Command::CountersOf(number)) => answer_number(run, number, operator, output),
        // The thread that read it has ended the links.
        Some(Command::Quit) if has_commands => Ok(()),
        Some(Command::Drain) if has_commands => {
            drain(run, operator);
            Ok(())
        }
        Some(Command::Links | Command::Quit | Command::Drain | Command::Unknown) => {
            operator.refuse(Refusal::Unknown);
            Ok(())
        }
    }
}

/// Whether the thread of the links can't have been started: it doesn't run, and the system has no thread now either, or
/// too much time went by since this start.
fn lacks_thread<R: System>(rt: &R, statuses: &Statuses, start: Option<Instant>) -> bool {
    if statuses.have_begun() {
        return false;
    }
    let most = Duration::from_secs(SECONDS_AT_THE_START);
    let is_late = time_since(rt, start).is_some_and(|since| since >= most);
    is_late || thread::spawn(rt, || {}).is_err()
}

/// How long to wait for the next command: a second, or a fifth of a second until the thread of the links is known to
/// run.
fn rest(statuses: &Statuses) -> Duration {
    if statuses.have_begun() {
        Duration::from_secs(REST_SECONDS)
    } else {
        Duration::from_millis(LOOK_MILLISECONDS)
    }
}

/// Follows the commands until all links are down, and, unless the run ends with its links, no more commands can follow
/// or there was a fault. If an answer can't be written, all links are to go down; if the run ends with its links, the
/// operator reports it, and they go on, but the run has this fault in the end. If the thread of the links can't be
/// started, or doesn't run within ten seconds, they are to go down too.
pub(crate) fn follow<R: System, O: Operator, W: LinkWrite>(
    run: &Run<'_, R>,
    notices: &Receiver<Notice>,
    operator: &mut O,
    output: &mut W,
) -> Result<(), ServeFault>
    ensures { OnOk result (TellsAnswers run.entry.now.service.tables.now
        run.entry.now.settings.first_link run.entry.now.settings.has_commands
        (W.contents output.old) (W.contents output.new)) }
{
    let Run {
        rt,
        statuses,
        stop,
        ..
    } = *run;
    let has_commands = run.settings.has_commands;
    let mut is_input_open = true;
    let start = Instant::now(rt).ok();
    let mut outcome = Ok(());
    for _ in rt.forever() {
        let mut command = None;
        match notices.recv_timeout(rt, rest(statuses)) {
            Ok(Notice::Command(came)) => command = Some(came),
            Ok(Notice::NoCommands) => is_input_open = false,
            Ok(Notice::LinksDown) => {}
            Err(_) => {}
        }
        match obey(run, command, operator, output) {
            Ok(()) => {}
            Err(fault) if has_commands => {
                operator.fail(fault);
                outcome = Err(fault);
            }
            Err(fault) => {
                stop.ask_for(rt, fault);
                return Err(fault);
            }
        }
        run.service.tables.free_replaced(rt);
        if lacks_thread(rt, statuses, start) {
            stop.ask_for(rt, ServeFault::NoThread);
            return Err(ServeFault::NoThread);
        }
        let awaits_commands = is_input_open && !has_commands && stop.fault(rt).is_none();
        if statuses.are_down() && !awaits_commands {
            return outcome;
        }
    }
    outcome
}
