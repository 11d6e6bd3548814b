//! One run of the program, from its words to its status.

ghost use Rattle.std.specs.Prelude.{◌≡◌, ◌≤◌, is_ok, if◌then◌else◌, IfErr, IfSome, None, OnOk};
ghost use Rattle.std.specs.Io.KnownBytes.{IsAtEnd};
ghost use Rattle.fp_replay.specs.Stopped as stopped;
ghost use Rattle.fp_replay.specs.Stopped.{IsUnwritten, Replays};
ghost use Rattle.fp_ask.specs.Asked.{AnswersAll, Stops, cause_of};
ghost use Rattle.fp_ask.specs.Lines.{at_start};
ghost use Rattle.fp_streams.specs.Ends.{CountsReads, CountsWrites, Reads};
ghost use Rattle.fp_tids.specs.Identifiers.{base_of};

use crate::check::check;
use crate::command::{Asked, asked_by, moment_of};
use crate::contexts::contexts_in;
use crate::explain::explain;
use crate::fault::RunFault;
use crate::migrate::migrate;
use crate::output::write_text;
use crate::tag::Tag;
use fp_apdu::Name;
use fp_ask::{AskFault, ask_with_tag};
use fp_digits::Moment;
use fp_records::{RecordsFault, Table};
use fp_replay::{ReplayFault, replay};
use fp_serve::ServeFault;
use fp_streams::Counted;
use std::alloc::{AllocError, Global};
use std::io::{BufWriter, ErrorKind, Read, Write};
use std::rt::Files;
use std::{fs, io};

/// The most reads of the input in a run: 2^40.
const TURNS: u64 = 1_099_511_627_776;

/// Runs the program with these words and returns its status. The first word names the program.
///
/// 0: all lines were answered, or help was asked for and written to `output`. 2: the words were refused, and a text on
/// `errors` says why. 1: one line on `errors` names the fault, after the path of the file if that is one of LATER.
/// Faults are found in this order: the words, the moment, the application contexts, the records, the opening of the
/// log, then those of the lines. Text that cannot be written to `errors` is left out, and the status stays.
///
/// The program is handed no network here. So words that ask for `serve` and aren't refused get status 1 and the line
/// `listen: cannot listen`, before the application contexts, the records and the log are looked at. To serve links,
/// call [`program_with_links`](crate::program_with_links).
pub fn program<H, R, W, E>(rt: &H, words: &[String], input: R, output: &mut W, errors: &mut E) -> u8
where
    H: Files + AllocGlobal,
    R: Read + Drop,
    W: Write,
    E: Write,
    ensures { result ≤ 2 }
{
    run_asked(rt, asked_by(rt.alloc(), words), input, output, errors)
}

/// Runs the request of the words, and returns the status, as [`program`] does.
pub(crate) fn run_asked<H, R, W, E>(
    rt: &H,
    asked: Result<Asked<'_>, AllocError>,
    input: R,
    output: &mut W,
    errors: &mut E,
) -> u8
where
    H: Files + AllocGlobal,
    R: Read + Drop,
    W: Write,
    E: Write,
    ensures { result ≤ 2 }
{
    let outcome = match asked {
        Ok(Asked::Check { records, explain }) => check_file(rt, records, explain, output),
        Ok(Asked::Migrate { records }) => migrate_file(rt, records, output),
        Ok(
            Asked::Ask {
                records,
                moment,
                tag,
                contexts,
            },
        ) => answer_file(rt, records, moment, tag, contexts, input, output),
        Ok(
            Asked::Replay {
                records,
                log,
                later,
                contexts,
            },
        ) => replay_file(rt, records, log, later.as_slice(), contexts, output, errors),
        Ok(Asked::Serve(_)) => Err(RunFault::Serve(ServeFault::NoConnection)),
        Ok(Asked::Help(text)) => show(text.as_str(), output),
        Ok(Asked::Refused(text)) => {
            let _ = errors.write_all(text.as_bytes());
            return 2;
        }
        Err(_) => Err(RunFault::Ask(AskFault::Memory)),
    };
    status_of(outcome, errors)
}

/// Writes on `errors` why the words could not be read, and returns the status.
pub fn refuse_words<E: Write>(error: &io::Error, errors: &mut E) -> u8
    ensures least { 1 ≤ result }
    ensures most { result ≤ 2 }
{
    if error.kind() == ErrorKind::OutOfMemory {
        return status_of(Err(RunFault::Ask(AskFault::Memory)), errors);
    }
    let _ = errors.write_all(b"error: invalid UTF-8 was detected in one or more arguments\n");
    2
}

/// 0, or 1 after the line of the fault.
pub(crate) fn status_of<E: Write>(outcome: Result<(), RunFault>, errors: &mut E) -> u8
    ensures { result ≡ (if is_ok outcome then 0 else 1) }
{
    match outcome {
        Ok(()) => 0,
        Err(fault) => {
            let _ = writeln!(errors, "{fault}");
            1
        }
    }
}

/// Writes a text of help.
fn show<W: Write>(text: &str, output: &mut W) -> Result<(), RunFault> {
    write_text(text, output)?;
    Ok(())
}

/// Writes the counts of a records file, or the whole report on it.
fn check_file<H: Files + AllocGlobal, W: Write>(
    rt: &H,
    records: &str,
    is_explained: bool,
    output: &mut W,
) -> Result<(), RunFault> {
    if is_explained {
        let text = records_in(rt, records)?;
        return explain(rt.alloc(), text.as_slice(), output);
    }
    let table = table_in(rt, records)?;
    check(rt.alloc(), &table, output)?;
    Ok(())
}

/// Writes the records of a file as a file of version 2.
fn migrate_file<H: Files + AllocGlobal, W: Write>(
    rt: &H,
    records: &str,
    output: &mut W,
) -> Result<(), RunFault> {
    let text = records_in(rt, records)?;
    migrate(rt.alloc(), text.as_slice(), output)
}

/// Answers the lines of the input from the records of a file, in a run with this tag.
fn answer_file<H, R, W>(
    rt: &H,
    records: &str,
    moment: &str,
    tag: Tag,
    contexts: Option<&str>,
    input: R,
    output: &mut W,
) -> Result<(), RunFault>
where
    H: Files + AllocGlobal,
    R: Read + Drop,
    W: Write,
{
    let Some(moment) = moment_of(moment) else {
        return Err(RunFault::NoMoment);
    };
    let Some(contexts) = accepted(rt.alloc(), contexts)? else {
        return Err(RunFault::NoContexts);
    };
    let table = table_in(rt, records)?;
    let Ok(output) = BufWriter::new(rt.alloc(), output) else {
        return Err(RunFault::Ask(AskFault::Memory));
    };
    let mut reader = Counted::new(input);
    let mut writer = Counted::new(output);
    answer_lines(
        rt.alloc(),
        &table,
        contexts.as_slice(),
        tag,
        moment,
        &mut reader,
        &mut writer,
    )?;
    Ok(())
}

/// Replays the log in a file, by the records of other files.
fn replay_file<H, W, E>(
    rt: &H,
    records: &str,
    log: &str,
    later: &[&str],
    contexts: Option<&str>,
    output: &mut W,
    errors: &mut E,
) -> Result<(), RunFault>
where
    H: Files + AllocGlobal,
    W: Write,
    E: Write,
{
    let Some(contexts) = accepted(rt.alloc(), contexts)? else {
        return Err(RunFault::NoContexts);
    };
    let tables = tables_in(rt, records, later, errors)?;
    let file = match fs::open(rt, log) {
        Ok(file) => file,
        Err(error) if error.kind() == ErrorKind::OutOfMemory => {
            return Err(RunFault::Replay(ReplayFault::Memory));
        }
        Err(_) => return Err(RunFault::UnopenedLog),
    };
    let mut reader = Counted::new(file);
    let mut writer = Counted::new(output);
    replay_lines(
        rt.alloc(),
        tables.as_slice(),
        contexts.as_slice(),
        &mut reader,
        &mut writer,
    )?;
    Ok(())
}

/// The application contexts that are accepted: the names of the list, or none if there is no list. `None` if the text
/// isn't a list of names.
pub(crate) fn accepted(
    alloc: Global,
    contexts: Option<&str>,
) -> Result<Option<Vec<Name>>, AllocError> {
    match contexts {
        Some(text) => contexts_in(alloc, text),
        None => Ok(Some(Vec::new(alloc))),
    }
}

/// The table in a file.
fn table_in<H: Files + AllocGlobal>(rt: &H, path: &str) -> Result<Table, RunFault> {
    let text = records_in(rt, path)?;
    Ok(Table::read_and_free(rt.alloc(), text)?)
}

/// The tables of the file that a run began with and of the files that were loaded later, in that order. Each is
/// numbered by its place, as far as there are indexes.
fn tables_in<H: Files + AllocGlobal, E: Write>(
    rt: &H,
    records: &str,
    later: &[&str],
    errors: &mut E,
) -> Result<Vec<Table>, RunFault> {
    let mut tables = Vec::new(rt.alloc());
    tables.push(table_in(rt, records)?)?;
    for path in later {
        let index = tables.len().min(usize::from(Table::LAST_INDEX)) as u16;
        tables.push(later_table_in(rt, path, errors)?.numbered(index))?;
    }
    Ok(tables)
}

/// The table in a file that was loaded later. If the file is faulty, its path is written before the line of the fault.
fn later_table_in<H: Files + AllocGlobal, E: Write>(
    rt: &H,
    path: &str,
    errors: &mut E,
) -> Result<Table, RunFault> {
    let table = table_in(rt, path);
    if matches!(
        &table,
        Err(RunFault::Records(RecordsFault::Record { .. }) | RunFault::UnreadableRecords)
    ) {
        let _ = write!(errors, "{path}: ");
    }
    table
}

/// The octets of a file of records.
pub(crate) fn records_in<H: Files + AllocGlobal>(rt: &H, path: &str) -> Result<Vec<u8>, RunFault> {
    match fs::read(rt, path) {
        Ok(text) => Ok(text),
        Err(error) if error.kind() == ErrorKind::OutOfMemory => {
            Err(RunFault::Ask(AskFault::Memory))
        }
        Err(_) => Err(RunFault::UnreadableRecords),
    }
}

/// Answers the lines of the input, with the clauses of [`ask_with_tag`] for readers and writers whose octets are known.
fn answer_lines<R: Read, W: Write>(
    alloc: Global,
    table: &Table,
    contexts: &[Name],
    tag: Tag,
    moment: Moment,
    reader: &mut Counted<R>,
    writer: &mut Counted<W>,
) -> Result<(), AskFault>
    ensures end { OnOk result (IsAtEnd (R.remaining reader.new.device)) }
    ensures answered { OnOk result (IfSome (R.remaining reader.old.device)
        (AnswersAll table.now contexts.now (at_start (base_of 0 tag.number) moment)
        (W.contents writer.old.device) (W.contents writer.new.device))) }
    ensures stopped { IfErr result (Stops table.now contexts.now (at_start (base_of 0 tag.number) moment)
        (R.remaining reader.old.device) (R.remaining reader.new.device)
        (W.contents writer.old.device) (W.contents writer.new.device)) }
    ensures within { Reads cause_of TURNS
        (R.remaining reader.old.device) (R.remaining reader.new.device) None None result }
    ensures reads { CountsReads cause_of result reader.old.failed reader.new.failed }
    ensures writes { CountsWrites cause_of result writer.old.failed writer.new.failed }
{
    ask_with_tag(
        alloc, table, contexts, tag.number, moment, TURNS, reader, writer,
    )
}

/// Replays a log, with the clauses of [`replay`] for readers and writers whose octets are known.
fn replay_lines<R: Read, W: Write>(
    alloc: Global,
    tables: &[Table],
    contexts: &[Name],
    reader: &mut Counted<R>,
    writer: &mut Counted<W>,
) -> Result<(), ReplayFault>
    ensures end { OnOk result (IsAtEnd (R.remaining reader.new.device)) }
    ensures replayed { OnOk result (IfSome (R.remaining reader.old.device)
        (Replays tables.now contexts.now (W.contents writer.old.device) (W.contents writer.new.device))) }
    ensures stopped { IfErr result (stopped.Stops tables.now contexts.now
        (R.remaining reader.old.device) (R.remaining reader.new.device)
        (W.contents writer.old.device) (W.contents writer.new.device)) }
    ensures unwritten { IfErr result (IsUnwritten (W.contents writer.old.device) (W.contents writer.new.device)) }
    ensures within { Reads stopped.cause_of TURNS
        (R.remaining reader.old.device) (R.remaining reader.new.device) None None result }
    ensures reads { CountsReads stopped.cause_of result reader.old.failed reader.new.failed }
    ensures writes { CountsWrites stopped.cause_of result writer.old.failed writer.new.failed }
{
    replay(alloc, tables, contexts, TURNS, reader, writer)
}
