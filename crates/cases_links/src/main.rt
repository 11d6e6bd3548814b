//! Worked cases of a link, its dialogues and its log: `INPUT => WANTED`. The library `cases` says how they are written.
//! The first word of a case says what it is about; each module has a table of its own.
//!
//! | First word | Module | What it is about |
//! |---|---|---|
//! | `stream`, .. | `streams` | the frames of a stream of octets |
//! | `receive`, .. | `receiving` | the loop that reads a link |
//! | `send`, .. | `sending` | the loop that writes a link |
//! | `row` | `scene` | dialogues, their turns and their frames |
//! | `rows` | `rows` | dialogues by their identifiers |
//! | `log` | `log` | the log of a link |
//! | `ready` | `ready` | the order in which dialogues are served |
//! | `outbox` | `outbox` | what waits to be sent |
//! | `book` | `book` | all dialogues of a link |
//! | `end` | `link_end` | how the end of a link goes on |
//! | `arrivals` | `arrivals` | the frames of a link on their way to its book |
//! | `run`, `random`, .. | `runs` | whole runs of a link |
//! | `text`, .. | `lines` | the text of a log line, read and written again |
//! | `replay`, .. | `replays` | logs, replayed |
//! | `counted`, `sent`, `times`, .. | `counting` | what is counted on a link |
//! | `page`, `metrics` | `pages` | what an operator's tools get over HTTP |
//! | `escaped`, `span`, `html`, .. | `html` | the page on which an operator sees how a run is |
//! | `logged-run`, `long-run` | `logged_runs` | the logs of whole runs, and their replay |
//! | `by-tables` | here | `by-tables COUNT CASE`: a case of a run or of a log by this number of tables without numbers |
//!
//! Standard input has one case or more to each comment. A case about dialogues is what is done, step by step, and after
//! ` => ` what each step must answer. Between steps, as between answers, is `; `. Each case begins without a dialogue,
//! at noon, 2024-05-06T12:00:00Z. In a log and in a report `|` stands for a line feed.
//!
//! `devices` has readers and writers that do what a case says, `memory` an inbox and an outlet that keep what goes
//! through them, `numbering` the link and the tag of a run, and `texts` words of steps and of answers.
#![tactic(auto)]

mod arrivals;
mod book;
mod counting;
mod devices;
mod held;
mod html;
mod lines;
mod link_end;
mod log;
mod logged_runs;
mod memory;
mod messages;
mod numbering;
mod outbox;
mod pages;
mod ready;
mod receiving;
mod replays;
mod rows;
mod runs;
mod scene;
mod sending;
mod streams;
mod texts;

use cases::{Answer, Answers, first_word, number_of};
use fp_records::Table;
use std::alloc::Global;

/// Four numbers: with one destination, with two, with a rule that refuses, and with one that lets the call pass.
const RECORDS: &str = "key,100,60
800123456,,1234567,00:00,24:00,1,route,302223344
800123457,,1234567,00:00,24:00,1,route,302223344,302223355
800123458,,1234567,00:00,24:00,1,refuse
800123459,,1234567,00:00,24:00,1,pass
";

/// The first of these numbers, with another destination.
const OTHER_RECORDS: &str = "key,100,60
800123456,,1234567,00:00,24:00,1,route,302223399
";

/// Records without a number.
const HEAD: &str = "key,100,60\n";

/// The cases, which share their records: a run has both tables, all else the first.
#[derive(Drop)]
struct Links {
    alloc: Global,
    tables: Vec<Table>,
}

/// Writes what a case of the link or of a line of its log gives, and says whether there is one of this kind.
fn of_link(alloc: Global, kind: &str, rest: &str, out: &mut Answer) -> bool {
    streams::answer(alloc, kind, rest, out)
        || receiving::answer(alloc, kind, rest, out)
        || sending::answer(alloc, kind, rest, out)
        || lines::answer(alloc, kind, rest, out)
        || counting::answer(alloc, kind, rest, out)
        || pages::answer(alloc, kind, rest, out)
        || html::answer(alloc, kind, rest, out)
}

/// Writes what a case of dialogues gives, and says whether there is one of this kind.
fn of_dialogues(alloc: Global, table: &Table, input: &str, out: &mut Answer) -> bool {
    let (kind, steps) = first_word(input);
    match kind {
        "row" => scene::answer(alloc, table, input, out),
        "rows" => rows::answer(alloc, steps, out),
        "log" => log::answer(alloc, steps, out),
        "ready" => ready::answer(alloc, steps, out),
        "outbox" => outbox::answer(alloc, steps, out),
        "end" => link_end::answer(steps, out),
        "arrivals" => arrivals::answer(alloc, table, steps, out),
        "book" => book::answer(alloc, table, steps, out),
        _ => return false,
    }
    true
}

/// Writes what a case of a whole run or of a log gives, and says whether there is one of this kind.
fn of_run(alloc: Global, tables: &[Table], kind: &str, rest: &str, out: &mut Answer) -> bool {
    match kind {
        "run" => runs::answer(alloc, tables, rest, out),
        "random" => runs::answer_random(alloc, tables, rest, out),
        "random-after" => runs::answer_random_after(alloc, tables, rest, out),
        _ => {
            return replays::answer(alloc, tables, kind, rest, out)
                || logged_runs::answer(alloc, tables, kind, rest, out);
        }
    }
    true
}

/// This number of tables that have no numbers, each with the index of its place.
fn bare_tables(alloc: Global, count: u32, out: &mut Answer) -> Vec<Table> {
    let mut tables = Vec::new(alloc);
    for index in 0..count {
        match Table::read(alloc, HEAD.as_bytes()) {
            Ok(table) => {
                let place = u16::try_from(index).unwrap_or(u16::MAX);
                out.push(&mut tables, table.numbered(place));
            }
            Err(_) => out.run_out(),
        }
    }
    tables
}

/// Writes what a case of a run or of a log gives by this number of tables that have no numbers.
fn by_tables(alloc: Global, rest: &str, out: &mut Answer) {
    let (count, input) = first_word(rest);
    let (kind, rest) = first_word(input);
    let tables = bare_tables(alloc, number_of(count, out), out);
    if !of_run(alloc, tables.as_slice(), kind, rest, out) {
        out.fail("no such case");
    }
}

impl Answers for Links {
    fn answer(&mut self, input: &str, out: &mut Answer) {
        let alloc = self.alloc;
        let (kind, rest) = first_word(input);
        if kind == "by-tables" {
            return by_tables(alloc, rest, out);
        }
        let tables = self.tables.as_slice();
        let Some(first) = tables.first() else {
            return out.fail("no records");
        };
        if !of_link(alloc, kind, rest, out)
            && !of_dialogues(alloc, first, input, out)
            && !of_run(alloc, tables, kind, rest, out)
        {
            out.fail("no such case");
        }
    }
}

fn main(rt: HostRuntime) -> anyhow::Result<()> {
    let alloc = rt.alloc();
    let mut tables = Vec::with_capacity(alloc, 2)?;
    tables.push(Table::read(alloc, RECORDS.as_bytes())?)?;
    tables.push(Table::read(alloc, OTHER_RECORDS.as_bytes())?.numbered(1))?;
    cases::run(&rt, &mut Links { alloc, tables })
}
