//! The calls for the log.
//!
//! | Call | Its answer |
//! |---|---|
//! | `fullness` | how full the log is: `not filling`, `filling` or `nearly full` |
//! | `amount` | how many lines it has, roughly: `few`, `some` or `long` |
//! | `exchange COUNT` | the log of link 3, which has COUNT lines, is exchanged for an empty one: `exchanged` |
//! | `drain COUNT` | the log, which has COUNT lines, is drained: `drained` |
//! | `drain-into PLACES COUNT` | the log is drained into a list with PLACES places, of which COUNT are taken then: |
//! | | `drained` |
//! | `log` | the log is drained: of each line the letter of the step, and the number of the dialogue that it names |

use super::words::{add_number, choose, number, say};
use cases::first_word;
use fp_book::{Line, Log, LoggedStep};
use fp_hub::Hub;
use std::alloc::Global;
use std::sync::Wait;
use std::sync::ledger::Ledger;

/// The letter of a step, and the number of its dialogue if it names one.
fn named_step(step: &LoggedStep) -> (&'static str, Option<u64>) {
    match step {
        LoggedStep::Take { birth, .. } => ("T", Some(*birth)),
        LoggedStep::Give { birth, .. } => ("G", Some(*birth)),
        LoggedStep::PutBack { birth, .. } => ("B", Some(*birth)),
        LoggedStep::Pick { birth } => ("Q", Some(*birth)),
        LoggedStep::Sent { birth } => ("Y", Some(*birth)),
        LoggedStep::Post { .. } => ("P", None),
        LoggedStep::Down => ("N", None),
        _ => ("else", None),
    }
}

/// The word for a log that has reached these two marks or not.
fn level(
    has_reached_first: bool,
    has_reached_second: bool,
    low: &'static str,
    middle: &'static str,
    high: &'static str,
) -> &'static str {
    let below = choose(has_reached_first, middle, low);
    let above = choose(has_reached_first, high, "else");
    choose(has_reached_second, above, below)
}

/// Makes a step for the log. It is the last module that has steps.
pub(super) fn line_step<R: Wait, A: Ledger, B: Ledger, C: Ledger>(
    rt: &R,
    alloc: Global,
    hub: &Hub<A, B, C>,
    words: &mut String,
    name: &str,
    rest: &str,
) -> &'static str {
    match name {
        "fullness" => level(
            hub.is_log_filling(),
            hub.is_log_nearly_full(),
            "not filling",
            "filling",
            "nearly full",
        ),
        "amount" => level(
            hub.has_log_lines(),
            hub.is_log_long(),
            "few",
            "some",
            "long",
        ),
        "exchange" => exchange(rt, alloc, hub, number(rest)),
        "drain" => drained_word(drain(rt, alloc, hub, Log::MOST), number(rest)),
        "drain-into" => {
            let (places, count) = first_word(rest);
            drained_word(drain(rt, alloc, hub, number(places)), number(count))
        }
        "log" => log_word(drain(rt, alloc, hub, Log::MOST), words),
        _ => "no such call",
    }
}

/// Exchanges the log of link 3, which has this number of lines, for an empty one.
fn exchange<R: Wait, A: Ledger, B: Ledger, C: Ledger>(
    rt: &R,
    alloc: Global,
    hub: &Hub<A, B, C>,
    line_count: usize,
) -> &'static str {
    let Ok(mut log) = Log::new(alloc) else {
        return "no memory";
    };
    let link = hub.exchange_log(rt, &mut log);
    choose(link == 3 && log.len() == line_count, "exchanged", "else")
}

/// Drains the log into a list with this number of places. `None`: out of memory.
fn drain<R: Wait, A: Ledger, B: Ledger, C: Ledger>(
    rt: &R,
    alloc: Global,
    hub: &Hub<A, B, C>,
    place_count: usize,
) -> Option<Vec<Line>> {
    let mut lines = Vec::with_capacity(alloc, place_count).ok()?;
    hub.drain(rt, &mut lines);
    Some(lines)
}

/// The word for a drained log that has to have this number of lines.
fn drained_word(lines: Option<Vec<Line>>, line_count: usize) -> &'static str {
    match lines {
        Some(lines) => choose(lines.len() == line_count, "drained", "else"),
        None => "no memory",
    }
}

/// Says the steps of a drained log.
fn log_word(lines: Option<Vec<Line>>, words: &mut String) -> &'static str {
    match lines {
        Some(lines) => {
            say_lines(lines.as_slice(), words);
            ""
        }
        None => "no memory",
    }
}

/// Says the steps of these lines.
fn say_lines(lines: &[Line], words: &mut String) {
    for line in lines {
        if let Line::Step { step, .. } = line {
            say_step(step, words);
        }
    }
}

/// Says a step.
fn say_step(step: &LoggedStep, words: &mut String) {
    let (letter, birth) = named_step(step);
    say(words, letter);
    if let Some(birth) = birth {
        add_number(words, birth);
    }
}
