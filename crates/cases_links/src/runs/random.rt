//! Runs that are drawn from a seed, and the check of what their steps answer.

use super::drawn::{Drawn, draw_steps};
use super::draws::Draws;
use super::kinds::Tally;
use super::log::check_births;
use super::outputs_of;
use super::texts::{push_output, totals_of};
use super::watch::Watch;
use crate::logged_runs::{log_of, push_report, text_of};
use crate::numbering::Numbering;
use cases::{Answer, first_word, number_of};
use fp_book::Line;
use fp_records::Table;
use fp_steps::{Output, totals};
use std::alloc::Global;

/// Notes that an output is wrong, and writes which.
fn fail(place: usize, output: &Output, out: &mut Answer) {
    out.labeled("output ", place);
    out.text(", ");
    push_output(out, output);
    out.fail("it is wrong");
}

/// Checks each output after the calls before, and counts it and its step.
fn check_each(
    watch: &mut Watch,
    tally: &mut Tally,
    drawn: &Drawn,
    outputs: &[Output],
    out: &mut Answer,
) {
    for (place, output) in outputs.iter().enumerate() {
        let (Some(step), Some(known)) = (drawn.steps.get(place), drawn.known.get(place)) else {
            return out.fail("too many outputs");
        };
        if place < drawn.lead {
            continue;
        }
        tally.add(step, output);
        if !watch.is_right(step, *known, output, out) {
            return fail(place, output, out);
        }
    }
}

/// Checks the outputs of a run after this number of calls, with serials that are added to `base`.
fn check(
    watch: &mut Watch,
    tally: &mut Tally,
    drawn: &Drawn,
    outputs: &[Output],
    out: &mut Answer,
) {
    check_each(watch, tally, drawn, outputs, out);
    tally.add_compared(watch.compared());
    if outputs.len() != drawn.steps.len() {
        return out.fail("too few outputs");
    }
    let count = outputs.len().saturating_sub(drawn.lead);
    let (_, own) = outputs.split_at(outputs.len().saturating_sub(count));
    if totals_of(own) != watch.totals() {
        out.fail("other totals");
    }
}

/// Replays the log of these lines, which has to have the totals of the run.
fn replay_log(
    alloc: Global,
    tables: &[Table],
    link: u8,
    outputs: &[Output],
    lines: &[Line],
    out: &mut Answer,
) {
    let text = text_of(alloc, lines, out);
    let mut report = Answer::new(alloc);
    let totals = totals(outputs);
    push_report(alloc, tables, link, totals, text.as_slice(), &mut report);
    if report.is_faulty() {
        out.append(&report);
    }
}

/// Checks the log of a run: the births in its lines, and, if no calls come before, that it replays to the totals of the
/// run.
fn check_log(
    alloc: Global,
    tables: &[Table],
    numbering: Numbering,
    drawn: &Drawn,
    outputs: &[Output],
    out: &mut Answer,
) {
    let steps = drawn.steps.as_slice();
    let lines = log_of(alloc, numbering, steps, outputs, out);
    check_births(alloc, steps, outputs, lines.as_slice(), out);
    if drawn.lead == 0 {
        replay_log(
            alloc,
            tables,
            numbering.link,
            outputs,
            lines.as_slice(),
            out,
        );
    }
}

/// The tag of a run, how many calls it has before all else, and how many steps are drawn after them.
#[derive(Clone, Copy)]
struct Kind {
    tag: u16,
    calls: u32,
    steps: u32,
}

/// Makes a run, and checks it.
fn one(
    alloc: Global,
    tables: &[Table],
    draws: &mut Draws,
    tally: &mut Tally,
    link: u8,
    kind: Kind,
    out: &mut Answer,
) {
    let Kind { tag, calls, steps } = kind;
    let numbering = Numbering { link, tag };
    let drawn = draw_steps(alloc, draws, numbering, calls, steps, out);
    let outputs = outputs_of(alloc, tables, numbering, drawn.steps.as_slice(), out);
    let mut watch = Watch::new(alloc, numbering.base(), calls);
    check(&mut watch, tally, &drawn, outputs.as_slice(), out);
    check_log(alloc, tables, numbering, &drawn, outputs.as_slice(), out);
}

/// The link of a run.
fn link_of(run: u32) -> u8 {
    u8::try_from(run % 8).unwrap_or(0)
}

/// Makes runs that are drawn, and checks them, up to the first one that is wrong, whose number is written.
fn each(
    alloc: Global,
    tables: &[Table],
    draws: &mut Draws,
    tally: &mut Tally,
    runs: u32,
    kind: Kind,
    out: &mut Answer,
) {
    for run in 0..runs {
        let mut wrong = Answer::new(alloc);
        one(alloc, tables, draws, tally, link_of(run), kind, &mut wrong);
        if wrong.is_faulty() {
            out.labeled("run ", run);
            out.text(": ");
            return out.append(&wrong);
        }
    }
}

/// How many steps are drawn, and the tag, which is 0 where the text has none.
fn kind_of(calls: u32, text: &str, out: &mut Answer) -> Kind {
    let (steps, tag) = first_word(text);
    Kind {
        tag: if tag.is_empty() {
            0
        } else {
            number_of(tag, out)
        },
        calls,
        steps: number_of(steps, out),
    }
}

/// Makes runs that are drawn, each after this number of calls, checks them, and writes how many steps and outputs there
/// were.
fn answer_with(alloc: Global, tables: &[Table], calls: u32, numbers: &str, out: &mut Answer) {
    let (seed, rest) = first_word(numbers);
    let (runs, rest) = first_word(rest);
    let mut draws = Draws::new(number_of(seed, out));
    let runs: u32 = number_of(runs, out);
    let mut tally = Tally::new();
    let kind = kind_of(calls, rest, out);
    each(alloc, tables, &mut draws, &mut tally, runs, kind, out);
    out.value(runs);
    out.text(" runs; ");
    tally.push_to(out);
}

/// Makes runs that are drawn, checks them, and writes how many steps and outputs there were.
pub(crate) fn answer(alloc: Global, tables: &[Table], numbers: &str, out: &mut Answer) {
    answer_with(alloc, tables, 0, numbers, out)
}

/// So with calls before, whose number precedes the others.
pub(crate) fn answer_after(alloc: Global, tables: &[Table], numbers: &str, out: &mut Answer) {
    let (calls, numbers) = first_word(numbers);
    let calls: u32 = number_of(calls, out);
    answer_with(alloc, tables, calls, numbers, out);
}
