//! The logs of whole runs of a link, and their replay.
//!
//! | Case | What it gives |
//! |---|---|
//! | `logged-run LINK: STEP; STEP; ..` | the log of these steps on this link, and the report of its replay |
//! | `long-run COUNT LINK: STEP; STEP; ..` | how many lines the log has, the last COUNT of them, and the report |
//!
//! In place of LINK there may be `LINK/TAG`: the run has this tag, which its log has in its head.
//!
//! After the report come the answers of those steps that a log has no line for: `nothing`, `busy`, `no room`, and
//! `tick`, where no dialogue was due. The steps are those of `runs`. That the report has the totals of the run is
//! tested, too.

use crate::numbering::{LAST_TAG, LINKS, Numbering, numbering_of};
use crate::replays::{SOUND, push_replay};
use crate::runs::{outputs_of, steps_of};
use crate::texts::push_barred;
use cases::{Answer, first_word, number_of};
use fp_book::{Line, Totals};
use fp_records::Table;
use fp_replay::{report_line, write_line};
use fp_steps::{Output, Step, lines_with_tag, totals};
use std::alloc::{AllocError, Global};

/// The totals of a link that did nothing.
const NONE: Totals = Totals {
    accepted: 0,
    served: 0,
    sent: 0,
};

/// The answer of a step that a log has no line for.
fn unlogged(output: &Output) -> Option<&'static str> {
    match output {
        Output::Nothing => Some("nothing"),
        Output::Busy => Some("busy"),
        Output::NoRoom => Some("no room"),
        Output::Ticked {
            added: 0,
            wanting: 0,
        } => Some("tick"),
        _ => None,
    }
}

/// Writes all answers that a log has no line for.
fn push_unlogged(outputs: &[Output], out: &mut Answer) {
    let mut mark = "; no line: ";
    for output in outputs {
        if let Some(answer) = unlogged(output) {
            out.text(mark);
            out.text(answer);
            mark = ", ";
        }
    }
}

/// Appends the text of lines.
fn push_text(text: &mut Vec<u8>, lines: &[Line]) -> Result<(), AllocError> {
    for line in lines {
        write_line(line, text)?;
    }
    Ok(())
}

/// The text of lines.
pub(crate) fn text_of(alloc: Global, lines: &[Line], out: &mut Answer) -> Vec<u8> {
    let mut text = Vec::new(alloc);
    out.note(push_text(&mut text, lines));
    text
}

/// Writes the line of a link in a report.
fn push_totals(alloc: Global, link: u8, totals: Totals, out: &mut Answer) {
    match report_line(alloc, usize::from(link), totals) {
        Ok(line) => push_barred(out, line.as_bytes()),
        Err(_) => out.run_out(),
    }
}

/// Writes the report that has these totals on a link, and no step on those before it.
fn push_wanted(alloc: Global, link: u8, totals: Totals, out: &mut Answer) {
    for before in 0..link {
        push_totals(alloc, before, NONE, out);
    }
    push_totals(alloc, link, totals, out)
}

/// Writes the report of the replay of a log, which has to have the totals of the run on this link.
pub(crate) fn push_report(
    alloc: Global,
    tables: &[Table],
    link: u8,
    totals: Totals,
    log: &[u8],
    out: &mut Answer,
) {
    let mut report = Answer::new(alloc);
    push_replay(alloc, tables, &SOUND, log, &mut report);
    let mut wanted = Answer::new(alloc);
    push_wanted(alloc, link, totals, &mut wanted);
    out.append(&report);
    if report.as_str() != wanted.as_str() {
        out.text(", and the totals are ");
        out.append(&wanted);
        out.fail("the replay has other totals than the run");
    }
}

/// Writes lines.
fn push_shown(alloc: Global, lines: &[Line], out: &mut Answer) {
    let text = text_of(alloc, lines, out);
    push_barred(out, text.as_slice());
}

/// Writes lines, all of them or how many there are and so many of the last ones.
fn push_lines(alloc: Global, lines: &[Line], last: Option<usize>, out: &mut Answer) {
    if last.is_some() {
        out.value(lines.len());
        out.text(" lines, ");
    }
    let count = last.unwrap_or(lines.len());
    let (_, shown) = lines.split_at(lines.len().saturating_sub(count));
    push_shown(alloc, shown, out);
    out.text(" / ")
}

/// Writes the log of these lines, and the report of its replay.
fn push_log(
    alloc: Global,
    tables: &[Table],
    link: u8,
    totals: Totals,
    lines: &[Line],
    last: Option<usize>,
    out: &mut Answer,
) {
    push_lines(alloc, lines, last, out);
    let log = text_of(alloc, lines, out);
    push_report(alloc, tables, link, totals, log.as_slice(), out)
}

/// The log of a run; empty if memory runs out, or if there is no such link or tag, which is a fault of the answer.
pub(crate) fn log_of(
    alloc: Global,
    numbering: Numbering,
    steps: &[Step],
    outputs: &[Output],
    out: &mut Answer,
) -> Vec<Line> {
    let Numbering { link, tag } = numbering;
    if link >= LINKS || tag > LAST_TAG {
        out.fail("no link, or no tag");
        return Vec::new(alloc);
    }
    match lines_with_tag(alloc, link, tag, steps, outputs) {
        Ok(lines) => lines,
        Err(_) => {
            out.run_out();
            Vec::new(alloc)
        }
    }
}

/// Writes what a run gives that answered so, with so many of the last lines of its log, or all.
fn push_outputs(
    alloc: Global,
    tables: &[Table],
    numbering: Numbering,
    steps: &[Step],
    outputs: &[Output],
    last: Option<usize>,
    out: &mut Answer,
) {
    let lines = log_of(alloc, numbering, steps, outputs, out);
    let (link, totals) = (numbering.link, totals(outputs));
    push_log(alloc, tables, link, totals, lines.as_slice(), last, out);
    push_unlogged(outputs, out)
}

/// Writes what a run gives, with so many of the last lines of its log, or all.
fn push_run(
    alloc: Global,
    tables: &[Table],
    numbering: Numbering,
    steps: &[Step],
    last: Option<usize>,
    out: &mut Answer,
) {
    let outputs = outputs_of(alloc, tables, numbering, steps, out);
    push_outputs(
        alloc,
        tables,
        numbering,
        steps,
        outputs.as_slice(),
        last,
        out,
    )
}

/// Writes what the run of a text gives, with so many of the last lines of its log, or all.
fn push_case(alloc: Global, tables: &[Table], text: &str, last: Option<usize>, out: &mut Answer) {
    let Some((numbering, script)) = text.split_once(": ") else {
        return out.fail("no link");
    };
    let numbering = numbering_of(numbering, out);
    let steps = steps_of(alloc, numbering, script, out);
    push_run(alloc, tables, numbering, steps.as_slice(), last, out)
}

/// What a run of many steps gives.
fn long(alloc: Global, tables: &[Table], rest: &str, out: &mut Answer) {
    let (count, text) = first_word(rest);
    let count: usize = number_of(count, out);
    push_case(alloc, tables, text, Some(count), out);
}

/// Writes what a case of this module gives, and says whether it has one of this kind.
pub(crate) fn answer(
    alloc: Global,
    tables: &[Table],
    kind: &str,
    rest: &str,
    out: &mut Answer,
) -> bool {
    match kind {
        "logged-run" => push_case(alloc, tables, rest, None, out),
        "long-run" => long(alloc, tables, rest, out),
        _ => return false,
    }
    true
}
