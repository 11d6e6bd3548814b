//! The highest numbers of the links beside their limits, the state of the log, and the records.

use crate::bars::{add_number, add_row};
use crate::html::{Html, Piece};
use crate::troubles::{MANY_PLACES, MOST_DIALOGUES, MOST_PLACES};
use crate::{LinkView, PageNumbers};
use fp_counters::Counter;
use std::alloc::AllocError;

/// About as many log lines of a link find places while the device takes none, if its calls are ordinary: five lines each of
/// 42,000 calls with one destination. Lines of long messages fill the places sooner.
const LINES_OF_CALLS: u64 = 210_000;

/// A row of a link: a number with its name, and a bar that is full at this limit.
fn add_limit(
    html: &mut Html,
    link: u8,
    name: &'static str,
    number: u64,
    limit: u64,
) -> Result<(), AllocError> {
    let link = Piece::Number(u64::from(link));
    let name = [Piece::Fixed("link "), link, Piece::Fixed(name)];
    add_row(html, &name, number, limit)
}

/// The rows of a link.
fn add_link(html: &mut Html, view: &LinkView<'_>) -> Result<(), AllocError> {
    let link = view.numbers.link;
    let gauges = &view.numbers.gauges;
    let dialogues = gauges.most_dialogues;
    add_limit(html, link, ": dialogues", dialogues, MOST_DIALOGUES)?;
    let places = gauges.most_places;
    add_limit(html, link, ": places for frames", places, MOST_PLACES)?;
    add_limit(
        html,
        link,
        ": log lines waiting",
        gauges.most_lines,
        LINES_OF_CALLS,
    )
}

/// The messages for which there was no room, as rows.
fn add_refusals(html: &mut Html, page: &PageNumbers<'_>) -> Result<(), AllocError> {
    let held_back = page.total(Counter::HeldBack);
    let refused = page.total(Counter::RefusedLimit);
    let lost = page.total(Counter::OutOfMemory);
    html.add(&[Piece::Fixed("<table>\n")])?;
    add_number(html, "messages held back", held_back)?;
    add_number(html, "refused: a limit, or no memory", refused)?;
    add_number(html, "lost: no memory", lost)?;
    html.add(&[Piece::Fixed("</table>\n")])
}

/// The highest numbers of each link beside their limits, and what was refused.
pub(crate) fn add_limits(html: &mut Html, page: &PageNumbers<'_>) -> Result<(), AllocError> {
    html.add(&[Piece::Fixed("<section><h2>Limits</h2>\n<table>\n")])?;
    for link in page.links {
        add_link(html, link)?;
    }
    html.add(&[
        Piece::Fixed(
            "</table>\n<p class=\"s\">The most seen at once since the run began. A bar is full at ",
        ),
        Piece::Number(MOST_DIALOGUES),
        Piece::Fixed(" dialogues and at "),
        Piece::Number(MOST_PLACES),
        Piece::Fixed(" places for frames, the limits, and at "),
        Piece::Number(LINES_OF_CALLS),
        Piece::Fixed(
            " log lines that wait, those of 42,000 ordinary calls. Lines of long messages fill the room sooner. A place is held while a message is served, and until its answers are sent. Messages are held back from ",
        ),
        Piece::Number(MANY_PLACES),
        Piece::Fixed(" places on, at "),
        Piece::Number(MOST_DIALOGUES),
        Piece::Fixed(
            " dialogues while one of them is busy, at 64 entries that wait in one dialogue, and at 64 Aborts that wait.</p>\n",
        ),
    ])?;
    add_refusals(html, page)?;
    html.add(&[Piece::Fixed("</section>\n")])
}

/// The number of log lines that wait.
fn lines_waiting(page: &PageNumbers<'_>) -> u64 {
    let mut lines: u64 = 0;
    for link in page.links {
        lines = lines.saturating_add(link.numbers.gauges.lines);
    }
    lines
}

/// The state of the log.
pub(crate) fn add_log(html: &mut Html, page: &PageNumbers<'_>) -> Result<(), AllocError> {
    let state = if page.log_hangs {
        "<b class=\"bad\">hangs</b>"
    } else if page.log_fails {
        "<b class=\"bad\">can't be written</b>"
    } else {
        "<b class=\"ok\">is written</b>"
    };
    html.add(&[
        Piece::Fixed("<section><h2>Log</h2>\n<p>The log "),
        Piece::Fixed(state),
        Piece::Fixed(".</p>\n<table>\n"),
    ])?;
    add_number(html, "lines written", page.total(Counter::LinesWritten))?;
    add_number(html, "lines waiting", lines_waiting(page))?;
    add_number(html, "lines lost", page.total(Counter::LinesLost))?;
    html.add(&[Piece::Fixed(
        "</table>\n<p class=\"s\">Lost lines are counted once others are written. Calls whose lines are lost are never counted.</p></section>\n",
    )])
}

/// The records that calls are answered from.
pub(crate) fn add_records(html: &mut Html, page: &PageNumbers<'_>) -> Result<(), AllocError> {
    let (numbers, rules) = page.counts;
    html.add(&[Piece::Fixed("<section><h2>Records in use</h2>\n<table>\n")])?;
    add_number(html, "numbers", u64::from(numbers))?;
    add_number(html, "rules", u64::from(rules))?;
    add_number(html, "reloads so far", page.reloads)?;
    html.add(&[
        Piece::Fixed("</table>\n<p class=\"s\">SHA-256 <code>"),
        Piece::Text(page.records),
        Piece::Fixed("</code></p></section>\n"),
    ])
}
