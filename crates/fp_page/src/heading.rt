//! The top of the page: the troubles, and the curves of the run.

use crate::curves::{add_curves, rate_now};
use crate::html::{Html, Piece};
use crate::trouble_texts::add_trouble;
use crate::{PageNumbers, Trouble};
use fp_counters::Counter;
use std::alloc::AllocError;

/// The title of the page in the browser: the program, after the number of troubles if there are any.
pub(crate) fn add_title(html: &mut Html, troubles: usize) -> Result<(), AllocError> {
    if troubles > 0 {
        html.add(&[
            Piece::Fixed("("),
            Piece::Number(troubles as u64),
            Piece::Fixed(") "),
        ])?;
    }
    html.add(&[Piece::Fixed("scp")])
}

/// The program, its version and the moment.
pub(crate) fn add_top(html: &mut Html, page: &PageNumbers<'_>) -> Result<(), AllocError> {
    html.add(&[
        Piece::Fixed("<header><h1>scp <small>"),
        Piece::Text(page.version),
        Piece::Fixed("</small></h1><p class=\"s\">"),
        Piece::Text(page.moment),
        Piece::Fixed("</p></header>\n"),
    ])
}

/// What is said without a trouble.
fn all_well(page: &PageNumbers<'_>) -> &'static str {
    for link in page.links {
        if link.numbers.gauges.is_up {
            return "<p class=\"t ok\">All is as it should be.</p>\n";
        }
    }
    "<p class=\"t\">No link is up yet: the run awaits a connection.</p>\n"
}

/// The troubles.
pub(crate) fn add_troubles(
    html: &mut Html,
    page: &PageNumbers<'_>,
    troubles: &[Trouble],
) -> Result<(), AllocError> {
    if troubles.is_empty() {
        return html.add(&[Piece::Fixed(all_well(page))]);
    }
    html.add(&[Piece::Fixed("<ul class=\"t bad\">\n")])?;
    for trouble in troubles {
        add_trouble(html, *trouble)?;
    }
    html.add(&[Piece::Fixed("</ul>\n")])
}

/// The note under the curves of calls, if the log takes no lines or lost some: then calls are missing in them.
fn calls_note(page: &PageNumbers<'_>) -> &'static str {
    let lost = page.total(Counter::LinesLost);
    if page.log_fails || page.log_hangs {
        "<p class=\"bad\">Calls whose log lines find no place aren't counted.</p>\n"
    } else if lost > 0 {
        "<p class=\"s\">Calls whose log lines were lost are missing.</p>\n"
    } else {
        ""
    }
}

/// The rates of the whole run: calls, answers and Aborts.
pub(crate) fn add_run(html: &mut Html, page: &PageNumbers<'_>) -> Result<(), AllocError> {
    html.add(&[
        Piece::Fixed("<div class=\"g\">\n<section><h2>Calls</h2>\n<p><strong>"),
        rate_now(page.history.calls.minute()),
        Piece::Fixed("</strong> a second now</p>\n"),
    ])?;
    add_curves(html, page.history.calls)?;
    html.add(&[
        Piece::Fixed(calls_note(page)),
        Piece::Fixed("</section>\n<section><h2>Components sent</h2>\n<p><strong>"),
        rate_now(page.history.answers.minute()),
        Piece::Fixed("</strong> a second now</p>\n"),
    ])?;
    add_curves(html, page.history.answers)?;
    html.add(&[
        Piece::Fixed("</section>\n<section><h2>Aborts sent</h2>\n<p><strong>"),
        rate_now(page.history.aborts.minute()),
        Piece::Fixed("</strong> a second now</p>\n"),
    ])?;
    add_curves(html, page.history.aborts)?;
    html.add(&[Piece::Fixed("</section>\n</div>\n")])
}
