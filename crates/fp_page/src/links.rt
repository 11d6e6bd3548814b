//! The links of the page.

use crate::bars::add_number;
use crate::curves::{add_curves, rate_now};
use crate::html::{Html, Piece};
use crate::{LinkView, PageNumbers};
use fp_counters::Counter;
use std::alloc::AllocError;

/// The state of a link, as a mark.
fn state_of(link: &LinkView<'_>) -> &'static str {
    if link.numbers.gauges.is_up {
        "<b class=\"ok\">up</b>"
    } else if link.numbers.gauges.up_since == 0 {
        "<b class=\"s\">awaited</b>"
    } else {
        "<b class=\"bad\">down</b>"
    }
}

/// The number of a link, and its state.
fn add_state(html: &mut Html, link: &LinkView<'_>) -> Result<(), AllocError> {
    let state = state_of(link);
    html.add(&[
        Piece::Fixed("<h3>Link "),
        Piece::Number(u64::from(link.numbers.link)),
        Piece::Fixed(" "),
        Piece::Fixed(state),
        Piece::Fixed("</h3>\n"),
    ])
}

/// The peer of a link, and since when it is up or down: two lines, also if no peer was ever connected.
fn add_peer(html: &mut Html, link: &LinkView<'_>) -> Result<(), AllocError> {
    if link.numbers.gauges.up_since == 0 {
        return html.add(&[Piece::Fixed("<p class=\"s\">no connection yet<br>&nbsp;</p>\n")]);
    }
    html.add(&[
        Piece::Fixed("<p class=\"s\">"),
        Piece::Text(link.peer),
        Piece::Fixed("<br>since "),
        Piece::Text(link.since),
        Piece::Fixed("</p>\n"),
    ])
}

/// The rate of calls of a link now: none if it isn't up, although it had calls in the last period.
fn calls_now(link: &LinkView<'_>) -> Piece<'static> {
    if link.numbers.gauges.is_up {
        rate_now(link.calls.minute())
    } else {
        Piece::Tenths(0)
    }
}

/// The note beside the rate of a link: calls are missing if the log takes no lines now, or lost some of the link.
fn calls_note(page: &PageNumbers<'_>, link: &LinkView<'_>) -> &'static str {
    if link.numbers.gauges.is_up && (page.log_fails || page.log_hangs) {
        "<br><b class=\"bad\">Calls whose log lines find no place aren't counted.</b>"
    } else if link.numbers.counters.number(Counter::LinesLost) > 0 {
        "<br>Calls whose log lines were lost are missing."
    } else {
        ""
    }
}

/// A link: its state, its numbers and its curves.
fn add_link(
    html: &mut Html,
    page: &PageNumbers<'_>,
    link: &LinkView<'_>,
) -> Result<(), AllocError> {
    html.add(&[Piece::Fixed("<section>\n")])?;
    add_state(html, link)?;
    add_peer(html, link)?;
    html.add(&[
        Piece::Fixed("<p><strong>"),
        calls_now(link),
        Piece::Fixed("</strong> calls a second now"),
        Piece::Fixed(calls_note(page, link)),
        Piece::Fixed("</p>\n"),
    ])?;
    add_curves(html, link.calls)?;
    html.add(&[Piece::Fixed("<table>\n")])?;
    let calls = link.numbers.counters.number(Counter::Opened);
    add_number(html, "calls in all", calls)?;
    add_number(html, "dialogues open", link.numbers.gauges.dialogues)?;
    html.add(&[Piece::Fixed("</table>\n</section>\n")])
}

/// All links.
pub(crate) fn add_links(html: &mut Html, page: &PageNumbers<'_>) -> Result<(), AllocError> {
    html.add(&[Piece::Fixed("<h2>Links</h2>\n<div class=\"g\">\n")])?;
    for link in page.links {
        add_link(html, page, link)?;
    }
    html.add(&[Piece::Fixed("</div>\n")])
}
