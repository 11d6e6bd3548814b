//! The components sent, by kind, and the Aborts sent, by cause.

use crate::PageNumbers;
use crate::bars::add_row;
use crate::html::{Html, Piece};
use crate::names::{abort_counters, answer_counters, name};
use fp_counters::Counter;
use std::alloc::AllocError;

/// A table with a row for each of these counters that isn't 0, and a bar in proportion to the greatest of them.
fn add_table(
    html: &mut Html,
    page: &PageNumbers<'_>,
    counters: &[Counter],
) -> Result<(), AllocError> {
    let mut most = 0;
    for counter in counters {
        most = page.total(*counter).max(most);
    }
    if most == 0 {
        return html.add(&[Piece::Fixed("<p class=\"s\">none yet</p>\n")]);
    }
    html.add(&[Piece::Fixed("<table>\n")])?;
    for counter in counters {
        let number = page.total(*counter);
        if number > 0 {
            add_row(html, &[Piece::Fixed(name(*counter))], number, most)?;
        }
    }
    html.add(&[Piece::Fixed("</table>\n")])
}

/// The answers, by kind.
pub(crate) fn add_answers(html: &mut Html, page: &PageNumbers<'_>) -> Result<(), AllocError> {
    html.add(&[Piece::Fixed("<section><h2>Components sent, by kind</h2>\n")])?;
    add_table(html, page, &answer_counters())?;
    html.add(&[Piece::Fixed("</section>\n")])
}

/// The Aborts, by cause.
pub(crate) fn add_aborts(html: &mut Html, page: &PageNumbers<'_>) -> Result<(), AllocError> {
    html.add(&[Piece::Fixed("<section><h2>Aborts sent, by cause</h2>\n")])?;
    add_table(html, page, &abort_counters())?;
    html.add(&[Piece::Fixed("</section>\n")])
}
