//! The last events.

use crate::PageNumbers;
use crate::html::{Html, Piece};
use std::alloc::AllocError;

/// Events under a heading, the newest one first.
fn add_list(html: &mut Html, name: &'static str, events: &[&str]) -> Result<(), AllocError> {
    html.add(&[
        Piece::Fixed("<section><h2>"),
        Piece::Fixed(name),
        Piece::Fixed("</h2>\n"),
    ])?;
    if events.is_empty() {
        return html.add(&[Piece::Fixed("<p class=\"s\">none yet</p></section>\n")]);
    }
    html.add(&[Piece::Fixed("<ul>\n")])?;
    for event in events {
        html.add(&[
            Piece::Fixed("<li>"),
            Piece::Text(event),
            Piece::Fixed("</li>\n"),
        ])?;
    }
    html.add(&[Piece::Fixed("</ul></section>\n")])
}

/// The last events, and the network's last events, if there are any.
pub(crate) fn add_events(html: &mut Html, page: &PageNumbers<'_>) -> Result<(), AllocError> {
    add_list(html, "Last events", page.events)?;
    if page.network_events.is_empty() {
        return Ok(());
    }
    add_list(html, "Last events of the network", page.network_events)
}
