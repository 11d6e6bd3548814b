//! The page.

use crate::answers::{add_aborts, add_answers};
use crate::events::add_events;
use crate::heading::{add_run, add_title, add_top, add_troubles};
use crate::html::{Html, Piece};
use crate::limits::{add_limits, add_log, add_records};
use crate::links::add_links;
use crate::style::{ending, opening, style};
use crate::times::add_times;
use crate::{PageNumbers, Trouble, troubles_of};
use std::alloc::{AllocError, Global};

/// The part below the links.
fn add_numbers(html: &mut Html, page: &PageNumbers<'_>) -> Result<(), AllocError> {
    html.add(&[Piece::Fixed("<h2>The run</h2>\n<div class=\"c\">\n")])?;
    add_answers(html, page)?;
    add_aborts(html, page)?;
    add_times(html, &page.answer_times)?;
    add_limits(html, page)?;
    add_log(html, page)?;
    add_records(html, page)?;
    html.add(&[Piece::Fixed("</div>\n")])?;
    add_events(html, page)
}

/// The whole page, with these troubles at its top.
fn add_page(
    html: &mut Html,
    page: &PageNumbers<'_>,
    troubles: &[Trouble],
) -> Result<(), AllocError> {
    html.add(&[Piece::Fixed(opening())])?;
    add_title(html, troubles.len())?;
    html.add(&[Piece::Fixed(style())])?;
    add_top(html, page)?;
    add_troubles(html, page, troubles)?;
    add_run(html, page)?;
    add_links(html, page)?;
    add_numbers(html, page)?;
    html.add(&[Piece::Fixed(ending())])
}

/// The page of a run, as an HTML text in UTF-8. `Err`: memory ran out.
pub fn page_text(alloc: Global, page: &PageNumbers<'_>) -> Result<String, AllocError> {
    let troubles = troubles_of(alloc, page)?;
    let mut html = Html::new(alloc);
    add_page(&mut html, page, troubles.as_slice())?;
    Ok(html.into_text())
}
