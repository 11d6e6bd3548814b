//! Curves of rates.

ghost use Rattle.std.specs.Prelude.{◌≡◌, ◌<◌};
ghost use Rattle.fp_page.specs.Numbers.{nearest, rate_text};
ghost use Rattle.fp_page.specs.Pieces.{piece_text};

use crate::bars::bar_length;
use crate::html::{Html, Piece};
use crate::{History, Span};
use std::alloc::AllocError;

/// The height of a curve, in steps.
const ROOM: u16 = 100;

/// The factor from a number in a period of milliseconds to tenths a second: 3 in 5,000 milliseconds are 6 tenths.
const TENTHS_OF_MILLISECONDS: u64 = 10_000;

/// A number in this many milliseconds is the number in a second.
const MILLISECONDS_OF_A_SECOND: u64 = 1_000;

/// From this number of tenths on a rate is a whole number.
const MANY_TENTHS: u64 = 1_000;

/// This many times a number in a period, divided by the length of the period, rounded to the nearest whole number.
fn nearest(times: u64, number: u64, width: u64) -> u64
    requires { 0 < width }
    ensures { result ≡ nearest times number width }
{
    let product = u128::from(number) * u128::from(times) + u128::from(width / 2);
    u64::try_from(product / u128::from(width)).unwrap_or(u64::MAX)
}

/// The count of a period of this many milliseconds, as a rate a second: in tenths, and from 100 on as a whole number.
fn rate(number: u64, width: u64) -> Piece<'static>
    requires { 0 < width }
    ensures { piece_text result ≡ rate_text number width }
{
    let tenths = nearest(TENTHS_OF_MILLISECONDS, number, width);
    if tenths >= MANY_TENTHS {
        return Piece::Number(nearest(MILLISECONDS_OF_A_SECOND, number, width));
    }
    if number > 0 && tenths == 0 {
        Piece::Fixed("under 0.1")
    } else {
        Piece::Tenths(tenths)
    }
}

/// The rate a second in the last period that is over.
pub(crate) fn rate_now(span: &Span) -> Piece<'static> {
    rate(span.number(1), span.width())
}

/// The greatest number of the periods that are over.
fn highest(span: &Span) -> u64 {
    let mut highest = 0;
    for before in 0..span.most() {
        highest = span.number(before + 1).max(highest);
    }
    highest
}

/// A point of a curve: the number of the period in this place.
fn add_point(html: &mut Html, place: u64, number: u64, highest: u64) -> Result<(), AllocError> {
    let height = bar_length(number, highest, ROOM);
    html.add(&[
        Piece::Number(place),
        Piece::Fixed(","),
        Piece::Number(u64::from(ROOM).saturating_sub(height)),
        Piece::Fixed(" "),
    ])
}

/// The points of a curve, from the oldest period, in place 1, to the last one that is over. The first and the last number
/// have a further point each beyond the edges of the picture. No points, if all numbers are 0.
fn add_points(html: &mut Html, span: &Span, highest: u64) -> Result<(), AllocError> {
    if highest == 0 {
        return Ok(());
    }
    let most = span.most();
    add_point(html, 0, span.number(most), highest)?;
    for place in 0..most {
        let number = span.number(most - place);
        add_point(html, (place as u64).saturating_add(1), number, highest)?;
    }
    add_point(
        html,
        (most as u64).saturating_add(1),
        span.number(1),
        highest,
    )
}

/// The highest rate of a span, in words.
fn add_peak(html: &mut Html, span: &Span, highest: u64) -> Result<(), AllocError> {
    if span.is_in_its_first_period() {
        return html.add(&[Piece::Fixed("no peak yet")]);
    }
    let rate = rate(highest, span.width());
    html.add(&[Piece::Fixed("peak "), rate, Piece::Fixed("/s")])
}

/// A curve over its name, with the highest rate. Its line rises from 0 and falls to 0 outside of the picture, so that no
/// edge is drawn as a rise or a fall.
fn add_curve(html: &mut Html, name: &'static str, span: &Span) -> Result<(), AllocError> {
    let highest = highest(span);
    let steps = span.most().saturating_sub(1) as u64;
    let beyond = span.most().saturating_add(1) as u64;
    html.add(&[
        Piece::Fixed("<figure><svg viewBox=\"1 0 "),
        Piece::Number(steps),
        Piece::Fixed(
            " 100\" preserveAspectRatio=\"none\" aria-hidden=\"true\"><polyline points=\"0,100 ",
        ),
    ])?;
    add_points(html, span, highest)?;
    html.add(&[
        Piece::Number(beyond),
        Piece::Fixed(",100\"/></svg><figcaption>last "),
        Piece::Fixed(name),
        Piece::Fixed("<br>"),
    ])?;
    add_peak(html, span, highest)?;
    html.add(&[Piece::Fixed("</figcaption></figure>\n")])
}

/// The curves of the last minute, hour and day.
pub(crate) fn add_curves(html: &mut Html, history: &History) -> Result<(), AllocError> {
    html.add(&[Piece::Fixed("<div class=\"f\">\n")])?;
    add_curve(html, "minute", history.minute())?;
    add_curve(html, "hour", history.hour())?;
    add_curve(html, "day", history.day())?;
    html.add(&[Piece::Fixed("</div>\n")])
}
