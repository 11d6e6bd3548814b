//! Bars: their lengths and their marks.

ghost use Rattle.std.specs.Prelude.{◌≡◌, ◌≤◌};
ghost use Rattle.fp_page.specs.Bars.{bar_length};

use crate::html::{Html, Piece};
use std::alloc::AllocError;

/// The length of a number's bar, if the bar of the greatest number has the length `room`. For
/// example, 3 of 12 in a room of 100 is 25.
pub(crate) fn bar_length(number: u64, most: u64, room: u16) -> u64
    ensures value { result ≡ bar_length number most room }
    ensures range { bar_length number most room ≤ room }
{
    if most == 0 {
        return 0;
    }
    let product = u128::from(number.min(most)) * u128::from(room);
    (product / u128::from(most)) as u64
}

/// The length of a bar that fills its place.
const ROOM: u16 = 100;

/// A row with a name and a number.
pub(crate) fn add_number(
    html: &mut Html,
    name: &'static str,
    number: u64,
) -> Result<(), AllocError> {
    html.add(&[
        Piece::Fixed("<tr><th>"),
        Piece::Fixed(name),
        Piece::Fixed("</th><td class=\"n\">"),
        Piece::Number(number),
        Piece::Fixed("</td></tr>\n"),
    ])
}

/// A row with a name, a bar and a number. The bar of a number above 0 is never empty.
pub(crate) fn add_row(
    html: &mut Html,
    name: &[Piece<'_>],
    number: u64,
    most: u64,
) -> Result<(), AllocError> {
    let length = bar_length(number, most, ROOM).max(number.min(1));
    html.add(&[Piece::Fixed("<tr><th>")])?;
    html.add(name)?;
    html.add(&[
        Piece::Fixed(
            "</th><td class=\"b\"><svg viewBox=\"0 0 100 1\" preserveAspectRatio=\"none\" aria-hidden=\"true\"><rect width=\"",
        ),
        Piece::Number(length),
        Piece::Fixed("\" height=\"1\"/></svg></td><td class=\"n\">"),
        Piece::Number(number),
        Piece::Fixed("</td></tr>\n"),
    ])
}
