//! What the calls of a book answer, as a log writes it.

use cases::Answer;
use fp_book::{Given, Posted, Totals};

/// What became of a message, in one letter.
pub(crate) fn letter_of(posted: Posted) -> &'static str {
    match posted {
        Posted::Opened(_) => "O",
        Posted::Accepted(_) => "A",
        Posted::Aborted(_) => "X",
        Posted::Ended => "E",
        Posted::Discarded => "D",
    }
}

/// Writes what became of a message.
pub(crate) fn push_posted(out: &mut Answer, posted: Posted) {
    out.text(letter_of(posted));
    match posted {
        Posted::Opened(local) => out.identifier(local),
        Posted::Accepted(count) => out.value(count),
        Posted::Aborted(cause) => out.value(cause.code()),
        Posted::Ended | Posted::Discarded => {}
    }
}

/// What became of a request, in one letter.
pub(crate) fn given_letter(given: Given) -> &'static str {
    match given {
        Given::Silent => "S",
        Given::Queued(_) => "Q",
        Given::Dropped(_) => "D",
    }
}

/// Writes what was counted.
pub(crate) fn push_totals(out: &mut Answer, totals: Totals) {
    let Totals {
        accepted,
        served,
        sent,
    } = totals;
    out.labeled("accepted ", accepted);
    out.labeled(" served ", served);
    out.labeled(" sent ", sent);
}

/// Writes what became of requests.
pub(crate) fn push_given(out: &mut Answer, given: Given) {
    out.text(given_letter(given));
    match given {
        Given::Silent => {}
        Given::Queued(count) | Given::Dropped(count) => out.value(count),
    }
}
