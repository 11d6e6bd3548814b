//! Turns and parcels of a book that a case has out.

use super::texts::push_given;
use crate::held::{
    Held, Named, find, find_parcel, find_served, keep, push_parcel, push_served_count,
};
use crate::texts::name_of;
use cases::Answer;
use fp_book::{Book, InPlace, Picked, Taken};
use std::alloc::Global;

/// Takes the next turn, and keeps it.
pub(super) fn take(book: &mut Book, turns: &mut Vec<Named>, name: &str, out: &mut Answer) {
    let name = name_of(name, out);
    match book.take() {
        Taken::Nothing => out.text("nothing"),
        Taken::NoRoom => out.text("no room"),
        Taken::Memory => out.text("no memory"),
        Taken::Turn(turn) => {
            out.identifier(turn.local());
            out.labeled(" ", turn.position());
            out.labeled(" ", turn.count());
            keep(turns, name, Held::Turn(turn));
        }
    }
}

/// Serves the turn of a name, if it wasn't, and gives it back.
pub(super) fn give(
    alloc: Global,
    book: &mut Book,
    turns: &mut Vec<Named>,
    name: &str,
    out: &mut Answer,
) {
    let name = name_of(name, out);
    let Some(done) = find_served(alloc, turns, name, out) else {
        return;
    };
    let count = done.served();
    match book.give(done) {
        Ok(given) => {
            push_served_count(out, count);
            push_given(out, given)
        }
        Err(done) => {
            keep(turns, name, Held::Done(done));
            out.text("strange")
        }
    }
}

/// Serves the next turn in its place.
pub(super) fn serve_next(book: &mut Book, out: &mut Answer) {
    match book.serve() {
        InPlace::Nothing => out.text("nothing"),
        InPlace::NoRoom => out.text("no room"),
        InPlace::Memory => out.text("no memory"),
        InPlace::Served { count, given } => {
            push_served_count(out, count);
            push_given(out, given)
        }
    }
}

/// Puts the turn of a name back.
pub(super) fn put_back(book: &mut Book, turns: &mut Vec<Named>, name: &str, out: &mut Answer) {
    let name = name_of(name, out);
    match find(turns, name, out) {
        Some(Held::Turn(turn)) => match book.put_back(turn) {
            Ok(()) => out.text("back"),
            Err(turn) => {
                keep(turns, name, Held::Turn(turn));
                out.text("strange");
            }
        },
        Some(held) => {
            keep(turns, name, held);
            out.text("strange");
        }
        None => {}
    }
}

/// Picks what is sent next, and keeps it.
pub(super) fn pick(book: &mut Book, parcels: &mut Vec<Named>, name: &str, out: &mut Answer) {
    let name = name_of(name, out);
    match book.pick() {
        Picked::Busy => out.text("busy"),
        Picked::Nothing => out.text("nothing"),
        Picked::Parcel(parcel) => {
            push_parcel(out, &parcel);
            keep(parcels, name, Held::Parcel(parcel));
        }
    }
}

/// Reports the parcel of a name sent.
pub(super) fn report_sent(book: &mut Book, parcels: &mut Vec<Named>, name: &str, out: &mut Answer) {
    let name = name_of(name, out);
    let Some(parcel) = find_parcel(parcels, name, out) else {
        return;
    };
    match book.sent(parcel) {
        Ok(()) => out.text("sent"),
        Err(parcel) => {
            keep(parcels, name, Held::Parcel(parcel));
            out.text("strange")
        }
    }
}

/// Reports the parcel of a name unsent.
pub(super) fn report_unsent(
    book: &mut Book,
    parcels: &mut Vec<Named>,
    name: &str,
    out: &mut Answer,
) {
    let name = name_of(name, out);
    let Some(parcel) = find_parcel(parcels, name, out) else {
        return;
    };
    match book.unsent(parcel) {
        Ok(()) => out.text("unsent"),
        Err(parcel) => {
            keep(parcels, name, Held::Parcel(parcel));
            out.text("strange")
        }
    }
}
