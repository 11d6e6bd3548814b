//! What a case has out, under names of one letter: turns, served or not, and parcels.

use crate::texts::{name_of, push_dialogue};
use cases::Answer;
use fp_book::Parcel;
use fp_row::{Done, Turn};
use std::alloc::Global;

/// What is out. It must be spent.
#[must_use]
pub(crate) enum Held {
    /// A turn that wasn't served.
    Turn(Turn),
    /// A turn that was served.
    Done(Done),
    /// A parcel.
    Parcel(Parcel),
}

/// What is out, and its name.
#[must_use]
pub(crate) struct Named {
    name: u8,
    held: Held,
}

impl Held {
    /// Spends it.
    fn abandon(self) {
        match self {
            Held::Turn(turn) => turn.abandon(),
            Held::Done(done) => done.abandon(),
            Held::Parcel(parcel) => parcel.abandon(),
        }
    }
}

/// Keeps something under a name. If memory runs out, it is spent.
pub(crate) fn keep(list: &mut Vec<Named>, name: u8, held: Held) {
    match list.push(Named { name, held }) {
        Ok(()) => {}
        Err(failed) => {
            let Named { name: _, held } = failed.value;
            held.abandon();
        }
    }
}

/// Takes what has this name off the list. `None` if there is none, which is a fault of the answer.
pub(crate) fn find(list: &mut Vec<Named>, name: u8, out: &mut Answer) -> Option<Held> {
    let Some(index) = list.iter().position(|named| named.name == name) else {
        out.fail("nothing of this name");
        return None;
    };
    let Named { name: _, held } = list.remove(index);
    Some(held)
}

/// Spends what has this name, and writes `abandoned`.
pub(crate) fn abandon(list: &mut Vec<Named>, name: &str, out: &mut Answer) {
    let name = name_of(name, out);
    if let Some(held) = find(list, name, out) {
        held.abandon();
    }
    out.text("abandoned");
}

/// Spends all.
pub(crate) fn abandon_all(mut list: Vec<Named>) {
    while let Some(named) = list.pop() {
        let Named { name: _, held } = named;
        held.abandon();
    }
    list.destroy_empty();
}

/// Serves a turn. `None` if memory runs out, which is a fault of the answer.
pub(crate) fn served(alloc: Global, turn: Turn, out: &mut Answer) -> Option<Done> {
    match turn.serve(alloc) {
        Ok(done) => Some(done),
        Err(turn) => {
            turn.abandon();
            out.run_out();
            None
        }
    }
}

/// Takes the turn of this name off the list, and serves it if it wasn't served. `None` if there is none, or if memory
/// runs out, which is a fault of the answer.
pub(crate) fn find_served(
    alloc: Global,
    list: &mut Vec<Named>,
    name: u8,
    out: &mut Answer,
) -> Option<Done> {
    match find(list, name, out)? {
        Held::Done(done) => Some(done),
        Held::Turn(turn) => served(alloc, turn, out),
        Held::Parcel(parcel) => {
            parcel.abandon();
            out.fail("no turn");
            None
        }
    }
}

/// Serves the turn of this name, and writes `served`.
pub(crate) fn serve(alloc: Global, list: &mut Vec<Named>, name: &str, out: &mut Answer) {
    let name = name_of(name, out);
    if let Some(done) = find_served(alloc, list, name, out) {
        keep(list, name, Held::Done(done));
    }
    out.text("served");
}

/// Takes the parcel of this name off the list. `None` if there is none, which is a fault of the answer.
pub(crate) fn find_parcel(list: &mut Vec<Named>, name: u8, out: &mut Answer) -> Option<Parcel> {
    match find(list, name, out)? {
        Held::Parcel(parcel) => Some(parcel),
        held => {
            held.abandon();
            out.fail("no parcel");
            None
        }
    }
}

/// Writes what a turn says of itself.
fn push_turn(out: &mut Answer, turn: &Turn) {
    out.labeled("link ", turn.link());
    out.text(" ");
    push_dialogue(out, turn.local(), turn.peer(), turn.birth());
    out.labeled(" turn ", turn.position());
    out.labeled(" of ", turn.count());
}

/// Writes what a turn that was served says of itself.
fn push_done(out: &mut Answer, done: &Done) {
    push_turn(out, done.turn());
    out.text(", served ");
    out.value(done.served());
}

/// Writes how many entries were served, before what became of their requests.
pub(crate) fn push_served_count(out: &mut Answer, count: usize) {
    out.value(count);
    out.text(" ");
}

/// Writes what a turn, or what was served, says of itself.
fn push_held(out: &mut Answer, held: &Held) {
    match held {
        Held::Turn(turn) => push_turn(out, turn),
        Held::Done(done) => push_done(out, done),
        Held::Parcel(_) => out.fail("no turn"),
    }
}

/// Writes what the turn of this name says of itself.
pub(crate) fn show(list: &[Named], name: &str, out: &mut Answer) {
    let name = name_of(name, out);
    for named in list {
        if named.name == name {
            return push_held(out, &named.held);
        }
    }
    out.fail("nothing of this name");
}

/// Writes what a parcel holds: the local identifier of its dialogue, and its octets.
pub(crate) fn push_parcel(out: &mut Answer, parcel: &Parcel) {
    out.identifier(parcel.local());
    out.text(" ");
    out.octets(parcel.octets());
}
