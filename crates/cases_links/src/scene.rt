//! Dialogues, their turns and their frames.
//!
//! A case may open several dialogues: a step is about the one that was opened or gone to last. The turns that it takes
//! have names of one letter. A step about a turn spends it, unless the turn comes back, which then keeps its name.
//!
//! | Step | What it answers |
//! |---|---|
//! | `row LOCAL PEER BIRTH` | a Begin opens a dialogue of these identifiers, the BIRTH-th of its link: `opened` |
//! | `to N` | the N-th dialogue of the case, from 1: its identifiers and its birth |
//! | `at MS` | from now on it is MS milliseconds after noon: the same number |
//! | `post HEX` | its entries of this message are accepted: how many there are, or `refused` |
//! | `clock` | it is given a Clock: `due`, or `not due` |
//! | `take NAME` | its next turn is taken: the place of its first entry and how many it has, or `none` |
//! | `take NAME FREE` | the same with this number of free places for frames, else 8192 |
//! | `serve-next`, `serve-next FREE` | its next turn is served in its place: the place of its first entry, how many it has, |
//! | | and what `give` answers; or `none` |
//! | `show NAME` | what the turn, or what was served, says of itself |
//! | `serve NAME` | the turn is served, and not given back: `served` |
//! | `give NAME` | the turn is served, if it wasn't, and given back: how many entries were served, and `nothing`, |
//! | | `frame HEX`, `frames HEX HEX ..`, `dropped N`; or `strange` |
//! | `put-back NAME` | the turn is put back: `back`, or `strange` |
//! | `abandon NAME` | the turn is never given back: `abandoned` |
//! | `each` | its turns are taken and given one by one: how many, how many entries were served, how many frames, and |
//! | | the last of these |
//! | `sent` | one more of its frames was sent: `sent`, or `none` |
//! | `end peer`, `end closed` | its peer ends it, or it is closed: `ended` |
//! | `end peer sending`, `end closed sending` | the same while a frame of it is being sent |
//! | `state` | which it is of `admitted`, `ready`, `held`, else `gone`; the places its entries take; its deadline |

use crate::held::{
    Held, Named, abandon, abandon_all, find, find_served, keep, push_served_count, serve, served,
    show,
};
use crate::messages::prepared;
use crate::texts::{NOON, moment_after, name_of, peer_of, push_dialogue};
use cases::{Answer, Steps, first_word, identifier_of, number_of, play};
use fp_digits::Moment;
use fp_entry::{Entries, Prepared};
use fp_records::Table;
use fp_row::{Ending, RequestFrames, Requested, Row, Turn};
use std::alloc::Global;

/// How many places for frames a link has.
const ALL_PLACES: usize = 8192;

/// The dialogues of a case, and its turns that are out. It must be spent.
#[must_use]
struct Scene<'a> {
    alloc: Global,
    table: &'a Table,
    rows: Vec<Row>,
    // The place of the dialogue that a step is about.
    place: usize,
    moment: Moment,
    turns: Vec<Named>,
}

/// What several turns came to: how many there were, how many entries were served, how many frames, and what the last
/// turn with a frame requested.
#[derive(Drop)]
struct Tally {
    turns: usize,
    served: usize,
    frames: usize,
    last: Requested,
}

/// A dialogue accepts entries.
fn accept(row: &mut Row, entries: Entries, out: &mut Answer) {
    let count = entries.len();
    match row.accept(entries) {
        Ok(true) => out.value(count),
        Ok(false) => out.text("refused"),
        Err(_) => out.run_out(),
    }
}

/// A dialogue accepts the entries of a message.
fn accept_message(alloc: Global, row: &mut Row, prepared: &Prepared, out: &mut Answer) {
    let Prepared::Message { incoming, .. } = prepared else {
        return out.fail("no message");
    };
    match incoming.entries.try_clone(alloc) {
        Ok(entries) => accept(row, entries, out),
        Err(_) => out.run_out(),
    }
}

/// A message comes to a dialogue.
fn post(
    alloc: Global,
    table: &Table,
    moment: Moment,
    row: &mut Row,
    message: &str,
    out: &mut Answer,
) {
    if let Some(prepared) = prepared(alloc, table, moment, message, out) {
        accept_message(alloc, row, &prepared, out);
    }
}

/// Who ends a dialogue.
fn ending_of(text: &str, out: &mut Answer) -> Ending {
    match text {
        "peer" => Ending::ByPeer,
        "closed" => Ending::Closed,
        _ => {
            out.fail("no such ending");
            Ending::Closed
        }
    }
}

/// Writes frames, with a blank before each.
fn push_frames(out: &mut Answer, frames: &RequestFrames) {
    for frame in frames.as_slice() {
        out.character(' ');
        out.octets(frame.octets());
    }
}

/// Writes what becomes of requests.
fn push_requested(out: &mut Answer, requested: &Requested) {
    match requested {
        Requested::Nothing => out.text("nothing"),
        Requested::Dropped(count) => out.labeled("dropped ", *count),
        Requested::Frames(frames) => {
            out.either(frames.len() == 1, "frame", "frames");
            push_frames(out, frames);
        }
    }
}

/// How many places are free, from a text, which may say nothing of it: then all.
fn free_of(text: &str, out: &mut Answer) -> usize {
    if text.is_empty() {
        return ALL_PLACES;
    }
    number_of(text, out)
}

/// Takes the next turn of a dialogue.
fn take(alloc: Global, row: &mut Row, turns: &mut Vec<Named>, text: &str, out: &mut Answer) {
    let (name, free) = first_word(text);
    let name = name_of(name, out);
    let free = free_of(free, out);
    if free < 1 {
        return out.fail("no place is free");
    }
    match row.take(alloc, free) {
        Ok(Some(turn)) => {
            out.value(turn.position());
            out.labeled(" ", turn.count());
            keep(turns, name, Held::Turn(turn));
        }
        Ok(None) => out.text("none"),
        Err(_) => out.run_out(),
    }
}

/// Serves the next turn of a dialogue in its place.
fn serve_in_place(alloc: Global, row: &mut Row, free: &str, out: &mut Answer) {
    let free = free_of(free, out);
    if free < 1 {
        return out.fail("no place is free");
    }
    match row.serve_next(alloc, free) {
        Ok(Some(turn)) => {
            out.value(turn.position);
            out.labeled(" ", turn.count);
            out.text(" ");
            push_served_count(out, turn.served);
            push_requested(out, &turn.requested);
        }
        Ok(None) => out.text("none"),
        Err(_) => out.run_out(),
    }
}

/// Gives a turn to a dialogue.
fn give(alloc: Global, row: &mut Row, turns: &mut Vec<Named>, name: &str, out: &mut Answer) {
    let name = name_of(name, out);
    let Some(done) = find_served(alloc, turns, name, out) else {
        return;
    };
    let count = done.served();
    match row.give(done) {
        Ok(requested) => {
            push_served_count(out, count);
            push_requested(out, &requested)
        }
        Err(done) => {
            keep(turns, name, Held::Done(done));
            out.text("strange")
        }
    }
}

/// Puts a turn back.
fn put_back(row: &mut Row, turns: &mut Vec<Named>, name: &str, out: &mut Answer) {
    let name = name_of(name, out);
    match find(turns, name, out) {
        Some(Held::Turn(turn)) => match row.put_back(turn) {
            Ok(()) => out.text("back"),
            Err(turn) => {
                keep(turns, name, Held::Turn(turn));
                out.text("strange");
            }
        },
        Some(held) => {
            keep(turns, name, held);
            out.text("strange");
        }
        None => {}
    }
}

/// Serves and gives a turn of a dialogue, and counts what it comes to.
fn serve_turn(alloc: Global, row: &mut Row, turn: Turn, tally: &mut Tally, out: &mut Answer) {
    let Some(done) = served(alloc, turn, out) else {
        return;
    };
    let count = done.served();
    match row.give(done) {
        Ok(requested) => tally.count(count, requested),
        Err(done) => {
            done.abandon();
            out.fail("a turn came back");
        }
    }
}

/// Takes, serves and gives the next turn of a dialogue, and counts what it comes to. `false`: there is no turn.
fn serve_next(alloc: Global, row: &mut Row, tally: &mut Tally, out: &mut Answer) -> bool {
    match row.take(alloc, ALL_PLACES) {
        Ok(Some(turn)) => {
            serve_turn(alloc, row, turn, tally, out);
            true
        }
        Ok(None) => false,
        Err(_) => {
            out.run_out();
            false
        }
    }
}

impl Tally {
    /// Counts one more turn, how many of its entries were served, and what became of their requests.
    fn count(&mut self, served: usize, requested: Requested) {
        self.turns = self.turns.saturating_add(1);
        self.served = self.served.saturating_add(served);
        if let Requested::Frames(frames) = &requested {
            self.frames = self.frames.saturating_add(frames.len());
            self.last = requested;
        }
    }
}

/// Takes and gives the turns of a dialogue one after the other, at most a thousand.
fn serve_each(alloc: Global, row: &mut Row, tally: &mut Tally, out: &mut Answer) {
    for _ in 0..1000 {
        if !serve_next(alloc, row, tally, out) {
            return;
        }
    }
}

/// Writes the last of the frames that are to be sent.
fn push_last(out: &mut Answer, requested: &Requested) {
    let last = match requested {
        Requested::Frames(frames) => frames.as_slice().last(),
        Requested::Nothing | Requested::Dropped(_) => None,
    };
    let Some(frame) = last else {
        return out.text("no frame");
    };
    out.text("frame ");
    out.octets(frame.octets())
}

/// Takes and gives the turns of a dialogue one after the other.
fn each(alloc: Global, row: &mut Row, out: &mut Answer) {
    let mut tally = Tally {
        turns: 0,
        served: 0,
        frames: 0,
        last: Requested::Nothing,
    };
    serve_each(alloc, row, &mut tally, out);
    out.value(tally.turns);
    out.labeled(" turns, ", tally.served);
    out.labeled(" served, ", tally.frames);
    out.text(" frames, ");
    push_last(out, &tally.last)
}

/// Those of three words that hold of a dialogue.
fn words_of(row: &Row) -> &'static str {
    match (row.is_admitted(), row.is_ready(), row.is_held()) {
        (true, true, true) => "admitted ready held",
        (true, false, true) => "admitted held",
        (false, true, true) => "ready held",
        (false, false, true) => "held",
        (false, false, false) => "gone",
        _ => "not held, and not gone",
    }
}

/// Writes what a dialogue is.
fn push_state(out: &mut Answer, row: &Row) {
    out.text(words_of(row));
    out.labeled(", ", row.places_taken());
    out.text(" places, ");
    match row.deadline() {
        Some(deadline) => out.labeled("due ", deadline.saturating_sub(NOON)),
        None => out.text("no deadline"),
    }
}

/// A dialogue is given a Clock.
fn clock(row: &mut Row, moment: Moment, out: &mut Answer) {
    match row.accept_clock(moment) {
        Ok(is_due) => out.either(is_due, "due", "not due"),
        Err(_) => out.run_out(),
    }
}

/// One more frame of a dialogue was sent.
fn sent(row: &mut Row, out: &mut Answer) {
    out.either(row.sent(), "sent", "none")
}

/// A dialogue is ended, while a frame of it is being sent if a text says more than who ends it.
fn end(row: &mut Row, text: &str, out: &mut Answer) {
    let (ending, sending) = first_word(text);
    row.end(ending_of(ending, out), !sending.is_empty());
    out.text("ended")
}

impl Scene<'_> {
    /// Opens a dialogue.
    fn open(&mut self, text: &str, out: &mut Answer) {
        let (local, rest) = first_word(text);
        let (peer, birth) = first_word(rest);
        let local = identifier_of(local, out);
        let peer = peer_of(peer, out);
        let row = Row::open(self.alloc, local, peer, number_of(birth, out), self.moment);
        self.place = self.rows.len();
        out.push(&mut self.rows, row);
        out.text("opened")
    }

    /// Goes to a dialogue, and writes which it is.
    fn go(&mut self, number: &str, out: &mut Answer) {
        let number: usize = number_of(number, out);
        self.place = number.saturating_sub(1);
        match self.rows.get(self.place) {
            Some(row) => push_dialogue(out, row.local(), row.peer(), row.birth()),
            None => out.fail("no dialogue"),
        }
    }

    /// It is this number of milliseconds after noon now.
    fn wait(&mut self, milliseconds: &str, out: &mut Answer) {
        let milliseconds: u32 = number_of(milliseconds, out);
        self.moment = moment_after(milliseconds);
        out.value(milliseconds);
    }

    /// Spends the turns that are out.
    fn abandon(self) {
        let Scene {
            alloc: _,
            table: _,
            rows: _,
            place: _,
            moment: _,
            turns,
        } = self;
        abandon_all(turns);
    }

    /// A step about a dialogue.
    fn row_step(&mut self, verb: &str, rest: &str, out: &mut Answer) {
        let (alloc, moment) = (self.alloc, self.moment);
        let Some(row) = self.rows.get_mut(self.place) else {
            return out.fail("no dialogue");
        };
        match verb {
            "post" => post(alloc, self.table, moment, row, rest, out),
            "state" => push_state(out, row),
            "each" => each(alloc, row, out),
            "take" => take(alloc, row, &mut self.turns, rest, out),
            "serve-next" => serve_in_place(alloc, row, rest, out),
            "give" => give(alloc, row, &mut self.turns, rest, out),
            "put-back" => put_back(row, &mut self.turns, rest, out),
            "clock" => clock(row, moment, out),
            "sent" => sent(row, out),
            "end" => end(row, rest, out),
            _ => out.fail("no such step"),
        }
    }
}

impl Steps for Scene<'_> {
    fn step(&mut self, step: &str, out: &mut Answer) {
        let (verb, rest) = first_word(step);
        match verb {
            "row" => self.open(rest, out),
            "to" => self.go(rest, out),
            "at" => self.wait(rest, out),
            "show" => show(self.turns.as_slice(), rest, out),
            "serve" => serve(self.alloc, &mut self.turns, rest, out),
            "abandon" => abandon(&mut self.turns, rest, out),
            _ => self.row_step(verb, rest, out),
        }
    }
}

/// Writes what the steps of a case answer.
pub(crate) fn answer(alloc: Global, table: &Table, script: &str, out: &mut Answer) {
    let moment = moment_after(0);
    let mut scene = Scene {
        alloc,
        table,
        rows: Vec::new(alloc),
        place: 0,
        moment,
        turns: Vec::new(alloc),
    };
    play(&mut scene, script, out);
    scene.abandon();
}
