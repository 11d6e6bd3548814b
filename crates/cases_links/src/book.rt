//! The dialogues of a link: what its calls answer, what is sent, and what the log says.
//!
//! A case has one or more books, and begins at noon at the book of the link 0. The turns and the parcels that it has
//! out have names of one letter, whichever book they are of. A step about a turn or a parcel spends it, unless it comes
//! back, and then it keeps its name.
//!
//! What is answered is written as a log writes it. `O` and the local identifier: a dialogue was opened. `A` and a
//! number: this number of entries was accepted. `X` and a cause: an Abort of the provider waits to be sent. `E`: a
//! dialogue was ended, and nothing is sent. `D`: discarded. Of the requests of a turn: `Q` and a number if the frames
//! of this number wait to be sent, `S` if there is none, and `D` and a number if they aren't accepted.
//!
//! | Step | What it answers |
//! |---|---|
//! | `book LINK` | one more book, of this link; the steps after it are about it: `link LINK` |
//! | `book LINK/TAG` | the same in a run with this tag: `link LINK/TAG` |
//! | `to N` | the steps after it are about the N-th book, from 1: the same number |
//! | `at MS` | from now on it is MS milliseconds after noon: the same number |
//! | `post HEX` | a message is posted: `O`, `A`, `X`, `E` or `D` |
//! | `lost HEX` | a message is posted that wasn't read, since memory ran out: the same |
//! | `posts COUNT HEX` | a message is posted COUNT times, each a millisecond later, and it is then one later: the number, |
//! | | the first answer and the last; if one has another letter, the case is wrong |
//! | `tick` | how many dialogues are given a Clock, and how many are left since memory ran out |
//! | `take NAME` | the dialogue of the turn that is taken, the place of its first entry and how many it has, or `nothing`, |
//! | | or `no room` |
//! | `show NAME` | what the turn, or what was served, says of itself |
//! | `serve NAME` | the turn is served, and not given back: `served` |
//! | `give NAME` | the turn is served, if it wasn't, and given back: how many entries were served, and `S`, `Q` or `D`; or |
//! | | `strange` |
//! | `serve-next` | the next turn is served in its place: how many entries were served, and `S`, `Q` or `D`; or as `take` |
//! | `put-back NAME` | the turn is put back: `back`, or `strange` |
//! | `serve-all` | turns are taken and given until there is none: how many, how many entries were served, and how many |
//! | | frames then wait for them |
//! | `rounds COUNT HEX` | COUNT times a message is posted, which is accepted, and `serve-all`: all in all |
//! | `pick NAME` | the dialogue and the octets of what is sent next, or `busy`, or `nothing` |
//! | `sent NAME` | the parcel is reported sent: `sent`, or `strange` |
//! | `unsent NAME` | the parcel is reported unsent: `unsent`, or `strange` |
//! | `send-all` | parcels are picked and sent until there is none: how many, and the last one |
//! | `calls COUNT HEX` | COUNT times a message is posted, `serve-all` and `send-all`: the last answer |
//! | `abandon turn NAME` | the turn is never given back: `abandoned` |
//! | `abandon parcel NAME` | the parcel is never reported: `abandoned` |
//! | `down` | the link goes down: `down` |
//! | `is-down` | whether it is down: `yes` or `no` |
//! | `totals` | what was counted |
//! | `lines ROOM` | the oldest lines of the log, at most ROOM, with ` | ` between them, or `no line` |
//! | `drain ROOM` | the same: how many there are, the first and the last |

mod lines;
pub(crate) mod loops;
pub(crate) mod texts;
mod turns;

use crate::held::{Named, abandon, abandon_all, serve, show};
use crate::messages::{frame_of, prepared};
use crate::numbering::{LAST_TAG, LINKS, Numbering, numbering_of};
use crate::texts::moment_after;
use cases::{Answer, Steps, first_word, number_of, play};
use fp_book::{Book, Ticked};
use fp_entry::Prepared;
use fp_records::Table;
use std::alloc::Global;
use texts::{push_posted, push_totals};

/// The books of a case, and its turns and parcels that are out. It must be spent.
#[must_use]
struct Case<'a> {
    alloc: Global,
    table: &'a Table,
    books: Vec<Book>,
    // The place of the book that a step is about.
    place: usize,
    // The time, in milliseconds after noon.
    now: u32,
    turns: Vec<Named>,
    parcels: Vec<Named>,
}

/// What the steps about one book have in common: the records and the time.
#[derive(Clone, Copy)]
struct Scene<'a> {
    alloc: Global,
    table: &'a Table,
    now: u32,
}

/// Posts a message, and writes what becomes of it.
fn post(scene: Scene, book: &mut Book, message: &str, out: &mut Answer) {
    let Scene { alloc, table, now } = scene;
    if let Some(came) = prepared(alloc, table, moment_after(now), message, out) {
        push_posted(out, book.post(alloc, came));
    }
}

/// Posts a message that wasn't read, and writes what becomes of it.
fn lose(scene: Scene, book: &mut Book, message: &str, out: &mut Answer) {
    if let Some(frame) = frame_of(scene.alloc, message, out) {
        let came = Prepared::lost(frame, moment_after(scene.now));
        push_posted(out, book.post(scene.alloc, came));
    }
}

/// Time goes by, and writes how many dialogues are given a Clock, and how many are left.
fn tick(scene: Scene, book: &mut Book, out: &mut Answer) {
    let Ticked { added, wanting } = book.tick(moment_after(scene.now));
    out.value(added);
    out.labeled(" ", wanting);
}

/// Posts a message, which is accepted, and takes and gives turns until there is none, COUNT times.
fn rounds(scene: Scene, book: &mut Book, text: &str, out: &mut Answer) {
    let Scene { alloc, table, now } = scene;
    let (count, message) = first_word(text);
    let count: u32 = number_of(count, out);
    loops::rounds(alloc, table, book, now, count, message, out);
}

/// Posts a message, takes and gives turns and sends parcels until there is none, COUNT times.
fn calls(scene: Scene, book: &mut Book, text: &str, out: &mut Answer) {
    let Scene { alloc, table, now } = scene;
    let (count, message) = first_word(text);
    let count: u32 = number_of(count, out);
    loops::calls(alloc, table, book, now, count, message, out);
}

/// Takes and gives turns until there is none.
fn serve_all(alloc: Global, book: &mut Book, out: &mut Answer) {
    let mut served = loops::NONE;
    loops::serve_all(alloc, book, &mut served, out);
    loops::push_served(out, served)
}

/// The link goes down.
fn down(book: &mut Book, out: &mut Answer) {
    book.down();
    out.text("down")
}

/// A step about a book, without a turn or a parcel.
fn own_step(scene: Scene, book: &mut Book, verb: &str, rest: &str, out: &mut Answer) {
    match verb {
        "post" => post(scene, book, rest, out),
        "lost" => lose(scene, book, rest, out),
        "rounds" => rounds(scene, book, rest, out),
        "calls" => calls(scene, book, rest, out),
        "tick" => tick(scene, book, out),
        "serve-all" => serve_all(scene.alloc, book, out),
        "serve-next" => turns::serve_next(book, out),
        "send-all" => loops::send_all(scene.alloc, book, out),
        "totals" => push_totals(out, book.totals()),
        "lines" => lines::all(scene.alloc, book, rest, out),
        "drain" => lines::ends(scene.alloc, book, rest, out),
        "down" => down(book, out),
        "is-down" => out.either(book.is_down(), "yes", "no"),
        _ => out.fail("no such step"),
    }
}

impl Case<'_> {
    /// One more book, which is numbered so. The steps after it are about it.
    fn open(&mut self, numbering: Numbering, out: &mut Answer) {
        let Numbering { link, tag } = numbering;
        if link >= LINKS || tag > LAST_TAG {
            return out.fail("no link, or no tag");
        }
        self.place = self.books.len();
        match Book::with_tag(self.alloc, link, tag) {
            Ok(book) => out.push(&mut self.books, book),
            Err(_) => out.run_out(),
        }
    }

    /// One more book, of the link and the tag of a text.
    fn open_of(&mut self, text: &str, out: &mut Answer) {
        let numbering = numbering_of(text, out);
        self.open(numbering, out);
        out.labeled("link ", text);
    }

    /// Goes to a book.
    fn go(&mut self, number: &str, out: &mut Answer) {
        let number: usize = number_of(number, out);
        self.place = number.saturating_sub(1);
        out.value(number);
    }

    /// It is this number of milliseconds after noon now.
    fn wait(&mut self, milliseconds: &str, out: &mut Answer) {
        self.now = number_of(milliseconds, out);
        out.value(self.now);
    }

    /// A step about a turn or a parcel of a book.
    fn held_step(&mut self, verb: &str, name: &str, out: &mut Answer) {
        let Some(book) = self.books.get_mut(self.place) else {
            return out.fail("no book");
        };
        let (turns, parcels) = (&mut self.turns, &mut self.parcels);
        match verb {
            "take" => turns::take(book, turns, name, out),
            "give" => turns::give(self.alloc, book, turns, name, out),
            "put-back" => turns::put_back(book, turns, name, out),
            "pick" => turns::pick(book, parcels, name, out),
            "sent" => turns::report_sent(book, parcels, name, out),
            _ => turns::report_unsent(book, parcels, name, out),
        }
    }

    /// A step about a book.
    fn book_step(&mut self, verb: &str, rest: &str, out: &mut Answer) {
        let scene = Scene {
            alloc: self.alloc,
            table: self.table,
            now: self.now,
        };
        match self.books.get_mut(self.place) {
            Some(book) => own_step(scene, book, verb, rest, out),
            None => out.fail("no book"),
        }
    }

    /// Posts a message COUNT times, each a millisecond later.
    fn posts(&mut self, text: &str, out: &mut Answer) {
        let (count, message) = first_word(text);
        let count: u32 = number_of(count, out);
        let (alloc, table, now) = (self.alloc, self.table, self.now);
        let Some(book) = self.books.get_mut(self.place) else {
            return out.fail("no book");
        };
        loops::posts(alloc, table, book, now, count, message, out);
        self.now = now.saturating_add(count);
    }

    /// Abandons a turn or a parcel.
    fn give_up(&mut self, text: &str, out: &mut Answer) {
        let (what, name) = first_word(text);
        match what {
            "turn" => abandon(&mut self.turns, name, out),
            "parcel" => abandon(&mut self.parcels, name, out),
            _ => out.fail("no turn and no parcel"),
        }
    }

    /// Spends the turns and the parcels that are out.
    fn abandon(self) {
        let Case {
            alloc: _,
            table: _,
            books: _,
            place: _,
            now: _,
            turns,
            parcels,
        } = self;
        abandon_all(turns);
        abandon_all(parcels);
    }
}

impl Steps for Case<'_> {
    fn step(&mut self, step: &str, out: &mut Answer) {
        let (verb, rest) = first_word(step);
        match verb {
            "at" => self.wait(rest, out),
            "to" => self.go(rest, out),
            "book" => self.open_of(rest, out),
            "abandon" => self.give_up(rest, out),
            "take" | "give" | "put-back" | "pick" | "sent" | "unsent" => {
                self.held_step(verb, rest, out)
            }
            "show" => show(self.turns.as_slice(), rest, out),
            "serve" => serve(self.alloc, &mut self.turns, rest, out),
            "posts" => self.posts(rest, out),
            _ => self.book_step(verb, rest, out),
        }
    }
}

/// Writes what the steps of a case answer.
pub(crate) fn answer(alloc: Global, table: &Table, script: &str, out: &mut Answer) {
    let mut case = Case {
        alloc,
        table,
        books: Vec::new(alloc),
        place: 0,
        now: 0,
        turns: Vec::new(alloc),
        parcels: Vec::new(alloc),
    };
    case.open(Numbering { link: 0, tag: 0 }, out);
    play(&mut case, script, out);
    case.abandon();
}
