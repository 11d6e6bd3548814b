//! What waits to be sent on a link, and what is being sent.
//!
//! A case has two outboxes, begins at the first one, and picks parcels of the link 0 until it says another link. The
//! parcels that it picks have names of one letter, whichever outbox and link they are of. The frame of a dialogue is
//! the Abort of the user that ends it after it accepted no message for 300,000 ms: it has the identifier of the peer,
//! and not the local one.
//!
//! | Step | What it answers |
//! |---|---|
//! | `to N` | the steps after it are about the N-th outbox, 1 or 2: the same number |
//! | `link N` | the steps after it pick parcels of the link N, 0 to 7, and take such parcels back: the same number |
//! | `abort PEER CAUSE` | an Abort of the provider for this cause is added: `waits`, or `full` |
//! | `aborts COUNT` | COUNT of the same cause are added, for the peers 00000001, 00000002 ..: `waits`, or `full` |
//! | `frame LOCAL PEER` | the frame of a dialogue of these identifiers is added: `waits`, or `full` |
//! | `frames COUNT` | COUNT frames are added, the identifiers of each 00000001, 00000002 ..: `waits`, or `full` |
//! | `held` | how many places for frames are held |
//! | `sending LOCAL` | whether a frame of this dialogue is being sent: `sending`, or `not sending` |
//! | `drop LOCAL` | the frames of this dialogue that wait are dropped: how many places are held then |
//! | `clear` | all that waits is dropped: how many places are held then |
//! | `pick NAME` | what is sent next: its local identifier and its octets, `busy`, or `nothing` |
//! | `dialogue NAME` | the local identifier of the dialogue whose frame the parcel is, or `none` |
//! | `take-back NAME` | the parcel is taken back: `taken`, or `strange`, and then it keeps its name |
//! | `abandon NAME` | the parcel is never taken back: `abandoned` |

use crate::held::{Held, Named, abandon, abandon_all, find_parcel, keep, push_parcel, served};
use crate::texts::{moment_after, name_of, peer_of, push_local};
use cases::{Answer, Steps, first_word, identifier_of, number_of, play};
use fp_book::{Outbox, Picked};
use fp_q773::{AbortCause, Tid};
use fp_reply::abort_frame;
use fp_row::{RequestFrames, Requested, Row, Turn};
use std::alloc::{AllocError, Global};

/// How long a dialogue waits for a message, in milliseconds.
const PATIENCE: u32 = 300_000;

/// The outboxes of a case, and its parcels that are out. It must be spent.
#[must_use]
struct Desk {
    alloc: Global,
    outboxes: Vec<Outbox>,
    // The place of the outbox that a step is about.
    place: usize,
    // The link that its parcels are of.
    link: u8,
    parcels: Vec<Named>,
}

/// The cause of an Abort.
fn cause_of(text: &str, out: &mut Answer) -> AbortCause {
    match text {
        "UnrecognizedMessageType" => AbortCause::UnrecognizedMessageType,
        "UnrecognizedTransactionIdentifier" => AbortCause::UnrecognizedTransactionIdentifier,
        "BadlyFormattedTransactionPortion" => AbortCause::BadlyFormattedTransactionPortion,
        "ResourceLimitation" => AbortCause::ResourceLimitation,
        _ => {
            out.fail("no such cause");
            AbortCause::ResourceLimitation
        }
    }
}

/// The turn of a dialogue at its deadline.
fn turn_of_row(alloc: Global, row: &mut Row) -> Result<Option<Turn>, AllocError> {
    row.accept_clock(moment_after(PATIENCE))?;
    row.take(alloc, 1)
}

/// The frames that a dialogue requests at its deadline. `None` if memory runs out, which is a fault of the answer.
fn frames_of_row(alloc: Global, row: &mut Row, out: &mut Answer) -> Option<RequestFrames> {
    let Ok(Some(turn)) = turn_of_row(alloc, row) else {
        out.fail("no turn, or out of memory");
        return None;
    };
    match row.give(served(alloc, turn, out)?) {
        Ok(Requested::Frames(frames)) => Some(frames),
        Ok(_) => {
            out.fail("no frame");
            None
        }
        Err(done) => {
            done.abandon();
            out.fail("strange turn");
            None
        }
    }
}

/// Adds frames, and returns whether there was a place.
fn add(outbox: &mut Outbox, local: u32, frames: RequestFrames) -> bool {
    if outbox.frames_held().saturating_add(frames.len()) > Outbox::MOST_FRAMES {
        return false;
    }
    outbox.add_frames(local, u64::from(local), frames);
    true
}

/// Adds the frame of a dialogue of these identifiers that accepted no message, and says whether there was a place. The
/// birth of the dialogue is its local identifier.
fn add_frame(alloc: Global, outbox: &mut Outbox, local: u32, peer: Tid, out: &mut Answer) -> bool {
    let mut row = Row::open(alloc, local, peer, u64::from(local), moment_after(0));
    match frames_of_row(alloc, &mut row, out) {
        Some(frames) => add(outbox, local, frames),
        None => false,
    }
}

/// Adds COUNT frames, and says whether there was a place for the last one.
fn add_frames(alloc: Global, outbox: &mut Outbox, count: u32, out: &mut Answer) -> bool {
    let mut fits = true;
    for number in 1..=count {
        fits = add_frame(alloc, outbox, number, Tid::of_number(number), out);
    }
    fits
}

/// Adds COUNT Aborts of the provider, and says whether there was a place for the last one.
fn add_aborts(outbox: &mut Outbox, count: u32) -> bool {
    let mut fits = true;
    for number in 1..=count {
        let peer = Tid::of_number(number);
        fits = outbox.add_abort(abort_frame(peer, AbortCause::ResourceLimitation));
    }
    fits
}

/// Writes whether there was a place.
fn push_fits(out: &mut Answer, fits: bool) {
    out.either(fits, "waits", "full")
}

/// Adds an Abort.
fn abort(outbox: &mut Outbox, text: &str, out: &mut Answer) {
    let (peer, cause) = first_word(text);
    let peer = peer_of(peer, out);
    let cause = cause_of(cause, out);
    push_fits(out, outbox.add_abort(abort_frame(peer, cause)))
}

/// Adds Aborts.
fn aborts(outbox: &mut Outbox, count: &str, out: &mut Answer) {
    let count: u32 = number_of(count, out);
    push_fits(out, add_aborts(outbox, count))
}

/// Adds a frame.
fn frame(alloc: Global, outbox: &mut Outbox, text: &str, out: &mut Answer) {
    let (local, peer) = first_word(text);
    let local = identifier_of(local, out);
    let peer = peer_of(peer, out);
    let fits = add_frame(alloc, outbox, local, peer, out);
    push_fits(out, fits);
}

/// Adds frames.
fn frames(alloc: Global, outbox: &mut Outbox, count: &str, out: &mut Answer) {
    let count: u32 = number_of(count, out);
    let fits = add_frames(alloc, outbox, count, out);
    push_fits(out, fits);
}

/// Picks what is sent next, and keeps it.
fn pick(outbox: &mut Outbox, link: u8, parcels: &mut Vec<Named>, name: &str, out: &mut Answer) {
    let name = name_of(name, out);
    match outbox.pick(link) {
        Picked::Busy => out.text("busy"),
        Picked::Nothing => out.text("nothing"),
        Picked::Parcel(parcel) => {
            push_parcel(out, &parcel);
            keep(parcels, name, Held::Parcel(parcel));
        }
    }
}

/// Takes a parcel back.
fn take_back(
    outbox: &mut Outbox,
    link: u8,
    parcels: &mut Vec<Named>,
    name: &str,
    out: &mut Answer,
) {
    let name = name_of(name, out);
    let Some(parcel) = find_parcel(parcels, name, out) else {
        return;
    };
    match outbox.take_back(link, parcel) {
        Ok(()) => out.text("taken"),
        Err(parcel) => {
            keep(parcels, name, Held::Parcel(parcel));
            out.text("strange")
        }
    }
}

/// Writes of which dialogue a parcel is.
fn push_owner(parcels: &mut Vec<Named>, name: &str, out: &mut Answer) {
    let name = name_of(name, out);
    if let Some(parcel) = find_parcel(parcels, name, out) {
        push_local(out, parcel.dialogue());
        keep(parcels, name, Held::Parcel(parcel));
    }
}

/// Writes whether a frame of a dialogue is being sent.
fn push_sending(outbox: &Outbox, local: &str, out: &mut Answer) {
    let is_sending = outbox.is_sending(identifier_of(local, out));
    out.either(is_sending, "sending", "not sending")
}

/// Writes how many places for frames are held.
fn push_held(outbox: &Outbox, out: &mut Answer) {
    out.value(outbox.frames_held());
}

/// Drops the frames of a dialogue that wait.
fn drop_frames(outbox: &mut Outbox, local: &str, out: &mut Answer) {
    outbox.drop_frames(identifier_of(local, out));
    push_held(outbox, out)
}

/// Drops all that waits.
fn clear(outbox: &mut Outbox, out: &mut Answer) {
    outbox.clear();
    push_held(outbox, out)
}

/// A step about an outbox alone.
fn own_step(alloc: Global, outbox: &mut Outbox, verb: &str, rest: &str, out: &mut Answer) {
    match verb {
        "abort" => abort(outbox, rest, out),
        "aborts" => aborts(outbox, rest, out),
        "frame" => frame(alloc, outbox, rest, out),
        "frames" => frames(alloc, outbox, rest, out),
        "sending" => push_sending(outbox, rest, out),
        "drop" => drop_frames(outbox, rest, out),
        "clear" => clear(outbox, out),
        "held" => push_held(outbox, out),
        _ => out.fail("no such step"),
    }
}

impl Desk {
    /// A step about an outbox.
    fn outbox_step(&mut self, verb: &str, rest: &str, out: &mut Answer) {
        let (alloc, link) = (self.alloc, self.link);
        let Some(outbox) = self.outboxes.get_mut(self.place) else {
            return out.fail("no outbox");
        };
        let parcels = &mut self.parcels;
        match verb {
            "pick" => pick(outbox, link, parcels, rest, out),
            "take-back" => take_back(outbox, link, parcels, rest, out),
            "dialogue" => push_owner(parcels, rest, out),
            "abandon" => abandon(parcels, rest, out),
            _ => own_step(alloc, outbox, verb, rest, out),
        }
    }

    /// Goes to an outbox.
    fn go(&mut self, number: &str, out: &mut Answer) {
        let number: usize = number_of(number, out);
        self.place = number.saturating_sub(1);
        out.value(number);
    }

    /// Parcels are of this link from now on.
    fn change_link(&mut self, number: &str, out: &mut Answer) {
        self.link = number_of(number, out);
        out.value(self.link);
    }

    /// Spends the parcels that are out.
    fn abandon(self) {
        let Desk {
            alloc: _,
            outboxes: _,
            place: _,
            link: _,
            parcels,
        } = self;
        abandon_all(parcels);
    }
}

impl Steps for Desk {
    fn step(&mut self, step: &str, out: &mut Answer) {
        let (verb, rest) = first_word(step);
        match verb {
            "to" => self.go(rest, out),
            "link" => self.change_link(rest, out),
            _ => self.outbox_step(verb, rest, out),
        }
    }
}

/// One more outbox.
fn add_outbox(alloc: Global, outboxes: &mut Vec<Outbox>, out: &mut Answer) {
    match Outbox::new(alloc) {
        Ok(outbox) => out.push(outboxes, outbox),
        Err(_) => out.run_out(),
    }
}

/// Writes what the steps of a case answer.
pub(crate) fn answer(alloc: Global, script: &str, out: &mut Answer) {
    let mut desk = Desk {
        alloc,
        outboxes: Vec::new(alloc),
        place: 0,
        link: 0,
        parcels: Vec::new(alloc),
    };
    add_outbox(alloc, &mut desk.outboxes, out);
    add_outbox(alloc, &mut desk.outboxes, out);
    play(&mut desk, script, out);
    desk.abandon();
}
