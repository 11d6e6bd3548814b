//! The calls for parcels.
//!
//! | Call | Its answer |
//! |---|---|
//! | `send`, `unsend` | the next parcel is picked, and reported `sent` or `unsent`; a pick between them finds it |
//! | | out. Or why there is none: `nothing` or `busy` |
//! | `send-late MS`, `unsend-late MS` | the next parcel is picked, and reported MS milliseconds later |
//! | `await-and-send MS` | the next parcel is awaited, and reported MS milliseconds later: `sent`, or `down` |
//! | `pick` | the next parcel is picked, and stays at hand: `picked`, or why there is none |
//! | `in-hold` | the parcel at hand is reported in the hold that picks the next one: `sent`, and why none was picked |
//! | `report` | the parcel at hand is reported: `sent` |
//! | step `next` | nothing: the next parcel is picked; or why there is none |
//! | step `look` | nothing: a pick finds no parcel |
//! | step `await` | nothing: the next parcel is awaited; or `down` |
//! | step `unsent` | the parcel at hand is reported: `unsent` |

use super::held::{Held, keep};
use super::link::link_step;
use super::words::{choose, say};
use fp_book::{Parcel, Picked};
use fp_hub::{Hub, Next, Seat, SentAndNext};
use std::rt::Clock;
use std::sync::Wait;
use std::sync::ledger::Ledger;

/// Makes a step for parcels, or one of another module.
pub(super) fn parcel_step<R: Wait + Clock, A: Ledger, B: Ledger, C: Ledger>(
    rt: &R,
    hub: &Hub<A, B, C>,
    seat: &mut Seat<A, B, C>,
    held: &mut Held<'_>,
    name: &str,
    rest: &str,
) -> &'static str {
    match name {
        "pick" => picked_word(hub.pick(rt), &mut held.parcel, "picked"),
        "next" => picked_word(hub.pick(rt), &mut held.parcel, ""),
        "await" => awaited_word(hub.await_parcel(rt), &mut held.parcel),
        "look" => look_word(hub.pick(rt)),
        "report" => report(rt, hub, seat, held.parcel.take()),
        "unsent" => unsend(rt, hub, held.parcel.take()),
        "in-hold" => {
            let parcel = held.parcel.take();
            report_in_hold(rt, hub, seat, parcel, &mut held.parcel, &mut held.words)
        }
        _ => link_step(rt, hub, held, name, rest),
    }
}

/// Keeps a parcel that was picked there: this word, or why there is none.
fn picked_word(picked: Picked, place: &mut Option<Parcel>, word: &'static str) -> &'static str {
    match picked {
        Picked::Parcel(parcel) => {
            keep(place, parcel);
            word
        }
        Picked::Busy => "busy",
        Picked::Nothing => "nothing",
    }
}

/// Nothing, if no parcel was picked, since another one was out.
fn look_word(picked: Picked) -> &'static str {
    match picked {
        Picked::Parcel(other) => {
            other.abandon();
            "another"
        }
        Picked::Busy | Picked::Nothing => "",
    }
}

/// Keeps a parcel that was awaited there: nothing, or that there is none.
fn awaited_word(awaited: Option<Parcel>, place: &mut Option<Parcel>) -> &'static str {
    match awaited {
        Some(parcel) => {
            keep(place, parcel);
            ""
        }
        None => "down",
    }
}

/// The word for what became of a parcel: this one, if it was taken back.
fn reported_word(reported: Result<(), Parcel>, word: &'static str) -> &'static str {
    match reported {
        Ok(()) => word,
        Err(foreign) => {
            foreign.abandon();
            "foreign"
        }
    }
}

/// Reports a parcel sent.
pub(super) fn report<R: Wait, A: Ledger, B: Ledger, C: Ledger>(
    rt: &R,
    hub: &Hub<A, B, C>,
    seat: &mut Seat<A, B, C>,
    parcel: Option<Parcel>,
) -> &'static str {
    match parcel {
        Some(parcel) => reported_word(hub.sent(rt, seat, parcel), "sent"),
        None => "no parcel",
    }
}

/// Reports a parcel unsent.
pub(super) fn unsend<R: Wait, A: Ledger, B: Ledger, C: Ledger>(
    rt: &R,
    hub: &Hub<A, B, C>,
    parcel: Option<Parcel>,
) -> &'static str {
    match parcel {
        Some(parcel) => reported_word(hub.unsent(rt, parcel), "unsent"),
        None => "no parcel",
    }
}

/// Keeps the next parcel there: nothing, or why there is none.
fn next_word(next: Next, place: &mut Option<Parcel>) -> &'static str {
    match next {
        Next::Parcel(parcel) => {
            keep(place, parcel);
            ""
        }
        Next::Nothing => "nothing",
        Next::Down => "down",
    }
}

/// Reports a parcel sent, and says so, in the hold that picks the next one, which is kept there: why there is none.
pub(super) fn report_in_hold<R: Wait, A: Ledger, B: Ledger, C: Ledger>(
    rt: &R,
    hub: &Hub<A, B, C>,
    seat: &mut Seat<A, B, C>,
    parcel: Option<Parcel>,
    place: &mut Option<Parcel>,
    words: &mut String,
) -> &'static str {
    match parcel {
        Some(parcel) => {
            let SentAndNext { sent, next } = hub.reports(rt).sent_and_next(seat, parcel);
            say(words, reported_word(sent, "sent"));
            next_word(next, place)
        }
        None => "no parcel",
    }
}
