//! The calls for turns, several in one hold, or served in their places.
//!
//! | Call | Its answer |
//! |---|---|
//! | `share WORKERS MOST` | the turns at hand are given back, and at most MOST are taken as one of WORKERS workers: |
//! | | how many were, how many are still ready, whether a frame was queued, and why no more were taken |
//! | `give-in-share` | one turn is taken, served and given in such holds: `given`; or why none was taken |
//! | `give-closed-in-share MESSAGE` | one turn is taken, a message closes its dialogue, and the turn is served and |
//! | | given: `given`, if no frame was queued |
//! | `put-back-closed-in-share MESSAGE` | the same, and the turn is put back: `back` |
//! | `help MOST` | at most MOST turns are served by who helps: whether a frame was queued |
//! | `serve-in-place MOST` | at most MOST turns are served in their places: how many are still ready, whether a |
//! | | frame was queued, and why no more were served |
//! | `serve-one-in-place` | one turn is served in its place: `served` |
//! | step `take-one` | nothing: one turn is taken in a hold, and is at hand then, alone; or why none is |
//! | step `take-share` | nothing: the turns at hand are given back, and others taken; or why there is none |
//! | step `return` | nothing: the turns at hand are given back |
//! | step `silent` | nothing: the same, if no frame was queued, and else `queued` |
//! | steps `given`, `back` | these words |
//! | step `hold-in-place` | nothing: as many turns are served as in one hold; or why there is none left |

use super::held::{Held, MOST_TURNS};
use super::parcels::parcel_step;
use super::words::{choose, number, number_word, say};
use cases::first_word;
use fp_hub::{Hub, OpenGate, Seat, Stopped, Work, Worked};
use std::collections::VecDeque;
use std::rt::Clock;
use std::sync::Wait;
use std::sync::ledger::Ledger;

/// The word for why no more turns were taken, or served in their places, or this word if there were enough.
fn stop_word(stopped: Stopped, enough: &'static str) -> &'static str {
    match stopped {
        Stopped::Enough => enough,
        Stopped::Nothing => "nothing",
        Stopped::NoRoom => "no room",
        Stopped::Memory => "no memory",
    }
}

/// The word for whether a frame was queued.
fn queue_word(is_queued: bool) -> &'static str {
    choose(is_queued, "queued", "silent")
}

/// Says how many dialogues are still ready, and whether a frame was queued: why no more turns were taken.
fn say_worked(words: &mut String, worked: Worked) -> &'static str {
    say(words, number_word(worked.ready_count));
    say(words, queue_word(worked.is_queued));
    stop_word(worked.stopped, "enough")
}

/// Makes a step for turns, several in one hold, or in their places, or one of another module.
pub(super) fn share_step<R: Wait + Clock, A: Ledger, B: Ledger, C: Ledger>(
    rt: &R,
    hub: &Hub<A, B, C>,
    seat: &mut Seat<A, B, C>,
    held: &mut Held<'_>,
    name: &str,
    rest: &str,
) -> &'static str {
    let most = match name {
        "take-one" if !held.work.is_empty() => return "turns at hand",
        "take-one" => 1,
        "take-share" => MOST_TURNS,
        "silent" | "return" => 0,
        _ => return place_step(rt, hub, seat, held, name, rest),
    };
    let worked = hub.give_and_take(rt, seat, &mut held.work, 1, most);
    hold_word(name, worked, held.work.is_empty())
}

/// The word of a step that gives back turns and takes others in a hold, after which these are at hand or none is.
fn hold_word(name: &str, worked: Worked, is_none: bool) -> &'static str {
    match name {
        "take-one" | "take-share" if is_none => stop_word(worked.stopped, "enough"),
        "silent" => choose(worked.is_queued, "queued", ""),
        _ => "",
    }
}

/// Makes a step for turns in their places, or one of another module.
fn place_step<R: Wait + Clock, A: Ledger, B: Ledger, C: Ledger>(
    rt: &R,
    hub: &Hub<A, B, C>,
    seat: &mut Seat<A, B, C>,
    held: &mut Held<'_>,
    name: &str,
    rest: &str,
) -> &'static str {
    let most = match name {
        "serve-in-place" => number(rest),
        "serve-one-in-place" => 1,
        "hold-in-place" => MOST_TURNS,
        _ => return other_step(rt, hub, seat, held, name, rest),
    };
    place_word(name, hub.serve_front(rt, seat, most), &mut held.words)
}

/// The word of a step that serves turns in their places.
fn place_word(name: &str, worked: Worked, words: &mut String) -> &'static str {
    match name {
        "serve-in-place" => say_worked(words, worked),
        "serve-one-in-place" => stop_word(worked.stopped, "served"),
        _ => stop_word(worked.stopped, ""),
    }
}

/// Makes a share, helps, says a word, or makes a step of another module.
fn other_step<R: Wait + Clock, A: Ledger, B: Ledger, C: Ledger>(
    rt: &R,
    hub: &Hub<A, B, C>,
    seat: &mut Seat<A, B, C>,
    held: &mut Held<'_>,
    name: &str,
    rest: &str,
) -> &'static str {
    match name {
        "share" => share(rt, hub, seat, &mut held.work, &mut held.words, rest),
        "help" => queue_word(hub.help(rt, &OpenGate, seat, number(rest))),
        "given" => "given",
        "back" => "back",
        _ => parcel_step(rt, hub, seat, held, name, rest),
    }
}

/// Gives back the turns of a list, and takes others, as these two numbers say. Says how many: why no more were taken.
pub(super) fn share<R: Wait, A: Ledger, B: Ledger, C: Ledger>(
    rt: &R,
    hub: &Hub<A, B, C>,
    seat: &mut Seat<A, B, C>,
    work: &mut VecDeque<Work>,
    words: &mut String,
    numbers: &str,
) -> &'static str {
    let (workers, most) = first_word(numbers);
    let worked = hub.give_and_take(rt, seat, work, number(workers), number(most));
    say(words, number_word(work.len()));
    say_worked(words, worked)
}
