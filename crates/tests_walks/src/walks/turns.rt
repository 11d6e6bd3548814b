//! The calls for turns, one by one.
//!
//! | Call | Its answer |
//! |---|---|
//! | `turn PLACE` | the next turn, which has this place, is served and given: `silent`, `queued`, `all queued` or |
//! | | `dropped`; or why there is none |
//! | `put-back PLACE` | the next turn, which has this place, is put back: `back` |
//! | `give-closed MESSAGE` | the next turn is taken, a message closes its dialogue, and the turn is served and given |
//! | `put-back-closed MESSAGE` | the same, and the turn is put back |
//! | `serve` | nothing: the turns at hand are served |
//! | `worker` | nothing: a worker serves whose hub is closed when the first turn passes its gate |
//! | step `take PLACE` | nothing: the next turn, which has this place, is at hand then, alone; or why it isn't |
//! | step `take-first` | the same with place 0 |
//! | step `take-any` | nothing: the next turn is at hand then, after those that are; or why there is none |
//! | step `give` | the first turn at hand is given if it was served, and else put back, as by `turn` and `put-back` |
//! | step `give-one` | nothing: the same |

use super::held::{Held, put, serve_each};
use super::shares::share_step;
use super::words::{choose, say};
use fp_book::{Given, Taken};
use fp_hub::{Gate, Hub, Seat, Work};
use fp_row::{Done, Turn};
use std::alloc::Global;
use std::collections::VecDeque;
use std::rt::Clock;
use std::sync::Wait;
use std::sync::ledger::Ledger;

/// Any place of a turn.
const ANY: u64 = u64::MAX;

/// The place of no turn.
const NONE: u64 = u64::MAX - 1;

/// Makes a step for turns, one by one, or one of another module.
pub(super) fn turn_step<R: Wait + Clock, A: Ledger, B: Ledger, C: Ledger>(
    rt: &R,
    hub: &Hub<A, B, C>,
    seat: &mut Seat<A, B, C>,
    held: &mut Held<'_>,
    name: &str,
    rest: &str,
) -> &'static str {
    match name {
        "take" => {
            let place = rest.parse().unwrap_or(NONE);
            take_only(rt, hub, place, &mut held.work)
        }
        "take-first" => take_only(rt, hub, 0, &mut held.work),
        "take-any" => taken_word(hub.take(rt), ANY, &mut held.work),
        "serve" => {
            serve_each(held.alloc, &mut held.work);
            ""
        }
        "give" => give_first(rt, hub, seat, &mut held.work),
        "give-one" => {
            let _word = give_first(rt, hub, seat, &mut held.work);
            ""
        }
        _ => share_step(rt, hub, seat, held, name, rest),
    }
}

/// Takes the next turn and puts it into a list, if that is empty. Nothing, if the turn has this place, or why not.
fn take_only<R: Wait, A: Ledger, B: Ledger, C: Ledger>(
    rt: &R,
    hub: &Hub<A, B, C>,
    place: u64,
    work: &mut VecDeque<Work>,
) -> &'static str {
    if work.is_empty() {
        taken_word(hub.take(rt), place, work)
    } else {
        "turns at hand"
    }
}

/// Puts a turn that was taken at the end of a list. Nothing, if it has this place, or why not.
fn taken_word(taken: Taken, place: u64, work: &mut VecDeque<Work>) -> &'static str {
    match taken {
        Taken::Turn(turn) => {
            let is_there = place == ANY || turn.position() == place;
            put(work, Work::Unserved(turn));
            choose(is_there, "", "another place")
        }
        Taken::Nothing => "nothing",
        Taken::NoRoom => "no room",
        Taken::Memory => "no memory",
    }
}

/// The word for what became of a turn that was given.
fn given_word(given: Result<Given, Done>) -> &'static str {
    match given {
        Ok(Given::Silent) => "silent",
        Ok(Given::Queued(1)) => "queued",
        Ok(Given::Queued(_)) => "all queued",
        Ok(Given::Dropped(_)) => "dropped",
        Err(foreign) => {
            foreign.abandon();
            "foreign"
        }
    }
}

/// The word for what became of a turn that was put back.
fn back_word(back: Result<(), Turn>) -> &'static str {
    match back {
        Ok(()) => "back",
        Err(foreign) => {
            foreign.abandon();
            "foreign"
        }
    }
}

/// Gives the first turn of a list if it was served, and else puts it back. Nothing, if there is none.
pub(super) fn give_first<R: Wait, A: Ledger, B: Ledger, C: Ledger>(
    rt: &R,
    hub: &Hub<A, B, C>,
    seat: &mut Seat<A, B, C>,
    work: &mut VecDeque<Work>,
) -> &'static str {
    match work.pop_front() {
        Some(Work::Served(done)) => given_word(hub.give(rt, seat, done)),
        Some(Work::Unserved(turn)) => back_word(hub.put_back(rt, turn)),
        None => "",
    }
}

/// A gate that closes its hub.
#[derive(Drop)]
struct ClosingGate<'x, R, A: Ledger, B: Ledger, C: Ledger> {
    rt: &'x R,
    hub: &'x Hub<A, B, C>,
}

impl<R: Wait, A: Ledger, B: Ledger, C: Ledger> Gate for ClosingGate<'_, R, A, B, C> {
    fn pass(&self, _link: u8, _birth: u64, _position: u64) {
        self.hub.close(self.rt);
    }
}

/// Serves as a worker whose hub is closed when the first turn passes its gate, if a worker listens.
pub(super) fn work<R: Wait, A: Ledger, B: Ledger, C: Ledger>(
    rt: &R,
    alloc: Global,
    hub: &Hub<A, B, C>,
    seat: Seat<A, B, C>,
    held: &mut Held<'_>,
) -> Seat<A, B, C> {
    match held.hints.pop() {
        Some(hints) => hub.worker(rt, alloc, hints, &ClosingGate { rt, hub }, seat),
        None => {
            say(&mut held.words, "no hints");
            seat
        }
    }
}
