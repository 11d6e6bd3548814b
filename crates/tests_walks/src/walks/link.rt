//! The calls for the link and its workers.
//!
//! | Call | Its answer |
//! |---|---|
//! | `tick MS` | how many dialogues are given a Clock MS milliseconds after noon: `none due` or `one due` |
//! | `state` | whether the link is `up` or `down` |
//! | `rest MS` | whether the thread `rested` for MS milliseconds, or was `woken` |
//! | `quiet MS` | whether the link is `quiet` within MS milliseconds, or `not quiet` |
//! | `sleep SLEEP` | how a sleep ended that no other call ends |
//! | `down`, `close`, `tell`, `pause MS` | nothing: takes the link down, closes the hub, tells the sending thread, |
//! | | goes on MS milliseconds later |
//! | `after-no-room` | nothing: hints to a worker if there was no place for a frame |
//! | `hints COUNT` | nothing: COUNT workers listen |
//! | `hint` | whether a worker was hinted: `hint` or `no hint` |
//! | `hinted WORKER` | whether the worker of this number, from 0, was `hinted`, or the hub is `closed` |

use super::held::Held;
use super::lines::line_step;
use super::sleeping::sleep_for;
use super::words::{choose, milliseconds, number};
use fp_book::Ticked;
use fp_digits::Moment;
use fp_hub::{Hints, Hub};
use std::rt::Clock;
use std::sync::Wait;
use std::sync::ledger::Ledger;
use std::thread;
use std::time::{Duration, Instant};
use tests_hub::messages::NOON;

/// Makes a step for the link or its workers, or one of another module.
pub(super) fn link_step<R: Wait + Clock, A: Ledger, B: Ledger, C: Ledger>(
    rt: &R,
    hub: &Hub<A, B, C>,
    held: &mut Held<'_>,
    name: &str,
    rest: &str,
) -> &'static str {
    match name {
        "tick" => tick(rt, hub, milliseconds(rest)),
        "state" => choose(hub.is_down(rt), "down", "up"),
        "rest" => rest_for(rt, hub, Duration::from_millis(milliseconds(rest))),
        "quiet" => choose(
            hub.await_quiet(rt, Duration::from_millis(milliseconds(rest))),
            "quiet",
            "not quiet",
        ),
        "sleep" => sleep_for(rt, held.alloc, hub, held.table, rest),
        "hint" => choose(hub.hint(rt), "hint", "no hint"),
        "hints" => take_hints(hub, &mut held.hints, number(rest)),
        "hinted" => await_hint(rt, held.hints.as_slice(), number(rest)),
        _ => silent_step(rt, hub, held, name, rest),
    }
}

/// Makes a step that answers nothing, or one of another module.
fn silent_step<R: Wait + Clock, A: Ledger, B: Ledger, C: Ledger>(
    rt: &R,
    hub: &Hub<A, B, C>,
    held: &mut Held<'_>,
    name: &str,
    rest: &str,
) -> &'static str {
    match name {
        "down" => hub.down(rt),
        "close" => hub.close(rt),
        "tell" => hub.tell_sender(),
        "pause" => thread::sleep(rt, Duration::from_millis(milliseconds(rest))),
        "after-no-room" => hub.hint_after_no_room(rt),
        _ => return line_step(rt, held.alloc, hub, &mut held.words, name, rest),
    }
    ""
}

/// The word for how many dialogues were due.
fn due_word(ticked: Ticked) -> &'static str {
    let added = choose(ticked.added == 1, "one due", "else");
    let due = choose(ticked.added == 0, "none due", added);
    choose(ticked.wanting == 0, due, "else")
}

/// Gives a Clock to each dialogue that is due this number of milliseconds after noon.
fn tick<R: Wait, A: Ledger, B: Ledger, C: Ledger>(
    rt: &R,
    hub: &Hub<A, B, C>,
    milliseconds: u64,
) -> &'static str {
    match Moment::new(NOON.saturating_add(milliseconds)) {
        Some(moment) => due_word(hub.tick(rt, moment)),
        None => "no moment",
    }
}

/// Rests for this time at most.
fn rest_for<R: Wait + Clock, A: Ledger, B: Ledger, C: Ledger>(
    rt: &R,
    hub: &Hub<A, B, C>,
    time: Duration,
) -> &'static str {
    let Ok(start) = Instant::now(rt) else {
        return "no clock";
    };
    hub.rest(rt, time);
    match start.elapsed(rt) {
        Ok(spent) => choose(spent < time, "woken", "rested"),
        Err(_) => "no clock",
    }
}

/// Has this number of workers listen.
fn take_hints<A: Ledger, B: Ledger, C: Ledger>(
    hub: &Hub<A, B, C>,
    list: &mut Vec<Hints>,
    count: usize,
) -> &'static str {
    for _ in 0..count {
        match hub.hints() {
            Ok(hints) => {
                let _ = list.push(hints);
            }
            Err(_) => return "no hints",
        }
    }
    ""
}

/// Waits for a hint as the worker of this number.
fn await_hint<R: Wait>(rt: &R, list: &[Hints], worker: usize) -> &'static str {
    match list.get(worker) {
        Some(hints) => choose(hints.wait(rt), "hinted", "closed"),
        None => "no worker",
    }
}
