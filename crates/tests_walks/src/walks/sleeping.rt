//! A thread that sleeps for something while another one makes calls.
//!
//! | Sleep | Until when |
//! |---|---|
//! | `room MESSAGE` | the message isn't held back |
//! | `room-later MESSAGE` | the same, once the calls have begun |
//! | `room-within MS MESSAGE` | the same, for MS milliseconds at most |
//! | `quiet` | the link is quiet |
//! | `parcel` | there is something to be sent, which then isn't sent |
//!
//! It ends as `woken`, or `waited` if only a later look found it; as `in vain` if there was no room in time, and `too
//! soon` if that was said before the time was over.

use super::caller::call_each;
use super::held::Held;
use super::parcels::unsend;
use super::posting::has_room;
use super::words::{choose, milliseconds, say};
use cases::first_word;
use fp_entry::Prepared;
use fp_hub::{Hub, Seat};
use fp_records::Table;
use std::alloc::Global;
use std::rt::Clock;
use std::sync::Wait;
use std::sync::ledger::Ledger;
use std::thread::Threads;
use std::time::{Duration, Instant};
use std::{mem, thread};
use tests_hub::messages::{named, prepared};

/// How many milliseconds go by before the calls that wake a thread.
const PAUSE: u64 = 50;

/// A thread that sleeps fewer milliseconds than this was woken.
const WOKEN: u64 = 900;

/// More milliseconds than a thread sleeps before it looks again, if nobody wakes it.
const LATE: u64 = 1_100;

/// Sleeps until a message isn't held back. `false`: there is no message.
fn await_room<R: Wait + Clock, A: Ledger, B: Ledger, C: Ledger>(
    rt: &R,
    hub: &Hub<A, B, C>,
    came: &Option<Prepared>,
) -> bool {
    match came {
        Some(came) => {
            hub.await_room(rt, came);
            true
        }
        None => false,
    }
}

/// The milliseconds of a sleep for a time at most, 0 for any other one, and its message.
fn sleep_parts<'t>(name: &str, rest: &'t str) -> (u64, &'t str) {
    if name != "room-within" {
        return (0, rest);
    }
    let (most, message) = first_word(rest);
    (milliseconds(most), message)
}

/// Sleeps for this: whether there is room, if it is for room. `false` at once, if there is no such sleep.
fn sleep_until<R: Wait + Clock, A: Ledger, B: Ledger, C: Ledger>(
    rt: &R,
    hub: &Hub<A, B, C>,
    name: &str,
    most: Duration,
    came: &Option<Prepared>,
) -> bool {
    match name {
        "room" | "room-later" => await_room(rt, hub, came),
        "room-within" => came.is_some() && has_room(rt, hub, came, most),
        "quiet" => {
            // (or until it looked again)
            let _is_quiet = hub.await_quiet(rt, Duration::from_millis(LATE));
            true
        }
        "parcel" => unsend(rt, hub, hub.await_parcel(rt)) == "unsent",
        _ => false,
    }
}

/// The word for a sleep that took this time.
fn sleep_word(spent: Duration, has_room: bool) -> &'static str {
    if has_room {
        choose(spent < Duration::from_millis(WOKEN), "woken", "waited")
    } else {
        choose(spent < Duration::from_millis(PAUSE), "too soon", "in vain")
    }
}

/// Sleeps for this, with this message: how the sleep ended.
fn sleep_with<R: Wait + Clock, A: Ledger, B: Ledger, C: Ledger>(
    rt: &R,
    hub: &Hub<A, B, C>,
    name: &str,
    most: Duration,
    came: &Option<Prepared>,
) -> &'static str {
    if name == "room-later" {
        thread::sleep(rt, Duration::from_millis(2 * PAUSE));
    }
    let Ok(start) = Instant::now(rt) else {
        return "no clock";
    };
    let has_room = sleep_until(rt, hub, name, most, came);
    match start.elapsed(rt) {
        Ok(spent) => sleep_word(spent, has_room),
        Err(_) => "no clock",
    }
}

/// Sleeps for this: how the sleep ended.
pub(super) fn sleep_for<R: Wait + Clock, A: Ledger, B: Ledger, C: Ledger>(
    rt: &R,
    alloc: Global,
    hub: &Hub<A, B, C>,
    table: &Table,
    text: &str,
) -> &'static str {
    let (name, rest) = first_word(text);
    let (most, message) = sleep_parts(name, rest);
    let came = prepared(alloc, table, named(alloc, message));
    sleep_with(rt, hub, name, Duration::from_millis(most), &came)
}

/// After a while, makes these calls, with nothing at hand at first: the seat, and their words.
fn act<R: Wait + Clock, A: Ledger, B: Ledger, C: Ledger>(
    rt: &R,
    alloc: Global,
    hub: &Hub<A, B, C>,
    seat: Seat<A, B, C>,
    table: &Table,
    calls: &str,
) -> (Seat<A, B, C>, String) {
    thread::sleep(rt, Duration::from_millis(PAUSE));
    let mut seat = seat;
    let Some(mut held) = Held::new(alloc, table) else {
        return (seat, String::new(alloc));
    };
    call_each(rt, hub, &mut seat, &mut held, calls);
    let words = mem::replace(&mut held.words, String::new(alloc));
    held.abandon();
    (seat, words)
}

/// Makes these calls while another thread sleeps: says how the sleep ended, and the words of the calls.
pub(super) fn act_while<
    'x,
    R: Threads + Wait + Clock + Sync,
    A: Ledger + Send + Sync,
    B: Ledger + Send + Sync,
    C: Ledger + Send + Sync,
>(
    rt: &'x R,
    hub: &'x Hub<A, B, C>,
    seat: Seat<A, B, C>,
    held: &mut Held<'x>,
    sleep: &'x str,
    calls: &'x str,
) -> Seat<A, B, C> {
    let (alloc, table) = (held.alloc, held.table);
    let (word, (seat, words)) = thread::join(
        rt,
        move || sleep_for(rt, alloc, hub, table, sleep),
        move || act(rt, alloc, hub, seat, table, calls),
    );
    say(&mut held.words, word);
    say(&mut held.words, words.as_str());
    seat
}
