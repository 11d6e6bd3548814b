//! The calls that post messages.
//!
//! | Call | Its answer |
//! |---|---|
//! | `post MESSAGE` | how it was taken: `opened`, `accepted`, `aborted`, `ended` or `discarded` |
//! | `offer MESSAGE` | the same of a message that is posted unless it would be held back: `held back` |
//! | `add MESSAGE` | nothing: puts it at the end of a list |
//! | `begins FIRST COUNT` | nothing: puts Begins of COUNT identifiers there, the first in hexadecimal digits |
//! | `front` | how many are left in the list, once those in front were posted in one hold, after `aborted` if an |
//! | | Abort of the provider answers one; the sending thread is told then |
//! | step `end MESSAGE` | nothing, if the message closes its dialogue, and else `not closed` |

use super::held::Held;
use super::turns::turn_step;
use super::words::{choose, number_word, say};
use cases::first_word;
use fp_book::Posted;
use fp_entry::Prepared;
use fp_frames::Frame;
use fp_hub::{Hub, Seat};
use fp_records::Table;
use std::alloc::Global;
use std::collections::VecDeque;
use std::rt::Clock;
use std::sync::Wait;
use std::sync::ledger::Ledger;
use std::time::Duration;
use tests_hub::messages::{add_frame, begin, named, post_frame, prepared};

/// The word for how a message was taken, if there was one.
fn word_of(posted: Option<Posted>) -> &'static str {
    match posted {
        Some(Posted::Opened(_)) => "opened",
        Some(Posted::Accepted(_)) => "accepted",
        Some(Posted::Aborted(_)) => "aborted",
        Some(Posted::Ended) => "ended",
        Some(Posted::Discarded) => "discarded",
        None => "no message",
    }
}

/// Makes a step that posts messages, or one of another module.
pub(super) fn post_step<R: Wait + Clock, A: Ledger, B: Ledger, C: Ledger>(
    rt: &R,
    hub: &Hub<A, B, C>,
    seat: &mut Seat<A, B, C>,
    held: &mut Held<'_>,
    name: &str,
    rest: &str,
) -> &'static str {
    let (alloc, table) = (held.alloc, held.table);
    match name {
        "post" => post(rt, alloc, hub, seat, table, rest),
        "end" => choose(
            post(rt, alloc, hub, seat, table, rest) == "ended",
            "",
            "not closed",
        ),
        "offer" => offer(rt, alloc, hub, seat, table, rest),
        "add" => add(alloc, table, &mut held.came, named(alloc, rest)),
        "begins" => add_begins(alloc, table, &mut held.came, rest),
        "front" => {
            say(
                &mut held.words,
                post_front(rt, alloc, hub, seat, &mut held.came),
            );
            number_word(held.came.len())
        }
        _ => turn_step(rt, hub, seat, held, name, rest),
    }
}

/// Posts a message.
fn post<R: Wait, A: Ledger, B: Ledger, C: Ledger>(
    rt: &R,
    alloc: Global,
    hub: &Hub<A, B, C>,
    seat: &mut Seat<A, B, C>,
    table: &Table,
    message: &str,
) -> &'static str {
    word_of(post_frame(rt, alloc, hub, seat, table, named(alloc, message)))
}

/// Whether a message isn't held back within this time, or there is none.
pub(super) fn has_room<R: Wait + Clock, A: Ledger, B: Ledger, C: Ledger>(
    rt: &R,
    hub: &Hub<A, B, C>,
    came: &Option<Prepared>,
    most: Duration,
) -> bool {
    match came {
        Some(came) => hub.await_room_within(rt, came, most),
        None => true,
    }
}

/// Posts a message, unless it is held back.
fn offer<R: Wait + Clock, A: Ledger, B: Ledger, C: Ledger>(
    rt: &R,
    alloc: Global,
    hub: &Hub<A, B, C>,
    seat: &mut Seat<A, B, C>,
    table: &Table,
    message: &str,
) -> &'static str {
    let came = prepared(alloc, table, named(alloc, message));
    let is_free = has_room(rt, hub, &came, Duration::ZERO);
    drop(came);
    if is_free {
        post(rt, alloc, hub, seat, table, message)
    } else {
        "held back"
    }
}

/// Puts the message of a frame at the end of a list: nothing, or that there is none.
fn add(
    alloc: Global,
    table: &Table,
    came: &mut VecDeque<Prepared>,
    frame: Option<Frame>,
) -> &'static str {
    choose(add_frame(alloc, table, came, frame), "", "no message")
}

/// Puts Begins with InitialDP from this number of identifiers there.
fn add_begins(
    alloc: Global,
    table: &Table,
    came: &mut VecDeque<Prepared>,
    rest: &str,
) -> &'static str {
    let (first, count) = first_word(rest);
    let first = u32::from_str_radix(first, 16).unwrap_or(0);
    for place in 0..count.parse().unwrap_or(0u32) {
        let word = add(alloc, table, came, begin(alloc, first.wrapping_add(place)));
        if !word.is_empty() {
            return word;
        }
    }
    ""
}

/// Posts the messages in front of a list: `aborted`, and the sending thread is told, if an Abort of the provider
/// answers one.
fn post_front<R: Wait, A: Ledger, B: Ledger, C: Ledger>(
    rt: &R,
    alloc: Global,
    hub: &Hub<A, B, C>,
    seat: &mut Seat<A, B, C>,
    came: &mut VecDeque<Prepared>,
) -> &'static str {
    let is_aborted = hub.post_front(rt, alloc, seat, came);
    if is_aborted {
        hub.tell_sender();
    }
    choose(is_aborted, "aborted", "")
}
