//! The calls that bring turns and parcels of another hub, which aren't out: they are of another link, of the same
//! dialogue with another message, or the same as one that was given back before.
//!
//! | Call | Its answer |
//! |---|---|
//! | `foreign-turns` | eight foreign turns, four of them served, are given back in one hold, as by `share 1 0`, |
//! | | where they are dropped; and once more, each in its own, how many come back |
//! | `mix` | how many turns are at hand once eight foreign ones are put among them |
//! | `foreign-parcels LINK IDENTIFIER` | a foreign parcel, of the dialogue that a Begin from this identifier opens |
//! | | on this link, is reported as by `in-hold`, and others like it sent and unsent |
//! | `foreign-in-hold LINK IDENTIFIER` | such a parcel is reported as by `in-hold` |

ghost use Rattle.fp_hub.specs.Shares.{AreBlanks};

use super::caller::{call_each, make};
use super::held::{Held, put, serve_each};
use super::parcels::{report, report_in_hold, unsend};
use super::shares::share;
use super::turns::give_first;
use super::words::{number_word, say};
use cases::first_word;
use fp_book::Parcel;
use fp_hub::{Hub, PARTS, Seat, Work, finish};
use fp_records::Table;
use std::alloc::Global;
use std::collections::VecDeque;
use std::marker::Brand;
use std::rt::Clock;
use std::sync::Wait;
use std::sync::ledger::{Blank, Ledger};

/// Calls of another hub that leave the turns of both dialogues at hand.
const TURNS: &str = "take-any; take-any";

/// Calls of another hub that leave the parcel of the second dialogue at hand.
const PARCEL: &str = "turn 0; turn 0; pick";

/// Another hub: its link, the identifier of the call that opens its second dialogue, and the calls that are made then.
#[derive(Clone, Copy)]
struct Other<'t> {
    link: u8,
    identifier: &'t str,
    calls: &'t str,
}

/// Opens the two dialogues of another hub, the first one by a Begin without components, and makes its calls.
fn open_and_call<R: Wait + Clock, A: Ledger, B: Ledger, C: Ledger>(
    rt: &R,
    hub: &Hub<A, B, C>,
    seat: Seat<A, B, C>,
    other: Other<'_>,
    others: &mut Held<'_>,
) -> Seat<A, B, C> {
    let mut seat = seat;
    let _opened = make(rt, hub, &mut seat, others, "post", "empty");
    let _opened = make(rt, hub, &mut seat, others, "post", other.identifier);
    call_each(rt, hub, &mut seat, others, other.calls);
    seat
}

/// Makes the calls of another hub, whose ledgers are these.
fn call_over<R: Wait + Clock, A: Ledger, B: Ledger, C: Ledger>(
    rt: &R,
    blanks: (Blank, Blank, Blank),
    other: Other<'_>,
    others: &mut Held<'_>,
)
    requires { AreBlanks blanks A.name A.parts B.name B.parts C.name C.parts }
{
    if other.link >= 8 {
        return;
    }
    let Ok((hub, seat)) = Hub::<A, B, C>::new(others.alloc, other.link, blanks) else {
        return;
    };
    let seat = open_and_call(rt, &hub, seat, other, others);
    let _totals = finish(hub, seat);
}

/// Makes these calls of another hub. `LINK IDENTIFIER` are its link, and the identifier of the call that opens its
/// second dialogue.
fn call_other<R: Wait + Clock>(rt: &R, of_dialogue: &str, calls: &str, others: &mut Held<'_>) {
    let (link, identifier) = first_word(of_dialogue);
    let other = Other {
        link: link.parse().unwrap_or(0),
        identifier,
        calls,
    };
    let blanks = (Blank::new(PARTS), Blank::new(PARTS), Blank::new(PARTS));
    call_over::<R, Brand, Brand, Brand>(rt, blanks, other, others);
}

/// Puts four turns at the end of a list: two of link 1; one that is the same as the first one of link 0, which was
/// given before; and one of its second dialogue, with another message.
fn bring_four<R: Wait + Clock>(rt: &R, others: &mut Held<'_>) {
    call_other(rt, "1 2A", TURNS, others);
    call_other(rt, "0 77", TURNS, others);
}

/// Puts four turns at the end of a list, which is served then as a whole, and four others after them.
fn bring_eight<R: Wait + Clock>(rt: &R, others: &mut Held<'_>) {
    bring_four(rt, others);
    serve_each(others.alloc, &mut others.work);
    bring_four(rt, others);
}

/// The frame of the second dialogue of another hub. `None`: out of memory.
fn other_parcel<R: Wait + Clock>(
    rt: &R,
    alloc: Global,
    table: &Table,
    of_dialogue: &str,
) -> Option<Parcel> {
    let Some(mut others) = Held::new(alloc, table) else {
        return None;
    };
    call_other(rt, of_dialogue, PARCEL, &mut others);
    let parcel = others.parcel.take();
    others.abandon();
    parcel
}

/// Moves the first turn of a list to the end of another one, if there is one.
fn move_front(from: &mut VecDeque<Work>, to: &mut VecDeque<Work>) {
    if let Some(work) = from.pop_front() {
        put(to, work);
    }
}

/// Moves the first turn of a list to its end.
fn turn_over(list: &mut VecDeque<Work>) {
    if let Some(work) = list.pop_front() {
        put(list, work);
    }
}

/// Puts a foreign turn before each turn of a list, and the others after the last one: how many turns it has then.
fn mix(others: &mut VecDeque<Work>, work: &mut VecDeque<Work>) -> &'static str {
    for _ in 0..work.len() {
        move_front(others, work);
        turn_over(work);
    }
    for _ in 0..others.len() {
        move_front(others, work);
    }
    number_word(work.len())
}

/// How many turns of a list come back, each given or put back in a hold of its own.
fn count_foreign<R: Wait, A: Ledger, B: Ledger, C: Ledger>(
    rt: &R,
    hub: &Hub<A, B, C>,
    seat: &mut Seat<A, B, C>,
    others: &mut VecDeque<Work>,
) -> &'static str {
    let mut count: usize = 0;
    for _ in 0..others.len() {
        let is_foreign = give_first(rt, hub, seat, others) == "foreign";
        count = count.saturating_add(usize::from(is_foreign));
    }
    number_word(count)
}

/// Gives back foreign turns: in one hold, and says its words, and each in its own.
fn give_foreign<R: Wait + Clock, A: Ledger, B: Ledger, C: Ledger>(
    rt: &R,
    hub: &Hub<A, B, C>,
    seat: &mut Seat<A, B, C>,
    others: &mut Held<'_>,
    words: &mut String,
) -> &'static str {
    bring_eight(rt, others);
    let word = share(rt, hub, seat, &mut others.work, words, "1 0");
    say(words, word);
    bring_eight(rt, others);
    count_foreign(rt, hub, seat, &mut others.work)
}

/// Brings foreign turns, and mixes them with those at hand or gives them back.
fn bring_turns<R: Wait + Clock, A: Ledger, B: Ledger, C: Ledger>(
    rt: &R,
    hub: &Hub<A, B, C>,
    seat: &mut Seat<A, B, C>,
    held: &mut Held<'_>,
    are_mixed: bool,
) -> &'static str {
    let Some(mut others) = Held::new(held.alloc, held.table) else {
        return "no memory";
    };
    let word = if are_mixed {
        bring_eight(rt, &mut others);
        mix(&mut others.work, &mut held.work)
    } else {
        give_foreign(rt, hub, seat, &mut others, &mut held.words)
    };
    others.abandon();
    word
}

/// Reports a foreign parcel in the hold that picks the next one, which is at hand then.
fn bring_parcel<R: Wait + Clock, A: Ledger, B: Ledger, C: Ledger>(
    rt: &R,
    hub: &Hub<A, B, C>,
    seat: &mut Seat<A, B, C>,
    held: &mut Held<'_>,
    of_dialogue: &str,
) -> &'static str {
    let other = other_parcel(rt, held.alloc, held.table, of_dialogue);
    report_in_hold(rt, hub, seat, other, &mut held.parcel, &mut held.words)
}

/// Reports a foreign parcel while another one is out, or the link is down, so that none is picked; and others like it
/// sent and unsent, each in a hold of its own.
fn bring_parcels<R: Wait + Clock, A: Ledger, B: Ledger, C: Ledger>(
    rt: &R,
    hub: &Hub<A, B, C>,
    seat: &mut Seat<A, B, C>,
    held: &mut Held<'_>,
    of_dialogue: &str,
) -> &'static str {
    let (alloc, table) = (held.alloc, held.table);
    let word = bring_parcel(rt, hub, seat, held, of_dialogue);
    say(&mut held.words, word);
    let word = report(rt, hub, seat, other_parcel(rt, alloc, table, of_dialogue));
    say(&mut held.words, word);
    unsend(rt, hub, other_parcel(rt, alloc, table, of_dialogue))
}

/// Makes a call that brings foreign turns or parcels, or another one, and says its words.
pub(super) fn call_or_bring<R: Wait + Clock, A: Ledger, B: Ledger, C: Ledger>(
    rt: &R,
    hub: &Hub<A, B, C>,
    seat: &mut Seat<A, B, C>,
    held: &mut Held<'_>,
    text: &str,
) {
    let (name, rest) = first_word(text);
    let word = match name {
        "foreign-turns" => bring_turns(rt, hub, seat, held, false),
        "mix" => bring_turns(rt, hub, seat, held, true),
        "foreign-parcels" => bring_parcels(rt, hub, seat, held, rest),
        "foreign-in-hold" => bring_parcel(rt, hub, seat, held, rest),
        _ => {
            call_each(rt, hub, seat, held, text);
            ""
        }
    };
    say(&mut held.words, word);
}
