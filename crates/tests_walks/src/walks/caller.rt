//! The thread that plays a script: it makes one call of a hub after the other, and compares the words of each.
//!
//! | Call | Its answer |
//! |---|---|
//! | `posts COUNT MESSAGE`, `offers COUNT MESSAGE`, `adds COUNT MESSAGE`, `sends COUNT` | the call without the `s`, |
//! | | COUNT times, each of which has to answer the same words: `all` and these, or `else` |
//! | `serve-all`, `serve-all-in-shares`, `serve-all-in-place` | turns are served one by one, in shares or in their |
//! | | places until there is none: why there is none |
//!
//! A call that has several steps makes them in their order (`STEPS`). The first step that has a word ends the call:
//! this is its answer.

use super::held::Held;
use super::posting::post_step;
use super::words::{choose, number, say};
use cases::first_word;
use fp_hub::{Hub, Seat};
use std::rt::Clock;
use std::sync::Wait;
use std::sync::ledger::Ledger;

/// The calls that have several steps, or another name than their step, and these steps: a call a line.
const STEPS: &str = "\
posts: post
offers: offer
adds: add
turn: take serve give
put-back: take give
give-closed: take-first end serve give
put-back-closed: take-first end give
give-in-share: take-one serve return given
give-closed-in-share: take-one end serve silent given
put-back-closed-in-share: take-one end silent back
send: next look report
sends: next look report
unsend: next look unsent
send-late: next pause report
unsend-late: next pause unsent
await-and-send: await pause report
serve-all: take-any serve give-one
serve-all-in-shares: take-share serve
serve-all-in-place: hold-in-place
";

/// The steps of a call, or of each of the calls that are the same. A call that has no others is its only step.
fn steps_of(name: &str) -> &str {
    for line in STEPS.lines() {
        if let Some((call, steps)) = line.split_once(": ") {
            if call == name {
                return steps;
            }
        }
    }
    name
}

/// Makes the steps of a call, each of which is given the rest of the call, up to the first one that has a word.
pub(super) fn make<R: Wait + Clock, A: Ledger, B: Ledger, C: Ledger>(
    rt: &R,
    hub: &Hub<A, B, C>,
    seat: &mut Seat<A, B, C>,
    held: &mut Held<'_>,
    name: &str,
    rest: &str,
) -> &'static str {
    for step in steps_of(name).split(' ') {
        let word = post_step(rt, hub, seat, held, step, rest);
        if !word.is_empty() {
            return word;
        }
    }
    ""
}

/// Makes the calls of this name, whose number is the first word. Each has to answer the same.
fn repeat<R: Wait + Clock, A: Ledger, B: Ledger, C: Ledger>(
    rt: &R,
    hub: &Hub<A, B, C>,
    seat: &mut Seat<A, B, C>,
    held: &mut Held<'_>,
    name: &str,
    rest: &str,
) -> &'static str {
    let (count, rest) = first_word(rest);
    let word = make(rt, hub, seat, held, name, rest);
    let mut are_same = true;
    for _ in 1..number(count) {
        let is_same = make(rt, hub, seat, held, name, rest) == word;
        are_same = are_same && is_same;
    }
    let all = choose(word.is_empty(), "", "all");
    say(&mut held.words, choose(are_same, all, ""));
    choose(are_same, word, "else")
}

/// Serves turns in the way of this name until none is handed out: why.
fn serve_all<R: Wait + Clock, A: Ledger, B: Ledger, C: Ledger>(
    rt: &R,
    hub: &Hub<A, B, C>,
    seat: &mut Seat<A, B, C>,
    held: &mut Held<'_>,
    name: &str,
) -> &'static str {
    for _ in 0..100_000 {
        let word = make(rt, hub, seat, held, name, "");
        if !word.is_empty() {
            return word;
        }
    }
    "else"
}

/// Makes a call, and says its words.
fn call<R: Wait + Clock, A: Ledger, B: Ledger, C: Ledger>(
    rt: &R,
    hub: &Hub<A, B, C>,
    seat: &mut Seat<A, B, C>,
    held: &mut Held<'_>,
    text: &str,
) {
    let (name, rest) = first_word(text);
    let word = match name {
        "posts" | "offers" | "adds" | "sends" => repeat(rt, hub, seat, held, name, rest),
        "serve-all" | "serve-all-in-shares" | "serve-all-in-place" => {
            serve_all(rt, hub, seat, held, name)
        }
        _ => make(rt, hub, seat, held, name, rest),
    };
    say(&mut held.words, word);
}

/// Makes calls, with `; ` between them, and says their words.
pub(super) fn call_each<R: Wait + Clock, A: Ledger, B: Ledger, C: Ledger>(
    rt: &R,
    hub: &Hub<A, B, C>,
    seat: &mut Seat<A, B, C>,
    held: &mut Held<'_>,
    calls: &str,
) {
    for text in calls.split("; ") {
        call(rt, hub, seat, held, text);
    }
}
