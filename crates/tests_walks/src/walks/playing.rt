//! The lines of a script: which are played, and what each has to answer.

use super::Walk;
use super::foreign::call_or_bring;
use super::held::Held;
use super::sleeping::act_while;
use super::turns::work;
use cases::{Cursor, Line, first_word};
use fp_hub::{Hub, Seat};
use fp_records::Table;
use std::alloc::{AllocError, Global};
use std::fmt::Write;
use std::rt::Clock;
use std::sync::Wait;
use std::sync::ledger::Ledger;
use std::thread::Threads;

/// A line without its mark. `None`: it isn't played.
fn played(line: Line<'_>, are_foreign_brought: bool) -> Option<Line<'_>> {
    let (mark, rest) = first_word(line.text);
    let unmarked = Line {
        number: line.number,
        text: rest,
    };
    match mark {
        "+" => are_foreign_brought.then_some(unmarked),
        "-" => (!are_foreign_brought).then_some(unmarked),
        "#" => None,
        _ => Some(line),
    }
}

/// Writes a line of a script beside the one that failed, if there is one.
fn push_neighbour(walk: Walk, index: usize, fault: &mut String) -> Result<(), AllocError> {
    match walk.script.lines().nth(index) {
        Some(line) => write!(fault, "\n  {line}"),
        None => Ok(()),
    }
}

/// Writes the place of a line that failed, its call, the words that this answered, and the wanted words; and the lines
/// beside it.
fn push_fault(
    walk: Walk,
    line: Line<'_>,
    call: &str,
    given: &str,
    wanted: &str,
    fault: &mut String,
) -> Result<(), AllocError> {
    fault.clear();
    line.push_place(walk.name, fault)?;
    write!(fault, "{call}: {given}, wanted {wanted}")?;
    let next = line.number as usize;
    if next > 1 {
        push_neighbour(walk, next - 2, fault)?;
    }
    push_neighbour(walk, next, fault)
}

/// Makes the call of a line, or lets another thread sleep meanwhile.
fn make_line<
    'x,
    R: Threads + Wait + Clock + Sync,
    A: Ledger + Send + Sync,
    B: Ledger + Send + Sync,
    C: Ledger + Send + Sync,
>(
    rt: &'x R,
    hub: &'x Hub<A, B, C>,
    seat: Seat<A, B, C>,
    held: &mut Held<'x>,
    text: &'x str,
) -> Seat<A, B, C> {
    if let Some((sleep, calls)) = text.split_once(" | ") {
        return act_while(rt, hub, seat, held, sleep, calls);
    }
    if text == "worker" {
        return work(rt, held.alloc, hub, seat, held);
    }
    let mut seat = seat;
    call_or_bring(rt, hub, &mut seat, held, text);
    seat
}

/// Plays the lines of a walk. The first one that answers other words ends it, and the text about a failure then says
/// which; if all answer their words, this text is cleared.
fn play_lines<
    'x,
    R: Threads + Wait + Clock + Sync,
    A: Ledger + Send + Sync,
    B: Ledger + Send + Sync,
    C: Ledger + Send + Sync,
>(
    rt: &'x R,
    hub: &'x Hub<A, B, C>,
    seat: Seat<A, B, C>,
    held: &mut Held<'x>,
    walk: Walk,
    fault: &mut String,
) -> Seat<A, B, C> {
    let mut seat = seat;
    let mut cursor = Cursor::new();
    for line in walk.script.lines() {
        let Some(line) = played(cursor.line(line), walk.are_foreign_brought) else {
            continue;
        };
        let (call, wanted) = line.parts().unwrap_or((line.text, ""));
        held.words.clear();
        seat = make_line(rt, hub, seat, held, call);
        let given = held.words.as_str();
        if given != wanted {
            let _ = push_fault(walk, line, call, given, wanted, fault);
            return seat;
        }
    }
    fault.clear();
    seat
}

/// Plays the script of a walk, with nothing at hand at first. The text about a failure is cleared if there is none.
pub(super) fn play<
    'x,
    R: Threads + Wait + Clock + Sync,
    A: Ledger + Send + Sync,
    B: Ledger + Send + Sync,
    C: Ledger + Send + Sync,
>(
    rt: &'x R,
    alloc: Global,
    hub: &'x Hub<A, B, C>,
    seat: Seat<A, B, C>,
    table: &'x Table,
    walk: Walk,
    fault: &mut String,
) -> Seat<A, B, C> {
    let Some(mut held) = Held::new(alloc, table) else {
        let _ = fault.push_str(", out of memory");
        return seat;
    };
    let seat = play_lines(rt, hub, seat, &mut held, walk, fault);
    held.abandon();
    seat
}
