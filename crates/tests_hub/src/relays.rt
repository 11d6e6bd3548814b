//! Links over memory, whose threads share a hub: messages are posted, and their answers are sent.

mod faults;
mod link;
mod plan;
mod posting;
mod senders;

use crate::messages::RECORDS;
use crate::{EACH_ONCE, SecondFirst};
use faults::fault_in;
use fp_hub::{Gate, OpenGate};
use fp_records::Table;
use link::relay;
use plan::{Marks, Plan};
use std::alloc::Global;
use std::rt::Clock;
use std::sync::Wait;
use std::sync::atomic::{AtomicU64, Ordering};
use std::thread;
use std::thread::Threads;

/// Two messages over two workers.
const PLAN: Plan = Plan {
    link: 0,
    workers: 2,
    is_awaited: false,
    is_hinted_once: false,
    is_one_hold: false,
    most_helped: 0,
    is_long: false,
    pause: 0,
    has_stranger: false,
    count: 2,
    first: 1,
    step: 1,
};

/// Puts the messages of a plan through a link: what is wrong with the result (`fault_in`), or nothing.
fn relay_fault<R: Threads + Wait + Clock + Sync, G: Gate + Sync>(
    rt: &R,
    alloc: Global,
    gate: &G,
    marks: &Marks,
    plan: Plan,
) -> &'static str {
    let Ok(table) = Table::read(alloc, RECORDS.as_bytes()) else {
        return "no records";
    };
    match relay(rt, alloc, gate, &table, marks, plan) {
        Some(relayed) => fault_in(alloc, plan, relayed),
        None => "out of memory",
    }
}

/// One worker waits between taking the turn of the first dialogue and serving it, with no lock held: the other one
/// serves the second dialogue meanwhile, whose answer is sent. Each turn passes the gate once. If there is only one
/// hint for both messages, the workers hint to each other; also if both messages were posted in one hold, so that the
/// first worker finds both dialogues ready.
#[test]
fn one_waits_and_the_other_serves(rt: HostRuntime) {
    for (is_hinted_once, is_one_hold) in [(false, false), (true, false), (true, true)] {
        let plan = Plan {
            link: 5,
            is_hinted_once,
            is_one_hold,
            ..PLAN
        };
        let marks = Marks::new(plan);
        let gate = SecondFirst::new(&rt, plan.link, &marks.is_second_picked);
        assert_eq!(rt; relay_fault(&rt, rt.alloc(), &gate, &marks, plan), "");
        assert!(rt; !gate.is_late(), "the second dialogue had to wait");
        assert_eq!(rt; gate.seen(), EACH_ONCE);
    }
}

/// A gate that counts the turns that pass it, and adds up the numbers of their dialogues, by the position of their
/// first entry.
#[derive(Drop)]
struct Passes {
    // Those at position 0, 16, and any other one: the sum of the numbers, and above 32 bits how many.
    first: AtomicU64,
    second: AtomicU64,
    others: AtomicU64,
}

/// How a turn counts.
const ONE_TURN: u64 = 0x1_0000_0000;

/// The count of 40 turns, one of each dialogue from 1 to 40: the sum of these numbers is 820.
const ONE_OF_EACH: u64 = 40 * ONE_TURN + 820;

impl Passes {
    /// No turn has passed.
    fn new() -> Passes {
        Passes {
            first: AtomicU64::new(0),
            second: AtomicU64::new(0),
            others: AtomicU64::new(0),
        }
    }
}

impl Gate for Passes {
    fn pass(&self, _link: u8, birth: u64, position: u64) {
        let counted = match position {
            0 => &self.first,
            16 => &self.second,
            _ => &self.others,
        };
        counted.fetch_add(ONE_TURN.wrapping_add(birth), Ordering::SeqCst);
    }
}

/// Each of 40 dialogues has an entry for its Begin and 16 for calls, so two turns: each of them that a worker serves
/// passes the gate once, with the position of its first entry. The others are served in their places by the thread that
/// posts, and pass no gate: none of them, all, or the first turns of the dialogues from 1 to 8, whose numbers add up
/// to 36.
#[test]
fn each_turn_passes_the_gate_once(rt: HostRuntime) {
    for (workers, most_helped, first, second) in [
        (2, 0, ONE_OF_EACH, ONE_OF_EACH),
        (0, 128, 0, 0),
        (1, 8, ONE_OF_EACH - 8 * ONE_TURN - 36, ONE_OF_EACH),
    ] {
        let plan = Plan {
            workers,
            most_helped,
            is_one_hold: true,
            is_long: true,
            count: 40,
            ..PLAN
        };
        let gate = Passes::new();
        assert_eq!(rt;
            relay_fault(&rt, rt.alloc(), &gate, &Marks::new(plan), plan),
            ""
        );
        assert_eq!(rt; gate.first.load(Ordering::SeqCst), first);
        assert_eq!(rt; gate.second.load(Ordering::SeqCst), second);
        assert_eq!(rt; gate.others.load(Ordering::SeqCst), 0);
    }
}

/// Threads that sleep are woken: each of five messages comes when all of them do, and so does one to a dialogue that
/// doesn't exist, which brings an Abort of the provider and no turn.
#[test]
fn sleepers_are_woken(rt: HostRuntime) {
    let plan = Plan {
        is_awaited: true,
        pause: 20,
        has_stranger: true,
        count: 5,
        ..PLAN
    };
    assert_eq!(rt;
        relay_fault(&rt, rt.alloc(), &OpenGate, &Marks::new(plan), plan),
        ""
    );
}

/// A thousand dialogues of a link with two workers.
#[test]
fn each_is_answered_once(rt: HostRuntime) {
    let plan = Plan {
        count: 1000,
        ..PLAN
    };
    assert_eq!(rt;
        relay_fault(&rt, rt.alloc(), &OpenGate, &Marks::new(plan), plan),
        ""
    );
}

/// A thousand dialogues of each of two links, side by side, with four workers each: the identifiers of one lie between
/// those of the other.
#[test]
fn links_keep_apart(rt: HostRuntime) {
    let alloc = rt.alloc();
    let odd = Plan {
        workers: 4,
        is_awaited: true,
        count: 1000,
        step: 2,
        ..PLAN
    };
    let even = Plan {
        link: 7,
        first: 2,
        ..odd
    };
    let (marks, others) = (Marks::new(odd), Marks::new(even));
    let (of_odd, of_even) = thread::join(
        &rt,
        || relay_fault(&rt, alloc, &OpenGate, &marks, odd),
        || relay_fault(&rt, alloc, &OpenGate, &others, even),
    );
    assert_eq!(rt; of_odd, "");
    assert_eq!(rt; of_even, "");
}
