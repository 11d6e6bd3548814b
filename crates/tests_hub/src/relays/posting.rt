//! The thread that posts the messages of a plan.

use super::plan::{Load, Marks};
use crate::messages::{STRANGE, add_frame, frame_of, post_frame};
use crate::second_first::MOST_WAITS;
use fp_book::Posted;
use fp_entry::Prepared;
use fp_hub::{Gate, Hub, Seat};
use std::collections::VecDeque;
use std::rt::Clock;
use std::sync::Wait;
use std::sync::atomic::Ordering;
use std::sync::ledger::Ledger;
use std::thread;
use std::time::Duration;

/// Puts the messages of a plan at the end of a list, as many as memory allows.
fn add_all(list: &mut VecDeque<Prepared>, load: Load<'_>) {
    let Load {
        alloc,
        table,
        plan,
        ..
    } = load;
    for number in 0..plan.count {
        let _is_added = add_frame(alloc, table, list, plan.frame(alloc, number));
    }
}

/// Hints once, or helps to serve messages that were posted in one hold. `false`: the hint failed.
fn hint_or_help<R: Wait, G: Gate, A: Ledger, B: Ledger, C: Ledger>(
    rt: &R,
    hub: &Hub<A, B, C>,
    seat: &mut Seat<A, B, C>,
    gate: &G,
    most_helped: usize,
) -> bool {
    if most_helped == 0 {
        return hub.hint(rt);
    }
    if hub.help(rt, gate, seat, most_helped) {
        hub.tell_sender();
    }
    true
}

/// Posts the messages of a list, at most 64, in one hold, and hints once, or helps to serve them. `false`: one wasn't
/// posted, or the hint failed.
fn post_list<R: Wait, G: Gate, A: Ledger, B: Ledger, C: Ledger>(
    rt: &R,
    hub: &Hub<A, B, C>,
    seat: &mut Seat<A, B, C>,
    gate: &G,
    load: Load<'_>,
    came: &mut VecDeque<Prepared>,
) -> bool {
    let is_aborted = hub.post_front(rt, load.alloc, seat, came);
    let are_posted = !is_aborted && came.is_empty();
    hint_or_help(rt, hub, seat, gate, load.plan.most_helped) && are_posted
}

/// Posts all messages of a plan in one hold, and hints once, or helps to serve them.
fn post_in_one_hold<R: Wait, G: Gate, A: Ledger, B: Ledger, C: Ledger>(
    rt: &R,
    hub: &Hub<A, B, C>,
    seat: &mut Seat<A, B, C>,
    gate: &G,
    load: Load<'_>,
) -> bool {
    let mut came = VecDeque::new(load.alloc);
    add_all(&mut came, load);
    post_list(rt, hub, seat, gate, load, &mut came)
}

/// Posts a message of a plan, and hints if each has a hint of its own. `false`: it didn't open the dialogue that it
/// should, or the hint failed.
fn post_one<R: Wait + Clock, A: Ledger, B: Ledger, C: Ledger>(
    rt: &R,
    hub: &Hub<A, B, C>,
    seat: &mut Seat<A, B, C>,
    load: Load<'_>,
    number: u32,
) -> bool {
    let plan = load.plan;
    thread::sleep(rt, Duration::from_millis(plan.pause));
    let frame = plan.frame(load.alloc, number);
    match post_frame(rt, load.alloc, hub, seat, load.table, frame) {
        Some(Posted::Opened(local)) if local == plan.local(number) => {
            plan.is_hinted_once || hub.hint(rt)
        }
        _ => false,
    }
}

/// Posts a message to a dialogue that doesn't exist, once all answers were sent: its Abort would be sent before one
/// that waits. `false`: no Abort of the provider answers it.
fn post_stranger<R: Wait + Clock, A: Ledger, B: Ledger, C: Ledger>(
    rt: &R,
    hub: &Hub<A, B, C>,
    seat: &mut Seat<A, B, C>,
    load: Load<'_>,
) -> bool {
    await_sent(rt, load.marks, load.plan.count);
    thread::sleep(rt, Duration::from_millis(load.plan.pause));
    let frame = frame_of(load.alloc, STRANGE);
    let posted = post_frame(rt, load.alloc, hub, seat, load.table, frame);
    matches!(posted, Some(Posted::Aborted(_)))
}

/// Posts the messages of a plan, and hints. `false`: one didn't open the dialogue that it should, or a hint failed, or
/// the stranger wasn't refused.
fn post_all<R: Wait + Clock, G: Gate, A: Ledger, B: Ledger, C: Ledger>(
    rt: &R,
    hub: &Hub<A, B, C>,
    seat: &mut Seat<A, B, C>,
    gate: &G,
    load: Load<'_>,
) -> bool {
    let plan = load.plan;
    if plan.is_one_hold {
        return post_in_one_hold(rt, hub, seat, gate, load);
    }
    for number in 0..plan.count {
        if !post_one(rt, hub, seat, load, number) {
            return false;
        }
    }
    if plan.has_stranger {
        return post_stranger(rt, hub, seat, load);
    }
    !plan.is_hinted_once || hub.hint(rt)
}

/// Waits until this number of parcels was sent, for ten seconds at most.
fn await_sent<R: Clock>(rt: &R, marks: &Marks, count: u32) {
    for _ in 0..MOST_WAITS {
        if marks.sent.load(Ordering::SeqCst) >= count {
            return;
        }
        thread::sleep(rt, Duration::from_millis(1));
    }
}

/// Posts the messages of a plan, waits until all were answered, and takes the link down. Gives whether all was posted
/// as it should be, and the seat.
pub(super) fn post_until_sent<R: Wait + Clock, G: Gate, A: Ledger, B: Ledger, C: Ledger>(
    rt: &R,
    hub: &Hub<A, B, C>,
    seat: Seat<A, B, C>,
    gate: &G,
    load: Load<'_>,
) -> (bool, Seat<A, B, C>) {
    let mut seat = seat;
    let are_opened = post_all(rt, hub, &mut seat, gate, load);
    await_sent(rt, load.marks, load.plan.parcel_count());
    hub.down(rt);
    (are_opened, seat)
}
