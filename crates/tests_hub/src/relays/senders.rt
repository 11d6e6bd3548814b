//! Threads that send the parcels of a hub, and keep their octets.

use super::plan::Marks;
use crate::second_first::MOST_WAITS;
use fp_book::{Parcel, Picked};
use fp_hub::{Hub, Seat};
use std::alloc::Global;
use std::rt::Clock;
use std::sync::Wait;
use std::sync::atomic::Ordering;
use std::sync::ledger::Ledger;
use std::thread;
use std::time::Duration;

/// The seat of a sender, and the octets that it sent.
#[derive(Drop)]
pub(super) struct Sent<A: Ledger, B: Ledger, C: Ledger> {
    pub(super) seat: Seat<A, B, C>,
    pub(super) answers: Vec<Vec<u8>>,
}

/// Keeps the octets of a parcel, and says so if it is of the second dialogue.
fn note(alloc: Global, answers: &mut Vec<Vec<u8>>, marks: &Marks, parcel: &Parcel) {
    if parcel.local() == marks.second {
        marks.is_second_picked.store(true, Ordering::SeqCst);
    }
    if let Ok(octets) = parcel.octets().to_vec(alloc) {
        let _ = answers.push(octets);
    }
}

/// Gives up a parcel that came back.
fn give_up(back: Result<(), Parcel>) {
    if let Err(foreign) = back {
        foreign.abandon();
    }
}

/// Keeps the octets of a parcel, and reports it sent.
fn send<R: Wait, A: Ledger, B: Ledger, C: Ledger>(
    rt: &R,
    alloc: Global,
    hub: &Hub<A, B, C>,
    sent: &mut Sent<A, B, C>,
    marks: &Marks,
    parcel: Parcel,
) {
    note(alloc, &mut sent.answers, marks, &parcel);
    give_up(hub.sent(rt, &mut sent.seat, parcel));
    marks.sent.fetch_add(1, Ordering::SeqCst);
}

/// Sends the next parcel, or waits a millisecond if there is none: how often it waited.
fn send_next<R: Wait + Clock, A: Ledger, B: Ledger, C: Ledger>(
    rt: &R,
    alloc: Global,
    hub: &Hub<A, B, C>,
    sent: &mut Sent<A, B, C>,
    marks: &Marks,
) -> u32 {
    match hub.pick(rt) {
        Picked::Parcel(parcel) => {
            send(rt, alloc, hub, sent, marks, parcel);
            0
        }
        Picked::Busy | Picked::Nothing => {
            thread::sleep(rt, Duration::from_millis(1));
            1
        }
    }
}

/// Sends until this number of parcels was sent, or it has waited for ten seconds.
pub(super) fn send_picked<R: Wait + Clock, A: Ledger, B: Ledger, C: Ledger>(
    rt: &R,
    alloc: Global,
    hub: &Hub<A, B, C>,
    seat: Seat<A, B, C>,
    marks: &Marks,
    count: u32,
) -> Sent<A, B, C> {
    let mut sent = Sent {
        seat,
        answers: Vec::new(alloc),
    };
    let mut waits: u32 = 0;
    for _ in rt.forever() {
        if marks.sent.load(Ordering::SeqCst) >= count || waits >= MOST_WAITS {
            break;
        }
        waits = waits.saturating_add(send_next(rt, alloc, hub, &mut sent, marks));
    }
    sent
}

/// Sends until the link is down.
pub(super) fn send_awaited<R: Wait, A: Ledger, B: Ledger, C: Ledger>(
    rt: &R,
    alloc: Global,
    hub: &Hub<A, B, C>,
    seat: Seat<A, B, C>,
    marks: &Marks,
) -> Sent<A, B, C> {
    let mut sent = Sent {
        seat,
        answers: Vec::new(alloc),
    };
    for _ in rt.forever() {
        let Some(parcel) = hub.await_parcel(rt) else {
            break;
        };
        send(rt, alloc, hub, &mut sent, marks, parcel);
    }
    sent
}
