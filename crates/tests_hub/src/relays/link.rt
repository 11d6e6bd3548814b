//! A link whose messages are taken from a list, and whose answers are put into one.

ghost use Rattle.fp_hub.specs.Shares.{AreBlanks, Whole};

use super::plan::{Load, Marks, Plan};
use super::posting::post_until_sent;
use super::senders::{Sent, send_awaited, send_picked};
use fp_book::{Line, Log, Totals};
use fp_hub::{Gate, Hub, PARTS, Seat, finish};
use fp_records::Table;
use std::alloc::Global;
use std::marker::Brand;
use std::rt::Clock;
use std::sync::Wait;
use std::sync::ledger::{Blank, Ledger};
use std::thread;
use std::thread::Threads;

/// The result of a link.
#[derive(Drop)]
pub(crate) struct Relayed {
    // Whether each message opened the dialogue that it should, with a hint, and no hint was given once the hub was
    // closed.
    pub(crate) are_opened: bool,
    // The frames that were sent, in their order.
    pub(crate) answers: Vec<Vec<u8>>,
    pub(crate) line_count: Option<usize>,
    pub(crate) totals: Option<Totals>,
}

/// Sends, and posts on another thread, until the link is down. Gives both seats as one.
fn post_and_send<
    'x,
    R: Threads + Wait + Clock + Sync,
    G: Gate + Sync,
    A: Ledger + Send + Sync,
    B: Ledger + Send + Sync,
    C: Ledger + Send + Sync,
>(
    rt: &'x R,
    hub: &'x Hub<A, B, C>,
    seat: Seat<A, B, C>,
    gate: &'x G,
    load: Load<'x>,
) -> (bool, Sent<A, B, C>)
    requires whole { Whole A.parts B.parts C.parts }
{
    let Load {
        alloc,
        marks,
        plan,
        ..
    } = load;
    let mut seat = seat;
    let Some(own) = seat.split() else {
        let answers = Vec::new(alloc);
        return (false, Sent { seat, answers });
    };
    let (mut sent, (are_opened, rest)) = thread::join(
        rt,
        move || {
            if plan.is_awaited {
                send_awaited(rt, alloc, hub, own, marks)
            } else {
                send_picked(rt, alloc, hub, own, marks, plan.parcel_count())
            }
        },
        move || post_until_sent(rt, hub, seat, gate, load),
    );
    sent.seat.join(rest);
    (are_opened, sent)
}

/// Runs the threads of a link: its workers, one that posts and one that sends. Gives all seats as one.
fn run_roles<
    'x,
    R: Threads + Wait + Clock + Sync,
    G: Gate + Sync,
    A: Ledger + Send + Sync,
    B: Ledger + Send + Sync,
    C: Ledger + Send + Sync,
>(
    rt: &'x R,
    hub: &'x Hub<A, B, C>,
    seat: Seat<A, B, C>,
    gate: &'x G,
    load: Load<'x>,
) -> (bool, Sent<A, B, C>)
    requires whole { Whole A.parts B.parts C.parts }
{
    thread::scope(
        thread::scope_env(),
        rt,
        move |scope| -> (bool, Sent<A, B, C>)
            requires { Whole A.parts B.parts C.parts }
        {
            let alloc = load.alloc;
            let mut seat = seat;
            let mut handles = Vec::new(alloc);
            for _ in 0..load.plan.workers {
                let (Some(own), Ok(hints)) = (seat.split(), hub.hints()) else {
                    break;
                };
                if let Ok(handle) = scope.spawn(move || hub.worker(rt, alloc, hints, gate, own)) {
                    let _ = handles.push(handle);
                }
            }
            let (are_opened, mut sent) = post_and_send(rt, hub, seat, gate, load);
            hub.close(rt);
            let is_closed = !hub.hint(rt);
            for handle in handles {
                sent.seat.join(handle.join(rt));
            }
            (are_opened && is_closed, sent)
        },
    )
}

/// How many lines the log has. `None`: out of memory.
fn line_count<R: Wait, A: Ledger, B: Ledger, C: Ledger>(
    rt: &R,
    alloc: Global,
    hub: &Hub<A, B, C>,
) -> Option<usize> {
    let mut lines: Vec<Line> = Vec::with_capacity(alloc, Log::MOST).ok()?;
    hub.drain(rt, &mut lines);
    Some(lines.len())
}

/// Puts the messages of a plan through a link whose ledgers are these.
fn run_link<
    R: Threads + Wait + Clock + Sync,
    G: Gate + Sync,
    A: Ledger + Send + Sync,
    B: Ledger + Send + Sync,
    C: Ledger + Send + Sync,
>(rt: &R, blanks: (Blank, Blank, Blank), gate: &G, load: Load<'_>) -> Option<Relayed>
    requires { AreBlanks blanks A.name A.parts B.name B.parts C.name C.parts }
{
    let Load { alloc, plan, .. } = load;
    if plan.link >= 8 {
        return None;
    }
    let (hub, seat) = Hub::<A, B, C>::new(alloc, plan.link, blanks).ok()?;
    let (are_opened, sent) = run_roles(rt, &hub, seat, gate, load);
    let Sent { seat, answers } = sent;
    Some(Relayed {
        are_opened,
        answers,
        line_count: line_count(rt, alloc, &hub),
        totals: finish(hub, seat),
    })
}

/// Puts the messages of a plan through a link of its own. `None`: out of memory.
pub(crate) fn relay<R: Threads + Wait + Clock + Sync, G: Gate + Sync>(
    rt: &R,
    alloc: Global,
    gate: &G,
    table: &Table,
    marks: &Marks,
    plan: Plan,
) -> Option<Relayed> {
    let blanks = (Blank::new(PARTS), Blank::new(PARTS), Blank::new(PARTS));
    let load = Load {
        alloc,
        table,
        marks,
        plan,
    };
    run_link::<R, G, Brand, Brand, Brand>(rt, blanks, gate, load)
}
