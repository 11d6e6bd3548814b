//! The threads of a run's links: one for each connected link, or for the one that a network carries.

use crate::link::{Plan, run_link};
use crate::run::report::NOTHING;
use crate::run::{Links, Run, ServeFault, Settings, StandingLink};
use crate::socket::{LinkStream, connection};
use crate::system::System;
use fp_book::Totals;
use fp_hub::Gate;
use fp_watch::Peer;
use std::alloc::{AllocError, Global};
use std::net::TcpListener;
use std::thread;
use std::thread::{JoinHandle, Scope};

/// Starts a thread for a connected link, of this peer. There is room for its handle.
fn start_link<'s, E: 's, R: System + Sync, G: Gate + Sync>(
    scope: &'s Scope<'s, E>,
    run: &'s Run<'s, R>,
    gate: &'s G,
    plan: Plan,
    peer: Peer,
    stream: LinkStream,
    handles: &mut Vec<JoinHandle<Option<Totals>>>,
) {
    run.statuses.add(run.rt, peer);
    match scope.spawn(move || run_link(run, plan, gate, &stream)) {
        Ok(handle) => {
            let _ = handles.push(handle);
        }
        Err(_) => run.stop.ask_for(run.rt, ServeFault::NoThread),
    }
}

/// Accepts a connection for each link of a run and starts a thread for it, as long as connections are wanted. Then
/// drops the listener, so that later ones are refused. There is room for the handles.
fn await_links<'s, E: 's, R: System + Sync, G: Gate + Sync>(
    scope: &'s Scope<'s, E>,
    run: &'s Run<'s, R>,
    gate: &'s G,
    listener: TcpListener,
    handles: &mut Vec<JoinHandle<Option<Totals>>>,
) {
    let Settings {
        links,
        first_link,
        ..
    } = run.settings;
    for place in 0..links {
        let Some((stream, peer)) = connection(run.rt, &listener, run.stop) else {
            break;
        };
        let plan = Plan {
            place,
            link: first_link + place,
        };
        let stream = LinkStream::Socket(stream);
        start_link(scope, run, gate, plan, Peer::Client(peer), stream, handles);
    }
}

/// Starts a thread for the first link of a run, which a network carries, unless no connections are wanted.
fn start_standing<'s, E: 's, R: System + Sync, G: Gate + Sync>(
    scope: &'s Scope<'s, E>,
    run: &'s Run<'s, R>,
    gate: &'s G,
    link: StandingLink,
    handles: &mut Vec<JoinHandle<Option<Totals>>>,
) {
    if run.stop.refuses_connections(run.rt) {
        return;
    }
    let StandingLink { network, peer, .. } = link;
    let stream = LinkStream::Network(network);
    let plan = Plan {
        place: 0,
        link: run.settings.first_link,
    };
    start_link(scope, run, gate, plan, Peer::Named(peer), stream, handles);
}

/// Starts a thread for each link of a run, from either source.
fn start_links<'s, E: 's, R: System + Sync, G: Gate + Sync>(
    scope: &'s Scope<'s, E>,
    run: &'s Run<'s, R>,
    gate: &'s G,
    links: Option<Links>,
    handles: &mut Vec<JoinHandle<Option<Totals>>>,
) {
    let Some(links) = links else {
        return;
    };
    match links {
        Links::Awaited(listener) => await_links(scope, run, gate, listener, handles),
        Links::Standing(link) => start_standing(scope, run, gate, link, handles),
    }
}

/// Waits for the threads of the links of a run. Appends the totals of each link, in their order, up to the first link
/// whose totals aren't known. If all are known and the links were asked to end, appends zeros for each link that was
/// never connected. There must be room for the totals of all links.
fn join_links<R: System>(
    run: &Run<'_, R>,
    handles: Vec<JoinHandle<Option<Totals>>>,
    counted: &mut Vec<Totals>,
) {
    let mut is_known = true;
    for handle in handles {
        match handle.join(run.rt) {
            Some(totals) if is_known => {
                let _ = counted.push(totals);
            }
            Some(_) | None => is_known = false,
        }
    }
    if is_known && run.stop.is_quitting() {
        for _ in counted.len()..usize::from(run.settings.links) {
            let _ = counted.push(NOTHING);
        }
    }
}

/// Runs links, at most 8, until all of them are down, and returns their totals, in their order, up to the first link
/// whose totals aren't known.
pub(crate) fn run_links<'x, R: System + Sync, G: Gate + Sync>(
    run: &'x Run<'x, R>,
    gate: &'x G,
    links: Option<Links>,
) -> Result<Vec<Totals>, AllocError> {
    thread::scope(
        thread::scope_env(),
        run.rt,
        move |scope| -> Result<Vec<Totals>, AllocError> {
            let alloc: Global = run.service.alloc;
            let most = usize::from(run.settings.links);
            let mut handles = Vec::with_capacity(alloc, most)?;
            let mut counted = Vec::with_capacity(alloc, most)?;
            start_links(scope, run, gate, links, &mut handles);
            join_links(run, handles, &mut counted);
            Ok(counted)
        },
    )
}
