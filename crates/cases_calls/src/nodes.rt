//! Nodes: the effects of the octets of their connections and of their link.
//!
//! | Case | Result |
//! |---|---|
//! | `node OWN EXCHANGE NAME,.. EVENT ..` | the effects of each event on a node with these units: what it reports, the octets to be written (`K<HEX` to the connection in place K, `link<HEX`), and the connections whose writing side is to be shut (`K|`); all of these are carried out before the next event |
//!
//! | Event | Meaning |
//! |---|---|
//! | `came:AT` | a connection is accepted at this time, into the first free place |
//! | `received:K:HEX` | octets are received on the connection in place K |
//! | `over:K` | the peer of the connection in place K closed it |
//! | `failed:K` | a read or a write of the connection in place K failed |
//! | `link:HEX` | the link sends octets |
//! | `links:N:HEX` | the link sends these octets N times |
//! | `tick:AT` | the clock shows this time |
//! | `drain:AT` | the node is to drain, from this time on |
//! | `read:K:AT` | the connection in place K was read at this time, and its socket had no more |
//! | `reads:K:AT:N` | that happens N times, and its socket may have more each time |
//! | `common` | nothing happens, and it is written whether a connection has the common unit |
//! | `down` | the link is down |
//! | `counts` | no event; the counts are written |
//!
//! More than 10,000 octets for a connection are written as their number, `K<#N`.

use crate::connections::names_of;
use crate::network::{address_of, parts};
use crate::values::kept;
use cases::{Answer, first_word, number_of, octets_of};
use fp_ipa::UnitName;
use fp_network::{Closing, Node, Plan};
use std::alloc::Global;
use std::net::{Ipv4Addr, SocketAddr};

/// The most octets for a connection that are written as octets.
const MOST_WRITTEN: usize = 10_000;

/// A connection comes.
fn come(node: &mut Node, connection: &str, out: &mut Answer) {
    let peer = SocketAddr::from((Ipv4Addr::LOCALHOST, 5000));
    kept(node.came(peer, number_of(connection, out)), out);
}

/// A node receives octets of a connection.
fn receive(alloc: Global, node: &mut Node, place: &str, text: &str, out: &mut Answer) {
    let octets = octets_of(alloc, text, out);
    let place = number_of(place, out);
    out.note(node.received(place, octets.as_slice()));
}

/// A node receives octets of its link this number of times.
fn receive_from_link(alloc: Global, node: &mut Node, text: &str, times: u32, out: &mut Answer) {
    let octets = octets_of(alloc, text, out);
    for _ in 0..times {
        kept(node.received_from_link(octets.as_slice()), out);
    }
}

/// The connection in a place is read at a time, this number of times, and its socket may have more each time.
fn read_often(node: &mut Node, place: &str, text: &str, out: &mut Answer) {
    let (at, times) = parts(text);
    let place: usize = number_of(place, out);
    let at: u64 = number_of(at, out);
    let times: u32 = number_of(times, out);
    for _ in 0..times {
        node.read_late(place, at, false);
    }
}

/// The connection in a place is read at a time, and its socket has nothing more.
fn read_once(node: &mut Node, place: &str, at: &str, out: &mut Answer) {
    let place: usize = number_of(place, out);
    node.read_late(place, number_of(at, out), true);
}

/// Handles an event.
fn happen(alloc: Global, node: &mut Node, event: &str, out: &mut Answer) {
    let (kind, rest) = parts(event);
    let (first, second) = parts(rest);
    match kind {
        "came" => come(node, first, out),
        "received" => receive(alloc, node, first, second, out),
        "over" => node.close(number_of(first, out), Closing::PeerClosed),
        "failed" => node.close(number_of(first, out), Closing::Failed),
        "link" => receive_from_link(alloc, node, first, 1, out),
        "links" => receive_from_link(alloc, node, second, number_of(first, out), out),
        "down" => node.close_all(),
        "tick" => node.tick(number_of(first, out)),
        "drain" => node.drain(number_of(first, out)),
        "read" => read_once(node, first, second, out),
        "reads" => read_often(node, first, second, out),
        "counts" | "common" => {}
        _ => out.fail("no such event"),
    }
}

/// Writes the events that the node reports.
fn push_events(out: &mut Answer, node: &mut Node) {
    for _ in 0..100 {
        let Some(event) = node.next_event() else {
            return;
        };
        out.labeled(" [", event);
        out.text("]");
    }
}

/// Writes octets, or their number if there are many.
fn push_many(out: &mut Answer, octets: &[u8]) {
    if octets.len() > MOST_WRITTEN {
        return out.labeled("#", octets.len());
    }
    out.octets(octets);
}

/// Writes the octets that wait for the connection in a place, and whether its writing side is to be shut. Clears the
/// place if its connection is to be closed.
fn push_waiting(out: &mut Answer, node: &mut Node, place: usize) {
    if node.is_over(place) {
        return node.clear(place);
    }
    let count = node.waiting(place).len();
    if count > 0 {
        out.labeled(" ", place);
        out.text("<");
        push_many(out, node.waiting(place));
        node.written(place, count);
    }
    if node.is_to_shut(place) {
        out.labeled(" ", place);
        out.text("|");
        node.shut(place);
    }
}

/// Writes the octets that wait for the link.
fn push_for_link(out: &mut Answer, node: &mut Node) {
    let count = node.waiting_for_link().len();
    if count > 0 {
        out.text(" link<");
        out.octets(node.waiting_for_link());
        node.written_to_link(count);
    }
}

/// Writes the effects of an event on a node.
fn push_effects(out: &mut Answer, node: &mut Node, event: &str) {
    push_events(out, node);
    for place in 0..Node::PLACES {
        push_waiting(out, node, place);
    }
    push_for_link(out, node);
    if event == "counts" {
        out.labeled(" ", node.tally());
    }
    if event == "common" {
        out.either(node.has_no_common(), " none", " one");
    }
}

/// The effects of the events of a node.
fn node(alloc: Global, text: &str, out: &mut Answer) {
    let (own, rest) = first_word(text);
    let (exchange, rest) = first_word(rest);
    let (names, events) = first_word(rest);
    let names = names_of(alloc, names, out);
    node_with(alloc, own, exchange, names.as_slice(), events, out);
}

/// The effects of the events of a node with these addresses and units.
fn node_with(
    alloc: Global,
    own: &str,
    exchange: &str,
    units: &[UnitName],
    events: &str,
    out: &mut Answer,
) {
    let own = address_of(alloc, own, out);
    let exchange = address_of(alloc, exchange, out);
    let (Some(own), Some(exchange)) = (own, exchange) else {
        return;
    };
    let plan = Plan {
        own,
        exchange,
        units,
    };
    if let Some(mut node) = kept(Node::new(alloc, plan), out) {
        push_all(alloc, &mut node, events, out);
    }
}

/// Handles events, and writes the effects of each.
fn push_all(alloc: Global, node: &mut Node, events: &str, out: &mut Answer) {
    for event in events.split(' ') {
        happen(alloc, node, event, out);
        push_effects(out, node, event);
        out.text(";");
    }
}

/// Writes the result of a case of this kind. `false` if this module has no such cases.
pub(crate) fn answer(alloc: Global, kind: &str, rest: &str, out: &mut Answer) -> bool {
    if kind != "node" {
        return false;
    }
    node(alloc, rest, out);
    true
}
