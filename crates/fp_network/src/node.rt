//! A node, as its network and its link see it.
//!
//! | File | Contents |
//! |---|---|
//! | `node.rt` | [`Node`]: its connections, from the first to the last moment |
//! | `course.rt` | how connections end: the node drains, time goes by, the link is down |
//! | `output.rt` | octets that wait to be written to connections and to the link |
//! | `receiving.rt` | octets of connections, and the messages in them |
//! | `forwarding.rt` | octets of the link, and the messages in them |

ghost use Rattle.std.specs.Prelude.{◌≡◌, ℕ, List, [], ◌∷◌, false, true, None, Some, ◌<◌, ◌≤◌, is_none, IfOk, IfSome, OnErr, OnOk, MatchOption, length};
ghost use Rattle.std.specs.Option.{option_map};
ghost use Rattle.std.specs.VecDeque.{deque_capacity};
ghost use Rattle.fp_adaptor.specs.declared.setting.Setting.{Setting};
ghost use Rattle.fp_adaptor.specs.Adaptor.{Led};
ghost use Rattle.fp_adaptor.specs.Connections.{IsFirst};
ghost use Rattle.fp_adaptor.specs.Counted.{count_after, one_more};
ghost use Rattle.fp_adaptor.specs.declared.counts.Counted.{Counted};
ghost use Rattle.fp_adaptor.specs.History.{Event, connection_after, ended};
ghost use Rattle.fp_network.specs.Changes.{closing};
ghost use Rattle.fp_network.specs.Counting.{Notes, gone_unless, number_of};
ghost use Rattle.fp_network.specs.Endings.{IsTied, KeepsTied};
ghost use Rattle.fp_network.specs.Node.{Came, IsFree, IsFull, LeavesLink, LeavesOthers, connection_at, connection_in, for_link, is_over_at, setting_of};
ghost use Rattle.fp_network.specs.declared.event.Closing.{Closing};
ghost use Rattle.fp_network.specs.declared.event.NetworkEvent.TheVariants as events;
ghost use Rattle.fp_network.specs.Receiving.{SkipsNone};
ghost use Rattle.fp_network.specs.Tally.{closed_once_more, closings_of, messages_of, refused_unless};
ghost use Rattle.fp_network.specs.Units.{own_first};

mod course;
mod forwarding;
mod output;
mod receiving;

use crate::connection::Connection;
use crate::plan::own_first;
use crate::waiting::Waiting;
use crate::{Closing, NetworkEvent, Plan, Tally};
use fp_adaptor::{Adaptor, Setting};
use fp_frames::FrameReader;
use fp_ipa::UnitName;
use std::alloc::{AllocError, Global};
use std::collections::VecDeque;
use std::net::SocketAddr;

/// The places of a node, all free.
fn free_places(alloc: Global) -> Result<Vec<Option<Connection>>, AllocError>
    ensures count { IfOk result (λ places. length places.items ≡ 16) }
    ensures free { IfOk result (λ places. (place : ℕ) → connection_at places.items place ≡ None) }
{
    let mut places = Vec::with_capacity(alloc, Node::PLACES)?;
    for _place in 0..Node::PLACES {
        places.push(None)?;
    }
    Ok(places)
}

/// A node: the connections of its network, and its link.
///
/// Connections have places, from 0 up to [`Node::PLACES`]. A new connection takes a free place. The
/// place is free again once it was cleared. Moments are milliseconds of one clock.
#[derive(Drop)]
pub struct Node {
    alloc: Global,
    // The units, the common one last.
    names: Vec<UnitName>,
    adaptor: Adaptor,
    places: Vec<Option<Connection>>,
    // The stream of the link's octets, and the octets that wait to be written to the link.
    from_link: FrameReader,
    to_link: Waiting,
    is_draining: bool,
    tally: Tally,
    // Events that `next_event` hasn't returned yet.
    news: VecDeque<NetworkEvent>,
}

impl Node {
    /// How many connections there may be at a time.
    pub const PLACES: usize = 16;

    /// How many events a new node has room for. A turn of [`crate::NetworkLink`] adds at most 64:
    /// it accepts at most 16 connections, which came and may be over at once, and each of the 16
    /// that are there may become active and be over.
    pub const EVENTS: usize = 128;

    /// A node without connections. `Err`: memory ran out.
    pub fn new(alloc: Global, plan: Plan<'_>) -> Result<Node, AllocError>
        ensures link { IfOk result (λ node. for_link node ≡ []) }
        ensures places { IfOk result (λ node. (place : ℕ) → connection_in node place ≡ None) }
        ensures count { IfOk result (λ node. length node.places.items ≡ 16) }
        ensures names { IfOk result (λ node. node.names.items ≡ own_first plan.entry.units.now) }
        ensures led { IfOk result (λ node. Led node.adaptor (setting_of plan.entry) []) }
        ensures tied { IfOk result (λ node. IsTied node []) }
        ensures stays { IfOk result (λ node. node.is_draining ≡ false) }
        ensures from_link { IfOk result (λ node. node.from_link ≡ []) }
        ensures counts { IfOk result (λ node. (why : Closing) → closings_of node.tally why ≡ 0) }
        ensures connections { IfOk result (λ node. node.tally.connections ≡ 0) }
        ensures skipped { IfOk result (λ node. node.tally.skipped ≡ 0) }
        ensures news { IfOk result (λ node. node.news.items ≡ []) }
        ensures room { IfOk result (λ node. 128 ≤ deque_capacity node.news) }
    {
        let names = own_first(alloc, plan.units)?;
        let setting = Setting {
            own: plan.own,
            exchange: plan.exchange,
            units: names.len(),
        };
        let adaptor = Adaptor::new(alloc, setting)?;
        let places = free_places(alloc)?;
        let news = VecDeque::with_capacity(alloc, Self::EVENTS)?;
        Ok(Node {
            alloc,
            names,
            adaptor,
            places,
            from_link: FrameReader::new(alloc),
            to_link: Waiting::new(alloc),
            is_draining: false,
            tally: Tally::new(),
            news,
        })
    }

    /// Adds an event to those that `next_event` returns, unless memory runs out for it.
    fn note(&mut self, event: NetworkEvent)
        ensures link { LeavesLink self.old self.new }
        ensures places { self.new.places ≡ self.old.places }
        ensures adaptor { self.new.adaptor ≡ self.old.adaptor }
        ensures tally { self.new.tally ≡ self.old.tally }
        ensures news { Notes (event ∷ []) self.old self.new }
    {
        let _ = self.news.push_back(event);
    }

    /// The next event, if there is one that wasn't returned yet. Events are returned in order, and
    /// the room of each is free again.
    pub fn next_event(&mut self) -> Option<NetworkEvent>
        ensures link { LeavesLink self.old self.new }
        ensures places { self.new.places ≡ self.old.places }
        ensures adaptor { self.new.adaptor ≡ self.old.adaptor }
        ensures tally { self.new.tally ≡ self.old.tally }
        ensures tied { KeepsTied self.old self.new }
        ensures news { MatchOption result
            ((self.old.news.items ≡ []) × (self.new.news.items ≡ []))
            (λ event. self.old.news.items ≡ event ∷ self.new.news.items) }
        ensures room { deque_capacity self.new.news ≡ deque_capacity self.old.news }
    {
        self.news.pop_front()
    }

    /// The place of the connection that a message of the link would take now.
    pub fn sends_by(&self) -> Option<usize>
        ensures { (setting : Setting) (history : List Event) → Led self.now.adaptor setting history
            → IsFirst (connection_after history) result }
    {
        self.adaptor.sends_by()
    }

    /// The numbers so far.
    pub fn tally(&self) -> Tally
        ensures closings { (why : Closing)
            → closings_of result why ≡ closings_of self.now.tally why }
        ensures messages { (setting : Setting) (history : List Event)
            → Led self.now.adaptor setting history
            → (kind : Counted) → messages_of result kind ≡ count_after history kind }
        ensures connections { result.connections ≡ self.now.tally.connections }
        ensures skipped { result.skipped ≡ self.now.tally.skipped }
    {
        self.tally.with_messages(&self.adaptor)
    }

    /// The connection in a place, if there is one.
    fn at(&self, place: usize) -> Option<&Connection>
        ensures { MatchOption result (connection_at self.now.places.items place ≡ None)
            (λ connection. connection_at self.now.places.items place ≡ Some connection.now) }
    {
        let Some(slot) = self.places.get(place) else {
            return None;
        };
        slot.as_ref()
    }

    /// Whether a place is free.
    fn is_free(&self, place: usize) -> bool
        ensures { result ≡ is_none (connection_in self.now place) }
    {
        match self.at(place) {
            Some(_) => false,
            None => true,
        }
    }

    /// The first place that is free.
    fn free_place(&self) -> Option<usize>
        ensures { MatchOption result (IsFull self.now) (IsFree self.now) }
    {
        for place in 0..self.places.len() {
            if self.is_free(place) {
                return Some(place);
            }
        }
        None
    }

    /// A place gets a connection.
    fn put(&mut self, place: usize, connection: Connection)
        requires { place < length self.old.places.items }
        ensures here { connection_in self.new place ≡ Some connection }
        ensures others { LeavesOthers place self.old self.new }
        ensures link { LeavesLink self.old self.new }
        ensures adaptor { self.new.adaptor ≡ self.old.adaptor }
        ensures tally { self.new.tally ≡ self.old.tally }
        ensures news { self.new.news ≡ self.old.news }
    {
        self.places[place] = Some(connection);
    }

    /// A transfer point connected from this address, at this time. Returns the place of the
    /// connection, or `None` if all places are taken; then you must close it. `Err`: memory ran
    /// out.
    pub fn came(&mut self, peer: SocketAddr, at: u64) -> Result<Option<usize>, AllocError>
        ensures came { IfOk result (Came at self.old self.new) }
        ensures counted { IfOk result (λ place. (other : Closing) → closings_of self.new.tally other
            ≡ refused_unless place other (closings_of self.old.tally other)) }
        ensures connections { self.new.tally.connections ≡ one_more self.old.tally.connections }
        ensures number { IfOk result (λ place. IfSome place (λ place.
            number_of (connection_in self.new place) ≡ Some self.new.tally.connections)) }
        ensures skipped { SkipsNone self.old self.new }
        ensures link { LeavesLink self.old self.new }
        ensures adaptor { self.new.adaptor ≡ self.old.adaptor }
        ensures news { IfOk result (λ place. Notes (events.Came self.new.tally.connections peer
            ∷ gone_unless self.new.tally.connections place) self.old self.new) }
        ensures silent { OnErr result (self.new.news ≡ self.old.news) }
        ensures tied { OnOk result (KeepsTied self.old self.new) }
    {
        let number = self.tally.connection();
        let event = NetworkEvent::Came {
            connection: number,
            peer,
        };
        let Some(place) = self.free_place() else {
            self.note(event);
            self.count_closing(number, Closing::TooMany);
            return Ok(None);
        };
        let connection = Connection::new(self.alloc, number, at)?;
        self.put(place, connection);
        self.note(event);
        Ok(Some(place))
    }

    /// A connection is closed for this reason.
    fn count_closing(&mut self, connection: u64, why: Closing)
        ensures link { LeavesLink self.old self.new }
        ensures places { self.new.places ≡ self.old.places }
        ensures adaptor { self.new.adaptor ≡ self.old.adaptor }
        ensures counted { (other : Closing) → closings_of self.new.tally other
            ≡ closed_once_more why other (closings_of self.old.tally other) }
        ensures connections { self.new.tally.connections ≡ self.old.tally.connections }
        ensures skipped { SkipsNone self.old self.new }
        ensures news { Notes (events.Gone connection why ∷ []) self.old self.new }
    {
        self.tally.closing(why);
        self.note(NetworkEvent::Gone { connection, why });
    }

    /// The connection in a place is to be closed for this reason, if there is one that isn't to be
    /// closed already, and then its number is returned.
    fn finish(&mut self, place: usize, why: Closing) -> Option<u64>
        ensures here { connection_in self.new place
            ≡ option_map (closing why) (connection_in self.old place) }
        ensures others { LeavesOthers place self.old self.new }
        ensures link { LeavesLink self.old self.new }
        ensures adaptor { self.new.adaptor ≡ self.old.adaptor }
        ensures tally { self.new.tally ≡ self.old.tally }
        ensures number { MatchOption result (is_over_at self.old place ≡ true)
            (λ number. is_over_at self.old place ≡ false) }
        ensures is { IfSome result (λ number.
            number_of (connection_in self.old place) ≡ Some number) }
        ensures news { self.new.news ≡ self.old.news }
    {
        let Some(slot) = self.places.get_mut(place) else {
            return None;
        };
        let Some(connection) = slot.as_mut() else {
            return None;
        };
        let was_over = connection.closing().is_some();
        let number = connection.number();
        connection.close(why);
        if was_over {
            return None;
        }
        Some(number)
    }

    /// The connection in a place is to be closed for this reason, if there is one that isn't to be
    /// closed already. The link has it no longer.
    pub fn close(&mut self, place: usize, why: Closing)
        ensures here { connection_in self.new place
            ≡ option_map (closing why) (connection_in self.old place) }
        ensures others { LeavesOthers place self.old self.new }
        ensures link { LeavesLink self.old self.new }
        ensures ended { is_over_at self.old place ≡ false
            → (setting : Setting) (history : List Event) → Led self.old.adaptor setting history
            → Led self.new.adaptor setting (ended place ∷ history) }
        ensures stays { is_over_at self.old place ≡ true → self.new.adaptor ≡ self.old.adaptor }
        ensures counted { is_over_at self.old place ≡ false → (other : Closing)
            → closings_of self.new.tally other
            ≡ closed_once_more why other (closings_of self.old.tally other) }
        ensures uncounted { is_over_at self.old place ≡ true → self.new.tally ≡ self.old.tally }
        ensures connections { self.new.tally.connections ≡ self.old.tally.connections }
        ensures skipped { SkipsNone self.old self.new }
        ensures reported { is_over_at self.old place ≡ false → (number : ℕ)
            × (number_of (connection_in self.old place) ≡ Some number)
            × Notes (events.Gone number why ∷ []) self.old self.new }
        ensures silent { is_over_at self.old place ≡ true → self.new.news ≡ self.old.news }
        ensures tied { KeepsTied self.old self.new }
    {
        let Some(number) = self.finish(place, why) else {
            return;
        };
        self.adaptor.ended(place);
        self.count_closing(number, why);
    }

    /// Whether the connection in a place is to be closed, or none is there.
    pub fn is_over(&self, place: usize) -> bool
        ensures { result ≡ is_over_at self.now place }
    {
        match self.at(place) {
            Some(connection) => connection.closing().is_some(),
            None => true,
        }
    }

    /// Clears a place, after the socket of its connection was closed.
    pub fn clear(&mut self, place: usize)
        requires { is_over_at self.old place ≡ true }
        ensures cleared { connection_in self.new place ≡ None }
        ensures others { LeavesOthers place self.old self.new }
        ensures link { LeavesLink self.old self.new }
        ensures adaptor { self.new.adaptor ≡ self.old.adaptor }
        ensures tally { self.new.tally ≡ self.old.tally }
        ensures news { self.new.news ≡ self.old.news }
        ensures tied { KeepsTied self.old self.new }
    {
        if place < self.places.len() {
            self.places[place] = None;
        }
    }
}
