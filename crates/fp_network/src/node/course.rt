//! How the connections of a node go on to their end: the node drains, time goes by, or the link is
//! down.

ghost use Rattle.std.specs.Prelude.{◌≡◌, ℕ, List, [], ◌∷◌, false, true, None, Some, ◌<◌, length};
ghost use Rattle.std.specs.Bool.{Decides};
ghost use Rattle.std.specs.Option.{option_map};
ghost use Rattle.fp_adaptor.specs.declared.setting.Setting.{Setting};
ghost use Rattle.fp_adaptor.specs.Adaptor.{Led};
ghost use Rattle.fp_adaptor.specs.History.{Event};
ghost use Rattle.fp_network.specs.declared.event.Closing.TheVariants.{Draining, LinkDown};
ghost use Rattle.fp_network.specs.declared.event.NetworkEvent.TheVariants.{Gone};
ghost use Rattle.fp_network.specs.Changes.{closing, counting_read, draining, reading_late, shutting, ticking, writing};
ghost use Rattle.fp_network.specs.Counting.{Counts, Notes, ReportsEach, gone_at, number_of};
ghost use Rattle.fp_network.specs.Endings.{EndsClosed, KeepsTied};
ghost use Rattle.fp_network.specs.Receiving.{SkipsNone};
ghost use Rattle.fp_network.specs.Node.{ChangesEach, IsToShut, LeavesLink, LeavesOthers, connection_in, for_link, has_common_of, is_draining_at, is_late_of, is_read_out_of, overdue_of, waiting_at};

use crate::{Closing, Node};
use fp_adaptor::Setting;

impl Node {
    /// Notes for the connection in a place that the node drains since this time. If the connection
    /// has the common unit, its writing side is to be shut.
    fn drain_place(&mut self, place: usize, at: u64)
        ensures here { connection_in self.new place ≡ option_map
            (draining (length self.old.names.items) at) (connection_in self.old place) }
        ensures others { LeavesOthers place self.old self.new }
        ensures link { LeavesLink self.old self.new }
        ensures adaptor { self.new.adaptor ≡ self.old.adaptor }
        ensures tally { self.new.tally ≡ self.old.tally }
        ensures news { self.new.news ≡ self.old.news }
    {
        let units = self.names.len();
        let Some(slot) = self.places.get_mut(place) else {
            return;
        };
        let Some(connection) = slot.as_mut() else {
            return;
        };
        connection.drain(units, at);
    }

    /// Notes for each connection that the node drains since this time. The connection of the
    /// common unit is to be shut for writing.
    fn drain_places(&mut self, at: u64)
        ensures each { ChangesEach (draining (length self.old.names.items) at) self.old self.new }
        ensures link { LeavesLink self.old self.new }
        ensures adaptor { self.new.adaptor ≡ self.old.adaptor }
        ensures tally { self.new.tally ≡ self.old.tally }
        ensures news { self.new.news ≡ self.old.news }
    {
        for place in 0..self.places.len() {
            self.drain_place(place, at);
        }
    }

    /// The node is to drain, from this time on, if it doesn't already. No connection is accepted
    /// for the common unit, and the one that is there is to be shut for writing. Its messages are
    /// still taken for two seconds, and then until its socket is read out ([`Node::read_late`]).
    pub fn drain(&mut self, at: u64)
        ensures drains { self.new.is_draining ≡ true }
        ensures each { ChangesEach (draining (length self.old.names.items) at) self.old self.new }
        ensures link { for_link self.new ≡ for_link self.old }
        ensures from_link { self.new.from_link ≡ self.old.from_link }
        ensures names { self.new.names.items ≡ self.old.names.items }
        ensures count { length self.new.places.items ≡ length self.old.places.items }
        ensures adaptor { self.new.adaptor ≡ self.old.adaptor }
        ensures tally { self.new.tally ≡ self.old.tally }
        ensures news { self.new.news ≡ self.old.news }
        ensures tied { KeepsTied self.old self.new }
    {
        self.drain_places(at);
        self.is_draining = true;
    }

    /// Whether the writing side of the connection in a place is to be shut now: its node drains,
    /// nothing waits for it, and messages of the link go by another connection.
    pub fn is_to_shut(&self, place: usize) -> bool
        ensures idle { result ≡ true → length (waiting_at self.now place) ≡ 0 }
        ensures drains { result ≡ true → is_draining_at self.now place ≡ true }
        ensures decides { (setting : Setting) (history : List Event)
            → Led self.now.adaptor setting history
            → Decides result (IsToShut self.now history place) }
    {
        let Some(connection) = self.at(place) else {
            return false;
        };
        if !connection.is_draining() {
            return false;
        }
        if !connection.waiting().is_empty() {
            return false;
        }
        match self.adaptor.sends_by() {
            Some(by) => by != place,
            None => false,
        }
    }

    /// Notes that the writing side of the connection in a place was shut, if it was to be shut.
    /// Nothing more is written to that connection.
    pub fn shut(&mut self, place: usize)
        ensures here { connection_in self.new place
            ≡ option_map shutting (connection_in self.old place) }
        ensures others { LeavesOthers place self.old self.new }
        ensures link { LeavesLink self.old self.new }
        ensures adaptor { self.new.adaptor ≡ self.old.adaptor }
        ensures tally { self.new.tally ≡ self.old.tally }
        ensures news { self.new.news ≡ self.old.news }
        ensures tied { KeepsTied self.old self.new }
    {
        let Some(slot) = self.places.get_mut(place) else {
            return;
        };
        let Some(connection) = slot.as_mut() else {
            return;
        };
        connection.shut();
    }

    /// Why the connection in a place is to be closed at this time, if time is over for it.
    fn overdue(&self, place: usize, at: u64) -> Option<Closing>
        ensures { result ≡ overdue_of at (connection_in self.now place) }
    {
        match self.at(place) {
            Some(connection) => connection.overdue(at),
            None => None,
        }
    }

    /// Time goes by: the connection in a place is to be closed if time is over for it.
    fn tick_place(&mut self, place: usize, at: u64)
        ensures here { connection_in self.new place
            ≡ option_map (ticking at) (connection_in self.old place) }
        ensures others { LeavesOthers place self.old self.new }
        ensures ended { EndsClosed self.old self.new }
        ensures link { LeavesLink self.old self.new }
        ensures counted { Counts [] self.old self.new }
        ensures reported { Notes (gone_at self.old self.new place) self.old self.new }
        ensures skipped { SkipsNone self.old self.new }
    {
        let Some(why) = self.overdue(place, at) else {
            return;
        };
        self.close(place, why);
    }

    /// Time goes by: connections that aren't active after five seconds are to be closed.
    pub fn tick(&mut self, at: u64)
        ensures each { ChangesEach (ticking at) self.old self.new }
        ensures ended { EndsClosed self.old self.new }
        ensures link { LeavesLink self.old self.new }
        ensures counted { Counts [] self.old self.new }
        ensures reported { ReportsEach self.old self.new }
        ensures skipped { SkipsNone self.old self.new }
        ensures tied { KeepsTied self.old self.new }
    {
        for place in 0..self.places.len() {
            self.tick_place(place, at);
        }
    }

    /// Whether the node drains for two seconds at this time and the connection in a place has the
    /// common unit and isn't to be closed. Then you must read its socket, and report that by
    /// [`Node::read_late`].
    pub fn is_late(&self, place: usize, at: u64) -> bool
        ensures { result ≡ is_late_of at (connection_in self.now place) }
    {
        match self.at(place) {
            Some(connection) => connection.is_late(at),
            None => false,
        }
    }

    /// Whether the connection in a place is closed by a read of its socket that ends at this time.
    fn is_read_out(&self, place: usize, at: u64, found_no_more: bool) -> bool
        ensures { result ≡ is_read_out_of at found_no_more (connection_in self.now place) }
    {
        match self.at(place) {
            Some(connection) => connection.is_read_out(at, found_no_more),
            None => false,
        }
    }

    /// Counts a read of the socket of the connection in a place that ends at this time, if the
    /// connection is late.
    fn count_read(&mut self, place: usize, at: u64)
        ensures here { connection_in self.new place
            ≡ option_map (counting_read at) (connection_in self.old place) }
        ensures others { LeavesOthers place self.old self.new }
        ensures link { LeavesLink self.old self.new }
        ensures adaptor { self.new.adaptor ≡ self.old.adaptor }
        ensures tally { self.new.tally ≡ self.old.tally }
        ensures news { self.new.news ≡ self.old.news }
    {
        let Some(slot) = self.places.get_mut(place) else {
            return;
        };
        let Some(connection) = slot.as_mut() else {
            return;
        };
        connection.count_read(at);
    }

    /// The socket of the connection in a place was read at this time, and the octets were handed to
    /// [`Node::received`]. If the connection is late and the read found no more than these, or was
    /// the last of 2,048 reads, the connection is to be closed.
    pub fn read_late(&mut self, place: usize, at: u64, found_no_more: bool)
        ensures here { connection_in self.new place
            ≡ option_map (reading_late at found_no_more) (connection_in self.old place) }
        ensures others { LeavesOthers place self.old self.new }
        ensures ended { EndsClosed self.old self.new }
        ensures link { LeavesLink self.old self.new }
        ensures counted { Counts [] self.old self.new }
        ensures skipped { SkipsNone self.old self.new }
        ensures reported { is_read_out_of at found_no_more (connection_in self.old place) ≡ true
            → (number : ℕ) × (number_of (connection_in self.old place) ≡ Some number)
            × Notes (Gone number Draining ∷ []) self.old self.new }
        ensures silent { is_read_out_of at found_no_more (connection_in self.old place) ≡ false
            → self.new.news ≡ self.old.news }
        ensures tied { KeepsTied self.old self.new }
    {
        if self.is_read_out(place, at, found_no_more) {
            self.close(place, Closing::Draining);
            return;
        }
        self.count_read(place, at);
    }

    /// Whether the connection in a place has the common unit and isn't to be closed.
    fn has_common_at(&self, place: usize) -> bool
        ensures { result ≡ has_common_of (length self.now.names.items) (connection_in self.now place) }
    {
        let units = self.names.len();
        match self.at(place) {
            Some(connection) => !connection.is_over() && connection.is_of_common(units),
            None => false,
        }
    }

    /// Whether no connection has the common unit, except connections that are to be closed. Once
    /// the node drains, no other connection gets that unit.
    pub fn has_no_common(&self) -> bool
        ensures { Decides result ((place : ℕ)
            → has_common_of (length self.now.names.items) (connection_in self.now place) ≡ false) }
    {
        for place in 0..self.places.len() {
            if self.has_common_at(place) {
                return false;
            }
        }
        true
    }

    /// All connections are to be closed, since the link is down.
    pub fn close_all(&mut self)
        ensures each { ChangesEach (closing LinkDown) self.old self.new }
        ensures ended { EndsClosed self.old self.new }
        ensures link { LeavesLink self.old self.new }
        ensures counted { Counts [] self.old self.new }
        ensures reported { ReportsEach self.old self.new }
        ensures skipped { SkipsNone self.old self.new }
        ensures tied { KeepsTied self.old self.new }
    {
        for place in 0..self.places.len() {
            self.close(place, Closing::LinkDown);
        }
    }
}
