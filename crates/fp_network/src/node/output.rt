//! Octets that wait to be written to the connections of a node and to its link.

ghost use Rattle.std.specs.Prelude.{◌≡◌, ℕ, [], false, true, None, Some, drop, nat_le, length};
ghost use Rattle.std.specs.Bool.{Decides};
ghost use Rattle.std.specs.Option.{option_map};
ghost use Rattle.fp_network.specs.Changes.{writing};
ghost use Rattle.fp_network.specs.Endings.{KeepsTied};
ghost use Rattle.fp_network.specs.Node.{LeavesLink, LeavesOthers, connection_in, for_link, has_waiting_of, waiting_at};

use crate::Node;

/// No connection is read while this number of octets, or more, waits for the link.
const MANY_FOR_LINK: usize = 65_536;

impl Node {
    /// Octets that wait to be written to the connection in a place.
    pub fn waiting(&self, place: usize) -> &[u8]
        ensures { result.now ≡ waiting_at self.now place }
    {
        match self.at(place) {
            Some(connection) => connection.waiting(),
            None => &[],
        }
    }

    /// Removes this number of octets from the front of those that wait for the connection in a
    /// place.
    fn remove_waiting(&mut self, place: usize, count: usize)
        ensures here { connection_in self.new place
            ≡ option_map (writing count) (connection_in self.old place) }
        ensures others { LeavesOthers place self.old self.new }
        ensures link { LeavesLink self.old self.new }
        ensures adaptor { self.new.adaptor ≡ self.old.adaptor }
        ensures tally { self.new.tally ≡ self.old.tally }
        ensures news { self.new.news ≡ self.old.news }
    {
        let Some(slot) = self.places.get_mut(place) else {
            return;
        };
        let Some(connection) = slot.as_mut() else {
            return;
        };
        connection.written(count);
    }

    /// Removes this number of octets, once they were written to the connection in a place.
    pub fn written(&mut self, place: usize, count: usize)
        ensures here { connection_in self.new place
            ≡ option_map (writing count) (connection_in self.old place) }
        ensures others { LeavesOthers place self.old self.new }
        ensures link { LeavesLink self.old self.new }
        ensures adaptor { self.new.adaptor ≡ self.old.adaptor }
        ensures tally { self.new.tally ≡ self.old.tally }
        ensures news { self.new.news ≡ self.old.news }
        ensures tied { KeepsTied self.old self.new }
    {
        self.remove_waiting(place, count);
    }

    /// Octets that wait to be written to the link: frames, the first one perhaps in part.
    pub fn waiting_for_link(&self) -> &[u8]
        ensures { result.now ≡ for_link self.now }
    {
        self.to_link.octets()
    }

    /// Removes this number of octets, once they were written to the link.
    pub fn written_to_link(&mut self, count: usize)
        ensures link { for_link self.new ≡ drop count (for_link self.old) }
        ensures from_link { self.new.from_link ≡ self.old.from_link }
        ensures names { self.new.names.items ≡ self.old.names.items }
        ensures draining { self.new.is_draining ≡ self.old.is_draining }
        ensures places { self.new.places ≡ self.old.places }
        ensures adaptor { self.new.adaptor ≡ self.old.adaptor }
        ensures tally { self.new.tally ≡ self.old.tally }
        ensures news { self.new.news ≡ self.old.news }
        ensures tied { KeepsTied self.old self.new }
    {
        self.to_link.take(count);
    }

    /// Whether too many octets wait for the link, so that connections must not be read.
    pub fn is_link_busy(&self) -> bool
        ensures { result ≡ nat_le 65536 (length (for_link self.now)) }
    {
        self.to_link.count() >= MANY_FOR_LINK
    }

    /// Whether octets wait to be written to the connection in a place, and the connection isn't to
    /// be closed.
    fn has_waiting(&self, place: usize) -> bool
        ensures { result ≡ has_waiting_of (connection_in self.now place) }
    {
        if self.is_over(place) {
            return false;
        }
        !self.waiting(place).is_empty()
    }

    /// Whether no octets wait to be written to any connection that isn't to be closed.
    pub fn is_quiet(&self) -> bool
        ensures { Decides result ((place : ℕ)
            → has_waiting_of (connection_in self.now place) ≡ false) }
    {
        for place in 0..self.places.len() {
            if self.has_waiting(place) {
                return false;
            }
        }
        true
    }
}
