//! Octets of the link, and the messages in them.

ghost use Rattle.std.specs.Prelude.{◌≡◌, ℕ, List, [], ◌++◌, None, Some, ◌<◌, ◌≤◌, IfErr, IfOk, OnOk, length};
ghost use Rattle.std.specs.Option.{option_map};
ghost use Rattle.fp_adaptor.specs.declared.setting.Setting.{Setting};
ghost use Rattle.fp_adaptor.specs.Adaptor.{Led, most_data};
ghost use Rattle.fp_adaptor.specs.Connections.{IsFirst};
ghost use Rattle.fp_adaptor.specs.History.{Event, connection_after, ended};
ghost use Rattle.fp_frames.specs.Stream.{HandsOut};
ghost use Rattle.fp_network.specs.Counting.{Counts};
ghost use Rattle.fp_network.specs.Endings.{ClosesRefused, IsTied, KeepsTied};
ghost use Rattle.fp_network.specs.Forwarding.{Forwards, ForwardsOctets, MakesWay, MakesWayFor, StopsBefore, StopsIn};
ghost use Rattle.fp_network.specs.declared.fault.NetworkFault.TheVariants.{BadFrames};
ghost use Rattle.fp_network.specs.Changes.{sending, writing};
ghost use Rattle.fp_network.specs.Receiving.{SkipsNone};
ghost use Rattle.fp_network.specs.Node.{LeavesLink, LeavesOthers, WaitsOn, connection_in, for_link, refusal_of};

use crate::{Closing, NetworkFault, Node};
use fp_adaptor::{Sending, Setting};
use fp_frames::{Frame, FrameFault, streams_have_one_list_of_frames};
use fp_sccp::MOST_DATA;
use std::alloc::AllocError;

impl Node {
    /// A message of SCCP waits to be written to the connection in a place, if there is one that is
    /// written.
    pub(super) fn send(&mut self, place: usize, octets: &[u8]) -> Result<(), AllocError>
        ensures here { OnOk result (connection_in self.new place
            ≡ option_map (sending octets.now) (connection_in self.old place)) }
        ensures others { LeavesOthers place self.old self.new }
        ensures link { LeavesLink self.old self.new }
        ensures adaptor { self.new.adaptor ≡ self.old.adaptor }
        ensures tally { self.new.tally ≡ self.old.tally }
        ensures news { self.new.news ≡ self.old.news }
    {
        let Some(slot) = self.places.get_mut(place) else {
            return Ok(());
        };
        let Some(connection) = slot.as_mut() else {
            return Ok(());
        };
        connection.send(octets)
    }

    /// Why the connection in a place takes no message of the link: a megabyte waits for it, or its
    /// writing side is shut. `None` if it takes one, or if there is none.
    fn refusal(&self, place: usize) -> Option<Closing>
        ensures { result ≡ refusal_of (connection_in self.now place) }
    {
        match self.at(place) {
            Some(connection) => connection.refusal(),
            None => None,
        }
    }

    /// Closes the connection that the next message of the link would take, as long as that
    /// connection takes none. Then the message goes by the first connection that does, or is
    /// dropped. Each pass closes the connection of one more unit.
    fn make_way(&mut self)
        ensures ended { MakesWay self.old self.new }
        ensures refused { ClosesRefused self.old self.new }
        ensures way { (setting : Setting) (history later : List Event)
            → Led self.old.adaptor setting history → setting.units ≡ length self.old.names.items
            → IsTied self.old history → Led self.new.adaptor setting later
            → (place : ℕ) → IsFirst (connection_after later) (Some place)
            → refusal_of (connection_in self.new place) ≡ None }
        ensures rest { WaitsOn self.old self.new }
        ensures link { LeavesLink self.old self.new }
        ensures counted { Counts [] self.old self.new }
        ensures skipped { SkipsNone self.old self.new }
    {
        for _unit in 0..self.names.len() {
            let Some(place) = self.adaptor.sends_by() else {
                return;
            };
            let Some(why) = self.refusal(place) else {
                return;
            };
            self.close(place, why);
        }
    }

    /// Closes the connections that are in the way of a message of the link. A message that is too
    /// long to be sent closes none.
    fn make_way_for(&mut self, frame: &Frame)
        ensures ended { MakesWayFor frame.now self.old self.new }
        ensures refused { ClosesRefused self.old self.new }
        ensures way { (setting : Setting) (history later : List Event)
            → length frame.now ≤ most_data → Led self.old.adaptor setting history
            → setting.units ≡ length self.old.names.items
            → IsTied self.old history → Led self.new.adaptor setting later
            → (place : ℕ) → IsFirst (connection_after later) (Some place)
            → refusal_of (connection_in self.new place) ≡ None }
        ensures rest { WaitsOn self.old self.new }
        ensures link { LeavesLink self.old self.new }
        ensures counted { Counts [] self.old self.new }
        ensures skipped { SkipsNone self.old self.new }
    {
        if frame.octets().len() > MOST_DATA {
            return;
        }
        self.make_way();
    }

    /// Forwards a message of the link.
    fn forward(&mut self, frame: &Frame) -> Result<(), AllocError>
        ensures forwards { OnOk result ((setting : Setting) (history : List Event)
            → Led self.old.adaptor setting history
            → Forwards setting history frame.now self.old self.new) }
        ensures rest { OnOk result (WaitsOn self.old self.new) }
        ensures link { LeavesLink self.old self.new }
        ensures counted { OnOk result (Counts [] self.old self.new) }
        ensures skipped { SkipsNone self.old self.new }
    {
        self.make_way_for(frame);
        match self.adaptor.send(frame)? {
            Sending::By(unit_data) => {
                self.send(unit_data.connection, unit_data.octets.as_slice())?;
                Ok(())
            }
            Sending::NoConnection => Ok(()),
            Sending::TooLong => Ok(()),
        }
    }

    /// The next frame of the link that is there whole, if there is one.
    fn next_frame(&mut self) -> Result<Option<Frame>, NetworkFault>
        ensures next { IfOk result (λ frame. HandsOut self.old.from_link self.new.from_link frame) }
        ensures fault { IfErr result (StopsBefore self.old.from_link) }
        ensures link { for_link self.new ≡ for_link self.old }
        ensures places { self.new.places ≡ self.old.places }
        ensures adaptor { self.new.adaptor ≡ self.old.adaptor }
        ensures tally { self.new.tally ≡ self.old.tally }
        ensures news { self.new.news ≡ self.old.news }
        ensures names { self.new.names.items ≡ self.old.names.items }
        ensures draining { self.new.is_draining ≡ self.old.is_draining }
    {
        match self.from_link.next() {
            Ok(frame) => Ok(frame),
            Err(FrameFault::BadFrameLength) => Err(NetworkFault::BadFrames),
            Err(FrameFault::Memory) => Err(NetworkFault::Memory),
        }
    }

    /// Forwards each message of the link that is whole, once these octets follow the earlier ones.
    /// `Err`: the network must end.
    ///
    /// [`NetworkFault::BadFrames`] if the octets of the link are frames of messages, and then a
    /// head that no frame has. [`NetworkFault::Memory`] if memory ran out.
    pub fn received_from_link(&mut self, octets: &[u8]) -> Result<(), NetworkFault>
        ensures forwards { OnOk result (ForwardsOctets octets.now self.old self.new) }
        ensures fault { IfErr result (StopsIn (self.old.from_link ++ octets.now)) }
        ensures good { OnOk result (¬ StopsIn (self.old.from_link ++ octets.now) BadFrames) }
        ensures rest { OnOk result (WaitsOn self.old self.new) }
        ensures link { for_link self.new ≡ for_link self.old }
        ensures names { self.new.names.items ≡ self.old.names.items }
        ensures draining { self.new.is_draining ≡ self.old.is_draining }
        ensures count { length self.new.places.items ≡ length self.old.places.items }
        ensures counted { OnOk result (Counts [] self.old self.new) }
        ensures skipped { SkipsNone self.old self.new }
        ensures tied { OnOk result (KeepsTied self.old self.new) }
    {
        streams_have_one_list_of_frames();
        self.from_link.feed(octets)?;
        loop {
            let Some(frame) = self.next_frame()? else {
                return Ok(());
            };
            self.forward(&frame)?;
        }
    }
}
