//! Octets of connections, and the messages in them.

ghost use Rattle.std.specs.Prelude.{◌≡◌, List, [], ◌++◌, None, Some, ◌<◌, IfErr, IfOk, OnErr, OnOk, option_map};
ghost use Rattle.fp_adaptor.specs.declared.adaptor.Outcome.{Outcome};
ghost use Rattle.fp_adaptor.specs.declared.setting.Setting.{Setting};
ghost use Rattle.fp_adaptor.specs.Adaptor.{Led, Receives};
ghost use Rattle.fp_adaptor.specs.History.{Event};
ghost use Rattle.fp_frames.specs.Frame.{framed};
ghost use Rattle.fp_network.specs.Frames.{frames_of, framed_if};
ghost use Rattle.fp_network.specs.Endings.{Activates, KeepsTied};
ghost use Rattle.fp_network.specs.Changes.{IsLonger};
ghost use Rattle.fp_network.specs.Counting.{Counts, CountsActive, Notes, active_by, active_of};
ghost use Rattle.fp_network.specs.Receiving.{FaultIn, Hearing, NextIn, NextOrEnd, Results, SkipsNone, Steps, answering, feeding, reader_of};
ghost use Rattle.fp_network.specs.Stepping.{ArrivesIn};
ghost use Rattle.fp_network.specs.Node.{Grows, Keeps, LeavesLink, LeavesOthers, WaitsOn, connection_in, for_link, frames_for, waiting_at};

use crate::arrival::Arrival;
use crate::waiting::Waiting;
use crate::{Closing, NetworkEvent, Node};
use fp_adaptor::{HandedOn, Outcome, Setting};
use fp_frames::{Frame, frame_head};
use fp_ipa::{IpaFault, IpaMessage};
use std::alloc::AllocError;

/// Adds a frame to octets.
fn push_frame(waiting: &mut Waiting, frame: &Frame) -> Result<(), AllocError>
    ensures { OnOk result (waiting.new ≡ waiting.old ++ framed frame.now) }
{
    let octets = frame.octets();
    waiting.push(&frame_head(octets.len() as u16))?;
    waiting.push(octets)
}

/// Adds a frame to octets, if there is one.
fn push_frame_if(waiting: &mut Waiting, frame: &Option<Frame>) -> Result<(), AllocError>
    ensures { OnOk result (waiting.new ≡ waiting.old ++ framed_if frame.now) }
{
    let Some(frame) = frame else {
        return Ok(());
    };
    push_frame(waiting, frame)
}

/// Adds the frames of messages that an adaptor hands on to octets, in their order.
fn push_frames(waiting: &mut Waiting, frames: &HandedOn) -> Result<(), AllocError>
    ensures { OnOk result (waiting.new ≡ waiting.old ++ frames_of frames.now) }
{
    push_frame_if(waiting, &frames.abort)?;
    push_frame(waiting, &frames.message)
}

impl Node {
    /// The connection in a place carries messages for a unit, as its transfer point named it.
    fn note_active(&mut self, place: usize, unit: usize)
        ensures link { LeavesLink self.old self.new }
        ensures places { self.new.places ≡ self.old.places }
        ensures adaptor { self.new.adaptor ≡ self.old.adaptor }
        ensures tally { self.new.tally ≡ self.old.tally }
        ensures news { Notes (active_of self.old.names.items unit
            (connection_in self.old place)) self.old self.new }
    {
        let Some(connection) = self.at(place) else {
            return;
        };
        let connection = connection.number();
        if unit < self.names.len() {
            let unit = self.names[unit];
            self.note(NetworkEvent::Active { connection, unit });
        }
    }

    /// A unit has the connection in a place from now on. The earlier one of the unit is to be
    /// closed.
    fn replace(&mut self, place: usize, unit: usize)
        ensures came { (setting : Setting) (history : List Event)
            → Led self.old.adaptor setting history
            → Activates place unit self.old setting history self.new }
        ensures skipped { SkipsNone self.old self.new }
        ensures rest { WaitsOn self.old self.new }
        ensures reads { reader_of (connection_in self.new place)
            ≡ reader_of (connection_in self.old place) }
        ensures link { LeavesLink self.old self.new }
        ensures counted { Counts [] self.old self.new }
    {
        let Some(earlier) = self.adaptor.came(place, unit) else {
            return;
        };
        self.close(earlier, Closing::Replaced);
    }

    /// The connection in a place carries messages for a unit from now on. The earlier one of the
    /// unit is to be closed.
    fn activate(&mut self, place: usize, unit: usize)
        ensures came { (setting : Setting) (history : List Event)
            → Led self.old.adaptor setting history
            → Activates place unit self.old setting history self.new }
        ensures skipped { SkipsNone self.old self.new }
        ensures rest { WaitsOn self.old self.new }
        ensures reads { reader_of (connection_in self.new place)
            ≡ reader_of (connection_in self.old place) }
        ensures link { LeavesLink self.old self.new }
        ensures counted { Counts (active_of self.old.names.items unit
            (connection_in self.old place)) self.old self.new }
    {
        self.replace(place, unit);
        self.note_active(place, unit);
    }

    /// Takes a message of SCCP from the connection in a place.
    fn unit_data(&mut self, place: usize, octets: &[u8]) -> Result<(), AllocError>
        ensures handed_on { OnOk result ((setting : Setting) (history : List Event)
            → Led self.old.adaptor setting history → (outcome : Outcome) × (more : List Event)
            × Receives setting history place octets.now outcome more
            × (for_link self.new ≡ for_link self.old ++ frames_for outcome)
            × Led self.new.adaptor setting (more ++ history)
            × (connection_in self.new place ≡ answering outcome (connection_in self.old place))) }
        ensures others { LeavesOthers place self.old self.new }
        ensures tally { self.new.tally ≡ self.old.tally }
        ensures reads { OnOk result (reader_of (connection_in self.new place)
            ≡ reader_of (connection_in self.old place)) }
        ensures grows { OnOk result (Grows (for_link self.old) (for_link self.new)) }
        ensures rest { OnOk result (WaitsOn self.old self.new) }
        ensures keeps { Keeps self.old self.new }
        ensures counted { OnOk result (Counts [] self.old self.new) }
    {
        match self.adaptor.received(place, octets)? {
            Outcome::HandedOn(frames) => push_frames(&mut self.to_link, &frames),
            Outcome::Answered(answer) => self.send(place, answer.as_slice()),
            Outcome::Nothing => Ok(()),
        }
    }

    /// The next message of the connection in a place that is there whole, if there is one and it
    /// isn't to be closed.
    fn next_message(&mut self, place: usize) -> Result<Option<IpaMessage>, IpaFault>
        ensures next { IfOk result (NextIn (connection_in self.old place)
            (connection_in self.new place)) }
        ensures fault { IfErr result (FaultIn (connection_in self.old place)) }
        ensures kept { OnErr result (connection_in self.new place ≡ connection_in self.old place) }
        ensures here { waiting_at self.new place ≡ waiting_at self.old place }
        ensures others { LeavesOthers place self.old self.new }
        ensures link { LeavesLink self.old self.new }
        ensures adaptor { self.new.adaptor ≡ self.old.adaptor }
        ensures tally { self.new.tally ≡ self.old.tally }
        ensures news { self.new.news ≡ self.old.news }
    {
        let Some(slot) = self.places.get_mut(place) else {
            return Ok(None);
        };
        let Some(connection) = slot.as_mut() else {
            return Ok(None);
        };
        connection.next_message()
    }

    /// The next message of the connection in a place. If it is too long to be taken, there is none,
    /// and the connection is to be closed.
    fn next_or_close(&mut self, place: usize) -> Result<Option<IpaMessage>, AllocError>
        ensures next { IfOk result (NextOrEnd place self.old self.new) }
        ensures rest { WaitsOn self.old self.new }
        ensures link { LeavesLink self.old self.new }
        ensures counted { OnOk result (Counts [] self.old self.new) }
    {
        match self.next_message(place) {
            Ok(message) => Ok(message),
            Err(IpaFault::TooLong) => {
                self.close(place, Closing::TooLong);
                Ok(None)
            }
            Err(IpaFault::Memory) => Err(AllocError),
        }
    }

    /// The effect of a message of the connection in a place. If a megabyte waits for the
    /// connection, it is to be closed, since the message may have to be answered.
    fn step(&mut self, place: usize, message: &IpaMessage) -> Result<Arrival, AllocError>
        ensures here { OnOk result (IsLonger (waiting_at self.old place)
            (waiting_at self.new place)) }
        ensures arrives { IfOk result (ArrivesIn self.old.names.items self.old.is_draining
            message.now.stream message.now.octets (connection_in self.old place)
            (connection_in self.new place)) }
        ensures others { LeavesOthers place self.old self.new }
        ensures link { LeavesLink self.old self.new }
        ensures adaptor { self.new.adaptor ≡ self.old.adaptor }
        ensures tally { self.new.tally ≡ self.old.tally }
        ensures news { self.new.news ≡ self.old.news }
    {
        let Some(slot) = self.places.get_mut(place) else {
            return Ok(Arrival::Nothing);
        };
        let Some(connection) = slot.as_mut() else {
            return Ok(Arrival::Nothing);
        };
        let names = self.names.as_slice();
        let octets = message.octets.as_slice();
        let arrival = connection.arrival(names, self.is_draining, message.stream, octets)?;
        Ok(arrival)
    }

    /// Carries out the effect of a message of these octets, from the connection in a place.
    fn arrive(&mut self, place: usize, arrival: Arrival, octets: &[u8]) -> Result<(), AllocError>
        ensures comes_to { OnOk result (Results place octets.now arrival self.old self.new) }
        ensures reads { OnOk result (reader_of (connection_in self.new place)
            ≡ reader_of (connection_in self.old place)) }
        ensures grows { OnOk result (Grows (for_link self.old) (for_link self.new)) }
        ensures rest { OnOk result (WaitsOn self.old self.new) }
        ensures keeps { Keeps self.old self.new }
        ensures counted { OnOk result (Counts (active_by arrival self.old.names.items
            (connection_in self.old place)) self.old self.new) }
    {
        match arrival {
            Arrival::Nothing => Ok(()),
            Arrival::Skipped => {
                self.tally.skip();
                Ok(())
            }
            Arrival::Active(unit) => {
                self.activate(place, unit);
                Ok(())
            }
            Arrival::UnitData => self.unit_data(place, octets),
            Arrival::Close(why) => {
                self.close(place, why);
                Ok(())
            }
        }
    }

    /// Takes a message from the connection in a place.
    fn take(&mut self, place: usize, message: &IpaMessage) -> Result<(), AllocError>
        ensures steps { OnOk result ((setting : Setting) (history : List Event)
            → Led self.old.adaptor setting history
            → Steps setting history place message.now self.old self.new) }
        ensures reads { OnOk result (reader_of (connection_in self.new place)
            ≡ reader_of (connection_in self.old place)) }
        ensures grows { OnOk result (Grows (for_link self.old) (for_link self.new)) }
        ensures rest { OnOk result (WaitsOn self.old self.new) }
        ensures keeps { Keeps self.old self.new }
        ensures counted { OnOk result (CountsActive self.old self.new) }
    {
        let arrival = self.step(place, message)?;
        self.arrive(place, arrival, message.octets.as_slice())?;
        Ok(())
    }

    /// The connection in a place takes octets of its stream.
    fn feed(&mut self, place: usize, octets: &[u8]) -> Result<(), AllocError>
        ensures fed { OnOk result (connection_in self.new place
            ≡ option_map (feeding octets.now) (connection_in self.old place)) }
        ensures here { OnOk result (waiting_at self.new place ≡ waiting_at self.old place) }
        ensures others { LeavesOthers place self.old self.new }
        ensures link { LeavesLink self.old self.new }
        ensures adaptor { self.new.adaptor ≡ self.old.adaptor }
        ensures tally { self.new.tally ≡ self.old.tally }
        ensures news { self.new.news ≡ self.old.news }
    {
        let Some(slot) = self.places.get_mut(place) else {
            return Ok(());
        };
        let Some(connection) = slot.as_mut() else {
            return Ok(());
        };
        connection.feed(octets)?;
        Ok(())
    }

    /// Takes each message of the connection in a place that is whole, once these octets follow the
    /// earlier ones. `Err`: memory ran out, and the network must end.
    pub fn received(&mut self, place: usize, octets: &[u8]) -> Result<(), AllocError>
        ensures hears { OnOk result (Hearing place octets.now self.old self.new) }
        ensures grows { OnOk result (Grows (for_link self.old) (for_link self.new)) }
        ensures rest { OnOk result (WaitsOn self.old self.new) }
        ensures keeps { Keeps self.old self.new }
        ensures counted { OnOk result (CountsActive self.old self.new) }
        ensures tied { OnOk result (KeepsTied self.old self.new) }
    {
        self.feed(place, octets)?;
        loop {
            let Some(message) = self.next_or_close(place)? else {
                return Ok(());
            };
            self.take(place, &message)?;
        }
    }
}
