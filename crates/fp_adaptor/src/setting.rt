//! The addresses of a link, and the verdict on a received message.

ghost use Rattle.std.specs.Prelude.{◌≡◌, ◌≤◌, IfOk, SomeIff, length};
ghost use Rattle.fp_adaptor.specs.Verdict.{HasDataSize, Judges, JudgesWhole, verdict_of};
ghost use Rattle.fp_sccp.specs.Address.{HasSubsystem, subsystem};
ghost use Rattle.fp_sccp.specs.Message.{HasSizes};
ghost use Rattle.fp_sccp.specs.View.{unit_data_value};
ghost use Rattle.fp_sccp.specs.Written.{unit_data_octets};

use fp_sccp::{
    Address, MANAGEMENT, MOST_DATA, ProtocolClass, ReturnCause, SccpFault, SccpMessage, UnitData,
    read, subsystem_of, write_unit_data,
};
use std::alloc::{AllocError, Global};

/// The addresses at both ends of a link, and the number of units that the exchange's side may name.
#[derive(Clone, Copy, Debug)]
pub struct Setting {
    /// The node's own address. Messages are sent from it, and messages to its subsystem are taken. Without a subsystem
    /// number none are.
    pub own: Address,
    /// The address of the exchange. Messages are sent to it, and messages from it are taken.
    pub exchange: Address,
    /// The number of units, each with at most one connection. The connection of the lowest unit is used for sending.
    /// The node's own units have the lowest numbers, and the unit that several nodes share has the last one.
    pub units: usize,
}

/// The verdict on an SCCP message for a link.
#[derive(Clone, Copy, Debug)]
pub enum Judged<'a> {
    /// Data for the link: 1 to 255 octets.
    HandedOn(&'a [u8]),
    /// A message to SCCP management.
    Management(UnitData<'a>),
    /// A message that the link refuses, and the cause.
    Refused(UnitData<'a>, ReturnCause),
    /// Data of this node that couldn't be delivered.
    Returned,
    /// Octets that are no message.
    Unreadable(SccpFault),
}

impl Setting {
    /// The subsystem number of the node's own address, if it has one.
    pub fn subsystem(&self) -> Option<u8>
        ensures { SomeIff result (HasSubsystem self.now.own) (subsystem self.now.own) }
    {
        subsystem_of(self.own.as_slice())
    }

    /// The verdict on a whole message.
    fn judge_whole<'a>(&self, message: UnitData<'a>) -> Judged<'a>
        requires { HasSizes (unit_data_value message) }
        ensures verdict { JudgesWhole self.now (unit_data_value message.entry) (verdict_of result) }
        ensures size { HasDataSize (verdict_of result) }
    {
        let Some(called) = subsystem_of(message.called) else {
            return Judged::Refused(message, ReturnCause::UnequippedUser);
        };
        if called == MANAGEMENT {
            return Judged::Management(message);
        }
        let Some(own) = self.subsystem() else {
            return Judged::Refused(message, ReturnCause::UnequippedUser);
        };
        if called != own {
            return Judged::Refused(message, ReturnCause::UnequippedUser);
        }
        if message.calling != self.exchange.as_slice() {
            return Judged::Refused(message, ReturnCause::Unqualified);
        }
        Judged::HandedOn(message.user_data)
    }

    /// The verdict on a received message (Q.714, 2.4, 4.2 and 5.3). Its data are for the link if the message is whole,
    /// to the subsystem of the node's own address, and from the address of the exchange.
    pub fn judge<'a>(&self, octets: &'a [u8]) -> Judged<'a>
        ensures verdict { Judges self.now octets.now (verdict_of result) }
        ensures size { HasDataSize (verdict_of result) }
    {
        match read(octets) {
            Ok(SccpMessage::UnitData(message)) => self.judge_whole(message),
            Ok(SccpMessage::Segment(message)) => {
                Judged::Refused(message, ReturnCause::DestinationCannotPerformReassembly)
            }
            Ok(SccpMessage::Service(_)) => Judged::Returned,
            Err(fault) => Judged::Unreadable(fault),
        }
    }
    /// Puts a message from the link into a UDT of class 0, from the node's own address to the exchange. `Err`: out of
    /// memory.
    pub(crate) fn unit_data(&self, alloc: Global, message: &[u8]) -> Result<Vec<u8>, AllocError>
        requires some { 1 ≤ length message.now }
        requires most { length message.now ≤ MOST_DATA }
        ensures { IfOk result (λ octets.
            octets.items ≡ unit_data_octets 0 self.now.exchange self.now.own message.now) }
    {
        let called = &self.exchange;
        let calling = &self.own;
        write_unit_data(alloc, ProtocolClass::Basic, called, calling, message)
    }
}
