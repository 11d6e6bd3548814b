//! The adaptor of a link.

ghost use Rattle.std.specs.Prelude.{◌≡◌, ◌≤◌, List, [], ◌∷◌, ◌++◌, IfOk, length, option_map};
ghost use Rattle.fp_adaptor.specs.declared.setting.Setting.{Setting};
ghost use Rattle.fp_adaptor.specs.Adaptor.{Comes, HandedOnAt, Led, Manages, Receives, Refuses, Replies, Sends, Takes, abort_octets, what_became};
ghost use Rattle.fp_adaptor.specs.Counted.{count_after, refused_as, sent_as};
ghost use Rattle.fp_adaptor.specs.Connections.{IsFirst};
ghost use Rattle.fp_adaptor.specs.History.{Event, IsRead, Message, connection_after, ended, managed, refused, said};
ghost use Rattle.fp_sccp.specs.View.{unit_data_value};

use crate::connections::Connections;
use crate::counts::Counts;
use crate::dialogues::Dialogues;
use crate::{Counted, Judged, Setting};
use bytes::Bytes;
use fp_frames::Frame;
use fp_q773::{AbortCause, Tid, ids_of, write_abort};
use fp_sccp::{MOST_DATA, ReturnCause, UnitData, write_allowed, write_service};
use std::alloc::{AllocError, Global};

/// The result of a message from the network.
#[derive(Debug, Drop)]
pub enum Outcome {
    /// Messages for the link.
    HandedOn(HandedOn),
    /// An SCCP message to send back on the same connection.
    Answered(Vec<u8>),
    /// No message.
    Nothing,
}

/// Messages for the link.
#[derive(Debug, Drop)]
pub struct HandedOn {
    /// An Abort to hand on first, if the exchange has forgotten a dialogue: the message is a Begin under its identifier
    /// of an open dialogue.
    pub abort: Option<Frame>,
    /// The message.
    pub message: Frame,
}

/// The result of a message from the link.
#[derive(Debug, Drop)]
pub enum Sending {
    /// The UDT that carries it.
    By(UnitDataBy),
    /// There is no connection.
    NoConnection,
    /// The message is too long for a UDT.
    TooLong,
}

/// An SCCP message for a connection.
#[derive(Debug, Drop)]
pub struct UnitDataBy {
    /// The connection.
    pub connection: usize,
    /// The octets of a UDT.
    pub octets: Vec<u8>,
}

/// The adaptor between a link and a signalling network. It takes SCCP messages from connections and gives TCAP messages
/// for the link, and the other way round.
///
/// Contracts see the events so far. All answers follow from them alone.
#[derive(Drop)]
pub struct Adaptor {
    alloc: Global,
    setting: Setting,
    connections: Connections,
    dialogues: Dialogues,
    counts: Counts,
}

/// A frame of 1 to 255 octets.
fn frame_of(alloc: Global, octets: &[u8]) -> Result<Frame, AllocError>
    requires some { 1 ≤ length octets.now }
    requires most { length octets.now ≤ 255 }
    ensures { IfOk result (λ frame. frame ≡ octets.now) }
{
    let Some(frame) = Frame::new(Bytes::copy_from_slice(alloc, octets)?) else {
        unreachable!()
    };
    Ok(frame)
}

/// The Abort that the exchange would send for an unknown dialogue (Q.774, 3.3.3.1), if there is such a dialogue.
fn abort_of(alloc: Global, local: Option<Tid>) -> Result<Option<Frame>, AllocError>
    ensures { IfOk result (λ abort. abort ≡ option_map abort_octets local) }
{
    let Some(local) = local else {
        return Ok(None);
    };
    let abort = write_abort(local, AbortCause::UnrecognizedTransactionIdentifier);
    let frame = frame_of(alloc, abort.as_slice())?;
    Ok(Some(frame))
}

/// The outcome with these octets as the answer, or with none.
fn answered(octets: Option<Vec<u8>>) -> Outcome
    ensures { Replies result (option_map (λ written. written.items) octets) }
{
    match octets {
        Some(octets) => Outcome::Answered(octets),
        None => Outcome::Nothing,
    }
}

/// The counter of a message that is refused for this cause.
fn refused_as(cause: ReturnCause) -> Counted
    ensures { result ≡ refused_as cause }
{
    match cause {
        ReturnCause::UnequippedUser => Counted::OtherSubsystem,
        ReturnCause::DestinationCannotPerformReassembly => Counted::Segment,
        _ => Counted::OtherSender,
    }
}

/// The counter of a message from the link.
fn sent_as(sending: &Sending) -> Counted
    ensures { result ≡ sent_as (what_became sending.now) }
{
    match sending {
        Sending::By(_) => Counted::Sent,
        Sending::NoConnection => Counted::Dropped,
        Sending::TooLong => Counted::TooLong,
    }
}

impl Adaptor {
    /// A new adaptor for a link, without connections or dialogues. `Err`: out of memory.
    pub fn new(alloc: Global, setting: Setting) -> Result<Adaptor, AllocError>
        ensures led { IfOk result (λ own. Led own setting []) }
    {
        let connections = Connections::new(alloc, setting.units)?;
        let dialogues = Dialogues::new(alloc);
        let counts = Counts::new();
        Ok(Adaptor {
            alloc,
            setting,
            connections,
            dialogues,
            counts,
        })
    }

    /// The number of messages of this kind so far.
    pub fn count(&self, what: Counted) -> u64
        ensures count { (setting : Setting) (history : List Event) → Led self.now setting history
            → result ≡ count_after history what }
    {
        self.counts.of(what)
    }

    /// A new connection for a unit replaces the earlier one. Returns a connection to close: the unit's earlier one, or
    /// this one if there is no such unit.
    pub fn came(&mut self, connection: usize, unit: usize) -> Option<usize>
        ensures came { (setting : Setting) (history : List Event) → Led self.old setting history
            → (more : List Event) × Comes setting history connection unit result more
            × Led self.new setting (more ++ history) }
    {
        if self.connections.has(unit) {
            return self.connections.put(unit, connection);
        }
        Some(connection)
    }

    /// A connection has ended. Its unit then has none.
    pub fn ended(&mut self, connection: usize)
        ensures ended { (setting : Setting) (history : List Event) → Led self.old setting history
            → Led self.new setting (ended connection ∷ history) }
    {
        self.connections.remove(connection)
    }

    /// Hands on data to the link.
    fn hand_on(&mut self, octets: &[u8]) -> Result<Outcome, AllocError>
        requires some { 1 ≤ length octets.now }
        requires most { length octets.now ≤ 255 }
        ensures { IfOk result (λ outcome. (setting : Setting) (history : List Event)
            → Led self.old setting history
            → HandedOnAt setting history octets.now outcome self.new) }
    {
        let ids = ids_of(octets);
        let message = frame_of(self.alloc, octets)?;
        let abort = abort_of(self.alloc, self.dialogues.forgotten(&ids))?;
        self.dialogues.hear(&ids);
        self.counts.count(Counted::HandedOn);
        Ok(Outcome::HandedOn(HandedOn { abort, message }))
    }

    /// Answers a message to SCCP management: a test for the node's own subsystem gets subsystem allowed.
    fn manage(&mut self, message: &UnitData<'_>) -> Result<Outcome, AllocError>
        ensures { IfOk result (λ outcome. (setting : Setting) (history : List Event)
            → Led self.old setting history
            → Manages setting (unit_data_value message.now) outcome
            × Led self.new setting (managed ∷ history)) }
    {
        self.counts.count(Counted::Management);
        let Some(subsystem) = self.setting.subsystem() else {
            return Ok(Outcome::Nothing);
        };
        let answer = write_allowed(self.alloc, message, subsystem)?;
        Ok(answered(answer))
    }

    /// Refuses a message for this cause.
    fn refuse(&mut self, message: &UnitData<'_>, cause: ReturnCause) -> Result<Outcome, AllocError>
        ensures { IfOk result (λ outcome. (setting : Setting) (history : List Event)
            → Led self.old setting history
            → Refuses (unit_data_value message.now) cause outcome
            × Led self.new setting (refused cause ∷ history)) }
    {
        self.counts.count(refused_as(cause));
        let answer = write_service(self.alloc, message, cause)?;
        Ok(answered(answer))
    }

    /// Handles a message by its verdict.
    fn take(&mut self, octets: &[u8]) -> Result<Outcome, AllocError>
        ensures { IfOk result (λ outcome. (setting : Setting) (history : List Event)
            → Led self.old setting history
            → (event : Event) × Takes setting history octets.now outcome event
            × Led self.new setting (event ∷ history)) }
    {
        match self.setting.judge(octets) {
            Judged::HandedOn(octets) => self.hand_on(octets),
            Judged::Management(message) => self.manage(&message),
            Judged::Refused(message, cause) => self.refuse(&message, cause),
            Judged::Returned => {
                self.counts.count(Counted::Returned);
                Ok(Outcome::Nothing)
            }
            Judged::Unreadable(_) => {
                self.counts.count(Counted::Unreadable);
                Ok(Outcome::Nothing)
            }
        }
    }

    /// Handles an SCCP message from a connection. If no unit has the connection, the result is nothing.
    ///
    /// `Err`: out of memory. You must take the link down and drop the adaptor.
    pub fn received(&mut self, connection: usize, octets: &[u8]) -> Result<Outcome, AllocError>
        ensures received { IfOk result (λ outcome. (setting : Setting) (history : List Event)
            → Led self.old setting history
            → (more : List Event) × Receives setting history connection octets.now outcome more
            × Led self.new setting (more ++ history)) }
    {
        if self.connections.is_here(connection) {
            return self.take(octets);
        }
        Ok(Outcome::Nothing)
    }

    /// The connection for the link's next message: the one of the first unit that has one.
    pub fn sends_by(&self) -> Option<usize>
        ensures { (setting : Setting) (history : List Event) → Led self.now setting history
            → IsFirst (connection_after history) result }
    {
        self.connections.first()
    }

    /// The result for a message from the link, before it is counted.
    fn sending(&self, octets: &[u8]) -> Result<Sending, AllocError>
        requires { 1 ≤ length octets.now }
        ensures { IfOk result (λ sending. (setting : Setting) (history : List Event)
            → Led self.now setting history
            → Sends setting history octets.now sending) }
    {
        if octets.len() > MOST_DATA {
            return Ok(Sending::TooLong);
        }
        let Some(connection) = self.connections.first() else {
            return Ok(Sending::NoConnection);
        };
        let octets = self.setting.unit_data(self.alloc, octets)?;
        Ok(Sending::By(UnitDataBy { connection, octets }))
    }

    /// Sends a message from the link on the connection of the first unit that has one: in one UDT of class 0, from the
    /// node's own address to the exchange.
    ///
    /// `Err`: out of memory. You must take the link down and drop the adaptor.
    pub fn send(&mut self, message: &Frame) -> Result<Sending, AllocError>
        ensures sent { IfOk result (λ sending. (setting : Setting) (history : List Event)
            → Led self.old setting history
            → Sends setting history message.now sending
            × ((read : Message) × IsRead message.now read
            × Led self.new setting (said read (what_became sending) ∷ history))) }
    {
        let octets = message.octets();
        let sending = self.sending(octets)?;
        self.dialogues.say(&ids_of(octets))?;
        self.counts.count(sent_as(&sending));
        Ok(sending)
    }
}
