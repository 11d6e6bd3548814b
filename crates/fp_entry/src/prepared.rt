//! From a frame to its entries.

ghost use Rattle.std.specs.Prelude.{◌≡◌, ◌≢◌, ◌<◌, ◌≤◌, ◌*◌, ℕ, List, IfOk, IfErr, length, min};
ghost use Rattle.fp_ber.specs.declared.fault.BerFault.TheVariants as ber;
ghost use Rattle.fp_ber.specs.Faults.{FirstFault};
ghost use Rattle.fp_ber.specs.Tree.{Tree};
ghost use Rattle.fp_ber.specs.Lent.{lent_tree};
ghost use Rattle.fp_ber.specs.Nodes.{nodes_tree};
ghost use Rattle.fp_q773.specs.declared.fault.MessageFault.TheVariants as faults;
ghost use Rattle.fp_q773.specs.Fault.{IsFault};
ghost use Rattle.fp_q773.specs.Grammar.{IsMessage};
ghost use Rattle.fp_q773.specs.Value.{MessageValue};
ghost use Rattle.fp_entry.specs.declared.prepared.Prepared.{Prepared};
ghost use Rattle.fp_entry.specs.Arrival.{IsArrival};
ghost use Rattle.fp_entry.specs.Failure.{IsElementFailure, IsFailure};
ghost use Rattle.fp_entry.specs.Incoming.{IsIncoming};
ghost use Rattle.fp_entry.specs.Prepared.{Answers, Brings, IsElement, IsLost, IsPrepared, arrival_of, components_of};

use crate::Lookup;
use crate::arrival::Arrival;
use crate::failure::Failure;
use crate::fault::Fault;
use crate::incoming::Incoming;
use crate::laws::prepared_is_one;
use crate::message::incoming_of;
use fp_apdu::Name;
use fp_ber::{BerFault, ElementRef, Node, NodesFault, read_nodes};
use fp_digits::Moment;
use fp_frames::Frame;
use fp_q773::{MessageFault, message_in};
use fp_records::Table;
use std::alloc::Global;

/// The result for a frame, which doesn't depend on its link.
#[derive(Debug, Drop)]
pub enum Prepared {
    /// The octets are a readable message.
    Message {
        /// The frame, its moment, the index of its table, and the identifiers of the message.
        arrival: Arrival,
        /// The entries of the message.
        incoming: Incoming,
    },
    /// The octets aren't a message that is taken.
    Refused {
        /// The frame, its moment, the index of its table, and the identifiers in its octets.
        arrival: Arrival,
        /// The fault.
        fault: Fault,
    },
    /// Memory ran out, and the frame wasn't read completely.
    Lost {
        /// The frame, its moment, and the identifiers in its octets. Nothing reads the index of the table: it is 0 if
        /// [`Prepared::lost`] made this, and right if [`Prepared::read`] did.
        arrival: Arrival,
    },
}

/// The failure of octets that don't give an element.
fn of_ber_fault(fault: BerFault) -> Failure
    ensures { (contexts : List (List ℕ)) (octets : List ℕ)
        → (fault ≢ ber.Memory → FirstFault octets fault) → IsFailure contexts octets result }
{
    match fault {
        BerFault::Memory => Failure::Memory,
        _ => Failure::Refused(Fault::Unreadable(fault)),
    }
}

/// The failure of an element that doesn't give a message.
fn of_message_fault(fault: MessageFault) -> Failure
    ensures { (contexts : List (List ℕ)) (element : Tree)
        → (fault ≢ faults.Memory → IsFault element fault) → IsElementFailure contexts element result }
{
    match fault {
        MessageFault::UnknownMessage => Failure::Refused(Fault::UnknownMessage),
        MessageFault::Badly => Failure::Refused(Fault::Badly),
        MessageFault::Memory => Failure::Memory,
    }
}

/// Reads the message in an element, and gives its entries.
fn read_element(
    alloc: Global,
    lookup: &mut Lookup<'_>,
    contexts: &[Name],
    element: &ElementRef<'_>,
    moment: Moment,
) -> Result<Incoming, Failure>
    ensures ok { IfOk result (λ incoming. (message : MessageValue) × IsMessage (lent_tree element.now) message
        × IsIncoming lookup.old contexts.now moment message incoming) }
    ensures err { IfErr result (IsElementFailure contexts.now (lent_tree element.now)) }
    ensures same { lookup.new ≡ lookup.old }
{
    let message = match message_in(alloc, element) {
        Ok(message) => message,
        Err(fault) => return Err(of_message_fault(fault)),
    };
    incoming_of(alloc, lookup, contexts, &message, moment)
}

/// Reads the message in the element of these nodes, and gives its entries.
#[inline(always)]
fn read_placed(
    alloc: Global,
    lookup: &mut Lookup<'_>,
    contexts: &[Name],
    nodes: &[Node<'_>],
    moment: Moment,
) -> Result<Incoming, Failure>
    requires { 0 < length nodes.now }
    ensures ok { (octets : List ℕ) → IsElement octets (nodes_tree nodes.now)
        → IfOk result (Brings lookup.old contexts.now octets moment) }
    ensures err { (octets : List ℕ) → IsElement octets (nodes_tree nodes.now) → IfErr result (IsFailure contexts.now octets) }
    ensures same { lookup.new ≡ lookup.old }
{
    let element = ElementRef::of_nodes(nodes);
    read_element(alloc, lookup, contexts, &element, moment)
}

/// Reads the message in octets, with these places for its nodes, and gives its entries.
fn read_into<'a>(
    alloc: Global,
    lookup: &mut Lookup<'_>,
    contexts: &[Name],
    octets: &'a [u8],
    places: &mut [Node<'a>],
    moment: Moment,
) -> Result<Incoming, Failure>
    requires { length octets.now ≤ 2 * length places.old }
    ensures ok { IfOk result (Brings lookup.old contexts.now octets.now moment) }
    ensures err { IfErr result (IsFailure contexts.now octets.now) }
    ensures same { lookup.new ≡ lookup.old }
{
    match read_nodes(octets, places) {
        Ok(used) => read_placed(alloc, lookup, contexts, &places[..used], moment),
        Err(NodesFault::Fault(fault)) => Err(of_ber_fault(fault)),
        Err(NodesFault::Full) => unreachable!(),
    }
}

/// Reads a message with more than [`FEW`] nodes, and gives its entries.
#[inline(never)]
fn read_long(
    alloc: Global,
    lookup: &mut Lookup<'_>,
    contexts: &[Name],
    octets: &[u8],
    moment: Moment,
) -> Result<Incoming, Failure>
    ensures ok { IfOk result (Brings lookup.old contexts.now octets.now moment) }
    ensures err { IfErr result (IsFailure contexts.now octets.now) }
    ensures same { lookup.new ≡ lookup.old }
{
    // An element has at most one node for every two octets.
    let mut places = vec![in alloc; Node::BLANK; octets.len() / 2 + 1]?;
    read_into(
        alloc,
        lookup,
        contexts,
        octets,
        places.as_mut_slice(),
        moment,
    )
}

/// The most nodes of a message for which no memory is taken.
const FEW: usize = 32;

/// Reads the message in octets, and gives its entries.
fn read_octets(
    alloc: Global,
    lookup: &mut Lookup<'_>,
    contexts: &[Name],
    octets: &[u8],
    moment: Moment,
) -> Result<Incoming, Failure>
    ensures ok { IfOk result (Brings lookup.old contexts.now octets.now moment) }
    ensures err { IfErr result (IsFailure contexts.now octets.now) }
    ensures same { lookup.new ≡ lookup.old }
{
    let mut few = [Node::BLANK; FEW];
    match read_nodes(octets, &mut few) {
        Ok(used) => read_placed(alloc, lookup, contexts, &few[..used], moment),
        Err(NodesFault::Fault(fault)) => Err(of_ber_fault(fault)),
        Err(NodesFault::Full) => read_long(alloc, lookup, contexts, octets, moment),
    }
}

/// Prepares a frame.
fn prepare(alloc: Global, lookup: &mut Lookup<'_>, contexts: &[Name], arrival: Arrival) -> Prepared
    ensures is { (octets : List ℕ) (moment : ℕ) → IsArrival octets moment arrival
        → arrival.table ≡ lookup.old.index → IsPrepared lookup.old contexts.now octets moment result }
    ensures same { lookup.new ≡ lookup.old }
{
    match read_octets(
        alloc,
        lookup,
        contexts,
        arrival.frame.octets(),
        arrival.moment,
    ) {
        Ok(incoming) => Prepared::Message { arrival, incoming },
        Err(Failure::Refused(fault)) => Prepared::Refused { arrival, fault },
        Err(Failure::Memory) => Prepared::Lost { arrival },
    }
}

impl Prepared {
    /// Reads the message in a frame, received at this moment, with the records of a table and the accepted application
    /// context names. The result always has the frame, the moment, the index of the table, and the identifiers, which
    /// depend on the octets alone.
    ///
    /// [`Prepared::Refused`]: the octets spell no element, or its tag isn't a message's, or the contents don't fit the
    /// tag, or the dialogue portion of a Begin isn't a request for a dialogue. The dialogue portions of other messages
    /// aren't read, nor the contents of a Unidirectional. No number of components is too large. [`Prepared::Lost`]:
    /// memory ran out, perhaps only for one more share of a record. Nothing reads its index of the table.
    pub fn read(
        alloc: Global,
        table: &Table,
        contexts: &[Name],
        frame: Frame,
        moment: Moment,
    ) -> Prepared
        // The result follows from the octets.
        ensures is { IsPrepared table.now contexts.now frame moment result }

        // There is no other result, unless memory runs out.
        ensures only { (other : Prepared) → IsPrepared table.now contexts.now frame moment other → Answers result other }
    {
        Prepared::read_with(
            alloc,
            &mut Lookup::new(alloc, table),
            contexts,
            frame,
            moment,
        )
    }

    /// Reads the message in a frame as [`Prepared::read`] does, with the table of a look-up that several messages share.
    pub fn read_with(
        alloc: Global,
        lookup: &mut Lookup<'_>,
        contexts: &[Name],
        frame: Frame,
        moment: Moment,
    ) -> Prepared
        ensures is { IsPrepared lookup.old contexts.now frame moment result }
        ensures only { (other : Prepared) → IsPrepared lookup.old contexts.now frame moment other → Answers result other }
        ensures same { lookup.new ≡ lookup.old }
    {
        prepared_is_one();
        let index = lookup.table().index();
        prepare(alloc, lookup, contexts, Arrival::new(frame, moment, index))
    }

    /// A frame that was received at this moment and isn't read, as if memory had run out. Nothing reads its index of a
    /// table, 0. Takes no memory.
    pub fn lost(frame: Frame, moment: Moment) -> Prepared
        ensures { IsLost frame moment result }
    {
        Prepared::Lost {
            arrival: Arrival::new(frame, moment, 0),
        }
    }

    /// The frame, its moment, the index of its table and its identifiers, whatever the result.
    pub fn arrival(&self) -> &Arrival
        ensures { result.now ≡ arrival_of self.now }
    {
        match self {
            Prepared::Message { arrival, .. }
            | Prepared::Refused { arrival, .. }
            | Prepared::Lost { arrival } => arrival,
        }
    }

    /// The same as [`Prepared::arrival`], by value. The rest is dropped. Takes no memory.
    pub fn into_arrival(self) -> Arrival
        ensures { result ≡ arrival_of self }
    {
        match self {
            Prepared::Message { arrival, .. } => arrival,
            Prepared::Refused { arrival, .. } => arrival,
            Prepared::Lost { arrival } => arrival,
        }
    }

    /// The number of entries that components gave; 0 if the frame isn't a message. It stops at the greatest `u32`,
    /// which no frame reaches. Takes no memory.
    pub fn components(&self) -> u32
        ensures { result ≡ min (components_of self.now) u32.MAX }
    {
        match self {
            Prepared::Message { incoming, .. } => {
                u32::try_from(incoming.entries.component_count()).unwrap_or(u32::MAX)
            }
            _ => 0,
        }
    }
}
