//! The message of a request.

ghost use Rattle.std.specs.Prelude.{◌≡◌, ◌≤◌, ◌++◌, IfOk, OnOk, length, map, option_map};
ghost use Rattle.fp_ber.specs.Canon.{canon, canon_of_all};
ghost use Rattle.fp_q773.specs.Grammar.{IsMessage};
ghost use Rattle.fp_q773.specs.Tid.{octets_of, octets_of_number};
ghost use Rattle.fp_q773.specs.Value as value;
ghost use Rattle.fp_q773.specs.Written.{component_trees, portions_trees, written};
ghost use Rattle.fp_reply.specs.Part.{AreComponents, CanBeSent, IsDialoguePortion, IsSpelled};
ghost use Rattle.fp_reply.specs.Reply.{abort_portion, acceptance_portion, component_value, reply};

use crate::component::write_components;
use crate::dialogue_portion::{write_abort_portion, write_acceptance};
use fp_apdu::Name;
use fp_ber::Writer;
use fp_q773::{
    Tid, write_abort_message, write_continue_message, write_end_message,
    written_messages_are_elements,
};
use fp_service::{AbortPortion, Components, Request};
use std::alloc::{AllocError, Global};

/// Puts the portions of a Continue or an End: the AARE that accepts the dialogue, if there is one, and the components.
#[inline(always)]
fn write_portions(
    acceptance: Option<Name>,
    components: &Components,
    out: &mut Writer,
) -> Result<(), AllocError>
    ensures exact { OnOk result (out.new
        ≡ canon_of_all (portions_trees (acceptance_portion acceptance) (map component_value components.now)) ++ out.old) }
    ensures dialogue { OnOk result (IsDialoguePortion (acceptance_portion acceptance)) }
    ensures components { OnOk result (AreComponents components.now) }
    ensures size { OnOk result (length (canon_of_all (component_trees (map component_value components.now))) ≤ 101) }
{
    write_components(components.as_slice(), out)?;
    write_acceptance(acceptance, out)
}

/// Puts a Continue.
fn write_continuing(
    acceptance: Option<Name>,
    components: &Components,
    local: u32,
    peer: Tid,
    out: &mut Writer,
) -> Result<(), AllocError>
    ensures exact { OnOk result (out.new ≡ canon (written (value.continuing (octets_of_number local) (octets_of peer)
        (acceptance_portion acceptance) (map component_value components.now))) ++ out.old) }
    ensures message { OnOk result (CanBeSent (value.continuing (octets_of_number local) (octets_of peer)
        (acceptance_portion acceptance) (map component_value components.now))) }
{
    let start = out.len();
    write_portions(acceptance, components, out)?;
    write_continue_message(Tid::of_number(local), peer, start, out)
}

/// Puts an End.
fn write_ending(
    acceptance: Option<Name>,
    components: &Components,
    peer: Tid,
    out: &mut Writer,
) -> Result<(), AllocError>
    ensures exact { OnOk result (out.new
        ≡ canon (written (value.end (octets_of peer) (acceptance_portion acceptance) (map component_value components.now))) ++ out.old) }
    ensures message { OnOk result (CanBeSent (value.end (octets_of peer) (acceptance_portion acceptance)
        (map component_value components.now))) }
{
    let start = out.len();
    write_portions(acceptance, components, out)?;
    write_end_message(peer, start, out)
}

/// Puts an Abort of the user.
fn write_aborting(portion: &AbortPortion, peer: Tid, out: &mut Writer) -> Result<(), AllocError>
    ensures exact { OnOk result (out.new
        ≡ canon (written (value.abort (octets_of peer) (option_map value.user (abort_portion portion.now)))) ++ out.old) }
    ensures message { OnOk result (CanBeSent (value.abort (octets_of peer) (option_map value.user (abort_portion portion.now)))) }
{
    let start = out.len();
    write_abort_portion(portion, out)?;
    write_abort_message(peer, start, out)
}

/// Puts the message of a request.
fn write_message(
    request: &Request,
    local: u32,
    peer: Tid,
    out: &mut Writer,
) -> Result<(), AllocError>
    ensures exact { OnOk result (out.new ≡ canon (written (reply request.now local (octets_of peer))) ++ out.old) }
    ensures message { OnOk result (CanBeSent (reply request.now local (octets_of peer))) }
{
    match request {
        Request::Continue {
            acceptance,
            components,
        } => write_continuing(*acceptance, components, local, peer, out),
        Request::End {
            acceptance,
            components,
        } => write_ending(*acceptance, components, peer, out),
        Request::Abort(portion) => write_aborting(portion, peer, out),
    }
}

/// The initial capacity of a reply, in octets. Most replies are shorter, and the buffer grows for longer ones. The
/// allocator hands out and frees buffers of this size cheaply (glibc: up to 120 octets).
const ROOM: usize = 112;

/// The octets of a request's message. Most fit the initial capacity together with the head of a frame.
pub(crate) fn reply_to(
    alloc: Global,
    request: &Request,
    local: u32,
    peer: &Tid,
) -> Result<Writer, AllocError>
    ensures exact { IfOk result (λ out. out ≡ canon (written (reply request.now local (octets_of peer.now)))) }
    ensures found { IfOk result (λ out. IsMessage (written (reply request.now local (octets_of peer.now)))
        (reply request.now local (octets_of peer.now))) }
    ensures spelled { IfOk result (λ out. IsSpelled (written (reply request.now local (octets_of peer.now)))) }
{
    written_messages_are_elements();
    let mut out = Writer::with_capacity(alloc, ROOM)?;
    write_message(request, local, *peer, &mut out)?;
    Ok(out)
}
