//! Messages and components of TCAP (ITU-T Q.773), over elements.
//!
//! This layer reads a [`Message`] from an element, and writes a [`Message`] as octets. It asks the system only for
//! memory. It knows nothing of operations: an Invoke has a [`Code`] and perhaps a parameter, an element that the layer
//! above reads.
//!
//! * [`Message`] has transaction identifiers, each a [`Tid`], a dialogue portion, which is an element that the layer
//!   above reads, and components.
//! * [`Component`] is an Invoke, a ReturnResult, a ReturnError or a Reject, which has a [`Problem`]. Any other element
//!   is a faulty component. It has the fields of the Reject that it gets.
//! * [`OperationClass`] says whether the far end reports success, failure, both or neither.
//! * [`message_in`] reads a message and borrows all parameters from the element; [`write_message`] puts the
//!   octets of a message into a [`Writer`](fp_ber::Writer).
//! * [`write_invoke`], [`write_return_error`], [`write_component_portion`], [`write_continue_message`],
//!   [`write_end_message`] and [`write_abort_message`] put a head before contents that are already written. So you
//!   write a message from its end to its front, without an element. For example, an End: first the parameter, then
//!   `write_invoke`, `write_component_portion` and `write_end_message`.
//! * [`ids_of`] gives the kind and the transaction identifiers of octets that may not be a message, and [`write_abort`]
//!   spells an Abort of the provider. Neither takes memory.
//!
//! The layer above may rely on this, unless memory runs out. A message is read exactly if the element is that message
//! by the grammar of `specs/Grammar.antt`. A fault is reported exactly if `specs/Fault.antt` has it. The written octets
//! are the canonical spelling of the element that `specs/Written.antt` makes of the message, and that element is the
//! message by the same grammar. `ids_of` follows `specs/Ids.antt`. An element is at most one message, and octets have
//! one kind and at most one identifier of each sort, so there is only one answer. If the octets spell a message, the
//! kind and the identifiers are the message's. A problem that is read has its name, if there is one, and each number
//! has one identifier of four octets. If memory runs out during a write, the octets are unchanged.
#![tactic(auto, using(fp_ber::specs::Putting::end_of_end))]

mod abort;
mod begin;
mod coded;
mod component;
mod continuing;
mod end;
mod fault;
mod identifier;
mod ids;
mod invoke;
mod kind;
mod laws;
mod length;
mod members;
mod message;
mod operation_class;
mod portions;
mod problem;
mod provider_abort;
mod reject;
mod return_error;
mod return_result;
mod tid;
mod transaction;

pub use abort::{Abort, AbortReason, write_abort_message};
pub use begin::Begin;
pub use coded::{Code, Coded};
pub use component::Component;
pub use continuing::{Continue, write_continue_message};
pub use end::{End, write_end_message};
pub use fault::MessageFault;
pub use ids::{Ids, ids_of};
pub use invoke::{Invoke, write_invoke};
pub use kind::Kind;
pub use laws::{
    codes_are_least, components_are_one, identifiers_are_those_of_the_message, ids_are_one,
    messages_are_one, numbers_are_four_octets, written_messages_are_elements,
};
pub use message::{Message, message_in, message_of, write_message};
pub use operation_class::OperationClass;
pub use portions::write_component_portion;
pub use problem::{
    GeneralProblem, InvokeProblem, Problem, ReturnErrorProblem, ReturnResultProblem,
};
pub use provider_abort::{AbortCause, AbortOctets, write_abort};
pub use reject::Reject;
pub use return_error::{ReturnError, write_return_error};
pub use return_result::ReturnResult;
pub use tid::Tid;
