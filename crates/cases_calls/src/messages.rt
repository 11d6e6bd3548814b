//! Messages and components of TCAP (Q.773): reading them, the identifiers that `ids_of` finds in octets that need not
//! be a message, and writing them.
//!
//! | Case | Result |
//! |---|---|
//! | `message HEX` | the message of these octets, with each of its fields, or `fault` and which |
//! | `component HEX` | the component of these octets, in a Begin |
//! | `invokes HEX` | the identifiers of the Invokes among the components of the Begin of these octets |
//! | `identifiers HEX` | kind and transaction identifiers of these octets, whether they are a message or not; `HEX` may be left out |
//! | `transaction HEX` | the transaction identifier of these octets, or `none`; `HEX` may be left out |
//! | `identifier-of NUMBER` | the transaction identifier of a number |
//! | `number-of TID` | the number of a transaction identifier, or `none` |
//! | `problem TAG VALUE` | the problem of this value whose tag has this number, or `none`; its tag and its value |
//! | `provider-abort TID CAUSE` | the octets of an Abort of the provider, and the value of its cause |
//! | `provider-cause VALUE` | the name of the cause of this value, or `none` |
//! | `write MESSAGE` | the octets of a message; `written` has the messages |
//!
//! Elements, such as parameters and dialogue portions, are written by tag and contents, without lengths: `04:AA` is an
//! octet string, and `30(02:05 04:)` a sequence of an integer and an empty octet string.

mod aborts;
mod components;
mod elements;
mod identifiers;
mod problems;
mod reading;
mod written;

use cases::Answer;
use std::alloc::Global;

/// Writes the result of a case of this kind. `false` if this module has no such cases.
pub(crate) fn answer(alloc: Global, kind: &str, rest: &str, out: &mut Answer) -> bool {
    match kind {
        "message" => reading::message(alloc, rest, out),
        "component" => reading::component(alloc, rest, out),
        "invokes" => reading::invokes(alloc, rest, out),
        "identifiers" => identifiers::identifiers(alloc, rest, out),
        "transaction" => identifiers::transaction(alloc, rest, out),
        "identifier-of" => identifiers::identifier_of(rest, out),
        "number-of" => identifiers::number_of(alloc, rest, out),
        "problem" => problems::problem(rest, out),
        "provider-abort" => aborts::provider_abort(alloc, rest, out),
        "provider-cause" => aborts::provider_cause(rest, out),
        "write" => written::write(alloc, rest, out),
        _ => return false,
    }
    true
}
