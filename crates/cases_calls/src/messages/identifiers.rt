//! Transaction identifiers, and the identifiers in octets that need not be a message.

use crate::texts::{push_or, push_tid};
use crate::values::tid_of;
use cases::{Answer, octets_of};
use fp_q773::{Tid, ids_of};
use std::alloc::Global;

/// The transaction identifier of these octets, or `none`.
pub(crate) fn transaction(alloc: Global, text: &str, out: &mut Answer) {
    let octets = octets_of(alloc, text, out);
    push_tid(out, Tid::new(octets.as_slice()));
}

/// The transaction identifier of a number.
pub(crate) fn identifier_of(text: &str, out: &mut Answer) {
    let tid = Tid::of_number(cases::number_of(text, out));
    out.octets(tid.as_slice());
}

/// The number of a transaction identifier, or `none`.
pub(crate) fn number_of(alloc: Global, text: &str, out: &mut Answer) {
    let tid = tid_of(alloc, text, out);
    push_or(out, tid.number(), "none");
}

/// The kind and the transaction identifiers of these octets.
pub(crate) fn identifiers(alloc: Global, text: &str, out: &mut Answer) {
    let octets = octets_of(alloc, text, out);
    let ids = ids_of(octets.as_slice());
    out.shown(&ids.kind);
    out.text(", originating ");
    push_tid(out, ids.orig);
    out.text(", destination ");
    push_tid(out, ids.dest);
}
