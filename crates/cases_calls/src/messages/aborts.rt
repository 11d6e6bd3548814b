//! Aborts of the provider, which are spelled without an allocation.

use crate::values::{abort_cause_of, tid_of};
use cases::{Answer, first_word, number_of};
use fp_q773::{AbortCause, write_abort};
use std::alloc::Global;

/// The name of the cause of this value, or `none`.
pub(crate) fn provider_cause(text: &str, out: &mut Answer) {
    match AbortCause::from_code(number_of(text, out)) {
        Some(cause) => out.shown(&cause),
        None => out.text("none"),
    }
}

/// The octets of an Abort of the provider, and the value of its cause.
pub(crate) fn provider_abort(alloc: Global, text: &str, out: &mut Answer) {
    let (identifier, cause) = first_word(text);
    let tid = tid_of(alloc, identifier, out);
    let cause = abort_cause_of(cause, out);
    out.octets(write_abort(tid, cause).as_slice());
    out.labeled(", cause ", cause.code());
}
