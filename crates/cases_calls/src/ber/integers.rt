//! Integers and their contents.

use crate::texts::push_or;
use cases::{Answer, number_of, octets_of};
use fp_ber::{integer_of, octet_of, signed_of};
use std::alloc::Global;

/// The value of the contents of an integer.
fn integer(alloc: Global, text: &str, out: &mut Answer) {
    let octets = octets_of(alloc, text, out);
    push_or(out, integer_of(octets.as_slice()), "none");
}

/// The value of one octet in two's complement.
fn signed(alloc: Global, text: &str, out: &mut Answer) {
    match octets_of(alloc, text, out).as_slice() {
        [octet] => out.value(signed_of(*octet)),
        _ => out.fail("not one octet"),
    }
}

/// The octet of a value in two's complement.
fn unsigned(text: &str, out: &mut Answer) {
    let octet = octet_of(number_of(text, out));
    out.octets(&[octet]);
}

/// Writes the result of a case of this kind. `false` if this module has no such cases.
pub(crate) fn answer(alloc: Global, kind: &str, rest: &str, out: &mut Answer) -> bool {
    match kind {
        "integer" => integer(alloc, rest, out),
        "signed" => signed(alloc, rest, out),
        "unsigned" => unsigned(rest, out),
        _ => return false,
    }
    true
}
