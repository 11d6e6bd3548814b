//! Elements from hexadecimal text, and the octets in a writer as such text. `empty` means no octets.

use crate::values::kept;
use cases::{Answer, octets_of};
use fp_ber::{Element, Writer};
use std::alloc::Global;

/// The element that this text spells. `None`, and a fault, if it spells none.
pub(crate) fn element_of(alloc: Global, text: &str, out: &mut Answer) -> Option<Element> {
    let octets = octets_of(alloc, text, out);
    kept(fp_ber::read(alloc, octets.as_slice()), out)
}

/// A writer with enough room for most cases. `None`, and a fault, if memory ran out.
pub(crate) fn new_writer(alloc: Global, out: &mut Answer) -> Option<Writer> {
    kept(Writer::with_capacity(alloc, 128), out)
}

/// Writes the octets that were put.
pub(crate) fn push_written(out: &mut Answer, writer: Writer) {
    out.octets(writer.into_octets().as_slice());
}
