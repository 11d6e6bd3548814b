//! Reading elements.

use crate::ber::trees::{push_lent, push_tree};
use crate::elements::element_of;
use crate::values::kept;
use cases::{Answer, first_word, number_of, octets_of};
use fp_ber::{Element, ElementRef, Node, NodesFault, read, read_nodes};
use std::alloc::Global;

/// Writes the element that these octets spell, or their first fault.
fn push_read(alloc: Global, octets: &[u8], out: &mut Answer) {
    match read(alloc, octets) {
        Ok(element) => push_tree(out, &element),
        Err(fault) => out.shown(&fault),
    }
}

/// Writes the element that these octets spell, read into these places, or their first fault.
fn push_read_in<'a>(places: &mut [Node<'a>], octets: &'a [u8], out: &mut Answer) {
    match read_nodes(octets, places) {
        Ok(used) => push_lent(out, &ElementRef::of_nodes(&places[..used])),
        Err(NodesFault::Fault(fault)) => out.shown(&fault),
        Err(NodesFault::Full) => out.text("full"),
    }
}

/// Writes the element that these octets spell, read as nodes, or their first fault.
fn push_read_nodes(alloc: Global, octets: &[u8], out: &mut Answer) {
    let places = vec![in alloc; Node::BLANK; octets.len() / 2 + 1];
    if let Some(mut places) = kept(places, out) {
        push_read_in(places.as_mut_slice(), octets, out);
    }
}

/// Writes the element that these octets spell, or their first fault. If reading them as nodes gives another result,
/// writes that too.
fn push_both(alloc: Global, octets: &[u8], out: &mut Answer) {
    push_read(alloc, octets, out);
    let mut lent = Answer::new(alloc);
    push_read_nodes(alloc, octets, &mut lent);
    push_other(&lent, out);
}

/// Writes what reading as nodes gave, if that is anything else than what is written already.
pub(crate) fn push_other(lent: &Answer, out: &mut Answer) {
    if lent.is_faulty() || lent.as_str() != out.as_str() {
        out.text(", in nodes ");
        out.append(lent);
    }
}

/// The element that these octets spell, or their first fault.
fn element(alloc: Global, text: &str, out: &mut Answer) {
    let octets = octets_of(alloc, text, out);
    push_both(alloc, octets.as_slice(), out)
}

/// The element that these octets spell inside COUNT elements of indefinite length, or the first fault.
fn nested(alloc: Global, text: &str, out: &mut Answer) {
    let (count, text) = first_word(text);
    let count: u8 = number_of(count, out);
    let mut hexadecimal = String::new(alloc);
    for _ in 0..count {
        out.note(hexadecimal.push_str("3080"));
    }
    if text != "empty" {
        out.note(hexadecimal.push_str(text));
    }
    element(alloc, hexadecimal.as_str(), out)
}

/// A copy of the element that these octets spell.
fn copy(alloc: Global, text: &str, out: &mut Answer) {
    if let Some(element) = element_of(alloc, text, out) {
        push_copy(alloc, &element, out);
    }
}

/// Writes a copy of an element.
fn push_copy(alloc: Global, element: &Element, out: &mut Answer) {
    if let Some(copy) = kept(element.try_clone(alloc), out) {
        push_tree(out, &copy);
    }
}

/// Writes the result of a case of this kind. `false` if this module has no such cases.
pub(crate) fn answer(alloc: Global, kind: &str, rest: &str, out: &mut Answer) -> bool {
    match kind {
        "element" => element(alloc, rest, out),
        "nested" => nested(alloc, rest, out),
        "copy" => copy(alloc, rest, out),
        _ => return false,
    }
    true
}
