//! Building elements, and their canonical spellings.

ghost use Rattle.std.specs.Prelude.{◌<◌, ◌≤◌, length};
ghost use Rattle.fp_ber.specs.Canon.{HasLengths};
ghost use Rattle.fp_ber.specs.Tree.{HasTags};
ghost use Rattle.fp_ber.specs.View.{tree_of};

use crate::ber::tags::tag_of;
use crate::values::kept;
use cases::{Answer, first_word, number_of, octets_of};
use fp_ber::{Class, Element, read, write};
use std::alloc::Global;

/// Writes the canonical spelling of an element.
fn push_spelling(alloc: Global, element: &Element, out: &mut Answer)
    requires tags { HasTags (tree_of element.now) }
    requires lengths { HasLengths (tree_of element.now) }
{
    let mut octets = Vec::new(alloc);
    out.note(write(element, &mut octets));
    out.octets(octets.as_slice())
}

/// The octets of a text; none, and a fault, for 65,536 octets and more.
fn bounded_octets_of(alloc: Global, text: &str, out: &mut Answer) -> Vec<u8>
    ensures { length result.items < 65536 }
{
    let octets = octets_of(alloc, text, out);
    if octets.len() < 65_536 {
        return octets;
    }
    out.fail("65,536 octets or more");
    Vec::new(alloc)
}

/// The canonical spelling of the element that these octets spell, or their first fault.
fn canonical(alloc: Global, text: &str, out: &mut Answer) {
    let octets = bounded_octets_of(alloc, text, out);
    match read(alloc, octets.as_slice()) {
        Ok(element) => push_spelling(alloc, &element, out),
        Err(fault) => out.shown(&fault),
    }
}

/// The canonical spelling of the element of this tag that holds these octets.
fn primitive(alloc: Global, text: &str, out: &mut Answer) {
    let (class, text) = first_word(text);
    let (number, text) = first_word(text);
    let tag = tag_of(class, number, out);
    let octets = bounded_octets_of(alloc, text, out);
    let element = Element::primitive(tag.class, tag.number, octets);
    push_spelling(alloc, &element, out);
}

/// The canonical spelling of the element of this tag that holds the element that these octets spell.
fn constructed(alloc: Global, text: &str, out: &mut Answer) {
    let (class, text) = first_word(text);
    let (number, text) = first_word(text);
    let tag = tag_of(class, number, out);
    let octets = bounded_octets_of(alloc, text, out);
    match read(alloc, octets.as_slice()) {
        Ok(child) => match vec![in alloc; child] {
            Ok(children) => {
                let element = Element::constructed(tag.class, tag.number, children);
                push_spelling(alloc, &element, out);
            }
            Err(_) => out.run_out(),
        },
        Err(_) => out.fail("no element"),
    }
}

/// Writes the front of an octet string's spelling, before its octets 00, and how many of these there are.
fn push_zeros(out: &mut Answer, spelling: &[u8], count: usize) {
    let Some(split) = spelling.len().checked_sub(count) else {
        return out.fail("fewer octets than the element holds");
    };
    let (header, contents) = spelling.split_at(split);
    for octet in contents {
        if *octet != 0 {
            out.fail("other octets than the element holds");
        }
    }
    out.octets(header);
    out.labeled(", ", contents.len());
    out.text(" of 00");
}

/// This number of octets 00, at most 65,536; none, and a fault, for more.
fn zeros_of(alloc: Global, count: usize, out: &mut Answer) -> Vec<u8>
    ensures { length result.items ≤ 65536 }
{
    let mut zeros = Vec::new(alloc);
    if count <= 65_536 {
        out.note(zeros.resize(count, 0));
    } else {
        out.fail("more than 65,536 octets");
    }
    zeros
}

/// The spelling of an octet string that holds this many octets 00.
fn zeros(alloc: Global, text: &str, out: &mut Answer) {
    let count: usize = number_of(text, out);
    let zeros = zeros_of(alloc, count, out);
    let element = Element::primitive(Class::Universal, 4, zeros);
    let mut spelling = Vec::new(alloc);
    out.note(write(&element, &mut spelling));
    push_zeros(out, spelling.as_slice(), count);
}

/// Writes the result of a case of this kind. `false` if this module has no such cases.
pub(crate) fn answer(alloc: Global, kind: &str, rest: &str, out: &mut Answer) -> bool {
    match kind {
        "canonical" => canonical(alloc, rest, out),
        "primitive" => primitive(alloc, rest, out),
        "constructed" => constructed(alloc, rest, out),
        "zeros" => zeros(alloc, rest, out),
        _ => return false,
    }
    true
}
