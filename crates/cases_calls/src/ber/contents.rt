//! The contents of elements.

use crate::ber::tags::tag_of;
use crate::ber::trees::push_forest;
use crate::elements::element_of;
use crate::texts::push_octets_or_none;
use cases::{Answer, first_word};
use fp_ber::Element;
use std::alloc::Global;

/// The octets in an element, of this tag if one is given.
fn octets_in<'a>(element: &'a Element, tag: &str, out: &mut Answer) -> Option<&'a [u8]> {
    if tag.is_empty() {
        return element.octets();
    }
    let (class, number) = first_word(tag);
    let tag = tag_of(class, number, out);
    element.octets_with_tag(tag.class, tag.number)
}

/// The elements in an element, of this tag if one is given.
fn children_in<'a>(element: &'a Element, tag: &str, out: &mut Answer) -> Option<&'a [Element]> {
    if tag.is_empty() {
        return element.children();
    }
    let (class, number) = first_word(tag);
    let tag = tag_of(class, number, out);
    element.children_with_tag(tag.class, tag.number)
}

/// Writes elements, or `none`.
fn push_children_in(out: &mut Answer, children: Option<&[Element]>) {
    match children {
        Some(children) => push_forest(out, children),
        None => out.text("none"),
    }
}

/// The octets in the element that these octets spell.
fn octets(alloc: Global, text: &str, out: &mut Answer) {
    let (text, tag) = first_word(text);
    if let Some(element) = element_of(alloc, text, out) {
        let octets = octets_in(&element, tag, out);
        push_octets_or_none(out, octets);
    }
}

/// The elements in the element that these octets spell.
fn children(alloc: Global, text: &str, out: &mut Answer) {
    let (text, tag) = first_word(text);
    if let Some(element) = element_of(alloc, text, out) {
        let children = children_in(&element, tag, out);
        push_children_in(out, children);
    }
}

/// Writes the result of a case of this kind. `false` if this module has no such cases.
pub(crate) fn answer(alloc: Global, kind: &str, rest: &str, out: &mut Answer) -> bool {
    match kind {
        "octets" => octets(alloc, rest, out),
        "children" => children(alloc, rest, out),
        _ => return false,
    }
    true
}
