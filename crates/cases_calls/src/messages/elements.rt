//! Elements as text: tags and contents, without lengths.

use crate::texts::push_hexadecimal;
use cases::Answer;
use fp_ber::{Class, ElementRef, Elements};

/// The bits of a class in the first octet of a tag (X.690, 8.1.2.2).
fn class_bits(class: Class) -> u8 {
    match class {
        Class::Universal => 0x00,
        Class::Application => 0x40,
        Class::Context => 0x80,
        Class::Private => 0xC0,
    }
}

/// Writes a tag: its octet, or its class and number if they don't fit into one octet.
fn push_tag(out: &mut Answer, class: Class, form: u8, number: u16) {
    if number > 30 {
        out.shown(&class);
        return out.labeled("-", number);
    }
    out.octets(&[class_bits(class) | form | number as u8]);
}

/// Writes an element: its tag, and its octets or its elements.
#[cycle(texts)]
pub(crate) fn push_element(out: &mut Answer, element: &ElementRef<'_>) {
    if let Some(octets) = element.octets() {
        push_tag(out, element.class(), 0x00, element.number());
        out.text(":");
        push_hexadecimal(out, octets);
    }
    if let Some(children) = element.children() {
        push_tag(out, element.class(), 0x20, element.number());
        push_elements(out, &children);
    }
}

/// Writes elements, one after another.
#[cycle(texts)]
fn push_elements(out: &mut Answer, elements: &Elements<'_>) {
    let mut is_first = true;
    out.text("(");
    let mut left = *elements;
    'elements: while let Some(split) = left.split_first() {
        if !is_first {
            out.text(" ");
        }
        is_first = false;
        push_element(out, &split.first);
        left = split.rest;
    }
    out.text(")");
}

/// Writes an element, or `none`.
pub(crate) fn push_optional(out: &mut Answer, element: Option<ElementRef<'_>>) {
    match element {
        Some(element) => push_element(out, &element),
        None => out.text("none"),
    }
}
