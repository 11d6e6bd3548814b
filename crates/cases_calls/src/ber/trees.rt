//! Elements as trees.

use crate::ber::tags::class_name;
use cases::Answer;
use fp_ber::{Body, Class, Element, ElementRef, Elements};

/// Writes the form and the tag of an element.
fn push_head(out: &mut Answer, form: &str, class: Class, number: u16) {
    out.text(form);
    out.text(class_name(class));
    out.labeled(" ", number);
    out.text(" ");
}

/// Writes an element.
#[cycle(tree)]
pub(crate) fn push_tree(out: &mut Answer, element: &Element) {
    let class = element.class;
    let number = element.number;
    match &element.body {
        Body::Primitive(octets) => {
            push_head(out, "primitive ", class, number);
            out.octets(octets.as_slice())
        }
        Body::Constructed(children) => {
            push_head(out, "constructed ", class, number);
            push_forest(out, children.as_slice())
        }
    }
}

/// Writes elements.
#[cycle(tree)]
pub(crate) fn push_forest(out: &mut Answer, elements: &[Element]) {
    let mut is_first = true;
    'elements: for element in elements {
        out.text(if is_first { "{ " } else { ", " });
        is_first = false;
        push_tree(out, element);
    }
    out.text(if elements.is_empty() { "{}" } else { " }" });
}

/// Writes a borrowed element.
#[cycle(lent)]
pub(crate) fn push_lent(out: &mut Answer, element: &ElementRef<'_>) {
    let class = element.class();
    let number = element.number();
    if let Some(octets) = element.octets() {
        push_head(out, "primitive ", class, number);
        out.octets(octets);
    }
    if let Some(children) = element.children() {
        push_head(out, "constructed ", class, number);
        push_all_lent(out, &children);
    }
}

/// Writes borrowed elements.
#[cycle(lent)]
fn push_all_lent(out: &mut Answer, elements: &Elements<'_>) {
    let mut is_first = true;
    let mut left = *elements;
    'elements: while let Some(split) = left.split_first() {
        out.text(if is_first { "{ " } else { ", " });
        is_first = false;
        push_lent(out, &split.first);
        left = split.rest;
    }
    out.text(if is_first { "{}" } else { " }" });
}
