//! An element in memory of its own, made from a borrowed one.

ghost use Rattle.std.specs.Prelude.{◌≡◌, IfOk};
ghost use Rattle.fp_ber.specs.Lent.{lent_tree, lent_trees};
ghost use Rattle.fp_ber.specs.View.{tree_of, forest_of};

use crate::element::Element;
use crate::element_ref::{ElementRef, Elements};
use std::alloc::{AllocError, Global};

/// A copy of a borrowed element.
#[cycle(lent)]
fn copy_of(alloc: Global, element: &ElementRef<'_>) -> Result<Element, AllocError>
    ensures { IfOk result (λ copy. tree_of copy ≡ lent_tree element.now) }
{
    let class = element.class();
    let number = element.number();
    if let Some(octets) = element.octets() {
        let octets = Vec::from_slice(alloc, octets)?;
        return Ok(Element::primitive(class, number, octets));
    }
    let Some(children) = element.children() else {
        unreachable!();
    };
    let children = copy_all(alloc, &children)?;
    Ok(Element::constructed(class, number, children))
}

/// Copies of borrowed elements, in their order.
#[cycle(lent)]
fn copy_all(alloc: Global, elements: &Elements<'_>) -> Result<Vec<Element>, AllocError>
    ensures { IfOk result (λ copies. forest_of copies.items ≡ lent_trees elements.now) }
{
    let mut copies = Vec::new(alloc);
    let mut left = *elements;
    'elements: while let Some(split) = left.split_first() {
        let copy = copy_of(alloc, &split.first)?;
        copies.push(copy)?;
        left = split.rest;
    }
    Ok(copies)
}

impl ElementRef<'_> {
    /// A copy of the element in memory of its own.
    pub fn to_element(&self, alloc: Global) -> Result<Element, AllocError>
        ensures { IfOk result (λ copy. tree_of copy ≡ lent_tree self.now) }
    {
        copy_of(alloc, self)
    }
}
