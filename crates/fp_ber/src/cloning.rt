//! A copy of an element.

ghost use Rattle.std.specs.Prelude.{◌≡◌, IfOk};
ghost use Rattle.fp_ber.specs.View.{tree_of, forest_of};

use crate::element::{Body, Element};
use std::alloc::{AllocError, Global};

/// A copy of an element.
#[cycle(clone)]
fn clone_of(alloc: Global, element: &Element) -> Result<Element, AllocError>
    ensures { IfOk result (λ copy. tree_of copy ≡ tree_of element.now) }
{
    let class = element.class;
    let number = element.number;
    match &element.body {
        Body::Primitive(octets) => {
            let octets = Vec::from_slice(alloc, octets.as_slice())?;
            Ok(Element::primitive(class, number, octets))
        }
        Body::Constructed(children) => {
            let children = clone_all(alloc, children.as_slice())?;
            Ok(Element::constructed(class, number, children))
        }
    }
}

/// Copies of elements, in their order.
#[cycle(clone)]
fn clone_all(alloc: Global, elements: &[Element]) -> Result<Vec<Element>, AllocError>
    ensures { IfOk result (λ copies. forest_of copies.items ≡ forest_of elements.now) }
{
    let mut copies = Vec::new(alloc);
    'elements: for element in elements {
        let copy = clone_of(alloc, element)?;
        copies.push(copy)?;
    }
    Ok(copies)
}

impl Element {
    /// A copy of the element.
    pub fn try_clone(&self, alloc: Global) -> Result<Element, AllocError>
        ensures { IfOk result (λ copy. tree_of copy ≡ tree_of self.now) }
    {
        clone_of(alloc, self)
    }
}
