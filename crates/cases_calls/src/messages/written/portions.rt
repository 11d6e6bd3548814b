//! Elements that a message borrows: dialogue portions and parameters.

ghost use Rattle.std.specs.Prelude.{◌≡◌, ◌≤◌, option_map};
ghost use Rattle.fp_ber.specs.View.{tree_of};
ghost use Rattle.fp_q773.specs.Copied.{CopyHasTags};
ghost use Rattle.fp_q773.specs.Room.{tree_room};
ghost use Rattle.fp_q773.specs.View.{tree_in};
ghost use Rattle.fp_q773.specs.Writable.{IsWritableDialogue};

use cases::{Answer, octets_of};
use fp_ber::{Class, Element, ElementRef};
use std::alloc::Global;

/// The most octets of an element in a case.
const MOST: usize = 1000;

/// The element of a text; `None` for `none` or an empty text, and, with a fault, for a text that spells none.
pub(crate) fn optional_element(alloc: Global, text: &str, out: &mut Answer) -> Option<Element>
    ensures tags { CopyHasTags (option_map tree_of result) }
    ensures room { tree_room (option_map tree_of result) ≤ 1000 }
{
    if text == "none" || text.is_empty() {
        return None;
    }
    let octets = octets_of(alloc, text, out);
    if octets.len() > MOST {
        out.fail("a long element");
        return None;
    }
    match fp_ber::read(alloc, octets.as_slice()) {
        Ok(element) => Some(element),
        Err(_) => {
            out.fail("no element");
            None
        }
    }
}

/// The dialogue portion of a text; `None` for `none`, and, with a fault, for a text that spells none.
pub(crate) fn dialogue_of(alloc: Global, text: &str, out: &mut Answer) -> Option<Element>
    ensures writable { IsWritableDialogue (option_map tree_of result) }
    ensures tags { CopyHasTags (option_map tree_of result) }
    ensures room { tree_room (option_map tree_of result) ≤ 1000 }
{
    let Some(element) = optional_element(alloc, text, out) else {
        return None;
    };
    if element.children_with_tag(Class::Application, 11).is_none() {
        out.fail("no dialogue portion");
        return None;
    }
    Some(element)
}

/// A reference to an element, if there is one.
pub(crate) fn lent(element: Option<&Element>) -> Option<ElementRef<'_>>
    ensures { tree_in result ≡ option_map (λ element. tree_of element.now) element.entry }
{
    let Some(element) = element else {
        return None;
    };
    Some(ElementRef::Owned(element))
}
