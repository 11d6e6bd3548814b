//! Reading an element from octets.

ghost use Rattle.std.specs.Prelude.{◌≡◌, ◌≢◌, ◌<◌, ◌≤◌, [], ◌∷◌, length, IfOk, IfErr};
ghost use Rattle.fp_ber.specs.declared.fault.BerFault.{BerFault};
ghost use Rattle.fp_ber.specs.declared.fault.BerFault.TheVariants as faults;
ghost use Rattle.fp_ber.specs.Tree.{Tree, InRange};
ghost use Rattle.fp_ber.specs.View.{tree_of, forest_of};
ghost use Rattle.fp_ber.specs.Spelling.{Spells, Begins, BeginAll};
ghost use Rattle.fp_ber.specs.Faults.{ElementFault, InContents, InOpen, FirstFault};
ghost use Rattle.fp_ber.specs.Canon.{canon, HasLengths};
ghost use Rattle.fp_ber.specs.Laws.{Reads, Refuses};

use crate::element::Element;
use crate::fault::BerFault;
use crate::length::{Extent, extent_at};
use crate::tag::tag_at;
use std::alloc::Global;

/// The most elements inside each other, the outermost counted.
pub(crate) const DEPTH: u8 = 16;

/// Room for this many elements is reserved at first.
const FIRST_ROOM: usize = 8;

/// Reads the element at the front, nested at most `depth` deep, and gives the octets after it.
#[cycle(read)]
fn element_at(alloc: Global, octets: &[u8], depth: u8) -> Result<(Element, &[u8]), BerFault>
    ensures ok { IfOk result (λ x. Begins depth octets.now (tree_of x.0) x.1.now) }
    ensures err { IfErr result (λ fault. fault ≢ faults.Memory → ElementFault depth octets.now fault) }
{
    if depth == 0 {
        return Err(BerFault::TooDeep);
    }
    let (tag, after_tag) = tag_at(octets)?;
    let contents = extent_at(after_tag, tag.constructed)?;
    match contents {
        Extent::Definite { contents, rest } => {
            if tag.constructed {
                let children = elements_of(alloc, contents, depth - 1)?;
                Ok((Element::constructed(tag.class, tag.number, children), rest))
            } else {
                let octets = Vec::from_slice(alloc, contents)?;
                Ok((Element::primitive(tag.class, tag.number, octets), rest))
            }
        }
        Extent::Indefinite { rest } => {
            let (children, rest) = elements_to_end(alloc, rest, depth - 1)?;
            Ok((Element::constructed(tag.class, tag.number, children), rest))
        }
    }
}

/// Reads the elements in definite contents.
#[cycle(read)]
fn elements_of(alloc: Global, contents: &[u8], depth: u8) -> Result<Vec<Element>, BerFault>
    ensures ok { IfOk result (λ v. BeginAll depth contents.now (forest_of v.items) []) }
    ensures err { IfErr result (λ fault. fault ≢ faults.Memory → InContents depth (ElementFault depth) contents.now fault) }
{
    // An element takes at least two octets.
    let mut children = Vec::with_capacity(alloc, FIRST_ROOM.min(contents.len() / 2))?;
    let mut rest = contents;
    'children: while !rest.is_empty() {
        let (child, after) = element_at(alloc, rest, depth)?;
        children.push(child)?;
        rest = after;
    }
    Ok(children)
}

/// Reads elements up to an end of contents, and gives the octets after it.
#[cycle(read)]
fn elements_to_end(
    alloc: Global,
    octets: &[u8],
    depth: u8,
) -> Result<(Vec<Element>, &[u8]), BerFault>
    ensures ok { IfOk result (λ x. BeginAll depth octets.now (forest_of x.0.items) (0 ∷ 0 ∷ x.1.now)) }
    ensures err { IfErr result (λ fault. fault ≢ faults.Memory → InOpen depth (ElementFault depth) octets.now fault) }
{
    let mut children = Vec::new(alloc);
    let mut rest = octets;
    'children: loop {
        match rest {
            [] | [0] => return Err(BerFault::Cut),
            [0, 0, after @ ..] => return Ok((children, after)),
            _ => {
                let (child, after) = element_at(alloc, rest, depth)?;
                children.push(child)?;
                rest = after;
            }
        }
    }
}

/// Reads the element that all of the octets spell.
fn element_of(alloc: Global, octets: &[u8]) -> Result<Element, BerFault>
    ensures found { IfOk result (λ e. Spells octets.now (tree_of e) × InRange (tree_of e)) }
    ensures fault { IfErr result (λ fault. fault ≢ faults.Memory → FirstFault octets.now fault) }
{
    let (element, rest) = element_at(alloc, octets, DEPTH)?;
    if !rest.is_empty() {
        return Err(BerFault::Trailing);
    }
    Ok(element)
}

/// Reads the element that all of the octets spell (X.690, 8.1).
///
/// Each length may have any of the three forms and needn't be minimal. At most sixteen elements may lie inside each
/// other, and tag numbers go to 16,383. For example, `30 80 00 00` and `30 00` are the same empty sequence. Octets that
/// spell no such element are refused by their first fault from left to right, and nothing is kept of them.
pub fn read(alloc: Global, octets: &[u8]) -> Result<Element, BerFault>
    // The octets spell the element that is given, in range.
    ensures found { IfOk result (λ e. Spells octets.now (tree_of e) × InRange (tree_of e)) }

    // An element that the octets spell, in range, is read, unless memory runs out.
    ensures only { (t : Tree) → Spells octets.now t → InRange t → Reads result t }

    // An element from fewer than 65,536 octets can be written, in at most as many octets.
    ensures fits { IfOk result (λ e. length octets.now < 65536
        → HasLengths (tree_of e) × (length (canon (tree_of e)) ≤ length octets.now)) }

    // A fault is the first from left to right.
    ensures fault { IfErr result (λ fault. fault ≢ faults.Memory → FirstFault octets.now fault) }

    // The first fault is reported, unless memory runs out before it.
    ensures first { (fault : BerFault) → FirstFault octets.now fault → Refuses result fault }
{
    element_of(alloc, octets)
}
