//! Reading the nodes of elements from octets, into places.

ghost use Rattle.std.specs.Prelude.{◌≡◌, ◌+◌, ◌-◌, ◌*◌, ◌<◌, ◌≤◌, ◌∷◌, ◌++◌, [], IfOk, IfErr, IfSome, length, take};
ghost use Rattle.fp_ber.specs.declared.fault.NodesFault.TheVariants as faults;
ghost use Rattle.fp_ber.specs.Faults.{ElementFault, InContents, InOpen};
ghost use Rattle.fp_ber.specs.NodesFaults.{Stops};
ghost use Rattle.fp_ber.specs.Nodes.{Closes, IsLeaf, PutsNode, PutsNodes, constructed_head, head_of, heads_in};

use crate::fault::{BerFault, NodesFault};
use crate::length::{Extent, extent_at};
use crate::node::Node;
use crate::tag::{Tag, class_of, tag_at};

/// The number of used places, and the octets after the element.
#[derive(Clone, Copy)]
pub(crate) struct Placed<'a> {
    pub(crate) used: usize,
    pub(crate) rest: &'a [u8],
}

/// The node of a constructed element with this tag, with this many nodes in it.
fn constructed<'a>(tag: Tag, below: usize) -> Node<'a>
    ensures { head_of result ≡ constructed_head tag.class tag.number below }
{
    Node {
        class: tag.class,
        constructed: true,
        number: tag.number,
        below,
        octets: &[],
    }
}

/// A primitive element, and the octets after it.
#[derive(Clone, Copy)]
struct Leaf<'a> {
    node: Node<'a>,
    rest: &'a [u8],
}

/// The element at the front, if it is primitive and its tag and its length take one octet each, as most do.
fn leaf_at(octets: &[u8]) -> Option<Leaf<'_>>
    ensures { IfSome result (λ leaf. IsLeaf octets.now leaf.node leaf.rest.now) }
{
    let [first, after_tag @ ..] = octets else {
        return None;
    };
    let [size, after @ ..] = after_tag else {
        return None;
    };
    let low = *first % 32;
    let size = usize::from(*size);
    if *first / 32 % 2 == 1 || low == 31 || *first == 0 || size >= 0x80 || after.len() < size {
        return None;
    }
    let (contents, rest) = after.split_at(size);
    let node = Node {
        class: class_of(*first),
        constructed: false,
        number: u16::from(low),
        below: 0,
        octets: contents,
    };
    Some(Leaf { node, rest })
}

/// Puts a node into the first unused place, and gives the number of used places. `Err`: all places are used.
fn put<'a>(places: &mut [Node<'a>], used: usize, node: Node<'a>) -> Result<usize, NodesFault>
    requires { used ≤ length places.old }
    ensures same { length places.new ≡ length places.old }
    ensures next { IfOk result (λ next. (next ≡ used + 1) × (next ≤ length places.old)) }
    ensures ok { IfOk result (λ next. take next places.new ≡ take used places.old ++ node.entry ∷ []) }
    ensures err { IfErr result (λ fault. (fault ≡ faults.Full) × (length places.old ≡ used)) }
{
    if used >= places.len() {
        return Err(NodesFault::Full);
    }
    places[used] = node;
    Ok(used + 1)
}

/// Makes the node at `place` a constructed element with this tag, which holds all used nodes after it.
fn close(places: &mut [Node<'_>], place: usize, used: usize, tag: Tag)
    requires place { place < used }
    requires used { used ≤ length places.old }
    ensures same { length places.new ≡ length places.old }
    ensures closes { Closes tag.class tag.number place (heads_in (take used places.old)) (heads_in (take used places.new)) }
{
    places[place] = constructed(tag, used - place - 1);
}

/// Reads the element at the front, nested at most `depth` deep, into the places after the used ones, and gives the
/// octets after it.
#[inline(always)]
#[cycle(nodes)]
pub(crate) fn node_at<'a>(
    octets: &'a [u8],
    depth: u8,
    places: &mut [Node<'a>],
    used: usize,
) -> Result<Placed<'a>, NodesFault>
    requires { used ≤ length places.old }
    ensures same { length places.new ≡ length places.old }
    ensures fits { IfOk result (λ placed. (used ≤ placed.used) × (placed.used ≤ length places.old)) }
    ensures ok { IfOk result (λ placed.
        PutsNode depth octets.now (take used places.old) (take placed.used places.new) placed.rest.now) }
    ensures err { IfErr result (Stops (ElementFault depth octets.now) (2 * (length places.old - used) < length octets.now)) }
{
    if depth == 0 {
        return Err(NodesFault::Fault(BerFault::TooDeep));
    }
    let (tag, after_tag) = tag_at(octets)?;
    let contents = extent_at(after_tag, tag.constructed)?;
    match contents {
        Extent::Definite { contents, rest } => {
            if tag.constructed {
                let inside = put(places, used, constructed(tag, 0))?;
                let next = nodes_of(contents, depth - 1, places, inside)?;
                close(places, used, next, tag);
                Ok(Placed { used: next, rest })
            } else {
                let node = Node {
                    class: tag.class,
                    constructed: false,
                    number: tag.number,
                    below: 0,
                    octets: contents,
                };
                let alone = put(places, used, node)?;
                Ok(Placed { used: alone, rest })
            }
        }
        Extent::Indefinite { rest } => {
            let inside = put(places, used, constructed(tag, 0))?;
            let placed = nodes_to_end(rest, depth - 1, places, inside)?;
            close(places, used, placed.used, tag);
            Ok(placed)
        }
    }
}

/// Reads the element at the front as [`node_at`] does, with a short path for a short primitive element.
#[cycle(nodes)]
fn element_at<'a>(
    octets: &'a [u8],
    depth: u8,
    places: &mut [Node<'a>],
    used: usize,
) -> Result<Placed<'a>, NodesFault>
    requires { used ≤ length places.old }
    ensures same { length places.new ≡ length places.old }
    ensures fits { IfOk result (λ placed. (used ≤ placed.used) × (placed.used ≤ length places.old)) }
    ensures ok { IfOk result (λ placed.
        PutsNode depth octets.now (take used places.old) (take placed.used places.new) placed.rest.now) }
    ensures err { IfErr result (Stops (ElementFault depth octets.now) (2 * (length places.old - used) < length octets.now)) }
{
    if depth > 0
        && used < places.len()
        && let Some(leaf) = leaf_at(octets)
    {
        places[used] = leaf.node;
        return Ok(Placed {
            used: used + 1,
            rest: leaf.rest,
        });
    }
    node_at(octets, depth, places, used)
}

/// Reads the elements in definite contents, and gives the number of used places.
#[cycle(nodes)]
fn nodes_of<'a>(
    contents: &'a [u8],
    depth: u8,
    places: &mut [Node<'a>],
    used: usize,
) -> Result<usize, NodesFault>
    requires { used ≤ length places.old }
    ensures same { length places.new ≡ length places.old }
    ensures fits { IfOk result (λ next. (used ≤ next) × (next ≤ length places.old)) }
    ensures ok { IfOk result (λ next. PutsNodes depth contents.now (take used places.old) (take next places.new) []) }
    ensures err { IfErr result (Stops (InContents depth (ElementFault depth) contents.now)
        (2 * (length places.old - used) < length contents.now)) }
{
    let mut next = used;
    let mut rest = contents;
    'elements: while !rest.is_empty() {
        let placed = element_at(rest, depth, places, next)?;
        next = placed.used;
        rest = placed.rest;
    }
    Ok(next)
}

/// Reads elements up to an end of contents, and gives the octets after it.
#[cycle(nodes)]
fn nodes_to_end<'a>(
    octets: &'a [u8],
    depth: u8,
    places: &mut [Node<'a>],
    used: usize,
) -> Result<Placed<'a>, NodesFault>
    requires { used ≤ length places.old }
    ensures same { length places.new ≡ length places.old }
    ensures fits { IfOk result (λ placed. (used ≤ placed.used) × (placed.used ≤ length places.old)) }
    ensures ok { IfOk result (λ placed.
        PutsNodes depth octets.now (take used places.old) (take placed.used places.new) (0 ∷ 0 ∷ placed.rest.now)) }
    ensures err { IfErr result (Stops (InOpen depth (ElementFault depth) octets.now)
        (2 * (length places.old - used) < length octets.now)) }
{
    let mut next = used;
    let mut rest = octets;
    'elements: loop {
        match rest {
            [] | [0] => return Err(NodesFault::Fault(BerFault::Cut)),
            [0, 0, after @ ..] => {
                return Ok(Placed {
                    used: next,
                    rest: after,
                });
            }
            _ => {
                let placed = node_at(rest, depth, places, next)?;
                next = placed.used;
                rest = placed.rest;
            }
        }
    }
}
