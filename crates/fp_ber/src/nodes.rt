//! Reading an element into nodes over its octets.

ghost use Rattle.std.specs.Prelude.{◌≡◌, ◌*◌, ◌<◌, ◌≤◌, length, take, IfOk, IfErr};
ghost use Rattle.fp_ber.specs.declared.fault.BerFault.{BerFault};
ghost use Rattle.fp_ber.specs.Canon.{canon, HasLengths};
ghost use Rattle.fp_ber.specs.Faults.{FirstFault};
ghost use Rattle.fp_ber.specs.Nodes.{nodes_tree};
ghost use Rattle.fp_ber.specs.NodesFaults.{PlacesRead, PlacesRefuse, Stops};
ghost use Rattle.fp_ber.specs.Spelling.{Spells};
ghost use Rattle.fp_ber.specs.Tree.{Tree, InRange};

use crate::fault::{BerFault, NodesFault};
use crate::node::Node;
use crate::node_reading::node_at;
use crate::reading::DEPTH;

/// Reads the nodes of the element that all of the octets spell, and gives their number.
fn nodes_in<'a>(octets: &'a [u8], places: &mut [Node<'a>]) -> Result<usize, NodesFault>
    ensures places { IfOk result (λ used. (0 < used) × (used ≤ length places.new)) }
    ensures found { IfOk result (λ used. Spells octets.now (nodes_tree (take used places.new))
        × InRange (nodes_tree (take used places.new))) }
    ensures fault { IfErr result (Stops (FirstFault octets.now) (2 * length places.old < length octets.now)) }
{
    let placed = node_at(octets, DEPTH, places, 0)?;
    if !placed.rest.is_empty() {
        return Err(NodesFault::Fault(BerFault::Trailing));
    }
    Ok(placed.used)
}

/// Reads the element that all of the octets spell (X.690, 8.1), as [`read`](crate::read) does, into places for its
/// nodes. Gives the number of its nodes: they are in the first places. Copies no octet and takes no memory.
/// [`ElementRef::of_nodes`](crate::ElementRef::of_nodes) makes the element of them.
///
/// Octets that spell no element in range are refused by their first fault. [`NodesFault::Full`]: there are fewer places
/// than nodes. With a place for each two octets you never get it.
#[inline(always)]
pub fn read_nodes<'a>(octets: &'a [u8], places: &mut [Node<'a>]) -> Result<usize, NodesFault>
    ensures places { IfOk result (λ used. (0 < used) × (used ≤ length places.new)) }

    // The octets spell the nodes that are given, in range.
    ensures found { IfOk result (λ used. Spells octets.now (nodes_tree (take used places.new))
        × InRange (nodes_tree (take used places.new))) }

    // An element that the octets spell, in range, is read, unless the places are full.
    ensures only { (t : Tree) → Spells octets.now t → InRange t → PlacesRead result places.new t }

    // An element from fewer than 65,536 octets can be written, in at most as many octets.
    ensures fits { IfOk result (λ used. length octets.now < 65536
        → HasLengths (nodes_tree (take used places.new)) × (length (canon (nodes_tree (take used places.new))) ≤ length octets.now)) }

    // The reported fault is the first from left to right. The places run out only if there is fewer than one for every
    // two octets.
    ensures fault { IfErr result (Stops (FirstFault octets.now) (2 * length places.old < length octets.now)) }

    // The first fault is reported, unless the places are full before it.
    ensures first { (fault : BerFault) → FirstFault octets.now fault → PlacesRefuse result fault }
{
    nodes_in(octets, places)
}
