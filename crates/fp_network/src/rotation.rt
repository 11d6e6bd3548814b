//! The order in which the connections of a node are read.
//!
//! Each turn begins at the place after the one that was read last. So connections that always have
//! octets are read in turn, however few of them one turn has room for.

ghost use Rattle.std.specs.Prelude.{◌≡◌, ◌<◌};
ghost use Rattle.fp_network.specs.Turns.{EachOnce, place_in_turn};

use crate::Node;

/// The place that is looked at in this step of a turn that begins at this place.
pub(crate) fn place_in_turn(first: usize, step: usize) -> usize
    requires place { first < 16 }
    requires step { step < 16 }
    ensures value { result ≡ place_in_turn first step }
    ensures range { result < 16 }
{
    let place = first + step;
    if place < Node::PLACES {
        return place;
    }
    place - Node::PLACES
}

/// A turn looks at each place in exactly one step, wherever it begins.
pub fn turns_have_each_place()
    ensures { EachOnce }
{}
