//! The action of a rule for a call.

ghost use Rattle.std.specs.Prelude.{◌≡◌, ℕ, ◌≤◌, ◌∷◌, List, length};
ghost use Rattle.fp_records.specs.Action.{destinations_in, destinations_left, first_of, rest_of};

use crate::destination::Destination;

/// One to four destinations, in the order in which they are tried. Two lists are equal exactly if they have the same
/// destinations in the same order (`exact_destinations` of `specs/Same.antt`).
#[derive(Clone, Copy, Debug, PartialEq, Eq)]
pub enum Destinations {
    /// One destination.
    One([Destination; 1]),
    /// Two destinations.
    Two([Destination; 2]),
    /// Three destinations.
    Three([Destination; 3]),
    /// Four destinations.
    Four([Destination; 4]),
}

/// The first destination, and the others to try if it fails.
#[derive(Clone, Copy, Debug, PartialEq, Eq)]
pub struct SplitDestinations {
    /// The first destination.
    pub first: Destination,
    /// The other destinations in their order; `None` if there are none.
    pub left: Option<Destinations>,
}

impl Destinations {
    /// The one to four destinations, in their order.
    pub fn as_slice(&self) -> &[Destination]
        ensures value { result.now ≡ destinations_in self.now }
        ensures some { 1 ≤ length result.now }
        ensures most { length result.now ≤ 4 }
    {
        match self {
            Destinations::One(places) => places,
            Destinations::Two(places) => places,
            Destinations::Three(places) => places,
            Destinations::Four(places) => places,
        }
    }

    /// The first destination, and the others to try if it fails.
    pub fn split_first(self) -> SplitDestinations
        ensures first { result.first ≡ first_of self }
        ensures left { result.left ≡ rest_of self }
        ensures list { destinations_in self ≡ first_of self ∷ destinations_left (rest_of self) }
    {
        match self {
            Destinations::One(places) => {
                let [first] = places;
                SplitDestinations { first, left: None }
            }
            Destinations::Two(places) => {
                let [first, second] = places;
                let left = Some(Destinations::One([second]));
                SplitDestinations { first, left }
            }
            Destinations::Three(places) => {
                let [first, second, third] = places;
                let left = Some(Destinations::Two([second, third]));
                SplitDestinations { first, left }
            }
            Destinations::Four(places) => {
                let [first, second, third, fourth] = places;
                let left = Some(Destinations::Three([second, third, fourth]));
                SplitDestinations { first, left }
            }
        }
    }
}

/// The action of a rule for a call.
#[derive(Clone, Copy, Debug, PartialEq, Eq)]
pub enum Action {
    /// The call goes to the first destination, and to the next one if that fails.
    Route(Destinations),
    /// The call is refused.
    Refuse,
    /// The call goes on with the called number.
    Pass,
}
