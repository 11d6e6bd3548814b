//! Elements of X.690 and their spellings.
//!
//! Octets are hexadecimal, and `empty` if there are none. An element is written as a tree: its tag, and then its octets
//! or the elements in it. For example, `constructed universal 16 { primitive universal 4 AA, primitive universal 5
//! empty }`. A fault is written by its name, for example `Cut`.
//!
//! | Case | Result |
//! |---|---|
//! | `element HEX` | the element that these octets spell, or their first fault |
//! | `canonical HEX` | the canonical spelling of that element, or the first fault |
//! | `nested COUNT HEX` | as `element`, for `3080` COUNT times and then these octets |
//! | `prefixes HEX` | the faults of all prefixes of these octets, shortest first: how often each occurs in a row |
//! | `trailing HEX` | the faults of these octets followed by one more, 00 to FF |
//! | `following HEX` | the faults of these octets followed by the first none to seven octets of `00FF3080000000` |
//! | `copy HEX` | a copy of the element that these octets spell |
//! | `octets HEX`, `children HEX` | the octets of that element, or the elements in it; or `none` |
//! | `octets HEX CLASS NUMBER`, `children HEX CLASS NUMBER` | the same if its tag is this one, else `none` |
//! | `primitive CLASS NUMBER HEX` | the canonical spelling of the element of this tag that holds these octets |
//! | `constructed CLASS NUMBER HEX` | the canonical spelling of the element of this tag that contains the element of these octets |
//! | `zeros COUNT` | the spelling of an octet string of COUNT octets 00: the octets before them, and their number |
//! | `integer HEX` | the value of the contents of an integer, or `none` |
//! | `signed HEX` | the value of one octet in two's complement |
//! | `unsigned VALUE` | the octet of this value in two's complement |

mod contents;
mod faults;
mod integers;
mod made;
mod spellings;
mod tags;
mod trees;

use cases::Answer;
pub(crate) use spellings::push_other;
use std::alloc::Global;

/// Writes the result of a case of this kind. `false` if these modules have no such cases.
pub(crate) fn answer(alloc: Global, kind: &str, rest: &str, out: &mut Answer) -> bool {
    spellings::answer(alloc, kind, rest, out)
        || faults::answer(alloc, kind, rest, out)
        || contents::answer(alloc, kind, rest, out)
        || made::answer(alloc, kind, rest, out)
        || integers::answer(alloc, kind, rest, out)
}
