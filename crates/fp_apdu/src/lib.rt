//! The dialogue portion of TCAP for structured dialogue (ITU-T Q.773, 4.2.3), over elements.
//!
//! This layer reads the dialogue portion of a Begin, an element, and says which dialogue it opens. It also puts the
//! dialogue portion of an answer, for a [`Name`], into a [`Writer`](fp_ber::Writer). It asks the system only for the
//! memory of the octets that it writes; reading takes none.
//!
//! * [`Name`] is an application context name: 1 to 64 octets of an object identifier, in a value of fixed size.
//! * [`opening_in`] reads the request for a dialogue, AARQ, and gives an [`Opening`]; [`opening_of`] reads it from an
//!   [`Element`](fp_ber::Element) in memory.
//! * [`write_aare`] puts the answer to it, AARE, by a [`Verdict`]; [`write_abrt`] puts the abort, ABRT. Both
//!   put the whole dialogue portion, tag 6B.
//!
//! The layer above may rely on this: an opening is the answer exactly if `Opens` of `specs/Opening.antt` has it, which
//! is at most one ([`openings_are_one`]), and [`Badly`] exactly if there is none. The written octets are the canonical
//! spellings of the trees of `specs/Aare.antt` and `specs/Abrt.antt`, within the dialogue portion of
//! `specs/DialoguePortion.antt`. Those trees have tags and lengths that `fp_ber` can write. If memory runs out, the
//! octets are unchanged. Contracts see a [`Name`] as the list of its octets, and `==` is the equality of these lists.
//! Unstructured dialogue and the contents of user information aren't read.
#![tactic(auto, using(fp_ber::specs::Putting::end_of_end))]

mod aare;
mod aarq;
mod abrt;
mod bit_string;
mod context_name;
mod dialogue_portion;
mod laws;
mod members;
mod name;
mod object_identifier;
mod opening;
mod protocol_version;
mod verdict;

pub use aare::write_aare;
pub use abrt::write_abrt;
pub use laws::openings_are_one;
pub use name::Name;
pub use opening::{Badly, Opening, opening_in, opening_of};
pub use verdict::Verdict;
