//! The Basic Encoding Rules of ITU-T X.690, as far as TCAP and INAP use them.
//!
//! This layer reads an [`Element`] from octets, and writes an [`Element`] as octets. It asks the system only for
//! memory.
//!
//! If you only look at the octets, no element is needed. [`read_nodes`] reads them into places for [`Node`]s, which
//! borrow the octets, by the same rules and without memory. An [`ElementRef`] is an element in either form. Its
//! contracts speak of the same tree, so a reader of messages is written once.
//!
//! * [`read`] takes all three forms of a length (X.690, 8.1.3), minimal or not, and tags in one to three octets
//!   (8.1.2). It refuses other octets by their first fault from left to right, a [`BerFault`].
//! * [`write`] appends the canonical spelling: definite lengths in as few octets as they take (10.1). A [`Writer`]
//!   writes it from its end to its front, without an element. For example, number 5 as an integer is `02 01 05`.
//! * [`Element`] and [`Body`] are the value: a class, a number, and octets or elements.
//! * [`length_at`] reads a length alone, where the octets needn't be an element.
//!
//! The layer above may rely on this: `read` gives an element exactly if the octets spell it and it is in range (at most
//! sixteen elements inside each other, tag numbers to 16,383), unless memory runs out. No spelling begins another.
//! Octets have at most one first fault, and none if they spell an element in range. `write` appends a spelling that
//! `read` reads as the same element. If memory runs out, `write` leaves the octets unchanged. Contracts speak of an
//! element as its tree (`specs/Tree.antt`), and of octets by `Spells` (`specs/Spelling.antt`) and `canon`
//! (`specs/Canon.antt`).
#![tactic(auto)]

mod cloning;
mod element;
mod element_ref;
mod fault;
mod integer;
mod laws;
mod length;
mod lent_copy;
mod node;
mod node_reading;
mod nodes;
mod placing;
mod reading;
mod tag;
pub mod universal;
mod writer;
mod writing;

pub use element::{Body, Class, Element};
pub use element_ref::{ElementRef, Elements, Split};
pub use fault::{BerFault, NodesFault};
pub use integer::{integer_of, octet_of, signed_of};
pub use laws::{
    canonical_lengths_are_shortest, canonical_spelling_spells, faults_are_one,
    no_spelling_begins_another, spelled_octets_have_no_fault,
};
pub use length::length_at;
pub use node::Node;
pub use nodes::read_nodes;
pub use reading::read;
pub use writer::Writer;
pub use writing::write;
