//! Writing the canonical spelling of an element.
//!
//! The length of an element precedes its contents, and is only known once they are written. So the room for all of it
//! is allocated first, and then filled from its end to its front. Each octet is written once at any depth, memory is
//! allocated once, and the element is traversed twice.

ghost use Rattle.std.specs.Prelude.{◌≡◌, ◌<◌, ◌≤◌, ◌^◌, ◌++◌, OnOk, OnErr, length};
ghost use Rattle.std.specs.Prelude as lists;
ghost use Rattle.fp_ber.specs.Tree.{HasTags, AllHaveTags, IsTagNumber};
ghost use Rattle.fp_ber.specs.View.{tree_of, forest_of};
ghost use Rattle.fp_ber.specs.Canon.{canon, canon_of_all, tag_octets, length_octets, HasLengths, AllHaveLengths, Puts};

use crate::element::{Body, Element};
use crate::length::{length_size, put_length};
use crate::placing::put;
use crate::tag::{Tag, first_of, put_tag, tag_size};
use std::alloc::AllocError;

/// The number of octets of an element's tag and length. The length must be below 2^32.
pub fn header_size(tag: Tag, length: usize) -> usize
    requires { length < 2 ^ 32 }
    ensures { result ≡ lists.length (tag_octets tag.class tag.constructed tag.number ++ length_octets length) }
{
    tag_size(tag) + length_size(length)
}

/// The number of octets of an element's canonical spelling. All lengths in it must be below 2^32.
#[cycle(size)]
pub fn size_of(element: &Element) -> usize
    requires lengths { HasLengths (tree_of element.now) }
    ensures { result ≡ length (canon (tree_of element.now)) }
{
    let class = element.class;
    let number = element.number;
    match &element.body {
        Body::Primitive(octets) => {
            let tag = Tag {
                class,
                constructed: false,
                number,
            };
            header_size(tag, octets.len()) + octets.len()
        }
        Body::Constructed(children) => {
            let size = size_of_all(children.as_slice());
            let tag = Tag {
                class,
                constructed: true,
                number,
            };
            header_size(tag, size) + size
        }
    }
}

/// The number of octets of these elements' canonical spellings.
#[cycle(size)]
fn size_of_all(elements: &[Element]) -> usize
    requires lengths { AllHaveLengths (forest_of elements.now) }
    requires fits { length (canon_of_all (forest_of elements.now)) < 2 ^ 32 }
    ensures { result ≡ length (canon_of_all (forest_of elements.now)) }
{
    let mut size = 0;
    'elements: for element in elements {
        size += size_of(element);
    }
    size
}

/// Writes the tag and the length of an element so that they end at `end`, and gives their position. Both must be in
/// range, and there must be room before `end`.
pub fn put_header(tag: Tag, length: usize, out: &mut [u8], end: usize) -> usize
    requires tag { IsTagNumber tag.class tag.number }
    requires length { length < 2 ^ 32 }
    requires room { lists.length (tag_octets tag.class tag.constructed tag.number ++ length_octets length) ≤ end }
    requires end { end ≤ lists.length out.old }
    ensures { Puts (tag_octets tag.class tag.constructed tag.number ++ length_octets length) out.old out.new result end }
{
    let start = put_length(length, out, end);
    put_tag(tag, out, start)
}

/// Writes a tag and a length of one octet each so that they end at `end`, and gives their position. The tag number must
/// be below 31, the length below 128, and there must be room before `end`.
pub fn put_short_header(tag: Tag, length: usize, out: &mut [u8], end: usize) -> usize
    requires tag { tag.number < 31 }
    requires length { length < 0x80 }
    requires room { 2 ≤ end }
    requires end { end ≤ lists.length out.old }
    ensures { Puts (tag_octets tag.class tag.constructed tag.number ++ length_octets length) out.old out.new result end }
{
    let first = first_of(tag.class, tag.constructed, tag.number as u8);
    put(&[first, length as u8], out, end)
}

/// Writes the canonical spelling of an element so that it ends at `end`, and gives its position. The tags and lengths
/// in it must be in range, and there must be room before `end`.
#[cycle(write)]
pub fn put_element(element: &Element, out: &mut [u8], end: usize) -> usize
    requires tags { HasTags (tree_of element.now) }
    requires lengths { HasLengths (tree_of element.now) }
    requires room { length (canon (tree_of element.now)) ≤ end }
    requires end { end ≤ length out.old }
    ensures { Puts (canon (tree_of element.now)) out.old out.new result end }
{
    let class = element.class;
    let number = element.number;
    match &element.body {
        Body::Primitive(octets) => {
            let start = put(octets.as_slice(), out, end);
            let tag = Tag {
                class,
                constructed: false,
                number,
            };
            put_header(tag, octets.len(), out, start)
        }
        Body::Constructed(children) => {
            let start = put_all(children.as_slice(), out, end);
            let tag = Tag {
                class,
                constructed: true,
                number,
            };
            put_header(tag, end - start, out, start)
        }
    }
}

/// Writes the canonical spellings of elements so that they end at `end`, and gives the position of the first.
#[cycle(write)]
fn put_all(elements: &[Element], out: &mut [u8], end: usize) -> usize
    requires tags { AllHaveTags (forest_of elements.now) }
    requires lengths { AllHaveLengths (forest_of elements.now) }
    requires room { length (canon_of_all (forest_of elements.now)) ≤ end }
    requires end { end ≤ length out.old }
    ensures { Puts (canon_of_all (forest_of elements.now)) out.old out.new result end }
{
    let mut start = end;
    let mut index = elements.len();
    'elements: while index > 0 {
        index -= 1;
        start = put_element(&elements[index], out, start);
    }
    start
}

/// Appends the canonical spelling of an element (X.690, 10.1): definite lengths in as few octets as they take.
///
/// At each level the tag number and the length must be in range: a length of at most 2^32 - 1 octets. Elements may be
/// nested to any depth. If memory runs out, the vector is unchanged.
pub fn write(element: &Element, out: &mut Vec<u8>) -> Result<(), AllocError>
    requires tags { HasTags (tree_of element.now) }
    requires lengths { HasLengths (tree_of element.now) }
    ensures ok { OnOk result (out.new.items ≡ out.old.items ++ canon (tree_of element.now)) }
    ensures err { OnErr result (out.new.items ≡ out.old.items) }
{
    let end = out.len() + size_of(element);
    out.resize(end, 0)?;
    put_element(element, out.as_mut_slice(), end);
    Ok(())
}
