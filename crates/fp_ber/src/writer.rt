//! A writer that grows at its front.
//!
//! The length of an element precedes its contents, and is only known once they are written. So a spelling is written
//! from its end to its front: first the contents, then the length and the tag before them. No element is built on the
//! way.

ghost use Rattle.std.specs.Prelude.{◌≡◌, ◌<◌, ◌≤◌, ◌^◌, ◌++◌, ℕ, List, [], IfOk, OnOk, OnErr, length, vec_len};
ghost use Rattle.std.specs.Prelude as lists;
ghost use Rattle.fp_ber.specs.Canon.{HasLengths, canon, canon_of_all, length_octets, tag_octets};
ghost use Rattle.fp_ber.specs.Lent.{lent_tree};
ghost use Rattle.fp_ber.specs.Putting.{EndsWith, HasRoom};
ghost use Rattle.fp_ber.specs.Tree as tree;
ghost use Rattle.fp_ber.specs.Tree.{HasTags, IsTagNumber};
ghost use Rattle.fp_ber.specs.View.{tree_of};

use crate::element::{Class, Element};
use crate::element_ref::ElementRef;
use crate::placing::put;
use crate::tag::Tag;
use crate::writing::{header_size, put_element, put_header, put_short_header, size_of};
use std::alloc::{AllocError, Global};
use std::marker::Model;

/// Octets that grow at their front, less than 2^32 of them. Contracts see them as their list, the first one first. If
/// memory runs out in a call, the octets are unchanged. More than 2^32 - 1 octets count as out of memory.
#[derive(Debug, Drop)]
pub struct Writer {
    /// The room. The octets are at its end.
    room: Vec<u8>,
    /// The position of the first octet.
    start: usize,
}

impl Model for Writer {
    ghost use Rattle.std.specs.Prelude.{List, ℕ, ◌<◌, ◌≤◌, ◌^◌, drop, length};

    ghost Value = { List ℕ };

    ghost view = { λ writer. drop writer.start writer.room.items };

    ghost invariant = { λ writer. (writer.start ≤ length writer.room.items) × (length writer.room.items < 2 ^ 32) };
}

/// The largest number of octets.
const MOST: usize = 0xFFFF_FFFF;

/// Makes the room larger, so that this many octets fit before the position `start`. Gives the new position of the
/// octets that began there; they are unchanged. `Err`: there would be more than 2^32 - 1 octets, or memory ran out, and
/// nothing has changed.
#[inline(never)]
fn grow(room: &mut Vec<u8>, start: usize, count: usize) -> Result<usize, AllocError>
    requires start { start ≤ vec_len room.old }
    requires fits { vec_len room.old < 2 ^ 32 }
    requires count { start < count }
    ensures ok { IfOk result (HasRoom room.old.items start count room.new.items) }
    ensures err { OnErr result (room.new.items ≡ room.old.items) }
{
    let length = room.len();
    let more = length.max(count).min(MOST - length);
    let place = start + more;
    if place < count {
        return Err(AllocError);
    }
    room.resize(length + more, 0)?;
    room.copy_within(start..length, place);
    Ok(place)
}

/// Makes room for this many octets before the position `start`, as [`grow`] does, if there isn't enough.
#[inline(always)]
fn make_room(room: &mut Vec<u8>, start: usize, count: usize) -> Result<usize, AllocError>
    requires start { start ≤ vec_len room.old }
    requires fits { vec_len room.old < 2 ^ 32 }
    ensures ok { IfOk result (HasRoom room.old.items start count room.new.items) }
    ensures err { OnErr result (room.new.items ≡ room.old.items) }
{
    if count <= start {
        return Ok(start);
    }
    grow(room, start, count)
}

impl Writer {
    /// An empty writer, with room for this many octets before it allocates again.
    pub fn with_capacity(alloc: Global, capacity: usize) -> Result<Writer, AllocError>
        ensures { IfOk result (λ writer. writer ≡ []) }
    {
        let start = capacity.min(MOST);
        let room = vec![in alloc; 0; start]?;
        Ok(Writer { room, start })
    }

    /// The number of octets.
    pub fn len(&self) -> usize
        ensures value { result ≡ length self.now }
        ensures most { length self.now < 2 ^ 32 }
    {
        self.room.len() - self.start
    }

    /// Puts octets before the others. More than 2^32 - 1 in all count as out of memory.
    #[inline(always)]
    pub fn put(&mut self, octets: &[u8]) -> Result<(), AllocError>
        ensures ok { OnOk result (self.new ≡ octets.now ++ self.old) }
        ensures err { OnErr result (self.new ≡ self.old) }
        ensures stays { EndsWith self.new self.old }
    {
        let end = make_room(&mut self.room, self.start, octets.len())?;
        self.start = put(octets, self.room.as_mut_slice(), end);
        Ok(())
    }

    /// Puts a tag and a length before the others.
    #[inline(always)]
    fn put_header(&mut self, tag: Tag, length: usize) -> Result<(), AllocError>
        requires tag { IsTagNumber tag.class tag.number }
        requires length { length < 2 ^ 32 }
        ensures ok { OnOk result (self.new ≡ tag_octets tag.class tag.constructed tag.number ++ (length_octets length ++ self.old)) }
        ensures err { OnErr result (self.new ≡ self.old) }
        ensures stays { EndsWith self.new self.old }
    {
        if tag.number < 31 && length < 0x80 && self.start >= 2 {
            self.start = put_short_header(tag, length, self.room.as_mut_slice(), self.start);
            return Ok(());
        }
        let end = make_room(&mut self.room, self.start, header_size(tag, length))?;
        self.start = put_header(tag, length, self.room.as_mut_slice(), end);
        Ok(())
    }

    /// Removes all octets except the last `count`. If there are fewer, they all stay.
    pub fn keep_last(&mut self, count: usize)
        ensures some { (rest : List ℕ) → EndsWith self.old rest → length rest ≡ count → self.new ≡ rest }
        ensures all { length self.old ≤ count → self.new ≡ self.old }
    {
        let length = self.len();
        if count < length {
            self.start += length - count;
        }
    }

    /// Puts the canonical spelling of a primitive element before the octets. The tag number must be in range. More than
    /// 2^32 - 1 octets in all count as out of memory.
    #[inline(always)]
    #[tactic(auto, using(crate::specs::Putting::end_of_end))]
    pub fn put_primitive(
        &mut self,
        class: Class,
        number: u16,
        octets: &[u8],
    ) -> Result<(), AllocError>
        requires tag { IsTagNumber class number }
        ensures ok { OnOk result (self.new ≡ canon (tree.primitive class number octets.now) ++ self.old) }
        ensures err { OnErr result (self.new ≡ self.old) }
        ensures stays { EndsWith self.new self.old }
    {
        let behind = self.len();
        self.put(octets)?;
        let length = self.len() - behind;
        let tag = Tag {
            class,
            constructed: false,
            number,
        };
        if self.put_header(tag, length).is_err() {
            self.keep_last(behind);
            return Err(AllocError);
        }
        Ok(())
    }

    /// Puts a tag and a length before the spellings of elements, which makes them a constructed element. The tag number
    /// must be in range. The last `behind` octets lie after this element; all octets before them must be the spellings.
    #[inline(always)]
    pub fn put_constructed(
        &mut self,
        class: Class,
        number: u16,
        behind: usize,
    ) -> Result<(), AllocError>
        requires tag { IsTagNumber class number }
        requires behind { behind ≤ length self.old }
        ensures ok { (children : tree.Trees) (rest : List ℕ) → self.old ≡ canon_of_all children ++ rest → length rest ≡ behind
            → OnOk result (self.new ≡ canon (tree.constructed class number children) ++ rest) }
        ensures err { OnErr result (self.new ≡ self.old) }
        ensures stays { EndsWith self.new self.old }
    {
        let length = self.len() - behind;
        let tag = Tag {
            class,
            constructed: true,
            number,
        };
        self.put_header(tag, length)
    }

    /// Puts the canonical spelling of an element before the octets. The tags and lengths in it must be in range. More
    /// than 2^32 - 1 octets in all count as out of memory.
    pub fn put_element(&mut self, element: &Element) -> Result<(), AllocError>
        requires tags { HasTags (tree_of element.now) }
        requires lengths { HasLengths (tree_of element.now) }
        ensures ok { OnOk result (self.new ≡ canon (tree_of element.now) ++ self.old) }
        ensures err { OnErr result (self.new ≡ self.old) }
        ensures stays { EndsWith self.new self.old }
    {
        let end = make_room(&mut self.room, self.start, size_of(element))?;
        self.start = put_element(element, self.room.as_mut_slice(), end);
        Ok(())
    }

    /// Puts the canonical spelling of a borrowed element before the octets. The tags and lengths in it must be in
    /// range. More than 2^32 - 1 octets in all count as out of memory.
    pub fn put_lent(&mut self, element: &ElementRef<'_>) -> Result<(), AllocError>
        requires tags { HasTags (lent_tree element.now) }
        requires lengths { HasLengths (lent_tree element.now) }
        ensures ok { OnOk result (self.new ≡ canon (lent_tree element.now) ++ self.old) }
        ensures err { OnErr result (self.new ≡ self.old) }
        ensures stays { EndsWith self.new self.old }
    {
        match element {
            ElementRef::Owned(element) => self.put_element(element),
            ElementRef::Node { .. } => {
                let alloc = *self.room.allocator();
                let element = element.to_element(alloc)?;
                self.put_element(&element)
            }
        }
    }

    /// The octets, the first one first. Takes no memory.
    pub fn into_octets(self) -> Vec<u8>
        ensures { result.items ≡ self }
    {
        let Writer { mut room, start } = self;
        let count = room.len() - start;
        room.copy_within(start.., 0);
        room.truncate(count);
        room
    }
}
