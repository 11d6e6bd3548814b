//! The local identifiers of one link in one run.

ghost use Rattle.std.specs.Prelude.{◌≡◌, ◌<◌, ◌≤◌, ◌+◌, ◌^◌, [], ◌∷◌, ◌++◌, IfOk};
ghost use Rattle.std.specs.VecDeque.{deque_capacity, deque_len};
ghost use Rattle.std.specs.List.{slice_get};
ghost use Rattle.fp_tids.specs.Identifiers.{IsGiven, all_serials, base_of, last_serial, link_of, next_of, with_returned, without_next};

use std::alloc::{AllocError, Global};
use std::collections::VecDeque;
use std::marker::Model;

/// 2^29: the distance between the identifiers of two consecutive links.
const LINK_STEP: u32 = 0x2000_0000;

/// 2^17: the distance between the identifiers of two consecutive tags.
const TAG_STEP: u32 = 0x2_0000;

/// The local identifiers of one link in one run. Contracts see the link, the tag of the run, and the queue of the
/// serials that may be given, the next one first.
#[derive(Debug, Drop)]
pub struct LocalIds {
    link: u8,
    tag: u16,
    // How many serials were given for the first time: 1 to `fresh`. The others are the front of the queue.
    fresh: u32,
    // The serials that were put back, the oldest first: the rest of the queue.
    returned: VecDeque<u32>,
}

impl Model for LocalIds {
    ghost use Rattle.std.specs.Prelude.{◌++◌};
    ghost use Rattle.std.specs.VecDeque.{deque_capacity};
    ghost use Rattle.fp_tids.specs.Identifiers.{IsKept, serials_above};
    ghost use Rattle.fp_tids.specs.Identifiers as ids;

    ghost Value = { ids.LocalIds };

    ghost view = { λ own. record { link = own.link; tag = own.tag; queue = serials_above own.fresh ++ own.returned.items } };

    ghost invariant = { λ own. IsKept own.link own.tag own.fresh own.returned.items (deque_capacity own.returned) };
}

/// The base of a link, 0 to 7, and a tag, 0 to 4,094: an identifier is the base and a serial.
fn base_of(link: u8, tag: u16) -> u32
    requires links { link < LocalIds.LINKS }
    requires tags { tag ≤ LocalIds.LAST_TAG }
    ensures base { result ≡ base_of link tag }
    ensures room { result + last_serial < 2 ^ 32 }
{
    u32::from(link) * LINK_STEP + u32::from(tag) * TAG_STEP
}

/// The serial that was put back first, if there is one.
fn first(returned: &VecDeque<u32>) -> Option<u32>
    ensures { result ≡ slice_get returned.now.items 0 }
{
    returned.front().copied()
}

/// Puts a serial after the others that were put back. There must be a place for it. Takes no memory.
fn put_last(returned: &mut VecDeque<u32>, serial: u32)
    requires { deque_len returned.old < deque_capacity returned.old }
    ensures items { returned.new.items ≡ returned.old.items ++ serial ∷ [] }
    ensures capacity { deque_capacity returned.new ≡ deque_capacity returned.old }
{
    returned.push_back_reserved(serial);
}

impl LocalIds {
    /// The number of links.
    pub const LINKS: u8 = 8;

    /// The number of serials of a link: 1 to 131,072.
    pub const SERIALS: u32 = 131_072;

    /// The last tag.
    pub const LAST_TAG: u16 = 4_094;

    /// The identifiers of a link, 0 to 7, in a run without a tag: its tag is 0. No identifier was given yet, and memory
    /// for all serials that may be put back is taken.
    pub fn new(alloc: Global, link: u8) -> Result<LocalIds, AllocError>
        requires { link < Self.LINKS }
        ensures { IfOk result (λ ids. ids ≡ record { link = link; tag = 0; queue = all_serials }) }
    {
        Self::with_tag(alloc, link, 0)
    }

    /// The identifiers of a link, 0 to 7, in a run with this tag, 0 to 4,094. No identifier was given yet, and memory
    /// for all serials that may be put back is taken.
    pub fn with_tag(alloc: Global, link: u8, tag: u16) -> Result<LocalIds, AllocError>
        requires links { link < Self.LINKS }
        requires tags { tag ≤ Self.LAST_TAG }
        ensures { IfOk result (λ ids. ids ≡ record { link = link; tag = tag; queue = all_serials }) }
    {
        Ok(LocalIds {
            link,
            tag,
            fresh: 0,
            returned: VecDeque::with_capacity(alloc, Self::SERIALS as usize)?,
        })
    }

    /// The identifier that [`LocalIds::give`] gives next, the front serial's. `None` if there is none. Takes no memory.
    pub fn next(&self) -> Option<u32>
        ensures { result ≡ next_of self.now }
    {
        let base = base_of(self.link, self.tag);
        if self.fresh < Self::SERIALS {
            return Some(base + (self.fresh + 1));
        }
        let Some(serial) = first(&self.returned) else {
            return None;
        };
        Some(base + serial)
    }

    /// Gives the identifier of the front serial, `None` if there is none. Takes no memory.
    pub fn give(&mut self) -> Option<u32>
        ensures next { result ≡ next_of self.old }
        ensures left { self.new ≡ without_next self.old }
    {
        let base = base_of(self.link, self.tag);
        if self.fresh < Self::SERIALS {
            self.fresh += 1;
            return Some(base + self.fresh);
        }
        let Some(serial) = self.returned.pop_front() else {
            return None;
        };
        Some(base + serial)
    }

    /// Puts the serial of this identifier after all others: its dialogue is held no longer. The identifier must be of
    /// this very link and tag, it must have been given, and its serial not put back since: you know that, and nothing
    /// tests it here. Takes no memory.
    pub fn end(&mut self, local: u32)
        requires { IsGiven self.old local }
        ensures { self.new ≡ with_returned self.old local }
    {
        put_last(&mut self.returned, (local - 1) % TAG_STEP + 1);
    }
}

/// The link of an identifier, 0 to 7.
pub fn link_of(local: u32) -> u8
    ensures { result ≡ link_of local }
{
    (local / LINK_STEP) as u8
}
