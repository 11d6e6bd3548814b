//! Lists of entries.

ghost use Rattle.std.specs.Prelude.{◌≡◌, ◌↔◌, ◌++◌, ◌∷◌, [], IsTrue, IfOk, length, OnOk, OnErr};

use crate::Entry;
use std::alloc::{AllocError, Global};
use std::marker::Model;

/// How many entries a list has room for once it has one: as many as a Begin with one component brings.
const FIRST_ROOM: usize = 2;

/// A list of entries. Contracts see it as their list.
#[derive(Debug, Drop)]
pub struct Entries {
    items: Vec<Entry>,
}

impl Model for Entries {
    ghost use Rattle.std.specs.Prelude.{List};
    ghost use Rattle.fp_entry.specs.declared.entry.Entry.{Entry};

    ghost Value = { List Entry };

    ghost view = { λ entries. entries.items.items };
}

impl Entries {
    ghost use Rattle.fp_entry.specs.Entries.{component_count, place_count};

    /// An empty list.
    pub fn new(alloc: Global) -> Entries
        ensures { result ≡ [] }
    {
        Entries {
            items: Vec::new(alloc),
        }
    }

    /// The entries.
    pub fn as_slice(&self) -> &[Entry]
        ensures { result.now ≡ self.now }
    {
        self.items.as_slice()
    }

    /// Appends an entry. If memory runs out, the list is unchanged. Most messages bring at most two entries, so the first
    /// one gets room for one more.
    #[inline(always)]
    pub fn push(&mut self, entry: Entry) -> Result<(), AllocError>
        ensures ok { OnOk result (self.new ≡ self.old ++ entry ∷ []) }
        ensures err { OnErr result (self.new ≡ self.old) }
    {
        if self.items.is_empty() {
            self.items.reserve_exact(FIRST_ROOM)?;
        }
        self.items.push(entry)?;
        Ok(())
    }

    /// Appends the other entries, in their order. If memory runs out, the list is unchanged.
    pub fn append(&mut self, others: Entries) -> Result<(), AllocError>
        ensures ok { OnOk result (self.new ≡ self.old ++ others) }
        ensures err { OnErr result (self.new ≡ self.old) }
    {
        let mut others = others.into_vec();
        self.items.append(&mut others)?;
        Ok(())
    }

    /// The number of entries.
    pub fn len(&self) -> usize
        ensures { result ≡ length self.now }
    {
        self.items.len()
    }

    /// Whether there are no entries.
    pub fn is_empty(&self) -> bool
        ensures { IsTrue result ↔ (self.now ≡ []) }
    {
        self.items.is_empty()
    }

    /// The number of entries that components gave.
    pub fn component_count(&self) -> usize
        ensures { result ≡ component_count self.now }
    {
        self.items
            .iter()
            .filter(|entry| entry.kind.is_from_component())
            .count()
    }

    /// The number of entries that take a place of their dialogue.
    pub fn place_count(&self) -> usize
        ensures { result ≡ place_count self.now }
    {
        self.items
            .iter()
            .filter(|entry| entry.kind.takes_a_place())
            .count()
    }

    /// The list of these entries. Takes no memory.
    pub fn from_vec(entries: Vec<Entry>) -> Entries
        ensures { result ≡ entries.items }
    {
        Entries { items: entries }
    }

    /// The entries as a vector. Takes no memory.
    pub fn into_vec(self) -> Vec<Entry>
        ensures { result.items ≡ self }
    {
        self.items
    }

    /// A copy of the list. The only error is out of memory.
    pub fn try_clone(&self, alloc: Global) -> Result<Entries, AllocError>
        ensures { IfOk result (λ copy. copy ≡ self.now) }
    {
        let mut copy = Entries::new(alloc);
        'entries: for entry in self.as_slice() {
            copy.push(entry.try_clone()?)?;
        }
        Ok(copy)
    }
}
