//! Rows by local identifier.

ghost use Rattle.std.specs.Prelude.{◌≡◌, ◌<◌, ◌^◌, ℕ, None, OnErr, OnOk, Some, if◌then◌else◌};
ghost use Rattle.std.specs.Option.{option_copied, option_copied_mut};
ghost use Rattle.std.specs.Borrow.{LendsIf, sem};
ghost use Rattle.std.specs.Ordering.{nat_cmp};
ghost use Rattle.std.specs.FinMap as map;
ghost use Rattle.fp_row.specs.contracts.rows.Rows.{the_row};
ghost use Rattle.fp_row.specs.contracts.row.Row as row_type;
ghost use Rattle.fp_row.specs.declared.row.Row.{Row};
ghost use Rattle.fp_row.specs.proof_only.Leads.{key_in};
ghost use Rattle.fp_row.specs.Rows.{Closes, ClosesAt, IsAfter, count_due, entry_count, is_above, is_sent};

use crate::identifier_hash::IdentifierHasher;
use crate::{Ending, Row};
use fp_digits::Moment;
use slab::Slab;
use std::alloc::{AllocError, Global};
use std::collections::HashMap;
use std::hash::BuildHasherDefault;
use std::marker::Model;

/// From identifiers to slab keys.
type Index = HashMap<u32, usize, BuildHasherDefault<IdentifierHasher>>;

/// Rows, each under a local transaction identifier (ITU-T Q.773, 4.2.1.3), at most one under each. Contracts see a
/// finite map.
#[derive(Debug, Drop)]
pub struct Rows {
    // A row isn't moved when others are inserted or removed, until the slab grows. Its identifier is beside it, because
    // a row that is lent may be changed in any way.
    rows: Slab<(u32, Row)>,
    // From each identifier to the key of its row.
    index: Index,
    alloc: Global,
}

impl Model for Rows {
    ghost use Rattle.std.specs.Ordering.{nat_cmp};
    ghost use Rattle.std.specs.FinMap as map;
    ghost use Rattle.std.specs.Coded.{coded_ℕ};
    ghost use Rattle.fp_row.specs.contracts.row.Row as row_type;
    ghost use Rattle.fp_row.specs.declared.row.Row.{Row};
    ghost use Rattle.fp_row.specs.proof_only.Leads.{Leads, key_in, values_in};

    ghost Value = { map.FinMap nat_cmp Row };

    ghost coded = { map.code coded_ℕ row_type.the_row.coded };

    ghost view = { λ rows. values_in rows.rows };

    ghost invariant = { λ rows. Leads (key_in rows.index) rows.rows };
}

/// The key of an identifier in an index.
fn key_in(index: &Index, local: u32) -> Option<usize>
    ensures { result ≡ key_in index.now local }
{
    index.get(&local).copied()
}

/// Whether an identifier is above this one. Each identifier is above `None`.
fn is_above(local: Option<u32>, other: u32) -> bool
    ensures { result ≡ is_above local other }
{
    match local {
        Some(local) => local < other,
        None => true,
    }
}

/// Whether `sending`, the dialogue whose frame is being sent, is this dialogue.
fn is_sent(sending: Option<u32>, local: u32) -> bool
    ensures { result ≡ is_sent sending local }
{
    match sending {
        Some(sending) => sending == local,
        None => false,
    }
}

/// Closes a dialogue, and returns whether something of it is left.
fn close(row: &mut Row, is_sending: bool) -> bool
    ensures { Closes is_sending row.old (if result then Some row.new else None) }
{
    let _drops = row.end(Ending::Closed, is_sending);
    row.is_held()
}

impl Rows {
    /// An empty map. Takes no memory.
    pub fn new(alloc: Global) -> Rows
        ensures { result ≡ map.empty }
    {
        Rows {
            rows: Slab::new(alloc),
            index: HashMap::with_hasher(alloc, BuildHasherDefault::new()),
            alloc,
        }
    }

    /// The allocator of the map.
    pub fn allocator(&self) -> Global {
        self.alloc
    }

    /// The number of rows.
    pub fn len(&self) -> usize
        ensures { result ≡ map.len self.now }
    {
        self.rows.len()
    }

    /// Puts a row under an identifier, which must have none. If memory runs out, nothing changes, and the row is lost.
    pub fn add(&mut self, local: u32, row: Row) -> Result<(), AllocError>
        requires { map.get self.old local ≡ None }
        ensures ok { OnOk result (self.new ≡ map.insert self.old local row) }
        ensures err { OnErr result (self.new ≡ self.old) }
    {
        self.rows.reserve(1)?;
        let key = self.rows.vacant_key();
        self.index.insert(local, key)?;
        self.rows.insert_reserved((local, row));
        Ok(())
    }

    /// The row under an identifier, if there is one.
    pub fn get(&self, local: u32) -> Option<&Row>
        ensures { option_copied result ≡ map.get self.now local }
    {
        let Some(key) = key_in(&self.index, local) else {
            return None;
        };
        Some(&self.rows[key].1)
    }

    /// Lends the row under an identifier, if there is one, to be changed. Its state at the end of the loan stays under
    /// the identifier.
    pub fn get_mut(&mut self, local: u32) -> Option<&mut Row>
        ensures* writes_back { sem 𝓛 (LendsIf the_row row_type.the_row self.entry result (λ (w : Row). map.insert self.old local w) self.old) }
        ensures value { option_copied_mut result ≡ map.get self.old local }
    {
        let Some(key) = key_in(&self.index, local) else {
            return None;
        };
        Some(&mut self.rows[key].1)
    }

    /// Drops the row under an identifier, if there is one. Takes no memory.
    #[inline(always)]
    pub fn forget(&mut self, local: u32)
        ensures { self.new ≡ map.remove self.old local }
    {
        let Some(key) = self.index.remove(&local) else {
            return;
        };
        drop(self.rows.remove(key));
    }

    /// Closes every dialogue, and removes those with nothing left. `sending` is the dialogue whose frame is being sent,
    /// if one is. Takes no memory.
    pub fn close_all(&mut self, sending: Option<u32>)
        ensures { (local : ℕ) → ClosesAt (is_sent sending local) (map.get self.old local) (map.get self.new local) }
    {
        self.rows.retain(|_key, entry| close(&mut entry.1, is_sent(sending, entry.0)));
        let rows = &self.rows;
        self.index.retain(|_local, key| rows.contains(*key));
    }

    /// The least identifier above `local` that has a row; for `None` the least of all. `None` if there is none. Goes
    /// through all rows.
    pub fn after(&self, local: Option<u32>) -> Option<u32>
        ensures { IsAfter self.now local result }
    {
        self.index
            .keys()
            .copied()
            .filter(|other| is_above(local, *other))
            .min()
    }

    /// How many of the dialogues are due at a moment. Goes through all of them.
    pub fn count_due(&self, moment: Moment) -> usize
        ensures { result ≡ count_due self.now moment }
    {
        let due = self.rows.iter().filter(|entry| entry.1.1.is_due(moment));
        due.count()
    }

    /// How many entries the dialogues keep: the sum of all that they accepted. Goes through all dialogues.
    pub fn entry_count(&self) -> u64
        requires { entry_count self.now < 2 ^ 64 }
        ensures { result ≡ entry_count self.now }
    {
        self.rows
            .iter()
            .map(|entry| entry.1.1.accepted.len() as u64)
            .sum()
    }
}
