//! The records that all links of a run answer from. They may be replaced while the links run.

ghost use Rattle.std.specs.Prelude.{◌≡◌, ◌≤◌, IfOk, IfSome, OnErr};

use fp_records::Table;
use std::alloc::{AllocError, Global};
use std::marker::Model;
use std::mem;
use std::sync::atomic::{AtomicU16, Ordering};
use std::sync::{Arc, Mutex, Wait};

/// The tables under the lock.
#[derive(Drop)]
struct Versions {
    // The newest, which messages are answered from.
    newest: Arc<Table>,
    // The replaced tables, until no link has one.
    replaced: Vec<Arc<Table>>,
}

/// The records that all links of a run answer from: a table, which may be replaced. The first has index 0, and each
/// replacement has the next index, up to a last one, so that a replay reads each message by the table that it was
/// answered from.
///
/// A link keeps the table that it answers from, and needs the lock only to fetch another one.
#[derive(Drop)]
pub struct Tables {
    versions: Mutex<Versions>,
    // The index of the newest.
    index: AtomicU16,
    // The last index that a table may have.
    last_index: u16,
    alloc: Global,
}

/// Contracts see the last index that a table may have.
impl Model for Tables {
    ghost use Rattle.std.specs.Prelude.{ℕ};

    ghost Value = { ℕ };

    ghost view = { λ tables. tables.last_index };
}

impl Tables {
    /// The first table, under index 0, of a run without a tag: the last index is 999.
    pub fn new(alloc: Global, table: Table) -> Result<Tables, AllocError>
        ensures { IfOk result (λ tables. tables ≡ 999) }
    {
        Self::with_last_index(alloc, table, Table::LAST_INDEX_WITHOUT_TAG)
    }

    /// The first table, under index 0, of a run whose tables have indexes up to this one.
    pub fn with_last_index(
        alloc: Global,
        table: Table,
        last_index: u16,
    ) -> Result<Tables, AllocError>
        ensures { IfOk result (λ tables. tables ≡ last_index) }
    {
        let newest = Arc::new(alloc, table.numbered(0))?;
        Ok(Tables {
            versions: Mutex::new(Versions {
                newest,
                replaced: Vec::new(alloc),
            }),
            index: AtomicU16::new(0),
            last_index,
            alloc,
        })
    }

    /// The newest table.
    pub fn table<R: Wait>(&self, rt: &R) -> Result<Arc<Table>, AllocError> {
        Arc::try_clone(&self.versions.lock(rt).newest)
    }

    /// Fetches the newest table in place of an older one. If it is the newest already, the lock isn't taken. If memory
    /// runs out, nothing changes.
    pub fn refresh<R: Wait>(&self, rt: &R, table: &mut Arc<Table>) -> Result<(), AllocError>
        ensures { OnErr result (table.new ≡ table.old) }
    {
        if self.index.load(Ordering::SeqCst) == table.index() {
            return Ok(());
        }
        let newest = self.table(rt)?;
        drop(mem::replace(table, newest));
        Ok(())
    }

    /// Replaces the newest table by another one, and returns the new index. `None` if the newest has the last index, or
    /// memory ran out. Then nothing changes.
    ///
    /// The old table is kept until no link has it: then [`Tables::free_replaced`] frees it.
    pub fn reload<R: Wait>(&self, rt: &R, table: Table) -> Option<u32>
        ensures { IfSome result (λ index. (1 ≤ index) × (index ≤ self.now)) }
    {
        let mut versions = self.versions.lock(rt);
        let newest = versions.newest.index();
        if newest >= self.last_index {
            return None;
        }
        let index = newest + 1;
        versions.replaced.reserve(1).ok()?;
        let newest = match Arc::new(self.alloc, table.numbered(index)) {
            Ok(newest) => newest,
            Err(refused) => {
                // The rules of the refused table are freed with no lock held.
                drop(versions);
                drop(refused);
                return None;
            }
        };
        let old = mem::replace(&mut versions.newest, newest);
        let _ = versions.replaced.push(old);
        self.index.store(index, Ordering::SeqCst);
        Some(u32::from(index))
    }

    /// Frees the replaced tables that no link has any more. You should call it on a thread that no message waits for:
    /// freeing many rules takes milliseconds.
    pub fn free_replaced<R: Wait>(&self, rt: &R) {
        for _ in 0..=Table::LAST_INDEX {
            let mut versions = self.versions.lock(rt);
            let unused = versions
                .replaced
                .iter()
                .position(|table| Arc::strong_count(table) == 1);
            let Some(place) = unused else {
                return;
            };
            let table = versions.replaced.swap_remove(place);
            drop(versions);
            drop(table);
        }
    }
}
