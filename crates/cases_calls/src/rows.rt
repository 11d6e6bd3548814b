//! A file of records that grows row by row.

use crate::values::kept;
use cases::Answer;
use fp_records::Table;
use std::alloc::Global;

/// A file of records, and the table that is read from it.
#[derive(Drop)]
pub(crate) struct Rows {
    text: String,
    // `None` before the first record.
    table: Option<Table>,
}

impl Rows {
    /// A file without records.
    pub(crate) fn new(alloc: Global) -> Rows {
        Rows {
            text: String::new(alloc),
            table: None,
        }
    }

    /// Begins a file with its first record, and writes how many numbers and rules it has.
    pub(crate) fn begin(&mut self, alloc: Global, head: &str, out: &mut Answer) {
        self.text.clear();
        self.push(alloc, head, out)
    }

    /// Adds a record after the others, and writes how many numbers and rules there are.
    pub(crate) fn push(&mut self, alloc: Global, row: &str, out: &mut Answer) {
        out.note(self.text.push_str(row));
        out.note(self.text.push('\n'));
        self.table = kept(Table::read(alloc, self.text.as_bytes()), out);
        if let Some(table) = &self.table {
            push_counts(table, out);
        }
    }

    /// The table of the file. `None`, and a fault, if there is none.
    pub(crate) fn table(&self, out: &mut Answer) -> Option<&Table> {
        if self.table.is_none() {
            out.fail("no records");
        }
        self.table.as_ref()
    }
}

/// Writes how many numbers and rules a table has.
fn push_counts(table: &Table, out: &mut Answer) {
    let (numbers, rules) = table.counts();
    out.value(numbers);
    out.labeled(" numbers, ", rules);
    out.text(" rules");
}
