//! Lists of entries, their copies, and which of them are equal.

use crate::entries::shown::push_entries;
use crate::kinds::kind_of;
use crate::values::{after_noon, kept};
use cases::{Answer, first_word, number_of};
use fp_digits::Moment;
use fp_entry::{Entries, Entry, EntryKind};
use fp_records::Table;
use std::alloc::Global;

/// The entries that a text spells.
fn entries_of(alloc: Global, table: &Table, text: &str, out: &mut Answer) -> Entries {
    let (moments, kinds) = first_word(text);
    let mut entries = Entries::new(alloc);
    for kind in kinds.split("; ") {
        push_kind(alloc, table, &mut entries, moments, kind, out);
    }
    entries
}

/// Adds the entry of a text, at each of these moments.
fn push_kind(
    alloc: Global,
    table: &Table,
    entries: &mut Entries,
    moments: &str,
    text: &str,
    out: &mut Answer,
) {
    if let Some(kind) = kind_of(alloc, table, text, out) {
        push_at(entries, moments, &kind, out);
    }
}

/// Adds an entry of this kind, at each of these moments.
fn push_at(entries: &mut Entries, moments: &str, kind: &EntryKind, out: &mut Answer) {
    for moment in moments.split(',') {
        let moment = after_noon(number_of(moment, out));
        push_copy(entries, moment, kind, out);
    }
}

/// Adds an entry with a copy of this kind.
fn push_copy(entries: &mut Entries, moment: Moment, kind: &EntryKind, out: &mut Answer) {
    if let Some(kind) = kept(kind.try_clone(), out) {
        out.note(entries.push(Entry { moment, kind }));
    }
}

/// Writes a list before its first entry and with all entries, and copies of its entries after it was taken apart and
/// put together again.
pub(crate) fn list(alloc: Global, table: &Table, text: &str, out: &mut Answer) {
    let entries = entries_of(alloc, table, text, out);
    let copies = copies_of(alloc, entries.as_slice(), out);
    let is_empty = Entries::new(alloc).is_empty();
    let together = Entries::from_vec(entries.into_vec());
    push_list(table, is_empty, &together, copies.as_slice(), out)
}

/// Writes whether a list was empty before its first entry and is empty with all entries, and then its copies.
fn push_list(
    table: &Table,
    was_empty: bool,
    together: &Entries,
    copies: &[Entry],
    out: &mut Answer,
) {
    out.either(was_empty, "empty true, then ", "empty false, then ");
    out.either(together.is_empty(), "true; ", "false; ");
    push_copies(table, together.as_slice(), copies, out)
}

/// Copies of entries, one by one.
fn copies_of(alloc: Global, entries: &[Entry], out: &mut Answer) -> Entries {
    let mut copies = Entries::new(alloc);
    for entry in entries {
        push_copy(&mut copies, entry.moment, &entry.kind, out);
    }
    copies
}

/// Writes how many entries there are, how many equal their copy, and the copies.
fn push_copies(table: &Table, entries: &[Entry], copies: &[Entry], out: &mut Answer) {
    let same = count_places(entries, copies);
    out.value(entries.len());
    out.labeled(" entries, ", same);
    out.text(" are the same as their copy: ");
    push_entries(table, copies, out)
}

/// Writes a list after an empty list and a copy of itself were appended.
pub(crate) fn append(alloc: Global, table: &Table, text: &str, out: &mut Answer) {
    let mut entries = entries_of(alloc, table, text, out);
    append_copy(alloc, &mut entries, out);
    push_entries(table, entries.as_slice(), out)
}

/// Appends an empty list and a copy of a list to it.
fn append_copy(alloc: Global, entries: &mut Entries, out: &mut Answer) {
    if let Some(copies) = kept(entries.try_clone(alloc), out) {
        out.note(entries.append(Entries::new(alloc)));
        out.note(entries.append(copies));
    }
}

/// Writes the numbers of entries, and of equal pairs as each entry is compared with each copy.
pub(crate) fn distinct(alloc: Global, table: &Table, text: &str, out: &mut Answer) {
    let entries = entries_of(alloc, table, text, out);
    if let Some(copies) = kept(entries.try_clone(alloc), out) {
        push_distinct(&entries, copies.as_slice(), out);
    }
}

/// Writes how many entries there are, and how many copies equal them.
fn push_distinct(entries: &Entries, copies: &[Entry], out: &mut Answer) {
    push_numbers(entries, out);
    push_pairs(entries.as_slice(), copies, out)
}

/// Writes how many entries there are, and how many of a kind.
fn push_numbers(entries: &Entries, out: &mut Answer) {
    let clocks = count_clocks(entries.as_slice());
    out.value(entries.len());
    out.labeled(" entries, ", entries.component_count());
    out.labeled(" from components, ", entries.place_count());
    out.labeled(" with a place, ", clocks);
    out.text(" of the clock; ");
}

/// Writes how many copies equal their own entry, and how many pairs of an entry and a copy are equal.
fn push_pairs(entries: &[Entry], copies: &[Entry], out: &mut Answer) {
    let own = count_places(entries, copies);
    let mut pairs: usize = 0;
    let mut same: usize = 0;
    for entry in entries {
        pairs = pairs.saturating_add(copies.len());
        same = same.saturating_add(count_same(entry, copies));
    }
    out.value(copies.len());
    out.labeled(" copies, ", own);
    out.labeled(" are the same as their entry; of ", pairs);
    out.labeled(" pairs ", same);
    out.text(" are the same");
}

/// How many entries equal this one.
fn count_same(entry: &Entry, others: &[Entry]) -> usize {
    let mut count: usize = 0;
    for other in others {
        count = count.saturating_add(usize::from(entry == other));
    }
    count
}

/// How many entries equal the one in the same place of the other list.
fn count_places(entries: &[Entry], others: &[Entry]) -> usize {
    let mut count: usize = 0;
    for (entry, other) in entries.iter().zip(others) {
        count = count.saturating_add(usize::from(entry == other));
    }
    count
}

/// How many entries are the clock's.
fn count_clocks(entries: &[Entry]) -> usize {
    let mut count: usize = 0;
    for entry in entries {
        count = count.saturating_add(usize::from(entry.kind.is_clock()));
    }
    count
}
