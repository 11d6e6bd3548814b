//! The only rule of a number.

use crate::values::{found, kept, national_number_of};
use cases::Answer;
use fp_records::{Rule, Table};
use std::alloc::Global;

/// The only rule of a number. `None`, and a fault, if there is no record or not one rule.
pub(crate) fn only_rule<'a>(table: &'a Table, called: &str, out: &mut Answer) -> Option<&'a Rule> {
    let called = national_number_of(called, out);
    match table.find(&called) {
        Some(record) => found(record.only_rule(), "several rules", out),
        None => {
            out.fail("no record");
            None
        }
    }
}

/// A table of the number 5, whose only rule routes to the destinations that a text spells. `None`, and a fault, if the
/// table can't be read.
pub(crate) fn routed_to(alloc: Global, text: &str, out: &mut Answer) -> Option<Table> {
    let mut file = Answer::new(alloc);
    file.text("key,1,0\n5,,1,00:00,24:00,1,route,");
    file.text(text);
    file.text("\n");
    kept(Table::read(alloc, file.as_str().as_bytes()), out)
}
