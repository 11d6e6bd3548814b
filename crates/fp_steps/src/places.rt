//! The places of the tables that a run has.

ghost use Rattle.std.specs.Prelude.{◌≡◌};
ghost use Rattle.fp_steps.specs.Places.{handed_in, last_place};

use fp_records::Table;

/// The last place of a table in a run with this tag: 65,535, and 999 without one, which is the tag 0.
pub fn last_place(tag: u16) -> u16
    ensures { result ≡ last_place tag }
{
    if tag == 0 {
        Table::LAST_INDEX_WITHOUT_TAG
    } else {
        Table::LAST_INDEX
    }
}

/// The tables that a run with this tag has: the first ones of this list, up to its last place.
pub fn handed_in(tag: u16, tables: &[Table]) -> &[Table]
    ensures { result.now ≡ handed_in tag tables.now }
{
    let most = usize::from(last_place(tag)) + 1;
    if tables.len() <= most {
        return tables;
    }
    &tables[..most]
}
