//! The fields of a record of a text.

ghost use Rattle.std.specs.Prelude.{◌≡◌, ◌≢◌, [], ◌∷◌, MatchOption, length};
ghost use Rattle.csv.specs.Records.{fields_of};
ghost use Rattle.fp_records.specs.Version.{begins_with, names_two};
ghost use Rattle.fp_lint.specs.Faults.{version_part};

use crate::fault::Part;
use csv::ByteRecord;

/// Whether the first field of a record is this word.
#[tactic(auto, using(fp_records::proofs::Places::begins_with_first, fp_records::proofs::Places::begins_with_none))]
pub(crate) fn begins_with(row: &ByteRecord, word: &[u8]) -> bool
    ensures { result ≡ begins_with word.now (fields_of row.now) }
{
    match row.get(0) {
        Some(name) => name == word,
        None => false,
    }
}

/// The fields of a record with two.
#[tactic(auto, using(fp_records::proofs::Places::field_within, fp_records::proofs::Places::two))]
fn two_fields(row: &ByteRecord) -> Option<(&[u8], &[u8])>
    ensures { MatchOption result (length (fields_of row.now) ≢ 2) (λ fields. fields_of row.now ≡ fields.0.now ∷ fields.1.now ∷ []) }
{
    if row.len() != 2 {
        return None;
    }
    let Some(first) = row.get(0) else {
        return None;
    };
    let Some(second) = row.get(1) else {
        return None;
    };
    Some((first, second))
}

/// The three fields of a record; `None` if it has another number of fields.
#[tactic(auto, using(fp_records::proofs::Places::field_within, fp_records::proofs::Places::three))]
pub(crate) fn three_fields(row: &ByteRecord) -> Option<(&[u8], &[u8], &[u8])>
    ensures { MatchOption result (length (fields_of row.now) ≢ 3) (λ fields. fields_of row.now ≡ fields.0.now ∷ fields.1.now ∷ fields.2.now ∷ []) }
{
    if row.len() != 3 {
        return None;
    }
    let Some(first) = row.get(0) else {
        return None;
    };
    let Some(second) = row.get(1) else {
        return None;
    };
    let Some(third) = row.get(2) else {
        return None;
    };
    Some((first, second, third))
}

/// Whether a record that begins with `fprecords` is the line of version 2.
#[tactic(auto, using(fp_records::proofs::Places::names_two_others))]
pub(crate) fn names_two(row: &ByteRecord) -> bool
    ensures { result ≡ names_two (fields_of row.now) }
{
    match two_fields(row) {
        Some((_, number)) => number == b"2".as_slice(),
        None => false,
    }
}

/// The faulty part of a record that begins with `fprecords` and isn't the line of version 2.
#[tactic(auto, using(crate::proofs::Parts::version_part_others))]
pub(crate) fn version_part(row: &ByteRecord) -> Part
    ensures { result ≡ version_part (fields_of row.now) }
{
    match two_fields(row) {
        Some(_) => Part::Field(1),
        None => Part::Whole,
    }
}
