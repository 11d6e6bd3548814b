//! The fields of a record of a text.

ghost use Rattle.std.specs.Prelude.{◌≡◌, ◌≢◌, [], ◌∷◌, MatchOption, length};
ghost use Rattle.csv.specs.Records.{fields_of};
ghost use Rattle.fp_records.specs.Version.{begins_with};

use csv::ByteRecord;

/// Whether the first field of a record is this word.
#[tactic(auto, using(crate::proofs::Places::begins_with_first, crate::proofs::Places::begins_with_none))]
pub(crate) fn begins_with(row: &ByteRecord, word: &[u8]) -> bool
    ensures { result ≡ begins_with word.now (fields_of row.now) }
{
    match row.get(0) {
        Some(name) => name == word,
        None => false,
    }
}

/// The two fields of a record; `None` if it has another number of fields.
#[tactic(auto, using(crate::proofs::Places::field_within, crate::proofs::Places::two))]
pub(crate) fn two_fields(row: &ByteRecord) -> Option<(&[u8], &[u8])>
    ensures { MatchOption result (length (fields_of row.now) ≢ 2) (λ fields. fields_of row.now ≡ fields.0.now ∷ fields.1.now ∷ []) }
{
    if row.len() != 2 {
        return None;
    }
    let Some(first) = row.get(0) else {
        return None;
    };
    let Some(second) = row.get(1) else {
        return None;
    };
    Some((first, second))
}

/// The fields of a record with three.
#[tactic(auto, using(crate::proofs::Places::field_within, crate::proofs::Places::three))]
pub(crate) fn three_fields(row: &ByteRecord) -> Option<(&[u8], &[u8], &[u8])>
    ensures { MatchOption result (length (fields_of row.now) ≢ 3) (λ fields. fields_of row.now ≡ fields.0.now ∷ fields.1.now ∷ fields.2.now ∷ []) }
{
    if row.len() != 3 {
        return None;
    }
    let Some(first) = row.get(0) else {
        return None;
    };
    let Some(second) = row.get(1) else {
        return None;
    };
    let Some(third) = row.get(2) else {
        return None;
    };
    Some((first, second, third))
}
