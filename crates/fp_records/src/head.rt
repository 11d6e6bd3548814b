//! The head of a file, `key,SERVICEKEY,OFFSET`.

ghost use Rattle.std.specs.Prelude.{◌≡◌, ◌≤ℤ◌, pos, neg_ℤ, IfSome};
ghost use Rattle.csv.specs.Records.{fields_of};
ghost use Rattle.fp_records.specs.Head.{head_of, offset_of};

use crate::number::number_up_to;
use crate::row::three_fields;
use csv::ByteRecord;

/// The greatest service key.
const MOST_KEY: u64 = 2147483647;

/// The most minutes of local time west of UTC.
const MOST_WEST: u64 = 720;

/// The most minutes of local time east of UTC.
const MOST_EAST: u64 = 840;

/// The fields of the head.
#[derive(Clone, Copy, PartialEq, Eq)]
pub struct Head {
    /// The service key.
    pub(crate) key: u32,
    /// The minutes of local time east of UTC.
    pub(crate) offset: i16,
}

/// The minutes east of UTC, -720 to 840, in a text of decimal digits, with `-` before them or not.
/// For example, `-300` is five hours west.
fn offset_of(text: &[u8]) -> Option<i16>
    ensures value { result ≡ offset_of text.now }
    ensures west { IfSome result (λ offset. neg_ℤ (pos 720) ≤ℤ offset) }
    ensures east { IfSome result (λ offset. offset ≤ℤ pos 840) }
{
    match text {
        [b'-', digits @ ..] => {
            let west = number_up_to(MOST_WEST, digits)?;
            Some(-(west as i16))
        }
        _ => {
            let east = number_up_to(MOST_EAST, text)?;
            Some(east as i16)
        }
    }
}

/// The head in a record, if it is one.
#[tactic(auto, using(crate::proofs::Places::head_of_others))]
pub(crate) fn head_of(row: &ByteRecord) -> Option<Head>
    ensures value { result ≡ head_of (fields_of row.now) }
    ensures west { IfSome result (λ head. neg_ℤ (pos 720) ≤ℤ head.offset) }
    ensures east { IfSome result (λ head. head.offset ≤ℤ pos 840) }
{
    let Some((name, key, offset)) = three_fields(row) else {
        return None;
    };
    if name != b"key".as_slice() {
        return None;
    }
    let Some(key) = number_up_to(MOST_KEY, key) else {
        return None;
    };
    let Some(offset) = offset_of(offset) else {
        return None;
    };
    Some(Head {
        key: key as u32,
        offset,
    })
}
