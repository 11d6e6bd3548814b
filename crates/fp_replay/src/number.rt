//! Numbers, moments and places of tables, read: decimal, without leading zeros.

ghost use Rattle.std.specs.Prelude.{◌≡◌, ◌<◌, ◌≤◌, ◌^◌, ℕ, decimal, IfSome};
ghost use Rattle.fp_digits.specs.declared.moment.TheConstants.Moment.{END};
ghost use Rattle.fp_steps.specs.Places.{greatest_place};

use fp_digits::Moment;
use itoa::Buffer;

/// The number in a field, if it is at most `most`: the field must be the text that is written for
/// it. For example, `07` isn't read as 7.
pub(crate) fn number_in(field: &[u8], most: u64) -> Option<u64>
    ensures found { IfSome result (λ number. (number ≤ most) × (field.now ≡ decimal number)) }
    ensures only { (number : ℕ) → number ≤ most → field.now ≡ decimal number → result ≡ Some number }
{
    let Ok(digits) = str::from_utf8(field) else {
        return None;
    };
    let Ok(number) = digits.parse::<u64>() else {
        return None;
    };
    if number > most || Buffer::new().format(number) != digits {
        return None;
    }
    Some(number)
}

/// The number in a field, if it is 1 to `most`.
pub(crate) fn positive_number_in(field: &[u8], most: u64) -> Option<u64>
    ensures found { IfSome result (λ number. (1 ≤ number) × (number ≤ most) × (field.now ≡ decimal number)) }
    ensures only { (number : ℕ) → 1 ≤ number → number ≤ most → field.now ≡ decimal number → result ≡ Some number }
{
    let Some(number) = number_in(field, most) else {
        return None;
    };
    if number == 0 {
        return None;
    }
    Some(number)
}

/// The number of at most 64 bits in a field, as a birth or a position.
pub(crate) fn long_number_in(field: &[u8]) -> Option<u64>
    ensures found { IfSome result (λ number. (number < 2 ^ 64) × (field.now ≡ decimal number)) }
    ensures only { (number : ℕ) → number < 2 ^ 64 → field.now ≡ decimal number → result ≡ Some number }
{
    number_in(field, u64::MAX)
}

/// The number of at most 32 bits in a field.
pub(crate) fn short_number_in(field: &[u8]) -> Option<u32>
    ensures found { IfSome result (λ number. (number < 2 ^ 32) × (field.now ≡ decimal number)) }
    ensures only { (number : ℕ) → number < 2 ^ 32 → field.now ≡ decimal number → result ≡ Some number }
{
    let Some(number) = number_in(field, u32::MAX as u64) else {
        return None;
    };
    Some(number as u32)
}

/// The place of a table in a field: its index in the list passed in.
pub(crate) fn table_in(field: &[u8]) -> Option<u16>
    ensures found { IfSome result (λ table. (table ≤ greatest_place) × (field.now ≡ decimal table)) }
    ensures only { (table : ℕ) → table ≤ greatest_place → field.now ≡ decimal table → result ≡ Some table }
{
    let Some(number) = number_in(field, u64::from(u16::MAX)) else {
        return None;
    };
    Some(number as u16)
}

/// The moment in a field.
pub(crate) fn moment_in(field: &[u8]) -> Option<Moment>
    ensures found { IfSome result (λ moment. (moment < END) × (field.now ≡ decimal moment)) }
    ensures only { (moment : ℕ) → moment < END → field.now ≡ decimal moment → result ≡ Some moment }
{
    let Some(milliseconds) = number_in(field, Moment::END - 1) else {
        return None;
    };
    Moment::new(milliseconds)
}
