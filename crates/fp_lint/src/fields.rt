//! Whether a field is good: a record with this field and otherwise good fields must be read.

ghost use Rattle.std.specs.Prelude.{◌≡◌, ◌+◌, ◌∷◌, [], IfOk, codes, bytes_eq, is_some, IsSome};
ghost use Rattle.fp_records.specs.Closed.{closed_in};
ghost use Rattle.fp_records.specs.Date.{date_of};
ghost use Rattle.fp_records.specs.Days.{days_of};
ghost use Rattle.fp_records.specs.Digits.{digits_of, some_digits_of};
ghost use Rattle.fp_records.specs.Fields.{differ, takes, verb_of, weight_of};
ghost use Rattle.fp_records.specs.Head.{offset_of};
ghost use Rattle.fp_records.specs.Number.{number_up_to};
ghost use Rattle.fp_records.specs.Window.{time_of};
ghost use Rattle.fp_lint.specs.Alone.{texts};

use crate::alone::{closed_fault, is_head, rule_fault};
use std::alloc::{AllocError, Global};

/// The fields of a rule without destinations.
fn rule_of<'a>(
    number: &'a [u8],
    prefix: &'a [u8],
    days: &'a [u8],
    from: &'a [u8],
    to: &'a [u8],
    weight: &'a [u8],
    action: &'a [u8],
) -> [&'a [u8]; 7]
    ensures { texts result ≡ number.now ∷ prefix.now ∷ days.now ∷ from.now ∷ to.now ∷ weight.now ∷ action.now ∷ [] }
{
    [number, prefix, days, from, to, weight, action]
}

/// The fields of a rule with one destination.
fn routed(destination: &[u8]) -> [&[u8]; 8]
    ensures { texts result ≡ codes "1" ∷ [] ∷ codes "1" ∷ codes "00:00" ∷ codes "24:00" ∷ codes "1" ∷ codes "route" ∷ destination.now ∷ [] }
{
    [
        b"1",
        b"",
        b"1",
        b"00:00",
        b"24:00",
        b"1",
        b"route",
        destination,
    ]
}

/// Whether a text is a number.
pub(crate) fn is_number(alloc: Global, text: &[u8]) -> Result<bool, AllocError>
    ensures { IfOk result (λ is. is ≡ is_some (some_digits_of text.now)) }
{
    let rule = rule_of(text, b"", b"1", b"00:00", b"24:00", b"1", b"pass");
    Ok(rule_fault(alloc, rule.as_slice())?.is_none())
}

/// Whether a text is a prefix.
pub(crate) fn is_prefix(alloc: Global, text: &[u8]) -> Result<bool, AllocError>
    ensures { IfOk result (λ is. is ≡ is_some (digits_of text.now)) }
{
    let rule = rule_of(b"1", text, b"1", b"00:00", b"24:00", b"1", b"pass");
    Ok(rule_fault(alloc, rule.as_slice())?.is_none())
}

/// Whether a text is the days of a rule.
pub(crate) fn is_days(alloc: Global, text: &[u8]) -> Result<bool, AllocError>
    ensures { IfOk result (λ is. is ≡ is_some (days_of text.now)) }
{
    let rule = rule_of(b"1", b"", text, b"00:00", b"24:00", b"1", b"pass");
    Ok(rule_fault(alloc, rule.as_slice())?.is_none())
}

/// Whether a window can begin at this time.
pub(crate) fn is_from(alloc: Global, text: &[u8]) -> Result<bool, AllocError>
    ensures { IfOk result (λ is. is ≡ is_some (time_of 1439 text.now)) }
{
    let rule = rule_of(b"1", b"", b"1", text, b"24:00", b"1", b"pass");
    Ok(rule_fault(alloc, rule.as_slice())?.is_none())
}

/// Whether a window can end at this time: it can if one from 00:00 or one from 00:01 can end there.
pub(crate) fn is_to(alloc: Global, text: &[u8]) -> Result<bool, AllocError>
    ensures { IfOk result (λ is. is ≡ is_some (time_of 1440 text.now)) }
{
    let early = rule_of(b"1", b"", b"1", b"00:00", text, b"1", b"pass");
    let late = rule_of(b"1", b"", b"1", b"00:01", text, b"1", b"pass");
    let is_after_early = rule_fault(alloc, early.as_slice())?.is_none();
    let is_after_late = rule_fault(alloc, late.as_slice())?.is_none();
    Ok(is_after_early | is_after_late)
}

/// Whether two good times differ. You must pass a good first and second time.
pub(crate) fn times_differ(alloc: Global, from: &[u8], to: &[u8]) -> Result<bool, AllocError>
    requires from { IsSome (time_of 1439 from.now) }
    requires to { IsSome (time_of 1440 to.now) }
    ensures { IfOk result (λ they. they ≡ differ (time_of 1439 from.now) (time_of 1440 to.now)) }
{
    let rule = rule_of(b"1", b"", b"1", from, to, b"1", b"pass");
    Ok(rule_fault(alloc, rule.as_slice())?.is_none())
}

/// Whether a text is a weight.
pub(crate) fn is_weight(alloc: Global, text: &[u8]) -> Result<bool, AllocError>
    ensures { IfOk result (λ is. is ≡ is_some (weight_of text.now)) }
{
    let rule = rule_of(b"1", b"", b"1", b"00:00", b"24:00", text, b"pass");
    Ok(rule_fault(alloc, rule.as_slice())?.is_none())
}

/// Whether a text is a destination.
pub(crate) fn is_destination(alloc: Global, text: &[u8]) -> Result<bool, AllocError>
    ensures { IfOk result (λ is. is ≡ is_some (some_digits_of text.now)) }
{
    let rule = routed(text);
    Ok(rule_fault(alloc, rule.as_slice())?.is_none())
}

/// Whether a text is an action, with a destination or without one.
pub(crate) fn is_action(alloc: Global, text: &[u8]) -> Result<bool, AllocError>
    ensures { IfOk result (λ is. is ≡ is_some (verb_of text.now)) }
{
    let is_alone = takes(alloc, text, 0)?;
    let is_routed = takes(alloc, text, 1)?;
    Ok(is_alone | is_routed)
}

/// Whether a text is an action that takes this number of destinations.
pub(crate) fn takes(alloc: Global, action: &[u8], count: usize) -> Result<bool, AllocError>
    ensures { IfOk result (λ it. it ≡ takes (verb_of action.now) (7 + count)) }
{
    let rule = rule_of(b"1", b"", b"1", b"00:00", b"24:00", b"1", action);
    let mut fields = Vec::from_slice(alloc, rule.as_slice())?;
    for _done in 0..count {
        fields.push(b"1".as_slice())?;
    }
    Ok(rule_fault(alloc, fields.as_slice())?.is_none())
}

/// Whether a text is a good number of a closed day.
pub(crate) fn is_closed_number(alloc: Global, text: &[u8]) -> Result<bool, AllocError>
    ensures { IfOk result (λ is. is ≡ is_some (some_digits_of text.now)) }
{
    Ok(closed_fault(alloc, text, b"2000-01-01")?.is_none())
}

/// Whether a text is a good date of a closed day.
pub(crate) fn is_closed_date(alloc: Global, text: &[u8]) -> Result<bool, AllocError>
    ensures { IfOk result (λ is. is ≡ is_some (date_of text.now)) }
{
    Ok(closed_fault(alloc, b"1", text)?.is_none())
}

/// Whether a text is the first field of a head.
pub(crate) fn is_head_name(alloc: Global, text: &[u8]) -> Result<bool, AllocError>
    ensures { IfOk result (λ is. is ≡ bytes_eq text.now (codes "key")) }
{
    is_head(alloc, text, b"1", b"0")
}

/// Whether a text is a service key.
pub(crate) fn is_key(alloc: Global, text: &[u8]) -> Result<bool, AllocError>
    ensures { IfOk result (λ is. is ≡ is_some (number_up_to 2147483647 text.now)) }
{
    is_head(alloc, b"key", text, b"0")
}

/// Whether a text is an offset.
pub(crate) fn is_offset(alloc: Global, text: &[u8]) -> Result<bool, AllocError>
    ensures { IfOk result (λ is. is ≡ is_some (offset_of text.now)) }
{
    is_head(alloc, b"key", b"1", text)
}
