//! The unit name in an ID_RESP.

ghost use Rattle.std.specs.Prelude.{◌≡◌, ◌≢◌, ℕ, List, ◌++◌, Some, IfNone, IfSome, MatchOption, length, slice_get};
ghost use Rattle.fp_ipa.specs.Identity.{IsFirstPlace, Item, NamesUnit, SaysUnitName, item_octets, item_of, without_end};

use crate::UnitName;

/// The tag of a unit name.
const UNIT_NAME: u8 = 1;

/// An item, and the octets after it.
#[derive(Clone, Copy, Debug)]
struct First<'a> {
    tag: u8,
    value: &'a [u8],
    after: &'a [u8],
}

/// The first item in these octets; `None` if they don't begin with a whole one.
fn first_item(octets: &[u8]) -> Option<First<'_>>
    ensures { MatchOption result
        ((item : Item) (after : List ℕ) → octets.now ≢ item_octets item ++ after)
        (λ first. octets.now ≡ item_octets (item_of first.tag first.value.now) ++ first.after.now) }
{
    if octets.len() < 3 {
        return None;
    }
    let length = usize::from(octets[0]) * 256 + usize::from(octets[1]);
    if length == 0 || octets.len() < 2 + length {
        return None;
    }
    Some(First {
        tag: octets[2],
        value: &octets[3..2 + length],
        after: &octets[2 + length..],
    })
}

/// The value of the first unit name; `None` if no unit name follows whole items.
fn unit_name(contents: &[u8]) -> Option<&[u8]>
    ensures found { IfSome result (λ value. SaysUnitName contents.now value.now) }
    ensures none { IfNone result ((value : List ℕ) → ¬ SaysUnitName contents.now value) }
{
    let mut rest = contents;
    while !rest.is_empty() {
        let Some(first) = first_item(rest) else {
            return None;
        };
        if first.tag == UNIT_NAME {
            return Some(first.value);
        }
        rest = first.after;
    }
    None
}

/// A value without the octet 00 at its end, if it has one there.
fn without_octet_at_end(value: &[u8]) -> &[u8]
    ensures { result.now ≡ without_end value.now }
{
    match value {
        [name @ .., 0] => name,
        _ => value,
    }
}

/// The position of the first name with these octets; `None` if there is none.
fn place_of(names: &[UnitName], name: &[u8]) -> Option<usize>
    ensures { MatchOption result ((place : ℕ) → slice_get names.now place ≢ Some name.now)
        (IsFirstPlace names.now name.now) }
{
    for (place, one) in names.iter().enumerate() {
        if one.as_slice() == name {
            return Some(place);
        }
    }
    None
}

/// The unit that an ID_RESP with these contents names, as its position among the names; `None` if it names none of
/// them.
pub(crate) fn named_unit(names: &[UnitName], contents: &[u8]) -> Option<usize>
    ensures { MatchOption result ((unit : ℕ) → ¬ NamesUnit names.now contents.now unit)
        (NamesUnit names.now contents.now) }
{
    let Some(value) = unit_name(contents) else {
        return None;
    };
    let Some(unit) = place_of(names, without_octet_at_end(value)) else {
        return None;
    };
    Some(unit)
}
