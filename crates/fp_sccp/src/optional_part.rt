//! The optional part of an XUDT.

ghost use Rattle.std.specs.Prelude.{◌≡◌, ◌≢◌, ℕ, ◌≤◌, Bool, List, ◌++◌, IfNone, IfSome, MatchOption, length};
ghost use Rattle.fp_sccp.specs.OptionalPart.{OptionalPartSays, Parameter, SaysWhole, allows_whole, parameter_octets, parameter_of};

/// The name of the octet that ends the optional part (Q.713, 3.1).
const END: u8 = 0;
/// The name of the segmentation parameter (Q.713, 3.17).
const SEGMENTATION: u8 = 0x10;

/// Whether the message can be whole with this parameter. A segmentation parameter must say that its segment is the
/// first and that none follows. Any other parameter allows it.
fn allows(name: u8, contents: &[u8]) -> bool
    ensures { result ≡ allows_whole (parameter_of name contents.now) }
{
    name != SEGMENTATION || contents.len() == 4 && contents[0] / 128 == 1 && contents[0] % 16 == 0
}

/// A parameter, and the octets after it.
#[derive(Clone, Copy, Debug)]
struct First<'a> {
    name: u8,
    contents: &'a [u8],
    after: &'a [u8],
}

/// The first parameter in these octets; `None` if they don't begin with a whole one.
fn first_parameter(octets: &[u8]) -> Option<First<'_>>
    ensures { MatchOption result
        ((parameter : Parameter) (after : List ℕ) → octets.now ≢ parameter_octets parameter ++ after)
        (λ first. octets.now ≡ parameter_octets (parameter_of first.name first.contents.now) ++ first.after.now) }
{
    if octets.len() < 2 {
        return None;
    }
    let end = 2 + usize::from(octets[1]);
    if octets.len() < end {
        return None;
    }
    Some(First {
        name: octets[0],
        contents: &octets[2..end],
        after: &octets[end..],
    })
}

/// Whether the message is whole by these parameters; `None` if they don't end.
fn says_whole(octets: &[u8]) -> Option<bool>
    ensures found { IfSome result (SaysWhole octets.now) }
    ensures none { IfNone result ((whole : Bool) → ¬ SaysWhole octets.now whole) }
{
    let mut rest = octets;
    let mut whole = true;
    while !rest.is_empty() {
        if rest[0] == END {
            return Some(whole);
        }
        let Some(first) = first_parameter(rest) else {
            return None;
        };
        whole = whole & allows(first.name, first.contents);
        rest = first.after;
    }
    None
}

/// Whether an XUDT is whole; `None` if its optional part can't be read.
pub(crate) fn is_whole(octets: &[u8]) -> Option<bool>
    requires { 7 ≤ length octets.now }
    ensures found { IfSome result (OptionalPartSays octets.now) }
    ensures none { IfNone result ((whole : Bool) → ¬ OptionalPartSays octets.now whole) }
{
    let pointer = usize::from(octets[6]);
    if pointer == 0 {
        return Some(true);
    }
    if octets.len() - 6 < pointer {
        return None;
    }
    let Some(whole) = says_whole(&octets[6 + pointer..]) else {
        return None;
    };
    Some(whole)
}
