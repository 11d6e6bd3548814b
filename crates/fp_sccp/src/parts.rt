//! The parameters of the mandatory variable part.

ghost use Rattle.std.specs.Prelude.{◌≡◌, ◌+◌, ◌<◌, ◌≤◌, IfOk, IfErr, MatchOption, length};
ghost use Rattle.fp_sccp.specs.Fault.{LacksPart};
ghost use Rattle.fp_sccp.specs.Parts.{HasPart, HasParts, IsPartSize, part_of};

use crate::SccpFault;

/// The parameter that the pointer at this position leads to. `None` if it begins within the head, has no octet, or
/// isn't whole.
pub(crate) fn part(octets: &[u8], head: usize, at: usize) -> Option<&[u8]>
    requires head { head ≤ length octets.now }
    requires at { at < head }
    ensures { MatchOption result (¬ HasPart octets.now head at)
        (λ part. HasPart octets.now head at × (part.now ≡ part_of octets.now at) × IsPartSize part.now) }
{
    let pointer = usize::from(octets[at]);
    if at + pointer < head || octets.len() - at <= pointer {
        return None;
    }
    let place = at + pointer;
    let length = usize::from(octets[place]);
    if length == 0 || octets.len() - place - 1 < length {
        return None;
    }
    Some(&octets[place + 1..place + 1 + length])
}

/// The three parameters of a message.
#[derive(Clone, Copy, Debug)]
pub(crate) struct Parts<'a> {
    pub(crate) called: &'a [u8],
    pub(crate) calling: &'a [u8],
    pub(crate) user_data: &'a [u8],
}

/// The three parameters of a message. `head` is the length of its head, `first` the position of its first pointer. The
/// error names the first parameter that isn't there.
pub(crate) fn read_parts(octets: &[u8], head: usize, first: usize) -> Result<Parts<'_>, SccpFault>
    requires head { head ≤ length octets.now }
    requires pointers { first + 3 ≤ head }
    ensures found { IfOk result (λ parts.
        HasParts octets.now head first parts.called.now parts.calling.now parts.user_data.now) }
    ensures sizes { IfOk result (λ parts.
        IsPartSize parts.called.now × IsPartSize parts.calling.now × IsPartSize parts.user_data.now) }
    ensures fault { IfErr result (LacksPart octets.now head first) }
{
    let Some(called) = part(octets, head, first) else {
        return Err(SccpFault::CalledAddress);
    };
    let Some(calling) = part(octets, head, first + 1) else {
        return Err(SccpFault::CallingAddress);
    };
    let Some(user_data) = part(octets, head, first + 2) else {
        return Err(SccpFault::UserData);
    };
    Ok(Parts {
        called,
        calling,
        user_data,
    })
}
