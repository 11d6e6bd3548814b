//! The tag of a run.

ghost use Rattle.std.specs.Prelude.{◌≡◌, ◌≤◌, ◌↔◌, IfSome, IsSome};

use fp_tids::LocalIds;

/// The tag of a run, 0 to 4,094: a part of the local identifiers of its dialogues. 0 for a run
/// without one.
#[derive(Clone, Copy, Debug, PartialEq, Eq)]
pub struct Tag {
    /// The tag.
    pub number: u16,
    ghost known: { number ≤ 4094 },
}

impl Tag {
    /// The tag of this number, or `None` if it is above 4,094.
    pub fn new(number: u16) -> Option<Tag>
        ensures some { IsSome result ↔ (number ≤ LocalIds.LAST_TAG) }
        ensures value { IfSome result (λ tag. tag.number ≡ number) }
    {
        if number > LocalIds::LAST_TAG {
            return None;
        }
        Some(Tag { number })
    }
}
