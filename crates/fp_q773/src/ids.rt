//! The kind and the transaction identifiers in any octets, also if they aren't a message.

ghost use Rattle.std.specs.Prelude.{◌≡◌, ◌<◌, ◌%◌, ℕ, None, List, ◌∷◌, IfSome, IfNone, MatchOption, option_map};
ghost use Rattle.fp_q773.specs.Tid.{octets_of};
ghost use Rattle.fp_q773.specs.Ids.{Stands, Counts, IsMarked, PassesLength, AreIdsIn, AreIds};
ghost use Rattle.fp_q773.specs.declared.kind.Kind.TheVariants as kinds;

use crate::kind::Kind;
use crate::length::length_at;
use crate::tid::Tid;

/// The tag of an originating transaction identifier.
const ORIGINATING: u8 = 0x48;
/// The tag of a destination transaction identifier.
const DESTINATION: u8 = 0x49;

/// The kind and the identifiers in octets that may not be a message.
#[derive(Clone, Copy, Debug, PartialEq, Eq)]
pub struct Ids {
    /// The kind of the message.
    pub kind: Kind,
    /// The sender's identifier of the dialogue.
    pub orig: Option<Tid>,
    /// The receiver's identifier of the dialogue.
    pub dest: Option<Tid>,
}

/// The identifiers in the contents of a message.
#[derive(Clone, Copy)]
struct Found {
    orig: Option<Tid>,
    dest: Option<Tid>,
}

/// An identifier, and the octets after it.
#[derive(Clone, Copy)]
struct Standing<'a> {
    identifier: Tid,
    rest: &'a [u8],
}

/// The octets after this tag, if it is the first octet.
fn behind(octets: &[u8], tag: u8) -> Option<&[u8]>
    ensures { MatchOption result (IsMarked tag octets.now → ⊥) (λ body. octets.now ≡ tag ∷ body.now) }
{
    let [first, body @ ..] = octets else {
        return None;
    };
    if *first != tag {
        return None;
    }
    Some(body)
}

/// The identifier at the front with this tag, and the octets after it.
#[inline(always)]
fn identifier_at(octets: &[u8], tag: u8) -> Option<Standing<'_>>
    ensures some { IfSome result (λ s. Stands tag octets.now (octets_of s.identifier) s.rest.now) }
    ensures none { IfNone result (Counts tag octets.now None) }
{
    let Some(body) = behind(octets, tag) else {
        return None;
    };
    let Some(length) = length_at(body) else {
        return None;
    };
    let Some(size) = length.value else {
        return None;
    };
    if length.rest.len() < size {
        return None;
    }
    let (contents, rest) = length.rest.split_at(size);
    let Some(identifier) = Tid::new(contents) else {
        return None;
    };
    Some(Standing { identifier, rest })
}

/// The identifier at the front with this tag.
#[inline(always)]
fn counted(octets: &[u8], tag: u8) -> Option<Tid>
    ensures { Counts tag octets.now (option_map octets_of result) }
{
    let Some(standing) = identifier_at(octets, tag) else {
        return None;
    };
    Some(standing.identifier)
}

/// The identifiers of a Continue. The destination one counts only after an originating one.
fn continue_ids(octets: &[u8]) -> Found
    ensures { AreIdsIn kinds.Continue octets.now (option_map octets_of result.orig) (option_map octets_of result.dest) }
{
    let Some(originating) = identifier_at(octets, ORIGINATING) else {
        return Found {
            orig: None,
            dest: None,
        };
    };
    Found {
        orig: Some(originating.identifier),
        dest: counted(originating.rest, DESTINATION),
    }
}

/// The identifiers of a message of unknown kind. The originating one may be missing.
fn unknown_ids(octets: &[u8]) -> Found
    ensures { AreIdsIn kinds.Unknown octets.now (option_map octets_of result.orig) (option_map octets_of result.dest) }
{
    if behind(octets, ORIGINATING).is_none() {
        return Found {
            orig: None,
            dest: counted(octets, DESTINATION),
        };
    }
    let Some(originating) = identifier_at(octets, ORIGINATING) else {
        return Found {
            orig: None,
            dest: None,
        };
    };
    Found {
        orig: Some(originating.identifier),
        dest: counted(originating.rest, DESTINATION),
    }
}

/// The identifiers in the contents of a message of this kind.
#[inline(always)]
fn ids_in(kind: Kind, octets: &[u8]) -> Found
    ensures { AreIdsIn kind octets.now (option_map octets_of result.orig) (option_map octets_of result.dest) }
{
    match kind {
        Kind::Unidirectional => Found {
            orig: None,
            dest: None,
        },
        Kind::Begin => Found {
            orig: counted(octets, ORIGINATING),
            dest: None,
        },
        Kind::End | Kind::Abort => Found {
            orig: None,
            dest: counted(octets, DESTINATION),
        },
        Kind::Continue => continue_ids(octets),
        Kind::Unknown => unknown_ids(octets),
    }
}

/// The octets after a tag of one octet, `first`, and the length at the front of `body`. `None` if the tag has further
/// octets or there is no length.
fn contents_of(first: u8, body: &[u8]) -> Option<&[u8]>
    ensures some { IfSome result (λ contents. (first % 32 < 31) × PassesLength body.now contents.now) }
    ensures none { IfNone result ((contents : List ℕ) → first % 32 < 31 → PassesLength body.now contents → ⊥) }
{
    if first % 32 == 31 {
        return None;
    }
    let Some(length) = length_at(body) else {
        return None;
    };
    Some(length.rest)
}

/// The kind of a message and its transaction identifiers, as far as the octets have them (Q.773, 4.2.1). They needn't
/// be a whole message. Takes no memory.
///
/// The first octet decides the kind. Then one length in any form is skipped, even a wrong one. Then follow the
/// identifiers that the kind has: the originating one, tag 48, and the destination one, tag 49. An identifier counts if
/// its length is definite, one to four, and all its octets are there. The first one that doesn't count ends the search.
/// With an unknown kind and a tag of one octet, both are read if they are there. For example, `65 0C 48 04 00 00 00 07`
/// is a Continue with the originating identifier 00 00 00 07.
#[inline(always)]
pub fn ids_of(octets: &[u8]) -> Ids
    ensures { AreIds octets.now result.kind (option_map octets_of result.orig) (option_map octets_of result.dest) }
{
    let [first, body @ ..] = octets else {
        return Ids {
            kind: Kind::Unknown,
            orig: None,
            dest: None,
        };
    };
    let kind = Kind::of(*first);
    let Some(contents) = contents_of(*first, body) else {
        return Ids {
            kind,
            orig: None,
            dest: None,
        };
    };
    let found = ids_in(kind, contents);
    Ids {
        kind,
        orig: found.orig,
        dest: found.dest,
    }
}
