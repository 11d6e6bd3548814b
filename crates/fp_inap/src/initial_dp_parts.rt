//! The members of an InitialDP that are read, found by going through all members once.

ghost use Rattle.std.specs.Prelude.{◌≡◌, ◌∷◌, ◌++◌, [], OnOk, OnErr, IfOk, IfErr, length};
ghost use Rattle.fp_ber.specs.Lent.{lent_tree, lent_trees};
ghost use Rattle.fp_inap.specs.InitialDpParts.{Adds, AreParts, HasRoom, IsOneEach};
ghost use Rattle.fp_inap.specs.View.{found_in};

use crate::initial_dp::{
    CALLED_PARTY_NUMBER, CALLING_PARTY_NUMBER, CALLING_PARTYS_CATEGORY, EVENT_TYPE_BCSM,
    SERVICE_KEY,
};
use crate::mistyped::Mistyped;
use fp_ber::{ElementRef, Elements};

/// The members that are read, each if it is there.
#[derive(Clone, Copy)]
pub(crate) struct Parts<'a> {
    pub(crate) key: Option<ElementRef<'a>>,
    pub(crate) called: Option<ElementRef<'a>>,
    pub(crate) calling: Option<ElementRef<'a>>,
    pub(crate) category: Option<ElementRef<'a>>,
    pub(crate) event: Option<ElementRef<'a>>,
}

/// Puts a member in a place. `Err`: there is one already.
fn fill<'a>(place: &mut Option<ElementRef<'a>>, member: ElementRef<'a>) -> Result<(), Mistyped>
    ensures ok { OnOk result (found_in place.new ≡ found_in place.old ++ lent_tree member.entry ∷ []) }
    ensures err { OnErr result (length (found_in place.old) ≡ 1) }
{
    if place.is_some() {
        return Err(Mistyped);
    }
    *place = Some(member);
    Ok(())
}

/// Puts a member in its place, if it is one that is read. `Err`: there is one already.
fn put<'a>(parts: &mut Parts<'a>, member: ElementRef<'a>) -> Result<(), Mistyped>
    ensures ok { OnOk result (Adds parts.old (lent_tree member.entry) parts.new) }
    ensures err { OnErr result (HasRoom parts.old (lent_tree member.entry) → ⊥) }
{
    match member.number() {
        SERVICE_KEY => fill(&mut parts.key, member),
        CALLED_PARTY_NUMBER => fill(&mut parts.called, member),
        CALLING_PARTY_NUMBER => fill(&mut parts.calling, member),
        CALLING_PARTYS_CATEGORY => fill(&mut parts.category, member),
        EVENT_TYPE_BCSM => fill(&mut parts.event, member),
        _ => Ok(()),
    }
}

/// The members that are read. Two with one number are a fault.
#[inline(always)]
pub(crate) fn parts_of<'a>(members: &Elements<'a>) -> Result<Parts<'a>, Mistyped>
    ensures ok { IfOk result (AreParts (lent_trees members.now)) }
    ensures err { IfErr result (λ _. IsOneEach (lent_trees members.now) → ⊥) }
{
    let mut parts = Parts {
        key: None,
        called: None,
        calling: None,
        category: None,
        event: None,
    };
    let mut left = *members;
    'members: while let Some(split) = left.split_first() {
        put(&mut parts, split.first)?;
        left = split.rest;
    }
    Ok(parts)
}
