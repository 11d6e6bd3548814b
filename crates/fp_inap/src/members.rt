//! The members of a sequence, by their context tags and in any order.

ghost use Rattle.std.specs.Prelude.{◌≡◌, ◌≤◌, ℕ, List, [], ◌∷◌, Option, Some, None, IfOk, IfErr, IfSome, IfNone, IsTrue, length, option_map};
ghost use Rattle.fp_ber.specs.Tree.{Trees};
ghost use Rattle.fp_ber.specs.Lent.{lent_tree, lent_trees};
ghost use Rattle.fp_inap.specs.Members.{AllContext, IsSequence, HoldsOctets, HoldsMembers, IsOctet, with_number};
ghost use Rattle.fp_inap.specs.View.{octets_in, forest_in, found_in};

use crate::mistyped::Mistyped;
use fp_ber::universal::SEQUENCE;
use fp_ber::{Class, ElementRef, Elements};

/// The members of a sequence, each with a tag of the context class.
#[derive(Clone, Copy)]
pub(crate) struct Members<'a> {
    pub(crate) elements: Elements<'a>,
}

impl<'a> Members<'a> {
    /// The members, if every element has a tag of the context class.
    pub(crate) fn new(elements: Elements<'a>) -> Result<Members<'a>, Mistyped>
        ensures ok { IfOk result (λ members. (members.elements ≡ elements.entry) × AllContext (lent_trees elements.entry)) }
        ensures err { IfErr result (λ _. AllContext (lent_trees elements.entry) → ⊥) }
    {
        if are_context(&elements) {
            Ok(Members { elements })
        } else {
            Err(Mistyped)
        }
    }

    /// The members of a sequence.
    pub(crate) fn of_sequence(argument: &ElementRef<'a>) -> Result<Members<'a>, Mistyped>
        ensures ok { IfOk result (λ members. IsSequence (lent_tree argument.now) (lent_trees members.elements)) }
        ensures err { IfErr result (λ _. (members : Trees) → IsSequence (lent_tree argument.now) members → ⊥) }
    {
        let Some(elements) = argument.children_with_tag(Class::Universal, SEQUENCE) else {
            return Err(Mistyped);
        };
        Members::new(elements)
    }

    /// The only member with this number, if there is one. Two are a fault.
    fn only(&self, number: u16) -> Result<Option<ElementRef<'a>>, Mistyped>
        ensures ok { IfOk result (λ found. with_number number (lent_trees self.now.elements) ≡ found_in found) }
        ensures err { IfErr result (λ _. 2 ≤ length (with_number number (lent_trees self.now.elements))) }
    {
        let mut found = None;
        let mut left = self.elements;
        'members: while let Some(split) = left.split_first() {
            if split.first.number() == number {
                if found.is_some() {
                    return Err(Mistyped);
                }
                found = Some(split.first);
            }
            left = split.rest;
        }
        Ok(found)
    }

    /// The octets of the only member with this number, if there is one. Two are a fault, and so is a constructed one.
    pub(crate) fn octets(&self, number: u16) -> Result<Option<&'a [u8]>, Mistyped>
        requires { AllContext (lent_trees self.now.elements) }
        ensures ok { IfOk result (λ octets. HoldsOctets (lent_trees self.now.elements) number (octets_in octets)) }
        ensures err { IfErr result (λ _. (octets : Option (List ℕ))
            → HoldsOctets (lent_trees self.now.elements) number octets → ⊥) }
    {
        let found = self.only(number)?;
        self.octets_in(number, found)
    }

    /// The octets of the one member with this number, which was found, if there is one. A constructed one is a fault.
    pub(crate) fn octets_in(
        &self,
        number: u16,
        found: Option<ElementRef<'a>>,
    ) -> Result<Option<&'a [u8]>, Mistyped>
        requires context { AllContext (lent_trees self.now.elements) }
        requires found { with_number number (lent_trees self.now.elements) ≡ found_in found }
        ensures ok { IfOk result (λ octets. HoldsOctets (lent_trees self.now.elements) number (octets_in octets)) }
        ensures err { IfErr result (λ _. (octets : Option (List ℕ))
            → HoldsOctets (lent_trees self.now.elements) number octets → ⊥) }
    {
        let Some(element) = found else {
            return Ok(None);
        };
        let Some(octets) = element.octets() else {
            return Err(Mistyped);
        };
        Ok(Some(octets))
    }

    /// The elements in the only member with this number, if there is one. Two are a fault, and so is a primitive one.
    pub(crate) fn members(&self, number: u16) -> Result<Option<Elements<'a>>, Mistyped>
        requires { AllContext (lent_trees self.now.elements) }
        ensures ok { IfOk result (λ members. HoldsMembers (lent_trees self.now.elements) number (forest_in members)) }
        ensures err { IfErr result (λ _. (members : Option Trees)
            → HoldsMembers (lent_trees self.now.elements) number members → ⊥) }
    {
        let Some(element) = self.only(number)? else {
            return Ok(None);
        };
        let Some(members) = element.children() else {
            return Err(Mistyped);
        };
        Ok(Some(members))
    }
}

/// Whether every element has a tag of the context class.
fn are_context(elements: &Elements<'_>) -> bool
    ensures yes { IsTrue result → AllContext (lent_trees elements.now) }
    ensures no { AllContext (lent_trees elements.now) → IsTrue result }
{
    let mut left = *elements;
    'members: while let Some(split) = left.split_first() {
        if split.first.class() != Class::Context {
            return false;
        }
        left = split.rest;
    }
    true
}

/// The octet of a member that must have just one, if the member is there. Any other number of octets is a fault.
pub(crate) fn octet_in(octets: Option<&[u8]>) -> Result<Option<u8>, Mistyped>
    ensures ok { IfOk result (λ octet. IsOctet (octets_in octets.entry) octet) }
    ensures err { IfErr result (λ _. (octet : Option ℕ) → IsOctet (octets_in octets.entry) octet → ⊥) }
{
    match octets {
        None => Ok(None),
        Some([octet]) => Ok(Some(*octet)),
        Some(_) => Err(Mistyped),
    }
}
