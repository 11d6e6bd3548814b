//! The request for a dialogue, AARQ (Q.773, 4.2.3).

ghost use Rattle.std.specs.Prelude.{◌≡◌, ◌↔◌, ℕ, List, Option, IsTrue, MatchOption};
ghost use Rattle.fp_ber.specs.Tree.{Trees, more};
ghost use Rattle.fp_ber.specs.Lent.{lent_tree, lent_trees};
ghost use Rattle.fp_apdu.specs.Aarq.{IsAarq, user_information};
ghost use Rattle.fp_apdu.specs.Name.{IsName, application_context_name};
ghost use Rattle.fp_apdu.specs.ProtocolVersion.{OffersVersion1};

use crate::bit_string::first_bit;
use crate::{Name, context_name, protocol_version};
use fp_ber::{Class, ElementRef, Elements};

/// The number of the application tag of an AARQ.
const AARQ: u16 = 0;
/// The number of the context tag of user information.
const USER_INFORMATION: u16 = 30;

/// The fields of an AARQ.
#[derive(Clone, Copy)]
pub(crate) struct Aarq {
    /// Whether the AARQ offers version 1: by its protocol version, or because it has none.
    pub(crate) offers_version_1: bool,
    /// The application context name.
    pub(crate) name: Name,
}

/// Whether these are user information, or nothing. The contents of user information aren't read.
fn is_user_information(members: &Elements<'_>) -> bool
    ensures { IsTrue result ↔ ((information : Option Trees) × (lent_trees members.now ≡ user_information information)) }
{
    let Some(split) = members.split_first() else {
        return true;
    };
    if !split.rest.is_empty() {
        return false;
    }
    split
        .first
        .children_with_tag(Class::Context, USER_INFORMATION)
        .is_some()
}

/// Reads the name from the members of an AARQ after its protocol version.
fn name_in(members: &Elements<'_>) -> Option<Name>
    ensures { MatchOption result
        ((name : List ℕ) (information : Option Trees) → IsName name
        → lent_trees members.now ≡ more (application_context_name name) (user_information information) → ⊥)
        (λ name. IsName name × ((information : Option Trees)
        × (lent_trees members.now ≡ more (application_context_name name) (user_information information)))) }
{
    let split = members.split_first()?;
    let name = context_name::read(&split.first)?;
    if !is_user_information(&split.rest) {
        return None;
    }
    Some(name)
}

/// Reads an AARQ; `None` for any other element.
pub(crate) fn read(apdu: &ElementRef<'_>) -> Option<Aarq>
    ensures { MatchOption result
        ((version : Option (List ℕ)) (name : List ℕ) → IsAarq (lent_tree apdu.now) version name → ⊥)
        (λ aarq. (version : Option (List ℕ)) × IsAarq (lent_tree apdu.now) version aarq.name
        × (IsTrue aarq.offers_version_1 ↔ OffersVersion1 version)) }
{
    let members = apdu.children_with_tag(Class::Application, AARQ)?;
    let split = members.split_first()?;
    match protocol_version::read(&split.first) {
        Some(version) => {
            let offers_version_1 = first_bit(version)?;
            let name = name_in(&split.rest)?;
            Some(Aarq {
                offers_version_1,
                name,
            })
        }
        None => {
            let name = name_in(&members)?;
            Some(Aarq {
                offers_version_1: true,
                name,
            })
        }
    }
}
