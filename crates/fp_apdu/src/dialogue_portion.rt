//! The dialogue portion of structured dialogue around one APDU (Q.773, 4.2.3).

ghost use Rattle.std.specs.Prelude.{◌≡◌, ◌++◌, ℕ, List, MatchOption, OnOk, length};
ghost use Rattle.fp_ber.specs.Canon.{canon};
ghost use Rattle.fp_ber.specs.Putting.{EndsWith};
ghost use Rattle.fp_ber.specs.Tree.{Tree};
ghost use Rattle.fp_ber.specs.Lent.{lent_tree};
ghost use Rattle.fp_apdu.specs.DialoguePortion.{external, dialogue_portion};

use crate::members::{only, only_in};
use crate::object_identifier;
use fp_ber::universal::EXTERNAL;
use fp_ber::{Class, ElementRef, Writer};
use std::alloc::AllocError;

/// The number of the application tag of a dialogue portion.
const DIALOGUE_PORTION: u16 = 11;
/// The number of the context tag of the encoding as a single ASN.1 type.
const SINGLE_ASN1_TYPE: u16 = 0;

/// The object identifier of the abstract syntax of dialogue APDUs,
/// {itu-t recommendation q 773 as(1) dialogue-as(1) version1(1)}.
const DIALOGUE_AS: [u8; 7] = [0x00, 0x11, 0x86, 0x05, 0x01, 0x01, 0x01];

/// Reads the APDU in an EXTERNAL (X.690, 8.18).
fn in_external<'a>(element: &ElementRef<'a>) -> Option<ElementRef<'a>>
    ensures { MatchOption result ((apdu : Tree) → lent_tree element.now ≡ external apdu → ⊥)
        (λ apdu. lent_tree element.now ≡ external (lent_tree apdu)) }
{
    let members = element.children_with_tag(Class::Universal, EXTERNAL)?;
    let split = members.split_first()?;
    let reference = object_identifier::read(&split.first)?;
    if reference != DIALOGUE_AS.as_slice() {
        return None;
    }
    let encoding = only(&split.rest)?;
    only_in(&encoding, Class::Context, SINGLE_ASN1_TYPE)
}

/// Reads the APDU in a dialogue portion of structured dialogue.
pub(crate) fn read<'a>(portion: &ElementRef<'a>) -> Option<ElementRef<'a>>
    ensures { MatchOption result ((apdu : Tree) → lent_tree portion.now ≡ dialogue_portion apdu → ⊥)
        (λ apdu. lent_tree portion.now ≡ dialogue_portion (lent_tree apdu)) }
{
    let external = only_in(portion, Class::Application, DIALOGUE_PORTION)?;
    in_external(&external)
}

/// Completes a dialogue portion. You must first put its APDU; the last `behind` octets, which were there before, lie
/// after the portion.
pub(crate) fn write(behind: usize, out: &mut Writer) -> Result<(), AllocError>
    requires { (apdu : Tree) × (rest : List ℕ) × (out.old ≡ canon apdu ++ rest) × (length rest ≡ behind) }
    ensures ok { (apdu : Tree) (rest : List ℕ) → out.old ≡ canon apdu ++ rest → length rest ≡ behind
        → OnOk result (out.new ≡ canon (dialogue_portion apdu) ++ rest) }
    ensures stays { EndsWith out.new out.old }
{
    out.put_constructed(Class::Context, SINGLE_ASN1_TYPE, behind)?;
    object_identifier::write(&DIALOGUE_AS, out)?;
    out.put_constructed(Class::Universal, EXTERNAL, behind)?;
    out.put_constructed(Class::Application, DIALOGUE_PORTION, behind)
}
