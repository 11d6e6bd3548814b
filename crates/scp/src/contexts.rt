//! The list of application context names of a command line.

ghost use Rattle.std.specs.Prelude.{◌≡◌, ◌==◌, IfOk, MatchOption, List, ℕ, map, option_map};
ghost use Rattle.std.specs.List.{AllZip, slice_split};
ghost use Rattle.scp.specs.Contexts.{FindsContexts, IsNameText};

use fp_apdu::Name;
use hex::FromHexError;
use std::alloc::{AllocError, Global};

/// The most names of a list.
const MOST: usize = 16;

/// The names of a list. `None` if the text isn't a list of names.
///
/// A list has 1 to 16 names with commas between them. Each is the hexadecimal text, in digits of either case, of the 1
/// to 64 octets of an object identifier, without tag and length. For example, `2A0304,2A0305`. A name may be there
/// twice.
pub(crate) fn contexts_in(alloc: Global, text: &str) -> Result<Option<Vec<Name>>, AllocError>
    ensures { IfOk result (λ names. FindsContexts text.now (option_map (λ list. list.items) names)) }
{
    let pieces = pieces_of(alloc, text)?;
    if pieces.len() > MOST {
        return Ok(None);
    }
    names_of(alloc, pieces.as_slice())
}

/// The pieces of a text between its commas.
fn pieces_of<'a>(alloc: Global, text: &'a str) -> Result<Vec<&'a str>, AllocError>
    ensures { IfOk result (λ pieces. map (λ piece. piece.now) pieces.items
        ≡ slice_split (λ octet. octet == 44) text.now) }
{
    text.split(',').collect(alloc)
}

/// The names of these texts. `None` if one of them isn't the text of a name.
fn names_of(alloc: Global, texts: &[&str]) -> Result<Option<Vec<Name>>, AllocError>
    ensures { IfOk result (λ names. MatchOption names
        ((list : List (List ℕ)) → AllZip IsNameText (map (λ text. text.now) texts.now) list → ⊥)
        (λ list. AllZip IsNameText (map (λ text. text.now) texts.now) list.items)) }
{
    let mut names = Vec::new(alloc);
    for text in texts {
        let Some(name) = name_of(alloc, text)? else {
            return Ok(None);
        };
        names.push(name)?;
    }
    Ok(Some(names))
}

/// The name of a text. `None` if it isn't the text of a name.
fn name_of(alloc: Global, text: &str) -> Result<Option<Name>, AllocError>
    ensures { IfOk result (λ name. MatchOption name
        ((octets : List ℕ) → IsNameText text.now octets → ⊥) (λ octets. IsNameText text.now octets)) }
{
    match hex::decode(alloc, text) {
        Ok(octets) => Ok(Name::new(octets.as_slice())),
        Err(FromHexError::OutOfMemory) => Err(AllocError),
        Err(_) => Ok(None),
    }
}
