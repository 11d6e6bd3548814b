//! The dialogue that a Begin opens.

ghost use Rattle.std.specs.Prelude.{◌≡◌, ◌↔◌, IsTrue, IfOk, Ok, Contains, option_map};
ghost use Rattle.fp_ber.specs.Lent.{lent_tree};
ghost use Rattle.fp_ber.specs.View.{tree_of};
ghost use Rattle.fp_apdu.specs.declared.opening.Opening.{Opening};
ghost use Rattle.fp_apdu.specs.Opening.{Opens};

use crate::{Name, aarq, dialogue_portion};
use fp_ber::{Element, ElementRef};
use thiserror::Error;

/// The dialogue that a Begin opens by its dialogue portion (Q.773, 4.2.3).
#[derive(Clone, Copy, Debug, PartialEq, Eq)]
pub enum Opening {
    /// A dialogue without application context, as there is no dialogue portion.
    None,
    /// A dialogue with this application context, which is accepted.
    Known(Name),
    /// A dialogue with this application context, which isn't accepted.
    Unknown(Name),
    /// A dialogue with this application context, but the request doesn't offer version 1 of the dialogue portion.
    BadVersion(Name),
}

/// The dialogue portion isn't a request for a dialogue.
#[derive(Clone, Copy, Debug, PartialEq, Eq, Error)]
#[error("a dialogue portion that is no request for a dialogue")]
pub struct Badly;

/// Whether the name is one of the accepted ones.
fn is_among(contexts: &[Name], name: &Name) -> bool
    ensures { IsTrue result ↔ Contains contexts.now name.now }
{
    contexts.contains(name)
}

/// The dialogue that a Begin with this dialogue portion opens, if these application contexts are accepted. Takes no
/// memory.
///
/// A request with a protocol version that lacks version 1 is a [`Opening::BadVersion`], whatever its name. A dialogue
/// portion with anything but one AARQ is [`Badly`]. So is an AARQ whose version is no bit string, or whose name has no
/// octets or more than 64. User information is skipped.
pub fn opening_in(portion: Option<ElementRef<'_>>, contexts: &[Name]) -> Result<Opening, Badly>
    // The answer is an opening of the dialogue portion.
    ensures opens { IfOk result (Opens (option_map lent_tree portion.entry) contexts.now) }

    // An opening of the dialogue portion is the answer.
    ensures only { (opening : Opening)
        → Opens (option_map lent_tree portion.entry) contexts.now opening → result ≡ Ok opening }
{
    let Some(portion) = portion else {
        return Ok(Opening::None);
    };
    let Some(apdu) = dialogue_portion::read(&portion) else {
        return Err(Badly);
    };
    let Some(request) = aarq::read(&apdu) else {
        return Err(Badly);
    };
    if !request.offers_version_1 {
        return Ok(Opening::BadVersion(request.name));
    }
    if is_among(contexts, &request.name) {
        Ok(Opening::Known(request.name))
    } else {
        Ok(Opening::Unknown(request.name))
    }
}

/// Reads the opening in a dialogue portion in memory of its own, as [`opening_in`] does.
pub fn opening_of(portion: Option<&Element>, contexts: &[Name]) -> Result<Opening, Badly>
    // The answer is an opening of the dialogue portion.
    ensures opens { IfOk result (Opens (option_map (λ element. tree_of element.now) portion.entry) contexts.now) }

    // An opening of the dialogue portion is the answer.
    ensures only { (opening : Opening)
        → Opens (option_map (λ element. tree_of element.now) portion.entry) contexts.now opening → result ≡ Ok opening }
{
    let Some(portion) = portion else {
        return opening_in(None, contexts);
    };
    opening_in(Some(ElementRef::Owned(portion)), contexts)
}
