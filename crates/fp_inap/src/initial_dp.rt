//! InitialDP: reading its argument.

ghost use Rattle.std.specs.Prelude.{◌≡◌, ◌∷◌, [], ℕ, List, Option, pos, Ok, IfOk, IfErr, IfSome};
ghost use Rattle.fp_ber.specs.Lent.{lent_tree};
ghost use Rattle.fp_ber.specs.View.{tree_of};
ghost use Rattle.fp_inap.specs.declared.initial_dp.InitialDp.{InitialDp};
ghost use Rattle.fp_inap.specs.Event.{IsByName};
ghost use Rattle.fp_inap.specs.InitialDp.{IsInitialDp, IsKey, number_in};
ghost use Rattle.fp_inap.specs.View.{octets_in};

use crate::event::Event;
use crate::initial_dp_parts::parts_of;
use crate::members::{Members, octet_in};
use crate::mistyped::Mistyped;
use fp_ber::{Element, ElementRef, integer_of};
use fp_digits::{Number, read_called, read_calling};

// The numbers of the context tags of the members.

pub(crate) const SERVICE_KEY: u16 = 0;

pub(crate) const CALLED_PARTY_NUMBER: u16 = 2;

pub(crate) const CALLING_PARTY_NUMBER: u16 = 3;

pub(crate) const CALLING_PARTYS_CATEGORY: u16 = 5;

pub(crate) const EVENT_TYPE_BCSM: u16 = 28;

/// The contents of the argument of InitialDP (after ITU-T Q.1218). `None` means that the part is absent.
#[derive(Clone, Copy, Debug, PartialEq, Eq)]
pub struct InitialDp {
    /// The service key: the requested service, 0 to 2,147,483,647.
    pub key: Option<u32>,
    /// The called party number (Q.763, 3.9).
    pub called: Option<Number>,
    /// The calling party number (Q.763, 3.10).
    pub calling: Option<Number>,
    /// The calling party's category (Q.763, 3.11).
    pub category: Option<u8>,
    /// The detection point of the call, eventTypeBCSM.
    pub event: Option<Event>,
}

/// Reads the argument of InitialDP (after ITU-T Q.1218). Takes no memory.
///
/// The argument is a sequence of members with context tags, in any order. Each of these may occur at most once, and
/// must be primitive: serviceKey, tag 0, an integer of one to four octets, not negative; calledPartyNumber, tag 2;
/// callingPartyNumber, tag 3; callingPartysCategory, tag 5, one octet; eventTypeBCSM, tag 28, one octet. Members with
/// other context tags are skipped. Any other element is [`Mistyped`]. Octets without a number (see [`read_called`]) are
/// no error: the number is absent. An event with a name is returned by its name.
#[inline(always)]
pub fn initial_dp_in(argument: &ElementRef<'_>) -> Result<InitialDp, Mistyped>
    ensures ok { IfOk result (IsInitialDp (lent_tree argument.now)) }
    ensures only { (dp : InitialDp) → IsInitialDp (lent_tree argument.now) dp → result ≡ Ok dp }
    ensures named { IfOk result (λ dp. IfSome dp.event IsByName) }
{
    initial_dp_of(argument)
}

/// Reads the argument of InitialDP from an element in memory of its own, as [`initial_dp_in`] does.
pub fn read_initial_dp(argument: &Element) -> Result<InitialDp, Mistyped>
    ensures ok { IfOk result (IsInitialDp (tree_of argument.now)) }
    ensures only { (dp : InitialDp) → IsInitialDp (tree_of argument.now) dp → result ≡ Ok dp }
    ensures named { IfOk result (λ dp. IfSome dp.event IsByName) }
{
    initial_dp_in(&ElementRef::Owned(argument))
}

/// Reads the argument of InitialDP, as [`initial_dp_in`] does.
#[inline(always)]
fn initial_dp_of(argument: &ElementRef<'_>) -> Result<InitialDp, Mistyped>
    ensures ok { IfOk result (IsInitialDp (lent_tree argument.now)) }
    ensures err { IfErr result (λ _. (dp : InitialDp) → IsInitialDp (lent_tree argument.now) dp → ⊥) }
    ensures named { IfOk result (λ dp. IfSome dp.event IsByName) }
{
    let members = Members::of_sequence(argument)?;
    let parts = parts_of(&members.elements)?;
    let key = key_in(members.octets_in(SERVICE_KEY, parts.key)?)?;
    let called = members.octets_in(CALLED_PARTY_NUMBER, parts.called)?;
    let calling = members.octets_in(CALLING_PARTY_NUMBER, parts.calling)?;
    let category = octet_in(members.octets_in(CALLING_PARTYS_CATEGORY, parts.category)?)?;
    let event = octet_in(members.octets_in(EVENT_TYPE_BCSM, parts.event)?)?;
    Ok(InitialDp {
        key,
        called: called_in(called),
        calling: calling_in(calling),
        category,
        event: event.map(Event::from_code),
    })
}

/// The integer in these octets, if they are there. A negative one is a fault.
fn key_in(octets: Option<&[u8]>) -> Result<Option<u32>, Mistyped>
    ensures ok { IfOk result (IsKey (octets_in octets.entry)) }
    ensures err { IfErr result (λ _. (key : Option ℕ) → IsKey (octets_in octets.entry) key → ⊥) }
{
    let Some(octets) = octets else {
        return Ok(None);
    };
    let Some(key) = integer_of(octets) else {
        return Err(Mistyped);
    };
    let Ok(key) = u32::try_from(key) else {
        return Err(Mistyped);
    };
    Ok(Some(key))
}

/// The called party number in these octets, if there is one.
#[inline(always)]
fn called_in(octets: Option<&[u8]>) -> Option<Number>
    ensures { result ≡ number_in (octets_in octets.entry) }
{
    let Some(octets) = octets else {
        return None;
    };
    read_called(octets).ok()
}

/// The calling party number in these octets, if there is one.
#[inline(always)]
fn calling_in(octets: Option<&[u8]>) -> Option<Number>
    ensures { result ≡ number_in (octets_in octets.entry) }
{
    let Some(octets) = octets else {
        return None;
    };
    read_calling(octets).ok()
}
