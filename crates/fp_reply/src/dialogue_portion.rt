//! The dialogue portion of a message.

ghost use Rattle.std.specs.Prelude.{◌≡◌, ◌++◌, OnOk, Some};
ghost use Rattle.fp_apdu.specs.Aare.{aare};
ghost use Rattle.fp_apdu.specs.DialoguePortion as portion;
ghost use Rattle.fp_ber.specs.Canon.{canon_of_all};
ghost use Rattle.fp_q773.specs.Writable.{only};
ghost use Rattle.fp_reply.specs.Part.{IsDialoguePortion};
ghost use Rattle.fp_reply.specs.Reply.{abort_portion, acceptance_portion};

use fp_apdu::{Name, Verdict, write_aare, write_abrt};
use fp_ber::Writer;
use fp_service::AbortPortion;
use std::alloc::AllocError;

/// Puts the AARE with this verdict on an application context name.
fn write_answer(name: Name, verdict: Verdict, out: &mut Writer) -> Result<(), AllocError>
    ensures exact { OnOk result (out.new ≡ canon_of_all (only (Some (portion.dialogue_portion (aare name verdict)))) ++ out.old) }
    ensures portion { OnOk result (IsDialoguePortion (Some (portion.dialogue_portion (aare name verdict)))) }
{
    write_aare(&name, verdict, out)
}

/// Puts the AARE that accepts a dialogue with this application context name, if there is one.
pub(crate) fn write_acceptance(name: Option<Name>, out: &mut Writer) -> Result<(), AllocError>
    ensures exact { OnOk result (out.new ≡ canon_of_all (only (acceptance_portion name)) ++ out.old) }
    ensures portion { OnOk result (IsDialoguePortion (acceptance_portion name)) }
{
    match name {
        Some(name) => write_answer(name, Verdict::Accepted, out),
        None => Ok(()),
    }
}

/// Puts the dialogue portion of an Abort, if it has one.
pub(crate) fn write_abort_portion(
    portion: &AbortPortion,
    out: &mut Writer,
) -> Result<(), AllocError>
    ensures exact { OnOk result (out.new ≡ canon_of_all (only (abort_portion portion.now)) ++ out.old) }
    ensures portion { OnOk result (IsDialoguePortion (abort_portion portion.now)) }
{
    match portion {
        AbortPortion::Absent => Ok(()),
        AbortPortion::Abrt => write_abrt(out),
        AbortPortion::NoName(name) => write_answer(*name, Verdict::NoName, out),
        AbortPortion::NoVersion(name) => write_answer(*name, Verdict::NoVersion, out),
    }
}
