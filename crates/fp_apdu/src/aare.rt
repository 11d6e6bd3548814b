//! The answer to a request for a dialogue, AARE (Q.773, 4.2.3).

ghost use Rattle.std.specs.Prelude.{◌≡◌, ◌+◌, ◌++◌, length, OnOk, OnErr};
ghost use Rattle.fp_ber.specs.Canon.{canon, HasLengths};
ghost use Rattle.fp_ber.specs.Putting.{EndsWith};
ghost use Rattle.fp_ber.specs.declared.element.Class.TheVariants as classes;
ghost use Rattle.fp_ber.specs.Tree.{HasTags, constructed, more, none};
ghost use Rattle.fp_apdu.specs.Aare.{aare, integer};
ghost use Rattle.fp_apdu.specs.DialoguePortion.{dialogue_portion};
ghost use Rattle.fp_apdu.specs.Verdict.{associate_result, diagnostic, source};

use crate::{Name, Verdict, context_name, dialogue_portion, protocol_version};
use fp_ber::universal::INTEGER;
use fp_ber::{Class, Writer};
use std::alloc::AllocError;

/// The number of the application tag of an AARE.
const AARE: u16 = 1;
/// The number of the context tag of a result.
const RESULT: u16 = 2;
/// The number of the context tag of a result's source and diagnostic.
const RESULT_SOURCE_DIAGNOSTIC: u16 = 3;

/// Puts an integer of one octet before the octets in the writer.
fn write_integer(octet: u8, out: &mut Writer) -> Result<(), AllocError>
    ensures ok { OnOk result (out.new ≡ canon (integer octet) ++ out.old) }
    ensures stays { EndsWith out.new out.old }
{
    out.put_primitive(Class::Universal, INTEGER, &[octet])
}

/// Puts the result of a verdict before the octets in the writer.
fn write_result(verdict: Verdict, out: &mut Writer) -> Result<(), AllocError>
    ensures ok { OnOk result (out.new ≡ canon (constructed classes.Context 2
        (more (integer (associate_result verdict)) none)) ++ out.old) }
    ensures stays { EndsWith out.new out.old }
{
    let behind = out.len();
    write_integer(verdict.result(), out)?;
    out.put_constructed(Class::Context, RESULT, behind)
}

/// Puts the diagnostic of a verdict, in the tag of its source, before the octets in the writer.
fn write_source(verdict: Verdict, out: &mut Writer) -> Result<(), AllocError>
    ensures ok { OnOk result (out.new ≡ canon (constructed classes.Context (source verdict)
        (more (integer (diagnostic verdict)) none)) ++ out.old) }
    ensures stays { EndsWith out.new out.old }
{
    let behind = out.len();
    write_integer(verdict.diagnostic(), out)?;
    out.put_constructed(Class::Context, verdict.source(), behind)
}

/// Puts the result source and diagnostic of a verdict before the octets in the writer.
fn write_diagnostic(verdict: Verdict, out: &mut Writer) -> Result<(), AllocError>
    ensures ok { OnOk result (out.new ≡ canon (constructed classes.Context 3
        (more (constructed classes.Context (source verdict) (more (integer (diagnostic verdict)) none))
        none)) ++ out.old) }
    ensures stays { EndsWith out.new out.old }
{
    let behind = out.len();
    write_source(verdict, out)?;
    out.put_constructed(Class::Context, RESULT_SOURCE_DIAGNOSTIC, behind)
}

/// Puts the AARE of a verdict, with this application context name, before the octets in the writer.
fn write_apdu(name: &[u8], verdict: Verdict, out: &mut Writer) -> Result<(), AllocError>
    ensures ok { OnOk result (out.new ≡ canon (aare name.now verdict) ++ out.old) }
    ensures stays { EndsWith out.new out.old }
{
    let behind = out.len();
    write_diagnostic(verdict, out)?;
    write_result(verdict, out)?;
    context_name::write(name, out)?;
    protocol_version::write(out)?;
    out.put_constructed(Class::Application, AARE, behind)
}

/// Puts the dialogue portion that answers a request for a dialogue before the octets in the writer: an AARE of version
/// 1 with the name of the request and this verdict. Its length is 37 octets plus the length of the name. If memory runs
/// out, the octets are unchanged.
pub fn write_aare(name: &Name, verdict: Verdict, out: &mut Writer) -> Result<(), AllocError>
    ensures ok { OnOk result (out.new ≡ canon (dialogue_portion (aare name.now verdict)) ++ out.old) }
    ensures err { OnErr result (out.new ≡ out.old) }

    // The tags and lengths of the dialogue portion are in range.
    ensures tags { HasTags (dialogue_portion (aare name.now verdict)) }
    ensures lengths { HasLengths (dialogue_portion (aare name.now verdict)) }
    ensures size { length (canon (dialogue_portion (aare name.now verdict))) ≡ 37 + length name.now }
{
    let name = name.as_slice();
    let behind = out.len();
    if write_apdu(name, verdict, out).is_err() || dialogue_portion::write(behind, out).is_err() {
        out.keep_last(behind);
        return Err(AllocError);
    }
    Ok(())
}
