//! The abort of a dialogue, ABRT (Q.773, 4.2.3).

ghost use Rattle.std.specs.Prelude.{◌≡◌, ◌++◌, length, OnOk, OnErr};
ghost use Rattle.fp_ber.specs.Canon.{canon, HasLengths};
ghost use Rattle.fp_ber.specs.Putting.{EndsWith};
ghost use Rattle.fp_ber.specs.Tree.{HasTags};
ghost use Rattle.fp_apdu.specs.Abrt.{abrt};
ghost use Rattle.fp_apdu.specs.DialoguePortion.{dialogue_portion};

use crate::dialogue_portion;
use fp_ber::{Class, Writer};
use std::alloc::AllocError;

/// The number of the application tag of an ABRT.
const ABRT: u16 = 4;
/// The number of the context tag of the source of an abort.
const ABORT_SOURCE: u16 = 0;
/// The source of an abort by the dialogue service user.
const DIALOGUE_SERVICE_USER: u8 = 0;

/// Puts the ABRT of an abort by the dialogue service user before the octets in the writer.
fn write_apdu(out: &mut Writer) -> Result<(), AllocError>
    ensures ok { OnOk result (out.new ≡ canon abrt ++ out.old) }
    ensures stays { EndsWith out.new out.old }
{
    let behind = out.len();
    out.put_primitive(Class::Context, ABORT_SOURCE, &[DIALOGUE_SERVICE_USER])?;
    out.put_constructed(Class::Application, ABRT, behind)
}

/// Puts the dialogue portion of an abort by the dialogue service user, an ABRT, before the octets in the writer. It has
/// 20 octets. If memory runs out, the octets are unchanged.
pub fn write_abrt(out: &mut Writer) -> Result<(), AllocError>
    ensures ok { OnOk result (out.new ≡ canon (dialogue_portion abrt) ++ out.old) }
    ensures err { OnErr result (out.new ≡ out.old) }

    // The tags and lengths of the dialogue portion are in range.
    ensures tags { HasTags (dialogue_portion abrt) }
    ensures lengths { HasLengths (dialogue_portion abrt) }
    ensures size { length (canon (dialogue_portion abrt)) ≡ 20 }
{
    let behind = out.len();
    if write_apdu(out).is_err() || dialogue_portion::write(behind, out).is_err() {
        out.keep_last(behind);
        return Err(AllocError);
    }
    Ok(())
}
