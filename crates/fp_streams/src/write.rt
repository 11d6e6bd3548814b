//! Writing octets, in one or more writes.

ghost use Rattle.std.specs.Io.KnownBytes.{Appends};
ghost use Rattle.std.specs.Prelude.{OnErr, OnOk};
ghost use Rattle.fp_streams.specs.Device.{CountsFailure};
ghost use Rattle.fp_streams.specs.Write.{AppendsFront, AppendsPart};

use crate::{LinkWrite, WriteFault};

/// Writes these octets and nothing else. A fault means that the device failed; a prefix of the octets was written.
pub fn write_all<W: LinkWrite>(writer: &mut W, octets: &[u8]) -> Result<(), WriteFault>
    ensures written { OnOk result (Appends (W.contents writer.old) (W.contents writer.new) octets.now) }
    ensures front { OnErr result (AppendsFront (W.contents writer.old) (W.contents writer.new) octets.now) }
    ensures part { OnErr result (AppendsPart (W.contents writer.old) (W.contents writer.new) octets.now) }
    ensures failure { CountsFailure result (W.failures writer.old) (W.failures writer.new) }
{
    let mut at = 0;
    while at < octets.len() {
        let Ok(count) = writer.write(&octets[at..]) else {
            return Err(WriteFault);
        };
        at += count;
    }
    Ok(())
}
