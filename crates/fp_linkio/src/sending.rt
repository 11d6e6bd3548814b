//! The loop that writes a link.

ghost use Rattle.std.specs.Prelude.{OnErr, OnOk};
ghost use Rattle.std.specs.Io.KnownBytes.{Appends};
ghost use Rattle.fp_streams.specs.Device.{CountsFailure};
ghost use Rattle.fp_streams.specs.Write.{AppendsPart};
ghost use Rattle.fp_book.specs.Parcel.{octets_in};
ghost use Rattle.fp_linkio.specs.Sending.{Sends, WriterFailed};

use crate::{Ended, LinkWrite, Outlet};
use fp_book::Parcel;
use fp_streams::{WriteFault, write_all};

/// Writes the parcels of an outlet, and reports each as sent after it. A parcel and its head are one write, if the
/// device takes it whole (cases show this). There are at most `turns` parcels. This doesn't flush: if the writer has a
/// buffer, you must flush it, in the outlet or after the call.
///
/// [`Ended::EndOfInput`]: the outlet has no more parcels. [`Ended::WriteFault`]: the writer failed. A prefix of the
/// last parcel was written, but not all of it, and it was reported unsent. [`Ended::TurnLimit`]: `turns` parcels were
/// sent. A parcel that a report returns is abandoned.
pub fn send_loop<W: LinkWrite, O: Outlet>(writer: &mut W, turns: u64, outlet: &mut O) -> Ended
    ensures sends { Sends turns (W.contents writer.old) (W.contents writer.new)
        (O.calls outlet.old) (O.calls outlet.new) result }
    ensures failure { WriterFailed result (W.failures writer.old) (W.failures writer.new) }
{
    for _turn in 0..turns {
        let Some(parcel) = outlet.pick() else {
            return Ended::EndOfInput;
        };
        match write_parcel(writer, &parcel) {
            Ok(()) => abandon_foreign(outlet.sent(parcel)),
            Err(WriteFault) => {
                abandon_foreign(outlet.unsent(parcel));
                return Ended::WriteFault;
            }
        }
    }
    Ended::TurnLimit
}

/// Writes the octets of a parcel and nothing else. A fault means that the writer failed; a prefix of the octets was
/// written, but not all.
fn write_parcel<W: LinkWrite>(writer: &mut W, parcel: &Parcel) -> Result<(), WriteFault>
    ensures written { OnOk result (Appends (W.contents writer.old) (W.contents writer.new) (octets_in parcel.now)) }
    ensures part { OnErr result (AppendsPart (W.contents writer.old) (W.contents writer.new) (octets_in parcel.now)) }
    ensures failure { CountsFailure result (W.failures writer.old) (W.failures writer.new) }
{
    write_all(writer, parcel.octets())
}

/// Abandons a parcel that its report returned.
fn abandon_foreign(reported: Result<(), Parcel>) {
    if let Err(foreign) = reported {
        foreign.abandon();
    }
}
