//! RequestReportBCSMEvent: writing its argument.

ghost use Rattle.std.specs.Prelude.{◌≡◌, ◌++◌, length, OnOk, OnErr};
ghost use Rattle.fp_ber.specs.Canon.{canon, HasLengths};
ghost use Rattle.fp_ber.specs.Tree.{HasTags};
ghost use Rattle.fp_inap.specs.RequestReport.{request_report};

use fp_ber::Writer;
use std::alloc::AllocError;

/// The argument of RequestReportBCSMEvent to follow a call, always the same. Each event is a sequence of eventTypeBCSM,
/// tag 80, monitorMode, 81, and legID, A2, of the sending side, 80.
const REQUEST_REPORT: [u8; 69] = [
    // A sequence, and in it bcsmEvents.
    0x30, 67, 0xA0, 65,
    // routeSelectFailure, interrupted, the called party's leg.
    0x30, 11, 0x80, 1, 4, 0x81, 1, 0, 0xA2, 3, 0x80, 1, 2,
    // oCalledPartyBusy, interrupted, the called party's leg.
    0x30, 11, 0x80, 1, 5, 0x81, 1, 0, 0xA2, 3, 0x80, 1, 2,
    // oNoAnswer, interrupted, the called party's leg.
    0x30, 11, 0x80, 1, 6, 0x81, 1, 0, 0xA2, 3, 0x80, 1, 2,
    // oAnswer, notifyAndContinue, the called party's leg.
    0x30, 11, 0x80, 1, 7, 0x81, 1, 1, 0xA2, 3, 0x80, 1, 2,
    // oAbandon, notifyAndContinue, the caller's leg.
    0x30, 11, 0x80, 1, 10, 0x81, 1, 1, 0xA2, 3, 0x80, 1, 1,
];

/// Puts the argument of RequestReportBCSMEvent (after ITU-T Q.1218) to follow a call before the octets in the writer:
/// events 4, 5 and 6 interrupt the call at leg 2; 7 at leg 2 and 10 at leg 1 are notified. If memory runs out, the
/// octets are unchanged.
pub fn write_request_report(out: &mut Writer) -> Result<(), AllocError>
    ensures ok { OnOk result (out.new ≡ canon request_report ++ out.old) }
    ensures err { OnErr result (out.new ≡ out.old) }

    // The tags and lengths of the argument are in range, and it has 69 octets.
    ensures tags { HasTags request_report }
    ensures lengths { HasLengths request_report }
    ensures size { length (canon request_report) ≡ 69 }
{
    out.put(&REQUEST_REPORT)
}
