//! The end of a link.

ghost use Rattle.std.specs.Prelude.{◌≡◌, ◌↔◌, IfSome, IsSome};
ghost use Rattle.fp_hub.specs.Shares.{Whole, amounts};

use crate::{Hub, PARTS, Seat};
use fp_book::Totals;
use std::sync::ledger::Ledger;

/// The totals of a link, once all its seats were joined into one: the totals of its book, which are the amounts of that
/// seat, the sums of all joined seats. `None` if the seat doesn't have all parts, so that one was lost or is still out.
/// Takes no memory.
pub fn finish<A: Ledger, B: Ledger, C: Ledger>(
    hub: Hub<A, B, C>,
    seat: Seat<A, B, C>,
) -> Option<Totals>
    requires whole { Whole A.parts B.parts C.parts }
    ensures all { IsSome result ↔ (seat.parts ≡ 64) }
    ensures amounts { IfSome result (λ totals. totals ≡ amounts seat) }
{
    if seat.parts != PARTS {
        return None;
    }
    let mut seat = seat;
    let mut kept = hub.into_kept();
    Some(kept.last(&mut seat))
}
