//! Reports of parcels that were sent, several in one hold.

ghost use Rattle.std.specs.Prelude.{◌≡◌, ◌==◌, ◌-◌, IfErr};
ghost use Rattle.fp_hub.specs.Shares.{after_sent};

use crate::hold::Hold;
use crate::{Hub, Seat, SentAndNext};
use fp_book::Parcel;
use std::marker::Model;
use std::sync::Wait;
use std::sync::ledger::Ledger;

/// The most reports in one hold.
const MOST_REPORTS: u8 = 64;

/// The lock of a link, held while parcels are reported as sent. You must release it, by a drop, once it is spent, and
/// before you wait for anything but a lock that comes after it. Its release wakes the threads that await room or quiet.
/// Contracts see how many more reports there may be.
pub struct Reports<'a, A: Ledger, B: Ledger, C: Ledger> {
    hub: &'a Hub<A, B, C>,
    hold: Hold<'a, A, B, C>,
    left: u8,
}

impl<'a, A: Ledger, B: Ledger, C: Ledger> Model for Reports<'a, A, B, C> {
    ghost use Rattle.std.specs.Prelude.{ℕ};

    ghost Value = { ℕ };

    ghost view = { λ reports. reports.left };
}

impl<A: Ledger, B: Ledger, C: Ledger> Reports<'_, A, B, C> {
    /// Whether 64 parcels were reported, so that the lock is to be released.
    pub fn is_spent(&self) -> bool
        ensures { result ≡ (self.now == 0) }
    {
        self.left == 0
    }

    /// Takes back the parcel that was sent, and then hands out the next one, as [`Kept::sent_and_next`]: the seat grows
    /// as by [`Hub::sent`]. A stale or foreign parcel is returned; you must spend it, as by [`Parcel::abandon`]. Takes
    /// no memory.
    ///
    /// [`Kept::sent_and_next`]: crate::Kept::sent_and_next
    pub fn sent_and_next(&mut self, seat: &mut Seat<A, B, C>, parcel: Parcel) -> SentAndNext
        ensures same { IfErr result.sent (λ back. back ≡ parcel) }
        ensures grows { seat.new ≡ after_sent seat.old parcel result.sent }
        ensures left { self.new ≡ self.old - 1 }
    {
        self.left = self.left.saturating_sub(1);
        self.hold.kept.sent_and_next(seat, parcel)
    }
}

impl<A: Ledger, B: Ledger, C: Ledger> Drop for Reports<'_, A, B, C> {
    fn drop(self) {
        let Reports { hub, hold, left: _ } = self;
        hub.release_and_wake(hold);
    }
}

impl<A: Ledger, B: Ledger, C: Ledger> Hub<A, B, C> {
    /// Takes the lock of the link, to report parcels sent: at most 64.
    pub fn reports<R: Wait>(&self, rt: &R) -> Reports<'_, A, B, C>
        ensures { result ≡ 64 }
    {
        Reports {
            hub: self,
            hold: self.hold(rt),
            left: MOST_REPORTS,
        }
    }
}
