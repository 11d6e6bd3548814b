//! The source of a link's parcels.

ghost use Rattle.std.specs.Prelude.{◌≡◌, List, [], ◌∷◌, Option, None, IfErr};
ghost use Rattle.fp_streams.specs.Grows.{Grows};
ghost use Rattle.fp_linkio.specs.Calls.{OutletCall, picks, reports_sent, reports_unsent};

use fp_book::Parcel;

/// The source of a link's parcels, to which each parcel is reported as sent or unsent.
pub trait Outlet {
    // The calls so far, in their order, if the outlet reports them.
    ghost calls: { Self → Option (List OutletCall) } = { λ _. None };

    /// The next parcel to send, or `None` if there is no more.
    fn pick(&mut self) -> Option<Parcel>
        ensures { Grows (calls self.old) (calls self.new) (picks result ∷ []) };

    /// Reports that the parcel was sent. A parcel of another outlet is returned; the report counts all the same.
    fn sent(&mut self, parcel: Parcel) -> Result<(), Parcel>
        ensures call { Grows (calls self.old) (calls self.new) (reports_sent parcel ∷ []) }
        ensures back { IfErr result (λ back. back ≡ parcel) };

    /// Reports that the parcel couldn't be sent. A parcel of another outlet is returned; the report counts all the
    /// same.
    fn unsent(&mut self, parcel: Parcel) -> Result<(), Parcel>
        ensures call { Grows (calls self.old) (calls self.new) (reports_unsent parcel ∷ []) }
        ensures back { IfErr result (λ back. back ≡ parcel) };
}
