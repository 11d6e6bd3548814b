//! Moments.

ghost use Rattle.std.specs.Prelude.{◌≡◌, ℕ, ◌<◌};
ghost use Rattle.std.specs.Option.{SomeIff};

use std::marker::Model;

/// A moment, in milliseconds since 1970-01-01T00:00:00Z, before the year 2100. Contracts see it as
/// that number.
#[derive(Clone, Copy, Debug, PartialEq, Eq, PartialOrd, Ord)]
pub struct Moment {
    milliseconds: u64,
}

impl Model for Moment {
    ghost use Rattle.std.specs.Prelude.{ℕ, ◌<◌};
    ghost use Rattle.fp_digits.specs.declared.moment.TheConstants.Moment.{END};

    ghost Value = { ℕ };

    ghost view = { λ moment. moment.milliseconds };

    ghost invariant = { λ moment. moment.milliseconds < END };

    ghost inverse = { λ milliseconds. record { milliseconds = milliseconds } };
}

impl Moment {
    /// 2100-01-01T00:00:00Z in milliseconds since 1970-01-01T00:00:00Z. Each moment is before it.
    pub const END: u64 = 4_102_444_800_000;

    /// The moment this number of milliseconds after 1970-01-01T00:00:00Z. `None` exactly from
    /// [`Moment::END`] on.
    pub fn new(milliseconds: u64) -> Option<Moment>
        ensures { SomeIff result (milliseconds < Self.END) milliseconds }
    {
        if milliseconds < Self::END {
            Some(Moment { milliseconds })
        } else {
            None
        }
    }

    /// The milliseconds since 1970-01-01T00:00:00Z, below [`Moment::END`].
    pub fn milliseconds(self) -> u64
        ensures value { result ≡ self }
        ensures range { result < Self.END }
    {
        self.milliseconds
    }
}
