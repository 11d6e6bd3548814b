//! Signalling point codes.

ghost use Rattle.std.specs.Prelude.{◌≡◌, ◌<◌};
ghost use Rattle.std.specs.Option.{SomeIff};

use std::marker::Model;

/// A signalling point code of 14 bits (Q.713, 3.4.2.1). Contracts see it as a number.
#[derive(Clone, Copy, Debug, PartialEq, Eq)]
pub struct PointCode {
    code: u16,
}

impl Model for PointCode {
    ghost use Rattle.std.specs.Prelude.{ℕ, ◌<◌};
    ghost use Rattle.fp_sccp.specs.declared.point_code.TheConstants.PointCode.{END};

    ghost Value = { ℕ };

    ghost view = { λ point. point.code };

    ghost invariant = { λ point. point.code < END };

    ghost inverse = { λ code. record { code = code } };
}

impl PointCode {
    /// One more than the largest point code.
    pub const END: u16 = 16_384;

    /// The point code with this number; `None` exactly from [`PointCode::END`] on.
    pub fn new(code: u16) -> Option<PointCode>
        ensures { SomeIff result (code < Self.END) code }
    {
        if code < Self::END {
            Some(PointCode { code })
        } else {
            None
        }
    }

    /// The number, below [`PointCode::END`].
    pub fn code(self) -> u16
        ensures value { result ≡ self }
        ensures range { result < Self.END }
    {
        self.code
    }
}
