//! The nature of an address (ITU-T Q.763, 3.9 and 3.10).

ghost use Rattle.std.specs.Prelude.{◌≡◌, ℕ, ◌<◌};

use std::marker::Model;

/// The nature of address of a number (ITU-T Q.763, 3.9 b), which says how to understand its digits. Any code from 0 to
/// 127 is kept unchanged. Contracts see it as that code.
#[derive(Clone, Copy, Debug, PartialEq, Eq)]
pub struct NatureOfAddress {
    code: u8,
}

impl Model for NatureOfAddress {
    ghost Value = { ℕ };

    ghost view = { λ nature. nature.code };

    ghost invariant = { λ nature. nature.code < 128 };

    ghost inverse = { λ code. record { code = code } };
}

impl NatureOfAddress {
    /// A national (significant) number, code 3.
    pub const NATIONAL: NatureOfAddress = NatureOfAddress { code: 3 };

    /// An international number, code 4.
    pub const INTERNATIONAL: NatureOfAddress = NatureOfAddress { code: 4 };

    /// The nature of address with this code, which must be below 128.
    pub fn new(code: u8) -> NatureOfAddress
        requires { code < 128 }
        ensures { result ≡ code }
    {
        NatureOfAddress { code }
    }

    /// The code, 0 to 127.
    pub fn code(self) -> u8
        ensures value { result ≡ self }
        ensures range { result < 128 }
    {
        self.code
    }
}
