//! The weight of a rule.

ghost use Rattle.std.specs.Prelude.{◌≡◌, ◌≤◌};
ghost use Rattle.fp_records.specs.Fields.{weight_of};

use crate::number::number_up_to;
use std::marker::Model;

/// The weight of a rule, 1 to 1000: its parts of the calls. Contracts see it as that number.
#[derive(Clone, Copy, Debug, PartialEq, Eq)]
pub struct Weight {
    parts: u16,
}

impl Model for Weight {
    ghost use Rattle.std.specs.Prelude.{ℕ, ◌≤◌};

    ghost Value = { ℕ };

    ghost view = { λ weight. weight.parts };

    ghost invariant = { λ weight. (1 ≤ weight.parts) × (weight.parts ≤ 1000) };

    ghost inverse = { λ parts. record { parts = parts } };
}

impl Weight {
    /// The greatest weight.
    pub const MOST: u16 = 1000;

    /// The weight, 1 to [`Weight::MOST`].
    pub fn parts(self) -> u16
        ensures value { result ≡ self }
        ensures least { 1 ≤ result }
        ensures most { result ≤ Self.MOST }
    {
        self.parts
    }

    /// The weight in a text of plain decimal digits.
    pub(crate) fn from_text(text: &[u8]) -> Option<Weight>
        ensures { result ≡ weight_of text.now }
    {
        let Some(number) = number_up_to(u64::from(Self::MOST), text) else {
            return None;
        };
        if number == 0 {
            return None;
        }
        Some(Weight {
            parts: number as u16,
        })
    }
}
