//! The greatest number so far.

ghost use Rattle.std.specs.Prelude.{◌≡◌, max};

use std::marker::Model;

/// The greatest number that was noted, 0 if none was. For example, the most dialogues that a link held, or the most log
/// lines that waited. Contracts see that number.
#[derive(Clone, Copy, Debug)]
pub struct Highest {
    number: u64,
}

impl Model for Highest {
    ghost use Rattle.std.specs.Prelude.{ℕ, refl};

    ghost Value = { ℕ };

    ghost view = { λ highest. highest.number };

    ghost inverse = { λ number. record { number = number } };

    ghost inverse_ok = { λ highest some i. record { number = highest.number } };
}

impl Highest {
    /// The value before any number is noted.
    pub fn new() -> Highest
        ensures { result ≡ 0 }
    {
        Highest { number: 0 }
    }

    /// Notes a number.
    pub fn note(&mut self, number: u64)
        ensures { self.new ≡ max self.old number }
    {
        self.number = self.number.max(number);
    }

    /// The greatest number that was noted, 0 if none was.
    pub fn number(&self) -> u64
        ensures { result ≡ self.now }
    {
        self.number
    }
}
