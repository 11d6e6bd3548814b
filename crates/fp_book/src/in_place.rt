//! The answers of serving in place.

ghost use Rattle.std.specs.Prelude.{◌≡◌};
ghost use Rattle.fp_book.specs.InPlace.{count_in};

use crate::Given;

/// The result of serving a turn in its place.
#[derive(Clone, Copy, Debug)]
pub enum InPlace {
    /// One turn, handed out, served and given back.
    Served {
        /// How many of its entries were served.
        count: usize,
        /// The outcome of their requests.
        given: Given,
    },
    /// No dialogue is ready.
    Nothing,
    /// All places for frames are held.
    NoRoom,
    /// Memory ran out.
    Memory,
}

impl InPlace {
    /// How many entries were served, 0 if no turn was.
    pub fn served(&self) -> usize
        ensures { result ≡ count_in self.now }
    {
        match self {
            InPlace::Served { count, .. } => *count,
            InPlace::Nothing | InPlace::NoRoom | InPlace::Memory => 0,
        }
    }
}
