//! Seats.

ghost use Rattle.std.specs.Prelude.{◌≡◌, ◌↔◌, ◌+◌, ◌<◌, IfNone, IfSome, IsSome};
ghost use Rattle.fp_hub.specs.Shares.{Whole, blank, joined};

use std::marker::Model;
use std::sync::ledger::{Ledger, Share};

/// The number of parts of the first seat of a link. Each thread of the link needs one.
pub const PARTS: u64 = 64;

/// A thread's share of the three ledgers of its link: some of the 64 parts of each, and in each the thread's own count
/// (components accepted, entries served, frames sent). Contracts see [`Shares`](crate).
///
/// A seat that is dropped is lost, with its parts and its amounts.
#[derive(Drop)]
pub struct Seat<A: Ledger, B: Ledger, C: Ledger> {
    pub(crate) parts: u64,
    pub(crate) accepted: Share<A>,
    pub(crate) served: Share<B>,
    pub(crate) sent: Share<C>,
}

impl<A: Ledger, B: Ledger, C: Ledger> Model for Seat<A, B, C> {
    ghost use Rattle.std.specs.Prelude.{◌≡◌, ◌<◌};
    ghost use Rattle.fp_hub.specs.Shares.{Shares};

    ghost Value = { Shares };

    ghost view = { λ s. record { parts = s.parts; accepted = s.accepted.amount; served = s.served.amount; sent = s.sent.amount } };

    ghost invariant = { λ s. (s.accepted.parts ≡ s.parts) × (s.served.parts ≡ s.parts) × (s.sent.parts ≡ s.parts) × (0 < s.parts) };
}

impl<A: Ledger, B: Ledger, C: Ledger> Seat<A, B, C> {
    /// A seat of one part for another thread, or `None` if only one part is left. Amounts stay here. Takes no memory.
    pub fn split(&mut self) -> Option<Seat<A, B, C>>
        ensures some { IsSome result ↔ (1 < self.old.parts) }
        ensures apart { IfSome result (λ seat. seat ≡ blank 1) }
        ensures left { IfSome result (λ _. self.old ≡ record self.new { parts = self.new.parts + 1 }) }
        ensures none { IfNone result (self.new ≡ self.old) }
    {
        if self.parts <= 1 {
            return None;
        }
        self.parts -= 1;
        Some(Seat {
            parts: 1,
            accepted: self.accepted.split_off(1, 0),
            served: self.served.split_off(1, 0),
            sent: self.sent.split_off(1, 0),
        })
    }

    /// Takes in another seat of the link: its parts and amounts are added. Takes no memory.
    pub fn join(&mut self, other: Seat<A, B, C>)
        requires whole { Whole A.parts B.parts C.parts }
        ensures { self.new ≡ joined self.old other }
    {
        let Seat {
            parts,
            accepted,
            served,
            sent,
        } = other;
        self.accepted.merge(accepted);
        self.served.merge(served);
        self.sent.merge(sent);
        self.parts += parts;
    }
}
