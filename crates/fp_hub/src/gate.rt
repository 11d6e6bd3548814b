//! The gate between taking a turn and serving it.

/// A gate that a thread passes between taking a turn and serving it, with no lock held: tests hold a thread there.
pub trait Gate {
    /// Returns once the turn may be served: the turn of this link, of the dialogue of this birth, and of the entries
    /// from this position on.
    fn pass(&self, link: u8, birth: u64, position: u64);

    /// Called with no lock held, after a hold that may have served turns in their places. Those turns pass no gate.
    fn after_hold(&self) {}
}

/// A gate that lets each turn pass at once.
#[derive(Debug, Drop)]
pub struct OpenGate;

impl Gate for OpenGate {
    fn pass(&self, _link: u8, _birth: u64, _position: u64) {}
}
