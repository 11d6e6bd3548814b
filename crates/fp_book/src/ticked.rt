//! The answer to a tick.

/// The result of a tick.
#[derive(Clone, Copy, Debug, PartialEq, Eq)]
pub struct Ticked {
    /// How many dialogues were given a Clock.
    pub added: u32,
    /// How many dialogues that are due were left out: memory ran out for them, or for eight in a row before them. They
    /// stay due.
    pub wanting: u32,
}
