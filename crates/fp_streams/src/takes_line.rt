//! The taker of a reader's lines.

ghost use Rattle.std.specs.Prelude.{ℕ, Bool, List, MatchResult};

/// Takes the lines of a reader, one after another.
pub trait TakesLine {
    /// Why a line is refused.
    type Fault;

    // A line was taken: the state before, whether it has a line feed, its other octets, and the state after.
    ghost takes: { Self → Bool → List ℕ → Self → Type 0 };

    // A line was refused for this reason.
    ghost refuses: { Self → Bool → List ℕ → Self.Fault → Self → Type 0 };

    /// Takes the next line, without its line feed, or refuses it. Only the last line of an input may lack a line feed.
    /// `is_followed` says that the whole next line was read already: no read is made before it is taken, or the call ends
    /// since it is too long.
    fn take_line(
        &mut self,
        line: &[u8],
        has_line_feed: bool,
        is_followed: bool,
    ) -> Result<(), Self::Fault>
        ensures { MatchResult result (λ _. takes self.old has_line_feed line.now self.new)
            (λ fault. refuses self.old has_line_feed line.now fault self.new) };
}
