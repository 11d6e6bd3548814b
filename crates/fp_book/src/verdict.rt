//! The verdict on a message.

ghost use Rattle.std.specs.Prelude.{◌≡◌};
ghost use Rattle.fp_book.specs.Holding.{is_over_a_limit, is_taken, names_a_cause};
ghost use Rattle.fp_book.specs.Rules.{verdict_by};

use crate::rules::Rule;
use fp_q773::{AbortCause, Tid};

/// The decision on a posted message, given the dialogues of the link.
#[derive(Clone, Copy, Debug)]
pub enum Verdict {
    /// The message is only logged.
    Discard,
    /// The message is refused.
    Refuse {
        /// The cause of an Abort of the provider, if one is named.
        cause: Option<AbortCause>,
        /// The dialogue that is closed for it.
        closes: Option<u32>,
    },
    /// The message opens a dialogue, which the peer knows by this identifier.
    Open {
        /// The peer's transaction identifier.
        peer: Tid,
    },
    /// The dialogue accepts the message.
    Extend {
        /// The local transaction identifier of the dialogue.
        local: u32,
        /// Whether the dialogue ends with the message.
        ends: bool,
    },
}

impl Verdict {
    /// The verdict of a rule, given the dialogue that the message names, if it names one, and its sender's identifier
    /// of the dialogue.
    pub(crate) fn of(rule: Rule, dialogue: Option<u32>, sender: Option<Tid>) -> Verdict
        ensures { result ≡ verdict_by rule dialogue sender }
    {
        match rule {
            Rule::Discard => Verdict::Discard,
            Rule::Refuse { cause } => Verdict::Refuse {
                cause,
                closes: dialogue,
            },
            Rule::Open => match sender {
                Some(peer) => Verdict::Open { peer },
                None => Verdict::Discard,
            },
            Rule::Extend { ends } => match dialogue {
                Some(local) => Verdict::Extend { local, ends },
                None => Verdict::Discard,
            },
        }
    }

    /// Whether the verdict is a refusal that names a cause.
    pub(crate) fn names_a_cause(&self) -> bool
        ensures { result ≡ names_a_cause self.now }
    {
        matches!(self, Verdict::Refuse { cause: Some(_), .. })
    }

    /// Whether the message is taken: it opens a dialogue, or a dialogue accepts it.
    pub(crate) fn is_taken(&self) -> bool
        ensures { result ≡ is_taken self.now }
    {
        matches!(self, Verdict::Open { .. } | Verdict::Extend { .. })
    }

    /// Whether the verdict is a refusal because a limit was reached.
    pub(crate) fn is_over_a_limit(&self) -> bool
        ensures { result ≡ is_over_a_limit self.now }
    {
        matches!(
            self,
            Verdict::Refuse {
                cause: Some(AbortCause::ResourceLimitation),
                ..
            }
        )
    }
}
