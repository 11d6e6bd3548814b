//! The state of a dialogue.

ghost use Rattle.std.specs.Prelude.{◌≡◌, ◌↔◌, IsTrue};
ghost use Rattle.fp_service.specs.declared.state.State.TheVariants.{Over};
ghost use Rattle.fp_service.specs.Dialogue.{has_ended, is_waiting};

use fp_records::Destinations;

/// The state of a dialogue.
#[derive(Clone, Copy, Debug, PartialEq, Eq)]
pub enum State {
    /// The dialogue isn't over, and its call is at this stage.
    Live(Stage),
    /// The dialogue is over.
    Over,
}

/// The stage of the call of a dialogue that isn't over.
#[derive(Clone, Copy, Debug, PartialEq, Eq)]
pub enum Stage {
    /// The dialogue has begun, and no destination was tried yet.
    Fresh,
    /// A destination was tried, and the switch reports the progress of the call.
    Waiting {
        /// The destinations that weren't tried yet, in their order; `None` if none is left.
        left: Option<Destinations>,
    },
}

impl State {
    /// Whether the dialogue is over.
    pub fn is_over(&self) -> bool
        ensures value { result ≡ has_ended self.now }
        ensures over { IsTrue result ↔ (self.now ≡ Over) }
    {
        match self {
            State::Live(_) => false,
            State::Over => true,
        }
    }

    /// Whether the dialogue has a call that tries its destinations.
    pub(crate) fn is_waiting(&self) -> bool
        ensures { result ≡ is_waiting self.now }
    {
        match self {
            State::Live(Stage::Waiting { .. }) => true,
            State::Live(Stage::Fresh) | State::Over => false,
        }
    }
}
