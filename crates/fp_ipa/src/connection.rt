//! The management of a connection.

ghost use Rattle.std.specs.Prelude.{◌≡◌};
ghost use Rattle.fp_ipa.specs.declared.connection.State.TheVariants as states;
ghost use Rattle.fp_ipa.specs.Connection.{action_for, next, sent};

use crate::Received;

/// The state of a connection from a peer. It starts as [`State::Asked`], with the octets of [`ASKS`] sent.
#[derive(Clone, Copy, Debug, PartialEq, Eq)]
pub enum State {
    /// The peer was asked for the name of a unit.
    Asked,
    /// The peer named this unit, and hasn't acknowledged yet.
    Named(usize),
    /// The connection carries SCCP messages for this unit.
    Active(usize),
    /// The connection is over.
    Closed,
}

/// The action for a message.
#[derive(Clone, Copy, Debug, PartialEq, Eq)]
pub enum Action {
    /// Nothing.
    Skip,
    /// A PONG is sent.
    Pong,
    /// An ID_ACK is sent, as a unit was named. (A node that drains closes the connection instead.)
    Acknowledge,
    /// The connection is active from now on.
    Activate,
    /// The SCCP message is handed on.
    Deliver,
    /// The connection is closed.
    Close,
}

/// The octets of an ID_GET for a unit name. You must send them as soon as a peer has connected.
pub const ASKS: [u8; 6] = [0x00, 0x03, 0xFE, 0x04, 0x01, 0x01];

impl Action {
    /// The octets to send: a PONG, an ID_ACK, or none.
    pub fn octets(self) -> &'static [u8]
        ensures { result.now ≡ sent self }
    {
        match self {
            Action::Pong => b"\x00\x01\xFE\x01",
            Action::Acknowledge => b"\x00\x01\xFE\x06",
            Action::Skip | Action::Activate | Action::Deliver | Action::Close => &[],
        }
    }
}

/// A step of a connection: the state after a message, and the action for it.
#[derive(Clone, Copy, Debug, PartialEq, Eq)]
pub struct Step {
    /// The state after the message.
    pub state: State,
    /// The action.
    pub action: Action,
}

/// A step with this state and action.
fn make_step(state: State, action: Action) -> Step
    ensures state { result.state ≡ state }
    ensures action { result.action ≡ action }
{
    Step { state, action }
}

/// The step of a peer that was asked for its name.
fn asked(received: Received) -> Step
    ensures state { result.state ≡ next states.Asked received }
    ensures action { result.action ≡ action_for states.Asked received }
{
    match received {
        Received::Ping => make_step(State::Asked, Action::Pong),
        Received::Named(unit) => make_step(State::Named(unit), Action::Acknowledge),
        Received::Misnamed => make_step(State::Closed, Action::Close),
        Received::Acknowledged => make_step(State::Closed, Action::Close),
        Received::UnitData => make_step(State::Closed, Action::Close),
        Received::Unknown => make_step(State::Asked, Action::Skip),
    }
}

/// The step of a peer that named a unit.
fn named(unit: usize, received: Received) -> Step
    ensures state { result.state ≡ next (states.Named unit) received }
    ensures action { result.action ≡ action_for (states.Named unit) received }
{
    match received {
        Received::Ping => make_step(State::Named(unit), Action::Pong),
        Received::Named(_) => make_step(State::Closed, Action::Close),
        Received::Misnamed => make_step(State::Closed, Action::Close),
        Received::Acknowledged => make_step(State::Active(unit), Action::Activate),
        Received::UnitData => make_step(State::Closed, Action::Close),
        Received::Unknown => make_step(State::Named(unit), Action::Skip),
    }
}

/// The step of a connection that is active.
fn active(unit: usize, received: Received) -> Step
    ensures state { result.state ≡ next (states.Active unit) received }
    ensures action { result.action ≡ action_for (states.Active unit) received }
{
    match received {
        Received::Ping => make_step(State::Active(unit), Action::Pong),
        Received::Named(_) => make_step(State::Closed, Action::Close),
        Received::Misnamed => make_step(State::Closed, Action::Close),
        Received::Acknowledged => make_step(State::Closed, Action::Close),
        Received::UnitData => make_step(State::Active(unit), Action::Deliver),
        Received::Unknown => make_step(State::Active(unit), Action::Skip),
    }
}

impl State {
    /// The step for a message, by the table in the crate's root.
    pub fn step(self, received: Received) -> Step
        ensures state { result.state ≡ next self received }
        ensures action { result.action ≡ action_for self received }
    {
        match self {
            State::Asked => asked(received),
            State::Named(unit) => named(unit, received),
            State::Active(unit) => active(unit, received),
            State::Closed => make_step(State::Closed, Action::Skip),
        }
    }
}
