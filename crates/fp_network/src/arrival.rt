//! The effect of a message of a connection.

ghost use Rattle.std.specs.Prelude.{◌≡◌, ◌<◌, ◌-◌};
ghost use Rattle.fp_ipa.specs.declared.connection.State.TheVariants.{Asked};
ghost use Rattle.fp_network.specs.Connection.{activated, arrival_by, fault_of, is_last, is_refused, names_common, state_for, step_action, why_closed};
ghost use Rattle.fp_network.specs.Course.{closed};

use crate::Closing;
use fp_ipa::{Action, Received, State, Step};

/// The effect of a message of a connection.
#[derive(Clone, Copy, Debug, PartialEq, Eq)]
pub(crate) enum Arrival {
    /// No effect beyond the octets that wait to be written now.
    Nothing,
    /// The message is skipped.
    Skipped,
    /// The connection carries messages for this unit from now on.
    Active(usize),
    /// The message is one of SCCP.
    UnitData,
    /// The connection is to be closed.
    Close(Closing),
}

/// Whether a unit is the last of this number, which several nodes have in common.
pub(crate) fn is_last(units: usize, unit: usize) -> bool
    ensures { result ≡ is_last units unit }
{
    0 < units && unit == units - 1
}

/// Whether a message names the common unit.
fn names_common(units: usize, received: Received) -> bool
    ensures { result ≡ names_common units received }
{
    match received {
        Received::Named(unit) => is_last(units, unit),
        Received::Ping => false,
        Received::Misnamed => false,
        Received::Acknowledged => false,
        Received::UnitData => false,
        Received::Unknown => false,
    }
}

/// Whether a message is refused since the node drains.
fn is_refused(drains: bool, units: usize, received: Received) -> bool
    ensures { result ≡ is_refused drains units received }
{
    drains && names_common(units, received)
}

/// Why a connection is closed if its peer sent this message.
fn fault_of(received: Received) -> Closing
    ensures { result ≡ fault_of received }
{
    match received {
        Received::Misnamed => Closing::UnknownUnit,
        Received::Ping => Closing::OutOfOrder,
        Received::Named(_) => Closing::OutOfOrder,
        Received::Acknowledged => Closing::OutOfOrder,
        Received::UnitData => Closing::OutOfOrder,
        Received::Unknown => Closing::OutOfOrder,
    }
}

/// The step of a connection in this state, of a node that drains or doesn't.
pub(crate) fn step_of(drains: bool, units: usize, state: State, received: Received) -> Step
    ensures state { result.state ≡ state_for drains units state received }
    ensures action { result.action ≡ step_action drains units state received }
{
    if is_refused(drains, units, received) {
        return Step {
            state: State::Closed,
            action: Action::Close,
        };
    }
    state.step(received)
}

/// Why a connection is closed, if the step for this message is to close it.
pub(crate) fn why_closed(drains: bool, units: usize, received: Received) -> Closing
    ensures { result ≡ why_closed drains units received }
{
    if is_refused(drains, units, received) {
        return Closing::Draining;
    }
    fault_of(received)
}

/// A connection in this state becomes active.
fn activated(state: State) -> Arrival
    ensures { result ≡ activated state }
{
    match state {
        State::Active(unit) => Arrival::Active(unit),
        State::Named(_) => Arrival::Nothing,
        State::Asked => Arrival::Nothing,
        State::Closed => Arrival::Nothing,
    }
}

/// The effect of a message, by its step, and by the reason if the step is to close.
pub(crate) fn arrival_by(step: Step, why: Closing) -> Arrival
    ensures { result ≡ arrival_by step.state step.action why }
{
    match step.action {
        Action::Skip => Arrival::Skipped,
        Action::Pong => Arrival::Nothing,
        Action::Acknowledge => Arrival::Nothing,
        Action::Activate => activated(step.state),
        Action::Deliver => Arrival::UnitData,
        Action::Close => Arrival::Close(why),
    }
}
