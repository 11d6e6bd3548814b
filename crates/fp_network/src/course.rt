//! How far a connection is from its end.

ghost use Rattle.std.specs.Prelude.{◌≡◌, ◌<◌, ◌-◌, [], nat_le};
ghost use Rattle.fp_ipa.specs.declared.connection.State.TheVariants.{Asked};
ghost use Rattle.fp_network.specs.declared.course.Course.TheVariants.{Open};
ghost use Rattle.fp_network.specs.Course.{closed, closing_of, drained, is_drained, is_late, is_unnamed, octets_for, overdue, shut};

use crate::Closing;
use fp_ipa::{Action, State};

/// For how many milliseconds a connection may be there without being active.
const MILLISECONDS_TO_NAME: u64 = 5_000;

/// For how many milliseconds a connection is read once its node drains, if its peer doesn't close
/// it. Then it is closed as soon as its socket is read out.
const MILLISECONDS_TO_DRAIN: u64 = 2_000;

/// How far a connection is from its end. Moments are milliseconds.
#[derive(Clone, Copy, Debug, PartialEq, Eq)]
pub(crate) enum Course {
    /// The connection is read and written.
    Open,
    /// The node drains since this moment, and the writing side is to be shut. The connection is
    /// read and written.
    Draining(u64),
    /// The node drains since this moment, and the writing side is shut. The connection is read.
    Shut(u64),
    /// The connection is to be closed for this reason.
    Over(Closing),
}

/// Whether at least this number of milliseconds went by since a moment.
fn went_by(milliseconds: u64, since: u64, at: u64) -> bool
    ensures { result ≡ nat_le milliseconds (at - since) }
{
    at.saturating_sub(since) >= milliseconds
}

/// Whether a connection isn't active yet at this time, five seconds after it was accepted.
fn is_unnamed(state: State, came_at: u64, at: u64) -> bool
    ensures { result ≡ is_unnamed state came_at at }
{
    match state {
        State::Active(_) => false,
        State::Named(_) => went_by(MILLISECONDS_TO_NAME, came_at, at),
        State::Asked => went_by(MILLISECONDS_TO_NAME, came_at, at),
        State::Closed => went_by(MILLISECONDS_TO_NAME, came_at, at),
    }
}

/// Whether two seconds went by at this time since a node began to drain.
fn is_drained(since: u64, at: u64) -> bool
    ensures { result ≡ is_drained since at }
{
    went_by(MILLISECONDS_TO_DRAIN, since, at)
}

/// Whether the node of a connection drains for two seconds at this time, and the connection isn't to
/// be closed.
pub(crate) fn is_late(course: Course, at: u64) -> bool
    ensures { result ≡ is_late course at }
{
    match course {
        Course::Open => false,
        Course::Draining(since) => is_drained(since, at),
        Course::Shut(since) => is_drained(since, at),
        Course::Over(_) => false,
    }
}

/// Why a connection is to be closed at this time, if time is over for it, whatever its socket has.
pub(crate) fn overdue(course: Course, state: State, came_at: u64, at: u64) -> Option<Closing>
    ensures { result ≡ overdue course state came_at at }
{
    match course {
        Course::Open => is_unnamed(state, came_at, at).then_some(Closing::Silent),
        Course::Draining(_) => None,
        Course::Shut(_) => None,
        Course::Over(_) => None,
    }
}

/// Why a connection is to be closed, if it is.
pub(crate) fn closing_of(course: Course) -> Option<Closing>
    ensures { result ≡ closing_of course }
{
    match course {
        Course::Over(why) => Some(why),
        Course::Open => None,
        Course::Draining(_) => None,
        Course::Shut(_) => None,
    }
}

/// The course of a connection that is to be closed for this reason, unless it was for another one.
pub(crate) fn closed(why: Closing, course: Course) -> Course
    ensures { result ≡ closed why course }
{
    match course {
        Course::Open => Course::Over(why),
        Course::Draining(_) => Course::Over(why),
        Course::Shut(_) => Course::Over(why),
        Course::Over(first) => Course::Over(first),
    }
}

/// The course of a connection, of the common unit or of another one, whose node drains since this
/// time.
pub(crate) fn drained(is_common: bool, at: u64, course: Course) -> Course
    ensures { result ≡ drained is_common at course }
{
    if !is_common {
        return course;
    }
    match course {
        Course::Open => Course::Draining(at),
        Course::Draining(since) => Course::Draining(since),
        Course::Shut(since) => Course::Shut(since),
        Course::Over(why) => Course::Over(why),
    }
}

/// The course of a connection whose writing side was shut, if it was to be.
pub(crate) fn shut(course: Course) -> Course
    ensures { result ≡ shut course }
{
    match course {
        Course::Draining(since) => Course::Shut(since),
        Course::Open => Course::Open,
        Course::Shut(since) => Course::Shut(since),
        Course::Over(why) => Course::Over(why),
    }
}

/// The octets that are sent for an action, unless nothing is sent any more.
pub(crate) fn octets_for(course: Course, action: Action) -> &'static [u8]
    ensures { result.now ≡ octets_for course action }
{
    match course {
        Course::Open => action.octets(),
        Course::Draining(_) => action.octets(),
        Course::Shut(_) => &[],
        Course::Over(_) => &[],
    }
}
