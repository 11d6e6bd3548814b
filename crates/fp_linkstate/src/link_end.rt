//! The end of a link, from its first cause until both sides of its socket are shut.

ghost use Rattle.std.specs.Prelude.{◌≡◌, None};
ghost use Rattle.fp_linkstate.specs.Ended.{EndsInTime, EndsOnce, FaultsEnd, HasItsTime};
ghost use Rattle.fp_linkstate.specs.Ending.{deadline, step, step_draining, step_lingering, step_up, time_left, to};

use crate::Why;

/// The longest time, in milliseconds, between the end of a link's input or the command `quit` and the end of the link.
const MILLISECONDS_TO_END: u64 = 2_000;

/// The state of a link and its end. Times are milliseconds of one clock.
#[derive(Clone, Copy, Debug, PartialEq, Eq)]
pub enum LinkEnd {
    /// The link receives, serves and sends.
    Up {
        /// The reason of the first failed call of its socket, if there is one. The loop that made the call ends soon.
        noted: Option<Why>,
    },
    /// The link receives no more. Accepted messages are served, and frames are sent.
    Draining {
        /// The first reason.
        why: Why,
        /// The link goes down at this time, even if messages or frames are left.
        until: u64,
        /// Whether the peer closed its sending side.
        has_closed: bool,
    },
    /// The book of the link is down, and the writing side of its socket is shut. Received octets are dropped until the
    /// peer closes.
    Lingering {
        /// Both sides of the socket are shut at this time at the latest.
        until: u64,
    },
    /// The book of the link is down, and both sides of its socket are shut.
    Down,
}

/// An event that may end a link.
#[derive(Clone, Copy, Debug, PartialEq, Eq)]
pub enum LinkEvent {
    /// A read or a write failed, for this reason. Its loop reports the end by another event.
    CallFailed {
        /// The reason.
        why: Why,
    },
    /// The peer closed its sending side between two frames.
    EndOfInput {
        /// The time of the event.
        at: u64,
    },
    /// The receiving or the sending loop ended, for this reason.
    LoopFault {
        /// The reason.
        why: Why,
    },
    /// The command `quit` was given.
    Quit {
        /// The time of the event.
        at: u64,
    },
    /// The clock shows this time.
    Clock {
        /// The time.
        at: u64,
    },
    /// Nothing remains to be served or sent, and all frames were handed on to the socket.
    Quiet,
    /// The peer closed its sending side while octets were dropped.
    PeerClosed,
    /// The run had a fault that takes all links down.
    RunFault {
        /// The reason.
        why: Why,
    },
    /// The dialogues of the link keep too many entries.
    TooManyEntries,
}

/// The duty of the thread that reports an event.
#[derive(Clone, Copy, Debug, PartialEq, Eq)]
pub enum Action {
    /// Nothing.
    Nothing,
    /// Report this reason, take the book down, and shut the writing side of the socket.
    EndSending {
        /// The reason.
        why: Why,
    },
    /// Report this reason, take the book down, and shut both sides of the socket.
    End {
        /// The reason.
        why: Why,
    },
    /// Shut both sides of the socket.
    Close,
}

/// The next state, and the action on the way to it.
#[derive(Clone, Copy)]
pub(crate) struct Step {
    next: LinkEnd,
    action: Action,
}

/// The time two seconds later.
fn deadline(at: u64) -> u64
    ensures { result ≡ deadline at }
{
    at.saturating_add(MILLISECONDS_TO_END)
}

/// A step to this state, without an action.
fn to(next: LinkEnd) -> Step
    ensures { result ≡ to next Action.Nothing }
{
    Step {
        next,
        action: Action::Nothing,
    }
}

/// The step down of a link that is up or drains: its end is reported, and both sides of the socket are shut.
fn end(why: Why) -> Step
    ensures { result ≡ to LinkEnd.Down (Action.End why) }
{
    Step {
        next: LinkEnd::Down,
        action: Action::End { why },
    }
}

/// The step down of a link that lingers: both sides of the socket are shut.
fn close() -> Step
    ensures { result ≡ to LinkEnd.Down Action.Close }
{
    Step {
        next: LinkEnd::Down,
        action: Action::Close,
    }
}

/// The step of a link that is up.
fn step_up(noted: Option<Why>, event: LinkEvent) -> Step
    ensures { result ≡ step_up noted event }
{
    match event {
        LinkEvent::CallFailed { why } => to(LinkEnd::Up {
            noted: Some(noted.unwrap_or(why)),
        }),
        LinkEvent::EndOfInput { at } => to(LinkEnd::Draining {
            why: noted.unwrap_or(Why::PeerClosed),
            until: deadline(at),
            has_closed: true,
        }),
        LinkEvent::Quit { at } => to(LinkEnd::Draining {
            why: noted.unwrap_or(Why::Quit),
            until: deadline(at),
            has_closed: false,
        }),
        LinkEvent::LoopFault { why } => end(noted.unwrap_or(why)),
        LinkEvent::RunFault { why } => end(noted.unwrap_or(why)),
        LinkEvent::TooManyEntries => end(noted.unwrap_or(Why::Entries)),
        LinkEvent::Clock { .. } => to(LinkEnd::Up { noted }),
        LinkEvent::Quiet => to(LinkEnd::Up { noted }),
        LinkEvent::PeerClosed => to(LinkEnd::Up { noted }),
    }
}

/// The step of a link that drains.
fn step_draining(why: Why, until: u64, has_closed: bool, event: LinkEvent) -> Step
    ensures { result ≡ step_draining why until has_closed event }
{
    let drains = |until: u64, has_closed: bool| to(LinkEnd::Draining {
        why,
        until,
        has_closed,
    });
    match event {
        LinkEvent::CallFailed { .. } => drains(until, has_closed),
        LinkEvent::EndOfInput { at } => drains(until.min(deadline(at)), true),
        LinkEvent::Quit { at } => drains(until.min(deadline(at)), has_closed),
        LinkEvent::PeerClosed => drains(until, true),
        LinkEvent::Quiet if has_closed => end(why),
        LinkEvent::Quiet => Step {
            next: LinkEnd::Lingering { until },
            action: Action::EndSending { why },
        },
        LinkEvent::Clock { at } if until <= at => end(why),
        LinkEvent::Clock { .. } => drains(until, has_closed),
        LinkEvent::LoopFault { .. } => end(why),
        LinkEvent::RunFault { .. } => end(why),
        LinkEvent::TooManyEntries => end(why),
    }
}

/// The step of a link that lingers.
fn step_lingering(until: u64, event: LinkEvent) -> Step
    ensures { result ≡ step_lingering until event }
{
    match event {
        LinkEvent::CallFailed { .. } => to(LinkEnd::Lingering { until }),
        LinkEvent::Quit { at } => to(LinkEnd::Lingering {
            until: until.min(deadline(at)),
        }),
        LinkEvent::Quiet => to(LinkEnd::Lingering { until }),
        LinkEvent::Clock { at } if until <= at => close(),
        LinkEvent::Clock { .. } => to(LinkEnd::Lingering { until }),
        LinkEvent::EndOfInput { .. } => close(),
        LinkEvent::PeerClosed => close(),
        LinkEvent::LoopFault { .. } => close(),
        LinkEvent::RunFault { .. } => close(),
        LinkEvent::TooManyEntries => close(),
    }
}

impl LinkEnd {
    /// A link that is up.
    pub fn new() -> LinkEnd
        ensures up { result ≡ LinkEnd.Up None }
        ensures once { EndsOnce }
        ensures in_time { EndsInTime }
        ensures no_sooner { HasItsTime }
        ensures at_once { FaultsEnd }
    {
        LinkEnd::Up { noted: None }
    }

    /// Takes an event, and returns the action. The calling thread must do it.
    pub fn meet(&mut self, event: LinkEvent) -> Action
        ensures state { self.new ≡ (step self.old event).next }
        ensures action { result ≡ (step self.old event).action }
    {
        let Step { next, action } = match *self {
            LinkEnd::Up { noted } => step_up(noted, event),
            LinkEnd::Draining {
                why,
                until,
                has_closed,
            } => step_draining(why, until, has_closed, event),
            LinkEnd::Lingering { until } => step_lingering(until, event),
            LinkEnd::Down => to(LinkEnd::Down),
        };
        *self = next;
        action
    }

    /// The milliseconds from this time until the link is down at the latest. `None`: its end hasn't begun, or it is
    /// down.
    pub fn time_left(&self, at: u64) -> Option<u64>
        ensures { result ≡ time_left self.now at }
    {
        match *self {
            LinkEnd::Draining { until, .. } => Some(until.saturating_sub(at)),
            LinkEnd::Lingering { until } => Some(until.saturating_sub(at)),
            LinkEnd::Up { .. } => None,
            LinkEnd::Down => None,
        }
    }
}
