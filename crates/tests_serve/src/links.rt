//! Calls on one link or more, and connections that break off, come late or can't be accepted: what ends one link leaves
//! the others unchanged, and what ends the run refuses further ones.

use crate::run::{Plan, run};
use fp_hub::OpenGate;
use fp_serve::ServeFault;
use std::rt::Clock;
use std::test::Fail;
use std::time::{SystemTime, UNIX_EPOCH};
use tests_peer::acts::Act;
use tests_peer::connections::TAKEN;
use tests_peer::device::Mood;

/// The time of day, in milliseconds since 1970.
fn milliseconds<R: Clock>(rt: &R) -> Result<u64, Fail> {
    let since = SystemTime::now(rt)?.duration_since(UNIX_EPOCH)?;
    Ok(u64::try_from(since.as_millis())?)
}

/// The moment of the first line of a log of one link.
fn first_moment(log: &[u8]) -> Result<u64, Fail> {
    let line = str::from_utf8(log)?
        .strip_prefix("fplog 4 1\n0 P ")
        .ok_or("no such line")?;
    let (moment, _) = line.split_once(' ').ok_or("no moment")?;
    Ok(moment.parse()?)
}

/// One call: the address is reported at once, the answer comes, octet by octet, and the link is reported, also by the
/// replay of its log, which has the time of day.
#[test]
fn a_call_is_answered(rt: HostRuntime) -> Result<(), Fail> {
    let before = milliseconds(&rt)?;
    let outcome = run(&rt, rt.alloc(), &OpenGate, Plan::new(1, Act::Call)?)?;
    let after = milliseconds(&rt)?;
    outcome.want("link 0 accepted 1 served 2 sent 1\n")?;
    let moment = first_moment(outcome.log.as_slice())?;
    assert!(rt;
        before <= moment && moment <= after,
        "wanted a moment from {before} to {after}, came {moment}"
    );
    Ok(())
}

/// Eight links with calls of all kinds at once: each answer comes on its own link, under its own identifiers.
#[test]
fn each_link_has_its_own_answers(rt: HostRuntime) -> Result<(), Fail> {
    let outcome = run(&rt, rt.alloc(), &OpenGate, Plan::new(8, Act::AllKinds)?)?;
    outcome.want(
        "link 0 accepted 6 served 10 sent 6
link 1 accepted 6 served 10 sent 6
link 2 accepted 6 served 10 sent 6
link 3 accepted 6 served 10 sent 6
link 4 accepted 6 served 10 sent 6
link 5 accepted 6 served 10 sent 6
link 6 accepted 6 served 10 sent 6
link 7 accepted 6 served 10 sent 6
",
    )
}

/// Two links with thousands of calls each: each is answered once, under its own identifier; those that are made one
/// after the other don't wait for a tick each; and the log has all of it.
#[test]
fn many_calls_leave_no_gap(rt: HostRuntime) -> Result<(), Fail> {
    let outcome = run(&rt, rt.alloc(), &OpenGate, Plan::new(2, Act::ManyCalls)?)?;
    outcome.want(
        "link 0 accepted 5040 served 10080 sent 5040
link 1 accepted 5040 served 10080 sent 5040
",
    )
}

/// What is written at once, of whatever kind, is answered, though the places of a link aren't enough for it.
#[test]
fn a_burst_loses_no_call(rt: HostRuntime) -> Result<(), Fail> {
    let outcome = run(&rt, rt.alloc(), &OpenGate, Plan::new(1, Act::Bursts)?)?;
    outcome.want("link 0 accepted 8081 served 16083 sent 8081\n")
}

/// One client closes inside a frame, another sends a length that no frame has; a third goes on, gets its answer, and is
/// late with an error by eleven seconds, when the time of its invocation is over. The device of the log hangs
/// meanwhile.
#[test]
fn others_go_on(rt: HostRuntime) -> Result<(), Fail> {
    let mut plan = Plan::new(3, Act::BreakOff)?;
    plan.mood = Mood::Hangs;
    let outcome = run(&rt, rt.alloc(), &OpenGate, plan)?;
    outcome.want(
        "link 0 accepted 0 served 0 sent 0
link 1 accepted 0 served 0 sent 0
link 2 accepted 2 served 4 sent 2
",
    )
}

/// A log that can't be written takes the link down at a tick, and the run ends, though it awaits a connection. One that
/// comes after the fault isn't served, and later ones are refused.
#[test]
fn a_fault_ends_the_run(rt: HostRuntime) -> Result<(), Fail> {
    let mut plan = Plan::new(2, Act::FailedLog)?;
    plan.mood = Mood::Fails(TAKEN);
    let outcome = run(&rt, rt.alloc(), &OpenGate, plan)?;
    let fault = Some(ServeFault::UnwrittenLog);
    outcome.want_told(fault, "link 0 accepted 1 served 2 sent 1\n")
}

/// Connections that can't be accepted end a run.
#[test]
fn who_cannot_accept_ends_the_run(rt: HostRuntime) -> Result<(), Fail> {
    let outcome = run(&rt, rt.alloc(), &OpenGate, Plan::new(1, Act::NoListener)?)?;
    outcome.want_told(Some(ServeFault::NoConnection), "")
}

/// Connections after the last one are refused, and the link that there is goes on.
#[test]
fn later_connections_are_refused(rt: HostRuntime) -> Result<(), Fail> {
    let outcome = run(
        &rt,
        rt.alloc(),
        &OpenGate,
        Plan::new(1, Act::BesideRefused)?,
    )?;
    outcome.want("link 0 accepted 1 served 2 sent 1\n")
}
