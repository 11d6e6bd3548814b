//! Logs whose device hangs, is slow, or fails for a while: calls are answered all the same.

use crate::run::{Outcome, Plan, run};
use fp_hub::OpenGate;
use fp_replay::ReplayFault;
use fp_serve::{ServeFault, Wanted};
use std::alloc::Global;
use std::test::Fail;
use tests_peer::acts::Act;
use tests_peer::device::Mood;
use tests_peer::logs::{TROUBLES, Trouble, gap_in};

/// A device that hangs from the first line on: calls are answered at once, and the run ends five seconds after its link
/// by a fault of the log. How many lines are lost is reported.
#[test]
fn a_log_that_hangs_holds_nobody_up(rt: HostRuntime) -> Result<(), Fail> {
    let mut plan = Plan::new(1, Act::AtOnce(200))?;
    plan.mood = Mood::Hangs;
    plan.wanted = Some(Wanted::All);
    let outcome = run(&rt, rt.alloc(), &OpenGate, plan)?;
    let fault = Some(ServeFault::UnwrittenLog);
    outcome.want_told(fault, "link 0 accepted 200 served 400 sent 200\n")?;
    let seconds = outcome.seconds_after;
    // Its client looks at the clock after its end, on a busy machine some time later.
    assert!(rt;
        (4..30).contains(&seconds),
        "wanted an end after 4 to 30 seconds, came after {seconds}"
    );
    let events = str::from_utf8(outcome.errors.as_slice())?;
    assert!(rt;
        outcome.log.is_empty() && events.contains("lines are lost\n"),
        "wanted no log and an event of lost lines, came {events}"
    );
    Ok(())
}

/// A device that takes a second for each write: calls are answered at once all the same, and the run ends once the log
/// has all of it, some seconds later.
#[test]
fn a_slow_log_holds_nobody_up(rt: HostRuntime) -> Result<(), Fail> {
    let mut plan = Plan::new(1, Act::AtOnce(800))?;
    plan.mood = Mood::Takes(1_000);
    plan.wanted = Some(Wanted::LogFaults);
    let outcome = run(&rt, rt.alloc(), &OpenGate, plan)?;
    outcome.want("link 0 accepted 800 served 1600 sent 800\n")?;
    let events = str::from_utf8(outcome.errors.as_slice())?;
    assert!(rt; events.is_empty(), "wanted no event, came {events}");
    Ok(())
}

/// Fails unless the log of a run has one gap, at which its replay ends and which is reported.
fn want_gap(alloc: Global, outcome: &Outcome, trouble: Trouble) -> Result<(), Fail> {
    outcome.want_told(
        None,
        "link 0 accepted 3 served 6 sent 3\nlink 1 accepted 3 served 6 sent 3\n",
    )?;
    let (gap, lost) = gap_in(str::from_utf8(outcome.log.as_slice())?)?;
    let end = outcome.replay_fault;
    if end != Some(ReplayFault::Gap(gap)) {
        return Err(Fail::new(format_args!(
            "wanted the end of the replay at the gap in line {gap}, came {end:?}"
        )));
    }
    let events = str::from_utf8(outcome.errors.as_slice())?;
    trouble.want_events(alloc, events, lost)
}

/// A device that hangs, or stops in a line and fails, while more lines come than there are places: calls are answered
/// on all links meanwhile; when it takes octets again the log goes on in the middle of that line, and has one gap, at
/// which a replay ends. The gap is reported, and with `--log-gaps` that the log can't be written.
#[test]
fn a_log_goes_on_after_a_gap(rt: HostRuntime) -> Result<(), Fail> {
    for trouble in TROUBLES {
        let mut plan = Plan::new(2, Act::FillLog(trouble))?;
        plan.mood = trouble.mood;
        plan.wanted = Some(Wanted::All);
        if trouble.has_gaps {
            plan.settings = plan.settings.with_log_gaps();
            plan.wanted = Some(Wanted::LogFaults);
        }
        let outcome = run(&rt, rt.alloc(), &OpenGate, plan)?;
        want_gap(rt.alloc(), &outcome, trouble)?;
    }
    Ok(())
}
