//! What ends a link: its client, which may read nothing, its dialogues, the log, or a command.

use crate::run::{Outcome, Plan, run};
use fp_hub::OpenGate;
use fp_serve::{ServeFault, Settings, Wanted};
use std::test::Fail;
use tests_peer::acts::Act;
use tests_peer::ends::{Cause, ENDINGS, Ending};

/// A run of two links, of which link 0 ends in this way.
fn plan_of(ending: Ending) -> Result<Plan<'static>, Fail> {
    let mut plan = Plan::new(2, Act::End(ending))?;
    plan.wanted = Some(Wanted::All);
    let most_helped = if ending.is_helped {
        Settings::MOST_HELPED
    } else {
        0
    };
    let settings = plan.settings.with_most_helped(most_helped);
    plan.settings = match ending.cause {
        Cause::Entries => settings.with_most_entries(1_000),
        Cause::Quit => settings.with_commands(),
        _ => settings,
    };
    Ok(plan)
}

/// Fails unless link 0 ended in this way. If there is no fault, the log replays to what was counted.
fn want_ending(outcome: &Outcome, ending: Ending) -> Result<(), Fail> {
    let told = str::from_utf8(outcome.told.as_slice())?;
    let events = str::from_utf8(outcome.errors.as_slice())?;
    ending.want(outcome.seconds, told, events)?;
    let fault = if ending.cause == Cause::LogFault {
        Some(ServeFault::UnwrittenLog)
    } else {
        None
    };
    outcome.want_fault(fault)?;
    if fault.is_some() {
        return Ok(());
    }
    outcome.want_replayed(told)
}

/// Each link ends by its cause, in time and for its reason, also one whose sending thread is blocked, since its client
/// reads nothing, and whose receiving thread holds a message back, and one whose receiving thread is blocked, since it
/// sends: if its client closes its sending side then and reads later, it gets all answers. The client of another link
/// is answered meanwhile.
#[test]
fn a_link_ends_for_its_reason(rt: HostRuntime) -> Result<(), Fail> {
    for ending in ENDINGS {
        let outcome = run(&rt, rt.alloc(), &OpenGate, plan_of(ending)?)?;
        want_ending(&outcome, ending)?;
    }
    Ok(())
}

/// A client that goes on making calls after the command to end, and reads late, gets all answers to the calls before;
/// none of the later ones is accepted.
#[test]
fn a_planned_end_loses_no_answer(rt: HostRuntime) -> Result<(), Fail> {
    let mut plan = Plan::new(1, Act::CallOnAtTheEnd)?;
    plan.settings = plan.settings.with_commands();
    plan.wanted = Some(Wanted::All);
    let outcome = run(&rt, rt.alloc(), &OpenGate, plan)?;
    outcome.want("link 0 accepted 8000 served 16000 sent 8000\n")
}
