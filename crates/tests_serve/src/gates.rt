//! Turns that pass a gate, which counts or holds them.

use crate::run::{Plan, run};
use fp_hub::Gate;
use fp_serve::Settings;
use std::rt::Clock;
use std::sync::atomic::{AtomicBool, AtomicU64, Ordering};
use std::test::Fail;
use std::thread;
use std::time::Duration;
use tests_hub::{EACH_ONCE, SecondFirst};
use tests_peer::acts::Act;
use tests_peer::turns::{Door, posted_apart};

/// A run of one link, all turns of which are served by its two workers, so that one may wait at a gate.
fn plan_of_workers(act: Act<'_>) -> Result<Plan<'_>, Fail> {
    let mut plan = Plan::new(1, act)?;
    plan.settings = plan.settings.with_most_helped(0);
    Ok(plan)
}

/// A worker waits between taking a turn of the first dialogue and serving it: the other one serves the second dialogue
/// meanwhile, and its answer reaches the client. Each turn passes the gate once.
#[test]
fn one_waits_and_the_other_serves(rt: HostRuntime) -> Result<(), Fail> {
    let is_answered = AtomicBool::new(false);
    let gate = SecondFirst::new(&rt, 0, &is_answered);
    let plan = plan_of_workers(Act::TwoCalls(&is_answered))?;
    let outcome = run(&rt, rt.alloc(), &gate, plan)?;
    assert!(rt; !gate.is_late(), "the second dialogue had to wait");
    assert_eq!(rt; gate.seen(), EACH_ONCE);
    outcome.want("link 0 accepted 2 served 4 sent 2\n")
}

/// A gate that counts the turns that pass it, if they begin with the first entry of their dialogue, and else much more.
#[derive(Drop)]
struct CountingGate {
    passed: AtomicU64,
}

impl Gate for CountingGate {
    fn pass(&self, link: u8, _birth: u64, position: u64) {
        let counted = if link == 0 && position == 0 {
            1
        } else {
            1_000_000
        };
        self.passed.fetch_add(counted, Ordering::SeqCst);
    }
}

/// The two entries of a call are one turn, which passes the gate once if a worker serves it, as all are if the thread
/// that receives serves none. Those that this one serves, most of them, pass no gate.
#[test]
fn each_turn_passes_the_gate_once(rt: HostRuntime) -> Result<(), Fail> {
    for (most_helped, fewest) in [(0, 500), (Settings::MOST_HELPED, 0)] {
        let mut plan = Plan::new(1, Act::AtOnce(500))?;
        plan.settings = plan.settings.with_most_helped(most_helped);
        let gate = CountingGate {
            passed: AtomicU64::new(0),
        };
        let outcome = run(&rt, rt.alloc(), &gate, plan)?;
        outcome.want("link 0 accepted 500 served 1000 sent 500\n")?;
        let passed = gate.passed.load(Ordering::SeqCst);
        assert!(rt;
            passed >= fewest && passed <= 500,
            "{passed} turns passed the gate, wanted {fewest} to 500"
        );
    }
    Ok(())
}

/// A gate that holds the first turn of the first dialogue for more than a second.
#[derive(Drop)]
struct SlowGate<R> {
    rt: R,
}

impl<R: Clock> Gate for SlowGate<R> {
    fn pass(&self, _link: u8, birth: u64, position: u64) {
        if birth == 1 && position == 0 {
            thread::sleep(&self.rt, Duration::from_millis(1_100));
        }
    }
}

/// A dialogue gets more than 64 entries at once while none of them can be served: the messages above that are held back
/// until they can be, and their moment is that at which they are posted then. Afterwards each entry is served.
#[test]
fn a_message_is_held_back(rt: HostRuntime) -> Result<(), Fail> {
    let plan = plan_of_workers(Act::FillDialogue)?;
    let outcome = run(&rt, rt.alloc(), &SlowGate { rt }, plan)?;
    outcome.want("link 0 accepted 81 served 83 sent 1\n")?;
    let apart = posted_apart(str::from_utf8(outcome.log.as_slice())?)?;
    assert!(rt;
        apart >= 1_000,
        "posted {apart} milliseconds apart, wanted 1,000 or more"
    );
    Ok(())
}

/// A gate that holds each turn until its door is opened.
#[derive(Drop)]
struct ClosedGate<'x, R> {
    rt: R,
    door: &'x Door,
}

impl<R: Clock> Gate for ClosedGate<'_, R> {
    fn pass(&self, _link: u8, _birth: u64, _position: u64) {
        self.door.pass(&self.rt);
    }
}

/// After the command to end a call that was accepted is served and answered, and one that comes later isn't accepted.
#[test]
fn an_accepted_call_is_answered_at_the_end(rt: HostRuntime) -> Result<(), Fail> {
    let door = Door::new();
    let mut plan = plan_of_workers(Act::Quit(&door))?;
    plan.settings = plan.settings.with_commands();
    let outcome = run(&rt, rt.alloc(), &ClosedGate { rt, door: &door }, plan)?;
    outcome.want("link 0 accepted 1 served 2 sent 1\n")
}
