//! The cases of standard input, answered and compared.

use crate::faults::push_fault;
use crate::script::{Case, Script};
use crate::{Answer, Answers, Cursor};
use std::alloc::Global;

/// Reads all cases.
fn read_script<R: Input + AllocGlobal>(rt: &R) -> anyhow::Result<Script> {
    let mut script = Script::new(rt.alloc());
    let mut cursor = Cursor::new();
    for line in rt.lines(rt.alloc()) {
        let line = line?;
        script.add(rt.alloc(), cursor.line(line.as_str()))?;
    }
    Ok(script)
}

/// The answer to a case. An answer without a fault is all of it.
fn answer_of<A: Answers>(alloc: Global, answers: &mut A, case: &Case) -> Answer {
    let mut out = Answer::new(alloc);
    if case.fault.is_empty() {
        answers.answer(case.input.as_str(), &mut out);
    } else {
        out.fail(case.fault);
    }
    out
}

/// Answers a case: what is printed of it if it isn't answered as wanted.
fn fault_of<A: Answers>(
    alloc: Global,
    answers: &mut A,
    script: &Script,
    case: &Case,
) -> anyhow::Result<Option<String>> {
    let given = answer_of(alloc, answers, case);
    if !given.is_faulty() && given.as_str() == case.wanted.as_str() {
        return Ok(None);
    }
    let mut text = String::new(alloc);
    push_fault(case, &script.names, &given, &mut text)?;
    Ok(Some(text))
}

/// Answers the cases of standard input. Prints the first wrong step of each case that isn't answered as wanted, and at
/// the end `N cases, M wrong`.
pub fn run<R: Input + Print + AllocGlobal, A: Answers>(
    rt: &R,
    answers: &mut A,
) -> anyhow::Result<()> {
    let script = read_script(rt)?;
    let mut wrong: u32 = 0;
    for case in script.cases.as_slice() {
        if let Some(text) = fault_of(rt.alloc(), answers, &script, case)? {
            wrong = wrong.saturating_add(1);
            println!(rt; "{text}")?;
        }
    }
    println!(rt; "{} cases, {wrong} wrong", script.cases.len())?;
    Ok(())
}
