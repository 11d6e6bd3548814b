//! What is printed of a case that isn't answered as wanted.

use crate::names::{Names, Replacement};
use crate::script::{Case, CaseLine};
use crate::{Answer, Line};
use std::alloc::AllocError;

/// The place of an answer of a case.
#[derive(Clone, Copy)]
struct Place {
    // Its line.
    line: CaseLine,
    // The index of the first step of this line, and of the answer itself there.
    first_step: usize,
    index: usize,
}

/// The first of the answers, from 0, that isn't the wanted one.
fn first_difference(given: &str, wanted: &str) -> usize {
    let mut index: usize = 0;
    let mut others = wanted.split("; ");
    for part in given.split("; ") {
        if others.next() != Some(part) {
            break;
        }
        index = index.saturating_add(1);
    }
    index
}

/// The index of the last of the answers.
fn last_of(answers: &str) -> usize {
    answers.split("; ").skip(1).count()
}

/// The place of the answer with this index.
fn place_of(case: &Case, index: usize) -> Option<Place> {
    let mut first_step: usize = 0;
    let mut left = index;
    for line in case.lines.as_slice() {
        let line = *line;
        if left < line.answers {
            return Some(Place {
                line,
                first_step,
                index: left,
            });
        }
        left -= line.answers;
        first_step = first_step.saturating_add(line.steps);
    }
    None
}

/// Appends the number of a place's line.
fn push_number(place: Place, out: &mut String) -> Result<(), AllocError> {
    let line = Line {
        number: place.line.number,
        text: "",
    };
    line.push_place("stdin", out)
}

/// Appends the step of an answer. If its line has other numbers of steps and of answers, these are all steps of the line.
fn push_step(case: &Case, names: &Names, place: Place, out: &mut String) -> Result<(), AllocError> {
    let Place {
        line,
        first_step,
        index,
    } = place;
    let (first, count) = if line.steps == line.answers {
        (first_step.saturating_add(index), 1)
    } else {
        (first_step, line.steps)
    };
    let mut is_first = true;
    for step in case.input.as_str().split("; ").skip(first).take(count) {
        if !is_first {
            out.push_str("; ")?;
        }
        names.push_words(step, Replacement::Names, out)?;
        is_first = false;
    }
    Ok(())
}

/// Appends the answer with this index.
fn push_answer(
    answers: &str,
    names: &Names,
    index: usize,
    out: &mut String,
) -> Result<(), AllocError> {
    let answer = answers.split("; ").nth(index).unwrap_or("no answer");
    names.push_words(answer, Replacement::Names, out)
}

/// Appends the step before or after the wrong one, if there is one, and its wanted answer, on a line of their own.
fn push_neighbour(
    case: &Case,
    names: &Names,
    index: usize,
    out: &mut String,
) -> Result<(), AllocError> {
    let Some(place) = place_of(case, index) else {
        return Ok(());
    };
    out.push_str("\n  ")?;
    push_number(place, out)?;
    if place.line.steps == place.line.answers {
        push_step(case, names, place, out)?;
    }
    out.push_str(" => ")?;
    push_answer(case.wanted.as_str(), names, index, out)
}

/// Appends the line and the step of the answer with this index.
fn push_place(
    case: &Case,
    names: &Names,
    index: usize,
    out: &mut String,
) -> Result<(), AllocError> {
    // (an answer that none is wanted for is at the last line)
    let last = case.answers().saturating_sub(1);
    let Some(place) = place_of(case, index.min(last)) else {
        return Ok(());
    };
    push_number(place, out)?;
    push_step(case, names, place, out)?;
    out.push_str(": ")
}

/// Appends the fault, after what is written of the answer.
fn push_cause(given: &Answer, out: &mut String) -> Result<(), AllocError> {
    if !given.as_str().is_empty() && !given.as_str().ends_with("; ") {
        out.push_str(": ")?;
    }
    out.push_str(given.fault())
}

/// Appends the answer with this index and the wanted answer, or what is written of the answer and the fault.
fn push_difference(
    case: &Case,
    names: &Names,
    index: usize,
    given: &Answer,
    out: &mut String,
) -> Result<(), AllocError> {
    push_answer(given.as_str(), names, index, out)?;
    if given.is_faulty() && index >= last_of(given.as_str()) {
        return push_cause(given, out);
    }
    out.push_str(", wanted ")?;
    push_answer(case.wanted.as_str(), names, index, out)
}

/// Appends the first wrong step of a case, its answer and the wanted one, and the steps beside it.
pub(crate) fn push_fault(
    case: &Case,
    names: &Names,
    given: &Answer,
    out: &mut String,
) -> Result<(), AllocError> {
    let different = first_difference(given.as_str(), case.wanted.as_str());
    let index = if given.is_faulty() {
        different.min(last_of(given.as_str()))
    } else {
        different
    };
    push_place(case, names, index, out)?;
    push_difference(case, names, index, given, out)?;
    if index > 0 {
        push_neighbour(case, names, index - 1, out)?;
    }
    push_neighbour(case, names, index.saturating_add(1), out)
}
