//! Problems by name, with the numbers of their tags and their values.

use cases::{Answer, first_word, number_of};
use fp_q773::Problem;

/// Writes a problem by name, with the number of its tag and its value.
pub(crate) fn push_problem(out: &mut Answer, problem: Problem) {
    out.shown(&problem);
    out.labeled(", tag ", problem.tag());
    out.labeled(", value ", problem.code());
}

/// The problem of this value whose tag has this number, or `None`.
pub(crate) fn problem_of(tag: &str, code: &str, out: &mut Answer) -> Option<Problem> {
    let tag: u16 = number_of(tag, out);
    Problem::new(tag, number_of(code, out))
}

/// The problem of a tag and a value.
pub(crate) fn problem(text: &str, out: &mut Answer) {
    let (tag, code) = first_word(text);
    match problem_of(tag, code, out) {
        Some(problem) => push_problem(out, problem),
        None => out.text("none"),
    }
}
