//! The invocations of a dialogue: the outcome of a component for the invocation that it names, the identifiers and the
//! time limits (ITU-T Q.774, 3.2, the invocation state machines, ISM).
//!
//! A class is `class-1` to `class-4`. A moment is `NOON+N`, N milliseconds after 2024-05-06T12:00:00Z.
//!
//! | Case | Result |
//! |---|---|
//! | `ism new` | a new list, with no invocation |
//! | `ism start CLASS MOMENT` | the identifier of an invocation that starts, or why it can't start |
//! | `ism result ID last`, `ism result ID not-last` | the outcome of a ReturnResult with this identifier |
//! | `ism error ID` | the outcome of a ReturnError |
//! | `ism reject ID` | the outcome of a Reject |
//! | `ism due MOMENT` | how many invocations are due at this moment, and end |
//! | `ism class ID` | the class of the active invocation with this identifier, or `-` |
//! | `ism testing` | whether a test of the dialogue is active |
//! | `ism test-due MOMENT` | whether a test is due at this moment |
//! | `ism fail COUNT CLASS MOMENT` | the identifiers of COUNT invocations that start in turn, each after the ReturnError of the one before |
//! | `ism keep` | the list, a copy of which is kept |
//! | `ism kept` | the copy |
//!
//! Each result is followed by the list: the identifiers, among all from -128 to 127, that are active; the next
//! identifier; and the earliest moment at which one is due.

use crate::kinds::is_last;
use crate::values::{NOON, after_noon, kept};
use cases::{Answer, first_word, number_of};
use fp_digits::Moment;
use fp_ism::{Invocations, Outcome};
use fp_q773::OperationClass;

/// The state that cases leave for later ones.
#[derive(Drop)]
pub(crate) struct Scene {
    invocations: Invocations,
    kept: Invocations,
}

impl Scene {
    /// The state before the first case.
    pub(crate) fn new() -> Scene {
        Scene {
            invocations: Invocations::new(),
            kept: Invocations::new(),
        }
    }

    /// Writes the result of a case of this kind. `false` if this module has no such cases.
    pub(crate) fn answer(&mut self, kind: &str, rest: &str, out: &mut Answer) -> bool {
        match kind {
            "ism" => self.ism(rest, out),
            _ => return false,
        }
        true
    }

    /// Performs the operation of a text, and writes its result.
    fn ism(&mut self, text: &str, out: &mut Answer) {
        match text {
            "keep" => self.keep(out),
            "kept" => push_with("kept", &self.kept, out),
            _ => self.change(text, out),
        }
    }

    /// Keeps a copy of the list.
    fn keep(&mut self, out: &mut Answer) {
        self.kept = self.invocations;
        push_with("kept", &self.kept, out)
    }

    /// Performs the operation of a text on the list, and writes its result.
    fn change(&mut self, text: &str, out: &mut Answer) {
        change(&mut self.invocations, text, out);
        push_with("", &self.invocations, out)
    }
}

/// Performs the operation of a text on a list, and writes its result.
fn change(list: &mut Invocations, text: &str, out: &mut Answer) {
    let (word, text) = first_word(text);
    match word {
        "new" => anew(list, out),
        "start" => start(list, text, out),
        "result" => result(list, text, out),
        "error" => error(list, text, out),
        "reject" => reject(list, text, out),
        "due" => due(list, text, out),
        "class" => class(list, text, out),
        "testing" => out.either(list.testing(), "yes", "no"),
        "test-due" => test_due(list, text, out),
        "fail" => fail(list, text, out),
        _ => out.fail("no such case"),
    }
}

/// Begins a new list.
fn anew(list: &mut Invocations, out: &mut Answer) {
    *list = Invocations::new();
    out.text("new");
}

/// Starts an invocation, and writes its identifier, or why it can't start.
fn start(list: &mut Invocations, text: &str, out: &mut Answer) {
    let (class, moment) = first_word(text);
    let class = class_of(class, out);
    match list.start(class, moment_of(moment, out)) {
        Ok(identifier) => out.value(identifier),
        Err(full) => out.value(full),
    }
}

/// Writes the outcome of a ReturnResult.
fn result(list: &mut Invocations, text: &str, out: &mut Answer) {
    let (identifier, last) = first_word(text);
    let identifier: i8 = number_of(identifier, out);
    let outcome = list.result(identifier, is_last(last, out));
    out.shown(&outcome);
}

/// Writes the outcome of a ReturnError.
fn error(list: &mut Invocations, identifier: &str, out: &mut Answer) {
    let outcome = list.error(number_of(identifier, out));
    out.shown(&outcome);
}

/// Writes the outcome of a Reject.
fn reject(list: &mut Invocations, identifier: &str, out: &mut Answer) {
    let outcome = list.reject(number_of(identifier, out));
    out.shown(&outcome);
}

/// Ends the invocations that are due, and writes how many there were.
fn due(list: &mut Invocations, moment: &str, out: &mut Answer) {
    let count = list.due(moment_of(moment, out));
    out.value(count);
}

/// Writes the class of the active invocation with an identifier, or `-`.
fn class(list: &Invocations, identifier: &str, out: &mut Answer) {
    match list.class_of(number_of(identifier, out)) {
        Some(class) => out.shown(&class),
        None => out.text("-"),
    }
}

/// Writes whether a test is due.
fn test_due(list: &Invocations, moment: &str, out: &mut Answer) {
    let is_due = list.is_test_due(moment_of(moment, out));
    out.either(is_due, "yes", "no");
}

/// Starts this number of invocations in turn, and fails each one. Writes their identifiers, which rise by one.
fn fail(list: &mut Invocations, text: &str, out: &mut Answer) {
    let (count, rest) = first_word(text);
    let (class, moment) = first_word(rest);
    let count: u8 = number_of(count, out);
    let class = class_of(class, out);
    let moment = moment_of(moment, out);
    out.value(list.next());
    out.text(" to ");
    let last = last_failed(list, count, class, moment, out);
    out.value(last);
    out.text(", each Failure");
}

/// Starts and fails this number of invocations. Returns the identifier of the last one.
fn last_failed(
    list: &mut Invocations,
    count: u8,
    class: OperationClass,
    moment: Moment,
    out: &mut Answer,
) -> i32 {
    let mut expected = i32::from(list.next());
    for _ in 0..count {
        if i32::from(failed(list, class, moment, out)) != expected {
            out.fail("not one more than the one before");
        }
        expected = expected.saturating_add(1);
    }
    expected.saturating_sub(1)
}

/// Starts the next invocation and fails it by a ReturnError. Returns its identifier.
fn failed(list: &mut Invocations, class: OperationClass, moment: Moment, out: &mut Answer) -> i8 {
    let next = list.next();
    let identifier = kept(list.start(class, moment), out).unwrap_or(0);
    if identifier != next {
        out.fail("not the next one started");
    }
    if list.error(identifier) != Outcome::Failure {
        out.fail("the error is no failure");
    }
    identifier
}

/// The moment of a text `NOON+N`; noon, and a fault, for another text.
fn moment_of(text: &str, out: &mut Answer) -> Moment {
    match text.strip_prefix("NOON+") {
        Some(later) => after_noon(number_of(later, out)),
        None => {
            out.fail("no moment");
            after_noon(0)
        }
    }
}

/// The class of a text, `class-1` to `class-4`; another class, and a fault, for another text.
fn class_of(text: &str, out: &mut Answer) -> OperationClass {
    match text {
        "class-1" => OperationClass::Class1,
        "class-2" => OperationClass::Class2,
        "class-3" => OperationClass::Class3,
        "class-4" => OperationClass::Class4,
        _ => {
            out.fail("no class");
            OperationClass::Class1
        }
    }
}

/// Writes a result, and the list after it.
fn push_with(given: &str, list: &Invocations, out: &mut Answer) {
    out.text(given);
    out.text("; active");
    push_active(list, out);
    out.labeled("; next ", list.next());
    out.text("; due ");
    push_due(list.next_due(), out);
}

/// Writes when the first invocation is due.
fn push_due(due: Option<u64>, out: &mut Answer) {
    match due {
        None => out.text("none"),
        Some(due) if due >= NOON => {
            out.labeled("NOON+", due - NOON);
        }
        Some(due) => {
            out.value(due);
            out.text(", before noon");
        }
    }
}

/// Writes the identifiers of the invocations that are active, each after a blank, or ` none`.
pub(crate) fn push_active(list: &Invocations, out: &mut Answer) {
    let mut is_none = true;
    for identifier in i8::MIN..=i8::MAX {
        if list.active(identifier) {
            out.labeled(" ", identifier);
            is_none = false;
        }
    }
    if is_none {
        out.text(" none");
    }
}
