//! The invocations of a dialogue.

ghost use Rattle.std.specs.Prelude.{◌≡◌, IsTrue, ℕ, ◌+◌, ◌<◌, ◌≤◌, ◌↔◌, pos, false, [], length, All, Contains, IsOk, IsErr, IsNone, IfOk, IfSome, OnOk, OnErr};
ghost use Rattle.fp_ism.specs.Due.{dues, least_of, those_due};
ghost use Rattle.fp_ism.specs.Identifier.{IsIdentifier, next_identifier};
ghost use Rattle.fp_ism.specs.Invocation.{class_of, is_active};
ghost use Rattle.fp_ism.specs.Outcome.{outcome_of_result, outcome_of_error, outcome_of_reject};
ghost use Rattle.fp_ism.specs.Testing.{is_test_due, is_testing};

use crate::Outcome;
use crate::active::ActiveInvocations;
use crate::invocation::{IDENTIFIERS, Invocation, identifier_after, time_limit_of};
use crate::outcome::{of_error, of_reject, of_result};
use fp_digits::Moment;
use fp_q773::OperationClass;
use std::marker::Model;
use thiserror::Error;

/// The active invocations of a dialogue, at most eight, in the order of their start, and the identifier of the last one
/// started.
#[derive(Clone, Copy, Debug)]
pub struct Invocations {
    last_started: u8,
    active: ActiveInvocations,
}

impl Model for Invocations {
    ghost use Rattle.fp_ism.specs.Invocations.{InvocationsValue, AreInvocations};

    ghost Value = { InvocationsValue };

    ghost view = { λ invocations. record { last_started = invocations.last_started; active = invocations.active } };

    ghost invariant = { λ invocations. AreInvocations (record { last_started = invocations.last_started; active = invocations.active }) };

    ghost inverse = { λ value. record { last_started = value.last_started; active = value.active } };
}

/// Two values are equal exactly if the same invocations are active and the same identifier was started last
/// (`exact_invocations` of `specs/Same.antt`).
impl PartialEq for Invocations {
    ghost use Rattle.fp_ism.specs.Same.{same_invocations, same_invocations_per};

    ghost eq = { same_invocations };

    ghost laws = { same_invocations_per };

    fn eq(&self, other: &Self) -> bool {
        self.last_started == other.last_started && self.active == other.active
    }
}

impl Eq for Invocations {
    ghost use Rattle.fp_ism.specs.Same.{same_invocations_equiv};

    ghost laws = { same_invocations_equiv };
}

/// Eight invocations, the most, are already active.
#[derive(Clone, Copy, Debug, PartialEq, Eq, Error)]
#[error("eight invocations are active")]
pub struct Full;

impl Invocations {
    ghost use Rattle.fp_ism.specs.Invocations.{AreInvocations, started, after_outcome, after_moment};

    /// The largest number of active invocations.
    pub const MOST: usize = ActiveInvocations::MOST;

    /// No invocation is active, and none was started yet.
    pub fn new() -> Invocations
        ensures { result ≡ record { last_started = 0; active = [] } }
    {
        Invocations {
            last_started: 0,
            active: ActiveInvocations::new(),
        }
    }

    /// Starts an invocation of an operation of this class at this moment, and returns its identifier, which is
    /// [`Invocations::next`].
    ///
    /// The invocation is due 10,000 ms later, or 5,000 ms in class 4. If eight are active, the error is [`Full`], and
    /// nothing changes.
    pub fn start(&mut self, class: OperationClass, moment: Moment) -> Result<i8, Full>
        ensures room { IsOk result ↔ (length self.old.active < Self.MOST) }
        ensures identifier { IfOk result
            (λ identifier. identifier ≡ pos (next_identifier self.old.last_started self.old.active)) }
        ensures started { OnOk result (self.new ≡ started class moment self.old) }
        ensures full { IsErr result ↔ (length self.old.active ≡ Self.MOST) }
        ensures unchanged { OnErr result (self.new ≡ self.old) }
    {
        if self.active.len() >= Self::MOST {
            return Err(Full);
        }
        let identifier = self.next();
        self.active.push(Invocation {
            identifier,
            class,
            due: moment.milliseconds() + time_limit_of(class),
        });
        self.last_started = identifier as u8;
        Ok(identifier)
    }

    /// The outcome of a ReturnResult with this identifier, the last one or not. The invocation ends unless the outcome
    /// is [`Outcome::Stays`].
    pub fn result(&mut self, identifier: i8, last: bool) -> Outcome
        ensures outcome { result ≡ outcome_of_result last (class_of identifier self.old.active) }
        ensures left { self.new ≡ after_outcome result identifier self.old }
    {
        let outcome = of_result(self.active.class_of(identifier), last);
        if outcome != Outcome::Stays {
            self.active = self.active.without(identifier);
        }
        outcome
    }

    /// The outcome of a ReturnError with this identifier. The invocation ends.
    pub fn error(&mut self, identifier: i8) -> Outcome
        ensures outcome { result ≡ outcome_of_error (class_of identifier self.old.active) }
        ensures left { self.new ≡ after_outcome result identifier self.old }
    {
        let outcome = of_error(self.active.class_of(identifier));
        self.active = self.active.without(identifier);
        outcome
    }

    /// The outcome of a Reject with this identifier. The invocation ends.
    pub fn reject(&mut self, identifier: i8) -> Outcome
        ensures outcome { result ≡ outcome_of_reject (class_of identifier self.old.active) }
        ensures left { self.new ≡ after_outcome result identifier self.old }
    {
        let outcome = of_reject(self.active.class_of(identifier));
        self.active = self.active.without(identifier);
        outcome
    }

    /// Whether an invocation with this identifier is active. An identifier outside of 1 to 127 never is.
    pub fn active(&self, identifier: i8) -> bool
        ensures value { result ≡ is_active identifier self.now.active }
        ensures range { IsTrue result → IsIdentifier identifier }
    {
        self.active.contains(identifier)
    }

    /// The class of the active invocation with this identifier, if any.
    pub fn class_of(&self, identifier: i8) -> Option<OperationClass>
        ensures { result ≡ class_of identifier self.now.active }
    {
        self.active.class_of(identifier)
    }

    /// Whether a test of the dialogue is active: an invocation of an operation of class 3, like ActivityTest.
    pub fn testing(&self) -> bool
        ensures { result ≡ is_testing self.now.active }
    {
        self.active.is_testing()
    }

    /// Whether a test of the dialogue is due at this moment or earlier, and so wasn't answered in time.
    pub fn is_test_due(&self, moment: Moment) -> bool
        ensures { result ≡ is_test_due moment self.now.active }
    {
        self.active.is_test_due(moment)
    }

    /// The identifier of the next invocation, also if eight are active: the first identifier after the last started one
    /// that isn't active; 127 is followed by 1. For example, after 127 with 1 still active it is 2.
    pub fn next(&self) -> i8
        ensures value { result ≡ pos (next_identifier self.now.last_started self.now.active) }
        ensures range { IsIdentifier result }
        ensures free { is_active result self.now.active ≡ false }
        ensures sound { AreInvocations self.now }
    {
        for step in 0..IDENTIFIERS {
            let candidate = identifier_after(self.last_started, step);
            if !self.active.contains(candidate) {
                return candidate;
            }
        }
        unreachable!()
    }

    /// Ends the invocations that are due at this moment or earlier, and returns their number.
    pub fn due(&mut self, moment: Moment) -> usize
        ensures count { result ≡ length (those_due moment self.old.active) }
        ensures left { self.new ≡ after_moment moment self.old }
    {
        let before = self.active.len();
        self.active = self.active.due_after(moment);
        before - self.active.len()
    }

    /// The earliest moment when an invocation is due, in milliseconds since 1970-01-01T00:00:00Z; `None` if none is
    /// active.
    pub fn next_due(&self) -> Option<u64>
        ensures value { result ≡ least_of (dues self.now.active) }
        ensures none { IsNone result ↔ (self.now.active ≡ []) }
        ensures among { IfSome result (Contains (dues self.now.active)) }
        ensures least { IfSome result (λ due. All (λ other. due ≤ other) (dues self.now.active)) }
    {
        self.active.earliest()
    }
}
