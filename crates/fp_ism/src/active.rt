//! The list of the active invocations.

ghost use Rattle.std.specs.Prelude.{◌≡◌, ℕ, ◌+◌, ◌<◌, ◌≤◌, List, [], ◌∷◌, ◌++◌, length, All, Contains, MatchOption};
ghost use Rattle.fp_ism.specs.Due.{dues, those_left};
ghost use Rattle.fp_ism.specs.Invocation.{class_of, is_active, without};
ghost use Rattle.fp_ism.specs.Testing.{is_test_due, is_testing};

use crate::invocation::Invocation;
use fp_digits::Moment;
use fp_q773::OperationClass;
use std::marker::Model;

/// At most eight active invocations, in the order of their start. Contracts see them as a list.
#[derive(Clone, Copy, Debug)]
pub(crate) struct ActiveInvocations {
    places: [Invocation; 8],
    used: usize,
}

impl Model for ActiveInvocations {
    ghost use Rattle.std.specs.Prelude.{List, take, length};
    ghost use Rattle.fp_ism.specs.declared.invocation.Invocation.{Invocation};
    ghost use Rattle.fp_ism.specs.Padded.{IsPadded, padded, padded-take, length-take-padded};
    ghost use Rattle.fp_ism.specs.Vacant.{vacant};

    ghost Value = { List Invocation };

    ghost view = { λ active. take active.used active.places };

    ghost invariant = { λ active. IsPadded 8 vacant active.places active.used };

    ghost inverse = { λ list. record { places = padded 8 vacant list; used = length list } };

    ghost inverse_ok = { λ active padding i. record {
      places = padded-take 8 vacant active.places active.used padding i;
      used = length-take-padded 8 vacant active.places active.used padding i;
    } };
}

/// Two lists are equal exactly if they hold the same invocations.
impl PartialEq for ActiveInvocations {
    ghost use Rattle.fp_ism.specs.Same.{same_list, same_list_per};

    ghost eq = { same_list };

    ghost laws = { same_list_per };

    fn eq(&self, other: &Self) -> bool {
        self.as_slice() == other.as_slice()
    }
}

impl Eq for ActiveInvocations {
    ghost use Rattle.fp_ism.specs.Same.{same_list_equiv};

    ghost laws = { same_list_equiv };
}

/// The filler of an unused place.
const VACANT: Invocation = Invocation {
    identifier: 0,
    class: OperationClass::Class1,
    due: 0,
};

impl ActiveInvocations {
    /// The largest number of active invocations.
    pub(crate) const MOST: usize = 8;

    /// An empty list.
    pub(crate) fn new() -> ActiveInvocations
        ensures { result ≡ [] }
    {
        ActiveInvocations {
            places: [VACANT; 8],
            used: 0,
        }
    }

    /// The number of invocations.
    pub(crate) fn len(&self) -> usize
        ensures value { result ≡ length self.now }
        ensures most { result ≤ Self.MOST }
    {
        self.used
    }

    /// The invocations, in the order of their start.
    pub(crate) fn as_slice(&self) -> &[Invocation]
        ensures value { result.now ≡ self.now }
        ensures most { length self.now ≤ Self.MOST }
    {
        &self.places[..self.used]
    }

    /// Appends an invocation. You must leave room for it.
    pub(crate) fn push(&mut self, invocation: Invocation)
        requires { length self.old < Self.MOST }
        ensures { self.new ≡ self.old ++ invocation ∷ [] }
    {
        self.places[self.used] = invocation;
        self.used += 1;
    }

    /// Whether an invocation with this identifier is active.
    pub(crate) fn contains(&self, identifier: i8) -> bool
        ensures { result ≡ is_active identifier self.now }
    {
        self.as_slice()
            .iter()
            .any(|invocation| invocation.identifier == identifier)
    }

    /// Whether a test is active.
    pub(crate) fn is_testing(&self) -> bool
        ensures { result ≡ is_testing self.now }
    {
        self.as_slice()
            .iter()
            .any(|invocation| invocation.is_test())
    }

    /// Whether a test is due at this moment or earlier.
    pub(crate) fn is_test_due(&self, moment: Moment) -> bool
        ensures { result ≡ is_test_due moment self.now }
    {
        let now = moment.milliseconds();
        self.as_slice()
            .iter()
            .any(|invocation| invocation.is_test() && invocation.due <= now)
    }

    /// The class of the active invocation with this identifier; `None` if there is none.
    pub(crate) fn class_of(&self, identifier: i8) -> Option<OperationClass>
        ensures { result ≡ class_of identifier self.now }
    {
        self.as_slice()
            .iter()
            .find(|invocation| invocation.identifier == identifier)
            .map(|invocation| invocation.class)
    }

    /// The list without the invocation with this identifier.
    pub(crate) fn without(&self, identifier: i8) -> ActiveInvocations
        ensures { result ≡ without identifier self.now }
    {
        let mut left = ActiveInvocations::new();
        let active = self.as_slice();
        for invocation in active {
            if invocation.identifier != identifier {
                left.push(*invocation);
            }
        }
        left
    }

    /// The invocations that are due after this moment.
    pub(crate) fn due_after(&self, moment: Moment) -> ActiveInvocations
        ensures { result ≡ those_left moment self.now }
    {
        let mut left = ActiveInvocations::new();
        let active = self.as_slice();
        for invocation in active {
            if invocation.due > moment.milliseconds() {
                left.push(*invocation);
            }
        }
        left
    }

    /// The earliest moment when an invocation is due, in milliseconds since
    /// 1970-01-01T00:00:00Z.
    pub(crate) fn earliest(&self) -> Option<u64>
        ensures { MatchOption result (length self.now ≡ 0)
            (λ due. Contains (dues self.now) due × All (λ other. due ≤ other) (dues self.now)) }
    {
        self.as_slice()
            .iter()
            .map(|invocation| invocation.due)
            .min()
    }
}
