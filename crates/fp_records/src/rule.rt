//! A rule of a number.

ghost use Rattle.std.specs.Prelude.{◌≡◌};

use crate::action::Action;
use crate::days::Days;
use crate::decimal_digits::DecimalDigits;
use crate::weight::Weight;
use crate::window::Window;
use std::marker::Model;

/// A rule of a number: the calls that it fits, its share of them, and its action. Two are equal exactly if all fields
/// are the same (`exact_rule` of `specs/Same.antt`).
#[derive(Clone, Copy, Debug, PartialEq, Eq)]
pub struct Rule {
    /// The first digits of the calling numbers that it fits.
    pub prefix: DecimalDigits,
    /// The weekdays of the rule.
    pub days: Days,
    /// The part of these days in which it fits.
    pub window: Window,
    /// The rule's share of the calls.
    pub weight: Weight,
    /// The rule's action for a call.
    pub action: Action,
}

/// A rule in a list. Contracts see it as the rule.
#[derive(Clone, Copy, Debug, PartialEq, Eq)]
pub(crate) struct KeptRule {
    rule: Rule,
}

impl Model for KeptRule {
    ghost use Rattle.fp_records.specs.declared.rule.Rule.{Rule};

    ghost Value = { Rule };

    ghost view = { λ kept. kept.rule };

    ghost inverse = { λ rule. record { rule = rule } };
}

impl KeptRule {
    pub(crate) fn new(rule: Rule) -> KeptRule
        ensures { result ≡ rule }
    {
        KeptRule { rule }
    }

    pub(crate) fn rule(&self) -> &Rule
        ensures { result.now ≡ self.now }
    {
        &self.rule
    }
}
