//! Rules as text.

use crate::texts::push_digits;
use cases::Answer;
use fp_records::{Action, Days, Destinations, Rule};
use std::alloc::Global;

/// Writes a rule.
pub(crate) fn push_rule(alloc: Global, out: &mut Answer, rule: &Rule) {
    push_callers(out, rule);
    push_days(alloc, out, rule.days);
    push_minute(out, ", ", rule.window.from());
    push_minute(out, "-", rule.window.to());
    out.labeled(", weight ", rule.weight.parts());
    out.text(", ");
    push_action(out, &rule.action)
}

/// Writes the callers that a rule is for.
fn push_callers(out: &mut Answer, rule: &Rule) {
    if rule.prefix.is_empty() {
        return out.text("any caller");
    }
    out.text("callers ");
    push_digits(out, rule.prefix.as_slice());
    out.text("..");
}

/// Writes weekdays, 1 for Monday. They print as seven flags, Monday's first.
fn push_days(alloc: Global, out: &mut Answer, days: Days) {
    if days.is_every_day() {
        return out.text(", every day");
    }
    let mut flags = Answer::new(alloc);
    flags.shown(&days);
    out.text(", days ");
    push_places(out, flags.as_str());
}

/// Writes the places of the flags that are set, the first as 1.
fn push_places(out: &mut Answer, flags: &str) {
    for (place, flag) in flags.split(',').enumerate() {
        if flag.contains("true") {
            out.value(place.saturating_add(1));
        }
    }
}

/// Writes a number in two decimal digits.
fn push_two_digits(out: &mut Answer, number: u16) {
    if number < 10 {
        out.text("0");
    }
    out.value(number);
}

/// Writes a minute of the day after a text.
fn push_minute(out: &mut Answer, text: &str, minute: u16) {
    out.text(text);
    push_two_digits(out, minute / 60);
    out.text(":");
    push_two_digits(out, minute % 60);
}

/// Writes the action of a rule.
fn push_action(out: &mut Answer, action: &Action) {
    match action {
        Action::Route(destinations) => push_route(out, destinations),
        Action::Refuse => out.text("refuse"),
        Action::Pass => out.text("pass"),
    }
}

/// Writes the destinations to which a rule routes a call.
fn push_route(out: &mut Answer, destinations: &Destinations) {
    out.text("route ");
    push_destinations(out, destinations)
}

/// Writes destinations, in the order in which a call tries them.
pub(crate) fn push_destinations(out: &mut Answer, destinations: &Destinations) {
    for (place, destination) in destinations.as_slice().iter().enumerate() {
        if place > 0 {
            out.character(' ');
        }
        let digits = destination.digits();
        push_digits(out, digits.as_slice());
    }
}
