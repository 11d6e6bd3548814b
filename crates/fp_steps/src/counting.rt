//! The totals of a run.

ghost use Rattle.std.specs.Prelude.{◌≡◌, ◌+◌, ℕ, List, if◌then◌else◌};
ghost use Rattle.fp_records.specs.Table.{Contents};
ghost use Rattle.fp_steps.specs.Headline.{Runs};
ghost use Rattle.fp_steps.specs.Totals.{added_by, capped, capped_totals, components_of, entries_served, is_sent, local_after, plus, totals_of};
ghost use Rattle.fp_steps.specs.declared.step.Step.{Step};

use crate::Output;
use fp_book::Totals;

/// How many components a step accepted.
fn components_of(output: &Output) -> u32
    ensures { result ≡ components_of output.now }
{
    match output {
        Output::Posted { components, .. } => *components,
        _ => 0,
    }
}

/// How many entries a step served.
fn entries_served(output: &Output) -> u64
    ensures { result ≡ entries_served output.now }
{
    match output {
        Output::Gave { served, .. } => u64::from(*served),
        _ => 0,
    }
}

/// Whether a step sent a frame of a dialogue, given the identifier of the dialogue whose parcel was out (0 for an Abort
/// of the provider).
fn is_sent(output: &Output, out: Option<u32>) -> bool
    ensures { result ≡ is_sent output.now out }
{
    match output {
        Output::Sent => match out {
            Some(local) => local != 0,
            None => false,
        },
        _ => false,
    }
}

/// The identifier of the dialogue whose parcel is out after an output, given the one before it.
fn local_after(output: &Output, before: Option<u32>) -> Option<u32>
    ensures { result ≡ local_after output.now before }
{
    match output {
        Output::Picked { local, .. } => Some(*local),
        Output::Sent | Output::Unsent => None,
        _ => before,
    }
}

/// `count + 1` if `is`, at most the greatest number.
fn one_more(count: u64, is: bool) -> u64
    ensures { result ≡ capped (count + (if is then 1 else 0)) }
{
    if is { count.saturating_add(1) } else { count }
}

/// The totals after one more output, given the dialogue whose parcel was out. Sums saturate.
fn with_output(totals: Totals, output: &Output, out: Option<u32>) -> Totals
    ensures { result ≡ capped_totals (plus totals (added_by output.now out)) }
{
    let accepted = totals
        .accepted
        .saturating_add(u64::from(components_of(output)));
    let served = totals.served.saturating_add(entries_served(output));
    let sent = one_more(totals.sent, is_sent(output, out));
    Totals {
        accepted,
        served,
        sent,
    }
}

/// The totals of these outputs: the components that were accepted, the entries that were served, and the frames of
/// dialogues that were sent. Sums saturate at 2^64 - 1, which no run reaches. Takes no memory.
pub fn totals(outputs: &[Output]) -> Totals
    ensures of_runs { (tables : List Contents) (contexts : List (List ℕ)) (base : ℕ) (steps : List Step)
        → Runs tables contexts base steps outputs.now → result ≡ totals_of outputs.now }
    ensures of_all { result ≡ capped_totals (totals_of outputs.now) }
{
    let mut totals = Totals {
        accepted: 0,
        served: 0,
        sent: 0,
    };
    let mut out = None;
    for output in outputs {
        totals = with_output(totals, output, out);
        out = local_after(output, out);
    }
    totals
}
