//! Whole runs of a link.

ghost use Rattle.std.specs.Prelude.{◌≡◌, ◌<◌, ◌≤◌, [], IfOk};
ghost use Rattle.fp_book.specs.Shelf.{base};
ghost use Rattle.fp_steps.specs.After.{IsAfter};
ghost use Rattle.fp_steps.specs.Headline.{Runs};
ghost use Rattle.fp_steps.specs.Places.{handed_in};
ghost use Rattle.fp_steps.specs.Retold.{LogsRun};
ghost use Rattle.fp_tids.specs.Identifiers.{base_of};

use crate::{LinkRun, Output, Step, handed_in};
use fp_apdu::Name;
use fp_records::Table;
use fp_tids::LocalIds;
use std::alloc::{AllocError, Global};

/// The outputs of these steps on a link without steps yet. `Err`: memory ran out.
fn make_all(
    alloc: Global,
    tables: &[Table],
    contexts: &[Name],
    run: &mut LinkRun,
    steps: &[Step],
) -> Result<Vec<Output>, AllocError>
    requires { IsAfter tables.now contexts.now [] run.old }
    ensures { IfOk result (λ outputs. LogsRun tables.now contexts.now (base run.old) steps.now outputs.items) }
{
    let mut outputs = Vec::new(alloc);
    for step in steps {
        let made = run.step(alloc, tables, contexts, step)?;
        outputs.push(made.output)?;
    }
    Ok(outputs)
}

/// The outputs of these steps on a link, 0 to 7, without steps yet, by these tables and names of application contexts.
/// If a step is impossible, its output is `Nothing`, and it changes nothing. `Err`: memory ran out.
///
/// At each moment of the run, and for each dialogue, the served entries are a prefix of the accepted ones, cut at the
/// dialogue's end, in their order and each once; and the frames sent for it are a prefix of those that its service
/// logic requests on them, in their order and each once, under its own identifiers. No two held dialogues have the same
/// local transaction identifier, and the Aborts of the provider that were sent are a prefix of those that were
/// answered. The identifier of a held dialogue names it; and while the link is up each of the 131,072 serials may be
/// given or belongs to a held dialogue, so that a Begin never lacks one.
///
/// Each output is the answer at its moment, which the steps and outputs before it determine. A message gets the answer
/// of the first matching rule of receipt. A dialogue is opened with the identifier at the front of a queue: of serial
/// 1, 2 and so on at first, and then of the dialogues that are no longer held, in the order of their ends. A tick
/// counts the dialogues that are due. A turn is handed out for the dialogue that has been ready longest, unless none is
/// ready or all places are held; it is given or put back while it is out. The oldest Abort of the provider is sent
/// next, or, if none waits, the oldest frame, while no other parcel is out.
///
/// The totals of the outputs are sums over the dialogues: of the entries that each accepted for components, of the
/// entries served, and of the frames sent for it.
///
/// Whenever the link is up, no turn is out, and a take and a pick would both be answered `Nothing`, nothing is left to
/// do: all accepted entries of a dialogue were served, up to its end, unless a refused message closed it; all frames
/// that its service logic requests on them were sent, unless something ended it from outside; and all answered Aborts
/// of the provider were sent.
///
/// The log lines of the run's steps ([`lines_of`](crate::lines_of)) fit a history with the same totals.
///
/// The run has no tag: an identifier is the sum of the link times 2^29 and a serial, and the run has the first 1,000 of
/// these tables. [`run_with_tag`] has one.
pub fn run(
    alloc: Global,
    tables: &[Table],
    contexts: &[Name],
    link: u8,
    steps: &[Step],
) -> Result<Vec<Output>, AllocError>
    requires { link < LocalIds.LINKS }
    ensures headline { IfOk result (λ outputs. Runs (handed_in 0 tables.now) contexts.now (base_of link 0) steps.now outputs.items) }
    ensures log { IfOk result (λ outputs. LogsRun (handed_in 0 tables.now) contexts.now (base_of link 0) steps.now outputs.items) }
{
    run_with_tag(alloc, tables, contexts, link, 0, steps)
}

/// As [`run`], in a run with this tag, 0 to 4,094: to each identifier the tag times 2^17 is added, so that the
/// identifiers of two tags are different (`identifiers_are_distinct` of `fp_tids`). If the tag isn't 0, the run has the
/// first 65,536 tables.
pub fn run_with_tag(
    alloc: Global,
    tables: &[Table],
    contexts: &[Name],
    link: u8,
    tag: u16,
    steps: &[Step],
) -> Result<Vec<Output>, AllocError>
    requires links { link < LocalIds.LINKS }
    requires tags { tag ≤ LocalIds.LAST_TAG }
    ensures headline { IfOk result (λ outputs. Runs (handed_in tag tables.now) contexts.now (base_of link tag) steps.now outputs.items) }
    ensures log { IfOk result (λ outputs. LogsRun (handed_in tag tables.now) contexts.now (base_of link tag) steps.now outputs.items) }
{
    let mut made = LinkRun::new(alloc, link, tag)?;
    let tables = handed_in(tag, tables);
    let outputs = make_all(alloc, tables, contexts, &mut made, steps);
    made.abandon();
    outputs
}
