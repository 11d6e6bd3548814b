//! From a message to its entries.

ghost use Rattle.std.specs.Prelude.{◌≡◌, ℕ, List, IfOk, IfErr, map};
ghost use Rattle.fp_q773.specs.View.{abort_of, begin_of, component_of, continue_of, end_of, message_value};
ghost use Rattle.fp_records.specs.Table.{Contents};
ghost use Rattle.fp_entry.specs.Entries.{Delivers};
ghost use Rattle.fp_entry.specs.Incoming.{IsIncoming};
ghost use Rattle.fp_entry.specs.Failure.{IsMessageFailure};

use crate::component::kind_of;
use crate::failure::Failure;
use crate::fault::Fault;
use crate::incoming::Incoming;
use crate::{Entries, Entry, EntryKind, Lookup};
use fp_apdu::{Name, opening_in};
use fp_digits::Moment;
use fp_q773::{Abort, Begin, Component, Continue, End, Message};
use std::alloc::{AllocError, Global};

/// Appends the entries of components, up to the first faulty component.
#[inline(always)]
fn deliver(
    lookup: &mut Lookup<'_>,
    components: &[Component<'_>],
    moment: Moment,
    before: Entries,
) -> Result<Entries, AllocError>
    ensures entries { IfOk result (Delivers lookup.old moment (map component_of components.now) before) }
    ensures same { lookup.new ≡ lookup.old }
{
    let mut entries = before;
    'components: for component in components {
        let kind = kind_of(lookup, component)?;
        entries.push(Entry { moment, kind })?;
        if component.is_faulty() {
            return Ok(entries);
        }
    }
    Ok(entries)
}

/// The entries of a Begin.
fn of_begin(
    alloc: Global,
    lookup: &mut Lookup<'_>,
    contexts: &[Name],
    begin: &Begin<'_>,
    moment: Moment,
) -> Result<Incoming, Failure>
    ensures ok { IfOk result (IsIncoming lookup.old contexts.now moment (begin_of begin.now)) }
    ensures err { IfErr result (IsMessageFailure contexts.now (begin_of begin.now)) }
    ensures same { lookup.new ≡ lookup.old }
{
    let Ok(opening) = opening_in(begin.dialogue, contexts) else {
        return Err(Failure::Refused(Fault::Badly));
    };
    let mut entries = Entries::new(alloc);
    entries.push(Entry {
        moment,
        kind: EntryKind::Opened(opening),
    })?;
    let components = begin.components.as_slice();
    let entries = deliver(lookup, components, moment, entries)?;
    Ok(Incoming {
        entries,
        elements: components.len(),
    })
}

/// The entries of a Continue.
fn of_continue(
    alloc: Global,
    lookup: &mut Lookup<'_>,
    continuing: &Continue<'_>,
    moment: Moment,
) -> Result<Incoming, AllocError>
    ensures ok { IfOk result (λ incoming. (contexts : List (List ℕ)) → IsIncoming lookup.old contexts moment (continue_of continuing.now) incoming) }
    ensures same { lookup.new ≡ lookup.old }
{
    let components = continuing.components.as_slice();
    let entries = deliver(lookup, components, moment, Entries::new(alloc))?;
    Ok(Incoming {
        entries,
        elements: components.len(),
    })
}

/// The entries of an End.
fn of_end(
    alloc: Global,
    lookup: &mut Lookup<'_>,
    end: &End<'_>,
    moment: Moment,
) -> Result<Incoming, AllocError>
    ensures ok { IfOk result (λ incoming. (contexts : List (List ℕ)) → IsIncoming lookup.old contexts moment (end_of end.now) incoming) }
    ensures same { lookup.new ≡ lookup.old }
{
    let components = end.components.as_slice();
    let mut entries = deliver(lookup, components, moment, Entries::new(alloc))?;
    entries.push(Entry {
        moment,
        kind: EntryKind::PeerEnd,
    })?;
    Ok(Incoming {
        entries,
        elements: components.len(),
    })
}

/// The entry of an Abort.
fn of_abort(alloc: Global, abort: &Abort<'_>, moment: Moment) -> Result<Incoming, AllocError>
    ensures { IfOk result (λ incoming. (contents : Contents) (contexts : List (List ℕ)) → IsIncoming contents contexts moment (abort_of abort.now) incoming) }
{
    let mut entries = Entries::new(alloc);
    entries.push(Entry {
        moment,
        kind: EntryKind::PeerAbort,
    })?;
    Ok(Incoming {
        entries,
        elements: 0,
    })
}

/// The entries of a message.
pub fn incoming_of(
    alloc: Global,
    lookup: &mut Lookup<'_>,
    contexts: &[Name],
    message: &Message<'_>,
    moment: Moment,
) -> Result<Incoming, Failure>
    ensures ok { IfOk result (IsIncoming lookup.old contexts.now moment (message_value message.now)) }
    ensures err { IfErr result (IsMessageFailure contexts.now (message_value message.now)) }
    ensures same { lookup.new ≡ lookup.old }
{
    match message {
        Message::Unidirectional => Ok(Incoming {
            entries: Entries::new(alloc),
            elements: 0,
        }),
        Message::Begin(begin) => of_begin(alloc, lookup, contexts, begin, moment),
        Message::End(end) => Ok(of_end(alloc, lookup, end, moment)?),
        Message::Continue(continuing) => Ok(of_continue(alloc, lookup, continuing, moment)?),
        Message::Abort(abort) => Ok(of_abort(alloc, abort, moment)?),
    }
}
