//! Lists of entries of a dialogue.

ghost use Rattle.std.specs.Prelude.{◌≡◌, [], ◌++◌, IfOk, IsOk, OnErr, OnOk};

use fp_entry::{Entries, Entry};
use std::alloc::{AllocError, Global};

/// A copy of these entries. Out of memory is the only error.
pub(crate) fn copies(alloc: Global, entries: &[Entry]) -> Result<Entries, AllocError>
    ensures { IfOk result (λ copy. copy ≡ entries.now) }
{
    let mut copy = Entries::new(alloc);
    'entries: for entry in entries {
        copy.push(entry.try_clone()?)?;
    }
    Ok(copy)
}

/// Puts entries after those that a dialogue accepted. The first entries keep the list that they were handed in with,
/// which takes no memory. If memory runs out, nothing changes.
#[inline(always)]
pub(crate) fn append(accepted: &mut Entries, entries: Entries) -> Result<(), AllocError>
    ensures ok { OnOk result (accepted.new ≡ accepted.old ++ entries) }
    ensures first { accepted.old ≡ [] → IsOk result }
    ensures err { OnErr result (accepted.new ≡ accepted.old) }
{
    if accepted.is_empty() {
        *accepted = entries;
        return Ok(());
    }
    accepted.append(entries)
}
