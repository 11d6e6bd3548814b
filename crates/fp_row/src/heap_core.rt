//! Cores on the heap.

ghost use Rattle.std.specs.Prelude.{◌≡◌, IfOk};
ghost use Rattle.fp_row.specs.proof_only.Serving.{AreAll};

use crate::serving::Steps;
use fp_entry::Entry;
use fp_q773::Tid;
use fp_service::Core;
use std::alloc::{AllocError, Global};
use std::marker::Model;

/// A core in a place of its own on the heap, so that its owner is small and cheap to move. Contracts see the core.
#[derive(Debug, Drop)]
pub(crate) struct HeapCore {
    place: Box<Core>,
}

impl Model for HeapCore {
    ghost use Rattle.fp_service.specs.declared.dialogue.Core.{Core};

    ghost Value = { Core };

    ghost view = { λ core. core.place.value };
}

impl HeapCore {
    /// A copy of this core.
    pub(crate) fn copy_of(alloc: Global, core: &Core) -> Result<HeapCore, AllocError>
        ensures { IfOk result (λ copy. copy ≡ core.now) }
    {
        match Box::new(alloc, *core) {
            Ok(place) => Ok(HeapCore { place }),
            Err(_) => Err(AllocError),
        }
    }

    /// The core.
    pub(crate) fn as_core(&self) -> &Core
        ensures { result.now ≡ self.now }
    {
        &self.place
    }

    /// Serves entries of the core's dialogue until it is over, as [`Steps::of`] does. `Err`: memory
    /// ran out.
    pub(crate) fn serve_all(
        &mut self,
        alloc: Global,
        entries: &[Entry],
        local: u32,
        peer: &Tid,
    ) -> Result<Steps, AllocError>
        ensures { IfOk result (λ steps. AreAll local peer.now self.old entries.now steps self.new) }
    {
        Steps::of(alloc, &mut self.place, entries, local, peer)
    }

    /// The core itself. Takes no memory.
    pub(crate) fn into_core(self) -> Core
        ensures { result ≡ self }
    {
        Box::into_inner(self.place)
    }
}
