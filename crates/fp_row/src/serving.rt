//! The steps of the service logic along entries of a dialogue.

ghost use Rattle.std.specs.Prelude.{◌≡◌, ◌+◌, ◌<◌, ◌++◌, ◌^◌, IfOk, OnOk, OnErr, length, option_to_list};
ghost use Rattle.fp_row.specs.Turn.{frames_under};
ghost use Rattle.fp_row.specs.proof_only.Serving.{AreAll, none_served, one_served};
ghost use Rattle.fp_service.specs.Serve.{next};

use crate::{RequestFrame, RequestFrames};
use fp_entry::Entry;
use fp_q773::Tid;
use fp_reply::bytes_of;
use fp_service::{Core, Request};
use std::alloc::{AllocError, Global};

/// The result of the entries served so far.
#[derive(Debug, Drop)]
pub(crate) struct Steps {
    /// How many entries were served.
    pub(crate) served: usize,
    /// The frames of their requests.
    pub(crate) frames: RequestFrames,
}

/// Puts the frame of a request, under these identifiers, after the others, if there is a request. If memory runs out,
/// the frames are unchanged.
fn add_frame(
    alloc: Global,
    frames: &mut RequestFrames,
    request: Option<Request>,
    local: u32,
    peer: &Tid,
) -> Result<(), AllocError>
    ensures ok { OnOk result (frames.new ≡ frames.old ++ frames_under local peer.now (option_to_list request)) }
    ensures err { OnErr result (frames.new ≡ frames.old) }
{
    let Some(request) = request else {
        return Ok(());
    };
    let octets = bytes_of(alloc, &request, local, peer)?;
    frames.push(RequestFrame::new(octets))
}

impl Steps {
    /// Serves one more entry: `core` is then the core after it. `Err`: memory ran out.
    fn serve(
        &mut self,
        alloc: Global,
        core: &mut Core,
        entry: &Entry,
        local: u32,
        peer: &Tid,
    ) -> Result<(), AllocError>
        requires fits { self.old.served + 1 < 2 ^ 64 }
        ensures steps { OnOk result (self.new ≡ one_served local peer.now core.old self.old entry.now) }
        ensures core { OnOk result (core.new ≡ next core.old entry.now) }
    {
        let request = core.step(entry);
        add_frame(alloc, &mut self.frames, request, local, peer)?;
        self.served += 1;
        Ok(())
    }

    /// Serves entries from the first on, until the dialogue is over: `core` is the core before them, and then the one
    /// after those that were served. `Err`: memory ran out.
    fn serve_all(
        &mut self,
        alloc: Global,
        core: &mut Core,
        entries: &[Entry],
        local: u32,
        peer: &Tid,
    ) -> Result<(), AllocError>
        requires none { self.old ≡ none_served }
        ensures { OnOk result (AreAll local peer.now core.old entries.now self.new core.new) }
    {
        for entry in entries {
            if core.is_over() {
                return Ok(());
            }
            self.serve(alloc, core, entry, local, peer)?;
        }
        Ok(())
    }

    /// Serves entries of a dialogue until it is over, and returns the result: `core` is the core before them, and then
    /// the one after those that were served. `Err`: memory ran out.
    #[inline(always)]
    pub(crate) fn of(
        alloc: Global,
        core: &mut Core,
        entries: &[Entry],
        local: u32,
        peer: &Tid,
    ) -> Result<Steps, AllocError>
        ensures { IfOk result (λ steps. AreAll local peer.now core.old entries.now steps core.new) }
    {
        let mut steps = Steps {
            served: 0,
            frames: RequestFrames::new(alloc),
        };
        steps.serve_all(alloc, core, entries, local, peer)?;
        Ok(steps)
    }
}
