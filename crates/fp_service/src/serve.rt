//! The step of the service logic.

ghost use Rattle.std.specs.Prelude.{◌≡◌, IfOk, IsOk};
ghost use Rattle.fp_service.specs.Serve.{by_opening, on_kind, on_opening, reject_linked, serve};

use crate::{AbortPortion, Core, Request, Stage, State};
use fp_apdu::Opening;
use fp_digits::Moment;
use fp_entry::{Entry, EntryKind};
use fp_q773::{InvokeProblem, Problem};
use std::alloc::{AllocError, Global};

/// The step of the service logic: the core after an entry, and the request. It follows the table at the crate's root,
/// and is `serve` of `specs/Serve.antt`.
///
/// Takes no memory, so it never returns the error.
pub fn step(
    alloc: Global,
    core: &Core,
    entry: &Entry,
) -> Result<(Core, Option<Request>), AllocError>
    ensures value { IfOk result (λ served. served ≡ serve core.now entry.now) }
    ensures done { IsOk result }
{
    let _alloc = alloc;
    let mut after = *core;
    let request = after.step(entry);
    Ok((after, request))
}

impl Core {
    /// The step of the service logic in place: replaces the core by the one after an entry. Returns the request, as
    /// [`step`] does. Takes no memory.
    #[tactic(auto, unfolding(crate::specs::Serve::serve))]
    pub fn step(&mut self, entry: &Entry) -> Option<Request>
        ensures { (self.new, result) ≡ serve self.old entry.now }
    {
        let state = self.state;
        self.touch(entry);
        match state {
            State::Over => None,
            State::Live(stage) => self.on_kind(stage, entry.moment, &entry.kind),
        }
    }

    /// Handles an entry of a dialogue that isn't over.
    #[tactic(auto, unfolding(crate::specs::Serve::on_kind))]
    fn on_kind(&mut self, stage: Stage, moment: Moment, kind: &EntryKind) -> Option<Request>
        ensures { (self.new, result) ≡ on_kind stage self.old moment kind.now }
    {
        match kind {
            EntryKind::PeerEnd | EntryKind::PeerAbort => {
                self.end();
                None
            }
            EntryKind::Opened(opening) => self.on_opening(stage, *opening),
            EntryKind::InitialDp {
                identifier,
                linked: Some(linked),
                ..
            }
            | EntryKind::Event {
                identifier,
                linked: Some(linked),
                ..
            }
            | EntryKind::UnknownInvoke {
                identifier,
                linked: Some(linked),
                ..
            } => self.reject_linked(*identifier, *linked),
            EntryKind::UnknownInvoke {
                identifier,
                linked: None,
                problem,
            } => self.reject(Some(*identifier), Problem::Invoke(*problem)),
            EntryKind::Faulty {
                identifier,
                problem,
            } => self.reject(*identifier, Problem::General(*problem)),
            EntryKind::Result { identifier, last } => {
                self.on_result(stage, moment, *identifier, *last)
            }
            EntryKind::Error { identifier } => self.on_error(stage, moment, *identifier),
            EntryKind::Reject { identifier: None } => None,
            EntryKind::Reject {
                identifier: Some(identifier),
            } => self.on_reject(stage, moment, *identifier),
            EntryKind::InitialDp {
                identifier,
                linked: None,
                calling,
                found,
            } => self.on_initial_dp(stage, moment, *identifier, *calling, found),
            EntryKind::Event {
                linked: None,
                event,
                notification,
                ..
            } => self.on_event(stage, moment, *event, *notification),
            EntryKind::Clock => self.on_clock(stage, moment),
        }
    }

    /// Handles a Begin.
    #[tactic(auto, unfolding(crate::specs::Serve::on_opening))]
    fn on_opening(&mut self, stage: Stage, opening: Opening) -> Option<Request>
        ensures { (self.new, result) ≡ on_opening stage self.old opening }
    {
        match stage {
            Stage::Fresh => {
                self.opening = opening;
                self.by_opening(&opening)
            }
            Stage::Waiting { .. } => None,
        }
    }

    /// Accepts the dialogue, or refuses it by an Abort.
    fn by_opening(&mut self, opening: &Opening) -> Option<Request>
        ensures { (self.new, result) ≡ by_opening self.old opening.now }
    {
        match opening {
            Opening::None | Opening::Known(_) => None,
            Opening::Unknown(name) => self.abort_with(AbortPortion::NoName(*name)),
            Opening::BadVersion(name) => self.abort_with(AbortPortion::NoVersion(*name)),
        }
    }

    /// Rejects an Invoke with a linked identifier.
    #[tactic(auto, unfolding(crate::specs::Serve::reject_linked))]
    fn reject_linked(&mut self, identifier: i8, linked: i8) -> Option<Request>
        ensures { (self.new, result) ≡ reject_linked self.old identifier linked }
    {
        let problem = if self.invocations.active(linked) {
            InvokeProblem::LinkedResponseUnexpected
        } else {
            InvokeProblem::UnrecognizedLinkedIdentifier
        };
        self.reject(Some(identifier), Problem::Invoke(problem))
    }
}
