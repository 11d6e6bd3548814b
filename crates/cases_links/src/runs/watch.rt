//! What each output of a run must be after those before it, as far as the steps and the outputs alone say.
//!
//! * Each Begin that is accepted gets the next local identifier of the link: serials come in the order of their queue,
//!   and 1 after the last. No run opens so many dialogues that one comes again which it saw, so no identifier of a
//!   dialogue that is held is given again. A message is accepted, or ends a dialogue, only if it is aimed at one that was
//!   opened. As many components are accepted as it has.
//! * The turns of a dialogue are given one after the other: each begins where what the ones before it served ends. It
//!   has one turn out at a time, of 1 to 16 entries, of which at least one is served, and no more are served than it
//!   has.
//! * A turn queues or drops at most as many requests as it served entries. After requests that were dropped none of its
//!   dialogue is queued.
//! * A frame carries the identifiers of its dialogue; a dialogue has never more frames picked than queued; and the
//!   Rejects of its components go out in the order in which these came.
//! * A dialogue gets at most one ActivityTest for each tick at which no entry had come to it for 120,000 milliseconds.
//! * Aborts of the provider are picked in the order in which they were answered, each to the sender of its message.
//! * One parcel is out at a time, and it alone is sent.
//! * After the end of the link nothing is accepted, taken, queued and picked.
//! * What the outputs come to is what was counted here.

use super::making::serial_after;
use super::octets::is_refusal;
use super::seen::Seen;
use super::templates::Known;
use cases::Answer;
use fp_book::{Given, Posted, Totals};
use fp_steps::{Output, Step};
use std::alloc::Global;

/// An Abort of the provider that was answered.
#[derive(Clone, Copy)]
struct Refusal {
    peer: u32,
    cause: u8,
}

/// What was seen of a run.
#[derive(Drop)]
pub(super) struct Watch {
    // The number that serials are added to.
    base: u32,
    // How many calls came before what was seen. They are over.
    calls: u32,
    dialogues: Vec<Seen>,
    refusals: Vec<Refusal>,
    // How many of them were picked.
    refusals_picked: usize,
    // The dialogue whose parcel is out, 0 for an Abort of the provider.
    parcel: Option<u32>,
    is_down: bool,
    totals: Totals,
    // The moment of the last step that has one, in milliseconds.
    moment: u64,
}

impl Watch {
    /// A run that begins after some calls, with serials that are added to this number.
    pub(super) fn new(alloc: Global, base: u32, calls: u32) -> Watch {
        Watch {
            base,
            calls,
            dialogues: Vec::new(alloc),
            refusals: Vec::new(alloc),
            refusals_picked: 0,
            parcel: None,
            is_down: false,
            totals: Totals {
                accepted: 0,
                served: 0,
                sent: 0,
            },
            moment: 0,
        }
    }

    /// What was counted.
    pub(super) fn totals(&self) -> Totals {
        self.totals
    }

    /// How many frames were compared with an earlier one of their dialogue.
    pub(super) fn compared(&self) -> u32 {
        let mut count: u32 = 0;
        for seen in self.dialogues.as_slice() {
            count = count.saturating_add(seen.compared);
        }
        count
    }

    /// The place of what was seen of a dialogue.
    fn place_of(&self, local: u32) -> Option<usize> {
        let mut place: usize = 0;
        for seen in self.dialogues.as_slice() {
            if seen.local == local {
                return Some(place);
            }
            place = place.saturating_add(1);
        }
        None
    }

    /// What was seen of a dialogue.
    fn seen(&mut self, local: u32) -> Option<&mut Seen> {
        let place = self.place_of(local)?;
        self.dialogues.get_mut(place)
    }

    /// Whether the turn of a dialogue is out.
    fn is_out(&self, local: u32) -> bool {
        match self.place_of(local) {
            Some(place) => match self.dialogues.get(place) {
                Some(seen) => seen.is_out,
                None => false,
            },
            None => false,
        }
    }

    /// Whether an Abort of the provider waits.
    fn has_refusal(&self) -> bool {
        self.refusals_picked < self.refusals.len()
    }

    /// Components were accepted.
    fn accept(&mut self, known: Known, components: u32) -> bool {
        self.totals.accepted = self.totals.accepted.saturating_add(u64::from(components));
        !self.is_down && components == known.components
    }

    /// A dialogue was opened.
    fn open(&mut self, known: Known, local: u32, components: u32, out: &mut Answer) -> bool {
        let count = u32::try_from(self.dialogues.len()).unwrap_or(u32::MAX);
        let serial = serial_after(1, self.calls.saturating_add(count));
        let is_next = local == self.base.saturating_add(serial);
        let is_new = self.place_of(local).is_none();
        let seen = Seen::opened(local, known.peer, self.moment);
        out.push(&mut self.dialogues, seen);
        known.is_begin && is_next && is_new && self.accept(known, components)
    }

    /// A message was refused.
    fn refuse(&mut self, peer: u32, cause: u8, out: &mut Answer) -> bool {
        out.push(&mut self.refusals, Refusal { peer, cause });
        !self.is_down && peer != 0
    }

    /// Whether a message is aimed at a dialogue that was opened.
    fn is_aimed(&self, known: Known) -> bool {
        !known.is_begin && self.place_of(known.aim).is_some()
    }

    /// Entries were accepted.
    fn extend(&mut self, known: Known, entries: u32, components: u32) -> bool {
        let moment = self.moment;
        if let Some(seen) = self.seen(known.aim) {
            seen.accept(entries, moment);
        }
        self.is_aimed(known) && entries == known.entries && self.accept(known, components)
    }

    /// What became of a message.
    fn post(&mut self, known: Known, answer: Posted, components: u32, out: &mut Answer) -> bool {
        match answer {
            Posted::Opened(local) => self.open(known, local, components, out),
            Posted::Accepted(entries) => self.extend(known, entries, components),
            Posted::Aborted(cause) => {
                self.refuse(known.peer, cause.code(), out) && components == 0
            }
            Posted::Ended => !self.is_down && self.is_aimed(known) && components == 0,
            Posted::Discarded => components == 0,
        }
    }

    /// What became of a message. One that was lost isn't accepted.
    fn read(&mut self, known: Known, output: &Output, is_lost: bool, out: &mut Answer) -> bool {
        let Output::Posted { answer, components } = output else {
            return false;
        };
        match answer {
            Posted::Opened(_) | Posted::Accepted(_) if is_lost => false,
            _ => self.post(known, *answer, *components, out),
        }
    }

    /// Time went by.
    fn tick(&mut self, output: &Output) -> bool {
        let Output::Ticked { added, wanting } = output else {
            return false;
        };
        let moment = self.moment;
        for seen in self.dialogues.as_mut_slice() {
            seen.tick(moment);
        }
        let most = if self.is_down {
            0
        } else {
            self.dialogues.len()
        };
        *added as usize <= most && *wanting == 0
    }

    /// A turn was taken.
    fn took(&mut self, local: u32, position: u64, count: u32) -> bool {
        let is_up = !self.is_down;
        match self.seen(local) {
            Some(seen) => seen.take(position, count) && is_up,
            None => false,
        }
    }

    /// What a take answers.
    fn take(&mut self, output: &Output) -> bool {
        match output {
            Output::Took {
                local,
                position,
                count,
            } => self.took(*local, *position, *count),
            Output::Nothing => true,
            _ => false,
        }
    }

    /// A turn was given.
    fn gave(&mut self, local: u32, position: u64, served: u32, given: Given) -> bool {
        self.totals.served = self.totals.served.saturating_add(u64::from(served));
        let is_down = self.is_down;
        match self.seen(local) {
            Some(seen) => seen.give(position, served, given, is_down),
            None => false,
        }
    }

    /// What a give answers.
    fn give(&mut self, asked: u32, output: &Output) -> bool {
        match output {
            Output::Gave {
                local,
                position,
                served,
                given,
            } => self.gave(*local, *position, *served, *given) && *local == asked,
            Output::Nothing => !self.is_out(asked),
            _ => false,
        }
    }

    /// What a put-back answers.
    fn put_back(&mut self, asked: u32, output: &Output) -> bool {
        match output {
            Output::WentBack => match self.seen(asked) {
                Some(seen) => seen.put_back(),
                None => false,
            },
            Output::Nothing => !self.is_out(asked),
            _ => false,
        }
    }

    /// An Abort of the provider was picked: the oldest that waits.
    fn picked_refusal(&mut self, frame: &[u8]) -> bool {
        let oldest = self.refusals.get(self.refusals_picked).copied();
        self.refusals_picked = self.refusals_picked.saturating_add(1);
        match oldest {
            Some(Refusal { peer, cause }) => is_refusal(frame, peer, cause),
            None => false,
        }
    }

    /// The frame of a dialogue was picked, while no Abort of the provider waits.
    fn picked_frame(&mut self, local: u32, frame: &[u8]) -> bool {
        let has_refusal = self.has_refusal();
        match self.seen(local) {
            Some(seen) => seen.pick(frame) && !has_refusal,
            None => false,
        }
    }

    /// Something was picked.
    fn picked(&mut self, local: u32, frame: &[u8]) -> bool {
        let is_free = self.parcel.is_none() && !self.is_down;
        self.parcel = Some(local);
        if local == 0 {
            self.picked_refusal(frame) && is_free
        } else {
            self.picked_frame(local, frame) && is_free
        }
    }

    /// What a pick answers.
    fn pick(&mut self, output: &Output) -> bool {
        match output {
            Output::Picked { local, frame } => self.picked(*local, frame.as_slice()),
            Output::Busy => self.parcel.is_some(),
            Output::Nothing => self.parcel.is_none() && (self.is_down || !self.has_refusal()),
            _ => false,
        }
    }

    /// The parcel was sent.
    fn sent(&mut self) -> bool {
        let parcel = self.parcel.take();
        if let Some(local) = parcel
            && local != 0
        {
            self.totals.sent = self.totals.sent.saturating_add(1);
        }
        parcel.is_some()
    }

    /// What a report answers.
    fn report(&mut self, output: &Output, is_sent: bool) -> bool {
        match output {
            Output::Sent => self.sent() && is_sent,
            Output::Unsent => {
                self.is_down = true;
                self.parcel.take().is_some() && !is_sent
            }
            Output::Nothing => self.parcel.is_none(),
            _ => false,
        }
    }

    /// The link is gone.
    fn end(&mut self, output: &Output) -> bool {
        self.is_down = true;
        matches!(output, Output::Down)
    }

    /// Whether this may be the output of a step, after those before it.
    pub(super) fn is_right(
        &mut self,
        step: &Step,
        known: Known,
        output: &Output,
        out: &mut Answer,
    ) -> bool {
        if let Step::Post { moment, .. } | Step::Lost(_, moment) | Step::Tick(moment) = step {
            self.moment = moment.milliseconds();
        }
        match step {
            Step::Post { .. } => self.read(known, output, false, out),
            Step::Lost(..) => self.read(known, output, true, out),
            Step::Tick(_) => self.tick(output),
            Step::Take => self.take(output),
            Step::Give(local) => self.give(*local, output),
            Step::PutBack(local) => self.put_back(*local, output),
            Step::Pick => self.pick(output),
            Step::Sent => self.report(output, true),
            Step::Unsent => self.report(output, false),
            Step::Down => self.end(output),
        }
    }
}
