//! Whole dialogues, from frame to frame. A scene keeps the records and the dialogue from one case to the next.
//!
//! | Case | Result |
//! |---|---|
//! | `dialogue-table HEAD` | begins a file of records with this first record: how many numbers and rules it has |
//! | `dialogue-row ROW` | adds this record to the file: the same |
//! | `at MS HEX` | the requests of the entries of this message, in turn, if it arrives MS milliseconds after noon |
//! | `at MS clock` | the requests of the clock at this moment |
//! | `reply LOCAL PEER REQUEST` | the frame of a request, as words of `request`, if the dialogue has these two identifiers |
//! | `abort-frame PEER CAUSE` | the frame of an Abort of the provider for this cause, if the peer has this identifier |
//!
//! Noon is 2024-05-06T12:00:00Z. The application context 2A0304 is accepted. A Begin starts the dialogue anew, as the
//! first of its link: its identifier is 00000001 on this side and the Begin's on the other. The requests are the frames
//! that are sent, each with its head, or `none`. Then follows `over`, or the next moment, in milliseconds after noon,
//! at which the clock has an effect. For example, `none, due 10000`. Each entry is handed to the service step, also if
//! the dialogue is over.

mod request;

use crate::dialogues::request::request_of;
use crate::rows::Rows;
use crate::values::{NOON, abort_cause_of, after_noon, found, frame_of, kept, local_of, tid_of};
use cases::{Answer, first_word, number_of};
use fp_apdu::Name;
use fp_digits::Moment;
use fp_entry::{Arrival, Entry, EntryKind, Prepared};
use fp_q773::{Kind, Tid};
use fp_reply::{abort_frame, bytes_of};
use fp_service::{Core, Request, step};
use std::alloc::Global;

/// The transaction identifier of the dialogue on this side.
const LOCAL: u32 = 1;

/// The application context that is accepted.
const ACCEPTED: [u8; 3] = [0x2A, 0x03, 0x04];

/// The state that cases leave for later ones.
#[derive(Drop)]
pub(crate) struct Scene {
    rows: Rows,
    core: Core,
    peer: Tid,
}

impl Scene {
    /// The state before the first case: no records, and no Begin was received.
    pub(crate) fn new(alloc: Global) -> Scene {
        Scene {
            rows: Rows::new(alloc),
            core: Core::new(1, after_noon(0)),
            peer: Tid::of_number(0),
        }
    }

    /// Writes the result of a case of this kind. `false` if this module has no such cases.
    pub(crate) fn answer(
        &mut self,
        alloc: Global,
        kind: &str,
        rest: &str,
        out: &mut Answer,
    ) -> bool {
        match kind {
            "dialogue-table" => self.rows.begin(alloc, rest, out),
            "dialogue-row" => self.rows.push(alloc, rest, out),
            "at" => self.at(alloc, rest, out),
            "reply" => reply(alloc, rest, out),
            "abort-frame" => framed_abort(alloc, rest, out),
            _ => return false,
        }
        true
    }

    /// Handles an event of the dialogue: a message or the clock.
    fn at(&mut self, alloc: Global, text: &str, out: &mut Answer) {
        let (milliseconds, event) = first_word(text);
        let moment = after_noon(number_of(milliseconds, out));
        match event {
            "clock" => self.tick(alloc, moment, out),
            octets => self.receive(alloc, moment, octets, out),
        }
        push_rest(&self.core, out)
    }

    /// Handles the clock at a moment.
    fn tick(&mut self, alloc: Global, moment: Moment, out: &mut Answer) {
        let kind = EntryKind::Clock;
        self.serve(alloc, &Entry { moment, kind }, out)
    }

    /// Receives a message of these octets.
    fn receive(&mut self, alloc: Global, moment: Moment, octets: &str, out: &mut Answer) {
        if let Some(prepared) = self.prepared(alloc, moment, octets, out) {
            self.serve_prepared(alloc, &prepared, out);
        }
    }

    /// Prepares a message of these octets. `None`, and a fault, if there are no records, or a frame can't hold it.
    fn prepared(
        &self,
        alloc: Global,
        moment: Moment,
        octets: &str,
        out: &mut Answer,
    ) -> Option<Prepared> {
        let name = found(Name::new(&ACCEPTED), "no name", out)?;
        let table = self.rows.table(out)?;
        let frame = frame_of(alloc, octets, out)?;
        Some(Prepared::read(alloc, table, &[name], frame, moment))
    }

    /// Serves the entries of a message. A Begin starts the dialogue.
    fn serve_prepared(&mut self, alloc: Global, prepared: &Prepared, out: &mut Answer) {
        match prepared {
            Prepared::Message { arrival, incoming } => {
                self.begin(arrival);
                self.serve_all(alloc, incoming.entries.as_slice(), out)
            }
            _ => out.fail("no message"),
        }
    }

    /// Starts the dialogue if the message is a Begin.
    fn begin(&mut self, arrival: &Arrival) {
        if let (Kind::Begin, Some(peer)) = (arrival.ids.kind, arrival.ids.orig) {
            self.core = Core::new(1, arrival.moment);
            self.peer = peer;
        }
    }

    /// Serves entries in turn, and writes the frames that are sent for them.
    fn serve_all(&mut self, alloc: Global, entries: &[Entry], out: &mut Answer) {
        for entry in entries {
            self.serve(alloc, entry, out);
        }
    }

    /// Serves an entry, and writes the frame that is sent for it, after a blank if there is text before it.
    fn serve(&mut self, alloc: Global, entry: &Entry, out: &mut Answer) {
        match step(alloc, &self.core, entry) {
            Ok((core, request)) => {
                self.core = core;
                self.answer_with(alloc, &request, out);
            }
            Err(_) => out.run_out(),
        }
    }

    /// Writes the frame of a request, if there is one, after a blank if there is text before it.
    fn answer_with(&self, alloc: Global, request: &Option<Request>, out: &mut Answer) {
        if let Some(request) = request {
            out.separator(" ");
            push_frame(alloc, request, LOCAL, &self.peer, out);
        }
    }
}

/// Writes `none` if no frame was sent, and then `over`, or when the clock next has an effect.
fn push_rest(core: &Core, out: &mut Answer) {
    if out.is_empty() {
        out.text("none");
    }
    if core.is_over() {
        out.text(", over");
    } else {
        out.labeled(", due ", core.next_due().saturating_sub(NOON));
    }
}

/// Writes the frame of a request.
fn push_frame(alloc: Global, request: &Request, local: u32, peer: &Tid, out: &mut Answer) {
    if let Some(octets) = kept(bytes_of(alloc, request, local, peer), out) {
        out.octets(octets.as_slice());
    }
}

/// Writes the frame of a request that a text spells.
fn reply(alloc: Global, text: &str, out: &mut Answer) {
    let (local, rest) = first_word(text);
    let (peer, request) = first_word(rest);
    let local = local_of(local, out);
    let peer = tid_of(alloc, peer, out);
    if let Some(request) = request_of(alloc, request, out) {
        push_frame(alloc, &request, local, &peer, out);
    }
}

/// Writes the frame of an Abort of the provider.
fn framed_abort(alloc: Global, text: &str, out: &mut Answer) {
    let (peer, cause) = first_word(text);
    let peer = tid_of(alloc, peer, out);
    let cause = abort_cause_of(cause, out);
    out.octets(abort_frame(peer, cause).as_slice())
}
