//! Runs of mixed steps, drawn from a seed: the steps, and what is known of each message from its making.
//!
//! Begins come from different peers, and every other message is aimed at one of the first five dialogues of the link,
//! or of those after calls that come before all else and are over, now and then at one of another link, or at a serial
//! that is far off; and in a run with a tag at the same serial of another tag, or of none. The components of a run that a
//! dialogue may reject have rising invoke identifiers, from 32 on, which no invocation of a dialogue reaches. Beside
//! single steps a turn is drawn, which is a take and a give for each of the first five dialogues, and five parcels, each
//! picked and sent: so dialogues get on, and several frames of one wait.

use super::draws::Draws;
use super::making::serial_after;
use super::templates::{Aimed, Known, NOTHING, push_bad, push_begin, push_continue, push_ending};
use crate::messages::frame_of;
use crate::numbering::Numbering;
use crate::texts::moment_after;
use cases::{Answer, Steps};
use fp_steps::Step;
use std::alloc::Global;

/// A run that was drawn.
#[derive(Drop)]
pub(super) struct Drawn {
    /// Its steps.
    pub(super) steps: Vec<Step>,
    /// What is known of the message of each step; nothing of a step without one, and of those of the calls before.
    pub(super) known: Vec<Known>,
    /// How many steps the calls before all else have.
    pub(super) lead: usize,
    alloc: Global,
    numbering: Numbering,
    // How many calls come before all else.
    calls: u32,
    // The time, in milliseconds after noon.
    now: u32,
    // How many messages came, and how many Begins among them.
    messages: u32,
    begins: u32,
    // The invoke identifier of the next component.
    number: u32,
}

/// The last number at which there is room for two more invoke identifiers.
const LAST_NUMBER: u32 = 126;

/// The last digit of the number that a Begin is for.
fn digit_of(draw: u32) -> u32 {
    match draw {
        0 => 5,
        1 | 2 => 6,
        3 => 8,
        4 => 9,
        _ => 7,
    }
}

/// What a message is aimed at: mostly this dialogue, else one of another link, or one with a serial that is far off; if
/// there is a tag, also one with the same serial of another tag, or of none.
fn aim_of(draw: u32, local: u32, tag: u16) -> u32 {
    match draw {
        0 => local ^ 0x2000_0000,
        1 => local ^ 0x0001_0000,
        _ if tag == 0 => local,
        2 => local ^ 0x0002_0000,
        3 => local & 0xE001_FFFF,
        _ => local,
    }
}

/// How many milliseconds go by before a tick: up to a limit of time, to just before it, or beyond. Each step takes one
/// more, so that a dialogue may be silent for just the time after which it is tested, for less or for more.
fn pause_of(draw: u32) -> u32 {
    match draw {
        0 => 300_000,
        1..=3 => 180_000,
        4..=6 => 120_000,
        7 | 8 => 119_999,
        9 | 10 => 60_000,
        11..=15 => 10_000,
        16..=22 => 4_000,
        _ => 1,
    }
}

impl Drawn {
    /// The local identifier of the dialogue this number of places after the first one after the calls before.
    fn local_after(&self, places: u32) -> u32 {
        let serial = serial_after(1, self.calls.saturating_add(places));
        self.numbering.base().saturating_add(serial)
    }

    /// The local identifier of one of the first five dialogues, of as many as there were Begins.
    fn local(&self, draws: &mut Draws) -> u32 {
        self.local_after(draws.below(self.begins.clamp(1, 5)))
    }

    /// A message aimed at a dialogue.
    fn push_aimed(&mut self, draws: &mut Draws, text: &mut Answer) -> Known {
        let peer = self.messages.saturating_add(0x7700);
        let local = self.local(draws);
        let aim = aim_of(draws.below(32), local, self.numbering.tag);
        let number = self.number;
        let aimed = Aimed { peer, aim, number };
        let known = match draws.below(32) {
            0 | 1 => push_ending(text, draws.below(4), aimed),
            2 => push_bad(text, draws.below(8), peer, aim),
            _ if number > LAST_NUMBER => push_continue(self.alloc, text, 0, aimed),
            _ => push_continue(self.alloc, text, draws.below(16), aimed),
        };
        self.number = number.saturating_add(known.components);
        known
    }

    /// A message: the first two are Begins, and of the others one of four is.
    fn push_message(&mut self, draws: &mut Draws, text: &mut Answer) -> Known {
        self.messages = self.messages.saturating_add(1);
        if self.messages > 2 && draws.below(4) != 0 {
            return self.push_aimed(draws, text);
        }
        self.begins = self.begins.saturating_add(1);
        let peer = self.messages.saturating_add(0x4200);
        push_begin(text, peer, digit_of(draws.below(16)))
    }

    /// One step more.
    fn add(&mut self, step: Step, known: Known, out: &mut Answer) {
        out.push(&mut self.steps, step);
        out.push(&mut self.known, known);
    }

    /// One step more, which has no message.
    fn add_plain(&mut self, step: Step, out: &mut Answer) {
        self.add(step, NOTHING, out);
    }

    /// A message that comes now, which can't be read if it is lost.
    fn post(&mut self, text: &str, known: Known, is_lost: bool, out: &mut Answer) {
        let moment = moment_after(self.now);
        let Some(frame) = frame_of(self.alloc, text, out) else {
            return;
        };
        let step = if is_lost {
            Step::Lost(frame, moment)
        } else {
            Step::Post {
                table: 0,
                frame,
                moment,
            }
        };
        self.add(step, known, out);
    }

    /// A call from its Begin to its frame, the one of this number.
    fn add_call(&mut self, number: u32, out: &mut Answer) {
        let mut text = Answer::new(self.alloc);
        push_begin(&mut text, number, 6);
        self.post(text.as_str(), NOTHING, false, out);
        self.add_plain(Step::Take, out);
        let serial = serial_after(1, number);
        let local = self.numbering.base().saturating_add(serial);
        self.add_plain(Step::Give(local), out);
        self.add_plain(Step::Pick, out);
        self.add_plain(Step::Sent, out);
    }

    /// The calls before all else.
    fn add_calls(&mut self, out: &mut Answer) {
        for number in 0..self.calls {
            self.add_call(number, out);
        }
        self.lead = self.steps.len();
    }

    /// One step more, which has a message.
    fn add_message(&mut self, draws: &mut Draws, is_lost: bool, out: &mut Answer) {
        let mut text = Answer::new(self.alloc);
        let known = self.push_message(draws, &mut text);
        self.post(text.as_str(), known, is_lost, out);
    }

    /// One tick more.
    fn add_tick(&mut self, draws: &mut Draws, out: &mut Answer) {
        self.now = self.now.saturating_add(pause_of(draws.below(32)));
        self.add_plain(Step::Tick(moment_after(self.now)), out);
    }

    /// A turn of one of the first five dialogues, whichever comes.
    fn add_turn(&mut self, out: &mut Answer) {
        self.add_plain(Step::Take, out);
        for places in 0..5 {
            self.add_plain(Step::Give(self.local_after(places)), out);
        }
    }

    /// Five parcels, if there are five.
    fn add_frames(&mut self, out: &mut Answer) {
        for _ in 0..5 {
            self.add_plain(Step::Pick, out);
            self.add_plain(Step::Sent, out);
        }
    }

    /// One step more, which may end the link.
    fn add_end(&mut self, draws: &mut Draws, out: &mut Answer) {
        let is_end = draws.below(4) == 0;
        self.add_plain(if is_end { Step::Down } else { Step::Unsent }, out);
    }

    /// One step more without a message, or the steps of a turn or of a few parcels.
    fn add_other(&mut self, draws: &mut Draws, draw: u32, out: &mut Answer) {
        match draw {
            29..=48 => self.add_plain(Step::Take, out),
            49..=68 => {
                let local = self.local(draws);
                self.add_plain(Step::Give(local), out);
            }
            69..=73 => {
                let local = self.local(draws);
                self.add_plain(Step::PutBack(local), out);
            }
            74..=83 => self.add_plain(Step::Pick, out),
            84..=93 => self.add_plain(Step::Sent, out),
            94..=103 => self.add_frames(out),
            _ => self.add_turn(out),
        }
    }

    /// One step more, or the steps of a turn or of a few parcels, which it draws.
    fn add_drawn(&mut self, draws: &mut Draws, out: &mut Answer) {
        self.now = self.now.saturating_add(1);
        match draws.below(128) {
            0..=23 => self.add_message(draws, false, out),
            24 => self.add_message(draws, true, out),
            25..=28 => self.add_tick(draws, out),
            127 => self.add_end(draws, out),
            draw => self.add_other(draws, draw, out),
        }
    }
}

/// Steps of a run that is numbered so: those of `calls` calls, and then `count` that are drawn, or a few more.
pub(super) fn draw_steps(
    alloc: Global,
    draws: &mut Draws,
    numbering: Numbering,
    calls: u32,
    count: u32,
    out: &mut Answer,
) -> Drawn {
    let mut drawn = Drawn {
        steps: Vec::new(alloc),
        known: Vec::new(alloc),
        lead: 0,
        alloc,
        numbering,
        calls,
        now: 0,
        messages: 0,
        begins: 0,
        number: 32,
    };
    drawn.add_calls(out);
    let most = drawn.lead.saturating_add(count as usize);
    for _ in 0..count {
        if drawn.known.len() < most {
            drawn.add_drawn(draws, out);
        }
    }
    drawn
}
