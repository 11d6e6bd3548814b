//! The clock of a link.

use crate::link::Link;
use crate::system::System;
use fp_linkstate::{LinkEnd, LinkEvent};
use fp_runlog::Left;
use fp_tally::{now, time_since};
use std::sync::ledger::Ledger;
use std::time::{Duration, Instant};

/// The time from one tick to the next, in seconds.
const SECONDS: u64 = 1;

/// The longest rest of the clock, in milliseconds, while lines wait and there is no room, or no memory, for their text.
const MILLISECONDS_WITHOUT_ROOM: u64 = 10;

impl<R: System, A: Ledger, B: Ledger, C: Ledger> Link<'_, R, A, B, C> {
    /// Ticks, and hints to a worker. Notes the status of the link, and takes it down if all links are to go down, or if
    /// its dialogues keep more entries than they may. If its node drained before the tick and no dialogue is held, the
    /// links are to end.
    fn tick(&self) {
        let Link { run, hub, .. } = *self;
        let rt = run.rt;
        let has_drained = match run.draining {
            Some(draining) => draining.is_over(rt),
            None => false,
        };
        let after = hub.tick_and_look(rt, now(rt));
        hub.hint(rt);
        self.note(after.status);
        self.note_tick();
        if let Some(fault) = run.stop.fault(rt) {
            self.meet(LinkEvent::RunFault { why: fault.why() });
        } else if after.entry_count > run.settings.most_entries {
            self.meet(LinkEvent::TooManyEntries);
        }
        if has_drained && after.status.dialogues == 0 {
            run.stop.quit(rt);
        }
    }

    /// Ticks once a second. Makes the text of the link's log lines, for the thread that writes the log, once a second,
    /// and when 512 wait in the book, in one turn after another while some are left. Takes the link down two seconds
    /// after the links were to end, even if its other threads still wait. Returns once the link is down.
    ///
    /// If the clock gives no time, it ticks each time that it wakes, and after each turn.
    pub(crate) fn keep_time(self) {
        let Link { run, hub, .. } = self;
        let rt = run.rt;
        let second = Duration::from_secs(SECONDS);
        let without_room = Duration::from_millis(MILLISECONDS_WITHOUT_ROOM);
        let mut last = Instant::now(rt).ok();
        let mut left = Left::Nothing;
        for _ in rt.forever() {
            let since = time_since(rt, last).unwrap_or(Duration::ZERO);
            let to_the_tick = second.saturating_sub(since);
            let rest = match self.end_and_time_left() {
                (LinkEnd::Up { .. } | LinkEnd::Down, _) => to_the_tick,
                (_, left) => to_the_tick.min(left),
            };
            match left {
                Left::Nothing => hub.rest(rt, rest),
                Left::Lines => {}
                Left::NoRoom | Left::NoMemory => hub.rest(rt, rest.min(without_room)),
            }
            if time_since(rt, last).unwrap_or(second) >= second {
                last = Instant::now(rt).ok();
                self.tick();
            }
            self.look_at_clock();
            left = self.log.make_text();
            if hub.is_down(rt) {
                break;
            }
        }
    }
}
