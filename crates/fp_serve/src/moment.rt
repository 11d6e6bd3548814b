//! The tag that a run takes from the time of day, and the wait for the next second.

ghost use Rattle.std.specs.Prelude.{◌≡◌, ◌≤◌};
ghost use Rattle.fp_serve.specs.Tag.{tag_by};

use crate::run::{Events, Links};
use crate::socket::report_news;
use fp_digits::Moment;
use fp_network::NetworkLink;
use fp_tally::{now, time_since};
use fp_tids::LocalIds;
use std::rt::Clock;
use std::sync::Wait;
use std::thread;
use std::time::{Duration, Instant};

/// The number of milliseconds in a second.
const MILLISECONDS_OF_A_SECOND: u64 = 1_000;

/// The most waits for the next second: it takes more than one if the clock runs slowly or was set back.
const MOST_WAITS: u32 = 3;

/// The tag of the second of a moment: 1 to 4,094.
pub(crate) fn tag_of(moment: Moment) -> u16
    ensures value { result ≡ tag_by moment }
    ensures known { result ≤ LocalIds.LAST_TAG }
{
    let second = moment.milliseconds() / MILLISECONDS_OF_A_SECOND;
    (second % u64::from(LocalIds::LAST_TAG)) as u16 + 1
}

/// Drives the network of a node for this time, and reports its events meanwhile.
fn drive<R: Wait + Clock>(rt: &R, network: &NetworkLink, events: &Events, most: Duration) {
    let start = Instant::now(rt).ok();
    for _ in rt.forever() {
        let since = time_since(rt, start).unwrap_or(most);
        let left = most.saturating_sub(since);
        if left.is_zero() || !network.wait(rt, left) {
            return;
        }
        report_news(rt, network, events);
    }
}

/// Waits until the second of this moment is over: at most a second, or three, if the clock is set back meanwhile. The
/// network of a node is driven meanwhile, and its events are reported.
pub(crate) fn await_next_second<R: Wait + Clock>(
    rt: &R,
    links: &Links,
    events: &Events,
    moment: Moment,
) {
    let second = moment.milliseconds() / MILLISECONDS_OF_A_SECOND;
    for _ in 0..MOST_WAITS {
        let milliseconds = now(rt).milliseconds();
        if milliseconds / MILLISECONDS_OF_A_SECOND > second {
            return;
        }
        let left = MILLISECONDS_OF_A_SECOND - milliseconds % MILLISECONDS_OF_A_SECOND;
        let left = Duration::from_millis(left);
        match links {
            Links::Awaited(_) => thread::sleep(rt, left),
            Links::Standing(link) => drive(rt, &link.network, events, left),
        }
    }
}
