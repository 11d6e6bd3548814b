//! The time of day, and time that went by.

ghost use Rattle.std.specs.Prelude.{◌≡◌, ◌-◌, ◌/◌, min};
ghost use Rattle.std.specs.Duration.{as_nanos};

use fp_digits::Moment;
use std::rt::Clock;
use std::time::{Duration, Instant, SystemTime, UNIX_EPOCH};

/// The present moment. If the clock gives no time, or one before 1970, it is the first moment, and from the year 2100
/// on the last.
pub fn now<R: Clock>(rt: &R) -> Moment {
    let Ok(time) = SystemTime::now(rt) else {
        return moment_after(Duration::ZERO);
    };
    moment_after(time.duration_since(UNIX_EPOCH).unwrap_or(Duration::ZERO))
}

/// The time since then. `None` if the clock gives no time.
pub fn time_since<R: Clock>(rt: &R, then: Option<Instant>) -> Option<Duration> {
    then?.elapsed(rt).ok()
}

/// The moment this long after 1970-01-01T00:00:00Z, parts of a millisecond dropped; or the last that there is, if that
/// is later.
fn moment_after(since: Duration) -> Moment
    ensures { result ≡ min (as_nanos since / 1000000) (Moment.END - 1) }
{
    let last = Moment::END - 1;
    let milliseconds = u64::try_from(since.as_millis()).unwrap_or(last).min(last);
    match Moment::new(milliseconds) {
        Some(moment) => moment,
        None => unreachable!(),
    }
}
