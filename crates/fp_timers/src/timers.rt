//! Timers, and where they go among others in the order of their identifiers or of their deadlines.

ghost use Rattle.std.specs.Prelude.{◌≡◌, ◌≢◌, ◌<◌, ◌≤◌, ◌↔◌, All, None, false, length, IfErr, IfOk, IfSome, IsTrue};
ghost use Rattle.std.specs.List.{insert, remove};
ghost use Rattle.std.specs.VecDeque.{deque_capacity};
ghost use Rattle.fp_timers.specs.Timers.{IsInOrder, IsAt, IsGapFor, IsInTimeOrder, IsPlaceFor, IsPlaceAfter, IsTimerAt, comes_before, earlier};

use std::collections::VecDeque;

/// A local identifier and its deadline.
#[derive(Clone, Copy, Debug)]
pub struct Timer {
    /// The local transaction identifier.
    pub local: u32,
    /// Its deadline, in milliseconds since 1970-01-01T00:00:00Z.
    pub deadline: u64,
}

/// The place of the identifier's timer, or, if it has none, the place for a new one. Most timers are of new
/// identifiers, whose place is the last, or of the oldest identifier, whose place is the first.
#[inline(always)]
pub(crate) fn place_of(timers: &VecDeque<Timer>, local: u32) -> Result<usize, usize>
    requires { IsInOrder timers.now.items }
    ensures found { IfOk result (IsAt timers.now.items local) }
    ensures missing { IfErr result (IsGapFor timers.now.items local) }
{
    if let Some(last) = timers.back() {
        if last.local < local {
            return Err(timers.len());
        }
        if last.local == local {
            return Ok(timers.len() - 1);
        }
    }
    if has_first(timers, local) {
        return Ok(0);
    }
    timers.binary_search_by_key(&local, |timer| timer.local)
}

/// Whether the first timer is the identifier's.
fn has_first(timers: &VecDeque<Timer>, local: u32) -> bool
    ensures { IsTrue result → IsAt timers.now.items local 0 }
{
    match timers.front() {
        Some(first) => first.local == local,
        None => false,
    }
}

/// Puts a timer at this place; there must be room for it. Most go to the end, so that no other moves.
pub(crate) fn put_at(timers: &mut VecDeque<Timer>, place: usize, timer: Timer)
    requires within { place ≤ length timers.old.items }
    requires room { length timers.old.items < deque_capacity timers.old }
    ensures items { timers.new.items ≡ insert timers.old.items place timer }
    ensures capacity { deque_capacity timers.old ≤ deque_capacity timers.new }
{
    if place == timers.len() {
        timers.push_back_reserved(timer);
        return;
    }
    // There is room, so this takes no memory and succeeds.
    drop(timers.insert(place, timer));
}

/// Removes the timer at this place. Most are first, so that no other moves.
#[inline(always)]
pub(crate) fn take_away(timers: &mut VecDeque<Timer>, place: usize)
    requires { place < length timers.old.items }
    ensures items { timers.new.items ≡ remove timers.old.items place }
    ensures capacity { deque_capacity timers.new ≡ deque_capacity timers.old }
{
    if place == 0 {
        drop(timers.pop_front());
        return;
    }
    drop(timers.remove(place));
}

/// Whether the timer is after all others in the order of their deadlines.
pub(crate) fn comes_last(timers: &VecDeque<Timer>, timer: Timer) -> bool
    requires { IsInTimeOrder timers.now.items }
    ensures { IsTrue result → IsPlaceFor timers.now.items timer (length timers.now.items) }
{
    match timers.back() {
        Some(last) => is_before(last, &timer),
        None => true,
    }
}

/// Whether any timer is before this one in the order of their deadlines: then the first one is.
fn any_before(timers: &VecDeque<Timer>, timer: Timer) -> bool
    requires { IsInTimeOrder timers.now.items }
    ensures { result ≡ false → IsPlaceFor timers.now.items timer 0 }
{
    match timers.front() {
        Some(first) => is_before(first, &timer),
        None => false,
    }
}

/// The place of the timer among others in the order of their deadlines, or the place for it if it isn't there. Most go
/// to one of the ends.
#[inline(always)]
pub(crate) fn place_in_time(timers: &VecDeque<Timer>, timer: Timer) -> usize
    requires { IsInTimeOrder timers.now.items }
    ensures { IsPlaceFor timers.now.items timer result }
{
    if comes_last(timers, timer) {
        return timers.len();
    }
    if !any_before(timers, timer) {
        return 0;
    }
    timers.partition_point(|other| is_before(other, &timer))
}

/// The place of the timer among others in the order of their deadlines, if it is there.
pub(crate) fn place_if_there(timers: &VecDeque<Timer>, timer: Timer) -> Option<usize>
    requires { IsInTimeOrder timers.now.items }
    ensures found { IfSome result (IsTimerAt timers.now.items timer) }
    ensures missing { result ≡ None → All (λ other. other ≢ timer) timers.now.items }
{
    let last = timers.len().saturating_sub(1);
    if is_at(timers, timer, last) {
        return Some(last);
    }
    let place = place_in_time(timers, timer);
    if is_at(timers, timer, place) {
        return Some(place);
    }
    None
}

/// The place of the first timer after `last` in the order of their deadlines, or, if there is none, the number of
/// timers. For `None` all are after it.
pub(crate) fn place_after(timers: &VecDeque<Timer>, last: Option<Timer>) -> usize
    requires { IsInTimeOrder timers.now.items }
    ensures { IsPlaceAfter timers.now.items last result }
{
    let Some(last) = last else {
        return 0;
    };
    timers.partition_point(|timer| !is_before(&last, timer))
}

/// Whether the timer is at this place.
fn is_at(timers: &VecDeque<Timer>, timer: Timer, place: usize) -> bool
    ensures { IsTrue result ↔ IsTimerAt timers.now.items timer place }
{
    match timers.get(place) {
        Some(other) => other.local == timer.local && other.deadline == timer.deadline,
        None => false,
    }
}

/// The earlier of two timers, if there is one.
pub(crate) fn earlier(timer: Option<Timer>, other: Option<Timer>) -> Option<Timer>
    ensures { result ≡ earlier timer other }
{
    match (timer, other) {
        (Some(timer), Some(other)) => {
            if is_before(&other, &timer) {
                Some(other)
            } else {
                Some(timer)
            }
        }
        (Some(timer), None) => Some(timer),
        (None, other) => other,
    }
}

/// Whether the deadline is earlier, or the same with a smaller identifier.
fn is_before(timer: &Timer, other: &Timer) -> bool
    ensures { result ≡ comes_before timer.now other.now }
{
    timer.deadline < other.deadline || timer.deadline == other.deadline && timer.local < other.local
}
