//! Walks by single calls: each call of a hub, all places for frames, and hints.

use super::{WALK, Walk, assert_walks};
use fp_book::Totals;
use std::test::Fail;

/// A call that is answered; then one that is held until its time is over, and whose Abort can't be sent, which takes
/// the link down. Then the thread that rests, and how full the log is: 512 lines wake it, with 5,120 the log is
/// filling, with 7,168 nearly full, with 64 it has some, and with 1,024 it is long.
const EACH_CALL: &str = "\
post 2A => opened
put-back 0 => back
turn 0 => queued
turn 2 => nothing
send => sent
send => nothing
post empty => opened
turn 0 => silent
tick 299999 => none due
turn 1 => nothing
tick 300000 => one due
turn 1 => queued
state => up
unsend => unsent
state => down
post 2B => discarded
turn 0 => nothing
tick 600000 => none due
send => nothing
rest 100000 => woken
# 16 lines came of these calls
posts 495 unidirectional => all discarded
rest 20 => rested
post unidirectional => discarded
rest 100000 => woken
drain 512 => drained
posts 512 unidirectional => all discarded
rest 100000 => woken
posts 4607 unidirectional => all discarded
fullness => not filling
post unidirectional => discarded
fullness => filling
drain-into 1 1 => drained
fullness => not filling
posts 2048 unidirectional => all discarded
fullness => filling
post unidirectional => discarded
fullness => nearly full
drain-into 1 1 => drained
fullness => filling
drain 7167 => drained
fullness => not filling
amount => few
exchange 0 => exchanged
posts 63 unidirectional => all discarded
amount => few
post unidirectional => discarded
amount => some
exchange 64 => exchanged
amount => few
exchange 0 => exchanged
posts 1023 unidirectional => all discarded
amount => some
post unidirectional => discarded
amount => long
exchange 1024 => exchanged
amount => few
drain 0 => drained
down
rest 100000 => woken
";

/// Each call of a hub makes its step: a call that is answered, then one that is held until its time is over and whose
/// Abort can't be sent, which takes the link down and wakes the thread that rests. 512 lines wake it too, each time
/// after the log was drained, and fewer don't; with 5,120 the log is filling, and with 7,168 nearly full, also if a
/// drain left some of them. An exchange takes all at once, and says which link it is.
#[test]
fn each_call_makes_its_step(rt: HostRuntime) -> Result<(), Fail> {
    let walk = Walk {
        link: 3,
        name: "EACH_CALL",
        script: EACH_CALL,
        totals: Totals {
            accepted: 1,
            served: 4,
            sent: 1,
        },
        ..WALK
    };
    assert_walks(&rt, rt.alloc(), &[walk])
}

/// All 8,192 places for frames are filled after a parcel was sent, by 513 messages of 16 calls. Two workers listen, and
/// one of them is hinted. Turns are served one by one.
const PLACES: &str = "\
hints 2
post calls => opened
turn 0 => all queued
await-and-send 0 => sent
posts 512 calls => all opened
serve-all => no room
await-and-send 0 => sent
close
hinted 0 => hinted
hinted 1 => closed
serve-all => no room
";

/// The same with turns that are served in shares. A worker is hinted as soon as it is asked for.
const PLACES_IN_SHARES: &str = "\
hints 2
post calls => opened
turn 0 => all queued
await-and-send 0 => sent
posts 512 calls => all opened
serve-all-in-shares => no room
send => sent
after-no-room
close
hinted 0 => hinted
hinted 1 => closed
serve-all-in-shares => no room
";

/// The same with turns that are served in their places.
const PLACES_IN_PLACE: &str = "\
hints 2
post calls => opened
turn 0 => all queued
await-and-send 0 => sent
posts 512 calls => all opened
serve-all-in-place => no room
await-and-send 0 => sent
close
hinted 0 => hinted
hinted 1 => closed
serve-all-in-place => no room
";

/// If all 8,192 places for frames are held, a worker is hinted when the next parcel is awaited, or it is asked for, and
/// not before: 513 messages of 16 calls have 8,208 answers, one of which is sent before that.
#[test]
fn free_places_are_hinted(rt: HostRuntime) -> Result<(), Fail> {
    let one_by_one = Walk {
        name: "PLACES",
        script: PLACES,
        totals: Totals {
            accepted: 8_208,
            served: 8_707,
            sent: 2,
        },
        ..WALK
    };
    let in_shares = Walk {
        name: "PLACES_IN_SHARES",
        script: PLACES_IN_SHARES,
        ..one_by_one
    };
    let in_place = Walk {
        name: "PLACES_IN_PLACE",
        script: PLACES_IN_PLACE,
        ..one_by_one
    };
    assert_walks(&rt, rt.alloc(), &[one_by_one, in_shares, in_place])
}

/// Hints to three workers, before the hub is closed and after.
const HINTS: &str = "\
hints 3
hint => hint
hint => hint
hint => hint
hint => hint
hint => hint
close
hint => no hint
hinted 0 => hinted
hinted 0 => hinted
hinted 0 => hinted
hinted 0 => closed
";

/// At most as many hints wait as there are workers, and they are taken after the hub was closed.
#[test]
fn hints_wait_for_each_worker(rt: HostRuntime) -> Result<(), Fail> {
    let walk = Walk {
        name: "HINTS",
        script: HINTS,
        ..WALK
    };
    assert_walks(&rt, rt.alloc(), &[walk])
}
