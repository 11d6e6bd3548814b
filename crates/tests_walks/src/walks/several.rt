//! Walks by calls of several steps, each made in one hold of the lock.

use super::{WALK, Walk, assert_walks};
use fp_book::Totals;
use std::test::Fail;

/// Lists of messages, and in one of them a message that is held back. The turns of five dialogues, in the holds of one
/// to three workers: the turn of the first dialogue has 49 entries, and follows the turn of the second one. And
/// parcels, in the end while the link goes down.
const SEVERAL: &str = "\
adds 70 unidirectional
front => six
drain 64 => drained
front => none
offer empty => opened
turn 0 => silent
offers 4 rejects => all accepted
# the other six messages that are discarded, and the five messages and the turn of this dialogue
drain 13 => drained
add 2B
add reject
begins 2C 3
front => four
front => four
turn 1 => silent
front => none
share 2 32 => two three silent enough
turn 1 => turns at hand
give-in-share => turns at hand
share 2 32 => two three silent enough
serve
share 1 2 => two one queued enough
serve
share 3 1 => one none queued enough
serve
share 1 0 => none one silent enough
share 1 32 => one none silent enough
serve
share 1 32 => one none silent enough
serve
share 1 32 => one none silent enough
serve
pick => picked
in-hold => sent
in-hold => sent
in-hold => sent
in-hold => sent nothing
share 1 0 => none none silent enough
share 1 32 => none none silent nothing
give-in-share => nothing
add unidirectional
add strange
add unidirectional
front => aborted none
pick => picked
down
in-hold => sent down
log => P T1 G1 P P P P T2 T1 B2 B1 T3 T4 G3 G4 T5 T2 G5 G2 T1 G1 T1 G1 T1 G1 T1 Q3 Y3 Q4 Y4 Q5 Y5 Q2 Y2 G1 P P P Q0 N Y0
";

/// A call of several steps makes them in their order, as the log says: of a list of messages at most 64 are posted, and
/// none from the first on that is held back, and the call says if an Abort of the provider answers one of them; turns
/// come back, served or not, before the share of a worker is taken, and no more than it asks for; and the parcel that
/// is picked after one was sent is the next one, unless the link is down.
#[test]
fn holds_make_several_steps(rt: HostRuntime) -> Result<(), Fail> {
    let walk = Walk {
        name: "SEVERAL",
        script: SEVERAL,
        totals: Totals {
            accepted: 69,
            served: 74,
            sent: 4,
        },
        ..WALK
    };
    assert_walks(&rt, rt.alloc(), &[walk])
}

/// Five turns and four parcels, the last one after the link went down, among foreign ones or not. The foreign parcel
/// that is reported in a hold is the same as the first one, which was sent.
const FOREIGN: &str = "\
post empty => opened
turn 0 => silent
post 2A => opened
post reject => accepted
post 2B => opened
post 2C => opened
post 2D => opened
share 1 32 => five none silent enough
serve
+ foreign-turns => none none silent enough eight
+ mix => thirteen
share 1 0 => none none queued enough
+ foreign-turns => none none silent enough eight
pick => picked
+ foreign-parcels 1 2A => foreign nothing foreign foreign
+ foreign-parcels 0 77 => foreign nothing foreign foreign
in-hold => sent
+ foreign-parcels 0 2A => foreign nothing foreign foreign
report => sent
+ foreign-in-hold 0 2A => foreign
- pick => picked
in-hold => sent
state => up
down
+ foreign-parcels 1 2A => foreign down foreign foreign
in-hold => sent down
log => P T1 G1 P P P P P T2 T1 T3 T4 T5 G2 G1 G3 G4 G5 Q2 Y2 Q3 Y3 Q4 Y4 Q5 N Y5
";

/// Turns and parcels that aren't out change nothing, are neither counted nor logged, and don't keep the others from
/// going through: two turns of another link, one that was given before and one of a dialogue whose turn is out, served
/// or not, which are dropped if they come back with others, and come back if each comes alone; and parcels of another
/// link, of a dialogue whose parcel is out, and one that was sent before, while another one is out, none is, or the
/// link is down. All else is as without them.
#[test]
fn foreign_ones_change_nothing(rt: HostRuntime) -> Result<(), Fail> {
    let without = Walk {
        name: "FOREIGN",
        script: FOREIGN,
        totals: Totals {
            accepted: 5,
            served: 10,
            sent: 4,
        },
        ..WALK
    };
    let with = Walk {
        are_foreign_brought: true,
        name: "FOREIGN with them",
        ..without
    };
    assert_walks(&rt, rt.alloc(), &[without, with])
}

/// Help with fewer turns than are ready, with none, and with all of them: a worker is hinted if some are left, and two
/// of three workers if two are.
const HELP: &str = "\
hints 1
begins 0 3
front => none
help 2 => queued
hinted 0 => hinted
turn 0 => queued
turn 0 => nothing
begins 0 1
front => none
help 0 => silent
hinted 0 => hinted
turn 0 => queued
begins 0 3
front => none
help 3 => queued
turn 0 => nothing
hints 2
begins 0 2
front => none
help 0 => silent
close
hinted 0 => hinted
hinted 0 => hinted
hinted 0 => closed
turn 0 => queued
turn 0 => queued
# of each call the message, and its turn that goes out and comes back
drain 27 => drained
";

/// Who helps serves at most as many turns as it may, and hints to as many workers as it leaves turns, and not else.
#[test]
fn help_has_its_bound(rt: HostRuntime) -> Result<(), Fail> {
    let walk = Walk {
        name: "HELP",
        script: HELP,
        totals: Totals {
            accepted: 9,
            served: 18,
            sent: 0,
        },
        ..WALK
    };
    assert_walks(&rt, rt.alloc(), &[walk])
}

/// The turns of 40 calls, served in several holds; then the turns of two calls, served in one.
const IN_PLACE: &str = "\
begins 0 40
front => none
serve-in-place 0 => forty silent enough
serve-in-place 64 => eight queued enough
serve-in-place 3 => five queued enough
serve-in-place 5 => none queued enough
serve-in-place 1 => none silent nothing
# of each call the message, and its turn that goes out and comes back
drain 120 => drained
begins 28 2
front => none
serve-in-place 64 => none queued nothing
log => P P T41 G41 T42 G42
";

/// Turns are served in their places, each taken and given before the next one, as the log says: none, as many as a hold
/// serves at most, fewer than are ready, just as many, and all; and the call says how many are still ready.
#[test]
fn turns_are_served_in_their_places(rt: HostRuntime) -> Result<(), Fail> {
    let walk = Walk {
        name: "IN_PLACE",
        script: IN_PLACE,
        totals: Totals {
            accepted: 42,
            served: 84,
            sent: 0,
        },
        ..WALK
    };
    assert_walks(&rt, rt.alloc(), &[walk])
}

/// Forty calls, which a worker serves whose hub is closed when the first turn passes its gate.
const CLOSED: &str = "\
begins 0 40
front => none
hints 1
hint => hint
worker
hint => no hint
sends 40 => all sent
quiet 0 => quiet
# of each call the message, its turn that goes out and comes back, and the frame that is picked and sent
drain 200 => drained
";

/// A worker that has many turns when its hub is closed serves them and gives them back, and those that were ready too.
#[test]
fn closed_worker_gives_back_its_turns(rt: HostRuntime) -> Result<(), Fail> {
    let walk = Walk {
        name: "CLOSED",
        script: CLOSED,
        totals: Totals {
            accepted: 40,
            served: 80,
            sent: 40,
        },
        ..WALK
    };
    assert_walks(&rt, rt.alloc(), &[walk])
}
