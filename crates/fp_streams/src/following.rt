//! The lines of a reader, each taken before the next read.

ghost use Rattle.std.specs.Prelude.{◌≡◌, ◌<◌, ◌≤◌, ◌+◌, ◌^◌, ◌++◌, Some, MatchResult, length, slice_get, take};
ghost use Rattle.fp_streams.specs.Ends.{CountsReads};
ghost use Rattle.fp_streams.specs.Feeding.{FeedStops, Feeds, RefusesLast, fault_at};
ghost use Rattle.fp_streams.specs.Following.{Follows, IsLine, TakesLast, cause_of};
ghost use Rattle.fp_streams.specs.Line.{IsOneLine};

use crate::{LinesFault, LinkRead, TakesLine};
use std::alloc::Global;

/// The most octets of one read.
const MOST_READ: usize = 4096;

/// Hands each line of a reader to `taker`, in their order, and each before the next read.
///
/// A line feed ends a line and is no part of it. The last line may instead end at the end of the input. For example,
/// the octets 61 0A 62 are the lines `a` and `b`. A line has at most `most_octets` octets, and there are at most
/// `most_reads` reads, of up to 4,096 octets each. A fault ends the call, and the lines before it were taken; after
/// [`LinesFault::Memory`] whole lines may be lost. Octets that were read and not taken are lost.
pub fn follow_lines<R: LinkRead, T: TakesLine>(
    alloc: Global,
    most_octets: usize,
    most_reads: u64,
    reader: &mut R,
    taker: &mut T,
) -> Result<(), LinesFault<T::Fault>>
    ensures follows { Follows T.takes T.refuses most_octets most_reads
        (R.remaining reader.old) (R.remaining reader.new) (R.pieces reader.old) (R.pieces reader.new)
        taker.old taker.new result }
    ensures failure { CountsReads cause_of result (R.failures reader.old) (R.failures reader.new) }
{
    let mut room = [0; MOST_READ];
    // A line that one read holds finds its room here, so that memory runs out only before the first line of a read.
    let Ok(begun) = Vec::with_capacity(alloc, MOST_READ) else {
        return Err(LinesFault::Memory);
    };
    let mut following = Following {
        most_octets,
        begun,
        taken: 0,
    };
    for _read in 0..most_reads {
        let Ok(count) = reader.read(&mut room) else {
            return Err(LinesFault::ReadFault);
        };
        if count == 0 {
            return match following.end(taker) {
                Ok(()) => Ok(()),
                Err(fault) => Err(LinesFault::Refused(following.taken + 1, fault)),
            };
        }
        if let Err(stop) = following.feed(&room[..count], taker) {
            return Err(stop.at(following.taken + 1));
        }
    }
    Err(LinesFault::TurnLimit)
}

/// The state of [`follow_lines`]: the limit, the begun line, and the number of lines taken.
#[derive(Drop)]
struct Following {
    most_octets: usize,
    begun: Vec<u8>,
    taken: u128,
}

impl Following {
    /// Takes the lines that end in these octets, and keeps the octets after the last line feed.
    fn feed<T: TakesLine>(&mut self, octets: &[u8], taker: &mut T) -> Result<(), Stop<T::Fault>>
        requires begun { IsLine self.old.most_octets self.old.begun.items }
        requires room { self.old.taken + length octets.now < 2 ^ 128 }
        ensures most { self.new.most_octets ≡ self.old.most_octets }
        ensures grown { self.new.taken ≤ self.old.taken + length octets.now }
        ensures fed { MatchResult result
            (λ _. Feeds T.takes self.old.most_octets taker.old taker.new
            (self.old.begun.items ++ octets.now) self.old.taken self.new.taken self.new.begun.items)
            (FeedStops T.takes T.refuses self.old.most_octets taker.old taker.new
            (self.old.begun.items ++ octets.now) self.old.taken self.new.taken) }
    {
        let mut rest = octets;
        let mut count = line_length(rest);
        loop {
            if count > self.most_octets - self.begun.len() {
                return Err(Stop::TooLong);
            }
            let Ok(()) = self.begun.extend_from_slice(&rest[..count]) else {
                return Err(Stop::Memory);
            };
            if count == rest.len() {
                return Ok(());
            }
            rest = &rest[count + 1..];
            let next = line_length(rest);
            let is_followed = next < rest.len();
            if let Err(fault) = taker.take_line(self.begun.as_slice(), true, is_followed) {
                return Err(Stop::Refused(fault));
            }
            self.begun.clear();
            self.taken += 1;
            count = next;
        }
    }

    /// At the end of the input: takes the begun line as the last one, if it has octets.
    fn end<T: TakesLine>(&self, taker: &mut T) -> Result<(), T::Fault>
        ensures { MatchResult result (λ _. TakesLast T.takes taker.old self.now.begun.items taker.new)
            (λ fault. RefusesLast T.refuses taker.old self.now.begun.items fault taker.new) }
    {
        if self.begun.is_empty() {
            return Ok(());
        }
        taker.take_line(self.begun.as_slice(), false, false)
    }
}

/// Why no further line was taken.
enum Stop<F> {
    /// The next line is too long.
    TooLong,
    /// The next line was refused, for this reason.
    Refused(F),
    /// An allocation failed.
    Memory,
}

impl<F> Stop<F> {
    /// The fault of [`follow_lines`], if the next line has this number.
    fn at(self, number: u128) -> LinesFault<F>
        ensures { result ≡ fault_at number self }
    {
        match self {
            Stop::TooLong => LinesFault::TooLong(number),
            Stop::Refused(fault) => LinesFault::Refused(number, fault),
            Stop::Memory => LinesFault::Memory,
        }
    }
}

/// The number of octets before the first line feed; if there is none, of all octets.
fn line_length(octets: &[u8]) -> usize
    ensures most { result ≤ length octets.now }
    ensures one_line { IsOneLine (take result octets.now) }
    ensures line_feed { result < length octets.now → slice_get octets.now result ≡ Some 10 }
{
    let mut count = 0;
    while count < octets.len() && octets[count] != b'\n' {
        count += 1;
    }
    count
}
