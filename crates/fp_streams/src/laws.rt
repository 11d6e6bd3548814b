//! Laws of the lines of octets.

ghost use Rattle.fp_streams.specs.Parting.{EndEndsLine, EndedLines, LineFeedEndsLine, LongStaysLong, NoneHasNoLine};

/// A line feed ends a line. So does the end of the octets, if any octet follows the last line feed. There is no other
/// line.
#[tactic(auto, using(crate::proofs::Parts::line_ends))]
pub fn line_feeds_end_lines()
    ensures line_feed { LineFeedEndsLine }
    ensures end { EndEndsLine }
    ensures none { NoneHasNoLine }
    ensures lines { EndedLines }
    ensures long { LongStaysLong }
{}
