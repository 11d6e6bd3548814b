//! The octets of a length, and the contents after them (X.690, 8.1.3 and 10.1).

ghost use Rattle.std.specs.Prelude.{◌≡◌, ◌<◌, ◌≤◌, ◌^◌, ◌∷◌, true, IfOk, IfErr, MatchOption};
ghost use Rattle.std.specs.Prelude as lengths;
ghost use Rattle.fp_ber.specs.Spelling.{BeginsLength};
ghost use Rattle.fp_ber.specs.Faults.{LengthFault};
ghost use Rattle.fp_ber.specs.Canon.{length_octets, Puts};
ghost use Rattle.fp_ber.specs.Extents.{IsExtent, ExtentFault};

use crate::fault::BerFault;
use crate::placing::put;

/// The first octet of an indefinite length.
const INDEFINITE: u8 = 0x80;

/// The contents of an element, or their beginning.
#[derive(Drop)]
pub enum Extent<'a> {
    /// The contents, and the octets after the element.
    Definite { contents: &'a [u8], rest: &'a [u8] },
    /// The octets after the length: elements up to an end of contents.
    Indefinite { rest: &'a [u8] },
}

/// Reads a length, the first octets after a tag, and gives the octets after it. `None` for an indefinite length, a
/// fault in a primitive element. For example, `82 01 00` is 256.
pub fn length_at(octets: &[u8], constructed: bool) -> Result<(Option<usize>, &[u8]), BerFault>
    ensures ok { IfOk result (λ x. MatchOption x.0
        ((constructed ≡ true) × (octets.now ≡ 0x80 ∷ x.1.now))
        (λ n. BeginsLength octets.now n x.1.now)) }
    ensures err { IfErr result (LengthFault constructed octets.now) }
{
    let [first, rest @ ..] = octets else {
        return Err(BerFault::Cut);
    };
    match *first {
        0..=0x7F => Ok((Some(usize::from(*first)), rest)),
        INDEFINITE => {
            if !constructed {
                return Err(BerFault::BadLength);
            }
            Ok((None, rest))
        }
        0x81 => {
            let [a, rest @ ..] = rest else {
                return Err(BerFault::Cut);
            };
            Ok((Some(usize::from(*a)), rest))
        }
        0x82 => {
            let [a, b, rest @ ..] = rest else {
                return Err(BerFault::Cut);
            };
            Ok((Some(0x100 * usize::from(*a) + usize::from(*b)), rest))
        }
        0x83 => {
            let [a, b, c, rest @ ..] = rest else {
                return Err(BerFault::Cut);
            };
            let high = 0x100 * usize::from(*a) + usize::from(*b);
            Ok((Some(0x100 * high + usize::from(*c)), rest))
        }
        0x84 => {
            let [a, b, c, d, rest @ ..] = rest else {
                return Err(BerFault::Cut);
            };
            let high = 0x100 * usize::from(*a) + usize::from(*b);
            let high = 0x100 * high + usize::from(*c);
            Ok((Some(0x100 * high + usize::from(*d)), rest))
        }
        _ => Err(BerFault::BadLength),
    }
}

/// Reads the length at the front, and gives the contents and the octets after them.
pub fn extent_at(octets: &[u8], constructed: bool) -> Result<Extent<'_>, BerFault>
    ensures ok { IfOk result (IsExtent octets.now constructed) }
    ensures err { IfErr result (ExtentFault constructed octets.now) }
{
    let (length, rest) = length_at(octets, constructed)?;
    let Some(length) = length else {
        return Ok(Extent::Indefinite { rest });
    };
    if rest.len() < length {
        return Err(BerFault::Cut);
    }
    let (contents, rest) = rest.split_at(length);
    Ok(Extent::Definite { contents, rest })
}

/// The number of octets of the shortest definite length. The length must be below 2^32.
pub fn length_size(length: usize) -> usize
    requires { length < 2 ^ 32 }
    ensures { result ≡ lengths.length (length_octets length) }
{
    if length < 0x80 {
        return 1;
    }
    if length < 0x100 {
        return 2;
    }
    if length < 0x1_0000 {
        return 3;
    }
    if length < 0x100_0000 {
        return 4;
    }
    5
}

/// Writes the shortest definite length so that it ends at `end`, and gives its position. The length must be below 2^32,
/// and there must be room before `end`.
pub fn put_length(length: usize, out: &mut [u8], end: usize) -> usize
    requires length { length < 2 ^ 32 }
    requires room { lengths.length (length_octets length) ≤ end }
    requires end { end ≤ lengths.length out.old }
    ensures { Puts (length_octets length) out.old out.new result end }
{
    let last = (length % 0x100) as u8;
    if length < 0x80 {
        return put(&[last], out, end);
    }
    if length < 0x100 {
        return put(&[0x81, last], out, end);
    }
    let third = (length / 0x100 % 0x100) as u8;
    if length < 0x1_0000 {
        return put(&[0x82, third, last], out, end);
    }
    let second = (length / 0x1_0000 % 0x100) as u8;
    if length < 0x100_0000 {
        return put(&[0x83, second, third, last], out, end);
    }
    let first = (length / 0x100_0000) as u8;
    put(&[0x84, first, second, third, last], out, end)
}
