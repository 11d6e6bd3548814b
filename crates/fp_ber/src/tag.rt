//! The octets of a tag (X.690, 8.1.2).

ghost use Rattle.std.specs.Prelude.{◌≡◌, ◌+◌, ◌/◌, ◌<◌, ◌≤◌, ◌∷◌, Bool, IfOk, IfErr, length};
ghost use Rattle.fp_ber.specs.declared.element.Class.{Class};
ghost use Rattle.fp_ber.specs.Spelling.{BeginsTag, first_octet};
ghost use Rattle.fp_ber.specs.Faults.{TagFault, HighFault};
ghost use Rattle.fp_ber.specs.Canon.{tag_octets, Puts};
ghost use Rattle.fp_ber.specs.Tree.{IsTagNumber, class_code};

use crate::element::Class;
use crate::fault::BerFault;
use crate::placing::put;

/// A tag: its class, whether the contents are elements, and its number.
#[derive(Clone, Copy, Debug)]
pub struct Tag {
    pub class: Class,
    pub constructed: bool,
    pub number: u16,
}

/// The class in the first two bits of a tag.
pub fn class_of(first: u8) -> Class
    ensures { class_code result ≡ first / 64 }
{
    match first / 64 {
        0 => Class::Universal,
        1 => Class::Application,
        2 => Class::Context,
        _ => Class::Private,
    }
}

/// The first octet of a tag with these last five bits, which must be below 32.
pub fn first_of(class: Class, constructed: bool, low: u8) -> u8
    requires { low < 32 }
    ensures { result ≡ first_octet class constructed low }
{
    let class = match class {
        Class::Universal => 0,
        Class::Application => 64,
        Class::Context => 128,
        Class::Private => 192,
    };
    let form = if constructed { 32 } else { 0 };
    class + form + low
}

/// Reads a tag number in the high form, after the first octet, and gives the octets after it.
fn high_number_at(octets: &[u8]) -> Result<(u16, &[u8]), BerFault>
    ensures ok { IfOk result (λ x. (class : Class) (form : Bool)
        → BeginsTag (first_octet class form 31 ∷ octets.now) class form x.0 x.1.now) }
    ensures err { IfErr result (HighFault octets.now) }
{
    let [first, rest @ ..] = octets else {
        return Err(BerFault::Cut);
    };
    if *first < 31 {
        return Err(BerFault::BadTag);
    }
    if *first < 128 {
        return Ok((u16::from(*first), rest));
    }
    if *first == 128 {
        return Err(BerFault::BadTag);
    }
    let [second, rest @ ..] = rest else {
        return Err(BerFault::Cut);
    };
    if *second >= 128 {
        return Err(BerFault::BadTag);
    }
    Ok((128 * (u16::from(*first) - 128) + u16::from(*second), rest))
}

/// Reads the tag at the front, and gives the octets after it.
pub fn tag_at(octets: &[u8]) -> Result<(Tag, &[u8]), BerFault>
    ensures ok { IfOk result (λ x. BeginsTag octets.now x.0.class x.0.constructed x.0.number x.1.now) }
    ensures err { IfErr result (TagFault octets.now) }
{
    let [first, rest @ ..] = octets else {
        return Err(BerFault::Cut);
    };
    let class = class_of(*first);
    let constructed = *first / 32 % 2 == 1;
    let low = *first % 32;
    if low == 31 {
        let (number, rest) = high_number_at(rest)?;
        let tag = Tag {
            class,
            constructed,
            number,
        };
        return Ok((tag, rest));
    }
    if *first == 0 || *first == 32 {
        return Err(BerFault::BadTag);
    }
    let number = u16::from(low);
    let tag = Tag {
        class,
        constructed,
        number,
    };
    Ok((tag, rest))
}

/// The number of octets of a tag.
pub fn tag_size(tag: Tag) -> usize
    ensures { result ≡ length (tag_octets tag.class tag.constructed tag.number) }
{
    if tag.number < 31 {
        return 1;
    }
    if tag.number < 128 {
        return 2;
    }
    3
}

/// Writes a tag so that it ends at `end`, and gives its position. The number must be in range, and
/// there must be room before `end`.
pub fn put_tag(tag: Tag, out: &mut [u8], end: usize) -> usize
    requires tag { IsTagNumber tag.class tag.number }
    requires room { length (tag_octets tag.class tag.constructed tag.number) ≤ end }
    requires end { end ≤ length out.old }
    ensures { Puts (tag_octets tag.class tag.constructed tag.number) out.old out.new result end }
{
    let number = tag.number;
    if number < 31 {
        let first = first_of(tag.class, tag.constructed, number as u8);
        return put(&[first], out, end);
    }
    let first = first_of(tag.class, tag.constructed, 31);
    if number < 128 {
        return put(&[first, number as u8], out, end);
    }
    put(
        &[first, (128 + number / 128) as u8, (number % 128) as u8],
        out,
        end,
    )
}
