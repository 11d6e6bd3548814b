//! The called party number in a Begin of the plain form, found without making its elements.
//!
//! The Begin is one that opened a dialogue, so it can be read. In the plain form its first component is an Invoke of
//! InitialDP that isn't linked and can be read, and each length on the way there is definite and has at most three
//! octets. Any other Begin is read as a whole ([`called_number`](crate::called::called_number)).

/// The tag of an integer.
const INTEGER: u8 = 0x02;

/// The most members of an InitialDP that are looked at.
const MOST_MEMBERS: usize = 32;

/// An element with a tag of one octet and a definite length, and the octets after it.
#[derive(Clone, Copy)]
struct Element<'a> {
    tag: u8,
    contents: &'a [u8],
    rest: &'a [u8],
}

/// The first `length` octets as the contents of an element with this tag, and the octets after them. `None` if there
/// are fewer.
fn split(tag: u8, octets: &[u8], length: usize) -> Option<Element<'_>> {
    if octets.len() < length {
        return None;
    }
    let (contents, rest) = octets.split_at(length);
    Some(Element {
        tag,
        contents,
        rest,
    })
}

/// The element that octets begin with. `None` if its tag has more octets than one, or its length has another form.
fn first_element(octets: &[u8]) -> Option<Element<'_>> {
    let [tag, body @ ..] = octets else {
        return None;
    };
    if tag & 0x1F == 0x1F {
        return None;
    }
    match body {
        [0x82, high, low, rest @ ..] => {
            split(*tag, rest, usize::from(u16::from_be_bytes([*high, *low])))
        }
        [0x81, length, rest @ ..] => split(*tag, rest, usize::from(*length)),
        [length, rest @ ..] if *length < 0x80 => split(*tag, rest, usize::from(*length)),
        _ => None,
    }
}

/// The contents of the only element in the octets, if it has this tag.
fn only(octets: &[u8], tag: u8) -> Option<&[u8]> {
    let element = first_element(octets)?;
    if element.tag == tag && element.rest.is_empty() {
        Some(element.contents)
    } else {
        None
    }
}

/// The component portion of a Begin, after its originating transaction identifier, and perhaps a dialogue portion.
fn components_of(begin: &[u8]) -> Option<&[u8]> {
    let identifier = first_element(only(begin, 0x62)?)?;
    if identifier.tag != 0x48 {
        return None;
    }
    let first = first_element(identifier.rest)?;
    if first.tag == 0x6B {
        only(first.rest, 0x6C)
    } else {
        only(identifier.rest, 0x6C)
    }
}

/// The argument of the Invoke of InitialDP that a component portion begins with: the contents of its sequence.
fn argument_of(components: &[u8]) -> Option<&[u8]> {
    let invoke = first_element(components)?;
    match (invoke.tag, invoke.contents) {
        (0xA1, [INTEGER, 1, _, INTEGER, 1, 0, argument @ ..]) => only(argument, 0x30),
        _ => None,
    }
}

/// Whether octets are an integer of one to four octets that isn't negative, in the shortest form.
fn is_key(octets: &[u8]) -> bool {
    match octets {
        [first] => *first < 0x80,
        [0, second, ..] => *second >= 0x80 && octets.len() <= 4,
        [first, ..] => *first < 0x80 && octets.len() <= 4,
        [] => false,
    }
}

/// The bit of a member that the program reads, by its tag, or 0 for other members of a context. `None` if its tag or
/// its octets aren't allowed.
fn bit_of(member: &Element<'_>) -> Option<u8> {
    let is_good = match member.tag {
        0x80 => is_key(member.contents),
        0x85 | 0x9C => member.contents.len() == 1,
        0xA0 | 0xA2 | 0xA3 | 0xA5 | 0xBC => false,
        tag => tag & 0xC0 == 0x80,
    };
    if !is_good {
        return None;
    }
    Some(match member.tag {
        0x80 => 1,
        0x82 => 2,
        0x83 => 4,
        0x85 => 8,
        0x9C => 16,
        _ => 0,
    })
}

/// The called party number among the members of an InitialDP. Each member that the program reads may be there once.
fn called_among(members: &[u8]) -> Option<&[u8]> {
    let mut rest = members;
    let mut seen = 0;
    let mut called = None;
    for _ in 0..MOST_MEMBERS {
        let member = first_element(rest)?;
        let bit = bit_of(&member)?;
        if seen & bit != 0 {
            return None;
        }
        seen |= bit;
        if member.tag == 0x82 {
            called = Some(member.contents);
        }
        rest = member.rest;
        if rest.is_empty() {
            return called;
        }
    }
    None
}

/// The octets of the called party number in a Begin that opened a dialogue. `None` if it isn't of the plain form, or
/// has no number.
pub(crate) fn called_octets(begin: &[u8]) -> Option<&[u8]> {
    called_among(argument_of(components_of(begin)?)?)
}
