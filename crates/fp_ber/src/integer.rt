//! The contents of an integer (X.690, 8.3).

ghost use Rattle.std.specs.Prelude.{◌≡◌, pos, ◌+ℤ◌, ◌*ℤ◌, ◌≤ℤ◌, ◌<ℤ◌};
ghost use Rattle.fp_ber.specs.Integer.{integer, signed};

/// The value of an octet in two's complement, -128 to 127.
pub fn signed_of(octet: u8) -> i8
    ensures { result ≡ signed octet }
{
    if octet < 128 {
        octet as i8
    } else {
        (i16::from(octet) - 256) as i8
    }
}

/// The octet of this value in two's complement. For example, -1 has the octet FF.
pub fn octet_of(value: i8) -> u8
    ensures { signed result ≡ value }
{
    if value >= 0 {
        value as u8
    } else {
        (i16::from(value) + 256) as u8
    }
}

/// A number with eight more bits appended.
fn with_octet(high: i32, octet: u8) -> i32
    requires least { pos 0 ≤ℤ (pos 0x80_0000 +ℤ high) }
    requires most { high <ℤ pos 0x80_0000 }
    ensures { result ≡ (pos 256 *ℤ high) +ℤ pos octet }
{
    256 * high + i32::from(octet)
}

/// The value of the contents of an integer: one to four octets, minimal or not, in two's complement, the most
/// significant octet first. For example, `FF 7F` is -129. `None` for no octets and for more than four.
pub fn integer_of(octets: &[u8]) -> Option<i32>
    ensures { result ≡ integer octets.now }
{
    match octets {
        [a] => Some(i32::from(signed_of(*a))),
        [a, b] => Some(with_octet(i32::from(signed_of(*a)), *b)),
        [a, b, c] => Some(with_octet(with_octet(i32::from(signed_of(*a)), *b), *c)),
        [a, b, c, d] => {
            let high = with_octet(with_octet(i32::from(signed_of(*a)), *b), *c);
            Some(with_octet(high, *d))
        }
        _ => None,
    }
}
