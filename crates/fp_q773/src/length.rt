//! The length after a tag (X.690, 8.1.3), in octets that needn't be an element.

ghost use Rattle.std.specs.Prelude.{◌≡◌, ◌∷◌, MatchOption, IfSome, IfNone};
ghost use Rattle.fp_ber.specs.Spelling.{BeginsLength};
ghost use Rattle.fp_q773.specs.Ids.{HasNoLength};

/// A length, and the octets after it.
#[derive(Clone, Copy)]
pub struct Length<'a> {
    /// The value; `None` for an indefinite length.
    pub value: Option<usize>,
    pub rest: &'a [u8],
}

/// The length at the front, in any form; `None` if its octets are cut, or begin with 85 to FF.
pub fn length_at(octets: &[u8]) -> Option<Length<'_>>
    ensures some { IfSome result (λ length. MatchOption length.value
        (octets.now ≡ 0x80 ∷ length.rest.now)
        (λ n. BeginsLength octets.now n length.rest.now)) }
    ensures none { IfNone result (HasNoLength octets.now) }
{
    match fp_ber::length_at(octets, true) {
        Ok((value, rest)) => Some(Length { value, rest }),
        Err(_) => None,
    }
}
