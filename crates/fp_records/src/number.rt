//! Plain decimal numbers.

ghost use Rattle.std.specs.Prelude.{◌≡◌, ◌<◌, ◌≤◌, IfSome};
ghost use Rattle.fp_records.specs.Number.{number_up_to};

/// The number in a text of decimal digits, if it is at most `most`. Any number of leading zeros is
/// fine. For example, `007` is 7.
#[tactic(auto, using(crate::proofs::Digits::up_to_steps))]
pub(crate) fn number_up_to(most: u64, text: &[u8]) -> Option<u64>
    requires { most < 4294967296 }
    ensures value { result ≡ number_up_to most text.now }
    ensures most { IfSome result (λ number. number ≤ most) }
{
    if text.is_empty() {
        return None;
    }
    let mut number = 0;
    for octet in text {
        if !octet.is_ascii_digit() {
            return None;
        }
        number = 10 * number + u64::from(*octet - b'0');
        if number > most {
            return None;
        }
    }
    Some(number)
}
