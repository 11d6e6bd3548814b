//! Cause indicators (ITU-T Q.763, 3.12).

ghost use Rattle.std.specs.Prelude.{◌≡◌, ℕ, ◌+◌, ◌<◌, [], ◌∷◌};

/// The two contents octets of a cause with this value, which must be below 128 (ITU-T Q.763, 3.12, and Q.850, 2.2):
/// coding standard ITU-T, location public network serving the local user, and the cause value. For example, user busy,
/// 17, is `82 91`.
pub fn cause(value: u8) -> [u8; 2]
    requires { value < 128 }
    ensures { result ≡ 0x82 ∷ (0x80 + value) ∷ [] }
{
    [0x82, 0x80 | value]
}
