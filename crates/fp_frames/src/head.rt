//! The head of a frame.

ghost use Rattle.std.specs.Prelude.{◌≡◌};
ghost use Rattle.fp_frames.specs.Frame.{IsMessageLength, head_of};

/// The four octets before a message: its length, the most significant octet first. The length must be 1 to 4,096.
pub fn frame_head(length: u16) -> [u8; 4]
    requires { IsMessageLength length }
    ensures { result ≡ head_of length }
{
    u32::from(length).to_be_bytes()
}
