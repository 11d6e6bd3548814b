//! The lines that are written.

ghost use Rattle.std.specs.Prelude.{◌≡◌, ◌≢◌, IfErr, IfOk, MatchResult, OnErr, OnOk, string_bytes};
ghost use Rattle.std.specs.Io.KnownBytes.{Appends};
ghost use Rattle.fp_streams.specs.Write.{AppendsFront};
ghost use Rattle.fp_ask.specs.proof_only.Answering.{WriterFailed};
ghost use Rattle.fp_ask.specs.declared.refusal.Refusal.TheVariants.{BadLine};
ghost use Rattle.fp_ask.specs.Line.{line_for, text_of};

use crate::SentFrame;
use crate::refusal::Refusal;
use fp_streams::{LinkWrite, write_all};
use std::alloc::{AllocError, Global};

/// The line that is written for a frame.
fn line_text(alloc: Global, frame: &SentFrame) -> Result<String, AllocError>
    ensures { IfOk result (λ text. string_bytes text ≡ line_for frame.now) }
{
    let mut text = hex::encode_upper(alloc, frame.message())?;
    text.push('\n')?;
    Ok(text)
}

/// Writes the lines of frames.
pub(crate) fn write_frames<W: LinkWrite>(
    alloc: Global,
    frames: &[SentFrame],
    writer: &mut W,
) -> Result<(), Refusal>
    ensures written { OnOk result (Appends (W.contents writer.old) (W.contents writer.new) (text_of frames.now)) }
    ensures front { OnErr result (AppendsFront (W.contents writer.old) (W.contents writer.new) (text_of frames.now)) }
    ensures good { IfErr result (λ refusal. refusal ≢ BadLine) }
    ensures failure { MatchResult result (λ _. W.failures writer.new ≡ W.failures writer.old)
        (λ refusal. WriterFailed refusal (W.failures writer.old) (W.failures writer.new)) }
{
    for frame in frames {
        let text = line_text(alloc, frame)?;
        if write_all(writer, text.as_bytes()).is_err() {
            return Err(Refusal::WriteFault);
        }
    }
    Ok(())
}
