//! The receiver of a link's frames.

ghost use Rattle.std.specs.Prelude.{ℕ, List, [], ◌∷◌, Option, None};
ghost use Rattle.fp_streams.specs.Grows.{Grows};

use fp_frames::Frame;

/// Takes the frames of a link, in their order.
pub trait Inbox {
    // The messages taken so far, in their order, if the inbox reports them.
    ghost messages: { Self → Option (List (List ℕ)) } = { λ _. None };

    /// Takes the next frame.
    fn frame(&mut self, frame: Frame)
        ensures { Grows (messages self.old) (messages self.new) (frame ∷ []) };

    /// All frames that the last read completed were handed on. If you collect several frames to handle them together,
    /// handle the rest now.
    fn end_of_read(&mut self)
        ensures { Grows (messages self.old) (messages self.new) [] }
    {}
}
