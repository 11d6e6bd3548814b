//! Laws of all frames.

ghost use Rattle.fp_frames.specs.Laws.{BadIsNoFrame, BadStaysBad, FramesGoOn, IsFourOctetsLonger, StandsBehindItsHead, StreamsAreOne};

/// A message follows its head: after the four octets of the head, the rest of the frame is the message.
pub fn message_stands_behind_its_head()
    ensures message { StandsBehindItsHead }
    ensures length { IsFourOctetsLonger }
{}

/// A stream has at most one list of frames and one rest, however it is cut into pieces. When more octets arrive, the
/// frames stay and more may follow. A bad length in the rest stays there, and no frame can begin with it.
#[tactic(auto, using(crate::proofs::Streams::stream_laws))]
pub fn streams_have_one_list_of_frames()
    ensures one { StreamsAreOne }
    ensures go_on { FramesGoOn }
    ensures bad { BadStaysBad }
    ensures no_frame { BadIsNoFrame }
{}
