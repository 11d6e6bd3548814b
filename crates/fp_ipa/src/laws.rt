//! Laws of all streams and connections.

ghost use Rattle.fp_ipa.specs.Laws.{ActiveWasNamed, BadIsNoMessage, BadStaysBad, MessagesGoOn, StreamsAreOne, UnitNamesAreOne};

/// A stream has at most one list of messages and one rest, however the reads divide it. When more octets arrive, the
/// messages stay and more may follow. A message that is too long stays so, and no further one is handed out.
#[tactic(auto, using(crate::proofs::Streams::stream_laws))]
pub fn streams_have_one_list_of_messages()
    ensures one { StreamsAreOne }
    ensures go_on { MessagesGoOn }
    ensures bad { BadStaysBad }
    ensures no_message { BadIsNoMessage }
{}

/// An ID_RESP has at most one unit name.
pub fn unit_names_are_one()
    ensures { UnitNamesAreOne }
{}

/// A connection is active only if its peer named a unit and then acknowledged.
pub fn active_connections_were_named()
    ensures { ActiveWasNamed }
{}
