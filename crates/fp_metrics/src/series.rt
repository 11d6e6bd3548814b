//! The names and labels of the counters.

ghost use Rattle.std.specs.Prelude.{◌≡◌};
ghost use Rattle.fp_metrics.specs.Series.{front_of, heading_of};

use fp_counters::Counter;

/// The front of a counter's lines: the name of its family and its labels, up to the number of the link.
pub(crate) fn front(counter: Counter) -> &'static str
    ensures { result.now ≡ front_of counter }
{
    match counter {
        Counter::Begins => "freephone_scp_messages_total{kind=\"begin\",link=\"",
        Counter::Continues => "freephone_scp_messages_total{kind=\"continue\",link=\"",
        Counter::Ends => "freephone_scp_messages_total{kind=\"end\",link=\"",
        Counter::Aborts => "freephone_scp_messages_total{kind=\"abort\",link=\"",
        Counter::Unidirectionals => "freephone_scp_messages_total{kind=\"unidirectional\",link=\"",
        Counter::UnknownMessages => "freephone_scp_messages_total{kind=\"unknown\",link=\"",
        Counter::Opened => "freephone_scp_message_results_total{result=\"opened\",link=\"",
        Counter::Accepted => "freephone_scp_message_results_total{result=\"accepted\",link=\"",
        Counter::Ended => "freephone_scp_message_results_total{result=\"ended\",link=\"",
        Counter::Discarded => "freephone_scp_message_results_total{result=\"discarded\",link=\"",
        Counter::RefusedUnknownMessage =>
            "freephone_scp_messages_refused_total{cause=\"0\",link=\"",
        Counter::RefusedUnknownTransaction =>
            "freephone_scp_messages_refused_total{cause=\"1\",link=\"",
        Counter::RefusedBadTransaction =>
            "freephone_scp_messages_refused_total{cause=\"2\",link=\"",
        Counter::RefusedIncorrectTransaction =>
            "freephone_scp_messages_refused_total{cause=\"3\",link=\"",
        Counter::RefusedLimit => "freephone_scp_messages_refused_total{cause=\"4\",link=\"",
        Counter::OutOfMemory => "freephone_scp_messages_out_of_memory_total{link=\"",
        Counter::EndedByPeer => "freephone_scp_dialogues_ended_by_peer_total{link=\"",
        Counter::ClockEntries => "freephone_scp_clock_entries_total{link=\"",
        Counter::ClockEntriesLeftOut => "freephone_scp_clock_entries_left_out_total{link=\"",
        Counter::TurnsTaken => "freephone_scp_turns_taken_total{link=\"",
        Counter::TurnsPutBack => "freephone_scp_turns_put_back_total{link=\"",
        Counter::EntriesServed => "freephone_scp_entries_served_total{link=\"",
        Counter::RequestsQueued => "freephone_scp_requests_total{result=\"queued\",link=\"",
        Counter::RequestsDropped => "freephone_scp_requests_total{result=\"dropped\",link=\"",
        Counter::FramesSent => "freephone_scp_frames_total{result=\"sent\",link=\"",
        Counter::ProviderAbortsSent => "freephone_scp_frames_total{result=\"abort_sent\",link=\"",
        Counter::Unsent => "freephone_scp_frames_total{result=\"unsent\",link=\"",
        Counter::LinesLost => "freephone_scp_log_lines_lost_total{link=\"",
        Counter::SentContinue => "freephone_scp_messages_sent_total{kind=\"continue\",link=\"",
        Counter::SentEnd => "freephone_scp_messages_sent_total{kind=\"end\",link=\"",
        Counter::SentUserAbort => "freephone_scp_messages_sent_total{kind=\"abort\",link=\"",
        Counter::EndedByService => "freephone_scp_dialogues_ended_by_service_total{link=\"",
        Counter::SentUnknownMessage => "freephone_scp_aborts_sent_total{cause=\"0\",link=\"",
        Counter::SentUnknownTransaction => "freephone_scp_aborts_sent_total{cause=\"1\",link=\"",
        Counter::SentBadTransaction => "freephone_scp_aborts_sent_total{cause=\"2\",link=\"",
        Counter::SentIncorrectTransaction => "freephone_scp_aborts_sent_total{cause=\"3\",link=\"",
        Counter::SentLimit => "freephone_scp_aborts_sent_total{cause=\"4\",link=\"",
        Counter::Connect => "freephone_scp_answers_total{kind=\"connect\",cause=\"\",link=\"",
        Counter::ReleaseNoRoute =>
            "freephone_scp_answers_total{kind=\"release_call\",cause=\"3\",link=\"",
        Counter::ReleaseBusy =>
            "freephone_scp_answers_total{kind=\"release_call\",cause=\"17\",link=\"",
        Counter::ReleaseNoAnswer =>
            "freephone_scp_answers_total{kind=\"release_call\",cause=\"19\",link=\"",
        Counter::ReleaseRejected =>
            "freephone_scp_answers_total{kind=\"release_call\",cause=\"21\",link=\"",
        Counter::RequestReport =>
            "freephone_scp_answers_total{kind=\"request_report\",cause=\"\",link=\"",
        Counter::ContinueOperation =>
            "freephone_scp_answers_total{kind=\"continue\",cause=\"\",link=\"",
        Counter::ActivityTest =>
            "freephone_scp_answers_total{kind=\"activity_test\",cause=\"\",link=\"",
        Counter::MissingCustomerRecord =>
            "freephone_scp_answers_total{kind=\"return_error\",cause=\"6\",link=\"",
        Counter::MissingParameter =>
            "freephone_scp_answers_total{kind=\"return_error\",cause=\"7\",link=\"",
        Counter::UnexpectedComponentSequence =>
            "freephone_scp_answers_total{kind=\"return_error\",cause=\"14\",link=\"",
        Counter::UnexpectedDataValue =>
            "freephone_scp_answers_total{kind=\"return_error\",cause=\"15\",link=\"",
        Counter::RejectUnrecognizedComponent =>
            "freephone_scp_answers_total{kind=\"reject\",cause=\"general 0\",link=\"",
        Counter::RejectMistypedComponent =>
            "freephone_scp_answers_total{kind=\"reject\",cause=\"general 1\",link=\"",
        Counter::RejectUnrecognizedOperation =>
            "freephone_scp_answers_total{kind=\"reject\",cause=\"invoke 1\",link=\"",
        Counter::RejectMistypedParameter =>
            "freephone_scp_answers_total{kind=\"reject\",cause=\"invoke 2\",link=\"",
        Counter::RejectUnrecognizedLinkedIdentifier =>
            "freephone_scp_answers_total{kind=\"reject\",cause=\"invoke 5\",link=\"",
        Counter::RejectLinkedResponseUnexpected =>
            "freephone_scp_answers_total{kind=\"reject\",cause=\"invoke 6\",link=\"",
        Counter::RejectUnrecognizedResult =>
            "freephone_scp_answers_total{kind=\"reject\",cause=\"result 0\",link=\"",
        Counter::RejectResultUnexpected =>
            "freephone_scp_answers_total{kind=\"reject\",cause=\"result 1\",link=\"",
        Counter::RejectUnrecognizedError =>
            "freephone_scp_answers_total{kind=\"reject\",cause=\"error 0\",link=\"",
        Counter::RejectErrorUnexpected =>
            "freephone_scp_answers_total{kind=\"reject\",cause=\"error 1\",link=\"",
        Counter::RejectOther =>
            "freephone_scp_answers_total{kind=\"reject\",cause=\"other\",link=\"",
        Counter::HeldBack => "freephone_scp_messages_held_back_total{link=\"",
        Counter::LinesWritten => "freephone_scp_log_lines_written_total{link=\"",
        Counter::EndPeerClosed => "freephone_scp_link_ends_total{reason=\"peer closed\",link=\"",
        Counter::EndBadFrameLength =>
            "freephone_scp_link_ends_total{reason=\"bad frame length\",link=\"",
        Counter::EndInsideFrame =>
            "freephone_scp_link_ends_total{reason=\"closed inside a frame\",link=\"",
        Counter::EndReadFault => "freephone_scp_link_ends_total{reason=\"read fault\",link=\"",
        Counter::EndWriteFault => "freephone_scp_link_ends_total{reason=\"write fault\",link=\"",
        Counter::EndMemory => "freephone_scp_link_ends_total{reason=\"out of memory\",link=\"",
        Counter::EndEntries => "freephone_scp_link_ends_total{reason=\"entries\",link=\"",
        Counter::EndLogFault => "freephone_scp_link_ends_total{reason=\"log fault\",link=\"",
        Counter::EndPeerGone => "freephone_scp_link_ends_total{reason=\"peer gone\",link=\"",
        Counter::EndRunFault => "freephone_scp_link_ends_total{reason=\"run fault\",link=\"",
        Counter::EndLimit => "freephone_scp_link_ends_total{reason=\"limit\",link=\"",
        Counter::EndQuit => "freephone_scp_link_ends_total{reason=\"quit\",link=\"",
    }
}

/// The comments before the lines of a counter: its family's if it is the first of the family, and else none.
pub(crate) fn heading(counter: Counter) -> &'static str
    ensures { result.now ≡ heading_of counter }
{
    match counter {
        Counter::Begins => {
            "# HELP freephone_scp_messages_total Messages that came, by kind, but for those that were dropped at the end of the run or whose log lines were lost.\n# TYPE freephone_scp_messages_total counter\n"
        }
        Counter::Opened => {
            "# HELP freephone_scp_message_results_total Messages that came and for which no Abort of the provider was to be sent, by what became of them.\n# TYPE freephone_scp_message_results_total counter\n"
        }
        Counter::RefusedUnknownMessage => {
            "# HELP freephone_scp_messages_refused_total Messages that were refused, for which an Abort of the provider was to be sent, by its cause (Q.773).\n# TYPE freephone_scp_messages_refused_total counter\n"
        }
        Counter::OutOfMemory => {
            "# HELP freephone_scp_messages_out_of_memory_total Messages for which memory ran out.\n# TYPE freephone_scp_messages_out_of_memory_total counter\n"
        }
        Counter::EndedByPeer => {
            "# HELP freephone_scp_dialogues_ended_by_peer_total End and Abort messages that a dialogue accepted.\n# TYPE freephone_scp_dialogues_ended_by_peer_total counter\n"
        }
        Counter::ClockEntries => {
            "# HELP freephone_scp_clock_entries_total Dialogues that were due at a tick of the clock and were given its entry.\n# TYPE freephone_scp_clock_entries_total counter\n"
        }
        Counter::ClockEntriesLeftOut => {
            "# HELP freephone_scp_clock_entries_left_out_total Dialogues that were due and for which memory ran out.\n# TYPE freephone_scp_clock_entries_left_out_total counter\n"
        }
        Counter::TurnsTaken => {
            "# HELP freephone_scp_turns_taken_total Turns that were taken, to be served.\n# TYPE freephone_scp_turns_taken_total counter\n"
        }
        Counter::TurnsPutBack => {
            "# HELP freephone_scp_turns_put_back_total Turns that were put back, not served.\n# TYPE freephone_scp_turns_put_back_total counter\n"
        }
        Counter::EntriesServed => {
            "# HELP freephone_scp_entries_served_total Entries that were served.\n# TYPE freephone_scp_entries_served_total counter\n"
        }
        Counter::RequestsQueued => {
            "# HELP freephone_scp_requests_total Requests of the service, by what became of them.\n# TYPE freephone_scp_requests_total counter\n"
        }
        Counter::FramesSent => {
            "# HELP freephone_scp_frames_total Frames of requests and Aborts of the provider, by what became of them.\n# TYPE freephone_scp_frames_total counter\n"
        }
        Counter::LinesLost => {
            "# HELP freephone_scp_log_lines_lost_total Log lines that found no place. What their steps would count is missing in all other numbers.\n# TYPE freephone_scp_log_lines_lost_total counter\n"
        }
        Counter::SentContinue => {
            "# HELP freephone_scp_messages_sent_total Messages of the service that were sent, by kind.\n# TYPE freephone_scp_messages_sent_total counter\n"
        }
        Counter::EndedByService => {
            "# HELP freephone_scp_dialogues_ended_by_service_total End messages and Aborts by the user that were sent.\n# TYPE freephone_scp_dialogues_ended_by_service_total counter\n"
        }
        Counter::SentUnknownMessage => {
            "# HELP freephone_scp_aborts_sent_total Aborts of the provider that were sent, by cause (Q.773).\n# TYPE freephone_scp_aborts_sent_total counter\n"
        }
        Counter::Connect => {
            "# HELP freephone_scp_answers_total Components that were sent, by operation, error or problem, and its cause.\n# TYPE freephone_scp_answers_total counter\n"
        }
        Counter::HeldBack => {
            "# HELP freephone_scp_messages_held_back_total Messages that were held back.\n# TYPE freephone_scp_messages_held_back_total counter\n"
        }
        Counter::LinesWritten => {
            "# HELP freephone_scp_log_lines_written_total Log lines that were written.\n# TYPE freephone_scp_log_lines_written_total counter\n"
        }
        Counter::EndPeerClosed => {
            "# HELP freephone_scp_link_ends_total Ends of the link, by their first reason.\n# TYPE freephone_scp_link_ends_total counter\n"
        }
        _ => "",
    }
}
