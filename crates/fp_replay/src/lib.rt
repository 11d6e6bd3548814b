//! The log as text: its lines are written, and read again; and its replay.
//!
//! A log begins with a head: `fplog 5 LINKS TAG` for a run with a tag, 1 to 4,094, and `fplog 4 LINKS` for one without.
//! Each other line is a step of a link: the link, a letter and its fields, with single blanks between them. For
//! example, `0 T 1 0 2`: on link 0 a turn of the dialogue with birth 1 was taken, from position 0, with two entries.
//! The layer is handed lines as `fp_book` has them and returns their text, or is handed the text of a line and returns
//! the line. For a replay it is handed the tables of records, the names of application contexts, a reader and a writer.
//! It knows no file, and asks the system only for memory.
//!
//! * [`write_line`] appends a line and a line feed to a text.
//! * [`read_line`] returns the line of such a text.
//! * [`replay`] replays the steps of a log, link by link, compares each line with the line that the replayed step has
//!   in a log, and writes the totals of each link.
//! * [`report_line`] returns the line of a link in that report.
//!
//! | File | Writes and reads |
//! |---|---|
//! | `line.rt` | a line: the head, or a link and its step |
//! | `head.rt` | the head: its version, the number of links, and the tag of the run |
//! | `step.rt` | the letter of a step; writes its whole line |
//! | `posting.rt`, `tick.rt`, `turn.rt`, `parcel.rt` | the fields after the letters; `posting.rt` writes whole lines |
//! | `octets.rt`, `answer.rt` | fields of octets and of outcomes |
//! | `line_part.rt` | writes numbers, in a line or a part of one that grows at its front |
//! | `number.rt`, `fields.rt` | read numbers, and where a field ends |
//!
//! | File | In a replay |
//! |---|---|
//! | `replaying.rt` | takes the lines that [`follow_lines`](fp_streams::follow_lines) hands it, and writes the report |
//! | `links.rt` | the run of each link: a line is a step of one of them |
//! | `logged.rt`, `same_line.rt` | the step of a line, and whether two lines are the same |
//! | `report.rt`, `replay_fault.rt` | the report, and why there is none |
//!
//! The layer above may rely on this: `text_of` is the one definition of the format, and `IsLine` says which lines there
//! are (`specs/Format.antt`). A line that was read has the text that it was read from, and each line is read from its
//! text, unless memory runs out; by [`texts_are_of_one_line`] there is no other. So a number with a leading zero, a
//! digit in lower case, a second blank, a carriage return, or the tag 0 in a head makes a bad line.
//!
//! A log is replayed if its lines are of the format and in their places, its messages are read by tables that were
//! handed in (the first 1,000 in a run without a tag, the first 65,536 in one with a tag), and each link has a history
//! whose events retell its lines: each output is the answer that the history before determines, with the tag of the
//! head, and its line is the log's line (`specs/Replayed.antt`). Else the first line that fails this is reported, and
//! why (`specs/Stopped.antt`). By [`logs_have_one_report`] a log has one report or one fault at most, and a report has
//! the counts of the lines of its log.
#![tactic(auto)]

mod answer;
mod fault;
mod fields;
mod head;
mod laws;
mod line;
mod line_part;
mod links;
mod logged;
mod number;
mod octets;
mod parcel;
mod posting;
mod replay_fault;
mod replay_laws;
mod replaying;
mod report;
mod same_line;
mod step;
mod tick;
mod turn;

pub use fault::LineFault;
pub use laws::texts_are_of_one_line;
pub use line::{read_line, write_line, write_step_line};
pub use replay_fault::ReplayFault;
pub use replay_laws::{logs_have_one_report, logs_of_runs_are_replayed};
pub use replaying::replay;
pub use report::report_line;
