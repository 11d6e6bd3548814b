//! The program `scp` without its `main`: a service control point for freephone numbers, which answers TCAP messages
//! from a file of number translation records.
//!
//! `scp check RECORDS` prints how many numbers, rules and closed days a file of records has, and `scp migrate RECORDS`
//! its records as a file of version 2. `scp ask RECORDS MOMENT` reads messages and waits from standard input, one a
//! line, and holds their dialogues: each message that is sent is one line of standard output. `scp serve RECORDS
//! --listen A --log FILE` answers connections, each as one link, and writes a log. `scp replay RECORDS LOG LATER..`
//! replays the steps of a log, whose later records are in the files LATER, and prints the counts of each link. Standard
//! error has at most one line that says why the run ended. Before it are the events of a run, if they are asked for,
//! and the faults of the commands that `serve` reads from standard input. The status is 0 if all went well, 1 after
//! such a line, and 2 if the command line was refused.
//!
//! The layer is handed the words of the command line, a reader, three writers and the means to open files and await
//! connections; `scp_main` hands it the system's.
//!
//! * [`program`] takes one run from the words to the status, over any files, reader and writers; and
//!   [`program_with_links`] one that may serve links.
//! * [`ask`] answers the lines of an input, [`ask_with_tag`] in a run with a tag, and [`Server::serve`] the connections
//!   to a listener. They are the functions of `fp_ask` and `fp_serve`, with their contracts.
//! * `command` reads the words of the command line, and the moment among them, `tag` has the tag of a run; `contexts`
//!   reads the list of names; `console` reads the records again, while links are served from them.
//! * `network` reads the addresses and the units of a node on a signalling network; `listening` awaits connections, and
//!   `log_file` opens the log.
//! * `check` prints the counts of the records, `explain` the report on them, and `migrate` the records themselves.
//! * `output` writes a text or octets.
//! * `fault` has the faults of a run and their texts.
//!
//! Proved here: no status is above 2; a text's moment and a list's names are read exactly, both ways; the counts and
//! the records are written; and a run over readers and writers whose octets are known answers its input as
//! [`ask_with_tag`] does. No proof speaks of the octets of files, standard input or standard output.
#![tactic(auto)]

mod check;
mod command;
mod console;
mod contexts;
mod explain;
mod fault;
mod listening;
mod log_file;
mod migrate;
mod network;
mod output;
mod run;
mod tag;
mod with_links;

pub use fp_ask::{AskFault, ask, ask_with_tag};
pub use fp_serve::{Events, ServeFault, Server, Settings};
pub use run::{program, refuse_words};
pub use with_links::program_with_links;
