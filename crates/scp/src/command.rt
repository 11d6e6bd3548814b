//! The words of the command line, and the moment among them.

ghost use Rattle.std.specs.Prelude.{◌≡◌};
ghost use Rattle.jiff.specs.Words.{parse_timestamp};
ghost use Rattle.scp.specs.Instant.{moment_in};

mod serving;

use crate::tag::Tag;
use clap::error::ErrorKind;
use clap::{Arg, ArgAction, Command, Error, value_parser};
use fp_digits::Moment;
use jiff::Timestamp;
pub use serving::ServeWords;
use serving::{SERVE, serve_asked, serve_command};
use std::alloc::{AllocError, Global};

/// A request, made by the words of a command line.
#[derive(Debug, Drop)]
pub enum Asked<'a> {
    /// The counts of a records file.
    Check {
        /// The path of the file.
        records: &'a str,
        /// Whether all faults, or all possible slips, are wanted too.
        explain: bool,
    },
    /// A file's records as a file of version 2.
    Migrate {
        /// The path of the file.
        records: &'a str,
    },
    /// Answers from the records of a file, at a moment.
    Ask {
        /// The path of the file.
        records: &'a str,
        /// The text of the moment, not read yet.
        moment: &'a str,
        /// The tag of the run.
        tag: Tag,
        /// The text of the list of application contexts, not read yet, if there is one.
        contexts: Option<&'a str>,
    },
    /// A replay of the steps of a log, from the records of one file or several.
    Replay {
        /// The path of the file that the run began with.
        records: &'a str,
        /// The path of the log.
        log: &'a str,
        /// The paths of the files that were loaded later, in that order.
        later: Vec<&'a str>,
        /// The text of the list of application contexts, not read yet, if there is one.
        contexts: Option<&'a str>,
    },
    /// Links over connections, answered from the records of a file.
    Serve(ServeWords<'a>),
    /// The text of the help or the version.
    Help(String),
    /// The text that says why the words are refused.
    Refused(String),
}

/// The name of the program, in its texts too, whatever its file is called.
const PROGRAM: &str = "scp";

/// The version of the program.
pub(crate) const VERSION: &str = "0.9.0";

/// The name of the subcommand that counts.
const CHECK: &str = "check";

/// The name of the subcommand that writes a file of version 2.
const MIGRATE: &str = "migrate";

/// The name of the subcommand that replays a log.
const REPLAY: &str = "replay";

/// The request in the words. The first of them names the program.
pub fn asked_by<'a>(alloc: Global, words: &'a [String]) -> Result<Asked<'a>, AllocError> {
    let command = match command(alloc) {
        Ok(command) => command,
        Err(_) => return Err(AllocError),
    };
    let matches = match command.try_get_matches_from(words) {
        Ok(matches) => matches,
        Err(error) => return told_by(alloc, &error),
    };
    let Some((name, chosen)) = matches.subcommand() else {
        return Ok(Asked::Refused(String::new(alloc)));
    };
    let records = chosen.get_str("RECORDS").unwrap_or("");
    if name == CHECK {
        return Ok(Asked::Check {
            records,
            explain: chosen.get_flag("explain"),
        });
    }
    if name == MIGRATE {
        return Ok(Asked::Migrate { records });
    }
    let contexts = chosen.get_str("contexts");
    if name == REPLAY {
        let log = chosen.get_str("LOG").unwrap_or("");
        let later = chosen.get_strs("LATER").unwrap_or_default();
        return Ok(Asked::Replay {
            records,
            log,
            later: later.to_vec(alloc)?,
            contexts,
        });
    }
    if name == SERVE {
        return serve_asked(alloc, records, contexts, &chosen);
    }
    let Some(tag) = Tag::new(chosen.get_one::<u16>("tag").unwrap_or(0)) else {
        return Ok(Asked::Refused(String::new(alloc)));
    };
    Ok(Asked::Ask {
        records,
        moment: chosen.get_str("MOMENT").unwrap_or(""),
        tag,
        contexts,
    })
}

/// The request that clap answers with a text in place of matches: help, version or a refusal.
fn told_by<'a>(alloc: Global, error: &Error) -> Result<Asked<'a>, AllocError> {
    if error.kind() == ErrorKind::OutOfMemory {
        return Err(AllocError);
    }
    let text = format!(in alloc; "{error}")?;
    if error.use_stderr() {
        Ok(Asked::Refused(text))
    } else {
        Ok(Asked::Help(text))
    }
}

/// The text after the help of `check`.
const CHECK_EXAMPLE: &str = "Examples:
  scp check examples/freephone.csv
  scp check examples/freephone.csv --explain

The first record is key,SERVICE_KEY,OFFSET: OFFSET is local time less UTC, in minutes. Each other record is a rule,
number,prefix,days,from,to,weight,action[,destination ..], as 800123456,,12345,08:00,18:00,1,route,302223344.
A file of version 2 begins with fprecords,2 and may have closed days, as closed,800123456,2026-12-25.
The first faulty record is reported. With --explain all faults are printed, each with its line, its field and what is
in it; of a good file the service key, how far local time is from UTC, and what is allowed and may be a slip: minutes
of the week without a rule, rules that are there twice or that no call gets, closed days of numbers without rules.";

const MIGRATE_EXAMPLE: &str = "Example:
  scp migrate examples/freephone.csv > records.csv

Prints the line fprecords,2 and then the records of the file from its head on, one a line, without quotes,
empty lines and carriage returns. Their fields are unchanged. Nothing is printed if a record is faulty.
Print to another file than the one that is read: a shell empties it before the program begins.";

const ASK_EXAMPLE: &str = "Example:
  scp ask examples/freephone.csv 2024-05-06T12:00:00Z < examples/calls.txt

Each line of standard input is a TCAP message in hexadecimal digits, or +N: N milliseconds go by.
Each message that is sent is a line of standard output, written before more input is read.";

const REPLAY_EXAMPLE: &str = "Example:
  scp replay examples/freephone.csv examples/calls.log

Replays each step of the log, and prints for each link how many components it accepted, how many
entries it served and how many frames it sent. The first line that can't be replayed is reported.
A message with the table 0 is read by RECORDS, one with 1 by the first of LATER, and so on.";

const EXAMPLES: &str = "Examples:
  scp check examples/freephone.csv
  scp migrate examples/freephone.csv > records.csv
  scp ask examples/freephone.csv 2024-05-06T12:00:00Z < examples/calls.txt
  scp serve examples/freephone.csv --listen 127.0.0.1:14700 --log run.log
  scp replay examples/freephone.csv examples/calls.log";

/// The argument that names the file of the records.
fn records<'a>(alloc: Global) -> Arg<'a> {
    Arg::new(alloc, "RECORDS")
        .required(true)
        .help("The file of the number translation records")
}

/// The option that lists the application contexts.
fn contexts<'a>(alloc: Global) -> Arg<'a> {
    Arg::new(alloc, "contexts")
        .long("contexts")
        .value_name("LIST")
        .help(
            "The application contexts that are accepted, without tag and length, as 2A0304,2A0305 [default: none]",
        )
}

/// The subcommand that counts.
fn check_command<'a>(alloc: Global) -> Result<Command<'a>, AllocError> {
    let explain = Arg::new(alloc, "explain")
        .long("explain")
        .action(ArgAction::SetTrue)
        .help("Print all faults with their lines and fields, or what may be a slip");
    Command::new(alloc, CHECK)
        .about("Validates a file of records and counts its numbers, rules and closed days")
        .after_help(CHECK_EXAMPLE)
        .arg(records(alloc))?
        .arg(explain)
}

/// The subcommand that writes a file of version 2.
fn migrate_command<'a>(alloc: Global) -> Result<Command<'a>, AllocError> {
    Command::new(alloc, MIGRATE)
        .about("Prints the records of a file as a file of version 2")
        .after_help(MIGRATE_EXAMPLE)
        .arg(records(alloc))
}

/// The subcommand that answers messages.
fn ask_command<'a>(alloc: Global) -> Result<Command<'a>, AllocError> {
    let moment = Arg::new(alloc, "MOMENT")
        .required(true)
        .help("The instant of the first line, as 2024-05-06T12:00:00Z");
    let tag = Arg::new(alloc, "tag")
        .long("tag")
        .value_name("N")
        .value_parser(value_parser!(u16).range(0..=4094))
        .default_value("0")
        .help(
            "The tag of the run, 0 to 4094, by which its identifiers differ from those of others",
        );
    Command::new(alloc, "ask")
        .about("Answers the TCAP messages of standard input, one line of hexadecimal text each")
        .after_help(ASK_EXAMPLE)
        .arg(records(alloc))?
        .arg(moment)?
        .arg(contexts(alloc))?
        .arg(tag)
}

/// The subcommand that replays a log.
fn replay_command<'a>(alloc: Global) -> Result<Command<'a>, AllocError> {
    let log = Arg::new(alloc, "LOG")
        .required(true)
        .help("The log of a run");
    let later = Arg::new(alloc, "LATER").num_args(0..).help(
        "The files of records that were loaded later, in that order",
    );
    Command::new(alloc, REPLAY)
        .about("Replays the steps of a log, and prints what each link did")
        .after_help(REPLAY_EXAMPLE)
        .arg(records(alloc))?
        .arg(log)?
        .arg(later)?
        .arg(contexts(alloc))
}

/// The whole command line.
fn command<'a>(alloc: Global) -> Result<Command<'a>, AllocError> {
    Command::new(alloc, PROGRAM)
        .bin_name(PROGRAM)?
        .version(VERSION)
        .about("A service control point for freephone numbers")
        .after_help(EXAMPLES)
        .subcommand_required(true)
        .subcommand(check_command(alloc)?)?
        .subcommand(migrate_command(alloc)?)?
        .subcommand(ask_command(alloc)?)?
        .subcommand(serve_command(alloc)?)?
        .subcommand(replay_command(alloc)?)
}

/// The moment of a text: milliseconds since 1970-01-01T00:00:00Z, parts of a millisecond dropped towards the past. For
/// example, `2024-05-06T12:00:00Z` is 1,714,996,800,000.
///
/// `None` if the text isn't an instant, or is one before 1970 or after 2099.
pub fn moment_of(text: &str) -> Option<Moment>
    ensures { result ≡ moment_in (parse_timestamp text.now) }
{
    let instant: Timestamp = text.parse().ok()?;
    if instant.as_nanosecond() < 0 {
        return None;
    }
    Moment::new(u64::try_from(instant.as_millisecond()).ok()?)
}
