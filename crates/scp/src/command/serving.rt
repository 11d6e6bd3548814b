//! The words of `serve`.

use super::{Asked, contexts, records};
use crate::network::{NetworkWords, address_in, has_subsystem, units_in};
use crate::tag::Tag;
use clap::builder::ArgPredicate;
use clap::{Arg, ArgAction, ArgMatches, Command, value_parser};
use fp_serve::{Settings, Wanted};
use fp_tids::LocalIds;
use std::alloc::{AllocError, Global};

/// The name of the subcommand that serves links.
pub(super) const SERVE: &str = "serve";

/// The word for a tag from the second when a run begins.
const AUTO: &str = "auto";

/// The end of the text about a refused value.
const MORE: &str = "\n\nFor more information, try '--help'.\n";

/// A request to serve links over connections, made by the words of a command line.
#[derive(Clone, Copy, Debug)]
pub struct ServeWords<'a> {
    /// The path of the records file.
    pub records: &'a str,
    /// The text of the address where connections are awaited, not read yet.
    pub listen: &'a str,
    /// The words for a node on a signalling network, if the program is to be one.
    pub network: Option<NetworkWords<'a>>,
    /// How many links there are, 1 to 8, the number of the first, the tag, and how many workers each has, 1 to 8.
    pub settings: Settings,
    /// The path of the log that is written.
    pub log: &'a str,
    /// The text of the address for HTTP requests of the counters, not read yet, if there is one.
    pub metrics: Option<&'a str>,
    /// Whether each called number has counters, too.
    pub counts_numbers: bool,
    /// The events that are written, if any are.
    pub events: Option<Wanted>,
    /// The text of the list of application contexts, not read yet, if there is one.
    pub contexts: Option<&'a str>,
}

/// The request in the words of `serve`.
pub(super) fn serve_asked<'a>(
    alloc: Global,
    records: &'a str,
    contexts: Option<&'a str>,
    chosen: &ArgMatches<'a>,
) -> Result<Asked<'a>, AllocError> {
    let links = chosen.get_one::<u8>("links").unwrap_or(1);
    let workers = chosen.get_one::<u8>("workers").unwrap_or(2);
    let Some(settings) = Settings::new(links, workers) else {
        return Ok(Asked::Refused(String::new(alloc)));
    };
    let first_link = chosen.get_one::<u8>("first-link").unwrap_or(0);
    let Some(settings) = settings.with_first_link(first_link) else {
        return refused_first_link(alloc, first_link, settings);
    };
    let network = match network_words(alloc, chosen, links)? {
        Ok(network) => network,
        Err(refusal) => return Ok(Asked::Refused(refusal)),
    };
    let tag = chosen.get_str("tag").unwrap_or("0");
    let Some(settings) = with_tag(settings, tag) else {
        return refused_tag(alloc, tag);
    };
    let has_log_gaps = chosen.get_flag("log-gaps");
    let settings = if has_log_gaps {
        settings.with_log_gaps()
    } else {
        settings
    };
    Ok(Asked::Serve(ServeWords {
        records,
        listen: chosen.get_str("listen").unwrap_or(""),
        network,
        settings: if chosen.get_flag("commands") {
            settings.with_commands()
        } else {
            settings
        },
        log: chosen.get_str("log").unwrap_or(""),
        metrics: chosen.get_str("metrics"),
        counts_numbers: chosen.get_flag("count-numbers"),
        events: wanted_events(chosen.get_flag("events"), has_log_gaps),
        contexts,
    }))
}

/// The description of an address.
const ADDRESS: &str = "neither PC:SSN, as 201:241, nor an address of SCCP in hexadecimal digits";

/// The text about a value that an option doesn't take, in the form of clap's.
fn refused_value(
    alloc: Global,
    option: &str,
    value: &str,
    wanted: &str,
) -> Result<String, AllocError> {
    format!(in alloc; "error: invalid value '{value}' for '--{option}': {value} is {wanted}{MORE}")
}

/// The words of `serve` for a node, if the program is to be one; or the text about a refused word.
fn network_words<'a>(
    alloc: Global,
    chosen: &ArgMatches<'a>,
    links: u8,
) -> Result<Result<Option<NetworkWords<'a>>, String>, AllocError> {
    let Some(own) = chosen.get_str("sccp") else {
        return Ok(Ok(None));
    };
    let exchange = chosen.get_str("exchange").unwrap_or("");
    let units = chosen.get_str("units").unwrap_or("");
    if links != 1 {
        let refusal = format!(in alloc; "error: with '--sccp' there is 1 link, not {links}{MORE}")?;
        return Ok(Err(refusal));
    }
    let Some(address) = address_in(own) else {
        return Ok(Err(refused_value(alloc, "sccp <ADDRESS>", own, ADDRESS)?));
    };
    if !has_subsystem(&address) {
        let wanted = "an address without a subsystem number";
        return Ok(Err(refused_value(alloc, "sccp <ADDRESS>", own, wanted)?));
    }
    if address_in(exchange).is_none() {
        return Ok(Err(refused_value(alloc, "exchange <ADDRESS>", exchange, ADDRESS)?));
    }
    if units_in(alloc, units)?.is_none() {
        let wanted = "no list of 1 to 8 different names of 1 to 64 octets";
        return Ok(Err(refused_value(alloc, "units <NAME,..>", units, wanted)?));
    }
    Ok(Ok(Some(NetworkWords {
        own,
        exchange,
        units,
    })))
}

/// The settings with the tag of a text: a number up to 4,094, or `auto`. `None` if it is neither.
fn with_tag(settings: Settings, text: &str) -> Option<Settings> {
    if text == AUTO {
        return Some(settings.with_tag_of_start());
    }
    let tag = Tag::new(text.parse().ok()?)?;
    Some(settings.with_tag(tag.number))
}

/// The text about a refused tag, in the form of clap's.
fn refused_tag<'a>(alloc: Global, text: &str) -> Result<Asked<'a>, AllocError> {
    let last = LocalIds::LAST_TAG;
    let text = format!(in alloc;
        "error: invalid value '{text}' for '--tag <N|auto>': {text} is neither in 0..={last} nor {AUTO}{MORE}"
    )?;
    Ok(Asked::Refused(text))
}

/// The text about a first link that would give the last one a number above 7, in the form of clap's.
fn refused_first_link<'a>(
    alloc: Global,
    first_link: u8,
    settings: Settings,
) -> Result<Asked<'a>, AllocError> {
    let most = Settings::MOST - settings.links;
    let text = format!(in alloc;
        "error: invalid value '{first_link}' for '--first-link <N>': {first_link} is not in 0..={most}{MORE}"
    )?;
    Ok(Asked::Refused(text))
}

/// The events that are written: all if they are asked for; if the log may have gaps, at least the failures of the log.
fn wanted_events(events: bool, log_gaps: bool) -> Option<Wanted> {
    if events {
        Some(Wanted::All)
    } else if log_gaps {
        Some(Wanted::LogFaults)
    } else {
        None
    }
}

/// The text after the help of `serve`.
const SERVE_EXAMPLE: &str = "Example:
  scp serve examples/freephone.csv --listen 127.0.0.1:14700 --log run.log

Prints the address where it listens, answers each connection as one link, and prints what each link did
once all of them are down and standard input has ended. Each line of that is a command: reload reads
RECORDS again. With --commands, links prints the status of each link, counters what --metrics gives,
quit ends the run once what was accepted is served and sent, and the run ends with its links. Each
message follows its length, which has four octets. FILE is emptied first, and gets each step of the
links: scp replay replays them.";

/// An option that takes a number from 1 to 8.
fn up_to_eight<'a>(alloc: Global, name: &'a str, default: &'a str, help: &'a str) -> Arg<'a> {
    Arg::new(alloc, name)
        .long(name)
        .value_name("N")
        .value_parser(value_parser!(u8).range(1..=8))
        .default_value(default)
        .help(help)
}

/// An option that is given or not.
fn flag<'a>(alloc: Global, name: &'a str, help: &'a str) -> Arg<'a> {
    Arg::new(alloc, name)
        .long(name)
        .action(ArgAction::SetTrue)
        .help(help)
}

/// The option for counters of each called number.
fn count_numbers_option<'a>(alloc: Global) -> Result<Arg<'a>, AllocError> {
    flag(
        alloc,
        "count-numbers",
        "Count for each called number, too, which the command counters NUMBER prints; with --commands",
    )
    .requires_arg("commands")
}

/// The option for the tag of the run.
fn tag_option<'a>(alloc: Global) -> Result<Arg<'a>, AllocError> {
    let tag = Arg::new(alloc, "tag")
        .long("tag")
        .value_name("N|auto")
        .default_value("0")
        .help(
            "The tag of the run, 0 to 4094, by which its identifiers differ from those of others; auto: by the time",
        );
    tag.default_value_if("sccp", ArgPredicate::IsPresent, Some(AUTO))
}

/// The options of a node on a signalling network.
fn with_network_options<'a>(
    alloc: Global,
    command: Command<'a>,
) -> Result<Command<'a>, AllocError> {
    let sccp = Arg::new(alloc, "sccp")
        .long("sccp")
        .value_name("ADDRESS")
        .help(
            "Be a node with this address of SCCP, PC:SSN or all its octets in hexadecimal digits; transfer points connect over IPA",
        )
        .requires_arg("exchange")?
        .requires_arg("units")?;
    let exchange = Arg::new(alloc, "exchange")
        .long("exchange")
        .value_name("ADDRESS")
        .help("The address of the exchange whose dialogues are served, with --sccp")
        .requires_arg("sccp")?;
    let units = Arg::new(alloc, "units")
        .long("units")
        .value_name("NAME,..")
        .help(
            "The units that transfer points may name, with --sccp; the first is the one that several nodes have in common",
        )
        .requires_arg("sccp")?;
    command.arg(sccp)?.arg(exchange)?.arg(units)
}

/// The subcommand that serves links.
pub(super) fn serve_command<'a>(alloc: Global) -> Result<Command<'a>, AllocError> {
    let listen = Arg::new(alloc, "listen")
        .long("listen")
        .value_name("ADDRESS")
        .required(true)
        .help("The IP address and the port where connections are awaited, as 127.0.0.1:14700");
    let log = Arg::new(alloc, "log")
        .long("log")
        .value_name("FILE")
        .required(true)
        .help("The file that the log is written to, which is emptied first");
    let metrics = Arg::new(alloc, "metrics")
        .long("metrics")
        .value_name("ADDRESS")
        .help(
            "The IP address and the port where HTTP gives the run's counters at /metrics, and at /live and /ready how it is",
        );
    let first_link = Arg::new(alloc, "first-link")
        .long("first-link")
        .value_name("N")
        .value_parser(value_parser!(u8).range(0..=7))
        .default_value("0")
        .help("The number of the first link, 0 to 7; the others have the next ones, up to 7");
    let command = Command::new(alloc, SERVE)
        .about("Awaits connections, and answers the TCAP messages of each as one link")
        .after_help(SERVE_EXAMPLE)
        .arg(records(alloc))?
        .arg(listen)?
        .arg(log)?
        .arg(up_to_eight(
            alloc,
            "workers",
            "2",
            "How many workers each link has, 1 to 8",
        ))?
        .arg(up_to_eight(
            alloc,
            "links",
            "1",
            "How many connections are accepted, 1 to 8",
        ))?
        .arg(first_link)?
        .arg(tag_option(alloc)?)?;
    with_network_options(alloc, command)?
        .arg(contexts(alloc))?
        .arg(metrics)?
        .arg(flag(
            alloc,
            "events",
            "Write a line on standard error for the records, each link that comes or goes, and a log that fails",
        ))?
        .arg(flag(
            alloc,
            "commands",
            "Know the commands links, counters and quit too, and end with the links, whatever standard input does",
        ))?
        .arg(count_numbers_option(alloc)?)?
        .arg(flag(
            alloc,
            "log-gaps",
            "Go on if the log can't be written, leave a gap in it, and report that on standard error",
        ))
}
