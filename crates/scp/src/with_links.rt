//! One run of the program that may serve links.

ghost use Rattle.std.specs.Prelude.{◌≡◌, ◌≤◌, OnOk, ◌&&◌, ◌==◌, not, if◌then◌else◌};
ghost use Rattle.fp_serve.specs.Report.{TellsLinks};

use crate::command::{Asked, ServeWords, VERSION, asked_by};
use crate::console::Console;
use crate::fault::RunFault;
use crate::listening::{listener_at, metrics_listener_at};
use crate::log_file::{empty, lock, opened_log};
use crate::network::NetworkWords;
use crate::run::{accepted, records_in, run_asked, status_of};
use fp_apdu::Name;
use fp_hub::Tables;
use fp_network::{Drain, NetworkEvent, NetworkFault, NetworkLink, Node, Plan};
use fp_records::Table;
use fp_serve::{
    Commands, Event, Events, Links, Metrics, MetricsListener, Operator, ServeFault, Server,
    Service, StandingLink, System, Version, Wanted, Watched,
};
use fp_streams::Counted;
use sha2::{Digest, Sha256};
use std::alloc::AllocError;
use std::fs::{File, OpenFile};
use std::io::{Read, Write};
use std::net::{Net, TcpListener, TcpStream};
use std::random::RandomSource;
use std::rt::{Clock, Files};
use std::sync::Arc;

/// Runs the program as [`program`](crate::program) does, and serves links if the words ask for that. Faults of `serve`
/// are found in this order: the words, the application contexts, the records, the opening of the log, the address, the
/// address of `--metrics`, the lock and the emptying of the log, then those of the run.
///
/// A log that can't be opened, or that is the records file, is reported before the address is looked at, as `log:
/// cannot be opened`. So is, after it, a log that another run holds. A log that can't be emptied is reported as one
/// that can't be written: `log: cannot be written`. A text that isn't an address, and an address where no connections
/// can be awaited, are `listen: cannot listen`, and for `--metrics` they are `metrics: cannot listen`.
///
/// The events of the run, if the words ask for them, go to `event_lines`, by a thread that may still wait there when
/// this returns. So may a thread that reads commands from `input`, if the run ended after a fault or with its links.
///
/// A command `reload` reads the file of the records again. If it is faulty, or can't be read, its fault is a line on
/// `errors`, and the records stay as they were. So they do after `reload: refused`: 999 files replaced others, or
/// 65,535 in a run with a tag, or memory ran out once the file was read. For `links`, `counters`, `counters NUMBER`,
/// `drain` and `quit`, if the words ask for them, see [`Server::serve`]. Any other line gets `command: unknown`; the
/// texts of [`Refusal`](fp_serve::Refusal) are the answers to commands that aren't followed.
pub fn program_with_links<H, R, W, E, V>(
    rt: &H,
    words: &[String],
    input: R,
    output: &mut W,
    errors: &mut E,
    event_lines: V,
) -> u8
where
    H: Files<File = File>
        + AllocGlobal
        + Net<Listener = TcpListener, Stream = TcpStream>
        + RandomSource
        + System
        + Copy
        + Send
        + Sync
        + 'static,
    R: Read + Send + Drop + 'static,
    W: Write,
    E: Write,
    V: Write + Send + Drop + 'static,
    ensures { result ≤ 2 }
{
    match asked_by(rt.alloc(), words) {
        Ok(Asked::Serve(asked)) => {
            let outcome = serve_file(rt, asked, input, output, errors, event_lines);
            status_of(outcome, errors)
        }
        asked => run_asked(rt, asked, input, output, errors),
    }
}

/// The records, listeners and log of a run, read and opened before its first event.
#[derive(Drop)]
struct Prepared {
    contexts: Vec<Name>,
    table: Table,
    digest: Option<[u8; 32]>,
    log: File,
    listener: TcpListener,
    metrics_listener: Option<MetricsListener>,
}

/// Reads the records of a run, opens its log and its listeners, and empties the log.
fn prepare<H>(rt: &H, asked: &ServeWords<'_>) -> Result<Prepared, RunFault>
where
    H: Files<File = File>
        + AllocGlobal
        + Net<Listener = TcpListener, Stream = TcpStream>
        + RandomSource,
{
    let Some(contexts) = accepted(rt.alloc(), asked.contexts)? else {
        return Err(RunFault::NoContexts);
    };
    let text = records_in(rt, asked.records)?;
    let digest = digest_of(asked, text.as_slice());
    let table = Table::read_and_free(rt.alloc(), text)?;
    let log = opened_log(rt, asked.log, asked.records)?;
    let listener = listener_at(rt, asked.listen)?;
    let metrics_listener = metrics_listener_at(rt, asked.metrics)?;
    lock(&log)?;
    empty(&log)?;
    Ok(Prepared {
        contexts,
        table,
        digest,
        log,
        listener,
        metrics_listener,
    })
}

/// Serves links from the records of a file. Once events were started, each way out waits until they are
/// written, a second at most, or two if 1,024 wait.
fn serve_file<'x, H, R, W, E, V>(
    rt: &'x H,
    asked: ServeWords<'x>,
    input: R,
    output: &mut W,
    errors: &'x mut E,
    event_lines: V,
) -> Result<(), RunFault>
where
    H: Files<File = File>
        + AllocGlobal
        + Net<Listener = TcpListener, Stream = TcpStream>
        + RandomSource
        + System
        + Copy
        + Send
        + Sync
        + 'static,
    R: Read + Send + Drop + 'static,
    W: Write,
    E: Write,
    V: Write + Send + Drop + 'static,
{
    let prepared = prepare(rt, &asked)?;
    let events = started_events(rt, asked.events, &prepared, event_lines)?;
    let outcome = serve_prepared(rt, asked, prepared, input, output, errors, &events);
    events.finish(rt);
    outcome
}

/// Serves links, and reports events.
fn serve_prepared<'x, H, R, W, E>(
    rt: &'x H,
    asked: ServeWords<'x>,
    prepared: Prepared,
    input: R,
    output: &mut W,
    errors: &'x mut E,
    events: &'x Events,
) -> Result<(), RunFault>
where
    H: Files<File = File>
        + AllocGlobal
        + Net<Listener = TcpListener, Stream = TcpStream>
        + System
        + Copy
        + Send
        + Sync
        + 'static,
    R: Read + Send + Drop + 'static,
    W: Write,
    E: Write,
{
    let Prepared {
        contexts,
        table,
        digest,
        log,
        listener,
        metrics_listener,
    } = prepared;
    let watched = watched(rt, &asked, digest, table.counts(), metrics_listener)?;
    let tables = Tables::with_last_index(rt.alloc(), table, asked.settings.last_index())?;
    let service = Service {
        alloc: rt.alloc(),
        tables: &tables,
        contexts: contexts.as_slice(),
    };
    let metrics = match &watched {
        Some(watched) => Some(Arc::try_clone(&watched.metrics)?),
        None => None,
    };
    let operator = Console {
        rt,
        records: asked.records,
        events,
        metrics: &metrics,
        errors,
    };
    let Side { links, network } = side_of(rt, asked.network, listener)?;
    if let (Some(metrics), Some(_)) = (&metrics, &network) {
        metrics.note_connected(false);
    }
    let server = Server {
        settings: asked.settings,
        links,
        commands: Commands { input, operator },
        log: Counted::new(log),
        watched,
    };
    let outcome = serve_links(rt, service, server, events, &mut Counted::new(&mut *output));
    let finished = finish(rt, network, events);
    outcome?;
    finished?;
    Ok(())
}

/// The source of a run's links, and the network that carries them, if there is one.
#[derive(Drop)]
struct Side {
    links: Links,
    network: Option<Arc<NetworkLink>>,
}

/// The source of a run's links: a listener, or the network of a node whose transfer points connect to it.
fn side_of<H: AllocGlobal + Clock + Net<Listener = TcpListener, Stream = TcpStream>>(
    rt: &H,
    words: Option<NetworkWords<'_>>,
    listener: TcpListener,
) -> Result<Side, RunFault> {
    let Some(words) = words else {
        return Ok(Side {
            links: Links::Awaited(listener),
            network: None,
        });
    };
    let alloc = rt.alloc();
    let Some(asked) = words.node(alloc)? else {
        return Err(RunFault::Serve(ServeFault::NoConnection));
    };
    let Ok(address) = listener.local_addr() else {
        return Err(RunFault::Serve(ServeFault::NoConnection));
    };
    let Ok(drain) = Arc::new(alloc, Drain::new(asked.units.len() > 1)) else {
        return Err(RunFault::Serve(ServeFault::Memory));
    };
    let plan = Plan {
        own: asked.own,
        exchange: asked.exchange,
        units: asked.units.as_slice(),
    };
    let node = Node::new(alloc, plan)?;
    let link = NetworkLink::new(rt, alloc, listener, node, Arc::try_clone(&drain)?)?;
    let Ok(network) = Arc::new(alloc, link) else {
        return Err(RunFault::Serve(ServeFault::Memory));
    };
    let links = Links::Standing(StandingLink {
        network: Arc::try_clone(&network)?,
        peer: asked.peer,
        address,
        drain,
    });
    Ok(Side {
        links,
        network: Some(network),
    })
}

/// Waits until a network is over, if there is one, and reports its events and its numbers. `Err`: why it ended before
/// its link did.
fn finish<H: System>(
    rt: &H,
    network: Option<Arc<NetworkLink>>,
    events: &Events,
) -> Result<(), NetworkFault> {
    let Some(network) = network else {
        return Ok(());
    };
    let ended = network.finish(rt);
    for _ in 0..u64::MAX {
        let Some(event) = network.next_event(rt) else {
            break;
        };
        events.report(rt, Event::Network(event));
    }
    let numbers = NetworkEvent::Counted(network.tally(rt));
    events.report(rt, Event::Network(numbers));
    ended
}

/// The digest of the records, if an event, a page or a command has it.
fn digest_of(asked: &ServeWords<'_>, records: &[u8]) -> Option<[u8; 32]> {
    let has_metrics = asked.metrics.is_some() || asked.settings.has_commands;
    if has_metrics || asked.events == Some(Wanted::All) {
        Some(Sha256::digest(records))
    } else {
        None
    }
}

/// The version of this program.
fn version() -> Version {
    Version::from(VERSION).unwrap_or_default()
}

/// The events that are asked for. The last ones are kept for the readers of the run's page, if it has one. The first
/// event has the version of the program, and the next the digest of the records.
fn started_events<H, V>(
    rt: &H,
    wanted: Option<Wanted>,
    prepared: &Prepared,
    event_lines: V,
) -> Result<Events, ServeFault>
where
    H: AllocGlobal + System + Copy + Send + Sync + 'static,
    V: Write + Send + Drop + 'static,
{
    let recent = match &prepared.metrics_listener {
        Some(place) => Some(Arc::try_clone(&place.recent)?),
        None => None,
    };
    let events = match wanted {
        Some(wanted) => Events::start(rt, rt.alloc(), wanted, event_lines)?,
        None => Events::none(),
    };
    let events = match recent {
        Some(recent) => events.kept_in(recent),
        None => events,
    };
    events.report(rt, Event::Program { version: version() });
    if let Some(digest) = prepared.digest {
        events.report(rt, Event::Records { digest });
    }
    Ok(events)
}

/// The counters of a run with these words, if it may be asked for them: by commands or over HTTP. `counts` are how many
/// numbers and rules its records have.
fn watched<H: AllocGlobal>(
    rt: &H,
    asked: &ServeWords<'_>,
    digest: Option<[u8; 32]>,
    counts: (u32, u32),
    listener: Option<MetricsListener>,
) -> Result<Option<Watched>, AllocError> {
    if listener.is_none() && !asked.settings.has_commands {
        return Ok(None);
    }
    let Some(digest) = digest else {
        return Ok(None);
    };
    let metrics = Metrics::new(
        rt.alloc(),
        asked.settings.first_link,
        asked.settings.links,
        version(),
        digest,
        counts,
        asked.counts_numbers,
    )?;
    Ok(Some(Watched { metrics, listener }))
}

/// Serves links, from tables whose last index is the settings', with the clauses of [`Server::serve`] for writers whose
/// octets are known.
fn serve_links<H, I, O, W>(
    rt: &H,
    service: Service<'_>,
    server: Server<I, O, Counted<File>>,
    events: &Events,
    output: &mut Counted<W>,
) -> Result<(), ServeFault>
where
    H: AllocGlobal + System + Copy + Send + Sync + 'static,
    I: Read + Send + Drop + 'static,
    O: Operator + Drop,
    W: Write,
    requires tables { service.tables.now ≡ (if (server.settings.tag == 0) && not server.settings.has_tag_of_start then 999 else 65535) }
    ensures { OnOk result (TellsLinks service.entry.tables.now server.settings.first_link server.settings.links server.settings.has_commands
        (W.contents output.old.device) (W.contents output.new.device)) }
{
    server.serve(rt, service, events, output)
}
