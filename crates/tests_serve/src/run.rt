//! A run of `fp_serve` whose streams are in memory, beside its clients.

use fp_apdu::Name;
use fp_hub::{Gate, Tables};
use fp_records::Table;
use fp_replay::{ReplayFault, replay};
use fp_serve::{
    Commands, Events, Links, Operator, Refusal, ServeFault, Server, Service, Settings, Wanted,
};
use fp_streams::Counted;
use std::alloc::Global;
use std::net::{Net, TcpListener, TcpStream};
use std::rt::Clock;
use std::sync::Wait;
use std::test::Fail;
use std::thread;
use std::thread::Threads;
use tests_peer::acts::Act;
use tests_peer::device::Mood;
use tests_peer::streams::Streams;
use tests_peer::talk::RECORDS;

/// No operator: nothing is reloaded.
#[derive(Drop)]
struct NoOperator;

impl Operator for NoOperator {
    fn reload(&mut self, _tables: &Tables) -> Option<u32> {
        None
    }

    fn refuse(&mut self, _refusal: Refusal) {}

    fn fail(&mut self, _fault: ServeFault) {}
}

/// A run, and what its clients do meanwhile.
#[derive(Clone, Copy)]
pub(crate) struct Plan<'x> {
    pub(crate) settings: Settings,
    /// The mood of the device of its log.
    pub(crate) mood: Mood,
    /// The events that it writes, if any.
    pub(crate) wanted: Option<Wanted>,
    pub(crate) act: Act<'x>,
}

impl<'x> Plan<'x> {
    /// A run of this number of links, of two workers each, without events, whose log takes each write at once.
    pub(crate) fn new(count: u8, act: Act<'x>) -> Result<Plan<'x>, Fail> {
        Ok(Plan {
            settings: Settings::new(count, 2).ok_or("settings")?,
            mood: Mood::Takes(0),
            wanted: None,
            act,
        })
    }
}

/// What came of a run.
#[derive(Drop)]
pub(crate) struct Outcome {
    pub(crate) fault: Option<ServeFault>,
    /// What was reported of the links, without the address.
    pub(crate) told: Vec<u8>,
    /// What the replay of the log reports of them; nothing, if it can't be followed.
    pub(crate) replayed: Vec<u8>,
    /// Why it can't be followed.
    pub(crate) replay_fault: Option<ReplayFault>,
    pub(crate) log: Vec<u8>,
    /// The events.
    pub(crate) errors: Vec<u8>,
    /// How many seconds after its cause link 0 was down, for [`Act::End`].
    pub(crate) seconds: u64,
    /// How many seconds after the end of its clients the run ended.
    pub(crate) seconds_after: u64,
}

impl Outcome {
    /// A failure: another report of the links than the wanted one came from this.
    fn failure(&self, from: &str, wanted: &str, came: &[u8]) -> Fail {
        let came = str::from_utf8(came).unwrap_or("no text");
        let (fault, replay_fault) = (self.fault, self.replay_fault);
        Fail::new(format_args!(
            "{from}: wanted {wanted:?}, came {came:?}; run fault {fault:?}, replay fault {replay_fault:?}"
        ))
    }

    /// Fails unless the run ended with this fault, or with none.
    pub(crate) fn want_fault(&self, wanted: Option<ServeFault>) -> Result<(), Fail> {
        let came = self.fault;
        if came != wanted {
            return Err(Fail::new(format_args!("run: wanted the fault {wanted:?}, came {came:?}")));
        }
        Ok(())
    }

    /// Fails unless the run ended with this fault, or with none, and reported this of its links.
    pub(crate) fn want_told(&self, fault: Option<ServeFault>, wanted: &str) -> Result<(), Fail> {
        self.want_fault(fault)?;
        if self.told.as_slice() != wanted.as_bytes() {
            return Err(self.failure("run", wanted, self.told.as_slice()));
        }
        Ok(())
    }

    /// Fails unless the replay of the log reports this of the links.
    pub(crate) fn want_replayed(&self, wanted: &str) -> Result<(), Fail> {
        if self.replayed.as_slice() != wanted.as_bytes() {
            return Err(self.failure("replay", wanted, self.replayed.as_slice()));
        }
        Ok(())
    }

    /// Fails unless the run ended without a fault, reported this of its links, and left a log whose replay reports the
    /// same.
    pub(crate) fn want(&self, wanted: &str) -> Result<(), Fail> {
        self.want_told(None, wanted)?;
        self.want_replayed(wanted)
    }
}

/// Serves links from [`RECORDS`], whose turns pass this gate, until all of them are down. One application context is
/// accepted, 2A0304. `None`: out of memory.
fn serve<R, G>(
    rt: &R,
    alloc: Global,
    gate: &G,
    settings: Settings,
    streams: &Streams,
    events: &Events,
    listener: TcpListener,
) -> Option<Result<(), ServeFault>>
where
    R: Threads + Wait + Clock + Copy + Send + Sync + 'static,
    G: Gate + Sync,
{
    let tables = Tables::new(alloc, Table::read(alloc, RECORDS.as_bytes()).ok()?).ok()?;
    let contexts = [Name::new(&[0x2A, 3, 4])?];
    let service = Service {
        alloc,
        tables: &tables,
        contexts: &contexts,
    };
    let server = Server {
        settings,
        links: Links::Awaited(listener),
        commands: Commands {
            input: streams.commands(rt).ok()?,
            operator: NoOperator,
        },
        log: Counted::new(streams.log(rt).ok()?),
        watched: None,
    };
    let mut output = Counted::new(streams.output(rt, alloc));
    Some(server.serve_through(rt, service, gate, events, &mut output))
}

/// What the replay of a log reports, or why it can't be followed. `None`: out of memory.
fn replayed(alloc: Global, log: &[u8]) -> Option<(Vec<u8>, Option<ReplayFault>)> {
    let tables = [Table::read(alloc, RECORDS.as_bytes()).ok()?];
    let contexts = [Name::new(&[0x2A, 3, 4])?];
    let mut told = Counted::new(Vec::new(alloc));
    let mut lines = Counted::new(log);
    let fault = replay(alloc, &tables, &contexts, 1 << 40, &mut lines, &mut told).err();
    if fault.is_some() {
        told.device.clear();
    }
    Some((told.device, fault))
}

/// The events of a run, which are written to its errors.
fn events<R>(
    rt: &R,
    alloc: Global,
    wanted: Option<Wanted>,
    streams: &Streams,
) -> Result<Events, Fail>
where
    R: Threads + Wait + Clock + Copy + Send + Sync + 'static,
{
    match wanted {
        Some(wanted) => Ok(Events::start(rt, alloc, wanted, streams.errors(rt, alloc)?)?),
        None => Ok(Events::none()),
    }
}

/// How often the end of the events is awaited, each time for a second at most.
const MOST_FINISHES: u32 = 60;

/// Ends the events of a run, and waits until all are written.
fn finish<R: Wait + Clock>(rt: &R, events: &Events) {
    for _ in 0..MOST_FINISHES {
        // It returns at once if they are.
        events.finish(rt);
    }
}

/// Runs links, whose turns pass this gate, beside their clients. Fails if these see anything else than has to come.
pub(crate) fn run<R, G>(rt: &R, alloc: Global, gate: &G, plan: Plan<'_>) -> Result<Outcome, Fail>
where
    R: Threads + Wait + Clock + Net<Listener = TcpListener, Stream = TcpStream>,
    R: Copy + Send + Sync + 'static,
    G: Gate + Sync,
{
    let listener = TcpListener::bind(rt, "127.0.0.1:0")?;
    if !plan.act.prepare(&listener) {
        return Err(Fail::new("the listener goes on"));
    }
    let streams = Streams::new(alloc, plan.mood, plan.settings.has_commands)?;
    let events = events(rt, alloc, plan.wanted, &streams)?;
    let (result, played) = thread::join(
        rt,
        || serve(rt, alloc, gate, plan.settings, &streams, &events, listener),
        || plan.act.play(rt, alloc, &streams),
    );
    finish(rt, &events);
    let log = streams.end(rt, alloc).ok_or("out of memory")?;
    let played = match played {
        Ok(played) => played,
        Err(unmet) => return Err(Fail::new(unmet)),
    };
    let seconds_after = played.end.elapsed(rt)?.as_secs();
    let (replayed, replay_fault) = replayed(alloc, log.as_slice()).ok_or("out of memory")?;
    Ok(Outcome {
        fault: result.ok_or("out of memory")?.err(),
        told: streams.told(rt, alloc).ok_or("out of memory")?,
        replayed,
        replay_fault,
        log,
        errors: streams.written_errors(rt, alloc).ok_or("out of memory")?,
        seconds: played.seconds,
        seconds_after,
    })
}
