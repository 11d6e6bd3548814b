//! A run: its address, its waits, and the report.

ghost use Rattle.std.specs.Prelude.{◌≡◌, ◌≤◌, ◌<◌, ◌+◌, OnOk, length};
ghost use Rattle.std.specs.Io.KnownBytes.{Appends};
ghost use Rattle.fp_replay.specs.Replayed.{report_line};
ghost use Rattle.fp_serve.specs.Report.{TellsAnswers, TellsLinks, with_links_below};
ghost use Rattle.fp_watch.specs.Links.{lines_by};

use crate::moment::{await_next_second, tag_of};
use crate::run::command_lines::start_reading;
use crate::run::commands::{Commands, MOST_WAITING, Notice, Operator, follow};
use crate::run::link_threads::run_links;
use crate::run::logging::start_log;
use crate::run::report::{write_address, write_report};
use crate::run::watching::{end_watch, start_watch};
use crate::run::{Draining, Events, Run, ServeFault, Service, Settings, Statuses, Stop};
use crate::system::System;
use crossbeam_channel::{Receiver, Sender, bounded};
use fp_book::Totals;
use fp_hub::{Gate, OpenGate};
use fp_network::{Drain, NetworkLink};
use fp_streams::LinkWrite;
use fp_tally::now;
use fp_watch::{Event, PeerName, Watched};
use std::alloc::{AllocError, Global};
use std::io::Read;
use std::net::{SocketAddr, TcpListener};
use std::rt::Clock;
use std::sync::{Arc, Wait};
use std::thread;

/// The settings with the tag of the run. If that is the tag of the second when the run begins, returns once this second
/// is over, so that the first message is read in a later one.
fn with_tag_of_run<R: Wait + Clock>(
    rt: &R,
    links: &Links,
    events: &Events,
    settings: Settings,
) -> Settings
    ensures first { result.first_link ≡ settings.first_link }
    ensures links { result.links ≡ settings.links }
    ensures has_commands { result.has_commands ≡ settings.has_commands }
{
    if !settings.has_tag_of_start {
        return settings;
    }
    let start = now(rt);
    await_next_second(rt, links, events, start);
    settings.with_tag(tag_of(start))
}

/// The address of a listener, which is set not to block.
fn address_of(listener: &TcpListener) -> Result<SocketAddr, ServeFault> {
    let Ok(address) = listener.local_addr() else {
        return Err(ServeFault::NoConnection);
    };
    match listener.set_nonblocking(true) {
        Ok(()) => Ok(address),
        Err(_) => Err(ServeFault::NoConnection),
    }
}

/// A link that a network carries.
#[derive(Drop)]
pub struct StandingLink {
    /// The network.
    pub network: Arc<NetworkLink>,
    /// The text of its peer.
    pub peer: PeerName,
    /// The address that is reported as listened at.
    pub address: SocketAddr,
    /// The drain of the node whose network carries the link.
    pub drain: Arc<Drain>,
}

/// The source of a run's links.
#[derive(Drop)]
pub enum Links {
    /// A connection is awaited here for each link.
    Awaited(TcpListener),
    /// A link that a network carries, the only one of the run.
    Standing(StandingLink),
}

impl Links {
    /// The address where the run listens.
    fn address(&self) -> Result<SocketAddr, ServeFault> {
        match self {
            Links::Awaited(listener) => address_of(listener),
            Links::Standing(link) => Ok(link.address),
        }
    }

    /// The drain of the node, if a network carries the link.
    fn draining(&self) -> Result<Option<Draining>, AllocError> {
        match self {
            Links::Awaited(_) => Ok(None),
            Links::Standing(link) => Ok(Some(Draining::new(Arc::try_clone(&link.drain)?))),
        }
    }
}

/// The inputs of a run besides its records: its settings, the source of its links, its commands, the device of its log,
/// and its counters.
#[derive(Drop)]
pub struct Server<I: Drop, O: Drop, L: Drop> {
    /// The number of links, and how they are served.
    pub settings: Settings,
    /// The source of the links.
    pub links: Links,
    /// The commands to the run while it lasts.
    pub commands: Commands<I, O>,
    /// The device of the log.
    pub log: L,
    /// The counters, if the run has them.
    pub watched: Option<Watched>,
}

impl<
    I: Read + Send + Drop + 'static,
    O: Operator + Drop,
    L: LinkWrite + Send + Drop + 'static,
> Server<I, O, L> {
    /// Serves links until all of them are down and no more commands can follow. First it writes `listening A` to
    /// `output`, with the address of the listener. It accepts one connection for each link; the links are numbered in
    /// the order of their connections, from the settings' first link on, usually 0. On each it answers the messages,
    /// from the newest records and with the names of application contexts that are accepted. In the end it writes `link
    /// L accepted A served S sent T` for each number below the first link, with zeros, and then for each link, in
    /// order, up to the first link whose totals aren't known.
    ///
    /// The local identifiers of the dialogues have the tag of the settings. If the settings ask for the tag of the
    /// second when the run begins ([`Settings::with_tag_of_start`]), the first connection is accepted once this second
    /// is over.
    ///
    /// Each line of the commands' input is a command. `reload`: the operator reads the records again, and `reloaded N`
    /// is written once they replace the newest, N their index. Each message that is prepared from then on is answered
    /// from them, and an open dialogue goes on with the rule that it got. Any other line is handed to the operator to
    /// be refused. A read that fails ends the commands, as the end of their input does. After a fault the run ends
    /// without waiting for their end, and the thread that reads them is left to itself.
    ///
    /// If the settings say so ([`Settings::with_commands`]), the run ends with its links, without waiting for the end
    /// of the commands, and more commands are known. `links` writes one line for each connected link, in order: `link L
    /// up P accepted A served S sent T held H`, or `down` in place of `up`, with the link's number, the address of its
    /// client, its totals and its held dialogues, as of its last tick, so up to a second old, or in the end. Then it
    /// writes `links N`, the number of these lines. For example, `link 0 up 127.0.0.1:40000 accepted 3 served 3 sent 2
    /// held 1`. `counters` writes the counters, in the text format of Prometheus, and `# EOF`, if the run has counters
    /// ([`Watched`]); and `counters NUMBER` the counters of a called number, if the run counts numbers. `drain`, if a
    /// network carries the link and the node has a unit of its own, asks its network for no new dialogues, and the
    /// links end once no dialogue is held. `quit` ends all links: no further message is accepted, the accepted ones are
    /// served and their answers sent, at most two seconds after the command, and then each link goes down. A link that
    /// was never connected has totals of 0.
    ///
    /// The log begins with its head, which has the number of the last link plus one, and the tag; and gets the lines of
    /// each link about once a second, and more often under load: whole lines, after which the writer is flushed. A
    /// thread of its own writes it. Two others wait for the writer. A receiving thread whose link finds no place for
    /// more lines waits for it, at most two seconds for a read, and a tenth of a second if the run goes on without its
    /// log. The run itself waits, at most a second before it accepts the first connection, and, once all links are
    /// down, as long as lines are written within five seconds, at most a minute. If the log isn't written by then it
    /// can't be written, and the thread is left to itself.
    ///
    /// A link ends if its client closes the connection; if it closes only its sending side, once the accepted messages
    /// are served and the answers sent, at most two seconds after the end was read; if the length of a frame is
    /// invalid; if a read or a write fails, also because the client acknowledges nothing, or takes none of the octets
    /// that wait for it, for 110 seconds; if an allocation for a frame fails; if its dialogues keep more entries than
    /// [`Settings::most_entries`], at its next tick; and after 2^40 reads, or 2^40 frames and Aborts sent.
    ///
    /// After a fault each link that is up goes down at its next tick, at most a second later, and the run ends, even if
    /// it awaits a connection. The first fault is reported. A write to the log that fails is no fault if the settings
    /// say so ([`Settings::with_log_gaps`]): it is tried again each second. Once the last connection was accepted, or
    /// after a fault, the listener is dropped, so that later connections are refused. `events` get each link that goes
    /// up or down, when the log failed first and when it went on, and how many of its lines were lost at the end of the
    /// run.
    pub fn serve<R: System + Copy + Send + Sync + 'static, W: LinkWrite>(
        self,
        rt: &R,
        service: Service<'_>,
        events: &Events,
        output: &mut W,
    ) -> Result<(), ServeFault>
        ensures { OnOk result (TellsLinks service.entry.tables.now self.settings.first_link self.settings.links self.settings.has_commands
            (W.contents output.old) (W.contents output.new)) }
    {
        self.serve_through(rt, service, &OpenGate, events, output)
    }

    /// Serves links as [`Server::serve`] does, which has an [`OpenGate`]: here each worker passes this gate between
    /// taking a turn and serving it, with no lock held. A turn that waits there holds up its worker and the dialogues
    /// whose turns that worker took. The receiving thread serves turns in their places, which pass no gate; so if all
    /// turns must pass the gate, let it serve none ([`Settings::with_most_helped`]). The run ends only once no thread
    /// waits at the gate.
    pub fn serve_through<R: System + Copy + Send + Sync + 'static, G: Gate + Sync, W: LinkWrite>(
        self,
        rt: &R,
        service: Service<'_>,
        gate: &G,
        events: &Events,
        output: &mut W,
    ) -> Result<(), ServeFault>
        ensures { OnOk result (TellsLinks service.entry.tables.now self.settings.first_link self.settings.links self.settings.has_commands
            (W.contents output.old) (W.contents output.new)) }
    {
        let Server {
            settings,
            links,
            commands,
            log,
            watched,
        } = self;
        let tagged = Server {
            settings: with_tag_of_run(rt, &links, events, settings),
            links,
            commands,
            log,
            watched,
        };
        tagged.serve_tagged(rt, service, gate, events, output)
    }

    /// Serves links as [`Server::serve_through`] does, in a run whose settings have its tag.
    fn serve_tagged<R: System + Copy + Send + Sync + 'static, G: Gate + Sync, W: LinkWrite>(
        self,
        rt: &R,
        service: Service<'_>,
        gate: &G,
        events: &Events,
        output: &mut W,
    ) -> Result<(), ServeFault>
        ensures { OnOk result (TellsLinks service.entry.tables.now self.settings.first_link self.settings.links self.settings.has_commands
            (W.contents output.old) (W.contents output.new)) }
    {
        let Server {
            settings,
            links,
            commands: Commands {
                input,
                mut operator,
            },
            log: device,
            watched,
        } = self;
        let alloc = service.alloc;
        let address = links.address()?;
        let draining = links.draining()?;
        let (sender, notices) = bounded(alloc, MOST_WAITING)?;
        let of_commands = sender.clone()?;
        let statuses = Statuses::new(alloc, settings.links)?;
        let stop = Stop::new(rt, alloc)?;
        write_address(alloc, address, output)?;
        let log = start_log(rt, alloc, settings, events, &stop, device)?;
        if let Err(fault) = start_reading(rt, input, &stop, settings.has_commands, of_commands) {
            stop.ask_for(rt, fault);
        }
        let watch = start_watch(rt, alloc, watched, &log, &stop, &draining)?;
        let run = Run {
            rt,
            service,
            settings,
            statuses: &statuses,
            events,
            stop: &stop,
            log: &log,
            watch: &watch,
            draining: &draining,
        };
        let counted = run.serve_and_follow(gate, links, &sender, &notices, &mut operator, output)?;
        run.report(counted.as_slice(), output)
    }
}

impl<'x, R: System + Sync> Run<'x, R> {
    /// Runs links, at most 8, until all of them are down, in a thread of their own, and follows the commands meanwhile.
    /// Then ends the log, and returns the totals of the links. After a fault of the commands the report is still
    /// written, if more commands are known.
    fn serve_and_follow<G: Gate + Sync, O: Operator, W: LinkWrite>(
        &'x self,
        gate: &'x G,
        links: Links,
        sender: &Sender<Notice>,
        notices: &Receiver<Notice>,
        operator: &mut O,
        output: &mut W,
    ) -> Result<Vec<Totals>, ServeFault>
        ensures { OnOk result (TellsAnswers self.entry.now.service.tables.now self.entry.now.settings.first_link self.entry.now.settings.has_commands
            (W.contents output.old) (W.contents output.new)) }
    {
        let mut links = Some(links);
        let (counted, followed) = thread::join_mut(
            self.rt,
            &mut || {
                self.statuses.begin();
                let taken = links.take();
                let counted = run_links(self, gate, taken);
                if counted.is_err() {
                    self.stop.ask_for(self.rt, ServeFault::Memory);
                }
                self.statuses.end(self.rt, sender);
                counted
            },
            &mut || follow(self, notices, operator, output),
        );
        self.finish_log();
        end_watch(self.watch);
        let counted = counted?;
        if let Err(fault) = followed {
            let Settings {
                first_link,
                has_commands,
                ..
            } = self.settings;
            if has_commands {
                // By now the output may take it.
                let _ = write_report(self.service.alloc, first_link, counted.as_slice(), output);
            }
            return Err(self.stop.fault(self.rt).unwrap_or(fault));
        }
        Ok(counted)
    }

    /// Ends the log once all links are down. If lines of it weren't written, their number is reported, and that is the
    /// fault of the run unless it had another one.
    fn finish_log(&self) {
        let lines = self.log.finish(self.rt);
        if lines > 0 {
            self.stop.ask_for(self.rt, ServeFault::UnwrittenLog);
            self.events.report(self.rt, Event::LogLost { lines });
        }
    }

    /// Writes the totals of the links. The first fault of the run goes before one of writing.
    fn report<W: LinkWrite>(&self, counted: &[Totals], output: &mut W) -> Result<(), ServeFault>
        ensures { OnOk result ((length counted.now ≡ self.entry.now.settings.links) × Appends (W.contents output.old) (W.contents output.new)
            (lines_by report_line 0 (with_links_below self.entry.now.settings.first_link counted.now))) }
    {
        let Settings {
            first_link,
            links,
            ..
        } = self.settings;
        let reported = write_report(self.service.alloc, first_link, counted, output);
        if let Some(first) = self.stop.fault(self.rt) {
            return Err(first);
        }
        reported?;
        if counted.len() != usize::from(links) {
            return Err(ServeFault::LostSeat);
        }
        Ok(())
    }
}
