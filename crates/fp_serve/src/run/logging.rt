//! The start of a run's log, and the run as its log sees it.

ghost use Rattle.std.specs.Prelude.{◌≡◌, ◌+◌};
ghost use Rattle.fp_book.specs.declared.line.Line.TheVariants.{Head};

use crate::run::{Events, ServeFault, Settings, Stop};
use crate::system::{System, start_thread};
use fp_book::Line;
use fp_runlog::{LogEvent, LogFault, LogRun, LogWriter, RunLog};
use fp_streams::LinkWrite;
use fp_watch::Event;
use std::alloc::Global;
use std::rt::Clock;
use std::sync::{Arc, Wait};

/// The run as its log sees it: its stop request, and its events.
#[derive(Drop)]
pub(crate) struct LoggedRun {
    stop: Arc<Stop>,
    events: Events,
}

impl LogRun for LoggedRun {
    fn time<R: Clock>(&self, rt: &R) -> u64 {
        self.stop.time(rt)
    }

    fn is_quitting(&self) -> bool {
        self.stop.is_quitting()
    }

    fn is_ending<R: Wait>(&self, rt: &R) -> bool {
        self.stop.refuses_connections(rt)
    }

    fn report<R: Wait + Clock>(&self, rt: &R, event: LogEvent) {
        let event = match event {
            LogEvent::Fails => Event::LogFails,
            LogEvent::GoesOn => Event::LogGoesOn,
            LogEvent::Gap { link, lines } => Event::LogGap { link, lines },
        };
        self.events.report(rt, event);
    }

    fn end<R: Wait>(&self, rt: &R, fault: LogFault) {
        let fault = match fault {
            LogFault::Unwritten => ServeFault::UnwrittenLog,
            LogFault::Memory => ServeFault::Memory,
        };
        self.stop.ask_for(rt, fault);
    }
}

/// The head of the log of a run with these settings: the number of its last link plus one, so that a replay reports the
/// numbers below the first link too, and the tag. For example, the head of a run with the links 2 and 3 has 4 links.
fn head_of(settings: Settings) -> Line
    ensures { result ≡ Head (settings.first_link + settings.links) settings.tag }
{
    Line::Head {
        links: settings.first_link + settings.links,
        tag: settings.tag,
    }
}

/// Starts the thread that writes a log to this device, and waits until it has written the head, at most a second. The
/// thread isn't joined.
pub(crate) fn start_log<R: System + Copy + Send + 'static, L: LinkWrite + Send + Drop + 'static>(
    rt: &R,
    alloc: Global,
    settings: Settings,
    events: &Events,
    stop: &Arc<Stop>,
    device: L,
) -> Result<Arc<RunLog<LoggedRun>>, ServeFault> {
    let run = LoggedRun {
        stop: Arc::try_clone(stop)?,
        events: events.share()?,
    };
    let (log, ends) = RunLog::new(alloc, settings.links, settings.when_log_fails, run)?;
    let shared = Arc::try_clone(&log)?;
    let writer = LogWriter::new(alloc, shared, ends, &head_of(settings), device)?;
    let own = *rt;
    start_thread(rt, move || writer.run(&own))?;
    log.await_head(rt);
    Ok(log)
}
