//! A run: its inputs, the state that its threads share, and its report.
//!
//! | File | Contents |
//! |---|---|
//! | `serving.rt` | [`Server`]: the run from its address to its report |
//! | `link_threads.rt` | a thread for each link of a run |
//! | `context.rt` | [`Run`]: the state that all threads of a run share |
//! | `settings.rt`, `service.rt` | a run's links, tag, workers and entries; the tables for its answers |
//! | `command_lines.rt`, `commands.rt` | the thread that reads commands; the execution of commands |
//! | `status.rt` | the status of the links, for the commands |
//! | `stop.rt`, `fault.rt` | why all links are to go down, or since when they are to end |
//! | `draining.rt` | the state of a node's drain |
//! | `events.rt` | the events of a run on their way, and the thread that writes them |
//! | `logging.rt`, `watching.rt` | the run as its log and its watchers see it, and the start of their threads |
//! | `report.rt` | the lines of the address, of the commands' answers and of the report |

mod command_lines;
mod commands;
mod context;
mod draining;
mod events;
mod fault;
mod link_threads;
mod logging;
mod report;
mod service;
mod serving;
mod settings;
mod status;
mod stop;
mod watching;

pub use commands::{Commands, Operator, Refusal};
pub(crate) use context::Run;
pub(crate) use draining::Draining;
pub use events::Events;
pub use fault::ServeFault;
pub(crate) use logging::LoggedRun;
pub use service::Service;
pub use serving::{Links, Server, StandingLink};
pub use settings::Settings;
pub(crate) use status::Statuses;
pub(crate) use stop::Stop;
pub(crate) use watching::RunState;
