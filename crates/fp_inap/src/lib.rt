//! Operations of INAP and their arguments, written after INAP CS-1 of ITU-T Q.1218.
//!
//! This layer takes the operation codes and the arguments in the components of a dialogue and returns operations and
//! values; or it takes values and puts arguments into a [`Writer`](fp_ber::Writer). It reads an argument from an
//! [`ElementRef`](fp_ber::ElementRef), which borrows the elements of a received message. It asks the system only for
//! the memory of the octets that it writes; reading takes none.
//!
//! * [`Operation`] and [`OperationError`] name the operations and their errors, and are the only place of their codes
//!   and classes; [`Event`] and [`Leg`] name the events and legs in the arguments.
//! * [`InitialDp`] and [`EventReport`] are the contents of the arguments of InitialDP and EventReportBCSM.
//!   [`initial_dp_in`] and [`event_report_in`] read them.
//! * [`write_connect`], [`write_release`] and [`write_request_report`] put arguments; [`write_continue`] and
//!   [`write_activity_test`] put the whole Invoke of Continue and of ActivityTest, which have no argument.
//!
//! The names are the Recommendation's. The codes, classes, tags, orders and layouts are this project's profile. They
//! make no claim about Q.1218.
//!
//! The layer above may rely on this: an argument is read exactly if `IsInitialDp` of `specs/InitialDp.antt` or
//! `IsEventReport` of `specs/EventReport.antt` holds for some value, and the result is that value; otherwise it is
//! [`Mistyped`]. The written octets are the canonical spelling of the element of `specs/` for the given values. Its
//! tags and lengths are in range, and it is short. If memory runs out, the octets are unchanged.
#![tactic(auto)]

mod activity_test;
mod connect;
mod continuing;
mod event;
mod event_report;
mod initial_dp;
mod initial_dp_parts;
mod laws;
mod leg;
mod members;
mod mistyped;
mod operation;
mod operation_error;
mod release_call;
mod request_report;

pub use activity_test::write_activity_test;
pub use connect::write_connect;
pub use continuing::write_continue;
pub use event::Event;
pub use event_report::{EventReport, event_report_in, read_event_report};
pub use initial_dp::{InitialDp, initial_dp_in, read_initial_dp};
pub use laws::{event_reports_are_one, initial_dps_are_one};
pub use leg::Leg;
pub use mistyped::Mistyped;
pub use operation::Operation;
pub use operation_error::OperationError;
pub use release_call::write_release;
pub use request_report::write_request_report;
