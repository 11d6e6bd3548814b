//! The number translation records of a freephone service control point.
//!
//! The records are a CSV file without a header row. Its head is `key,SERVICEKEY,OFFSET`: the service key of the
//! records, and the minutes of local time east of UTC. It is the first record, or in version 2 the second, after
//! `fprecords,2`. Each other record is one rule of a number, `number,prefix,days,from,to,weight,action` and then
//! destinations. For example, `80012,,12345,08:00,18:00,1,route,3012345` routes calls on working days. A file of
//! version 2 may have records `closed,NUMBER,YYYY-MM-DD` among the rules: on that day no rule of the number fits.
//!
//! This layer gets the text of the file, an allocator, a called and a calling number and a moment. It never asks the
//! system for a file, the time or anything else.
//!
//! - [`Table`] has the records of a file. [`Table::read`] reads it, [`Table::read_and_free`] frees the text before it
//!   makes the table, and [`Table::find`] finds the [`Record`] for a called number by its digits. It has an index among
//!   the tables of a run, 0 after reading; [`Table::numbered`] changes it, and [`Table::index`] returns it.
//! - [`Record`] has the rules of one number, and [`Record::choose`] returns the [`Rule`] for a call, by the calling
//!   number's prefix, the day, the minute and the rules' shares. Two records, rules or destinations are equal by `==`
//!   exactly if their contents are the same.
//! - [`migrate`] writes the records of a file as one of version 2.
//! - [`Destinations`] are the destinations of a rule with `route`. [`Destinations::split_first`] returns the next one
//!   to try and the others.
//! - [`RecordsFault`] says why a text isn't a table: the first faulty record and its [`Reason`], or out of memory.
//!
//! The layer above may rely on this: a table has exactly the contents of its text (`IsTable` of `specs/Table.antt` and
//! `IsFile` of `specs/File.antt`). A fault names the first faulty record (`FirstFault`), and a choice is `choice` of
//! `specs/Choice.antt`. Each record has at least one rule. Only [`Table::read`], [`Table::read_and_free`] and
//! [`migrate`] take memory. Six types of the reader are `pub` in their private modules, so that the contracts of other
//! crates can name them: `Version`, `Head`, `Item`, `ClosedDay`, `NumberedRule` and `Verb`.
#![tactic(auto)]

mod action;
mod call;
mod closed;
mod closed_days;
mod date;
mod day_set;
mod days;
mod decimal_digits;
mod destination;
mod draft;
mod fault;
mod fields;
mod gathering;
mod groups;
mod head;
mod item;
mod laws;
mod local_time;
mod migration;
mod number;
mod number_key;
mod reading;
mod record;
mod row;
mod rule;
mod table;
mod version;
mod weight;
mod window;

pub use crate::action::{Action, Destinations, SplitDestinations};
pub use crate::days::Days;
pub use crate::decimal_digits::DecimalDigits;
pub use crate::destination::Destination;
pub use crate::fault::{Reason, RecordsFault};
pub use crate::laws::closed_days_are_those_of_the_file;
pub use crate::migration::migrate;
pub use crate::record::Record;
pub use crate::rule::Rule;
pub use crate::table::Table;
pub use crate::weight::Weight;
pub use crate::window::Window;
