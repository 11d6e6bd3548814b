//! Numbers and causes of ITU-T Q.763 and Q.850, and the moment.
//!
//! This layer takes octets and digits and gives octets, digits and numbers. It asks the system for nothing: no memory,
//! no clock, no input. Each of its values has a fixed size and may be copied.
//!
//! * [`Number`] is the number in the contents octets of a called or a calling party number (Q.763, 3.9 and 3.10): a
//!   [`NatureOfAddress`] and [`Digits`], at most 32 of 0 to 15. [`read_called`] and [`read_calling`] read it, and
//!   [`write_called`] writes a called number of 1 to 15 decimal digits.
//! * [`cause`] writes a cause (Q.763, 3.12), and [`Cause`] names the causes of Q.850 in use.
//! * [`Moment`] is a number of milliseconds since 1970-01-01T00:00:00Z, before the year 2100.
//!
//! The layer above may rely on this: a number is read as `number_of` of `specs/Number.antt`, and the error [`NoNumber`]
//! means exactly that `number_of` is `None`. The octets of [`write_called`] are read back as the national number with
//! the same digits. Contracts see [`Digits`] as the list of the digits, a [`NatureOfAddress`] and a [`Moment`] as its
//! number, and the octets of a written number as a list. Two such values are equal by `==` exactly if these are.
#![tactic(auto)]

mod called;
mod called_octets;
mod calling;
mod cause_indicators;
mod cause_value;
mod digits;
mod moment;
mod nature_of_address;
mod number;

pub use called::{read_called, write_called};
pub use called_octets::CalledOctets;
pub use calling::read_calling;
pub use cause_indicators::cause;
pub use cause_value::Cause;
pub use digits::Digits;
pub use moment::Moment;
pub use nature_of_address::NatureOfAddress;
pub use number::{NoNumber, Number};
