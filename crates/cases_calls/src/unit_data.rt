//! Messages of SCCP: addresses, unit data, their return, and the subsystem test.
//!
//! | Case | Result |
//! |---|---|
//! | `sccp HEX` | the message of these octets, or their fault |
//! | `address HEX` | the point code and the subsystem number of an address |
//! | `address-of CODE NUMBER` | the octets of the address of a subsystem at a point code, or `none` for a number that is no point code |
//! | `whole-address HEX` | the octets that an address made of these keeps, or `none` |
//! | `udt CLASS CALLED CALLING DATA` | the octets of a UDT |
//! | `udt-of COUNT` | how many octets a UDT between two addresses of 18 octets has, with COUNT octets of data |
//! | `returned CAUSE HEX` | the message that returns a message refused for this cause, or `none` |
//! | `tested NUMBER HEX` | the answer to a message if this subsystem is in service, or `none` |

use crate::network::address_of;
use crate::values::{found, kept};
use cases::{Answer, first_word, number_of, octets_of};
use fp_sccp::{
    Address, Kind, MOST_DATA, PointCode, ProtocolClass, ReturnCause, SccpMessage, Service,
    UnitData, point_code_of, read, subsystem_of, write_allowed, write_service, write_unit_data,
};
use std::alloc::Global;

/// Writes three parameters.
fn push_parameters(out: &mut Answer, called: &[u8], calling: &[u8], user_data: &[u8]) {
    out.text(", to ");
    out.octets(called);
    out.text(", from ");
    out.octets(calling);
    out.text(", data ");
    out.octets(user_data)
}

/// Writes unit data, under this word.
fn push_unit_data(out: &mut Answer, word: &str, message: &UnitData<'_>) {
    out.text(word);
    out.labeled(" class ", message.class.code());
    if message.returns_on_error {
        out.text(", return on error");
    }
    push_parameters(out, message.called, message.calling, message.user_data)
}

/// Writes unit data that were returned.
fn push_service(out: &mut Answer, message: &Service<'_>) {
    match message.cause {
        Some(cause) => out.labeled("UDTS cause ", cause.code()),
        None => out.text("UDTS cause unknown"),
    }
    push_parameters(out, message.called, message.calling, message.user_data)
}

/// The word for a kind of unit data.
fn word_of(kind: Kind) -> &'static str {
    match kind {
        Kind::UnitData => "UDT",
        Kind::ExtendedUnitData => "XUDT",
    }
}

/// Writes a message.
fn push_message(out: &mut Answer, message: SccpMessage<'_>) {
    match message {
        SccpMessage::UnitData(message) => push_unit_data(out, word_of(message.kind), &message),
        SccpMessage::Segment(message) => push_unit_data(out, "segment", &message),
        SccpMessage::Service(message) => push_service(out, &message),
    }
}

/// Writes the message of these octets, or their fault.
fn message(alloc: Global, text: &str, out: &mut Answer) {
    let octets = octets_of(alloc, text, out);
    match read(octets.as_slice()) {
        Ok(message) => push_message(out, message),
        Err(fault) => out.value(fault),
    }
}

/// The point code and the subsystem number of an address.
fn address(alloc: Global, text: &str, out: &mut Answer) {
    let octets = octets_of(alloc, text, out);
    match point_code_of(octets.as_slice()) {
        Some(code) => out.labeled("point code ", code.code()),
        None => out.text("no point code"),
    }
    match subsystem_of(octets.as_slice()) {
        Some(number) => out.labeled(", subsystem ", number),
        None => out.text(", no subsystem"),
    }
}

/// The octets of the address of a subsystem at a point code.
fn point_code_address(text: &str, out: &mut Answer) {
    let (code, number) = first_word(text);
    let number = number_of(number, out);
    match PointCode::new(number_of(code, out)) {
        Some(code) => out.octets(Address::of_point_code(code, number).as_slice()),
        None => out.text("none"),
    }
}

/// The octets that an address made of these keeps, or `none`.
fn whole_address(alloc: Global, text: &str, out: &mut Answer) {
    let octets = octets_of(alloc, text, out);
    match Address::new(octets.as_slice()) {
        Some(address) => out.octets(address.as_slice()),
        None => out.text("none"),
    }
}

/// Writes the octets of a UDT with these data.
fn push_unit_data_of(
    alloc: Global,
    class: ProtocolClass,
    called: &Address,
    calling: &Address,
    user_data: &[u8],
    out: &mut Answer,
) {
    if let Some(octets) = unit_data_of(alloc, class, called, calling, user_data, out) {
        out.octets(octets.as_slice());
    }
}

/// The octets of a UDT with these data. `None`, and a fault, if these aren't 1 to 224 octets.
fn unit_data_of(
    alloc: Global,
    class: ProtocolClass,
    called: &Address,
    calling: &Address,
    user_data: &[u8],
    out: &mut Answer,
) -> Option<Vec<u8>> {
    if user_data.is_empty() || user_data.len() > MOST_DATA {
        out.fail("not 1 to 224 octets");
        return None;
    }
    kept(
        write_unit_data(alloc, class, called, calling, user_data),
        out,
    )
}

/// The octets of a UDT.
fn unit_data(alloc: Global, text: &str, out: &mut Answer) {
    let (class, rest) = first_word(text);
    let (called, rest) = first_word(rest);
    let (calling, user_data) = first_word(rest);
    let class = found(
        ProtocolClass::from_code(number_of(class, out)),
        "no such class",
        out,
    );
    let called = address_of(alloc, called, out);
    let calling = address_of(alloc, calling, out);
    let user_data = octets_of(alloc, user_data, out);
    if let (Some(class), Some(called), Some(calling)) = (class, called, calling) {
        push_unit_data_of(alloc, class, &called, &calling, user_data.as_slice(), out);
    }
}

/// How many octets a UDT has with this number of octets of data and the longest addresses.
fn longest(alloc: Global, text: &str, out: &mut Answer) {
    let count: u16 = number_of(text, out);
    let mut user_data = Vec::new(alloc);
    out.note(user_data.resize(usize::from(count), 0x5A));
    if let Some(address) = found(Address::new(&[0x12; Address::MOST]), "no address", out) {
        push_size(alloc, &address, user_data.as_slice(), out);
    }
}

/// Writes how many octets a UDT has with these data, to and from this address.
fn push_size(alloc: Global, address: &Address, user_data: &[u8], out: &mut Answer) {
    let class = ProtocolClass::Basic;
    if let Some(octets) = unit_data_of(alloc, class, address, address, user_data, out) {
        out.value(octets.len());
    }
}

/// The unit data of a message, whole or a segment. `None`, and a fault, if it has none.
fn unit_data_in<'a>(octets: &'a [u8], out: &mut Answer) -> Option<UnitData<'a>> {
    match read(octets) {
        Ok(SccpMessage::UnitData(message)) => Some(message),
        Ok(SccpMessage::Segment(message)) => Some(message),
        _ => {
            out.fail("no unit data");
            None
        }
    }
}

/// Writes octets, or `none`.
fn push_written(out: &mut Answer, octets: Option<&Vec<u8>>) {
    match octets {
        Some(octets) => out.octets(octets.as_slice()),
        None => out.text("none"),
    }
}

/// The message that returns a refused message.
fn returned(alloc: Global, text: &str, out: &mut Answer) {
    let (cause, text) = first_word(text);
    let octets = octets_of(alloc, text, out);
    let cause = ReturnCause::from_code(number_of(cause, out));
    match cause {
        Some(cause) => push_returned(alloc, cause, octets.as_slice(), out),
        None => out.fail("no such cause"),
    }
}

/// Writes the message that returns a message for this cause.
fn push_returned(alloc: Global, cause: ReturnCause, octets: &[u8], out: &mut Answer) {
    let Some(message) = unit_data_in(octets, out) else {
        return;
    };
    match write_service(alloc, &message, cause) {
        Ok(returned) => push_written(out, returned.as_ref()),
        Err(_) => out.run_out(),
    }
}

/// The answer to a message if a subsystem is in service.
fn tested(alloc: Global, text: &str, out: &mut Answer) {
    let (number, text) = first_word(text);
    let number: u8 = number_of(number, out);
    let octets = octets_of(alloc, text, out);
    push_tested(alloc, number, octets.as_slice(), out);
}

/// Writes the answer to a message if this subsystem is in service.
fn push_tested(alloc: Global, number: u8, octets: &[u8], out: &mut Answer) {
    let Some(message) = unit_data_in(octets, out) else {
        return;
    };
    match write_allowed(alloc, &message, number) {
        Ok(answer) => push_written(out, answer.as_ref()),
        Err(_) => out.run_out(),
    }
}

/// Writes the result of a case of this kind. `false` if this module has no such cases.
pub(crate) fn answer(alloc: Global, kind: &str, rest: &str, out: &mut Answer) -> bool {
    match kind {
        "sccp" => message(alloc, rest, out),
        "address" => address(alloc, rest, out),
        "address-of" => point_code_address(rest, out),
        "whole-address" => whole_address(alloc, rest, out),
        "udt" => unit_data(alloc, rest, out),
        "udt-of" => longest(alloc, rest, out),
        "returned" => returned(alloc, rest, out),
        "tested" => tested(alloc, rest, out),
        _ => return false,
    }
    true
}
