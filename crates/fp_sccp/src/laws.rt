//! Laws of all messages.

ghost use Rattle.fp_sccp.specs.Laws.{AddressesAreReadBack, ExtendedServicesHaveParts, FaultsAreNoMessages, MessagesAreOne, ServicesAreReadBack, UnitDataIsReadBack};

/// Octets are read in one way: they are at most one message, and none if they have a fault.
pub fn messages_are_one()
    ensures one { MessagesAreOne }
    ensures fault { FaultsAreNoMessages }
{}

/// A UDT and a UDTS are read back from the octets written for them, and so is an address of a point code and a
/// subsystem number. An XUDTS isn't read. Its pointers lead to its parameters.
pub fn written_messages_are_read_back()
    ensures unit_data { UnitDataIsReadBack }
    ensures service { ServicesAreReadBack }
    ensures extended { ExtendedServicesHaveParts }
    ensures address { AddressesAreReadBack }
{}
