//! Laws of all messages, of all numbers, and of all octets.

ghost use Rattle.fp_q773.specs.Laws.{MessagesAreOne, ComponentsAreOne, CodesAreLeast, FourOctetsAreANumber, IdentifiersAreThoseOfTheMessage, IdsAreOne, NumbersAreOne, WrittenHasLengths, WrittenHasRoom, WrittenHasTags};

/// An element is at most one message.
pub fn messages_are_one()
    ensures { MessagesAreOne }
{}

/// An element is at most one component.
pub fn components_are_one()
    ensures { ComponentsAreOne }
{}

/// No spelling of a code has fewer octets than the written one.
pub fn codes_are_least()
    ensures { CodesAreLeast }
{}

/// Octets have one kind of message and at most one identifier of each sort.
pub fn ids_are_one()
    ensures { IdsAreOne }
{
    fp_ber::no_spelling_begins_another();
}

/// If octets spell a message, [`ids_of`](crate::ids_of) gives its kind and its identifiers, in whatever form its
/// lengths are.
pub fn identifiers_are_those_of_the_message()
    ensures { IdentifiersAreThoseOfTheMessage }
{}

/// Different numbers have different identifiers, and each identifier of four octets belongs to a number. So
/// [`Tid::of_number`](crate::Tid::of_number) and [`Tid::number`](crate::Tid::number) are each other's inverse.
pub fn numbers_are_four_octets()
    ensures different { NumbersAreOne }
    ensures each { FourOctetsAreANumber }
{}

/// A message that can be written has an element that can be spelled. Its tags are in range if the tags in its
/// parameters and its dialogue portion are. Its canonical spelling fits into the room of the message. Its lengths fit
/// into four octets, if that isn't too long.
pub fn written_messages_are_elements()
    ensures tags { WrittenHasTags }
    ensures room { WrittenHasRoom }
    ensures lengths { WrittenHasLengths }
{}
