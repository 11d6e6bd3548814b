//! Laws of all logs, of the calls of a book, of messages that were read, and of dialogues.

ghost use Rattle.fp_book.specs.Laws.{BirthsAreDistinct, DialoguesAreKeptInOrder, EachStepIsAccountedFor, GivingKeepsSound, GoingDownKeepsSound, PickingKeepsSound, PostingKeepsSound, PuttingBackKeepsSound, SendingKeepsSound, SerialsOfDialoguesComeBackLate, TakingKeepsSound, TickingKeepsSound, ToldStepsStay, UnsendingKeepsSound};
ghost use Rattle.fp_book.specs.Rules.{ReadMessagesHaveFewEntries};

use fp_q773::{identifiers_are_those_of_the_message, ids_are_one};
use fp_row::rows_keep_their_order;
use fp_service::entries_ask_once_at_most;
use fp_tids::{identifiers_are_distinct, serials_are_distinct, serials_come_back_last};

/// A log has each step that it is given, or counts it in a gap, as long as it accounts for fewer than 2^64 - 1. Its
/// steps stay, in their order.
pub fn steps_are_told_or_counted()
    ensures counted { EachStepIsAccountedFor }
    ensures told { ToldStepsStay }
{}

/// Handing a turn out and taking it back, served or not, keeps the invariant of a book.
pub fn turns_keep_a_book_sound()
    ensures takes { TakingKeepsSound }
    ensures gives { GivingKeepsSound }
    ensures puts_back { PuttingBackKeepsSound }
{
    entries_ask_once_at_most();
    serials_are_distinct();
    identifiers_are_distinct();
}

/// Handing a parcel out and taking it back once it was sent keeps the invariant of a book.
pub fn sending_keeps_a_book_sound()
    ensures picks { PickingKeepsSound }
    ensures sends { SendingKeepsSound }
{
    entries_ask_once_at_most();
    serials_are_distinct();
    identifiers_are_distinct();
}

/// Posting a message keeps the invariant of a book: whether the message opens a dialogue, extends or ends one, or is
/// refused.
pub fn messages_keep_a_book_sound()
    ensures { PostingKeepsSound }
{
    entries_ask_once_at_most();
    serials_are_distinct();
    identifiers_are_distinct();
}

/// Closing all dialogues of a link keeps the invariant of a book: when the link goes down, and when a parcel couldn't
/// be sent.
pub fn going_down_keeps_a_book_sound()
    ensures down { GoingDownKeepsSound }
    ensures unsent { UnsendingKeepsSound }
{
    entries_ask_once_at_most();
    serials_are_distinct();
    identifiers_are_distinct();
}

/// Giving a Clock to each dialogue that is due keeps the invariant of a book.
pub fn clocks_keep_a_book_sound()
    ensures { TickingKeepsSound }
{
    entries_ask_once_at_most();
    serials_are_distinct();
    identifiers_are_distinct();
}

/// A message that was read has a known tag, a Begin an originating identifier and at least one entry, an Abort one
/// entry, and any has at most one entry more than its component portion has elements. So the conditions on entries in
/// the rules of receipt, other than on their number of places, change nothing for a prepared frame. For example, that a
/// Begin has an entry.
pub fn read_messages_have_few_entries()
    ensures { ReadMessagesHaveFewEntries }
{
    identifiers_are_those_of_the_message();
    ids_are_one();
}

/// No two dialogues that are held have the same birth.
pub fn births_are_distinct()
    ensures { BirthsAreDistinct }
{}

/// While the link is up, the serial of a held dialogue is given again, once the dialogue is no longer held, only after
/// many others: all serials, [`LocalIds::SERIALS`](fp_tids::LocalIds::SERIALS), minus the most dialogues,
/// [`Book::MOST_DIALOGUES`](crate::Book::MOST_DIALOGUES).
pub fn serials_of_dialogues_come_back_late()
    ensures { SerialsOfDialoguesComeBackLate }
{
    identifiers_are_distinct();
    serials_come_back_last();
}

/// Each held dialogue has served the first of those accepted entries that its service logic serves. Its core is the
/// core after them, and the turn that is out has this core and the next entries. Served, out and waiting entries are
/// together the accepted ones, or a prefix of them if it was closed or its core is over. The frames that were sent,
/// that is being sent and that wait are the frames of its served entries' requests, in their order, under its own
/// identifiers, or a prefix of them if it was ended from outside. Each unsent one has its birth.
pub fn dialogues_are_kept_in_order()
    ensures { DialoguesAreKeptInOrder }
{
    rows_keep_their_order();
}
