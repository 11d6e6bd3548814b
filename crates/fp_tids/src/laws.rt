//! Laws of all local identifiers.

ghost use Rattle.fp_tids.specs.Laws.{AllAreSerials, GivingLeavesSerials, IdentifiersAreDistinct, IdentifiersHave32Bits, LinksAreShown, ReturningKeepsSerials, SerialsAreShown, SerialsComeBackLast};

/// The identifiers of two links, of two tags or of two serials are different. Each has 32 bits, and determines its link
/// and its serial.
pub fn identifiers_are_distinct()
    ensures distinct { IdentifiersAreDistinct }
    ensures bits { IdentifiersHave32Bits }
    ensures links { LinksAreShown }
    ensures serials { SerialsAreShown }
{}

/// At first all 131,072 serials may be given, each once. After the front one is given, or a given one is put back, no
/// serial is in the queue twice.
pub fn serials_are_distinct()
    ensures all { AllAreSerials }
    ensures gives { GivingLeavesSerials }
    ensures ends { ReturningKeepsSerials }
{}

/// A serial that is put back is given again only after all others that were in the queue then. A link holds at most
/// 4,096 dialogues, so for their serials these are at least 126,976 others (the law
/// `serials_of_dialogues_come_back_late` of `fp_book`).
pub fn serials_come_back_last()
    ensures { SerialsComeBackLast }
{}
