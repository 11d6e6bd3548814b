//! Laws of the definitions that contracts cite.

ghost use Rattle.fp_logtext.specs.Logged.{KeepsLines, KeepsText};

/// Log lines keep their order from the book to the device.
pub fn lines_keep_their_order()
    ensures lines { KeepsLines }
    ensures text { KeepsText }
{}
