//! The two kinds of unit data.

/// The message that carries unit data.
#[derive(Clone, Copy, Debug, PartialEq, Eq)]
pub enum Kind {
    /// A UDT (Q.713, 4.10). If it can't be delivered, a UDTS is returned.
    UnitData,
    /// An XUDT (Q.713, 4.18), which may be a segment. If it can't be delivered, an XUDTS is returned.
    ExtendedUnitData,
}
