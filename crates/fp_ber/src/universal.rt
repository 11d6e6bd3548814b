//! The numbers of universal tags (X.680, 8.4).

/// Integer.
pub const INTEGER: u16 = 2;
/// Octet string.
pub const OCTET_STRING: u16 = 4;
/// Null.
pub const NULL: u16 = 5;
/// Object identifier.
pub const OBJECT_IDENTIFIER: u16 = 6;
/// External.
pub const EXTERNAL: u16 = 8;
/// Sequence.
pub const SEQUENCE: u16 = 16;
