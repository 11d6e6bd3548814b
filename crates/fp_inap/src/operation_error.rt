//! Errors of operations, and their codes.

ghost use Rattle.std.specs.Prelude.{◌≡◌};
ghost use Rattle.fp_inap.specs.OperationError.{code_of};

/// An error of an operation, by its name in INAP CS-1 (after ITU-T Q.1218) and its error code. No error has a
/// parameter.
#[derive(Clone, Copy, Debug, PartialEq, Eq)]
pub enum OperationError {
    /// missingCustomerRecord: the number has no record.
    MissingCustomerRecord = 6,
    /// missingParameter: the argument lacks a part that the operation needs.
    MissingParameter = 7,
    /// unexpectedComponentSequence: the operation isn't allowed in this state.
    UnexpectedComponentSequence = 14,
    /// unexpectedDataValue: a value in the argument is unknown.
    UnexpectedDataValue = 15,
}

impl OperationError {
    /// The error code, a local value.
    pub fn code(self) -> i32
        ensures { result ≡ code_of self }
    {
        self as i32
    }
}
