//! Components to send.

use crate::Instruction;
use fp_inap::OperationError;
use fp_q773::Problem;

/// A component for the switch (Q.773, 4.2.2).
#[derive(Clone, Copy, Debug)]
pub enum Component {
    /// An Invoke of an operation.
    Invoke {
        /// The invoke identifier, 1 to 127.
        identifier: i8,
        /// The operation and its argument.
        instruction: Instruction,
    },
    /// A ReturnError to an operation of the switch.
    ReturnError {
        /// The invoke identifier of that operation.
        identifier: i8,
        /// The error.
        error: OperationError,
    },
    /// A Reject of a component of the switch.
    Reject {
        /// The invoke identifier of that component, if it was readable.
        identifier: Option<i8>,
        /// The problem of the component.
        problem: Problem,
    },
}
