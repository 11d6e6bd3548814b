//! An active invocation.

ghost use Rattle.std.specs.Prelude.{◌≡◌, ◌<◌, ◌≤◌, pos};
ghost use Rattle.fp_ism.specs.Due.{time_limit};
ghost use Rattle.fp_ism.specs.Identifier.{identifier_after};
ghost use Rattle.fp_ism.specs.Testing.{is_test};

use fp_q773::OperationClass;

/// An active invocation.
#[derive(Clone, Copy, Debug, PartialEq, Eq)]
pub(crate) struct Invocation {
    /// The invoke identifier.
    pub(crate) identifier: i8,
    /// The class of the operation.
    pub(crate) class: OperationClass,
    /// The moment when it is due, in milliseconds since 1970-01-01T00:00:00Z.
    pub(crate) due: u64,
}

impl Invocation {
    /// Whether the invocation tests the dialogue: its operation is of class 3, like ActivityTest.
    pub(crate) fn is_test(&self) -> bool
        ensures { result ≡ is_test self.now }
    {
        match self.class {
            OperationClass::Class3 => true,
            OperationClass::Class1 | OperationClass::Class2 | OperationClass::Class4 => false,
        }
    }
}

/// The number of identifiers: 1 to 127.
pub(crate) const IDENTIFIERS: u8 = 127;

/// The time limit, in milliseconds, of an invocation of an operation of this class.
pub(crate) fn time_limit_of(class: OperationClass) -> u64
    ensures value { result ≡ time_limit class }
    ensures range { result ≤ 10000 }
{
    match class {
        OperationClass::Class1 | OperationClass::Class2 | OperationClass::Class3 => 10_000,
        OperationClass::Class4 => 5_000,
    }
}

/// The identifier `step` places after the successor of this one; 127 is followed by 1. For example,
/// 126 and step 1 give 1.
pub(crate) fn identifier_after(last: u8, step: u8) -> i8
    requires last { last ≤ IDENTIFIERS }
    requires step { step < IDENTIFIERS }
    ensures { result ≡ pos (identifier_after last step) }
{
    ((last + step) % IDENTIFIERS + 1) as i8
}
