//! Classes of operations (Q.771): whether the far end reports success and failure.

/// The class of an operation (Q.771).
#[derive(Clone, Copy, Debug, PartialEq, Eq)]
pub enum OperationClass {
    /// Class 1: success and failure are reported.
    Class1,
    /// Class 2: only failure is reported.
    Class2,
    /// Class 3: only success is reported.
    Class3,
    /// Class 4: neither is reported.
    Class4,
}
