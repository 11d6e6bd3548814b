//! Problems (Q.773, 4.2.2): the reason why a component is rejected.

ghost use Rattle.std.specs.Prelude.{◌≡◌, ◌<◌, MatchOption, IfSome};
ghost use Rattle.fp_q773.specs.Value.{tagged, tag_of, value_of};
ghost use Rattle.fp_q773.specs.Problem.{general_code, invoke_code, return_result_code, return_error_code, problem_of, IsNamedGeneral, IsNamedInvoke, IsNamedReturnResult, IsNamedReturnError, IsNamed};

/// The number of the context tag of a General problem.
const GENERAL: u16 = 0;
/// The number of the context tag of an Invoke problem.
const INVOKE: u16 = 1;
/// The number of the context tag of a ReturnResult problem.
const RETURN_RESULT: u16 = 2;
/// The number of the context tag of a ReturnError problem.
const RETURN_ERROR: u16 = 3;

/// A problem of any component.
#[derive(Clone, Copy, Debug, PartialEq, Eq)]
pub enum GeneralProblem {
    /// The component has an unknown tag.
    UnrecognizedComponent,
    /// The contents of the component don't fit its tag.
    MistypedComponent,
    /// The component is encoded wrongly.
    BadlyStructuredComponent,
    /// A value without a name.
    Other(u8),
}

/// A problem of an Invoke.
#[derive(Clone, Copy, Debug, PartialEq, Eq)]
pub enum InvokeProblem {
    /// The invoke identifier is in use.
    DuplicateInvokeIdentifier,
    /// The operation is unknown.
    UnrecognizedOperation,
    /// The parameter isn't one of the operation.
    MistypedParameter,
    /// There is no room for the operation.
    ResourceLimitation,
    /// The dialogue is about to end.
    InitiatingRelease,
    /// The linked identifier names no operation.
    UnrecognizedLinkedIdentifier,
    /// The operation with the linked identifier allows no linked operations.
    LinkedResponseUnexpected,
    /// The operation with the linked identifier doesn't allow this one.
    UnexpectedLinkedOperation,
    /// A value without a name.
    Other(u8),
}

/// A problem of a ReturnResult.
#[derive(Clone, Copy, Debug, PartialEq, Eq)]
pub enum ReturnResultProblem {
    /// The invoke identifier names no operation.
    UnrecognizedInvokeIdentifier,
    /// The operation returns no result.
    ReturnResultUnexpected,
    /// The parameter isn't one of the result.
    MistypedParameter,
    /// A value without a name.
    Other(u8),
}

/// A problem of a ReturnError.
#[derive(Clone, Copy, Debug, PartialEq, Eq)]
pub enum ReturnErrorProblem {
    /// The invoke identifier names no operation.
    UnrecognizedInvokeIdentifier,
    /// The operation reports no error.
    ReturnErrorUnexpected,
    /// The error is unknown.
    UnrecognizedError,
    /// The operation doesn't report this error.
    UnexpectedError,
    /// The parameter isn't one of the error.
    MistypedParameter,
    /// A value without a name.
    Other(u8),
}

/// A problem.
#[derive(Clone, Copy, Debug, PartialEq, Eq)]
pub enum Problem {
    /// A problem of any component.
    General(GeneralProblem),
    /// A problem of an Invoke.
    Invoke(InvokeProblem),
    /// A problem of a ReturnResult.
    ReturnResult(ReturnResultProblem),
    /// A problem of a ReturnError.
    ReturnError(ReturnErrorProblem),
}

impl GeneralProblem {
    /// The problem with this value.
    pub fn from_code(code: u8) -> GeneralProblem
        ensures value { general_code result ≡ code }
        ensures named { IsNamedGeneral result }
    {
        match code {
            0 => GeneralProblem::UnrecognizedComponent,
            1 => GeneralProblem::MistypedComponent,
            2 => GeneralProblem::BadlyStructuredComponent,
            _ => GeneralProblem::Other(code),
        }
    }

    /// The value of the problem.
    pub fn code(self) -> u8
        ensures { result ≡ general_code self }
    {
        match self {
            GeneralProblem::UnrecognizedComponent => 0,
            GeneralProblem::MistypedComponent => 1,
            GeneralProblem::BadlyStructuredComponent => 2,
            GeneralProblem::Other(code) => code,
        }
    }
}

impl InvokeProblem {
    /// The problem with this value.
    pub fn from_code(code: u8) -> InvokeProblem
        ensures value { invoke_code result ≡ code }
        ensures named { IsNamedInvoke result }
    {
        match code {
            0 => InvokeProblem::DuplicateInvokeIdentifier,
            1 => InvokeProblem::UnrecognizedOperation,
            2 => InvokeProblem::MistypedParameter,
            3 => InvokeProblem::ResourceLimitation,
            4 => InvokeProblem::InitiatingRelease,
            5 => InvokeProblem::UnrecognizedLinkedIdentifier,
            6 => InvokeProblem::LinkedResponseUnexpected,
            7 => InvokeProblem::UnexpectedLinkedOperation,
            _ => InvokeProblem::Other(code),
        }
    }

    /// The value of the problem.
    pub fn code(self) -> u8
        ensures { result ≡ invoke_code self }
    {
        match self {
            InvokeProblem::DuplicateInvokeIdentifier => 0,
            InvokeProblem::UnrecognizedOperation => 1,
            InvokeProblem::MistypedParameter => 2,
            InvokeProblem::ResourceLimitation => 3,
            InvokeProblem::InitiatingRelease => 4,
            InvokeProblem::UnrecognizedLinkedIdentifier => 5,
            InvokeProblem::LinkedResponseUnexpected => 6,
            InvokeProblem::UnexpectedLinkedOperation => 7,
            InvokeProblem::Other(code) => code,
        }
    }
}

impl ReturnResultProblem {
    /// The problem with this value.
    pub fn from_code(code: u8) -> ReturnResultProblem
        ensures value { return_result_code result ≡ code }
        ensures named { IsNamedReturnResult result }
    {
        match code {
            0 => ReturnResultProblem::UnrecognizedInvokeIdentifier,
            1 => ReturnResultProblem::ReturnResultUnexpected,
            2 => ReturnResultProblem::MistypedParameter,
            _ => ReturnResultProblem::Other(code),
        }
    }

    /// The value of the problem.
    pub fn code(self) -> u8
        ensures { result ≡ return_result_code self }
    {
        match self {
            ReturnResultProblem::UnrecognizedInvokeIdentifier => 0,
            ReturnResultProblem::ReturnResultUnexpected => 1,
            ReturnResultProblem::MistypedParameter => 2,
            ReturnResultProblem::Other(code) => code,
        }
    }
}

impl ReturnErrorProblem {
    /// The problem with this value.
    pub fn from_code(code: u8) -> ReturnErrorProblem
        ensures value { return_error_code result ≡ code }
        ensures named { IsNamedReturnError result }
    {
        match code {
            0 => ReturnErrorProblem::UnrecognizedInvokeIdentifier,
            1 => ReturnErrorProblem::ReturnErrorUnexpected,
            2 => ReturnErrorProblem::UnrecognizedError,
            3 => ReturnErrorProblem::UnexpectedError,
            4 => ReturnErrorProblem::MistypedParameter,
            _ => ReturnErrorProblem::Other(code),
        }
    }

    /// The value of the problem.
    pub fn code(self) -> u8
        ensures { result ≡ return_error_code self }
    {
        match self {
            ReturnErrorProblem::UnrecognizedInvokeIdentifier => 0,
            ReturnErrorProblem::ReturnErrorUnexpected => 1,
            ReturnErrorProblem::UnrecognizedError => 2,
            ReturnErrorProblem::UnexpectedError => 3,
            ReturnErrorProblem::MistypedParameter => 4,
            ReturnErrorProblem::Other(code) => code,
        }
    }
}

impl Problem {
    /// The problem with this tag number, 0 to 3, and this value; `None` for other tag numbers.
    pub fn new(tag: u16, code: u8) -> Option<Problem>
        ensures value { MatchOption result (3 < tag) (λ p. problem_of p ≡ tagged tag code) }
        ensures named { IfSome result IsNamed }
    {
        match tag {
            GENERAL => Some(Problem::General(GeneralProblem::from_code(code))),
            INVOKE => Some(Problem::Invoke(InvokeProblem::from_code(code))),
            RETURN_RESULT => Some(Problem::ReturnResult(ReturnResultProblem::from_code(code))),
            RETURN_ERROR => Some(Problem::ReturnError(ReturnErrorProblem::from_code(code))),
            _ => None,
        }
    }

    /// The number of the problem's tag, 0 to 3.
    pub fn tag(self) -> u16
        ensures { result ≡ tag_of (problem_of self) }
    {
        match self {
            Problem::General(_) => GENERAL,
            Problem::Invoke(_) => INVOKE,
            Problem::ReturnResult(_) => RETURN_RESULT,
            Problem::ReturnError(_) => RETURN_ERROR,
        }
    }

    /// The value of the problem.
    pub fn code(self) -> u8
        ensures { result ≡ value_of (problem_of self) }
    {
        match self {
            Problem::General(problem) => problem.code(),
            Problem::Invoke(problem) => problem.code(),
            Problem::ReturnResult(problem) => problem.code(),
            Problem::ReturnError(problem) => problem.code(),
        }
    }
}
