//! The kind of entry for a component.

ghost use Rattle.std.specs.Prelude.{◌≡◌, ◌↔◌, IsTrue, IfOk};
ghost use Rattle.fp_inap.specs.Operation as operations;
ghost use Rattle.fp_q773.specs.Problem.{problem_of};
ghost use Rattle.fp_q773.specs.Value.{local};
ghost use Rattle.fp_q773.specs.View.{code_of, component_of, tree_in};
ghost use Rattle.fp_entry.specs.Component.{IsEventKind, IsInitialDpKind, IsInvokeKind, IsKind, rejected_identifier};
ghost use Rattle.fp_entry.specs.Found.{found};

use crate::{EntryKind, Found, Lookup};
use fp_inap::{InitialDp, Operation, event_report_in, initial_dp_in};
use fp_q773::{Code, Component, Invoke, InvokeProblem, Problem, Reject};
use std::alloc::AllocError;

/// Whether the code is this operation's.
fn is_operation(code: Code<'_>, operation: Operation) -> bool
    ensures { IsTrue result ↔ (code_of code.entry ≡ local (operations.code_of operation)) }
{
    match code {
        Code::Local(number) => number == operation.code(),
        Code::Global(_) => false,
    }
}

/// The table's answer to the called number of an InitialDP.
fn find(lookup: &mut Lookup<'_>, dp: &InitialDp) -> Result<Found, AllocError>
    ensures found { IfOk result (λ f. f ≡ found lookup.old dp.now) }
    ensures same { lookup.new ≡ lookup.old }
{
    let Some(key) = dp.key else {
        return Ok(Found::Missing);
    };
    let Some(called) = dp.called else {
        return Ok(Found::Missing);
    };
    if key != lookup.table().key() {
        return Ok(Found::WrongKey);
    }
    match lookup.find(&called)? {
        Some(record) => Ok(Found::Record(record)),
        None => Ok(Found::NoRecord),
    }
}

/// The entry for an Invoke that can't be performed, with this problem.
fn unknown(invoke: &Invoke<'_>, problem: InvokeProblem) -> EntryKind
    ensures { result ≡ EntryKind.UnknownInvoke invoke.now.identifier invoke.now.linked problem }
{
    EntryKind::UnknownInvoke {
        identifier: invoke.identifier,
        linked: invoke.linked,
        problem,
    }
}

/// The entry for an Invoke of InitialDP.
fn initial_dp_kind(lookup: &mut Lookup<'_>, invoke: &Invoke<'_>) -> Result<EntryKind, AllocError>
    ensures kind { IfOk result (IsInitialDpKind lookup.old invoke.now.identifier invoke.now.linked (tree_in invoke.now.parameter)) }
    ensures same { lookup.new ≡ lookup.old }
{
    let Some(argument) = invoke.parameter else {
        return Ok(unknown(invoke, InvokeProblem::MistypedParameter));
    };
    let Ok(dp) = initial_dp_in(&argument) else {
        return Ok(unknown(invoke, InvokeProblem::MistypedParameter));
    };
    let found = find(lookup, &dp)?;
    Ok(EntryKind::InitialDp {
        identifier: invoke.identifier,
        linked: invoke.linked,
        calling: dp.calling,
        found,
    })
}

/// The entry for an Invoke of EventReportBCSM.
fn event_kind(invoke: &Invoke<'_>) -> EntryKind
    ensures { IsEventKind invoke.now.identifier invoke.now.linked (tree_in invoke.now.parameter) result }
{
    let Some(argument) = invoke.parameter else {
        return unknown(invoke, InvokeProblem::MistypedParameter);
    };
    let Ok(report) = event_report_in(&argument) else {
        return unknown(invoke, InvokeProblem::MistypedParameter);
    };
    EntryKind::Event {
        identifier: invoke.identifier,
        linked: invoke.linked,
        event: report.event,
        notification: report.notification,
    }
}

/// The entry for an Invoke.
#[inline(always)]
fn invoke_kind(lookup: &mut Lookup<'_>, invoke: &Invoke<'_>) -> Result<EntryKind, AllocError>
    ensures kind { IfOk result (IsInvokeKind lookup.old invoke.now.identifier invoke.now.linked (code_of invoke.now.code)
        (tree_in invoke.now.parameter)) }
    ensures same { lookup.new ≡ lookup.old }
{
    if is_operation(invoke.code, Operation::InitialDp) {
        return initial_dp_kind(lookup, invoke);
    }
    if is_operation(invoke.code, Operation::EventReportBcsm) {
        return Ok(event_kind(invoke));
    }
    Ok(unknown(invoke, InvokeProblem::UnrecognizedOperation))
}

/// The identifier in a Reject, if it is one of this side's Invokes.
fn rejected_identifier(reject: &Reject) -> Option<i8>
    ensures { result ≡ rejected_identifier (problem_of reject.now.problem) reject.now.identifier }
{
    match reject.problem {
        Problem::General(_) | Problem::Invoke(_) => reject.identifier,
        Problem::ReturnResult(_) | Problem::ReturnError(_) => None,
    }
}

/// The kind of entry for a component. The only error is out of memory, for one more share of a record.
#[inline(always)]
pub fn kind_of(lookup: &mut Lookup<'_>, component: &Component<'_>) -> Result<EntryKind, AllocError>
    ensures kind { IfOk result (IsKind lookup.old (component_of component.now)) }
    ensures same { lookup.new ≡ lookup.old }
{
    match component {
        Component::Invoke(invoke) => invoke_kind(lookup, invoke),
        Component::ReturnResultLast(result) => Ok(EntryKind::Result {
            identifier: result.identifier,
            last: true,
        }),
        Component::ReturnError(error) => Ok(EntryKind::Error {
            identifier: error.identifier,
        }),
        Component::Reject(reject) => Ok(EntryKind::Reject {
            identifier: rejected_identifier(reject),
        }),
        Component::ReturnResultNotLast(result) => Ok(EntryKind::Result {
            identifier: result.identifier,
            last: false,
        }),
        Component::Faulty {
            identifier,
            problem,
        } => Ok(EntryKind::Faulty {
            identifier: *identifier,
            problem: *problem,
        }),
    }
}
