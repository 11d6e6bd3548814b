//! The components of a message.

ghost use Rattle.std.specs.Prelude.{◌≡◌, ◌++◌, OnOk, map};
ghost use Rattle.fp_ber.specs.Canon.{canon, canon_of_all};
ghost use Rattle.fp_q773.specs.Written.{component_tree, component_trees, portion_trees};
ghost use Rattle.fp_q773.specs.Writable.{only};
ghost use Rattle.fp_reply.specs.Part.{AreComponents, IsArgument, IsComponent};
ghost use Rattle.fp_reply.specs.Reply.{argument_of, component_value};

use fp_ber::Writer;
use fp_inap::{OperationError, write_connect, write_release, write_request_report};
use fp_q773::{Code, Reject, write_component_portion, write_invoke, write_return_error};
use fp_service::{Component, Instruction};
use std::alloc::AllocError;

/// Puts the argument of an instruction. Continue and ActivityTest have none.
fn write_argument(instruction: &Instruction, out: &mut Writer) -> Result<(), AllocError>
    ensures exact { OnOk result (out.new ≡ canon_of_all (only (argument_of instruction.now)) ++ out.old) }
    ensures argument { OnOk result (IsArgument instruction.now) }
{
    match instruction {
        Instruction::Connect(destination) => {
            let digits = destination.digits();
            write_connect(digits.as_slice(), out)
        }
        Instruction::ReleaseCall(cause) => write_release(*cause, out),
        Instruction::RequestReportBcsmEvent => write_request_report(out),
        Instruction::Continue | Instruction::ActivityTest => Ok(()),
    }
}

/// Puts the Invoke of an instruction.
fn write_instruction(
    identifier: i8,
    instruction: &Instruction,
    out: &mut Writer,
) -> Result<(), AllocError>
    ensures exact { OnOk result (out.new ≡ canon (component_tree (component_value (Component.Invoke identifier instruction.now))) ++ out.old) }
    ensures component { OnOk result (IsComponent (Component.Invoke identifier instruction.now)) }
{
    let start = out.len();
    write_argument(instruction, out)?;
    let code = Code::Local(instruction.operation().code());
    write_invoke(identifier, None, code, start, out)
}

/// Puts a ReturnError with this error, which has no parameter.
#[tactic(auto, using(crate::proofs::Sending::error_sent))]
fn write_error(identifier: i8, error: OperationError, out: &mut Writer) -> Result<(), AllocError>
    ensures exact { OnOk result (out.new ≡ canon (component_tree (component_value (Component.ReturnError identifier error))) ++ out.old) }
    ensures component { OnOk result (IsComponent (Component.ReturnError identifier error)) }
{
    let start = out.len();
    let code = Code::Local(error.code());
    write_return_error(identifier, code, start, out)
}

/// Puts a component.
fn write_component(component: &Component, out: &mut Writer) -> Result<(), AllocError>
    ensures exact { OnOk result (out.new ≡ canon (component_tree (component_value component.now)) ++ out.old) }
    ensures component { OnOk result (IsComponent component.now) }
{
    match component {
        Component::Invoke {
            identifier,
            instruction,
        } => write_instruction(*identifier, instruction, out),
        Component::ReturnError { identifier, error } => write_error(*identifier, *error, out),
        Component::Reject {
            identifier,
            problem,
        } => {
            let reject = Reject {
                identifier: *identifier,
                problem: *problem,
            };
            reject.write(out)
        }
    }
}

/// Puts components, one after another.
#[inline(always)]
fn write_all(components: &[Component], out: &mut Writer) -> Result<(), AllocError>
    ensures exact { OnOk result (out.new ≡ canon_of_all (component_trees (map component_value components.now)) ++ out.old) }
    ensures components { OnOk result (AreComponents components.now) }
{
    'components: for index in (0..components.len()).rev() {
        write_component(&components[index], out)?;
    }
    Ok(())
}

/// Puts the component portion of a message, if there are components.
#[inline(always)]
pub(crate) fn write_components(components: &[Component], out: &mut Writer) -> Result<(), AllocError>
    ensures exact { OnOk result (out.new ≡ canon_of_all (portion_trees (map component_value components.now)) ++ out.old) }
    ensures components { OnOk result (AreComponents components.now) }
{
    if components.is_empty() {
        return Ok(());
    }
    let start = out.len();
    write_all(components, out)?;
    write_component_portion(start, out)
}
