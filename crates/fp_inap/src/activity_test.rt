//! ActivityTest, which has no argument.

ghost use Rattle.std.specs.Prelude.{◌≡◌, ◌++◌, None, OnOk, OnErr};
ghost use Rattle.fp_ber.specs.Canon.{canon};
ghost use Rattle.fp_inap.specs.declared.operation.Operation.TheVariants as operations;
ghost use Rattle.fp_inap.specs.Operation.{code_of};
ghost use Rattle.fp_q773.specs.Value as value;
ghost use Rattle.fp_q773.specs.Written.{component_tree, IsReadBack};

use crate::operation::Operation;
use fp_ber::Writer;
use fp_q773::{Code, write_invoke};
use std::alloc::AllocError;

/// Writes the Invoke of ActivityTest (after ITU-T Q.1218), which has no argument. It tests whether the dialogue still
/// exists at the switch. If memory runs out, the octets are unchanged.
pub fn write_activity_test(identifier: i8, out: &mut Writer) -> Result<(), AllocError>
    ensures exact { OnOk result (out.new
        ≡ canon (component_tree (value.invoke identifier None (value.local (code_of operations.ActivityTest)) None)) ++ out.old) }
    ensures err { OnErr result (out.new ≡ out.old) }

    // The written octets are read as that Invoke.
    ensures found { OnOk result (IsReadBack (value.invoke identifier None (value.local (code_of operations.ActivityTest)) None)) }
{
    let start = out.len();
    let code = Code::Local(Operation::ActivityTest.code());
    write_invoke(identifier, None, code, start, out)
}
