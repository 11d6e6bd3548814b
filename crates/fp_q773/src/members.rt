//! An optional element.

ghost use Rattle.std.specs.Prelude.{◌≡◌, ◌<◌, ◌^◌, ◌++◌, OnOk, OnErr};
ghost use Rattle.fp_ber.specs.Canon.{canon_of_all};
ghost use Rattle.fp_ber.specs.Putting.{EndsWith};
ghost use Rattle.fp_q773.specs.Copied.{CopyHasTags};
ghost use Rattle.fp_q773.specs.Room.{tree_room};
ghost use Rattle.fp_q773.specs.View.{tree_in};
ghost use Rattle.fp_q773.specs.Writable.{only};

use fp_ber::{ElementRef, Writer};
use std::alloc::AllocError;

/// Writes an element, if there is one. Its tags and its size must be in range. If memory runs out,
/// the octets are unchanged.
pub fn write_optional(element: Option<ElementRef<'_>>, out: &mut Writer) -> Result<(), AllocError>
    requires tags { CopyHasTags (tree_in element) }
    requires room { tree_room (tree_in element) < 2 ^ 32 }
    ensures exact { OnOk result (out.new ≡ canon_of_all (only (tree_in element.entry)) ++ out.old) }
    ensures err { OnErr result (out.new ≡ out.old) }
    ensures stays { EndsWith out.new out.old }
{
    let Some(element) = element else {
        return Ok(());
    };
    out.put_lent(&element)
}
