//! Small parts of steps: the place of a turn, and whether a message was lost.

ghost use Rattle.std.specs.Prelude.{◌≡◌, ◌==◌};
ghost use Rattle.std.specs.List.{position};
ghost use Rattle.fp_row.specs.declared.turn.Turn.{Turn};
ghost use Rattle.fp_book.specs.Rules.{is_lost};
ghost use Rattle.fp_steps.specs.proof_only.Tokens.{TakesOut, local_in};

use fp_entry::Prepared;
use fp_row::Turn;

/// The place of a dialogue's turn in a list.
fn index_of(turns: &[Turn], local: u32) -> Option<usize>
    ensures { result ≡ position (λ (t : Turn). t.local == local) turns.now }
{
    turns.iter().position(|turn| turn.local() == local)
}

/// Takes the turn of a dialogue out of a list, if it is there. Takes no memory.
pub(crate) fn take_turn(turns: &mut Vec<Turn>, local: u32) -> Option<Turn>
    ensures { TakesOut local turns.old.items result turns.new.items }
{
    let Some(index) = index_of(turns, local) else {
        return None;
    };
    Some(turns.remove(index))
}

/// The local transaction identifier of the dialogue with this birth, if its turn is in the list.
pub(crate) fn local_in(turns: &[Turn], birth: u64) -> Option<u32>
    ensures { result ≡ local_in turns.now birth }
{
    let turn = turns.iter().find(|turn| turn.birth() == birth)?;
    Some(turn.local())
}

/// Whether memory ran out while a message was read.
pub(crate) fn is_lost(came: &Prepared) -> bool
    ensures { result ≡ is_lost came.now }
{
    match came {
        Prepared::Message { .. } | Prepared::Refused { .. } => false,
        Prepared::Lost { .. } => true,
    }
}
