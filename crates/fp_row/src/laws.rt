//! The guarantees of the layer's types.

ghost use Rattle.fp_row.specs.Laws.{RowsKeepTheirOrder, TurnsAreServedByTheStep};
ghost use Rattle.fp_row.specs.Rows.{AfterIsOne, PuttingBackChangesNothing};

use fp_service::{births_stay, cut_is_a_front, entries_ask_once_at_most, folds_along_a_grown_list};

/// Each row has served the first of those accepted entries that its service logic serves, and its core is the core
/// after them. Next are the entries of the turn that is out, then the entries that wait: together all accepted entries,
/// or a prefix of them if the dialogue was closed or its core is over. Frames sent ≤ kept ≤ accepted for sending ≤
/// requested by the entries served; all of the accepted ones are kept unless the dialogue was ended from outside. The
/// counts are of the requests of the entries served.
pub fn rows_keep_their_order()
    ensures { RowsKeepTheirOrder }
{
    folds_along_a_grown_list();
    entries_ask_once_at_most();
    births_stay();
}

/// Each served turn has served its entries up to the first after which the dialogue is over, or all. Its core is the
/// service step's after them. Its frames are the frames of their requests, under the turn's own identifiers, at most
/// one for each entry.
pub fn turns_are_served_by_the_step()
    ensures { TurnsAreServedByTheStep }
{
    cut_is_a_front();
    entries_ask_once_at_most();
}

/// The contract of [`Rows::after`](crate::Rows::after) allows exactly one answer.
#[tactic(auto, using(crate::proofs::After::after_is_one))]
pub fn after_is_one()
    ensures { AfterIsOne }
{}

/// Putting a row back under its own identifier changes nothing.
#[tactic(auto, using(crate::proofs::PuttingBack::putting_back_changes_nothing))]
pub fn putting_back_changes_nothing()
    ensures { PuttingBackChangesNothing }
{}
