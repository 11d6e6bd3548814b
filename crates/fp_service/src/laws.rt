//! Laws of the service step along all lists of entries, and of `==` on cores.

ghost use Rattle.fp_digits.specs.Exact.{IsExact};
ghost use Rattle.fp_service.specs.Laws.{AsksOnceAtMost, BirthsStay, CutIsFront, FoldsGrow, FoldsGrowByOne, PeerEndsDialogue, StaysOver};
ghost use Rattle.fp_service.specs.Same.{same_core};

/// The core, the requests and the served entries of a list and a second one after it: the results of the first list,
/// and then the results of the second one from there.
pub fn folds_along_a_grown_list()
    ensures both { FoldsGrow }
    ensures one { FoldsGrowByOne }
{}

/// A dialogue that is over stays over, without requests.
pub fn over_stays_over()
    ensures { StaysOver }
{}

/// After PeerEnd or PeerAbort a dialogue is over, without a request.
pub fn peer_ends_dialogue()
    ensures { PeerEndsDialogue }
{}

/// The served entries are the first ones of the list, up to the one that ends the dialogue.
pub fn cut_is_a_front()
    ensures { CutIsFront }
{}

/// An entry requests at most one message.
pub fn entries_ask_once_at_most()
    ensures { AsksOnceAtMost }
{}

/// All steps keep the birth of a core.
pub fn births_stay()
    ensures { BirthsStay }
{}

/// Two cores are equal by `==` exactly if they are the same.
#[tactic(auto, using(crate::specs::Same::exact_core))]
pub fn equal_cores_are_the_same()
    ensures { IsExact same_core }
{}
