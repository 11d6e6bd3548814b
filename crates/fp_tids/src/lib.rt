//! Local transaction identifiers: the four octets by which this end of a link knows a dialogue (ITU-T Q.773, 4.2.1.3).
//!
//! An identifier is the sum of its link, 0 to 7, times 2^29, of the tag of its run, 0 to 4,094, times 2^17, and of a
//! serial, 1 to 131,072. For example, serial 1 of link 1 in a run with tag 3 is 537,264,129 (20060001 in hex). The tag
//! keeps the identifiers of two runs apart if a node between the switch and this end hides the end of a run from the
//! switch; a run without a tag has 0. The serials of a link wait in a queue, at first all of them in their order.
//! [`LocalIds::give`] gives the front one, and [`LocalIds::end`] puts one at the back once its dialogue is held no
//! longer. So no identifier in use is given again, two links or two tags have no identifier in common, and one that
//! ended is given again only after all others that were in the queue then. A link holds at most 4,096 dialogues, so for
//! their identifiers these are at least 126,976 others (the law `serials_of_dialogues_come_back_late` of `fp_book`).
//!
//! The layer above may rely on this: contracts see a [`LocalIds`] as its link, its tag and that queue. `give` answers
//! the identifier of the front serial; it answers `None` exactly if the queue is empty. Only [`LocalIds::new`] and
//! [`LocalIds::with_tag`] take memory.
//!
//! * [`identifiers_are_distinct`]: different links, tags or serials have different identifiers.
//! * [`serials_are_distinct`]: no serial is in the queue twice, as long as you put back only serials that were given.
//! * [`serials_come_back_last`]: a serial that ended is given again after all others that were in the queue then.
#![tactic(auto)]

mod laws;
mod local_ids;

pub use laws::{identifiers_are_distinct, serials_are_distinct, serials_come_back_last};
pub use local_ids::{LocalIds, link_of};
