//! Laws of the entries of all messages, of all prepared frames, and of `==` on entries.

ghost use Rattle.fp_digits.specs.Exact.{IsExact};
ghost use Rattle.fp_entry.specs.Laws.{ComponentsAreCounted, PreparedIsOne};
ghost use Rattle.fp_entry.specs.Same.{same_entry};

/// The number of entries that components gave is the number of components up to the first faulty one. So it is at most
/// the number of elements in the component portion.
pub fn components_are_counted()
    ensures { ComponentsAreCounted }
{}

/// For one frame, moment, table and list of accepted names there is one prepared result, unless memory runs out.
pub fn prepared_is_one()
    ensures { PreparedIsOne }
{
    fp_ber::no_spelling_begins_another();
    fp_ber::faults_are_one();
    fp_ber::spelled_octets_have_no_fault();
    fp_q773::messages_are_one();
    fp_q773::ids_are_one();
    fp_apdu::openings_are_one();
    fp_inap::initial_dps_are_one();
    fp_inap::event_reports_are_one();
}

/// Two entries are equal by `==` exactly if they are the same.
#[tactic(auto, using(crate::specs::Same::exact_entry))]
pub fn equal_entries_are_the_same()
    ensures { IsExact same_entry }
{}
