//! Laws of all arguments.

ghost use Rattle.fp_inap.specs.Laws.{InitialDpsAreOne, EventReportsAreOne};

/// An element is at most one argument of InitialDP.
pub fn initial_dps_are_one()
    ensures { InitialDpsAreOne }
{}

/// An element is at most one argument of EventReportBCSM.
pub fn event_reports_are_one()
    ensures { EventReportsAreOne }
{}
