//! EventReportBCSM: reading its argument.

ghost use Rattle.std.specs.Prelude.{◌≡◌, ◌∷◌, [], ℕ, Bool, List, Option, Some, Ok, IfOk, IfErr};
ghost use Rattle.fp_ber.specs.Tree as tree;
ghost use Rattle.fp_ber.specs.Lent.{lent_tree};
ghost use Rattle.fp_ber.specs.View.{tree_of};
ghost use Rattle.fp_inap.specs.declared.event_report.EventReport.{EventReport};
ghost use Rattle.fp_inap.specs.declared.leg.Leg.{Leg};
ghost use Rattle.fp_inap.specs.Event.{IsByName};
ghost use Rattle.fp_inap.specs.EventReport.{IsEventReport, IsLeg, IsCallInfo, IsMessageType, leg_members};
ghost use Rattle.fp_inap.specs.View.{octets_in, forest_in};

use crate::event::Event;
use crate::leg::Leg;
use crate::members::{Members, octet_in};
use crate::mistyped::Mistyped;
use fp_ber::{Class, Element, ElementRef, Elements};

// The numbers of the context tags of the members.

const EVENT_TYPE_BCSM: u16 = 0;

const EVENT_SPECIFIC_INFORMATION: u16 = 2;

const LEG_ID: u16 = 3;

const MISC_CALL_INFO: u16 = 4;

// The numbers of the context tags of a leg.

const SENDING_SIDE: u16 = 0;

const RECEIVING_SIDE: u16 = 1;

/// The number of the context tag of messageType.
const MESSAGE_TYPE: u16 = 0;

/// The contents of the argument of EventReportBCSM (after ITU-T Q.1218).
#[derive(Clone, Copy, Debug, PartialEq, Eq)]
pub struct EventReport {
    /// The event, eventTypeBCSM.
    pub event: Event,
    /// The leg of the call, legID, if the report has one.
    pub leg: Option<Leg>,
    /// Whether the switch goes on without waiting: messageType is notification, and not request.
    pub notification: bool,
}

/// Reads the argument of EventReportBCSM (after ITU-T Q.1218). Takes no memory.
///
/// The argument is a sequence of members with context tags, in any order, each of these at most once:
///
/// - 80, eventTypeBCSM: one octet. This member must be there.
/// - A2: skipped.
/// - A3, legID: just one 80 or 81 of one octet.
/// - A4, miscCallInfo: members with context tags, among them at most one messageType, 80, with 0 (request) or 1
///   (notification). Without messageType it is a request.
///
/// Members with other context tags are skipped. For example, `30 03 80 01 05` reports that the called party is busy.
/// Any other element is [`Mistyped`]. An event with a name is returned by its name.
pub fn event_report_in(argument: &ElementRef<'_>) -> Result<EventReport, Mistyped>
    ensures ok { IfOk result (IsEventReport (lent_tree argument.now)) }
    ensures only { (report : EventReport) → IsEventReport (lent_tree argument.now) report → result ≡ Ok report }
    ensures named { IfOk result (λ report. IsByName report.event) }
{
    event_report_of(argument)
}

/// Reads the argument of EventReportBCSM from an element in memory of its own, as [`event_report_in`] does.
pub fn read_event_report(argument: &Element) -> Result<EventReport, Mistyped>
    ensures ok { IfOk result (IsEventReport (tree_of argument.now)) }
    ensures only { (report : EventReport) → IsEventReport (tree_of argument.now) report → result ≡ Ok report }
    ensures named { IfOk result (λ report. IsByName report.event) }
{
    event_report_in(&ElementRef::Owned(argument))
}

/// Reads the argument of EventReportBCSM, as [`event_report_in`] does.
fn event_report_of(argument: &ElementRef<'_>) -> Result<EventReport, Mistyped>
    ensures ok { IfOk result (IsEventReport (lent_tree argument.now)) }
    ensures err { IfErr result (λ _. (report : EventReport) → IsEventReport (lent_tree argument.now) report → ⊥) }
    ensures named { IfOk result (λ report. IsByName report.event) }
{
    let members = Members::of_sequence(argument)?;
    let Some(event) = octet_in(members.octets(EVENT_TYPE_BCSM)?)? else {
        return Err(Mistyped);
    };
    let _ = members.members(EVENT_SPECIFIC_INFORMATION)?;
    let leg = leg_in(members.members(LEG_ID)?)?;
    let notification = is_notification(members.members(MISC_CALL_INFO)?)?;
    Ok(EventReport {
        event: Event::from_code(event),
        leg,
        notification,
    })
}

/// The leg in these members, if they are there.
fn leg_in(members: Option<Elements<'_>>) -> Result<Option<Leg>, Mistyped>
    ensures ok { IfOk result (IsLeg (forest_in members.entry)) }
    ensures err { IfErr result (λ _. (leg : Option Leg) → IsLeg (forest_in members.entry) leg → ⊥) }
{
    let Some(members) = members else {
        return Ok(None);
    };
    let Some(side) = members.split_first() else {
        return Err(Mistyped);
    };
    if !side.rest.is_empty() {
        return Err(Mistyped);
    }
    Ok(Some(leg_of(&side.first)?))
}

/// The leg in a member.
fn leg_of(side: &ElementRef<'_>) -> Result<Leg, Mistyped>
    ensures ok { IfOk result (λ leg. tree.more (lent_tree side.now) tree.none ≡ leg_members leg) }
    ensures err { IfErr result (λ _. (leg : Leg) → tree.more (lent_tree side.now) tree.none ≡ leg_members leg → ⊥) }
{
    if let Some(octets) = side.octets_with_tag(Class::Context, SENDING_SIDE) {
        let [octet] = octets else {
            return Err(Mistyped);
        };
        return Ok(Leg::Sending(*octet));
    }
    let Some(octets) = side.octets_with_tag(Class::Context, RECEIVING_SIDE) else {
        return Err(Mistyped);
    };
    let [octet] = octets else {
        return Err(Mistyped);
    };
    Ok(Leg::Receiving(*octet))
}

/// Whether the messageType in these members is notification. Without messageType or members it isn't.
fn is_notification(members: Option<Elements<'_>>) -> Result<bool, Mistyped>
    ensures ok { IfOk result (IsCallInfo (forest_in members.entry)) }
    ensures err { IfErr result (λ _. (notification : Bool) → IsCallInfo (forest_in members.entry) notification → ⊥) }
{
    let Some(members) = members else {
        return Ok(false);
    };
    let members = Members::new(members)?;
    message_type_in(members.octets(MESSAGE_TYPE)?)
}

/// Whether this messageType is notification. If it is absent, it isn't.
fn message_type_in(octets: Option<&[u8]>) -> Result<bool, Mistyped>
    ensures ok { IfOk result (IsMessageType (octets_in octets.entry)) }
    ensures err { IfErr result (λ _. (notification : Bool) → IsMessageType (octets_in octets.entry) notification → ⊥) }
{
    match octets {
        None | Some([0]) => Ok(false),
        Some([1]) => Ok(true),
        Some(_) => Err(Mistyped),
    }
}
