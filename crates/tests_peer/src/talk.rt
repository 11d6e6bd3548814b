//! What clients say, and what has to be answered.

use crate::client::Client;
use crate::unmet::Unmet;
use std::alloc::{AllocError, Global};
use std::net::{Net, SocketAddr, TcpStream};

/// Records: a number that leads on, one that leads on to two places in turn, one that is refused, one that passes.
pub const RECORDS: &str = "key,100,60
800123456,,1234567,00:00,24:00,1,route,302223344
800123457,,1234567,00:00,24:00,1,route,302223344,302223355
800123458,,1234567,00:00,24:00,1,refuse
800123459,,1234567,00:00,24:00,1,pass
";

/// The events that each Connect asks for, if another place may follow: no route, busy, no answer, the answer, the
/// end.
const EVENTS: &str =
    "A041300B800104810100A203800102300B800105810100A203800102300B800106810100A203800102300B800107810101A203800102300B80010A810101A203800101";

/// The component portion that lets a call through: Continue.
const PASSED: &str = "6C08A10602010102011F";

/// The component portion that refuses a call: ReleaseCall, call rejected.
const REFUSED: &str = "6C0CA10A02010102011604028295";

/// The message that releases a call from 101 when no place is left: ReleaseCall, no answer.
const RELEASED: &str = "64144904000001016C0CA10A02010502011604028293";

/// The frame of a Begin with InitialDP from this identifier, for the number whose last octet is this.
fn begin_for(alloc: Global, identifier: u32, last: &str) -> Result<String, AllocError> {
    format!(in alloc;
        "0000002F622D4804{identifier:08X}6C25A123020101020100301B8001648207831008103254{last}83078313032143650785010A9C0103"
    )
}

/// The frame of a Begin with InitialDP from this identifier, for a number that leads to one place.
pub(crate) fn begin(alloc: Global, identifier: u32) -> Result<String, AllocError> {
    begin_for(alloc, identifier, "06")
}

/// The message that answers it: an End with Connect.
pub(crate) fn answer(alloc: Global, identifier: u32) -> Result<String, AllocError> {
    format!(in alloc; "641D4904{identifier:08X}6C15A113020101020114300BA009040783100322324304")
}

/// Reads the answer to the Begin from this identifier. It is an error if something else came.
pub(crate) fn answers(alloc: Global, client: &mut Client, identifier: u32) -> Result<(), Unmet> {
    client.expect(alloc, answer(alloc, identifier)?.as_str())
}

/// Makes a call from this identifier. It is an error if something else came than its answer.
pub(crate) fn calls(alloc: Global, client: &mut Client, identifier: u32) -> Result<(), Unmet> {
    client.write_text(alloc, begin(alloc, identifier)?.as_str())?;
    answers(alloc, client, identifier)
}

/// The frame of such a Begin from 2A that names the application context 2A0304.
pub(crate) const BEGIN_WITH_CONTEXT: &str =
    "0000004B624948040000002A6B1A2818060700118605010101A00D600B80020780A10506032A03046C25A123020101020100301B80016482078310081032540683078313032143650785010A9C0103";

/// The message that answers it: an End that accepts the context, with Connect.
pub(crate) const ANSWER_WITH_CONTEXT: &str =
    "644549040000002A6B262824060700118605010101A019611780020780A10506032A0304A203020100A305A1030201006C15A113020101020114300BA009040783100322324304";

/// The frame of a Begin from 2A for a number that leads to two places.
pub(crate) fn long_begin(alloc: Global) -> Result<String, AllocError> {
    begin_for(alloc, 0x2A, "07")
}

/// The frame of a Continue from 2A to the first dialogue of link 2, in which the peer reports an error of the second
/// invocation, missing customer record.
pub(crate) const LATE_ERROR: &str = "00000018651648040000002A4904400000016C08A306020102020106";

/// The message that refuses it once the time of that invocation is over: a Reject, unrecognized invocation.
pub(crate) const LATE_ERROR_REFUSED: &str = "651648044000000149040000002A6C08A406020102830100";

/// The frame of a Continue from 104 to a dialogue that link 0 doesn't have.
pub(crate) const UNKNOWN: &str = "0000000E650C480400000104490400000009";

/// The message that aborts it: unrecognized transaction identifier.
pub(crate) const ABORTED: &str = "67094904000001044A0101";

/// The frame of an End of the first dialogue of link 0.
pub(crate) const END: &str = "000000086406490400000001";

/// A component in which the peer reports an error of invocation 85, which no dialogue has.
pub(crate) const ERROR: &str = "A306020155020106";

/// The message that refuses it in the first dialogue of link 0: a Reject, unrecognized invocation.
pub(crate) const ERROR_REFUSED: &str = "651648040000000149040000002A6C08A406020155830100";

/// A component that rejects an error that nobody reported. Nothing answers it.
pub(crate) const REJECT: &str = "A406020102830100";

/// The frames of this number of Continues from 2A to the first dialogue of link 0, each with 16 times this component,
/// which has 8 octets.
pub(crate) fn continues(alloc: Global, component: &str, count: u32) -> Result<String, AllocError> {
    let mut text = String::new(alloc);
    for _ in 0..count {
        text.push_str("0000009265818F48040000002A4904000000016C8180")?;
        for _ in 0..16 {
            text.push_str(component)?;
        }
    }
    Ok(text)
}

/// The frame of a Continue from 101 to this dialogue, with an EventReportBCSM in this invocation of this event.
fn report(alloc: Global, local: &str, invocation: &str, event: &str) -> Result<String, AllocError> {
    format!(in alloc;
        "0000002765254804000001014904{local}6C17A1150201{invocation}020118300D8001{event}A303810102A403800100"
    )
}

/// The message of a Continue from this dialogue to 101 that asks for events in one invocation and connects to this
/// place in another.
fn connection(
    alloc: Global,
    local: &str,
    asks: &str,
    connects: &str,
    place: &str,
) -> Result<String, AllocError> {
    format!(in alloc;
        "65704804{local}4904000001016C62A14B0201{asks}0201173043{EVENTS}A1130201{connects}020114300BA00904078310032232{place}"
    )
}

/// The frames of a Begin for a number of each kind, and of a Continue to a dialogue that doesn't exist.
fn five_frames(alloc: Global) -> Result<String, AllocError> {
    let mut frames = String::new(alloc);
    for (identifier, last) in [(0x100, "06"), (0x101, "07"), (0x102, "08"), (0x103, "09")] {
        frames.push_str(begin_for(alloc, identifier, last)?.as_str())?;
    }
    frames.push_str(UNKNOWN)?;
    Ok(frames)
}

/// Reads the messages that answer them, and gives them by their tags and lengths.
fn five_messages(alloc: Global, client: &mut Client) -> Result<Vec<String>, Unmet> {
    let mut messages = Vec::new(alloc);
    for _ in 0..5 {
        messages.push(client.message(alloc)?)?;
    }
    messages.sort_unstable();
    Ok(messages)
}

/// The message of a client in this place must be this one.
fn is_at(
    alloc: Global,
    client: usize,
    messages: &[String],
    place: usize,
    wanted: &str,
) -> Result<(), Unmet> {
    let came = messages.get(place).ok_or("fewer than five messages")?;
    Unmet::unless_same(alloc, client, wanted, came.as_str())
}

/// The local identifier in the fourth of these messages.
fn local_in(messages: &[String]) -> Option<&str> {
    messages.get(3)?.get(8..16)
}

/// The local identifier of the dialogue that goes on. It is an error if these aren't the messages that have to come.
fn opened_in(alloc: Global, client: usize, messages: &[String]) -> Result<String, Unmet> {
    let local = local_in(messages).ok_or("no local identifier in the fourth of five messages")?;
    let passed = format!(in alloc; "6410490400000103{PASSED}")?;
    is_at(alloc, client, messages, 0, passed.as_str())?;
    let refused = format!(in alloc; "6414490400000102{REFUSED}")?;
    is_at(alloc, client, messages, 1, refused.as_str())?;
    is_at(alloc, client, messages, 2, answer(alloc, 0x100)?.as_str())?;
    let led = connection(alloc, local, "01", "02", "4304")?;
    is_at(alloc, client, messages, 3, led.as_str())?;
    is_at(alloc, client, messages, 4, ABORTED)?;
    Ok(String::from_str(alloc, local)?)
}

/// Opens a dialogue for a number of each kind, sends a Continue to a dialogue that doesn't exist, and reads what comes;
/// gives the local identifier of the dialogue that goes on.
fn open_four(alloc: Global, client: &mut Client) -> Result<String, Unmet> {
    client.write_text(alloc, five_frames(alloc)?.as_str())?;
    let messages = five_messages(alloc, client)?;
    opened_in(alloc, client.number(), messages.as_slice())
}

/// The dialogue of this local identifier goes on: its first place is busy, and its second one doesn't answer.
fn goes_through_both(alloc: Global, client: &mut Client, local: &str) -> Result<(), Unmet> {
    client.write_text(alloc, report(alloc, local, "02", "05")?.as_str())?;
    let second = connection(alloc, local, "03", "04", "5305")?;
    client.expect(alloc, second.as_str())?;
    client.write_text(alloc, report(alloc, local, "03", "06")?.as_str())?;
    client.expect(alloc, RELEASED)
}

/// Makes a call of each kind on a connection of its own, of which one goes on through both of its places. Gives the
/// link that the dialogues were opened on.
pub(crate) fn all_kinds<R: Net<Stream = TcpStream>>(
    rt: &R,
    alloc: Global,
    address: SocketAddr,
    number: usize,
) -> Result<u64, Unmet> {
    let mut client = Client::connect(rt, address, number)?;
    let local = open_four(alloc, &mut client)?;
    goes_through_both(alloc, &mut client, local.as_str())?;
    let identifier = u32::from_str_radix(local.as_str(), 16)
        .ok()
        .ok_or("no identifier")?;
    // The second dialogue of its link.
    if identifier & 0x1FFF_FFFF == 2 {
        Ok(u64::from(identifier >> 29))
    } else {
        Err(Unmet::differs(
            alloc,
            number,
            "the second identifier of a link",
            local.as_str(),
        ))
    }
}
