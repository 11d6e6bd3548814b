//! The counts of a frame that was sent.

ghost use Rattle.std.specs.Prelude.{◌≡◌, ◌<◌, ◌≤◌, ◌++◌, ℕ, List, [], Option, Some, drop, false, length, map, option_map, true};
ghost use Rattle.fp_ber.specs.Canon.{canon, canon_of_all};
ghost use Rattle.fp_ber.specs.Tree.{Tree, more};
ghost use Rattle.fp_frames.specs.Frame.{framed};
ghost use Rattle.fp_q773.specs.declared.provider_abort.AbortCause.{AbortCause};
ghost use Rattle.fp_q773.specs.ProviderAbort.{cause_code, provider_abort};
ghost use Rattle.fp_q773.specs.Tid.{IsTid, octets_of_number};
ghost use Rattle.fp_q773.specs.Value.{ComponentValue, provider, user};
ghost use Rattle.fp_q773.specs.Writable.{IsWritableDialogue};
ghost use Rattle.fp_q773.specs.Written.{component_trees, destination_tree, originating_tree, portion_trees, portions_trees, reason_trees};
ghost use Rattle.fp_reply.specs.Reply.{acceptance_portion, component_value, frame_of};
ghost use Rattle.fp_service.specs.declared.component.Component.{Component};
ghost use Rattle.fp_service.specs.declared.request.Request.{Request};
ghost use Rattle.fp_counters.specs.Contents.{IsOneInvoke};
ghost use Rattle.fp_counters.specs.Counted.{Counted, Increase};
ghost use Rattle.fp_counters.specs.Frames as spec;

use crate::component::{INVOKE, component_counter, invoke_counter};
use crate::octets::{
    SHORT_HEAD, after, after_element, after_short, contents_of, is_short, octet_at,
};
use crate::{Counter, Counters};
use fp_q773::AbortCause;

/// The number of octets of the length before a message.
const HEAD: usize = 4;

/// The number of octets of the local transaction identifier, with its tag and its length.
const LOCAL_IDENTIFIER: usize = 6;

/// The tag of an End.
const END: u8 = 0x64;
/// The tag of a Continue.
const CONTINUE: u8 = 0x65;
/// The tag of an Abort.
const ABORT: u8 = 0x67;
/// The tag of a dialogue portion.
const DIALOGUE: u8 = 0x6B;
/// The tag of a component portion.
const COMPONENTS: u8 = 0x6C;
/// The tag of the cause of an Abort of the provider.
const CAUSE: u8 = 0x4A;
/// The place of the value of an Abort's cause, after its tag and its length.
const CAUSE_VALUE: usize = 2;

/// The counts of a frame that was sent: its message, and its components, at most two.
#[derive(Clone, Copy, Debug, PartialEq, Eq)]
pub struct FrameCounts {
    /// The counter of the message. Each frame of the program has one.
    pub message: Option<Counter>,
    /// Whether the frame ends its dialogue: an End, or an Abort by the user.
    pub ends_dialogue: bool,
    /// The counter of the first component.
    pub first: Option<Counter>,
    /// The counter of the second component.
    pub second: Option<Counter>,
}

/// The counts of a message with the components in these octets.
fn counts_of_components(message: Counter, ends_dialogue: bool, components: &[u8]) -> FrameCounts
    ensures { (all : List Component) → length components.now < 65536
        → components.now ≡ canon_of_all (component_trees (map component_value all))
        → result ≡ spec.frame_with message ends_dialogue all }
{
    let others = after_element(components);
    let first = component_counter(components);
    let second = component_counter(others);
    FrameCounts {
        message: Some(message),
        ends_dialogue,
        first,
        second,
    }
}

/// The components in a component portion; none if there is no portion.
fn components_in(portion: &[u8]) -> &[u8]
    ensures is { (values : List ComponentValue) → length portion.now < 65536
        → portion.now ≡ canon_of_all (portion_trees values)
        → result.now ≡ canon_of_all (component_trees values) }
    ensures most { length result.now ≤ length portion.now }
{
    contents_of(portion)
}

/// The component portion, after the dialogue portion if there is one.
fn component_portion(portions: &[u8]) -> &[u8]
    ensures is { (dialogue : Option Tree) (values : List ComponentValue) → length portions.now < 65536
        → IsWritableDialogue dialogue → portions.now ≡ canon_of_all (portions_trees dialogue values)
        → result.now ≡ canon_of_all (portion_trees values) }
    ensures most { length result.now ≤ length portions.now }
{
    if octet_at(portions, 0) == DIALOGUE {
        after_element(portions)
    } else {
        portions
    }
}

/// The counts of a message with these portions, whatever they are.
#[inline(never)]
fn counts_of_any_portions(message: Counter, ends_dialogue: bool, portions: &[u8]) -> FrameCounts
    ensures { (acceptance : Option (List ℕ)) (all : List Component) → length portions.now < 65536
        → portions.now ≡ canon_of_all (portions_trees (acceptance_portion acceptance) (map component_value all))
        → result ≡ spec.frame_with message ends_dialogue all }
{
    let portion = component_portion(portions);
    let components = components_in(portion);
    counts_of_components(message, ends_dialogue, components)
}

/// Whether portions are a component portion of one Invoke, and both lengths have one octet.
fn is_one_invoke(portions: &[u8]) -> bool
    ensures { (acceptance : Option (List ℕ)) (all : List Component)
        → portions.now ≡ canon_of_all (portions_trees (acceptance_portion acceptance) (map component_value all))
        → result ≡ true → IsOneInvoke (drop 2 (drop 2 portions.now)) all }
{
    if octet_at(portions, 0) != COMPONENTS || !is_short(portions) {
        return false;
    }
    let component = after(portions, SHORT_HEAD);
    if octet_at(component, 0) != INVOKE || !is_short(component) {
        return false;
    }
    true
}

/// The counts of a message with these portions, which follow its transaction identifiers. Most have one Invoke.
fn counts_of_portions(message: Counter, ends_dialogue: bool, portions: &[u8]) -> FrameCounts
    ensures { (acceptance : Option (List ℕ)) (all : List Component) → length portions.now < 65536
        → portions.now ≡ canon_of_all (portions_trees (acceptance_portion acceptance) (map component_value all))
        → result ≡ spec.frame_with message ends_dialogue all }
{
    if !is_one_invoke(portions) {
        return counts_of_any_portions(message, ends_dialogue, portions);
    }
    let component = after(portions, SHORT_HEAD);
    let contents = after(component, SHORT_HEAD);
    FrameCounts {
        message: Some(message),
        ends_dialogue,
        first: invoke_counter(contents),
        second: None,
    }
}

/// The counts of a Continue with these contents.
fn counts_of_continue(contents: &[u8]) -> FrameCounts
    ensures { (local : ℕ) (destination : List ℕ) (acceptance : Option (List ℕ)) (all : List Component)
        → IsTid destination → length contents.now < 65536
        → contents.now ≡ canon_of_all (more (originating_tree (octets_of_number local)) (more (destination_tree destination)
        (portions_trees (acceptance_portion acceptance) (map component_value all))))
        → result ≡ spec.frame_with Counter.SentContinue false all }
{
    let destination = after(contents, LOCAL_IDENTIFIER);
    let portions = after_short(destination);
    counts_of_portions(Counter::SentContinue, false, portions)
}

/// The counts of an End with these contents.
fn counts_of_end(contents: &[u8]) -> FrameCounts
    ensures { (destination : List ℕ) (acceptance : Option (List ℕ)) (all : List Component)
        → IsTid destination → length contents.now < 65536
        → contents.now ≡ canon_of_all (more (destination_tree destination)
        (portions_trees (acceptance_portion acceptance) (map component_value all)))
        → result ≡ spec.frame_with Counter.SentEnd true all }
{
    let portions = after_short(contents);
    counts_of_portions(Counter::SentEnd, true, portions)
}

/// The counter of the Aborts of the provider with this cause.
fn cause_counter(cause: AbortCause) -> Counter
    ensures { result ≡ spec.abort_counter cause }
{
    match cause {
        AbortCause::UnrecognizedMessageType => Counter::SentUnknownMessage,
        AbortCause::UnrecognizedTransactionIdentifier => Counter::SentUnknownTransaction,
        AbortCause::BadlyFormattedTransactionPortion => Counter::SentBadTransaction,
        AbortCause::IncorrectTransactionPortion => Counter::SentIncorrectTransaction,
        AbortCause::ResourceLimitation => Counter::SentLimit,
    }
}

/// The counts of an Abort with this reason, which follows its transaction identifier: a cause of the provider, or
/// perhaps a dialogue portion.
fn counts_of_reason(reason: &[u8]) -> FrameCounts
    ensures provider { (cause : AbortCause)
        → reason.now ≡ canon_of_all (reason_trees (Some (provider (cause_code cause))))
        → result ≡ spec.provider_frame cause }
    ensures user { (dialogue : Option Tree) → IsWritableDialogue dialogue
        → reason.now ≡ canon_of_all (reason_trees (option_map user dialogue))
        → result ≡ spec.frame_with Counter.SentUserAbort true [] }
{
    let is_of_provider = octet_at(reason, 0) == CAUSE;
    let message = if is_of_provider {
        AbortCause::from_code(octet_at(reason, CAUSE_VALUE)).map(cause_counter)
    } else {
        Some(Counter::SentUserAbort)
    };
    FrameCounts {
        message,
        ends_dialogue: !is_of_provider,
        first: None,
        second: None,
    }
}

/// The counts of an Abort with these contents.
fn counts_of_abort(contents: &[u8]) -> FrameCounts
    ensures provider { (destination : List ℕ) (cause : AbortCause) → length contents.now < 65536
        → contents.now ≡ canon_of_all (more (destination_tree destination)
        (reason_trees (Some (provider (cause_code cause)))))
        → result ≡ spec.provider_frame cause }
    ensures user { (destination : List ℕ) (dialogue : Option Tree) → IsWritableDialogue dialogue
        → length contents.now < 65536
        → contents.now ≡ canon_of_all (more (destination_tree destination) (reason_trees (option_map user dialogue)))
        → result ≡ spec.frame_with Counter.SentUserAbort true [] }
{
    let reason = after_element(contents);
    counts_of_reason(reason)
}

/// The counts of a sent frame: the counts of its request, or, for an Abort of the provider, of its cause. For other
/// octets the counts aren't specified. Takes no memory.
pub fn frame_counts(frame: &[u8]) -> FrameCounts
    // A frame of a request (Q.773, 4.2), whatever the identifiers of its dialogue are.
    ensures request { (request : Request) (local : ℕ) (peer : List ℕ) → IsTid peer → length frame.now < 65536
        → frame.now ≡ frame_of request local peer → result ≡ spec.request_frame request }

    // A frame with an Abort of the provider (Q.773, 4.2.1).
    ensures abort { (cause : AbortCause) (peer : List ℕ) → length frame.now < 65536
        → frame.now ≡ framed (canon (provider_abort peer (cause_code cause))) → result ≡ spec.provider_frame cause }
{
    let message = after(frame, HEAD);
    let contents = contents_of(message);
    match octet_at(message, 0) {
        CONTINUE => counts_of_continue(contents),
        END => counts_of_end(contents),
        ABORT => counts_of_abort(contents),
        _ => FrameCounts {
            message: None,
            ends_dialogue: false,
            first: None,
            second: None,
        },
    }
}

impl Counters {
    /// Counts an event, if there is one.
    fn count_optional(&mut self, counter: Option<Counter>)
        ensures { (events : List Increase) → Counted self.old events
            → Counted self.new (spec.optional_counts counter ++ events) }
    {
        if let Some(counter) = counter {
            self.count(counter);
        }
    }

    /// Counts a dialogue that this end ended, if a frame did.
    fn count_ended(&mut self, ends_dialogue: bool)
        ensures { (events : List Increase) → Counted self.old events
            → Counted self.new (spec.ended_counts ends_dialogue ++ events) }
    {
        if ends_dialogue {
            self.count(Counter::EndedByService);
        }
    }

    /// Counts a frame that was sent.
    pub fn count_frame(&mut self, frame: &FrameCounts)
        ensures { (events : List Increase) → Counted self.old events
            → Counted self.new (spec.sent_counts frame.now ++ events) }
    {
        self.count_ended(frame.ends_dialogue);
        self.count_optional(frame.message);
        self.count_optional(frame.first);
        self.count_optional(frame.second);
    }
}
