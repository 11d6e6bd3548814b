//! A connection of a transfer point.

ghost use Rattle.std.specs.Prelude.{◌≡◌, ◌<◌, ◌-◌, ◌^◌, [], ◌++◌, drop, IfErr, IfOk, IfSome, OnErr, OnOk, Some, is_some, length};
ghost use Rattle.std.specs.Option.{option_map};
ghost use Rattle.fp_ipa.specs.declared.connection.State.TheVariants.{Asked};
ghost use Rattle.fp_ipa.specs.Message.{head_of};
ghost use Rattle.fp_ipa.specs.Stream.{FaultSays, HandsOut};
ghost use Rattle.fp_ipa.specs.StreamIdentifier.{IsByName};
ghost use Rattle.fp_ipa.specs.View.{message_value};
ghost use Rattle.fp_network.specs.Connection.{arrival_by, is_last, is_of_common, why_closed};
ghost use Rattle.fp_network.specs.declared.course.Course.TheVariants.{Open};
ghost use Rattle.fp_network.specs.Course.{closed, closing_of, drained, is_draining, is_late, is_written, octets_for, overdue, shut};
ghost use Rattle.fp_network.specs.Changes.{IsLonger, counting_read, is_read_out, is_slow, refusal, sending};
ghost use Rattle.fp_network.specs.Receiving.{NextIf};
ghost use Rattle.fp_network.specs.Stepping.{Arrives, Stepped};

use crate::Closing;
use crate::arrival::{Arrival, arrival_by, is_last, step_of, why_closed};
use crate::course::{Course, closed, closing_of, drained, is_late, octets_for, overdue, shut};
use crate::waiting::Waiting;
use fp_ipa::{
    ASKS, IpaFault, IpaMessage, IpaReader, State, StreamIdentifier, UnitName, message_head,
    received_of,
};
use std::alloc::{AllocError, Global};

/// How many octets may wait for a connection.
const MOST_WAITING: usize = 1_048_576;

/// How many reads of its socket a connection gets once its node drains for two seconds, if none of
/// them finds the socket empty. A read takes 16,384 octets, so these are 32 megabytes. By default
/// Linux keeps less for a socket, or as much: 6 megabytes, or 32.
const MOST_LATE_READS: u64 = 2_048;

/// A connection of a transfer point.
#[derive(Drop)]
pub(crate) struct Connection {
    // Its number, in the order of acceptance.
    number: u64,
    state: State,
    reader: IpaReader,
    // Octets that wait to be written to it.
    waiting: Waiting,
    // When it was accepted, in milliseconds.
    came_at: u64,
    course: Course,
    // How many reads of its socket it still gets once its node drains for two seconds.
    reads_left: u64,
}

impl Connection {
    /// A connection of this number that was accepted at this time. The peer is asked for a unit.
    /// `Err`: memory ran out.
    pub(crate) fn new(alloc: Global, number: u64, came_at: u64) -> Result<Connection, AllocError>
        ensures number { IfOk result (λ own. own.number ≡ number) }
        ensures state { IfOk result (λ own. own.state ≡ Asked) }
        ensures asks { IfOk result (λ own. own.waiting ≡ ASKS) }
        ensures reader { IfOk result (λ own. own.reader ≡ []) }
        ensures came { IfOk result (λ own. own.came_at ≡ came_at) }
        ensures open { IfOk result (λ own. own.course ≡ Open) }
        ensures reads { IfOk result (λ own. own.reads_left ≡ 2048) }
    {
        let mut waiting = Waiting::new(alloc);
        waiting.push(&ASKS)?;
        Ok(Connection {
            number,
            state: State::Asked,
            reader: IpaReader::new(alloc),
            waiting,
            came_at,
            course: Course::Open,
            reads_left: MOST_LATE_READS,
        })
    }

    /// The number of the connection.
    pub(crate) fn number(&self) -> u64
        ensures { result ≡ self.now.number }
    {
        self.number
    }

    /// Why it is to be closed, if it is.
    pub(crate) fn closing(&self) -> Option<Closing>
        ensures { result ≡ closing_of self.now.course }
    {
        closing_of(self.course)
    }

    /// Whether it is written.
    pub(crate) fn is_written(&self) -> bool
        ensures { result ≡ is_written self.now.course }
    {
        match self.course {
            Course::Open => true,
            Course::Draining(_) => true,
            Course::Shut(_) => false,
            Course::Over(_) => false,
        }
    }

    /// Whether its writing side is to be shut once nothing waits for it.
    pub(crate) fn is_draining(&self) -> bool
        ensures { result ≡ is_draining self.now.course }
    {
        match self.course {
            Course::Draining(_) => true,
            Course::Open => false,
            Course::Shut(_) => false,
            Course::Over(_) => false,
        }
    }

    /// The connection is to be closed for this reason, unless it was for another one.
    pub(crate) fn close(&mut self, why: Closing)
        ensures { self.new ≡ record self.old { course = closed why self.old.course } }
    {
        self.course = closed(why, self.course);
    }

    /// Notes that the node drains since this time. If the connection has the common unit, which is
    /// the last of this number of units, its writing side is to be shut.
    pub(crate) fn drain(&mut self, units: usize, at: u64)
        ensures { self.new ≡ record self.old {
          course = drained (is_of_common units self.old.state) at self.old.course;
        } }
    {
        self.course = drained(self.is_of_common(units), at, self.course);
    }

    /// Notes that the writing side was shut, if it was to be shut.
    pub(crate) fn shut(&mut self)
        ensures { self.new ≡ record self.old { course = shut self.old.course } }
    {
        self.course = shut(self.course);
    }

    /// Why it is to be closed at this time, if time is over for it.
    pub(crate) fn overdue(&self, at: u64) -> Option<Closing>
        ensures { result ≡ overdue self.now.course self.now.state self.now.came_at at }
    {
        overdue(self.course, self.state, self.came_at, at)
    }

    /// Whether its node drains for two seconds at this time, and it isn't to be closed.
    pub(crate) fn is_late(&self, at: u64) -> bool
        ensures { result ≡ is_late self.now.course at }
    {
        is_late(self.course, at)
    }

    /// Whether a read of its socket that ends at this time closes it: its node drains for two
    /// seconds, and the read found no more, or it was the last one that the connection gets.
    pub(crate) fn is_read_out(&self, at: u64, found_no_more: bool) -> bool
        ensures { result ≡ is_read_out at found_no_more self.now }
    {
        self.is_late(at) && (found_no_more || self.reads_left <= 1)
    }

    /// Counts a read of its socket that ends at this time, if its node drains for two seconds.
    pub(crate) fn count_read(&mut self, at: u64)
        ensures { self.new ≡ counting_read at self.old }
    {
        if self.is_late(at) {
            self.reads_left = self.reads_left.saturating_sub(1);
        }
    }

    /// Whether it has the last of this number of units, which several nodes have in common.
    pub(crate) fn is_of_common(&self, units: usize) -> bool
        ensures { result ≡ is_of_common units self.now.state }
    {
        match self.state {
            State::Named(unit) => is_last(units, unit),
            State::Active(unit) => is_last(units, unit),
            State::Asked => false,
            State::Closed => false,
        }
    }

    /// Takes the next piece of its stream. `Err`: memory ran out.
    pub(crate) fn feed(&mut self, octets: &[u8]) -> Result<(), AllocError>
        ensures ok { OnOk result (self.new
            ≡ record self.old { reader = self.old.reader ++ octets.now }) }
    {
        self.reader.feed(octets)?;
        Ok(())
    }

    /// Whether it is to be closed.
    pub(crate) fn is_over(&self) -> bool
        ensures { result ≡ is_some (closing_of self.now.course) }
    {
        self.closing().is_some()
    }

    /// The next message that is there whole, if there is one and the connection isn't to be closed.
    pub(crate) fn next_message(&mut self) -> Result<Option<IpaMessage>, IpaFault>
        ensures next { IfOk result (NextIf (is_some (closing_of self.old.course)) self.old
            (Some self.new)) }
        ensures named { IfOk result (λ message.
            IfSome message (λ message. IsByName message.stream)) }
        ensures fault { IfErr result (FaultSays self.old.reader) }
        ensures same { self.new ≡ record self.old { reader = self.new.reader } }
        ensures kept { OnErr result (self.new.reader ≡ self.old.reader) }
    {
        if self.is_over() {
            return Ok(None);
        }
        self.reader.next()
    }

    /// Takes a message, of a node that drains or doesn't. `Err`: memory ran out for an answer.
    fn take(
        &mut self,
        names: &[UnitName],
        drains: bool,
        stream: StreamIdentifier,
        octets: &[u8],
    ) -> Result<Arrival, AllocError>
        ensures stepped { IfOk result
            (Stepped names.now drains stream octets.now self.old self.new) }
    {
        let received = received_of(names, stream, octets);
        let step = step_of(drains, names.len(), self.state, received);
        self.waiting.push(octets_for(self.course, step.action))?;
        self.state = step.state;
        Ok(arrival_by(step, why_closed(drains, names.len(), received)))
    }

    /// Whether a megabyte waits for it, so that nothing more is to be sent.
    pub(crate) fn is_slow(&self) -> bool
        ensures { result ≡ is_slow self.now }
    {
        self.waiting.count() >= MOST_WAITING
    }

    /// Why it takes no message of the link, if it doesn't: too much waits for it already, or its
    /// writing side is shut.
    pub(crate) fn refusal(&self) -> Option<Closing>
        ensures { result ≡ refusal self.now }
    {
        if !self.is_written() {
            return Some(Closing::Draining);
        }
        if self.is_slow() {
            return Some(Closing::Slow);
        }
        None
    }

    /// The effect of a message, of a node that drains or doesn't. If a megabyte waits to be written
    /// already, the connection is to be closed, since the message may have to be answered. `Err`:
    /// memory ran out for an answer.
    pub(crate) fn arrival(
        &mut self,
        names: &[UnitName],
        drains: bool,
        stream: StreamIdentifier,
        octets: &[u8],
    ) -> Result<Arrival, AllocError>
        ensures longer { OnOk result (IsLonger self.old.waiting self.new.waiting) }
        ensures arrives { IfOk result (Arrives names.now drains stream octets.now self.old
            self.new) }
    {
        if self.is_slow() {
            return Ok(Arrival::Close(Closing::Slow));
        }
        let arrival = self.take(names, drains, stream, octets)?;
        Ok(arrival)
    }

    /// A message of SCCP, at most 65,535 octets, waits to be written. `Err`: memory ran out, and
    /// the network must end.
    fn push(&mut self, octets: &[u8]) -> Result<(), AllocError>
        requires { length octets.now < 2 ^ 16 }
        ensures { OnOk result (self.new
            ≡ record self.old {
              waiting = self.old.waiting ++ (head_of 253 (length octets.now) ++ octets.now);
            }) }
    {
        let head = message_head(StreamIdentifier::Sccp, octets.len() as u16);
        self.waiting.push(&head)?;
        self.waiting.push(octets)?;
        Ok(())
    }

    /// A message of SCCP waits to be written, if it is written and the message has at most 65,535
    /// octets. `Err`: memory ran out, and the network must end.
    pub(crate) fn send(&mut self, octets: &[u8]) -> Result<(), AllocError>
        ensures { OnOk result (self.new ≡ sending octets.now self.old) }
    {
        if octets.len() > usize::from(u16::MAX) {
            return Ok(());
        }
        if !self.is_written() {
            return Ok(());
        }
        self.push(octets)?;
        Ok(())
    }

    /// The octets that wait to be written.
    pub(crate) fn waiting(&self) -> &[u8]
        ensures { result.now ≡ self.now.waiting }
    {
        self.waiting.octets()
    }

    /// Removes this number of octets, once they were written.
    pub(crate) fn written(&mut self, count: usize)
        ensures { self.new ≡ record self.old { waiting = drop count self.old.waiting } }
    {
        self.waiting.take(count);
    }
}
