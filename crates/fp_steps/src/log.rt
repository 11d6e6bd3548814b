//! The log of a run.

ghost use Rattle.std.specs.Prelude.{◌≡◌, ◌<◌, ◌≤◌, ◌+◌, ◌^◌, ◌++◌, ℕ, IfOk, IfSome, None, Some, map, option_to_list};
ghost use Rattle.std.specs.List.{AllByRecursion};
ghost use Rattle.std.specs.Option.{option_and_then};
ghost use Rattle.fp_book.specs.declared.line.Line.TheVariants as line;
ghost use Rattle.fp_steps.specs.Births.{opened_in};
ghost use Rattle.fp_steps.specs.proof_only.Log.{NamesThen, back_by, back_in, moves, name_in, name_of, names_in, others, others_if, place_if, place_in, place_of, sending_after, taken_in, told_by, told_where, turns_after};
ghost use Rattle.fp_steps.specs.LogLines.{HasPlace, IsLineOf, IsLog};
ghost use Rattle.fp_steps.specs.Places.{last_place};
ghost use Rattle.fp_steps.specs.Told.{birth_under, is_written, told_message, told_tick, written};

use crate::places::last_place;
use crate::ranges::step_is_in_range;
use crate::{Output, Step};
use fp_book::{Line, LoggedStep, Posted};
use fp_tids::LocalIds;
use std::alloc::{AllocError, Global};
use std::collections::BTreeMap;

/// A turn that is out.
#[derive(Clone, Copy)]
pub(crate) struct TurnOut {
    /// The birth of its dialogue.
    pub(crate) birth: u64,
    /// The place of its first entry.
    pub(crate) position: u64,
}

/// The position of a dialogue's turn, if it is out.
fn place_in(turns: &[TurnOut], birth: u64) -> Option<u64>
    ensures { result ≡ place_in turns.now birth }
{
    let turn = turns.iter().find(|turn| turn.birth == birth)?;
    Some(turn.position)
}

/// The position of a dialogue's turn, if a dialogue is given and its turn is out.
fn place_if(turns: &[TurnOut], birth: Option<u64>) -> Option<u64>
    ensures { result ≡ place_if birth turns.now }
{
    match birth {
        Some(birth) => place_in(turns, birth),
        None => None,
    }
}

/// The identifier of the dialogue whose turn a step puts back.
fn back_in(step: &Step) -> Option<u32>
    ensures { result ≡ back_in step.now }
{
    match step {
        Step::PutBack(local) => Some(*local),
        _ => None,
    }
}

/// The identifier of the dialogue that an output belongs to, if it belongs to one.
fn names_in(step: &Step, output: &Output) -> Option<u32>
    ensures { result ≡ names_in step.now output.now }
{
    match output {
        Output::Took { local, .. } | Output::Gave { local, .. } | Output::Picked { local, .. } => {
            Some(*local)
        }
        Output::WentBack => back_in(step),
        _ => None,
    }
}

/// `birth`, the dialogue of the output, if its turn goes out or is taken back.
fn moves(birth: Option<u64>, output: &Output) -> Option<u64>
    ensures { result ≡ moves birth output.now }
{
    match output {
        Output::Took { .. } | Output::Gave { .. } | Output::WentBack => birth,
        _ => None,
    }
}

/// The turn that goes out, if one does; `birth` is the dialogue of the output.
fn taken_in(birth: Option<u64>, output: &Output) -> Option<TurnOut>
    ensures { result ≡ taken_in birth output.now }
{
    match output {
        Output::Took { position, .. } => birth.map(|birth| TurnOut {
            birth,
            position: *position,
        }),
        _ => None,
    }
}

/// Forgets the turn of a dialogue.
fn forget(turns: &mut Vec<TurnOut>, birth: u64)
    ensures { turns.new.items ≡ others birth turns.old.items }
{
    turns.retain(|turn| turn.birth != birth);
}

/// Forgets the turn of a dialogue, if a dialogue is given.
fn forget_if(turns: &mut Vec<TurnOut>, dialogue: Option<u64>)
    ensures { turns.new.items ≡ others_if dialogue turns.old.items }
{
    if let Some(birth) = dialogue {
        forget(turns, birth);
    }
}

/// Updates the turns that are out after an output; `birth` is its dialogue. `Err`: memory ran out.
fn follow_turns(
    turns: &mut Vec<TurnOut>,
    birth: Option<u64>,
    output: &Output,
) -> Result<(), AllocError>
    ensures { IfOk result (λ _. turns.new.items ≡ turns_after birth output.now turns.old.items) }
{
    forget_if(turns, moves(birth, output));
    if let Some(turn) = taken_in(birth, output) {
        turns.push(turn)?;
    }
    Ok(())
}

/// The dialogues that the local transaction identifiers name.
#[derive(Drop)]
struct Named {
    // By identifier: the birth of the dialogue that was opened with it last.
    births: BTreeMap<u32, u64>,
    // How many dialogues were opened.
    count: u64,
}

impl Named {
    /// No dialogue was opened yet. Takes no memory.
    fn new(alloc: Global) -> Named
        ensures names { (local : ℕ) → name_of result local ≡ None }
        ensures count { result.count ≡ 0 }
    {
        Named {
            births: BTreeMap::new(alloc),
            count: 0,
        }
    }

    /// The birth of the dialogue that an identifier names.
    fn name_of(&self, local: u32) -> Option<u64>
        ensures { result ≡ name_of self.now local }
    {
        self.births.get(&local).copied()
    }

    /// The birth of the dialogue that an identifier names, if there is an identifier.
    fn name_if(&self, local: Option<u32>) -> Option<u64>
        ensures { result ≡ option_and_then (name_of self.now) local }
    {
        match local {
            Some(local) => self.name_of(local),
            None => None,
        }
    }

    /// Opens a dialogue with this identifier. `Err`: memory ran out.
    fn open(&mut self, local: u32) -> Result<(), AllocError>
        requires { self.old.count + 1 < 2 ^ 64 }
        ensures { IfOk result (λ _. NamesThen self.old (Some local) self.new) }
    {
        let count = self.count + 1;
        self.births.insert(local, count)?;
        self.count = count;
        Ok(())
    }

    /// Opens a dialogue if an output opened one. `Err`: memory ran out.
    fn follow(&mut self, output: &Output) -> Result<(), AllocError>
        requires { self.old.count + 1 < 2 ^ 64 }
        ensures { IfOk result (λ _. NamesThen self.old (opened_in output.now) self.new) }
    {
        match output {
            Output::Posted { answer, .. } => match answer {
                Posted::Opened(local) => self.open(*local),
                _ => Ok(()),
            },
            _ => Ok(()),
        }
    }
}

/// The place of a table in a log, if it is at most `last`.
pub(crate) fn place_of(table: usize, last: u16) -> Option<u16>
    ensures { result ≡ place_of last table }
{
    if table <= usize::from(last) {
        Some(table as u16)
    } else {
        None
    }
}

/// The log line of a posted message, with its answer: `None` if its table is after the place `last`, or if the step
/// posts none. `Err`: a frame's reference count is at its maximum.
fn told_message(step: &Step, answer: Posted, last: u16) -> Result<Option<LoggedStep>, AllocError>
    ensures told { IfOk result (λ told. told ≡ told_message last step.now answer) }
    ensures place { IfOk result (λ told. IfSome told (HasPlace last)) }
{
    match step {
        Step::Post {
            table,
            frame,
            moment,
        } => {
            let Some(table) = place_of(*table, last) else {
                return Ok(None);
            };
            Ok(Some(LoggedStep::Post {
                table,
                moment: *moment,
                message: frame.try_clone()?,
                answer,
            }))
        }
        Step::Lost(frame, moment) => Ok(Some(LoggedStep::Lost {
            moment: *moment,
            message: frame.try_clone()?,
            answer,
        })),
        _ => Ok(None),
    }
}

/// The log line of a tick, if the step is one.
pub(crate) fn told_tick(step: &Step, added: u32, wanting: u32) -> Option<LoggedStep>
    ensures { result ≡ told_tick step.now added wanting }
{
    match step {
        Step::Tick(moment) => Some(LoggedStep::Tick {
            moment: *moment,
            added,
            wanting,
        }),
        _ => None,
    }
}

/// The log line of a turn that was put back: `birth` is its dialogue, `place` its position.
fn back_by(birth: Option<u64>, place: Option<u64>) -> Option<LoggedStep>
    ensures { result ≡ back_by birth place }
{
    let birth = birth?;
    let position = place?;
    Some(LoggedStep::PutBack { birth, position })
}

/// The birth of the dialogue with this identifier, given that it names `dialogue`; 0 for an Abort of the provider.
fn birth_under(local: u32, dialogue: Option<u64>) -> u64
    ensures { result ≡ birth_under local dialogue }
{
    if local == 0 { 0 } else { dialogue.unwrap_or(0) }
}

/// The parcel that is out after this output (its dialogue's birth), given the one before. `birth` is the dialogue of
/// the output.
fn sending_after(birth: Option<u64>, output: &Output, before: Option<u64>) -> Option<u64>
    ensures { result ≡ sending_after birth output.now before }
{
    match output {
        Output::Picked { local, .. } => Some(birth_under(*local, birth)),
        Output::Sent | Output::Unsent => None,
        _ => before,
    }
}

/// The log line of a step. `birth`, `place` and `sending` are the dialogue, the position of its turn and the parcel
/// that is out, all before the step. A table's place is at most `last`. `Err`: a frame's reference count is at its
/// maximum.
fn told_by(
    last: u16,
    birth: Option<u64>,
    place: Option<u64>,
    sending: Option<u64>,
    step: &Step,
    output: &Output,
) -> Result<Option<LoggedStep>, AllocError>
    ensures told { IfOk result (λ told. told ≡ told_by last birth place sending step.now output.now) }
    ensures place { IfOk result (λ told. IfSome told (HasPlace last)) }
{
    Ok(match output {
        Output::Posted { answer, .. } => told_message(step, *answer, last)?,
        Output::Ticked { added, wanting } => told_tick(step, *added, *wanting),
        Output::Took {
            position,
            count,
            ..
        } => birth.map(|birth| LoggedStep::Take {
            birth,
            position: *position,
            count: *count,
        }),
        Output::Gave {
            position,
            served,
            given,
            ..
        } => birth.map(|birth| LoggedStep::Give {
            birth,
            position: *position,
            served: *served,
            given: *given,
        }),
        Output::WentBack => back_by(birth, place),
        Output::Picked { local, .. } => Some(LoggedStep::Pick {
            birth: birth_under(*local, birth),
        }),
        Output::Sent => sending.map(|birth| LoggedStep::Sent { birth }),
        Output::Unsent => sending.map(|birth| LoggedStep::Unsent { birth }),
        Output::Down => Some(LoggedStep::Down),
        Output::NoRoom | Output::Busy | Output::Nothing => None,
    })
}

/// Whether a log has this line: a tick that found no dialogue due is left out.
fn is_written(step: &LoggedStep) -> bool
    ensures { result ≡ is_written step.now }
{
    match step {
        LoggedStep::Tick { added, wanting, .. } => *added != 0 || *wanting != 0,
        _ => true,
    }
}

/// The line, if a log has it.
fn written(told: Option<LoggedStep>) -> Option<LoggedStep>
    ensures { result ≡ written told }
{
    let step = told?;
    if is_written(&step) { Some(step) } else { None }
}

/// Adds a line at the end, if there is one, in a run with this tag. `Err`: memory ran out.
fn add(
    lines: &mut Vec<Line>,
    link: u8,
    tag: u16,
    told: Option<LoggedStep>,
) -> Result<(), AllocError>
    requires link { link < LocalIds.LINKS }
    requires place { IfSome told (HasPlace (last_place tag)) }
    ensures lines { IfOk result (λ _. lines.new.items ≡ lines.old.items ++ map (line.Step link) (option_to_list told)) }
    ensures ranges { IfOk result (λ _. AllByRecursion (IsLineOf tag) lines.old.items → AllByRecursion (IsLineOf tag) lines.new.items) }
{
    let Some(step) = told else {
        return Ok(());
    };
    step_is_in_range(&step);
    lines.push(Line::Step { link, step })?;
    Ok(())
}

/// The log of a run so far, and the turns and the parcel that are out.
#[derive(Drop)]
struct LogSoFar {
    lines: Vec<Line>,
    named: Named,
    turns: Vec<TurnOut>,
    // The birth of the dialogue whose frame is out, 0 for an Abort of the provider.
    sending: Option<u64>,
}

impl LogSoFar {
    /// Adds one more step of a link, in a run with this tag. `Err`: memory ran out.
    fn tell(&mut self, link: u8, tag: u16, step: &Step, output: &Output) -> Result<(), AllocError>
        requires link { link < LocalIds.LINKS }
        requires count { self.old.named.count + 1 < 2 ^ 64 }
        ensures lines { IfOk result (λ _. let birth = name_in self.old.named step.now output.now in self.new.lines.items ≡ self.old.lines.items
            ++ map (line.Step link) (option_to_list (written (told_where (last_place tag) birth self.old.turns.items self.old.sending step.now output.now)))) }
        ensures ranges { IfOk result (λ _. AllByRecursion (IsLineOf tag) self.old.lines.items → AllByRecursion (IsLineOf tag) self.new.lines.items) }
        ensures named { IfOk result (λ _. NamesThen self.old.named (opened_in output.now) self.new.named) }
        ensures turns { IfOk result (λ _. self.new.turns.items ≡ turns_after (name_in self.old.named step.now output.now) output.now self.old.turns.items) }
        ensures sending { IfOk result (λ _. self.new.sending ≡ sending_after (name_in self.old.named step.now output.now) output.now self.old.sending) }
    {
        let birth = self.named.name_if(names_in(step, output));
        let place = place_if(&self.turns, birth);
        let told = told_by(last_place(tag), birth, place, self.sending, step, output)?;
        add(&mut self.lines, link, tag, written(told))?;
        follow_turns(&mut self.turns, birth, output)?;
        self.sending = sending_after(birth, output, self.sending);
        self.named.follow(output)
    }
}

/// The log of a run on a link, 0 to 7, with these steps and outputs: a head with the number of links up to that one,
/// and then the line of each logged step, in their order. Each line is in the ranges of the log's format; a message by
/// a table after the last place ([`last_place`]) has none. For steps and outputs that no run has, no clause says more.
/// `Err`: memory ran out.
pub fn lines_of(
    alloc: Global,
    link: u8,
    steps: &[Step],
    outputs: &[Output],
) -> Result<Vec<Line>, AllocError>
    requires { link < LocalIds.LINKS }
    ensures { IfOk result (λ lines. IsLog link 0 steps.now outputs.now lines.items) }
{
    lines_with_tag(alloc, link, 0, steps, outputs)
}

/// As [`lines_of`], of a run with this tag, 0 to 4,094.
pub fn lines_with_tag(
    alloc: Global,
    link: u8,
    tag: u16,
    steps: &[Step],
    outputs: &[Output],
) -> Result<Vec<Line>, AllocError>
    requires links { link < LocalIds.LINKS }
    requires tags { tag ≤ LocalIds.LAST_TAG }
    ensures { IfOk result (λ lines. IsLog link tag steps.now outputs.now lines.items) }
{
    let mut log = LogSoFar {
        lines: Vec::new(alloc),
        named: Named::new(alloc),
        turns: Vec::new(alloc),
        sending: None,
    };
    log.lines.push(Line::Head {
        links: link + 1,
        tag,
    })?;
    for (step, output) in steps.iter().zip(outputs) {
        log.tell(link, tag, step, output)?;
    }
    Ok(log.lines)
}
