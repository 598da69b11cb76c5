//! What happened, in words.

ghost use Rattle.std.specs.Prelude.{◌≡◌, ◌++◌, ◌==◌, ◌&&◌, [], length, map, option_map, codes, string_bytes, IfOk, OnOk};
ghost use Rattle.cp_legend.specs.Names.{legend_seen};
ghost use Rattle.cp_legend.specs.Values.{value_seen};
ghost use Rattle.cp_run.specs.Code.{answer_of};
ghost use Rattle.cp_run.specs.Table.{each};
ghost use Rattle.cp_story.specs.Ends as ends;
ghost use Rattle.cp_story.specs.Joined.{joined};
ghost use Rattle.cp_story.specs.Sentences as spec;
ghost use Rattle.cp_story.specs.Views.{decision_of, wait_of};

use crate::event::{Choice, Happening, OpenCall, Queue, Returned, StoryEvent};
use crate::story::{Story, Wait};
use cp_legend::{Legend, SourceValue};
use cp_machine::{ErrorName, Shown, Signals, Status};
use cp_run::{OutcomeKind, RunEnd};
use std::alloc::{AllocError, Global};

impl StoryEvent {
    /// Whether it continues a queue in which nobody waits.
    pub fn wakes_nobody(&self) -> bool
        ensures { result ≡ (spec.is_continue self.now.happening && length self.now.woken.items == 0) }
    {
        matches!(self.happening, Happening::Continue(..)) && self.woken.is_empty()
    }
}

/// Appends a process by its number and its name.
pub fn push_process(legend: &Legend, text: &mut String, process: u8) -> Result<(), AllocError>
    ensures { OnOk result (string_bytes text.new ≡ string_bytes text.old ++ spec.process_text (legend_seen legend.now) process) }
{
    let name = legend.process_name(process);
    write!(text, "{process} {name}")
}

// Appends each process between two texts.
#[tactic(auto, using(crate::proofs::Rows::each_number_step, crate::proofs::Rows::each_number_none))]
fn push_processes(
    legend: &Legend,
    text: &mut String,
    before: &str,
    processes: &[u8],
    after: &str,
) -> Result<(), AllocError>
    ensures { OnOk result (string_bytes text.new ≡ string_bytes text.old ++ each (spec.between_text (legend_seen legend.now) before.now after.now) processes.now) }
{
    for process in processes {
        text.push_str(before)?;
        push_process(legend, text, *process)?;
        text.push_str(after)?;
    }
    Ok(())
}

/// Appends a call: the monitor, the routine, and the arguments if there are any.
pub fn push_call(
    legend: &Legend,
    text: &mut String,
    call: OpenCall,
    arguments: &[SourceValue],
) -> Result<(), AllocError>
    ensures { OnOk result (string_bytes text.new ≡ string_bytes text.old ++ spec.call_text (legend_seen legend.now) call (map value_seen arguments.now)) }
{
    text.push_str(legend.monitor_name(call.monitor))?;
    text.push_str(".")?;
    text.push_str(legend.routine_name(call.routine))?;
    push_arguments(text, arguments)
}

// Appends a call without its arguments, behind these words.
fn push_bare_call(
    legend: &Legend,
    text: &mut String,
    words: &str,
    call: OpenCall,
) -> Result<(), AllocError>
    ensures { OnOk result (string_bytes text.new ≡ string_bytes text.old ++ (words.now ++ spec.call_text (legend_seen legend.now) call [])) }
{
    text.push_str(words)?;
    push_call(legend, text, call, &[])
}

#[tactic(auto, using(crate::proofs::Rows::joined_step, crate::proofs::Rows::joined_none))]
fn push_arguments(text: &mut String, arguments: &[SourceValue]) -> Result<(), AllocError>
    ensures { OnOk result (string_bytes text.new ≡ string_bytes text.old ++ spec.arguments_text (map value_seen arguments.now)) }
{
    if arguments.is_empty() {
        return Ok(());
    }
    let mut before = "(";
    for value in arguments {
        text.push_str(before)?;
        value.push_to(text)?;
        before = ", ";
    }
    text.push_str(")")
}

/// Appends a queue, after the monitor that it is in.
pub fn push_queue(legend: &Legend, text: &mut String, queue: &Queue) -> Result<(), AllocError>
    ensures { OnOk result (string_bytes text.new ≡ string_bytes text.old ++ spec.queue_text (legend_seen legend.now) queue.now) }
{
    text.push_str(legend.monitor_name(queue.monitor))?;
    text.push_str(".")?;
    text.push_str(queue.name.as_str())
}

/// Appends a displayed value.
pub fn push_shown(legend: &Legend, text: &mut String, value: Shown) -> Result<(), AllocError>
    ensures { OnOk result (string_bytes text.new ≡ string_bytes text.old ++ spec.shown_text (legend_seen legend.now) value) }
{
    match value {
        Shown::Integer(number) => write!(text, "{number}"),
        Shown::Char(code) => push_char(text, code),
        Shown::Truth(truth) => text.push_str(if truth { "true" } else { "false" }),
        Shown::Constant(number) => match legend.constants.get(number as usize) {
            Some(name) => text.push_str(name.as_str()),
            None => Ok(()),
        },
    }
}

fn push_char(text: &mut String, code: u8) -> Result<(), AllocError>
    ensures { OnOk result (string_bytes text.new ≡ string_bytes text.old ++ spec.char_text code) }
{
    if code >= 33 && code <= 126 && code != 39 {
        let character = char::from(code);
        text.push_str("'")?;
        text.push(character)?;
        text.push_str("'")
    } else {
        write!(text, "'(:{code}:)'")
    }
}

/// What an event was: `enters b.put(3)`, `waits in b.sender, lets 2 q in`.
pub fn happening_words(
    alloc: Global,
    legend: &Legend,
    event: &StoryEvent,
) -> Result<String, AllocError>
    ensures { IfOk result (λ t. string_bytes t ≡ spec.event_text (legend_seen legend.now) event.now) }
{
    let mut text = String::new(alloc);
    push_happening(legend, &mut text, &event.happening)?;
    push_nobody(&mut text, event)?;
    push_returned(&mut text, &event.returned)?;
    let words = waking_words(&event.happening);
    push_processes(
        legend,
        &mut text,
        words.before,
        event.woken.as_slice(),
        words.after,
    )?;
    push_processes(legend, &mut text, ", lets ", event.let_in.as_slice(), " in")?;
    Ok(text)
}

/// What is said of who waits in a queue that is continued.
#[derive(Clone, Copy)]
struct WakingWords {
    /// That nobody does.
    nobody: &'static str,
    /// Before and after who does.
    before: &'static str,
    after: &'static str,
}

fn waking_words(happening: &Happening) -> WakingWords
    ensures nobody { result.nobody.now ≡ spec.nobody_words (spec.signals_by happening.now) }
    ensures before { result.before.now ≡ spec.words_before (spec.signals_by happening.now) }
    ensures after { result.after.now ≡ spec.words_after (spec.signals_by happening.now) }
{
    match happening {
        Happening::Continue(_, _, Signals::Continue) => WakingWords {
            nobody: ", nobody waits",
            before: ", ",
            after: " goes to the gate",
        },
        Happening::Continue(_, _, Signals::Wait) => WakingWords {
            nobody: ", nobody waits",
            before: ", wakes ",
            after: ", waits at the gate itself",
        },
        _ => WakingWords {
            nobody: ", where nobody waits",
            before: ", wakes ",
            after: "",
        },
    }
}

// That nobody waits in a queue that is continued.
fn push_nobody(text: &mut String, event: &StoryEvent) -> Result<(), AllocError>
    ensures { OnOk result (string_bytes text.new ≡ string_bytes text.old ++ spec.nobody_text event.now.happening event.now.woken.items) }
{
    if event.wakes_nobody() {
        return text.push_str(waking_words(&event.happening).nobody);
    }
    Ok(())
}

fn push_happening(
    legend: &Legend,
    text: &mut String,
    happening: &Happening,
) -> Result<(), AllocError>
    ensures { OnOk result (string_bytes text.new ≡ string_bytes text.old ++ spec.happening_text (legend_seen legend.now) happening.now) }
{
    match happening {
        Happening::Enter {
            call,
            arguments,
            waits,
        } => {
            text.push_str(entering(*waits))?;
            push_call(legend, text, *call, arguments)
        }
        Happening::Leave(call) => {
            text.push_str("leaves ")?;
            text.push_str(legend.monitor_name(call.monitor))
        }
        Happening::Delay(queue, _) => {
            text.push_str("waits in ")?;
            push_queue(legend, text, queue)
        }
        Happening::Continue(queue, _, _) => {
            text.push_str("continues ")?;
            push_queue(legend, text, queue)
        }
        Happening::Start(process) => {
            text.push_str("starts ")?;
            push_process(legend, text, *process)
        }
        Happening::Display(value) => {
            text.push_str("displays ")?;
            push_shown(legend, text, *value)
        }
        Happening::End => text.push_str("ends"),
        Happening::Admit(call) => push_bare_call(legend, text, "is let in to ", *call),
    }
}

fn entering(waits: bool) -> &'static str
    ensures { result.now ≡ spec.entering_text waits }
{
    if waits {
        "waits at the gate for "
    } else {
        "enters "
    }
}

/// Appends what came back from a call: `, y = 2` for each `var` parameter, `, = 2` for a function's result.
#[tactic(auto, using(crate::proofs::Rows::each_item_step, crate::proofs::Rows::each_item_none))]
pub fn push_returned(text: &mut String, returned: &[Returned]) -> Result<(), AllocError>
    ensures { OnOk result (string_bytes text.new ≡ string_bytes text.old ++ each spec.returned_text returned.now) }
{
    for one in returned {
        text.push_str(", ")?;
        push_named(text, one.name.as_str())?;
        text.push_str("= ")?;
        one.value.push_to(text)?;
    }
    Ok(())
}

fn push_named(text: &mut String, name: &str) -> Result<(), AllocError>
    ensures { OnOk result (string_bytes text.new ≡ string_bytes text.old ++ spec.named_text name.now) }
{
    if name.is_empty() {
        return Ok(());
    }
    text.push_str(name)?;
    text.push_str(" ")
}

/// Where a process waits: `0 program waits in forks[1].hungry`.
pub fn wait_words(alloc: Global, legend: &Legend, wait: &Wait) -> Result<String, AllocError>
    ensures { IfOk result (λ t. string_bytes t ≡ spec.wait_text (legend_seen legend.now) (wait_of wait.now)) }
{
    let mut text = String::new(alloc);
    push_process(legend, &mut text, wait.process)?;
    push_place(alloc, legend, &mut text, wait.status, wait.call)?;
    push_inside(legend, &mut text, &wait.inside)?;
    Ok(text)
}

fn push_place(
    alloc: Global,
    legend: &Legend,
    text: &mut String,
    status: Status,
    call: Option<OpenCall>,
) -> Result<(), AllocError>
    ensures { OnOk result (string_bytes text.new ≡ string_bytes text.old ++ spec.place_text (legend_seen legend.now) status call) }
{
    match status {
        Status::Delayed(cell) => {
            text.push_str(" waits in ")?;
            push_cell_queue(alloc, legend, text, cell)
        }
        Status::Unstarted | Status::Ready | Status::AtGate(_) | Status::Ended => {
            text.push_str(" waits at the gate")?;
            match call {
                Some(call) => push_bare_call(legend, text, " for ", call),
                None => Ok(()),
            }
        }
    }
}

/// Appends the queue that has a cell.
pub fn push_cell_queue(
    alloc: Global,
    legend: &Legend,
    text: &mut String,
    cell: usize,
) -> Result<(), AllocError>
    ensures { OnOk result (string_bytes text.new ≡ string_bytes text.old ++ spec.cell_queue_text (legend_seen legend.now) cell) }
{
    let monitor = legend.monitor_of(cell).unwrap_or(0);
    let name = legend.permanent_name(alloc, cell, 1)?;
    text.push_str(legend.monitor_name(monitor))?;
    text.push_str(".")?;
    text.push_str(name.as_str())
}

fn push_monitor(legend: &Legend, text: &mut String, monitor: u8) -> Result<(), AllocError>
    ensures { OnOk result (string_bytes text.new ≡ string_bytes text.old ++ spec.monitor_text (legend_seen legend.now) monitor) }
{
    text.push_str(legend.monitor_name(monitor))
}

#[tactic(auto, using(crate::proofs::Rows::numbers_step, crate::proofs::Rows::numbers_none))]
fn push_inside(legend: &Legend, text: &mut String, inside: &[u8]) -> Result<(), AllocError>
    ensures { OnOk result (string_bytes text.new ≡ string_bytes text.old ++ joined (codes ", inside ") (codes " and ") (spec.monitor_text (legend_seen legend.now)) inside.now) }
{
    let mut before = ", inside ";
    for monitor in inside {
        text.push_str(before)?;
        push_monitor(legend, text, *monitor)?;
        before = " and ";
    }
    Ok(())
}

/// The name of a run error, as the trace has it.
pub fn error_words(name: ErrorName) -> &'static str
    ensures { result.now ≡ ends.error_name name }
{
    match name {
        ErrorName::Overflow => "overflow",
        ErrorName::ZeroDivisor => "zero-divisor",
        ErrorName::Range => "range",
        ErrorName::NoCase => "no-case",
        ErrorName::QueueInUse => "queue-in-use",
        ErrorName::NotInit => "not-init",
        ErrorName::InitTwice => "init-twice",
        ErrorName::Assertion => "assertion",
        ErrorName::Invariant => "invariant",
    }
}

/// The kind of a run's end, as the trace has it.
pub fn kind_words(kind: OutcomeKind) -> &'static str
    ensures { result.now ≡ ends.kind_name kind }
{
    match kind {
        OutcomeKind::Finished => "finished",
        OutcomeKind::AllWaiting => "all-waiting",
        OutcomeKind::RunError { .. } => "run-error",
        OutcomeKind::ChoiceLimit => "choice-limit",
        OutcomeKind::StepLimit => "step-limit",
        OutcomeKind::OutputLimit => "output-limit",
    }
}

/// The displayed values, or a hyphen.
pub fn output_words(alloc: Global, legend: &Legend, values: &[Shown]) -> Result<String, AllocError>
    ensures { IfOk result (λ t. string_bytes t ≡ ends.output_text (legend_seen legend.now) values.now) }
{
    let mut text = String::new(alloc);
    if values.is_empty() {
        text.push('-')?;
    } else {
        push_values_shown(legend, &mut text, values)?;
    }
    Ok(text)
}

#[tactic(auto, using(crate::proofs::Rows::joined_element_step, crate::proofs::Rows::joined_item_none))]
fn push_values_shown(legend: &Legend, text: &mut String, values: &[Shown]) -> Result<(), AllocError>
    ensures { OnOk result (string_bytes text.new ≡ string_bytes text.old ++ joined [] (codes " ") (spec.shown_text (legend_seen legend.now)) values.now) }
{
    let mut before = "";
    for value in values {
        text.push_str(before)?;
        push_value_shown(legend, text, value)?;
        before = " ";
    }
    Ok(())
}

fn push_value_shown(legend: &Legend, text: &mut String, value: &Shown) -> Result<(), AllocError>
    ensures { OnOk result (string_bytes text.new ≡ string_bytes text.old ++ spec.shown_text (legend_seen legend.now) value.now) }
{
    push_shown(legend, text, *value)
}

/// That so many last numbers of a schedule are not used, if there are some.
pub fn unused_words(alloc: Global, left: usize) -> Result<Option<String>, AllocError>
    ensures { IfOk result (λ words. option_map string_bytes words ≡ spec.unused_text left) }
{
    let words = match left {
        0 => return Ok(None),
        1 => "the last number is not used: the run has ended before it".to_string(alloc)?,
        _ => {
            format!(in alloc;
                "the last {left} numbers are not used: the run has ended before them"
            )?
        }
    };
    Ok(Some(words))
}

/// Who can't be chosen, and who can: `9 can't go on here: 1 or 2`.
pub fn refused_words(alloc: Global, choice: &Choice) -> Result<String, AllocError>
    ensures { IfOk result (λ t. string_bytes t ≡ spec.refused_text (decision_of choice.now)) }
{
    let number = choice.number;
    let mut text = String::new(alloc);
    write!(text, "{number}")?;
    text.push_str(if choice.at_gate {
        " can't be let in here: "
    } else {
        " can't go on here: "
    })?;
    push_options(&mut text, choice.options.as_slice())?;
    Ok(text)
}

// Numbers as alternatives: `0, 1 or 2`.
#[tactic(auto, using(crate::proofs::Rows::alternatives_step, crate::proofs::Rows::alternatives_none))]
fn push_options(text: &mut String, options: &[u8]) -> Result<(), AllocError>
    ensures { OnOk result (string_bytes text.new ≡ string_bytes text.old ++ spec.alternatives_text options.now) }
{
    let last = options.len().saturating_sub(1);
    for (place, option) in options.iter().enumerate() {
        let option = *option;
        text.push_str(sign_before(place, last))?;
        write!(text, "{option}")?;
    }
    Ok(())
}

fn sign_before(place: usize, last: usize) -> &'static str
    ensures { result.now ≡ spec.sign_before place last }
{
    if place == 0 {
        ""
    } else if place == last {
        " or "
    } else {
        ", "
    }
}

/// How a run stops, in the words of a lecture: `deadlock: all wait`.
pub fn end_words(alloc: Global, story: &Story) -> Result<String, AllocError>
    ensures { IfOk result (λ t. string_bytes t ≡ ends.end_text (answer_of story.now.end) (option_map decision_of story.now.last_choice)) }
{
    match &story.end {
        RunEnd::Ended { outcome, .. } => String::from_str(alloc, kind_phrase(outcome.kind)),
        RunEnd::Wants { ready } => {
            let mut text = String::from_str(alloc, "to be chosen next: ")?;
            push_options(&mut text, ready.as_slice())?;
            Ok(text)
        }
        RunEnd::NotReady { .. } => match &story.last_choice {
            Some(choice) => refused_words(alloc, choice),
            None => String::from_str(alloc, "no such choice"),
        },
    }
}

fn kind_phrase(kind: OutcomeKind) -> &'static str
    ensures { result.now ≡ ends.kind_phrase kind }
{
    match kind {
        OutcomeKind::Finished => "all have ended",
        OutcomeKind::AllWaiting => "deadlock: all wait",
        OutcomeKind::RunError { name, .. } => error_phrase(name),
        OutcomeKind::ChoiceLimit => "goes on: the limit of choices",
        OutcomeKind::StepLimit => "no end in sight: the limit of steps",
        OutcomeKind::OutputLimit => "goes on: the limit of displayed values",
    }
}

fn error_phrase(name: ErrorName) -> &'static str
    ensures { result.now ≡ ends.error_phrase name }
{
    match name {
        ErrorName::Overflow => "run error: a number out of reach",
        ErrorName::ZeroDivisor => "run error: division by zero",
        ErrorName::Range => "run error: a value out of its range",
        ErrorName::NoCase => "run error: no case for the value",
        ErrorName::QueueInUse => "run error: a second process in a queue",
        ErrorName::NotInit => "run error: used before its init",
        ErrorName::InitTwice => "run error: a second init",
        ErrorName::Assertion => "breaks an assertion",
        ErrorName::Invariant => "breaks an invariant",
    }
}
