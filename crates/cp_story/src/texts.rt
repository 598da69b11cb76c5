//! A story as lines of text.

ghost use Rattle.std.specs.Prelude.{◌≡◌, ◌++◌, ◌∷◌, [], map, option_map, decimal, string_bytes, IfOk, OnOk};
ghost use Rattle.cp_legend.specs.Names.{legend_seen};
ghost use Rattle.cp_story.specs.Annotations.{violation_seen};
ghost use Rattle.cp_story.specs.CauseText.{behind_colon};
ghost use Rattle.cp_story.specs.Columns.{row_seen, rows_text};
ghost use Rattle.cp_story.specs.Halted.{halted_seen};
ghost use Rattle.cp_story.specs.Joined.{joined};
ghost use Rattle.cp_story.specs.Sentences as sentences;
ghost use Rattle.cp_story.specs.Text as spec;
ghost use Rattle.cp_story.specs.Reasons.{reason_seen};
ghost use Rattle.cp_story.specs.Views.{changed_of, decision_of, wait_of};

use crate::annotation::Violation;
use crate::annotation_words::violation_words;
use crate::cause::Cause;
use crate::cause_words::cause_text;
use crate::event::{Change, Choice, StoryEvent};
use crate::reason_words::reason_text;
use crate::reasons::WaitReason;
use crate::stopping::AbruptEnd;
use crate::story::{Story, Wait};
use crate::tables::{TableRow, push_rows};
use crate::words::{happening_words, push_process, refused_words, unused_words, wait_words};
use cp_legend::Legend;
use cp_run::RunEnd;
use std::alloc::{AllocError, Global};

/// The lines of a story: one for each event, with its number where sentences name events, and a heading before the one with which a round begins; one for each process
/// that waits; one that says why a number can't be taken, or that numbers are left; and `end`, the last line of the plain trace.
pub fn text(
    alloc: Global,
    legend: &Legend,
    story: &Story,
    again: Option<usize>,
    end: &str,
) -> Result<String, AllocError>
    ensures { IfOk result (λ t. string_bytes t ≡ spec.story_text (legend_seen legend.now) story.now again end.now) }
{
    let mut text = String::new(alloc);
    push_table(alloc, legend, &mut text, story, again)?;
    push_waits(alloc, legend, &mut text, &story.waits)?;
    push_reasons(alloc, legend, &mut text, &story.reasons)?;
    push_refused(alloc, &mut text, &story.end, &story.last_choice)?;
    push_unused(alloc, &mut text, story.left)?;
    text.push_str(end)?;
    Ok(text)
}

#[tactic(auto, using(crate::proofs::Rows::row_more))]
fn push_table(
    alloc: Global,
    legend: &Legend,
    text: &mut String,
    story: &Story,
    again: Option<usize>,
) -> Result<(), AllocError>
    ensures { OnOk result (string_bytes text.new ≡ string_bytes text.old ++ rows_text again (spec.story_rows (legend_seen legend.now) story.now)) }
{
    let mut rows = event_rows(alloc, legend, names_events(story), &story.events)?;
    if let Some(stop) = &story.stop {
        rows.push(stop_row(
            alloc,
            legend,
            &story.last_choice,
            stop,
            story.cause,
            &story.violation,
        )?)?;
    }
    push_rows(alloc, text, &rows, again)
}

// Whether the sentences below name events by their numbers.
fn names_events(story: &Story) -> bool
    ensures { result ≡ spec.names_events story.now }
{
    !story.reasons.is_empty()
}

#[tactic(auto, using(crate::proofs::Rows::events_step, crate::proofs::Rows::events_none, crate::proofs::Rows::row_more))]
fn event_rows(
    alloc: Global,
    legend: &Legend,
    named: bool,
    events: &[StoryEvent],
) -> Result<Vec<TableRow>, AllocError>
    ensures { IfOk result (λ v. map row_seen v.items ≡ spec.event_rows (legend_seen legend.now) named 1 events.now) }
{
    let mut rows = Vec::new(alloc);
    for (place, event) in events.iter().enumerate() {
        let number = number_text(alloc, named, place + 1)?;
        rows.push(event_row(alloc, legend, number, event)?)?;
    }
    Ok(rows)
}

fn number_text(alloc: Global, named: bool, number: usize) -> Result<String, AllocError>
    ensures { IfOk result (λ t. string_bytes t ≡ spec.number_text named number) }
{
    if named {
        format!(in alloc; "{number}")
    } else {
        Ok(String::new(alloc))
    }
}

#[tactic(auto, using(crate::proofs::Rows::each_step, crate::proofs::Rows::each_none))]
fn push_waits(
    alloc: Global,
    legend: &Legend,
    text: &mut String,
    waits: &[Wait],
) -> Result<(), AllocError>
    ensures { OnOk result (string_bytes text.new ≡ string_bytes text.old ++ spec.waits_text (legend_seen legend.now) (map wait_of waits.now)) }
{
    for wait in waits {
        let words = wait_words(alloc, legend, wait)?;
        text.push_str(words.as_str())?;
        text.push_str("\n")?;
    }
    Ok(())
}

#[tactic(auto, using(crate::proofs::Rows::each_step, crate::proofs::Rows::each_none))]
fn push_reasons(
    alloc: Global,
    legend: &Legend,
    text: &mut String,
    reasons: &[WaitReason],
) -> Result<(), AllocError>
    ensures { OnOk result (string_bytes text.new ≡ string_bytes text.old ++ spec.reasons_text (legend_seen legend.now) (map reason_seen reasons.now)) }
{
    for reason in reasons {
        let words = reason_text(alloc, legend, reason)?;
        text.push_str(words.as_str())?;
        text.push_str("\n")?;
    }
    Ok(())
}

// Why the number of the last choice can't be taken, if it can't.
fn push_refused(
    alloc: Global,
    text: &mut String,
    end: &RunEnd,
    choice: &Option<Choice>,
) -> Result<(), AllocError>
    ensures { OnOk result (string_bytes text.new ≡ string_bytes text.old ++ spec.refused_line (spec.refusal end.now (option_map decision_of choice.now))) }
{
    match (end, choice) {
        (RunEnd::NotReady { .. }, Some(choice)) => {
            let words = refused_words(alloc, choice)?;
            text.push_str(words.as_str())?;
            text.push_str("\n")
        }
        _ => Ok(()),
    }
}

// That numbers of the schedule were not used, if there are some.
fn push_unused(alloc: Global, text: &mut String, left: usize) -> Result<(), AllocError>
    ensures { OnOk result (string_bytes text.new ≡ string_bytes text.old ++ spec.unused_line (sentences.unused_text left)) }
{
    match unused_words(alloc, left)? {
        Some(words) => {
            text.push_str(words.as_str())?;
            text.push_str("\n")
        }
        None => Ok(()),
    }
}

fn event_row(
    alloc: Global,
    legend: &Legend,
    number: String,
    event: &StoryEvent,
) -> Result<TableRow, AllocError>
    ensures { IfOk result (λ r. row_seen r ≡ string_bytes number ∷ spec.event_row (legend_seen legend.now) event.now) }
{
    let choice = choice_text(alloc, &event.choice)?;
    let process = process_text(alloc, legend, event.plain.process)?;
    let line = line_text(alloc, event.line)?;
    let words = happening_words(alloc, legend, event)?;
    let changes = changes_text(alloc, legend, &event.changes)?;
    let cells = vec![in alloc; number, choice, process, line, words, changes]?;
    Ok(TableRow { cells })
}

fn stop_row(
    alloc: Global,
    legend: &Legend,
    choice: &Option<Choice>,
    stop: &AbruptEnd,
    cause: Option<Cause>,
    violation: &Option<Violation>,
) -> Result<TableRow, AllocError>
    ensures { IfOk result (λ r. row_seen r ≡ [] ∷ spec.stop_row (legend_seen legend.now) (option_map decision_of choice.now) (halted_seen stop.now) cause (option_map violation_seen violation.now)) }
{
    let choice = choice_text(alloc, choice)?;
    let process = process_text(alloc, legend, stop.process)?;
    let line = line_text(alloc, stop.line)?;
    let words = stop_words(alloc, legend, stop, cause, violation)?;
    let number = String::new(alloc);
    let cells = vec![in alloc; number, choice, process, line, words]?;
    Ok(TableRow { cells })
}

/// How a run stopped, and what its error is of if that is known.
pub fn stop_words(
    alloc: Global,
    legend: &Legend,
    stop: &AbruptEnd,
    cause: Option<Cause>,
    violation: &Option<Violation>,
) -> Result<String, AllocError>
    ensures { IfOk result (λ t. string_bytes t ≡ spec.stop_text (legend_seen legend.now) (halted_seen stop.now) cause (option_map violation_seen violation.now)) }
{
    match violation {
        Some(violation) => violation_words(alloc, legend, violation),
        None => halted_words(alloc, legend, stop, cause),
    }
}

// The same where it is no annotation.
fn halted_words(
    alloc: Global,
    legend: &Legend,
    stop: &AbruptEnd,
    cause: Option<Cause>,
) -> Result<String, AllocError>
    ensures { IfOk result (λ t. string_bytes t ≡ string_bytes stop.now.words ++ spec.told_of_cause (legend_seen legend.now) cause) }
{
    let mut text = stop.words.clone()?;
    match cause {
        None | Some(Cause::InUse(..)) => {}
        Some(cause) => push_behind_colon(&mut text, &cause_text(alloc, legend, cause)?)?,
    }
    Ok(text)
}

/// Appends a text behind a colon, if there is some.
pub fn push_behind_colon(text: &mut String, detail: &str) -> Result<(), AllocError>
    ensures { OnOk result (string_bytes text.new ≡ string_bytes text.old ++ behind_colon detail.now) }
{
    if detail.is_empty() {
        return Ok(());
    }
    text.push_str(": ")?;
    text.push_str(detail)
}

/// A choice as `0 of 01`: the number taken, and the numbers that could be.
pub fn choice_text(alloc: Global, choice: &Option<Choice>) -> Result<String, AllocError>
    ensures { IfOk result (λ t. string_bytes t ≡ spec.choice_text (option_map decision_of choice.now)) }
{
    let mut text = String::new(alloc);
    if let Some(choice) = choice {
        let number = choice.number;
        let options = choice.options.as_slice();
        write!(text, "{number} of ")?;
        push_numbers(
            &mut text,
            if are_digits(options) { "" } else { "," },
            options,
        )?;
    }
    Ok(text)
}

#[tactic(auto, using(crate::proofs::Rows::numbers_step, crate::proofs::Rows::numbers_none))]
fn push_numbers(text: &mut String, between: &str, numbers: &[u8]) -> Result<(), AllocError>
    ensures { OnOk result (string_bytes text.new ≡ string_bytes text.old ++ joined [] between.now decimal numbers.now) }
{
    let mut before = "";
    for number in numbers {
        let number = *number;
        text.push_str(before)?;
        write!(text, "{number}")?;
        before = between;
    }
    Ok(())
}

#[tactic(auto, using(crate::proofs::Rows::digits_front, crate::proofs::Rows::digits_none))]
fn are_digits(numbers: &[u8]) -> bool
    ensures { result ≡ spec.are_digits numbers.now }
{
    for number in numbers {
        if *number >= 10 {
            return false;
        }
    }
    true
}

fn process_text(alloc: Global, legend: &Legend, process: u8) -> Result<String, AllocError>
    ensures { IfOk result (λ t. string_bytes t ≡ sentences.process_text (legend_seen legend.now) process) }
{
    let mut text = String::new(alloc);
    push_process(legend, &mut text, process)?;
    Ok(text)
}

fn line_text(alloc: Global, line: Option<u32>) -> Result<String, AllocError>
    ensures { IfOk result (λ t. string_bytes t ≡ spec.line_text line) }
{
    match line {
        Some(line) => format!(in alloc; "line {line}"),
        None => Ok(String::new(alloc)),
    }
}

/// What changed, as `forks[1].taken=true`.
#[tactic(auto, using(crate::proofs::Rows::joined_step, crate::proofs::Rows::joined_none))]
pub fn changes_text(
    alloc: Global,
    legend: &Legend,
    changes: &[Change],
) -> Result<String, AllocError>
    ensures { IfOk result (λ t. string_bytes t ≡ spec.changes_text (legend_seen legend.now) (map changed_of changes.now)) }
{
    let mut text = String::new(alloc);
    let mut before = "";
    for change in changes {
        text.push_str(before)?;
        push_change(legend, &mut text, change)?;
        before = "  ";
    }
    Ok(text)
}

fn push_change(legend: &Legend, text: &mut String, change: &Change) -> Result<(), AllocError>
    ensures { OnOk result (string_bytes text.new ≡ string_bytes text.old ++ spec.change_text (legend_seen legend.now) (changed_of change.now)) }
{
    text.push_str(legend.monitor_name(change.monitor))?;
    text.push_str(".")?;
    text.push_str(change.name.as_str())?;
    text.push_str("=")?;
    change.value.push_to(text)
}
