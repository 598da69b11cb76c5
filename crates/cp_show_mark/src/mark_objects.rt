//! The same as JSON.

ghost use Rattle.std.specs.Prelude.{◌≡◌, ◌++◌, IfOk, OnOk, map, option_map, string_bytes};
ghost use Rattle.std.specs.List.{zip};
ghost use Rattle.serde_json.specs.View.{view};
ghost use Rattle.serde_json.specs.Written.{compact_text};
ghost use Rattle.cp_legend.specs.Names.{legend_seen};
ghost use Rattle.cp_story.specs.Ends.{kind_name};
ghost use Rattle.cp_story.specs.Objects.{array_of, line_of, members_in, text_data, with_members};
ghost use Rattle.cp_story.specs.Views.{wait_of};
ghost use Rattle.cp_verdict.specs.Judged.{row_line};
ghost use Rattle.cp_verdict.specs.Written.{named_if};
ghost use Rattle.cp_show_mark.specs.MarkData as spec;
ghost use Rattle.cp_show_mark.specs.MarkText as text_spec;
ghost use Rattle.cp_show_mark.specs.MarkText.{setting_of};

use crate::examinee::Examinee;
use crate::mark_texts::{doubt_text, expectation_text, mark_words, standing_of};
use crate::mark_words::push_reason;
use crate::stories::waits_of;
use cp_expectation::{Expectation, Reading};
use cp_legend::Legend;
use cp_machine::Signals;
use cp_prose::Prose;
use cp_run::OutcomeKind;
use cp_story::objects::{Object, numbers, put_kind, put_signals, waits};
use cp_story::{Wait, kind_words, output_words};
use cp_verdict::{Judgement, Marked, SeenRow, Standing, Stops};
use serde_json::Value;
use std::alloc::{AllocError, Global};

/// That there is no expectation, or why it is none.
pub fn misread_json(alloc: Global, said: &str) -> Result<String, AllocError>
    ensures { IfOk result (λ t. string_bytes t ≡ line_of (spec.misread_data said.now)) }
{
    let mut object = Object::new(alloc);
    object.text("misread", said.trim_end())?;
    object.into_line()
}

/// What a table says of the expectations, as one object.
pub fn marks_as_json(
    alloc: Global,
    examinee: Examinee<'_>,
    reading: &Reading,
    marked: &Marked,
) -> Result<String, AllocError>
    ensures { IfOk result (λ t. string_bytes t ≡ compact_text (spec.mark_data (setting_of examinee.entry) reading.now.expectations.items (option_map (λ w. w.now) reading.now.doubtful) marked.now)) }
{
    let mut object = Object::new(alloc);
    put_mark(
        alloc,
        examinee,
        &mut object,
        mark_words(marked.mark),
        judged_objects(alloc, examinee, reading, marked)?,
        marked.stops,
        doubts(alloc, examinee, reading)?,
    )?;
    object.into_value().to_string(alloc)
}

/// A mark, what is said of each expectation, which limits were met, and what is said of all.
pub fn put_mark(
    alloc: Global,
    examinee: Examinee<'_>,
    object: &mut Object,
    mark: &str,
    expectations: Value,
    stops: Stops,
    notes: Value,
) -> Result<(), AllocError>
    ensures { OnOk result (members_in object.new ≡ with_members (members_in object.old) (spec.mark_members mark.now (view expectations) stops (view notes) examinee.entry.options.now.discipline.signals)) }
{
    object.text("verdict", mark)?;
    object.put("expectations", expectations)?;
    object.put("notes", notes)?;
    put_limits(alloc, object, stops, examinee.options.discipline.signals)
}

// Whether no limit was met, and which were; and who goes on after a `continue`, where that is not by the book.
fn put_limits(
    alloc: Global,
    object: &mut Object,
    stops: Stops,
    signals: Signals,
) -> Result<(), AllocError>
    ensures { OnOk result (members_in object.new ≡ with_members (members_in object.old) (spec.limit_members stops signals)) }
{
    object.put("complete", Value::Bool(stops.is_empty()))?;
    object.put("limits", limits(alloc, stops)?)?;
    put_signals(object, signals)
}

// How a value is written that begins an outcome as well.
fn doubts(alloc: Global, examinee: Examinee<'_>, reading: &Reading) -> Result<Value, AllocError>
    ensures { IfOk result (λ v. view v ≡ spec.notes_data (spec.note_if (text_spec.doubtful_text (text_spec.doubt_told examinee.entry.program.now.names (option_map (λ w. w.now) reading.now.doubtful))))) }
{
    let doubt = doubt_text(alloc, examinee, reading)?;
    let mut notes = Vec::new(alloc);
    push_note(alloc, &mut notes, doubt.as_str())?;
    Ok(Value::Array(notes))
}

/// What is said of all expectations, if anything is.
pub fn push_note(alloc: Global, notes: &mut Vec<Value>, text: &str) -> Result<(), AllocError>
    ensures { IfOk result (λ _. map view notes.new.items ≡ map view notes.old.items ++ map text_data (spec.note_if text.now)) }
{
    if text.is_empty() {
        return Ok(());
    }
    notes.push(Value::try_from_str(alloc, text.trim_end())?)?;
    Ok(())
}

// The limits that were met.
fn limits(alloc: Global, stops: Stops) -> Result<Value, AllocError>
    ensures { IfOk result (λ v. view v ≡ array_of (map text_data (spec.stop_names stops))) }
{
    let mut names = Vec::new(alloc);
    push_limit(alloc, &mut names, stops.choices, OutcomeKind::ChoiceLimit)?;
    push_limit(alloc, &mut names, stops.steps, OutcomeKind::StepLimit)?;
    push_limit(alloc, &mut names, stops.output, OutcomeKind::OutputLimit)?;
    Ok(Value::Array(names))
}

fn push_limit(
    alloc: Global,
    names: &mut Vec<Value>,
    is_met: bool,
    limit: OutcomeKind,
) -> Result<(), AllocError>
    ensures { IfOk result (λ _. map view names.new.items ≡ map view names.old.items ++ map text_data (named_if is_met (kind_name limit))) }
{
    if !is_met {
        return Ok(());
    }
    names.push(Value::try_from_str(alloc, kind_words(limit))?)?;
    Ok(())
}

fn judged_objects(
    alloc: Global,
    examinee: Examinee<'_>,
    reading: &Reading,
    marked: &Marked,
) -> Result<Value, AllocError>
    ensures { IfOk result (λ v. view v ≡ array_of (map (spec.judged_data (setting_of examinee.entry) marked.now.stops) (zip reading.now.expectations.items marked.now.judgements.items))) }
{
    let mut items = Vec::new(alloc);
    for (expectation, judgement) in reading.expectations.iter().zip(&marked.judgements) {
        items.push(judged_object(alloc, examinee, expectation, judgement, marked)?)?;
    }
    Ok(Value::Array(items))
}

// An expectation with its judgement.
fn judged_object(
    alloc: Global,
    examinee: Examinee<'_>,
    expectation: &Expectation,
    judgement: &Judgement,
    marked: &Marked,
) -> Result<Value, AllocError>
    ensures { IfOk result (λ v. view v ≡ spec.judged_data (setting_of examinee.entry) marked.now.stops (expectation.now, judgement.now)) }
{
    let mut object = Object::new(alloc);
    put_shown(alloc, examinee, &mut object, judgement)?;
    let expected = expectation_text(alloc, expectation)?;
    let reason = reason_text(alloc, examinee, expectation, judgement, marked)?;
    put_expectation(
        &mut object,
        expected.as_str(),
        standing_of(judgement),
        reason.as_str(),
    )?;
    Ok(object.into_value())
}

/// An expectation as it is written, whether it holds, and why not.
pub fn put_expectation(
    object: &mut Object,
    expectation: &str,
    standing: Standing,
    reason: &str,
) -> Result<(), AllocError>
    ensures { OnOk result (members_in object.new ≡ with_members (members_in object.old) (spec.expectation_members expectation.now standing reason.now)) }
{
    object.text("expectation", expectation)?;
    object.text("verdict", mark_words(standing))?;
    put_said(object, reason)
}

fn put_said(object: &mut Object, reason: &str) -> Result<(), AllocError>
    ensures { OnOk result (members_in object.new ≡ with_members (members_in object.old) (spec.said_members reason.now)) }
{
    if reason.is_empty() {
        Ok(())
    } else {
        object.text("said", reason.trim_end())
    }
}

fn reason_text(
    alloc: Global,
    examinee: Examinee<'_>,
    expectation: &Expectation,
    judgement: &Judgement,
    marked: &Marked,
) -> Result<String, AllocError>
    ensures { IfOk result (λ t. string_bytes t ≡ text_spec.reason_text (setting_of examinee.entry) marked.now.stops expectation.now.claim judgement.now) }
{
    let mut reason = Prose::new(alloc);
    push_reason(alloc, examinee, &mut reason, expectation, judgement, marked);
    reason.finish()
}

// The schedule that settles an expectation.
fn put_shown(
    alloc: Global,
    examinee: Examinee<'_>,
    object: &mut Object,
    judgement: &Judgement,
) -> Result<(), AllocError>
    ensures { OnOk result (members_in object.new ≡ with_members (members_in object.old) (spec.shown_members (setting_of examinee.entry) judgement.now)) }
{
    match judgement {
        Judgement::Shown(row) | Judgement::Against(row) => put_row(alloc, examinee, object, row),
        Judgement::Holds | Judgement::Missing | Judgement::Unsettled => Ok(()),
    }
}

fn put_row(
    alloc: Global,
    examinee: Examinee<'_>,
    object: &mut Object,
    row: &SeenRow,
) -> Result<(), AllocError>
    ensures { OnOk result (members_in object.new ≡ with_members (members_in object.old) (spec.row_members (setting_of examinee.entry) (row_line row.now))) }
{
    object.put("first", numbers(alloc, row.schedule.as_slice())?)?;
    put_kind(object, row.outcome.kind)?;
    let output = output_words(alloc, examinee.legend, row.outcome.output.as_slice())?;
    object.text("output", output.as_str())?;
    let word = row.schedule.as_slice();
    put_end(alloc, examinee, object, word, row.outcome.kind)
}

/// Who waits where at the end of a schedule, or the text of the line of its error.
pub fn put_end(
    alloc: Global,
    examinee: Examinee<'_>,
    object: &mut Object,
    word: &[u8],
    kind: OutcomeKind,
) -> Result<(), AllocError>
    ensures { OnOk result (members_in object.new ≡ with_members (members_in object.old) (spec.end_members (setting_of examinee.entry) word.now kind)) }
{
    match kind {
        OutcomeKind::AllWaiting => put_final(alloc, examinee, object, word),
        OutcomeKind::RunError { line, .. } => object.text("text", examinee.line(line)),
        _ => Ok(()),
    }
}

// Who waits where at the end of a schedule, if that can be told.
fn put_final(
    alloc: Global,
    examinee: Examinee<'_>,
    object: &mut Object,
    word: &[u8],
) -> Result<(), AllocError>
    ensures { OnOk result (members_in object.new ≡ with_members (members_in object.old) (spec.final_members (legend_seen examinee.entry.legend.now) (text_spec.waits_in (setting_of examinee.entry) word.now))) }
{
    let all = waits_of(alloc, examinee, word)?;
    put_waits(alloc, examinee.legend, object, &all)
}

fn put_waits(
    alloc: Global,
    legend: &Legend,
    object: &mut Object,
    all: &[Wait],
) -> Result<(), AllocError>
    ensures { OnOk result (members_in object.new ≡ with_members (members_in object.old) (spec.final_members (legend_seen legend.now) (map wait_of all.now))) }
{
    if all.is_empty() {
        return Ok(());
    }
    object.put("final", waits(alloc, legend, all)?)
}
