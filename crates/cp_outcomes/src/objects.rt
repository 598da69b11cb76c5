//! Outcomes as JSON.

ghost use Rattle.std.specs.Prelude.{◌≡◌, ◌<◌, ◌^◌, ◌++◌, ◌==◌, ◌∷◌, [], if◌then◌else◌, IfOk, OnOk, codes, map, option_copied, string_bytes};
ghost use Rattle.serde_json.specs.View.{view};
ghost use Rattle.serde_json.specs.Written.{compact_text};
ghost use Rattle.cp_legend.specs.Names.{legend_seen};
ghost use Rattle.cp_merged.specs.Code.{tally_of};
ghost use Rattle.cp_merged.specs.Told.{rows_in};
ghost use Rattle.cp_story.specs.Objects.{array_of, members_in, with_members};
ghost use Rattle.cp_outcomes.specs.Data as spec;
ghost use Rattle.cp_outcomes.specs.Stops.{rows_at};
ghost use Rattle.cp_outcomes.specs.Told.{setting_of, told_of};
ghost use Rattle.cp_outcomes.specs.Written.{IsJsonOf};

use crate::share::share_of;
use crate::simples::Simples;
use crate::stopped::{Limit, schedules_in, schedules_stopped_at};
use crate::subject::{Excess, Subject};
use crate::told::{ToldOutcome, line_of, story_of, tell_outcomes};
use cp_legend::Legend;
use cp_merged::{Tallies, Tally};
use cp_natural::{Natural, push_natural};
use cp_run::OutcomeKind;
use cp_simplest::SimplestSchedule;
use cp_story::objects::{Object, monitors, numbers, processes, put_kind, put_signals, waits};
use cp_story::{output_words, put_error_cause, put_reasons, put_violation};
use cp_walk::text::push_count;
use serde_json::Value;
use std::alloc::{AllocError, Global};

/// The outcomes as one JSON object: processes, monitors, the number of schedules, the outcomes, how many schedules ended at which limit, and
/// who goes on after a `continue`, where that is not by the book.
pub fn json(
    alloc: Global,
    subject: Subject<'_>,
    tallies: &Tallies,
    simples: &Simples,
) -> Result<String, AllocError>
    ensures { IfOk result (λ t. IsJsonOf (setting_of subject.entry subject.entry.limits.choices) (map tally_of tallies.now) (string_bytes t)) }
{
    let all = tallies.as_slice();
    let told = tell_outcomes(alloc, subject, all, simples)?;
    outcomes_json(alloc, subject, all, &told)
}

// These outcomes, told so.
fn outcomes_json(
    alloc: Global,
    subject: Subject<'_>,
    tallies: &[Tally],
    told: &[ToldOutcome<'_>],
) -> Result<String, AllocError>
    requires { rows_in (map tally_of tallies.now) < 10 ^ 126 }
    ensures { IfOk result (λ t. string_bytes t ≡ compact_text (spec.outcomes_data (setting_of subject.entry subject.entry.limits.choices) (map tally_of tallies.now) (map told_of told.now))) }
{
    let whole = schedules_in(tallies);
    let mut object = Object::new(alloc);
    object.put("processes", processes(alloc, subject.legend)?)?;
    object.put("monitors", monitors(alloc, subject.legend)?)?;
    object.put("schedules", count_value(alloc, &whole)?)?;
    object.put("outcomes", told_values(alloc, subject, &whole, told)?)?;
    put_limits(alloc, &mut object, tallies)?;
    put_signals(&mut object, subject.limits.discipline.signals)?;
    object.into_value().to_string(alloc)
}

// Whether no schedule was stopped by a limit, or how many by which.
fn put_limits(alloc: Global, object: &mut Object, tallies: &[Tally]) -> Result<(), AllocError>
    requires { rows_in (map tally_of tallies.now) < 10 ^ 126 }
    ensures { OnOk result (members_in object.new ≡ with_members (members_in object.old) (spec.limit_members (map tally_of tallies.now))) }
{
    let stops = stops(alloc, tallies)?;
    object.put("complete", Value::Bool(stops.is_empty()))?;
    object.put("limits", Value::Array(stops))
}

// A count as a number, or as its digits where it has more than 64 bits.
#[tactic(auto, unfolding(crate::specs::Data::count_data))]
fn count_value(alloc: Global, count: &Natural) -> Result<Value, AllocError>
    ensures { IfOk result (λ v. view v ≡ spec.count_data count.now) }
{
    if let Some(number) = count.to_u64() {
        return Ok(Value::from(number));
    }
    let mut digits = String::new(alloc);
    push_natural(&mut digits, count)?;
    Value::try_from_str(alloc, digits.as_str())
}

// The outcomes, with their numbers.
fn told_values(
    alloc: Global,
    subject: Subject<'_>,
    whole: &Natural,
    told: &[ToldOutcome<'_>],
) -> Result<Value, AllocError>
    requires { whole.now < 10 ^ 126 }
    ensures { IfOk result (λ v. view v ≡ array_of (spec.numbered_data (setting_of subject.entry subject.entry.limits.choices) whole.now 1 (map told_of told.now))) }
{
    let mut items = Vec::new(alloc);
    for (index, outcome) in told.iter().enumerate() {
        items.push(told_value(alloc, subject, whole, index + 1, outcome)?)?;
    }
    Ok(Value::Array(items))
}

// An outcome: its number, its share, its schedules, and its end.
fn told_value(
    alloc: Global,
    subject: Subject<'_>,
    whole: &Natural,
    number: usize,
    told: &ToldOutcome<'_>,
) -> Result<Value, AllocError>
    requires { whole.now < 10 ^ 126 }
    ensures { IfOk result (λ v. view v ≡ spec.told_data (setting_of subject.entry subject.entry.limits.choices) whole.now number (told_of told.now)) }
{
    let tally = told.tally;
    let mut object = Object::new(alloc);
    object.number("number", number as u64)?;
    put_count(alloc, &mut object, &tally.count, whole)?;
    put_outcome(alloc, subject.legend, &mut object, tally)?;
    put_simple(alloc, &mut object, told.simple)?;
    put_end(alloc, subject, &mut object, tally)?;
    Ok(object.into_value())
}

fn put_count(
    alloc: Global,
    object: &mut Object,
    count: &Natural,
    whole: &Natural,
) -> Result<(), AllocError>
    requires { whole.now < 10 ^ 126 }
    ensures { OnOk result (members_in object.new ≡ with_members (members_in object.old) (spec.count_members count.now whole.now)) }
{
    let mut share = String::new(alloc);
    share_of(count, whole).push_to(&mut share)?;
    object.text("share", share.as_str())?;
    object.put("count", count_value(alloc, count)?)
}

fn put_outcome(
    alloc: Global,
    legend: &Legend,
    object: &mut Object,
    tally: &Tally,
) -> Result<(), AllocError>
    ensures { OnOk result (members_in object.new ≡ with_members (members_in object.old) (spec.outcome_members (legend_seen legend.now) (tally_of tally.now).first)) }
{
    put_kind(object, tally.outcome.kind)?;
    let output = output_words(alloc, legend, tally.outcome.output.as_slice())?;
    object.text("output", output.as_str())?;
    object.put("first", numbers(alloc, tally.first.as_slice())?)
}

// The simplest schedule, if there is one.
fn put_simple(
    alloc: Global,
    object: &mut Object,
    simple: Option<&SimplestSchedule>,
) -> Result<(), AllocError>
    ensures { OnOk result (members_in object.new ≡ with_members (members_in object.old) (spec.simple_members (option_copied simple.entry))) }
{
    match simple {
        Some(simple) => {
            object.put("simplest", numbers(alloc, simple.word.as_slice())?)?;
            object.number("switches", u64::from(simple.switches))
        }
        None => Ok(()),
    }
}

// Who waits where at the end and why, or the line of a run error and what it is of.
fn put_end(
    alloc: Global,
    subject: Subject<'_>,
    object: &mut Object,
    tally: &Tally,
) -> Result<(), AllocError>
    ensures { OnOk result (members_in object.new ≡ with_members (members_in object.old) (spec.end_members (setting_of subject.entry subject.entry.limits.choices) tally.now.first.items tally.now.outcome.kind)) }
{
    match tally.outcome.kind {
        OutcomeKind::AllWaiting => {
            let standstill = story_of(alloc, subject, tally.first.as_slice())?;
            object.put("final", waits(alloc, subject.legend, &standstill.waits)?)?;
            put_reasons(alloc, subject.legend, object, &standstill.reasons)
        }
        OutcomeKind::RunError { line, .. } => {
            object.text("text", line_of(subject.source, line))?;
            let story = story_of(alloc, subject, tally.first.as_slice())?;
            put_error_cause(alloc, subject.legend, object, story.cause)?;
            put_violation(alloc, subject.legend, object, &story.violation)
        }
        _ => Ok(()),
    }
}

// The limits at which schedules ended, and how many did.
fn stops(alloc: Global, tallies: &[Tally]) -> Result<Vec<Value>, AllocError>
    requires { rows_in (map tally_of tallies.now) < 10 ^ 126 }
    ensures { IfOk result (λ v. map view v.items ≡ spec.stops_data (map tally_of tallies.now)) }
{
    let mut items = Vec::new(alloc);
    push_stop(alloc, &mut items, tallies, Limit::Choices)?;
    push_stop(alloc, &mut items, tallies, Limit::Steps)?;
    push_stop(alloc, &mut items, tallies, Limit::Output)?;
    Ok(items)
}

// Appends how many schedules ended at a limit, if any did.
fn push_stop(
    alloc: Global,
    items: &mut Vec<Value>,
    tallies: &[Tally],
    limit: Limit,
) -> Result<(), AllocError>
    requires { rows_in (map tally_of tallies.now) < 10 ^ 126 }
    ensures { IfOk result (λ _. map view items.new.items ≡ map view items.old.items ++ (if rows_at limit (map tally_of tallies.now) == 0 then [] else spec.stop_data (rows_at limit (map tally_of tallies.now)) limit ∷ [])) }
{
    let count = schedules_stopped_at(limit, tallies);
    if count.is_zero() {
        return Ok(());
    }
    items.push(stop_value(alloc, limit, &count)?)?;
    Ok(())
}

fn stop_value(alloc: Global, limit: Limit, count: &Natural) -> Result<Value, AllocError>
    ensures { IfOk result (λ v. view v ≡ spec.stop_data count.now limit) }
{
    let mut object = Object::new(alloc);
    object.text("kind", limit.name())?;
    object.put("count", count_value(alloc, count)?)?;
    Ok(object.into_value())
}

/// What there is too much of.
pub fn excess_json(alloc: Global, excess: Excess) -> Result<String, AllocError>
    ensures { IfOk result (λ t. string_bytes t ≡ spec.excess_json excess) }
{
    let mut text = String::new(alloc);
    text.push_str("{")?;
    push_excess(&mut text, excess)?;
    text.push_str("}")?;
    Ok(text)
}

/// The same, and what is told of all schedules of a smaller number of choices.
pub fn excess_and_known_json(
    alloc: Global,
    excess: Excess,
    choices: u8,
    told: &str,
) -> Result<String, AllocError>
    ensures { IfOk result (λ t. string_bytes t ≡ spec.known_json excess choices told.now) }
{
    let mut text = String::new(alloc);
    text.push_str("{\"choices\":")?;
    push_count(&mut text, choices as usize)?;
    text.push_str(",")?;
    push_excess(&mut text, excess)?;
    push_known(&mut text, told)?;
    Ok(text)
}

// The members that say what there is too much of.
fn push_excess(text: &mut String, excess: Excess) -> Result<(), AllocError>
    ensures { IfOk result (λ _. string_bytes text.new ≡ string_bytes text.old ++ spec.excess_members excess) }
{
    match excess {
        Excess::States(most) => {
            text.push_str("\"states\":")?;
            push_count(text, most as usize)?;
            text.push_str(",\"too_many\":\"states\"")
        }
        Excess::Outcomes => text.push_str("\"too_many\":\"outcomes\""),
    }
}

// The last member, and the end of the object.
fn push_known(text: &mut String, told: &str) -> Result<(), AllocError>
    ensures { IfOk result (λ _. string_bytes text.new ≡ string_bytes text.old ++ (codes ",\"known\":" ++ told.now ++ codes "}")) }
{
    text.push_str(",\"known\":")?;
    text.push_str(told)?;
    text.push_str("}")
}
