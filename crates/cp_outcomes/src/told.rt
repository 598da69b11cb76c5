//! What is told of each outcome.

ghost use Rattle.std.specs.Prelude.{◌≡◌, ◌-◌, ◌++◌, [], ◌∷◌, IfOk, map, option_map, string_bytes, slice_index_or};
ghost use Rattle.std.specs.List.{filter, AllByRecursion};
ghost use Rattle.std.specs.Option.{option_to_list};
ghost use Rattle.cp_legend.specs.Names.{legend_seen};
ghost use Rattle.cp_merged.specs.Code.{tally_of};
ghost use Rattle.cp_story.specs.AnnotationText.{detail_line};
ghost use Rattle.cp_story.specs.Annotations.{violation_seen};
ghost use Rattle.cp_story.specs.ReasonText.{reason_text};
ghost use Rattle.cp_story.specs.Reasons.{reason_seen};
ghost use Rattle.cp_story.specs.Sentences.{wait_text};
ghost use Rattle.cp_story.specs.Views.{wait_of};
ghost use Rattle.cp_outcomes.specs.Told as spec;
ghost use Rattle.cp_outcomes.specs.Told.{AreTold, IsTold, is_of, setting_of, told_of};

use crate::simples::Simples;
use crate::stopped::is_stopped;
use crate::subject::Subject;
use cp_legend::Legend;
use cp_machine::{ErrorName, Uncounted};
use cp_merged::Tally;
use cp_run::OutcomeKind;
use cp_simplest::SimplestSchedule;
use cp_story::{
    Story, Wait, WaitReason, detail_line, reason_text as reason_words, tell, wait_words,
};
use cp_walk::Job;
use std::alloc::{AllocError, Global};

/// An outcome as it is told: with its simplest schedule, if one is told.
#[derive(Drop)]
pub struct ToldOutcome<'a> {
    pub tally: &'a Tally,
    pub simple: Option<&'a SimplestSchedule>,
}

/// The outcomes in the order in which they are told: first those of runs that ended, then those of runs that a limit stopped.
pub fn tell_outcomes<'a>(
    alloc: Global,
    subject: Subject<'_>,
    tallies: &'a [Tally],
    simples: &'a Simples,
) -> Result<Vec<ToldOutcome<'a>>, AllocError>
    ensures { IfOk result (λ v. AreTold (setting_of subject.entry subject.entry.limits.choices) (map tally_of tallies.now) (map told_of v.items)) }
{
    let mut told = Vec::new(alloc);
    push_told(alloc, subject, &mut told, tallies, simples, false)?;
    push_told(alloc, subject, &mut told, tallies, simples, true)?;
    Ok(told)
}

// Those that a limit stopped, or those that none did.
fn push_told<'a>(
    alloc: Global,
    subject: Subject<'_>,
    told: &mut Vec<ToldOutcome<'a>>,
    tallies: &'a [Tally],
    simples: &'a Simples,
    stopped: bool,
) -> Result<(), AllocError>
    ensures order { IfOk result (λ _. map (λ o. tally_of o.tally.now) told.new.items ≡ map (λ o. tally_of o.tally.now) told.old.items ++ filter (is_of stopped) (map tally_of tallies.now)) }
    ensures each { IfOk result (λ _. AllByRecursion (λ o. IsTold (setting_of subject.entry subject.entry.limits.choices) (told_of o)) told.old.items → AllByRecursion (λ o. IsTold (setting_of subject.entry subject.entry.limits.choices) (told_of o)) told.new.items) }
{
    for (place, tally) in tallies.iter().enumerate() {
        if is_among(stopped, tally) {
            told.push(tell_outcome(alloc, subject, simples, place, tally)?)?;
        }
    }
    Ok(())
}

/// Whether an outcome is one of those that a limit stopped, or of the others.
pub fn is_among(stopped: bool, tally: &Tally) -> bool
    ensures { result ≡ is_of stopped (tally_of tally.now) }
{
    is_stopped(tally.outcome.kind) == stopped
}

// The outcome at a place.
fn tell_outcome<'a>(
    alloc: Global,
    subject: Subject<'_>,
    simples: &'a Simples,
    place: usize,
    tally: &'a Tally,
) -> Result<ToldOutcome<'a>, AllocError>
    ensures tally { IfOk result (λ o. o.tally ≡ tally.entry) }
    ensures so { IfOk result (λ o. IsTold (setting_of subject.entry subject.entry.limits.choices) (told_of o)) }
{
    let job = Job {
        program: subject.program,
        limits: subject.limits,
    };
    let simple = simples.at(alloc, job, place, tally)?;
    Ok(ToldOutcome { tally, simple })
}

/// Who waits where at the end of an outcome's first schedule and why, or the line of a run error.
pub fn end_lines(
    alloc: Global,
    subject: Subject<'_>,
    tally: &Tally,
) -> Result<Vec<String>, AllocError>
    ensures { IfOk result (λ lines. map string_bytes lines.items ≡ spec.end_lines (setting_of subject.entry subject.entry.limits.choices) (tally_of tally.now)) }
{
    match tally.outcome.kind {
        OutcomeKind::AllWaiting => {
            let story = story_of(alloc, subject, tally.first.as_slice())?;
            standstill_lines(alloc, subject.legend, &story)
        }
        OutcomeKind::RunError {
            name,
            process,
            line,
        } => {
            let place = error_line(alloc, subject, process, line)?;
            let detail = detail_of(alloc, subject, name, tally.first.as_slice())?;
            error_lines(alloc, place, detail)
        }
        _ => Ok(Vec::new(alloc)),
    }
}

// The line of an error, and what it is of if that is known.
fn error_lines(
    alloc: Global,
    place: String,
    detail: Option<String>,
) -> Result<Vec<String>, AllocError>
    ensures { IfOk result (λ lines. map string_bytes lines.items ≡ string_bytes place ∷ option_to_list (option_map string_bytes detail)) }
{
    let mut lines = Vec::new(alloc);
    lines.push(place)?;
    if let Some(detail) = detail {
        lines.push(detail)?;
    }
    Ok(lines)
}

// Who waits where, and why those who wait in queues are not woken.
fn standstill_lines(
    alloc: Global,
    legend: &Legend,
    story: &Story,
) -> Result<Vec<String>, AllocError>
    ensures { IfOk result (λ lines. map string_bytes lines.items ≡ map (wait_text (legend_seen legend.now)) (map wait_of story.now.waits.items) ++ map (reason_text (legend_seen legend.now)) (map reason_seen story.now.reasons.items)) }
{
    let mut lines = wait_lines(alloc, legend, &story.waits)?;
    push_reason_lines(alloc, legend, &mut lines, &story.reasons)?;
    Ok(lines)
}

#[tactic(auto, using(crate::proofs::Gathering::left_step, crate::proofs::Gathering::left_none, crate::proofs::Gathering::line_more))]
fn push_reason_lines(
    alloc: Global,
    legend: &Legend,
    lines: &mut Vec<String>,
    reasons: &[WaitReason],
) -> Result<(), AllocError>
    ensures { IfOk result (λ _. map string_bytes lines.new.items ≡ map string_bytes lines.old.items ++ map (reason_text (legend_seen legend.now)) (map reason_seen reasons.now)) }
{
    for reason in reasons {
        lines.push(reason_words(alloc, legend, reason)?)?;
    }
    Ok(())
}

fn wait_lines(alloc: Global, legend: &Legend, waits: &[Wait]) -> Result<Vec<String>, AllocError>
    ensures { IfOk result (λ lines. map string_bytes lines.items ≡ map (wait_text (legend_seen legend.now)) (map wait_of waits.now)) }
{
    let mut lines = Vec::new(alloc);
    for wait in waits {
        lines.push(wait_words(alloc, legend, wait)?)?;
    }
    Ok(lines)
}

// What the error of a schedule is of, on a line of its own.
fn detail_of(
    alloc: Global,
    subject: Subject<'_>,
    name: ErrorName,
    word: &[u8],
) -> Result<Option<String>, AllocError>
    ensures { IfOk result (λ line. option_map string_bytes line ≡ detail_line (legend_seen subject.entry.legend.now) name (spec.cause_after (setting_of subject.entry subject.entry.limits.choices) word.now) (spec.violation_after (setting_of subject.entry subject.entry.limits.choices) word.now)) }
{
    let story = story_of(alloc, subject, word)?;
    detail_line(alloc, subject.legend, name, story.cause, &story.violation)
}

/// What is told of a schedule.
pub fn story_of(alloc: Global, subject: Subject<'_>, word: &[u8]) -> Result<Story, AllocError>
    ensures waits { IfOk result (λ s. map wait_of s.waits.items ≡ spec.waits_after (setting_of subject.entry subject.entry.limits.choices) word.now) }
    ensures reasons { IfOk result (λ s. map reason_seen s.reasons.items ≡ spec.reasons_after (setting_of subject.entry subject.entry.limits.choices) word.now) }
    ensures cause { IfOk result (λ s. s.cause ≡ spec.cause_after (setting_of subject.entry subject.entry.limits.choices) word.now) }
    ensures violation { IfOk result (λ s. option_map violation_seen s.violation ≡ spec.violation_after (setting_of subject.entry subject.entry.limits.choices) word.now) }
{
    let Subject {
        program,
        legend,
        limits,
        ..
    } = subject;
    tell(
        alloc,
        &Job { program, limits },
        limits.choices as usize,
        legend,
        word,
        &mut Uncounted,
    )
}

// The process that was in error, and the text of the line at which it was.
fn error_line(
    alloc: Global,
    subject: Subject<'_>,
    process: u8,
    line: u32,
) -> Result<String, AllocError>
    ensures { IfOk result (λ text. string_bytes text ≡ spec.error_text (setting_of subject.entry subject.entry.limits.choices) process line) }
{
    let name = subject.legend.process_name(process);
    let there = line_of(subject.source, line);
    format!(in alloc; "{process} {name} at line {line}: {there}")
}

/// The text of a line, counted from 1, without the spaces around it.
pub fn line_of(source: &[String], line: u32) -> &str
    ensures { result.now ≡ spec.source_line (map string_bytes source.now) line }
{
    text_at(source, (line as usize).saturating_sub(1)).trim_ascii()
}

fn text_at(source: &[String], place: usize) -> &str
    ensures { result.now ≡ slice_index_or (map string_bytes source.now) place [] }
{
    match source.get(place) {
        Some(text) => text.as_str(),
        None => "",
    }
}
