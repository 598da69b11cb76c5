//! The outcomes of all schedules, in words or as JSON.

ghost use Rattle.std.specs.Prelude.{◌≡◌, ◌<◌, ◌≤◌, ◌++◌, IfErr, IfOk, IfSome, None, codes, length, map, option_and_then, string_bytes};
ghost use Rattle.std.specs.List.{filter, slice_get};
ghost use Rattle.cp_run.specs.Slots.{slots};
ghost use Rattle.cp_merged.specs.Code.{tally_of};
ghost use Rattle.cp_outcomes.specs.Chosen.{IsChosen, IsFirst, IsSchedule, reach_of, told_in, with_number};
ghost use Rattle.cp_outcomes.specs.Findings.{IsExcessOf, IsFoundOf};
ghost use Rattle.cp_outcomes.specs.Meant.{IsMeantFinding};
ghost use Rattle.cp_outcomes.specs.Told.{in_order, is_of, setting_of};
ghost use Rattle.cp_outcomes.specs.Written.{IsExcessJson, IsExcessText, IsJsonOf, IsTextOf, TellsOutcomes};

use crate::completing::greatest_known;
use crate::known::Known;
use crate::objects::{excess_and_known_json, excess_json, json};
use crate::simples::Simples;
use crate::subject::{Excess, Format, Subject, Summary};
use crate::texts::{excess_and_known, excess_text, text};
use crate::told::is_among;
use cp_merged::word::{Word, word_of};
use cp_merged::{MergeFault, Tallies, Tally, explore_merged_with};
use cp_progress::ObserveProgress;
use cp_walk::Job;
use std::alloc::{AllocError, Global};

/// What all schedules come to.
#[derive(Drop)]
enum Finding {
    Whole(Tallies),
    /// What there is too much of, and what is known of schedules of fewer choices.
    TooMany(Excess, Option<Known>),
}

/// The outcomes of all schedules of a program in words: their shares, counts and first schedules, and whether these are all. An observer is
/// told how far each search has come.
pub fn outcomes<O: ObserveProgress>(
    alloc: Global,
    subject: Subject<'_>,
    form: Format,
    observer: &mut O,
) -> Result<Summary, AllocError>
    ensures { IfOk result (TellsOutcomes subject.entry form) }
{
    match find_outcomes(alloc, subject, observer)? {
        Finding::Whole(tallies) => Ok(Summary {
            is_whole: true,
            text: end_line(
                form,
                write_findings(alloc, subject, form, &tallies, observer)?,
            )?,
        }),
        Finding::TooMany(excess, known) => Ok(Summary {
            is_whole: false,
            text: end_line(
                form,
                excess_written(alloc, subject, form, excess, &known, observer)?,
            )?,
        }),
    }
}

// A JSON object stands on a line of its own.
fn end_line(form: Format, written: String) -> Result<String, AllocError>
    ensures text { IfOk result (λ t. form ≡ Format.Text → string_bytes t ≡ string_bytes written) }
    ensures json { IfOk result (λ t. form ≡ Format.Json → string_bytes t ≡ string_bytes written ++ codes "\n") }
{
    let mut text = written;
    match form {
        Format::Text => Ok(text),
        Format::Json => {
            text.push_str("\n")?;
            Ok(text)
        }
    }
}

// What there is too much of, and what is known of schedules of fewer choices.
fn excess_written<O: ObserveProgress>(
    alloc: Global,
    subject: Subject<'_>,
    form: Format,
    excess: Excess,
    known: &Option<Known>,
    observer: &mut O,
) -> Result<String, AllocError>
    ensures text { IfOk result (λ t. form ≡ Format.Text → IsExcessText subject.entry excess known.now (string_bytes t)) }
    ensures json { IfOk result (λ t. form ≡ Format.Json → IsExcessJson subject.entry excess known.now (string_bytes t)) }
{
    let Some(known) = known else {
        return match form {
            Format::Text => excess_text(alloc, excess),
            Format::Json => excess_json(alloc, excess),
        };
    };
    let limits = subject.limits.with_choices(known.choices);
    let fewer = Subject { limits, ..subject };
    let told = write_findings(alloc, fewer, form, &known.tallies, observer)?;
    match form {
        Format::Text => excess_and_known(alloc, excess, known.choices, told.as_str()),
        Format::Json => excess_and_known_json(alloc, excess, known.choices, told.as_str()),
    }
}

/// Which outcomes have numbers.
#[derive(Clone, Copy)]
pub struct KnownOutcomes {
    pub count: usize,
    /// Of how many choices at most the schedules are that end so, where there is too much of something; none where these are all outcomes.
    pub choices: Option<u8>,
}

/// The first schedule of an outcome.
#[derive(Drop)]
pub enum First {
    Word(Word),
    /// There is no outcome of this number; these there are.
    None(KnownOutcomes),
    /// There are too many states to search for a simplest one.
    NotSearched,
}

/// The first schedule of the outcome with this number, counted from 1 in the order in which `outcomes` tells them.
pub fn first_of_outcome<O: ObserveProgress>(
    alloc: Global,
    job: Job,
    states: u32,
    number: usize,
    observer: &mut O,
) -> Result<First, AllocError>
    ensures { IfOk result (IsChosen job.entry number IsFirst) }
{
    let finding = findings_by_states(alloc, job, states, observer)?;
    Ok(first_found(&finding, number))
}

fn first_found(finding: &Finding, number: usize) -> First
    ensures { IsFirst (length (told_in finding.now)) (reach_of finding.now) (with_number (told_in finding.now) number) result }
{
    match finding {
        Finding::Whole(tallies) => first_among(tallies.as_slice(), number, None),
        Finding::TooMany(_, Some(known)) => {
            first_among(known.tallies.as_slice(), number, Some(known.choices))
        }
        Finding::TooMany(_, None) => First::None(KnownOutcomes {
            count: 0,
            choices: Some(0),
        }),
    }
}

// The same among the outcomes of all schedules, or of those of at most so many choices.
fn first_among(tallies: &[Tally], number: usize, choices: Option<u8>) -> First
    ensures { IsFirst (length (in_order (map tally_of tallies.now))) choices (with_number (in_order (map tally_of tallies.now)) number) result }
{
    match place_of(tallies, number) {
        Some(place) => First::Word(word_of(tallies[place].first.as_slice())),
        None => First::None(KnownOutcomes {
            count: tallies.len(),
            choices,
        }),
    }
}

// Where the outcome with a number stands: those that a limit stopped are counted last.
fn place_of(tallies: &[Tally], number: usize) -> Option<usize>
    ensures within { IfSome result (λ p. p < length tallies.now) }
    ensures is { with_number (in_order (map tally_of tallies.now)) number ≡ option_and_then (slice_get (map tally_of tallies.now)) result }
{
    let index = number.checked_sub(1)?;
    match place_among(tallies, false, index) {
        Ok(place) => Some(place),
        Err(before) => place_among(tallies, true, index - before).ok(),
    }
}

// The place of the outcome with an index among those that a limit stopped, or those that none did; or how many of them there are.
fn place_among(tallies: &[Tally], stopped: bool, index: usize) -> Result<usize, usize>
    ensures within { IfOk result (λ p. p < length tallies.now) }
    ensures is { IfOk result (λ p. slice_get (filter (is_of stopped) (map tally_of tallies.now)) index ≡ slice_get (map tally_of tallies.now) p) }
    ensures past { IfErr result (λ n. (n ≡ length (filter (is_of stopped) (map tally_of tallies.now))) × (n ≤ index)) }
{
    let mut before = 0usize;
    for (place, tally) in tallies.iter().enumerate() {
        if is_among(stopped, tally) {
            if before == index {
                return Ok(place);
            }
            before += 1;
        }
    }
    Err(before)
}

/// The simplest schedule of the outcome with this number.
pub fn simplest_of_outcome<O: ObserveProgress>(
    alloc: Global,
    job: Job,
    states: u32,
    number: usize,
    observer: &mut O,
) -> Result<First, AllocError>
    ensures { IfOk result (IsChosen job.entry number (IsSchedule job.entry)) }
{
    let finding = findings_by_states(alloc, job, states, observer)?;
    match &finding {
        Finding::Whole(tallies) => simplest_among(alloc, job, states, tallies, number, observer),
        Finding::TooMany(..) => Ok(First::NotSearched),
    }
}

fn simplest_among<O: ObserveProgress>(
    alloc: Global,
    job: Job,
    states: u32,
    tallies: &Tallies,
    number: usize,
    observer: &mut O,
) -> Result<First, AllocError>
    ensures { IfOk result (IsSchedule job.entry (length (in_order (map tally_of tallies.now))) None (with_number (in_order (map tally_of tallies.now)) number)) }
{
    let Some(place) = place_of(tallies.as_slice(), number) else {
        return Ok(First::None(KnownOutcomes {
            count: tallies.as_slice().len(),
            choices: None,
        }));
    };
    let simples = Simples::of(alloc, job, states, tallies, observer)?;
    let tally = &tallies.as_slice()[place];
    match simples.at(alloc, job, place, tally)? {
        Some(simple) => Ok(First::Word(word_of(simple.word.as_slice()))),
        None => Ok(First::NotSearched),
    }
}

fn write_findings<O: ObserveProgress>(
    alloc: Global,
    subject: Subject<'_>,
    form: Format,
    tallies: &Tallies,
    observer: &mut O,
) -> Result<String, AllocError>
    ensures text { IfOk result (λ t. form ≡ Format.Text → IsTextOf (setting_of subject.entry subject.entry.limits.choices) (map tally_of tallies.now) (string_bytes t)) }
    ensures json { IfOk result (λ t. form ≡ Format.Json → IsJsonOf (setting_of subject.entry subject.entry.limits.choices) (map tally_of tallies.now) (string_bytes t)) }
{
    let job = Job {
        program: subject.program,
        limits: subject.limits,
    };
    let simples = Simples::of(alloc, job, subject.states, tallies, observer)?;
    match form {
        Format::Text => text(alloc, subject, tallies, &simples),
        Format::Json => json(alloc, subject, tallies, &simples),
    }
}

// The outcomes, or what there is too much of.
fn find_outcomes<O: ObserveProgress>(
    alloc: Global,
    subject: Subject<'_>,
    observer: &mut O,
) -> Result<Finding, AllocError>
    ensures found { IfOk result (λ f. IsFoundOf (slots subject.entry.program.now subject.entry.limits.discipline) subject.entry.limits.choices subject.entry.limits.steps f) }
    ensures meaning { IfOk result (λ f. IsMeantFinding subject.entry.program.now subject.entry.limits.discipline subject.entry.limits.choices subject.entry.limits.steps f) }
{
    let job = Job {
        program: subject.program,
        limits: subject.limits,
    };
    findings_by_states(alloc, job, subject.states, observer)
}

fn findings_by_states<O: ObserveProgress>(
    alloc: Global,
    job: Job,
    most: u32,
    observer: &mut O,
) -> Result<Finding, AllocError>
    ensures { IfOk result (λ f. IsFoundOf (slots job.entry.program.now job.entry.limits.discipline) job.entry.limits.choices job.entry.limits.steps f) }
{
    match explore_merged_with(alloc, job, most as usize, observer) {
        Ok(tallies) => Ok(Finding::Whole(tallies)),
        Err(MergeFault::TooManyStates) => {
            findings_of_too_many(alloc, job, most, Excess::States(most), observer)
        }
        Err(MergeFault::TooManyOutcomes) => {
            findings_of_too_many(alloc, job, most, Excess::Outcomes, observer)
        }
        Err(MergeFault::Memory) => Err(AllocError),
    }
}

// What there is too much of, and what is known then.
fn findings_of_too_many<O: ObserveProgress>(
    alloc: Global,
    job: Job,
    most: u32,
    excess: Excess,
    observer: &mut O,
) -> Result<Finding, AllocError>
    requires { IsExcessOf (slots job.program.now job.limits.discipline) job.limits.choices job.limits.steps excess }
    ensures { IfOk result (λ f. IsFoundOf (slots job.entry.program.now job.entry.limits.discipline) job.entry.limits.choices job.entry.limits.steps f) }
{
    let known = greatest_known(alloc, job, most, observer)?;
    Ok(Finding::TooMany(excess, known))
}
