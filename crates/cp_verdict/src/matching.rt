//! Whether an outcome is one of those that an expectation names.

ghost use Rattle.std.specs.Prelude.{◌≡◌, IfOk, map, string_bytes};
ghost use Rattle.cp_verdict.specs.Expectations as spec;
ghost use Rattle.cp_verdict.specs.Outputs as outputs;

use crate::output::reads_as;
use cp_expectation::{Claim, EndPattern, Expectation, OutputPattern, Topic};
use cp_machine::{ErrorName, Shown};
use cp_run::{Outcome, OutcomeKind};
use cp_slots::Resolved;
use cp_walk::text::push_output;
use std::alloc::{AllocError, Global};

fn is_same_error(wanted: ErrorName, name: ErrorName) -> bool
    ensures { result ≡ spec.is_same_error wanted name }
{
    wanted == name
}

/// Whether a kind of outcomes is such an end. Who waits is not asked.
pub fn is_of_kind(pattern: &EndPattern, kind: OutcomeKind) -> bool
    ensures { result ≡ spec.is_of_kind pattern.now kind }
{
    match (pattern, kind) {
        (EndPattern::Finished, OutcomeKind::Finished) => true,
        (EndPattern::AllWaiting(None), OutcomeKind::AllWaiting) => true,
        (EndPattern::AnyError, OutcomeKind::RunError { .. }) => true,
        (EndPattern::Error(wanted), OutcomeKind::RunError { name, .. }) => {
            is_same_error(*wanted, name)
        }
        _ => false,
    }
}

/// Whether a run of this kind was stopped by a limit.
pub fn is_limit(kind: OutcomeKind) -> bool
    ensures { result ≡ spec.is_limit kind }
{
    match kind {
        OutcomeKind::ChoiceLimit => true,
        OutcomeKind::StepLimit => true,
        OutcomeKind::OutputLimit => true,
        _ => false,
    }
}

/// A value as a report prints it.
pub fn text_of(alloc: Global, program: &Resolved, value: Shown) -> Result<String, AllocError>
    ensures { IfOk result (λ s. string_bytes s ≡ outputs.value_text program.now.names value) }
{
    let mut text = String::new(alloc);
    push_output(&mut text, program, [value].as_slice())?;
    Ok(text)
}

/// The values as a report prints them.
fn texts_of(alloc: Global, program: &Resolved, values: &[Shown]) -> Result<Vec<String>, AllocError>
    ensures { IfOk result (λ v. map string_bytes v.items ≡ map (outputs.value_text program.now.names) values.now) }
{
    let mut texts = Vec::new(alloc);
    for value in values {
        let text = text_of(alloc, program, *value)?;
        texts.push(text)?;
    }
    Ok(texts)
}

/// Whether values are such an output.
pub fn has_output(
    alloc: Global,
    program: &Resolved,
    pattern: &OutputPattern,
    values: &[Shown],
) -> Result<bool, AllocError>
    ensures { IfOk result (λ b. b ≡ outputs.reads_as pattern.now.items.items (map (outputs.value_text program.now.names) values.now)) }
{
    let texts = texts_of(alloc, program, values)?;
    reads_as(alloc, pattern.items.as_slice(), texts.as_slice())
}

/// Whether one of the values is printed so.
fn shows(
    alloc: Global,
    program: &Resolved,
    text: &str,
    values: &[Shown],
) -> Result<bool, AllocError>
    ensures { IfOk result (λ b. b ≡ spec.shows program.now.names text.now values.now) }
{
    for value in values {
        let printed = text_of(alloc, program, *value)?;
        if printed.as_bytes() == text.as_bytes() {
            return Ok(true);
        }
    }
    Ok(false)
}

/// Whether a topic speaks of an outcome. Waiting for ever is of no schedule within limits.
pub fn fits(
    alloc: Global,
    program: &Resolved,
    topic: &Topic,
    outcome: &Outcome,
) -> Result<bool, AllocError>
    ensures { IfOk result (λ b. b ≡ spec.fits program.now.names outcome.now topic.now) }
{
    match topic {
        Topic::End { end, output } => {
            if !is_of_kind(end, outcome.kind) {
                return Ok(false);
            }
            match output {
                Some(output) => has_output(alloc, program, output, outcome.output.as_slice()),
                None => Ok(true),
            }
        }
        Topic::Shown(text) => shows(alloc, program, text.as_str(), outcome.output.as_slice()),
        Topic::Waiting(_) => Ok(false),
    }
}

/// Whether one of the topics speaks of an outcome.
fn is_one_of(
    alloc: Global,
    program: &Resolved,
    topics: &[Topic],
    outcome: &Outcome,
) -> Result<bool, AllocError>
    ensures { IfOk result (λ b. b ≡ spec.is_one_of program.now.names topics.now outcome.now) }
{
    for topic in topics {
        if fits(alloc, program, topic, outcome)? {
            return Ok(true);
        }
    }
    Ok(false)
}

/// Whether a schedule with this outcome was stopped by a limit, and what it would come to might settle an expectation.
pub fn is_open(
    alloc: Global,
    program: &Resolved,
    expectation: &Expectation,
    outcome: &Outcome,
) -> Result<bool, AllocError>
    ensures { IfOk result (λ b. b ≡ spec.is_open program.now.names expectation.now outcome.now) }
{
    if !is_limit(outcome.kind) {
        return Ok(false);
    }
    match expectation.claim {
        Claim::Only => {
            let is_named = is_one_of(alloc, program, expectation.topics.as_slice(), outcome)?;
            Ok(!is_named)
        }
        _ => Ok(true),
    }
}
