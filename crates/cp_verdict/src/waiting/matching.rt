//! Whether those who wait at an end are the ones that an expectation names.

ghost use Rattle.std.specs.Prelude.{◌≡◌, IfOk, string_bytes};
ghost use Rattle.std.specs.List.{list_all};
ghost use Rattle.cp_verdict.specs.endless.Naming.{processes_of};
ghost use Rattle.cp_verdict.specs.waiting.Matching as spec;

use crate::endless::process::is_called;
use crate::matching::{self, has_output, is_limit};
use cp_expectation::{Claim, EndPattern, Expectation, Topic, WhoPattern};
use cp_legend::Legend;
use cp_run::{Outcome, OutcomeKind};
use cp_slots::Resolved;
use std::alloc::{AllocError, Global};

// Whether one of these processes is called so.
fn has_one(legend: &Legend, name: &str, who: &[u8]) -> bool
    ensures { result ≡ spec.has_one (processes_of legend.now) name.now who.now }
{
    who.iter().any(|process| is_called(legend, name, *process))
}

// Whether somebody of each name is among these processes.
fn has_each(legend: &Legend, names: &[String], who: &[u8]) -> bool
    ensures { result ≡ list_all (λ name. spec.has_one (processes_of legend.now) (string_bytes name) who.now) names.now }
{
    names.iter().all(|name| has_one(legend, name.as_str(), who))
}

// Whether a process is called by one of the names.
fn is_named(legend: &Legend, names: &[String], process: u8) -> bool
    ensures { result ≡ spec.is_named (processes_of legend.now) names.now process }
{
    names
        .iter()
        .any(|name| is_called(legend, name.as_str(), process))
}

// Whether each of these processes is.
fn are_named(legend: &Legend, names: &[String], who: &[u8]) -> bool
    ensures { result ≡ list_all (spec.is_named (processes_of legend.now) names.now) who.now }
{
    who.iter().all(|process| is_named(legend, names, *process))
}

/// Whether those who wait are such: somebody of each name, and nobody else, unless others may.
pub fn are_meant(legend: &Legend, pattern: &WhoPattern, who: &[u8]) -> bool
    ensures { result ≡ spec.are_meant (processes_of legend.now) pattern.now who.now }
{
    let names = pattern.processes.as_slice();
    has_each(legend, names, who) && (pattern.others || are_named(legend, names, who))
}

// Whether a topic speaks of an outcome at whose end these processes wait.
fn fits(
    alloc: Global,
    program: &Resolved,
    legend: &Legend,
    topic: &Topic,
    who: &[u8],
    outcome: &Outcome,
) -> Result<bool, AllocError>
    ensures { IfOk result (λ b. b ≡ spec.fits program.now.names (processes_of legend.now) who.now outcome.now topic.now) }
{
    let Topic::End {
        end: EndPattern::AllWaiting(Some(pattern)),
        output,
    } = topic
    else {
        return matching::fits(alloc, program, topic, outcome);
    };
    if !is_waiting(outcome) || !are_meant(legend, pattern, who) {
        return Ok(false);
    }
    match output {
        Some(output) => has_output(alloc, program, output, outcome.output.as_slice()),
        None => Ok(true),
    }
}

/// Whether all wait at an end with this outcome.
pub fn is_waiting(outcome: &Outcome) -> bool
    ensures { result ≡ spec.is_waiting outcome.now }
{
    matches!(outcome.kind, OutcomeKind::AllWaiting)
}

fn is_one_of(
    alloc: Global,
    program: &Resolved,
    legend: &Legend,
    topics: &[Topic],
    who: &[u8],
    outcome: &Outcome,
) -> Result<bool, AllocError>
    ensures { IfOk result (λ b. b ≡ spec.is_one_of program.now.names (processes_of legend.now) topics.now who.now outcome.now) }
{
    for topic in topics {
        if fits(alloc, program, legend, topic, who, outcome)? {
            return Ok(true);
        }
    }
    Ok(false)
}

/// Whether one schedule with this outcome, at whose end these processes wait, settles an expectation.
pub fn settles(
    alloc: Global,
    program: &Resolved,
    legend: &Legend,
    expectation: &Expectation,
    who: &[u8],
    outcome: &Outcome,
) -> Result<bool, AllocError>
    ensures { IfOk result (λ b. b ≡ spec.settles program.now.names (processes_of legend.now) expectation.now who.now outcome.now) }
{
    let topics = expectation.topics.as_slice();
    let is_named = is_one_of(alloc, program, legend, topics, who, outcome)?;
    match expectation.claim {
        Claim::Only => Ok(!is_named && !is_limit(outcome.kind)),
        _ => Ok(is_named),
    }
}
