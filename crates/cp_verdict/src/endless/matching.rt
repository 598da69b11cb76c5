//! Which ends, values and processes an expectation speaks of.

ghost use Rattle.std.specs.Prelude.{◌≡◌};
ghost use Rattle.cp_ends.specs.declared.end.End.TheVariants.{Alone, Spins};
ghost use Rattle.cp_verdict.specs.endless.Expectations as spec;
ghost use Rattle.cp_verdict.specs.endless.Naming.{processes_of};
ghost use Rattle.cp_verdict.specs.waiting.Ends as who_spec;

use crate::endless::process::is_meant;
use crate::matching::is_of_kind;
use crate::waiting::matching::are_meant;
use cp_ends::End;
use cp_expectation::{Claim, EndPattern, Expectation, Topic};
use cp_legend::Legend;
use cp_run::OutcomeKind;

fn is_of(legend: &Legend, pattern: &EndPattern, end: End) -> bool
    ensures { result ≡ spec.is_of (processes_of legend.now) pattern.now end }
{
    match end {
        End::Over(kind) => is_of_kind(pattern, kind),
        End::Alone(process) => names_alone(legend, pattern, process),
        End::Spins(process) => names_spinning(legend, pattern, process),
    }
}

// Whether a pattern speaks of this process that goes on alone.
fn names_alone(legend: &Legend, pattern: &EndPattern, process: u8) -> bool
    ensures { result ≡ spec.is_of (processes_of legend.now) pattern.now (Alone process) }
{
    match pattern {
        EndPattern::Alone(name) => is_meant(legend, name, process),
        _ => false,
    }
}

// The same of one that goes on without a call.
fn names_spinning(legend: &Legend, pattern: &EndPattern, process: u8) -> bool
    ensures { result ≡ spec.is_of (processes_of legend.now) pattern.now (Spins process) }
{
    match pattern {
        EndPattern::Spins(name) => is_meant(legend, name, process),
        _ => false,
    }
}

// Whether a topic speaks of an end, whoever waits there.
fn names_end_of(legend: &Legend, topic: &Topic, end: End) -> bool
    ensures { result ≡ spec.names_end (processes_of legend.now) topic.now end }
{
    match topic {
        Topic::End { end: pattern, .. } => is_of(legend, pattern, end),
        _ => false,
    }
}

/// Whether all wait at an end.
pub fn is_waiting(end: End) -> bool
    ensures { result ≡ who_spec.is_waiting end }
{
    matches!(end, End::Over(OutcomeKind::AllWaiting))
}

// Whether a topic speaks of an end; if all wait there, these do.
fn names_end(legend: &Legend, topic: &Topic, who: &[u8], end: End) -> bool
    ensures { result ≡ who_spec.names_end (processes_of legend.now) who.now topic.now end }
{
    match topic {
        Topic::End {
            end: EndPattern::AllWaiting(Some(pattern)),
            ..
        } => is_waiting(end) && are_meant(legend, pattern, who),
        _ => names_end_of(legend, topic, end),
    }
}

fn is_named(legend: &Legend, topics: &[Topic], who: &[u8], end: End) -> bool
    ensures { result ≡ who_spec.is_named (processes_of legend.now) topics.now who.now end }
{
    topics
        .iter()
        .any(|topic| names_end(legend, topic, who, end))
}

/// Whether an end settles an expectation; if all wait there, these do.
pub fn settles(legend: &Legend, expectation: &Expectation, who: &[u8], end: End) -> bool
    ensures { result ≡ who_spec.settles_end (processes_of legend.now) expectation.now who.now end }
{
    let is_named = is_named(legend, &expectation.topics, who, end);
    match expectation.claim {
        Claim::Only => !is_named && !is_cut(end),
        _ => is_named,
    }
}

fn names_value(topic: &Topic, text: &str) -> bool
    ensures { result ≡ spec.names_value topic.now text.now }
{
    match topic {
        Topic::Shown(wanted) => wanted.as_str() == text,
        _ => false,
    }
}

/// Whether one of the topics speaks of the value that is printed so.
pub fn is_value_named(topics: &[Topic], text: &str) -> bool
    ensures { result ≡ spec.is_value_named topics.now text.now }
{
    topics.iter().any(|topic| names_value(topic, text))
}

fn names_waiting(legend: &Legend, topic: &Topic, process: u8) -> bool
    ensures { result ≡ spec.names_waiting (processes_of legend.now) topic.now process }
{
    match topic {
        Topic::Waiting(name) => is_meant(legend, name, process),
        _ => false,
    }
}

/// Whether one of the topics speaks of a process that waits for ever.
pub fn is_waiting_named(legend: &Legend, topics: &[Topic], process: u8) -> bool
    ensures { result ≡ spec.is_waiting_named (processes_of legend.now) topics.now process }
{
    topics
        .iter()
        .any(|topic| names_waiting(legend, topic, process))
}

/// Whether a stretch was cut by the limit of steps: this is no end.
pub fn is_cut(end: End) -> bool
    ensures { result ≡ spec.is_cut end }
{
    matches!(end, End::Over(OutcomeKind::StepLimit))
}
