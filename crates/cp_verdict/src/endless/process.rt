//! Processes as words name them.

ghost use Rattle.std.specs.Prelude.{◌≡◌, is_none, string_bytes};
ghost use Rattle.std.specs.List.{list_all};
ghost use Rattle.cp_verdict.specs.endless.Naming as spec;
ghost use Rattle.cp_verdict.specs.endless.Naming.{processes_of};

use cp_expectation::{EndPattern, Expectation, Topic};
use cp_legend::Legend;

/// Whether a process is called so: by its number, its name, the array of which it is an element, or its type.
pub fn is_called(legend: &Legend, name: &str, process: u8) -> bool
    ensures { result ≡ spec.is_called (processes_of legend.now) name.now process }
{
    is_number_of(name, process)
        || is_path_of(name, legend.process_name(process))
        || (!name.is_empty() && legend.process_type(process) == name)
}

fn is_number_of(name: &str, process: u8) -> bool
    ensures { result ≡ spec.is_number_of name.now process }
{
    match name.parse::<u8>() {
        Ok(number) => number == process,
        Err(_) => false,
    }
}

// The path itself, or that of an array of which it is an element.
fn is_path_of(name: &str, path: &str) -> bool
    ensures { result ≡ spec.is_path_of name.now path.now }
{
    match path.strip_prefix(name) {
        Some(rest) => rest.is_empty() || rest.starts_with('['),
        None => false,
    }
}

/// Whether a process is meant: by this name, or by none.
pub fn is_meant(legend: &Legend, wanted: &Option<String>, process: u8) -> bool
    ensures { result ≡ spec.is_meant (processes_of legend.now) wanted.now process }
{
    match wanted {
        Some(name) => is_called(legend, name.as_str(), process),
        None => true,
    }
}

/// Whether some process is called so.
pub fn is_known(legend: &Legend, name: &str) -> bool
    ensures { result ≡ spec.is_known (processes_of legend.now) name.now }
{
    (0..legend.processes()).any(|process| is_called(legend, name, process))
}

// The name, if no process is called so.
fn unknown_name<'a>(legend: &Legend, name: &'a Option<String>) -> Option<&'a str>
    ensures { is_none result ≡ spec.is_known_perhaps (processes_of legend.now) name.entry.now }
{
    match name {
        Some(name) if !is_known(legend, name.as_str()) => Some(name.as_str()),
        _ => None,
    }
}

fn unknown_among<'a>(legend: &Legend, names: &'a [String]) -> Option<&'a str>
    ensures { is_none result ≡ list_all (λ name. spec.is_known (processes_of legend.now) (string_bytes name)) names.entry.now }
{
    for name in names {
        if !is_known(legend, name.as_str()) {
            return Some(name.as_str());
        }
    }
    None
}

fn unknown_in_end<'a>(legend: &Legend, end: &'a EndPattern) -> Option<&'a str>
    ensures { is_none result ≡ spec.knows_end (processes_of legend.now) end.entry.now }
{
    match end {
        EndPattern::AllWaiting(Some(who)) => unknown_among(legend, &who.processes),
        EndPattern::Alone(name) => unknown_name(legend, name),
        EndPattern::Spins(name) => unknown_name(legend, name),
        _ => None,
    }
}

fn unknown_in_topic<'a>(legend: &Legend, topic: &'a Topic) -> Option<&'a str>
    ensures { is_none result ≡ spec.knows_processes (processes_of legend.now) topic.entry.now }
{
    match topic {
        Topic::End { end, .. } => unknown_in_end(legend, end),
        Topic::Waiting(name) => unknown_name(legend, name),
        Topic::Shown(_) => None,
    }
}

/// The first name of an expectation by which no process is called.
pub fn unknown_in<'a>(legend: &Legend, expectation: &'a Expectation) -> Option<&'a str>
    ensures { is_none result ≡ list_all (spec.knows_processes (processes_of legend.now)) expectation.entry.now.topics.items }
{
    for topic in &expectation.topics {
        if let Some(name) = unknown_in_topic(legend, topic) {
            return Some(name);
        }
    }
    None
}
