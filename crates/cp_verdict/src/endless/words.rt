//! What is said of expectations, in words.

ghost use Rattle.std.specs.Prelude.{◌≡◌, ◌++◌, IfOk, codes, decimal, option_copied, string_bytes};
ghost use Rattle.std.specs.List.{list_all};
ghost use Rattle.cp_legend.specs.Names.{path_in, process_in};
ghost use Rattle.cp_walk.specs.Text.{word_text};
ghost use Rattle.cp_verdict.specs.Lasting as lasting;
ghost use Rattle.cp_verdict.specs.endless.Marked.{is_of_waiting};
ghost use Rattle.cp_verdict.specs.endless.Naming.{processes_of};
ghost use Rattle.cp_verdict.specs.endless.Said as spec;

use crate::endless::known::Witness;
use crate::endless::marking::is_of_waiting;
use cp_ends::report::push_end;
use cp_expectation::Topic;
use cp_legend::Legend;
use cp_waits::{How, Waiting};
use cp_walk::text::push_word;
use std::alloc::AllocError;

/// Appends a schedule and what it shows.
pub fn push_witness(
    legend: &Legend,
    text: &mut String,
    witness: Witness<'_>,
) -> Result<(), AllocError>
    ensures { IfOk result (λ _. string_bytes text.new ≡ string_bytes text.old ++ spec.witness_text (processes_of legend.now) witness.entry) }
{
    match witness {
        Witness::End(known) => {
            push_word(text, &known.word)?;
            text.push_str(" ")?;
            push_end(text, known.end)
        }
        Witness::Value(known) => {
            push_word(text, &known.word)?;
            text.push_str(" shows ")?;
            text.push_str(known.text.as_str())
        }
        Witness::Waiting(waiting) => push_waiting(legend, text, waiting),
    }
}

fn push_waiting(legend: &Legend, text: &mut String, waiting: &Waiting) -> Result<(), AllocError>
    ensures { IfOk result (λ _. string_bytes text.new ≡ string_bytes text.old ++ (word_text waiting.now.first.items ++ codes " again " ++ word_text waiting.now.again.items ++ codes ": " ++ decimal waiting.now.process ++ codes " " ++ path_in (process_in (processes_of legend.now).components waiting.now.process) ++ spec.how_text waiting.now.how)) }
{
    push_word(text, waiting.first.as_slice())?;
    text.push_str(" again ")?;
    push_word(text, waiting.again.as_slice())?;
    let process = waiting.process;
    let name = legend.process_name(process);
    write!(text, ": {process} {name}")?;
    text.push_str(how_words(waiting.how))
}

fn how_words(how: How) -> &'static str
    ensures { result.now ≡ spec.how_text how }
{
    match how {
        How::Throughout => " waits for ever",
        How::ForGood => " waits for good",
        How::InItsCall => " never comes out of its call",
    }
}

/// What stands before a schedule that is against an expectation.
pub fn before_words(at_once: bool) -> &'static str
    ensures { result.now ≡ spec.before_text at_once }
{
    if at_once {
        "a schedule against it: "
    } else {
        "first against it: "
    }
}

/// What is said where no schedule is as an expectation asks.
pub fn missing_words(topics: &[Topic]) -> &'static str
    ensures { result.now ≡ spec.missing_text topics.now }
{
    if are_ends(topics) {
        "no schedule of any length ends so\n"
    } else if are_values(topics) {
        "no schedule of any length displays it\n"
    } else if are_waiting(topics) {
        nobody_words(topics.first())
    } else {
        "no schedule of any length is so\n"
    }
}

fn nobody_words(first: Option<&Topic>) -> &'static str
    ensures { result.now ≡ spec.nobody_text (option_copied first.entry) }
{
    match first {
        Some(Topic::Waiting(None)) => "nobody may wait for ever\n",
        _ => "it may not wait for ever\n",
    }
}

fn are_ends(topics: &[Topic]) -> bool
    ensures { result ≡ list_all spec.is_of_end topics.now }
{
    topics.iter().all(is_of_end)
}

fn are_values(topics: &[Topic]) -> bool
    ensures { result ≡ list_all lasting.is_of_values topics.now }
{
    topics.iter().all(is_of_values)
}

fn are_waiting(topics: &[Topic]) -> bool
    ensures { result ≡ list_all is_of_waiting topics.now }
{
    topics.iter().all(is_of_waiting)
}

fn is_of_end(topic: &Topic) -> bool
    ensures { result ≡ spec.is_of_end topic.now }
{
    matches!(topic, Topic::End { .. })
}

fn is_of_values(topic: &Topic) -> bool
    ensures { result ≡ lasting.is_of_values topic.now }
{
    matches!(topic, Topic::Shown(_))
}

/// What is said of an expectation that is not settled, though schedules of any length were looked at.
pub fn open_words(whole: bool) -> &'static str
    ensures { result.now ≡ spec.unsettled_text whole }
{
    if whole {
        "it is not known to hold, and no schedule is known to be against it\n"
    } else {
        "some schedules ended at step-limit, and none so far settles it (try greater --steps)\n"
    }
}
