//! Expectations in words.

ghost use Rattle.std.specs.Prelude.{◌≡◌, ◌++◌, IfOk, codes, string_bytes};
ghost use Rattle.cp_expectation.specs.Written as spec;

use crate::expectation::{
    Claim, EndPattern, Expectation, OutputItem, OutputPattern, Topic, WhoPattern,
};
use crate::objection::Objection;
use crate::readable::push_readable;
use crate::reading::WantedWord;
use crate::vocabulary::{as_name, is_bare};
use cp_walk::text::error_name;
use std::alloc::{AllocError, Global};

/// Appends a value as it is written: in parentheses where it could be taken for a topic.
pub fn push_value(text: &mut String, value: &str) -> Result<(), AllocError>
    ensures { IfOk result (λ _. string_bytes text.new ≡ string_bytes text.old ++ spec.value_text value.now) }
{
    if as_name(value).is_none() {
        return text.push_str(value);
    }
    text.push_str("(")?;
    text.push_str(value)?;
    text.push_str(")")
}

fn push_item(text: &mut String, item: &OutputItem) -> Result<(), AllocError>
    ensures { IfOk result (λ _. string_bytes text.new ≡ string_bytes text.old ++ (codes " " ++ spec.item_text item.now)) }
{
    text.push_str(" ")?;
    match item {
        OutputItem::Value(value) => push_value(text, value.as_str()),
        OutputItem::Rest => text.push_str(".."),
    }
}

fn push_items(text: &mut String, items: &[OutputItem]) -> Result<(), AllocError>
    ensures { IfOk result (λ _. string_bytes text.new ≡ string_bytes text.old ++ spec.items_text items.now) }
{
    if items.is_empty() {
        return text.push_str(" -");
    }
    for item in items {
        push_item(text, item)?;
    }
    Ok(())
}

fn push_output(text: &mut String, output: &Option<OutputPattern>) -> Result<(), AllocError>
    ensures { IfOk result (λ _. string_bytes text.new ≡ string_bytes text.old ++ spec.output_text output.now) }
{
    match output {
        Some(output) => {
            text.push_str(" output")?;
            push_items(text, &output.items)
        }
        None => Ok(()),
    }
}

/// Appends a blank and a name of processes as it is written: in parentheses where it could be taken for another word.
pub fn push_process(text: &mut String, name: &str) -> Result<(), AllocError>
    ensures { IfOk result (λ _. string_bytes text.new ≡ string_bytes text.old ++ (codes " " ++ spec.process_text name.now)) }
{
    text.push_str(" ")?;
    if is_bare(name) {
        return text.push_str(name);
    }
    text.push_str("(")?;
    text.push_str(name)?;
    text.push_str(")")
}

fn push_perhaps(text: &mut String, process: &Option<String>) -> Result<(), AllocError>
    ensures { IfOk result (λ _. string_bytes text.new ≡ string_bytes text.old ++ spec.perhaps_text process.now) }
{
    match process {
        Some(name) => push_process(text, name.as_str()),
        None => Ok(()),
    }
}

fn push_who(text: &mut String, who: &WhoPattern) -> Result<(), AllocError>
    ensures { IfOk result (λ _. string_bytes text.new ≡ string_bytes text.old ++ spec.who_text who.now) }
{
    for name in &who.processes {
        push_process(text, name.as_str())?;
    }
    if who.others {
        text.push_str(" ..")?;
    }
    Ok(())
}

fn push_perhaps_who(text: &mut String, who: &Option<WhoPattern>) -> Result<(), AllocError>
    ensures { IfOk result (λ _. string_bytes text.new ≡ string_bytes text.old ++ spec.perhaps_who_text who.now) }
{
    match who {
        Some(who) => push_who(text, who),
        None => Ok(()),
    }
}

fn push_end(text: &mut String, end: &EndPattern) -> Result<(), AllocError>
    ensures { IfOk result (λ _. string_bytes text.new ≡ string_bytes text.old ++ spec.end_text end.now) }
{
    match end {
        EndPattern::Finished => text.push_str("finished"),
        EndPattern::AnyError => text.push_str("run-error"),
        EndPattern::Error(name) => {
            text.push_str("run-error ")?;
            text.push_str(error_name(*name))
        }
        EndPattern::AllWaiting(who) => {
            text.push_str("all-waiting")?;
            push_perhaps_who(text, who)
        }
        EndPattern::Alone(process) => {
            text.push_str("alone")?;
            push_perhaps(text, process)
        }
        EndPattern::Spins(process) => {
            text.push_str("spins")?;
            push_perhaps(text, process)
        }
    }
}

fn push_topic(text: &mut String, topic: &Topic) -> Result<(), AllocError>
    ensures { IfOk result (λ _. string_bytes text.new ≡ string_bytes text.old ++ spec.topic_text topic.now) }
{
    match topic {
        Topic::End { end, output } => {
            push_end(text, end)?;
            push_output(text, output)
        }
        Topic::Shown(value) => {
            text.push_str("shown ")?;
            push_value(text, value.as_str())
        }
        Topic::Waiting(process) => {
            text.push_str("waiting")?;
            push_perhaps(text, process)
        }
    }
}

fn push_topics(text: &mut String, topics: &[Topic]) -> Result<(), AllocError>
    ensures { IfOk result (λ _. string_bytes text.new ≡ string_bytes text.old ++ spec.topics_text topics.now) }
{
    let Some((first, rest)) = topics.split_first() else {
        return Ok(());
    };
    text.push_str(" ")?;
    push_topic(text, first)?;
    for topic in rest {
        push_other(text, topic)?;
    }
    Ok(())
}

fn push_other(text: &mut String, topic: &Topic) -> Result<(), AllocError>
    ensures { IfOk result (λ _. string_bytes text.new ≡ string_bytes text.old ++ (codes " or " ++ spec.topic_text topic.now)) }
{
    text.push_str(" or ")?;
    push_topic(text, topic)
}

fn claim_word(claim: Claim) -> &'static str
    ensures { result.now ≡ spec.claim_text claim }
{
    match claim {
        Claim::Never => "never",
        Claim::Sometimes => "some",
        Claim::Only => "only",
    }
}

/// Appends an expectation as it is written.
pub fn push_expectation(text: &mut String, expectation: &Expectation) -> Result<(), AllocError>
    ensures { IfOk result (λ _. string_bytes text.new ≡ string_bytes text.old ++ spec.expectation_text expectation.now) }
{
    text.push_str(claim_word(expectation.claim))?;
    push_topics(text, &expectation.topics)
}

// What begins a topic, what may follow `run-error`, and what may stand between two topics.
const TOPICS: &str = "finished, all-waiting, run-error, shown, waiting, alone or spins";

const ERRORS: &str =
    "overflow, zero-divisor, range, no-case, queue-in-use, not-init, init-twice, assertion, invariant, output, ";

const JOINT: &str = "and, or, finished, all-waiting, run-error, shown, waiting, alone or spins";

// What was wanted, but for the words of a joint.
fn wanted_words(wanted: WantedWord) -> &'static str {
    match wanted {
        WantedWord::Claim => "never, some or only",
        WantedWord::Topic => TOPICS,
        WantedWord::Output => "a value, - or ..",
        WantedWord::Value => "a value",
        WantedWord::AfterEnd => "output, ",
        WantedWord::Error => ERRORS,
        WantedWord::Process => "a process, output, ",
        WantedWord::WhoWaits => "a process, ",
        WantedWord::AfterProcess => "a process, .., output, ",
        WantedWord::AfterValue => "a value, .., ",
        WantedWord::Joint => "",
    }
}

// Whether a joint was wanted as well.
fn may_join(wanted: WantedWord) -> bool {
    match wanted {
        WantedWord::Claim | WantedWord::Topic | WantedWord::Output | WantedWord::Value => false,
        _ => true,
    }
}

// What is said of a word, or of the end, where others were wanted.
fn found_text(alloc: Global, wanted: WantedWord, word: Option<&str>) -> Result<String, AllocError> {
    let mut said = String::new(alloc);
    said.push_str("expected ")?;
    said.push_str(wanted_words(wanted))?;
    if may_join(wanted) {
        said.push_str(JOINT)?;
    }
    let Some(word) = word else {
        said.push_str(", found the end\n")?;
        return Ok(said);
    };
    said.push_str(", found \"")?;
    push_readable(&mut said, word.as_bytes())?;
    said.push_str("\"\n")?;
    Ok(said)
}

/// What is said of a text that has no expectations: what was found, and what was wanted there.
pub fn misread_text(
    alloc: Global,
    text: &str,
    wanted: WantedWord,
    place: usize,
) -> Result<String, AllocError> {
    let word = text.split_whitespace().nth(place);
    let mut said = found_text(alloc, wanted, word)?;
    if (wanted == WantedWord::Output || wanted == WantedWord::Value)
        && let Some(word) = word
        && let Some(name) = as_name(word)
    {
        push_doubt(&mut said, name)?;
    }
    Ok(said)
}

/// Appends that a word begins a topic, and how a constant of this name is written.
pub fn push_doubt(text: &mut String, name: &str) -> Result<(), AllocError>
    ensures { IfOk result (λ _. string_bytes text.new ≡ string_bytes text.old ++ spec.doubt_text name.now) }
{
    text.push_str(name)?;
    text.push_str(" begins an outcome; as a value it is written (")?;
    text.push_str(name)?;
    text.push_str(")\n")
}

/// Why a topic can't be asked, in words.
pub fn objection_words(objection: Objection) -> &'static str {
    match objection {
        Objection::WaitingWithoutEnds => "waiting is asked with --ends",
        Objection::AloneWithoutEnds => "alone is asked with --ends",
        Objection::SpinsWithoutEnds => "spins is asked with --ends",
        Objection::OutputWithEnds => "output is asked without --ends",
        Objection::ShownByOnly => "with --ends shown is asked by never or some",
        Objection::WaitingByOnly => "waiting is asked by never or some",
        Objection::WaitingWithAnyGates => "waiting can't be asked with --gates any",
        Objection::WaitingAtOnce => "waiting can't be asked with --at-once",
    }
}
