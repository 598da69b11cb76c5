//! Whether expectations can be asked of a program.

ghost use Rattle.std.specs.Prelude.{◌≡◌, IfOk, is_none, is_some, not};
ghost use Rattle.std.specs.List.{list_all};
ghost use Rattle.cp_verdict.specs.endless.Marked.{with_tables};
ghost use Rattle.cp_verdict.specs.endless.Naming.{processes_of};
ghost use Rattle.cp_show_mark.specs.Given as spec;

use crate::examinee::Examinee;
use cp_expectation::readable::push_readable;
use cp_expectation::value::is_name;
use cp_expectation::words::{objection_words, push_process};
use cp_expectation::{Expectation, OutputItem, Question, Topic, objection_to, push_expectation};
use cp_machine::Gates;
use cp_verdict::endless::{asks_waits, unknown_in};
use cp_verdict::names_who;
use std::alloc::{AllocError, Global};

// By which schedules an expectation is to be judged.
fn question_of(examinee: Examinee<'_>, expectation: &Expectation) -> Question
    ensures { result ≡ spec.question_of examinee.entry.options.now expectation.now }
{
    let options = examinee.options;
    if !options.analysis.is_endless() {
        return Question::Rows;
    }
    if options.analysis.is_at_once() && !is_by_states(expectation) {
        return Question::EndsAtOnce;
    }
    match options.discipline.gates {
        Gates::Any => Question::EndsAnyGates,
        Gates::First => Question::Ends,
    }
}

// Who waits at an end is found by all states, also where calls at once are asked for.
fn is_by_states(expectation: &Expectation) -> bool
    ensures { result ≡ spec.is_by_states expectation.now }
{
    names_who(expectation) && !asks_waits(expectation)
}

/// Why one of some expectations can't be asked of the program, if one can't: the first of them.
pub fn refusal(
    alloc: Global,
    examinee: Examinee<'_>,
    list: &[Expectation],
) -> Result<Option<String>, AllocError>
    ensures { IfOk result (λ said. is_some said ≡ not (spec.are_asked examinee.entry.options.now (with_tables examinee.entry.program.now (processes_of examinee.entry.legend.now)) list.now)) }
{
    for expectation in list {
        if let Some(why) = objection(alloc, examinee, expectation)? {
            return Ok(Some(refusal_text(alloc, expectation, why.as_str())?));
        }
    }
    Ok(None)
}

// Names may have any characters, so those that change what is shown are left out.
fn refusal_text(alloc: Global, expectation: &Expectation, why: &str) -> Result<String, AllocError> {
    let mut said = String::new(alloc);
    push_expectation(&mut said, expectation)?;
    said.push_str(": ")?;
    said.push_str(why)?;
    let mut shown = String::new(alloc);
    push_readable(&mut shown, said.as_bytes())?;
    shown.push_str("\n")?;
    Ok(shown)
}

fn objection(
    alloc: Global,
    examinee: Examinee<'_>,
    expectation: &Expectation,
) -> Result<Option<String>, AllocError>
    ensures { IfOk result (λ why. is_some why ≡ not (spec.is_asked (spec.question_of examinee.entry.options.now expectation.now) (with_tables examinee.entry.program.now (processes_of examinee.entry.legend.now)) expectation.now)) }
{
    if let Some(objection) = objection_to(question_of(examinee, expectation), expectation) {
        return Ok(Some(String::from_str(alloc, objection_words(objection))?));
    }
    if let Some(name) = unknown_in(examinee.legend, expectation) {
        let mut why = String::from_str(alloc, "there is no process or type")?;
        push_process(&mut why, name)?;
        return Ok(Some(why));
    }
    if let Some(name) = undeclared_in(examinee, expectation) {
        return Ok(Some(format!(in alloc; "there is no constant {name}")?));
    }
    Ok(None)
}

// The first value of an expectation that no display can print: the name of no constant and of no truth value.
fn undeclared_in<'a>(examinee: Examinee<'_>, expectation: &'a Expectation) -> Option<&'a str>
    ensures { is_none result ≡ list_all (spec.knows_values examinee.entry.program.now.names) expectation.entry.now.topics.items }
{
    for topic in &expectation.topics {
        if let Some(name) = undeclared_in_topic(examinee, topic) {
            return Some(name);
        }
    }
    None
}

fn undeclared_in_topic<'a>(examinee: Examinee<'_>, topic: &'a Topic) -> Option<&'a str>
    ensures { is_none result ≡ spec.knows_values examinee.entry.program.now.names topic.entry.now }
{
    match topic {
        Topic::End {
            output: Some(output),
            ..
        } => undeclared_among(examinee, &output.items),
        Topic::Shown(text) if !can_be_shown(examinee, text.as_str()) => Some(text.as_str()),
        _ => None,
    }
}

fn undeclared_among<'a>(examinee: Examinee<'_>, items: &'a [OutputItem]) -> Option<&'a str>
    ensures { is_none result ≡ list_all (spec.item_can_be_shown examinee.entry.program.now.names) items.entry.now }
{
    for item in items {
        if let OutputItem::Value(text) = item
            && !can_be_shown(examinee, text.as_str())
        {
            return Some(text.as_str());
        }
    }
    None
}

fn can_be_shown(examinee: Examinee<'_>, value: &str) -> bool
    ensures { result ≡ spec.can_be_shown examinee.entry.program.now.names value.now }
{
    !is_name(value) || value == "true" || value == "false" || examinee.declares(value)
}
