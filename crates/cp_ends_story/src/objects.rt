//! Ends as JSON.

use crate::placing::whole_story;
use crate::subject::{Reach, Telling, ToldEnd, ToldValue};
use crate::texts::line_of;
use cp_ends::End;
use cp_ends::found::MOST_VALUES;
use cp_run::OutcomeKind;
use cp_story::objects::{Object, monitors, numbers, processes, put_kind, put_signals, waits};
use cp_story::{output_words, put_error_cause, put_reasons, put_violation};
use cp_waits::{How, Set, Waiting, Waits};
use serde_json::Value;
use std::alloc::AllocError;

/// The ends as one JSON object: processes, monitors, how many states there are, the ends, the values, and who may wait for ever.
pub fn json(telling: Telling<'_>) -> Result<String, AllocError> {
    let Telling { alloc, subject, .. } = telling;
    let mut object = Object::new(alloc);
    object.put("processes", processes(alloc, subject.legend)?)?;
    object.put("monitors", monitors(alloc, subject.legend)?)?;
    put_states(telling, &mut object)?;
    put_ends(telling, &mut object)?;
    put_values(telling, &mut object)?;
    put_waits(telling, &mut object)?;
    put_signals(&mut object, subject.limits.discipline.signals)?;
    object.into_line()
}

// How many states there are, or how many there may be and of how many choices all schedules were looked at; and whether kernel calls were made at once.
fn put_states(telling: Telling<'_>, object: &mut Object) -> Result<(), AllocError> {
    let findings = telling.findings;
    if findings.is_at_once() {
        object.put("at_once", Value::Bool(true))?;
    }
    let is_complete = match findings.reach {
        Reach::States(count) | Reach::StatesAtOnce(count) => {
            object.number("states", count as u64)?;
            !findings.is_cut()
        }
        Reach::Choices(_) | Reach::SomeAtOnce => {
            object.text("too_many", "states")?;
            object.number("states", u64::from(telling.subject.most))?;
            false
        }
    };
    if let Reach::Choices(choices) = findings.reach {
        object.number("choices", choices as u64)?;
    }
    object.put("complete", Value::Bool(is_complete))
}

fn put_ends(telling: Telling<'_>, object: &mut Object) -> Result<(), AllocError> {
    let mut items = Vec::new(telling.alloc);
    for (place, end) in telling.findings.ends.iter().enumerate() {
        items.push(end_object(telling, place, end)?)?;
    }
    object.put("ends", Value::Array(items))
}

// An object with the number of an item of a list, of which there are so many before it.
fn numbered_object(telling: Telling<'_>, before: usize) -> Result<Object, AllocError> {
    let mut object = Object::new(telling.alloc);
    object.number("number", (before as u64).saturating_add(1))?;
    Ok(object)
}

fn end_object(telling: Telling<'_>, place: usize, end: &ToldEnd) -> Result<Value, AllocError> {
    let word = end.word.as_slice();
    let mut object = numbered_object(telling, place)?;
    match end.end {
        End::Over(kind) => put_kind(&mut object, kind)?,
        End::Alone(process) => put_going(&mut object, "alone", process)?,
        End::Spins(process) => put_going(&mut object, "spins", process)?,
    }
    object.put(telling.findings.word_name(), numbers(telling.alloc, word)?)?;
    match end.end {
        End::Over(OutcomeKind::AllWaiting) => put_final(telling, &mut object, word)?,
        End::Over(OutcomeKind::RunError { line, .. }) => {
            object.text("text", line_of(telling.subject.source, line))?;
            put_cause(telling, &mut object, word)?;
        }
        _ => {}
    }
    Ok(object.into_value())
}

// What the error is of to which a word leads, if that is known.
fn put_cause(telling: Telling<'_>, object: &mut Object, word: &[u8]) -> Result<(), AllocError> {
    let Telling { alloc, subject, .. } = telling;
    let Some(story) = whole_story(telling, word)? else {
        return Ok(());
    };
    put_error_cause(alloc, subject.legend, object, story.cause)?;
    put_violation(alloc, subject.legend, object, &story.violation)
}

fn put_going(object: &mut Object, kind: &str, process: u8) -> Result<(), AllocError> {
    object.text("kind", kind)?;
    object.number("process", u64::from(process))
}

// Who waits where at the end of a word, and why.
fn put_final(telling: Telling<'_>, object: &mut Object, word: &[u8]) -> Result<(), AllocError> {
    let Telling { alloc, subject, .. } = telling;
    let Some(story) = whole_story(telling, word)? else {
        return Ok(());
    };
    object.put("final", waits(alloc, subject.legend, &story.waits)?)?;
    put_reasons(alloc, subject.legend, object, &story.reasons)
}

fn put_values(telling: Telling<'_>, object: &mut Object) -> Result<(), AllocError> {
    let values = &telling.findings.values;
    let mut items = Vec::new(telling.alloc);
    for value in values.iter().take(MOST_VALUES) {
        items.push(value_object(telling, value)?)?;
    }
    object.put("shown", Value::Array(items))?;
    if values.len() > MOST_VALUES {
        object.put("more", Value::Bool(true))?;
    }
    Ok(())
}

fn value_object(telling: Telling<'_>, value: &ToldValue) -> Result<Value, AllocError> {
    let Telling { alloc, subject, .. } = telling;
    let shown = output_words(alloc, subject.legend, &[value.value])?;
    let mut object = Object::new(alloc);
    object.put("value", Value::String(shown))?;
    object.put(telling.findings.word_name(), numbers(alloc, &value.word)?)?;
    Ok(object.into_value())
}

fn put_waits(telling: Telling<'_>, object: &mut Object) -> Result<(), AllocError> {
    match &telling.findings.waits {
        None => Ok(()),
        Some(Waits::NotSettled(process)) => object.number("not_settled", u64::from(*process)),
        Some(Waits::Known(list)) => {
            let mut items = Vec::new(telling.alloc);
            for (place, waiting) in list.iter().enumerate() {
                items.push(waiting_object(telling, place, waiting)?)?;
            }
            object.put("waits", Value::Array(items))
        }
    }
}

fn waiting_object(
    telling: Telling<'_>,
    place: usize,
    waiting: &Waiting,
) -> Result<Value, AllocError> {
    let mut object = numbered_object(telling, place)?;
    object.number("process", u64::from(waiting.process))?;
    object.text(
        "how",
        match waiting.how {
            How::Throughout => "throughout",
            How::ForGood => "for good",
            How::InItsCall => "in its call",
        },
    )?;
    let others = waiting.step.without(waiting.process);
    object.put("others", processes_of(telling, others)?)?;
    object.put("first", numbers(telling.alloc, &waiting.first)?)?;
    object.put("again", numbers(telling.alloc, &waiting.again)?)?;
    put_final(telling, &mut object, &waiting.first)?;
    Ok(object.into_value())
}

fn processes_of(telling: Telling<'_>, set: Set) -> Result<Value, AllocError> {
    let mut items = Vec::new(telling.alloc);
    for process in 0..telling.subject.legend.processes() {
        if set.has(process) {
            items.push(Value::from(u64::from(process)))?;
        }
    }
    Ok(Value::Array(items))
}
