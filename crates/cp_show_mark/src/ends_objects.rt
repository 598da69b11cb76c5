//! The same as JSON.

ghost use Rattle.std.specs.Prelude.{◌≡◌, IfOk, OnOk, map, string_bytes};
ghost use Rattle.serde_json.specs.View.{view};
ghost use Rattle.serde_json.specs.Written.{compact_text};
ghost use Rattle.cp_story.specs.Objects.{array_of, members_in, with_members};
ghost use Rattle.cp_show_mark.specs.EndsData as spec;
ghost use Rattle.cp_show_mark.specs.EndsText.{said_reason};
ghost use Rattle.cp_show_mark.specs.MarkData.{notes_data};
ghost use Rattle.cp_show_mark.specs.MarkText.{setting_of};

use crate::ends_words::push_reason;
use crate::examinee::Examinee;
use crate::mark_objects::{push_note, put_end, put_expectation, put_mark};
use crate::mark_texts::mark_words;
use cp_ends::End;
use cp_prose::Prose;
use cp_story::objects::{Object, numbers, put_kind};
use cp_verdict::Standing;
use cp_verdict::endless::{Against, EndsMark, MarkedEnds, Said};
use serde_json::Value;
use std::alloc::{AllocError, Global};

/// What schedules of any length say of the expectations, as one object.
pub fn ends_as_json(
    alloc: Global,
    examinee: Examinee<'_>,
    marked: &MarkedEnds,
) -> Result<String, AllocError>
    ensures { IfOk result (λ t. string_bytes t ≡ compact_text (spec.ends_data (setting_of examinee.entry) marked.now)) }
{
    let mut object = Object::new(alloc);
    put_mark(
        alloc,
        examinee,
        &mut object,
        ends_mark_words(marked.mark),
        said_objects(alloc, examinee, &marked.each)?,
        marked.stops,
        notes(alloc, marked)?,
    )?;
    object.into_value().to_string(alloc)
}

fn ends_mark_words(mark: EndsMark) -> &'static str
    ensures { result.now ≡ spec.ends_mark_name mark }
{
    match mark {
        EndsMark::Holds => mark_words(Standing::Holds),
        EndsMark::Fails => mark_words(Standing::Fails),
        EndsMark::Open => mark_words(Standing::Open),
        EndsMark::TooMany => "too many states",
    }
}

fn said_objects(alloc: Global, examinee: Examinee<'_>, all: &[Said]) -> Result<Value, AllocError>
    ensures { IfOk result (λ v. view v ≡ array_of (map (spec.said_data (setting_of examinee.entry)) all.now)) }
{
    let mut items = Vec::new(alloc);
    for said in all {
        items.push(said_object(alloc, examinee, said)?)?;
    }
    Ok(Value::Array(items))
}

// An expectation with what is said of it.
fn said_object(alloc: Global, examinee: Examinee<'_>, said: &Said) -> Result<Value, AllocError>
    ensures { IfOk result (λ v. view v ≡ spec.said_data (setting_of examinee.entry) said.now) }
{
    let mut object = Object::new(alloc);
    put_against(alloc, examinee, &mut object, &said.against)?;
    let reason = reason_text(alloc, examinee, said)?;
    put_expectation(
        &mut object,
        said.expectation.as_str(),
        said.standing,
        reason.as_str(),
    )?;
    Ok(object.into_value())
}

fn reason_text(alloc: Global, examinee: Examinee<'_>, said: &Said) -> Result<String, AllocError>
    ensures { IfOk result (λ t. string_bytes t ≡ said_reason (setting_of examinee.entry) said.now) }
{
    let mut reason = Prose::new(alloc);
    push_reason(alloc, examinee, &mut reason, said);
    reason.finish()
}

// The schedule that is against an expectation, if there is one.
fn put_against(
    alloc: Global,
    examinee: Examinee<'_>,
    object: &mut Object,
    against: &Option<Against>,
) -> Result<(), AllocError>
    ensures { OnOk result (members_in object.new ≡ with_members (members_in object.old) (spec.against_members (setting_of examinee.entry) against.now)) }
{
    match against {
        Some(Against::End(known)) => {
            object.put("first", numbers(alloc, &known.word)?)?;
            put_how(alloc, examinee, object, &known.word, known.end)
        }
        Some(Against::Value(word)) => object.put("first", numbers(alloc, word)?),
        Some(
            Against::Round {
                process,
                first,
                again,
            },
        ) => {
            object.put("first", numbers(alloc, first)?)?;
            object.put("again", numbers(alloc, again)?)?;
            object.number("process", u64::from(*process))
        }
        None => Ok(()),
    }
}

// How a schedule ends, and who waits where then.
fn put_how(
    alloc: Global,
    examinee: Examinee<'_>,
    object: &mut Object,
    word: &[u8],
    end: End,
) -> Result<(), AllocError>
    ensures { OnOk result (members_in object.new ≡ with_members (members_in object.old) (spec.how_members (setting_of examinee.entry) word.now end)) }
{
    match end {
        End::Over(kind) => {
            put_kind(object, kind)?;
            put_end(alloc, examinee, object, word, kind)
        }
        End::Alone(process) => put_process(object, "alone", process),
        End::Spins(process) => put_process(object, "spins", process),
    }
}

fn put_process(object: &mut Object, kind: &str, process: u8) -> Result<(), AllocError>
    ensures { OnOk result (members_in object.new ≡ with_members (members_in object.old) (spec.process_members kind.now process)) }
{
    object.text("kind", kind)?;
    object.number("process", u64::from(process))
}

// What is said of all expectations, and how the mark was found.
fn notes(alloc: Global, marked: &MarkedEnds) -> Result<Value, AllocError>
    ensures { IfOk result (λ v. view v ≡ notes_data (spec.notes_of marked.now)) }
{
    let mut notes = Vec::new(alloc);
    push_note(alloc, &mut notes, marked.note.as_str())?;
    push_note(alloc, &mut notes, marked.last.as_str())?;
    Ok(Value::Array(notes))
}
