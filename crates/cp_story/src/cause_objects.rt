//! What a run error is of, as JSON.

ghost use Rattle.std.specs.Prelude.{◌≡◌, IfOk, OnOk};
ghost use Rattle.serde_json.specs.View.{view};
ghost use Rattle.cp_legend.specs.Names.{legend_seen};
ghost use Rattle.cp_story.specs.CauseText as spec;
ghost use Rattle.cp_story.specs.Objects.{integer_data, members_in, with_member, with_members};

use crate::cause::Cause;
use crate::cause_words::{cause_text, component_path, sign_of};
use crate::objects::Object;
use crate::words::push_cell_queue;
use cp_legend::Legend;
use serde_json::Value;
use std::alloc::{AllocError, Global};

/// Adds what a run error is of, if that is known: its words, and its parts.
pub fn put_error_cause(
    alloc: Global,
    legend: &Legend,
    object: &mut Object,
    cause: Option<Cause>,
) -> Result<(), AllocError>
    ensures { OnOk result (members_in object.new ≡ with_members (members_in object.old) (spec.error_cause_members (legend_seen legend.now) cause)) }
{
    let Some(cause) = cause else {
        return Ok(());
    };
    let words = cause_text(alloc, legend, cause)?;
    if words.is_empty() {
        return Ok(());
    }
    object.put("cause", cause_value(alloc, legend, words.as_str(), cause)?)
}

#[tactic(auto, using(crate::proofs::Floats::with_both))]
fn cause_value(
    alloc: Global,
    legend: &Legend,
    words: &str,
    cause: Cause,
) -> Result<Value, AllocError>
    ensures { IfOk result (λ v. view v ≡ spec.cause_data (legend_seen legend.now) words.now cause) }
{
    let mut object = Object::new(alloc);
    object.text("text", words)?;
    put_parts(alloc, legend, &mut object, cause)?;
    Ok(object.into_value())
}

fn put_integer(object: &mut Object, name: &str, number: i16) -> Result<(), AllocError>
    ensures { OnOk result (members_in object.new ≡ with_member (members_in object.old) name.now (integer_data number)) }
{
    object.put(name, Value::from(i64::from(number)))
}

fn put_operand(object: &mut Object, operator: &str, operand: i16) -> Result<(), AllocError>
    ensures { OnOk result (members_in object.new ≡ with_members (members_in object.old) (spec.operand_members operator.now operand)) }
{
    object.text("operator", operator)?;
    put_integer(object, "operand", operand)
}

fn put_parts(
    alloc: Global,
    legend: &Legend,
    object: &mut Object,
    cause: Cause,
) -> Result<(), AllocError>
    ensures { OnOk result (members_in object.new ≡ with_members (members_in object.old) (spec.part_members (legend_seen legend.now) cause)) }
{
    match cause {
        Cause::Operation(operator, left, right) => {
            object.text("operator", sign_of(operator))?;
            put_integer(object, "left", left)?;
            put_integer(object, "right", right)
        }
        Cause::Sign(value) => put_operand(object, "-", value),
        Cause::Absolute(value) => put_operand(object, "abs", value),
        Cause::Outside(value, low, high) => {
            put_integer(object, "value", value)?;
            put_integer(object, "low", low)?;
            put_integer(object, "high", high)
        }
        Cause::NoLabel(value) => put_integer(object, "value", value),
        Cause::InUse(process, cell) => put_user(alloc, legend, object, process, cell),
        Cause::NotInitialised(component) | Cause::InitialisedTwice(component) => {
            object.text("component", component_path(legend, component))
        }
        Cause::Last | Cause::First | Cause::Untold => Ok(()),
    }
}

// Who waits already in a queue.
fn put_user(
    alloc: Global,
    legend: &Legend,
    object: &mut Object,
    process: u8,
    cell: usize,
) -> Result<(), AllocError>
    ensures { OnOk result (members_in object.new ≡ with_members (members_in object.old) (spec.user_members (legend_seen legend.now) process cell)) }
{
    let mut queue = String::new(alloc);
    push_cell_queue(alloc, legend, &mut queue, cell)?;
    object.number("waiting", u64::from(process))?;
    object.text("queue", queue.as_str())
}
