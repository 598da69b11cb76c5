//! Why nobody goes on, as JSON.

ghost use Rattle.std.specs.Prelude.{◌≡◌, map, IfOk, OnOk};
ghost use Rattle.serde_json.specs.View.{view};
ghost use Rattle.cp_legend.specs.Names.{legend_seen};
ghost use Rattle.cp_story.specs.Objects.{members_in, numbers_data, with_members};
ghost use Rattle.cp_story.specs.ReasonText as spec;
ghost use Rattle.cp_story.specs.Reasons.{reason_seen};

use crate::objects::Object;
use crate::reason_words::reason_text;
use crate::reasons::{Caller, WaitReason};
use cp_legend::Legend;
use serde_json::Value;
use std::alloc::{AllocError, Global};

/// Adds why processes are not woken, if there are some.
pub fn put_reasons(
    alloc: Global,
    legend: &Legend,
    object: &mut Object,
    reasons: &[WaitReason],
) -> Result<(), AllocError>
    ensures { OnOk result (members_in object.new ≡ with_members (members_in object.old) (spec.why_members (legend_seen legend.now) (map reason_seen reasons.now))) }
{
    if reasons.is_empty() {
        return Ok(());
    }
    object.put("why", reason_values(alloc, legend, reasons)?)
}

#[tactic(auto, using(crate::proofs::Arrays::seen_step, crate::proofs::Arrays::seen_none, crate::proofs::Arrays::view_more))]
fn reason_values(
    alloc: Global,
    legend: &Legend,
    reasons: &[WaitReason],
) -> Result<Value, AllocError>
    ensures { IfOk result (λ v. view v ≡ spec.reasons_data (legend_seen legend.now) (map reason_seen reasons.now)) }
{
    let mut items = Vec::new(alloc);
    for reason in reasons {
        items.push(reason_value(alloc, legend, reason)?)?;
    }
    Ok(Value::Array(items))
}

// A process by its number, since when it waits, which routines continue the queue, what was in vain, who could do so, and the sentence; and which
// routines perhaps continue the queue.
#[tactic(auto, unfolding(crate::specs::ReasonText::reason_data))]
fn reason_value(alloc: Global, legend: &Legend, reason: &WaitReason) -> Result<Value, AllocError>
    ensures { IfOk result (λ v. view v ≡ spec.reason_data (legend_seen legend.now) (reason_seen reason.now)) }
{
    let text = reason_text(alloc, legend, reason)?;
    let mut object = Object::new(alloc);
    object.number("process", u64::from(reason.process))?;
    object.number("since", reason.since as u64)?;
    object.put("entries", routine_names(alloc, legend, &reason.entries)?)?;
    object.put("in_vain", event_numbers(alloc, &reason.in_vain)?)?;
    object.put("callers", caller_numbers(alloc, &reason.callers)?)?;
    object.text("text", text.as_str())?;
    put_perhaps(alloc, legend, &mut object, &reason.perhaps)?;
    Ok(object.into_value())
}

// Adds those that continue an element of the array, if there are some.
fn put_perhaps(
    alloc: Global,
    legend: &Legend,
    object: &mut Object,
    routines: &[usize],
) -> Result<(), AllocError>
    ensures { OnOk result (members_in object.new ≡ with_members (members_in object.old) (spec.perhaps_members (legend_seen legend.now) routines.now)) }
{
    if routines.is_empty() {
        return Ok(());
    }
    object.put("perhaps", routine_names(alloc, legend, routines)?)
}

#[tactic(auto, using(crate::proofs::Arrays::number_step, crate::proofs::Arrays::number_none, crate::proofs::Arrays::view_more))]
fn event_numbers(alloc: Global, events: &[usize]) -> Result<Value, AllocError>
    ensures { IfOk result (λ v. view v ≡ numbers_data events.now) }
{
    let mut items = Vec::new(alloc);
    for event in events {
        items.push(Value::from(*event as u64))?;
    }
    Ok(Value::Array(items))
}

#[tactic(auto, using(crate::proofs::Arrays::number_step, crate::proofs::Arrays::number_none, crate::proofs::Arrays::view_more))]
fn routine_names(alloc: Global, legend: &Legend, routines: &[usize]) -> Result<Value, AllocError>
    ensures { IfOk result (λ v. view v ≡ spec.routines_data (legend_seen legend.now) routines.now) }
{
    let mut items = Vec::new(alloc);
    for routine in routines {
        items.push(Value::try_from_str(alloc, legend.routine_name(*routine))?)?;
    }
    Ok(Value::Array(items))
}

#[tactic(auto, using(crate::proofs::Rows::map_step, crate::proofs::Rows::map_none, crate::proofs::Arrays::view_more))]
fn caller_numbers(alloc: Global, callers: &[Caller]) -> Result<Value, AllocError>
    ensures { IfOk result (λ v. view v ≡ spec.callers_data callers.now) }
{
    let mut items = Vec::new(alloc);
    for caller in callers {
        items.push(Value::from(u64::from(caller.process)))?;
    }
    Ok(Value::Array(items))
}
