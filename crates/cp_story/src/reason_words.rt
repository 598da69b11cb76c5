//! Why nobody goes on, in words.

ghost use Rattle.std.specs.Prelude.{◌≡◌, ◌++◌, decimal, string_bytes, IfOk, OnOk};
ghost use Rattle.cp_legend.specs.Names.{legend_seen};
ghost use Rattle.cp_run.specs.Table.{each};
ghost use Rattle.cp_story.specs.ReasonText as spec;
ghost use Rattle.cp_story.specs.Reasons.{reason_seen};

use crate::reasons::{Caller, WaitReason};
use crate::words::{push_cell_queue, push_process};
use cp_legend::Legend;
use cp_machine::Status;
use std::alloc::{AllocError, Global};

/// Why a process is not woken: `1 p since event 7: put continues b.ready; signalled in vain at 4 and 6`.
#[tactic(auto, unfolding(crate::specs::ReasonText::reason_text))]
pub fn reason_text(
    alloc: Global,
    legend: &Legend,
    reason: &WaitReason,
) -> Result<String, AllocError>
    ensures { IfOk result (λ t. string_bytes t ≡ spec.reason_text (legend_seen legend.now) (reason_seen reason.now)) }
{
    let mut text = String::new(alloc);
    push_since(legend, &mut text, reason)?;
    push_continuing(alloc, legend, &mut text, reason)?;
    push_in_vain(&mut text, &reason.in_vain)?;
    push_callers(alloc, legend, &mut text, reason)?;
    Ok(text)
}

fn push_since(legend: &Legend, text: &mut String, reason: &WaitReason) -> Result<(), AllocError>
    ensures { OnOk result (string_bytes text.new ≡ string_bytes text.old ++ spec.since_text (legend_seen legend.now) (reason_seen reason.now)) }
{
    let since = reason.since;
    push_process(legend, text, reason.process)?;
    write!(text, " since event {since}: ")
}

/// Appends which routines continue the queue, and which perhaps do: `put continues q[2], take continues q[2] or another element`.
pub fn push_continuing(
    alloc: Global,
    legend: &Legend,
    text: &mut String,
    reason: &WaitReason,
) -> Result<(), AllocError>
    ensures { OnOk result (string_bytes text.new ≡ string_bytes text.old ++ spec.continuing_text (legend_seen legend.now) (reason_seen reason.now)) }
{
    push_surely(alloc, legend, text, reason)?;
    push_perhaps(alloc, legend, text, reason)
}

// Which do, or that none does.
fn push_surely(
    alloc: Global,
    legend: &Legend,
    text: &mut String,
    reason: &WaitReason,
) -> Result<(), AllocError>
    ensures { OnOk result (string_bytes text.new ≡ string_bytes text.old ++ spec.surely_text (legend_seen legend.now) (reason_seen reason.now)) }
{
    if reason.entries.is_empty() && !reason.perhaps.is_empty() {
        Ok(())
    } else {
        push_continued(alloc, legend, text, &reason.entries, reason.queue)
    }
}

fn push_perhaps(
    alloc: Global,
    legend: &Legend,
    text: &mut String,
    reason: &WaitReason,
) -> Result<(), AllocError>
    ensures { OnOk result (string_bytes text.new ≡ string_bytes text.old ++ spec.perhaps_text (legend_seen legend.now) (reason_seen reason.now)) }
{
    if reason.perhaps.is_empty() {
        Ok(())
    } else {
        push_elements(alloc, legend, text, reason)
    }
}

// Which do for an element of the array.
fn push_elements(
    alloc: Global,
    legend: &Legend,
    text: &mut String,
    reason: &WaitReason,
) -> Result<(), AllocError>
    ensures { OnOk result (string_bytes text.new ≡ string_bytes text.old ++ spec.elements_text (legend_seen legend.now) (reason_seen reason.now)) }
{
    text.push_str(comma_before(reason))?;
    push_continued(alloc, legend, text, &reason.perhaps, reason.queue)?;
    text.push_str(" or another element")
}

fn comma_before(reason: &WaitReason) -> &'static str
    ensures { result.now ≡ spec.comma_before (reason_seen reason.now) }
{
    if reason.entries.is_empty() { "" } else { ", " }
}

fn push_continued(
    alloc: Global,
    legend: &Legend,
    text: &mut String,
    routines: &[usize],
    queue: usize,
) -> Result<(), AllocError>
    ensures { OnOk result (string_bytes text.new ≡ string_bytes text.old ++ spec.continued_text (legend_seen legend.now) routines.now queue) }
{
    push_routines(legend, text, routines)?;
    text.push_str(verb(routines.len()))?;
    push_cell_queue(alloc, legend, text, queue)
}

fn verb(routines: usize) -> &'static str
    ensures { result.now ≡ spec.verb_text routines }
{
    if routines == 0 {
        "no entry continues "
    } else if routines == 1 {
        " continues "
    } else {
        " continue "
    }
}

// Several names: `put, take and get`.
#[tactic(auto, using(crate::proofs::Reasoning::listed_step, crate::proofs::Reasoning::listed_none))]
fn push_routines(legend: &Legend, text: &mut String, routines: &[usize]) -> Result<(), AllocError>
    ensures { OnOk result (string_bytes text.new ≡ string_bytes text.old ++ spec.listed (spec.routine_text (legend_seen legend.now)) routines.now) }
{
    let last = routines.len().saturating_sub(1);
    for (place, routine) in routines.iter().enumerate() {
        text.push_str(sign_within(place, last))?;
        text.push_str(legend.routine_name(*routine))?;
    }
    Ok(())
}

fn sign_within(place: usize, last: usize) -> &'static str
    ensures { result.now ≡ spec.sign_within place last }
{
    if place == 0 {
        ""
    } else if place == last {
        " and "
    } else {
        ", "
    }
}

fn push_in_vain(text: &mut String, events: &[usize]) -> Result<(), AllocError>
    ensures { OnOk result (string_bytes text.new ≡ string_bytes text.old ++ spec.in_vain_text events.now) }
{
    if events.is_empty() {
        Ok(())
    } else {
        push_signalled(text, events)
    }
}

fn push_signalled(text: &mut String, events: &[usize]) -> Result<(), AllocError>
    ensures { OnOk result (string_bytes text.new ≡ string_bytes text.old ++ spec.signalled_text events.now) }
{
    text.push_str("; signalled in vain at ")?;
    push_events(text, events)
}

#[tactic(auto, using(crate::proofs::Reasoning::listed_step, crate::proofs::Reasoning::listed_none))]
fn push_events(text: &mut String, events: &[usize]) -> Result<(), AllocError>
    ensures { OnOk result (string_bytes text.new ≡ string_bytes text.old ++ spec.listed decimal events.now) }
{
    let last = events.len().saturating_sub(1);
    for (place, event) in events.iter().enumerate() {
        let event = *event;
        text.push_str(sign_within(place, last))?;
        write!(text, "{event}")?;
    }
    Ok(())
}

/// Appends who could continue the queue, and for whom each of them waits.
pub fn push_callers(
    alloc: Global,
    legend: &Legend,
    text: &mut String,
    reason: &WaitReason,
) -> Result<(), AllocError>
    ensures { OnOk result (string_bytes text.new ≡ string_bytes text.old ++ spec.callers_text (legend_seen legend.now) (reason_seen reason.now)) }
{
    push_each_caller(alloc, legend, text, &reason.callers)?;
    text.push_str(nobody(reason))
}

fn nobody(reason: &WaitReason) -> &'static str
    ensures { result.now ≡ spec.nobody_text (reason_seen reason.now) }
{
    let is_continued = !reason.entries.is_empty() || !reason.perhaps.is_empty();
    if reason.callers.is_empty() && is_continued {
        "; nobody else who waits could do so"
    } else {
        ""
    }
}

#[tactic(auto, using(crate::proofs::Rows::each_item_step, crate::proofs::Rows::each_item_none))]
fn push_each_caller(
    alloc: Global,
    legend: &Legend,
    text: &mut String,
    callers: &[Caller],
) -> Result<(), AllocError>
    ensures { OnOk result (string_bytes text.new ≡ string_bytes text.old ++ each (spec.caller_text (legend_seen legend.now)) callers.now) }
{
    for caller in callers {
        push_caller(alloc, legend, text, *caller)?;
    }
    Ok(())
}

fn push_caller(
    alloc: Global,
    legend: &Legend,
    text: &mut String,
    caller: Caller,
) -> Result<(), AllocError>
    ensures { OnOk result (string_bytes text.new ≡ string_bytes text.old ++ spec.caller_text (legend_seen legend.now) caller) }
{
    text.push_str("; ")?;
    push_could(alloc, legend, text, caller)
}

// Who could wake it, and for whom that process waits.
fn push_could(
    alloc: Global,
    legend: &Legend,
    text: &mut String,
    caller: Caller,
) -> Result<(), AllocError>
    ensures { OnOk result (string_bytes text.new ≡ string_bytes text.old ++ spec.could_text (legend_seen legend.now) caller) }
{
    push_process(legend, text, caller.process)?;
    text.push_str(" could do so, and waits")?;
    push_place(alloc, legend, text, caller.status, caller.holder)
}

// In which queue it waits, or at which gate for whom.
fn push_place(
    alloc: Global,
    legend: &Legend,
    text: &mut String,
    status: Status,
    holder: Option<u8>,
) -> Result<(), AllocError>
    ensures { OnOk result (string_bytes text.new ≡ string_bytes text.old ++ spec.place_text (legend_seen legend.now) status holder) }
{
    match status {
        Status::Delayed(cell) => {
            text.push_str(" in ")?;
            push_cell_queue(alloc, legend, text, cell)
        }
        Status::AtGate(monitor) => {
            text.push_str(" at the gate of ")?;
            text.push_str(legend.monitor_name(monitor))?;
            push_holder(legend, text, holder)
        }
        _ => Ok(()),
    }
}

fn push_holder(legend: &Legend, text: &mut String, holder: Option<u8>) -> Result<(), AllocError>
    ensures { OnOk result (string_bytes text.new ≡ string_bytes text.old ++ spec.holder_text (legend_seen legend.now) holder) }
{
    match holder {
        Some(process) => {
            text.push_str(" for ")?;
            push_process(legend, text, process)
        }
        None => Ok(()),
    }
}
