//! Why nobody goes on: of each process that waits in a queue, since when, who continues it, when that was in vain, and who could still do so and waits.

ghost use Rattle.std.specs.Prelude.{◌≡◌, ◌<◌, ◌++◌, [], if◌then◌else◌, ◌∷◌, length, map, option_copied, slice_get, IfOk, Some};
ghost use Rattle.std.specs.List.{list_any};
ghost use Rattle.cp_legend.specs.Names.{component_seen, legend_seen};
ghost use Rattle.cp_machine.specs.Machine.{machine_of};
ghost use Rattle.cp_run.specs.Code.{answer_of};
ghost use Rattle.cp_slots.specs.Tables.{item_at};
ghost use Rattle.cp_story.specs.Reasons as spec;
ghost use Rattle.cp_story.specs.Reasons.{reason_seen, standstill_seen};
ghost use Rattle.cp_story.specs.Views.{queue_seen, told_of, wait_of};

use crate::ahead::{Ahead, element_at, item_count, statements_ahead, written_index};
use crate::event::{Happening, Queue, StoryEvent};
use crate::observer::queue_of_cell;
use crate::statuses::status_of;
use crate::story::Wait;
use cp_legend::{Legend, LegendComponent};
use cp_machine::{State, Status};
use cp_run::{OutcomeKind, RunEnd};
use cp_slots::{Action, Index, Place, PlaceOrigin, Resolved};
use std::alloc::{AllocError, Global};

/// A process that could still continue a queue, and waits itself.
#[derive(Clone, Copy)]
pub struct Caller {
    pub process: u8,
    pub status: Status,
    /// Who is inside the monitor at whose gate it waits.
    pub holder: Option<u8>,
}

/// Why a process that waits in a queue is not woken.
#[derive(Drop)]
pub struct WaitReason {
    pub process: u8,
    /// The cell of the queue.
    pub queue: usize,
    /// The number of the event with which it began to wait, counted from 1.
    pub since: usize,
    /// The routines that have a `continue` of the queue.
    pub entries: Vec<usize>,
    /// Those that have one of an element of its array by a computed index, which may be the queue.
    pub perhaps: Vec<usize>,
    /// The numbers of the events that continued the queue where nobody waited there.
    pub in_vain: Vec<usize>,
    /// Those who could still come to such a `continue`, and wait themselves.
    pub callers: Vec<Caller>,
}

/// The state in which all wait, the events that led there, and the statements that each process could still come to.
#[derive(Clone, Copy)]
pub struct Standstill<'a> {
    program: &'a Resolved,
    legend: &'a Legend,
    state: &'a State,
    events: &'a [StoryEvent],
    ahead: &'a [Ahead],
}

/// Why each process that waits in a queue is not woken, where a run ended since all wait.
pub fn reasons_at(
    alloc: Global,
    program: &Resolved,
    legend: &Legend,
    state: &State,
    end: &RunEnd,
    events: &[StoryEvent],
    waits: &[Wait],
) -> Result<Vec<WaitReason>, AllocError>
    ensures { IfOk result (λ v. map reason_seen v.items ≡ spec.reasons_at (legend_seen legend.now) program.now (machine_of state.now) (answer_of end.now) (map told_of events.now) (map wait_of waits.now)) }
{
    match end {
        RunEnd::Ended { outcome, .. } if is_all_waiting(outcome.kind) => {
            let ahead = statements_ahead(alloc, program, legend, state)?;
            let standstill = Standstill {
                program,
                legend,
                state,
                events,
                ahead: &ahead,
            };
            reasons_of(alloc, &standstill, waits)
        }
        _ => Ok(Vec::new(alloc)),
    }
}

fn is_all_waiting(kind: OutcomeKind) -> bool
    ensures { result ≡ spec.is_all_waiting kind }
{
    matches!(kind, OutcomeKind::AllWaiting)
}

#[tactic(auto, using(crate::proofs::Reasoning::reasons_step, crate::proofs::Reasoning::reasons_none))]
fn reasons_of(
    alloc: Global,
    standstill: &Standstill<'_>,
    waits: &[Wait],
) -> Result<Vec<WaitReason>, AllocError>
    ensures { IfOk result (λ v. map reason_seen v.items ≡ spec.reasons_of (standstill_seen standstill.now) (map wait_of waits.now)) }
{
    let mut reasons = Vec::new(alloc);
    for wait in waits {
        push_reason(alloc, standstill, wait, &mut reasons)?;
    }
    Ok(reasons)
}

fn push_reason(
    alloc: Global,
    standstill: &Standstill<'_>,
    wait: &Wait,
    reasons: &mut Vec<WaitReason>,
) -> Result<(), AllocError>
    ensures { IfOk result (λ _. map reason_seen reasons.new.items ≡ map reason_seen reasons.old.items ++ spec.reason_of_wait (standstill_seen standstill.now) (wait_of wait.now)) }
{
    push_reason_by(alloc, standstill, wait.process, wait.status, reasons)
}

// Appends why a process of this status is not woken, if it waits in a queue.
fn push_reason_by(
    alloc: Global,
    standstill: &Standstill<'_>,
    process: u8,
    status: Status,
    reasons: &mut Vec<WaitReason>,
) -> Result<(), AllocError>
    ensures { IfOk result (λ _. map reason_seen reasons.new.items ≡ map reason_seen reasons.old.items ++ spec.reason_by (standstill_seen standstill.now) process status) }
{
    if let Status::Delayed(cell) = status {
        reasons.push(reason_of(alloc, standstill, process, cell)?)?;
    }
    Ok(())
}

/// Why each process that waits in a queue is not woken, by a state alone: without the events that led there.
pub fn reasons_in(
    alloc: Global,
    program: &Resolved,
    legend: &Legend,
    state: &State,
) -> Result<Vec<WaitReason>, AllocError>
    ensures { IfOk result (λ v. map reason_seen v.items ≡ spec.reasons_in (legend_seen legend.now) program.now (machine_of state.now)) }
{
    let ahead = statements_ahead(alloc, program, legend, state)?;
    let standstill = Standstill {
        program,
        legend,
        state,
        events: &[],
        ahead: &ahead,
    };
    reasons_of_all(alloc, &standstill)
}

#[tactic(auto, using(crate::proofs::Reasoning::reasons_more))]
fn reasons_of_all(alloc: Global, standstill: &Standstill<'_>) -> Result<Vec<WaitReason>, AllocError>
    ensures { IfOk result (λ v. map reason_seen v.items ≡ spec.reasons_below (standstill_seen standstill.now) (length (machine_of standstill.now.state.now).threads)) }
{
    let mut reasons = Vec::new(alloc);
    for process in 0..standstill.state.processes.len() {
        let status = status_of(standstill.state, process as u8);
        push_reason_by(alloc, standstill, process as u8, status, &mut reasons)?;
    }
    Ok(reasons)
}

fn reason_of(
    alloc: Global,
    standstill: &Standstill<'_>,
    process: u8,
    cell: usize,
) -> Result<WaitReason, AllocError>
    ensures { IfOk result (λ r. reason_seen r ≡ spec.reason_of (standstill_seen standstill.now) process cell) }
{
    let queue = queue_of_cell(alloc, standstill.legend, cell)?;
    Ok(WaitReason {
        process,
        queue: cell,
        since: last_delay(standstill.events, process),
        entries: entries_of(alloc, standstill.program, standstill.legend, cell, false)?,
        perhaps: entries_of(alloc, standstill.program, standstill.legend, cell, true)?,
        in_vain: lost_continues(alloc, standstill.events, &queue)?,
        callers: callers_of(alloc, standstill, process, cell)?,
    })
}

// The number of the last event with which a process began to wait in a queue; 0 where there is none.
#[tactic(auto, using(crate::proofs::Reasoning::since_step, crate::proofs::Reasoning::since_none))]
fn last_delay(events: &[StoryEvent], process: u8) -> usize
    ensures { result ≡ spec.since process 0 0 (map told_of events.now) }
{
    let mut last = 0;
    for (place, event) in events.iter().enumerate() {
        last = delay_or(event, process, place, last);
    }
    last
}

// The number of an event after so many, if a process begins to wait in a queue with it, and else that which was found.
fn delay_or(event: &StoryEvent, process: u8, before: usize, found: usize) -> usize
    requires { before < 18446744073709551615 }
    ensures { result ≡ spec.with_delay process found before (told_of event.now) }
{
    match event.happening {
        Happening::Delay(..) if event.plain.process == process => before + 1,
        _ => found,
    }
}

// The numbers of the events that continue a queue where nobody waits.
#[tactic(auto, using(crate::proofs::Reasoning::in_vain_step, crate::proofs::Reasoning::in_vain_none))]
fn lost_continues(
    alloc: Global,
    events: &[StoryEvent],
    queue: &Queue,
) -> Result<Vec<usize>, AllocError>
    ensures { IfOk result (λ v. v.items ≡ spec.in_vain (queue_seen queue.now) [] 0 (map told_of events.now)) }
{
    let mut numbers = Vec::new(alloc);
    for (place, event) in events.iter().enumerate() {
        push_lost(event, queue, place, &mut numbers)?;
    }
    Ok(numbers)
}

fn push_lost(
    event: &StoryEvent,
    queue: &Queue,
    before: usize,
    numbers: &mut Vec<usize>,
) -> Result<(), AllocError>
    requires { before < 18446744073709551615 }
    ensures { IfOk result (λ _. numbers.new.items ≡ spec.with_lost (queue_seen queue.now) numbers.old.items before (told_of event.now)) }
{
    if is_lost(event, queue) {
        numbers.push(before + 1)?;
    }
    Ok(())
}

fn is_lost(event: &StoryEvent, queue: &Queue) -> bool
    ensures { result ≡ spec.is_lost (queue_seen queue.now) (told_of event.now) }
{
    match &event.happening {
        Happening::Continue(other, ..) => event.woken.is_empty() && is_same(other, queue),
        _ => false,
    }
}

fn is_same(one: &Queue, other: &Queue) -> bool
    ensures { result ≡ spec.is_same (queue_seen one.now) (queue_seen other.now) }
{
    one.monitor == other.monitor && one.name.as_str() == other.name.as_str()
}

// The routines that have a `continue` of the queue of a cell, or may have one by a computed index.
#[tactic(auto, using(crate::proofs::Reasoning::entries_more))]
fn entries_of(
    alloc: Global,
    program: &Resolved,
    legend: &Legend,
    cell: usize,
    computed: bool,
) -> Result<Vec<usize>, AllocError>
    ensures { IfOk result (λ v. v.items ≡ spec.entries (legend_seen legend.now) program.now computed cell) }
{
    let mut entries = Vec::new(alloc);
    let Some(owner) = legend.owner(cell) else {
        return Ok(entries);
    };
    let own = cell.saturating_sub(owner.base);
    for at in 0..item_count(program) {
        push_entry(program, computed, owner.system, own, at, &mut entries)?;
    }
    Ok(entries)
}

// Appends the routine of an item, if that continues a cell of a system type, and the routine is not there.
fn push_entry(
    program: &Resolved,
    computed: bool,
    system: usize,
    own: usize,
    at: usize,
    entries: &mut Vec<usize>,
) -> Result<(), AllocError>
    requires { at < length program.now.items }
    ensures { IfOk result (λ _. entries.new.items ≡ spec.with_entry program.now computed system own entries.old.items (item_at program.now at)) }
{
    let item = program.item(at);
    let is_of_system = program.routine(item.routine).system == system;
    let continues = is_of_system && continues_by(&item.action, computed, own);
    if continues && !entries.contains(&item.routine) {
        entries.push(item.routine)?;
    }
    Ok(())
}

// Whether an item continues a queue by a computed index, or else surely.
fn continues_by(action: &Action, computed: bool, own: usize) -> bool
    ensures { result ≡ spec.continues_by computed own action.now }
{
    may_continue(action, own) && is_computed(action) == computed
}

// Whether it isn't known ahead of which element an item continues the queue.
fn is_computed(action: &Action) -> bool
    ensures { result ≡ spec.is_computed action.now }
{
    match action {
        Action::Continue(place) => is_open(place.indices.first()),
        _ => false,
    }
}

// Whether a computed index may be that of several elements.
fn is_open(index: Option<&Index>) -> bool
    ensures { result ≡ spec.is_open (option_copied index.entry) }
{
    match index {
        Some(index) => written_index(&index.at).is_none() && index.low < index.high,
        None => false,
    }
}

// Whether an item continues the queue of a permanent cell of the component that is executed, or an element of its array.
fn may_continue(action: &Action, own: usize) -> bool
    ensures { result ≡ spec.may_continue own action.now }
{
    match action {
        Action::Continue(place) => has_cell(place, own),
        _ => false,
    }
}

// A queue stands alone or in an array of one index.
fn has_cell(place: &Place, own: usize) -> bool
    ensures { result ≡ spec.has_cell own place.now }
{
    match place.origin {
        PlaceOrigin::Permanent(slot) => {
            is_part(
                place.indices.first(),
                slot.saturating_add(place.offset),
                own,
            )
        }
        PlaceOrigin::Local(_) | PlaceOrigin::Reference(_) => false,
    }
}

fn is_part(index: Option<&Index>, start: usize, own: usize) -> bool
    ensures { result ≡ spec.is_part (option_copied index.entry) start own }
{
    match index {
        Some(index) => is_element(index, start, own),
        None => own == start,
    }
}

// Whether a cell is the element of an index, or may be where the index is computed.
fn is_element(index: &Index, start: usize, own: usize) -> bool
    ensures { result ≡ spec.is_element index.now start own }
{
    match written_index(&index.at) {
        Some(value) => element_at(start, index.low, index.high, index.size, value) == Some(own),
        None => start <= own && own < start.saturating_add(cells_of(index)),
    }
}

// The cells of all elements of an array.
fn cells_of(index: &Index) -> usize
    ensures { result ≡ spec.cells_of index.now }
{
    usize::from(index.high.abs_diff(index.low))
        .saturating_add(1)
        .saturating_mul(index.size)
}

// Who could still come to a `continue` of the queue of a cell, but one process, and waits.
fn callers_of(
    alloc: Global,
    standstill: &Standstill<'_>,
    process: u8,
    cell: usize,
) -> Result<Vec<Caller>, AllocError>
    ensures { IfOk result (λ v. v.items ≡ spec.callers (standstill_seen standstill.now) process cell) }
{
    let mut callers = Vec::new(alloc);
    for other in 0..standstill.state.processes.len() {
        push_caller(standstill, process, cell, other as u8, &mut callers)?;
    }
    Ok(callers)
}

fn push_caller(
    standstill: &Standstill<'_>,
    process: u8,
    cell: usize,
    other: u8,
    callers: &mut Vec<Caller>,
) -> Result<(), AllocError>
    ensures { IfOk result (λ _. callers.new.items ≡ callers.old.items ++ map (spec.caller_at (machine_of standstill.now.state.now)) (if spec.is_caller (standstill_seen standstill.now) process cell other then other ∷ [] else [])) }
{
    let status = status_of(standstill.state, other);
    if other != process && status.waits() && may_come(standstill, other, cell) {
        callers.push(Caller {
            process: other,
            status,
            holder: holder_before(standstill.state, status),
        })?;
    }
    Ok(())
}

// Whether a process may come to a statement that continues the queue of a cell.
fn may_come(standstill: &Standstill<'_>, process: u8, cell: usize) -> bool
    ensures { result ≡ list_any (spec.continues_cell (standstill_seen standstill.now) process cell) standstill.now.ahead.now }
{
    for one in standstill.ahead {
        if continues_cell(standstill, process, cell, *one) {
            return true;
        }
    }
    false
}

fn continues_cell(standstill: &Standstill<'_>, process: u8, cell: usize, one: Ahead) -> bool
    ensures { result ≡ spec.continues_cell (standstill_seen standstill.now) process cell one }
{
    one.process == process
        && one.at < item_count(standstill.program)
        && continues_at(standstill, cell, one)
}

fn continues_at(standstill: &Standstill<'_>, cell: usize, one: Ahead) -> bool
    requires { one.at < length standstill.now.program.now.items }
    ensures { result ≡ spec.continues_in (slice_get (legend_seen standstill.now.legend.now).components one.component) cell (item_at standstill.now.program.now one.at).action }
{
    let item = standstill.program.item(one.at);
    continues_in(standstill.legend, one.component, cell, &item.action)
}

fn continues_in(legend: &Legend, component: usize, cell: usize, action: &Action) -> bool
    ensures { result ≡ spec.continues_in (slice_get (legend_seen legend.now).components component) cell action.now }
{
    match legend.components.get(component) {
        Some(component) => continues_of(component, cell, action),
        None => false,
    }
}

fn continues_of(component: &LegendComponent, cell: usize, action: &Action) -> bool
    ensures { result ≡ spec.continues_in (Some (component_seen component.now)) cell action.now }
{
    component.base <= cell && may_continue(action, cell - component.base)
}

// Who is inside the monitor at whose gate a process of this status waits.
fn holder_before(state: &State, status: Status) -> Option<u8>
    ensures { result ≡ spec.holder_before (machine_of state.now) status }
{
    match status {
        Status::AtGate(monitor) => state.guards.get(monitor as usize)?.holder,
        _ => None,
    }
}
