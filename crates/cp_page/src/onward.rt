//! What can still come beyond the page: of each state that it does not expand, how many schedules lead on to which outcome.

ghost use Rattle.std.specs.Prelude.{◌≡◌, ◌≤◌, All, IfOk, IfSome, slice_get};
ghost use Rattle.cp_machine.specs.System.{Machine, machine_of, IsStateOf};
ghost use Rattle.cp_key.specs.Key.{core_key};
ghost use Rattle.cp_run.specs.Slots.{slots};
ghost use Rattle.cp_ways.specs.Ways.{AreWaysOn};
ghost use Rattle.cp_ways.specs.Weights.{AreKnown};

use crate::ends::put_plain_end;
use crate::graph::PageGraph;
use crate::json::Json;
use crate::outcomes::{digits_of, output_text};
use crate::register::Register;
use crate::schedules::Schedules;
use cp_ends::End;
use cp_run::Outcome;
use cp_search::SearchJob;
use cp_ways::{Counting, Ways};
use indexmap::IndexSet;
use std::alloc::AllocError;

/// Goes through the page by the number of choices, from the edge before the first one on. Wherever schedules come to a state that the page does
/// not go on from, it tells what can still come of them.
pub fn tell_onward<K: Schedules>(
    job: &SearchJob<'_>,
    graph: &mut PageGraph<'_, K>,
    start: usize,
) -> Result<(), AllocError>
    requires states { All (IsStateOf job.now.run.program.now) graph.old.states.items }
{
    let mut counting: Counting = Counting::new(job.alloc);
    let mut layer = IndexSet::new(job.alloc);
    if let Some(first) = graph.target_of(Some(start)) {
        layer.insert(first)?;
    }
    for used in 0..job.run.limits.choices {
        let left = job.run.limits.choices - used;
        layer = next_layer(job, graph, &mut counting, &layer, left)?;
    }
    Ok(())
}

// The states to which one choice more leads from these. Those that the page does not expand are told of, with so many choices left.
fn next_layer<K: Schedules>(
    job: &SearchJob<'_>,
    graph: &mut PageGraph<'_, K>,
    counting: &mut Counting,
    layer: &IndexSet<usize>,
    left: u8,
) -> Result<IndexSet<usize>, AllocError>
    requires few { left ≤ 100 }
    requires states { All (IsStateOf job.now.run.program.now) graph.old.states.items }
    requires known { AreKnown (slots job.now.run.program.now job.now.run.limits.discipline) job.now.run.limits.steps counting.old.known.entries }
    ensures states { graph.new.states ≡ graph.old.states }
    ensures known { AreKnown (slots job.now.run.program.now job.now.run.limits.discipline) job.now.run.limits.steps counting.new.known.entries }
{
    let mut next = IndexSet::new(job.alloc);
    for at in layer.as_slice() {
        tell_state(job, graph, counting, *at, left)?;
        add_targets(graph, *at, &mut next)?;
    }
    Ok(next)
}

// The states to which the edges of a state lead.
fn add_targets<K: Schedules>(
    graph: &PageGraph<'_, K>,
    at: usize,
    targets: &mut IndexSet<usize>,
) -> Result<(), AllocError> {
    for edge in graph.edges_at(at) {
        if let Some(target) = graph.target_of(Some(*edge)) {
            targets.insert(target)?;
        }
    }
    Ok(())
}

// Tells what can still come from the state of this place on, where the page does not expand it, and if it can be counted.
fn tell_state<K: Schedules>(
    job: &SearchJob<'_>,
    graph: &mut PageGraph<'_, K>,
    counting: &mut Counting,
    at: usize,
    left: u8,
) -> Result<(), AllocError>
    requires few { left ≤ 100 }
    requires states { All (IsStateOf job.now.run.program.now) graph.old.states.items }
    requires known { AreKnown (slots job.now.run.program.now job.now.run.limits.discipline) job.now.run.limits.steps counting.old.known.entries }
    ensures states { graph.new.states ≡ graph.old.states }
    ensures known { AreKnown (slots job.now.run.program.now job.now.run.limits.discipline) job.now.run.limits.steps counting.new.known.entries }
{
    if !graph.is_open(at) {
        return Ok(());
    }
    let Some(ways) = count_onward(job, graph, counting, at, left)? else {
        return Ok(());
    };
    let row = ways_row(&mut graph.teller.register, &ways)?;
    let place = graph.teller.register.ways.place(&row)?;
    graph.add_onward(at, left, place)
}

/// The ways on from the state of this place, and from each one that differs from it in what was displayed before; none where they can't be counted.
fn count_onward<K: Schedules>(
    job: &SearchJob<'_>,
    graph: &PageGraph<'_, K>,
    counting: &mut Counting,
    at: usize,
    left: u8,
) -> Result<Option<Ways>, AllocError>
    requires few { left ≤ 100 }
    requires states { All (IsStateOf job.now.run.program.now) graph.now.states.items }
    requires known { AreKnown (slots job.now.run.program.now job.now.run.limits.discipline) job.now.run.limits.steps counting.old.known.entries }
    ensures known { AreKnown (slots job.now.run.program.now job.now.run.limits.discipline) job.now.run.limits.steps counting.new.known.entries }
    ensures ways { IfOk result (λ found. IfSome found (λ ways. IfSome (slice_get graph.now.states.items at) (λ s. (m : Machine) → core_key m ≡ core_key (machine_of s) → AreWaysOn (slots job.now.run.program.now job.now.run.limits.discipline) job.now.run.limits.steps left m ways.list.entries))) }
{
    let Some(state) = graph.states.get(at) else {
        return Ok(None);
    };
    counting.ways_on(job.alloc, &job.run, state, left)
}

// The row of ways on: `[outcome, count, outcome, count, ..]`, the counts as digits.
fn ways_row(register: &mut Register<'_>, ways: &Ways) -> Result<Json, AllocError> {
    let mut row = Json::new(register.alloc);
    row.open();
    for (key, count) in ways.list.iter() {
        row.put_plain(place_outcome(register, &key.outcome)?);
        row.put_quoted(digits_of(register.alloc, count)?.as_str());
    }
    row.close();
    Ok(row)
}

// The place of an outcome from a state on: `[end, what is displayed from there on]`.
fn place_outcome(register: &mut Register<'_>, outcome: &Outcome) -> Result<usize, AllocError> {
    let shown = output_text(register.alloc, register.legend, outcome.output.as_slice())?;
    let mut row = Json::new(register.alloc);
    row.open();
    put_plain_end(&mut row, End::Over(outcome.kind));
    row.put_plain(register.strings.place_text(shown.as_str())?);
    row.close();
    register.further.place(&row)
}
