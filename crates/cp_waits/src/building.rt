//! The graph of the states that are found, made in the same search.

ghost use Rattle.std.specs.Prelude.{◌≡◌, ◌≤◌, ℕ, List, IfOk, None, length};
ghost use Rattle.cp_slots.specs.Tables.{Tables};
ghost use Rattle.cp_machine.specs.System.{Machine};
ghost use Rattle.cp_machine.specs.declared.discipline.Discipline as slot_discipline;
ghost use Rattle.cp_endless_laws.specs.Silent.{silent_slots, in_call_on_slots, waits_on_slots};
ghost use Rattle.cp_ends.specs.Holds.{HasFindings};
ghost use Rattle.cp_ends.specs.Legs.{Leg};
ghost use Rattle.cp_ends.specs.Whole.{IsAnswer};
ghost use Rattle.cp_waits.specs.Building.{AddsStill, IsOfStretch, IsSearchedGraph};
ghost use Rattle.cp_waits.specs.Graphs.{HasGraph};
ghost use Rattle.cp_waits.specs.Legs.{Comes};

use crate::graph::{Edge, Graph, Standstill};
use crate::passing::PassingSets;
use arrayvec::ArrayVec;
use cp_ends::Found;
use cp_ends::origin::Origin;
use cp_ends::row::StateRow;
use cp_ends::rows::RowSearch;
use cp_ends::visit::{RowVisit, visit_rows};
use cp_progress::{ObserveProgress, Progress};
use cp_run::{Halt, Job};
use cp_search::SearchJob;
use std::alloc::{AllocError, Global};

/// What a search finds, and the choices of each state with what happens on the way to the next one.
#[derive(Drop)]
pub struct FoundGraph {
    pub found: Found,
    pub graph: Graph,
}

// What is found so far, and the choices of the states that were expanded.
struct GraphVisit {
    search: RowSearch<PassingSets>,
    graph: Graph,
}

// One call where it is dropped, not one for each list: proofs of functions that may end early are much shorter.
impl Drop for GraphVisit {
    fn drop(self) {
        let GraphVisit {
            search: _,
            graph: _,
        } = self;
    }
}

/// Searches as for ends, and notes each choice. An observer is told how far this has come.
pub fn search_graph<O: ObserveProgress>(
    alloc: Global,
    job: &Job<'_>,
    most: u32,
    observer: &mut O,
) -> Result<FoundGraph, AllocError>
    ensures answer { 1 ≤ most → IfOk result (λ x. IsAnswer job.now.program.now job.now.limits.discipline job.now.limits.steps most x.found) }
    ensures kept { IfOk result (λ x. HasFindings job.now.program.now x.found) }
    ensures graph { IfOk result (λ x. x.found.stopped ≡ None → HasGraph job.now.program.now job.now.limits.discipline job.now.limits.steps x.found x.graph) }
{
    let states = if most == 0 { 1 } else { most };
    let job = SearchJob {
        alloc,
        run: *job,
        most: states,
    };
    build_graph(&job, observer)
}

fn build_graph<O: ObserveProgress>(
    job: &SearchJob<'_>,
    observer: &mut O,
) -> Result<FoundGraph, AllocError>
    requires most { 1 ≤ job.now.most }
    ensures { IfOk result (λ x. IsSearchedGraph job.now.run.program.now job.now.run.limits.discipline job.now.run.limits.steps job.now.most x.found x.graph x.found.stopped) }
{
    let search = RowSearch::start(job)?;
    let graph = Graph::new(job.alloc, job.run.program.processes());
    let mut visit: GraphVisit = GraphVisit { search, graph };
    let arrived = visit.search.open(job)?;
    let halt = arrived.halt(visit.search.told.again);
    visit.graph.note_standstill(halt, Origin::Start)?;
    let stopped = visit_rows(job, &mut visit, observer)?;
    visit.search.found.stopped = stopped;
    Ok(visit.into_found())
}

impl GraphVisit {
    // What is found, without the room.
    fn into_found(self) -> FoundGraph
        ensures { result ≡ record { found = self.search.found; graph = self.graph } }
    {
        let GraphVisit { search, graph } = self;
        FoundGraph {
            found: search.into_found(),
            graph,
        }
    }
}

impl RowVisit<PassingSets> for GraphVisit {
    ghost use Rattle.std.specs.Prelude.{length};
    ghost use Rattle.cp_ends.specs.Answer.{IsStopped, slot_graph};
    ghost use Rattle.cp_ends.specs.ByRows.{HasRoom, IsWithinRow};
    ghost use Rattle.cp_waits.specs.Building.{IsBuilt, IsBuiltTo, IsWithin};
    ghost use Rattle.cp_waits.specs.Passings.{IsLook};

    ghost before = { λ v job n. HasRoom job.run.limits.discipline v.search × IsBuiltTo job.run.program.now job.run.limits.discipline job.run.limits.steps job.most v.search.found n v.graph };

    ghost within = { λ v job from at m done. IsWithinRow (λ p r n. IsLook (length r.processes) n p) job.run.program.now job.run.limits.discipline job.run.limits.steps job.most v.search from at m done × IsWithin job.run.program.now job.run.limits.discipline job.run.limits.steps job.most v.search.found at m done v.graph };

    ghost over = { λ v job. IsBuilt job.run.program.now job.run.limits.discipline job.run.limits.steps job.most v.search.found v.graph };

    ghost stops = { λ v job at. IsStopped job.run.program.now (slot_graph job.run.program.now job.run.limits.discipline job.run.limits.steps) job.most v.search.found at };

    fn len(&self) -> usize {
        self.search.len()
    }

    fn progress(&self, choices: u32) -> Progress {
        self.search.progress(choices)
    }

    #[inline(always)]
    fn state_at(&self, _job: &SearchJob<'_>, number: u32) -> Option<StateRow<PassingSets>> {
        self.search.found.states.state_at(number)
    }

    #[inline(always)]
    fn candidates(
        &self,
        job: &SearchJob<'_>,
        at: u32,
        from: &StateRow<PassingSets>,
    ) -> ArrayVec<u8, 16> {
        self.search.candidates(job, at, from)
    }

    #[inline(always)]
    fn take(
        &mut self,
        job: &SearchJob<'_>,
        at: u32,
        from: &StateRow<PassingSets>,
        process: u8,
    ) -> Result<bool, AllocError> {
        let arrived = self.search.take_choice(job, at, from, process)?;
        if !arrived.has_room() {
            return Ok(false);
        }
        let origin = Origin::Choice {
            state: at,
            number: process,
        };
        let halt = arrived.halt(self.search.told.again);
        self.graph.note_standstill(halt, origin)?;
        self.graph.edges.push(Edge {
            number: process,
            to: arrived.number(),
            passing: self.search.told.seen,
        })?;
        Ok(true)
    }

    fn end_state(&mut self, job: &SearchJob<'_>, at: u32) -> Result<(), AllocError> {
        self.search.end_state(job, at)?;
        self.graph.end_state()
    }

    ghost fills = { λ v job h. record { whole = record { count = job.most; holds = h.1.ends; all = h.1.ends.few }; graph = h.1.graph } };
}

impl Graph {
    // A word leads to a stretch that may go on for ever without a choice.
    fn note_standstill(
        &mut self,
        halt: Halt<Option<PassingSets>>,
        origin: Origin,
    ) -> Result<(), AllocError>
        ensures processes { self.new.processes ≡ self.old.processes }
        ensures edges { self.new.edges.items ≡ self.old.edges.items }
        ensures ends { self.new.ends.items ≡ self.old.ends.items }
        ensures still { IfOk result (λ _. (r : Tables) (discipline : slot_discipline.Discipline) (steps : ℕ) (leg : Leg Machine) (due : List Machine) (seen : PassingSets) (m : Machine) → length r.processes ≤ 16 → self.old.processes ≡ length r.processes → IsOfStretch (silent_slots r discipline) steps leg → Comes r discipline steps leg due seen halt m → AddsStill (silent_slots r discipline) in_call_on_slots waits_on_slots steps leg origin self.old self.new) }
    {
        let Halt::Ended(round) = halt else {
            return Ok(());
        };
        let Some(again) = round else {
            return Ok(());
        };
        let is_fair = self.everybody().but(again.served).is_empty();
        if is_fair && !again.wait.is_empty() {
            self.standstills.push(Standstill { origin, again })?;
        }
        Ok(())
    }
}
