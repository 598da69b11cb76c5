//! Ranks that show that a process does not wait for ever.

ghost use Rattle.std.specs.Prelude.{◌≡◌, ◌↔◌, IsTrue, slice_get};
ghost use Rattle.cp_waits.specs.Ranks.{AreRanks, IsRanked, IsPassedOver, rank_in, passed_over_in};
ghost use Rattle.cp_waits.specs.Walks.{IsEdge};
ghost use Rattle.cp_waits.specs.declared.graph.Edge.{Edge};

use crate::components::EdgeComponents;
use crate::graph::{Edge, Graph};
use crate::passing::{Keeping, PassingSets};

/// Whether the numbers of the components are such ranks: while the process keeps doing this no choice raises them, and while a number
/// stays some process is passed over, or the process is never seen to wait.
pub fn are_ranks(graph: &Graph, parts: &EdgeComponents, keeping: Keeping) -> bool
    ensures { IsTrue result ↔ AreRanks graph.now keeping (rank_in parts.now) (passed_over_in parts.now) }
{
    for state in 0..graph.states() {
        if !is_state_ranked(graph, parts, keeping, state) {
            return false;
        }
    }
    true
}

fn is_state_ranked(graph: &Graph, parts: &EdgeComponents, keeping: Keeping, state: usize) -> bool
    ensures { IsTrue result ↔ ((e : Edge) → IsEdge graph.now state e → IsRanked graph.now keeping (rank_in parts.now) (passed_over_in parts.now) state e) }
{
    for place in graph.begin(state)..graph.end(state) {
        if !is_ranked_at(graph, parts, keeping, state, place) {
            return false;
        }
    }
    true
}

fn is_ranked_at(
    graph: &Graph,
    parts: &EdgeComponents,
    keeping: Keeping,
    state: usize,
    place: usize,
) -> bool
    ensures { IsTrue result ↔ ((e : Edge) → slice_get graph.now.edges.items place ≡ Some e → IsRanked graph.now keeping (rank_in parts.now) (passed_over_in parts.now) state e) }
{
    match graph.edge(place) {
        Some(edge) => is_ranked(graph, parts, keeping, state, &edge),
        None => true,
    }
}

/// Whether the choice raises no number, and passes somebody over where the number stays.
pub fn is_ranked(
    graph: &Graph,
    parts: &EdgeComponents,
    keeping: Keeping,
    state: usize,
    edge: &Edge,
) -> bool
    ensures { IsTrue result ↔ IsRanked graph.now keeping (rank_in parts.now) (passed_over_in parts.now) state edge.now }
{
    let Some(to) = edge.to else {
        return true;
    };
    if !keeping.holds(&edge.passing) {
        return true;
    }
    let before = parts.number_of(state);
    let after = parts.number_of(to as usize);
    if after != before {
        return after < before;
    }
    let passed_over = parts.who_is_passed_over(before);
    is_passed_over(graph.processes, keeping, passed_over, &edge.passing)
}

// Whether nobody is served whom the component passes over, or the process does not wait where it has to.
fn is_passed_over(
    processes: u8,
    keeping: Keeping,
    passed_over: Option<u8>,
    passing: &PassingSets,
) -> bool
    ensures { IsTrue result ↔ IsPassedOver processes keeping passed_over passing.now }
{
    match passed_over {
        Some(pid) => pid < processes && !passing.served.has(pid),
        None => match keeping {
            Keeping::Waiting(_) => false,
            Keeping::Inside(pid) => !passing.wait_once.has(pid),
        },
    }
}
