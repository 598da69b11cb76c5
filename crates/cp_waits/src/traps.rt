//! Traps: states in which a process keeps waiting whatever is chosen.

ghost use Rattle.std.specs.Prelude.{◌≡◌, ◌↔◌, IsTrue, Some, slice_get};
ghost use Rattle.cp_waits.specs.Ranks.{rank_in, passed_over_in};
ghost use Rattle.cp_waits.specs.Traps.{AreTraps, HasEdge, IsStateLed, LeadsToTrap, StaysTrapped, is_trap_in};
ghost use Rattle.cp_waits.specs.Walks.{IsEdge};
ghost use Rattle.cp_waits.specs.declared.graph.Edge.{Edge};

use crate::components::EdgeComponents;
use crate::graph::{Edge, Graph};
use crate::passing::Keeping;
use crate::ranks::is_ranked;

/// Whether each schedule in which the process keeps doing this for ever comes to a trap: no choice leads out of a trap, and the numbers
/// of the other components are ranks.
pub fn are_traps(graph: &Graph, parts: &EdgeComponents, keeping: Keeping) -> bool
    ensures { IsTrue result ↔ AreTraps graph.now keeping (rank_in parts.now) (passed_over_in parts.now) (is_trap_in parts.now) }
{
    for state in 0..graph.states() {
        if !is_state_led(graph, parts, keeping, state) {
            return false;
        }
    }
    true
}

fn is_state_led(graph: &Graph, parts: &EdgeComponents, keeping: Keeping, state: usize) -> bool
    ensures { IsTrue result ↔ IsStateLed graph.now keeping (rank_in parts.now) (passed_over_in parts.now) (is_trap_in parts.now) state }
{
    let is_trap = parts.is_trap(parts.number_of(state));
    (!is_trap || has_edge(graph, state)) && are_edges_led(graph, parts, keeping, state, is_trap)
}

fn has_edge(graph: &Graph, state: usize) -> bool
    ensures { IsTrue result ↔ HasEdge graph.now state }
{
    let place = graph.begin(state);
    if graph.end(state) <= place {
        return false;
    }
    match graph.edge(place) {
        Some(_) => true,
        None => false,
    }
}

fn are_edges_led(
    graph: &Graph,
    parts: &EdgeComponents,
    keeping: Keeping,
    state: usize,
    is_trap: bool,
) -> bool
    ensures { IsTrue result ↔ ((e : Edge) → IsEdge graph.now state e → LeadsToTrap graph.now keeping (rank_in parts.now) (passed_over_in parts.now) (is_trap_in parts.now) is_trap state e) }
{
    for place in graph.begin(state)..graph.end(state) {
        if !is_edge_led_at(graph, parts, keeping, state, is_trap, place) {
            return false;
        }
    }
    true
}

fn is_edge_led_at(
    graph: &Graph,
    parts: &EdgeComponents,
    keeping: Keeping,
    state: usize,
    is_trap: bool,
    place: usize,
) -> bool
    ensures { IsTrue result ↔ ((e : Edge) → slice_get graph.now.edges.items place ≡ Some e → LeadsToTrap graph.now keeping (rank_in parts.now) (passed_over_in parts.now) (is_trap_in parts.now) is_trap state e) }
{
    match graph.edge(place) {
        Some(edge) => is_edge_led(graph, parts, keeping, state, is_trap, &edge),
        None => true,
    }
}

fn is_edge_led(
    graph: &Graph,
    parts: &EdgeComponents,
    keeping: Keeping,
    state: usize,
    is_trap: bool,
    edge: &Edge,
) -> bool
    ensures { IsTrue result ↔ LeadsToTrap graph.now keeping (rank_in parts.now) (passed_over_in parts.now) (is_trap_in parts.now) is_trap state edge.now }
{
    if is_trap {
        stays_trapped(parts, keeping, edge)
    } else {
        is_ranked(graph, parts, keeping, state, edge)
    }
}

fn stays_trapped(parts: &EdgeComponents, keeping: Keeping, edge: &Edge) -> bool
    ensures { IsTrue result ↔ StaysTrapped keeping (rank_in parts.now) (is_trap_in parts.now) edge.now }
{
    if !keeping.holds(&edge.passing) {
        return false;
    }
    match edge.to {
        Some(to) => parts.is_trap(parts.number_of(to as usize)),
        None => true,
    }
}
