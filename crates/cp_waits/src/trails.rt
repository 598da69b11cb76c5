//! Going along a round once, to see that it is one.

ghost use Rattle.std.specs.Prelude.{◌≡◌, ◌<◌, ℕ, true, Some, IsTrue, IfOk, IfSome};
ghost use Rattle.cp_waits.specs.Keeps.{keeps};
ghost use Rattle.cp_waits.specs.Sets.{has};
ghost use Rattle.cp_waits.specs.Walks.{IsEdge, IsRound, IsTrail, WaitedAlong};
ghost use Rattle.cp_waits.specs.declared.graph.Graph.{Graph};

use crate::graph::{Edge, Graph};
use crate::passing::Keeping;
use crate::set::Set;
use std::alloc::{AllocError, Global};

/// A word that leads back to where it began.
#[derive(Drop)]
pub struct Round {
    pub word: Vec<u8>,
    /// Those that make a step on it.
    pub step: Set,
}

// The way that was gone so far.
#[derive(Drop)]
struct Trail {
    // Where it led.
    state: usize,
    word: Vec<u8>,
    // Those that are served on some of its edges.
    served: Set,
    // Those that wait on some of them.
    wait_once: Set,
    // Those that make a step.
    step: Set,
}

// An edge, and where it leads.
#[derive(Clone, Copy)]
struct Next {
    edge: Edge,
    to: usize,
}

/// The round that goes from a state along the edges at these places, if it is one that can be gone for ever while the process keeps doing
/// this.
pub fn round_along(
    alloc: Global,
    graph: &Graph,
    keeping: Keeping,
    first: usize,
    places: &[usize],
) -> Result<Option<Round>, AllocError>
    ensures { IfOk result (λ o. IfSome o (λ r. IsRound graph.now keeping first r.word.items)) }
{
    let mut trail = Trail::at(alloc, first);
    for place in places {
        let Some(next) = next_at(graph, keeping, trail.state, *place) else {
            return Ok(None);
        };
        trail.go(&next)?;
    }
    if trail.is_round(graph, keeping, first) {
        Ok(Some(Round {
            word: trail.word,
            step: trail.step,
        }))
    } else {
        Ok(None)
    }
}

// The edge at this place, if it is one of the state on which the process keeps doing this.
fn next_at(graph: &Graph, keeping: Keeping, state: usize, place: usize) -> Option<Next>
    ensures { IfSome result (λ n. IsEdge graph.now state n.edge × (keeps keeping n.edge.passing ≡ true) × (n.edge.to ≡ Some n.to)) }
{
    if place < graph.begin(state) || graph.end(state) <= place {
        return None;
    }
    let edge = graph.edge(place)?;
    let to = edge.to?;
    if keeping.holds(&edge.passing) {
        Some(Next {
            edge,
            to: to as usize,
        })
    } else {
        None
    }
}

impl Trail {
    // No edge was gone yet.
    fn at(alloc: Global, state: usize) -> Trail
        ensures { (g : Graph) (keeping : Keeping) → IsTrail g keeping state result }
    {
        Trail {
            state,
            word: Vec::new(alloc),
            served: Set::nobody(),
            wait_once: Set::nobody(),
            step: Set::nobody(),
        }
    }

    // Goes on along an edge.
    fn go(&mut self, next: &Next) -> Result<(), AllocError>
        ensures { IfOk result (λ _. (g : Graph) (keeping : Keeping) (first : ℕ) → IsTrail g keeping first self.old → IsEdge g self.old.state next.now.edge → keeps keeping next.now.edge.passing ≡ true → next.now.edge.to ≡ Some next.now.to → IsTrail g keeping first self.new) }
    {
        self.word.push(next.edge.number)?;
        self.served = self.served.or(next.edge.passing.served);
        self.wait_once = self.wait_once.or(next.edge.passing.wait_once);
        self.step = self.step.or(next.edge.passing.step);
        self.state = next.to;
        Ok(())
    }

    // Whether it came back, and each process was served.
    fn is_round(&self, graph: &Graph, keeping: Keeping, first: usize) -> bool
        ensures { IsTrue result → IsTrail graph.now keeping first self.now → IsRound graph.now keeping first self.now.word.items }
    {
        self.state == first
            && !self.word.is_empty()
            && serves_all(self.served, graph.processes)
            && has_waited(self.wait_once, keeping)
    }
}

fn serves_all(served: Set, processes: u8) -> bool
    ensures { IsTrue result → (q : ℕ) → q < processes → has served q ≡ true }
{
    for pid in 0..processes {
        if !served.has(pid) {
            return false;
        }
    }
    true
}

fn has_waited(wait_once: Set, keeping: Keeping) -> bool
    ensures { IsTrue result → WaitedAlong keeping wait_once }
{
    !keeping.lacks(wait_once)
}
