//! Words that lead through a component and back, and in which each process is served.

ghost use Rattle.std.specs.Prelude.{IfOk, IfSome};
ghost use Rattle.cp_waits.specs.Walks.{IsRound};

use crate::components::{EdgeComponents, at, list_of, set_at};
use crate::graph::{Edge, Graph};
use crate::passing::{Keeping, PassingSets};
use crate::set::Set;
use crate::trails::{Round, round_along};
use std::alloc::{AllocError, Global};

// What edges of a round are still looked for.
#[derive(Clone, Copy)]
struct Wanted {
    // These are not served yet.
    processes: Set,
    // And this one has not waited yet.
    waits: Option<u8>,
}

// Where a way is to lead.
#[derive(Clone, Copy)]
enum Destination {
    // Over an edge that is wanted.
    Wanted(Wanted),
    // To a state.
    State(u32),
}

// A way through a component.
#[derive(Drop)]
struct Tour {
    keeping: Keeping,
    part: u32,
    state: u32,
    // The places of the edges that were gone.
    gone: Vec<usize>,
    wanted: Wanted,
    // Of each state that is come to, while a next edge is looked for: from which, by the edge at which place, and in which search.
    from: Vec<u32>,
    by: Vec<usize>,
    seen: Vec<u32>,
    turn: u32,
    queue: Vec<u32>,
    way: Vec<usize>,
}

impl Wanted {
    fn is_met_by(self, passing: &PassingSets) -> bool {
        let serves = !self.processes.and(passing.served).is_empty();
        let waits = match self.waits {
            Some(pid) => passing.wait_once.has(pid),
            None => false,
        };
        serves || waits
    }

    fn after(self, passing: &PassingSets) -> Wanted {
        Wanted {
            processes: self.processes.but(passing.served),
            waits: match self.waits {
                Some(pid) if !passing.wait_once.has(pid) => Some(pid),
                _ => None,
            },
        }
    }

    fn is_nothing(self) -> bool {
        self.processes.is_empty() && self.waits.is_none()
    }
}

/// A word that leads from the first state of a fair component back to it, on which the process keeps doing this and each process is
/// served.
pub fn round_in(
    alloc: Global,
    graph: &Graph,
    parts: &EdgeComponents,
    keeping: Keeping,
    part: u32,
    first: u32,
) -> Result<Option<Round>, AllocError>
    ensures { IfOk result (λ o. IfSome o (λ r. IsRound graph.now keeping first r.word.items)) }
{
    let mut tour = tour_from(alloc, graph, keeping, part, first)?;
    // Each way but the last serves a process more, or has this one wait.
    for _ in 0..20 {
        let aim = if tour.wanted.is_nothing() {
            if tour.state == first && !tour.gone.is_empty() {
                return round_along(alloc, graph, keeping, first as usize, tour.gone.as_slice());
            }
            Destination::State(first)
        } else {
            Destination::Wanted(tour.wanted)
        };
        if !tour.go_to(graph, parts, aim)? {
            return Ok(None);
        }
    }
    Ok(None)
}

fn tour_from(
    alloc: Global,
    graph: &Graph,
    keeping: Keeping,
    part: u32,
    first: u32,
) -> Result<Tour, AllocError> {
    let states = graph.states();
    let mut by = Vec::with_capacity(alloc, states)?;
    for _ in 0..states {
        by.push(0usize)?;
    }
    Ok(Tour {
        keeping,
        part,
        state: first,
        gone: Vec::new(alloc),
        wanted: Wanted {
            processes: graph.everybody(),
            waits: match keeping {
                Keeping::Waiting(_) => None,
                Keeping::Inside(pid) => Some(pid),
            },
        },
        from: list_of(alloc, states, 0)?,
        by,
        seen: list_of(alloc, states, 0)?,
        turn: 0,
        queue: Vec::new(alloc),
        way: Vec::new(alloc),
    })
}

impl Tour {
    // Goes the shortest way there. `false` where there is none.
    fn go_to(
        &mut self,
        graph: &Graph,
        parts: &EdgeComponents,
        aim: Destination,
    ) -> Result<bool, AllocError> {
        self.turn = self.turn.saturating_add(1);
        self.queue.clear();
        self.queue.push(self.state)?;
        set_at(&mut self.seen, self.state, self.turn);
        for next in 0..graph.states() {
            let Some(state) = self.queue.get(next) else {
                return Ok(false);
            };
            let state = *state;
            for place in graph.begin(state as usize)..graph.end(state as usize) {
                let Some(edge) = graph.edges.get(place) else {
                    continue;
                };
                let Some(to) = self.next_of(parts, edge) else {
                    continue;
                };
                if is_met(aim, to, edge) {
                    self.go_along(graph, state, place)?;
                    return Ok(true);
                }
                self.come_to(to, state, place)?;
            }
        }
        Ok(false)
    }

    // Where an edge of the component leads.
    fn next_of(&self, parts: &EdgeComponents, edge: &Edge) -> Option<u32> {
        let to = edge.to?;
        if self.keeping.holds(&edge.passing) && parts.number_of(to as usize) == self.part {
            Some(to)
        } else {
            None
        }
    }

    fn come_to(&mut self, to: u32, from: u32, place: usize) -> Result<(), AllocError> {
        if at(&self.seen, to) == self.turn {
            return Ok(());
        }
        set_at(&mut self.seen, to, self.turn);
        set_at(&mut self.from, to, from);
        if let Some(by) = self.by.get_mut(to as usize) {
            *by = place;
        }
        self.queue.push(to)?;
        Ok(())
    }

    // Goes the way that led to a state, and the edge after it.
    fn go_along(&mut self, graph: &Graph, state: u32, place: usize) -> Result<(), AllocError> {
        self.way.clear();
        self.way.push(place)?;
        let mut back = state;
        for _ in 0..graph.states() {
            if back == self.state {
                break;
            }
            let Some(by) = self.by.get(back as usize) else {
                break;
            };
            self.way.push(*by)?;
            back = at(&self.from, back);
        }
        self.way.reverse();
        for place in &self.way {
            if let Some(edge) = graph.edges.get(*place) {
                self.gone.push(*place)?;
                self.wanted = self.wanted.after(&edge.passing);
                self.state = edge.to.unwrap_or(self.state);
            }
        }
        Ok(())
    }
}

fn is_met(aim: Destination, to: u32, edge: &Edge) -> bool {
    match aim {
        Destination::Wanted(wanted) => wanted.is_met_by(&edge.passing),
        Destination::State(state) => to == state,
    }
}
