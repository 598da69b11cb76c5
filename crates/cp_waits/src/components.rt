//! Strongly connected components: the states between which a process can go on doing something for ever.

ghost use Rattle.std.specs.Prelude.{◌≡◌, ℕ, IfOk, Some};
ghost use Rattle.cp_waits.specs.Ranks.{rank_in, passed_over_in};
ghost use Rattle.cp_waits.specs.Traps.{is_trap_in};

use crate::graph::{Edge, Graph};
use crate::passing::Keeping;
use crate::set::Set;
use std::alloc::{AllocError, Global};

// The number of no component.
const NONE: u32 = u32::MAX;

/// A component.
#[derive(Clone, Copy)]
pub struct EdgeComponent {
    /// The first of its states.
    pub least: u32,
    /// Those that are served on some of its edges.
    pub served: Set,
    /// Those that wait on some of its edges.
    pub wait_once: Set,
    /// Somebody who is served on none of its edges.
    pub passed_over: Option<u8>,
    /// Whether it has an edge.
    pub has_edge: bool,
    /// Whether no choice leads out of it, nor out of the components to which choices lead from it, to where the process does otherwise.
    pub is_trap: bool,
}

/// The component of each state, and what they are. No edge leads to a component of a greater number.
#[derive(Drop)]
pub struct EdgeComponents {
    pub of: Vec<u32>,
    pub parts: Vec<EdgeComponent>,
}

// A state whose edges are followed, from this one on and before this one.
#[derive(Clone, Copy)]
struct Visit {
    state: u32,
    next: usize,
    end: usize,
}

// The algorithm of Tarjan, whose calls are visits.
#[derive(Drop)]
struct ComponentSearch {
    keeping: Keeping,
    parts: EdgeComponents,
    // When a state was come to, counted from 1, or 0.
    order: Vec<u32>,
    // The earliest state that is known to be in the same component.
    low: Vec<u32>,
    count: u32,
    path: Vec<Visit>,
    // The states that have no component yet.
    open: Vec<u32>,
    members: Vec<u32>,
}

/// The components of the graph that has those edges alone on which the process keeps doing this.
pub fn parts_of(
    alloc: Global,
    graph: &Graph,
    keeping: Keeping,
) -> Result<EdgeComponents, AllocError> {
    let states = graph.states();
    let mut search = ComponentSearch {
        keeping,
        parts: EdgeComponents {
            of: list_of(alloc, states, NONE)?,
            parts: Vec::new(alloc),
        },
        order: list_of(alloc, states, 0)?,
        low: list_of(alloc, states, 0)?,
        count: 0,
        path: Vec::new(alloc),
        open: Vec::new(alloc),
        members: Vec::new(alloc),
    };
    search.visit_all(graph)?;
    Ok(search.parts)
}

impl EdgeComponents {
    /// All states are in one component, and this process is passed over in it.
    pub fn passing_over(alloc: Global, process: u8) -> Result<EdgeComponents, AllocError>
        ensures one { IfOk result (λ parts. (i : ℕ) → rank_in parts i ≡ 0) }
        ensures passed_over { IfOk result (λ parts. passed_over_in parts 0 ≡ Some process) }
    {
        let mut parts = Vec::new(alloc);
        parts.push(EdgeComponent {
            least: 0,
            served: Set::nobody(),
            wait_once: Set::nobody(),
            passed_over: Some(process),
            has_edge: false,
            is_trap: false,
        })?;
        Ok(EdgeComponents {
            of: Vec::new(alloc),
            parts,
        })
    }

    /// The number of the component of a state.
    pub fn number_of(&self, state: usize) -> u32
        ensures { result ≡ rank_in self.now state }
    {
        match self.of.get(state) {
            Some(number) => *number,
            None => 0,
        }
    }

    pub fn part(&self, number: u32) -> Option<&EdgeComponent> {
        self.parts.get(number as usize)
    }

    /// Somebody who is passed over in all of a component.
    pub fn who_is_passed_over(&self, number: u32) -> Option<u8>
        ensures { result ≡ passed_over_in self.now number }
    {
        let part = self.parts.get(number as usize)?;
        part.passed_over
    }

    /// Whether no choice leads out of a component to where the process does otherwise.
    pub fn is_trap(&self, number: u32) -> bool
        ensures { result ≡ is_trap_in self.now number }
    {
        match self.parts.get(number as usize) {
            Some(part) => part.is_trap,
            None => false,
        }
    }
}

impl ComponentSearch {
    fn visit_all(&mut self, graph: &Graph) -> Result<(), AllocError> {
        let mut state = 0u32;
        for _ in 0..graph.states() {
            if at(&self.order, state) == 0 {
                self.visit_from(graph, state)?;
            }
            state = state.saturating_add(1);
        }
        Ok(())
    }

    // Visits all states that can be come to from this one.
    fn visit_from(&mut self, graph: &Graph, state: u32) -> Result<(), AllocError> {
        self.come_to(graph, state)?;
        let most = graph.edges.len().saturating_add(graph.states());
        for _ in 0..most {
            let Some(visit) = self.path.last_mut() else {
                return Ok(());
            };
            let state = visit.state;
            let place = visit.next;
            if place < visit.end {
                visit.next = place.saturating_add(1);
                self.follow(graph, state, place)?;
            } else {
                self.leave(graph, state)?;
            }
        }
        Ok(())
    }

    fn come_to(&mut self, graph: &Graph, state: u32) -> Result<(), AllocError> {
        self.count = self.count.saturating_add(1);
        set_at(&mut self.order, state, self.count);
        set_at(&mut self.low, state, self.count);
        self.open.push(state)?;
        self.path.push(Visit {
            state,
            next: graph.begin(state as usize),
            end: graph.end(state as usize),
        })?;
        Ok(())
    }

    // Follows an edge of a state.
    fn follow(&mut self, graph: &Graph, state: u32, place: usize) -> Result<(), AllocError> {
        let Some(to) = next_of(graph, self.keeping, place) else {
            return Ok(());
        };
        if at(&self.order, to) == 0 {
            return self.come_to(graph, to);
        }
        let order = at(&self.order, to);
        if at(&self.parts.of, to) == NONE {
            self.lower(state, order);
        }
        Ok(())
    }

    fn lower(&mut self, state: u32, low: u32) {
        if low < at(&self.low, state) {
            set_at(&mut self.low, state, low);
        }
    }

    // All edges of a state were followed.
    fn leave(&mut self, graph: &Graph, state: u32) -> Result<(), AllocError> {
        let _ = self.path.pop();
        let low = at(&self.low, state);
        if low == at(&self.order, state) {
            self.close(graph, state)?;
        }
        if let Some(before) = self.path.last() {
            let parent = before.state;
            self.lower(parent, low);
        }
        Ok(())
    }

    // A component is whole: this state, and those that were come to since.
    fn close(&mut self, graph: &Graph, state: u32) -> Result<(), AllocError> {
        let number = number_after(&self.parts.parts);
        self.members.clear();
        for _ in 0..self.open.len() {
            let Some(member) = self.open.pop() else {
                break;
            };
            set_at(&mut self.parts.of, member, number);
            self.members.push(member)?;
            if member == state {
                break;
            }
        }
        let mut part = part_with(graph, self.keeping, &self.parts, number, &self.members);
        part.passed_over = somebody_in(graph.everybody().but(part.served));
        self.parts.parts.push(part)?;
        Ok(())
    }
}

fn number_after(parts: &[EdgeComponent]) -> u32 {
    match u32::try_from(parts.len()) {
        Ok(number) => number,
        Err(_) => NONE,
    }
}

// Where an edge leads, if the process keeps doing this on it.
fn next_of(graph: &Graph, keeping: Keeping, place: usize) -> Option<u32> {
    let edge = graph.edges.get(place)?;
    if keeping.holds(&edge.passing) {
        edge.to
    } else {
        None
    }
}

// The first process of a set.
fn somebody_in(set: Set) -> Option<u8> {
    (0..16).find(|pid| set.has(*pid))
}

// What a component of these states is.
fn part_with(
    graph: &Graph,
    keeping: Keeping,
    parts: &EdgeComponents,
    number: u32,
    members: &[u32],
) -> EdgeComponent {
    let mut part = EdgeComponent {
        least: NONE,
        served: Set::nobody(),
        wait_once: Set::nobody(),
        passed_over: None,
        has_edge: false,
        is_trap: true,
    };
    for member in members {
        part.least = part.least.min(*member);
        let state = *member as usize;
        for place in graph.begin(state)..graph.end(state) {
            if let Some(edge) = graph.edges.get(place) {
                part.add(keeping, parts, number, edge);
            }
        }
    }
    part
}

impl EdgeComponent {
    // One edge more of its states.
    fn add(&mut self, keeping: Keeping, parts: &EdgeComponents, number: u32, edge: &Edge) {
        if !keeping.holds(&edge.passing) {
            self.is_trap = false;
            return;
        }
        let Some(to) = edge.to else {
            return;
        };
        let other = parts.number_of(to as usize);
        if other == number {
            self.has_edge = true;
            self.served = self.served.or(edge.passing.served);
            self.wait_once = self.wait_once.or(edge.passing.wait_once);
            return;
        }
        let is_trapped = match parts.part(other) {
            Some(part) => part.is_trap,
            None => false,
        };
        self.is_trap = self.is_trap && is_trapped;
    }

    /// Whether all its edges together are a fair round of what the process is asked to keep doing.
    pub fn is_fair(&self, everybody: Set, keeping: Keeping) -> bool {
        self.has_edge && everybody.but(self.served).is_empty() && !keeping.lacks(self.wait_once)
    }
}

/// A list of so many equal numbers.
pub fn list_of(alloc: Global, count: usize, number: u32) -> Result<Vec<u32>, AllocError> {
    let mut list = Vec::with_capacity(alloc, count)?;
    for _ in 0..count {
        list.push(number)?;
    }
    Ok(list)
}

/// The number at a place of a list.
pub fn at(list: &[u32], place: u32) -> u32 {
    match list.get(place as usize) {
        Some(number) => *number,
        None => NONE,
    }
}

/// Sets the number at a place of a list.
pub fn set_at(list: &mut [u32], place: u32, number: u32) {
    if let Some(slot) = list.get_mut(place as usize) {
        *slot = number;
    }
}
