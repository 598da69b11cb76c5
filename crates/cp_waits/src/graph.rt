//! The states, and what happens between them.

ghost use Rattle.std.specs.Prelude.{◌≡◌, ◌&&◌, ◌∷◌, ◌++◌, ℕ, [], IfOk, nat_lt, length, slice_get};
ghost use Rattle.cp_waits.specs.Sets.{has};
ghost use Rattle.cp_waits.specs.Walks.{first_edge, end_edge};

use crate::passing::PassingSets;
use crate::set::Set;
use cp_ends::origin::Origin;
use std::alloc::{AllocError, Global};

/// A choice in a state.
#[derive(Clone, Copy)]
pub struct Edge {
    pub number: u8,
    /// The state at the next due choice, if there is one.
    pub to: Option<u32>,
    pub passing: PassingSets,
}

/// A stretch that goes on for ever without a choice, in which each process is served.
#[derive(Clone, Copy)]
pub struct Standstill {
    pub origin: Origin,
    /// What processes do in the part that repeats.
    pub again: PassingSets,
}

/// The choices of each state, by the number of the state.
pub struct Graph {
    pub processes: u8,
    pub edges: Vec<Edge>,
    pub standstills: Vec<Standstill>,
    // Where the edges of each state end.
    ends: Vec<usize>,
}

// One call where it is dropped, not one for each list: proofs of functions that may end early are much shorter.
impl Drop for Graph {
    fn drop(self) {
        let Graph {
            processes: _,
            edges: _,
            standstills: _,
            ends: _,
        } = self;
    }
}

impl Graph {
    /// There is no state yet.
    pub fn new(alloc: Global, processes: u8) -> Graph
        ensures processes { result.processes ≡ processes }
        ensures edges { result.edges.items ≡ [] }
        ensures standstills { result.standstills.items ≡ [] }
        ensures ends { result.ends.items ≡ [] }
    {
        Graph {
            processes,
            edges: Vec::new(alloc),
            standstills: Vec::new(alloc),
            ends: Vec::new(alloc),
        }
    }

    /// The edges that were added since are those of the next state.
    pub fn end_state(&mut self) -> Result<(), AllocError>
        ensures processes { self.new.processes ≡ self.old.processes }
        ensures edges { self.new.edges.items ≡ self.old.edges.items }
        ensures standstills { self.new.standstills.items ≡ self.old.standstills.items }
        ensures ends { IfOk result (λ _. self.new.ends.items ≡ self.old.ends.items ++ length self.old.edges.items ∷ []) }
    {
        let end = self.edges.len();
        self.ends.push(end)?;
        Ok(())
    }

    pub fn states(&self) -> usize
        ensures { result ≡ length self.now.ends.items }
    {
        self.ends.len()
    }

    pub fn everybody(&self) -> Set
        ensures { (q : ℕ) → has result q ≡ (nat_lt q 16 && nat_lt q self.now.processes) }
    {
        Set::below(self.processes)
    }

    /// The edge at a place.
    pub fn edge(&self, place: usize) -> Option<Edge>
        ensures { result ≡ slice_get self.now.edges.items place }
    {
        self.edges.get(place).copied()
    }

    /// The place of the first edge of a state.
    pub fn begin(&self, state: usize) -> usize
        ensures { result ≡ first_edge self.now state }
    {
        match state.checked_sub(1) {
            Some(before) => self.end(before),
            None => 0,
        }
    }

    /// The place after the last edge of a state.
    pub fn end(&self, state: usize) -> usize
        ensures { result ≡ end_edge self.now state }
    {
        match self.ends.get(state) {
            Some(place) => *place,
            None => 0,
        }
    }
}
