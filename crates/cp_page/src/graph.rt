//! The graph of a page: states at a due choice, and what each choice leads to.

ghost use Rattle.std.specs.Prelude.{◌≡◌, [], All, IfOk};
ghost use Rattle.cp_machine.specs.System.{machine_of, opening, IsStateOf};

use crate::ends::end_row;
use crate::json::Json;
use crate::keys::{Merging, key_of};
use crate::schedules::Schedules;
use crate::subject::{Length, PageSubject};
use crate::teller::Teller;
use arrayvec::ArrayVec;
use cp_ends::End;
use cp_key::StateKey;
use cp_machine::State;
use cp_progress::Progress;
use cp_run::{Halt, candidates};
use cp_search::{SearchJob, Visit, take_choices};
use cp_story::OpenCall;
use indexmap::IndexSet;
use std::alloc::{AllocError, Global};
use std::mem;

/// What belongs to a state at a due choice, and where it leads to.
#[derive(Drop)]
struct Node {
    /// The monitor whose line is chosen from, if it is not a process.
    gate: Option<u8>,
    /// The numbers that may be chosen, in rising order.
    options: ArrayVec<u8, 16>,
    /// The open calls of each process.
    calls: Vec<Vec<OpenCall>>,
    /// The fewest choices that lead here.
    depth: u8,
    /// An edge for each number that may be chosen, where the state was expanded.
    edges: Vec<usize>,
    /// What can still come, where it was not expanded.
    onward: Vec<Onward>,
}

/// What can still come with so many choices left: the place of its row.
#[derive(Clone, Copy)]
struct Onward {
    left: u8,
    place: usize,
}

/// The states that were found, and the edges between them.
pub struct PageGraph<'a, K> {
    pub teller: Teller<'a, K>,
    length: Length,
    merging: Merging,
    pub states: Vec<State>,
    /// Of each state.
    nodes: Vec<Node>,
    /// The keys of the states.
    known: IndexSet<StateKey>,
    /// The state that each edge leads to, where it leads to no end.
    targets: Vec<Option<usize>>,
}

// One call where it is dropped, not one for each list: proofs of functions that may end early are much shorter.
impl<'a, K> Drop for PageGraph<'a, K> {
    fn drop(self) {
        let PageGraph {
            teller: _,
            length: _,
            merging: _,
            states: _,
            nodes: _,
            known: _,
            targets: _,
        } = self;
    }
}

impl<'a, K: Schedules> PageGraph<'a, K> {
    /// A graph without states, of schedules that begin in this one.
    pub fn new(
        alloc: Global,
        subject: PageSubject<'a>,
        start: &State,
        merging: Merging,
    ) -> Result<PageGraph<'a, K>, AllocError>
        ensures { IfOk result (λ graph. graph.states.items ≡ []) }
    {
        Ok(PageGraph {
            teller: Teller::new(alloc, subject.legend, start)?,
            length: subject.length,
            merging,
            states: Vec::new(alloc),
            nodes: Vec::new(alloc),
            known: IndexSet::new(alloc),
            targets: Vec::new(alloc),
        })
    }

    /// The events before the first choice, as an edge.
    pub fn begin(&mut self, job: &SearchJob<'_>, state: &mut State) -> Result<usize, AllocError>
        requires own { IsStateOf job.now.run.program.now state.old }
        requires start { machine_of state.old ≡ opening job.now.run.program.now job.now.run.limits.discipline }
        requires none { self.old.states.items ≡ [] }
        ensures own { IsStateOf job.now.run.program.now state.new }
        ensures states { IfOk result (λ _. All (IsStateOf job.now.run.program.now) self.new.states.items) }
    {
        self.teller.begin_edge(state)?;
        let halt = self.teller.tell_opening(&job.run, state)?;
        self.arrive(job, state, halt, 0)
    }

    // Begins the edge of a choice in this state, which has this number. The answer is how many choices lead to where it leads.
    fn begin_choice(&mut self, number: usize, state: &State) -> Result<u8, AllocError>
        ensures { self.new.states ≡ self.old.states }
    {
        self.teller.begin_edge(state)?;
        let Some(node) = self.nodes.get(number) else {
            return Ok(0);
        };
        self.teller.observer.calls = node.calls.clone()?;
        Ok(node.depth.saturating_add(1))
    }

    // One edge more from the state of this number.
    fn add_edge(&mut self, number: usize, edge: usize) -> Result<(), AllocError>
        ensures { self.new.states ≡ self.old.states }
    {
        let Some(node) = self.nodes.get_mut(number) else {
            return Ok(());
        };
        node.edges.push(edge)?;
        Ok(())
    }

    // The edge to where a stretch came to.
    fn arrive(
        &mut self,
        job: &SearchJob<'_>,
        state: &State,
        halt: Halt<End>,
        depth: u8,
    ) -> Result<usize, AllocError>
        requires own { IsStateOf job.now.run.program.now state.now }
        requires states { All (IsStateOf job.now.run.program.now) self.old.states.items }
        ensures states { IfOk result (λ _. All (IsStateOf job.now.run.program.now) self.new.states.items) }
    {
        match halt {
            Halt::Ended(end) => {
                let Teller {
                    register,
                    going,
                    ..
                } = &mut self.teller;
                let row = end_row(register, job.run.program, state, end, *going)?;
                let place = register.ends.place(&row)?;
                self.edge_to(None, place)
            }
            Halt::Choice => {
                let place = self.place_state(job, state, depth)?;
                self.edge_to(Some(place), place)
            }
        }
    }

    // The place of a state, which is added where it is new.
    fn place_state(
        &mut self,
        job: &SearchJob<'_>,
        state: &State,
        depth: u8,
    ) -> Result<usize, AllocError>
        requires own { IsStateOf job.now.run.program.now state.now }
        requires states { All (IsStateOf job.now.run.program.now) self.old.states.items }
        ensures states { IfOk result (λ _. All (IsStateOf job.now.run.program.now) self.new.states.items) }
    {
        let key = key_of(job.alloc, state, self.merging)?;
        let (place, is_new) = self.known.insert_full(key)?;
        if is_new {
            self.states.push(state.copy(job.alloc)?)?;
            self.nodes.push(Node {
                gate: state.pending(),
                options: candidates(&job.run, state),
                calls: mem::replace(&mut self.teller.observer.calls, Vec::new(job.alloc)),
                depth,
                edges: Vec::new(job.alloc),
                onward: Vec::new(job.alloc),
            })?;
        }
        Ok(place)
    }

    // The place of the edge with the events that were told, which leads to a state, or else to the end of this place.
    fn edge_to(&mut self, target: Option<usize>, place: usize) -> Result<usize, AllocError>
        ensures { self.new.states ≡ self.old.states }
    {
        let edge = self.teller.place_edge(target.is_some(), place)?;
        if edge >= self.targets.len() {
            self.targets.push(target)?;
        }
        Ok(edge)
    }

    // Whether K choices lead to a state, where there is such a limit.
    fn is_last(&self, job: &SearchJob<'_>, number: usize) -> bool {
        match self.nodes.get(number) {
            Some(node) => self.length == Length::Limited && node.depth >= job.run.limits.choices,
            None => true,
        }
    }

    /// Expands the states along a word that were not expanded; the answer is how many these were.
    pub fn lay(
        &mut self,
        job: &SearchJob<'_>,
        start: usize,
        word: &[u8],
        state: &mut State,
        next: &mut State,
    ) -> Result<usize, AllocError>
        requires own { IsStateOf job.now.run.program.now state.old }
        requires next { IsStateOf job.now.run.program.now next.old }
        requires states { All (IsStateOf job.now.run.program.now) self.old.states.items }
        ensures own { IsStateOf job.now.run.program.now state.new }
        ensures next { IsStateOf job.now.run.program.now next.new }
        ensures states { IfOk result (λ _. All (IsStateOf job.now.run.program.now) self.new.states.items) }
    {
        let mut edge = Some(start);
        let mut count = 0usize;
        for number in word {
            let Some(at) = self.target_of(edge) else {
                break;
            };
            count = count.saturating_add(self.expand(job, at, state, next)?);
            edge = self.edge_of(at, *number);
        }
        Ok(count)
    }

    // Expands the state of this place with each process that may be chosen, if it was not expanded; the answer is how many states these are.
    fn expand(
        &mut self,
        job: &SearchJob<'_>,
        at: usize,
        state: &mut State,
        next: &mut State,
    ) -> Result<usize, AllocError>
        requires own { IsStateOf job.now.run.program.now state.old }
        requires next { IsStateOf job.now.run.program.now next.old }
        requires states { All (IsStateOf job.now.run.program.now) self.old.states.items }
        ensures own { IsStateOf job.now.run.program.now state.new }
        ensures next { IsStateOf job.now.run.program.now next.new }
        ensures states { IfOk result (λ _. All (IsStateOf job.now.run.program.now) self.new.states.items) }
    {
        let (Some(found), Ok(number)) = (self.states.get(at), u32::try_from(at)) else {
            return Ok(0);
        };
        if !self.is_open(at) {
            return Ok(0);
        }
        state.take_from(found);
        take_choices(job, self, number, state, next)?;
        Ok(1)
    }

    /// What can still come from the state of this place on, with so many choices left, has this row.
    pub fn add_onward(&mut self, at: usize, left: u8, place: usize) -> Result<(), AllocError>
        ensures { self.new.states ≡ self.old.states }
    {
        let Some(node) = self.nodes.get_mut(at) else {
            return Ok(());
        };
        node.onward.push(Onward { left, place })?;
        Ok(())
    }

    /// The edges of a state; none where it was not expanded.
    pub fn edges_at(&self, at: usize) -> &[usize] {
        match self.nodes.get(at) {
            Some(node) => &node.edges,
            None => &[],
        }
    }

    /// The state to which an edge leads.
    pub fn target_of(&self, edge: Option<usize>) -> Option<usize> {
        *self.targets.get(edge?)?
    }

    /// Whether a state was not expanded.
    pub fn is_open(&self, at: usize) -> bool {
        match self.nodes.get(at) {
            Some(node) => node.edges.is_empty(),
            None => false,
        }
    }

    // The edge of a number in a state.
    fn edge_of(&self, at: usize, number: u8) -> Option<usize> {
        let node = self.nodes.get(at)?;
        let place = node
            .options
            .as_slice()
            .iter()
            .position(|option| *option == number)?;
        node.edges.get(place).copied()
    }

    /// Appends the states: `[gate, [number, edge, ..]]`, where the gate is -1 if a process is chosen, and an edge -1 if the state was not expanded.
    /// What can still come of such a state follows, if it is known: `[left, row, ..]`.
    pub fn put_nodes(&self, json: &mut Json) {
        json.open();
        for node in &self.nodes {
            node.put(json);
        }
        json.close();
    }
}

impl<'a, K: Schedules> Visit for PageGraph<'a, K> {
    ghost use Rattle.std.specs.Prelude.{All};
    ghost use Rattle.cp_machine.specs.System.{IsStateOf};

    ghost before = { λ v job n. All (IsStateOf job.run.program.now) v.states.items };

    ghost within = { λ v job at m done. All (IsStateOf job.run.program.now) v.states.items };

    ghost over = { λ v job. All (IsStateOf job.run.program.now) v.states.items };

    ghost stops = { λ v job at. All (IsStateOf job.run.program.now) v.states.items };

    fn len(&self) -> usize {
        self.states.len()
    }

    fn progress(&self, choices: u32) -> Progress {
        Progress {
            choices,
            states: self.states.len(),
            outcomes: None,
        }
    }

    fn thaw_at(&mut self, job: &SearchJob<'_>, number: u32, state: &mut State) -> bool {
        if self.is_last(job, number as usize) {
            return false;
        }
        match self.states.get(number as usize) {
            Some(found) => {
                state.take_from(found);
                true
            }
            None => false,
        }
    }

    fn take(
        &mut self,
        job: &SearchJob<'_>,
        at: u32,
        state: &State,
        next: &mut State,
        process: u8,
    ) -> Result<bool, AllocError> {
        let depth = self.begin_choice(at as usize, next)?;
        let halt = self.teller.tell_choice(&job.run, next, process)?;
        let edge = self.arrive(job, next, halt, depth)?;
        self.add_edge(at as usize, edge)?;
        next.take_from(state);
        Ok(true)
    }

    fn end_state(&mut self, _job: &SearchJob<'_>, _at: u32) -> Result<(), AllocError> {
        Ok(())
    }

    ghost fills = { λ v job own. own };
}

impl Node {
    fn put(&self, json: &mut Json) {
        json.open();
        match self.gate {
            Some(monitor) => json.put_plain(monitor),
            None => json.put_plain(-1i64),
        }
        json.open();
        for (place, option) in self.options.as_slice().iter().enumerate() {
            json.put_plain(*option);
            match self.edges.get(place) {
                Some(edge) => json.put_plain(*edge),
                None => json.put_plain(-1i64),
            }
        }
        json.close();
        if !self.onward.is_empty() {
            self.put_onward(json);
        }
        json.close();
    }

    fn put_onward(&self, json: &mut Json) {
        json.open();
        for onward in &self.onward {
            json.put_plain(onward.left);
            json.put_plain(onward.place);
        }
        json.close();
    }
}
