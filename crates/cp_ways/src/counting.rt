//! Ways on are counted from state to state, and remembered.

ghost use Rattle.std.specs.Prelude.{◌≡◌, ◌⊎◌, ◌+◌, ◌^◌, ◌<◌, ◌≤◌, [], drop, length, nat_eq, true, IfOk, IfSome};
ghost use Rattle.indexmap.specs.IndexMap.{insert_entry};
ghost use lib.Pointwise.{pointwise};
ghost use Rattle.cp_machine.specs.System.{Machine, machine_of, output_of, IsStateOf};
ghost use Rattle.cp_key.specs.Key.{core_key};
ghost use Rattle.cp_run.specs.Run.{Choosing, chosen, may};
ghost use Rattle.cp_run.specs.Slots.{slots};
ghost use Rattle.cp_walk.specs.Walk.{walk};
ghost use Rattle.cp_ways.specs.Ways.{since, AreWaysOn};
ghost use Rattle.cp_ways.specs.Weights.{after, total, Adds, AreKnown, WeighAs};

use crate::key::key_of_ways;
use crate::ways::Ways;
use cp_key::StateKey;
use cp_machine::{Shown, State, Uncounted, Unwatched};
use cp_run::{Halt, Job, OutcomeKind, candidates, choose};
use indexmap::IndexMap;
use std::alloc::{AllocError, Global};

/// How many states are remembered, each with a number of choices left.
const MOST_KNOWN: usize = 50_000;

/// How many outcomes are remembered of all of them.
const MOST_OUTCOMES: usize = 200_000;

/// Why ways on are not counted.
#[derive(Clone, Copy)]
pub enum WaysFault {
    Memory,
    /// There are too many states, or too many outcomes.
    TooMany,
}

impl From<AllocError> for WaysFault {
    fn from(_: AllocError) -> Self {
        WaysFault::Memory
    }
}

/// The ways on that are known.
#[derive(Drop)]
pub struct Counting {
    pub known: IndexMap<StateKey, Ways>,
    /// How many outcomes these have.
    outcomes: usize,
}

impl Counting {
    /// Nothing is known.
    pub fn new(alloc: Global) -> Counting
        ensures { result.known.entries ≡ [] }
    {
        Counting {
            known: IndexMap::new(alloc),
            outcomes: 0,
        }
    }

    /// The ways on from a state where a choice is due, with so many choices left; none where there are too many to be counted.
    pub fn ways_on(
        &mut self,
        alloc: Global,
        job: &Job<'_>,
        state: &State,
        left: u8,
    ) -> Result<Option<Ways>, AllocError>
        requires own { IsStateOf job.now.program.now state.now }
        requires few { left ≤ 100 }
        requires known { AreKnown (slots job.now.program.now job.now.limits.discipline) job.now.limits.steps self.old.known.entries }
        ensures known { AreKnown (slots job.now.program.now job.now.limits.discipline) job.now.limits.steps self.new.known.entries }
        ensures ways { IfOk result (λ found. IfSome found (λ ways. (m : Machine) → core_key m ≡ core_key (machine_of state.now) → AreWaysOn (slots job.now.program.now job.now.limits.discipline) job.now.limits.steps left m ways.list.entries)) }
    {
        let mut ways = Ways::new(alloc);
        match self.add_ways(alloc, job, state, left, &[], &mut ways) {
            Ok(()) => Ok(Some(ways)),
            Err(WaysFault::TooMany) => Ok(None),
            Err(WaysFault::Memory) => Err(AllocError),
        }
    }

    // Adds the ways on from a state, where these values were displayed before it.
    #[cycle(add_ways)]
    fn add_ways(
        &mut self,
        alloc: Global,
        job: &Job<'_>,
        state: &State,
        left: u8,
        shown: &[Shown],
        sum: &mut Ways,
    ) -> Result<(), WaysFault>
        requires own { IsStateOf job.now.program.now state.now }
        requires known { AreKnown (slots job.now.program.now job.now.limits.discipline) job.now.limits.steps self.old.known.entries }
        requires small { total sum.old.list.entries + length (walk (slots job.now.program.now job.now.limits.discipline) job.now.limits.steps left (Choosing (machine_of state.now))) < 10 ^ 126 }
        ensures known { AreKnown (slots job.now.program.now job.now.limits.discipline) job.now.limits.steps self.new.known.entries }
        ensures added { IfOk result (λ _. Adds (λ o. after shown.now (since (length (output_of (machine_of state.now))) o)) (walk (slots job.now.program.now job.now.limits.discipline) job.now.limits.steps left (Choosing (machine_of state.now))) sum.old.list.entries sum.new.list.entries) }
    {
        if left == 0 {
            sum.add_end(alloc, OutcomeKind::ChoiceLimit, shown)?;
            return Ok(());
        }
        let key = key_of_ways(alloc, state, left)?;
        if let Some(ways) = self.known.get(&key) {
            sum.add_behind(alloc, shown, ways)?;
            return Ok(());
        }
        let ways = self.count(alloc, job, state, left - 1)?;
        sum.add_behind(alloc, shown, &ways)?;
        self.remember(key, ways)?;
        Ok(())
    }

    // Counts the ways on from a state that is not known, which has one choice more left.
    #[cycle(add_ways)]
    fn count(
        &mut self,
        alloc: Global,
        job: &Job<'_>,
        state: &State,
        left: u8,
    ) -> Result<Ways, WaysFault>
        requires own { IsStateOf job.now.program.now state.now }
        requires known { AreKnown (slots job.now.program.now job.now.limits.discipline) job.now.limits.steps self.old.known.entries }
        requires small { length (walk (slots job.now.program.now job.now.limits.discipline) job.now.limits.steps (left + 1) (Choosing (machine_of state.now))) < 10 ^ 126 }
        ensures known { AreKnown (slots job.now.program.now job.now.limits.discipline) job.now.limits.steps self.new.known.entries }
        ensures ways { IfOk result (λ ways. WeighAs (since (length (output_of (machine_of state.now)))) (walk (slots job.now.program.now job.now.limits.discipline) job.now.limits.steps (left + 1) (Choosing (machine_of state.now))) ways.list.entries) }
    {
        if self.is_full() {
            return Err(WaysFault::TooMany);
        }
        let mut ways = Ways::new(alloc);
        let numbers = candidates(job, state);
        for process in numbers.as_slice() {
            self.add_choice(alloc, job, state, left, *process, &mut ways)?;
        }
        Ok(ways)
    }

    // Adds the ways on by one choice, after which so many are left.
    #[cycle(add_ways)]
    fn add_choice(
        &mut self,
        alloc: Global,
        job: &Job<'_>,
        state: &State,
        left: u8,
        process: u8,
        ways: &mut Ways,
    ) -> Result<(), WaysFault>
        requires own { IsStateOf job.now.program.now state.now }
        requires may { may (slots job.now.program.now job.now.limits.discipline) (machine_of state.now) process ≡ true }
        requires known { AreKnown (slots job.now.program.now job.now.limits.discipline) job.now.limits.steps self.old.known.entries }
        requires small { total ways.old.list.entries + length (walk (slots job.now.program.now job.now.limits.discipline) job.now.limits.steps left (chosen (slots job.now.program.now job.now.limits.discipline) job.now.limits.steps (machine_of state.now) process)) < 10 ^ 126 }
        ensures known { AreKnown (slots job.now.program.now job.now.limits.discipline) job.now.limits.steps self.new.known.entries }
        ensures added { IfOk result (λ _. Adds (since (length (output_of (machine_of state.now)))) (walk (slots job.now.program.now job.now.limits.discipline) job.now.limits.steps left (chosen (slots job.now.program.now job.now.limits.discipline) job.now.limits.steps (machine_of state.now) process)) ways.old.list.entries ways.new.list.entries) }
    {
        let mut next = state.copy(alloc)?;
        let halt = choose(
            job,
            &mut next,
            process,
            &mut Unwatched,
            &mut Uncounted,
            &mut Uncounted,
        );
        let shown = shown_since(state, &next);
        match halt {
            Halt::Ended(kind) => {
                ways.add_end(alloc, kind, shown)?;
                Ok(())
            }
            Halt::Choice => self.add_ways(alloc, job, &next, left, shown, ways),
        }
    }

    fn is_full(&self) -> bool {
        self.known.len() >= MOST_KNOWN || self.outcomes >= MOST_OUTCOMES
    }

    // The ways on of a key are known from now on.
    fn remember(&mut self, key: StateKey, ways: Ways) -> Result<(), AllocError>
        ensures known { (self.new.known.entries ≡ self.old.known.entries) ⊎ (self.new.known.entries ≡ insert_entry (λ j k. pointwise nat_eq j.bytes.items k.bytes.items) self.old.known.entries key ways) }
    {
        self.outcomes = self.outcomes.saturating_add(ways.list.len());
        self.known.insert(key, ways)?;
        Ok(())
    }
}

// What was displayed from one state up to a later one.
fn shown_since<'a>(before: &State, after: &'a State) -> &'a [Shown]
    ensures { result.now ≡ drop (length (output_of (machine_of before.now))) (output_of (machine_of after.now)) }
{
    let output = after.output();
    match output.get(before.output().len()..output.len()) {
        Some(shown) => shown,
        None => &[],
    }
}
