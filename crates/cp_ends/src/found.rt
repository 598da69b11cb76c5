//! What a search finds.

ghost use Rattle.std.specs.Prelude.{◌≡◌, ◌<◌, ◌^◌, ◌∷◌, ℕ, List, [], Some, IfOk, length, true};
ghost use Rattle.std.specs.List.{list_any};
ghost use Rattle.cp_slots.specs.Tables.{Tables};
ghost use Rattle.cp_machine.specs.System.{Machine, machine_of, opening};
ghost use Rattle.cp_run.specs.declared.outcome.Halt.TheVariants as halt;
ghost use Rattle.cp_run.specs.declared.outcome.Halt.TheVariants.{Choice};
ghost use Rattle.cp_ends.specs.declared.found.Arrived.TheVariants as arrived;
ghost use Rattle.cp_ends.specs.Answer.{Arrives, Comes, HoldsFew, ends_tests, halt_of, has_room, number_of};
ghost use Rattle.cp_ends.specs.Arrivals.{goal_at};
ghost use Rattle.cp_ends.specs.Graph as graph;
ghost use Rattle.cp_ends.specs.Holds.{Holds, IsBefore, IsWordOf, SlotArrival, SlotFindings};
ghost use Rattle.cp_ends.specs.Legs.{with_round};
ghost use Rattle.cp_ends.specs.Halves.{width_of};
ghost use Rattle.cp_ends.specs.Rows.{IsRowFor, IsStated};
ghost use Rattle.cp_ends.specs.Searched.{with_first, with_values};

use crate::end::End;
use crate::origin::Origin;
use crate::row::HalvedRow;
use crate::states::States;
use cp_machine::Shown;
use cp_run::{Halt, Job};
use cp_search::SearchJob;
use std::alloc::{AllocError, Global};

/// Where a word arrives.
#[derive(Clone, Copy)]
pub enum Arrived {
    /// At an end.
    Ended(End),
    /// At the state of this number.
    At(u32),
    /// At a state too many.
    Full,
}

impl Arrived {
    // At the state of this number.
    fn at(number: usize) -> Arrived
        ensures few { number < 2 ^ 32 → result ≡ arrived.At number }
        ensures halt { halt_of result ≡ halt.Choice }
    {
        match u32::try_from(number) {
            Ok(number) => Arrived::At(number),
            Err(_) => Arrived::Full,
        }
    }

    /// Whether it is no state too many.
    pub fn has_room(self) -> bool
        ensures { result ≡ has_room self }
    {
        !matches!(self, Arrived::Full)
    }

    /// The number of the state, if it is one.
    pub fn number(self) -> Option<u32>
        ensures { result ≡ number_of self }
    {
        match self {
            Arrived::At(number) => Some(number),
            _ => None,
        }
    }

    /// Where a stretch halts that arrives there, with what is seen of the part that repeats.
    pub fn halt<P: Drop>(self, again: Option<P>) -> Halt<Option<P>>
        ensures { result ≡ with_round again (halt_of self) }
    {
        match self {
            Arrived::Ended(_) => Halt::Ended(again),
            _ => Halt::Choice,
        }
    }
}

/// The most values that are told.
pub const MOST_VALUES: usize = 1_000;

/// An end, with the word that led to it first.
#[derive(Clone, Copy)]
pub struct FoundEnd {
    pub end: End,
    pub origin: Origin,
}

/// A value that can be displayed, with the word that led first to a stretch that displays it.
#[derive(Clone, Copy)]
pub struct FoundValue {
    pub value: Shown,
    pub origin: Origin,
}

/// States, ends and values, each once and in the order in which they were found.
pub struct Found {
    pub states: States,
    pub ends: Vec<FoundEnd>,
    pub values: Vec<FoundValue>,
    /// The state that was expanded when there was one state too many, if there was.
    pub stopped: Option<u32>,
}

// One call where it is dropped, not one for each list: proofs of functions that may end early are much shorter.
impl Drop for Found {
    fn drop(self) {
        let Found {
            states: _,
            ends: _,
            values: _,
            stopped: _,
        } = self;
    }
}

impl Found {
    /// Nothing was found.
    pub fn new(alloc: Global, job: &Job<'_>) -> Result<Found, AllocError>
        ensures nothing { IfOk result (λ found. Holds job.now.program.now found (record { states = []; ends = []; values = [] })) }
        ensures ruled { IfOk result (λ found. found.states.discipline ≡ job.now.limits.discipline) }
        ensures start { IfOk result (λ found. machine_of found.states.standing.state ≡ opening job.now.program.now job.now.limits.discipline) }
    {
        let states = States::new(alloc, job)?;
        let ends = Vec::new(alloc);
        let values = Vec::new(alloc);
        Ok(Found {
            states,
            ends,
            values,
            stopped: None,
        })
    }

    /// A word leads to where a stretch came to, in the state of this row, if it is one. It displayed these values.
    pub fn arrive(
        &mut self,
        job: &SearchJob<'_>,
        row: &[u32],
        halt: Halt<End>,
        values: &[Shown],
        origin: Origin,
    ) -> Result<Arrived, AllocError>
        requires { halt ≡ Choice → length row.now ≡ width_of self.old.states.cache.table }
        ensures arrives { IfOk result (λ arrived. (f : SlotFindings) (word : List ℕ) (a : SlotArrival) (m : Machine) → HoldsFew job.now.run.program.now job.now.most self.old f → IsWordOf f.states origin word → IsBefore (length f.states) origin → (halt ≡ Choice → IsRowFor job.now.run.program.now self.old.states row.now m) → goal_at halt m ≡ a.goal → values.now ≡ a.shown → Arrives job.now.run.program.now job.now.most self.new f word a arrived) }
        ensures halt { IfOk result (λ arrived. halt_of arrived ≡ halt) }
        ensures cache { IfOk result (λ _. self.new.states.cache ≡ self.old.states.cache) }
        ensures ruled { IfOk result (λ _. self.new.states.discipline ≡ self.old.states.discipline) }
    {
        self.add_values(values, origin)?;
        match halt {
            Halt::Ended(end) => {
                self.add_end(end, origin)?;
                Ok(Arrived::Ended(end))
            }
            Halt::Choice => self.add_state(job, row, origin),
        }
    }

    /// The same by the numbers of the row, which is known by its lists.
    pub fn arrive_at(
        &mut self,
        job: &SearchJob<'_>,
        halved: HalvedRow,
        halt: Halt<End>,
        values: &[Shown],
        origin: Origin,
    ) -> Result<Arrived, AllocError>
        ensures arrives { IfOk result (λ arrived. (f : SlotFindings) (word : List ℕ) (a : SlotArrival) (m : Machine) → HoldsFew job.now.run.program.now job.now.most self.old f → IsWordOf f.states origin word → IsBefore (length f.states) origin → (halt ≡ Choice → IsStated job.now.run.program.now self.old.states halved.numbers m) → goal_at halt m ≡ a.goal → values.now ≡ a.shown → Arrives job.now.run.program.now job.now.most self.new f word a arrived) }
        ensures halt { IfOk result (λ arrived. halt_of arrived ≡ halt) }
        ensures cache { IfOk result (λ _. self.new.states.cache ≡ self.old.states.cache) }
        ensures lists { IfOk result (λ _. self.new.states.lists ≡ self.old.states.lists) }
        ensures ruled { IfOk result (λ _. self.new.states.discipline ≡ self.old.states.discipline) }
    {
        self.add_values(values, origin)?;
        match halt {
            Halt::Ended(end) => {
                self.add_end(end, origin)?;
                Ok(Arrived::Ended(end))
            }
            Halt::Choice => self.add_halved(job, halved, origin),
        }
    }

    // A word leads to the state of this row, where a choice is due.
    fn add_state(
        &mut self,
        job: &SearchJob<'_>,
        row: &[u32],
        origin: Origin,
    ) -> Result<Arrived, AllocError>
        requires { length row.now ≡ width_of self.old.states.cache.table }
        ensures comes { IfOk result (λ arrived. (f : SlotFindings) (word : List ℕ) (m : Machine) → HoldsFew job.now.run.program.now job.now.most self.old f → IsWordOf f.states origin word → IsBefore (length f.states) origin → IsRowFor job.now.run.program.now self.old.states row.now m → Comes job.now.run.program.now job.now.most self.new f word (graph.Place m) arrived) }
        ensures halt { IfOk result (λ arrived. halt_of arrived ≡ halt.Choice) }
        ensures cache { IfOk result (λ _. self.new.states.cache ≡ self.old.states.cache) }
        ensures ruled { IfOk result (λ _. self.new.states.discipline ≡ self.old.states.discipline) }
    {
        let halved = self.states.halve(job.alloc, row)?;
        self.add_halved(job, halved, origin)
    }

    // A word leads to the state whose row has these numbers, where a choice is due.
    #[inline(always)]
    fn add_halved(
        &mut self,
        job: &SearchJob<'_>,
        halved: HalvedRow,
        origin: Origin,
    ) -> Result<Arrived, AllocError>
        ensures comes { IfOk result (λ arrived. (f : SlotFindings) (word : List ℕ) (m : Machine) → HoldsFew job.now.run.program.now job.now.most self.old f → IsWordOf f.states origin word → IsBefore (length f.states) origin → IsStated job.now.run.program.now self.old.states halved.numbers m → Comes job.now.run.program.now job.now.most self.new f word (graph.Place m) arrived) }
        ensures halt { IfOk result (λ arrived. halt_of arrived ≡ halt.Choice) }
        ensures cache { IfOk result (λ _. self.new.states.cache ≡ self.old.states.cache) }
        ensures lists { IfOk result (λ _. self.new.states.lists ≡ self.old.states.lists) }
        ensures ruled { IfOk result (λ _. self.new.states.discipline ≡ self.old.states.discipline) }
    {
        let most = job.most;
        if let Some(number) = self.states.number(&halved) {
            return Ok(Arrived::at(number));
        }
        let number = self.states.len();
        if number >= most as usize {
            return Ok(Arrived::Full);
        }
        self.states.add(halved, origin)?;
        Ok(Arrived::at(number))
    }

    // A word leads to an end.
    fn add_end(&mut self, end: End, origin: Origin) -> Result<(), AllocError>
        ensures ends { IfOk result (λ _. (r : Tables) (f : SlotFindings) (word : List ℕ) → Holds r self.old f → IsWordOf f.states origin word → Holds r self.new (record f { ends = with_first ends_tests.end f.ends end word })) }
        ensures states { self.new.states ≡ self.old.states }
    {
        if !has_end(&self.ends, end) {
            self.ends.push(FoundEnd { end, origin })?;
        }
        Ok(())
    }

    // A word leads to a stretch that displays these values.
    fn add_values(&mut self, values: &[Shown], origin: Origin) -> Result<(), AllocError>
        ensures values { IfOk result (λ _. (r : Tables) (f : SlotFindings) (word : List ℕ) → Holds r self.old f → IsWordOf f.states origin word → Holds r self.new (record f { values = with_values ends_tests.value ends_tests.most f.values values.now word })) }
        ensures states { self.new.states ≡ self.old.states }
    {
        for value in values {
            self.add_value(*value, origin)?;
        }
        Ok(())
    }

    fn add_value(&mut self, value: Shown, origin: Origin) -> Result<(), AllocError>
        ensures values { IfOk result (λ _. (r : Tables) (f : SlotFindings) (word : List ℕ) → Holds r self.old f → IsWordOf f.states origin word → Holds r self.new (record f { values = with_values ends_tests.value ends_tests.most f.values (value ∷ []) word })) }
        ensures states { self.new.states ≡ self.old.states }
    {
        if self.values.len() <= MOST_VALUES && !has_value(&self.values, value) {
            self.values.push(FoundValue { value, origin })?;
        }
        Ok(())
    }
}

fn has_end(ends: &[FoundEnd], end: End) -> bool
    ensures { result ≡ list_any (λ e. ends_tests.end e.end end) ends.now }
{
    for found in ends {
        if found.end == end {
            return true;
        }
    }
    false
}

fn has_value(values: &[FoundValue], value: Shown) -> bool
    ensures { result ≡ list_any (λ v. ends_tests.value v.value value) values.now }
{
    for found in values {
        if found.value == value {
            return true;
        }
    }
    false
}
