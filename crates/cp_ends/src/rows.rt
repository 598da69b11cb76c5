//! The search by rows: a choice is taken by the legs that are known, and step by step only where they don't tell where it leads.

ghost use Rattle.std.specs.Prelude.{◌≡◌, ◌≤◌, ◌<◌, ◌++◌, ◌∷◌, [], IfOk, false, true};
ghost use Rattle.cp_machine.specs.System.{Machine, machine_of, opening, IsStateOf};
ghost use Rattle.cp_parts.specs.Parts.{IsPartRow};
ghost use Rattle.cp_stretches.specs.Cached.{IsCache};
ghost use Rattle.cp_stretches.specs.declared.cache.Standing.{Standing};
ghost use Rattle.cp_run.specs.Run.{may, those_below};
ghost use Rattle.cp_run.specs.declared.outcome.Halt.TheVariants.{Choice};
ghost use Rattle.cp_run.specs.Slots.{processes_of, slots};
ghost use Rattle.cp_endless_laws.specs.Silent.{silent_slots};
ghost use Rattle.cp_ends.specs.Answer.{HoldsFew, IsSearch, IsStopped, ends_tests, halt_of, has_room, slot_graph};
ghost use Rattle.cp_ends.specs.ByRows.{GoesAsTold, HasRoom, IsTold, IsWithinRow, KeepFound, end_of, with_standing};
ghost use Rattle.cp_ends.specs.Holds.{Holds, SlotFindings};
ghost use Rattle.cp_ends.specs.Legs.{ComesTo, first_leg, with_round};
ghost use Rattle.cp_ends.specs.Rows.{IsHalved, IsRowFor, IsStated};
ghost use Rattle.cp_ends.specs.Searched.{nothing, searched};

use crate::choosing::{choose, open};
use crate::end::End;
use crate::found::{Arrived, Found};
use crate::origin::Origin;
use crate::row::{HalvedRow, StateRow};
use crate::sight::{Sight, Unseen};
use crate::told::Told;
use crate::visit::{RowVisit, visit_rows};
use arrayvec::ArrayVec;
use cp_progress::{ObserveProgress, Progress};
use cp_run::{Halt, OutcomeKind};
use cp_search::SearchJob;
use std::alloc::AllocError;

/// What is found so far, with room for what is told of a stretch and for a row.
pub struct RowSearch<P> {
    pub found: Found,
    pub told: Told<P>,
    /// The row that a choice leads to, and its numbers.
    pub row: Vec<u32>,
    pub next: HalvedRow,
}

// One call where it is dropped, not one for each list: proofs of functions that may end early are much shorter.
impl<P: Drop> Drop for RowSearch<P> {
    fn drop(self) {
        let RowSearch {
            found: _,
            told: _,
            row: _,
            next: _,
        } = self;
    }
}

/// Expands the opening state, and each state that is found.
pub fn search_rows<O: ObserveProgress>(
    job: &SearchJob<'_>,
    observer: &mut O,
) -> Result<Found, AllocError>
    requires most { 1 ≤ job.now.most }
    ensures { IfOk result (λ found. IsSearch job.now.run.program.now (slot_graph job.now.run.program.now job.now.run.limits.discipline job.now.run.limits.steps) job.now.most found found.stopped) }
{
    let mut search: RowSearch<Unseen> = RowSearch::start(job)?;
    search.open(job)?;
    let stopped = visit_rows(job, &mut search, observer)?;
    search.found.stopped = stopped;
    Ok(search.into_found())
}

// The end of a stretch that is over.
fn ended(halt: Halt<OutcomeKind>) -> Halt<End>
    ensures { result ≡ end_of halt }
{
    match halt {
        Halt::Choice => Halt::Choice,
        Halt::Ended(kind) => Halt::Ended(End::Over(kind)),
    }
}

impl<P: Sight> RowSearch<P> {
    /// Nothing is found, and the opening state stands in the room for one.
    pub fn start(job: &SearchJob<'_>) -> Result<RowSearch<P>, AllocError>
        ensures nothing { IfOk result (λ search. Holds job.now.run.program.now search.found nothing) }
        ensures room { IfOk result (λ search. HasRoom job.now.run.limits.discipline search) }
        ensures start { IfOk result (λ search. machine_of search.found.states.standing.state ≡ opening job.now.run.program.now job.now.run.limits.discipline) }
    {
        let found = Found::new(job.alloc, &job.run)?;
        let row = Vec::from_slice(job.alloc, &found.states.standing.row)?;
        Ok(RowSearch {
            found,
            told: Told::new(job.alloc, P::begin(job.run.program)),
            row,
            next: HalvedRow::of_none(),
        })
    }

    /// What is found, without the room.
    pub fn into_found(self) -> Found
        ensures { result ≡ self.found }
    {
        let RowSearch {
            found,
            told: _,
            row: _,
            next: _,
        } = self;
        found
    }

    // What stands in the room for a state has its row again.
    fn find_row(&mut self, job: &SearchJob<'_>) -> Result<(), AllocError>
        requires cache { IsCache job.now.run.program.now job.now.run.limits.discipline self.old.found.states.cache }
        requires own { IsStateOf job.now.run.program.now self.old.found.states.standing.state }
        requires room { HasRoom job.now.run.limits.discipline self.old }
        ensures room { IfOk result (λ _. HasRoom job.now.run.limits.discipline self.new) }
        ensures kept { IfOk result (λ _. (standing : Standing) → KeepFound job.now.run.program.now (with_standing self.old.found standing) self.new.found) }
        ensures told { self.new.told ≡ self.old.told }
        ensures row { IfOk result (λ _. IsPartRow self.new.found.states.cache.store self.new.found.states.cache.table (machine_of self.old.found.states.standing.state) self.new.row.items) }
    {
        let states = &mut self.found.states;
        states
            .cache
            .find_row(job.alloc, &job.run, &mut states.standing)?;
        self.row.copy_from_slice(&states.standing.row);
        Ok(())
    }

    /// Follows the opening stretch, and notes where it arrives.
    pub fn open(&mut self, job: &SearchJob<'_>) -> Result<Arrived, AllocError>
        requires most { 1 ≤ job.now.most }
        requires nothing { Holds job.now.run.program.now self.old.found nothing }
        requires room { HasRoom job.now.run.limits.discipline self.old }
        requires start { machine_of self.old.found.states.standing.state ≡ opening job.now.run.program.now job.now.run.limits.discipline }
        ensures room { IfOk result (λ _. HasRoom job.now.run.limits.discipline self.new) }
        ensures begun { IfOk result (λ _. HoldsFew job.now.run.program.now job.now.most self.new.found (searched (slot_graph job.now.run.program.now job.now.run.limits.discipline job.now.run.limits.steps) ends_tests 0)) }
        ensures seen { IfOk result (λ arrived. (last : Machine) × ComesTo (silent_slots job.now.run.program.now job.now.run.limits.discipline) (λ w. P.sees w job.now.run.program.now job.now.run.limits.discipline) job.now.run.limits.steps (first_leg (silent_slots job.now.run.program.now job.now.run.limits.discipline) job.now.run.limits.steps) [] self.new.told.seen (with_round self.new.told.again (halt_of arrived)) last) }
    {
        self.told.values.clear();
        let state = &mut self.found.states.standing.state;
        let halt = open(job.alloc, &job.run, state, &mut self.told)?;
        self.find_row(job)?;
        let row = self.row.as_slice();
        let values = self.told.values.as_slice();
        let arrived = self.found.arrive(job, row, halt, values, Origin::Start)?;
        Ok(arrived)
    }

    // Where a choice leads to in the state of a row, which is not known from legs: it is taken step by step.
    #[inline(never)]
    fn go_slowly(
        &mut self,
        job: &SearchJob<'_>,
        from: &StateRow<P>,
        process: u8,
    ) -> Result<Halt<End>, AllocError>
        requires room { HasRoom job.now.run.limits.discipline self.old }
        requires here { (f : SlotFindings) × (m : Machine) × Holds job.now.run.program.now self.old.found f × IsRowFor job.now.run.program.now self.old.found.states from.now.row.items m × (may (slots job.now.run.program.now job.now.run.limits.discipline) m process ≡ true) }
        ensures room { IfOk result (λ _. HasRoom job.now.run.limits.discipline self.new) }
        ensures kept { IfOk result (λ _. KeepFound job.now.run.program.now self.old.found self.new.found) }
        ensures goes { IfOk result (λ halt. (m : Machine) → IsRowFor job.now.run.program.now self.old.found.states from.now.row.items m → may (slots job.now.run.program.now job.now.run.limits.discipline) m process ≡ true → GoesAsTold P.sees job.now.run.program.now job.now.run.limits.discipline job.now.run.limits.steps m process halt (IsRowFor job.now.run.program.now self.new.found.states self.new.row.items) self.new.told) }
    {
        self.told.values.clear();
        let states = &mut self.found.states;
        states
            .cache
            .stand(&job.run, from.row.as_slice(), &mut states.standing);
        let state = &mut states.standing.state;
        let halt = choose(job.alloc, &job.run, state, process, &mut self.told)?;
        self.find_row(job)?;
        Ok(halt)
    }

    // Where a choice leads to in the state of a row by the legs that are known, and what it displays on the way.
    fn go_by_legs(
        &mut self,
        job: &SearchJob<'_>,
        from: &StateRow<P>,
        process: u8,
    ) -> Result<Halt<End>, AllocError>
        requires room { HasRoom job.now.run.limits.discipline self.old }
        requires here { (f : SlotFindings) × (m : Machine) × Holds job.now.run.program.now self.old.found f × IsRowFor job.now.run.program.now self.old.found.states from.now.row.items m × (may (slots job.now.run.program.now job.now.run.limits.discipline) m process ≡ true) }
        ensures room { IfOk result (λ _. HasRoom job.now.run.limits.discipline self.new) }
        ensures kept { IfOk result (λ _. KeepFound job.now.run.program.now self.old.found self.new.found) }
        ensures goes { IfOk result (λ halt. (m : Machine) → IsRowFor job.now.run.program.now self.old.found.states from.now.row.items m → may (slots job.now.run.program.now job.now.run.limits.discipline) m process ≡ true → P.looks from.now.seen job.now.run.program.now m → GoesAsTold P.sees job.now.run.program.now job.now.run.limits.discipline job.now.run.limits.steps m process halt (IsRowFor job.now.run.program.now self.new.found.states self.new.row.items) self.new.told) }
    {
        self.told.values.clear();
        self.row.copy_from_slice(from.row.as_slice());
        let told = &mut self.told;
        let row = self.row.as_mut_slice();
        let states = &mut self.found.states;
        match states.see_choice(job.alloc, &job.run, row, from.seen, process, told)? {
            Some(halt) => Ok(ended(halt)),
            None => self.go_slowly(job, from, process),
        }
    }

    // Follows a choice in the state of a row with these numbers, if it is a move that is known and a choice is due after it. Tells whether it is.
    #[inline(always)]
    fn follow_move(
        &mut self,
        job: &SearchJob<'_>,
        from: &StateRow<P>,
        process: u8,
    ) -> Result<bool, AllocError>
        requires room { HasRoom job.now.run.limits.discipline self.old }
        requires here { (f : SlotFindings) × (m : Machine) × Holds job.now.run.program.now self.old.found f × IsRowFor job.now.run.program.now self.old.found.states from.now.row.items m × (may (slots job.now.run.program.now job.now.run.limits.discipline) m process ≡ true) }
        requires halved { IsHalved self.old.found.states from.now.numbers.numbers from.now.row.items }
        ensures room { IfOk result (λ _. HasRoom job.now.run.limits.discipline self.new) }
        ensures kept { IfOk result (λ _. KeepFound job.now.run.program.now self.old.found self.new.found) }
        ensures goes { IfOk result (λ is_made. is_made ≡ true → (m : Machine) → IsRowFor job.now.run.program.now self.old.found.states from.now.row.items m → may (slots job.now.run.program.now job.now.run.limits.discipline) m process ≡ true → P.looks from.now.seen job.now.run.program.now m → GoesAsTold P.sees job.now.run.program.now job.now.run.limits.discipline job.now.run.limits.steps m process Choice (IsStated job.now.run.program.now self.new.found.states self.new.next.numbers) self.new.told) }
    {
        let states = &mut self.found.states;
        let Some(known) = states.find_move(&job.run, from.row.as_slice(), from.numbers, process)
        else {
            return Ok(false);
        };
        self.told.values.clear();
        self.told.see_step(from.seen, process);
        self.row.copy_from_slice(from.row.as_slice());
        let values = &mut self.told.values;
        let row = self.row.as_mut_slice();
        match states.make_move(job.alloc, &job.run, row, from.numbers, &known, values)? {
            Some(next) => {
                self.next = next;
                Ok(true)
            }
            None => Ok(false),
        }
    }

    // Where a choice leads to in the state of a row with these numbers, and what it displays on the way. Where a choice is due there, the numbers of the
    // row there are found.
    fn go(
        &mut self,
        job: &SearchJob<'_>,
        from: &StateRow<P>,
        process: u8,
    ) -> Result<Halt<End>, AllocError>
        requires below { process < processes_of job.now.run.program.now }
        requires room { HasRoom job.now.run.limits.discipline self.old }
        requires here { (f : SlotFindings) × (m : Machine) × Holds job.now.run.program.now self.old.found f × IsRowFor job.now.run.program.now self.old.found.states from.now.row.items m × (may (slots job.now.run.program.now job.now.run.limits.discipline) m process ≡ true) }
        requires halved { IsHalved self.old.found.states from.now.numbers.numbers from.now.row.items }
        ensures room { IfOk result (λ _. HasRoom job.now.run.limits.discipline self.new) }
        ensures kept { IfOk result (λ _. KeepFound job.now.run.program.now self.old.found self.new.found) }
        ensures goes { IfOk result (λ halt. (m : Machine) → IsRowFor job.now.run.program.now self.old.found.states from.now.row.items m → may (slots job.now.run.program.now job.now.run.limits.discipline) m process ≡ true → P.looks from.now.seen job.now.run.program.now m → GoesAsTold P.sees job.now.run.program.now job.now.run.limits.discipline job.now.run.limits.steps m process halt (IsStated job.now.run.program.now self.new.found.states self.new.next.numbers) self.new.told) }
    {
        if self.follow_move(job, from, process)? {
            return Ok(Halt::Choice);
        }
        let halt = self.go_by_legs(job, from, process)?;
        let states = &mut self.found.states;
        states.learn(job.alloc, from.row.as_slice(), from.numbers, process)?;
        match halt {
            Halt::Choice => {
                self.next = states.halve(job.alloc, &self.row)?;
                Ok(Halt::Choice)
            }
            Halt::Ended(end) => Ok(Halt::Ended(end)),
        }
    }

    /// Takes a choice in the state of this number and row, and notes where it arrives.
    #[inline(always)]
    pub fn take_choice(
        &mut self,
        job: &SearchJob<'_>,
        at: u32,
        from: &StateRow<P>,
        process: u8,
    ) -> Result<Arrived, AllocError>
        requires below { process < processes_of job.now.run.program.now }
        requires within { (m : Machine) × IsWithinRow P.looks job.now.run.program.now job.now.run.limits.discipline job.now.run.limits.steps job.now.most self.old from.now at m (those_below process (may (slots job.now.run.program.now job.now.run.limits.discipline) m)) × (may (slots job.now.run.program.now job.now.run.limits.discipline) m process ≡ true) }
        ensures within { IfOk result (λ arrived. has_room arrived ≡ true → (m : Machine) → IsWithinRow P.looks job.now.run.program.now job.now.run.limits.discipline job.now.run.limits.steps job.now.most self.old from.now at m (those_below process (may (slots job.now.run.program.now job.now.run.limits.discipline) m)) → may (slots job.now.run.program.now job.now.run.limits.discipline) m process ≡ true → IsWithinRow P.looks job.now.run.program.now job.now.run.limits.discipline job.now.run.limits.steps job.now.most self.new from.now at m (those_below process (may (slots job.now.run.program.now job.now.run.limits.discipline) m) ++ process ∷ [])) }
        ensures stops { IfOk result (λ arrived. has_room arrived ≡ false → IsStopped job.now.run.program.now (slot_graph job.now.run.program.now job.now.run.limits.discipline job.now.run.limits.steps) job.now.most self.new.found at) }
        ensures told { IfOk result (λ arrived. (m : Machine) → IsWithinRow P.looks job.now.run.program.now job.now.run.limits.discipline job.now.run.limits.steps job.now.most self.old from.now at m (those_below process (may (slots job.now.run.program.now job.now.run.limits.discipline) m)) → may (slots job.now.run.program.now job.now.run.limits.discipline) m process ≡ true → IsTold P.sees job.now.run.program.now job.now.run.limits.discipline job.now.run.limits.steps at m process arrived self.new.told) }
    {
        let halt = self.go(job, from, process)?;
        let origin = Origin::Choice {
            state: at,
            number: process,
        };
        let values = self.told.values.as_slice();
        let arrived = self.found.arrive_at(job, self.next, halt, values, origin)?;
        Ok(arrived)
    }
}

impl<P: Sight> RowVisit<P> for RowSearch<P> {
    ghost use Rattle.cp_ends.specs.Answer.{HoldsFew, IsStopped, ends_tests, slot_graph};
    ghost use Rattle.cp_ends.specs.ByRows.{HasRoom, IsWithinRow};
    ghost use Rattle.cp_ends.specs.Searched.{searched};
    ghost use Rattle.cp_ends.specs.Visited.{IsWhole};

    ghost before = { λ v job n. HasRoom job.run.limits.discipline v × HoldsFew job.run.program.now job.most v.found (searched (slot_graph job.run.program.now job.run.limits.discipline job.run.limits.steps) ends_tests n) };

    ghost within = { λ v job from at m done. IsWithinRow P.looks job.run.program.now job.run.limits.discipline job.run.limits.steps job.most v from at m done };

    ghost over = { λ v job. IsWhole job.run.program.now (slot_graph job.run.program.now job.run.limits.discipline job.run.limits.steps) job.most v.found };

    ghost stops = { λ v job at. IsStopped job.run.program.now (slot_graph job.run.program.now job.run.limits.discipline job.run.limits.steps) job.most v.found at };

    fn len(&self) -> usize {
        self.found.states.len()
    }

    fn progress(&self, choices: u32) -> Progress {
        Progress {
            choices,
            states: self.found.states.len(),
            outcomes: Some(self.found.ends.len()),
        }
    }

    #[inline(always)]
    fn state_at(&self, _job: &SearchJob<'_>, number: u32) -> Option<StateRow<P>> {
        self.found.states.state_at(number)
    }

    #[inline(always)]
    fn candidates(&self, _job: &SearchJob<'_>, _at: u32, from: &StateRow<P>) -> ArrayVec<u8, 16> {
        self.found.states.cache.candidates(from.row.as_slice())
    }

    #[inline(always)]
    fn take(
        &mut self,
        job: &SearchJob<'_>,
        at: u32,
        from: &StateRow<P>,
        process: u8,
    ) -> Result<bool, AllocError> {
        let arrived = self.take_choice(job, at, from, process)?;
        Ok(arrived.has_room())
    }

    fn end_state(&mut self, _job: &SearchJob<'_>, _at: u32) -> Result<(), AllocError> {
        Ok(())
    }

    ghost fills = { λ v job h. record { count = job.most; holds = h.1; all = h.1.few } };
}
