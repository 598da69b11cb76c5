//! What is known of the states of a program, of the legs of its processes, and of admissions.

ghost use Rattle.std.specs.Prelude.{◌≡◌, ◌<◌, All, length, IfOk, IfSome};
ghost use Rattle.cp_slots.specs.Tables.{Tables};
ghost use Rattle.cp_machine.specs.declared.discipline.Discipline.{Discipline};
ghost use Rattle.cp_machine.specs.Fits.{IsStateOf};
ghost use Rattle.cp_machine.specs.Machine.{Machine, machine_of};
ghost use Rattle.cp_machine.specs.Opening.{opening};
ghost use Rattle.cp_run.specs.Run.{may, those_below};
ghost use Rattle.cp_run.specs.Slots.{processes_of, slots};
ghost use Rattle.cp_parts.specs.Parts.{IsPartRow, KeepStore};
ghost use Rattle.cp_effects.specs.Changes.{written};
ghost use Rattle.cp_stretches.specs.Cached.{IsCache, IsStanding, StandsFor};

use crate::legs::LegTable;
use crate::numbers::StatusNumbers;
use arrayvec::ArrayVec;
use cp_effects::{AdmissionTable, Effect, write_row};
use cp_machine::State;
use cp_parts::{PartStore, PlaceTable};
use cp_run::Job;
use cp_slots::Resolved;
use std::alloc::{AllocError, Global};

/// A state with its row.
pub struct Standing {
    pub state: State,
    pub row: Vec<u32>,
}

// One call where it is dropped, not one for each list: proofs of functions that may end early are much shorter.
impl Drop for Standing {
    fn drop(self) {
        let Standing { state: _, row: _ } = self;
    }
}

/// What is known of the parts of states, of legs, and of admissions.
pub struct LegCache {
    pub table: PlaceTable,
    pub store: PartStore,
    pub numbers: StatusNumbers,
    pub legs: LegTable,
    pub admissions: AdmissionTable,
}

// One call where it is dropped, not one for each list: proofs of functions that may end early are much shorter.
impl Drop for LegCache {
    fn drop(self) {
        let LegCache {
            table: _,
            store: _,
            numbers: _,
            legs: _,
            admissions: _,
        } = self;
    }
}

impl LegCache {
    /// No part, no leg and no admission is known.
    pub fn new(alloc: Global, program: &Resolved) -> Result<LegCache, AllocError>
        ensures { IfOk result (λ cache. (discipline : Discipline) → IsCache program.now discipline cache) }
    {
        // A sound program has a process.
        let _processes = program.processes();
        let table = PlaceTable::new(alloc, program)?;
        let mut store = PartStore::new(alloc)?;
        let numbers = StatusNumbers::new(alloc, &table, &mut store)?;
        Ok(LegCache {
            table,
            store,
            numbers,
            legs: LegTable::new(alloc),
            admissions: AdmissionTable::new(alloc),
        })
    }

    /// The opening state with its row.
    pub fn start(&mut self, alloc: Global, job: &Job<'_>) -> Result<Standing, AllocError>
        requires { IsCache job.now.program.now job.now.limits.discipline self.old }
        ensures cache { IfOk result (λ _. IsCache job.now.program.now job.now.limits.discipline self.new) }
        ensures standing { IfOk result (λ standing. IsStanding job.now.program.now self.new.store self.new.table standing) }
        ensures start { IfOk result (λ standing. machine_of standing.state ≡ opening job.now.program.now job.now.limits.discipline) }
    {
        let state = State::start(alloc, job.program, job.limits.discipline)?;
        let row = self.store.row_of(alloc, &self.table, &state)?;
        Ok(Standing { state, row })
    }

    /// The processes that a due choice may take in the state of a row, in rising order.
    pub fn candidates(&self, row: &[u32]) -> ArrayVec<u8, 16>
        requires { (r : Tables) × (discipline : Discipline) × (m : Machine) × IsCache r discipline self.now × StandsFor r discipline self.now.store self.now.table m row.now }
        ensures { (r : Tables) (discipline : Discipline) (m : Machine) → IsCache r discipline self.now → StandsFor r discipline self.now.store self.now.table m row.now → result.items ≡ those_below (processes_of r) (may (slots r discipline) m) }
    {
        self.numbers.candidates(&self.table, row)
    }

    /// A state becomes the one of a row. It takes no memory.
    pub fn stand(&self, job: &Job<'_>, row: &[u32], standing: &mut Standing)
        requires cache { IsCache job.now.program.now job.now.limits.discipline self.now }
        requires standing { IsStanding job.now.program.now self.now.store self.now.table standing.old }
        requires row { (m : Machine) × StandsFor job.now.program.now job.now.limits.discipline self.now.store self.now.table m row.now }
        ensures state { (m : Machine) → StandsFor job.now.program.now job.now.limits.discipline self.now.store self.now.table m row.now → machine_of standing.new.state ≡ m }
        ensures standing { IsStanding job.now.program.now self.now.store self.now.table standing.new }
        ensures row { standing.new.row.items ≡ row.now }
    {
        standing.state.discipline = job.limits.discipline;
        self.store
            .take_row(&self.table, row, &standing.row, &mut standing.state);
        standing.row.copy_from_slice(row);
    }

    /// The row of a state is found anew.
    pub fn find_row(
        &mut self,
        alloc: Global,
        job: &Job<'_>,
        standing: &mut Standing,
    ) -> Result<(), AllocError>
        requires cache { IsCache job.now.program.now job.now.limits.discipline self.old }
        requires own { IsStateOf job.now.program.now standing.old.state }
        ensures cache { IfOk result (λ _. IsCache job.now.program.now job.now.limits.discipline self.new) }
        ensures standing { IfOk result (λ _. IsStanding job.now.program.now self.new.store self.new.table standing.new) }
        ensures same { standing.new.state ≡ standing.old.state }
        ensures kept { KeepStore self.old.store self.new.store }
        ensures table { self.new.table ≡ self.old.table }
        ensures legs { self.new.legs ≡ self.old.legs }
    {
        let _ = job;
        let row = self.store.row_of(alloc, &self.table, &standing.state)?;
        standing.row = row;
        Ok(())
    }

    /// The standing state has made a leg: its row becomes the one after it. It is found anew where it is not known what the leg changed.
    pub fn follow(
        &mut self,
        alloc: Global,
        job: &Job<'_>,
        made: &Option<Effect>,
        standing: &mut Standing,
    ) -> Result<(), AllocError>
        requires cache { IsCache job.now.program.now job.now.limits.discipline self.old }
        requires own { IsStateOf job.now.program.now standing.old.state }
        requires inside { IfSome made.now (λ e. All (λ w. w.position < length standing.old.row.items) e.writes.items) }
        requires row { IfSome made.now (λ e. IsPartRow self.old.store self.old.table (machine_of standing.old.state) (written e.writes.items standing.old.row.items)) }
        ensures cache { IfOk result (λ _. IsCache job.now.program.now job.now.limits.discipline self.new) }
        ensures standing { IfOk result (λ _. IsStanding job.now.program.now self.new.store self.new.table standing.new) }
        ensures kept { KeepStore self.old.store self.new.store }
        ensures table { self.new.table ≡ self.old.table }
        ensures legs { self.new.legs ≡ self.old.legs }
    {
        let Some(effect) = made else {
            return self.find_row(alloc, job, standing);
        };
        write_row(&mut standing.row, &effect.writes);
        Ok(())
    }
}
