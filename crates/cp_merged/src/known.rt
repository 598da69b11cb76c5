//! What is known of the states of a search.

ghost use Rattle.std.specs.Prelude.{◌≡◌, ◌+◌, [], ◌≤◌, List, false, length, true, IfOk, IfSome};
ghost use Rattle.cp_slots.specs.Tables.{Tables};
ghost use Rattle.cp_key.specs.Room.{IsMachineOf};
ghost use Rattle.cp_machine.specs.System.{Machine, machine_of, opening, IsStateOf};
ghost use Rattle.cp_machine.specs.declared.shown.Shown as spec;
ghost use Rattle.cp_run.specs.Code.{node_of};
ghost use Rattle.cp_run.specs.Run.{may, opened, those_below};
ghost use Rattle.cp_run.specs.Slots.{processes_of, slots};
ghost use Rattle.cp_stretches.specs.Cached.{IsCache};
ghost use Rattle.cp_merged.specs.Known.{Goes, IsArrival, IsBefore, IsKnown, IsRowFor, KeepKnown, width_of};

use arrayvec::ArrayVec;
use cp_machine::{Discipline, MOST_SHOWN, Shown, Uncounted, Unwatched};
use cp_run::{Halt, Job, OutcomeKind, choose, open};
use cp_states::ListStore;
use cp_stretches::{LegCache, Standing};
use std::alloc::{AllocError, Global};

/// The parts of the states so far, the legs that are known, and what was displayed. The row of a state has the number of what it displayed at
/// its end.
pub struct KnownStates {
    pub cache: LegCache,
    pub outputs: ListStore<Shown>,
    /// Room for what a state displayed.
    pub output_room: Vec<Shown>,
    /// Room for a state with its row, in which legs are made.
    pub standing: Standing,
    pub discipline: Discipline,
}

// One call where it is dropped, not one for each list: proofs of functions that may end early are much shorter.
impl Drop for KnownStates {
    fn drop(self) {
        let KnownStates {
            cache: _,
            outputs: _,
            output_room: _,
            standing: _,
            discipline: _,
        } = self;
    }
}

impl KnownStates {
    /// Nothing is known. The opening state stands in the room for one.
    pub fn new(alloc: Global, job: &Job<'_>) -> Result<KnownStates, AllocError>
        ensures known { IfOk result (λ known. IsKnown job.now.program.now known) }
        ensures ruled { IfOk result (λ known. known.discipline ≡ job.now.limits.discipline) }
        ensures start { IfOk result (λ known. machine_of known.standing.state ≡ opening job.now.program.now job.now.limits.discipline) }
    {
        let mut cache = LegCache::new(alloc, job.program)?;
        let standing = cache.start(alloc, job)?;
        Ok(KnownStates {
            cache,
            outputs: ListStore::new(alloc),
            output_room: Vec::new(alloc),
            standing,
            discipline: job.limits.discipline,
        })
    }

    /// Where the number of what was displayed stands in a row.
    #[inline(always)]
    pub fn output_position(&self) -> usize
        ensures { result ≡ width_of self.now.cache.table }
    {
        self.cache.table.width()
    }

    /// The values whose number stands at the end of a row.
    #[inline(always)]
    pub fn output(&self, row: &[u32]) -> &[Shown]
        requires { (o : List spec.Shown) × IsBefore self.now row.now o }
        ensures { (o : List spec.Shown) → IsBefore self.now row.now o → result.now ≡ o }
    {
        self.outputs.at(row[self.output_position()] as usize)
    }

    /// The processes that a due choice may take in the state of a row, in rising order.
    #[inline(always)]
    pub fn candidates(&self, row: &[u32]) -> ArrayVec<u8, 16>
        requires { (r : Tables) × (m : Machine) × IsKnown r self.now × IsRowFor r self.now row.now m × IsMachineOf r m }
        ensures { (r : Tables) (m : Machine) → IsKnown r self.now → IsRowFor r self.now row.now m → IsMachineOf r m → result.items ≡ those_below (processes_of r) (may (slots r self.now.discipline) m) }
    {
        self.cache.candidates(&row[..self.output_position()])
    }

    // What stands in the room for a state is written into a row, with what it displayed.
    fn find_row(&mut self, alloc: Global, job: &Job<'_>, row: &mut [u32]) -> Result<(), AllocError>
        requires cache { IsCache job.now.program.now self.old.discipline self.old.cache }
        requires ruled { self.old.discipline ≡ job.now.limits.discipline }
        requires own { IsStateOf job.now.program.now self.old.standing.state }
        requires same { (machine_of self.old.standing.state).discipline ≡ self.old.discipline }
        requires long { length row.old ≡ width_of self.old.cache.table + 1 }
        ensures known { IfOk result (λ _. IsKnown job.now.program.now self.new) }
        ensures kept { IfOk result (λ _. KeepKnown self.old self.new) }
        ensures arrival { IfOk result (λ _. IsArrival job.now.program.now self.new row.new [] (machine_of self.old.standing.state)) }
    {
        let end = self.output_position();
        self.cache.find_row(alloc, job, &mut self.standing)?;
        row[..end].copy_from_slice(&self.standing.row);
        row[end] = self.outputs.number_of(alloc, &self.standing.state.output)?;
        Ok(())
    }

    /// Follows the opening stretch. The row becomes that of the state where it halts.
    pub fn open(
        &mut self,
        alloc: Global,
        job: &Job<'_>,
        row: &mut [u32],
    ) -> Result<Halt<OutcomeKind>, AllocError>
        requires known { IsKnown job.now.program.now self.old }
        requires ruled { self.old.discipline ≡ job.now.limits.discipline }
        requires start { machine_of self.old.standing.state ≡ opening job.now.program.now job.now.limits.discipline }
        requires long { length row.old ≡ width_of self.old.cache.table + 1 }
        ensures known { IfOk result (λ _. IsKnown job.now.program.now self.new) }
        ensures kept { IfOk result (λ _. KeepKnown self.old self.new) }
        ensures opened { IfOk result (λ halt. (m : Machine) × IsArrival job.now.program.now self.new row.new [] m × (opened (slots job.now.program.now job.now.limits.discipline) job.now.limits.steps ≡ node_of halt m)) }
    {
        let state = &mut self.standing.state;
        let halt = open(job, state, &mut Uncounted, &mut Uncounted);
        self.find_row(alloc, job, row)?;
        Ok(halt)
    }

    // Where a choice leads to in the state of a row, step by step.
    #[inline(never)]
    fn go_slowly(
        &mut self,
        alloc: Global,
        job: &Job<'_>,
        from: &[u32],
        process: u8,
        row: &mut [u32],
    ) -> Result<Halt<OutcomeKind>, AllocError>
        requires known { IsKnown job.now.program.now self.old }
        requires ruled { self.old.discipline ≡ job.now.limits.discipline }
        requires here { (m : Machine) × IsRowFor job.now.program.now self.old from.now m × IsMachineOf job.now.program.now m × (may (slots job.now.program.now job.now.limits.discipline) m process ≡ true) }
        requires long { length row.old ≡ width_of self.old.cache.table + 1 }
        ensures known { IfOk result (λ _. IsKnown job.now.program.now self.new) }
        ensures kept { IfOk result (λ _. KeepKnown self.old self.new) }
        ensures goes { IfOk result (λ halt. (m : Machine) → IsRowFor job.now.program.now self.old from.now m → IsMachineOf job.now.program.now m → may (slots job.now.program.now job.now.limits.discipline) m process ≡ true → Goes job.now.program.now job.now.limits.discipline job.now.limits.steps m process halt self.new row.new []) }
    {
        let end = self.output_position();
        self.cache.stand(job, &from[..end], &mut self.standing);
        let state = &mut self.standing.state;
        self.outputs.take_anew(from[end], &mut state.output);
        let halt = choose(
            job,
            state,
            process,
            &mut Unwatched,
            &mut Uncounted,
            &mut Uncounted,
        );
        self.find_row(alloc, job, row)?;
        Ok(halt)
    }

    // Where a choice leads to in the state of a row, by the legs that are known or are made now. `None` where they don't tell.
    #[inline(always)]
    fn go_by_legs(
        &mut self,
        alloc: Global,
        job: &Job<'_>,
        from: &[u32],
        process: u8,
        row: &mut [u32],
        shown: &mut Vec<Shown>,
    ) -> Result<Option<Halt<OutcomeKind>>, AllocError>
        requires known { IsKnown job.now.program.now self.old }
        requires ruled { self.old.discipline ≡ job.now.limits.discipline }
        requires here { (m : Machine) × IsRowFor job.now.program.now self.old from.now m × IsMachineOf job.now.program.now m × (may (slots job.now.program.now job.now.limits.discipline) m process ≡ true) }
        requires long { length row.old ≡ width_of self.old.cache.table + 1 }
        ensures known { IfOk result (λ _. IsKnown job.now.program.now self.new) }
        ensures kept { IfOk result (λ _. KeepKnown self.old self.new) }
        ensures long { IfOk result (λ _. length row.new ≡ width_of self.new.cache.table + 1) }
        ensures goes { IfOk result (λ halts. IfSome halts (λ halt. (m : Machine) → IsRowFor job.now.program.now self.old from.now m → IsMachineOf job.now.program.now m → may (slots job.now.program.now job.now.limits.discipline) m process ≡ true → Goes job.now.program.now job.now.limits.discipline job.now.limits.steps m process halt self.new row.new shown.new.items)) }
    {
        let end = self.output_position();
        row.copy_from_slice(from);
        shown.clear();
        let parts = &mut row[..end];
        let standing = &mut self.standing;
        let halts = self
            .cache
            .choose(alloc, job, parts, process, standing, shown)?;
        if self.is_too_much(from, shown) {
            return Ok(None);
        }
        Ok(halts)
    }

    // Whether there is no room for more values after those whose number stands at the end of a row.
    #[inline(always)]
    fn is_too_much(&self, row: &[u32], more: &[Shown]) -> bool
        requires { (o : List spec.Shown) × IsBefore self.now row.now o × (length o ≤ MOST_SHOWN) }
        ensures { (o : List spec.Shown) → IsBefore self.now row.now o → result ≡ false → length o ≤ MOST_SHOWN → length o + length more.now ≤ MOST_SHOWN }
    {
        !more.is_empty() && more.len() > MOST_SHOWN - self.output(row).len()
    }

    /// Where a choice leads to in the state of a row. The row becomes that of the state where it halts, but for the values that were displayed
    /// on the way.
    #[inline(always)]
    pub fn go(
        &mut self,
        alloc: Global,
        job: &Job<'_>,
        from: &[u32],
        process: u8,
        row: &mut [u32],
        shown: &mut Vec<Shown>,
    ) -> Result<Halt<OutcomeKind>, AllocError>
        requires known { IsKnown job.now.program.now self.old }
        requires ruled { self.old.discipline ≡ job.now.limits.discipline }
        requires here { (m : Machine) × IsRowFor job.now.program.now self.old from.now m × IsMachineOf job.now.program.now m × (may (slots job.now.program.now job.now.limits.discipline) m process ≡ true) }
        requires long { length row.old ≡ width_of self.old.cache.table + 1 }
        ensures known { IfOk result (λ _. IsKnown job.now.program.now self.new) }
        ensures kept { IfOk result (λ _. KeepKnown self.old self.new) }
        ensures goes { IfOk result (λ halt. (m : Machine) → IsRowFor job.now.program.now self.old from.now m → IsMachineOf job.now.program.now m → may (slots job.now.program.now job.now.limits.discipline) m process ≡ true → Goes job.now.program.now job.now.limits.discipline job.now.limits.steps m process halt self.new row.new shown.new.items) }
    {
        match self.go_by_legs(alloc, job, from, process, row, shown)? {
            Some(halt) => Ok(halt),
            None => {
                shown.clear();
                self.go_slowly(alloc, job, from, process, row)
            }
        }
    }

    /// Words arrive at the state of a row: the number of all that it displayed is written at the end.
    #[inline(always)]
    pub fn number_output(
        &mut self,
        alloc: Global,
        row: &mut [u32],
        shown: &[Shown],
    ) -> Result<(), AllocError>
        requires { (r : Tables) × (m : Machine) × IsArrival r self.old row.old shown.now m }
        ensures row { IfOk result (λ _. (r : Tables) (m : Machine) → IsArrival r self.old row.old shown.now m → IsRowFor r self.new row.new m) }
        ensures known { (r : Tables) → IsKnown r self.old → IsKnown r self.new }
        ensures kept { KeepKnown self.old self.new }
    {
        if shown.is_empty() {
            return Ok(());
        }
        self.number_longer(alloc, row, shown)
    }

    // The same where something was displayed.
    #[inline(never)]
    fn number_longer(
        &mut self,
        alloc: Global,
        row: &mut [u32],
        shown: &[Shown],
    ) -> Result<(), AllocError>
        requires { (r : Tables) × (m : Machine) × IsArrival r self.old row.old shown.now m }
        ensures row { IfOk result (λ _. (r : Tables) (m : Machine) → IsArrival r self.old row.old shown.now m → IsRowFor r self.new row.new m) }
        ensures known { (r : Tables) → IsKnown r self.old → IsKnown r self.new }
        ensures kept { KeepKnown self.old self.new }
    {
        let end = self.output_position();
        self.output_room.clear();
        let before = self.outputs.at(row[end] as usize);
        self.output_room.extend_from_slice(before)?;
        self.output_room.extend_from_slice(shown)?;
        row[end] = self.outputs.number_of(alloc, &self.output_room)?;
        Ok(())
    }
}
