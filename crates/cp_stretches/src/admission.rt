//! How a due choice begins: a process is let in where a monitor is pending.

ghost use Rattle.std.specs.Prelude.{◌≡◌, true, IfOk};
ghost use Rattle.cp_machine.specs.Machine.{Machine};
ghost use Rattle.cp_run.specs.Run.{may};
ghost use Rattle.cp_run.specs.Slots.{slots};
ghost use Rattle.cp_states.specs.Numbers.{number_at};
ghost use Rattle.cp_parts.specs.Parts.{KeepStore};
ghost use Rattle.cp_effects.specs.Admitting.{IsAdmission, IsAdmissionKey, guard_position};
ghost use Rattle.cp_stretches.specs.Cached.{IsCache, IsStanding, StandsFor};
ghost use Rattle.cp_stretches.specs.Stretching.{Begins, MayEnter};

use crate::cache::{LegCache, Standing};
use crate::numbers::pending_monitor;
use cp_effects::{make_admission, write_admission};
use cp_run::{Job, Turn};
use std::alloc::{AllocError, Global};

impl LegCache {
    // A process is let in at the pending monitor in the state of a row, and that is remembered. Answers the number of the part that the monitor's place has
    // afterwards.
    #[inline(never)]
    fn learn_admission(
        &mut self,
        alloc: Global,
        job: &Job<'_>,
        row: &[u32],
        pid: u8,
        monitor: u8,
        key: u32,
        standing: &mut Standing,
    ) -> Result<u32, AllocError>
        requires cache { IsCache job.now.program.now job.now.limits.discipline self.old }
        requires standing { IsStanding job.now.program.now self.old.store self.old.table standing.old }
        requires row { (m : Machine) × MayEnter job.now.program.now job.now.limits.discipline self.old.store self.old.table m row.now pid monitor }
        requires key { IsAdmissionKey self.old.admissions key pid monitor (number_at row.now (guard_position self.old.table monitor)) }
        ensures admission { IfOk result (λ part. IsAdmission self.new.store self.new.table job.now.program.now pid monitor (number_at row.now (guard_position self.new.table monitor)) part) }
        ensures cache { IfOk result (λ _. IsCache job.now.program.now job.now.limits.discipline self.new) }
        ensures standing { IfOk result (λ _. IsStanding job.now.program.now self.new.store self.new.table standing.new) }
        ensures kept { KeepStore self.old.store self.new.store }
        ensures table { self.new.table ≡ self.old.table }
    {
        self.stand(job, row, standing);
        let state = &mut standing.state;
        let store = &mut self.store;
        let part = make_admission(alloc, job.program, &self.table, store, state, pid, monitor)?;
        write_admission(
            &self.store,
            &self.table,
            &mut standing.row,
            pid,
            monitor,
            part,
        );
        self.admissions.remember(key, part)?;
        Ok(part)
    }

    // The number of the part that the place of the pending monitor has after a process is let in. It is found on a state where it is not known.
    #[inline(always)]
    fn part_after(
        &mut self,
        alloc: Global,
        job: &Job<'_>,
        row: &[u32],
        pid: u8,
        monitor: u8,
        standing: &mut Standing,
    ) -> Result<u32, AllocError>
        requires cache { IsCache job.now.program.now job.now.limits.discipline self.old }
        requires standing { IsStanding job.now.program.now self.old.store self.old.table standing.old }
        requires row { (m : Machine) × MayEnter job.now.program.now job.now.limits.discipline self.old.store self.old.table m row.now pid monitor }
        ensures admission { IfOk result (λ part. IsAdmission self.new.store self.new.table job.now.program.now pid monitor (number_at row.now (guard_position self.new.table monitor)) part) }
        ensures cache { IfOk result (λ _. IsCache job.now.program.now job.now.limits.discipline self.new) }
        ensures standing { IfOk result (λ _. IsStanding job.now.program.now self.new.store self.new.table standing.new) }
        ensures kept { KeepStore self.old.store self.new.store }
        ensures table { self.new.table ≡ self.old.table }
    {
        let key = self
            .admissions
            .number_key(alloc, &self.table, row, pid, monitor)?;
        match self.admissions.at(key) {
            Some(part) => Ok(part),
            None => self.learn_admission(alloc, job, row, pid, monitor, key, standing),
        }
    }

    // The row after a process is let in at the pending monitor. Answers what comes next.
    #[inline(always)]
    fn enter(
        &mut self,
        alloc: Global,
        job: &Job<'_>,
        row: &mut [u32],
        pid: u8,
        monitor: u8,
        standing: &mut Standing,
    ) -> Result<Turn, AllocError>
        requires cache { IsCache job.now.program.now job.now.limits.discipline self.old }
        requires standing { IsStanding job.now.program.now self.old.store self.old.table standing.old }
        requires row { (m : Machine) × MayEnter job.now.program.now job.now.limits.discipline self.old.store self.old.table m row.old pid monitor }
        ensures cache { IfOk result (λ _. IsCache job.now.program.now job.now.limits.discipline self.new) }
        ensures standing { IfOk result (λ _. IsStanding job.now.program.now self.new.store self.new.table standing.new) }
        ensures kept { KeepStore self.old.store self.new.store }
        ensures table { self.new.table ≡ self.old.table }
        ensures begins { IfOk result (λ turn. (m : Machine) → MayEnter job.now.program.now job.now.limits.discipline self.old.store self.old.table m row.old pid monitor → Begins job.now.program.now job.now.limits.discipline self.new.store self.new.table m pid turn row.new) }
    {
        let part = self.part_after(alloc, job, row, pid, monitor, standing)?;
        write_admission(&self.store, &self.table, row, pid, monitor, part);
        Ok(self.numbers.settled_turn(&self.table, row))
    }

    /// The row after a due choice takes a process, which is let in where a monitor is pending. Answers what comes next.
    #[inline(always)]
    pub fn begin(
        &mut self,
        alloc: Global,
        job: &Job<'_>,
        row: &mut [u32],
        process: u8,
        standing: &mut Standing,
    ) -> Result<Turn, AllocError>
        requires cache { IsCache job.now.program.now job.now.limits.discipline self.old }
        requires standing { IsStanding job.now.program.now self.old.store self.old.table standing.old }
        requires row { (m : Machine) × StandsFor job.now.program.now job.now.limits.discipline self.old.store self.old.table m row.old × (may (slots job.now.program.now job.now.limits.discipline) m process ≡ true) }
        ensures cache { IfOk result (λ _. IsCache job.now.program.now job.now.limits.discipline self.new) }
        ensures standing { IfOk result (λ _. IsStanding job.now.program.now self.new.store self.new.table standing.new) }
        ensures kept { KeepStore self.old.store self.new.store }
        ensures table { self.new.table ≡ self.old.table }
        ensures begins { IfOk result (λ turn. (m : Machine) → StandsFor job.now.program.now job.now.limits.discipline self.old.store self.old.table m row.old → may (slots job.now.program.now job.now.limits.discipline) m process ≡ true → Begins job.now.program.now job.now.limits.discipline self.new.store self.new.table m process turn row.new) }
    {
        match pending_monitor(&self.table, row) {
            Some(monitor) => self.enter(alloc, job, row, process, monitor, standing),
            None => Ok(Turn::Goes(process)),
        }
    }
}
