//! Stretches, leg by leg.

ghost use Rattle.std.specs.Prelude.{◌≡◌, ◌++◌, ◌<◌, ◌≤◌, ℕ, All, false, length, option_to_list, true, IfOk, IfSome};
ghost use Rattle.cp_slots.specs.Tables.{Tables};
ghost use Rattle.cp_machine.specs.declared.discipline.Discipline.{Discipline};
ghost use Rattle.cp_machine.specs.Machine.{Machine};
ghost use Rattle.cp_machine.specs.Step.{is_local};
ghost use Rattle.cp_run.specs.Run as run;
ghost use Rattle.cp_run.specs.Run.{may};
ghost use Rattle.cp_run.specs.Slots.{slots};
ghost use Rattle.cp_parts.specs.declared.store.PartStore.{PartStore};
ghost use Rattle.cp_parts.specs.Parts.{KeepStore};
ghost use Rattle.cp_effects.specs.declared.table.KnownLeg.{KnownLeg};
ghost use Rattle.cp_effects.specs.Changes.{written};
ghost use Rattle.cp_effects.specs.Known.{writes_of};
ghost use Rattle.cp_stretches.specs.Cached.{IsCache, IsStanding, StandsFor};
ghost use Rattle.cp_stretches.specs.Numbers.{CanRead};
ghost use Rattle.cp_stretches.specs.Stretching.{GoesOn, LeadsTo, MakesLeg, MayGo, StandsAt, turn_of};
ghost use Rattle.cp_stretches.specs.Telling.{IsSought, IsTold};

use crate::cache::{LegCache, Standing};
use crate::legs::{LegKey, Looked};
use cp_effects::{KnownLeg, make_effect, write_row};
use cp_machine::Shown;
use cp_run::{Halt, Job, OutcomeKind, Turn};
use std::alloc::{AllocError, Global};

/// Where a stretch halts before which this comes next; `None` where a process goes on.
pub fn halt_of(turn: Turn) -> Option<Halt<OutcomeKind>>
    ensures { IfSome result (λ halt. turn ≡ turn_of halt) }
{
    match turn {
        Turn::Over(kind) => Some(Halt::Ended(kind)),
        Turn::Due => Some(Halt::Choice),
        Turn::Goes(_) => None,
    }
}

/// A value more was displayed, or none.
#[inline(always)]
pub fn add_shown(shown: &mut Vec<Shown>, value: Option<Shown>) -> Result<(), AllocError>
    ensures { IfOk result (λ _. shown.new.items ≡ shown.old.items ++ option_to_list value) }
{
    match value {
        Some(one) => {
            shown.push(one)?;
            Ok(())
        }
        None => Ok(()),
    }
}

impl LegCache {
    // A leg of a process is made in the state of a row, and remembered if it can be. It was looked for by this key.
    #[inline(never)]
    fn learn(
        &mut self,
        alloc: Global,
        job: &Job<'_>,
        row: &[u32],
        pid: u8,
        sought: Option<LegKey>,
        standing: &mut Standing,
    ) -> Result<Option<KnownLeg>, AllocError>
        requires cache { IsCache job.now.program.now job.now.limits.discipline self.old }
        requires standing { IsStanding job.now.program.now self.old.store self.old.table standing.old }
        requires row { (m : Machine) × MayGo job.now.program.now job.now.limits.discipline self.old.store self.old.table m row.now pid }
        requires sought { IfSome sought (λ k. IsSought self.old.legs.effects self.old.table row.now pid k) }
        ensures told { IfOk result (λ known. IfSome known (λ e. IsTold self.new.store self.new.table job.now.program.now job.now.limits.discipline self.new.legs.effects row.now pid e)) }
        ensures cache { IfOk result (λ _. IsCache job.now.program.now job.now.limits.discipline self.new) }
        ensures standing { IfOk result (λ _. IsStanding job.now.program.now self.new.store self.new.table standing.new) }
        ensures kept { KeepStore self.old.store self.new.store }
        ensures table { self.new.table ≡ self.old.table }
    {
        self.stand(job, row, standing);
        let mut touched = self.legs.touched_from(&self.table, row, pid);
        let made = make_effect(
            alloc,
            job.program,
            &self.table,
            &mut self.store,
            job.limits.steps,
            row,
            &mut standing.state,
            pid,
            &mut touched,
        )?;
        self.follow(alloc, job, &made, standing)?;
        let known = self
            .legs
            .note(alloc, &self.table, row, pid, sought, &touched, made)?;
        Ok(known)
    }

    // What is known of the leg of a process in the state of a row. It is made where nothing is known; `None` where it can't be remembered.
    #[inline(always)]
    fn leg(
        &mut self,
        alloc: Global,
        job: &Job<'_>,
        row: &[u32],
        pid: u8,
        standing: &mut Standing,
    ) -> Result<Option<KnownLeg>, AllocError>
        requires cache { IsCache job.now.program.now job.now.limits.discipline self.old }
        requires standing { IsStanding job.now.program.now self.old.store self.old.table standing.old }
        requires row { (m : Machine) × MayGo job.now.program.now job.now.limits.discipline self.old.store self.old.table m row.now pid }
        ensures told { IfOk result (λ known. IfSome known (λ e. IsTold self.new.store self.new.table job.now.program.now job.now.limits.discipline self.new.legs.effects row.now pid e)) }
        ensures cache { IfOk result (λ _. IsCache job.now.program.now job.now.limits.discipline self.new) }
        ensures standing { IfOk result (λ _. IsStanding job.now.program.now self.new.store self.new.table standing.new) }
        ensures kept { KeepStore self.old.store self.new.store }
        ensures table { self.new.table ≡ self.old.table }
    {
        let looked = self.legs.look(alloc, &self.table, row, pid)?;
        match looked {
            Looked::Leg(leg) => Ok(Some(leg)),
            Looked::TooMuch => Ok(None),
            Looked::Nothing(sought) => self.learn(alloc, job, row, pid, sought, standing),
        }
    }

    // The row after a leg that is known, with what the leg displays. Answers what comes next.
    #[inline(always)]
    fn pass(
        &self,
        row: &mut [u32],
        pid: u8,
        known: &KnownLeg,
        shown: &mut Vec<Shown>,
    ) -> Result<Turn, AllocError>
        requires long { self.now.table.processes < length row.old }
        requires rising { known.now.from ≤ known.now.to }
        requires within { known.now.to ≤ length self.now.legs.effects.writes.items }
        requires inside { All (λ w. w.position < length row.old) (writes_of self.now.legs.effects.writes.items known.now) }
        ensures row { row.new ≡ written (writes_of self.now.legs.effects.writes.items known.now) row.old }
        ensures shown { IfOk result (λ _. shown.new.items ≡ shown.old.items ++ option_to_list known.now.shown) }
        ensures turn { IfOk result (λ turn. (r : Tables) (s : PartStore) (m : Machine) (discipline : Discipline) → CanRead r s self.now.table self.now.numbers m row.new → is_local known.now.leg.event ≡ false → turn ≡ run.turn_after (slots r discipline) m pid known.now.leg.event) }
    {
        write_row(row, &self.legs.effects.writes[known.from..known.to]);
        add_shown(shown, known.shown)?;
        Ok(
            self.numbers
                .turn_after(&self.table, row, pid, known.leg.event),
        )
    }

    /// A leg of a process more, of at most as many steps as are left. Answers what comes next; `None` where that isn't known.
    #[inline(always)]
    pub fn advance(
        &mut self,
        alloc: Global,
        job: &Job<'_>,
        row: &mut [u32],
        pid: u8,
        left: &mut u32,
        standing: &mut Standing,
        shown: &mut Vec<Shown>,
    ) -> Result<Option<Turn>, AllocError>
        requires cache { IsCache job.now.program.now job.now.limits.discipline self.old }
        requires standing { IsStanding job.now.program.now self.old.store self.old.table standing.old }
        requires row { (m : Machine) × MayGo job.now.program.now job.now.limits.discipline self.old.store self.old.table m row.old pid }
        ensures cache { IfOk result (λ _. IsCache job.now.program.now job.now.limits.discipline self.new) }
        ensures standing { IfOk result (λ _. IsStanding job.now.program.now self.new.store self.new.table standing.new) }
        ensures kept { KeepStore self.old.store self.new.store }
        ensures table { self.new.table ≡ self.old.table }
        ensures makes { IfOk result (λ next. IfSome next (λ turn. (m : Machine) → MayGo job.now.program.now job.now.limits.discipline self.old.store self.old.table m row.old pid → MakesLeg job.now.program.now job.now.limits.discipline self.new.store self.new.table m pid left.old shown.old.items turn left.new row.new shown.new.items)) }
    {
        let Some(known) = self.leg(alloc, job, row, pid, standing)? else {
            return Ok(None);
        };
        if known.leg.steps > *left {
            return Ok(None);
        }
        *left -= known.leg.steps;
        let turn = self.pass(row, pid, &known, shown)?;
        Ok(Some(turn))
    }

    // Makes a stretch before which this comes next. Answers where it halts; `None` where that isn't known.
    #[inline(always)]
    fn go(
        &mut self,
        alloc: Global,
        job: &Job<'_>,
        row: &mut [u32],
        first: Turn,
        standing: &mut Standing,
        shown: &mut Vec<Shown>,
    ) -> Result<Option<Halt<OutcomeKind>>, AllocError>
        requires cache { IsCache job.now.program.now job.now.limits.discipline self.old }
        requires standing { IsStanding job.now.program.now self.old.store self.old.table standing.old }
        requires row { (m : Machine) × StandsAt job.now.program.now job.now.limits.discipline self.old.store self.old.table m first row.old }
        ensures cache { IfOk result (λ _. IsCache job.now.program.now job.now.limits.discipline self.new) }
        ensures standing { IfOk result (λ _. IsStanding job.now.program.now self.new.store self.new.table standing.new) }
        ensures kept { KeepStore self.old.store self.new.store }
        ensures table { self.new.table ≡ self.old.table }
        ensures goes { IfOk result (λ halts. IfSome halts (λ halt. (m : Machine) → StandsAt job.now.program.now job.now.limits.discipline self.old.store self.old.table m first row.old → (rest : ℕ) × GoesOn job.now.program.now job.now.limits.discipline self.new.store self.new.table m first job.now.limits.steps shown.old.items (turn_of halt) rest row.new shown.new.items)) }
    {
        let mut turn = first;
        let mut left = job.limits.steps;
        for _ in 0..job.limits.steps {
            let Turn::Goes(pid) = turn else {
                break;
            };
            let Some(next) = self.advance(alloc, job, row, pid, &mut left, standing, shown)? else {
                return Ok(None);
            };
            turn = next;
        }
        Ok(halt_of(turn))
    }

    /// Takes a due choice in the state of a row, and makes the stretch after it by the legs that are known. Answers where it halts, whose row it is then, and
    /// what was displayed is added; `None` where it has to be made step by step, and nothing is promised of the row then. A leg that isn't known is made in the
    /// standing state, and remembered.
    #[inline(always)]
    pub fn choose(
        &mut self,
        alloc: Global,
        job: &Job<'_>,
        row: &mut [u32],
        process: u8,
        standing: &mut Standing,
        shown: &mut Vec<Shown>,
    ) -> Result<Option<Halt<OutcomeKind>>, AllocError>
        requires cache { IsCache job.now.program.now job.now.limits.discipline self.old }
        requires standing { IsStanding job.now.program.now self.old.store self.old.table standing.old }
        requires row { (m : Machine) × StandsFor job.now.program.now job.now.limits.discipline self.old.store self.old.table m row.old × (may (slots job.now.program.now job.now.limits.discipline) m process ≡ true) }
        ensures cache { IfOk result (λ _. IsCache job.now.program.now job.now.limits.discipline self.new) }
        ensures standing { IfOk result (λ _. IsStanding job.now.program.now self.new.store self.new.table standing.new) }
        ensures kept { KeepStore self.old.store self.new.store }
        ensures table { self.new.table ≡ self.old.table }
        ensures leads { IfOk result (λ halts. IfSome halts (λ halt. (m : Machine) → StandsFor job.now.program.now job.now.limits.discipline self.old.store self.old.table m row.old → may (slots job.now.program.now job.now.limits.discipline) m process ≡ true → LeadsTo job.now.program.now job.now.limits.discipline self.new.store self.new.table job.now.limits.steps m process shown.old.items halt row.new shown.new.items)) }
    {
        let turn = self.begin(alloc, job, row, process, standing)?;
        let halts = self.go(alloc, job, row, turn, standing, shown)?;
        Ok(halts)
    }
}
