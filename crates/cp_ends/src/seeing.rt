//! Choices by the legs that are known, of which each is seen.

ghost use Rattle.std.specs.Prelude.{◌≡◌, ◌∷◌, ◌++◌, ℕ, List, [], None, true, IfOk, IfSome};
ghost use Rattle.cp_slots.specs.Tables.{Tables};
ghost use Rattle.cp_machine.specs.System.{Machine};
ghost use Rattle.cp_machine.specs.declared.discipline.Discipline.{Discipline};
ghost use Rattle.cp_run.specs.Run.{may};
ghost use Rattle.cp_run.specs.Slots.{slots};
ghost use Rattle.cp_run.specs.declared.outcome.Turn.TheVariants.{Goes};
ghost use Rattle.cp_parts.specs.Parts.{KeepStore};
ghost use Rattle.cp_stretches.specs.Cached.{IsCache, IsStanding, StandsFor};
ghost use Rattle.cp_stretches.specs.Numbers.{CanRead};
ghost use Rattle.cp_stretches.specs.Stretching.{GoesOn, LeadsTo, StandsAt, turn_of};
ghost use Rattle.cp_endless_laws.specs.Moments.{Moment, moments, moments_by, stretch_moments};
ghost use Rattle.cp_endless_laws.specs.Silent.{silent_slots};
ghost use Rattle.cp_ends.specs.Legs.{moment_at};

use crate::look::RowLook;
use crate::sight::Sight;
use crate::told::Told;
use cp_run::{Halt, Job, OutcomeKind, Turn};
use cp_stretches::numbers::is_free;
use cp_stretches::stretch::halt_of;
use cp_stretches::{LegCache, Standing};
use std::alloc::{AllocError, Global};

impl<P: Sight> Told<P> {
    /// The due choice in a state, and the moment before a step of a process there, by a look at it.
    #[inline(always)]
    pub fn see_step(&mut self, look: P, process: u8)
        ensures values { self.new.values ≡ self.old.values }
        ensures again { self.new.again ≡ None }
        ensures sees { (r : Tables) (discipline : Discipline) (m : Machine) → P.looks look r m → P.sees self.new.seen r discipline (m ∷ []) (record { state = m; mover = process } ∷ []) }
    {
        self.again = None;
        self.seen = look.due();
        self.seen.then(&look.moved(process));
    }

    // The moment before the next step, if one is made in the state of a row.
    #[inline(always)]
    fn see_next(&mut self, cache: &LegCache, row: &[u32], turn: Turn)
        requires { (r : Tables) × (m : Machine) × CanRead r cache.now.store cache.now.table cache.now.numbers m row.now }
        ensures values { self.new.values ≡ self.old.values }
        ensures again { self.new.again ≡ self.old.again }
        ensures sees { (r : Tables) (discipline : Discipline) (due : List Machine) (ms : List (Moment Machine)) (m : Machine) → CanRead r cache.now.store cache.now.table cache.now.numbers m row.now → P.sees self.old.seen r discipline due ms → P.sees self.new.seen r discipline due (ms ++ moment_at m turn) }
    {
        let Turn::Goes(pid) = turn else {
            return;
        };
        let look = P::look(&RowLook { cache, row });
        self.seen.then(&look.moved(pid));
    }

    // The due choice in a state, by a look at it, and the moment before the first step. Where no monitor is pending, it is made there.
    #[inline(always)]
    fn see_choice(
        &mut self,
        cache: &LegCache,
        row: &[u32],
        look: P,
        is_free: bool,
        process: u8,
        turn: Turn,
    )
        requires { (r : Tables) × (m : Machine) × CanRead r cache.now.store cache.now.table cache.now.numbers m row.now }
        ensures values { self.new.values ≡ self.old.values }
        ensures again { self.new.again ≡ None }
        ensures sees { (r : Tables) (discipline : Discipline) (m n : Machine) → P.looks look r m → CanRead r cache.now.store cache.now.table cache.now.numbers n row.now → (is_free ≡ true → (n ≡ m) × (turn ≡ Goes process)) → P.sees self.new.seen r discipline (m ∷ []) (moment_at n turn) }
    {
        if is_free {
            self.see_step(look, process);
        } else {
            self.again = None;
            self.seen = look.due();
            self.see_next(cache, row, turn);
        }
    }
}

// Makes a stretch before which this comes next, whose first moment was seen. Answers where it halts; `None` where that isn't known.
#[inline(always)]
fn follow_legs<P: Sight>(
    alloc: Global,
    job: &Job<'_>,
    cache: &mut LegCache,
    row: &mut [u32],
    first: Turn,
    standing: &mut Standing,
    told: &mut Told<P>,
) -> Result<Option<Halt<OutcomeKind>>, AllocError>
    requires cache { IsCache job.now.program.now job.now.limits.discipline cache.old }
    requires standing { IsStanding job.now.program.now cache.old.store cache.old.table standing.old }
    requires row { (m : Machine) × StandsAt job.now.program.now job.now.limits.discipline cache.old.store cache.old.table m first row.old }
    ensures cache { IfOk result (λ _. IsCache job.now.program.now job.now.limits.discipline cache.new) }
    ensures standing { IfOk result (λ _. IsStanding job.now.program.now cache.new.store cache.new.table standing.new) }
    ensures kept { KeepStore cache.old.store cache.new.store }
    ensures table { cache.new.table ≡ cache.old.table }
    ensures again { told.new.again ≡ told.old.again }
    ensures goes { IfOk result (λ halts. IfSome halts (λ halt. (m : Machine) → StandsAt job.now.program.now job.now.limits.discipline cache.old.store cache.old.table m first row.old → (rest : ℕ) × GoesOn job.now.program.now job.now.limits.discipline cache.new.store cache.new.table m first job.now.limits.steps told.old.values.items (turn_of halt) rest row.new told.new.values.items)) }
    ensures sees { IfOk result (λ halts. IfSome halts (λ _. (m : Machine) (due : List Machine) → StandsAt job.now.program.now job.now.limits.discipline cache.old.store cache.old.table m first row.old → P.sees told.old.seen job.now.program.now job.now.limits.discipline due (moment_at m first) → P.sees told.new.seen job.now.program.now job.now.limits.discipline due (moments_by (stretch_moments (silent_slots job.now.program.now job.now.limits.discipline) job.now.limits.steps m) first))) }
{
    let mut turn = first;
    let mut left = job.limits.steps;
    for _ in 0..job.limits.steps {
        let Turn::Goes(pid) = turn else {
            break;
        };
        let Some(next) = cache.advance(alloc, job, row, pid, &mut left, standing, &mut told.values)?
        else {
            return Ok(None);
        };
        told.see_next(cache, row, next);
        turn = next;
    }
    Ok(halt_of(turn))
}

/// Takes a due choice in the state of a row, and makes the stretch after it by the legs that are known. The choice is seen by a look at the state, and each
/// leg. Answers where the stretch halts, whose row it is then; `None` where it has to be made step by step, and nothing is promised of the row then.
#[inline(always)]
pub fn choose_by_legs<P: Sight>(
    alloc: Global,
    job: &Job<'_>,
    cache: &mut LegCache,
    row: &mut [u32],
    look: P,
    process: u8,
    standing: &mut Standing,
    told: &mut Told<P>,
) -> Result<Option<Halt<OutcomeKind>>, AllocError>
    requires cache { IsCache job.now.program.now job.now.limits.discipline cache.old }
    requires standing { IsStanding job.now.program.now cache.old.store cache.old.table standing.old }
    requires row { (m : Machine) × StandsFor job.now.program.now job.now.limits.discipline cache.old.store cache.old.table m row.old × (may (slots job.now.program.now job.now.limits.discipline) m process ≡ true) }
    ensures cache { IfOk result (λ _. IsCache job.now.program.now job.now.limits.discipline cache.new) }
    ensures standing { IfOk result (λ _. IsStanding job.now.program.now cache.new.store cache.new.table standing.new) }
    ensures kept { KeepStore cache.old.store cache.new.store }
    ensures table { cache.new.table ≡ cache.old.table }
    ensures again { IfOk result (λ _. told.new.again ≡ None) }
    ensures leads { IfOk result (λ halts. IfSome halts (λ halt. (m : Machine) → StandsFor job.now.program.now job.now.limits.discipline cache.old.store cache.old.table m row.old → may (slots job.now.program.now job.now.limits.discipline) m process ≡ true → LeadsTo job.now.program.now job.now.limits.discipline cache.new.store cache.new.table job.now.limits.steps m process told.old.values.items halt row.new told.new.values.items)) }
    ensures sees { IfOk result (λ halts. IfSome halts (λ _. (m : Machine) → StandsFor job.now.program.now job.now.limits.discipline cache.old.store cache.old.table m row.old → may (slots job.now.program.now job.now.limits.discipline) m process ≡ true → P.looks look job.now.program.now m → P.sees told.new.seen job.now.program.now job.now.limits.discipline (m ∷ []) (moments (silent_slots job.now.program.now job.now.limits.discipline) job.now.limits.steps m process))) }
{
    let free = is_free(&cache.table, row);
    let turn = cache.begin(alloc, job, row, process, standing)?;
    told.see_choice(cache, row, look, free, process, turn);
    let halts = follow_legs(alloc, job, cache, row, turn, standing, told)?;
    Ok(halts)
}
