//! The loop of a search by rows, over whoever knows the states and what is met between them.

ghost use Rattle.std.specs.Prelude.{IfOk, []};
ghost use Rattle.cp_machine.specs.System.{Machine};
ghost use Rattle.cp_search.specs.Searched.{IsSearched, IsTaken};

use crate::row::StateRow;
use arrayvec::ArrayVec;
use cp_progress::{ObserveProgress, Progress, STATES_BETWEEN};
use cp_search::SearchJob;
use std::alloc::AllocError;

/// States that were found by their rows, with numbers, and what is found of them.
pub trait RowVisit<P> {
    ghost use Rattle.std.specs.Prelude.{◌≡◌, ◌<◌, ◌+◌, ◌∷◌, ◌++◌, ℕ, List, [], IfNone, IfOk, IfSome, true, false};
    ghost use Rattle.cp_machine.specs.System.{Machine};
    ghost use Rattle.cp_run.specs.Run.{may, those_below};
    ghost use Rattle.cp_run.specs.Slots.{processes_of, slots};
    ghost use Rattle.cp_search.specs.declared.visit.SearchJob.{SearchJob};
    ghost use Rattle.cp_ends.specs.declared.row.StateRow.{StateRow};

    /// The states before the one of this number were expanded.
    ghost before: { Self → SearchJob → ℕ → Type 0 };

    /// So was this one, which is the machine and is known by its row, with these numbers.
    ghost within: { Self → SearchJob → StateRow P → ℕ → Machine → List ℕ → Type 0 };

    /// Each state was expanded.
    ghost over: { Self → SearchJob → Type 0 };

    /// The states before the one of this number were expanded, and for this one there was no room.
    ghost stops: { Self → SearchJob → ℕ → Type 0 };

    /// How many states are found.
    fn len(&self) -> usize;

    /// What is to be told with words of so many choices.
    fn progress(&self, choices: u32) -> Progress;

    /// The state of this number, if there is one.
    fn state_at(&self, job: &SearchJob<'_>, number: u32) -> Option<StateRow<P>>
        requires { before self.now job.now number }
        ensures found { IfSome result (λ from. (m : Machine) × within self.now job.now from number m []) }
        ensures none { IfNone result (over self.now job.now) };

    /// The processes that may be chosen there, in rising order.
    fn candidates(&self, job: &SearchJob<'_>, at: u32, from: &StateRow<P>) -> ArrayVec<u8, 16>
        requires { (m : Machine) × within self.now job.now from.now at m [] }
        ensures { (m : Machine) → within self.now job.now from.now at m [] → result.items ≡ those_below (processes_of job.now.run.program.now) (may (slots job.now.run.program.now job.now.run.limits.discipline) m) };

    /// Takes a choice in the state of this number and row, and notes what is met. `false` where there is no room for it.
    fn take(
        &mut self,
        job: &SearchJob<'_>,
        at: u32,
        from: &StateRow<P>,
        process: u8,
    ) -> Result<bool, AllocError>
        requires below { process < processes_of job.now.run.program.now }
        requires within { (m : Machine) × within self.old job.now from.now at m (those_below process (may (slots job.now.run.program.now job.now.run.limits.discipline) m)) × (may (slots job.now.run.program.now job.now.run.limits.discipline) m process ≡ true) }
        ensures within { IfOk result (λ is_room. is_room ≡ true → (m : Machine) → within self.old job.now from.now at m (those_below process (may (slots job.now.run.program.now job.now.run.limits.discipline) m)) → may (slots job.now.run.program.now job.now.run.limits.discipline) m process ≡ true → within self.new job.now from.now at m (those_below process (may (slots job.now.run.program.now job.now.run.limits.discipline) m) ++ process ∷ [])) }
        ensures stops { IfOk result (λ is_room. is_room ≡ false → stops self.new job.now at) };

    /// The state of this number was expanded with each number that may be chosen there.
    fn end_state(&mut self, job: &SearchJob<'_>, at: u32) -> Result<(), AllocError>
        requires { (from : StateRow P) × (m : Machine) × within self.old job.now from at m (those_below (processes_of job.now.run.program.now) (may (slots job.now.run.program.now job.now.run.limits.discipline) m)) }
        ensures { IfOk result (λ _. before self.new job.now (at + 1)) };

    /// As many states as there may be are all.
    ghost fills: { (v : Self) (job : SearchJob) → before v job job.most → over v job };
}

/// Expands each state that is found, and those that are found then. Answers the one for which there was no room. An observer is
/// told how far this has come.
pub fn visit_rows<P: Drop, V: RowVisit<P>, O: ObserveProgress>(
    job: &SearchJob<'_>,
    visit: &mut V,
    observer: &mut O,
) -> Result<Option<u32>, AllocError>
    requires begun { V.before visit.old job.now 0 }
    ensures { IfOk result (λ stopped. IsSearched (V.over visit.new job.now) (V.stops visit.new job.now) stopped) }
{
    let mut choices: u32 = 0;
    let mut layer_end = visit.len();
    for number in 0..job.most {
        if number as usize == layer_end {
            choices = choices.saturating_add(1);
            layer_end = visit.len();
        }
        if number % STATES_BETWEEN == 0 {
            observer.observe_progress(visit.progress(choices));
        }
        let Some(from) = visit.state_at(job, number) else {
            return Ok(None);
        };
        if !take_choices(job, visit, number, &from)? {
            return Ok(Some(number));
        }
    }
    Ok(None)
}

// Expands the state of this number and row with each number that may be chosen there. `false` where there is no room for that.
#[inline(always)]
fn take_choices<P: Drop, V: RowVisit<P>>(
    job: &SearchJob<'_>,
    visit: &mut V,
    at: u32,
    from: &StateRow<P>,
) -> Result<bool, AllocError>
    requires { (m : Machine) × V.within visit.old job.now from.now at m [] }
    ensures { IfOk result (λ is_room. IsTaken (V.before visit.new job.now) (V.stops visit.new job.now) at is_room) }
{
    let candidates = visit.candidates(job, at, from);
    for process in candidates.as_slice() {
        if !visit.take(job, at, from, *process)? {
            return Ok(false);
        }
    }
    visit.end_state(job, at)?;
    Ok(true)
}
