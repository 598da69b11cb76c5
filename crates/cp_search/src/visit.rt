//! The loop of a search, over whoever knows the states and what is met between them.

ghost use Rattle.std.specs.Prelude.{IfOk, []};
ghost use Rattle.cp_machine.specs.System.{machine_of, IsStateOf};
ghost use Rattle.cp_search.specs.Searched.{IsSearched, IsTaken};

use cp_machine::State;
use cp_progress::{ObserveProgress, Progress, STATES_BETWEEN};
use cp_run::{Job, candidates};
use std::alloc::{AllocError, Global};

/// What is searched: a program under limits, through so many states at most.
#[derive(Clone, Copy)]
pub struct SearchJob<'a> {
    pub alloc: Global,
    pub run: Job<'a>,
    pub most: u32,
}

/// States that were found, with numbers, and what is found of them.
pub trait Visit {
    ghost use Rattle.std.specs.Prelude.{◌≡◌, ◌<◌, ◌+◌, ◌∷◌, ◌++◌, ℕ, List, [], IfOk, true, false};
    ghost use Rattle.cp_machine.specs.System.{Machine, machine_of, IsStateOf};
    ghost use Rattle.cp_run.specs.Run.{may, those_below};
    ghost use Rattle.cp_run.specs.Slots.{processes_of, slots};
    ghost use Rattle.cp_search.specs.declared.visit.SearchJob.{SearchJob};

    /// The states before the one of this number were expanded.
    ghost before: { Self → SearchJob → ℕ → Type 0 };

    /// So was this one, in which the machine stands, with these numbers.
    ghost within: { Self → SearchJob → ℕ → Machine → List ℕ → Type 0 };

    /// Each state was expanded.
    ghost over: { Self → SearchJob → Type 0 };

    /// The states before the one of this number were expanded, and for this one there was no room.
    ghost stops: { Self → SearchJob → ℕ → Type 0 };

    /// How many states are found.
    fn len(&self) -> usize;

    /// What is to be told with words of so many choices.
    fn progress(&self, choices: u32) -> Progress;

    /// A state becomes the one of this number; `false` where there is none.
    fn thaw_at(&mut self, job: &SearchJob<'_>, number: u32, state: &mut State) -> bool
        requires own { IsStateOf job.now.run.program.now state.old }
        requires before { before self.old job.now number }
        ensures own { IsStateOf job.now.run.program.now state.new }
        ensures within { result ≡ true → within self.new job.now number (machine_of state.new) [] }
        ensures over { result ≡ false → over self.new job.now };

    /// Takes a choice in the state of this number, and notes what is met. `false` where there is no room for it. `next` is a copy of the state, and
    /// is one again afterwards, unless there was no room.
    fn take(
        &mut self,
        job: &SearchJob<'_>,
        at: u32,
        state: &State,
        next: &mut State,
        process: u8,
    ) -> Result<bool, AllocError>
        requires own { IsStateOf job.now.run.program.now state.now }
        requires next { IsStateOf job.now.run.program.now next.old }
        requires copied { machine_of next.old ≡ machine_of state.now }
        requires below { process < processes_of job.now.run.program.now }
        requires may { may (slots job.now.run.program.now job.now.run.limits.discipline) (machine_of state.now) process ≡ true }
        requires within { within self.old job.now at (machine_of state.now) (those_below process (may (slots job.now.run.program.now job.now.run.limits.discipline) (machine_of state.now))) }
        ensures next { IsStateOf job.now.run.program.now next.new }
        ensures copied { IfOk result (λ is_room. is_room ≡ true → machine_of next.new ≡ machine_of state.now) }
        ensures within { IfOk result (λ is_room. is_room ≡ true → within self.new job.now at (machine_of state.now) (those_below process (may (slots job.now.run.program.now job.now.run.limits.discipline) (machine_of state.now)) ++ process ∷ [])) }
        ensures stops { IfOk result (λ is_room. is_room ≡ false → stops self.new job.now at) };

    /// The state of this number was expanded with each number that may be chosen there.
    fn end_state(&mut self, job: &SearchJob<'_>, at: u32) -> Result<(), AllocError>
        requires { (m : Machine) × within self.old job.now at m (those_below (processes_of job.now.run.program.now) (may (slots job.now.run.program.now job.now.run.limits.discipline) m)) }
        ensures { IfOk result (λ _. before self.new job.now (at + 1)) };

    /// As many states as there may be are all.
    ghost fills: { (v : Self) (job : SearchJob) → before v job job.most → over v job };
}

/// Expands each state that is found, and those that are found then. Answers the one for which there was no room. An observer is
/// told how far this has come. `state` and `next` are room for two states.
pub fn visit_all<V: Visit, O: ObserveProgress>(
    job: &SearchJob<'_>,
    visit: &mut V,
    state: &mut State,
    next: &mut State,
    observer: &mut O,
) -> Result<Option<u32>, AllocError>
    requires own { IsStateOf job.now.run.program.now state.old }
    requires next { IsStateOf job.now.run.program.now next.old }
    requires begun { V.before visit.old job.now 0 }
    ensures own { IsStateOf job.now.run.program.now state.new }
    ensures next { IsStateOf job.now.run.program.now next.new }
    ensures searched { IfOk result (λ stopped. IsSearched (V.over visit.new job.now) (V.stops visit.new job.now) stopped) }
{
    let mut choices: u32 = 0;
    let mut layer_end = visit.len();
    for number in 0..job.most {
        if number as usize == layer_end {
            choices = choices.saturating_add(1);
            layer_end = visit.len();
        }
        if number % STATES_BETWEEN == 0 {
            observer.observe_progress(visit.progress(choices));
        }
        if !visit.thaw_at(job, number, state) {
            return Ok(None);
        }
        if !take_choices(job, visit, number, state, next)? {
            return Ok(Some(number));
        }
    }
    Ok(None)
}

/// Expands the state of this number with each number that may be chosen there. `false` where there is no room for that.
pub fn take_choices<V: Visit>(
    job: &SearchJob<'_>,
    visit: &mut V,
    at: u32,
    state: &State,
    next: &mut State,
) -> Result<bool, AllocError>
    requires own { IsStateOf job.now.run.program.now state.now }
    requires next { IsStateOf job.now.run.program.now next.old }
    requires within { V.within visit.old job.now at (machine_of state.now) [] }
    ensures next { IsStateOf job.now.run.program.now next.new }
    ensures taken { IfOk result (λ is_room. IsTaken (V.before visit.new job.now) (V.stops visit.new job.now) at is_room) }
{
    let numbers = candidates(&job.run, state);
    next.take_from(state);
    for process in numbers.as_slice() {
        if !visit.take(job, at, state, next, *process)? {
            return Ok(false);
        }
    }
    visit.end_state(job, at)?;
    Ok(true)
}
