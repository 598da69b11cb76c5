//! Stretches and runs that are observed.

ghost use Rattle.std.specs.Prelude.{◌≡◌, ◌≤◌, ◌+◌, ◌*◌, false, true, IfOk};
ghost use Rattle.cp_machine.specs.System.{machine_of, is_ready, is_pending, opening, IsStateOf};
ghost use Rattle.cp_run.specs.Code.{IfGoes, answer_of, halt_at, node_of};
ghost use Rattle.cp_run.specs.Fold.{fold_chosen, fold_opened, fold_run, fold_stretch, fold_turn, walked, walked_chosen, walked_opened};
ghost use Rattle.cp_run.specs.Run.{chosen, may, node_at, opened, run, stretch, turn_after};
ghost use Rattle.cp_run.specs.Silent.{left_by, slots_by};
ghost use Rattle.cp_run.specs.Slots.{slots};
ghost use Rattle.cp_run.specs.Stop.{last_state};
ghost use Rattle.cp_run.specs.declared.outcome.Turn.TheVariants.{Goes};

use crate::choice::may;
use crate::job::Job;
use crate::observe::Observe;
use crate::outcome::{Halt, OutcomeKind, RunEnd, Turn};
use crate::runs::{end_of_word, is_over};
use crate::turn::{settled_turn, turn_at, turn_of};
use cp_machine::{Count, State, local_step, step};
use cp_slots::Resolved;
use std::alloc::{AllocError, Global};

/// Where a stretch halts that makes no more steps.
pub fn halt_at(turn: Turn) -> Halt<OutcomeKind>
    ensures { result ≡ halt_at turn }
{
    match turn {
        Turn::Over(kind) => Halt::Ended(kind),
        Turn::Due => Halt::Choice,
        Turn::Goes(_) => Halt::Ended(OutcomeKind::StepLimit),
    }
}

// What a state has displayed is taken away, where nothing is to be shown.
fn leave(program: &Resolved, state: &mut State, is_silent: bool)
    requires own { IsStateOf program.now state.old }
    ensures own { IsStateOf program.now state.new }
    ensures state { machine_of state.new ≡ left_by is_silent (machine_of state.old) }
{
    let _ = program;
    if is_silent {
        state.output.clear();
    }
}

/// An observer sees a step of a process come, and the step is taken if it is local and need not be seen. Tells whether it was taken.
#[inline(always)]
pub fn expect_step<S: Count, O: Observe>(
    job: &Job<'_>,
    state: &mut State,
    process: u8,
    steps: &mut S,
    observer: &mut O,
) -> Result<bool, O::Error>
    requires own { IsStateOf job.now.program.now state.old }
    requires ready { is_ready (machine_of state.old) process ≡ true }
    requires free { is_pending (machine_of state.old) ≡ false }
    ensures state { IfOk result (λ taken. taken ≡ true → machine_of state.new ≡ (slots_by O.IS_SILENT job.now.program.now job.now.limits.discipline).step (machine_of state.old) process) }
    ensures turn { IfOk result (λ taken. taken ≡ true → Goes process ≡ turn_after (slots_by O.IS_SILENT job.now.program.now job.now.limits.discipline) (machine_of state.new) process ((slots_by O.IS_SILENT job.now.program.now job.now.limits.discipline).event (machine_of state.old) process)) }
    ensures seen { IfOk result (λ taken. taken ≡ true → (x : O.Seen) → O.holds observer.old job.now.program.now job.now.limits.discipline (machine_of state.old) x → O.holds observer.new job.now.program.now job.now.limits.discipline (machine_of state.new) ((O.fold job.now.program.now job.now.limits.discipline).on_step (machine_of state.old) process ((slots_by O.IS_SILENT job.now.program.now job.now.limits.discipline).event (machine_of state.old) process) (machine_of state.new) x)) }
    ensures same { IfOk result (λ taken. taken ≡ false → machine_of state.new ≡ machine_of state.old) }
    ensures expects { IfOk result (λ taken. taken ≡ false → (x : O.Seen) → O.holds observer.old job.now.program.now job.now.limits.discipline (machine_of state.old) x → O.expects observer.new job.now.program.now job.now.limits.discipline (machine_of state.old) process x) }
    ensures own { IsStateOf job.now.program.now state.new }
    ensures ready { IfOk result (λ _. is_ready (machine_of state.new) process ≡ true) }
    ensures free { IfOk result (λ _. is_pending (machine_of state.new) ≡ false) }
    ensures steps { S.count steps.new ≤ S.count steps.old + 1 }
    ensures none { IfOk result (λ taken. taken ≡ false → S.count steps.new ≡ S.count steps.old) }
{
    observer.expect_step(job, state, process)?;
    if !O::sees_local() && local_step(job.program, state, process, steps) {
        leave(job.program, state, O::is_silent());
        return Ok(true);
    }
    Ok(false)
}

/// Takes the step that an observer expects. Answers what comes next.
#[inline(always)]
pub fn see_step<S: Count, O: Observe>(
    job: &Job<'_>,
    state: &mut State,
    process: u8,
    steps: &mut S,
    observer: &mut O,
) -> Result<Turn, O::Error>
    requires own { IsStateOf job.now.program.now state.old }
    requires ready { is_ready (machine_of state.old) process ≡ true }
    requires free { is_pending (machine_of state.old) ≡ false }
    ensures state { IfOk result (λ _. machine_of state.new ≡ (slots_by O.IS_SILENT job.now.program.now job.now.limits.discipline).step (machine_of state.old) process) }
    ensures turn { IfOk result (λ t. t ≡ turn_after (slots_by O.IS_SILENT job.now.program.now job.now.limits.discipline) (machine_of state.new) process ((slots_by O.IS_SILENT job.now.program.now job.now.limits.discipline).event (machine_of state.old) process)) }
    ensures seen { IfOk result (λ _. (x : O.Seen) → O.expects observer.old job.now.program.now job.now.limits.discipline (machine_of state.old) process x → O.holds observer.new job.now.program.now job.now.limits.discipline (machine_of state.new) ((O.fold job.now.program.now job.now.limits.discipline).on_step (machine_of state.old) process ((slots_by O.IS_SILENT job.now.program.now job.now.limits.discipline).event (machine_of state.old) process) (machine_of state.new) x)) }
    ensures own { IsStateOf job.now.program.now state.new }
    ensures ready { IfOk result (λ t. IfGoes t (λ q. is_ready (machine_of state.new) q ≡ true)) }
    ensures free { IfOk result (λ t. IfGoes t (λ q. is_pending (machine_of state.new) ≡ false)) }
    ensures steps { S.count steps.new ≤ S.count steps.old + 1 }
{
    let event = step(job.program, state, process, steps);
    observer.see_step(job, state, process, event)?;
    leave(job.program, state, O::is_silent());
    Ok(turn_of(job, state, process, event))
}

/// A stretch, if one comes next: at most as many steps as the limit. An observer is told of it. Answers what comes after them.
pub fn observe_stretch<S: Count, O: Observe>(
    job: &Job<'_>,
    state: &mut State,
    turn: Turn,
    steps: &mut S,
    observer: &mut O,
) -> Result<Turn, O::Error>
    requires own { IsStateOf job.now.program.now state.old }
    requires ready { IfGoes turn (λ q. is_ready (machine_of state.old) q ≡ true) }
    requires free { IfGoes turn (λ q. is_pending (machine_of state.old) ≡ false) }
    ensures walked { IfOk result (λ t. walked (slots_by O.IS_SILENT job.now.program.now job.now.limits.discipline) job.now.limits.steps (machine_of state.old) turn ≡ (machine_of state.new, t)) }
    ensures seen { IfOk result (λ _. (x : O.Seen) → O.holds observer.old job.now.program.now job.now.limits.discipline (machine_of state.old) x → O.holds observer.new job.now.program.now job.now.limits.discipline (machine_of state.new) (fold_turn (fold_stretch (slots_by O.IS_SILENT job.now.program.now job.now.limits.discipline) (O.fold job.now.program.now job.now.limits.discipline) job.now.limits.steps (machine_of state.old)) turn x)) }
    ensures own { IsStateOf job.now.program.now state.new }
    ensures ready { IfOk result (λ t. IfGoes t (λ q. is_ready (machine_of state.new) q ≡ true)) }
    ensures free { IfOk result (λ t. IfGoes t (λ q. is_pending (machine_of state.new) ≡ false)) }
    ensures steps { S.count steps.new ≤ S.count steps.old + job.now.limits.steps }
{
    let mut next = turn;
    for _ in 0..job.limits.steps {
        let Turn::Goes(process) = next else {
            break;
        };
        if expect_step(job, state, process, steps, observer)? {
            continue;
        }
        next = see_step(job, state, process, steps, observer)?;
    }
    Ok(next)
}

// What comes after a due choice was taken.
fn take_choice<O: Observe>(
    job: &Job<'_>,
    state: &mut State,
    process: u8,
    observer: &mut O,
) -> Result<Turn, O::Error>
    requires own { IsStateOf job.now.program.now state.old }
    requires may { may (slots job.now.program.now job.now.limits.discipline) (machine_of state.old) process ≡ true }
    ensures node { IfOk result (λ t. (silent : _) → chosen (slots_by silent job.now.program.now job.now.limits.discipline) job.now.limits.steps (machine_of state.old) process ≡ node_at (machine_of state.new) (stretch (slots_by silent job.now.program.now job.now.limits.discipline) job.now.limits.steps (machine_of state.new)) t) }
    ensures walked { IfOk result (λ t. (silent : _) → walked_chosen (slots_by silent job.now.program.now job.now.limits.discipline) job.now.limits.steps (machine_of state.old) process ≡ walked (slots_by silent job.now.program.now job.now.limits.discipline) job.now.limits.steps (machine_of state.new) t) }
    ensures seen { IfOk result (λ t. (silent : _) (x : O.Seen) → O.holds observer.old job.now.program.now job.now.limits.discipline (machine_of state.old) x → (y : O.Seen) × O.holds observer.new job.now.program.now job.now.limits.discipline (machine_of state.new) y × (fold_chosen (slots_by silent job.now.program.now job.now.limits.discipline) (O.fold job.now.program.now job.now.limits.discipline) job.now.limits.steps (machine_of state.old) process x ≡ fold_turn (fold_stretch (slots_by silent job.now.program.now job.now.limits.discipline) (O.fold job.now.program.now job.now.limits.discipline) job.now.limits.steps (machine_of state.new)) t y)) }
    ensures ready { IfOk result (λ t. IfGoes t (λ q. is_ready (machine_of state.new) q ≡ true)) }
    ensures free { IfOk result (λ t. IfGoes t (λ q. is_pending (machine_of state.new) ≡ false)) }
    ensures own { IsStateOf job.now.program.now state.new }
{
    if state.pending().is_none() {
        return Ok(Turn::Goes(process));
    }
    state.admit(process);
    observer.see_admission(job, state, process)?;
    Ok(settled_turn(job, state, true, process))
}

/// Takes a due choice, and makes the stretch after it. An observer is told of it. Answers what comes next; where that is a step, the stretch
/// made as many as the limits allow.
pub fn observe_choice<S: Count, O: Observe>(
    job: &Job<'_>,
    state: &mut State,
    process: u8,
    steps: &mut S,
    observer: &mut O,
) -> Result<Turn, O::Error>
    requires own { IsStateOf job.now.program.now state.old }
    requires may { may (slots job.now.program.now job.now.limits.discipline) (machine_of state.old) process ≡ true }
    ensures node { IfOk result (λ t. chosen (slots_by O.IS_SILENT job.now.program.now job.now.limits.discipline) job.now.limits.steps (machine_of state.old) process ≡ node_of (halt_at t) (machine_of state.new)) }
    ensures walked { IfOk result (λ t. walked_chosen (slots_by O.IS_SILENT job.now.program.now job.now.limits.discipline) job.now.limits.steps (machine_of state.old) process ≡ (machine_of state.new, t)) }
    ensures seen { IfOk result (λ _. (x : O.Seen) → O.holds observer.old job.now.program.now job.now.limits.discipline (machine_of state.old) x → O.holds observer.new job.now.program.now job.now.limits.discipline (machine_of state.new) (fold_chosen (slots_by O.IS_SILENT job.now.program.now job.now.limits.discipline) (O.fold job.now.program.now job.now.limits.discipline) job.now.limits.steps (machine_of state.old) process x)) }
    ensures own { IsStateOf job.now.program.now state.new }
    ensures ready { IfOk result (λ t. IfGoes t (λ q. is_ready (machine_of state.new) q ≡ true)) }
    ensures free { IfOk result (λ t. IfGoes t (λ q. is_pending (machine_of state.new) ≡ false)) }
    ensures steps { S.count steps.new ≤ S.count steps.old + job.now.limits.steps }
{
    let turn = take_choice(job, state, process, observer)?;
    observe_stretch(job, state, turn, steps, observer)
}

/// The same of the beginning of a run, in the opening state.
pub fn observe_opening<S: Count, O: Observe>(
    job: &Job<'_>,
    state: &mut State,
    steps: &mut S,
    observer: &mut O,
) -> Result<Turn, O::Error>
    requires own { IsStateOf job.now.program.now state.old }
    requires start { machine_of state.old ≡ opening job.now.program.now job.now.limits.discipline }
    ensures node { IfOk result (λ t. opened (slots_by O.IS_SILENT job.now.program.now job.now.limits.discipline) job.now.limits.steps ≡ node_of (halt_at t) (machine_of state.new)) }
    ensures walked { IfOk result (λ t. walked_opened (slots_by O.IS_SILENT job.now.program.now job.now.limits.discipline) job.now.limits.steps ≡ (machine_of state.new, t)) }
    ensures seen { IfOk result (λ _. (x : O.Seen) → O.holds observer.old job.now.program.now job.now.limits.discipline (machine_of state.old) x → O.holds observer.new job.now.program.now job.now.limits.discipline (machine_of state.new) (fold_opened (slots_by O.IS_SILENT job.now.program.now job.now.limits.discipline) (O.fold job.now.program.now job.now.limits.discipline) job.now.limits.steps x)) }
    ensures own { IsStateOf job.now.program.now state.new }
    ensures ready { IfOk result (λ t. IfGoes t (λ q. is_ready (machine_of state.new) q ≡ true)) }
    ensures free { IfOk result (λ t. IfGoes t (λ q. is_pending (machine_of state.new) ≡ false)) }
    ensures steps { S.count steps.new ≤ S.count steps.old + job.now.limits.steps }
{
    // A sound program has a process.
    let _processes = job.program.processes();
    let first = turn_at(job, state, false, 0);
    observe_stretch(job, state, first, steps, observer)
}

/// Runs a word from the opening state, in which `state` is; more choices than `choices` are not taken. An observer is told of it; where it fails, so does the run.
/// `ticks` counts the steps that succeed.
pub fn observe_run<S: Count, O: Observe<Error = AllocError>>(
    alloc: Global,
    job: &Job<'_>,
    choices: usize,
    word: &[u8],
    ticks: &mut S,
    state: &mut State,
    observer: &mut O,
) -> Result<RunEnd, AllocError>
    requires loud { O.IS_SILENT ≡ false }
    requires own { IsStateOf job.now.program.now state.old }
    requires start { machine_of state.old ≡ opening job.now.program.now job.now.limits.discipline }
    ensures answer { IfOk result (λ end. answer_of end ≡ run (slots job.now.program.now job.now.limits.discipline) choices job.now.limits.steps word.now) }
    ensures seen { IfOk result (λ _. (x : O.Seen) → O.holds observer.old job.now.program.now job.now.limits.discipline (machine_of state.old) x → O.holds observer.new job.now.program.now job.now.limits.discipline (machine_of state.new) (fold_run (slots job.now.program.now job.now.limits.discipline) (O.fold job.now.program.now job.now.limits.discipline) choices job.now.limits.steps word.now x)) }
    ensures stop { IfOk result (λ _. machine_of state.new ≡ last_state (slots job.now.program.now job.now.limits.discipline) choices job.now.limits.steps word.now) }
    ensures own { IsStateOf job.now.program.now state.new }
    ensures ticks { S.count ticks.new ≤ S.count ticks.old + (choices + 1) * job.now.limits.steps }
{
    let first = observe_opening(job, state, ticks, observer)?;
    let mut halt = halt_at(first);
    for (place, process) in word.iter().enumerate() {
        if is_over(choices, halt, place) {
            return end_of_word(alloc, job, choices, halt, state, place);
        }
        observer.see_choice(job, state, *process);
        if !may(job, state, *process) {
            return Ok(RunEnd::NotReady { place });
        }
        let next = observe_choice(job, state, *process, ticks, observer)?;
        halt = halt_at(next);
    }
    end_of_word(alloc, job, choices, halt, state, word.len())
}
