//! Choices: what a due choice may take, and where it leads to.

ghost use Rattle.std.specs.Prelude.{◌≡◌, ◌≤◌, ◌+◌, true, if◌then◌else◌};
ghost use Rattle.cp_machine.specs.Bodies.{KeepBodies};
ghost use Rattle.cp_machine.specs.System.{Machine, machine_of, opening, IsStateOf};
ghost use Rattle.cp_run.specs.Run.{those_below, may, chosen, opened};
ghost use Rattle.cp_run.specs.Slots.{slots, processes_of};
ghost use Rattle.cp_run.specs.Code.{node_of};

use crate::job::Job;
use crate::moves::Moves;
use crate::observing::{halt_at, observe_choice, observe_opening};
use crate::outcome::{Halt, OutcomeKind};
use arrayvec::ArrayVec;
use cp_machine::{Count, State, Unwatched, Watch};

/// The numbers that a due choice may take, in rising order: the line of the pending monitor, or the ready processes.
pub fn candidates(job: &Job<'_>, state: &State) -> ArrayVec<u8, 16>
    requires own { IsStateOf job.now.program.now state.now }
    ensures { result.items ≡ those_below (processes_of job.now.program.now) (may (slots job.now.program.now job.now.limits.discipline) (machine_of state.now)) }
{
    match state.pending() {
        Some(monitor) => state.waiting(monitor),
        None => state.ready(),
    }
}

/// Whether a due choice may take this process.
pub fn may(job: &Job<'_>, state: &State, process: u8) -> bool
    requires own { IsStateOf job.now.program.now state.now }
    ensures { result ≡ may (slots job.now.program.now job.now.limits.discipline) (machine_of state.now) process }
{
    candidates(job, state).contains(&process)
}

/// Takes a due choice: lets the process in at the pending monitor, or goes on with it. `watch` is told of the processes that move.
pub fn choose<S: Count, C: Count, W: Watch + Copy>(
    job: &Job<'_>,
    state: &mut State,
    process: u8,
    watch: &mut W,
    steps: &mut S,
    calls: &mut C,
) -> Halt<OutcomeKind>
    requires own { IsStateOf job.now.program.now state.old }
    requires may { may (slots job.now.program.now job.now.limits.discipline) (machine_of state.old) process ≡ true }
    ensures node { chosen (slots job.now.program.now job.now.limits.discipline) job.now.limits.steps (machine_of state.old) process ≡ node_of result (machine_of state.new) }
    ensures own { IsStateOf job.now.program.now state.new }
    ensures steps { S.count steps.new ≤ S.count steps.old + job.now.limits.steps }
    ensures calls { C.count calls.new ≡ (if C.counts then C.count calls.old + 1 else C.count calls.old) }
    ensures kept { (before : Machine) → KeepBodies (W.moved watch.old) before (machine_of state.old) → KeepBodies (W.moved watch.new) before (machine_of state.new) }
{
    let mut moves = Moves { watch: *watch };
    match observe_choice(job, state, process, steps, &mut moves) {
        Ok(turn) => {
            *watch = moves.watch;
            calls.tick();
            halt_at(turn)
        }
        Err(never) => match never {},
    }
}

/// Begins a run in the opening state.
pub fn open<S: Count, C: Count>(
    job: &Job<'_>,
    state: &mut State,
    steps: &mut S,
    calls: &mut C,
) -> Halt<OutcomeKind>
    requires own { IsStateOf job.now.program.now state.old }
    requires start { machine_of state.old ≡ opening job.now.program.now job.now.limits.discipline }
    ensures node { opened (slots job.now.program.now job.now.limits.discipline) job.now.limits.steps ≡ node_of result (machine_of state.new) }
    ensures own { IsStateOf job.now.program.now state.new }
    ensures steps { S.count steps.new ≤ S.count steps.old + job.now.limits.steps }
    ensures calls { C.count calls.new ≡ (if C.counts then C.count calls.old + 1 else C.count calls.old) }
{
    calls.tick();
    let mut moves = Moves { watch: Unwatched };
    match observe_opening(job, state, steps, &mut moves) {
        Ok(turn) => halt_at(turn),
        Err(never) => match never {},
    }
}
