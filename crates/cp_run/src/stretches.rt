//! A stretch: one process goes on until a choice is due or the run ends.

ghost use Rattle.std.specs.Prelude.{◌≡◌, ◌≤◌, ◌+◌, false, true, if◌then◌else◌};
ghost use Rattle.cp_machine.specs.System.{machine_of, is_pending, is_ready, IsStateOf};
ghost use Rattle.cp_run.specs.Run.{stretch};
ghost use Rattle.cp_run.specs.Slots.{slots};
ghost use Rattle.cp_run.specs.Code.{node_of};

use crate::job::Job;
use crate::moves::Moves;
use crate::observing::{halt_at, observe_stretch};
use crate::outcome::{Halt, OutcomeKind, Turn};
use cp_machine::{Count, State, Unwatched};

/// Goes on with a process until a choice of either kind is due, or the run ends for a cause other than the number of choices. `steps` counts
/// the steps that succeed, and `calls` this call.
pub fn stretch<S: Count, C: Count>(
    job: &Job<'_>,
    state: &mut State,
    process: u8,
    steps: &mut S,
    calls: &mut C,
) -> Halt<OutcomeKind>
    requires own { IsStateOf job.now.program.now state.old }
    requires ready { is_ready (machine_of state.old) process ≡ true }
    requires free { is_pending (machine_of state.old) ≡ false }
    ensures node { stretch (slots job.now.program.now job.now.limits.discipline) job.now.limits.steps (machine_of state.old) process ≡ node_of result (machine_of state.new) }
    ensures own { IsStateOf job.now.program.now state.new }
    ensures steps { S.count steps.new ≤ S.count steps.old + job.now.limits.steps }
    ensures calls { C.count calls.new ≡ (if C.counts then C.count calls.old + 1 else C.count calls.old) }
{
    calls.tick();
    let mut moves = Moves { watch: Unwatched };
    match observe_stretch(job, state, Turn::Goes(process), steps, &mut moves) {
        Ok(turn) => halt_at(turn),
        Err(never) => match never {},
    }
}
