//! Stretches that show nothing.

ghost use Rattle.std.specs.Prelude.{◌≡◌, true};
ghost use Rattle.cp_machine.specs.System.{machine_of, opening, IsStateOf};
ghost use Rattle.cp_run.specs.Code.{node_of};
ghost use Rattle.cp_run.specs.Run.{chosen, may, opened};
ghost use Rattle.cp_run.specs.Silent.{silent_slots};
ghost use Rattle.cp_run.specs.Slots.{slots};

use cp_machine::{Event, State, Uncounted};
use cp_run::{Halt, Job, Observe, OutcomeKind, halt_at, observe_choice, observe_opening};
use std::convert::Infallible;

/// Sees nothing, and has what is displayed taken away.
#[derive(Drop)]
pub struct Quiet {}

impl Observe for Quiet {
    ghost use Rattle.std.specs.Prelude.{true, false};
    ghost use Rattle.cp_machine.specs.System.{Machine};
    ghost use Rattle.cp_run.specs.Fold.{blind};

    type Error = Infallible;

    ghost Seen = { Machine };

    ghost IS_SILENT = { true };

    ghost SEES_LOCAL = { false };

    #[inline(always)]
    fn is_silent() -> bool {
        true
    }

    #[inline(always)]
    fn sees_local() -> bool {
        false
    }

    ghost holds = { λ quiet r discipline now seen. Unit {0} };

    ghost fold = { λ r discipline. blind };

    ghost expects = { λ quiet r discipline now process seen. Unit {0} };

    #[inline(always)]
    fn expect_step(
        &mut self,
        _job: &Job<'_>,
        _state: &State,
        _process: u8,
    ) -> Result<(), Infallible> {
        Ok(())
    }

    #[inline(always)]
    fn see_step(
        &mut self,
        _job: &Job<'_>,
        _state: &State,
        _process: u8,
        _event: Event,
    ) -> Result<(), Infallible> {
        Ok(())
    }

    fn see_admission(
        &mut self,
        _job: &Job<'_>,
        _state: &State,
        _process: u8,
    ) -> Result<(), Infallible> {
        Ok(())
    }

    fn see_choice(&mut self, _job: &Job<'_>, _state: &State, _number: u8) {}

    ghost passes = { λ unseen quiet r discipline before after process seen step h. tt };
}

/// Takes a due choice.
pub fn choose(job: &Job<'_>, state: &mut State, process: u8) -> Halt<OutcomeKind>
    requires own { IsStateOf job.now.program.now state.old }
    requires may { may (slots job.now.program.now job.now.limits.discipline) (machine_of state.old) process ≡ true }
    ensures node { chosen (silent_slots job.now.program.now job.now.limits.discipline) job.now.limits.steps (machine_of state.old) process ≡ node_of result (machine_of state.new) }
    ensures own { IsStateOf job.now.program.now state.new }
{
    match observe_choice(job, state, process, &mut Uncounted, &mut Quiet {}) {
        Ok(turn) => halt_at(turn),
        Err(never) => match never {},
    }
}

/// Begins a run in the opening state.
pub fn open(job: &Job<'_>, state: &mut State) -> Halt<OutcomeKind>
    requires own { IsStateOf job.now.program.now state.old }
    requires start { machine_of state.old ≡ opening job.now.program.now job.now.limits.discipline }
    ensures node { opened (silent_slots job.now.program.now job.now.limits.discipline) job.now.limits.steps ≡ node_of result (machine_of state.new) }
    ensures own { IsStateOf job.now.program.now state.new }
{
    match observe_opening(job, state, &mut Uncounted, &mut Quiet {}) {
        Ok(turn) => halt_at(turn),
        Err(never) => match never {},
    }
}
