//! From one due choice to the next, with nothing displayed.

ghost use Rattle.std.specs.Prelude.{◌≡◌, ◌++◌, ◌∷◌, [], List, IfOk, true, false};
ghost use Rattle.cp_machine.specs.System.{Machine, machine_of, opening, output_of, is_ready, is_pending, IsStateOf};
ghost use Rattle.cp_run.specs.Code.{IfGoes};
ghost use Rattle.cp_run.specs.Fold.{walked};
ghost use Rattle.cp_run.specs.Run.{may};
ghost use Rattle.cp_run.specs.Silent.{silent_slots, without_output};
ghost use Rattle.cp_run.specs.Slots.{slots};
ghost use Rattle.cp_run.specs.declared.outcome.Halt.TheVariants as halt;
ghost use Rattle.cp_ends.specs.Arrivals.{goal_at, first_arrival, halt_arrival, next_arrival};
ghost use Rattle.cp_ends.specs.Holds.{same_key};
ghost use Rattle.cp_ends.specs.Legs.{ComesTo, choice_leg, first_leg, turn_leg, with_round};

use crate::end::End;
use crate::round::end_of_cut;
use crate::sight::Sight;
use crate::told::Told;
use cp_machine::{State, Uncounted};
use cp_run::{Halt, Job, Turn, observe_choice, observe_opening};
use std::alloc::{AllocError, Global};

// Where a stretch came to that made as many steps as it may, by what comes next.
fn arrive<P: Sight>(
    alloc: Global,
    job: &Job<'_>,
    state: &mut State,
    turn: Turn,
    told: &mut Told<P>,
) -> Result<Halt<End>, AllocError>
    requires own { IsStateOf job.now.program.now state.old }
    requires ready { IfGoes turn (λ q. is_ready (machine_of state.old) q ≡ true) }
    requires free { IfGoes turn (λ q. is_pending (machine_of state.old) ≡ false) }
    requires quiet { output_of (machine_of state.old) ≡ [] }
    ensures own { IsStateOf job.now.program.now state.new }
    ensures quiet { IfOk result (λ _. output_of (machine_of state.new) ≡ []) }
    ensures comes { IfOk result (λ h. halt_arrival (slots job.now.program.now job.now.limits.discipline) (silent_slots job.now.program.now job.now.limits.discipline) same_key job.now.limits.steps told.old.values.items (machine_of state.old) turn ≡ record { goal = goal_at h (machine_of state.new); shown = told.new.values.items }) }
    ensures leg { IfOk result (λ h. (s : Machine) (first : Turn) (due : List Machine) → walked (silent_slots job.now.program.now job.now.limits.discipline) job.now.limits.steps s first ≡ (machine_of state.old, turn) → P.sees told.old.seen job.now.program.now job.now.limits.discipline due ((turn_leg (silent_slots job.now.program.now job.now.limits.discipline) job.now.limits.steps s first).moments job.now.limits.steps) → ComesTo (silent_slots job.now.program.now job.now.limits.discipline) (λ w. P.sees w job.now.program.now job.now.limits.discipline) job.now.limits.steps (turn_leg (silent_slots job.now.program.now job.now.limits.discipline) job.now.limits.steps s first) due told.new.seen (with_round told.new.again h) (machine_of state.new)) }
    ensures still { IfOk result (λ h. h ≡ halt.Choice → machine_of state.new ≡ machine_of state.old) }
{
    told.again = None;
    match turn {
        Turn::Over(kind) => Ok(Halt::Ended(End::Over(kind))),
        Turn::Due => Ok(Halt::Choice),
        Turn::Goes(pid) => {
            let end = end_of_cut(alloc, job, state, pid, told)?;
            Ok(Halt::Ended(end))
        }
    }
}

/// Takes a due choice: lets the process in at the pending monitor, or goes on with it. The choice is seen, and each moment of the stretch, and
/// who moves is noted.
pub fn choose<P: Sight>(
    alloc: Global,
    job: &Job<'_>,
    state: &mut State,
    process: u8,
    told: &mut Told<P>,
) -> Result<Halt<End>, AllocError>
    requires own { IsStateOf job.now.program.now state.old }
    requires may { may (slots job.now.program.now job.now.limits.discipline) (machine_of state.old) process ≡ true }
    requires quiet { output_of (machine_of state.old) ≡ [] }
    ensures own { IsStateOf job.now.program.now state.new }
    ensures quiet { IfOk result (λ _. output_of (machine_of state.new) ≡ []) }
    ensures goal { IfOk result (λ h. goal_at h (machine_of state.new) ≡ (next_arrival (slots job.now.program.now job.now.limits.discipline) without_output same_key job.now.limits.steps (machine_of state.old) process).goal) }
    ensures shown { IfOk result (λ _. told.new.values.items ≡ told.old.values.items ++ (next_arrival (slots job.now.program.now job.now.limits.discipline) without_output same_key job.now.limits.steps (machine_of state.old) process).shown) }
    ensures leg { IfOk result (λ h. ComesTo (silent_slots job.now.program.now job.now.limits.discipline) (λ w. P.sees w job.now.program.now job.now.limits.discipline) job.now.limits.steps (choice_leg (silent_slots job.now.program.now job.now.limits.discipline) job.now.limits.steps (machine_of state.old) process) (machine_of state.old ∷ []) told.new.seen (with_round told.new.again h) (machine_of state.new)) }
    ensures ruled { IfOk result (λ h. h ≡ halt.Choice → (machine_of state.new).discipline ≡ (machine_of state.old).discipline) }
{
    told.seen = P::look(state).due();
    let turn = observe_choice(job, state, process, &mut Uncounted, told)?;
    arrive(alloc, job, state, turn, told)
}

/// Begins a run in the opening state. Each moment before the first choice is seen.
pub fn open<P: Sight>(
    alloc: Global,
    job: &Job<'_>,
    state: &mut State,
    told: &mut Told<P>,
) -> Result<Halt<End>, AllocError>
    requires own { IsStateOf job.now.program.now state.old }
    requires start { machine_of state.old ≡ opening job.now.program.now job.now.limits.discipline }
    ensures own { IsStateOf job.now.program.now state.new }
    ensures quiet { IfOk result (λ _. output_of (machine_of state.new) ≡ []) }
    ensures ruled { IfOk result (λ h. h ≡ halt.Choice → (machine_of state.new).discipline ≡ job.now.limits.discipline) }
    ensures goal { IfOk result (λ h. goal_at h (machine_of state.new) ≡ (first_arrival (slots job.now.program.now job.now.limits.discipline) without_output same_key job.now.limits.steps).goal) }
    ensures shown { IfOk result (λ _. told.new.values.items ≡ told.old.values.items ++ (first_arrival (slots job.now.program.now job.now.limits.discipline) without_output same_key job.now.limits.steps).shown) }
    ensures leg { IfOk result (λ h. ComesTo (silent_slots job.now.program.now job.now.limits.discipline) (λ w. P.sees w job.now.program.now job.now.limits.discipline) job.now.limits.steps (first_leg (silent_slots job.now.program.now job.now.limits.discipline) job.now.limits.steps) [] told.new.seen (with_round told.new.again h) (machine_of state.new)) }
{
    told.seen = P::begin(job.program);
    let turn = observe_opening(job, state, &mut Uncounted, told)?;
    arrive(alloc, job, state, turn, told)
}
