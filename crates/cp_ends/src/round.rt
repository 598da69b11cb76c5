//! Stretches that are cut: whether they repeat.

ghost use Rattle.std.specs.Prelude.{◌≡◌, ◌<◌, [], ℕ, suc, IfOk, None, Some, true, false};
ghost use Rattle.cp_key.specs.Key.{key_of};
ghost use Rattle.cp_machine.specs.System.{Machine, machine_of, output_of, is_ready, is_pending, IsStateOf};
ghost use Rattle.cp_run.specs.Code.{IfGoes};
ghost use Rattle.cp_run.specs.Fold.{fold_stretch};
ghost use Rattle.cp_run.specs.Run.{turn_after};
ghost use Rattle.cp_run.specs.Silent.{silent_slots};
ghost use Rattle.cp_run.specs.Slots.{slots};
ghost use Rattle.cp_endless_laws.specs.Rounds.{spot_after};
ghost use Rattle.cp_ends.specs.Arrivals.{cut_arrival, return_within};
ghost use Rattle.cp_ends.specs.Graph as graph;
ghost use Rattle.cp_ends.specs.Holds.{same_key};
ghost use Rattle.cp_ends.specs.Legs.{SeesRound};

use crate::end::End;
use crate::sight::Sight;
use crate::told::Told;
use cp_key::StateKey;
use cp_machine::{State, Uncounted};
use cp_run::{Job, Observe, OutcomeKind, Turn, expect_step, see_step};
use std::alloc::{AllocError, Global};

/// How a stretch ends of which all steps are made, where this process would make the next one: if the state comes back within as many
/// steps, before a choice is due or the run ends, it goes on for ever. What is displayed and seen of it is told if it does.
pub fn end_of_cut<P: Sight>(
    alloc: Global,
    job: &Job<'_>,
    state: &mut State,
    pid: u8,
    told: &mut Told<P>,
) -> Result<End, AllocError>
    requires own { IsStateOf job.now.program.now state.old }
    requires ready { is_ready (machine_of state.old) pid ≡ true }
    requires free { is_pending (machine_of state.old) ≡ false }
    requires quiet { output_of (machine_of state.old) ≡ [] }
    ensures own { IsStateOf job.now.program.now state.new }
    ensures quiet { IfOk result (λ _. output_of (machine_of state.new) ≡ []) }
    ensures cut { IfOk result (λ e. cut_arrival (slots job.now.program.now job.now.limits.discipline) (silent_slots job.now.program.now job.now.limits.discipline) told.old.values.items (machine_of state.old) pid (return_within (silent_slots job.now.program.now job.now.limits.discipline) same_key (machine_of state.old) pid job.now.limits.steps) ≡ record { goal = graph.End e; shown = told.new.values.items }) }
    ensures seen { IfOk result (λ _. SeesRound (λ w. P.sees w job.now.program.now job.now.limits.discipline) job.now.program.now job.now.limits.discipline job.now.limits.steps (machine_of state.old) pid told.old.seen told.new.seen told.new.again) }
{
    let count = told.values.len();
    let before = told.seen;
    told.is_called = false;
    told.seen = P::begin(job.program);
    if !observe_round(alloc, job, state, pid, told)? {
        told.values.truncate(count);
        told.seen = before;
        told.again = None;
        return Ok(End::Over(OutcomeKind::StepLimit));
    }
    let again = told.seen;
    told.seen = before;
    told.seen.then(&again);
    told.again = Some(again);
    if told.is_called {
        return Ok(End::Alone(pid));
    }
    Ok(End::Spins(pid))
}

/// Goes on with a process until the state is what it was at first and this process would go on again, or a choice is due or the run is over,
/// or as many steps are made as the limits allow. An observer is told of it. Tells whether it came back.
pub fn observe_round<O: Observe<Error = AllocError>>(
    alloc: Global,
    job: &Job<'_>,
    state: &mut State,
    pid: u8,
    observer: &mut O,
) -> Result<bool, AllocError>
    requires silent { O.IS_SILENT ≡ true }
    requires own { IsStateOf job.now.program.now state.old }
    requires ready { is_ready (machine_of state.old) pid ≡ true }
    requires free { is_pending (machine_of state.old) ≡ false }
    requires quiet { output_of (machine_of state.old) ≡ [] }
    ensures own { IsStateOf job.now.program.now state.new }
    ensures quiet { IfOk result (λ _. output_of (machine_of state.new) ≡ []) }
    ensures round { IfOk result (λ is_round. is_round ≡ true → (k : ℕ) × (k < job.now.limits.steps) × (return_within (silent_slots job.now.program.now job.now.limits.discipline) same_key (machine_of state.old) pid job.now.limits.steps ≡ Some k) × (spot_after (silent_slots job.now.program.now job.now.limits.discipline) (suc k) (machine_of state.old) pid ≡ Some (machine_of state.new, pid)) × (same_key (machine_of state.new) (machine_of state.old) ≡ true) × ((x : O.Seen) → O.holds observer.old job.now.program.now job.now.limits.discipline (machine_of state.old) x → O.holds observer.new job.now.program.now job.now.limits.discipline (machine_of state.new) (fold_stretch (silent_slots job.now.program.now job.now.limits.discipline) (O.fold job.now.program.now job.now.limits.discipline) (suc k) (machine_of state.old) pid x))) }
    ensures none { IfOk result (λ is_round. is_round ≡ false → return_within (silent_slots job.now.program.now job.now.limits.discipline) same_key (machine_of state.old) pid job.now.limits.steps ≡ None) }
    ensures seen { IfOk result (λ _. (n : ℕ) × ((x : O.Seen) → O.holds observer.old job.now.program.now job.now.limits.discipline (machine_of state.old) x → O.holds observer.new job.now.program.now job.now.limits.discipline (machine_of state.new) (fold_stretch (silent_slots job.now.program.now job.now.limits.discipline) (O.fold job.now.program.now job.now.limits.discipline) n (machine_of state.old) pid x))) }
{
    let mut first = StateKey {
        bytes: Vec::new(alloc),
    };
    first.take_from(state)?;
    let mut key = StateKey {
        bytes: Vec::new(alloc),
    };
    let mut going = pid;
    for _ in 0..job.limits.steps {
        let turn = take_step(job, state, going, observer)?;
        let Turn::Goes(next) = turn else {
            return Ok(false);
        };
        going = next;
        if going == pid && is_at(state, &first, &mut key)? {
            return Ok(true);
        }
    }
    Ok(false)
}

// A step of which nothing stays displayed. Answers what comes next.
#[inline(always)]
fn take_step<O: Observe>(
    job: &Job<'_>,
    state: &mut State,
    pid: u8,
    observer: &mut O,
) -> Result<Turn, O::Error>
    requires silent { O.IS_SILENT ≡ true }
    requires own { IsStateOf job.now.program.now state.old }
    requires ready { is_ready (machine_of state.old) pid ≡ true }
    requires free { is_pending (machine_of state.old) ≡ false }
    ensures own { IsStateOf job.now.program.now state.new }
    ensures ready { IfOk result (λ t. IfGoes t (λ q. is_ready (machine_of state.new) q ≡ true)) }
    ensures free { IfOk result (λ t. IfGoes t (λ q. is_pending (machine_of state.new) ≡ false)) }
    ensures state { IfOk result (λ _. machine_of state.new ≡ (silent_slots job.now.program.now job.now.limits.discipline).step (machine_of state.old) pid) }
    ensures turn { IfOk result (λ t. t ≡ turn_after (silent_slots job.now.program.now job.now.limits.discipline) (machine_of state.new) pid ((silent_slots job.now.program.now job.now.limits.discipline).event (machine_of state.old) pid)) }
    ensures seen { IfOk result (λ _. (x : O.Seen) → O.holds observer.old job.now.program.now job.now.limits.discipline (machine_of state.old) x → O.holds observer.new job.now.program.now job.now.limits.discipline (machine_of state.new) ((O.fold job.now.program.now job.now.limits.discipline).on_step (machine_of state.old) pid ((silent_slots job.now.program.now job.now.limits.discipline).event (machine_of state.old) pid) (machine_of state.new) x)) }
{
    if expect_step(job, state, pid, &mut Uncounted, observer)? {
        return Ok(Turn::Goes(pid));
    }
    see_step(job, state, pid, &mut Uncounted, observer)
}

// Whether this is the state of a key. There is room for another one.
fn is_at(state: &State, first: &StateKey, key: &mut StateKey) -> Result<bool, AllocError>
    ensures { IfOk result (λ b. (m : Machine) → first.now.bytes.items ≡ key_of m → b ≡ same_key (machine_of state.now) m) }
{
    key.take_from(state)?;
    Ok(*key == *first)
}
