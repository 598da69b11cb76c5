//! Legs that are made on a state and watched.

ghost use Rattle.std.specs.Prelude.{◌≡◌, IfSome, false, true};
ghost use Rattle.cp_machine.specs.Fits.{IsStateOf};
ghost use Rattle.cp_machine.specs.Machine.{is_pending, is_ready, machine_of};
ghost use Rattle.cp_machine.specs.Step as spec;
ghost use Rattle.cp_run.specs.Silent.{without_output};
ghost use Rattle.cp_parts.specs.Placed.{IsPlaced, places_of};
ghost use Rattle.cp_effects.specs.Noting.{KeepNoted};
ghost use Rattle.cp_effects.specs.Watching.{IsLegWithin, IsStepWithin};

use crate::touch::touch_step;
use crate::touched::Touched;
use cp_machine::{Event, State, Uncounted, step};
use cp_parts::PlaceTable;
use cp_slots::Resolved;

/// The steps of a process up to and with the first that is not local.
#[derive(Clone, Copy)]
pub struct WatchedLeg {
    /// What the last step was.
    pub event: Event,
    /// How many steps there are.
    pub steps: u32,
}

/// Makes the steps of a process up to and with the first that is not local, and notes the places that they may touch. `None` where there are more
/// steps than so many, or there is no room for the table, or somebody is touched who is already started.
pub fn watch_leg(
    program: &Resolved,
    table: &PlaceTable,
    most: u32,
    state: &mut State,
    pid: u8,
    touched: &mut Touched,
) -> Option<WatchedLeg>
    requires own { IsStateOf program.now state.old }
    requires ready { is_ready (machine_of state.old) pid ≡ true }
    requires free { is_pending (machine_of state.old) ≡ false }
    requires placed { IsPlaced program.now table.now }
    ensures own { IsStateOf program.now state.new }
    ensures leg { IfSome result (λ leg. IsLegWithin (places_of table.now) program.now touched.new.places.items (machine_of state.old) pid leg (machine_of state.new)) }
    ensures kept { KeepNoted touched.old.places.items touched.new.places.items }
{
    for count in 0..most {
        let Some(event) = watch_step(program, table, state, pid, touched) else {
            return None;
        };
        if !is_local(event) {
            return Some(WatchedLeg {
                event,
                steps: count + 1,
            });
        }
        leave_output(program, state);
    }
    None
}

fn is_local(event: Event) -> bool
    ensures { result ≡ spec.is_local event }
{
    matches!(event, Event::Local)
}

// One step, where there is room to note what it may touch.
fn watch_step(
    program: &Resolved,
    table: &PlaceTable,
    state: &mut State,
    pid: u8,
    touched: &mut Touched,
) -> Option<Event>
    requires own { IsStateOf program.now state.old }
    requires ready { is_ready (machine_of state.old) pid ≡ true }
    requires free { is_pending (machine_of state.old) ≡ false }
    requires placed { IsPlaced program.now table.now }
    ensures own { IsStateOf program.now state.new }
    ensures step { IfSome result (λ event. IsStepWithin (places_of table.now) program.now touched.new.places.items (machine_of state.old) pid event (machine_of state.new)) }
    ensures kept { KeepNoted touched.old.places.items touched.new.places.items }
{
    if !touch_step(program, table, state, pid, touched) {
        return None;
    }
    Some(step(program, state, pid, &mut Uncounted))
}

// What a state has displayed is taken away.
fn leave_output(program: &Resolved, state: &mut State)
    requires own { IsStateOf program.now state.old }
    ensures own { IsStateOf program.now state.new }
    ensures state { machine_of state.new ≡ without_output (machine_of state.old) }
{
    let _ = program;
    state.output.clear();
}
