//! What a leg did, by the numbers of rows.

ghost use Rattle.std.specs.Prelude.{◌≡◌, ◌<◌, ◌≤◌, [], ℕ, false, length, true, IfOk, IfSome, option_to_list};
ghost use Rattle.cp_machine.specs.Fits.{IsStateOf};
ghost use Rattle.cp_machine.specs.Machine.{Machine, is_pending, is_ready, machine_of};
ghost use Rattle.cp_states.specs.Numbers.{number_at};
ghost use Rattle.cp_effect_laws.specs.Parts.{AreSettled, status_at};
ghost use Rattle.cp_parts.specs.Parts.{IsPartRow, IsStatusNumber, KeepStore};
ghost use Rattle.cp_parts.specs.Placed.{IsPlaced, places_of};
ghost use Rattle.cp_effects.specs.Changes.{numbers_at};
ghost use Rattle.cp_effects.specs.Noting.{among};
ghost use Rattle.cp_effects.specs.Remembered.{GoesAs, IsRemembered};
ghost use Rattle.cp_effects.specs.Watching.{came_to};

use crate::changes::{Write, changes_of};
use crate::leg::{WatchedLeg, watch_leg};
use crate::renewing::renew_row;
use crate::settled::are_settled;
use crate::touched::Touched;
use cp_machine::{Shown, State};
use cp_parts::{PartStore, PlaceTable};
use cp_slots::Resolved;
use std::alloc::{AllocError, Global};

/// What a leg did.
#[derive(Drop)]
pub struct Effect {
    pub leg: WatchedLeg,
    /// What its last step displayed.
    pub shown: Option<Shown>,
    /// What it changed of the row.
    pub writes: Vec<Write>,
}

/// Makes a leg of a process of a state that has a row, and notes the places that it touches. `None` where the leg can't be remembered.
pub fn make_effect(
    alloc: Global,
    program: &Resolved,
    table: &PlaceTable,
    store: &mut PartStore,
    most: u32,
    row: &[u32],
    state: &mut State,
    pid: u8,
    touched: &mut Touched,
) -> Result<Option<Effect>, AllocError>
    requires own { IsStateOf program.now state.old }
    requires placed { IsPlaced program.now table.now }
    requires ready { is_ready (machine_of state.old) pid ≡ true }
    requires free { is_pending (machine_of state.old) ≡ false }
    requires quiet { state.old.output.items ≡ [] }
    requires row { IsPartRow store.old table.now (machine_of state.old) row.now }
    ensures own { IsStateOf program.now state.new }
    ensures effect { IfOk result (λ made. IfSome made (λ e. IsRemembered store.new table.now program.now state.old.discipline pid touched.new.places.items (numbers_at table.now touched.new.places.items row.now) e.leg (option_to_list e.shown) e.writes.items)) }
    ensures goes { IfOk result (λ made. IfSome made (λ e. GoesAs store.new table.now program.now (machine_of state.old) row.now pid e.leg (option_to_list e.shown) e.writes.items (came_to e.leg (machine_of state.new)))) }
    ensures kept { KeepStore store.old store.new }
{
    if !touched.add(pid as usize) {
        return Ok(None);
    }
    let Some(leg) = watch_leg(program, table, most, state, pid, touched) else {
        return Ok(None);
    };
    if !touched.are_below(table.places()) {
        return Ok(None);
    }
    let after = renew_row(alloc, table, store, touched, row, state)?;
    if !may_remember(table, touched, row, &after, state, pid) {
        return Ok(None);
    }
    let Some(writes) = changes_of(alloc, table, touched, row, &after)? else {
        return Ok(None);
    };
    Ok(Some(Effect {
        leg,
        shown: shown_of(state),
        writes,
    }))
}

// Whether a leg left what can be remembered: statuses that a leg may leave, and at most one value.
fn may_remember(
    table: &PlaceTable,
    touched: &Touched,
    before: &[u32],
    after: &[u32],
    state: &State,
    pid: u8,
) -> bool
    ensures settled { result ≡ true → length state.now.processes.items ≡ table.now.processes → (s : PartStore) (m : Machine) → length m.threads ≡ table.now.processes → IsPartRow s table.now m before.now → ((q : ℕ) → q < table.now.processes → IsStatusNumber s (status_at (machine_of state.now) q) (number_at after.now q)) → AreSettled (places_of table.now) (among touched.now.places.items) pid m (machine_of state.now) }
    ensures shows { result ≡ true → length state.now.output.items ≤ 1 }
{
    if state.output().len() > 1 {
        return false;
    }
    are_settled(table, touched, before, after, state, pid)
}

// What a state displays, which is one value or none.
fn shown_of(state: &State) -> Option<Shown>
    requires { length state.now.output.items ≤ 1 }
    ensures { option_to_list result ≡ state.now.output.items }
{
    state.output().first().copied()
}
