//! The row of a state after a leg, of which only what the leg may have changed is found anew.

ghost use Rattle.std.specs.Prelude.{◌≡◌, ◌+◌, ◌<◌, ◌≤◌, ℕ, length, true, IfOk};
ghost use Rattle.cp_slots.specs.Tables.{Tables};
ghost use Rattle.cp_machine.specs.Fits.{MachineFits};
ghost use Rattle.cp_machine.specs.Machine.{machine_of};
ghost use Rattle.cp_parts.specs.Parts.{KeepStore};
ghost use Rattle.cp_parts.specs.Placed.{IsPlaced, place_count};
ghost use Rattle.cp_effects.specs.Noting.{among};
ghost use Rattle.cp_effects.specs.Renewing.{HasNewParts, HasNewStatuses, IsRenewed};

use crate::touched::Touched;
use cp_machine::State;
use cp_parts::coding::option_number;
use cp_parts::{PartStore, PlaceTable};
use std::alloc::{AllocError, Global};

// A row has the numbers of the statuses of a state.
fn renew_statuses(
    alloc: Global,
    store: &mut PartStore,
    state: &State,
    row: &mut [u32],
) -> Result<(), AllocError>
    requires { length (machine_of state.now).threads ≤ length row.old }
    ensures statuses { IfOk result (λ _. HasNewStatuses store.new (machine_of state.now) row.old row.new (length (machine_of state.now).threads)) }
    ensures kept { KeepStore store.old store.new }
{
    for at in 0..state.processes.len() {
        let number = store.number_status(alloc, state.processes[at].status)?;
        row[at] = number;
    }
    Ok(())
}

// A row has the numbers of the parts of a state in these places.
fn renew_parts(
    alloc: Global,
    table: &PlaceTable,
    store: &mut PartStore,
    places: &[usize],
    state: &State,
    row: &mut [u32],
) -> Result<(), AllocError>
    requires placed { (r : Tables) × IsPlaced r table.now × MachineFits r (machine_of state.now) }
    requires inside { (place : ℕ) → among places.now place ≡ true → place < place_count table.now }
    requires long { length row.old ≡ table.now.processes + 1 + place_count table.now }
    ensures parts { IfOk result (λ _. HasNewParts store.new table.now (machine_of state.now) places.now row.old row.new) }
    ensures kept { KeepStore store.old store.new }
{
    for at in 0..places.len() {
        let place = places[at];
        let number = store.number_part(alloc, table, state, place)?;
        row[table.part_position(place)] = number;
    }
    Ok(())
}

// A row becomes the one of a state, where the parts of other places than these are the state's.
fn renew_numbers(
    alloc: Global,
    table: &PlaceTable,
    store: &mut PartStore,
    touched: &Touched,
    state: &State,
    row: &mut [u32],
) -> Result<(), AllocError>
    requires placed { (r : Tables) × IsPlaced r table.now × MachineFits r (machine_of state.now) }
    requires inside { (place : ℕ) → among touched.now.places.items place ≡ true → place < place_count table.now }
    requires long { length row.old ≡ table.now.processes + 1 + place_count table.now }
    ensures row { IfOk result (λ _. IsRenewed store.new table.now (machine_of state.now) touched.now.places.items row.old row.new) }
    ensures kept { KeepStore store.old store.new }
{
    renew_statuses(alloc, store, state, row)?;
    row[table.pending_position()] = option_number(state.pending);
    renew_parts(alloc, table, store, touched.places.as_slice(), state, row)
}

/// The row after a leg that led to a state and touched no other places than these, where the row before it is known.
pub fn renew_row(
    alloc: Global,
    table: &PlaceTable,
    store: &mut PartStore,
    touched: &Touched,
    before: &[u32],
    state: &State,
) -> Result<Vec<u32>, AllocError>
    requires placed { (r : Tables) × IsPlaced r table.now × MachineFits r (machine_of state.now) }
    requires inside { (place : ℕ) → among touched.now.places.items place ≡ true → place < place_count table.now }
    requires long { length before.now ≡ table.now.processes + 1 + place_count table.now }
    ensures row { IfOk result (λ after. IsRenewed store.new table.now (machine_of state.now) touched.now.places.items before.now after.items) }
    ensures kept { KeepStore store.old store.new }
{
    let mut after = Vec::with_capacity(alloc, before.len())?;
    after.extend_from_slice(before)?;
    renew_numbers(alloc, table, store, touched, state, &mut after)?;
    Ok(after)
}
