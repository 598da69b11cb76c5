//! Whether a leg left the statuses that it may leave.

ghost use Rattle.std.specs.Prelude.{◌≡◌, ◌<◌, ◌⊎◌, ℕ, length, true};
ghost use Rattle.cp_machine.specs.Machine.{Machine, machine_of};
ghost use Rattle.cp_states.specs.Numbers.{number_at};
ghost use Rattle.cp_effect_laws.specs.Parts.{AreSettled, IsSettled, status_at};
ghost use Rattle.cp_parts.specs.declared.store.PartStore.{PartStore};
ghost use Rattle.cp_parts.specs.Parts.{IsPartRow, IsStatusNumber};
ghost use Rattle.cp_parts.specs.Placed.{places_of};
ghost use Rattle.cp_effects.specs.Noting.{among};

use crate::changes::number_in;
use crate::reading::status_of;
use crate::touched::Touched;
use cp_machine::{State, Status};
use cp_parts::PlaceTable;

/// Whether each process has the status that it had, or one that a leg of this process may leave that touched these places. Of the row before
/// the leg all is known, and of the one after it the numbers of the statuses.
pub fn are_settled(
    table: &PlaceTable,
    touched: &Touched,
    before: &[u32],
    after: &[u32],
    state: &State,
    pid: u8,
) -> bool
    ensures { result ≡ true → length state.now.processes.items ≡ table.now.processes → (s : PartStore) (m : Machine) → length m.threads ≡ table.now.processes → IsPartRow s table.now m before.now → ((q : ℕ) → q < table.now.processes → IsStatusNumber s (status_at (machine_of state.now) q) (number_at after.now q)) → AreSettled (places_of table.now) (among touched.now.places.items) pid m (machine_of state.now) }
{
    for number in 0..state.processes.len() {
        if !may_stay(table, touched, before, after, state, pid, number) {
            return false;
        }
    }
    true
}

// Whether a process has the status that it had, or one that a leg of process `pid` may leave.
fn may_stay(
    table: &PlaceTable,
    touched: &Touched,
    before: &[u32],
    after: &[u32],
    state: &State,
    pid: u8,
    number: usize,
) -> bool
    requires { number < length state.now.processes.items }
    ensures { result ≡ true → (s : PartStore) (m : Machine) → IsStatusNumber s (status_at m number) (number_at before.now number) → IsStatusNumber s (status_at (machine_of state.now) number) (number_at after.now number) → (status_at (machine_of state.now) number ≡ status_at m number) ⊎ IsSettled (places_of table.now) (among touched.now.places.items) pid number (status_at (machine_of state.now) number) }
{
    let had = number_in(before, number);
    let has = number_in(after, number);
    if has == had {
        return true;
    }
    let status = status_of(state, number);
    is_settled(table, touched, pid, number, status)
}

// Whether a process may have this status after a leg of process `pid`, where it had another one before.
fn is_settled(table: &PlaceTable, touched: &Touched, pid: u8, number: usize, status: Status) -> bool
    ensures { result ≡ true → IsSettled (places_of table.now) (among touched.now.places.items) pid number status }
{
    match status {
        Status::Ready => true,
        Status::AtGate(monitor) => touched.has(table.of_monitor(monitor)),
        Status::Delayed(cell) => touched.has(table.of_cell(cell)),
        Status::Ended => number == pid as usize,
        Status::Unstarted => false,
    }
}
