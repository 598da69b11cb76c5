//! What is known of admissions, by what they found in the place of the pending monitor.

ghost use Rattle.std.specs.Prelude.{◌≡◌, ◌+◌, ◌<◌, ◌^◌, ℕ, List, length, slice_index_or, true, IfOk, OnOk};
ghost use Rattle.cp_slots.specs.Tables.{Tables};
ghost use Rattle.cp_machine.specs.Fits.{IsStateOf};
ghost use Rattle.cp_machine.specs.Machine.{in_line, machine_of};
ghost use Rattle.cp_machine.specs.Opening.{admit_waiting};
ghost use Rattle.cp_states.specs.Numbers.{number_at};
ghost use Rattle.cp_parts.specs.Parts.{IsPartRow, KeepStore};
ghost use Rattle.cp_parts.specs.Placed.{IsPlaced, place_count};
ghost use Rattle.cp_effects.specs.Admitting.{IsAdmission, admitted_row, guard_position};

use crate::changes::number_in;
use cp_machine::State;
use cp_parts::{PartStore, PlaceTable};
use cp_slots::Resolved;
use cp_states::ListStore;
use std::alloc::{AllocError, Global};

/// Lets a process of the pending monitor's line in. Answers the number of the part that the monitor's place has afterwards.
pub fn make_admission(
    alloc: Global,
    program: &Resolved,
    table: &PlaceTable,
    store: &mut PartStore,
    state: &mut State,
    pid: u8,
    monitor: u8,
) -> Result<u32, AllocError>
    requires own { IsStateOf program.now state.old }
    requires placed { IsPlaced program.now table.now }
    requires pid { pid < length state.old.processes.items }
    requires pending { state.old.pending ≡ Some monitor }
    requires line { in_line (machine_of state.old) pid ≡ true }
    ensures own { IsStateOf program.now state.new }
    ensures after { machine_of state.new ≡ admit_waiting (machine_of state.old) pid }
    ensures admission { IfOk result (λ part. (row : List ℕ) → IsPartRow store.old table.now (machine_of state.old) row → IsAdmission store.new table.now program.now pid monitor (number_at row (guard_position table.now monitor)) part) }
    ensures kept { KeepStore store.old store.new }
{
    let _ = program;
    state.admit(pid);
    store.number_part(alloc, table, state, table.of_monitor(monitor))
}

/// A row becomes the one after an admission, where this is the number of the part afterwards.
pub fn write_admission(
    store: &PartStore,
    table: &PlaceTable,
    row: &mut [u32],
    pid: u8,
    monitor: u8,
    part: u32,
)
    requires pid { pid < table.now.processes }
    requires monitor { monitor < table.now.monitors }
    requires long { length row.old ≡ table.now.processes + 1 + place_count table.now }
    ensures { row.new ≡ admitted_row store.now table.now pid monitor part row.old }
{
    let pending = table.pending_position();
    row[pid as usize] = store.ready;
    row[pending] = 0;
    row[pending + 1 + table.of_monitor(monitor)] = part;
}

/// The admissions that are known, each with its key: a process, a monitor, and the number of the part of the monitor's place.
#[derive(Drop)]
pub struct AdmissionTable {
    pub keys: ListStore<u32>,
    /// By the number of the key, the number of the part afterwards.
    pub parts: Vec<Option<u32>>,
}

// There is room for what is known of a key.
fn make_room(parts: &mut Vec<Option<u32>>, key: usize) -> Result<(), AllocError>
    requires { key < 2 ^ 32 }
    ensures long { OnOk result (key < length parts.new.items) }
    ensures same { (k : ℕ) → slice_index_or parts.new.items k None ≡ slice_index_or parts.old.items k None }
{
    if key < parts.len() {
        return Ok(());
    }
    parts.resize(key + 1, None)
}

impl AdmissionTable {
    ghost use Rattle.cp_effects.specs.Admitting.{AreAdmissions, IsAdmissionKey, part_after};

    /// Nothing is known.
    pub fn new(alloc: Global) -> AdmissionTable
        ensures { (s : PartStore) (t : PlaceTable) (r : Tables) → AreAdmissions s t r result }
    {
        AdmissionTable {
            keys: ListStore::new(alloc),
            parts: Vec::new(alloc),
        }
    }

    /// The number of the key of an admission in the state of a row.
    pub fn number_key(
        &mut self,
        alloc: Global,
        table: &PlaceTable,
        row: &[u32],
        pid: u8,
        monitor: u8,
    ) -> Result<u32, AllocError>
        ensures key { IfOk result (λ k. IsAdmissionKey self.new k pid monitor (number_at row.now (guard_position table.now monitor))) }
        ensures known { (s : PartStore) (t : PlaceTable) (r : Tables) → AreAdmissions s t r self.old → AreAdmissions s t r self.new }
    {
        let position = table.pending_position() + 1 + table.of_monitor(monitor);
        let key = [u32::from(pid), u32::from(monitor), number_in(row, position)];
        self.keys.number_of(alloc, &key)
    }

    /// The number of the part after the admission of a key, if it is known.
    #[inline(always)]
    pub fn at(&self, key: u32) -> Option<u32>
        ensures { result ≡ part_after self.now key }
    {
        match self.parts.get(key as usize) {
            Some(part) => *part,
            None => None,
        }
    }

    /// The part after an admission is known of a key from now on.
    pub fn remember(&mut self, key: u32, part: u32) -> Result<(), AllocError>
        ensures here { IfOk result (λ _. part_after self.new key ≡ Some part) }
        ensures known { IfOk result (λ _. (s : PartStore) (t : PlaceTable) (r : Tables) (pid monitor before : ℕ) → AreAdmissions s t r self.old → IsAdmissionKey self.old key pid monitor before → IsAdmission s t r pid monitor before part → AreAdmissions s t r self.new) }
    {
        let at = key as usize;
        make_room(&mut self.parts, at)?;
        self.parts[at] = Some(part);
        Ok(())
    }
}
