//! The row of a state.

use crate::coding::option_number;
use crate::placing::PlaceTable;
use crate::store::PartStore;
use cp_machine::State;
use std::alloc::{AllocError, Global};

impl PartStore {
    ghost use Rattle.std.specs.Prelude.{◌≡◌, ◌+◌, length, IfOk};
    ghost use Rattle.cp_slots.specs.Tables.{Tables};
    ghost use Rattle.cp_machine.specs.Fits.{MachineFits};
    ghost use Rattle.cp_machine.specs.Machine.{machine_of};
    ghost use Rattle.cp_parts.specs.Parts.{HasParts, HasStatuses, IsPartRow, KeepStore};
    ghost use Rattle.cp_parts.specs.Placed.{IsPlaced, place_count};

    fn add_statuses(
        &mut self,
        alloc: Global,
        state: &State,
        row: &mut Vec<u32>,
    ) -> Result<(), AllocError>
        requires { length row.old.items ≡ 0 }
        ensures statuses { IfOk result (λ _. HasStatuses self.new (machine_of state.now) row.new.items (length (machine_of state.now).threads)) }
        ensures kept { KeepStore self.old self.new }
    {
        for at in 0..state.processes.len() {
            let number = self.number_status(alloc, state.processes[at].status)?;
            row.push(number)?;
        }
        Ok(())
    }

    fn add_parts(
        &mut self,
        alloc: Global,
        table: &PlaceTable,
        state: &State,
        row: &mut Vec<u32>,
    ) -> Result<(), AllocError>
        requires placed { (r : Tables) × IsPlaced r table.now × MachineFits r (machine_of state.now) }
        requires long { length row.old.items ≡ table.now.processes + 1 }
        ensures parts { IfOk result (λ _. HasParts self.new table.now (machine_of state.now) row.old.items row.new.items (place_count table.now)) }
        ensures kept { KeepStore self.old self.new }
    {
        for place in 0..table.places() {
            let number = self.number_part(alloc, table, state, place)?;
            row.push(number)?;
        }
        Ok(())
    }

    /// The row of a state.
    pub fn row_of(
        &mut self,
        alloc: Global,
        table: &PlaceTable,
        state: &State,
    ) -> Result<Vec<u32>, AllocError>
        requires { (r : Tables) × IsPlaced r table.now × MachineFits r (machine_of state.now) }
        ensures row { IfOk result (λ row. IsPartRow self.new table.now (machine_of state.now) row.items) }
        ensures kept { KeepStore self.old self.new }
    {
        let mut row = Vec::with_capacity(alloc, table.width())?;
        self.add_statuses(alloc, state, &mut row)?;
        row.push(option_number(state.pending))?;
        self.add_parts(alloc, table, state, &mut row)?;
        Ok(row)
    }
}
