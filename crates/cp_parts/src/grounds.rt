//! What each place has, by numbers: its cells, what is bound there, how far its components are initialised, and who waits there.

use crate::coding::waiting_numbers;
use crate::placing::PlaceTable;
use cp_machine::{Phase, State};
use cp_states::ListStore;
use std::alloc::{AllocError, Global};

/// The numbers of what a place has.
#[derive(Clone, Copy, Drop)]
pub struct Ground {
    pub cells: u32,
    pub bindings: u32,
    pub phases: u32,
    pub waiting: u32,
}

/// The different lists that places have, each with a number.
#[derive(Drop)]
pub struct GroundStore {
    pub cells: ListStore<i16>,
    pub bindings: ListStore<usize>,
    pub phases: ListStore<Phase>,
    pub waiting: ListStore<usize>,
}

impl GroundStore {
    ghost use Rattle.std.specs.Prelude.{◌<◌, IfOk};
    ghost use Rattle.cp_slots.specs.Tables.{Tables};
    ghost use Rattle.cp_machine.specs.Fits.{MachineFits};
    ghost use Rattle.cp_machine.specs.Machine.{machine_of};
    ghost use Rattle.cp_parts.specs.Parts.{IsGround, KeepGroundStore};
    ghost use Rattle.cp_parts.specs.Placed.{IsPlaced, place_count};

    /// There is no list.
    pub fn new(alloc: Global) -> GroundStore {
        GroundStore {
            cells: ListStore::new(alloc),
            bindings: ListStore::new(alloc),
            phases: ListStore::new(alloc),
            waiting: ListStore::new(alloc),
        }
    }

    /// The numbers of what a place has in a state.
    #[inline(always)]
    pub fn number_ground(
        &mut self,
        alloc: Global,
        table: &PlaceTable,
        state: &State,
        place: usize,
    ) -> Result<Ground, AllocError>
        requires placed { (r : Tables) × IsPlaced r table.now × MachineFits r (machine_of state.now) }
        requires place { place < place_count table.now }
        ensures ground { IfOk result (λ g. IsGround self.new table.now (machine_of state.now) place g) }
        ensures kept { KeepGroundStore self.old self.new }
    {
        let own = table.cells.span(place);
        let within = table.components.span(place);
        let cells = self.cells.number_of(alloc, own.part_of(&state.permanents))?;
        let bindings = self
            .bindings
            .number_of(alloc, own.part_of(&state.bindings))?;
        let phases = self.phases.number_of(alloc, within.part_of(&state.phases))?;
        let numbers = waiting_numbers(table, place, &state.processes);
        let waiting = self.waiting.number_of(alloc, numbers.as_slice())?;
        Ok(Ground {
            cells,
            bindings,
            phases,
            waiting,
        })
    }
}
