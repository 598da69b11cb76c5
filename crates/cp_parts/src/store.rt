//! The parts of states, by numbers.

ghost use Rattle.std.specs.Prelude.{◌∷◌, [], IfOk};
ghost use Rattle.cp_states.specs.Pieces.{IsPiece, KeepPieces};
ghost use Rattle.cp_parts.specs.Coded.{option_list};

use crate::bodies::BodyStore;
use crate::coding::{stage_number, status_numbers};
use crate::grounds::{Ground, GroundStore};
use crate::placing::PlaceTable;
use cp_machine::{Gate, ProcessState, State, Status};
use cp_states::ListStore;
use std::alloc::{AllocError, Global};

// The number of who is inside a monitor: of nobody, or of one process.
#[inline(always)]
fn number_holder(
    lines: &mut ListStore<u8>,
    alloc: Global,
    holder: Option<u8>,
) -> Result<u32, AllocError>
    ensures number { IfOk result (λ n. IsPiece lines.new.items.items lines.new.ends.items n (option_list holder)) }
    ensures kept { KeepPieces lines.old.items.items lines.old.ends.items lines.new.items.items lines.new.ends.items }
{
    match holder {
        None => lines.number_of(alloc, &[]),
        Some(process) => lines.number_of(alloc, &[process]),
    }
}

/// What parts of states have, and the parts themselves, each with a number.
#[derive(Drop)]
pub struct PartStore {
    pub grounds: GroundStore,
    pub bodies: BodyStore,
    pub lines: ListStore<u8>,
    pub statuses: ListStore<usize>,
    pub parts: ListStore<u32>,
    /// The number of the status of a process that is ready.
    pub ready: u32,
    pub ghost is_ready: { IsPiece statuses.items.items statuses.ends.items ready (2 ∷ 0 ∷ []) },
}

impl PartStore {
    ghost use Rattle.std.specs.Prelude.{◌≡◌, ◌<◌, length};
    ghost use Rattle.cp_slots.specs.Tables.{Tables};
    ghost use Rattle.cp_machine.specs.Fits.{MachineFits};
    ghost use Rattle.cp_machine.specs.Machine.{machine_of, monitor_of, thread_of};
    ghost use Rattle.cp_parts.specs.Parts.{IsGround, IsMonitorPart, IsPartNumber, IsProcessPart, IsStatusNumber, KeepStore, ground_in, part_at};
    ghost use Rattle.cp_parts.specs.Placed.{IsPlaced, place_count};

    /// There is no part.
    pub fn new(alloc: Global) -> Result<PartStore, AllocError> {
        let mut statuses = ListStore::new(alloc);
        let numbers = status_numbers(Status::Ready);
        let ready = statuses.number_of(alloc, &numbers)?;
        Ok(PartStore {
            grounds: GroundStore::new(alloc),
            bodies: BodyStore::new(alloc),
            lines: ListStore::new(alloc),
            statuses,
            parts: ListStore::new(alloc),
            ready,
        })
    }

    /// The number of a status.
    #[inline(always)]
    pub fn number_status(&mut self, alloc: Global, status: Status) -> Result<u32, AllocError>
        ensures number { IfOk result (λ n. IsStatusNumber self.new status n) }
        ensures kept { KeepStore self.old self.new }
    {
        let numbers = status_numbers(status);
        self.statuses.number_of(alloc, &numbers)
    }

    // The number of a part that has a process.
    #[inline(always)]
    fn number_process(
        &mut self,
        alloc: Global,
        ground: Ground,
        process: &ProcessState,
    ) -> Result<u32, AllocError>
        ensures within { IfOk result (λ n. n < length self.new.parts.ends.items) }
        ensures ground { IfOk result (λ n. ground_in (part_at self.new n) ≡ ground) }
        ensures process { IfOk result (λ n. IsProcessPart self.new (thread_of process.now) (part_at self.new n)) }
        ensures grounds { self.new.grounds ≡ self.old.grounds }
        ensures kept { KeepStore self.old self.new }
    {
        let body = self.bodies.number_body(alloc, process)?;
        let part = [
            ground.cells,
            ground.bindings,
            ground.phases,
            ground.waiting,
            stage_number(process.status),
            body.frame,
            body.stack,
            body.cells,
            body.references,
        ];
        self.parts.number_of(alloc, &part)
    }

    // The number of a part that has a monitor.
    #[inline(always)]
    fn number_monitor(
        &mut self,
        alloc: Global,
        ground: Ground,
        guard: &Gate,
    ) -> Result<u32, AllocError>
        ensures within { IfOk result (λ n. n < length self.new.parts.ends.items) }
        ensures ground { IfOk result (λ n. ground_in (part_at self.new n) ≡ ground) }
        ensures monitor { IfOk result (λ n. IsMonitorPart self.new (monitor_of guard.now) (part_at self.new n)) }
        ensures grounds { self.new.grounds ≡ self.old.grounds }
        ensures kept { KeepStore self.old self.new }
    {
        let holder = number_holder(&mut self.lines, alloc, guard.holder)?;
        let line = self.lines.number_of(alloc, guard.line.as_slice())?;
        let part = [
            ground.cells,
            ground.bindings,
            ground.phases,
            ground.waiting,
            holder,
            line,
        ];
        self.parts.number_of(alloc, &part)
    }

    // The number of what stands in a place beside its ground.
    #[inline(always)]
    fn number_owner(
        &mut self,
        alloc: Global,
        table: &PlaceTable,
        state: &State,
        place: usize,
        ground: Ground,
    ) -> Result<u32, AllocError>
        requires placed { (r : Tables) × IsPlaced r table.now × MachineFits r (machine_of state.now) }
        requires place { place < place_count table.now }
        requires ground { IsGround self.old.grounds table.now (machine_of state.now) place ground }
        ensures number { IfOk result (λ n. IsPartNumber self.new table.now (machine_of state.now) place n) }
        ensures kept { KeepStore self.old self.new }
    {
        if place < table.processes {
            self.number_process(alloc, ground, &state.processes[place])
        } else {
            self.number_monitor(alloc, ground, &state.guards[place - table.processes])
        }
    }

    /// The number of the part of a place, which is new where the part is.
    #[inline(always)]
    pub fn number_part(
        &mut self,
        alloc: Global,
        table: &PlaceTable,
        state: &State,
        place: usize,
    ) -> Result<u32, AllocError>
        requires placed { (r : Tables) × IsPlaced r table.now × MachineFits r (machine_of state.now) }
        requires place { place < place_count table.now }
        ensures number { IfOk result (λ n. IsPartNumber self.new table.now (machine_of state.now) place n) }
        ensures kept { KeepStore self.old self.new }
    {
        let ground = self.grounds.number_ground(alloc, table, state, place)?;
        self.number_owner(alloc, table, state, place, ground)
    }
}
