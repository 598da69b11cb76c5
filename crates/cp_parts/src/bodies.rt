//! What a process has beside its status, by numbers.

use crate::coding::frame_numbers;
use cp_machine::{Entry, ProcessState};
use cp_states::ListStore;
use cp_store::Address;
use std::alloc::{AllocError, Global};

/// The numbers of what a process has beside its status.
#[derive(Clone, Copy, Drop)]
pub struct BodyNumbers {
    pub frame: u32,
    pub stack: u32,
    pub cells: u32,
    pub references: u32,
}

/// The different lists that processes have, each with a number.
#[derive(Drop)]
pub struct BodyStore {
    pub frames: ListStore<usize>,
    pub stacks: ListStore<Entry>,
    pub cells: ListStore<i16>,
    pub references: ListStore<Address>,
}

impl BodyStore {
    ghost use Rattle.std.specs.Prelude.{IfOk};
    ghost use Rattle.cp_machine.specs.Machine.{thread_of};
    ghost use Rattle.cp_parts.specs.Parts.{IsBody, KeepBodyStore};

    /// There is no list.
    pub fn new(alloc: Global) -> BodyStore {
        BodyStore {
            frames: ListStore::new(alloc),
            stacks: ListStore::new(alloc),
            cells: ListStore::new(alloc),
            references: ListStore::new(alloc),
        }
    }

    /// The numbers of what a process has beside its status.
    #[inline(always)]
    pub fn number_body(
        &mut self,
        alloc: Global,
        process: &ProcessState,
    ) -> Result<BodyNumbers, AllocError>
        ensures body { IfOk result (λ b. IsBody self.new (thread_of process.now) b) }
        ensures kept { KeepBodyStore self.old self.new }
    {
        let numbers = frame_numbers(process.frame);
        let frame = self.frames.number_of(alloc, &numbers)?;
        let stack = self.stacks.number_of(alloc, &process.stack)?;
        let cells = self.cells.number_of(alloc, &process.room.cells)?;
        let references = self.references.number_of(alloc, &process.room.references)?;
        Ok(BodyNumbers {
            frame,
            stack,
            cells,
            references,
        })
    }
}
