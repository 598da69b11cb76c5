//! Where moves are found. It sees no move: who looks for one compares what is there.

ghost use Rattle.std.specs.Prelude.{◌<◌, ◌^◌, length, IfSome, OnOk};

use std::alloc::{AllocError, Global};

// The moves of a half are learned after so many choices that were taken there without them.
const CHOICES_BEFORE: u32 = 4;

const MOST_SLOTS: usize = 4_000_000;

/// What is known of a process in a half.
#[derive(Clone, Copy, Drop)]
pub enum Slot {
    Empty,
    /// It has no move there.
    NoMove,
    Move(u32),
}

/// A half whose moves are not learned yet, with how many choices were taken there; or where its slots begin, one for each process.
#[derive(Clone, Copy, Drop)]
pub enum Shelf {
    Closed(u32),
    Open(u32),
}

#[derive(Drop)]
pub struct MoveIndex {
    pub processes: usize,
    /// By the number of the half.
    pub shelves: Vec<Shelf>,
    pub slots: Vec<Slot>,
}

// There is room for a half.
fn make_room(shelves: &mut Vec<Shelf>, half: usize) -> Result<(), AllocError>
    requires { half < 2 ^ 32 }
    ensures { OnOk result (half < length shelves.new.items) }
{
    if half < shelves.len() {
        return Ok(());
    }
    shelves.resize(half + 1, Shelf::Closed(0))
}

impl MoveIndex {
    /// Nothing is known.
    pub fn new(alloc: Global, processes: usize) -> MoveIndex {
        MoveIndex {
            processes,
            shelves: Vec::new(alloc),
            slots: Vec::new(alloc),
        }
    }

    // Where a process of a half has its slot.
    #[inline(always)]
    fn slot(&self, half: u32, process: u8) -> Option<usize>
        ensures { IfSome result (λ slot. slot < length self.now.slots.items) }
    {
        let Some(Shelf::Open(first)) = self.shelves.get(half as usize) else {
            return None;
        };
        let slot = *first as usize + process as usize;
        if slot < self.slots.len() {
            Some(slot)
        } else {
            None
        }
    }

    /// What is known of a process in a half.
    #[inline(always)]
    pub fn at(&self, half: u32, process: u8) -> Slot {
        match self.slot(half, process) {
            Some(slot) => self.slots[slot],
            None => Slot::Empty,
        }
    }

    /// This is known of a process in a half.
    pub fn set(&mut self, half: u32, process: u8, known: Slot) {
        if let Some(slot) = self.slot(half, process) {
            self.slots[slot] = known;
        }
    }

    // A half has slots. Tells whether there was room for them.
    fn open(&mut self, half: usize) -> Result<bool, AllocError>
        requires { half < length self.old.shelves.items }
    {
        let first = self.slots.len();
        if first >= MOST_SLOTS || self.processes > MOST_SLOTS {
            return Ok(false);
        }
        self.slots.resize(first + self.processes, Slot::Empty)?;
        self.shelves[half] = Shelf::Open(first as u32);
        Ok(true)
    }

    /// Whether what a process does in a half is to be learned now. A choice was taken there.
    pub fn wants(&mut self, half: u32, process: u8) -> Result<bool, AllocError> {
        let at = half as usize;
        make_room(&mut self.shelves, at)?;
        match self.shelves[at] {
            Shelf::Open(_) => Ok(matches!(self.at(half, process), Slot::Empty)),
            Shelf::Closed(count) => {
                if count >= CHOICES_BEFORE {
                    return self.open(at);
                }
                self.shelves[at] = Shelf::Closed(count + 1);
                Ok(false)
            }
        }
    }
}
