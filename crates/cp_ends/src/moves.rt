//! What processes do within a half of a row.

ghost use Rattle.std.specs.Prelude.{◌≡◌, ◌+◌, ◌++◌, ◌∷◌, [], ℕ, Some, IfOk, IfSome, length, slice_get};

use crate::move_index::{MoveIndex, Slot};
use cp_effects::{KnownLeg, Write};
use std::alloc::{AllocError, Global};

// No more moves are learned.
const MOST_MOVES: usize = 250_000;

/// A leg of a process that touches nothing outside of the half of a row in which the process stands.
#[derive(Clone, Copy, Drop)]
pub struct Move {
    pub process: u8,
    /// The number of the half before the leg, and after it.
    pub before: u32,
    pub after: u32,
    /// Whether no status is another one after the leg, and the same is pending.
    pub is_still: bool,
    /// The leg. What it changes of a row stands beside the moves.
    pub leg: KnownLeg,
}

/// The moves that are known.
#[derive(Drop)]
pub struct MoveTable {
    pub moves: Vec<Move>,
    pub writes: Vec<Write>,
    pub index: MoveIndex,
}

impl MoveTable {
    /// No move of so many processes is known.
    pub fn new(alloc: Global, processes: usize) -> MoveTable
        ensures { result.moves.items ≡ [] }
    {
        MoveTable {
            moves: Vec::new(alloc),
            writes: Vec::new(alloc),
            index: MoveIndex::new(alloc, processes),
        }
    }

    /// The move of a process in a half, if it is known.
    #[inline(always)]
    pub fn find(&self, half: u32, process: u8) -> Option<Move>
        ensures half { IfSome result (λ e. e.before ≡ half) }
        ensures process { IfSome result (λ e. e.process ≡ process) }
        ensures found { IfSome result (λ e. (i : ℕ) × (slice_get self.now.moves.items i ≡ Some e)) }
    {
        let Slot::Move(number) = self.index.at(half, process) else {
            return None;
        };
        let Some(known) = self.moves.get(number as usize) else {
            return None;
        };
        if known.before == half && known.process == process {
            Some(*known)
        } else {
            None
        }
    }

    /// Whether the move of a process in a half is to be learned now. A choice was taken there.
    pub fn wants(&mut self, half: u32, process: u8) -> Result<bool, AllocError>
        ensures moves { self.new.moves ≡ self.old.moves }
        ensures writes { self.new.writes ≡ self.old.writes }
    {
        if self.moves.len() >= MOST_MOVES {
            return Ok(false);
        }
        self.index.wants(half, process)
    }

    /// A process has no move in a half.
    pub fn give_up(&mut self, half: u32, process: u8)
        ensures moves { self.new.moves ≡ self.old.moves }
        ensures writes { self.new.writes ≡ self.old.writes }
    {
        self.index.set(half, process, Slot::NoMove);
    }

    /// One move more, whose leg changes this of a row.
    pub fn add(&mut self, known: Move, writes: &[Write]) -> Result<(), AllocError>
        ensures moves { IfOk result (λ _. self.new.moves.items ≡ self.old.moves.items ++ record known { leg = record known.leg { from = length self.old.writes.items; to = length self.old.writes.items + length writes.now } } ∷ []) }
        ensures writes { IfOk result (λ _. self.new.writes.items ≡ self.old.writes.items ++ writes.now) }
    {
        let from = self.writes.len();
        self.writes.extend_from_slice(writes)?;
        let number = self.moves.len();
        self.moves.push(Move {
            process: known.process,
            before: known.before,
            after: known.after,
            is_still: known.is_still,
            leg: KnownLeg {
                leg: known.leg.leg,
                shown: known.leg.shown,
                from,
                to: self.writes.len(),
            },
        })?;
        if number < MOST_MOVES {
            let slot = Slot::Move(number as u32);
            self.index.set(known.before, known.process, slot);
        }
        Ok(())
    }
}
