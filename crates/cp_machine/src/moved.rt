//! Which processes moved: their frames, control stacks and cells may have changed.

ghost use Rattle.std.specs.Prelude.{◌≡◌, ◌<◌, Bool, ℕ, true};

/// What is told of each process that moves.
pub trait Watch {
    /// Whether a process may have moved.
    ghost moved: { Self → ℕ → Bool };

    /// One process more has moved.
    fn add(&mut self, pid: u8)
        ensures others { (q : ℕ) → (q ≡ pid → ⊥) → moved self.new q ≡ moved self.old q }
        ensures this { moved self.new pid ≡ true };

    /// Whether a process may have moved.
    fn has(&self, pid: usize) -> bool
        ensures { result ≡ moved self.now pid };
}

/// The processes that moved.
#[derive(Clone, Copy, Drop)]
pub struct Moved {
    pub by_number: [bool; 16],
}

impl Moved {
    ghost use Rattle.cp_machine.specs.Bodies.{has_moved};

    /// All processes.
    #[inline(always)]
    pub fn everybody() -> Moved
        ensures { (pid : ℕ) → has_moved result pid ≡ true }
    {
        Moved {
            by_number: [true; 16],
        }
    }
}

impl Watch for Moved {
    ghost use Rattle.cp_machine.specs.Bodies.{has_moved};

    ghost moved = { has_moved };

    #[inline(always)]
    fn add(&mut self, pid: u8) {
        let place = pid as usize;
        if place < 16 {
            self.by_number[place] = true;
        }
    }

    #[inline(always)]
    fn has(&self, pid: usize) -> bool {
        match self.by_number.get(pid) {
            Some(has_moved) => *has_moved,
            None => true,
        }
    }
}

/// Nobody watches: each process may have moved.
#[derive(Clone, Copy, Drop)]
pub struct Unwatched;

impl Watch for Unwatched {
    ghost moved = { λ unwatched pid. true };

    #[inline(always)]
    fn add(&mut self, _pid: u8) {}

    #[inline(always)]
    fn has(&self, _pid: usize) -> bool {
        true
    }
}
