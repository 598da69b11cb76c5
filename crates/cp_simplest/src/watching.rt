//! The process that made the last step.

ghost use Rattle.std.specs.Prelude.{true};

use cp_machine::Watch;

/// The last process that moved.
#[derive(Clone, Copy, Drop)]
pub struct LastMoved {
    pub process: u8,
}

impl Watch for LastMoved {
    ghost moved = { λ last pid. true };

    fn add(&mut self, pid: u8) {
        self.process = pid;
    }

    fn has(&self, _pid: usize) -> bool {
        true
    }
}
