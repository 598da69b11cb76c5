//! What schedules came to.

ghost use Rattle.std.specs.Prelude.{◌≡◌, ◌∷◌, [], true, Contains, IfOk};
ghost use Rattle.cp_layers.specs.Adding.{Adds};

use crate::mark::CoverMark;
use indexmap::IndexSet;
use std::alloc::AllocError;

/// What schedules came to, each once.
#[derive(Drop)]
pub struct Marks {
    pub known: IndexSet<CoverMark>,
}

impl Marks {
    /// One more, where it is new.
    pub fn add(&mut self, mark: CoverMark) -> Result<(), AllocError>
        ensures { IfOk result (λ _. Adds self.old.known.keys (mark ∷ []) self.new.known.keys) }
    {
        self.known.insert(mark)?;
        Ok(())
    }

    /// Whether some schedule came to it.
    pub fn has(&self, mark: CoverMark) -> bool
        ensures { result ≡ true → Contains self.now.known.keys mark }
    {
        self.known.contains(&mark)
    }
}
