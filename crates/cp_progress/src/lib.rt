//! How far work has come, told to whoever looks, and on a line of a terminal.
#![tactic(auto)]

mod line;

pub use line::{ProgressLine, terminal_of};

/// What a search by layers has done.
#[derive(Clone, Copy, Drop)]
pub struct Progress {
    /// How many choices were taken on each way that still goes on.
    pub choices: u32,
    /// How many states were found, of the layer that is made where only that is kept.
    pub states: usize,
    /// How many outcomes or ends were found, where they are looked for.
    pub outcomes: Option<usize>,
}

/// A search goes on from so many states of a layer before it tells how far it has come. So a layer that takes long is told of too.
pub const STATES_BETWEEN: u32 = 64;

/// What a walk over all schedules has done.
#[derive(Clone, Copy, Drop)]
pub struct WalkProgress {
    /// How many schedules were found, by all threads.
    pub schedules: usize,
    /// From how many beginnings all schedules were found.
    pub done: u32,
    /// How many beginnings of schedules are dealt out to the threads.
    pub beginnings: u32,
}

/// Whoever is told how far work has come: a search by layers after each layer, and within one now and then; a walk now and then.
pub trait ObserveProgress {
    /// What it does changes nothing in the search.
    fn observe_progress(&mut self, progress: Progress);

    /// What it does changes nothing in the walk.
    fn observe_walk(&mut self, progress: WalkProgress);
}

/// Whoever is told how far searches have come, and when the work that they belong to begins and ends.
pub trait ObserveWork: ObserveProgress {
    /// What the work is done on was read.
    fn observe_begin(&mut self);

    /// The work is done, or given up, and its answer is not yet written.
    fn observe_end(&mut self);
}

/// Nobody is told.
#[derive(Clone, Copy, Drop)]
pub struct Unobserved;

impl ObserveProgress for Unobserved {
    #[inline(always)]
    fn observe_progress(&mut self, progress: Progress) {
        let _ = progress;
    }

    #[inline(always)]
    fn observe_walk(&mut self, progress: WalkProgress) {
        let _ = progress;
    }
}

impl ObserveWork for Unobserved {
    #[inline(always)]
    fn observe_begin(&mut self) {}

    #[inline(always)]
    fn observe_end(&mut self) {}
}
