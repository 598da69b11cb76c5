//! Whoever is told how far a walk has come. One worker tells, and it alone has him: nothing of him is shared.

use cp_progress::{ObserveProgress, Unobserved, WalkProgress};

/// A walk goes on to so many more rows before it tells how far it has come.
const ROWS_BETWEEN: usize = 16;

/// Whoever is told what one worker has come to. What it does changes nothing in the walk.
pub trait ObserveWalk {
    /// The worker begins with this task. All tasks before it were drawn.
    fn observe_task(&mut self, task: u32);

    /// So many rows more of its task were found.
    fn observe_rows(&mut self, count: usize);

    /// Its task is done. So many rows were noted by all workers.
    fn observe_noted(&mut self, total: u64);
}

impl ObserveWalk for Unobserved {
    #[inline(always)]
    fn observe_task(&mut self, task: u32) {
        let _ = task;
    }

    #[inline(always)]
    fn observe_rows(&mut self, count: usize) {
        let _ = count;
    }

    #[inline(always)]
    fn observe_noted(&mut self, total: u64) {
        let _ = total;
    }
}

/// What one worker knows of the walk, and whoever it tells of it.
#[derive(Drop)]
pub struct Teller<'a, O: ObserveProgress> {
    observer: &'a mut O,
    tasks: u32,
    others: u32,
    done: u32,
    noted: u64,
    rows: usize,
}

impl<'a, O: ObserveProgress> Teller<'a, O> {
    /// Tells of a walk over so many tasks, beside so many other workers.
    pub fn new(observer: &'a mut O, tasks: u32, others: u32) -> Teller<'a, O> {
        Teller {
            observer,
            tasks,
            others,
            done: 0,
            noted: 0,
            rows: 0,
        }
    }

    fn tell(&mut self) {
        let schedules = (self.noted as usize).saturating_add(self.rows);
        self.observer.observe_walk(WalkProgress {
            schedules,
            done: self.done,
            beginnings: self.tasks,
        });
    }
}

impl<'a, O: ObserveProgress> ObserveWalk for Teller<'a, O> {
    // Of the tasks before it each other worker can be at one.
    fn observe_task(&mut self, task: u32) {
        self.done = task.saturating_sub(self.others);
    }

    #[inline(always)]
    fn observe_rows(&mut self, count: usize) {
        let before = self.rows;
        self.rows = before.saturating_add(count);
        if before / ROWS_BETWEEN != self.rows / ROWS_BETWEEN {
            self.tell();
        }
    }

    fn observe_noted(&mut self, total: u64) {
        self.noted = total;
        self.rows = 0;
    }
}
