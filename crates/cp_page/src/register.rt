//! The tables of a page, on which its graph stands.

use crate::json::Json;
use crate::table::PageRows;
use cp_legend::Legend;
use std::alloc::Global;

/// Texts, frames, views, events, edges, ends, and what can still come beyond the page, each once.
pub struct Register<'a> {
    pub alloc: Global,
    pub legend: &'a Legend,
    pub strings: PageRows,
    pub frames: PageRows,
    pub views: PageRows,
    pub events: PageRows,
    pub edges: PageRows,
    pub ends: PageRows,
    /// Outcomes from a state on.
    pub further: PageRows,
    /// These outcomes with how many schedules lead on to them.
    pub ways: PageRows,
}

// One call where it is dropped, not one for each list: proofs of functions that may end early are much shorter.
impl<'a> Drop for Register<'a> {
    fn drop(self) {
        let Register {
            alloc: _,
            legend: _,
            strings: _,
            frames: _,
            views: _,
            events: _,
            edges: _,
            ends: _,
            further: _,
            ways: _,
        } = self;
    }
}

impl<'a> Register<'a> {
    /// Empty tables.
    pub fn new(alloc: Global, legend: &'a Legend) -> Register<'a> {
        Register {
            alloc,
            legend,
            strings: PageRows::new(alloc),
            frames: PageRows::new(alloc),
            views: PageRows::new(alloc),
            events: PageRows::new(alloc),
            edges: PageRows::new(alloc),
            ends: PageRows::new(alloc),
            further: PageRows::new(alloc),
            ways: PageRows::new(alloc),
        }
    }

    /// Appends the tables.
    pub fn put(&self, json: &mut Json) {
        self.edges.put(json, "edges");
        self.events.put(json, "events");
        self.views.put(json, "views");
        self.frames.put(json, "frames");
        self.ends.put(json, "ends");
        self.further.put(json, "further");
        self.ways.put(json, "ways");
        self.strings.put(json, "strings");
    }
}
