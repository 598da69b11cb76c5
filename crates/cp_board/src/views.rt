//! What the seats of a board know. Contracts alone see a `Note` or a `View`: no value of either is made.
use std::collections::LinkedList;

/// How many rows a task gave, and the total of all notes that was answered.
pub struct Note {
    pub task: u32,
    pub rows: u32,
    pub total: u64,
}

/// What was drawn and noted by as many seats as the view has parts, in order, and how many of their claims found no
/// task.
pub struct View {
    pub parts: u64,
    pub tasks: u64,
    pub drawn: LinkedList<u32>,
    pub notes: LinkedList<Note>,
    pub spent: u64,
}

/// How many tasks and seats a board is made with.
#[derive(Clone, Copy)]
pub struct Terms {
    pub tasks: u64,
    pub seats: u64,
}
