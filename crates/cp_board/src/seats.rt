//! The board and its seats.
ghost use Rattle.std.specs.Prelude.{◌≡◌, ◌+◌, ◌<◌, ◌≤◌, ◌⊎◌, ◌↔◌, false, cond, [], map, length, All, IfOk, IfSome, IfNone};
ghost use Rattle.cp_board.specs.Views.{NotesOnce, NotesEachOnce, HasOpenTask, Settles, DrawsEachBelow, drew, ran_dry, noted_by, rows_noted, view};

use crate::plays::{BoardRule, ClaimStep, JoinStep, NoteStep, SplitStep};
use crate::views::{Terms, View};
use atomic_table::Table;
use std::alloc::{AllocError, Global};
use thiserror::Error;

type Inner = atomic_table::Seat<(), View>;

type Ruled = Table<(), View, Terms, BoardRule, Global>;

const MOST_TASKS: u32 = 4096;

const MOST_SEATS: u8 = 16;

// The words of the table; the third is the number of tasks, and never changes.
const NEXT_TASK: usize = 0;

const ROWS_NOTED: usize = 1;

/// Why no board was made.
#[derive(Debug, Drop, Error)]
pub enum BoardFault {
    /// No memory is left for the board or its seats.
    #[error("out of memory")]
    Memory(#[from(alloc)] AllocError),
    /// Over 4,096 tasks.
    #[error("too many tasks")]
    TooManyTasks,
    /// No seat, or over 16.
    #[error("no seat or too many seats")]
    BadSeats,
}

/// Tasks, numbered from 0, which are given out one by one, and the total of the rows that they gave.
///
/// It can be shared by threads, each with a seat of its own.
#[derive(Drop)]
pub struct Board {
    table: Ruled,
    tasks: u32,
    ghost words: { table.shared.table_id.words ≡ 3 },
    ghost slots: { table.shared.table_id.slots ≡ 0 },
    ghost terms: { table.shared.key.tasks ≡ tasks },
    ghost few: { tasks ≤ 4096 },
    ghost some_seat: { 0 < table.shared.key.seats },
}

/// The right to claim and note on a board, for one thread at a time.
///
/// Contracts see what the seat has drawn and noted so far as `view_of`.
#[derive(Drop)]
pub struct Seat {
    inner: Inner,
    is_spent: bool,
    ghost one_part: { inner.me.0.parts ≡ 1 },
    ghost no_slot: { inner.me.1 ≡ [] },
    ghost spent: { inner.me.0.spent ≡ cond is_spent 1 0 },
    ghost once: { NotesOnce inner.me.0 },
}

/// How many tasks were drawn, and the sum of the rows of all notes.
#[derive(Clone, Copy)]
pub struct Closed {
    pub claimed: u32,
    pub total: u64,
}

impl Board {
    ghost use Rattle.cp_board.specs.Seats.{view_of, tasks_of, seats_of, IsSeatOf, IsDealt};

    /// Gives a board of this many tasks, and its seats.
    ///
    /// # Errors
    ///
    /// `TooManyTasks` over 4,096 tasks, else `BadSeats` at no seat or over 16; both are found before memory is taken.
    /// Else `Memory` where memory was refused.
    pub fn new(alloc: Global, tasks: u32, seats: u8) -> Result<(Board, Vec<Seat>), BoardFault>
        ensures made { IfOk result (λ r. IsDealt tasks seats r.0 r.1.items) }
        ensures tasks { (result ≡ Err BoardFault.TooManyTasks) ↔ (4096 < tasks) }
        ensures seats { (result ≡ Err BoardFault.BadSeats) ↔ ((tasks ≤ 4096) × ((seats ≡ 0) ⊎ (16 < seats))) }
    {
        if tasks > MOST_TASKS {
            return Err(BoardFault::TooManyTasks);
        }
        if seats == 0 || seats > MOST_SEATS {
            return Err(BoardFault::BadSeats);
        }
        Board::dealt(alloc, tasks, seats).map_err(BoardFault::Memory)
    }

    // The first seat stands for all; the others are split off it.
    fn dealt(alloc: Global, tasks: u32, seats: u8) -> Result<(Board, Vec<Seat>), AllocError>
        requires tasks { tasks ≤ 4096 }
        requires seats { (0 < seats) × (seats ≤ 16) }
        ensures { IfOk result (λ r. IsDealt tasks seats r.0 r.1.items) }
    {
        let terms = Terms {
            tasks: u64::from(tasks),
            seats: u64::from(seats),
        };
        let mut all = Vec::with_capacity(alloc, usize::from(seats))?;
        let (table, mut first) = Ruled::of_words(alloc, &[0, 0, u64::from(tasks)], &terms)?;
        for _ in 1..seats {
            let next = table.shared.split_seat::<SplitStep>(&mut first);
            all.push(Seat::new(next))?;
        }
        all.push(Seat::new(first))?;
        Ok((Board { table, tasks }, all))
    }

    /// Draws a task that no other claim gets, or answers `None` where no task is left, then and ever after.
    pub fn claim(&self, seat: &mut Seat) -> Option<u32>
        requires { IsSeatOf self.now seat.old }
        ensures seat { IsSeatOf self.now seat.new }
        ensures some { IfSome result (λ t.
            (t < tasks_of self.now)
            × (view_of seat.new ≡ drew (view_of seat.old) t)
            × HasOpenTask (view_of seat.new)) }
        ensures room { IfSome result (λ _. length (view_of seat.new).drawn ≤ tasks_of self.now) }
        ensures none { IfNone result ((view_of seat.new).spent ≡ 1) }
        ensures same { IfNone result (view_of seat.new ≡ ran_dry (view_of seat.old)) }
        ensures again { (view_of seat.old).spent ≡ 1 → result ≡ None }
    {
        if seat.is_spent {
            return None;
        }
        let found = self
            .table
            .shared
            .fetch_add::<ClaimStep>(&mut seat.inner, NEXT_TASK, 1);
        if found < u64::from(self.tasks) {
            Some(found as u32)
        } else {
            seat.is_spent = true;
            None
        }
    }

    /// Notes how many rows the seat's last claimed task gave, and answers the total of all notes so far, of all seats
    /// and with this one.
    pub fn note(&self, seat: &mut Seat, rows: u32) -> u64
        requires own { IsSeatOf self.now seat.old }
        requires open { HasOpenTask (view_of seat.old) }
        requires rows { rows ≤ 50001 }
        ensures seat { IsSeatOf self.now seat.new }
        ensures noted { view_of seat.new ≡ noted_by (view_of seat.old) rows result }
        ensures own_rows { rows_noted (view_of seat.new).notes ≤ result }
        ensures told { All (λ n. n.total ≤ result) (view_of seat.new).notes }
    {
        let rows = u64::from(rows);
        let found = self
            .table
            .shared
            .fetch_add::<NoteStep>(&mut seat.inner, ROWS_NOTED, rows);
        found + rows
    }

    /// Takes all seats back, and says how many tasks were drawn and the sum of all notes.
    pub fn close(self, mut seats: Vec<Seat>) -> Closed
        requires own { All (IsSeatOf self) seats.items }
        requires all { length seats.items ≡ seats_of self }
        ensures settled { Settles (tasks_of self) result.claimed result.total (map view_of seats.items) }
        ensures each_once { DrawsEachBelow result.claimed (map view_of seats.items) }
        ensures own_notes { All NotesEachOnce (map view_of seats.items) }
    {
        let Board { table, tasks } = self;
        let Some(last) = seats.pop() else {
            unreachable!()
        };
        let Seat {
            inner: mut whole,
            is_spent: _,
        } = last;
        while let Some(seat) = seats.pop() {
            let Seat { inner, is_spent: _ } = seat;
            table.shared.join_seat::<JoinStep>(&mut whole, inner);
        }
        let closed = table.close_with(whole);
        let next = closed.word(NEXT_TASK);
        let total = closed.word(ROWS_NOTED);
        closed.free();
        Closed {
            claimed: next.min(u64::from(tasks)) as u32,
            total,
        }
    }
}

impl Seat {
    fn new(inner: Inner) -> Seat
        requires { inner.me ≡ (view 1 inner.me.0.tasks [] [] 0, []) }
        ensures { (result.inner ≡ inner) × (result.is_spent ≡ false) }
    {
        Seat {
            inner,
            is_spent: false,
        }
    }
}
