ghost use Rattle.std.specs.Prelude.{◌≡◌, ◌+◌, ◌<◌, ◌≤◌, map, IfOk};
ghost use Rattle.cp_board.specs.Seats.{IsSeatOf};

use crate::answers::{CallAnswer, ample_answer, are_right};
use cp_board::{Board, BoardFault, Closed, Seat};
use std::alloc::{AllocError, Global};
use std::thread;
use std::thread::Threads;

// What a thread drew, and its seat.
#[derive(Drop)]
struct Drawer {
    seat: Seat,
    drawn: Vec<u32>,
    is_whole: bool,
}

// What threads drew together, and what the closed board says.
#[derive(Drop)]
struct Game {
    drawn: Vec<u32>,
    closed: Closed,
    is_whole: bool,
}

// Draws until there is nothing more, and notes one row a task.
fn draw_all(alloc: Global, board: &Board, mut seat: Seat) -> Drawer
    requires { IsSeatOf board.now seat }
    ensures { IsSeatOf board.now result.seat }
{
    let mut drawn = Vec::new(alloc);
    while let Some(task) = board.claim(&mut seat) {
        board.note(&mut seat, 1);
        if drawn.push(task).is_err() {
            return Drawer {
                seat,
                drawn,
                is_whole: false,
            };
        }
    }
    Drawer {
        seat,
        drawn,
        is_whole: true,
    }
}

// The seats that come back, in order, and all that was drawn.
fn collect_all(
    alloc: Global,
    drawers: Vec<Drawer>,
) -> Result<(Vec<Seat>, Vec<u32>, bool), AllocError>
    ensures { IfOk result (λ r. r.0.items ≡ map (λ d. d.seat) drawers.items) }
{
    let mut seats = Vec::new(alloc);
    let mut all = Vec::new(alloc);
    let mut is_whole = true;
    for drawer in drawers {
        let Drawer {
            seat,
            mut drawn,
            is_whole: was_whole,
        } = drawer;
        is_whole = is_whole && was_whole;
        seats.push(seat)?;
        all.append(&mut drawn)?;
    }
    Ok((seats, all, is_whole))
}

// Those seats draw that have no idle one before them, each in a thread of its own where one can be had.
fn play<R: Threads + Sync>(
    rt: &R,
    alloc: Global,
    tasks: u32,
    seats: u8,
    idle: u8,
) -> Result<Game, BoardFault>
    requires { idle ≤ seats }
{
    let (board, mut seats) = Board::new(alloc, tasks, seats)?;
    let drawing = seats.split_off(usize::from(idle))?;
    let shared = &board;
    let drawers = thread::map_vec(
        rt,
        drawing,
        &|seat: Seat| -> Drawer
            requires { IsSeatOf shared.now seat }
            ensures { IsSeatOf shared.entry.now result.seat }
        { draw_all(alloc, shared, seat) },
    )?;
    let (mut drawn_by, drawn, is_whole) = collect_all(alloc, drawers)?;
    seats.append(&mut drawn_by)?;
    Ok(Game {
        drawn,
        closed: board.close(seats),
        is_whole,
    })
}

// Whether these are the numbers below the count, each once, in rising order.
fn are_numbers_below(drawn: &[u32], count: u32) -> bool {
    let mut next = 0u32;
    let mut are_numbers = true;
    for task in drawn {
        are_numbers = are_numbers && *task == next;
        next = next.saturating_add(1);
    }
    are_numbers && next == count
}

// Whether each task below the count was drawn once, and each was noted with one row.
fn is_each_once(game: Game, count: u32) -> bool {
    let Game {
        mut drawn,
        closed,
        is_whole,
    } = game;
    drawn.sort().is_ok()
        && are_numbers_below(&drawn, count)
        && is_whole
        && closed.claimed == count
        && closed.total == u64::from(count)
}

// Tasks, seats, and how many of these are idle.
static GAMES: [(u32, u8, u8); 3] = [(1000, 4, 0), (0, 3, 0), (100, 16, 12)];

// Whether each task is drawn once in a game.
fn are_drawn_once<R: Threads + Sync>(
    rt: &R,
    alloc: Global,
    (tasks, seats, idle): (u32, u8, u8),
) -> bool {
    if idle > seats {
        return false;
    }
    match play(rt, alloc, tasks, seats, idle) {
        Ok(game) => is_each_once(game, tasks),
        Err(_) => false,
    }
}

// Four threads, no tasks, and idle seats.
#[test]
fn board_games(rt: HostRuntime) {
    for game in &GAMES {
        assert!(rt; are_drawn_once(&rt, rt.alloc(), *game), "{}", game.0);
    }
}

// Whether a seat draws this task, and hears this total where it notes so many rows of it.
fn draws(board: &Board, seat: &mut Seat, task: u32, rows: u32, total: u64) -> bool
    requires own { IsSeatOf board.now seat.old }
    requires rows { rows ≤ 50001 }
    ensures { IsSeatOf board.now seat.new }
{
    match board.claim(seat) {
        Some(drawn) => board.note(seat, rows) == total && drawn == task,
        None => false,
    }
}

// Whether a seat draws the two tasks of a board alone, and then nothing more.
fn draws_two_alone(board: &Board, seat: &mut Seat) -> bool
    requires { IsSeatOf board.now seat.old }
    ensures { IsSeatOf board.now seat.new }
{
    let two = draws(board, seat, 0, 50_001, 50_001) && draws(board, seat, 1, 1, 50_002);
    two && board.claim(seat).is_none() && board.claim(seat).is_none()
}

// Whether one seat draws the two tasks of a board.
fn is_drawn_by_one_seat(alloc: Global) -> bool {
    match Board::new(alloc, 2, 1) {
        Ok((board, mut seats)) => {
            let are_drawn = draws_two_alone(&board, &mut seats[0]);
            let closed = board.close(seats);
            are_drawn && closed.claimed == 2 && closed.total == 50_002
        }
        Err(_) => false,
    }
}

// Why there is no board of so many tasks and seats.
fn fault_of(alloc: Global, tasks: u32, seats: u8) -> Option<BoardFault> {
    Board::new(alloc, tasks, seats).err()
}

#[test]
fn board_refusals(rt: HostRuntime) {
    assert!(rt;
        matches!(
            fault_of(rt.alloc(), 4097, 0),
            Some(BoardFault::TooManyTasks)
        )
    );
    assert!(rt; matches!(fault_of(rt.alloc(), 4096, 0), Some(BoardFault::BadSeats)));
    assert!(rt; matches!(fault_of(rt.alloc(), 1, 17), Some(BoardFault::BadSeats)));
}

// Whether one seat can draw the first of three tasks and note nothing, while the other one draws the rest and notes its rows.
fn is_drawn_without_note(alloc: Global) -> bool {
    match Board::new(alloc, 3, 2) {
        Ok((board, mut seats)) => {
            let is_first = board.claim(&mut seats[1]) == Some(0);
            let are_drawn = draws(&board, &mut seats[0], 1, 7, 7)
                && draws(&board, &mut seats[0], 2, 5, 12);
            let closed = board.close(seats);
            is_first && are_drawn && closed.claimed == 3 && closed.total == 12
        }
        Err(_) => false,
    }
}

#[test]
fn board_seats(rt: HostRuntime) {
    assert!(rt; is_drawn_by_one_seat(rt.alloc()));
    assert!(rt; is_drawn_without_note(rt.alloc()));
}

// A board of one task, which the last of its seats draws.
fn board_answer(alloc: Global) -> CallAnswer {
    match Board::new(alloc, 1, 16) {
        Ok((board, mut seats)) => {
            let is_drawn = draws(&board, &mut seats[15], 0, 7, 7);
            let closed = board.close(seats);
            ample_answer(is_drawn && closed.claimed == 1 && closed.total == 7)
        }
        Err(BoardFault::Memory(_)) => CallAnswer::Memory,
        Err(_) => CallAnswer::Other,
    }
}

// Where a board was refused memory, the next call gives one.
#[test]
fn refused_growth_of_a_board(rt: HostRuntime) {
    let answers = [board_answer(rt.alloc()), board_answer(rt.alloc())];
    assert!(rt; are_right(&answers));
}
