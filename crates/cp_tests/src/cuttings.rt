//! Cuttings, pieces that are put together, and beginnings.

ghost use Rattle.std.specs.Prelude.{◌≡◌, ◌≤◌, map, IfSome};
ghost use Rattle.cp_run.specs.Slots.{slots};
ghost use Rattle.cp_run.specs.Table.{table};
ghost use Rattle.cp_walk.specs.Rows.{line_of};

use crate::programs::{TWO_CYCLES, TWO_DISPLAYS, limits_of, program_of};
use arrayvec::ArrayVec;
use cp_drops::drop_program;
use cp_explore::{
    Cutting, GatherFault, Job, Piece, Row, Rows, SplitFault, Table, beginnings, explore_one, gather,
};
use cp_machine::{Gates, Ticks};
use cp_run::{Outcome, OutcomeKind, Output};
use cp_slots::Resolved;
use std::alloc::{AllocError, Global};
use std::marker::Brand;
use std::sync::ledger::{Blank, Ledger};

/// A job's table; none where there is none.
fn table_of(alloc: Global, job: &Job<'_>) -> Option<Table>
    requires { job.now.limits.choices ≤ 20 }
    ensures { IfSome result (λ t. map line_of t.rows ≡ table (slots job.now.program.now job.now.limits.discipline) job.now.limits.choices job.now.limits.steps) }
{
    table_counted::<Brand>(alloc, job, Blank::new(1))
}

fn table_counted<L: Ledger>(alloc: Global, job: &Job<'_>, blank: Blank) -> Option<Table>
    requires name { blank.name ≡ L.name }
    requires parts { blank.parts ≡ L.parts }
    requires one { L.parts ≡ 1 }
    requires few { job.now.limits.choices ≤ 20 }
    ensures { IfSome result (λ t. map line_of t.rows ≡ table (slots job.now.program.now job.now.limits.discipline) job.now.limits.choices job.now.limits.steps) }
{
    let mut calls: Ticks<L> = Ticks::new(blank);
    match explore_one(alloc, *job, &mut calls) {
        Ok(table) => Some(table),
        Err(_) => None,
    }
}

/// The table of a source's program within this many choices; none where there is none.
fn table_at(alloc: Global, source: &str, choices: u8) -> Option<Table> {
    match program_of(alloc, source) {
        Some(program) => {
            let table = table_of(
                alloc,
                &Job {
                    program: &program,
                    limits: limits_of(choices, Gates::First),
                },
            );
            drop_program(program);
            table
        }
        None => None,
    }
}

/// Whether these are the members.
pub fn are_members(cutting: &Cutting, words: &[&[u8]]) -> bool {
    let members = cutting.members();
    let mut are_members = members.len() == words.len();
    for (member, word) in members.iter().zip(words) {
        are_members = are_members && member.as_slice() == *word;
    }
    are_members
}

/// The cutting of one empty word, within this many choices; none where memory was refused.
fn whole<'a>(alloc: Global, program: &'a Resolved, choices: u8) -> Option<Cutting<'a>> {
    let limits = limits_of(choices, Gates::First);
    Cutting::whole(alloc, Job { program, limits }).ok()
}

/// Whether a word that is complete can't be split, and stays the one member.
fn keeps_leaf(alloc: Global, program: &Resolved) -> bool {
    match whole(alloc, program, 0) {
        Some(mut leaf) => {
            let is_refused = leaf.members().is_empty()
                || matches!(leaf.split(alloc, 0), Err(SplitFault::Leaf));
            is_refused && are_members(&leaf, &[&[]])
        }
        None => false,
    }
}

/// Whether these are the members after the first is split.
fn splits_to(alloc: Global, cutting: &mut Cutting, words: &[&[u8]]) -> bool {
    let is_split = cutting.members().is_empty() || cutting.split(alloc, 0).is_ok();
    is_split && are_members(cutting, words)
}

/// Whether the first member is split into its choices, and again.
fn splits_twice(alloc: Global, program: &Resolved) -> bool {
    match whole(alloc, program, 5) {
        Some(mut cutting) => {
            splits_to(alloc, &mut cutting, &[&[0], &[1]])
                && splits_to(alloc, &mut cutting, &[&[0, 0], &[0, 1], &[0, 2], &[1]])
        }
        None => false,
    }
}

/// The members of depth 2 of `TWO_DISPLAYS`.
pub static MEMBERS: [&[u8]; 5] = [&[0, 0], &[0, 1], &[0, 2], &[1, 0], &[1, 1]];

/// Whether a cutting to depth 2 has these members.
fn has_members_of_two(alloc: Global, program: &Resolved) -> bool {
    match whole(alloc, program, 5) {
        Some(mut cutting) => {
            cutting.to_depth(alloc, 2).is_ok() && are_members(&cutting, &MEMBERS)
        }
        None => false,
    }
}

fn is_cut(alloc: Global, program: &Resolved) -> bool {
    keeps_leaf(alloc, program) && splits_twice(alloc, program) && has_members_of_two(alloc, program)
}

/// Whether `TWO_DISPLAYS` is cut so.
fn are_two_displays_cut(alloc: Global) -> bool {
    match program_of(alloc, TWO_DISPLAYS) {
        Some(program) => {
            let is_cut = is_cut(alloc, &program);
            drop_program(program);
            is_cut
        }
        None => false,
    }
}

#[test]
fn members(rt: HostRuntime) {
    assert!(rt; are_two_displays_cut(rt.alloc()));
}

/// How many rows begin with a word.
fn count_after(rows: &[Row], word: &[u8]) -> usize {
    let mut count = 0usize;
    for row in rows {
        if row.word.as_slice().starts_with(word) {
            count = count.saturating_add(1);
        }
    }
    count
}

/// How many rows begin with each of `MEMBERS`.
static ROW_COUNTS: [usize; 5] = [6, 12, 12, 12, 3];

fn has_rows_of_each_member(rows: &[Row]) -> bool {
    let mut has_rows = true;
    for (member, count) in MEMBERS.iter().zip(&ROW_COUNTS) {
        has_rows = has_rows && count_after(rows, member) == *count;
    }
    has_rows
}

/// A row with nothing displayed.
fn empty_row(alloc: Global) -> Row {
    Row {
        word: ArrayVec::new(),
        outcome: Outcome {
            kind: OutcomeKind::Finished,
            output: Output::new(Vec::new(alloc)),
        },
    }
}

/// A piece of this many rows with nothing displayed.
fn empty_piece(alloc: Global, task: u32, count: u32) -> Result<Piece, AllocError> {
    let mut rows = Vec::new(alloc);
    for _ in 0..count {
        rows.push(empty_row(alloc))?;
    }
    Ok(Piece {
        task,
        rows: Rows::new(rows),
    })
}

/// Pieces of these tasks with so many rows each.
fn pieces_of(alloc: Global, sizes: &[(u32, u32)]) -> Result<Vec<Piece>, AllocError> {
    let mut pieces = Vec::new(alloc);
    for (task, count) in sizes {
        pieces.push(empty_piece(alloc, *task, *count)?)?;
    }
    Ok(pieces)
}

/// What comes of pieces.
#[derive(Clone, Copy)]
enum PiecesAnswer {
    /// A table of so many rows.
    Rows(usize),
    TooManyRows,
    Double(u32),
    Stranger(u32),
    Missing(u32),
}

fn is_fault(fault: &GatherFault, wanted: PiecesAnswer) -> bool {
    match (fault, wanted) {
        (GatherFault::TooManyRows, PiecesAnswer::TooManyRows) => true,
        (GatherFault::Double(task), PiecesAnswer::Double(other)) => *task == other,
        (GatherFault::Stranger(task), PiecesAnswer::Stranger(other)) => *task == other,
        (GatherFault::Missing(task), PiecesAnswer::Missing(other)) => *task == other,
        _ => false,
    }
}

/// Whether this comes of pieces.
fn gathers_to(alloc: Global, tasks: u32, pieces: Vec<Piece>, wanted: PiecesAnswer) -> bool {
    match gather(alloc, tasks, pieces) {
        Ok(table) => match wanted {
            PiecesAnswer::Rows(count) => table.rows.as_slice().len() == count,
            _ => false,
        },
        Err(fault) => is_fault(&fault, wanted),
    }
}

/// How many tasks there are, pieces of some with so many rows each, and what comes of them.
struct GatherRow {
    tasks: u32,
    sizes: &'static [(u32, u32)],
    wanted: PiecesAnswer,
}

static GATHERINGS: [GatherRow; 5] = [
    GatherRow {
        tasks: 4,
        sizes: &[(3, 12_500), (0, 12_500), (2, 12_500), (1, 12_500)],
        wanted: PiecesAnswer::Rows(50_000),
    },
    GatherRow {
        tasks: 4,
        sizes: &[(3, 12_501), (0, 12_500), (2, 12_500), (1, 12_500)],
        wanted: PiecesAnswer::TooManyRows,
    },
    GatherRow {
        tasks: 2,
        sizes: &[(0, 0), (0, 0)],
        wanted: PiecesAnswer::Double(0),
    },
    GatherRow {
        tasks: 2,
        sizes: &[(2, 0)],
        wanted: PiecesAnswer::Stranger(2),
    },
    GatherRow {
        tasks: 2,
        sizes: &[(1, 0)],
        wanted: PiecesAnswer::Missing(0),
    },
];

fn is_gathered_so(alloc: Global, row: &GatherRow) -> bool {
    match pieces_of(alloc, row.sizes) {
        Ok(pieces) => gathers_to(alloc, row.tasks, pieces, row.wanted),
        Err(_) => false,
    }
}

#[test]
fn gatherings(rt: HostRuntime) {
    for (number, row) in GATHERINGS.iter().enumerate() {
        assert!(rt; is_gathered_so(rt.alloc(), row), "{number}");
    }
}

/// A row like this one.
fn copy_of(alloc: Global, row: &Row) -> Result<Row, AllocError> {
    let mut word = ArrayVec::new();
    for number in row.word.as_slice() {
        let _ = word.try_push(*number);
    }
    Ok(Row {
        word,
        outcome: Outcome {
            kind: row.outcome.kind,
            output: Output::new(Vec::from_slice(alloc, row.outcome.output.as_slice())?),
        },
    })
}

/// The rows of a table that begin with a member, as a piece; no rows where there is no such member.
fn piece_of(alloc: Global, table: &Table, task: u32) -> Result<Piece, AllocError> {
    let mut rows = Vec::new(alloc);
    if let Some(member) = MEMBERS.get(task as usize) {
        for row in table.rows.as_slice() {
            if row.word.as_slice().starts_with(member) {
                rows.push(copy_of(alloc, row)?)?;
            }
        }
    }
    Ok(Piece {
        task,
        rows: Rows::new(rows),
    })
}

/// The pieces of these tasks, cut from a table.
pub fn cut_pieces(alloc: Global, table: &Table, tasks: &[u32]) -> Result<Vec<Piece>, AllocError> {
    let mut pieces = Vec::new(alloc);
    for task in tasks {
        pieces.push(piece_of(alloc, table, *task)?)?;
    }
    Ok(pieces)
}

/// Whether these rows are the same.
pub fn are_same(rows: &[Row], others: &[Row]) -> bool {
    let mut are_same = rows.len() == others.len();
    for (row, other) in rows.iter().zip(others) {
        are_same = are_same && is_same(row, other);
    }
    are_same
}

fn is_same(row: &Row, other: &Row) -> bool {
    row.word.as_slice() == other.word.as_slice()
        && row.outcome.kind == other.outcome.kind
        && row.outcome.output.as_slice() == other.outcome.output.as_slice()
}

/// The five digits of a number below 3125, to the base 5.
fn digits_of(code: u32) -> [u32; 5] {
    [
        code % 5,
        code / 5 % 5,
        code / 25 % 5,
        code / 125 % 5,
        code / 625 % 5,
    ]
}

fn is_order(digits: [u32; 5]) -> bool {
    let mut is_order = true;
    for task in 0..5u32 {
        is_order = is_order && digits.contains(&task);
    }
    is_order
}

/// Whether the pieces of a table in this order are put together to it.
fn is_gathered(alloc: Global, table: &Table, order: &[u32]) -> bool {
    match cut_pieces(alloc, table, order) {
        Ok(pieces) => match gather(alloc, 5, pieces) {
            Ok(gathered) => are_same(gathered.rows.as_slice(), table.rows.as_slice()),
            Err(_) => false,
        },
        Err(_) => false,
    }
}

/// Whether the pieces of a table are put together to it in each of the 120 orders of the five tasks.
fn is_gathered_in_each_order(alloc: Global, table: &Table) -> bool {
    let mut orders = 0u32;
    let mut is_gathered_each = true;
    for code in 0u32..3125 {
        let digits = digits_of(code);
        if is_order(digits) {
            orders = orders.saturating_add(1);
            is_gathered_each = is_gathered_each && is_gathered(alloc, table, &digits);
        }
    }
    is_gathered_each && orders == 120
}

/// Whether this comes of the pieces of these tasks, cut from a table.
fn cuts_to(alloc: Global, table: &Table, tasks: &[u32], wanted: PiecesAnswer) -> bool {
    match cut_pieces(alloc, table, tasks) {
        Ok(pieces) => gathers_to(alloc, 5, pieces, wanted),
        Err(_) => false,
    }
}

/// The five tasks but one.
fn less(wrong: u32) -> ArrayVec<u32, 5> {
    let mut tasks = ArrayVec::new();
    for task in 0u32..5 {
        if task != wrong {
            let _ = tasks.try_push(task);
        }
    }
    tasks
}

/// Whether the pieces of a cutting are refused with one too many or one too few.
fn refuses_wrong_pieces(alloc: Global, table: &Table) -> bool {
    let mut refuses = cuts_to(alloc, table, &[0, 1, 2, 3, 4, 5], PiecesAnswer::Stranger(5));
    for wrong in 0u32..5 {
        let twice = [0, 1, 2, 3, 4, wrong];
        refuses = refuses
            && cuts_to(alloc, table, &twice, PiecesAnswer::Double(wrong))
            && cuts_to(
                alloc,
                table,
                less(wrong).as_slice(),
                PiecesAnswer::Missing(wrong),
            );
    }
    refuses
}

/// What is asked of the table of `TWO_DISPLAYS`.
#[derive(Clone, Copy)]
enum TableTrial {
    /// So many rows of each member.
    Rows,
    /// The same table from its pieces in each order.
    Orders,
    /// A fault for wrong pieces.
    Faults,
}

static TRIALS: [(TableTrial, &str); 3] = [
    (TableTrial::Rows, "rows"),
    (TableTrial::Orders, "orders"),
    (TableTrial::Faults, "faults"),
];

fn passes(alloc: Global, trial: TableTrial) -> bool {
    match table_at(alloc, TWO_DISPLAYS, 5) {
        Some(table) => match trial {
            TableTrial::Rows => has_rows_of_each_member(table.rows.as_slice()),
            TableTrial::Orders => is_gathered_in_each_order(alloc, &table),
            TableTrial::Faults => refuses_wrong_pieces(alloc, &table),
        },
        None => false,
    }
}

#[test]
fn table_of_two_displays(rt: HostRuntime) {
    for (trial, name) in &TRIALS {
        assert!(rt; passes(rt.alloc(), *trial), "{name}");
    }
}

/// How many words begin those of a job's table; none where there is no table.
fn beginnings_of(alloc: Global, job: &Job<'_>) -> Option<u64>
    requires { job.now.limits.choices ≤ 20 }
{
    match table_of(alloc, job) {
        Some(table) => Some(beginnings(&table)),
        None => None,
    }
}

fn beginnings_at(alloc: Global, source: &str, choices: u8) -> Option<u64> {
    match program_of(alloc, source) {
        Some(program) => {
            let count = beginnings_of(
                alloc,
                &Job {
                    program: &program,
                    limits: limits_of(choices, Gates::First),
                },
            );
            drop_program(program);
            count
        }
        None => None,
    }
}

/// A source, the choices of its table, and how many words begin those of its rows.
static COUNTS: [(&str, u8, u64); 3] = [
    (TWO_DISPLAYS, 5, 82),
    (TWO_CYCLES, 2, 7),
    (TWO_DISPLAYS, 0, 1),
];

#[test]
fn beginnings_counts(rt: HostRuntime) {
    for (source, choices, count) in &COUNTS {
        assert!(rt; beginnings_at(rt.alloc(), source, *choices) == Some(*count));
    }
}
