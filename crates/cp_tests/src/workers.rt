//! Workers on threads: they run at once, no task is kept for one of them, and the report is that of one thread.
ghost use Rattle.std.specs.Prelude.{◌<◌, ◌≤◌};

use crate::programs::{TWO_DISPLAYS, limits_of, program_of};
use cp_drops::drop_program;
use cp_explore::{Cutting, Gate, Job, NoGate, Table, explore, report};
use cp_machine::Gates;
use cp_slots::Resolved;
use std::alloc::Global;
use std::sync::atomic::{AtomicBool, AtomicU64, Ordering};
use std::thread;
use std::thread::Threads;

/// The report of `TWO_DISPLAYS` with five choices.
pub static REPORT: &str =
    "schedules 45\noutcomes 2\n30 first 0.0.1.1 finished output 1 2\n15 first 0.0.2.1.1 finished output 2 1\n";

/// How many threads draw words, and of how many choices.
#[derive(Clone, Copy)]
struct Drawing {
    workers: u8,
    depth: u8,
}

/// Whether workers give the report of `TWO_DISPLAYS`.
fn is_reported<X: Threads + Sync, G: Gate + Sync>(
    rt: &X,
    alloc: Global,
    drawing: Drawing,
    gate: &G,
) -> bool
    requires { (0 < drawing.workers) × (drawing.workers ≤ 16) }
{
    match program_of(alloc, TWO_DISPLAYS) {
        Some(program) => {
            let is_reported = is_cut_and_reported(rt, alloc, &program, drawing, gate);
            drop_program(program);
            is_reported
        }
        None => false,
    }
}

fn is_cut_and_reported<X: Threads + Sync, G: Gate + Sync>(
    rt: &X,
    alloc: Global,
    program: &Resolved,
    drawing: Drawing,
    gate: &G,
) -> bool
    requires { (0 < drawing.workers) × (drawing.workers ≤ 16) }
{
    let limits = limits_of(5, Gates::First);
    match Cutting::whole(alloc, Job { program, limits }) {
        Ok(mut cutting) => {
            cutting.to_depth(alloc, drawing.depth).is_ok()
                && is_explored(rt, alloc, &cutting, drawing.workers, gate)
        }
        Err(_) => false,
    }
}

/// Whether workers explore a cutting to the report of `TWO_DISPLAYS`.
fn is_explored<X: Threads + Sync, G: Gate + Sync>(
    rt: &X,
    alloc: Global,
    cutting: &Cutting,
    workers: u8,
    gate: &G,
) -> bool
    requires { (0 < workers) × (workers ≤ 16) }
{
    match explore(rt, alloc, cutting, workers, gate) {
        Ok(table) => has_report(alloc, cutting.job.program, &table),
        Err(_) => false,
    }
}

fn has_report(alloc: Global, program: &Resolved, table: &Table) -> bool {
    match report(alloc, program, table, false) {
        Ok(told) => told.text.as_str() == REPORT,
        Err(_) => false,
    }
}

/// The first to pass waits until a second passes. That one comes from another thread.
#[derive(Drop)]
struct Pair {
    passed: AtomicU64,
    is_seen: AtomicBool,
}

impl Gate for Pair {
    fn pass(&self, _task: u32) {
        if self.passed.fetch_add(1, Ordering::SeqCst) > 0 {
            return;
        }
        for _ in 0..10_000_000 {
            if self.passed.load(Ordering::SeqCst) > 1 {
                self.is_seen.store(true, Ordering::SeqCst);
                return;
            }
            thread::yield_now();
        }
    }
}

#[test]
fn two_workers_meet(rt: HostRuntime) {
    let gate = Pair {
        passed: AtomicU64::new(0),
        is_seen: AtomicBool::new(false),
    };
    let drawing = Drawing {
        workers: 2,
        depth: 1,
    };
    assert!(rt; is_reported(&rt, rt.alloc(), drawing, &gate));
    assert!(rt; gate.is_seen.load(Ordering::SeqCst));
}

/// Each pass waits until all five tasks have passed.
#[derive(Drop)]
struct Together {
    passed: AtomicU64,
    late: AtomicU64,
}

impl Gate for Together {
    fn pass(&self, _task: u32) {
        self.passed.fetch_add(1, Ordering::SeqCst);
        for _ in 0..10_000_000 {
            if self.passed.load(Ordering::SeqCst) >= 5 {
                return;
            }
            thread::yield_now();
        }
        self.late.fetch_add(1, Ordering::SeqCst);
    }
}

#[test]
fn five_workers_meet(rt: HostRuntime) {
    let gate = Together {
        passed: AtomicU64::new(0),
        late: AtomicU64::new(0),
    };
    let drawing = Drawing {
        workers: 5,
        depth: 2,
    };
    assert!(rt; is_reported(&rt, rt.alloc(), drawing, &gate));
    assert!(rt; gate.late.load(Ordering::SeqCst) == 0);
}

/// One task waits until the four others have passed.
#[derive(Drop)]
struct LastTask {
    task: u32,
    passed: AtomicU64,
    late: AtomicU64,
}

impl Gate for LastTask {
    fn pass(&self, task: u32) {
        if task != self.task {
            self.passed.fetch_add(1, Ordering::SeqCst);
            return;
        }
        for _ in 0..10_000_000 {
            if self.passed.load(Ordering::SeqCst) >= 4 {
                return;
            }
            thread::yield_now();
        }
        self.late.fetch_add(1, Ordering::SeqCst);
    }
}

/// Whether two workers give the report while one task waits.
fn is_reported_beside<X: Threads + Sync>(rt: &X, alloc: Global, task: u32) -> bool {
    let gate = LastTask {
        task,
        passed: AtomicU64::new(0),
        late: AtomicU64::new(0),
    };
    let drawing = Drawing {
        workers: 2,
        depth: 2,
    };
    is_reported(rt, alloc, drawing, &gate) && gate.late.load(Ordering::SeqCst) == 0
}

#[test]
fn one_task_waits(rt: HostRuntime) {
    for task in 0..5 {
        assert!(rt; is_reported_beside(&rt, rt.alloc(), task), "{task}");
    }
}

#[test]
fn any_workers_and_any_cutting(rt: HostRuntime) {
    for workers in [1, 2, 16] {
        for depth in 0..6 {
            let drawing = Drawing { workers, depth };
            assert!(rt; is_reported(&rt, rt.alloc(), drawing, &NoGate));
        }
    }
}
