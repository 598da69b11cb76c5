//! What a call answers where memory is refused, and what stands after it: the call that comes next answers as with ample memory.
//! `tools/check-memory` refuses each growth of memory of these tests in turn. With ample memory none is refused.

ghost use Rattle.std.specs.Prelude.{◌≡◌, ◌≤◌};

use crate::answers::{CallAnswer, ample_answer, are_right, memory_answer};
use crate::checks::{BROKEN, BrokenCheck, ONE_OR_BOTH};
use crate::cuttings::{MEMBERS, are_members, are_same, cut_pieces};
use crate::programs::{
    BUFFER, TWO_DISPLAYS, WantedEnd, fault_of, has_ended, limits_of, program_of, tree_of,
};
use crate::steps::{LAST_STEPS, step_alone};
use crate::traces::is_first_trace;
use crate::workers::REPORT;
use cp_check::check;
use cp_drops::drop_program;
use cp_explore::{
    Cutting, ExploreFault, GatherFault, Job, NoGate, SplitFault, Table, explore, explore_one,
    gather, report,
};
use cp_machine::{Gates, Shown, Ticks};
use cp_run::{OutcomeKind, RunEnd, run, trace};
use cp_scope::CheckFault;
use cp_slots::Resolved;
use cp_tree::Tree;
use std::alloc::Global;
use std::marker::Brand;
use std::sync::ledger::{Blank, Ledger};
use std::thread::Threads;

/// The tree of a source. It is made again where memory was refused.
fn tree_at_last(alloc: Global, source: &str) -> Option<Tree> {
    match tree_of(alloc, source) {
        Some(tree) => Some(tree),
        None => tree_of(alloc, source),
    }
}

/// The program of a source. It is made again where memory was refused.
fn program_at_last(alloc: Global, source: &str) -> Option<Resolved> {
    match program_of(alloc, source) {
        Some(program) => Some(program),
        None => program_of(alloc, source),
    }
}

/// A table as a report of `TWO_DISPLAYS`.
fn report_answer(alloc: Global, program: &Resolved, table: &Table) -> CallAnswer {
    match report(alloc, program, table, false) {
        Ok(told) => ample_answer(told.text.as_str() == REPORT),
        Err(_) => CallAnswer::Memory,
    }
}

/// The table by one walk.
fn walk_answer<L: Ledger>(alloc: Global, job: Job, calls: &mut Ticks<L>) -> CallAnswer
    requires { job.limits.choices ≤ 20 }
{
    match explore_one(alloc, job, calls) {
        Ok(table) => report_answer(alloc, job.program, &table),
        Err(ExploreFault::Memory) => CallAnswer::Memory,
        Err(ExploreFault::TooManyRows) => CallAnswer::Other,
    }
}

fn answers_to_two_walks<L: Ledger>(alloc: Global, job: Job, blank: Blank) -> [CallAnswer; 2]
    requires name { blank.name ≡ L.name }
    requires parts { blank.parts ≡ L.parts }
    requires one { L.parts ≡ 1 }
    requires few { job.limits.choices ≤ 20 }
{
    let mut calls: Ticks<L> = Ticks::new(blank);
    [
        walk_answer(alloc, job, &mut calls),
        walk_answer(alloc, job, &mut calls),
    ]
}

/// The pieces of a table, put together.
fn gather_answer(alloc: Global, table: &Table) -> CallAnswer {
    let Ok(pieces) = cut_pieces(alloc, table, &[3, 0, 4, 2, 1]) else {
        return CallAnswer::Memory;
    };
    match gather(alloc, 5, pieces) {
        Ok(all) => ample_answer(are_same(all.rows.as_slice(), table.rows.as_slice())),
        Err(GatherFault::Memory) => CallAnswer::Memory,
        Err(_) => CallAnswer::Other,
    }
}

fn answers_to_two_gatherings<L: Ledger>(alloc: Global, job: Job, blank: Blank) -> [CallAnswer; 2]
    requires name { blank.name ≡ L.name }
    requires parts { blank.parts ≡ L.parts }
    requires one { L.parts ≡ 1 }
    requires few { job.limits.choices ≤ 20 }
{
    let mut calls: Ticks<L> = Ticks::new(blank);
    for _ in 0..2u8 {
        if let Ok(table) = explore_one(alloc, job, &mut calls) {
            return [gather_answer(alloc, &table), gather_answer(alloc, &table)];
        }
    }
    [CallAnswer::Other, CallAnswer::Other]
}

static WORD: [u8; 5] = [0, 0, 2, 2, 1];

static END: WantedEnd = WantedEnd::Ended(OutcomeKind::Finished, &[Shown::Integer(7)]);

fn is_end(end: &RunEnd) -> bool {
    has_ended(end, 5, &END)
}

/// The end of a run of the buffer.
fn run_answer<L: Ledger>(
    alloc: Global,
    job: &Job<'_>,
    word: &[u8],
    ticks: &mut Ticks<L>,
) -> CallAnswer {
    if word.len() > 20 {
        return CallAnswer::Other;
    }
    match run(alloc, job, word, ticks) {
        Ok(end) => ample_answer(is_end(&end)),
        Err(_) => CallAnswer::Memory,
    }
}

/// The trace of that run.
fn trace_answer<L: Ledger>(
    alloc: Global,
    job: &Job<'_>,
    word: &[u8],
    ticks: &mut Ticks<L>,
) -> CallAnswer {
    if word.len() > 20 {
        return CallAnswer::Other;
    }
    match trace(alloc, job, word, ticks) {
        Ok((lines, end)) => ample_answer(is_first_trace(&lines) && is_end(&end)),
        Err(_) => CallAnswer::Memory,
    }
}

fn answers_to_runs_and_traces<L: Ledger>(
    alloc: Global,
    job: &Job<'_>,
    blank: Blank,
) -> [CallAnswer; 4]
    requires name { blank.name ≡ L.name }
    requires parts { blank.parts ≡ L.parts }
    requires one { L.parts ≡ 1 }
{
    let mut ticks: Ticks<L> = Ticks::new(blank);
    [
        run_answer(alloc, job, &WORD, &mut ticks),
        trace_answer(alloc, job, &WORD, &mut ticks),
        run_answer(alloc, job, &WORD, &mut ticks),
        trace_answer(alloc, job, &WORD, &mut ticks),
    ]
}

/// Whether the answers are right that concern runs and traces.
fn runs_and_traces_well(alloc: Global) -> bool {
    match program_at_last(alloc, BUFFER) {
        Some(program) => {
            let limits = limits_of(8, Gates::First);
            let answers = answers_to_runs_and_traces::<Brand>(
                alloc,
                &Job {
                    program: &program,
                    limits,
                },
                Blank::new(1),
            );
            drop_program(program);
            are_right(&answers)
        }
        None => false,
    }
}

#[test]
fn refused_growth_of_a_run_and_its_trace(rt: HostRuntime) {
    assert!(rt; runs_and_traces_well(rt.alloc()));
}

/// The cutting of one empty word. It is made again where memory was refused.
fn whole_at_last<'a>(alloc: Global, job: Job<'a>) -> Option<Cutting<'a>>
    requires { job.limits.choices ≤ 20 }
{
    match Cutting::whole(alloc, job) {
        Ok(cutting) => Some(cutting),
        Err(_) => Cutting::whole(alloc, job).ok(),
    }
}

/// The first member is split. Where memory is refused, the members are as before.
fn split_first(
    alloc: Global,
    cutting: &mut Cutting,
    before: &[&[u8]],
    after: &[&[u8]],
) -> CallAnswer {
    if cutting.members().is_empty() {
        return CallAnswer::Other;
    }
    match cutting.split(alloc, 0) {
        Ok(()) => ample_answer(are_members(cutting, after)),
        Err(SplitFault::Memory) => memory_answer(are_members(cutting, before)),
        Err(_) => CallAnswer::Other,
    }
}

/// The first member is split, and split again where memory was refused.
fn split_at_last(
    alloc: Global,
    cutting: &mut Cutting,
    before: &[&[u8]],
    after: &[&[u8]],
) -> CallAnswer {
    match split_first(alloc, cutting, before, after) {
        CallAnswer::Memory => match split_first(alloc, cutting, before, after) {
            CallAnswer::Ample => CallAnswer::Memory,
            _ => CallAnswer::Other,
        },
        other => other,
    }
}

fn answers_to_two_splits(alloc: Global, cutting: &mut Cutting) -> [CallAnswer; 2] {
    let two: [&[u8]; 2] = [&[0], &[1]];
    let four: [&[u8]; 4] = [&[0, 0], &[0, 1], &[0, 2], &[1]];
    [
        split_at_last(alloc, cutting, &[&[]], &two),
        split_at_last(alloc, cutting, &two, &four),
    ]
}

/// A cutting's members are split to a depth.
fn depth_answer(alloc: Global, cutting: &mut Cutting) -> CallAnswer {
    match cutting.to_depth(alloc, 2) {
        Ok(()) => ample_answer(are_members(cutting, &MEMBERS)),
        Err(_) => CallAnswer::Memory,
    }
}

/// The table of a cutting, by two workers.
fn answer_of_two_workers<X: Threads + Sync>(
    rt: &X,
    alloc: Global,
    cutting: &Cutting,
) -> CallAnswer {
    match explore(rt, alloc, cutting, 2, &NoGate) {
        Ok(table) => report_answer(alloc, cutting.job.program, &table),
        Err(ExploreFault::Memory) => CallAnswer::Memory,
        Err(ExploreFault::TooManyRows) => CallAnswer::Other,
    }
}

fn answers_to_a_cutting<X: Threads + Sync>(
    rt: &X,
    alloc: Global,
    cutting: &mut Cutting,
) -> [CallAnswer; 4] {
    [
        depth_answer(alloc, cutting),
        answer_of_two_workers(rt, alloc, cutting),
        depth_answer(alloc, cutting),
        answer_of_two_workers(rt, alloc, cutting),
    ]
}

/// What is asked of a job twice.
#[derive(Clone, Copy)]
enum Trial {
    Walk,
    Gathering,
    Split,
    Cutting,
}

fn answers_well<X: Threads + Sync>(rt: &X, alloc: Global, job: Job, trial: Trial) -> bool
    requires { job.limits.choices ≤ 20 }
{
    match trial {
        Trial::Walk => are_right(&answers_to_two_walks::<Brand>(alloc, job, Blank::new(1))),
        Trial::Gathering => {
            are_right(&answers_to_two_gatherings::<Brand>(alloc, job, Blank::new(1)))
        }
        Trial::Split => match whole_at_last(alloc, job) {
            Some(mut cutting) => are_right(&answers_to_two_splits(alloc, &mut cutting)),
            None => false,
        },
        Trial::Cutting => match whole_at_last(alloc, job) {
            Some(mut cutting) => are_right(&answers_to_a_cutting(rt, alloc, &mut cutting)),
            None => false,
        },
    }
}

/// Whether the answers are right that concern `TWO_DISPLAYS`.
fn is_right<X: Threads + Sync>(rt: &X, alloc: Global, trial: Trial) -> bool {
    match program_at_last(alloc, TWO_DISPLAYS) {
        Some(program) => {
            let job = Job {
                program: &program,
                limits: limits_of(5, Gates::First),
            };
            let answers_well = answers_well(rt, alloc, job, trial);
            drop_program(program);
            answers_well
        }
        None => false,
    }
}

#[test]
fn refused_growth_of_a_walk(rt: HostRuntime) {
    assert!(rt; is_right(&rt, rt.alloc(), Trial::Walk));
}

#[test]
fn refused_growth_of_gathering(rt: HostRuntime) {
    assert!(rt; is_right(&rt, rt.alloc(), Trial::Gathering));
}

#[test]
fn refused_growth_of_a_split(rt: HostRuntime) {
    assert!(rt; is_right(&rt, rt.alloc(), Trial::Split));
}

/// Where a depth was not reached for want of memory, the cutting is explored all the same.
#[test]
fn refused_growth_of_a_cutting(rt: HostRuntime) {
    assert!(rt; is_right(&rt, rt.alloc(), Trial::Cutting));
}

/// A tree is checked. Where memory is refused, it comes back, and is checked again.
fn check_answer(alloc: Global, tree: Tree, wanted: Option<CheckFault>) -> CallAnswer {
    match check(alloc, tree) {
        Err((CheckFault::Memory, back)) => memory_answer(fault_of(check(alloc, back)) == wanted),
        other => ample_answer(fault_of(other) == wanted),
    }
}

/// The answer to a source whose tree is checked.
fn source_answer(alloc: Global, source: &str, wanted: Option<CheckFault>) -> CallAnswer {
    match tree_at_last(alloc, source) {
        Some(tree) => check_answer(alloc, tree, wanted),
        None => CallAnswer::Other,
    }
}

/// The answer to a program that breaks a rule.
fn broken_answer(alloc: Global, broken: &BrokenCheck) -> CallAnswer {
    let fault = CheckFault::Rule {
        at: broken.at,
        rule: broken.rule,
    };
    source_answer(alloc, broken.source, Some(fault))
}

/// Where both rules are broken, want of memory does not turn the answer into the other one.
#[test]
fn refused_growth_of_a_check(rt: HostRuntime) {
    let answers = [
        source_answer(rt.alloc(), BUFFER, None),
        broken_answer(rt.alloc(), &BROKEN[0]),
        broken_answer(rt.alloc(), &ONE_OR_BOTH[0]),
        broken_answer(rt.alloc(), &ONE_OR_BOTH[1]),
        broken_answer(rt.alloc(), &ONE_OR_BOTH[2]),
        broken_answer(rt.alloc(), &ONE_OR_BOTH[3]),
    ];
    assert!(rt; are_right(&answers));
}

/// A process goes its steps, though the copy of its state before one of them is refused.
fn answer_beside_copies(alloc: Global, job: &Job<'_>) -> CallAnswer {
    match step_alone::<Brand>(alloc, job, Blank::new(1)) {
        Ok(alone) => {
            let is_told = LAST_STEPS.tells_of(&alone);
            match alone.refused_copies() {
                0 => ample_answer(is_told),
                1 => memory_answer(is_told),
                _ => CallAnswer::Other,
            }
        }
        Err(_) => CallAnswer::Memory,
    }
}

/// Whether the answers are right beside copies.
fn copies_well(alloc: Global) -> bool {
    match program_at_last(alloc, LAST_STEPS.source) {
        Some(program) => {
            let limits = limits_of(8, Gates::First);
            let answers = [
                answer_beside_copies(
                    alloc,
                    &Job {
                        program: &program,
                        limits,
                    },
                ),
                answer_beside_copies(
                    alloc,
                    &Job {
                        program: &program,
                        limits,
                    },
                ),
            ];
            drop_program(program);
            are_right(&answers)
        }
        None => false,
    }
}

#[test]
fn refused_growth_of_a_copy(rt: HostRuntime) {
    assert!(rt; copies_well(rt.alloc()));
}
