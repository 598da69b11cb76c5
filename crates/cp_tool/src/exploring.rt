//! From a program to its schedules: one is traced, or all are reported.

ghost use Rattle.std.specs.Prelude.{◌≡◌, ◌<◌, ◌≤◌, false, length, map, max, min, IfOk, IfErr};
ghost use Rattle.cp_run.specs.Slots.{slots};
ghost use Rattle.cp_run.specs.Table.{table};
ghost use Rattle.cp_walk.specs.Rows.{line_of, IsTooMany};
ghost use Rattle.cp_tool.specs.Analysis.{is_merged};
ghost use Rattle.cp_tool.specs.Answered as spec;
ghost use Rattle.cp_tool.specs.Merged as merging;
ghost use Rattle.cp_tool.specs.OnSlots as on_slots;

use crate::answer::{Answer, Verdict};
use crate::dealing::deal;
use crate::options::Options;
use cp_explore::{
    Cutting, ExploreFault, Job, MergeFault, NoGate, Table, Text, explore_merged, explore_observed,
    merged_report, report, trace_report,
};
use cp_machine::Uncounted;
use cp_progress::ObserveProgress;
use cp_run::trace;
use cp_slots::Resolved;
use std::alloc::{AllocError, Global};
use std::thread::Threads;

/// The trace of the schedule that the options name, or the report of all schedules.
pub fn explore_program<X: Threads + Sync, O: ObserveProgress>(
    rt: &X,
    alloc: Global,
    options: &Options,
    observer: &mut O,
    program: &Resolved,
) -> Result<Answer, AllocError>
    ensures { IfOk result (λ a. on_slots.IsExploredOn options.now program.now a.verdict a.text) }
{
    match &options.schedule {
        Some(word) => trace_schedule(alloc, options, program, word.as_slice()),
        None => {
            if options.analysis.is_merged() {
                report_merged(alloc, options, observer, program)
            } else {
                report_table(rt, alloc, options, observer, program)
            }
        }
    }
}

fn trace_schedule(
    alloc: Global,
    options: &Options,
    program: &Resolved,
    word: &[u8],
) -> Result<Answer, AllocError>
    ensures { IfOk result (λ a. spec.IsTraced options.now (on_slots.machine options.now program.now) program.now.names word.now a.verdict a.text) }
{
    let limits = options.limits();
    let (lines, end) = trace(alloc, &Job { program, limits }, word, &mut Uncounted)?;
    let report = trace_report(alloc, program, &lines, &end, word)?;
    Ok(Answer {
        verdict: Verdict::Reported,
        text: report.text,
    })
}

/// The report of a program's table by its outcomes alone, or what there are too many of.
fn report_merged<O: ObserveProgress>(
    alloc: Global,
    options: &Options,
    observer: &mut O,
    program: &Resolved,
) -> Result<Answer, AllocError>
    ensures { IfOk result (λ a. merging.IsMerged options.now (on_slots.machine options.now program.now) program.now.names (on_slots.machine_rows options.now program.now) a.verdict a.text) }
{
    let limits = options.limits();
    let job = Job { program, limits };
    match explore_merged(alloc, job, options.states as usize, observer) {
        Ok(tallies) => Ok(Answer {
            verdict: Verdict::Reported,
            text: merged_report(alloc, program, &tallies)?.text,
        }),
        Err(MergeFault::TooManyStates) => Ok(Answer {
            verdict: Verdict::TooManyStates,
            text: Text::new("too many states\n".to_string(alloc)?),
        }),
        Err(MergeFault::TooManyOutcomes) => Ok(Answer {
            verdict: Verdict::TooManyOutcomes,
            text: Text::new("too many outcomes\n".to_string(alloc)?),
        }),
        Err(MergeFault::Memory) => Err(AllocError),
    }
}

/// The report of a program's table, or that it has too many rows.
fn report_table<X: Threads + Sync, O: ObserveProgress>(
    rt: &X,
    alloc: Global,
    options: &Options,
    observer: &mut O,
    program: &Resolved,
) -> Result<Answer, AllocError>
    requires { is_merged options.now.analysis ≡ false }
    ensures { IfOk result (λ a. spec.IsReported options.now program.now.names (on_slots.machine_rows options.now program.now) a.verdict a.text) }
{
    let limits = options.limits();
    match tabulate(rt, alloc, options, observer, &Job { program, limits }) {
        Ok(table) => Ok(Answer {
            verdict: Verdict::Reported,
            text: report(alloc, program, &table, options.analysis.lists_rows())?.text,
        }),
        Err(ExploreFault::TooManyRows) => Ok(Answer {
            verdict: Verdict::TooManyRows,
            text: Text::new("too many rows\n".to_string(alloc)?),
        }),
        Err(ExploreFault::Memory) => Err(AllocError),
    }
}

/// The table of a program. The threads draw the members of a cutting.
fn tabulate<X: Threads + Sync, O: ObserveProgress>(
    rt: &X,
    alloc: Global,
    options: &Options,
    observer: &mut O,
    job: &Job<'_>,
) -> Result<Table, ExploreFault>
    requires { job.now.limits.choices ≤ 20 }
    ensures table { IfOk result (λ t. map line_of t.rows ≡ table (slots job.now.program.now job.now.limits.discipline) job.now.limits.choices job.now.limits.steps) }
    ensures few { IfOk result (λ t. length t.rows ≤ 50000) }
    ensures many { IfErr result (λ e. IsTooMany e → 50000 < length (table (slots job.now.program.now job.now.limits.discipline) job.now.limits.choices job.now.limits.steps)) }
{
    let Ok(mut cutting) = Cutting::whole(
        alloc,
        Job {
            program: job.program,
            limits: job.limits,
        },
    ) else {
        return Err(ExploreFault::Memory);
    };
    let Ok(()) = deal(alloc, &mut cutting, options, observer) else {
        return Err(ExploreFault::Memory);
    };
    let workers = workers_needed(options.workers, cutting.members().len());
    explore_observed(rt, alloc, &cutting, workers, &NoGate, observer)
}

/// No more workers than there are members to draw: starting a thread costs more than a small exploration.
fn workers_needed(workers: u8, members: usize) -> u8
    requires { 0 < workers }
    ensures { result ≡ min workers (max 1 members) }
{
    if members == 0 {
        1
    } else if members < workers as usize {
        members as u8
    } else {
        workers
    }
}
