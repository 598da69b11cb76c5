//! From a program to the ends that are possible in schedules of any length.

ghost use Rattle.std.specs.Prelude.{◌≡◌, ℕ, Option, IfOk};
ghost use Rattle.cp_ends.specs.Told.{IsDepth};
ghost use Rattle.cp_ends.specs.Whole.{IsAnswer};
ghost use Rattle.cp_tool.specs.Ends as spec;
ghost use Rattle.cp_tool.specs.Analysis.{tells_waits};
ghost use Rattle.cp_tool.specs.AtOnce.{IsAtOnceReport, verdict_at_once};
ghost use Rattle.cp_tool.specs.OfTables.{OfPrograms};
ghost use Rattle.cp_tool.specs.Waits.{verdict_on};
ghost use Rattle.cp_tool.specs.declared.options.Options.{Options};
ghost use Rattle.cp_waits.specs.Named.{TellAsked};

use crate::answer::{Answer, Verdict};
use crate::options::Options;
use cp_at_once::{FoundAtOnce, at_once_report, search_at_once_with};
use cp_ends::ends_report;
use cp_progress::ObserveProgress;
use cp_run::Job;
use cp_slots::Resolved;
use cp_waits::{FoundWaits, Waits, find_waits, waits_report};
use std::alloc::{AllocError, Global};

/// What is answered to a program. An observer is told how far the searches have come.
pub fn find_ends<O: ObserveProgress>(
    alloc: Global,
    options: &Options,
    observer: &mut O,
    program: &Resolved,
) -> Result<Answer, AllocError>
    ensures { IfOk result (λ a. OfPrograms program.now (λ t. spec.AreEndsBy options.now t program.now a.verdict a.text)) }
{
    let limits = options.limits();
    if options.analysis.is_at_once() {
        at_once_answer(alloc, options, observer, &Job { program, limits })
    } else {
        ends_answer(alloc, options, observer, &Job { program, limits })
    }
}

// By a search that expands each state.
fn ends_answer<O: ObserveProgress>(
    alloc: Global,
    options: &Options,
    observer: &mut O,
    job: &Job<'_>,
) -> Result<Answer, AllocError>
    requires steps { job.now.limits.steps ≡ options.now.steps }
    requires discipline { job.now.limits.discipline ≡ options.now.discipline }
    ensures { IfOk result (λ a. OfPrograms job.now.program.now (λ t. spec.AreTold options.now t job.now.program.now a.verdict a.text)) }
{
    let waits = options.analysis.tells_waits();
    let found = find_waits(alloc, job, options.states, waits, observer)?;
    report_of(alloc, job.program, &found)
}

// The report of what was found, and of who may wait for ever where that is known.
fn report_of(alloc: Global, program: &Resolved, found: &FoundWaits) -> Result<Answer, AllocError>
    ensures { IfOk result (λ a. OfPrograms program.now (λ t. (o : Options) (x : IsAnswer program.now o.discipline o.steps o.states found.now.found) (to : Option ℕ) → TellAsked program.now o.discipline o.steps (tells_waits o.analysis) found.now.found found.now.waits → IsDepth x.findings found.now.found.stopped to → spec.IsReportOf o t program.now x.findings to a.verdict a.text)) }
{
    let ends = &found.found;
    if let Some(waits) = &found.waits {
        return Ok(Answer {
            verdict: verdict_on(waits),
            text: waits_report(alloc, program, ends, waits)?.text,
        });
    }
    let text = ends_report(alloc, program, ends)?.text;
    match ends.stopped {
        None => Ok(Answer {
            verdict: Verdict::Reported,
            text,
        }),
        Some(_) => Ok(Answer {
            verdict: Verdict::TooManyStates,
            text,
        }),
    }
}

fn verdict_on(waits: &Waits) -> Verdict
    ensures { result ≡ verdict_on waits.now }
{
    match waits {
        Waits::Known(_) => Verdict::Reported,
        Waits::NotSettled(_) => Verdict::NotSettled,
    }
}

// By a search with kernel calls at once.
fn at_once_answer<O: ObserveProgress>(
    alloc: Global,
    options: &Options,
    observer: &mut O,
    job: &Job<'_>,
) -> Result<Answer, AllocError>
    requires steps { job.now.limits.steps ≡ options.now.steps }
    requires discipline { job.now.limits.discipline ≡ options.now.discipline }
    ensures { IfOk result (λ a. OfPrograms job.now.program.now (λ t. IsAtOnceReport options.now t job.now.program.now a.verdict a.text)) }
{
    let found = search_at_once_with(alloc, job, options.states, observer)?;
    Ok(Answer {
        verdict: verdict_at_once(&found),
        text: at_once_report(alloc, job.program, &found)?.text,
    })
}

fn verdict_at_once(found: &FoundAtOnce) -> Verdict
    ensures { result ≡ verdict_at_once found.now.is_whole }
{
    if found.is_whole {
        Verdict::Reported
    } else {
        Verdict::TooManyStates
    }
}
