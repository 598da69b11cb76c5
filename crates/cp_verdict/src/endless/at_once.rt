//! Whether all of some expectations hold of schedules of any length, by a search that makes kernel calls at once.

ghost use Rattle.std.specs.Prelude.{◌≡◌, ◌≤◌, ◌⊎◌, List, IfOk, false, true};
ghost use Rattle.cp_expectation.specs.declared.expectation.Expectation.{Expectation};
ghost use Rattle.cp_verdict.specs.endless.AtOnce as spec;
ghost use Rattle.cp_verdict.specs.endless.Naming.{processes_of};
ghost use Rattle.cp_verdict.specs.endless.Said.{IsSaid, IsSaidAlone};

use crate::endless::knowing_at_once::knowledge_at_once;
use crate::endless::marking::{MarkSubject, ask_waits, mark_list, tell};
use crate::endless::saying::MarkedEnds;
use crate::endless::verdict::{EndsMark, verdict_on};
use crate::waiting::asking::name_who;
use cp_at_once::search_at_once_with;
use cp_expectation::Expectation;
use cp_machine::Discipline;
use cp_progress::ObserveProgress;
use cp_run::Job;
use std::alloc::{AllocError, Global};

/// What all schedules of any length say of some expectations; where there are too many states, what kernel calls at once say, if these may be made and there are
/// not too many states then as well. An observer is told how far the searches have come.
pub fn mark_in_turn<O: ObserveProgress>(
    alloc: Global,
    subject: MarkSubject<'_>,
    list: &[Expectation],
    observer: &mut O,
) -> Result<MarkedEnds, AllocError>
    ensures mark { 1 ≤ subject.entry.most → IfOk result (λ m. spec.IsEndsMark subject.entry.program.now (processes_of subject.entry.legend.now) subject.entry.limits.discipline subject.entry.limits.steps subject.entry.most list.now m.mark) }
    ensures said { 1 ≤ subject.entry.most → IfOk result (IsSaid subject.entry.program.now (processes_of subject.entry.legend.now) subject.entry.limits.discipline subject.entry.limits.steps subject.entry.most list.now) }
{
    let marked = mark_list(alloc, subject, list, observer)?;
    match marked.mark {
        EndsMark::TooMany => mark_again(alloc, subject, list, marked, observer),
        _ => Ok(marked),
    }
}

// The same, where there are too many states.
fn mark_again<O: ObserveProgress>(
    alloc: Global,
    subject: MarkSubject<'_>,
    list: &[Expectation],
    marked: MarkedEnds,
    observer: &mut O,
) -> Result<MarkedEnds, AllocError>
    ensures same { spec.can_be_at_once subject.entry.limits.discipline list.now ≡ false → IfOk result (λ m. m.mark ≡ marked.mark) }
    ensures again { IfOk result (λ m. spec.IsAgain subject.entry.program.now (processes_of subject.entry.legend.now) subject.entry.limits.discipline subject.entry.limits.steps subject.entry.most list.now marked.mark m.mark) }
    ensures said { IsSaidAlone false subject.entry.program.now (processes_of subject.entry.legend.now) subject.entry.limits.discipline subject.entry.limits.steps subject.entry.most list.now marked → IfOk result (IsSaid subject.entry.program.now (processes_of subject.entry.legend.now) subject.entry.limits.discipline subject.entry.limits.steps subject.entry.most list.now) }
{
    if can_be_at_once(subject.limits.discipline, list) {
        let again = search_at_once(alloc, subject, list, observer)?;
        tell_again(alloc, subject, marked, again)
    } else {
        Ok(marked)
    }
}

// The mark that kernel calls at once give, if there are not too many states then as well.
fn tell_again(
    alloc: Global,
    subject: MarkSubject<'_>,
    marked: MarkedEnds,
    again: MarkedEnds,
) -> Result<MarkedEnds, AllocError>
    ensures mark { IfOk result (λ m. (m.mark ≡ marked.mark) ⊎ (m.mark ≡ again.mark)) }
    ensures said { (es : List Expectation) → IsSaidAlone false subject.entry.program.now (processes_of subject.entry.legend.now) subject.entry.limits.discipline subject.entry.limits.steps subject.entry.most es marked → IsSaidAlone true subject.entry.program.now (processes_of subject.entry.legend.now) subject.entry.limits.discipline subject.entry.limits.steps subject.entry.most es again → IfOk result (IsSaid subject.entry.program.now (processes_of subject.entry.legend.now) subject.entry.limits.discipline subject.entry.limits.steps subject.entry.most es) }
{
    match again.mark {
        EndsMark::TooMany => marked.with_line("so there are with kernel calls at once\n"),
        _ => {
            let most = subject.most;
            let line = format!(in alloc;
                "too many states: there may be {most}, so kernel calls were made at once\n"
            )?;
            again.with_line(line.as_str())
        }
    }
}

// Whether kernel calls at once can settle it: not who waits, for ever or at an end, and under the book's discipline alone.
fn can_be_at_once(discipline: Discipline, list: &[Expectation]) -> bool
    ensures { result ≡ spec.can_be_at_once discipline list.now }
{
    discipline.is_of_the_book() && !ask_waits(list) && !name_who(list)
}

/// What schedules of any length say of some expectations, where kernel calls are made at once; or, where these can't settle it, what all states say. An observer
/// is told how far the search has come.
pub fn mark_at_once<O: ObserveProgress>(
    alloc: Global,
    subject: MarkSubject<'_>,
    list: &[Expectation],
    observer: &mut O,
) -> Result<MarkedEnds, AllocError>
    ensures mark { spec.can_be_at_once subject.entry.limits.discipline list.now ≡ true → IfOk result (λ m. spec.IsMarkAtOnce subject.entry.program.now (processes_of subject.entry.legend.now) subject.entry.limits.steps subject.entry.most list.now m.mark) }
    ensures states { 1 ≤ subject.entry.most → spec.can_be_at_once subject.entry.limits.discipline list.now ≡ false → IfOk result (λ m. spec.IsEndsMark subject.entry.program.now (processes_of subject.entry.legend.now) subject.entry.limits.discipline subject.entry.limits.steps subject.entry.most list.now m.mark) }
    ensures said { 1 ≤ subject.entry.most → IfOk result (IsSaid subject.entry.program.now (processes_of subject.entry.legend.now) subject.entry.limits.discipline subject.entry.limits.steps subject.entry.most list.now) }
{
    if can_be_at_once(subject.limits.discipline, list) {
        search_at_once(alloc, subject, list, observer)
    } else {
        mark_list(alloc, subject, list, observer)
    }
}

// The mark by the search that makes kernel calls at once.
fn search_at_once<O: ObserveProgress>(
    alloc: Global,
    subject: MarkSubject<'_>,
    list: &[Expectation],
    observer: &mut O,
) -> Result<MarkedEnds, AllocError>
    ensures mark { spec.can_be_at_once subject.entry.limits.discipline list.now ≡ true → IfOk result (λ m. spec.IsMarkAtOnce subject.entry.program.now (processes_of subject.entry.legend.now) subject.entry.limits.steps subject.entry.most list.now m.mark) }
    ensures said { spec.can_be_at_once subject.entry.limits.discipline list.now ≡ true → IfOk result (IsSaidAlone true subject.entry.program.now (processes_of subject.entry.legend.now) subject.entry.limits.discipline subject.entry.limits.steps subject.entry.most list.now) }
{
    let MarkSubject {
        program,
        limits,
        most,
        ..
    } = subject;
    let found = search_at_once_with(alloc, &Job { program, limits }, most, observer)?;
    let known = knowledge_at_once(alloc, program, &found)?;
    let verdict = verdict_on(subject.legend, &known, list);
    tell(alloc, subject, &known, list, verdict, true)
}
