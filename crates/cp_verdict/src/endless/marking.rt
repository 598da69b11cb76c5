//! Whether all of some expectations hold of schedules of any length.

ghost use Rattle.std.specs.Prelude.{◌≡◌, ◌≤◌, ◌<◌, ◌^◌, ℕ, Bool, [], IfOk, false, string_bytes, true};
ghost use Rattle.cp_slots.specs.Tables.{Tables};
ghost use Rattle.cp_machine.specs.declared.discipline.Discipline as slot_discipline;
ghost use Rattle.cp_walk.specs.Text.{Spellings};
ghost use Rattle.cp_ends.specs.Whole.{IsAnswer};
ghost use Rattle.cp_ends.specs.declared.found.Found.{Found};
ghost use Rattle.cp_waits.specs.Named.{TellAsked};
ghost use Rattle.cp_verdict.specs.endless.Knowledge.{HasTexts, IsKnown, KnowsWaits, is_whole, stops_of};
ghost use Rattle.cp_verdict.specs.endless.Marked as spec;
ghost use Rattle.cp_verdict.specs.endless.Naming.{processes_of};
ghost use Rattle.cp_verdict.specs.endless.Said.{AreSaid, IsSaidAlone, note_text};
ghost use Rattle.cp_verdict.specs.waiting.Asking.{name_who};
ghost use Rattle.cp_verdict.specs.waiting.EndsJudged.{IsJudgedAny, IsJudgedByAny};
ghost use Rattle.cp_verdict.specs.waiting.EndsMarked as who_spec;
ghost use Rattle.cp_verdict.specs.waiting.Known.{KnowsWho};

use crate::endless::judging::stops_of;
use crate::endless::knowing::knowledge_of;
use crate::endless::known::KnownEnds;
use crate::endless::saying::{MarkedEnds, note_on, sayings_of};
use crate::endless::verdict::{EndsVerdict, mark_of, verdict_on};
use crate::endless::waiting::waiting_ends;
use crate::waiting::asking::name_who;
use cp_expectation::{Expectation, Topic};
use cp_legend::Legend;
use cp_progress::ObserveProgress;
use cp_run::{Job, Limits};
use cp_slots::Resolved;
use cp_waiting_ends::find_again;
use cp_waits::{FoundWaits, Waiting, Waits, find_waits};
use std::alloc::{AllocError, Global};

/// The program that is marked, and how many states there may be.
#[derive(Clone, Copy)]
pub struct MarkSubject<'a> {
    pub program: &'a Resolved,
    pub legend: &'a Legend,
    pub limits: Limits,
    pub most: u32,
}

/// What all schedules of any length say of some expectations. An observer is told how far the searches have come.
pub fn mark_list<O: ObserveProgress>(
    alloc: Global,
    subject: MarkSubject<'_>,
    list: &[Expectation],
    observer: &mut O,
) -> Result<MarkedEnds, AllocError>
    ensures mark { 1 ≤ subject.entry.most → name_who list.now ≡ false → IfOk result (λ m. spec.IsMarkOf subject.entry.program.now (processes_of subject.entry.legend.now) subject.entry.limits.discipline subject.entry.limits.steps subject.entry.most list.now m.mark) }
    ensures meaning { 1 ≤ subject.entry.most → name_who list.now ≡ false → IfOk result (λ m. spec.IsMeantMark subject.entry.program.now (processes_of subject.entry.legend.now) subject.entry.limits.discipline subject.entry.limits.steps list.now m.mark) }
    ensures who { 1 ≤ subject.entry.most → IfOk result (λ m. who_spec.IsMarkOf subject.entry.program.now (processes_of subject.entry.legend.now) subject.entry.limits.discipline subject.entry.limits.steps subject.entry.most list.now m.mark) }
    ensures who_meant { 1 ≤ subject.entry.most → IfOk result (λ m. who_spec.IsMeantMark subject.entry.program.now (processes_of subject.entry.legend.now) subject.entry.limits.discipline subject.entry.limits.steps list.now m.mark) }
    ensures said { 1 ≤ subject.entry.most → IfOk result (IsSaidAlone false subject.entry.program.now (processes_of subject.entry.legend.now) subject.entry.limits.discipline subject.entry.limits.steps subject.entry.most list.now) }
{
    let known = knowledge(alloc, subject, list, observer)?;
    let verdict = verdict_on(subject.legend, &known, list);
    tell(alloc, subject, &known, list, verdict, false)
}

/// Whether a topic asks who waits for ever.
pub fn is_of_waiting(topic: &Topic) -> bool
    ensures { result ≡ spec.is_of_waiting topic.now }
{
    matches!(topic, Topic::Waiting(_))
}

/// Whether an expectation does.
pub fn asks_waits(expectation: &Expectation) -> bool
    ensures { result ≡ spec.asks_waits expectation.now }
{
    expectation.topics.iter().any(is_of_waiting)
}

/// Whether one of some expectations does.
pub fn ask_waits(list: &[Expectation]) -> bool
    ensures { result ≡ spec.ask_waits list.now }
{
    list.iter().any(asks_waits)
}

// What is known of the schedules of a program: who may wait for ever, and who waits at an end, where that is asked.
fn knowledge<O: ObserveProgress>(
    alloc: Global,
    subject: MarkSubject<'_>,
    list: &[Expectation],
    observer: &mut O,
) -> Result<KnownEnds, AllocError>
    ensures known { 1 ≤ subject.entry.most → IfOk result (λ k. IsKnown subject.entry.program.now subject.entry.limits.discipline subject.entry.limits.steps subject.entry.most k) }
    ensures who { 1 ≤ subject.entry.most → name_who list.now ≡ true → IfOk result (λ k. KnowsWho subject.entry.program.now subject.entry.limits.discipline subject.entry.limits.steps k) }
{
    let MarkSubject {
        program,
        limits,
        most,
        ..
    } = subject;
    let job = Job { program, limits };
    let FoundWaits { found, waits } = find_waits(alloc, &job, most, ask_waits(list), observer)?;
    let known = knowledge_of(alloc, program, &found, lines_of(waits))?;
    if !name_who(list) {
        return Ok(known);
    }
    let ends = find_again(alloc, &job, &found, observer)?;
    let waiting = waiting_ends(alloc, &ends)?;
    Ok(known.with_waiting(waiting))
}

// Who may wait for ever, where that was asked and is settled.
fn lines_of(waits: Option<Waits>) -> Option<Vec<Waiting>>
    ensures { (r : Tables) (discipline : slot_discipline.Discipline) (steps most : ℕ) (asks : Bool) (found : Found) → most < 2 ^ 32 → IsAnswer r discipline steps most found → TellAsked r discipline steps asks found waits → KnowsWaits r discipline steps result }
{
    let Some(told) = waits else {
        return None;
    };
    match told {
        Waits::Known(list) => Some(list),
        Waits::NotSettled(_) => None,
    }
}

/// The mark of a verdict, and what is said with it, where kernel calls were made at once or not.
pub fn tell(
    alloc: Global,
    subject: MarkSubject<'_>,
    known: &KnownEnds,
    list: &[Expectation],
    verdict: EndsVerdict<'_>,
    at_once: bool,
) -> Result<MarkedEnds, AllocError>
    ensures mark { IfOk result (λ m. m.mark ≡ spec.mark_of verdict.entry known.now.looked) }
    ensures stops { IfOk result (λ m. m.stops ≡ stops_of known.now) }
    ensures note { IfOk result (λ m. string_bytes m.note ≡ note_text subject.entry.most at_once m.mark (is_whole known.now)) }
    ensures slots { (r : Tables) (discipline : slot_discipline.Discipline) (steps most : ℕ) → IsKnown r discipline steps most known.now → IfOk result (λ m. AreSaid (processes_of subject.entry.legend.now) at_once known.now (IsJudgedAny r (processes_of subject.entry.legend.now) discipline steps known.now) list.now m.each.items) }
    ensures known { (values : Spellings) → HasTexts values known.now.values.items → IfOk result (λ m. AreSaid (processes_of subject.entry.legend.now) at_once known.now (IsJudgedByAny (record { values = values; processes = processes_of subject.entry.legend.now }) known.now) list.now m.each.items) }
    ensures last { IfOk result (λ m. string_bytes m.last ≡ []) }
{
    let mark = mark_of(verdict, known);
    let note = note_on(alloc, subject.most, known, mark, at_once)?;
    let each = sayings_of(alloc, subject.legend, known, list, at_once)?;
    Ok(MarkedEnds {
        mark,
        note,
        each,
        last: String::new(alloc),
        stops: stops_of(known),
    })
}
