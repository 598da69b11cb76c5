//! What is said with a mark.

ghost use Rattle.std.specs.Prelude.{◌≡◌, ◌++◌, ℕ, IfOk, codes, string_bytes};
ghost use Rattle.cp_machine.specs.declared.discipline.Discipline.{Discipline};
ghost use Rattle.cp_slots.specs.Tables.{Tables};
ghost use Rattle.cp_walk.specs.Text.{Spellings};
ghost use Rattle.cp_verdict.specs.endless.Knowledge as known_spec;
ghost use Rattle.cp_verdict.specs.endless.Naming.{processes_of};
ghost use Rattle.cp_verdict.specs.endless.Said as spec;
ghost use Rattle.cp_verdict.specs.waiting.EndsJudged.{IsJudgedAny, IsJudgedByAny};

use crate::endless::judging::{EndsJudgement, is_whole, judge};
use crate::endless::known::{KnownEnd, KnownEnds, Witness};
use crate::endless::verdict::EndsMark;
use crate::endless::words::{before_words, missing_words, open_words, push_witness};
use crate::marking::Standing;
use crate::program::Stops;
use cp_expectation::{Expectation, push_expectation};
use cp_legend::Legend;
use std::alloc::{AllocError, Global};

/// What is said of one expectation.
#[derive(Drop)]
pub struct Said {
    /// The expectation as it is written.
    pub expectation: String,
    pub standing: Standing,
    /// A line that says why it does not hold; none where it holds.
    pub reason: String,
    /// The schedule that is against it.
    pub against: Option<Against>,
}

/// A schedule that is against an expectation.
#[derive(Drop)]
pub enum Against {
    /// It ends so.
    End(KnownEnd),
    /// It displays a value.
    Value(Vec<u8>),
    /// The first word leads to a round, in which a process waits for ever; the second one goes it.
    Round {
        process: u8,
        first: Vec<u8>,
        again: Vec<u8>,
    },
}

/// A mark, and what is said with it.
#[derive(Drop)]
pub struct MarkedEnds {
    pub mark: EndsMark,
    /// Lines on all expectations.
    pub note: String,
    pub each: Vec<Said>,
    /// Lines on how the mark was found.
    pub last: String,
    /// The limits that were met.
    pub stops: Stops,
}

impl MarkedEnds {
    /// Adds a line on how the mark was found.
    pub fn with_line(mut self, line: &str) -> Result<MarkedEnds, AllocError>
        ensures mark { IfOk result (λ m. m.mark ≡ self.mark) }
        ensures note { IfOk result (λ m. m.note ≡ self.note) }
        ensures each { IfOk result (λ m. m.each ≡ self.each) }
        ensures stops { IfOk result (λ m. m.stops ≡ self.stops) }
        ensures last { IfOk result (λ m. string_bytes m.last ≡ string_bytes self.last ++ line.now) }
    {
        self.last.push_str(line)?;
        Ok(self)
    }
}

/// What is said of each expectation, by what is known.
pub fn sayings_of(
    alloc: Global,
    legend: &Legend,
    known: &KnownEnds,
    list: &[Expectation],
    at_once: bool,
) -> Result<Vec<Said>, AllocError>
    ensures slots { (r : Tables) (discipline : Discipline) (steps most : ℕ) → known_spec.IsKnown r discipline steps most known.now → IfOk result (λ each. spec.AreSaid (processes_of legend.now) at_once known.now (IsJudgedAny r (processes_of legend.now) discipline steps known.now) list.now each.items) }
    ensures known { (values : Spellings) → known_spec.HasTexts values known.now.values.items → IfOk result (λ each. spec.AreSaid (processes_of legend.now) at_once known.now (IsJudgedByAny (record { values = values; processes = processes_of legend.now }) known.now) list.now each.items) }
{
    let mut each = Vec::new(alloc);
    for expectation in list {
        let judgement = judge(legend, known, expectation);
        each.push(said_of(alloc, legend, known, expectation, judgement, at_once)?)?;
    }
    Ok(each)
}

fn said_of(
    alloc: Global,
    legend: &Legend,
    known: &KnownEnds,
    expectation: &Expectation,
    judgement: EndsJudgement<'_>,
    at_once: bool,
) -> Result<Said, AllocError>
    ensures { IfOk result (λ said. spec.IsSaidOf (processes_of legend.now) at_once known.now expectation.now judgement.entry said) }
{
    let mut text = String::new(alloc);
    push_expectation(&mut text, expectation)?;
    let reason = reason_of(alloc, legend, known, expectation, judgement, at_once)?;
    let against = against_of(alloc, judgement)?;
    Ok(Said {
        expectation: text,
        standing: standing_of(judgement),
        reason,
        against,
    })
}

fn standing_of(judgement: EndsJudgement<'_>) -> Standing
    ensures { result ≡ spec.standing_of judgement.entry }
{
    match judgement {
        EndsJudgement::Holds => Standing::Holds,
        EndsJudgement::Against(_) | EndsJudgement::Missing => Standing::Fails,
        EndsJudgement::Open => Standing::Open,
    }
}

fn reason_of(
    alloc: Global,
    legend: &Legend,
    known: &KnownEnds,
    expectation: &Expectation,
    judgement: EndsJudgement<'_>,
    at_once: bool,
) -> Result<String, AllocError>
    ensures { IfOk result (λ text. string_bytes text ≡ spec.reason_text (processes_of legend.now) at_once known.now expectation.now judgement.entry) }
{
    match judgement {
        EndsJudgement::Holds => Ok(String::new(alloc)),
        EndsJudgement::Against(witness) => against_text(alloc, legend, witness, at_once),
        EndsJudgement::Missing => String::from_str(alloc, missing_words(&expectation.topics)),
        EndsJudgement::Open => open_text(alloc, known, at_once),
    }
}

fn against_text(
    alloc: Global,
    legend: &Legend,
    witness: Witness<'_>,
    at_once: bool,
) -> Result<String, AllocError>
    ensures { IfOk result (λ text. string_bytes text ≡ spec.before_text at_once ++ spec.witness_text (processes_of legend.now) witness.entry ++ codes "\n") }
{
    let mut text = String::from_str(alloc, before_words(at_once))?;
    push_witness(legend, &mut text, witness)?;
    text.push_str("\n")?;
    Ok(text)
}

fn against_of(alloc: Global, judgement: EndsJudgement<'_>) -> Result<Option<Against>, AllocError>
    ensures { IfOk result (spec.IsAgainstBy judgement.entry) }
{
    match judgement {
        EndsJudgement::Against(witness) => Ok(Some(against_by(alloc, witness)?)),
        EndsJudgement::Holds | EndsJudgement::Missing | EndsJudgement::Open => Ok(None),
    }
}

// What a schedule shows, apart from what is known.
fn against_by(alloc: Global, witness: Witness<'_>) -> Result<Against, AllocError>
    ensures { IfOk result (spec.ShowsIt witness.entry) }
{
    match witness {
        Witness::End(known) => Ok(Against::End(KnownEnd {
            end: known.end,
            word: Vec::from_slice(alloc, &known.word)?,
        })),
        Witness::Value(known) => Ok(Against::Value(Vec::from_slice(alloc, &known.word)?)),
        Witness::Waiting(waiting) => Ok(Against::Round {
            process: waiting.process,
            first: Vec::from_slice(alloc, &waiting.first)?,
            again: Vec::from_slice(alloc, &waiting.again)?,
        }),
    }
}

/// What is said of all expectations: by what they hold, or that there are too many states.
pub fn note_on(
    alloc: Global,
    most: u32,
    known: &KnownEnds,
    mark: EndsMark,
    at_once: bool,
) -> Result<String, AllocError>
    ensures { IfOk result (λ note. string_bytes note ≡ spec.note_text most at_once mark (known_spec.is_whole known.now)) }
{
    match mark {
        EndsMark::Holds => String::from_str(alloc, held_words(known, at_once)),
        EndsMark::TooMany if at_once => format!(in alloc;
            "too many states with kernel calls at once: there may be {most}\n"
        ),
        EndsMark::TooMany => format!(in alloc; "too many states: there may be {most}\n"),
        _ => Ok(String::new(alloc)),
    }
}

fn held_words(known: &KnownEnds, at_once: bool) -> &'static str
    ensures { result.now ≡ spec.held_text (known_spec.is_whole known.now) at_once }
{
    match (is_whole(known), at_once) {
        (false, _) => "shown by a schedule\n",
        (true, false) => "for schedules of any length\n",
        (true, true) => {
            "for schedules of any length, by those in which kernel calls are made at once\n"
        }
    }
}

// What is said of an expectation that is not settled.
fn open_text(alloc: Global, known: &KnownEnds, at_once: bool) -> Result<String, AllocError>
    ensures { IfOk result (λ text. string_bytes text ≡ spec.open_text known.now.looked at_once (known_spec.is_whole known.now)) }
{
    match known.looked {
        Some(choices) if !at_once => {
            format!(in alloc;
                "no schedule of at most {choices} choices settles it (try greater --states)\n"
            )
        }
        Some(_) => String::from_str(
            alloc,
            "no schedule that was found settles it (try greater --states)\n",
        ),
        None => String::from_str(alloc, open_words(is_whole(known))),
    }
}
