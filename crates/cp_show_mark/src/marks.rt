//! The mark of a program, as an answer.

ghost use Rattle.std.specs.Prelude.{◌≡◌, IfOk, IfSome, List, ℕ, false, true, map, option_map, string_bytes};
ghost use Rattle.cp_meaning_laws.specs.Accepted.{IsAccepted};
ghost use Rattle.cp_merged.specs.Code.{tally_of};
ghost use Rattle.cp_resolved.specs.Resolving.{IsProgramOf};
ghost use Rattle.cp_tree.specs.Read.{IsRead};
ghost use Rattle.cp_tree.specs.Syntax.{Tree};
ghost use Rattle.cp_tool.specs.Analysis.{is_endless};
ghost use Rattle.cp_expectation.specs.Words.{words_of};
ghost use Rattle.cp_verdict.specs.endless.Marked.{with_tables};
ghost use Rattle.cp_verdict.specs.endless.Naming.{processes_of};
ghost use Rattle.cp_show_mark.specs.Given as given;
ghost use Rattle.cp_show_mark.specs.MarkText.{setting_of};
ghost use Rattle.cp_show_mark.specs.Showing as spec;
ghost use Rattle.cp_show_mark.specs.Told as told_spec;
ghost use Rattle.cp_show_mark.specs.Told.{IsExcessTold, SaysOfTallies, TellsEndsText, TellsKnown, TellsText};
ghost use Rattle.cp_show_mark.specs.declared.answer.ShowVerdict.TheVariants.{TooMany};

use crate::answer::{ShowAnswer, ShowVerdict};
use crate::asking::refusal;
use crate::ends_words::ends_text;
use crate::examinee::Examinee;
use crate::excess::{MarkExcess, excess_text};
use crate::mark_words::{mark_text, misread_text};
use cp_expectation::{Expectation, Misread, Reading, expectations, misread_text as reason};
use cp_outcomes::completing::greatest_known;
use cp_outcomes::known::Known;
use cp_progress::ObserveProgress;
use cp_verdict::endless::{EndsMark, MarkSubject, MarkedEnds, mark_at_once, mark_in_turn};
use cp_verdict::{MarkFault, Standing, expectations_in, mark_known, mark_named};
use cp_walk::Job;
use std::alloc::{AllocError, Global};

/// What is said of a program by the expectations of the words; by those of the source where they are asked for, or where there are no words.
pub fn mark_answer<O: ObserveProgress>(
    alloc: Global,
    examinee: Examinee<'_>,
    observer: &mut O,
    words: &str,
    with_own: bool,
    source: &[u8],
) -> Result<ShowAnswer, AllocError>
    ensures mark { IfOk result (λ a. (text : List ℕ) × given.IsGiven words.now with_own source.now text × given.TellsGiven examinee.entry.program.now examinee.entry.options.now (processes_of examinee.entry.legend.now) (words_of text) a.verdict) }
    ensures meaning { (t : Tree) → ∥ IsRead t.program ∥₁ → IsAccepted t → IsProgramOf t examinee.entry.program.now → IfOk result (λ a. (text : List ℕ) × given.IsGiven words.now with_own source.now text × given.MeansGiven t examinee.entry.options.now (processes_of examinee.entry.legend.now) (words_of text) a.verdict) }
    ensures text { is_endless examinee.entry.options.now.analysis ≡ false → IfOk result (λ a. (text : List ℕ) × given.IsGiven words.now with_own source.now text × given.TellsGivenText (setting_of examinee.entry) examinee.entry.options.now (with_tables examinee.entry.program.now (processes_of examinee.entry.legend.now)) (words_of text) a.verdict (string_bytes a.text)) }
    ensures ends_text { is_endless examinee.entry.options.now.analysis ≡ true → IfOk result (λ a. (text : List ℕ) × given.IsGiven words.now with_own source.now text × given.TellsGivenEnds (setting_of examinee.entry) examinee.entry.options.now (with_tables examinee.entry.program.now (processes_of examinee.entry.legend.now)) (words_of text) a.verdict (string_bytes a.text)) }
{
    let text = expectation_text(alloc, words, with_own, source)?;
    mark_given(alloc, examinee, observer, text.as_str())
}

// What is said by the expectations of a text, if there are some.
fn mark_given<O: ObserveProgress>(
    alloc: Global,
    examinee: Examinee<'_>,
    observer: &mut O,
    text: &str,
) -> Result<ShowAnswer, AllocError>
    ensures mark { IfOk result (λ a. given.TellsGiven examinee.entry.program.now examinee.entry.options.now (processes_of examinee.entry.legend.now) (words_of text.now) a.verdict) }
    ensures meaning { (t : Tree) → ∥ IsRead t.program ∥₁ → IsAccepted t → IsProgramOf t examinee.entry.program.now → IfOk result (λ a. given.MeansGiven t examinee.entry.options.now (processes_of examinee.entry.legend.now) (words_of text.now) a.verdict) }
    ensures text { is_endless examinee.entry.options.now.analysis ≡ false → IfOk result (λ a. given.TellsGivenText (setting_of examinee.entry) examinee.entry.options.now (with_tables examinee.entry.program.now (processes_of examinee.entry.legend.now)) (words_of text.now) a.verdict (string_bytes a.text)) }
    ensures ends_text { is_endless examinee.entry.options.now.analysis ≡ true → IfOk result (λ a. given.TellsGivenEnds (setting_of examinee.entry) examinee.entry.options.now (with_tables examinee.entry.program.now (processes_of examinee.entry.legend.now)) (words_of text.now) a.verdict (string_bytes a.text)) }
{
    if text.is_empty() {
        return misread(
            alloc,
            examinee,
            "no expectation: none was given, and the source has no comment that begins (* expect\n",
        );
    }
    mark_by(alloc, examinee, observer, text)
}

// The expectations as they are written.
fn expectation_text(
    alloc: Global,
    words: &str,
    with_own: bool,
    source: &[u8],
) -> Result<String, AllocError>
    ensures { IfOk result (λ text. given.IsGiven words.now with_own source.now (string_bytes text)) }
{
    if !words.is_empty() && !with_own {
        return String::from_str(alloc, words);
    }
    let own = expectations_in(alloc, source)?;
    if words.is_empty() {
        return Ok(own);
    }
    join(alloc, words, own.as_str())
}

fn join(alloc: Global, words: &str, own: &str) -> Result<String, AllocError>
    ensures { IfOk result (λ text. string_bytes text ≡ given.and_own words.now own.now) }
{
    if own.is_empty() {
        return String::from_str(alloc, words);
    }
    format!(in alloc; "{words} and {own}")
}

// That there is no expectation, or why it is none.
fn misread(alloc: Global, examinee: Examinee<'_>, said: &str) -> Result<ShowAnswer, AllocError>
    ensures { IfOk result (λ a. a.verdict ≡ ShowVerdict.Misread) }
{
    Ok(ShowAnswer {
        verdict: ShowVerdict::Misread,
        text: misread_text(alloc, said, examinee.as_json)?,
    })
}

// What is said by the expectations of a text.
fn mark_by<O: ObserveProgress>(
    alloc: Global,
    examinee: Examinee<'_>,
    observer: &mut O,
    text: &str,
) -> Result<ShowAnswer, AllocError>
    ensures mark { IfOk result (λ a. given.TellsGiven examinee.entry.program.now examinee.entry.options.now (processes_of examinee.entry.legend.now) (words_of text.now) a.verdict) }
    ensures meaning { (t : Tree) → ∥ IsRead t.program ∥₁ → IsAccepted t → IsProgramOf t examinee.entry.program.now → IfOk result (λ a. given.MeansGiven t examinee.entry.options.now (processes_of examinee.entry.legend.now) (words_of text.now) a.verdict) }
    ensures text { is_endless examinee.entry.options.now.analysis ≡ false → IfOk result (λ a. given.TellsGivenText (setting_of examinee.entry) examinee.entry.options.now (with_tables examinee.entry.program.now (processes_of examinee.entry.legend.now)) (words_of text.now) a.verdict (string_bytes a.text)) }
    ensures ends_text { is_endless examinee.entry.options.now.analysis ≡ true → IfOk result (λ a. given.TellsGivenEnds (setting_of examinee.entry) examinee.entry.options.now (with_tables examinee.entry.program.now (processes_of examinee.entry.legend.now)) (words_of text.now) a.verdict (string_bytes a.text)) }
{
    match expectations(alloc, text) {
        Ok(reading) => mark_asked(alloc, examinee, observer, &reading),
        Err(Misread::Unexpected { wanted, place }) => misread(
            alloc,
            examinee,
            reason(alloc, text, wanted, place)?.as_str(),
        ),
        Err(Misread::Memory) => Err(AllocError),
    }
}

// What is said by expectations as they are read: that one can't be asked, or is of no such program; or their mark.
fn mark_asked<O: ObserveProgress>(
    alloc: Global,
    examinee: Examinee<'_>,
    observer: &mut O,
    reading: &Reading,
) -> Result<ShowAnswer, AllocError>
    ensures mark { IfOk result (λ a. given.TellsAsked examinee.entry.options.now (with_tables examinee.entry.program.now (processes_of examinee.entry.legend.now)) reading.now.expectations.items (λ es. spec.TellsSlotMark examinee.entry.program.now (processes_of examinee.entry.legend.now) examinee.entry.options.now.discipline examinee.entry.options.now.choices examinee.entry.options.now.steps es a.verdict) (λ es. given.TellsEnds examinee.entry.program.now (processes_of examinee.entry.legend.now) examinee.entry.options.now es a.verdict) a.verdict) }
    ensures meaning { (t : Tree) → ∥ IsRead t.program ∥₁ → IsAccepted t → IsProgramOf t examinee.entry.program.now → IfOk result (λ a. given.TellsAsked examinee.entry.options.now (given.names_with t (processes_of examinee.entry.legend.now)) reading.now.expectations.items (λ es. spec.TellsNamedMark t (processes_of examinee.entry.legend.now) examinee.entry.options.now.discipline examinee.entry.options.now.choices examinee.entry.options.now.steps es a.verdict) (λ es. given.MeansEnds t (processes_of examinee.entry.legend.now) examinee.entry.options.now es a.verdict) a.verdict) }
    ensures text { is_endless examinee.entry.options.now.analysis ≡ false → IfOk result (λ a. given.TellsIf (given.are_asked examinee.entry.options.now (with_tables examinee.entry.program.now (processes_of examinee.entry.legend.now)) reading.now.expectations.items) (TellsText (setting_of examinee.entry) reading.now.expectations.items (option_map (λ w. w.now) reading.now.doubtful) a.verdict (string_bytes a.text)) a.verdict) }
    ensures ends_text { is_endless examinee.entry.options.now.analysis ≡ true → IfOk result (λ a. given.TellsIf (given.are_asked examinee.entry.options.now (with_tables examinee.entry.program.now (processes_of examinee.entry.legend.now)) reading.now.expectations.items) (TellsEndsText (setting_of examinee.entry) reading.now.expectations.items a.verdict (string_bytes a.text)) a.verdict) }
{
    let list = reading.expectations.as_slice();
    if let Some(said) = refusal(alloc, examinee, list)? {
        return misread(alloc, examinee, said.as_str());
    }
    if examinee.options.analysis.is_endless() {
        judge_ends(alloc, examinee, observer, list)
    } else {
        mark_of(alloc, examinee, observer, reading)
    }
}

// What schedules of any length say of the expectations.
fn judge_ends<O: ObserveProgress>(
    alloc: Global,
    examinee: Examinee<'_>,
    observer: &mut O,
    list: &[Expectation],
) -> Result<ShowAnswer, AllocError>
    ensures mark { IfOk result (λ a. given.TellsEnds examinee.entry.program.now (processes_of examinee.entry.legend.now) examinee.entry.options.now list.now a.verdict) }
    ensures text { IfOk result (λ a. TellsEndsText (setting_of examinee.entry) list.now a.verdict (string_bytes a.text)) }
{
    let Examinee {
        options,
        program,
        legend,
        ..
    } = examinee;
    let subject = MarkSubject {
        program,
        legend,
        limits: options.longest_limits(),
        most: options.states,
    };
    // Not asked for, calls are made at once all the same where there are too many states.
    if options.analysis.is_at_once() {
        let marked = mark_at_once(alloc, subject, list, observer)?;
        ends_answer(alloc, examinee, &marked)
    } else {
        let marked = mark_in_turn(alloc, subject, list, observer)?;
        ends_answer(alloc, examinee, &marked)
    }
}

fn ends_answer(
    alloc: Global,
    examinee: Examinee<'_>,
    marked: &MarkedEnds,
) -> Result<ShowAnswer, AllocError>
    ensures verdict { IfOk result (λ a. a.verdict ≡ spec.ends_verdict_of marked.now.mark) }
    ensures text { IfOk result (λ a. string_bytes a.text ≡ told_spec.ended examinee.entry.as_json (told_spec.ends_saying (setting_of examinee.entry) marked.now)) }
{
    let said = ends_text(alloc, examinee, marked)?;
    answer_of(examinee, ends_verdict_of(marked.mark), said)
}

fn ends_verdict_of(mark: EndsMark) -> ShowVerdict
    ensures { result ≡ spec.ends_verdict_of mark }
{
    match mark {
        EndsMark::Holds => ShowVerdict::Reported,
        EndsMark::Fails => ShowVerdict::Fails,
        EndsMark::Open => ShowVerdict::Open,
        EndsMark::TooMany => ShowVerdict::TooMany,
    }
}

// What the table within the limits of the options says of the expectations.
fn mark_of<O: ObserveProgress>(
    alloc: Global,
    examinee: Examinee<'_>,
    observer: &mut O,
    reading: &Reading,
) -> Result<ShowAnswer, AllocError>
    ensures mark { IfOk result (λ a. spec.TellsSlotMark examinee.entry.program.now (processes_of examinee.entry.legend.now) examinee.entry.options.now.discipline examinee.entry.options.now.choices examinee.entry.options.now.steps reading.now.expectations.items a.verdict) }
    ensures meaning { (t : Tree) → ∥ IsRead t.program ∥₁ → IsAccepted t → IsProgramOf t examinee.entry.program.now → IfOk result (λ a. spec.TellsNamedMark t (processes_of examinee.entry.legend.now) examinee.entry.options.now.discipline examinee.entry.options.now.choices examinee.entry.options.now.steps reading.now.expectations.items a.verdict) }
    ensures text { IfOk result (λ a. TellsText (setting_of examinee.entry) reading.now.expectations.items (option_map (λ w. w.now) reading.now.doubtful) a.verdict (string_bytes a.text)) }
{
    let limits = examinee.options.limits();
    let job = Job {
        program: examinee.program,
        limits,
    };
    let list = reading.expectations.as_slice();
    let states = examinee.options.states;
    match mark_named(alloc, job, examinee.legend, states, list, observer) {
        Ok(marked) => {
            let said = mark_text(alloc, examinee, reading, &marked)?;
            answer_of(examinee, verdict_of(marked.mark), said)
        }
        Err(MarkFault::Memory) => Err(AllocError),
        Err(MarkFault::TooManyStates) => {
            too_many(alloc, examinee, observer, reading, MarkExcess::States)
        }
        Err(MarkFault::TooManyOutcomes) => {
            too_many(alloc, examinee, observer, reading, MarkExcess::Outcomes)
        }
    }
}

// An object stands on a line of its own.
fn answer_of(
    examinee: Examinee<'_>,
    verdict: ShowVerdict,
    said: String,
) -> Result<ShowAnswer, AllocError>
    ensures verdict { IfOk result (λ a. a.verdict ≡ verdict) }
    ensures text { IfOk result (λ a. string_bytes a.text ≡ told_spec.ended examinee.entry.as_json (string_bytes said)) }
{
    let mut text = said;
    if examinee.as_json {
        text.push_str("\n")?;
    }
    Ok(ShowAnswer { verdict, text })
}

fn verdict_of(mark: Standing) -> ShowVerdict
    ensures { result ≡ spec.verdict_of mark }
{
    match mark {
        Standing::Holds => ShowVerdict::Reported,
        Standing::Fails => ShowVerdict::Fails,
        Standing::Open => ShowVerdict::Open,
    }
}

// What there is too much of, and the mark by schedules of fewer choices.
fn too_many<O: ObserveProgress>(
    alloc: Global,
    examinee: Examinee<'_>,
    observer: &mut O,
    reading: &Reading,
    excess: MarkExcess,
) -> Result<ShowAnswer, AllocError>
    ensures verdict { IfOk result (λ a. a.verdict ≡ TooMany) }
    ensures text { IfOk result (λ a. (said : List ℕ) × IsExcessTold (setting_of examinee.entry) reading.now.expectations.items (option_map (λ w. w.now) reading.now.doubtful) said × (string_bytes a.text ≡ told_spec.ended examinee.entry.as_json said)) }
{
    let said = too_many_text(alloc, examinee, observer, reading, excess)?;
    answer_of(examinee, ShowVerdict::TooMany, said)
}

fn too_many_text<O: ObserveProgress>(
    alloc: Global,
    examinee: Examinee<'_>,
    observer: &mut O,
    reading: &Reading,
    excess: MarkExcess,
) -> Result<String, AllocError>
    ensures { IfOk result (λ t. IsExcessTold (setting_of examinee.entry) reading.now.expectations.items (option_map (λ w. w.now) reading.now.doubtful) (string_bytes t)) }
{
    let job = Job {
        program: examinee.program,
        limits: examinee.options.limits(),
    };
    let found = greatest_known(alloc, job, examinee.options.states, observer)?;
    match found {
        Some(known) => known_text(alloc, examinee, observer, reading, excess, &known),
        None => excess_text(alloc, examinee, excess, None),
    }
}

// The same with what is said of all schedules of fewer choices.
fn known_text<O: ObserveProgress>(
    alloc: Global,
    examinee: Examinee<'_>,
    observer: &mut O,
    reading: &Reading,
    excess: MarkExcess,
    known: &Known,
) -> Result<String, AllocError>
    ensures { IfOk result (λ t. TellsKnown (setting_of examinee.entry) reading.now.expectations.items (option_map (λ w. w.now) reading.now.doubtful) excess known.now (string_bytes t)) }
{
    match saying_of_known(alloc, examinee, observer, reading, known)? {
        Some(said) => {
            let told = Some((known.choices, said.as_str()));
            excess_text(alloc, examinee, excess, told)
        }
        None => excess_text(alloc, examinee, excess, None),
    }
}

fn saying_of_known<O: ObserveProgress>(
    alloc: Global,
    examinee: Examinee<'_>,
    observer: &mut O,
    reading: &Reading,
    known: &Known,
) -> Result<Option<String>, AllocError>
    ensures { IfOk result (λ said. IfSome said (λ t. SaysOfTallies (setting_of examinee.entry) known.now.choices reading.now.expectations.items (option_map (λ w. w.now) reading.now.doubtful) (map tally_of known.now.tallies) (string_bytes t))) }
{
    let job = Job {
        program: examinee.program,
        limits: examinee.options.limits().with_choices(known.choices),
    };
    let list = reading.expectations.as_slice();
    let tallies = known.tallies.as_slice();
    let states = examinee.options.states;
    match mark_known(alloc, job, examinee.legend, states, list, tallies, observer) {
        Ok(marked) => Ok(Some(mark_text(alloc, examinee, reading, &marked)?)),
        Err(MarkFault::Memory) => Err(AllocError),
        Err(MarkFault::TooManyStates | MarkFault::TooManyOutcomes) => Ok(None),
    }
}
