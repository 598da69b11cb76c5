//! Whether an expectation holds of schedules of any length.

ghost use Rattle.std.specs.Prelude.{◌≡◌, ◌&&◌, [], ℕ, Some, not, find, option_map};
ghost use Rattle.std.specs.List.{list_all};
ghost use Rattle.std.specs.String.{string_bytes};
ghost use Rattle.cp_machine.specs.declared.discipline.Discipline.{Discipline};
ghost use Rattle.cp_slots.specs.Tables.{Tables};
ghost use Rattle.cp_walk.specs.Text.{Spellings};
ghost use Rattle.cp_ends.specs.Firsts as firsts;
ghost use Rattle.cp_verdict.specs.endless.Expectations as match_spec;
ghost use Rattle.cp_verdict.specs.endless.Expectations.{asks_some_by, is_value_named, is_waiting_named};
ghost use Rattle.cp_verdict.specs.endless.Judged as spec;
ghost use Rattle.cp_verdict.specs.endless.Knowledge as known_spec;
ghost use Rattle.cp_verdict.specs.endless.Naming.{processes_of};
ghost use Rattle.cp_verdict.specs.waiting.Ends.{is_waiting, settles_end};
ghost use Rattle.cp_verdict.specs.waiting.EndsJudged.{IsJudgedAny, IsJudgedByAny, found_by_who, found_end, found_settling};

use crate::endless::known::{KnownEnd, KnownEnds, KnownValue, KnownWaitingEnd, Witness};
use crate::endless::matching::{is_cut, is_value_named, is_waiting, is_waiting_named, settles};
use crate::program::Stops;
use crate::waiting::asking::names_who;
use cp_ends::found::MOST_VALUES;
use cp_expectation::{Claim, Expectation, Topic};
use cp_legend::Legend;
use cp_waits::Waiting;

/// What is known of an expectation.
#[derive(Clone, Copy, Drop)]
pub enum EndsJudgement<'a> {
    Holds,
    /// A schedule is against it, and this is the first.
    Against(Witness<'a>),
    /// There is no schedule that it asks for.
    Missing,
    /// Nothing so far settles it.
    Open,
}

// The first end that settles an expectation, whoever waits there.
fn first_of<'a>(
    legend: &Legend,
    ends: &'a [KnownEnd],
    expectation: &Expectation,
) -> Option<&'a KnownEnd>
    ensures { option_map (λ e. e.now) result ≡ find (λ e. settles_end (processes_of legend.now) expectation.now [] e.end) ends.entry.now }
{
    ends.iter()
        .find(|one| settles(legend, expectation, &[], one.end))
}

// The first one of those at which not all wait.
fn first_other<'a>(
    legend: &Legend,
    ends: &'a [KnownEnd],
    expectation: &Expectation,
) -> Option<&'a KnownEnd>
    ensures { option_map (λ e. e.now) result ≡ find (λ e. not (is_waiting e.end) && settles_end (processes_of legend.now) expectation.now [] e.end) ends.entry.now }
{
    ends.iter().find(|one| !is_waiting(one.end) && settles(legend, expectation, &[], one.end))
}

// The first one of those at which all wait, by who waits there.
fn first_waiting_end<'a>(
    legend: &Legend,
    waiting: &'a [KnownWaitingEnd],
    expectation: &Expectation,
) -> Option<&'a KnownWaitingEnd>
    ensures { option_map (λ x. x.now) result ≡ find (λ x. settles_end (processes_of legend.now) expectation.now x.who.items x.end.end) waiting.entry.now }
{
    waiting
        .iter()
        .find(|one| settles(legend, expectation, &one.who, one.end.end))
}

// The first value that a topic speaks of.
fn first_shown<'a>(values: &'a [KnownValue], topics: &[Topic]) -> Option<&'a KnownValue>
    ensures { option_map (λ v. v.now) result ≡ find (λ v. is_value_named topics.now (string_bytes v.text)) values.entry.now }
{
    values
        .iter()
        .find(|value| is_value_named(topics, value.text.as_str()))
}

// The first of those who may wait for ever of whom a topic speaks.
fn first_waiting<'a>(
    legend: &Legend,
    waits: &'a Option<Vec<Waiting>>,
    topics: &[Topic],
) -> Option<&'a Waiting>
    ensures { option_map (λ w. w.now) result ≡ find (λ w. is_waiting_named (processes_of legend.now) topics.now w.process) (known_spec.those_waiting waits.entry.now) }
{
    let Some(list) = waits else {
        return None;
    };
    list.iter().find(|waiting| is_waiting_named(legend, topics, waiting.process))
}

fn end_witness<'a>(end: Option<&'a KnownEnd>) -> Option<Witness<'a>>
    ensures { option_map known_spec.finding_of result ≡ option_map (λ e. known_spec.ended (known_spec.end_pair e.now)) end.entry }
{
    Some(Witness::End(end?))
}

fn value_witness<'a>(value: Option<&'a KnownValue>) -> Option<Witness<'a>>
    ensures { option_map known_spec.finding_of result ≡ option_map (λ v. known_spec.shown (known_spec.value_pair v.now)) value.entry }
{
    Some(Witness::Value(value?))
}

fn waiting_end_witness<'a>(end: Option<&'a KnownWaitingEnd>) -> Option<Witness<'a>>
    ensures { option_map known_spec.finding_of result ≡ option_map (λ x. known_spec.ended (known_spec.end_pair x.now.end)) end.entry }
{
    let waiting = end?;
    Some(Witness::End(&waiting.end))
}

// Whether a word is another, or comes before it: it is shorter, or as long and not after it in the dictionary.
fn is_up_to(word: &[u8], other: &[u8]) -> bool
    ensures { result ≡ firsts.is_up_to word.now other.now }
{
    word.len() < other.len() || (word.len() == other.len() && word <= other)
}

// The one with the first word, if both are found.
fn earlier<'a>(one: Option<Witness<'a>>, other: Option<Witness<'a>>) -> Option<Witness<'a>>
    ensures { option_map known_spec.finding_of result ≡ spec.earlier_of (option_map known_spec.finding_of one.entry) (option_map known_spec.finding_of other.entry) }
{
    match (one, other) {
        (Some(one), Some(other)) => Some(first_by_word(one, other)),
        (None, other) => other,
        (one, None) => one,
    }
}

fn first_by_word<'a>(one: Witness<'a>, other: Witness<'a>) -> Witness<'a>
    ensures { Some (known_spec.finding_of result) ≡ spec.earlier_of (Some (known_spec.finding_of one.entry)) (Some (known_spec.finding_of other.entry)) }
{
    if is_up_to(one.word(), other.word()) {
        one
    } else {
        other
    }
}

// The first end that settles an expectation that names somebody, by who waits there.
fn first_by_who<'a>(
    legend: &Legend,
    known: &'a KnownEnds,
    expectation: &Expectation,
) -> Option<Witness<'a>>
    ensures { option_map known_spec.finding_of result ≡ found_by_who (processes_of legend.now) expectation.now known.entry.now }
{
    let other = first_other(legend, &known.ends, expectation);
    let waiting = first_waiting_end(legend, &known.waiting, expectation);
    earlier(end_witness(other), waiting_end_witness(waiting))
}

// The first end that settles an expectation.
fn first_end<'a>(
    legend: &Legend,
    known: &'a KnownEnds,
    expectation: &Expectation,
) -> Option<Witness<'a>>
    ensures { (values : Spellings) → option_map known_spec.finding_of result ≡ found_end (record { values = values; processes = processes_of legend.now }) expectation.now known.entry.now }
{
    if names_who(expectation) {
        first_by_who(legend, known, expectation)
    } else {
        end_witness(first_of(legend, &known.ends, expectation))
    }
}

// The first that settles an expectation: who waits for ever, or else by its word; only ends are against `only`.
fn first_settling<'a>(
    legend: &Legend,
    known: &'a KnownEnds,
    expectation: &Expectation,
) -> Option<Witness<'a>>
    ensures { (values : Spellings) → known_spec.HasTexts values known.entry.now.values.items → option_map known_spec.finding_of result ≡ found_settling (record { values = values; processes = processes_of legend.now }) expectation.now known.entry.now }
{
    let end = first_end(legend, known, expectation);
    if let Claim::Only = expectation.claim {
        return end;
    }
    let topics = expectation.topics.as_slice();
    if let Some(one) = first_waiting(legend, &known.waits, topics) {
        return Some(Witness::Waiting(one));
    }
    earlier(end, value_witness(first_shown(&known.values, topics)))
}

// Whether no stretch was cut.
fn has_no_cut(ends: &[KnownEnd]) -> bool
    ensures { result ≡ list_all (λ e. not (match_spec.is_cut e.end)) ends.now }
{
    ends.iter().all(|end| !is_cut(end.end))
}

/// Whether all schedules were looked at, and no stretch was cut.
pub fn is_whole(known: &KnownEnds) -> bool
    ensures { result ≡ known_spec.is_whole known.now }
{
    known.looked.is_none() && has_no_cut(&known.ends)
}

/// The limits that were met: there are more states, a stretch was cut, or more values can be displayed than are kept.
pub fn stops_of(known: &KnownEnds) -> Stops
    ensures { result ≡ known_spec.stops_of known.now }
{
    Stops {
        choices: known.looked.is_some(),
        steps: !has_no_cut(&known.ends),
        output: known.values.len() > MOST_VALUES,
    }
}

// Whether all is kept that a topic speaks of.
fn is_kept(topic: &Topic, known: &KnownEnds) -> bool
    ensures { result ≡ known_spec.is_kept topic.now known.now }
{
    match topic {
        Topic::End { .. } => true,
        Topic::Waiting(_) => known.waits.is_some(),
        Topic::Shown(_) => known.values.len() <= MOST_VALUES,
    }
}

// Whether all is kept that the topics speak of.
fn are_kept(topics: &[Topic], known: &KnownEnds) -> bool
    ensures { result ≡ list_all (λ t. known_spec.is_kept t known.now) topics.now }
{
    topics.iter().all(|topic| is_kept(topic, known))
}

// Whether what is not known of an expectation is not so.
fn is_settled(expectation: &Expectation, known: &KnownEnds) -> bool
    ensures { result ≡ known_spec.is_settled expectation.now known.now }
{
    is_whole(known) && are_kept(&expectation.topics, known)
}

// The judgement by what settles an expectation first, and whether all is known.
fn judgement_from<'a>(claim: Claim, found: Option<Witness<'a>>, settled: bool) -> EndsJudgement<'a>
    ensures { result ≡ spec.judgement_of (asks_some_by claim) found.entry settled }
{
    match (claim, found) {
        (Claim::Sometimes, Some(_)) => EndsJudgement::Holds,
        (Claim::Sometimes, None) if settled => EndsJudgement::Missing,
        (Claim::Sometimes, None) => EndsJudgement::Open,
        (_, Some(witness)) => EndsJudgement::Against(witness),
        (_, None) if settled => EndsJudgement::Holds,
        (_, None) => EndsJudgement::Open,
    }
}

/// What is known of an expectation.
pub fn judge<'a>(
    legend: &Legend,
    known: &'a KnownEnds,
    expectation: &Expectation,
) -> EndsJudgement<'a>
    ensures slots { (r : Tables) (discipline : Discipline) (steps most : ℕ) → known_spec.IsKnown r discipline steps most known.entry.now → IsJudgedAny r (processes_of legend.now) discipline steps known.entry.now expectation.now result }
    ensures known { (values : Spellings) → known_spec.HasTexts values known.entry.now.values.items → IsJudgedByAny (record { values = values; processes = processes_of legend.now }) known.entry.now expectation.now result }
{
    let found = first_settling(legend, known, expectation);
    judgement_from(expectation.claim, found, is_settled(expectation, known))
}
