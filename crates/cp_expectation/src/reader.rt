//! A reader of expectations, word by word.

ghost use Rattle.std.specs.Prelude.{◌≡◌, ◌++◌, ◌∷◌, [], Some, None, map, option_map, IfOk, string_bytes};
ghost use Rattle.cp_expectation.specs.Plain.{Ends, Waits, end_of, expected_of, item_of, topic_of, who_of};
ghost use Rattle.cp_expectation.specs.Reader.{Leads, addition_of, place_of, state_of};
ghost use Rattle.cp_expectation.specs.Steps as steps;
ghost use Rattle.cp_expectation.specs.Steps.{meant_by, value_in};

use crate::expectation::{EndPattern, Expectation, OutputItem, OutputPattern, Topic, WhoPattern};
use crate::reading::Reading;
use crate::vocabulary::{as_name, claim_of, error_of, process_of, value_of};
use cp_machine::ErrorName;
use std::alloc::{AllocError, Global};

/// How much of an expectation is read.
#[derive(Drop)]
pub enum ReadPart {
    Nothing,
    /// Topics, and behind them the next one is to stand.
    Before(Expectation),
    /// Topics, an end, and `output`.
    Output(Expectation, EndPattern),
    /// Topics, and `shown`.
    Shown(Expectation),
    /// Topics, the last of them apart: it may go on.
    After(Expectation, Topic),
}

/// What a word adds to a topic.
#[derive(Drop)]
pub enum Addition {
    Name(ErrorName),
    Process(String),
    /// `..`, behind processes.
    Others,
    /// `output`.
    Output,
    Another(OutputItem),
}

/// The expectations read so far, and the one that is being read.
pub struct Reader {
    pub done: Vec<Expectation>,
    pub part: ReadPart,
    pub doubtful: Option<&'static str>,
}

// One call where it is dropped, not one for each list: proofs of functions that may end early are much shorter.
impl Drop for Reader {
    fn drop(self) {
        let Reader {
            done: _,
            part: _,
            doubtful: _,
        } = self;
    }
}

fn with_end(expectation: Expectation, end: EndPattern) -> ReadPart
    ensures { place_of result ≡ steps.After (expected_of expectation) (Ends (end_of end) None) }
{
    ReadPart::After(expectation, Topic::End { end, output: None })
}

// Behind an expectation so far, the topic that a word begins.
fn begin(expectation: Expectation, word: &str) -> Option<ReadPart>
    ensures { option_map place_of result ≡ steps.begun (expected_of expectation) word.now }
{
    match word {
        "finished" => Some(with_end(expectation, EndPattern::Finished)),
        "all-waiting" => Some(with_end(expectation, EndPattern::AllWaiting(None))),
        "run-error" => Some(with_end(expectation, EndPattern::AnyError)),
        "shown" => Some(ReadPart::Shown(expectation)),
        "alone" => Some(with_end(expectation, EndPattern::Alone(None))),
        "spins" => Some(with_end(expectation, EndPattern::Spins(None))),
        "waiting" => Some(ReadPart::After(expectation, Topic::Waiting(None))),
        _ => None,
    }
}

// ---- what a word adds

// An item of an output: a value or `..`.
fn read_item(alloc: Global, word: &str) -> Result<Option<OutputItem>, AllocError>
    ensures { IfOk result (λ i. option_map item_of i ≡ steps.item_in word.now (value_in word.now)) }
{
    match value_of(word) {
        Some(value) => Ok(Some(OutputItem::Value(String::from_str(alloc, value)?))),
        None if word == ".." => Ok(Some(OutputItem::Rest)),
        None => Ok(None),
    }
}

fn process_addition(alloc: Global, word: &str) -> Result<Option<Addition>, AllocError>
    ensures { IfOk result (λ a. option_map addition_of a ≡ option_map steps.Process (steps.process_in word.now)) }
{
    let Some(name) = process_of(word) else {
        return Ok(None);
    };
    let name = String::from_str(alloc, name)?;
    Ok(Some(Addition::Process(name)))
}

fn who_addition(alloc: Global, who: &WhoPattern, word: &str) -> Result<Option<Addition>, AllocError>
    ensures { IfOk result (λ a. option_map addition_of a ≡ steps.who_addition (who_of who.now) word.now) }
{
    if who.others {
        return Ok(None);
    }
    if word == ".." {
        return Ok(Some(Addition::Others));
    }
    process_addition(alloc, word)
}

fn name_addition(word: &str) -> Option<Addition>
    ensures { option_map addition_of result ≡ option_map steps.Name (meant_by steps.errors word.now) }
{
    Some(Addition::Name(error_of(word)?))
}

fn end_addition(alloc: Global, end: &EndPattern, word: &str) -> Result<Option<Addition>, AllocError>
    ensures { IfOk result (λ a. option_map addition_of a ≡ steps.end_addition (end_of end.now) word.now) }
{
    match end {
        EndPattern::AnyError => Ok(name_addition(word)),
        EndPattern::AllWaiting(Some(who)) => who_addition(alloc, who, word),
        EndPattern::AllWaiting(None) | EndPattern::Alone(None) | EndPattern::Spins(None) => {
            process_addition(alloc, word)
        }
        _ => Ok(None),
    }
}

fn output_addition(
    alloc: Global,
    output: &OutputPattern,
    word: &str,
) -> Result<Option<Addition>, AllocError>
    ensures { IfOk result (λ a. option_map addition_of a ≡ steps.output_addition (map item_of output.now.items.items) word.now) }
{
    if output.items.is_empty() {
        return Ok(None);
    }
    match read_item(alloc, word)? {
        Some(item) => Ok(Some(Addition::Another(item))),
        None => Ok(None),
    }
}

// What a word adds to a topic, if it does.
fn topic_addition(alloc: Global, topic: &Topic, word: &str) -> Result<Option<Addition>, AllocError>
    ensures { IfOk result (λ a. option_map addition_of a ≡ steps.addition (topic_of topic.now) word.now) }
{
    match topic {
        Topic::End {
            output: Some(output),
            ..
        } => output_addition(alloc, output, word),
        Topic::End { .. } if word == "output" => Ok(Some(Addition::Output)),
        Topic::End { end, .. } => end_addition(alloc, end, word),
        Topic::Waiting(None) => process_addition(alloc, word),
        _ => Ok(None),
    }
}

// ---- a topic with what is added

fn one_who(alloc: Global, name: String) -> Result<WhoPattern, AllocError>
    ensures { IfOk result (λ w. who_of w ≡ steps.one_who (string_bytes name)) }
{
    let mut processes = Vec::new(alloc);
    processes.push(name)?;
    Ok(WhoPattern {
        processes,
        others: false,
    })
}

fn with_process(who: WhoPattern, name: String) -> Result<WhoPattern, AllocError>
    ensures { IfOk result (λ w. who_of w ≡ steps.with_process (who_of who) (string_bytes name)) }
{
    let mut who = who;
    who.processes.push(name)?;
    Ok(who)
}

fn longer_end(alloc: Global, end: EndPattern, addition: Addition) -> Result<EndPattern, AllocError>
    ensures { IfOk result (λ e. end_of e ≡ steps.longer_end (end_of end) (addition_of addition)) }
{
    Ok(match (end, addition) {
        (EndPattern::AnyError, Addition::Name(name)) => EndPattern::Error(name),
        (EndPattern::AllWaiting(None), Addition::Process(name)) => {
            EndPattern::AllWaiting(Some(one_who(alloc, name)?))
        }
        (EndPattern::AllWaiting(Some(who)), Addition::Process(name)) => {
            EndPattern::AllWaiting(Some(with_process(who, name)?))
        }
        (EndPattern::AllWaiting(Some(who)), Addition::Others) => {
            EndPattern::AllWaiting(Some(WhoPattern {
                processes: who.processes,
                others: true,
            }))
        }
        (EndPattern::Alone(_), Addition::Process(name)) => EndPattern::Alone(Some(name)),
        (EndPattern::Spins(_), Addition::Process(name)) => EndPattern::Spins(Some(name)),
        (end, _) => end,
    })
}

fn with_item(output: OutputPattern, item: OutputItem) -> Result<OutputPattern, AllocError>
    ensures { IfOk result (λ o. map item_of o.items.items ≡ map item_of output.items.items ++ item_of item ∷ []) }
{
    let mut output = output;
    output.items.push(item)?;
    Ok(output)
}

fn add_item(
    expectation: Expectation,
    end: EndPattern,
    output: OutputPattern,
    addition: Addition,
) -> Result<ReadPart, AllocError>
    ensures { IfOk result (λ p. place_of p ≡ steps.added (expected_of expectation) (Ends (end_of end) (Some (map item_of output.items.items))) (addition_of addition)) }
{
    let output = match addition {
        Addition::Another(item) => with_item(output, item)?,
        _ => output,
    };
    let output = Some(output);
    Ok(ReadPart::After(expectation, Topic::End { end, output }))
}

fn add_to_end(
    alloc: Global,
    expectation: Expectation,
    end: EndPattern,
    addition: Addition,
) -> Result<ReadPart, AllocError>
    ensures { IfOk result (λ p. place_of p ≡ steps.added (expected_of expectation) (Ends (end_of end) None) (addition_of addition)) }
{
    match addition {
        Addition::Output => Ok(ReadPart::Output(expectation, end)),
        addition => Ok(with_end(expectation, longer_end(alloc, end, addition)?)),
    }
}

fn add_process(expectation: Expectation, process: Option<String>, addition: Addition) -> ReadPart
    ensures { place_of result ≡ steps.added (expected_of expectation) (Waits (option_map string_bytes process)) (addition_of addition) }
{
    let process = match addition {
        Addition::Process(name) => Some(name),
        _ => process,
    };
    ReadPart::After(expectation, Topic::Waiting(process))
}

fn add(
    alloc: Global,
    expectation: Expectation,
    topic: Topic,
    addition: Addition,
) -> Result<ReadPart, AllocError>
    ensures { IfOk result (λ p. place_of p ≡ steps.added (expected_of expectation) (topic_of topic) (addition_of addition)) }
{
    match topic {
        Topic::End { end, output } => match output {
            Some(output) => add_item(expectation, end, output, addition),
            None => add_to_end(alloc, expectation, end, addition),
        },
        Topic::Waiting(process) => Ok(add_process(expectation, process, addition)),
        Topic::Shown(text) => Ok(ReadPart::After(expectation, Topic::Shown(text))),
    }
}

// ---- a word

fn with_topic(expectation: Expectation, topic: Topic) -> Result<Expectation, AllocError>
    ensures { IfOk result (λ e. expected_of e ≡ steps.with_topic (expected_of expectation) (topic_of topic)) }
{
    let mut expectation = expectation;
    expectation.topics.push(topic)?;
    Ok(expectation)
}

// Reads `or`, or what begins another topic.
fn join(expectation: Expectation, word: &str) -> Option<ReadPart>
    ensures { option_map place_of result ≡ steps.joint (expected_of expectation) word.now }
{
    if word == "or" {
        return Some(ReadPart::Before(expectation));
    }
    begin(expectation, word)
}

fn after(
    alloc: Global,
    expectation: Expectation,
    topic: Topic,
    word: &str,
) -> Result<Option<ReadPart>, AllocError>
    ensures { IfOk result (λ p. option_map place_of p ≡ steps.next (steps.After (expected_of expectation) (topic_of topic)) word.now) }
{
    match topic_addition(alloc, &topic, word)? {
        Some(addition) => Ok(Some(add(alloc, expectation, topic, addition)?)),
        None => Ok(join(with_topic(expectation, topic)?, word)),
    }
}

fn with_output(expectation: Expectation, end: EndPattern, items: Vec<OutputItem>) -> ReadPart
    ensures { place_of result ≡ steps.After (expected_of expectation) (Ends (end_of end) (Some (map item_of items.items))) }
{
    let output = Some(OutputPattern { items });
    ReadPart::After(expectation, Topic::End { end, output })
}

// Reads a hyphen or the first item.
fn after_output(
    alloc: Global,
    expectation: Expectation,
    end: EndPattern,
    word: &str,
) -> Result<Option<ReadPart>, AllocError>
    ensures { IfOk result (λ p. option_map place_of p ≡ steps.next (steps.AtOutput (expected_of expectation) (end_of end)) word.now) }
{
    let mut items = Vec::new(alloc);
    if word == "-" {
        return Ok(Some(with_output(expectation, end, items)));
    }
    let Some(item) = read_item(alloc, word)? else {
        return Ok(None);
    };
    items.push(item)?;
    Ok(Some(with_output(expectation, end, items)))
}

fn after_shown(
    alloc: Global,
    expectation: Expectation,
    word: &str,
) -> Result<Option<ReadPart>, AllocError>
    ensures { IfOk result (λ p. option_map place_of p ≡ steps.next (steps.AtShown (expected_of expectation)) word.now) }
{
    let Some(value) = value_of(word) else {
        return Ok(None);
    };
    let value = String::from_str(alloc, value)?;
    Ok(Some(ReadPart::After(expectation, Topic::Shown(value))))
}

fn before_claim(alloc: Global, word: &str) -> Option<ReadPart>
    ensures { option_map place_of result ≡ steps.next steps.AtClaim word.now }
{
    Some(ReadPart::Before(Expectation {
        claim: claim_of(word)?,
        topics: Vec::new(alloc),
    }))
}

// What a word makes of a part; none where it does not fit.
fn next(alloc: Global, part: ReadPart, word: &str) -> Result<Option<ReadPart>, AllocError>
    ensures { IfOk result (λ p. option_map place_of p ≡ steps.next (place_of part) word.now) }
{
    match part {
        ReadPart::Nothing => Ok(before_claim(alloc, word)),
        ReadPart::Before(expectation) => Ok(begin(expectation, word)),
        ReadPart::Output(expectation, end) => after_output(alloc, expectation, end, word),
        ReadPart::Shown(expectation) => after_shown(alloc, expectation, word),
        ReadPart::After(expectation, topic) => after(alloc, expectation, topic, word),
    }
}

// The expectation, if it may end there.
fn whole(part: ReadPart) -> Result<Option<Expectation>, AllocError>
    ensures { IfOk result (λ e. option_map expected_of e ≡ steps.expected_at (place_of part)) }
{
    match part {
        ReadPart::After(expectation, topic) => Ok(Some(with_topic(expectation, topic)?)),
        _ => Ok(None),
    }
}

// Whether the last word that was read is an item of an output.
fn ends_in_item(part: &ReadPart) -> bool {
    match part {
        ReadPart::After(
            _,
            Topic::End {
                output: Some(output),
                ..
            },
        ) => !output.items.is_empty(),
        _ => false,
    }
}

impl Reader {
    /// Before the first word.
    pub fn new(alloc: Global) -> Reader
        ensures { state_of result ≡ steps.start }
    {
        Reader {
            done: Vec::new(alloc),
            part: ReadPart::Nothing,
            doubtful: None,
        }
    }

    /// The expectations that were read, and the word that is doubtful.
    pub fn into_reading(self) -> Reading
        ensures { result.expectations.items ≡ self.done.items }
    {
        let Reader {
            done,
            part: _,
            doubtful,
        } = self;
        Reading {
            expectations: done,
            doubtful,
        }
    }

    /// Ends the expectation that is being read. The answer tells whether it may end there.
    pub fn end(&mut self) -> Result<bool, AllocError>
        ensures { IfOk result (λ fits. Leads (steps.behind (map expected_of self.old.done.items) (steps.expected_at (place_of self.old.part))) fits (state_of self.new)) }
    {
        match whole(std::mem::replace(&mut self.part, ReadPart::Nothing))? {
            Some(expectation) => {
                self.done.push(expectation)?;
                Ok(true)
            }
            None => Ok(false),
        }
    }

    // Keeps a word in mind that begins a topic behind a value, where a constant could be meant.
    fn doubt(&mut self, word: &str)
        ensures done { self.new.done ≡ self.old.done }
        ensures part { self.new.part ≡ self.old.part }
    {
        if ends_in_item(&self.part)
            && let Some(name) = as_name(word)
        {
            self.doubtful = Some(name);
        }
    }

    /// Reads a word. The answer tells whether it fits.
    #[tactic(auto, unfolding(crate::specs::Steps::step))]
    pub fn read(&mut self, alloc: Global, word: &str) -> Result<bool, AllocError>
        ensures { IfOk result (λ fits. Leads (steps.step (state_of self.old) word.now) fits (state_of self.new)) }
    {
        if word == "and" {
            return self.end();
        }
        self.doubt(word);
        let part = std::mem::replace(&mut self.part, ReadPart::Nothing);
        match next(alloc, part, word)? {
            Some(part) => {
                self.part = part;
                Ok(true)
            }
            None => Ok(false),
        }
    }
}
