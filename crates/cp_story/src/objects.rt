//! A story as JSON.

ghost use Rattle.std.specs.Prelude.{◌≡◌, codes, map, option_map, IfOk, OnOk, false};
ghost use Rattle.std.specs.String.{string_bytes};
ghost use Rattle.serde_json.specs.Data.{no_members, object};
ghost use Rattle.serde_json.specs.View.{view};
ghost use Rattle.serde_json.specs.Written.{has_float};
ghost use Rattle.cp_legend.specs.Names.{legend_seen};
ghost use Rattle.cp_legend.specs.Values.{member_seen, members_of, value_seen};
ghost use Rattle.cp_run.specs.Code.{answer_of};
ghost use Rattle.cp_story.specs.Annotations.{violation_seen};
ghost use Rattle.cp_story.specs.Halted.{halted_seen};
ghost use Rattle.cp_story.specs.Objects.{array_of, line_of, members_in, number_data, numbers_data, object_with, optional, text_data, with_member, with_members};
ghost use Rattle.cp_story.specs.StoryData as spec;
ghost use Rattle.cp_story.specs.Views.{changed_of, decision_of, given_of, happened_of, told_of, wait_of};

use crate::annotation_objects::put_violation;
use crate::cause_objects::put_error_cause;
use crate::event::{Change, Choice, Happening, OpenCall, Returned, StoryEvent};
use crate::reason_objects::put_reasons;
use crate::story::{Story, Wait};
use crate::words::{error_words, kind_words, output_words, push_shown};
use cp_legend::{Legend, Member, SourceValue as Written};
use cp_machine::{Shown, Signals, Status};
use cp_run::{OutcomeKind, RunEnd};
use serde_json::{Map, Value};
use std::alloc::{AllocError, Global};

/// An object that is built member by member.
pub struct Object {
    alloc: Global,
    members: Map<String, Value>,
}

// One call where it is dropped, not one for each list: proofs of functions that may end early are much shorter.
impl Drop for Object {
    fn drop(self) {
        let Object {
            alloc: _,
            members: _,
        } = self;
    }
}

impl Object {
    /// An object without members.
    #[tactic(auto, unfolding(crate::specs::Objects::members_in))]
    pub fn new(alloc: Global) -> Object
        ensures { members_in result ≡ no_members }
    {
        Object {
            alloc,
            members: Map::new(alloc),
        }
    }

    /// Adds a member.
    #[tactic(auto, unfolding(crate::specs::Objects::members_in, crate::specs::Objects::with_member))]
    pub fn put(&mut self, name: &str, value: Value) -> Result<(), AllocError>
        ensures { OnOk result (members_in self.new ≡ with_member (members_in self.old) name.now (view value)) }
    {
        serde_json::put(&mut self.members, self.alloc, name, value)
    }

    /// Adds a text.
    pub fn text(&mut self, name: &str, text: &str) -> Result<(), AllocError>
        ensures { OnOk result (members_in self.new ≡ with_member (members_in self.old) name.now (text_data text.now)) }
    {
        self.put(name, Value::try_from_str(self.alloc, text)?)
    }

    /// Adds a number.
    pub fn number(&mut self, name: &str, number: u64) -> Result<(), AllocError>
        ensures { OnOk result (members_in self.new ≡ with_member (members_in self.old) name.now (number_data number)) }
    {
        self.put(name, Value::from(number))
    }

    /// The object with its members.
    #[tactic(auto, unfolding(crate::specs::Objects::members_in))]
    pub fn into_value(self) -> Value
        ensures { view result ≡ object (members_in self) }
    {
        let Object { alloc: _, members } = self;
        Value::Object(members)
    }

    /// Its text, on a line of its own.
    pub fn into_line(self) -> Result<String, AllocError>
        ensures { IfOk result (λ t. has_float (object (members_in self)) ≡ false → string_bytes t ≡ line_of (object (members_in self))) }
    {
        let alloc = self.alloc;
        let mut text = self.into_value().to_string(alloc)?;
        text.push('\n')?;
        Ok(text)
    }
}

/// The story as one JSON object: the event with which a round begins, processes, monitors, events, the end, and the source.
pub fn json(
    alloc: Global,
    legend: &Legend,
    story: &Story,
    again: Option<usize>,
    word: &[u8],
    source: &[String],
) -> Result<String, AllocError>
    ensures { IfOk result (λ t. string_bytes t ≡ line_of (spec.story_data (legend_seen legend.now) story.now again word.now (map string_bytes source.now))) }
{
    let whole = story_object(alloc, legend, story, again, word, source)?;
    whole.into_line()
}

fn story_object(
    alloc: Global,
    legend: &Legend,
    story: &Story,
    again: Option<usize>,
    word: &[u8],
    source: &[String],
) -> Result<Object, AllocError>
    ensures { IfOk result (λ o. object (members_in o) ≡ spec.story_data (legend_seen legend.now) story.now again word.now (map string_bytes source.now)) }
{
    let mut whole = Object::new(alloc);
    put_again(&mut whole, again)?;
    put_story(alloc, legend, &mut whole, story, word, source)?;
    Ok(whole)
}

// What a story has of its own.
#[tactic(auto, using(crate::proofs::Floats::with_both))]
fn put_story(
    alloc: Global,
    legend: &Legend,
    whole: &mut Object,
    story: &Story,
    word: &[u8],
    source: &[String],
) -> Result<(), AllocError>
    ensures { OnOk result (members_in whole.new ≡ with_members (members_in whole.old) (spec.story_members (legend_seen legend.now) story.now word.now (map string_bytes source.now))) }
{
    whole.put("processes", processes(alloc, legend)?)?;
    whole.put("monitors", monitors(alloc, legend)?)?;
    whole.put("events", events(alloc, legend, &story.events)?)?;
    whole.put("end", end(alloc, legend, story)?)?;
    put_outcome(alloc, legend, whole, story, word)?;
    whole.put("final", waits(alloc, legend, &story.waits)?)?;
    whole.put("source", lines(alloc, source)?)?;
    put_signals(whole, story.signals)?;
    put_reasons(alloc, legend, whole, &story.reasons)
}

// The event with which a round begins, if there is one.
fn put_again(object: &mut Object, again: Option<usize>) -> Result<(), AllocError>
    ensures { OnOk result (members_in object.new ≡ with_members (members_in object.old) (spec.again_members again)) }
{
    match again {
        Some(first) => object.number("again", first as u64),
        None => Ok(()),
    }
}

/// Adds the discipline, where it is another one than `return`.
pub fn put_signals(object: &mut Object, signals: Signals) -> Result<(), AllocError>
    ensures { OnOk result (members_in object.new ≡ with_members (members_in object.old) (spec.signals_members signals)) }
{
    match signals {
        Signals::Return => Ok(()),
        Signals::Continue => object.text("signals", "continue"),
        Signals::Wait => object.text("signals", "wait"),
    }
}

// What of the word was used, and what was displayed, where the run has ended.
fn put_outcome(
    alloc: Global,
    legend: &Legend,
    whole: &mut Object,
    story: &Story,
    word: &[u8],
) -> Result<(), AllocError>
    ensures { OnOk result (members_in whole.new ≡ with_members (members_in whole.old) (spec.outcome_members (legend_seen legend.now) (answer_of story.now.end) word.now)) }
{
    match &story.end {
        RunEnd::Ended { outcome, used } => {
            whole.put("used", numbers(alloc, word.get(..*used).unwrap_or(word))?)?;
            let output = output_words(alloc, legend, outcome.output.as_slice())?;
            whole.put("output", Value::String(output))
        }
        RunEnd::Wants { .. } | RunEnd::NotReady { .. } => Ok(()),
    }
}

#[tactic(auto, using(crate::proofs::Arrays::seen_step, crate::proofs::Arrays::seen_none, crate::proofs::Arrays::view_more))]
fn lines(alloc: Global, source: &[String]) -> Result<Value, AllocError>
    ensures { IfOk result (λ v. view v ≡ spec.lines_data (map string_bytes source.now)) }
{
    let mut lines = Vec::new(alloc);
    for line in source {
        lines.push(Value::String(line.clone()?))?;
    }
    Ok(Value::Array(lines))
}

/// The numbers of a word, or of monitors.
#[tactic(auto, using(crate::proofs::Arrays::number_step, crate::proofs::Arrays::number_none, crate::proofs::Arrays::view_more))]
pub fn numbers(alloc: Global, numbers: &[u8]) -> Result<Value, AllocError>
    ensures { IfOk result (λ v. view v ≡ numbers_data numbers.now) }
{
    let mut items = Vec::new(alloc);
    for number in numbers {
        items.push(Value::from(u64::from(*number)))?;
    }
    Ok(Value::Array(items))
}

fn named_value(alloc: Global, name: &str, type_name: &str) -> Result<Value, AllocError>
    ensures { IfOk result (λ v. view v ≡ spec.named_data name.now type_name.now) }
{
    let mut object = Object::new(alloc);
    object.text("name", name)?;
    object.text("type", type_name)?;
    Ok(object.into_value())
}

/// The processes with their names and types.
#[tactic(auto, using(crate::proofs::Arrays::each_more, crate::proofs::Arrays::each_none, crate::proofs::Arrays::view_more))]
pub fn processes(alloc: Global, legend: &Legend) -> Result<Value, AllocError>
    ensures { IfOk result (λ v. view v ≡ spec.processes_data (legend_seen legend.now)) }
{
    let mut items = Vec::new(alloc);
    for process in 0..legend.processes() {
        let name = legend.process_name(process);
        items.push(named_value(alloc, name, legend.process_type(process))?)?;
    }
    Ok(Value::Array(items))
}

/// The monitors with their names and types.
#[tactic(auto, using(crate::proofs::Arrays::each_more, crate::proofs::Arrays::each_none, crate::proofs::Arrays::view_more))]
pub fn monitors(alloc: Global, legend: &Legend) -> Result<Value, AllocError>
    ensures { IfOk result (λ v. view v ≡ spec.monitors_data (legend_seen legend.now)) }
{
    let mut items = Vec::new(alloc);
    for monitor in 0..legend.monitors() {
        let name = legend.monitor_name(monitor);
        items.push(named_value(alloc, name, legend.monitor_type(monitor))?)?;
    }
    Ok(Value::Array(items))
}

#[tactic(auto, using(crate::proofs::Arrays::seen_step, crate::proofs::Arrays::seen_none, crate::proofs::Arrays::view_more))]
fn events(alloc: Global, legend: &Legend, events: &[StoryEvent]) -> Result<Value, AllocError>
    ensures { IfOk result (λ v. view v ≡ spec.events_data (legend_seen legend.now) (map told_of events.now)) }
{
    let mut items = Vec::new(alloc);
    for event in events {
        items.push(event_object(alloc, legend, event)?)?;
    }
    Ok(Value::Array(items))
}

#[tactic(auto, using(crate::proofs::Floats::with_both))]
fn event_object(alloc: Global, legend: &Legend, event: &StoryEvent) -> Result<Value, AllocError>
    ensures { IfOk result (λ v. view v ≡ spec.event_data (legend_seen legend.now) (told_of event.now)) }
{
    let mut object = Object::new(alloc);
    put_cause(alloc, &mut object, event)?;
    put_happening(legend, &mut object, &event.happening)?;
    put_returned(alloc, &mut object, event)?;
    put_effects(alloc, legend, &mut object, event)?;
    Ok(object.into_value())
}

// Whose event it is, on which line, and after which choice.
#[tactic(auto, using(crate::proofs::Floats::with_both))]
fn put_cause(alloc: Global, object: &mut Object, event: &StoryEvent) -> Result<(), AllocError>
    ensures { OnOk result (members_in object.new ≡ with_members (members_in object.old) (spec.cause_members (told_of event.now))) }
{
    object.number("process", u64::from(event.plain.process))?;
    if let Some(line) = event.line {
        object.number("line", u64::from(line))?;
    }
    put_choice(alloc, object, &event.choice)
}

fn put_choice(alloc: Global, object: &mut Object, choice: &Option<Choice>) -> Result<(), AllocError>
    ensures { OnOk result (members_in object.new ≡ with_members (members_in object.old) (optional (codes "choice") spec.choice_data (option_map decision_of choice.now))) }
{
    match choice {
        Some(choice) => object.put("choice", choice_object(alloc, choice)?),
        None => Ok(()),
    }
}

// How the processes, the monitors and the variables stand after it.
fn put_effects(
    alloc: Global,
    legend: &Legend,
    object: &mut Object,
    event: &StoryEvent,
) -> Result<(), AllocError>
    ensures { OnOk result (members_in object.new ≡ with_members (members_in object.old) (spec.effect_members (legend_seen legend.now) (told_of event.now))) }
{
    object.put("woken", numbers(alloc, event.woken.as_slice())?)?;
    object.put("let_in", numbers(alloc, event.let_in.as_slice())?)?;
    object.put("status", statuses(alloc, legend, &event.statuses)?)?;
    object.put("holders", holders(alloc, event.plain.holders.as_slice())?)?;
    object.put("changes", changes(alloc, legend, &event.changes)?)
}

// What came back, where a call ended.
fn put_returned(alloc: Global, object: &mut Object, event: &StoryEvent) -> Result<(), AllocError>
    ensures { OnOk result (members_in object.new ≡ with_members (members_in object.old) (spec.returned_members (happened_of event.now.happening) (map given_of event.now.returned.items))) }
{
    match event.happening {
        Happening::Leave(_) | Happening::Continue(_, _, Signals::Return) => {
            object.put("returned", returned_values(alloc, &event.returned)?)
        }
        _ => Ok(()),
    }
}

/// What came back from a call, or variables, with their values.
#[tactic(auto, using(crate::proofs::Arrays::seen_step, crate::proofs::Arrays::seen_none, crate::proofs::Arrays::view_more))]
pub fn returned_values(alloc: Global, returned: &[Returned]) -> Result<Value, AllocError>
    ensures { IfOk result (λ v. view v ≡ array_of (map spec.given_data (map given_of returned.now))) }
{
    let mut items = Vec::new(alloc);
    for one in returned {
        items.push(returned_value(alloc, one)?)?;
    }
    Ok(Value::Array(items))
}

// A function's result has no name.
#[tactic(auto, using(crate::proofs::Floats::with_both))]
fn returned_value(alloc: Global, returned: &Returned) -> Result<Value, AllocError>
    ensures { IfOk result (λ v. view v ≡ spec.given_data (given_of returned.now)) }
{
    let mut object = Object::new(alloc);
    if !returned.name.is_empty() {
        object.text("name", returned.name.as_str())?;
    }
    object.put("value", value(alloc, &returned.value)?)?;
    Ok(object.into_value())
}

#[tactic(auto, using(crate::proofs::Floats::with_both))]
fn choice_object(alloc: Global, choice: &Choice) -> Result<Value, AllocError>
    ensures { IfOk result (λ v. view v ≡ spec.choice_data (decision_of choice.now)) }
{
    let mut object = Object::new(alloc);
    object.put("options", numbers(alloc, choice.options.as_slice())?)?;
    object.number("number", u64::from(choice.number))?;
    if choice.at_gate {
        object.put("gate", Value::Bool(true))?;
    }
    Ok(object.into_value())
}

fn put_call(legend: &Legend, object: &mut Object, call: OpenCall) -> Result<(), AllocError>
    ensures { OnOk result (members_in object.new ≡ with_members (members_in object.old) (spec.call_members (legend_seen legend.now) call)) }
{
    object.number("monitor", u64::from(call.monitor))?;
    object.text("routine", legend.routine_name(call.routine))
}

fn event_word(happening: &Happening) -> &'static str
    ensures { result.now ≡ spec.event_name (happened_of happening.now) }
{
    match happening {
        Happening::Enter { .. } => "enter",
        Happening::Leave(_) => "leave",
        Happening::Delay(..) => "delay",
        Happening::Continue(..) => "continue",
        Happening::Start(_) => "init",
        Happening::Display(_) => "display",
        Happening::End => "end",
        Happening::Admit(_) => "admit",
    }
}

#[tactic(auto, using(crate::proofs::Floats::with_both))]
fn put_happening(
    legend: &Legend,
    object: &mut Object,
    happening: &Happening,
) -> Result<(), AllocError>
    ensures { OnOk result (members_in object.new ≡ with_members (members_in object.old) (spec.happened_members (legend_seen legend.now) (happened_of happening.now))) }
{
    object.text("event", event_word(happening))?;
    match happening {
        Happening::Enter {
            call,
            arguments,
            ..
        } => {
            put_call(legend, object, *call)?;
            object.put("arguments", values(object.alloc, arguments)?)
        }
        Happening::Leave(call) | Happening::Admit(call) => put_call(legend, object, *call),
        Happening::Delay(queue, call) | Happening::Continue(queue, call, _) => {
            put_call(legend, object, *call)?;
            object.text("queue", queue.name.as_str())
        }
        Happening::Start(process) => {
            object.text("target", legend.process_name(*process))?;
            object.number("target_process", u64::from(*process))
        }
        Happening::Display(shown) => {
            object.put("value", shown_value(object.alloc, legend, *shown)?)
        }
        Happening::End => Ok(()),
    }
}

fn shown_value(alloc: Global, legend: &Legend, shown: Shown) -> Result<Value, AllocError>
    ensures { IfOk result (λ v. view v ≡ spec.shown_data (legend_seen legend.now) shown) }
{
    if let Shown::Integer(number) = shown {
        return Ok(Value::from(i64::from(number)));
    }
    let mut text = String::new(alloc);
    push_shown(legend, &mut text, shown)?;
    Ok(Value::String(text))
}

#[cycle(value_json)]
fn value(alloc: Global, written: &Written) -> Result<Value, AllocError>
    ensures { IfOk result (λ v. view v ≡ spec.value_data (value_seen written.now)) }
{
    match written {
        Written::Integer(number) => Ok(Value::from(i64::from(*number))),
        Written::Named(name) => Ok(Value::String(name.clone()?)),
        Written::List(items) | Written::Set(items) => values(alloc, items),
        Written::Record(members) => record(alloc, members),
    }
}

#[cycle(value_json)]
#[tactic(auto, using(crate::proofs::Arrays::seen_step, crate::proofs::Arrays::seen_none, crate::proofs::Arrays::view_more))]
fn values(alloc: Global, items: &[Written]) -> Result<Value, AllocError>
    ensures { IfOk result (λ v. view v ≡ array_of (map spec.value_data (map value_seen items.now))) }
{
    let mut values = Vec::new(alloc);
    for item in items {
        values.push(value(alloc, item)?)?;
    }
    Ok(Value::Array(values))
}

#[cycle(value_json)]
fn record(alloc: Global, members: &[Member]) -> Result<Value, AllocError>
    ensures { IfOk result (λ v. view v ≡ object_with (spec.fields_data (members_of (map member_seen members.now)))) }
{
    let mut object = Object::new(alloc);
    for member in members {
        object.put(member.name.as_str(), value(alloc, &member.value)?)?;
    }
    Ok(object.into_value())
}

fn put_status(legend: &Legend, object: &mut Object, status: Status) -> Result<(), AllocError>
    ensures { OnOk result (members_in object.new ≡ with_members (members_in object.old) (spec.status_members (legend_seen legend.now) status)) }
{
    match status {
        Status::Unstarted => object.text("is", "unstarted"),
        Status::Ready => object.text("is", "ready"),
        Status::AtGate(monitor) => {
            object.text("is", "gate")?;
            object.number("monitor", u64::from(monitor))
        }
        Status::Delayed(cell) => {
            object.text("is", "delayed")?;
            object.number("monitor", u64::from(legend.monitor_of(cell).unwrap_or(0)))?;
            let name = legend.permanent_name(object.alloc, cell, 1)?;
            object.text("queue", name.as_str())
        }
        Status::Ended => object.text("is", "ended"),
    }
}

#[tactic(auto, using(crate::proofs::Rows::map_step, crate::proofs::Rows::map_none, crate::proofs::Arrays::view_more))]
fn statuses(alloc: Global, legend: &Legend, statuses: &[Status]) -> Result<Value, AllocError>
    ensures { IfOk result (λ v. view v ≡ array_of (map (spec.status_data (legend_seen legend.now)) statuses.now)) }
{
    let mut items = Vec::new(alloc);
    for status in statuses {
        let mut object = Object::new(alloc);
        put_status(legend, &mut object, *status)?;
        items.push(object.into_value())?;
    }
    Ok(Value::Array(items))
}

#[tactic(auto, using(crate::proofs::Rows::map_step, crate::proofs::Rows::map_none, crate::proofs::Arrays::view_more))]
fn holders(alloc: Global, holders: &[Option<u8>]) -> Result<Value, AllocError>
    ensures { IfOk result (λ v. view v ≡ array_of (map spec.holder_data holders.now)) }
{
    let mut items = Vec::new(alloc);
    for holder in holders {
        items.push(match holder {
            Some(process) => Value::from(u64::from(*process)),
            None => Value::Null,
        })?;
    }
    Ok(Value::Array(items))
}

#[tactic(auto, using(crate::proofs::Arrays::seen_step, crate::proofs::Arrays::seen_none, crate::proofs::Arrays::view_more))]
fn changes(alloc: Global, legend: &Legend, changes: &[Change]) -> Result<Value, AllocError>
    ensures { IfOk result (λ v. view v ≡ array_of (map spec.change_data (map changed_of changes.now))) }
{
    let mut items = Vec::new(alloc);
    for change in changes {
        let mut object = Object::new(alloc);
        object.number("monitor", u64::from(change.monitor))?;
        object.text("name", change.name.as_str())?;
        object.put("value", value(alloc, &change.value)?)?;
        items.push(object.into_value())?;
    }
    Ok(Value::Array(items))
}

/// Who waits, and where.
#[tactic(auto, using(crate::proofs::Arrays::seen_step, crate::proofs::Arrays::seen_none, crate::proofs::Arrays::view_more))]
pub fn waits(alloc: Global, legend: &Legend, waits: &[Wait]) -> Result<Value, AllocError>
    ensures { IfOk result (λ v. view v ≡ spec.waits_data (legend_seen legend.now) (map wait_of waits.now)) }
{
    let mut items = Vec::new(alloc);
    for wait in waits {
        let mut object = Object::new(alloc);
        object.number("process", u64::from(wait.process))?;
        put_status(legend, &mut object, wait.status)?;
        object.put("inside", numbers(alloc, &wait.inside)?)?;
        items.push(object.into_value())?;
    }
    Ok(Value::Array(items))
}

#[tactic(auto, using(crate::proofs::Floats::with_both))]
fn end(alloc: Global, legend: &Legend, story: &Story) -> Result<Value, AllocError>
    ensures { IfOk result (λ v. view v ≡ spec.end_data (legend_seen legend.now) (answer_of story.now.end) (option_map halted_seen story.now.stop) story.now.cause (option_map violation_seen story.now.violation) (option_map decision_of story.now.last_choice)) }
{
    let mut object = Object::new(alloc);
    put_answer(alloc, &mut object, &story.end)?;
    put_stop(&mut object, story)?;
    put_error_cause(alloc, legend, &mut object, story.cause)?;
    put_violation(alloc, legend, &mut object, &story.violation)?;
    put_choice(alloc, &mut object, &story.last_choice)?;
    Ok(object.into_value())
}

// How the run ended, or who can be chosen next, or which number can't be taken.
fn put_answer(alloc: Global, object: &mut Object, end: &RunEnd) -> Result<(), AllocError>
    ensures { OnOk result (members_in object.new ≡ with_members (members_in object.old) (spec.answer_members (answer_of end.now))) }
{
    match end {
        RunEnd::Ended { outcome, .. } => {
            object.text("is", "ended")?;
            put_kind(object, outcome.kind)
        }
        RunEnd::Wants { ready } => {
            object.text("is", "wants")?;
            object.put("ready", numbers(alloc, ready.as_slice())?)
        }
        RunEnd::NotReady { place } => {
            object.text("is", "not-ready")?;
            object.number("place", *place as u64)
        }
    }
}

// Who went on to a limit and where, and who waits already in a queue that is in use.
#[tactic(auto, using(crate::proofs::Floats::with_both))]
fn put_stop(object: &mut Object, story: &Story) -> Result<(), AllocError>
    ensures { OnOk result (members_in object.new ≡ with_members (members_in object.old) (spec.stop_members (option_map halted_seen story.now.stop))) }
{
    let Some(stop) = &story.stop else {
        return Ok(());
    };
    object.number("process", u64::from(stop.process))?;
    if let Some(line) = stop.line {
        object.number("line", u64::from(line))?;
    }
    match stop.waiting {
        Some(process) => object.number("waiting", u64::from(process)),
        None => Ok(()),
    }
}

/// Adds how a run ended: its kind, and of a run error what, who and where it was.
pub fn put_kind(object: &mut Object, kind: OutcomeKind) -> Result<(), AllocError>
    ensures { OnOk result (members_in object.new ≡ with_members (members_in object.old) (spec.kind_members kind)) }
{
    object.text("kind", kind_words(kind))?;
    match kind {
        OutcomeKind::RunError {
            name,
            process,
            line,
        } => {
            object.text("name", error_words(name))?;
            object.number("process", u64::from(process))?;
            object.number("line", u64::from(line))
        }
        _ => Ok(()),
    }
}
