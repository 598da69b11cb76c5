//! The data of a page: one JSON object.

ghost use Rattle.std.specs.Prelude.{◌≡◌, [], All, IfOk};
ghost use Rattle.cp_machine.specs.System.{machine_of, opening, IsStateOf};

use crate::endless::endless_of;
use crate::graph::PageGraph;
use crate::json::Json;
use crate::keys::Merging;
use crate::onward::tell_onward;
use crate::outcomes::{MOST_LISTED, first_words, put_outcomes, survey};
use crate::register::Register;
use crate::schedules::{EndlessSchedules, LimitedSchedules, Schedules};
use crate::source::put_source;
use crate::subject::{Length, MOST_STATES, PageSubject};
use crate::teller::Teller;
use cp_legend::Legend;
use cp_machine::{Gates, Signals, State};
use cp_merged::Tally;
use cp_progress::ObserveProgress;
use cp_run::OutcomeKind;
use cp_search::{SearchJob, Visit, visit_all};
use cp_slots::Resolved;
use cp_walk::Job;
use std::alloc::{AllocError, Global};

/// The first outcomes, whose first schedules are gone along to their ends.
const MOST_LAID_OUT: usize = 500;

/// What is told where the page does not expand a state.
#[derive(Clone, Copy)]
enum Edge {
    /// How many schedules lead on to which outcome.
    Counted,
    /// Nothing.
    Open,
}

/// The data of a page.
pub fn data<O: ObserveProgress>(
    alloc: Global,
    subject: PageSubject<'_>,
    observer: &mut O,
) -> Result<Json, AllocError> {
    let mut json = Json::new(alloc);
    json.begin();
    put_limits(&mut json, subject);
    put_names(&mut json, subject.legend);
    json.put_name("source");
    put_source(&mut json, subject.source);
    match subject.length {
        Length::Limited => put_counted(alloc, &mut json, subject, observer)?,
        Length::Any => put_endless(alloc, &mut json, subject, observer)?,
    }
    json.end();
    Ok(json)
}

// The graph, and the outcomes of all schedules with their counts.
fn put_counted<O: ObserveProgress>(
    alloc: Global,
    json: &mut Json,
    subject: PageSubject<'_>,
    observer: &mut O,
) -> Result<(), AllocError> {
    let job = Job {
        program: subject.program,
        limits: subject.limits,
    };
    let found = survey(alloc, job, MOST_STATES as usize, observer)?;
    let tallies = match &found {
        Some(tallies) => tallies.as_slice(),
        None => &[],
    };
    let edge = if found.is_some() {
        Edge::Counted
    } else {
        Edge::Open
    };
    let words = first_words(alloc, tallies, MOST_LAID_OUT)?;
    put_graph::<LimitedSchedules, O>(
        alloc,
        json,
        subject,
        observer,
        merging_for(tallies),
        edge,
        &words,
    )?;
    json.put_member("isWhole", found.is_some());
    json.put_member("more", tallies.len().saturating_sub(MOST_LISTED));
    json.put_name("outcomes");
    put_outcomes(alloc, json, subject.legend, tallies)
}

// The graph, the ends that are possible in schedules of any length, and who may wait for ever.
fn put_endless<O: ObserveProgress>(
    alloc: Global,
    json: &mut Json,
    subject: PageSubject<'_>,
    observer: &mut O,
) -> Result<(), AllocError> {
    let endless = endless_of(alloc, subject, observer)?;
    let words = endless.words(alloc)?;
    put_graph::<EndlessSchedules, O>(
        alloc,
        json,
        subject,
        observer,
        Merging::WithoutOutput,
        Edge::Open,
        &words,
    )?;
    endless.put(alloc, json, subject.legend)
}

fn put_limits(json: &mut Json, subject: PageSubject<'_>) {
    json.put_member("format", 1u8);
    match subject.length {
        Length::Limited => json.put_member("choices", subject.limits.choices),
        Length::Any => json.put_member("choices", "null"),
    }
    json.put_member("steps", subject.limits.steps);
    json.put_name("gates");
    json.put_quoted(match subject.limits.discipline.gates {
        Gates::First => "first",
        Gates::Any => "any",
    });
    put_signals(json, subject.limits.discipline.signals);
    json.put_member("states", subject.states);
    json.put_name("word");
    json.put_processes(subject.word);
    json.put_member("round", subject.round);
}

// The discipline, where it is another one than `return`.
fn put_signals(json: &mut Json, signals: Signals) {
    let name = match signals {
        Signals::Return => return,
        Signals::Continue => "continue",
        Signals::Wait => "wait",
    };
    json.put_name("signals");
    json.put_quoted(name);
}

// The names and types of processes and monitors.
fn put_names(json: &mut Json, legend: &Legend) {
    json.put_name("processes");
    json.open();
    for process in 0..legend.processes() {
        put_pair(
            json,
            legend.process_name(process),
            legend.process_type(process),
        );
    }
    json.close();
    json.put_name("monitors");
    json.open();
    for monitor in 0..legend.monitors() {
        put_pair(
            json,
            legend.monitor_name(monitor),
            legend.monitor_type(monitor),
        );
    }
    json.close();
}

fn put_pair(json: &mut Json, name: &str, type_name: &str) {
    json.open();
    json.put_quoted(name);
    json.put_quoted(type_name);
    json.close();
}

// The variables that stay with their first values, the states and the edges that are found, and the tables on which they stand.
fn put_graph<K: Schedules, O: ObserveProgress>(
    alloc: Global,
    json: &mut Json,
    subject: PageSubject<'_>,
    observer: &mut O,
    merging: Merging,
    edge: Edge,
    words: &[Vec<u8>],
) -> Result<(), AllocError> {
    let job = SearchJob {
        alloc,
        run: Job {
            program: subject.program,
            limits: subject.limits,
        },
        most: subject.states,
    };
    let mut state = State::start(alloc, job.run.program, job.run.limits.discipline)?;
    let mut graph: PageGraph<'_, K> = PageGraph::new(alloc, subject, &state, merging)?;
    put_from(
        &job,
        json,
        observer,
        &mut graph,
        &mut state,
        subject.word,
        edge,
        words,
    )
}

// The same, of schedules that begin in this state, where the graph has no states yet.
fn put_from<K: Schedules, O: ObserveProgress>(
    job: &SearchJob<'_>,
    json: &mut Json,
    observer: &mut O,
    graph: &mut PageGraph<'_, K>,
    state: &mut State,
    first: &[u8],
    edge: Edge,
    words: &[Vec<u8>],
) -> Result<(), AllocError>
    requires own { IsStateOf job.now.run.program.now state.old }
    requires start { machine_of state.old ≡ opening job.now.run.program.now job.now.run.limits.discipline }
    requires none { graph.old.states.items ≡ [] }
{
    let views = put_start(json, job.run.program, state, &mut graph.teller)?;
    let start = lay_out(job, observer, graph, state, first, words)?;
    if let Edge::Counted = edge {
        tell_onward(job, graph, start)?;
    }
    put_found(json, graph, start, &views);
    Ok(())
}

// The variables that stay, with their first values. The answer is where each process stands before it is started.
fn put_start<K: Schedules>(
    json: &mut Json,
    program: &Resolved,
    state: &State,
    teller: &mut Teller<'_, K>,
) -> Result<Json, AllocError>
    requires { IsStateOf program.now state.now }
{
    let Teller { register, kept, .. } = teller;
    json.put_name("variables");
    register.put_variables(json, kept, &state.permanents)?;
    first_views(program, state, register)
}

// The states and the edges that are found, with the tables. These are the edge before the first choice and the views at the start.
fn put_found<K: Schedules>(json: &mut Json, graph: &PageGraph<'_, K>, start: usize, views: &Json) {
    json.put_name("start");
    json.open();
    json.put_plain(start);
    json.put_value(views);
    json.close();
    json.put_name("nodes");
    graph.put_nodes(json);
    graph.teller.register.put(json);
}

// Which states are merged where these are the outcomes.
fn merging_for(tallies: &[Tally]) -> Merging {
    let is_limited = |tally: &Tally| tally.outcome.kind == OutcomeKind::OutputLimit;
    if tallies.iter().any(is_limited) {
        Merging::WithOutput
    } else {
        Merging::WithoutOutput
    }
}

// Where each process stands in a state before it is started: the views of all.
fn first_views(
    program: &Resolved,
    state: &State,
    register: &mut Register<'_>,
) -> Result<Json, AllocError>
    requires { IsStateOf program.now state.now }
{
    let mut views = Json::new(register.alloc);
    views.open();
    for process in 0..program.processes() {
        views.put_plain(register.place_view(program, state, process)?);
    }
    views.close();
    Ok(views)
}

// Finds the states: the first ones, those along the schedule that is laid out at first, and those along words. The answer is the edge before the
// first choice.
fn lay_out<K: Schedules, O: ObserveProgress>(
    job: &SearchJob<'_>,
    observer: &mut O,
    graph: &mut PageGraph<'_, K>,
    state: &mut State,
    first: &[u8],
    words: &[Vec<u8>],
) -> Result<usize, AllocError>
    requires own { IsStateOf job.now.run.program.now state.old }
    requires start { machine_of state.old ≡ opening job.now.run.program.now job.now.run.limits.discipline }
    requires none { graph.old.states.items ≡ [] }
    ensures states { IfOk result (λ _. All (IsStateOf job.now.run.program.now) graph.new.states.items) }
{
    let start = graph.begin(job, state)?;
    let mut next = state.copy(job.alloc)?;
    visit_all(job, graph, state, &mut next, observer)?;
    graph.lay(job, start, first, state, &mut next)?;
    lay_words(job, observer, graph, start, words, state, &mut next)?;
    Ok(start)
}

// Finds the states along words, until so many were expanded for these.
fn lay_words<K: Schedules, O: ObserveProgress>(
    job: &SearchJob<'_>,
    observer: &mut O,
    graph: &mut PageGraph<'_, K>,
    start: usize,
    words: &[Vec<u8>],
    state: &mut State,
    next: &mut State,
) -> Result<(), AllocError>
    requires own { IsStateOf job.now.run.program.now state.old }
    requires next { IsStateOf job.now.run.program.now next.old }
    requires states { All (IsStateOf job.now.run.program.now) graph.old.states.items }
    ensures states { IfOk result (λ _. All (IsStateOf job.now.run.program.now) graph.new.states.items) }
{
    let mut left = job.most as usize;
    for word in words {
        if left == 0 {
            break;
        }
        let choices = u32::try_from(word.len()).unwrap_or(u32::MAX);
        observer.observe_progress(graph.progress(choices));
        left = left.saturating_sub(graph.lay(job, start, word, state, next)?);
    }
    Ok(())
}
