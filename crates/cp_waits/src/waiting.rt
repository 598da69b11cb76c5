//! Who may wait for ever while others go on.

ghost use Rattle.std.specs.Prelude.{◌≡◌, ℕ, true, Contains, IfOk, IfSome, MatchOption};
ghost use Rattle.std.specs.Bool.{MatchBool};
ghost use Rattle.cp_ends.specs.declared.states.States.{States};
ghost use Rattle.cp_waits.specs.declared.graph.Graph.{Graph};
ghost use Rattle.cp_waits.specs.Lines.{SayWhoWaits, HasRanks, IsAnswer, IsLine, LeavesNobodyOn, MayBeOpen, ShowsRound, StandsStillNever, NeverWaits};
ghost use Rattle.cp_waits.specs.Sets.{has};

use crate::components::{EdgeComponent, EdgeComponents, parts_of};
use crate::graph::{Graph, Standstill};
use crate::passing::Keeping;
use crate::ranks::are_ranks;
use crate::rounds::round_in;
use crate::set::Set;
use crate::traps::are_traps;
use cp_ends::states::States;
use std::alloc::{AllocError, Global};

/// How a process waits for ever.
#[derive(Clone, Copy, PartialEq, Eq)]
pub enum How {
    /// It waits in all of a round.
    Throughout,
    /// And whoever waits for ever comes to where no choice makes it ready.
    ForGood,
    /// It is woken again and again, and never comes out of its call.
    InItsCall,
}

/// A process that may wait for ever: the first word leads to a round, which the second one goes; with no numbers, to a stretch that
/// repeats without a choice.
#[derive(Drop)]
pub struct Waiting {
    pub process: u8,
    pub first: Vec<u8>,
    pub again: Vec<u8>,
    /// Those that make a step in the round.
    pub step: Set,
    pub how: How,
}

/// Who may wait for ever, by number.
#[derive(Drop)]
pub enum Waits {
    Known(Vec<Waiting>),
    /// The first process of which neither a way to wait for ever was found nor a reason why there is none.
    NotSettled(u8),
}

// What was found of a process.
#[derive(Drop)]
enum WaitFinding {
    Yes(Waiting),
    No,
    NotSettled,
}

// A fair component.
#[derive(Clone, Copy)]
struct Fair {
    number: u32,
    first: u32,
    is_trap: bool,
}

/// Looks for each process whether it may wait for ever.
pub fn who_waits(alloc: Global, graph: &Graph, states: &States) -> Result<Waits, AllocError>
    ensures { IfOk result (λ waits. SayWhoWaits graph.now states.now waits) }
{
    let mut list = Vec::new(alloc);
    for process in 0..graph.processes {
        match answer_of(alloc, graph, states, process)? {
            WaitFinding::Yes(waiting) => list.push(waiting)?,
            WaitFinding::No => {}
            WaitFinding::NotSettled => return Ok(Waits::NotSettled(process)),
        }
    }
    Ok(Waits::Known(list))
}

fn answer_of(
    alloc: Global,
    graph: &Graph,
    states: &States,
    process: u8,
) -> Result<WaitFinding, AllocError>
    ensures { IfOk result (λ answer. IsAnswer graph.now states.now process answer) }
{
    let keeping = Keeping::Waiting(process);
    let parts = parts_of(alloc, graph, keeping)?;
    match standstill_of(graph, process) {
        Some(still) => answer_with(alloc, graph, states, &parts, process, &still),
        None => answer_without(alloc, graph, states, &parts, process),
    }
}

// Of a process that waits in a stretch that goes on for ever without a choice.
fn answer_with(
    alloc: Global,
    graph: &Graph,
    states: &States,
    parts: &EdgeComponents,
    process: u8,
    still: &Standstill,
) -> Result<WaitFinding, AllocError>
    requires known { Contains graph.now.standstills.items still.now }
    requires waits { has still.now.again.wait process ≡ true }
    ensures { IfOk result (λ answer. IsAnswer graph.now states.now process answer) }
{
    if let Some(fair) = fair_part(graph, parts, Keeping::Waiting(process))
        && !fair.is_trap
    {
        let found = round_of(alloc, graph, states, parts, process, fair)?;
        return Ok(found_or_open(found));
    }
    let found = standing_still(alloc, graph, states, parts, process, still)?;
    Ok(found_or_open(found))
}

fn found_or_open(found: Option<Waiting>) -> WaitFinding
    ensures { (g : Graph) (states : States) (q : ℕ) → IfSome found (IsLine g states q) → MayBeOpen g q → IsAnswer g states q result }
{
    match found {
        Some(waiting) => WaitFinding::Yes(waiting),
        None => WaitFinding::NotSettled,
    }
}

// Of a process that waits in no such stretch.
fn answer_without(
    alloc: Global,
    graph: &Graph,
    states: &States,
    parts: &EdgeComponents,
    process: u8,
) -> Result<WaitFinding, AllocError>
    requires { StandsStillNever graph.now process }
    ensures { IfOk result (λ answer. IsAnswer graph.now states.now process answer) }
{
    let keeping = Keeping::Waiting(process);
    if let Some(fair) = fair_part(graph, parts, keeping)
        && let Some(waiting) = round_of(alloc, graph, states, parts, process, fair)?
    {
        return Ok(WaitFinding::Yes(waiting));
    }
    let never = never_keeps(alloc, graph, parts, keeping)?;
    if never {
        answer_in_call(alloc, graph, states, process)
    } else {
        Ok(WaitFinding::NotSettled)
    }
}

// Whether the process surely does not keep doing this for ever. If not, nobody is left unserved while it does.
fn never_keeps(
    alloc: Global,
    graph: &Graph,
    parts: &EdgeComponents,
    keeping: Keeping,
) -> Result<bool, AllocError>
    ensures { IfOk result (λ never. MatchBool never (HasRanks graph.now keeping) (LeavesNobodyOn graph.now keeping)) }
{
    if are_ranks(graph, parts, keeping) {
        return Ok(true);
    }
    for process in 0..graph.processes {
        let alone = EdgeComponents::passing_over(alloc, process)?;
        if are_ranks(graph, &alone, keeping) {
            return Ok(true);
        }
    }
    Ok(false)
}

// The round of a process that waits in all of it.
fn round_of(
    alloc: Global,
    graph: &Graph,
    states: &States,
    parts: &EdgeComponents,
    process: u8,
    fair: Fair,
) -> Result<Option<Waiting>, AllocError>
    ensures { IfOk result (λ found. IfSome found (IsLine graph.now states.now process)) }
{
    if fair.is_trap {
        return round_for_good(alloc, graph, states, parts, process, fair);
    }
    let keeping = Keeping::Waiting(process);
    lasso(
        alloc,
        graph,
        states,
        parts,
        keeping,
        fair,
        process,
        How::Throughout,
    )
}

// The same where no choice makes it ready any more.
fn round_for_good(
    alloc: Global,
    graph: &Graph,
    states: &States,
    parts: &EdgeComponents,
    process: u8,
    fair: Fair,
) -> Result<Option<Waiting>, AllocError>
    ensures { IfOk result (λ found. IfSome found (IsLine graph.now states.now process)) }
{
    let keeping = Keeping::Waiting(process);
    if !are_traps(graph, parts, keeping) {
        return Ok(None);
    }
    lasso(
        alloc,
        graph,
        states,
        parts,
        keeping,
        fair,
        process,
        How::ForGood,
    )
}

// A stretch in which a process waits goes on for ever without a choice.
fn standing_still(
    alloc: Global,
    graph: &Graph,
    states: &States,
    parts: &EdgeComponents,
    process: u8,
    still: &Standstill,
) -> Result<Option<Waiting>, AllocError>
    requires known { Contains graph.now.standstills.items still.now }
    requires waits { has still.now.again.wait process ≡ true }
    ensures { IfOk result (λ found. IfSome found (IsLine graph.now states.now process)) }
{
    if !are_traps(graph, parts, Keeping::Waiting(process)) {
        return Ok(None);
    }
    Ok(Some(Waiting {
        process,
        first: states.word(alloc, still.origin)?,
        again: Vec::new(alloc),
        step: still.again.step,
        how: How::ForGood,
    }))
}

// The same of a process that waits in no round throughout.
fn answer_in_call(
    alloc: Global,
    graph: &Graph,
    states: &States,
    process: u8,
) -> Result<WaitFinding, AllocError>
    requires { NeverWaits graph.now process }
    ensures { IfOk result (λ answer. IsAnswer graph.now states.now process answer) }
{
    let keeping = Keeping::Inside(process);
    let parts = parts_of(alloc, graph, keeping)?;
    if let Some(fair) = fair_part(graph, &parts, keeping)
        && let Some(waiting) = lingering(alloc, graph, states, &parts, process, fair)?
    {
        return Ok(WaitFinding::Yes(waiting));
    }
    let never = never_keeps(alloc, graph, &parts, keeping)?;
    if never {
        Ok(WaitFinding::No)
    } else {
        Ok(WaitFinding::NotSettled)
    }
}

// The round of a process that never comes out of its call in it.
fn lingering(
    alloc: Global,
    graph: &Graph,
    states: &States,
    parts: &EdgeComponents,
    process: u8,
    fair: Fair,
) -> Result<Option<Waiting>, AllocError>
    requires { NeverWaits graph.now process }
    ensures { IfOk result (λ found. IfSome found (IsLine graph.now states.now process)) }
{
    lasso(
        alloc,
        graph,
        states,
        parts,
        Keeping::Inside(process),
        fair,
        process,
        How::InItsCall,
    )
}

// A fair component: no trap if there is such a one, and then the one that is come to first.
fn fair_part(graph: &Graph, parts: &EdgeComponents, keeping: Keeping) -> Option<Fair> {
    let everybody = graph.everybody();
    let mut best = None;
    let mut number = 0u32;
    for part in &parts.parts {
        if part.is_fair(everybody, keeping) && is_better(part, best) {
            best = Some(Fair {
                number,
                first: part.least,
                is_trap: part.is_trap,
            });
        }
        number = number.saturating_add(1);
    }
    best
}

fn is_better(part: &EdgeComponent, best: Option<Fair>) -> bool {
    match best {
        None => true,
        Some(best) => {
            if part.is_trap == best.is_trap {
                part.least < best.first
            } else {
                best.is_trap
            }
        }
    }
}

fn standstill_of(graph: &Graph, process: u8) -> Option<Standstill>
    ensures { MatchOption result (StandsStillNever graph.now process) (λ still. Contains graph.now.standstills.items still × (has still.again.wait process ≡ true)) }
{
    for still in &graph.standstills {
        if still.again.wait.has(process) {
            return Some(*still);
        }
    }
    None
}

// The words of a fair component.
fn lasso(
    alloc: Global,
    graph: &Graph,
    states: &States,
    parts: &EdgeComponents,
    keeping: Keeping,
    fair: Fair,
    process: u8,
    how: How,
) -> Result<Option<Waiting>, AllocError>
    ensures { IfOk result (λ found. IfSome found (λ waiting. (waiting.process ≡ process) × (waiting.how ≡ how) × ShowsRound graph.now states.now keeping waiting)) }
{
    let found = round_in(alloc, graph, parts, keeping, fair.number, fair.first)?;
    let Some(round) = found else {
        return Ok(None);
    };
    Ok(Some(Waiting {
        process,
        first: states.word(alloc, states.origin(fair.first))?,
        again: round.word,
        step: round.step,
        how,
    }))
}
