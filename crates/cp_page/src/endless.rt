//! Schedules of any length: the ends that are possible, and who may wait for ever.

ghost use Rattle.std.specs.Prelude.{IfOk, IfSome};
ghost use Rattle.cp_ends.specs.Whole.{IsAnswer};
ghost use Rattle.cp_waits.specs.Named.{TellOfAll};

use crate::ends::put_plain_end;
use crate::json::Json;
use crate::subject::{MOST_STATES, PageSubject};
use cp_ends::Found;
use cp_legend::Legend;
use cp_progress::ObserveProgress;
use cp_run::Job;
use cp_waits::{FoundWaits, How, Waiting, Waits, find_waits};
use std::alloc::{AllocError, Global};

/// What is possible in schedules of any length.
#[derive(Drop)]
pub struct Endless {
    pub found: Found,
    /// Who may wait for ever, where there are not too many states.
    pub waits: Option<Waits>,
}

/// Which ends are possible, and who may wait for ever.
pub fn endless_of<O: ObserveProgress>(
    alloc: Global,
    subject: PageSubject<'_>,
    observer: &mut O,
) -> Result<Endless, AllocError>
    ensures ends { IfOk result (λ e. IsAnswer subject.entry.program.now subject.entry.limits.discipline subject.entry.limits.steps 200000 e.found) }
    ensures waits { IfOk result (λ e. IfSome e.waits (λ waits. TellOfAll subject.entry.program.now subject.entry.limits.discipline subject.entry.limits.steps e.found waits)) }
{
    let PageSubject {
        program,
        limits,
        ..
    } = subject;
    let FoundWaits { found, waits } = find_waits(
        alloc,
        &Job { program, limits },
        MOST_STATES,
        true,
        observer,
    )?;
    Ok(Endless { found, waits })
}

impl Endless {
    /// The words along which the page goes on to their ends: the first ones of the ends, and the rounds.
    pub fn words(&self, alloc: Global) -> Result<Vec<Vec<u8>>, AllocError> {
        let mut words = Vec::new(alloc);
        for end in &self.found.ends {
            words.push(self.found.states.word(alloc, end.origin)?)?;
        }
        for waiting in self.known_waits() {
            words.push(whole_word(alloc, waiting)?)?;
        }
        Ok(words)
    }

    fn known_waits(&self) -> &[Waiting] {
        match &self.waits {
            Some(Waits::Known(list)) => list,
            _ => &[],
        }
    }

    /// The ends, how far was looked, and who may wait for ever.
    pub fn put(&self, alloc: Global, json: &mut Json, legend: &Legend) -> Result<(), AllocError> {
        json.put_member("isWhole", self.found.stopped.is_none());
        json.put_member("found", self.found.states.len());
        if let Some(stopped) = self.found.stopped {
            self.put_reach(alloc, json, stopped)?;
        }
        json.put_member("more", 0u8);
        json.put_name("outcomes");
        self.put_ends(alloc, json)?;
        json.put_name("waits");
        match &self.waits {
            Some(Waits::Known(list)) => put_waits(json, legend, list),
            _ => json.put_plain("null"),
        }
        Ok(())
    }

    // Of how many choices all schedules were looked at, where there are too many states to look at all.
    fn put_reach(&self, alloc: Global, json: &mut Json, stopped: u32) -> Result<(), AllocError> {
        let states = &self.found.states;
        let word = states.word(alloc, states.origin(stopped))?;
        json.put_member("within", word.len());
        Ok(())
    }

    // The ends as outcomes without output and count: `[end, "", "", [number, ..]]`.
    fn put_ends(&self, alloc: Global, json: &mut Json) -> Result<(), AllocError> {
        json.open();
        for end in &self.found.ends {
            json.open();
            put_plain_end(json, end.end);
            json.put_quoted("");
            json.put_quoted("");
            json.put_processes(&self.found.states.word(alloc, end.origin)?);
            json.close();
        }
        json.close();
        Ok(())
    }
}

// The word that leads to a round, and that of the round.
fn whole_word(alloc: Global, waiting: &Waiting) -> Result<Vec<u8>, AllocError> {
    let mut word = Vec::from_slice(alloc, &waiting.first)?;
    word.extend_from_slice(&waiting.again)?;
    Ok(word)
}

// Who may wait for ever: `[process, how, [other, ..], [number, ..], [number, ..]]`, the others those that go on meanwhile.
fn put_waits(json: &mut Json, legend: &Legend, list: &[Waiting]) {
    json.open();
    for waiting in list {
        put_waiting(json, legend, waiting);
    }
    json.close();
}

fn put_waiting(json: &mut Json, legend: &Legend, waiting: &Waiting) {
    json.open();
    json.put_plain(waiting.process);
    json.put_quoted(how_words(waiting.how));
    json.open();
    let others = waiting.step.without(waiting.process);
    for process in 0..legend.processes() {
        if others.has(process) {
            json.put_plain(process);
        }
    }
    json.close();
    json.put_processes(&waiting.first);
    json.put_processes(&waiting.again);
    json.close();
}

fn how_words(how: How) -> &'static str {
    match how {
        How::Throughout => "throughout",
        How::ForGood => "for good",
        How::InItsCall => "in its call",
    }
}
