//! The outcomes of all schedules.

ghost use Rattle.std.specs.Prelude.{◌≡◌, map, IfOk, IfSome};
ghost use Rattle.cp_run.specs.Slots.{slots};
ghost use Rattle.cp_run.specs.Table.{table};
ghost use Rattle.cp_walk.specs.Report.{same_outcome};
ghost use Rattle.cp_merged.specs.Code.{tally_of};
ghost use Rattle.cp_merged.specs.Tallies.{tally};

use crate::ends::put_plain_end;
use crate::json::Json;
use cp_ends::End;
use cp_legend::Legend;
use cp_machine::Shown;
use cp_merged::{MergeFault, Tallies, Tally, explore_merged_with};
use cp_natural::{Natural, push_natural};
use cp_progress::ObserveProgress;
use cp_story::output_words;
use cp_walk::Job;
use std::alloc::{AllocError, Global};

/// The most outcomes that a page has.
pub const MOST_LISTED: usize = 2000;

/// The outcomes of all schedules, if there are not too many states or outcomes.
pub fn survey<O: ObserveProgress>(
    alloc: Global,
    job: Job,
    states: usize,
    observer: &mut O,
) -> Result<Option<Tallies>, AllocError>
    ensures { IfOk result (λ found. IfSome found (λ ts. map tally_of ts ≡ tally same_outcome (table (slots job.entry.program.now job.entry.limits.discipline) job.entry.limits.choices job.entry.limits.steps))) }
{
    match explore_merged_with(alloc, job, states, observer) {
        Ok(tallies) => Ok(Some(tallies)),
        Err(MergeFault::Memory) => Err(AllocError),
        Err(_) => Ok(None),
    }
}

/// Appends the outcomes: `[end, output, count, [number, ..]]`, the numbers those of the first schedule.
pub fn put_outcomes(
    alloc: Global,
    json: &mut Json,
    legend: &Legend,
    tallies: &[Tally],
) -> Result<(), AllocError> {
    json.open();
    for tally in tallies.get(0..MOST_LISTED).unwrap_or(tallies) {
        json.open();
        put_plain_end(json, End::Over(tally.outcome.kind));
        json.put_quoted(output_text(alloc, legend, tally.outcome.output.as_slice())?.as_str());
        json.put_quoted(digits_of(alloc, &tally.count)?.as_str());
        json.put_processes(tally.first.as_slice());
        json.close();
    }
    json.close();
    Ok(())
}

/// The displayed values with a space between them.
pub fn output_text(alloc: Global, legend: &Legend, values: &[Shown]) -> Result<String, AllocError> {
    if values.is_empty() {
        return Ok(String::new(alloc));
    }
    output_words(alloc, legend, values)
}

/// A number in digits.
pub fn digits_of(alloc: Global, number: &Natural) -> Result<String, AllocError> {
    let mut digits = String::new(alloc);
    push_natural(&mut digits, number)?;
    Ok(digits)
}

/// The first schedules of the first outcomes, up to so many.
pub fn first_words(
    alloc: Global,
    tallies: &[Tally],
    most: usize,
) -> Result<Vec<Vec<u8>>, AllocError> {
    let mut words = Vec::new(alloc);
    for tally in tallies.get(0..most).unwrap_or(tallies) {
        words.push(Vec::from_slice(alloc, tally.first.as_slice())?)?;
    }
    Ok(words)
}
