//! The options that words give, as `clap` matches them.
ghost use Rattle.std.specs.Prelude.{◌≡◌, Some, codes, option_map};
ghost use Rattle.clap.specs.Words.{first_of, found_of, rows_of};
ghost use Rattle.cp_tool.specs.Analysis.{analysis_for, most_choices, usual_choices};
ghost use Rattle.cp_tool.specs.Finds.{Obtains};
ghost use Rattle.cp_tool.specs.Numbers.{IsChosen};
ghost use Rattle.cp_tool.specs.Options.{HasOptions, IsCut};

use crate::analysis::{Analysis, AnalysisFlags};
use crate::numbers::{number_of, number_reason, parse_number};
use crate::options::{OptionFault, Options};
use crate::rules::{check_rules, discipline_of};
use crate::schedule::schedule_of;
use crate::texts::text_of;
use clap::ArgMatches;
use std::alloc::{AllocError, Global};

/// What each program reads in its own way.
#[derive(Clone, Copy)]
pub struct OwnWords<'a> {
    pub flags: AnalysisFlags,
    /// Whether a schedule has as many choices as it can where no word says how many, and not 8.
    pub is_longest: bool,
    /// The one schedule, as it is written.
    pub schedule: Option<&'a str>,
}

/// The options, or why the first word that gives none is refused.
pub fn options_of(
    alloc: Global,
    matches: &ArgMatches<'_>,
    own: OwnWords<'_>,
) -> Result<Options, OptionFault>
    ensures { Obtains (HasOptions own.entry.flags own.entry.is_longest (option_map (λ s. s.now) own.entry.schedule) (rows_of (found_of matches.now))) result }
{
    let analysis = analysis_of(alloc, own.flags)?;
    check_rules(alloc, matches, analysis)?;
    let usual_states = analysis.usual_states();
    Ok(Options {
        choices: choices_of(alloc, matches, analysis, own.is_longest)? as u8,
        steps: number_of(alloc, matches, "steps", 1_000, 1, 100_000)?,
        workers: number_of(alloc, matches, "workers", 1, 1, 16)? as u8,
        cut: cut_of(alloc, matches)?,
        analysis,
        states: number_of(alloc, matches, "states", usual_states, 1, 10_000_000)?,
        schedule: schedule_of(alloc, own.schedule, analysis.most_choices())?,
        discipline: discipline_of(alloc, matches)?,
    })
}

fn analysis_of(alloc: Global, flags: AnalysisFlags) -> Result<Analysis, OptionFault>
    ensures { Obtains (λ a. analysis_for flags ≡ Some a) result }
{
    match flags.analysis() {
        Ok(analysis) => Ok(analysis),
        Err(why) => Err(OptionFault::Refused(String::from_str(alloc, why)?)),
    }
}

fn choices_of(
    alloc: Global,
    matches: &ArgMatches<'_>,
    analysis: Analysis,
    is_longest: bool,
) -> Result<u32, OptionFault>
    ensures { Obtains (IsChosen (usual_choices is_longest analysis) 0 (most_choices analysis) (first_of (codes "choices") (rows_of (found_of matches.now)))) result }
{
    let most = u32::from(analysis.most_choices());
    let usual = if is_longest { most } else { 8 };
    let text = text_of(matches, "choices");
    match parse_number(text, usual, 0, most) {
        Some(choices) => Ok(choices),
        None => {
            let why = choices_reason(alloc, text.unwrap_or(""), most)?;
            Err(OptionFault::Refused(why))
        }
    }
}

// Why a text is no number of choices.
fn choices_reason(alloc: Global, text: &str, most: u32) -> Result<String, AllocError> {
    if parse_number(Some(text), 0, 0, 100).is_some() {
        return format!(in alloc; "--choices {text}: at most 20 without --merge");
    }
    number_reason(alloc, "choices", text, 0, most)
}

fn cut_of(alloc: Global, matches: &ArgMatches<'_>) -> Result<Option<u8>, OptionFault>
    ensures { Obtains (IsCut (first_of (codes "cut") (rows_of (found_of matches.now)))) result }
{
    if text_of(matches, "cut").is_none() {
        return Ok(None);
    }
    Ok(Some(number_of(alloc, matches, "cut", 0, 0, 20)? as u8))
}
