//! The options of the words of `cpx`.
ghost use Rattle.std.specs.Prelude.{◌≡◌, ◌≤◌, Err, IfErr, IfOk, codes, length, map, option_map, true};
ghost use Rattle.clap.specs.Words.{first_of, found_of, rows_of};
ghost use Rattle.cp_tool.specs.Finds.{Refuses};
ghost use Rattle.cp_tool.specs.Options.{Gives, HasRefusedValue, IsFaultFor, asks_version, flags_of};

use crate::analysis::AnalysisFlags;
use crate::command::command;
use crate::options::{OptionFault, Options};
use crate::reading::{OwnWords, options_of};
use crate::reason::{SourceReading, word_reason};
use crate::texts::{is_asked, text_of};
use clap::ArgMatches;
use clap::error::ErrorKind;
use std::alloc::{AllocError, Global};

/// How the program is given its source.
const READING: SourceReading<'static> = SourceReading {
    program: "cpx",
    script: "./explore",
};

/// The options, as `clap` matches the words, of which the first is the program's name. The version is asked for by a word that stands alone. Where the
/// words ask for help, they are refused if a word before that is.
pub fn read_options<'a>(alloc: Global, words: &'a [&'a str]) -> Result<Options, OptionFault>
    ensures options { IfOk result (Gives (map (λ s. s.now) words.entry.now)) }
    ensures fault { IfErr result (IsFaultFor (map (λ s. s.now) words.entry.now)) }
    ensures version { asks_version (map (λ s. s.now) words.entry.now) ≡ true → result ≡ Err OptionFault.Version }
{
    if asks_version(words) {
        return Err(OptionFault::Version);
    }
    read_matches(alloc, words)
}

/// Whether these words, of which the first is the program's name, ask for its version: `--version` stands alone.
pub fn asks_version(words: &[&str]) -> bool
    ensures { result ≡ asks_version (map (λ s. s.now) words.now) }
{
    words.len() == 2 && words[1] == "--version"
}

// The options of words that don't ask for the version.
fn read_matches<'a>(alloc: Global, words: &'a [&'a str]) -> Result<Options, OptionFault>
    ensures options { IfOk result (Gives (map (λ s. s.now) words.entry.now)) }
    ensures fault { IfErr result (IsFaultFor (map (λ s. s.now) words.entry.now)) }
{
    let command = command(alloc)?;
    match command.try_get_matches_from(words) {
        Ok(matches) => options_of(alloc, &matches, own_words(&matches)),
        Err(error) => match error.kind() {
            ErrorKind::OutOfMemory => Err(OptionFault::Memory),
            ErrorKind::DisplayHelp => {
                check_values(alloc, &words[..before_help(words)])?;
                Err(OptionFault::Help(format!(in alloc; "{error}")?))
            }
            _ => Err(OptionFault::Refused(word_reason(alloc, &error, READING)?)),
        },
    }
}

// How many words stand before the first, after the program's name, that asks for help.
fn before_help(words: &[&str]) -> usize
    ensures { result ≤ length words.now }
{
    for at in 1..words.len() {
        if words[at] == "--help" || words[at].starts_with("-h") {
            return at;
        }
    }
    words.len()
}

// Refuses words that `clap` matches, and of which a value gives no option.
fn check_values<'a>(alloc: Global, words: &'a [&'a str]) -> Result<(), OptionFault>
    ensures { IfErr result (λ e. Refuses e (HasRefusedValue (map (λ s. s.now) words.entry.now))) }
{
    let command = command(alloc)?;
    match command.try_get_matches_from(words) {
        Ok(matches) => {
            options_of(alloc, &matches, own_words(&matches))?;
            Ok(())
        }
        Err(error) => match error.kind() {
            ErrorKind::OutOfMemory => Err(OptionFault::Memory),
            _ => Ok(()),
        },
    }
}

// The flags and the schedule as they are written; with `--ends` a schedule has as many choices as it can.
fn own_words<'a>(matches: &ArgMatches<'a>) -> OwnWords<'a>
    ensures flags { result.flags ≡ flags_of (rows_of (found_of matches.now)) }
    ensures longest { result.is_longest ≡ (flags_of (rows_of (found_of matches.now))).ends }
    ensures schedule { option_map (λ s. s.now) result.schedule ≡ first_of (codes "schedule") (rows_of (found_of matches.now)) }
{
    let ends = is_asked(text_of(matches, "ends"));
    OwnWords {
        flags: AnalysisFlags {
            rows: is_asked(text_of(matches, "rows")),
            merge: is_asked(text_of(matches, "merge")),
            ends,
            waits: is_asked(text_of(matches, "waits")),
            at_once: is_asked(text_of(matches, "at-once")),
        },
        is_longest: ends,
        schedule: text_of(matches, "schedule"),
    }
}
