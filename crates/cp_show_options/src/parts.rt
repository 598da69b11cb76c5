//! What the words of a call ask for.

ghost use Rattle.std.specs.Prelude.{◌≡◌, Err, map, true};
ghost use Rattle.cp_tool.specs.Options.{asks_version};

use crate::choosing::{ScheduleChoice, choice_of, is_endless};
use crate::command::command;
use crate::faults::{USUAL_STATES, choice_fault, extent_of, page_states};
use crate::words::{schedule_given, words_given};
use clap::ArgMatches;
use clap::error::ErrorKind;
use cp_lanes::{PictureView, SheetExtent};
use cp_tool::{
    AnalysisFlags, OptionFault, Options, OwnWords, SourceReading, asks_version, options_of,
    word_reason,
};
use std::alloc::{AllocError, Global};

/// How the program is given its source.
const READING: SourceReading<'static> = SourceReading {
    program: "cpx_show PART",
    script: "./show PART",
};

/// What is to be shown.
#[derive(Drop)]
pub enum ShowPart {
    /// The schedule in names, as lines or as JSON.
    Trace {
        json: bool,
    },
    /// These rows of the schedule as a picture, or a plain one.
    Lanes(PictureView),
    /// A page on which the scheduler is played, which expands so many states.
    Page {
        states: u32,
    },
    /// The outcomes of all schedules, as lines or as JSON; and with `cover` what no schedule comes to.
    Outcomes {
        json: bool,
        cover: bool,
    },
    /// The ends that are possible in schedules of any length, as lines or as JSON.
    Ends {
        json: bool,
    },
    /// Why the source is refused, as lines or as JSON; places begin with the name of its file, if one is given.
    Refusal {
        json: bool,
        file: Option<String>,
    },
    /// Whether the expectations of these words hold, as lines or as JSON; with no words, or where they are asked for, those of the source.
    Mark {
        words: String,
        own: bool,
        json: bool,
    },
}

impl ShowPart {
    /// Whether it is told why the source is refused.
    pub fn tells_refusal(&self) -> bool {
        matches!(self, ShowPart::Refusal { .. } | ShowPart::Mark { .. })
    }
}

/// A part, and the options that are those of `cpx`.
#[derive(Drop)]
pub struct Asked {
    pub part: ShowPart,
    pub options: Options,
    /// Which schedule is shown, where one is.
    pub schedule: ScheduleChoice,
}

/// What the words ask for, of which the first is the program's name. The version and the options of `cpx` are read as `cpx` reads them.
pub fn read_parts<'a>(alloc: Global, words: &'a [&'a str]) -> Result<Asked, OptionFault>
    ensures version { asks_version (map (λ s. s.now) words.entry.now) ≡ true → result ≡ Err OptionFault.Version }
{
    if asks_version(words) {
        return Err(OptionFault::Version);
    }
    read_command(alloc, words)
}

fn read_command<'a>(alloc: Global, words: &'a [&'a str]) -> Result<Asked, OptionFault> {
    let command = command(alloc)?;
    match command.try_get_matches_from(words) {
        Ok(matches) => read_matches(alloc, &matches),
        Err(error) => Err(match error.kind() {
            ErrorKind::OutOfMemory => OptionFault::Memory,
            ErrorKind::DisplayHelp => OptionFault::Help(format!(in alloc; "{error}")?),
            _ => OptionFault::Refused(word_reason(alloc, &error, READING)?),
        }),
    }
}

fn read_matches(alloc: Global, matches: &ArgMatches<'_>) -> Result<Asked, OptionFault> {
    let Some((name, inner)) = matches.subcommand() else {
        return refuse(alloc, "a part is wanted");
    };
    let fault = choice_fault(name, inner);
    if !fault.is_empty() {
        return refuse(alloc, fault);
    }
    let options = options(alloc, inner, name == "ends")?;
    Ok(Asked {
        part: part_of(alloc, name, inner)?,
        options,
        schedule: choice_of(inner),
    })
}

fn part_of(alloc: Global, name: &str, matches: &ArgMatches<'_>) -> Result<ShowPart, OptionFault> {
    let json = matches.get_flag("json");
    Ok(match name {
        "trace" => ShowPart::Trace { json },
        "lanes" => ShowPart::Lanes(view_of(matches)),
        "page" => ShowPart::Page {
            states: page_states(matches).unwrap_or(USUAL_STATES),
        },
        "outcomes" => ShowPart::Outcomes {
            json,
            cover: matches.get_flag("cover"),
        },
        "ends" => ShowPart::Ends { json },
        "refusal" => ShowPart::Refusal {
            json,
            file: file_of(alloc, matches)?,
        },
        "mark" => ShowPart::Mark {
            words: words_given(alloc, matches)?,
            own: matches.get_flag("own"),
            json,
        },
        _ => return refuse(alloc, "there is no such part"),
    })
}

fn view_of(matches: &ArgMatches<'_>) -> PictureView {
    PictureView {
        extent: extent_of(matches).unwrap_or(SheetExtent::All),
        is_plain: matches.get_flag("plain"),
    }
}

// The name of the file that the source is read from, if it is given.
fn file_of(alloc: Global, matches: &ArgMatches<'_>) -> Result<Option<String>, AllocError> {
    let name = matches.get_str("where");
    name.map(|name| String::from_str(alloc, name)).transpose()
}

// The options of a part; some parts are always those of schedules of any length.
fn options(
    alloc: Global,
    matches: &ArgMatches<'_>,
    with_ends: bool,
) -> Result<Options, OptionFault> {
    let ends = with_ends || is_endless(matches) || has_endless_switch(matches);
    let schedule = schedule_given(alloc, matches)?;
    let own = OwnWords {
        flags: AnalysisFlags {
            rows: false,
            merge: !ends,
            ends,
            waits: matches.get_flag("waits") || matches.get_str("wait").is_some(),
            at_once: matches.get_flag("at-once"),
        },
        is_longest: true,
        schedule: schedule.as_ref().map(|text| text.as_str()),
    };
    options_of(alloc, matches, own)
}

// Whether schedules are those of any length by what stands beside the schedule.
fn has_endless_switch(matches: &ArgMatches<'_>) -> bool {
    matches.get_flag("ends") || matches.get_str("again").is_some()
}

fn refuse<T>(alloc: Global, why: &str) -> Result<T, OptionFault> {
    Err(OptionFault::Refused(String::from_str(alloc, why)?))
}
