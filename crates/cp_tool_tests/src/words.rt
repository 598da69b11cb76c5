use cp_machine::{Gates, Signals};
use cp_tests::answers::{CallAnswer, ample_answer, are_right};
use cp_tool::{Analysis, OptionFault, Options, read_options};
use std::alloc::Global;

const ALL: [&str; 14] = [
    "cpx",
    "--choices",
    "5",
    "--steps=100000",
    "--workers",
    "16",
    "--cut=0",
    "--rows",
    "--schedule",
    "0.0.2.15",
    "--gates",
    "any",
    "--signals=continue",
    "--",
];

/// Words that spell the numbers 5, 20, 1 and 0, and the empty schedule word.
const SPELLINGS: [&str; 12] = [
    "cpx",
    "--choices=+5",
    "--steps",
    "020",
    "--workers=+01",
    "--cut=00",
    "--schedule",
    "none",
    "--gates",
    "first",
    "--signals",
    "return",
];

/// Words that ask for merging, with numbers that only then are in their ranges.
const MERGED: [&str; 9] = [
    "cpx",
    "--merge",
    "--states",
    "10000000",
    "--choices=100",
    "--schedule",
    "0.0.0.0.0.0.0.0.0.0.0.0.0.0.0.0.0.0.0.0.15",
    "--workers=1",
    "--signals=wait",
];

/// Words that ask for the ends of schedules of any length, with numbers that only then, or with merging, are in their ranges.
const ENDS: [&str; 5] = [
    "cpx",
    "--schedule",
    "0.0.0.0.0.0.0.0.0.0.0.0.0.0.0.0.0.0.0.0.15",
    "--ends",
    "--steps=7",
];

/// Words that ask who may wait for ever, where the caller of a `continue` waits; and words that ask for calls at once, where it returns.
const WAITS: [&str; 4] = ["cpx", "--ends", "--waits", "--signals=wait"];

const AT_ONCE: [&str; 4] = ["cpx", "--signals=return", "--at-once", "--ends"];

const LONGEST: [&str; 3] = [
    "cpx",
    "--schedule",
    "15.0.1.2.3.4.5.6.7.8.9.10.11.12.13.14.15.0.1.2",
];

/// Words that are refused.
static REFUSED: [&[&str]; 70] = [
    &["cpx", "--choices", "21"],
    &["cpx", "--steps", "0"],
    &["cpx", "--steps", "100001"],
    &["cpx", "--workers", "0"],
    &["cpx", "--workers", "17"],
    &["cpx", "--cut", "21"],
    &["cpx", "--choices", "4294967301"],
    &["cpx", "--choices", "five"],
    &["cpx", "--choices", ""],
    &["cpx", "--choices"],
    &["cpx", "--schedule", "00"],
    &["cpx", "--schedule", "0..1"],
    &["cpx", "--schedule", "16"],
    &[
        "cpx",
        "--schedule",
        "0.0.0.0.0.0.0.0.0.0.0.0.0.0.0.0.0.0.0.0.0",
    ],
    &["cpx", "--schedule", "+1"],
    &["cpx", "--schedule", "1.02"],
    &["cpx", "--schedule", "1."],
    &["cpx", "--schedule", ""],
    &["cpx", "--schedule", "None"],
    &["cpx", "--gates", "last"],
    &["cpx", "--gates", "First"],
    &["cpx", "--cut", "1", "--cut", "1"],
    &["cpx", "--rows", "--rows"],
    &["cpx", "--rows=true"],
    &["cpx", "--cut", "-1"],
    &["cpx", "--choi", "5"],
    &["cpx", "program.cp"],
    &["cpx", "--", "program.cp"],
    &["cpx", "--nothing"],
    &["cpx", "--nothing", "--help"],
    &["cpx", "--version", "--choices", "5"],
    &["cpx", "--choices", "99", "--version"],
    &["cpx", "--version", "--version"],
    &["cpx", "--version", "--help"],
    &["cpx", "--version=9"],
    &["cpx", "--", "--version"],
    &["cpx", "--choices", "99", "--help"],
    &["cpx", "--rows", "--schedule=00", "-h"],
    &["cpx", "--gates", "last", "--cut", "2", "--help"],
    &["cpx", "--merge", "--choices", "101"],
    &["cpx", "--choices", "21", "--states", "5"],
    &["cpx", "--merge", "--cut", "21"],
    &["cpx", "--merge", "--states", "0"],
    &["cpx", "--states", "10000001"],
    &["cpx", "--merge", "--rows", "--schedule", "none"],
    &["cpx", "--rows", "--merge", "--help"],
    &["cpx", "--merge", "--merge"],
    &["cpx", "--ends", "--rows"],
    &["cpx", "--merge", "--ends"],
    &["cpx", "--ends", "--ends"],
    &["cpx", "--ends", "--choices", "101"],
    &["cpx", "--ends", "--states", "0"],
    &["cpx", "--waits"],
    &["cpx", "--merge", "--waits"],
    &["cpx", "--ends", "--waits", "--gates", "any"],
    &["cpx", "--at-once"],
    &["cpx", "--ends", "--at-once", "--waits"],
    &["cpx", "--ends", "--at-once", "--gates", "any"],
    &["cpx", "--signals", "signal"],
    &["cpx", "--signals", "Continue"],
    &["cpx", "--signals", ""],
    &["cpx", "--signals"],
    &["cpx", "--signals", "wait", "--signals", "wait"],
    &["cpx", "--signals", "later", "--help"],
    &["cpx", "--gates", "any", "--signals", "wait"],
    &["cpx", "--signals=wait", "--gates=any", "--schedule=none"],
    &["cpx", "--ends", "--at-once", "--signals", "continue"],
    &["cpx", "--ends", "--at-once", "--signals", "wait"],
    &[
        "cpx",
        "--ends",
        "--at-once",
        "--signals=wait",
        "--schedule=0",
    ],
    &[
        "cpx",
        "--merge",
        "--schedule",
        "0.0.0.0.0.0.0.0.0.0.0.0.0.0.0.0.0.0.0.0.0.0.0.0.0.0.0.0.0.0.0.0.0.0.0.0.0.0.0.0.0.0.0.0.0.0.0.0.0.0.0.0.0.0.0.0.0.0.0.0.0.0.0.0.0.0.0.0.0.0.0.0.0.0.0.0.0.0.0.0.0.0.0.0.0.0.0.0.0.0.0.0.0.0.0.0.0.0.0.0.0",
    ],
];

/// Words that ask for help.
static HELP: [&[&str]; 10] = [
    &["cpx", "--help"],
    &["cpx", "-h"],
    &["cpx", "--rows", "--help"],
    &["cpx", "--help", "--nothing"],
    &["cpx", "--help", "--version"],
    &["cpx", "--choices", "20", "--help"],
    &["cpx", "-h", "--choices", "99"],
    &["cpx", "--merge", "--choices", "99", "--help"],
    &["cpx", "--merge", "--help", "--rows"],
    &["cpx", "--ends", "--choices", "99", "--help"],
];

fn has_word(options: &Options, numbers: &[u8]) -> bool {
    match &options.schedule {
        Some(word) => word.as_slice() == numbers,
        None => false,
    }
}

fn has_defaults(options: &Options) -> bool {
    let has_numbers = options.choices == 8
        && options.steps == 1_000
        && options.workers == 1
        && options.cut.is_none()
        && options.states == 200_000;
    let is_plain = matches!(options.analysis, Analysis::Table { rows: false });
    has_numbers
        && is_plain
        && options.schedule.is_none()
        && options.discipline.gates == Gates::First
        && options.discipline.signals == Signals::Return
}

fn has_values_of_merged(options: &Options) -> bool {
    let is_word = match &options.schedule {
        Some(word) => word.len() == 21 && word.last() == Some(&15),
        None => false,
    };
    let is_merged = matches!(options.analysis, Analysis::Merged);
    let is_waiting = options.discipline.signals == Signals::Wait;
    is_merged && is_waiting && options.states == 10_000_000 && options.choices == 100 && is_word
}

fn has_values_of_ends(options: &Options) -> bool {
    let is_word = match &options.schedule {
        Some(word) => word.len() == 21,
        None => false,
    };
    let is_asked = matches!(options.analysis, Analysis::Ends);
    let has_numbers = options.choices == 100 && options.steps == 7 && options.states == 200_000;
    is_asked && has_numbers && is_word
}

fn has_values_of_waits(options: &Options) -> bool {
    let is_asked = matches!(options.analysis, Analysis::EndsAndWaits);
    is_asked && options.discipline.signals == Signals::Wait
}

fn has_values_of_at_once(options: &Options) -> bool {
    let is_asked = matches!(options.analysis, Analysis::EndsAtOnce);
    is_asked && options.states == 2_000_000 && options.discipline.signals == Signals::Return
}

fn has_values_of_all(options: &Options) -> bool {
    let has_numbers = options.choices == 5
        && options.steps == 100_000
        && options.workers == 16
        && options.cut == Some(0);
    has_numbers
        && matches!(options.analysis, Analysis::Table { rows: true })
        && options.discipline.gates == Gates::Any
        && options.discipline.signals == Signals::Continue
        && has_word(options, &[0, 0, 2, 15])
}

/// Where a growth is refused, one answer is Memory, and each other one is that of ample memory.
#[test]
fn refused_growth_of_reading_options(rt: HostRuntime) {
    let answers = [
        all_or_memory(rt.alloc()),
        refusal_or_memory(rt.alloc()),
        help_or_memory(rt.alloc()),
        all_or_memory(rt.alloc()),
        refusal_or_memory(rt.alloc()),
        help_or_memory(rt.alloc()),
    ];
    assert!(rt; are_right(&answers));
}

fn all_or_memory(alloc: Global) -> CallAnswer {
    let options = match read_options(alloc, ALL.as_slice()) {
        Ok(options) => options,
        Err(OptionFault::Memory) => return CallAnswer::Memory,
        Err(_fault) => return CallAnswer::Other,
    };
    ample_answer(has_values_of_all(&options))
}

fn refusal_or_memory(alloc: Global) -> CallAnswer {
    match read_options(alloc, ["cpx", "--schedule", "0.1.02"].as_slice()) {
        Err(OptionFault::Refused(_why)) => CallAnswer::Ample,
        Err(OptionFault::Memory) => CallAnswer::Memory,
        _ => CallAnswer::Other,
    }
}

fn help_or_memory(alloc: Global) -> CallAnswer {
    match read_options(alloc, ["cpx", "--help"].as_slice()) {
        Ok(_options) => CallAnswer::Other,
        Err(fault) => help_answer(fault),
    }
}

fn help_answer(fault: OptionFault) -> CallAnswer {
    match fault {
        OptionFault::Help(text) => ample_answer(text.as_str().contains("5 too many rows")),
        OptionFault::Memory => CallAnswer::Memory,
        _ => CallAnswer::Other,
    }
}

fn has_values_of_spellings(options: &Options) -> bool {
    let has_numbers = options.choices == 5
        && options.steps == 20
        && options.workers == 1
        && options.cut == Some(0);
    has_numbers
        && options.discipline.gates == Gates::First
        && options.discipline.signals == Signals::Return
        && has_word(options, &[])
}

/// Which values options have.
#[derive(Clone, Copy)]
enum WantedValues {
    /// Each option has its default.
    Defaults,
    /// Each option has the value of its words.
    All,
    /// Merging has wider ranges.
    Merged,
    /// Ends have the choices of a long trace.
    Ends,
    /// Who may wait for ever is asked under each discipline.
    Waits,
    /// Calls are made at once by the book.
    AtOnce,
    /// Numbers may have a plus and leading zeros.
    Spellings,
    /// A schedule may have twenty numbers.
    Longest,
}

fn have_values(options: &Options, values: WantedValues) -> bool {
    match values {
        WantedValues::Defaults => has_defaults(options),
        WantedValues::All => has_values_of_all(options),
        WantedValues::Merged => has_values_of_merged(options),
        WantedValues::Ends => has_values_of_ends(options),
        WantedValues::Waits => has_values_of_waits(options),
        WantedValues::AtOnce => has_values_of_at_once(options),
        WantedValues::Spellings => has_values_of_spellings(options),
        WantedValues::Longest => has_word(options, &LONGEST_NUMBERS),
    }
}

static LONGEST_NUMBERS: [u8; 20] = [
    15, 0, 1, 2, 3, 4, 5, 6, 7, 8, 9, 10, 11, 12, 13, 14, 15, 0, 1, 2,
];

static ACCEPTED: [(&[&str], WantedValues); 8] = [
    (&["cpx"], WantedValues::Defaults),
    (&ALL, WantedValues::All),
    (&MERGED, WantedValues::Merged),
    (&ENDS, WantedValues::Ends),
    (&WAITS, WantedValues::Waits),
    (&AT_ONCE, WantedValues::AtOnce),
    (&SPELLINGS, WantedValues::Spellings),
    (&LONGEST, WantedValues::Longest),
];

fn gives(alloc: Global, words: &[&str], values: WantedValues) -> bool {
    match read_options(alloc, words) {
        Ok(options) => have_values(&options, values),
        Err(_fault) => false,
    }
}

#[test]
fn options_have_the_values_of_their_words(rt: HostRuntime) {
    for (words, values) in &ACCEPTED {
        assert!(rt; gives(rt.alloc(), words, *values), "{}", words.len());
    }
}

fn is_refused(alloc: Global, words: &[&str]) -> bool {
    match read_options(alloc, words) {
        Err(OptionFault::Refused(_why)) => true,
        _ => false,
    }
}

#[test]
fn the_version_is_asked_for_by_one_word(rt: HostRuntime) {
    let answer = read_options(rt.alloc(), ["cpx", "--version"].as_slice());
    assert!(rt; matches!(answer, Err(OptionFault::Version)));
}

#[test]
fn other_words_are_refused(rt: HostRuntime) {
    for (number, words) in REFUSED.iter().enumerate() {
        assert!(rt; is_refused(rt.alloc(), words), "{number}");
    }
}

/// What help says.
static HELP_PARTS: [&str; 24] = [
    "Usage: cpx [OPTIONS] < PROGRAM",
    "--choices <K>",
    "0 to 20, with --merge to 100 [default: 8]",
    "--steps <L>",
    "1 to 100000 [default: 1000]",
    "--workers <N>",
    "1 to 16 [default: 1]",
    "--cut <D>",
    "0 to 20 [default: by their number]",
    "--rows",
    "--merge",
    "Count schedules that come to one state together, without rows",
    "--ends",
    "Which ends are possible, in schedules of any length",
    "--states <N>",
    "States of a layer with --merge, in all with --ends, 1 to 10000000",
    "[default: 200000, with --at-once 2000000]",
    "--schedule <WORD>",
    "--gates <WHO>",
    "[default: first]",
    "--signals <RULE>",
    "[default: return]",
    "cpx --choices 5 < program.cp",
    "cpx --version",
];

fn has_all_parts(text: &str) -> bool {
    let mut has_all = true;
    for part in &HELP_PARTS {
        has_all = has_all && text.contains(part);
    }
    has_all
}

fn helps(alloc: Global, words: &[&str]) -> bool {
    match read_options(alloc, words) {
        Err(OptionFault::Help(text)) => has_all_parts(text.as_str()),
        _ => false,
    }
}

#[test]
fn help_names_each_option_and_shows_a_call(rt: HostRuntime) {
    for (number, words) in HELP.iter().enumerate() {
        assert!(rt; helps(rt.alloc(), words), "{number}");
    }
}
