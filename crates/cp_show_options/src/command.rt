//! The command of `cpx_show`, as `clap` knows it: a subcommand for each part.

use clap::{Arg, ArgAction, Command};
use std::alloc::{AllocError, Global};

const ABOUT: &str =
    "Reads a program in Concurrent Pascal from standard input, and shows what cpx finds\nin names, pictures and words.";

const USAGE: &str = "cpx_show PART [OPTIONS] < PROGRAM";

const NOTES: &str =
    "Example: cpx_show trace --schedule 0.1 < program.cp\nVersion: cpx_show --version\n\nStatus: 0 reported, 1 source refused, 2 options refused, 3 no memory, 4 read or write fault,\n5 too many states or outcomes, 6 an expectation fails, 7 one is not settled";

const EXPECTATIONS: &str =
    "TOPIC: finished, all-waiting, run-error or run-error NAME; after it, if wanted, output VALUES,\nwhere .. stands for any values at any place; or shown VALUE, for a schedule that displays it,\nwhatever it ends in. all-waiting PROCESS.. is an end at which these wait and nobody else, and with\n.. behind them perhaps others. PROCESS: a number, a name, an array or a type of processes.\nBetween topics or may stand. A constant that is named as a topic begins is written in parentheses:\nshown (finished). Several expectations are joined by and.\nWithout words those in comments of the program are taken: (* expect never all-waiting *)\n\nWith --ends of schedules of any length, without outputs; TOPIC may be alone, spins or waiting as\nwell, each perhaps with a PROCESS. With too many states kernel calls are made at once, but not\nwhere it is asked who waits.\n\nStatus: 0 holds, 6 fails, 7 not settled; 1 to 5 as cpx";

// An option as it is written, with what help says of it.
#[derive(Clone, Copy)]
enum OptionWords {
    // Its name, what stands for its value, and what it does.
    Valued(&'static str, &'static str, &'static str),
    // Its name, and what it does.
    Switch(&'static str, &'static str),
    // The states of a page. They have a name of their own: of the other parts the option limits the states that are counted.
    PageStates,
    // Words that stand behind the options.
    Expectations,
}

// A part: its name, what it does, how it is called, its options, and what help says after them.
struct PartWords {
    name: &'static str,
    about: &'static str,
    usage: &'static str,
    options: &'static [&'static [OptionWords]],
    notes: &'static str,
}

const JSON: OptionWords = OptionWords::Switch("json", "Write one JSON object");

const OUTCOME: OptionWords = OptionWords::Valued(
    "outcome",
    "N",
    "In place of --schedule: the first schedule of the outcome that `outcomes` tells with this number",
);

const END: OptionWords = OptionWords::Valued(
    "end",
    "N",
    "In place of --schedule: that of the end that `ends` tells with this number",
);

const WAIT: OptionWords = OptionWords::Valued(
    "wait",
    "N",
    "In place of --schedule: that of the process that `ends --waits` tells with this number, and its round",
);

const END_AT_ONCE: OptionWords = OptionWords::Switch(
    "at-once",
    "With --end: the numbers are those of `ends --at-once`",
);

const SIMPLEST: OptionWords = OptionWords::Switch(
    "simplest",
    "With --outcome: its simplest schedule, in which processes are switched least",
);

// Which schedule is shown, where one is.
const ONE_SCHEDULE: &[OptionWords] = &[
    OptionWords::Valued(
        "schedule",
        "WORD",
        "The schedule: `none`, or up to 100 numbers 0 to 15 joined by periods",
    ),
    OUTCOME,
    SIMPLEST,
    END,
    END_AT_ONCE,
    WAIT,
    OptionWords::Valued(
        "again",
        "WORD",
        "With --schedule: a round after it that can be gone again and again",
    ),
    OptionWords::Switch(
        "ends",
        "Beside --end, --wait or --again, which are of schedules of any length: changes nothing",
    ),
];

const CHOICES: OptionWords = OptionWords::Valued(
    "choices",
    "K",
    "Choices of a schedule, 0 to 100 [default: 100]",
);

const STEPS: OptionWords = OptionWords::Valued(
    "steps",
    "L",
    "Steps of a stretch between choices, 1 to 100000 [default: 1000]",
);

const GATES: OptionWords = OptionWords::Valued(
    "gates",
    "WHO",
    "Who enters a monitor that becomes free: `first` in line, or `any` [default: first]",
);

const SIGNALS: OptionWords = OptionWords::Valued(
    "signals",
    "RULE",
    "Who goes on after a continue: `return`, `continue` or `wait` [default: return]",
);

// How far all schedules are looked at.
const LIMITS: &[OptionWords] = &[
    CHOICES,
    STEPS,
    GATES,
    SIGNALS,
    OptionWords::Switch(
        "merge",
        "Changes nothing: schedules that come to one state are counted together in any case",
    ),
];

const LAYER_STATES: OptionWords = OptionWords::Valued(
    "states",
    "N",
    "States that a layer may have, 1 to 10000000 [default: 200000]",
);

// The same where schedules may be of any length. (`command` is proved just within what one check may compute: a longer text here makes another one shorter.)
const LAYER_OR_ALL_STATES: OptionWords = OptionWords::Valued(
    "states",
    "N",
    "States of a layer, or of any length in all, 1 to 10000000 [default: 200000, with --at-once 2000000]",
);

// What of a picture is drawn.
const DRAWING: &[OptionWords] = &[
    OptionWords::Valued("rows", "A-B", "Draw these rows alone, counted from 1"),
    OptionWords::Valued("last", "N", "Draw the last N rows alone"),
    OptionWords::Switch(
        "plain",
        "Leave out source, schedule and key, with larger letters, for slides",
    ),
];

const PLAYING: &[OptionWords] = &[
    OptionWords::Valued(
        "schedule",
        "WORD",
        "A schedule that is laid out at its beginning when the page is opened",
    ),
    OUTCOME,
    SIMPLEST,
    END,
    END_AT_ONCE,
    WAIT,
    OptionWords::Switch(
        "ends",
        "Play schedules of any length: which ends can come, and rounds in which a process waits for ever",
    ),
    OptionWords::Valued(
        "again",
        "WORD",
        "With --schedule: a round after it that can be gone again and again",
    ),
    CHOICES,
    STEPS,
    GATES,
    SIGNALS,
    OptionWords::PageStates,
];

const COVER: OptionWords = OptionWords::Switch(
    "cover",
    "Tell as well which statements no schedule reaches, and in which queues and at which gates nobody ever waits",
);

const ENDING: &[OptionWords] = &[
    OptionWords::Switch(
        "waits",
        "Tell as well who may wait for ever while others go on",
    ),
    OptionWords::Switch(
        "at-once",
        "Make kernel calls but enter at once: fewer states",
    ),
    STEPS,
    GATES,
    SIGNALS,
    OptionWords::Valued(
        "states",
        "N",
        "States that there may be in all, 1 to 10000000 [default: 200000, with --at-once 2000000]",
    ),
    JSON,
];

const WHERE: OptionWords = OptionWords::Valued(
    "where",
    "NAME",
    "Begin places with NAME:LINE:COLUMN, as editors read them",
);

const MARKING: &[OptionWords] = &[
    OptionWords::Expectations,
    OptionWords::Switch("ends", "Take schedules of any length"),
    OptionWords::Switch(
        "at-once",
        "With --ends: make kernel calls but enter at once, so fewer states; not for who waits",
    ),
    OptionWords::Switch(
        "own",
        "Take the expectations in comments of the program as well",
    ),
    JSON,
];

static PARTS: [PartWords; 7] = [
    PartWords {
        name: "trace",
        about: "Tells one schedule in names: a line for each kernel call",
        usage: "cpx_show trace --schedule WORD|--outcome N|--end N|--wait N [OPTIONS] < PROGRAM",
        options: &[ONE_SCHEDULE, LIMITS, &[LAYER_OR_ALL_STATES, JSON]],
        notes: "",
    },
    PartWords {
        name: "lanes",
        about: "Draws one schedule as a picture: SVG with a lane for each process",
        usage: "cpx_show lanes --schedule WORD|--outcome N|--end N|--wait N [OPTIONS] < PROGRAM > PICTURE.svg",
        options: &[DRAWING, ONE_SCHEDULE, LIMITS, &[LAYER_OR_ALL_STATES]],
        notes: "",
    },
    PartWords {
        name: "page",
        about: "Writes a page on which you play the scheduler: one file of HTML, which needs no network",
        usage: "cpx_show page [OPTIONS] < PROGRAM > PAGE.html",
        options: &[PLAYING],
        notes: "",
    },
    PartWords {
        name: "outcomes",
        about: "Tells the outcomes of all schedules in words: shares, first schedules, and whether these are all",
        usage: "cpx_show outcomes [OPTIONS] < PROGRAM",
        options: &[LIMITS, &[LAYER_STATES, JSON, COVER]],
        notes: "",
    },
    PartWords {
        name: "ends",
        about: "Tells in words which ends are possible in schedules of any length, and who may wait for ever",
        usage: "cpx_show ends [OPTIONS] < PROGRAM",
        options: &[ENDING],
        notes: "",
    },
    PartWords {
        name: "refusal",
        about: "Says why a source is refused, in a sentence; or that it is accepted, with hints",
        usage: "cpx_show refusal [OPTIONS] < PROGRAM",
        options: &[&[JSON, WHERE, SIGNALS]],
        notes: "With --signals the hints are those of that rule.",
    },
    PartWords {
        name: "mark",
        about: "Says whether what is expected of all schedules holds: never TOPIC, some TOPIC, only TOPIC..",
        usage: "cpx_show mark [OPTIONS] [EXPECTATION..] < PROGRAM",
        options: &[MARKING, LIMITS, &[LAYER_OR_ALL_STATES]],
        notes: EXPECTATIONS,
    },
];

/// The command with all its parts; `clap` adds `--help` and `-h` to each.
pub fn command<'a>(alloc: Global) -> Result<Command<'a>, AllocError> {
    let mut command = Command::new(alloc, "cpx_show")
        .about(ABOUT)
        .override_usage(USAGE)
        .after_help(NOTES)
        .subcommand_required(true)
        .disable_help_subcommand(true);
    for words in &PARTS {
        command = command.subcommand(part(alloc, words)?)?;
    }
    Ok(command)
}

fn part<'a>(alloc: Global, words: &'static PartWords) -> Result<Command<'a>, AllocError> {
    let mut command = Command::new(alloc, words.name)
        .about(words.about)
        .override_usage(words.usage);
    if !words.notes.is_empty() {
        command = command.after_help(words.notes);
    }
    for options in words.options {
        for words in *options {
            command = command.arg(option(alloc, *words))?;
        }
    }
    Ok(command)
}

fn option<'a>(alloc: Global, words: OptionWords) -> Arg<'a> {
    match words {
        OptionWords::Valued(name, value, help) => Arg::new(alloc, name)
            .long(name)
            .value_name(value)
            .help(help),
        OptionWords::Switch(name, help) => Arg::new(alloc, name)
            .long(name)
            .action(ArgAction::SetTrue)
            .help(help),
        OptionWords::PageStates => Arg::new(alloc, "page-states")
            .long("states")
            .value_name("N")
            .help("States that the page goes on from, 1 to 100000 [default: 10000]"),
        OptionWords::Expectations => Arg::new(alloc, "expectation")
            .value_name("EXPECTATION")
            .num_args(0..)
            .help("What is expected, as never all-waiting"),
    }
}
