//! The order in which ends and values are told.

use cp_ends::End;
use cp_machine::{ErrorName, Shown};
use cp_run::OutcomeKind;

/// The place of an end: by its kind, and of one kind by process, line and name.
#[derive(Clone, Copy, PartialEq, Eq, PartialOrd, Ord, Drop)]
pub struct EndPlace {
    kind: u8,
    process: u8,
    line: u32,
    name: u8,
}

/// The place of a value: by its kind, and of one kind by its number.
#[derive(Clone, Copy, PartialEq, Eq, PartialOrd, Ord, Drop)]
pub struct ValuePlace {
    kind: u8,
    number: i32,
}

fn plain(kind: u8, process: u8) -> EndPlace {
    EndPlace {
        kind,
        process,
        line: 0,
        name: 0,
    }
}

fn place_of_name(name: ErrorName) -> u8 {
    match name {
        ErrorName::Overflow => 0,
        ErrorName::ZeroDivisor => 1,
        ErrorName::Range => 2,
        ErrorName::NoCase => 3,
        ErrorName::QueueInUse => 4,
        ErrorName::NotInit => 5,
        ErrorName::InitTwice => 6,
        ErrorName::Assertion => 7,
        ErrorName::Invariant => 8,
    }
}

fn place_of_kind(kind: OutcomeKind) -> EndPlace {
    match kind {
        OutcomeKind::Finished => plain(0, 0),
        OutcomeKind::AllWaiting => plain(1, 0),
        OutcomeKind::RunError {
            name,
            process,
            line,
        } => EndPlace {
            kind: 2,
            process,
            line,
            name: place_of_name(name),
        },
        OutcomeKind::StepLimit => plain(3, 0),
        OutcomeKind::ChoiceLimit => plain(6, 0),
        OutcomeKind::OutputLimit => plain(7, 0),
    }
}

/// The place of an end: finished, all-waiting, run errors, a limit of steps, who is alone for ever, who spins.
pub fn place_of_end(end: End) -> EndPlace {
    match end {
        End::Over(kind) => place_of_kind(kind),
        End::Alone(process) => plain(4, process),
        End::Spins(process) => plain(5, process),
    }
}

/// The place of a value: integers, characters, booleans, other constants.
pub fn place_of_value(value: Shown) -> ValuePlace {
    match value {
        Shown::Integer(number) => ValuePlace {
            kind: 0,
            number: i32::from(number),
        },
        Shown::Char(code) => ValuePlace {
            kind: 1,
            number: i32::from(code),
        },
        Shown::Truth(holds) => ValuePlace {
            kind: 2,
            number: i32::from(holds),
        },
        Shown::Constant(number) => ValuePlace {
            kind: 3,
            number: i32::from(number),
        },
    }
}
