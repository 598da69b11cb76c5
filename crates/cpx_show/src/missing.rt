//! What is told where no schedule can be shown.

use crate::inquiry::Inquiry;
use cp_outcomes::KnownOutcomes;
use std::alloc::{AllocError, Global};

/// That a simplest schedule was not looked for.
pub fn not_searched(inquiry: Inquiry<'_>) -> Result<String, AllocError> {
    let states = inquiry.asked.options.states;
    format!(in inquiry.alloc;
        "the simplest schedule was not searched: there are more than {states} states\n"
    )
}

/// That there is no outcome of a number; and of how many choices those are that there are, where there are more.
pub fn no_outcome(inquiry: Inquiry<'_>, known: KnownOutcomes) -> Result<String, AllocError> {
    let alloc = inquiry.alloc;
    let count = known.count;
    match known.choices {
        None => format!(in alloc; "there is no outcome of this number: there are {count}\n"),
        Some(choices) => {
            let states = inquiry.asked.options.states;
            format!(in alloc;
                "there is no outcome of this number: of all schedules of at most {choices} choices there are {count}\ntoo many states or outcomes for more choices: a layer may have {states} states (try greater --states)\n"
            )
        }
    }
}

/// That there is no end or wait of a number.
pub fn no_end(alloc: Global, called: &str, count: usize) -> Result<String, AllocError> {
    format!(in alloc; "there is no {called} of this number: there are {count}\n")
}

/// That it is not known who may wait for ever.
pub fn unknown_waits(inquiry: Inquiry<'_>) -> Result<String, AllocError> {
    let states = inquiry.asked.options.states;
    format!(in inquiry.alloc;
        "it is not known who may wait for ever, with {states} states (./show ends --waits says why)\n"
    )
}

/// That the schedule of an end or of a wait has more numbers than one that is shown.
pub fn too_long(alloc: Global, called: &str, length: usize) -> Result<String, AllocError> {
    format!(in alloc;
        "the schedule of this {called} has {length} numbers: up to 100 can be shown\n"
    )
}

/// That rows are to be drawn that there are not.
pub fn rows_beyond(alloc: Global, last: usize, count: usize) -> Result<String, AllocError> {
    format!(in alloc; "there is no row {last}: there are {count}\n")
}
