//! What is wrong with how a schedule or a page is named among the words.

use crate::choosing::{is_endless, number_of};
use clap::ArgMatches;
use cp_lanes::SheetExtent;

/// How many states a page expands where the words do not say so, and at most.
pub const USUAL_STATES: u32 = 10_000;

const MOST_STATES: u32 = 100_000;

/// How many states a page expands; none where the words say what is no such number.
pub fn page_states(matches: &ArgMatches<'_>) -> Option<u32> {
    let Some(states) = matches.get_str("page-states") else {
        return Some(USUAL_STATES);
    };
    match states.parse::<u32>() {
        Ok(states) if states > 0 && states <= MOST_STATES => Some(states),
        _ => None,
    }
}

/// Which rows of a picture are drawn; none where the words say what is no such thing.
pub fn extent_of(matches: &ArgMatches<'_>) -> Option<SheetExtent> {
    match (matches.get_str("rows"), matches.get_str("last")) {
        (None, None) => Some(SheetExtent::All),
        (Some(rows), None) => {
            let (first, last) = rows.split_once('-')?;
            let (first, last) = (number_of(Some(first))?, number_of(Some(last))?);
            if first > last {
                return None;
            }
            Some(SheetExtent::Between(first, last))
        }
        (None, Some(last)) => Some(SheetExtent::Last(number_of(Some(last))?)),
        (Some(_), Some(_)) => None,
    }
}

/// What is wrong with how one schedule is named, if it is to be shown.
pub fn choice_fault(name: &str, matches: &ArgMatches<'_>) -> &'static str {
    match name {
        "page" => page_fault(matches),
        "trace" => schedule_fault(matches),
        "lanes" => {
            if extent_of(matches).is_none() {
                return "--rows A-B or --last N is wanted, with numbers from 1 on";
            }
            schedule_fault(matches)
        }
        _ => "",
    }
}

// What is wrong with the one schedule of a trace or a picture.
fn schedule_fault(matches: &ArgMatches<'_>) -> &'static str {
    if ways_given(matches) == 0 {
        return "--schedule WORD, --outcome N, --end N or --wait N is wanted";
    }
    let naming = naming_fault(matches);
    if !naming.is_empty() {
        return naming;
    }
    if is_endless(matches) {
        return endless_fault(matches);
    }
    if matches.get_flag("ends") && matches.get_str("again").is_none() {
        return "--ends: only beside --end, --wait or --again";
    }
    ""
}

// What is wrong with the schedule with which a page is opened, or with its states; it may be opened with none.
fn page_fault(matches: &ArgMatches<'_>) -> &'static str {
    let naming = naming_fault(matches);
    if !naming.is_empty() {
        return naming;
    }
    if is_endless(matches) {
        let fault = endless_fault(matches);
        if !fault.is_empty() {
            return fault;
        }
    } else if matches.get_flag("ends") || matches.get_str("again").is_some() {
        if matches.get_str("outcome").is_some() {
            return "--outcome: not beside --ends";
        }
        if matches.get_str("choices").is_some() {
            return "--choices: not beside --ends";
        }
    }
    match page_states(matches) {
        Some(_) => "",
        None => "--states: a number 1 to 100000 is wanted",
    }
}

// In how many ways a schedule is named.
fn ways_given(matches: &ArgMatches<'_>) -> usize {
    let mut count = 0usize;
    for name in ["schedule", "outcome", "end", "wait"] {
        if matches.get_str(name).is_some() {
            count = count.saturating_add(1);
        }
    }
    count
}

// What is wrong with how a schedule is named, if it is.
fn naming_fault(matches: &ArgMatches<'_>) -> &'static str {
    if ways_given(matches) > 1 {
        return "of --schedule, --outcome, --end and --wait one alone can be given";
    }
    if matches.get_str("again").is_some() && matches.get_str("schedule").is_none() {
        return "--again: only beside --schedule";
    }
    if matches.get_str("outcome").is_none() && matches.get_flag("simplest") {
        return "--simplest: only beside --outcome";
    }
    if matches.get_str("end").is_none() && matches.get_flag("at-once") {
        return "--at-once: only beside --end";
    }
    number_fault(matches)
}

fn number_fault(matches: &ArgMatches<'_>) -> &'static str {
    if is_no_number(matches, "outcome") {
        return "--outcome: a number from 1 on is wanted";
    }
    if is_no_number(matches, "end") {
        return "--end: a number from 1 on is wanted";
    }
    if is_no_number(matches, "wait") {
        return "--wait: a number from 1 on is wanted";
    }
    ""
}

// Whether an option is given that has no number from 1 on.
fn is_no_number(matches: &ArgMatches<'_>, name: &str) -> bool {
    let word = matches.get_str(name);
    word.is_some() && number_of(word).is_none()
}

// What is wrong with the options beside the number of an end or of a wait.
fn endless_fault(matches: &ArgMatches<'_>) -> &'static str {
    if matches.get_str("choices").is_some() {
        return "--choices: not beside --end or --wait, which are of schedules of any length";
    }
    if matches.get_str("wait").is_some() && matches.get_str("gates") == Some("any") {
        return "--gates any: not beside --wait";
    }
    ""
}
