//! Which schedule is shown, where one is.

use crate::words::numbers_of;
use clap::ArgMatches;

/// Which schedule is shown.
#[derive(Clone, Copy)]
pub enum ScheduleChoice {
    /// The one that is given. So many numbers at its end are a round that can be gone again and again.
    Given(usize),
    /// The first of the outcome that `outcomes` tells with this number.
    First(usize),
    /// The simplest of it.
    Simplest(usize),
    /// That of the end that `ends` tells with this number.
    End(usize),
    /// That of the process which `ends --waits` tells with this number as one that may wait for ever, and its round.
    Wait(usize),
}

/// Which schedule the words choose, in which there is no fault.
pub fn choice_of(matches: &ArgMatches<'_>) -> ScheduleChoice {
    if let Some(number) = number_of(matches.get_str("outcome")) {
        return if matches.get_flag("simplest") {
            ScheduleChoice::Simplest(number)
        } else {
            ScheduleChoice::First(number)
        };
    }
    if let Some(number) = number_of(matches.get_str("end")) {
        return ScheduleChoice::End(number);
    }
    if let Some(number) = number_of(matches.get_str("wait")) {
        return ScheduleChoice::Wait(number);
    }
    ScheduleChoice::Given(numbers_of(matches.get_str("again")))
}

/// A number from 1 on.
pub fn number_of(word: Option<&str>) -> Option<usize> {
    match word?.parse::<u32>() {
        Ok(0) | Err(_) => None,
        Ok(number) => Some(number as usize),
    }
}

/// Whether a schedule of any length is chosen by its number.
pub fn is_endless(matches: &ArgMatches<'_>) -> bool {
    matches.get_str("end").is_some() || matches.get_str("wait").is_some()
}
