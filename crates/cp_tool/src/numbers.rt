//! Numbers of the words, in their ranges.
ghost use Rattle.std.specs.Prelude.{◌≤◌, option_map};
ghost use Rattle.clap.specs.Words.{first_of, found_of, rows_of};
ghost use Rattle.cp_tool.specs.Finds.{Finds, Obtains};
ghost use Rattle.cp_tool.specs.Numbers.{IsChosen};

use crate::options::OptionFault;
use crate::texts::text_of;
use clap::ArgMatches;
use std::alloc::{AllocError, Global};

/// The number that an option has, or the default where the words have none for it.
pub fn number_of(
    alloc: Global,
    matches: &ArgMatches<'_>,
    name: &str,
    default: u32,
    low: u32,
    high: u32,
) -> Result<u32, OptionFault>
    requires { (low ≤ default) × (default ≤ high) }
    ensures { Obtains (IsChosen default low high (first_of name.now (rows_of (found_of matches.now)))) result }
{
    let text = text_of(matches, name);
    match parse_number(text, default, low, high) {
        Some(number) => Ok(number),
        None => {
            let why = number_reason(alloc, name, text.unwrap_or(""), low, high)?;
            Err(OptionFault::Refused(why))
        }
    }
}

/// The number of the text, or the default where there is no text; `None` where it is no number or
/// out of the range.
pub fn parse_number(text: Option<&str>, default: u32, low: u32, high: u32) -> Option<u32>
    requires { (low ≤ default) × (default ≤ high) }
    ensures { Finds (IsChosen default low high (option_map (λ s. s.now) text.entry)) result }
{
    let Some(text) = text else {
        return Some(default);
    };
    let Ok(number) = text.parse::<u32>() else {
        return None;
    };
    if number < low || number > high {
        return None;
    }
    Some(number)
}

/// Why a text is no number of a range.
pub fn number_reason(
    alloc: Global,
    name: &str,
    text: &str,
    low: u32,
    high: u32,
) -> Result<String, AllocError> {
    match parse_number(Some(text), 0, 0, u32::MAX) {
        Some(number) if number < low => format!(in alloc; "--{name} {text}: at least {low}"),
        Some(_) => format!(in alloc; "--{name} {text}: at most {high}"),
        None => format!(in alloc; "--{name} {text}: a number from {low} to {high} is wanted"),
    }
}
