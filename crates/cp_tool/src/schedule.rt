//! Schedule words and their texts.
ghost use Rattle.std.specs.Prelude.{◌≡◌, ◌≤◌, ℕ, List, IfOk, IfSome, IsSomeAnd, option_map, string_bytes};
ghost use Rattle.cp_tool.specs.Finds.{Finds, Obtains};
ghost use Rattle.cp_tool.specs.Options.{IsScheduled};
ghost use Rattle.cp_tool.specs.Words.{IsWord, spelled};

use crate::options::OptionFault;
use arrayvec::ArrayVec;
use std::alloc::{AllocError, Global};

/// The word of at most so many numbers that the text of an option spells, if there is a text.
pub fn schedule_of(
    alloc: Global,
    text: Option<&str>,
    most: u8,
) -> Result<Option<ArrayVec<u8, 100>>, OptionFault>
    requires { most ≤ 100 }
    ensures { Obtains (IsScheduled most (option_map (λ s. s.now) text.entry)) result }
{
    let Some(text) = text else {
        return Ok(None);
    };
    let Some(word) = word_of(alloc, text, most)? else {
        let why = schedule_reason(alloc, text, most)?;
        return Err(OptionFault::Refused(why));
    };
    Ok(Some(word))
}

// Why a text spells no word of at most so many numbers.
fn schedule_reason(alloc: Global, text: &str, most: u8) -> Result<String, AllocError> {
    if word_of(alloc, text, 100)?.is_some() {
        return format!(in alloc; "--schedule {text}: at most 20 numbers without --merge or --ends");
    }
    format!(in alloc;
        "--schedule {text}: `none`, or up to {most} numbers 0 to 15 joined by periods"
    )
}

/// The word of at most so many numbers that the text spells, or `None` where it spells none. The text is read leniently, and
/// what was read is spelled again: where that is another text, the first spells no word.
pub fn word_of(alloc: Global, text: &str, most: u8) -> Result<Option<ArrayVec<u8, 100>>, AllocError>
    requires { most ≤ 100 }
    ensures { IfOk result (Finds (λ w. IsWord most w.items × (spelled w.items ≡ text.now))) }
{
    let Some(word) = numbers_of(text, most) else {
        return Ok(None);
    };
    let again = spell(alloc, word.as_slice())?;
    if again.as_str() == text {
        Ok(Some(word))
    } else {
        Ok(None)
    }
}

fn numbers_of(text: &str, most: u8) -> Option<ArrayVec<u8, 100>>
    requires { most ≤ 100 }
    ensures word { IfSome result (λ v. IsWord most v.items) }
    ensures reads { (w : List ℕ) → IsWord most w → spelled w ≡ text.now
        → IsSomeAnd result (λ v. v.items ≡ w) }
{
    let mut word = ArrayVec::new();
    if text == "none" {
        return Some(word);
    }
    for part in text.split('.') {
        let Ok(number) = part.parse::<u8>() else {
            return None;
        };
        if number > 15 || word.len() >= most as usize {
            return None;
        }
        word.push(number);
    }
    Some(word)
}

fn spell(alloc: Global, word: &[u8]) -> Result<String, AllocError>
    ensures { IfOk result (λ s. string_bytes s ≡ spelled word.now) }
{
    let Some((first, rest)) = word.split_first() else {
        return format!(in alloc; "none");
    };
    let mut text = format!(in alloc; "{first}")?;
    for number in rest {
        write!(text, ".{number}")?;
    }
    Ok(text)
}
