//! The words of which all expectations are made.

ghost use Rattle.std.specs.Prelude.{◌≡◌, ◌≢◌, ℕ, List, true, false, map, IfOk, MatchOption};
ghost use Rattle.cp_expectation.specs.Steps as steps;
ghost use Rattle.cp_expectation.specs.Spelling.{SpellsProcess};
ghost use Rattle.cp_expectation.specs.Values as spec;
ghost use Rattle.cp_expectation.specs.Values.{SpellsValue, parenthesized};
ghost use Rattle.cp_expectation.specs.Words.{words_of};
ghost use Rattle.cp_expectation.specs.Written as written;
ghost use Rattle.cp_expectation.specs.Written.{is_doubtful};

use crate::expectation::Claim;
use crate::value::is_value;
use cp_machine::ErrorName;
use std::alloc::{AllocError, Global};

/// The words of a text.
pub fn words_in(alloc: Global, text: &str) -> Result<Vec<&str>, AllocError>
    ensures { IfOk result (λ v. map (λ w. w.now) v.items ≡ words_of text.now) }
{
    text.split_whitespace().collect(alloc)
}

/// What an expectation that begins with this word claims.
pub fn claim_of(word: &str) -> Option<Claim>
    ensures { result ≡ steps.meant_by steps.claims word.now }
{
    match word {
        "never" => Some(Claim::Never),
        "some" => Some(Claim::Sometimes),
        "only" => Some(Claim::Only),
        _ => None,
    }
}

/// The run error of this name.
pub fn error_of(word: &str) -> Option<ErrorName>
    ensures { result ≡ steps.meant_by steps.errors word.now }
{
    match word {
        "overflow" => Some(ErrorName::Overflow),
        "zero-divisor" => Some(ErrorName::ZeroDivisor),
        "range" => Some(ErrorName::Range),
        "no-case" => Some(ErrorName::NoCase),
        "queue-in-use" => Some(ErrorName::QueueInUse),
        "not-init" => Some(ErrorName::NotInit),
        "init-twice" => Some(ErrorName::InitTwice),
        "assertion" => Some(ErrorName::Assertion),
        "invariant" => Some(ErrorName::Invariant),
        _ => None,
    }
}

/// The word, if it begins a topic and could be the name of a constant as well.
pub fn as_name(word: &str) -> Option<&'static str>
    ensures { MatchOption result (is_doubtful word.now ≡ false) (λ name. (is_doubtful word.now ≡ true) × (name.now ≡ word.now)) }
{
    match word {
        "finished" => Some("finished"),
        "shown" => Some("shown"),
        _ => None,
    }
}

/// The value that a word stands for, as a report prints it: itself, or what stands between its parentheses. None where no report prints it.
pub fn value_of(word: &str) -> Option<&str>
    ensures { MatchOption result ((v : List ℕ) → ¬ (SpellsValue word.now v)) (λ value. SpellsValue word.now value.now) }
{
    match in_parentheses(word) {
        Some(value) => checked(value),
        None if as_name(word).is_some() => None,
        None => checked(word),
    }
}

/// The name of processes that a word stands for: itself, or what stands between its parentheses. None where it is a word of this language.
pub fn process_of(word: &str) -> Option<&str>
    ensures { MatchOption result ((n : List ℕ) → ¬ (SpellsProcess word.now n)) (λ name. SpellsProcess word.now name.now) }
{
    match in_parentheses(word) {
        Some(name) => Some(name),
        None if is_bare(word) => Some(word),
        None => None,
    }
}

/// Whether a name of processes can stand among other words as it is.
pub fn is_bare(name: &str) -> bool
    ensures { result ≡ written.is_bare name.now }
{
    !is_own(name) && !is_opened(name)
}

// Whether a parenthesis stands before a name, or nothing is there.
fn is_opened(name: &str) -> bool
    ensures { result ≡ written.is_opened name.now }
{
    match name.as_bytes().first() {
        Some(first) => *first == b'(',
        None => true,
    }
}

fn is_own(word: &str) -> bool
    ensures { result ≡ written.is_own word.now }
{
    match word {
        "and" | "or" | "output" | ".." => true,
        "finished" | "all-waiting" | "run-error" | "alone" | "spins" => true,
        "shown" | "waiting" => true,
        _ => false,
    }
}

fn in_parentheses(word: &str) -> Option<&str>
    ensures { MatchOption result ((v : List ℕ) → word.now ≢ parenthesized v) (λ v. word.now ≡ parenthesized v.now) }
{
    word.strip_prefix("(")?.strip_suffix(")")
}

fn checked(text: &str) -> Option<&str>
    ensures { MatchOption result (spec.is_value text.now ≡ false) (λ value. (value.now ≡ text.now) × (spec.is_value text.now ≡ true)) }
{
    if is_value(text) { Some(text) } else { None }
}
