//! Outcomes as lists of numbers, which are the same where the outcomes are. No list is made of them.

ghost use Rattle.std.specs.Prelude.{◌≡◌, ℕ, List, ◌++◌, ◌&&◌, nat_eq, fold, flat_map};
ghost use Rattle.std.specs.Hash as fed;
ghost use lib.Pointwise.{pointwise};
ghost use Rattle.cp_run.specs.Table.{each};
ghost use Rattle.cp_walk.specs.Hashing.{shown_code};
ghost use Rattle.cp_walk.specs.Report.{number_of, shown_numbers, kind_numbers, same_outcome};

use cp_machine::{ErrorName, Shown};
use cp_run::{Outcome, OutcomeKind};
use std::hash::Hasher;

fn number_of(name: ErrorName) -> u32
    ensures { result ≡ number_of name }
{
    match name {
        ErrorName::Overflow => 0,
        ErrorName::ZeroDivisor => 1,
        ErrorName::Range => 2,
        ErrorName::NoCase => 3,
        ErrorName::QueueInUse => 4,
        ErrorName::NotInit => 5,
        ErrorName::InitTwice => 6,
        ErrorName::Assertion => 7,
        ErrorName::Invariant => 8,
    }
}

/// One number for a value: an integer by its 16 bits, any other by its type and its number.
fn code_of(value: Shown) -> u32
    ensures { result ≡ shown_code value }
{
    match value {
        Shown::Integer(n) => u32::from(n.cast_unsigned()),
        Shown::Char(code) => 131_072 + u32::from(code),
        Shown::Truth(is_true) => 196_608 + (if is_true { 1 } else { 0 }),
        Shown::Constant(constant) => 262_144 + u32::from(constant),
    }
}

/// Feeds a hasher one number for each displayed value.
pub fn feed_output<H: Hasher>(values: &[Shown], state: &mut H)
    ensures { state.new ≡ fold H.write state.old (flat_map (λ v. fed.u32 (shown_code v)) values.now) }
{
    for value in values {
        state.write_u32(code_of(*value));
    }
}

/// Feeds a hasher the numbers of a kind.
pub fn feed_kind<H: Hasher>(kind: OutcomeKind, state: &mut H)
    ensures { state.new ≡ fold H.write state.old (flat_map fed.u32 (kind_numbers kind)) }
{
    match kind {
        OutcomeKind::Finished => state.write_u32(0),
        OutcomeKind::AllWaiting => state.write_u32(1),
        OutcomeKind::RunError {
            name,
            process,
            line,
        } => {
            state.write_u32(2);
            state.write_u32(number_of(name));
            state.write_u32(u32::from(process));
            state.write_u32(line);
        }
        OutcomeKind::ChoiceLimit => state.write_u32(3),
        OutcomeKind::StepLimit => state.write_u32(4),
        OutcomeKind::OutputLimit => state.write_u32(5),
    }
}

fn is_same_kind(mine: OutcomeKind, theirs: OutcomeKind) -> bool
    ensures { (r s : List ℕ) → pointwise nat_eq (kind_numbers mine ++ r) (kind_numbers theirs ++ s) ≡ (result && pointwise nat_eq r s) }
{
    mine == theirs
}

#[inline(always)]
fn is_same_value(mine: Shown, theirs: Shown) -> bool
    ensures { (r s : List ℕ) → pointwise nat_eq (shown_numbers mine ++ r) (shown_numbers theirs ++ s) ≡ (result && pointwise nat_eq r s) }
{
    match (mine, theirs) {
        // Most values are integers.
        (Shown::Integer(number), Shown::Integer(other)) => number == other,
        _ => mine == theirs,
    }
}

fn is_same_output(mine: &[Shown], theirs: &[Shown]) -> bool
    ensures { result ≡ pointwise nat_eq (each shown_numbers mine.now) (each shown_numbers theirs.now) }
{
    let Some((first, rest)) = mine.split_first() else {
        return theirs.is_empty();
    };
    let Some((second, others)) = theirs.split_first() else {
        return false;
    };
    is_same_value(*first, *second) && is_same_output(rest, others)
}

/// Whether two outcomes have the same numbers.
pub fn is_same(mine: &Outcome, theirs: &Outcome) -> bool
    ensures { result ≡ same_outcome mine.now theirs.now }
{
    is_same_kind(mine.kind, theirs.kind)
        && is_same_output(mine.output.as_slice(), theirs.output.as_slice())
}
