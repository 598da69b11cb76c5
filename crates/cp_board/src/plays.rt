//! The rule of the board, and what each kind of atomic step tells.
ghost use Rattle.cp_board.specs.Rule.{IsRuled, opening_view, claims, notes, keeper, dealt, together, nobody};

use crate::views::{Terms, View};
use atomic_table::{Join, Play, Split, TableRule};

pub struct BoardRule;

impl TableRule<(), View, Terms> for BoardRule {
    ghost holds = { IsRuled };

    ghost first = { opening_view };
}

pub struct ClaimStep;

impl Play<(), View> for ClaimStep {
    ghost then = { claims };
}

pub struct NoteStep;

impl Play<(), View> for NoteStep {
    ghost then = { notes };
}

pub struct SplitStep;

impl Split<View> for SplitStep {
    ghost left = { keeper };

    ghost right = { dealt };
}

pub struct JoinStep;

impl Join<View> for JoinStep {
    ghost both = { together };

    ghost spent = { nobody };
}
