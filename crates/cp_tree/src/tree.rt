//! The tree of a program, with the line of each token.

ghost use Rattle.std.specs.Prelude.{◌≡◌, slice_index};
ghost use Rattle.cp_tree.specs.Read.{IsRead};
ghost use Rattle.cp_tree.specs.View.{program_view};

use crate::declaration::Program;

/// A program as it was read.
#[derive(Drop)]
pub struct Tree {
    pub program: Program,
    /// The line of each token, counted from 1.
    pub lines: Vec<u32>,
    pub ghost read: { ∥ IsRead (program_view program) ∥₁ },
}

impl Tree {
    /// The line of token `at`; 0 where there is no such token.
    pub fn line(&self, at: usize) -> u32
        ensures { result ≡ slice_index self.now.lines.items at }
    {
        self.lines.get(at).copied().unwrap_or(0)
    }
}
