//! Rows, tables and their pieces.

ghost use Rattle.std.specs.Prelude.{◌≡◌};

use arrayvec::ArrayVec;
use cp_run::Outcome;
use std::marker::Model;

/// A complete word with its outcome.
#[derive(Drop)]
pub struct Row {
    pub word: ArrayVec<u8, 20>,
    pub outcome: Outcome,
}

/// Rows in order.
#[derive(Drop)]
pub struct Rows {
    items: Vec<Row>,
}

impl Model for Rows {
    ghost use Rattle.std.specs.Prelude.{List};
    ghost use Rattle.cp_walk.specs.declared.row.Row.{Row};

    ghost Value = { List Row };

    ghost view = { λ r. r.items.items };
}

impl Rows {
    /// These rows.
    pub fn new(items: Vec<Row>) -> Rows
        ensures { result ≡ items.items }
    {
        Rows { items }
    }

    /// The rows as a slice.
    pub fn as_slice(&self) -> &[Row]
        ensures { result.now ≡ self.now }
    {
        self.items.as_slice()
    }

    /// The rows as a vector.
    pub fn into_vec(self) -> Vec<Row>
        ensures { result.items ≡ self }
    {
        self.items
    }
}

/// The complete words of a job with their outcomes, in dictionary order.
#[derive(Drop)]
pub struct Table {
    pub rows: Rows,
}

/// The rows of one task.
#[derive(Drop)]
pub struct RowPiece {
    pub task: u32,
    pub rows: Rows,
}
