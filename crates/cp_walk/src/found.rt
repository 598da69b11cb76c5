//! What a walk has found.

use crate::memo::Walked;
use crate::row::Row;

/// The rows of a walk so far, and the nodes that were walked, whose rows are among them.
#[derive(Drop)]
pub struct Found {
    pub rows: Vec<Row>,
    pub walked: Walked,
}
