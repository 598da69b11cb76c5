//! A board from which threads draw numbered tasks, each once, and on which they note how many rows a task gave.
//!
//! Each thread has a seat. `Board::claim` and `Board::note` take a single atomic step on one of the board's three words
//! and wait for nobody; `Board::close` takes all seats back and says what was drawn and noted.
#![tactic(auto)]

mod plays;
mod seats;
mod views;

pub use seats::{Board, BoardFault, Closed, Seat};
