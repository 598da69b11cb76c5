//! The outcomes of a table.

ghost use Rattle.std.specs.Prelude.{◌≡◌, ◌<◌, ◌^◌, map};
ghost use Rattle.cp_merged.specs.Code.{tally_of};
ghost use Rattle.cp_merged.specs.Told.{rows_in};

use crate::tally::Tally;
use std::marker::Model;

/// The different outcomes of a table, in the order of their first words. There are fewer than 10^126 words.
#[derive(Drop)]
pub struct Tallies {
    items: Vec<Tally>,
}

impl Model for Tallies {
    ghost use Rattle.std.specs.Prelude.{List, map, ◌<◌, ◌^◌};
    ghost use Rattle.cp_merged.specs.declared.tally.Tally.{Tally};
    ghost use Rattle.cp_merged.specs.Code.{tally_of};
    ghost use Rattle.cp_merged.specs.Told.{rows_in};

    ghost Value = { List Tally };

    ghost view = { λ t. t.items.items };

    ghost invariant = { λ t. rows_in (map tally_of t.items.items) < 10 ^ 126 };
}

impl Tallies {
    /// These tallies.
    pub fn new(items: Vec<Tally>) -> Tallies
        requires { rows_in (map tally_of items.items) < 10 ^ 126 }
        ensures { result ≡ items.items }
    {
        Tallies { items }
    }

    /// The tallies as a slice.
    pub fn as_slice(&self) -> &[Tally]
        ensures value { result.now ≡ self.now }
        ensures small { rows_in (map tally_of result.now) < 10 ^ 126 }
    {
        self.items.as_slice()
    }
}
