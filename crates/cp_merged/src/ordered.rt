//! Outcomes in the order of their first words.

ghost use Rattle.std.specs.Prelude.{◌≡◌, ◌<◌, ◌^◌, map, IfOk};
ghost use Rattle.std.specs.List.Sorted.{IsPermutation, IsSortedBy};
ghost use Rattle.cp_merged.specs.Code.{end_of, tally_of, by_word};
ghost use Rattle.cp_merged.specs.Told.{rows_in};

use crate::frontier::Ends;
use crate::tallies::Tallies;
use crate::tally::Tally;
use std::alloc::{AllocError, Global};

/// The outcomes as they were found.
fn tallies_of(alloc: Global, ends: Ends) -> Result<Vec<Tally>, AllocError>
    ensures { IfOk result (λ v. map tally_of v.items ≡ map end_of ends.entries) }
{
    let mut tallies = Vec::new(alloc);
    for (key, prefixes) in ends {
        tallies.push(Tally {
            outcome: key.outcome,
            count: prefixes.count,
            first: prefixes.first,
        })?;
    }
    Ok(tallies)
}

fn sort(tallies: &mut Vec<Tally>)
    ensures permutation { IsPermutation tallies.old.items tallies.new.items }
    ensures sorted { IsSortedBy by_word tallies.new.items }
{
    tallies.sort_unstable_by(|one, other| one.first.cmp(&other.first));
}

/// The outcomes in the order of their first words.
pub fn sort_tallies(alloc: Global, ends: Ends) -> Result<Tallies, AllocError>
    requires { rows_in (map end_of ends.entries) < 10 ^ 126 }
    ensures permutation { IfOk result (λ v. IsPermutation (map end_of ends.entries) (map tally_of v)) }
    ensures sorted { IfOk result (λ v. IsSortedBy by_word v) }
{
    let mut tallies = tallies_of(alloc, ends)?;
    sort(&mut tallies);
    Ok(Tallies::new(tallies))
}
