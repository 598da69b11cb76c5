//! How many words begin the words of a table.

ghost use Rattle.std.specs.Prelude.{◌≡◌, ◌≤◌, ◌<◌, ◌*◌, ◌^◌, length, map};
ghost use Rattle.cp_slots.specs.Tables.{Tables};
ghost use Rattle.cp_run.specs.declared.limits.Limits.{Limits};
ghost use Rattle.cp_run.specs.Slots.{slots};
ghost use Rattle.cp_run.specs.Table.{table as all_lines};
ghost use Rattle.cp_walk.specs.Beginnings as spec;
ghost use Rattle.cp_walk.specs.Rows.{line_of};

use crate::row::{Row, Table};
use std::mem::size_of_val;

/// How many numbers two words have in common at their fronts.
fn common(word: &[u8], other: &[u8]) -> usize
    ensures value { result ≡ spec.common word.now other.now }
    ensures within { result ≤ length other.now }
{
    let Some((first, rest)) = word.split_first() else {
        return 0;
    };
    let Some((second, others)) = other.split_first() else {
        return 0;
    };
    if *first == *second {
        1 + common(rest, others)
    } else {
        0
    }
}

/// Checks nothing: rows that lie in memory are few enough for 64 bits to count the numbers of their words.
fn lie_in_memory(rows: &[Row])
    ensures { 21 * length rows.now < 2 ^ 64 }
{
    let _bytes = size_of_val(rows);
}

/// The number of different words that begin a word of a table, the empty word and the words themselves counted. The rows are in
/// dictionary order, so a word adds what goes beyond its common front with the word before.
pub fn beginnings(table: &Table) -> u64
    requires rows { (r : Tables) × (l : Limits) × (map line_of table.now.rows ≡ all_lines (slots r l.discipline) l.choices l.steps) }
    ensures { result ≡ spec.beginnings (spec.words_of_rows table.now.rows) }
{
    let rows = table.rows.as_slice();
    lie_in_memory(rows);
    let Some((first, rest)) = rows.split_first() else {
        return 0;
    };
    let mut last = first.word.as_slice();
    let mut count = 1 + last.len() as u64;
    for row in rest {
        let word = row.word.as_slice();
        count += (word.len() - common(last, word)) as u64;
        last = word;
    }
    count
}
