//! Laws over the definitions alone, of who may wait for ever.

ghost use Rattle.cp_waits.specs.Named.{LinesMeaningLaw};

/// What is said of the graph of all states is so of the slot machine, and of its program on the program's own names: each line shows a fair
/// schedule without end in which its process waits, and who has no line waits for ever in none.
pub fn law_lines_mean()
    ensures { LinesMeaningLaw }
{}
