//! Laws over the definitions alone, of the ends that are possible.

ghost use Rattle.cp_ends.specs.Named.{AnswerMeaningLaw, AnswerToMeaningLaw};

/// What is found on slots is so of the program on its own names, in schedules of any length.
pub fn law_answer_means()
    ensures { AnswerMeaningLaw }
{}

/// The same of schedules of at most so many choices, where there are too many states.
pub fn law_answer_to_means()
    ensures { AnswerToMeaningLaw }
{}
