//! Runs of single words: how they end, what they want, and where they are refused.

use crate::programs::{
    ANY, CONTINUES, CONTINUES_ANY, DELAYED, FIRST, RESUMED, SIGNALLED, THREE_CALLERS, TWO_DISPLAYS,
    WAITS, WantedEnd, end_at, has_ended, numbers_of,
};
use cp_machine::{Discipline, Gates, Shown, Signals};
use cp_run::{Limits, OutcomeKind};
use std::alloc::Global;

/// A word, and how its run ends.
struct ScheduleEnding {
    source: &'static str,
    choices: u8,
    discipline: Discipline,
    word: &'static str,
    end: WantedEnd,
}

/// How a process ends that is delayed for good.
const DELAYED_FOREVER: WantedEnd = WantedEnd::Ended(OutcomeKind::AllWaiting, &[]);

static ENDINGS: [ScheduleEnding; 21] = [
    // The order in the line decides under one gate, and the choice under the other.
    ScheduleEnding {
        source: THREE_CALLERS,
        choices: 12,
        discipline: FIRST,
        word: "0.0.0.1.2.3.2.2.3.3.1.2",
        end: WantedEnd::Ended(
            OutcomeKind::Finished,
            &[Shown::Integer(1), Shown::Integer(2), Shown::Integer(3)],
        ),
    },
    ScheduleEnding {
        source: THREE_CALLERS,
        choices: 12,
        discipline: FIRST,
        word: "0.0.0.1.3.2.3.3.2.2.1.3",
        end: WantedEnd::Ended(
            OutcomeKind::Finished,
            &[Shown::Integer(1), Shown::Integer(3), Shown::Integer(2)],
        ),
    },
    ScheduleEnding {
        source: THREE_CALLERS,
        choices: 13,
        discipline: ANY,
        word: "0.0.0.1.2.3.2.2.2.3.3.1.2",
        end: WantedEnd::Ended(
            OutcomeKind::Finished,
            &[Shown::Integer(1), Shown::Integer(2), Shown::Integer(3)],
        ),
    },
    ScheduleEnding {
        source: THREE_CALLERS,
        choices: 13,
        discipline: ANY,
        word: "0.0.0.1.2.3.3.3.3.2.2.1.2",
        end: WantedEnd::Ended(
            OutcomeKind::Finished,
            &[Shown::Integer(1), Shown::Integer(3), Shown::Integer(2)],
        ),
    },
    // A process that is resumed goes before the line.
    ScheduleEnding {
        source: RESUMED,
        choices: 13,
        discipline: FIRST,
        word: "0.0.0.1.1.2.3.1.1.3.3.1.2",
        end: WantedEnd::Ended(
            OutcomeKind::Finished,
            &[Shown::Integer(2), Shown::Integer(1), Shown::Integer(3)],
        ),
    },
    // Under one gate the line is wanted, under the other the ready processes.
    ScheduleEnding {
        source: THREE_CALLERS,
        choices: 13,
        discipline: ANY,
        word: "0.0.0.1.2.3",
        end: WantedEnd::Wants(&[2, 3]),
    },
    ScheduleEnding {
        source: THREE_CALLERS,
        choices: 13,
        discipline: FIRST,
        word: "0.0.0.1.2.3",
        end: WantedEnd::Wants(&[1, 2]),
    },
    ScheduleEnding {
        source: THREE_CALLERS,
        choices: 13,
        discipline: FIRST,
        word: "0.0.0.1.2.3.3.3.3.2.2.1.2",
        end: WantedEnd::NotReady(6),
    },
    // A process that is delayed for good: each word of the table, under either gate.
    ScheduleEnding {
        source: DELAYED,
        choices: 2,
        discipline: FIRST,
        word: "0",
        end: DELAYED_FOREVER,
    },
    ScheduleEnding {
        source: DELAYED,
        choices: 2,
        discipline: FIRST,
        word: "1.0",
        end: DELAYED_FOREVER,
    },
    ScheduleEnding {
        source: DELAYED,
        choices: 2,
        discipline: FIRST,
        word: "1.1",
        end: DELAYED_FOREVER,
    },
    ScheduleEnding {
        source: DELAYED,
        choices: 2,
        discipline: ANY,
        word: "0",
        end: DELAYED_FOREVER,
    },
    ScheduleEnding {
        source: DELAYED,
        choices: 2,
        discipline: ANY,
        word: "1.0",
        end: DELAYED_FOREVER,
    },
    ScheduleEnding {
        source: DELAYED,
        choices: 2,
        discipline: ANY,
        word: "1.1",
        end: DELAYED_FOREVER,
    },
    // Who goes on after a continue, and who comes after that.
    ScheduleEnding {
        source: SIGNALLED,
        choices: 9,
        discipline: FIRST,
        word: "0.0.0.1.1.2.3.2.1",
        end: WantedEnd::Ended(
            OutcomeKind::Finished,
            &[Shown::Integer(2), Shown::Integer(1), Shown::Integer(3)],
        ),
    },
    ScheduleEnding {
        source: SIGNALLED,
        choices: 11,
        discipline: CONTINUES,
        word: "0.0.0.1.1.2.3.2.1.1.1",
        end: WantedEnd::Ended(
            OutcomeKind::Finished,
            &[
                Shown::Integer(2),
                Shown::Integer(4),
                Shown::Integer(3),
                Shown::Integer(1),
            ],
        ),
    },
    ScheduleEnding {
        source: SIGNALLED,
        choices: 10,
        discipline: CONTINUES_ANY,
        word: "0.0.0.1.1.2.3.1.2.1",
        end: WantedEnd::Ended(
            OutcomeKind::Finished,
            &[
                Shown::Integer(2),
                Shown::Integer(4),
                Shown::Integer(1),
                Shown::Integer(3),
            ],
        ),
    },
    ScheduleEnding {
        source: SIGNALLED,
        choices: 9,
        discipline: WAITS,
        word: "0.0.0.1.1.2.3.1.2",
        end: WantedEnd::Ended(
            OutcomeKind::Finished,
            &[
                Shown::Integer(2),
                Shown::Integer(1),
                Shown::Integer(4),
                Shown::Integer(3),
            ],
        ),
    },
    // Where nobody waits in the queue the caller goes on as well.
    ScheduleEnding {
        source: SIGNALLED,
        choices: 11,
        discipline: WAITS,
        word: "0.0.0.2.1.2.2.2.2.1.2",
        end: WantedEnd::Ended(
            OutcomeKind::AllWaiting,
            &[Shown::Integer(2), Shown::Integer(4), Shown::Integer(3)],
        ),
    },
    // A word that is used up, and one that is refused.
    ScheduleEnding {
        source: TWO_DISPLAYS,
        choices: 8,
        discipline: FIRST,
        word: "none",
        end: WantedEnd::Wants(&[0, 1]),
    },
    ScheduleEnding {
        source: TWO_DISPLAYS,
        choices: 8,
        discipline: FIRST,
        word: "2",
        end: WantedEnd::NotReady(0),
    },
];

/// Whether the run of a word ends as is told here.
fn is_as_told(alloc: Global, ending: &ScheduleEnding) -> bool {
    let word = numbers_of(ending.word);
    let Some(limits) = Limits::new(ending.choices, 1000, ending.discipline) else {
        return false;
    };
    match end_at(alloc, ending.source, limits, word.as_slice()) {
        Some(end) => has_ended(&end, word.len(), &ending.end),
        None => false,
    }
}

#[test]
fn runs_of_words(rt: HostRuntime) {
    for (number, ending) in ENDINGS.iter().enumerate() {
        assert!(rt; is_as_told(rt.alloc(), ending), "{number}");
    }
}

/// The caller of a `continue` is to be the first of the line, so there must be a first.
#[test]
fn any_of_a_line_is_not_let_in_beside_wait(rt: HostRuntime) {
    let both = Discipline {
        gates: Gates::Any,
        signals: Signals::Wait,
    };
    assert!(rt; Limits::new(8, 1000, both).is_none());
    assert!(rt;
        Limits::new(8, 1000, CONTINUES_ANY).is_some() && Limits::new(8, 1000, WAITS).is_some()
    );
}
