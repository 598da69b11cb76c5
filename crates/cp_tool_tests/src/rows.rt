//! The worked rows.
use crate::fakes::FakeRefusal;
use crate::streams::{NEVER, Refusals, ToolAnswer, answer_by, answer_to_endless};
use cp_tool::read_options;
use std::alloc::Global;
use std::thread::Threads;

const TWO_DISPLAYS: &str =
    "type p = process(n: integer); begin display(n) end; var a, b: p; begin init a(1), b(2) end.";

/// What the program answers for it within five choices.
const TWO_DISPLAYS_REPORT: &str =
    "schedules 45\noutcomes 2\n30 first 0.0.1.1 finished output 1 2\n15 first 0.0.2.1.1 finished output 2 1\n";

/// A source, the words of the call, and what is written, with which status.
pub struct WorkedRow {
    pub name: &'static str,
    pub words: &'static [&'static str],
    pub source: &'static str,
    pub code: u8,
    pub text: &'static str,
}

static ROWS: [WorkedRow; 16] = [
    WorkedRow {
        name: "two-displays",
        words: &["cpx", "--choices", "5"],
        source: TWO_DISPLAYS,
        code: 0,
        text: TWO_DISPLAYS_REPORT,
    },
    WorkedRow {
        name: "two-displays-default",
        words: &["cpx"],
        source: TWO_DISPLAYS,
        code: 0,
        text: "schedules 45\noutcomes 2\n30 first 0.0.1.1 finished output 1 2\n15 first 0.0.2.1.1 finished output 2 1\n",
    },
    WorkedRow {
        name: "two-displays-no-choice",
        words: &["cpx", "--choices", "0"],
        source: TWO_DISPLAYS,
        code: 0,
        text: "schedules 1\noutcomes 1\n1 first - choice-limit output -\n",
    },
    WorkedRow {
        name: "two-displays-rows",
        words: &["cpx", "--choices", "1", "--rows"],
        source: TWO_DISPLAYS,
        code: 0,
        text: "row 0 choice-limit output -\nrow 1 choice-limit output 1\nschedules 2\noutcomes 2\n1 first 0 choice-limit output -\n1 first 1 choice-limit output 1\n",
    },
    WorkedRow {
        name: "two-process-types",
        words: &["cpx", "--choices", "5"],
        source: "type p = process; begin display(1) end; q = process; begin display(2) end; var a: p; b: q; begin init a, b end.",
        code: 0,
        text: "schedules 45\noutcomes 2\n30 first 0.0.1.1 finished output 1 2\n15 first 0.0.2.1.1 finished output 2 1\n",
    },
    WorkedRow {
        name: "two-process-types-default",
        words: &["cpx"],
        source: "type p = process; begin display(1) end; q = process; begin display(2) end; var a: p; b: q; begin init a, b end.",
        code: 0,
        text: "schedules 45\noutcomes 2\n30 first 0.0.1.1 finished output 1 2\n15 first 0.0.2.1.1 finished output 2 1\n",
    },
    WorkedRow {
        name: "two-process-types-one-choice",
        words: &["cpx", "--choices", "1"],
        source: "type p = process; begin display(1) end; q = process; begin display(2) end; var a: p; b: q; begin init a, b end.",
        code: 0,
        text: "schedules 2\noutcomes 2\n1 first 0 choice-limit output -\n1 first 1 choice-limit output 1\n",
    },
    WorkedRow {
        name: "init-twice-process",
        words: &["cpx", "--choices", "5"],
        source: "type p = process; begin end; var a: p; begin init a, a end.",
        code: 0,
        text: "schedules 2\noutcomes 1\n2 first 0 run-error init-twice process 0 line 1 output -\n",
    },
    WorkedRow {
        name: "two-cycles",
        words: &["cpx", "--choices", "2"],
        source: "type p = process; begin cycle display(1) end end; var a: p; begin init a; cycle display(2) end end.",
        code: 0,
        text: "schedules 4\noutcomes 4\n1 first 0.0 choice-limit output 2 2\n1 first 0.1 choice-limit output 2 1\n1 first 1.0 choice-limit output 1 2\n1 first 1.1 choice-limit output 1 1\n",
    },
    WorkedRow {
        name: "two-cycles-too-many-rows",
        words: &["cpx", "--choices", "16"],
        source: "type p = process; begin cycle display(1) end end; var a: p; begin init a; cycle display(2) end end.",
        code: 5,
        text: "too many rows\n",
    },
    WorkedRow {
        name: "empty-program",
        words: &["cpx", "--steps", "2"],
        source: "begin end.",
        code: 0,
        text: "schedules 1\noutcomes 1\n1 first - finished output -\n",
    },
    WorkedRow {
        name: "empty-program-step-limit",
        words: &["cpx", "--steps", "1"],
        source: "begin end.",
        code: 0,
        text: "schedules 1\noutcomes 1\n1 first - step-limit output -\n",
    },
    WorkedRow {
        name: "empty-source",
        words: &["cpx"],
        source: "",
        code: 1,
        text: "line 1 parse: unexpected\n",
    },
    WorkedRow {
        name: "open-comment",
        words: &["cpx"],
        source: "begin \"abc",
        code: 1,
        text: "line 1 scan: open comment\n",
    },
    WorkedRow {
        name: "with-left-out",
        words: &["cpx"],
        source: "begin with x do end.",
        code: 1,
        text: "line 1 parse: outside profile\n",
    },
    WorkedRow {
        name: "gates-any-two-displays",
        words: &["cpx", "--choices", "5", "--gates", "any"],
        source: TWO_DISPLAYS,
        code: 0,
        text: "schedules 45\noutcomes 2\n30 first 0.0.1.1 finished output 1 2\n15 first 0.0.2.1.1 finished output 2 1\n",
    },
];

/// Whether the program answers so.
pub fn is_answered<X: Threads + Sync>(rt: &X, alloc: Global, row: &WorkedRow) -> bool {
    match read_options(alloc, row.words) {
        Ok(options) => {
            let answer = answer_by(rt, alloc, &options, row.source.as_bytes(), NEVER);
            answer.is(row.code, row.text.as_bytes())
        }
        Err(_fault) => false,
    }
}

#[test]
fn worked_rows(rt: HostRuntime) {
    for row in &ROWS {
        assert!(rt; is_answered(&rt, rt.alloc(), row), "{}", row.name);
    }
}

fn refuses_endless_source<X: Threads + Sync>(rt: &X, alloc: Global) -> bool {
    match read_options(alloc, ["cpx"].as_slice()) {
        Ok(options) => { answer_to_endless(rt, alloc, &options).is(1, b"line 0 scan: too long\n") }
        Err(_fault) => false,
    }
}

/// The row endless-reader.
#[test]
fn endless_reader(rt: HostRuntime) {
    assert!(rt; refuses_endless_source(&rt, rt.alloc()));
}

/// What the program answers for `TWO_DISPLAYS` where a read or a write is refused; none where the words are refused.
fn answer_despite<X: Threads + Sync>(
    rt: &X,
    alloc: Global,
    refusals: Refusals,
) -> Option<ToolAnswer> {
    match read_options(alloc, ["cpx", "--choices", "5"].as_slice()) {
        Ok(options) => {
            let source = TWO_DISPLAYS.as_bytes();
            Some(answer_by(rt, alloc, &options, source, refusals))
        }
        Err(_fault) => None,
    }
}

/// Whether the answer is that of a good reader, or, while reads are left to fail, that there is none.
fn is_told_of_read<X: Threads + Sync>(rt: &X, alloc: Global, read: u32) -> bool {
    let refusals = Refusals {
        read,
        write: 0,
        refusal: FakeRefusal::Fails,
    };
    match answer_despite(rt, alloc, refusals) {
        Some(answer) => {
            if read as usize <= TWO_DISPLAYS.len() + 1 {
                answer.is(4, b"")
            } else {
                answer.is(0, TWO_DISPLAYS_REPORT.as_bytes())
            }
        }
        None => false,
    }
}

/// Each read in turn fails, and after the last the answer is that of a good reader.
#[test]
fn failing_reader(rt: HostRuntime) {
    for read in 1..200 {
        assert!(rt; is_told_of_read(&rt, rt.alloc(), read), "{read}");
    }
}

/// Whether the answer is the beginning of that of a good writer, and with its status once no write is left to be refused.
fn is_told_of_write<X: Threads + Sync>(
    rt: &X,
    alloc: Global,
    write: u32,
    refusal: FakeRefusal,
) -> bool {
    let refusals = Refusals {
        read: 0,
        write,
        refusal,
    };
    let good = TWO_DISPLAYS_REPORT.as_bytes();
    let code = if write as usize <= good.len() { 4 } else { 0 };
    match answer_despite(rt, alloc, refusals) {
        Some(answer) => answer.status.code == code && good.starts_with(&answer.text),
        None => false,
    }
}

/// Each write in turn fails or takes nothing, and after the last the answer is that of a good writer.
#[test]
fn failing_writer(rt: HostRuntime) {
    for write in 1..200 {
        let is_told = is_told_of_write(&rt, rt.alloc(), write, FakeRefusal::Fails)
            && is_told_of_write(&rt, rt.alloc(), write, FakeRefusal::TakesNothing);
        assert!(rt; is_told, "{write}");
    }
}
