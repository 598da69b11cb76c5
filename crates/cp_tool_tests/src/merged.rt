//! Schedules that are counted by their states.

use crate::rows::{WorkedRow, is_answered};
use crate::streams::{NEVER, answer_by};
use cp_tests::answers::{CallAnswer, are_right};
use cp_tool::{OptionFault, read_options};
use std::alloc::Global;
use std::thread::Threads;

static ROWS: [WorkedRow; 14] = [
    WorkedRow {
        name: "two-displays-choices-0",
        words: &["cpx", "--merge", "--choices", "0"],
        source: "type p = process(n: integer); begin display(n) end; var a, b: p; begin init a(1), b(2) end.",
        code: 0,
        text: "schedules 1\noutcomes 1\n1 first - choice-limit output -\n",
    },
    WorkedRow {
        name: "two-displays",
        words: &["cpx", "--merge"],
        source: "type p = process(n: integer); begin display(n) end; var a, b: p; begin init a(1), b(2) end.",
        code: 0,
        text: "schedules 45\noutcomes 2\n30 first 0.0.1.1 finished output 1 2\n15 first 0.0.2.1.1 finished output 2 1\n",
    },
    WorkedRow {
        name: "two-displays-choices-100",
        words: &["cpx", "--merge", "--choices", "100"],
        source: "type p = process(n: integer); begin display(n) end; var a, b: p; begin init a(1), b(2) end.",
        code: 0,
        text: "schedules 45\noutcomes 2\n30 first 0.0.1.1 finished output 1 2\n15 first 0.0.2.1.1 finished output 2 1\n",
    },
    WorkedRow {
        name: "states-1-choices-1",
        words: &["cpx", "--merge", "--choices", "1", "--states", "1"],
        source: "type p = process(n: integer); begin display(n) end; var a, b: p; begin init a(1), b(2) end.",
        code: 5,
        text: "too many states\n",
    },
    WorkedRow {
        name: "states-plain",
        words: &["cpx", "--states", "1"],
        source: "type p = process(n: integer); begin display(n) end; var a, b: p; begin init a(1), b(2) end.",
        code: 0,
        text: "schedules 45\noutcomes 2\n30 first 0.0.1.1 finished output 1 2\n15 first 0.0.2.1.1 finished output 2 1\n",
    },
    WorkedRow {
        name: "many-rows",
        words: &["cpx", "--merge", "--choices", "20"],
        source: "type p = process; begin display(1); display(1); display(1) end; var a, b, c: p; begin init a, b, c end.",
        code: 0,
        text: "schedules 1433250\noutcomes 1\n1433250 first 0.0.0.1.1.1.1.2.2.2.2 finished output 1 1 1 1 1 1 1 1 1\n",
    },
    WorkedRow {
        name: "line-order",
        words: &["cpx", "--merge", "--choices", "100"],
        source: "type m = monitor; var q: queue; procedure entry go(n: integer); begin display(n); continue(q) end; begin end; p = process(x: m; n: integer); begin x.go(n) end; var x: m; a, b, c: p; begin init x, a(x, 1), b(x, 2), c(x, 3) end.",
        code: 0,
        text: "schedules 136338\noutcomes 6\n57925 first 0.0.0.1.1.1.1.2.2.2.2 finished output 1 2 3\n28615 first 0.0.0.1.1.1.1.3.2.2.2.2 finished output 1 3 2\n24913 first 0.0.0.2.1.2.2.1.1.1.2 finished output 2 1 3\n14251 first 0.0.0.2.2.2.2.3.1.1.1.1 finished output 2 3 1\n5317 first 0.0.0.3.1.2.1.1.1.2.2.2 finished output 3 1 2\n5317 first 0.0.0.3.2.1.2.2.1.1.1.2 finished output 3 2 1\n",
    },
    WorkedRow {
        name: "output-only",
        words: &["cpx", "--merge", "--choices", "100"],
        source: "type p = process(n: integer); begin display(n); display(0); display(0) end; var a, b: p; begin init a(1), b(2) end.",
        code: 0,
        text: "schedules 1050\noutcomes 6\n155 first 0.0.1.1.1.1 finished output 1 0 0 2 0 0\n240 first 0.0.1.1.2.1.1 finished output 1 0 2 0 0 0\n340 first 0.0.1.2.1.1.1 finished output 1 2 0 0 0 0\n180 first 0.0.2.1.1.1.1 finished output 2 1 0 0 0 0\n90 first 0.0.2.2.1.1.1.1 finished output 2 0 1 0 0 0\n45 first 0.0.2.2.2.1.1.1.1 finished output 2 0 0 1 0 0\n",
    },
    WorkedRow {
        name: "turns-3-choices-21",
        words: &["cpx", "--merge", "--choices", "21"],
        source: "type m = monitor; procedure entry e; begin end; begin end; p = process; var x: m; begin init x; cycle x.e end end; var a: array [1..3] of p; i: integer; begin for i := 1 to 3 do init a[i] end.",
        code: 0,
        text: "schedules 33998245062\noutcomes 1\n33998245062 first 0.0.0.1.1.1.1.1.1.1.1.1.1.1.1.1.1.1.1.1.1 choice-limit output -\n",
    },
    WorkedRow {
        name: "too-many-outcomes",
        words: &["cpx", "--merge", "--choices", "16"],
        source: "type p = process; begin cycle display(1) end end; var a: p; begin init a; cycle display(2) end end.",
        code: 5,
        text: "too many outcomes\n",
    },
    WorkedRow {
        name: "schedule-21-numbers",
        words: &[
            "cpx",
            "--merge",
            "--choices",
            "100",
            "--schedule",
            "0.0.0.0.0.0.3.2.1.0.0.3.2.1.0.0.3.2.1.0.0",
        ],
        source: "type m = monitor; procedure entry e; begin end; begin end; p = process; var x: m; begin init x; cycle x.e end end; var a: array [1..3] of p; i: integer; begin for i := 1 to 3 do init a[i]; cycle display(0) end end.",
        code: 0,
        text: "process 0 init holders free free free\nprocess 0 init holders free free free\nprocess 0 init holders free free free\nprocess 0 display holders free free free\nprocess 0 display holders free free free\nprocess 0 display holders free free free\nprocess 0 display holders free free free\nprocess 3 enter holders free free 3\nprocess 2 enter holders free 2 3\nprocess 1 enter holders 1 2 3\nprocess 0 display holders 1 2 3\nprocess 0 display holders 1 2 3\nprocess 3 leave holders 1 2 free\nprocess 2 leave holders 1 free free\nprocess 1 leave holders free free free\nprocess 0 display holders free free free\nprocess 0 display holders free free free\nprocess 3 enter holders free free 3\nprocess 2 enter holders free 2 3\nprocess 1 enter holders 1 2 3\nprocess 0 display holders 1 2 3\nprocess 0 display holders 1 2 3\nwants 0 1 2 3\n",
    },
    WorkedRow {
        name: "schedule-too-many-outcomes",
        words: &[
            "cpx",
            "--merge",
            "--choices",
            "16",
            "--schedule",
            "0.1.0",
            "--states",
            "1",
        ],
        source: "type p = process; begin cycle display(1) end end; var a: p; begin init a; cycle display(2) end end.",
        code: 0,
        text: "process 0 init holders\nprocess 0 display holders\nprocess 1 display holders\nprocess 0 display holders\nwants 0 1\n",
    },
    WorkedRow {
        name: "workers-cut",
        words: &["cpx", "--merge", "--workers", "16", "--cut", "20"],
        source: "type p = process(n: integer); begin display(n) end; var a, b: p; begin init a(1), b(2) end.",
        code: 0,
        text: "schedules 45\noutcomes 2\n30 first 0.0.1.1 finished output 1 2\n15 first 0.0.2.1.1 finished output 2 1\n",
    },
    WorkedRow {
        name: "source-refused",
        words: &["cpx", "--merge"],
        source: "begin x := 1 end.",
        code: 1,
        text: "line 1 check C1\n",
    },
];

#[test]
fn merged_rows(rt: HostRuntime) {
    for row in &ROWS {
        assert!(rt; is_answered(&rt, rt.alloc(), row), "{}", row.name);
    }
}

/// At most one growth is refused, as by `rt try --test --fail-alloc N`: then one answer is that of refused memory, with nothing
/// written, and each other one that of ample memory.
#[test]
fn a_refused_growth_is_told_alone(rt: HostRuntime) {
    let answers = [
        row_answer(&rt, rt.alloc(), &ROWS[0]),
        row_answer(&rt, rt.alloc(), &ROWS[1]),
        row_answer(&rt, rt.alloc(), &ROWS[2]),
        row_answer(&rt, rt.alloc(), &ROWS[3]),
    ];
    assert!(rt; are_right(&answers));
}

fn row_answer<X: Threads + Sync>(rt: &X, alloc: Global, row: &WorkedRow) -> CallAnswer {
    let options = match read_options(alloc, row.words) {
        Ok(options) => options,
        Err(OptionFault::Memory) => return CallAnswer::Memory,
        Err(_fault) => return CallAnswer::Other,
    };
    let answer = answer_by(rt, alloc, &options, row.source.as_bytes(), NEVER);
    let wanted = row.text.as_bytes();
    // The test's own writer takes memory too: where that is refused, a write failed.
    let is_cut_short = answer.status.code == 4 && wanted.starts_with(&answer.text);
    if answer.is(row.code, wanted) {
        CallAnswer::Ample
    } else if is_cut_short || answer.is(3, b"") {
        CallAnswer::Memory
    } else {
        CallAnswer::Other
    }
}
