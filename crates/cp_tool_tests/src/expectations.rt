use cp_expectation::{Misread, Reading, expectations, misread_text, push_expectation};
use cp_verdict::expectations_in;
use std::alloc::Global;

/// Whether expectations are these, written again.
fn are_written(alloc: Global, reading: &Reading, wanted: &str) -> bool {
    let mut again = String::new(alloc);
    let mut are_written = true;
    for expectation in &reading.expectations {
        are_written = are_written
            && push_expectation(&mut again, expectation).is_ok()
            && again.push_str(";").is_ok();
    }
    are_written && again.as_str() == wanted
}

/// Whether this is read from a text, written again; or why it is refused.
fn is_read_as(alloc: Global, text: &str, again: &str) -> bool {
    match expectations(alloc, text) {
        Ok(reading) => are_written(alloc, &reading, again),
        Err(Misread::Unexpected { wanted, place }) => {
            match misread_text(alloc, text, wanted, place) {
                Ok(said) => said.as_str() == again,
                Err(_) => false,
            }
        }
        Err(Misread::Memory) => false,
    }
}

/// A text, and what is read from it, written again; or why it is refused.
static READINGS: [(&str, &str); 21] = [
    ("never all-waiting", "never all-waiting;"),
    ("some  run-error range", "some run-error range;"),
    (
        "only finished output 1 2 finished output 2 1 .. and never run-error",
        "only finished output 1 2 or finished output 2 1 ..;never run-error;",
    ),
    (
        "never finished output - or all-waiting output ..",
        "never finished output - or all-waiting output ..;",
    ),
    (
        "only finished output (finished) .. 2 .. or shown (red)",
        "only finished output (finished) .. 2 .. or shown red;",
    ),
    (
        "some shown -32768 and never shown 'a' shown '(:32:)'",
        "some shown -32768;never shown 'a' or shown '(:32:)';",
    ),
    (
        "only finished or all-waiting barber (clerk) ..",
        "only finished or all-waiting barber clerk ..;",
    ),
    (
        "never waiting (finished) alone 3 spins and some waiting",
        "never waiting (finished) or alone 3 or spins;some waiting;",
    ),
    (
        "some finished output 1 waiting or waiting guests[2]",
        "some finished output 1 waiting or waiting guests[2];",
    ),
    (
        "never all-waiting ..",
        "expected a process, output, and, or, finished, all-waiting, run-error, shown, waiting, alone or spins, found \"..\"\n",
    ),
    (
        "never all-waiting p .. q",
        "expected output, and, or, finished, all-waiting, run-error, shown, waiting, alone or spins, found \"q\"\n",
    ),
    (
        "only finished output finished",
        "expected a value, - or .., found \"finished\"\nfinished begins an outcome; as a value it is written (finished)\n",
    ),
    ("never shown 32768", "expected a value, found \"32768\"\n"),
    (
        "never finished output 1, 2",
        "expected a value, - or .., found \"1,\"\n",
    ),
    (
        "always finished",
        "expected never, some or only, found \"always\"\n",
    ),
    (
        "never",
        "expected finished, all-waiting, run-error, shown, waiting, alone or spins, found the end\n",
    ),
    (
        "never deadlock",
        "expected finished, all-waiting, run-error, shown, waiting, alone or spins, found \"deadlock\"\n",
    ),
    (
        "never finished output",
        "expected a value, - or .., found the end\n",
    ),
    (
        "never finished with",
        "expected output, and, or, finished, all-waiting, run-error, shown, waiting, alone or spins, found \"with\"\n",
    ),
    (
        "some run-error bogus",
        "expected overflow, zero-divisor, range, no-case, queue-in-use, not-init, init-twice, assertion, invariant, output, and, or, finished, all-waiting, run-error, shown, waiting, alone or spins, found \"bogus\"\n",
    ),
    (
        "never finished output - 2",
        "expected and, or, finished, all-waiting, run-error, shown, waiting, alone or spins, found \"2\"\n",
    ),
];

#[test]
fn reads_expectations(rt: HostRuntime) {
    for (text, again) in &READINGS {
        assert!(rt; is_read_as(rt.alloc(), text, again), "{text}");
    }
}

/// A source, and the text of the expectations in its comments.
static COMMENTED: [(&str, &str); 5] = [
    ("begin end.", ""),
    (
        "\"(* expect never all-waiting *)\" begin end.",
        " never all-waiting ",
    ),
    (
        "begin end. \"(* expect\tnever\r\nfinished *)\" \"(* expected *)\"",
        " never  finished ",
    ),
    (
        "begin \" (* expect never\n all-waiting\" display('\"') end. \"(* expect some finished*)\"",
        " never  all-waiting and  some finished",
    ),
    ("\"expect never all-waiting\" begin end.", ""),
];

fn expects(alloc: Global, source: &str, text: &str) -> bool {
    match expectations_in(alloc, source.as_bytes()) {
        Ok(found) => found.as_str() == text,
        Err(_) => false,
    }
}

#[test]
fn finds_expectations_in_comments(rt: HostRuntime) {
    for (source, text) in &COMMENTED {
        assert!(rt; expects(rt.alloc(), source, text), "{source}");
    }
}
