//! The worked rows of scanning: tokens, their lines, and faults.

use cp_prose::Prose;
use cp_text::{Kind, Mark, ScanCause, Tokens, scan};
use std::alloc::Global;

/// A token that is wanted.
enum WantedToken {
    Number(u16),
    Character(u8),
    Name(&'static str),
    Mark(Mark),
}

/// A source, and the tokens that it is read as, each with its line.
struct Sample {
    source: &'static [u8],
    wanted: &'static [(WantedToken, u32)],
    last_line: u32,
}

static SAMPLES: [Sample; 11] = [
    Sample {
        source: b"x<=Y_1",
        wanted: &[
            (WantedToken::Name("x"), 1),
            (WantedToken::Mark(Mark::AtMost), 1),
            (WantedToken::Name("y_1"), 1),
        ],
        last_line: 1,
    },
    Sample {
        source: b"1..2",
        wanted: &[
            (WantedToken::Number(1), 1),
            (WantedToken::Mark(Mark::DoublePeriod), 1),
            (WantedToken::Number(2), 1),
        ],
        last_line: 1,
    },
    Sample {
        source: b"2END",
        wanted: &[
            (WantedToken::Number(2), 1),
            (WantedToken::Mark(Mark::End), 1),
        ],
        last_line: 1,
    },
    Sample {
        source: b"1.)",
        wanted: &[
            (WantedToken::Number(1), 1),
            (WantedToken::Mark(Mark::CloseBracket), 1),
        ],
        last_line: 1,
    },
    Sample {
        source: b"(.[",
        wanted: &[
            (WantedToken::Mark(Mark::OpenBracket), 1),
            (WantedToken::Mark(Mark::OpenBracket), 1),
        ],
        last_line: 1,
    },
    Sample {
        source: b"(..",
        wanted: &[
            (WantedToken::Mark(Mark::OpenBracket), 1),
            (WantedToken::Mark(Mark::Period), 1),
        ],
        last_line: 1,
    },
    Sample {
        source: b"..)",
        wanted: &[
            (WantedToken::Mark(Mark::DoublePeriod), 1),
            (WantedToken::Mark(Mark::CloseParenthesis), 1),
        ],
        last_line: 1,
    },
    Sample {
        source: b"& and",
        wanted: &[
            (WantedToken::Mark(Mark::And), 1),
            (WantedToken::Mark(Mark::And), 1),
        ],
        last_line: 1,
    },
    Sample {
        source: b"'(:0065:)' \"\n\" ' '\n000000001 32767 '(:127:)'",
        wanted: &[
            (WantedToken::Character(65), 1),
            (WantedToken::Character(32), 2),
            (WantedToken::Number(1), 3),
            (WantedToken::Number(32767), 3),
            (WantedToken::Character(127), 3),
        ],
        last_line: 3,
    },
    Sample {
        source: b"\n\t\"\n\"\r ",
        wanted: &[],
        last_line: 1,
    },
    Sample {
        source: b"aaaaaaaaaaaaaaaaaaaaaaaaaaaaaaaaaaaaaaaa",
        wanted: &[(
            WantedToken::Name("aaaaaaaaaaaaaaaaaaaaaaaaaaaaaaaaaaaaaaaa"),
            1,
        )],
        last_line: 1,
    },
];

fn is_wanted(kind: &Kind, wanted: &WantedToken) -> bool {
    match kind {
        Kind::Number(number) => matches!(wanted, WantedToken::Number(other) if *number == *other),
        Kind::Character(code) => matches!(wanted, WantedToken::Character(other) if *code == *other),
        Kind::Name(name) => matches!(wanted, WantedToken::Name(other) if name.as_str() == *other),
        Kind::Mark(mark) => matches!(wanted, WantedToken::Mark(other) if *mark == *other),
    }
}

/// Whether the token at a place is this one, on this line.
fn has_token(tokens: &Tokens, at: usize, wanted: &WantedToken, line: u32) -> bool {
    match tokens.get(at) {
        Some(kind) => is_wanted(kind, wanted) && at < tokens.count() && tokens.line(at) == line,
        None => false,
    }
}

fn are_wanted(tokens: &Tokens, sample: &Sample) -> bool {
    let count = sample.wanted.len();
    let mut are_wanted = tokens.count() == count
        && tokens.get(count).is_none()
        && tokens.line(count) == sample.last_line;
    for (at, (wanted, line)) in sample.wanted.iter().enumerate() {
        are_wanted = are_wanted && has_token(tokens, at, wanted, *line);
    }
    are_wanted
}

fn is_read_so(alloc: Global, sample: &Sample) -> bool {
    match scan(alloc, sample.source) {
        Ok(tokens) => are_wanted(&tokens, sample),
        Err(_) => false,
    }
}

#[test]
fn pieces_and_lines(rt: HostRuntime) {
    for sample in &SAMPLES {
        assert!(rt; is_read_so(rt.alloc(), sample));
    }
}

/// Whether a source has this fault.
fn has_fault(alloc: Global, source: &[u8], line: u32, cause: ScanCause) -> bool {
    match scan(alloc, source) {
        Ok(_) => false,
        Err(fault) => fault.line == line && fault.cause == cause,
    }
}

static FAULTS: [(&[u8], u32, ScanCause); 17] = [
    (b"begin\n!", 2, ScanCause::BadByte),
    (b"a / b", 1, ScanCause::BadByte),
    (b"\x0c", 1, ScanCause::BadByte),
    (b"begin \"abc", 1, ScanCause::OpenComment),
    (b"\n\"\n\n", 2, ScanCause::OpenComment),
    (b"'a\n", 1, ScanCause::OpenChar),
    (b"\"\n\n\" 'a\n'", 3, ScanCause::OpenChar),
    (b"'(:128:)'", 1, ScanCause::BadChar),
    (b"'''", 1, ScanCause::BadChar),
    (b"\n''", 2, ScanCause::BadChar),
    (b"'ab'", 1, ScanCause::BadChar),
    (b"'(::)'", 1, ScanCause::BadChar),
    (b"'\r'", 1, ScanCause::BadChar),
    (b"'\xff'", 1, ScanCause::BadChar),
    (b"1\n32768", 2, ScanCause::NumberTooLarge),
    (b"99999999999999999999999999", 1, ScanCause::NumberTooLarge),
    (
        b"aaaaaaaaaaaaaaaaaaaaaaaaaaaaaaaaaaaaaaaaa",
        1,
        ScanCause::NameTooLong,
    ),
];

#[test]
fn each_fault_with_its_line(rt: HostRuntime) {
    for (source, line, cause) in &FAULTS {
        assert!(rt; has_fault(rt.alloc(), source, *line, *cause));
    }
}

/// What a long source is read as.
enum LongReading {
    Tokens(usize),
    Fault(u32, ScanCause),
}

/// A source that begins so, goes on with a piece that stands there so often, and ends so; and what it is read as.
struct LongSource {
    start: &'static str,
    next: &'static str,
    times: usize,
    last: &'static str,
    reading: LongReading,
}

// The longest one, and one with the most tokens; and what may stand after them.
static LONG: [LongSource; 7] = [
    LongSource {
        start: "begin end.",
        next: " ",
        times: 65525,
        last: "",
        reading: LongReading::Tokens(3),
    },
    LongSource {
        start: "!",
        next: " ",
        times: 65534,
        last: " ",
        reading: LongReading::Fault(0, ScanCause::TooLong),
    },
    LongSource {
        start: "\n",
        next: ";",
        times: 20000,
        last: "",
        reading: LongReading::Tokens(20000),
    },
    LongSource {
        start: "\n",
        next: ";",
        times: 20000,
        last: ";",
        reading: LongReading::Fault(2, ScanCause::TooManyTokens),
    },
    LongSource {
        start: "\n",
        next: ";",
        times: 20000,
        last: "'",
        reading: LongReading::Fault(2, ScanCause::TooManyTokens),
    },
    LongSource {
        start: "\n",
        next: ";",
        times: 20000,
        last: "!",
        reading: LongReading::Fault(2, ScanCause::BadByte),
    },
    LongSource {
        start: "\n",
        next: ";",
        times: 20000,
        last: "\"",
        reading: LongReading::Fault(2, ScanCause::OpenComment),
    },
];

fn has_count(alloc: Global, source: &[u8], count: usize) -> bool {
    match scan(alloc, source) {
        Ok(tokens) => tokens.count() == count,
        Err(_) => false,
    }
}

fn has_reading(alloc: Global, source: &str, reading: &LongReading) -> bool {
    match reading {
        LongReading::Tokens(count) => has_count(alloc, source.as_bytes(), *count),
        LongReading::Fault(line, cause) => has_fault(alloc, source.as_bytes(), *line, *cause),
    }
}

fn is_long_read_so(alloc: Global, long: &LongSource) -> bool {
    let mut text = Prose::new(alloc);
    text.put(long.start);
    for _ in 0..long.times {
        text.put(long.next);
    }
    text.put(long.last);
    match text.as_str() {
        Ok(source) => has_reading(alloc, source, &long.reading),
        Err(_) => false,
    }
}

#[test]
fn longest_sources(rt: HostRuntime) {
    for long in &LONG {
        assert!(rt; is_long_read_so(rt.alloc(), long));
    }
}
