//! `cpx_outcomes`: the outcomes of a Concurrent Pascal program that it reads from standard input, and nothing else. It is `cpx_show outcomes` without options,
//! and so much smaller that a machine without a build has its first answer sooner.
#![tactic(auto)]

mod telling;

ghost use Rattle.std.specs.Prelude.{◌≡◌};

use crate::telling::{Answer, answer_source};
use cp_front::{MOST_BYTES, ReadFault, Source, StreamFault, Wrapped, read_source, write_text};
use cp_progress::{ObserveWork, ProgressLine, terminal_of};
use std::alloc::Global;
use std::env;
use std::io::{Stderr, Stdin, Stdout};
use std::marker::Brand;
use std::process::ExitCode;
use std::sync::ledger::{Blank, Ledger};

fn main(rt: HostRuntime) -> ExitCode {
    if !is_alone(&rt) {
        let _ = eprintln!(rt; "cpx_outcomes: takes no word; cpx_show outcomes takes options");
        return ExitCode::from(2);
    }
    let code = match tell_input(&rt) {
        Ok(code) => code,
        Err(fault) => {
            let _ = eprintln!(rt; "cpx_outcomes: {}", describe(&fault));
            fault.code()
        }
    };
    if code == 1 {
        let _ = eprintln!(rt; "./show refusal says why");
    }
    ExitCode::from(code)
}

// Whether no word is given.
fn is_alone(rt: &HostRuntime) -> bool {
    match env::args(rt) {
        Ok(words) => words.len() < 2,
        Err(_) => false,
    }
}

fn describe(fault: &StreamFault) -> &'static str {
    match fault {
        StreamFault::Memory => "no memory",
        StreamFault::Read | StreamFault::Write =>
            "reading the program or writing the answer failed",
    }
}

// The status of telling of standard input. What long work is at is told on standard error, where that is a terminal.
fn tell_input(rt: &HostRuntime) -> Result<u8, StreamFault> {
    let mut line = ProgressLine::new(rt.alloc(), rt, terminal_of(rt.stderr()), "outcomes");
    tell_stream::<ProgressLine<&HostRuntime, Stderr>, Brand, Brand>(
        rt.alloc(),
        &mut line,
        rt.stdin(),
        Blank::new(3),
        rt.stdout(),
        Blank::new(3),
    )
}

/// The same; the blanks are for the counts of the streams' calls.
fn tell_stream<O: ObserveWork, A: Ledger, B: Ledger>(
    alloc: Global,
    observer: &mut O,
    input: Stdin,
    reads: Blank,
    output: Stdout,
    writes: Blank,
) -> Result<u8, StreamFault>
    requires read_name { reads.name ≡ A.name }
    requires read_parts { (reads.parts ≡ A.parts) × (A.parts ≡ 3) }
    requires write_name { writes.name ≡ B.name }
    requires write_parts { (writes.parts ≡ B.parts) × (B.parts ≡ 3) }
{
    let mut source: Wrapped<Stdin, A> = Wrapped::new(input, reads);
    let mut sink: Wrapped<Stdout, B> = Wrapped::new(output, writes);
    let answer = answer_stream(alloc, observer, &mut source)?;
    match write_text(&mut sink, answer.text.as_str().as_bytes()) {
        Ok(()) => Ok(answer.code),
        Err(_) => Err(StreamFault::Write),
    }
}

fn answer_stream<O: ObserveWork, R: Source>(
    alloc: Global,
    observer: &mut O,
    source: &mut R,
) -> Result<Answer, StreamFault> {
    match read_source(alloc, source, MOST_BYTES) {
        Ok(bytes) => match answer_source(alloc, observer, &bytes) {
            Ok(answer) => Ok(answer),
            Err(_) => Err(StreamFault::Memory),
        },
        Err(ReadFault::Memory) => Err(StreamFault::Memory),
        Err(ReadFault::Failed) => Err(StreamFault::Read),
    }
}
