//! `cpx`: explores every schedule of a Concurrent Pascal program that it reads from standard input.
#![tactic(auto)]

ghost use Rattle.std.specs.Prelude.{◌≡◌, ◌+◌, Result, map};
ghost use Rattle.cp_front.specs.Transfer.{code_by, faults_in};
ghost use Rattle.cp_front.specs.declared.transfer.StreamFault.{StreamFault};
ghost use Rattle.cp_tool.specs.Answered.{Tells, code_of};
ghost use Rattle.cp_tool.specs.Ends.{IsAnswered};
ghost use Rattle.cp_tool.specs.Options.{Gives};
ghost use Rattle.cp_tool.specs.declared.answer.Verdict.{Verdict};

use cp_progress::{ObserveWork, ProgressLine, terminal_of};
use cp_tool::{OptionFault, Options, Sink, Source, VERSION, Wrapped, answer_stream, read_options};
use std::alloc::Global;
use std::env;
use std::io::{ErrorKind, Stderr, Stdin, Stdout};
use std::marker::Brand;
use std::process::ExitCode;
use std::sync::ledger::{Blank, Ledger};
use std::thread::Threads;

fn main(rt: HostRuntime) -> ExitCode {
    let code = match answer_words::<HostRuntime>(&rt, &rt) {
        Ok(code) => code,
        Err(fault) => tell_fault(&rt, fault),
    };
    match code {
        3 => {
            let _ = eprintln!(rt; "cpx: no memory");
        }
        4 => {
            let _ = eprintln!(rt; "cpx: reading the program or writing the answer failed");
        }
        _ => {}
    }
    ExitCode::from(code)
}

// Why there are no options, on standard error; help and the version are no faults.
fn tell_fault(rt: &HostRuntime, fault: OptionFault) -> u8 {
    match fault {
        OptionFault::Version => print_status(print!(rt; "cpx {VERSION}\n")),
        OptionFault::Refused(why) => {
            let _ = eprintln!(rt; "options refused");
            let _ = eprintln!(rt; "{why}");
            2
        }
        OptionFault::Help(text) => print_status(print!(rt; "{text}")),
        OptionFault::Memory => 3,
    }
}

// The status of a text that was printed, or not.
fn print_status<T: Drop, E: Drop>(print: Result<T, E>) -> u8 {
    match print {
        Ok(_) => 0,
        Err(_) => 4,
    }
}

/// The status of answering standard input as the program's arguments ask. Arguments that are no text are refused.
fn answer_words<X: Threads + Sync>(threads: &X, rt: &HostRuntime) -> Result<u8, OptionFault> {
    let alloc = rt.alloc();
    let words = match env::args(rt) {
        Ok(words) => words,
        Err(error) => {
            return Err(match error.kind() {
                ErrorKind::OutOfMemory => OptionFault::Memory,
                _ => OptionFault::Refused(String::from_str(alloc, "a word is no text in UTF-8")?),
            });
        }
    };
    let words: Vec<String> = words.collect(alloc)?;
    let mut texts = Vec::new(alloc);
    for word in &words {
        let Ok(()) = texts.push(word.as_str()) else {
            return Err(OptionFault::Memory);
        };
    }
    let options = read_options(alloc, &texts)?;
    let code = explore_input::<X>(threads, rt, &texts, &options);
    if code == 5 && !options.analysis.is_merged() {
        let _ = eprintln!(rt;
            "cpx: a table has at most 50000 rows; try --merge, which makes no table"
        );
    }
    Ok(code)
}

// The status of answering what standard input has. What long work is at is told on standard error, where that is a terminal.
fn explore_input<X: Threads + Sync>(
    threads: &X,
    rt: &HostRuntime,
    words: &[&str],
    options: &Options,
) -> u8
    requires given { Gives (map (λ s. s.now) words.now) options.now }
{
    let counted = if options.analysis.is_endless() {
        "ends"
    } else {
        "outcomes"
    };
    let mut line = ProgressLine::new(rt.alloc(), rt, terminal_of(rt.stderr()), counted);
    explore_streams::<X, ProgressLine<&HostRuntime, Stderr>, Brand, Brand>(
        threads,
        rt.alloc(),
        words,
        options,
        &mut line,
        rt.stdin(),
        Blank::new(3),
        rt.stdout(),
        Blank::new(3),
    )
}

// The same of two streams; the blanks are for the counts of their calls.
fn explore_streams<X: Threads + Sync, O: ObserveWork, A: Ledger, B: Ledger>(
    rt: &X,
    alloc: Global,
    words: &[&str],
    options: &Options,
    observer: &mut O,
    input: Stdin,
    reads: Blank,
    output: Stdout,
    writes: Blank,
) -> u8
    requires given { Gives (map (λ s. s.now) words.now) options.now }
    requires read_name { reads.name ≡ A.name }
    requires read_parts { (reads.parts ≡ A.parts) × (A.parts ≡ 3) }
    requires write_name { writes.name ≡ B.name }
    requires write_parts { (writes.parts ≡ B.parts) × (B.parts ≡ 3) }
{
    let mut source: Wrapped<Stdin, A> = Wrapped::new(input, reads);
    let mut sink: Wrapped<Stdout, B> = Wrapped::new(output, writes);
    exploration_status(rt, alloc, words, options, observer, &mut source, &mut sink)
}

/// The status of answering what a source has, as the words ask whose options these are: what is written is the answer by these options, and nothing else.
// The words are there for the contract alone.
fn exploration_status<X: Threads + Sync, O: ObserveWork, R: Source, W: Sink>(
    rt: &X,
    alloc: Global,
    _words: &[&str],
    options: &Options,
    observer: &mut O,
    source: &mut R,
    sink: &mut W,
) -> u8
    requires given { Gives (map (λ s. s.now) _words.now) options.now }
    ensures told { (ending : Result Verdict StreamFault) × (result ≡ code_by code_of ending) × Tells (IsAnswered options.now) (R.remaining source.old) (W.contents sink.old) (W.contents sink.new) ending × (R.failed_reads source.new + (W.failed_writes sink.new + W.empty_writes sink.new) ≡ R.failed_reads source.old + (W.failed_writes sink.old + W.empty_writes sink.old) + faults_in ending) }
{
    answer_stream(rt, alloc, options, observer, source, sink).code
}
