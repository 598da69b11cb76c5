//! `cpx_show`: a schedule of a Concurrent Pascal program in names and pictures.
#![tactic(auto)]

mod answer;
mod answering;
mod covering;
mod inquiry;
mod missing;
mod parts;
mod refusals;
mod schedules;
mod selecting;
mod summaries;

ghost use Rattle.std.specs.Prelude.{◌≡◌};

use crate::answering::show_stream;
use cp_progress::{ObserveWork, ProgressLine, terminal_of};
use cp_show_options::{Asked, read_parts};
use cp_tool::{OptionFault, VERSION, Wrapped};
use std::alloc::Global;
use std::env;
use std::io::{ErrorKind, Stderr, Stdin, Stdout};
use std::marker::Brand;
use std::process::ExitCode;
use std::sync::ledger::{Blank, Ledger};

fn main(rt: HostRuntime) -> ExitCode {
    let code = match read_words(&rt) {
        Ok(asked) => {
            let code = show_input(&rt, &asked);
            if code == 1 && !asked.part.tells_refusal() {
                let _ = eprintln!(rt; "./show refusal says why");
            }
            code
        }
        Err(OptionFault::Version) => print_status(print!(rt; "cpx_show {VERSION}\n")),
        Err(OptionFault::Refused(why)) => {
            let _ = eprintln!(rt; "options refused: --help says which there are");
            let _ = eprintln!(rt; "{why}");
            2
        }
        Err(OptionFault::Help(text)) => print_status(print!(rt; "{text}")),
        Err(OptionFault::Memory) => 3,
    };
    match code {
        3 => {
            let _ = eprintln!(rt; "cpx_show: no memory");
        }
        4 => {
            let _ = eprintln!(rt; "cpx_show: reading the program or writing the answer failed");
        }
        _ => {}
    }
    ExitCode::from(code)
}

// The status of a text that was printed, or not.
fn print_status<T: Drop, E: Drop>(print: Result<T, E>) -> u8 {
    match print {
        Ok(_) => 0,
        Err(_) => 4,
    }
}

/// What the program's arguments ask for. Arguments that are no text are refused.
fn read_words(rt: &HostRuntime) -> Result<Asked, OptionFault> {
    let alloc = rt.alloc();
    let words = match env::args(rt) {
        Ok(words) => words,
        Err(error) => {
            return Err(match error.kind() {
                ErrorKind::OutOfMemory => OptionFault::Memory,
                _ => OptionFault::Refused(String::from_str(alloc, "a word is no text in UTF-8")?),
            });
        }
    };
    let words: Vec<String> = words.collect(alloc)?;
    let mut texts = Vec::new(alloc);
    for word in &words {
        let Ok(()) = texts.push(word.as_str()) else {
            return Err(OptionFault::Memory);
        };
    }
    read_parts(alloc, &texts)
}

// The status of showing standard input. What long work is at is told on standard error, where that is a terminal.
fn show_input(rt: &HostRuntime, asked: &Asked) -> u8 {
    let is_endless = asked.options.analysis.is_endless();
    let counted = if is_endless { "ends" } else { "outcomes" };
    let mut line = ProgressLine::new(rt.alloc(), rt, terminal_of(rt.stderr()), counted);
    show::<ProgressLine<&HostRuntime, Stderr>, Brand, Brand>(
        rt.alloc(),
        asked,
        &mut line,
        rt.stdin(),
        Blank::new(3),
        rt.stdout(),
        Blank::new(3),
    )
}

/// The status of showing standard input; the blanks are for the counts of the streams' calls.
fn show<O: ObserveWork, A: Ledger, B: Ledger>(
    alloc: Global,
    asked: &Asked,
    observer: &mut O,
    input: Stdin,
    reads: Blank,
    output: Stdout,
    writes: Blank,
) -> u8
    requires read_name { reads.name ≡ A.name }
    requires read_parts { (reads.parts ≡ A.parts) × (A.parts ≡ 3) }
    requires write_name { writes.name ≡ B.name }
    requires write_parts { (writes.parts ≡ B.parts) × (B.parts ≡ 3) }
{
    let mut source: Wrapped<Stdin, A> = Wrapped::new(input, reads);
    let mut sink: Wrapped<Stdout, B> = Wrapped::new(output, writes);
    show_stream(alloc, asked, observer, &mut source, &mut sink)
}
