//! From the bytes of a source to the bytes of an answer.

ghost use Rattle.std.specs.Prelude.{◌≡◌, ◌+◌, ◌≤◌, IfOk, Result};
ghost use Rattle.cp_front.specs.Refusals.{IsLineOf};
ghost use Rattle.cp_front.specs.Transfer.{code_by, faults_in};
ghost use Rattle.cp_front.specs.declared.transfer.StreamFault.{StreamFault};
ghost use Rattle.cp_tool.specs.Answered as spec;
ghost use Rattle.cp_tool.specs.Ends.{AreEnds, IsAnswered, asks_ends};
ghost use Rattle.cp_tool.specs.declared.answer.Verdict.{Verdict};
ghost use Rattle.cp_tool.specs.declared.answer.Verdict.TheVariants.{Refused};

use crate::answer::{Answer, ExitStatus, Verdict, status_of};
use crate::answerers::{AnswerProgram, EndsFinder, ScheduleExplorer};
use crate::options::Options;
use cp_drops::drop_program;
use cp_explore::Text;
use cp_front::{
    MOST_BYTES, ReadFault, Refusal, Sink, Source, StreamFault, drop_refusal, load, read_source,
    refusal_line, write_text,
};
use cp_progress::{ObserveWork, Unobserved};
use std::alloc::{AllocError, Global};
use std::thread::Threads;

/// Reads a source, and writes what the options ask of it.
///
/// The whole text is built before the first write. Nothing is written after a failed read or where memory is refused, and a prefix of
/// the text after a failed write. An observer is told how far a search has come.
pub fn answer_stream<X: Threads + Sync, O: ObserveWork, R: Source, W: Sink>(
    rt: &X,
    alloc: Global,
    options: &Options,
    observer: &mut O,
    source: &mut R,
    sink: &mut W,
) -> ExitStatus
    // What is written is the answer to what was read, and nothing else; status 4 comes exactly where a call failed or took nothing.
    ensures told { (ending : Result Verdict StreamFault) × (result.code ≡ code_by spec.code_of ending) × spec.Tells (IsAnswered options.now) (R.remaining source.old) (W.contents sink.old) (W.contents sink.new) ending × (R.failed_reads source.new + (W.failed_writes sink.new + W.empty_writes sink.new) ≡ R.failed_reads source.old + (W.failed_writes sink.old + W.empty_writes sink.old) + faults_in ending) }
    ensures reads { R.reads source.new ≤ R.reads source.old + 65536 }
{
    if asks_ends(options) {
        ends_stream(alloc, options, observer, source, sink)
    } else {
        explore_stream_observed(rt, alloc, options, observer, source, sink)
    }
}

// Whether it is asked for ends, and not for one schedule.
fn asks_ends(options: &Options) -> bool
    ensures { result ≡ asks_ends options.now }
{
    options.analysis.is_endless() && options.schedule.is_none()
}

/// The same, where the ends are asked for that are possible with any number of choices. No thread is started.
pub fn ends_stream<O: ObserveWork, R: Source, W: Sink>(
    alloc: Global,
    options: &Options,
    observer: &mut O,
    source: &mut R,
    sink: &mut W,
) -> ExitStatus
    ensures told { (ending : Result Verdict StreamFault) × (result.code ≡ code_by spec.code_of ending) × spec.Tells (AreEnds options.now) (R.remaining source.old) (W.contents sink.old) (W.contents sink.new) ending × (R.failed_reads source.new + (W.failed_writes sink.new + W.empty_writes sink.new) ≡ R.failed_reads source.old + (W.failed_writes sink.old + W.empty_writes sink.old) + faults_in ending) }
    ensures reads { R.reads source.new ≤ R.reads source.old + 65536 }
{
    status_of(serve(alloc, &EndsFinder, options, observer, source, sink))
}

/// Reads a source, explores it as the options say, and writes the answer.
///
/// The whole text is built before the first write. Nothing is written after a failed read or where memory is refused, and a prefix of
/// the text after a failed write.
pub fn explore_stream<X: Threads + Sync, R: Source, W: Sink>(
    rt: &X,
    alloc: Global,
    options: &Options,
    source: &mut R,
    sink: &mut W,
) -> ExitStatus
    // What is written is the answer to what was read, and nothing else; status 4 comes exactly where a call failed or took nothing.
    ensures told { (ending : Result Verdict StreamFault) × (result.code ≡ code_by spec.code_of ending) × spec.Tells (spec.IsExploredAlone options.now) (R.remaining source.old) (W.contents sink.old) (W.contents sink.new) ending × (R.failed_reads source.new + (W.failed_writes sink.new + W.empty_writes sink.new) ≡ R.failed_reads source.old + (W.failed_writes sink.old + W.empty_writes sink.old) + faults_in ending) }
    ensures reads { R.reads source.new ≤ R.reads source.old + 65536 }
{
    explore_stream_observed(rt, alloc, options, &mut Unobserved, source, sink)
}

/// The same, where an observer is told how far the exploration has come.
pub fn explore_stream_observed<X: Threads + Sync, O: ObserveWork, R: Source, W: Sink>(
    rt: &X,
    alloc: Global,
    options: &Options,
    observer: &mut O,
    source: &mut R,
    sink: &mut W,
) -> ExitStatus
    ensures told { (ending : Result Verdict StreamFault) × (result.code ≡ code_by spec.code_of ending) × spec.Tells (spec.IsExploredAlone options.now) (R.remaining source.old) (W.contents sink.old) (W.contents sink.new) ending × (R.failed_reads source.new + (W.failed_writes sink.new + W.empty_writes sink.new) ≡ R.failed_reads source.old + (W.failed_writes sink.old + W.empty_writes sink.old) + faults_in ending) }
    ensures reads { R.reads source.new ≤ R.reads source.old + 65536 }
{
    let answerer = ScheduleExplorer { rt };
    status_of(serve(alloc, &answerer, options, observer, source, sink))
}

// Reads a source, and writes what is answered to it.
fn serve<A: AnswerProgram, O: ObserveWork, R: Source, W: Sink>(
    alloc: Global,
    answerer: &A,
    options: &Options,
    observer: &mut O,
    source: &mut R,
    sink: &mut W,
) -> Result<Verdict, StreamFault>
    requires { A.may_answer }
    ensures told { spec.Tells (A.answers options.now) (R.remaining source.old) (W.contents sink.old) (W.contents sink.new) result }
    ensures faults { R.failed_reads source.new + (W.failed_writes sink.new + W.empty_writes sink.new) ≡ R.failed_reads source.old + (W.failed_writes sink.old + W.empty_writes sink.old) + faults_in result }
    ensures reads { R.reads source.new ≤ R.reads source.old + 65536 }
{
    match read_source(alloc, source, MOST_BYTES) {
        Ok(bytes) => match answer_to(alloc, answerer, options, observer, &bytes) {
            Ok(answer) => write_answer(sink, &answer),
            Err(_) => Err(StreamFault::Memory),
        },
        Err(ReadFault::Memory) => Err(StreamFault::Memory),
        Err(ReadFault::Failed) => Err(StreamFault::Read),
    }
}

/// Writes an answer.
pub fn write_answer<W: Sink>(sink: &mut W, answer: &Answer) -> Result<Verdict, StreamFault>
    ensures written { spec.IsWritten (W.contents sink.old) (W.contents sink.new) answer.now.verdict answer.now.text result }
    ensures faults { W.failed_writes sink.new + W.empty_writes sink.new ≡ W.failed_writes sink.old + W.empty_writes sink.old + faults_in result }
{
    match write_text(sink, answer.text.as_str().as_bytes()) {
        Ok(()) => Ok(answer.verdict),
        Err(_) => Err(StreamFault::Write),
    }
}

// What is answered to a source.
fn answer_to<A: AnswerProgram, O: ObserveWork>(
    alloc: Global,
    answerer: &A,
    options: &Options,
    observer: &mut O,
    source: &[u8],
) -> Result<Answer, AllocError>
    requires { A.may_answer }
    ensures { IfOk result (λ a. spec.AnswersSource (A.answers options.now) source.now a.verdict a.text) }
{
    match load(alloc, source) {
        Ok(loaded) => {
            let program = loaded.into_program();
            observer.observe_begin();
            let answer = answerer.answer_program(alloc, options, observer, &program);
            observer.observe_end();
            drop_program(program);
            answer
        }
        Err(refusal) => answer_refusal(alloc, refusal),
    }
}

/// The refusal in a line.
pub fn answer_refusal(alloc: Global, refusal: Refusal) -> Result<Answer, AllocError>
    ensures { IfOk result (λ a. (a.verdict ≡ Refused) × IsLineOf refusal a.text) }
{
    let written = refusal_line(alloc, &refusal);
    drop_refusal(refusal);
    let line = written?;
    Ok(Answer {
        verdict: Verdict::Refused,
        text: Text::new(line),
    })
}
