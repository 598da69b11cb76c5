//! From the bytes of a source to the bytes of what is shown.

ghost use Rattle.std.specs.Prelude.{◌≡◌, ◌+◌, ◌≤◌, IfOk, Result, string_bytes};
ghost use Rattle.cp_tree.specs.TreeView.{tree_view};
ghost use Rattle.cp_layout.specs.Laid.{whole};
ghost use Rattle.cp_layout.specs.Symbols.{AreSymbolsOf};
ghost use Rattle.cp_front.specs.Transfer.{code_by, faults_in};
ghost use Rattle.cp_front.specs.declared.transfer.StreamFault.{StreamFault};
ghost use Rattle.cp_meaning_laws.specs.Accepted.{IsAccepted};
ghost use Rattle.cp_resolved.specs.Resolving.{IsProgramOf};
ghost use Rattle.cp_show_mark.specs.Showing.{code_of};
ghost use Rattle.cp_show_mark.specs.declared.answer.ShowVerdict.{ShowVerdict};
ghost use Rattle.cp_show_mark.specs.declared.answer.ShowVerdict.TheVariants.{Refused};
ghost use Rattle.cpx_show.specs.Told.{IsOfSource, IsOfTree, IsRefusedAs, IsSilent, IsWritten, Tells};

use crate::inquiry::Inquiry;
use crate::parts::show_part;
use crate::refusals::explanation_text;
use cp_front::{
    Loaded, MOST_BYTES, ReadFault, Refusal, Sink, Source, StreamFault, drop_loaded, drop_refusal,
    load_with_symbols, read_source, refusal_line, write_text,
};
use cp_legend::legend_of;
use cp_outcomes::lines_of;
use cp_progress::{ObserveProgress, ObserveWork};
use cp_show_mark::{ShowAnswer, ShowVerdict};
use cp_show_options::{Asked, ShowPart};
use cp_symbols::Symbols;
use std::alloc::{AllocError, Global};

/// Reads a source, shows what is asked for, and answers the exit code: 0 reported, 1 source refused, 2 no expectation or one
/// that can't be read, 3 memory refused, 4 read or write fault, 5 too many rows, states or outcomes, 6 an expectation fails, 7 one
/// is not settled. The whole text is built before the first write, and nothing is written after a failed read or where memory
/// is refused. An observer is told how far each search has come.
pub fn show_stream<O: ObserveWork, R: Source, W: Sink>(
    alloc: Global,
    asked: &Asked,
    observer: &mut O,
    source: &mut R,
    sink: &mut W,
) -> u8
    // What is written is the answer to what was read, and nothing else; status 4 comes exactly where a call failed or took nothing.
    ensures told { (ending : Result ShowVerdict StreamFault) × (result ≡ code_by code_of ending) × Tells asked.now (R.remaining source.old) (W.contents sink.old) (W.contents sink.new) ending × (IsSilent ending → W.writes sink.new ≡ W.writes sink.old) × (R.failed_reads source.new + (W.failed_writes sink.new + W.empty_writes sink.new) ≡ R.failed_reads source.old + (W.failed_writes sink.old + W.empty_writes sink.old) + faults_in ending) }
    ensures reads { R.reads source.new ≤ R.reads source.old + 65536 }
{
    status_of(serve(alloc, asked, observer, source, sink))
}

// The exit code of what was told, or of what came in between.
fn status_of(ending: Result<ShowVerdict, StreamFault>) -> u8
    ensures { result ≡ code_by code_of ending }
{
    match ending {
        Ok(verdict) => verdict.code(),
        Err(fault) => fault.code(),
    }
}

fn serve<O: ObserveWork, R: Source, W: Sink>(
    alloc: Global,
    asked: &Asked,
    observer: &mut O,
    source: &mut R,
    sink: &mut W,
) -> Result<ShowVerdict, StreamFault>
    ensures told { Tells asked.now (R.remaining source.old) (W.contents sink.old) (W.contents sink.new) result }
    ensures silent { IsSilent result → W.writes sink.new ≡ W.writes sink.old }
    ensures faults { R.failed_reads source.new + (W.failed_writes sink.new + W.empty_writes sink.new) ≡ R.failed_reads source.old + (W.failed_writes sink.old + W.empty_writes sink.old) + faults_in result }
    ensures reads { R.reads source.new ≤ R.reads source.old + 65536 }
{
    match read_source(alloc, source, MOST_BYTES) {
        Ok(bytes) => match answer_source(alloc, asked, observer, &bytes) {
            Ok(answer) => write_answer(sink, &answer),
            Err(_) => Err(StreamFault::Memory),
        },
        Err(ReadFault::Memory) => Err(StreamFault::Memory),
        Err(ReadFault::Failed) => Err(StreamFault::Read),
    }
}

// Writes an answer.
fn write_answer<W: Sink>(sink: &mut W, answer: &ShowAnswer) -> Result<ShowVerdict, StreamFault>
    ensures written { IsWritten (W.contents sink.old) (W.contents sink.new) answer.now.verdict (string_bytes answer.now.text) result }
    ensures silent { IsSilent result → W.writes sink.new ≡ W.writes sink.old }
    ensures faults { W.failed_writes sink.new + W.empty_writes sink.new ≡ W.failed_writes sink.old + W.empty_writes sink.old + faults_in result }
{
    match write_text(sink, answer.text.as_str().as_bytes()) {
        Ok(()) => Ok(answer.verdict),
        Err(_) => Err(StreamFault::Write),
    }
}

// What is shown of a source, or why it is refused.
fn answer_source<O: ObserveWork>(
    alloc: Global,
    asked: &Asked,
    observer: &mut O,
    source: &[u8],
) -> Result<ShowAnswer, AllocError>
    ensures { IfOk result (λ a. IsOfSource asked.now source.now a.verdict (string_bytes a.text)) }
{
    match load_with_symbols(alloc, source) {
        Ok((loaded, symbols)) => {
            observer.observe_begin();
            let answer = show_loaded(alloc, asked, observer, &loaded, symbols, source);
            observer.observe_end();
            drop_loaded(loaded);
            answer
        }
        Err(refusal) => {
            let answer = show_refusal(alloc, asked, &refusal, source);
            drop_refusal(refusal);
            answer
        }
    }
}

// Why a source is refused.
fn show_refusal(
    alloc: Global,
    asked: &Asked,
    refusal: &Refusal,
    source: &[u8],
) -> Result<ShowAnswer, AllocError>
    ensures { IfOk result (λ a. (a.verdict ≡ Refused) × IsRefusedAs asked.now.part source.now refusal.now (string_bytes a.text)) }
{
    Ok(ShowAnswer {
        verdict: ShowVerdict::Refused,
        text: refused_text(alloc, asked, refusal, source)?,
    })
}

// The same for people where they ask for that or for a mark, else in the line of `cpx`.
fn refused_text(
    alloc: Global,
    asked: &Asked,
    refusal: &Refusal,
    source: &[u8],
) -> Result<String, AllocError>
    ensures { IfOk result (λ text. IsRefusedAs asked.now.part source.now refusal.now (string_bytes text)) }
{
    let signals = asked.options.discipline.signals;
    match &asked.part {
        ShowPart::Refusal { json, file } => {
            explanation_text(alloc, source, Err(refusal), signals, *json, file)
        }
        ShowPart::Mark { json, .. } => {
            explanation_text(alloc, source, Err(refusal), signals, *json, &None)
        }
        _ => refusal_line(alloc, refusal),
    }
}

// What is shown of a source that is accepted.
fn show_loaded<O: ObserveProgress>(
    alloc: Global,
    asked: &Asked,
    observer: &mut O,
    loaded: &Loaded,
    symbols: Symbols,
    source: &[u8],
) -> Result<ShowAnswer, AllocError>
    requires accepted { IsAccepted (tree_view loaded.now.checked.tree) }
    requires stands { IsProgramOf (tree_view loaded.now.checked.tree) loaded.now.program }
    requires noted { AreSymbolsOf symbols (whole (tree_view loaded.now.checked.tree)) }
    ensures { IfOk result (λ a. IsOfTree asked.now source.now (tree_view loaded.now.checked.tree) a.verdict (string_bytes a.text)) }
{
    let legend = legend_of(alloc, &loaded.program, symbols)?;
    let lines = lines_of(alloc, source)?;
    let inquiry = Inquiry {
        alloc,
        asked,
        loaded,
        legend: &legend,
        source,
        lines: &lines,
    };
    show_part(inquiry, observer)
}
