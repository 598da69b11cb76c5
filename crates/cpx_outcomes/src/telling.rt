//! What is told of a source.

ghost use Rattle.std.specs.Prelude.{◌≡◌, IfOk, map, string_bytes};
ghost use Rattle.cp_tree.specs.TreeView.{tree_view};
ghost use Rattle.cp_layout.specs.Laid.{whole};
ghost use Rattle.cp_layout.specs.Symbols.{AreSymbolsOf};
ghost use Rattle.cp_resolved.specs.Resolving.{IsProgramOf};
ghost use Rattle.cp_front.specs.Refusals.{IsLineOf};
ghost use Rattle.cp_machine.specs.declared.discipline.Gates.TheVariants.{First};
ghost use Rattle.cp_machine.specs.declared.discipline.Signals.TheVariants.{Return};
ghost use Rattle.cpx_outcomes.specs.Told.{IsOfProgram, IsOfSource, IsOfTree, code_of};

use cp_front::{Loaded, Refusal, drop_loaded, drop_refusal, load_with_symbols, refusal_line};
use cp_legend::{Legend, legend_of};
use cp_machine::{Discipline, Gates};
use cp_outcomes::{Format, Subject, lines_of, outcomes};
use cp_progress::{ObserveProgress, ObserveWork};
use cp_run::Limits;
use cp_slots::Resolved;
use cp_symbols::Symbols;
use std::alloc::{AllocError, Global};

/// The most choices of a schedule, where no option says another number.
const CHOICES: u8 = 100;

/// The most steps between choices.
const STEPS: u32 = 1000;

/// The most states of a layer.
const STATES: u32 = 200_000;

/// A text with the exit code: 0 told, 1 source refused, 5 too many states or outcomes.
#[derive(Drop)]
pub struct Answer {
    pub code: u8,
    pub text: String,
}

/// The outcomes of the program of a source, or why it is refused.
pub fn answer_source<O: ObserveWork>(
    alloc: Global,
    observer: &mut O,
    source: &[u8],
) -> Result<Answer, AllocError>
    ensures { IfOk result (λ a. IsOfSource source.now a.code (string_bytes a.text)) }
{
    match load_with_symbols(alloc, source) {
        Ok((loaded, symbols)) => {
            observer.observe_begin();
            let answer = tell_outcomes(alloc, observer, &loaded, symbols, source);
            observer.observe_end();
            drop_loaded(loaded);
            answer
        }
        Err(refusal) => {
            let answer = tell_refusal(alloc, &refusal);
            drop_refusal(refusal);
            answer
        }
    }
}

fn tell_refusal(alloc: Global, refusal: &Refusal) -> Result<Answer, AllocError>
    ensures { IfOk result (λ a. (a.code ≡ 1) × IsLineOf refusal.now (string_bytes a.text)) }
{
    Ok(Answer {
        code: 1,
        text: refusal_line(alloc, refusal)?,
    })
}

fn tell_outcomes<O: ObserveProgress>(
    alloc: Global,
    observer: &mut O,
    loaded: &Loaded,
    symbols: Symbols,
    source: &[u8],
) -> Result<Answer, AllocError>
    requires stands { IsProgramOf (tree_view loaded.now.checked.tree) loaded.now.program }
    requires noted { AreSymbolsOf symbols (whole (tree_view loaded.now.checked.tree)) }
    ensures { IfOk result (λ a. IsOfTree source.now (tree_view loaded.now.checked.tree) a.code (string_bytes a.text)) }
{
    let legend = legend_of(alloc, &loaded.program, symbols)?;
    let lines = lines_of(alloc, source)?;
    tell_program(alloc, observer, &loaded.program, &legend, &lines)
}

// The outcomes of a program, told with its names and the lines of its source.
fn tell_program<O: ObserveProgress>(
    alloc: Global,
    observer: &mut O,
    program: &Resolved,
    legend: &Legend,
    source: &[String],
) -> Result<Answer, AllocError>
    ensures { IfOk result (λ a. IsOfProgram program.now legend.now (map string_bytes source.now) a.code (string_bytes a.text)) }
{
    let subject = Subject {
        program,
        legend,
        limits: usual_limits(),
        states: STATES,
        source,
    };
    let told = outcomes(alloc, subject, Format::Text, observer)?;
    Ok(Answer {
        code: code_of(told.is_whole),
        text: told.text,
    })
}

fn code_of(is_whole: bool) -> u8
    ensures { result ≡ code_of is_whole }
{
    if is_whole { 0 } else { 5 }
}

// The limits where no option says others.
fn usual_limits() -> Limits
    ensures { (result.choices ≡ 100) × (result.steps ≡ 1000) × (result.discipline.gates ≡ First) × (result.discipline.signals ≡ Return) }
{
    let Some(limits) = Limits::new(CHOICES, STEPS, Discipline::by_gates(Gates::First)) else {
        unreachable!()
    };
    limits
}
