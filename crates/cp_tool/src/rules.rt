//! By which rules processes go into monitors and on in them.
ghost use Rattle.std.specs.Prelude.{◌≡◌, IfNone, IfSome, codes, option_map};
ghost use Rattle.clap.specs.Words.{first_of, found_of, rows_of};
ghost use Rattle.cp_tool.specs.Finds.{Obtains};
ghost use Rattle.cp_tool.specs.Options.{IsNamed, Suits, gates_named, rules_for, signals_named};

use crate::analysis::Analysis;
use crate::options::OptionFault;
use crate::texts::text_of;
use clap::ArgMatches;
use cp_machine::{Discipline, Gates, Signals};
use std::alloc::Global;

/// Refuses rules by which the analysis can't be made; those of the book stand for what the words don't name.
pub fn check_rules(
    alloc: Global,
    matches: &ArgMatches<'_>,
    analysis: Analysis,
) -> Result<(), OptionFault>
    ensures { Obtains (λ _. Suits analysis (rules_for (rows_of (found_of matches.now)))) result }
{
    let gates = gates_of(text_of(matches, "gates")).unwrap_or(Gates::First);
    let signals = signals_of(text_of(matches, "signals")).unwrap_or(Signals::Return);
    match objection_to(analysis, Discipline { gates, signals }) {
        Some(why) => Err(OptionFault::Refused(String::from_str(alloc, why)?)),
        None => Ok(()),
    }
}

/// The rules that the words name, or those of the book.
pub fn discipline_of(alloc: Global, matches: &ArgMatches<'_>) -> Result<Discipline, OptionFault>
    ensures { Obtains (IsNamed (first_of (codes "gates") (rows_of (found_of matches.now))) (first_of (codes "signals") (rows_of (found_of matches.now)))) result }
{
    let text = text_of(matches, "gates");
    let Some(gates) = gates_of(text) else {
        let text = text.unwrap_or("");
        let why = format!(in alloc; "--gates {text}: `first` or `any`")?;
        return Err(OptionFault::Refused(why));
    };
    let text = text_of(matches, "signals");
    let Some(signals) = signals_of(text) else {
        let text = text.unwrap_or("");
        let why = format!(in alloc; "--signals {text}: `return`, `continue` or `wait`")?;
        return Err(OptionFault::Refused(why));
    };
    Ok(Discipline { gates, signals })
}

// Why the analysis can't be made by these rules, if it can't.
fn objection_to(analysis: Analysis, rules: Discipline) -> Option<&'static str>
    ensures suits { IfNone result (Suits analysis rules) }
    ensures objects { IfSome result (λ _. Suits analysis rules → ⊥) }
{
    match (analysis, rules.gates, rules.signals) {
        (Analysis::EndsAndWaits | Analysis::EndsAtOnce, Gates::Any, _) => Some(
            "--gates any: not beside --waits or --at-once",
        ),
        (Analysis::EndsAtOnce, Gates::First, Signals::Continue | Signals::Wait) => Some(
            "--at-once: only beside --signals return",
        ),
        (_, Gates::Any, Signals::Wait) => Some("--gates any: not beside --signals wait"),
        _ => None,
    }
}

fn gates_of(text: Option<&str>) -> Option<Gates>
    ensures { result ≡ gates_named (option_map (λ s. s.now) text.entry) }
{
    match text {
        None | Some("first") => Some(Gates::First),
        Some("any") => Some(Gates::Any),
        Some(_) => None,
    }
}

fn signals_of(text: Option<&str>) -> Option<Signals>
    ensures { result ≡ signals_named (option_map (λ s. s.now) text.entry) }
{
    match text {
        None | Some("return") => Some(Signals::Return),
        Some("continue") => Some(Signals::Continue),
        Some("wait") => Some(Signals::Wait),
        Some(_) => None,
    }
}
