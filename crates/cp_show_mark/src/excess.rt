//! What is said where there are too many states or outcomes.

ghost use Rattle.std.specs.Prelude.{◌≡◌, ◌++◌, IfOk, option_map, string_bytes};
ghost use Rattle.cp_prose.specs.Telling.{UnlessRefused, appended};
ghost use Rattle.cp_show_mark.specs.MarkData as data_spec;
ghost use Rattle.cp_show_mark.specs.MarkText as spec;
ghost use Rattle.cp_show_mark.specs.MarkText.{setting_of};
ghost use Rattle.cp_show_mark.specs.Told.{excess_saying};

use crate::examinee::Examinee;
use cp_outcomes::subject::Excess;
use cp_outcomes::{excess_and_known_json, excess_json};
use cp_prose::Prose;
use std::alloc::{AllocError, Global};

/// What there is too much of.
#[derive(Clone, Copy, PartialEq, Eq)]
pub enum MarkExcess {
    States,
    Outcomes,
}

/// What there is too much of; and what is told of all schedules of a smaller number of choices, if there is one.
pub fn excess_text(
    alloc: Global,
    examinee: Examinee<'_>,
    excess: MarkExcess,
    known: Option<(u8, &str)>,
) -> Result<String, AllocError>
    ensures { IfOk result (λ t. string_bytes t ≡ excess_saying (setting_of examinee.entry) excess (option_map (λ k. (k.0, k.1.now)) known.entry)) }
{
    if examinee.as_json {
        excess_as_json(alloc, examinee, excess, known)
    } else {
        excess_in_words(alloc, examinee, excess, known)
    }
}

fn excess_in_words(
    alloc: Global,
    examinee: Examinee<'_>,
    excess: MarkExcess,
    known: Option<(u8, &str)>,
) -> Result<String, AllocError>
    ensures { IfOk result (λ t. string_bytes t ≡ spec.excess_text examinee.entry.options.now.states excess ++ spec.known_if (option_map (λ k. (k.0, k.1.now)) known.entry)) }
{
    let mut text = Prose::new(alloc);
    push_excess(&mut text, examinee, excess);
    push_known(&mut text, known);
    text.finish()
}

fn excess_as_json(
    alloc: Global,
    examinee: Examinee<'_>,
    excess: MarkExcess,
    known: Option<(u8, &str)>,
) -> Result<String, AllocError>
    ensures { IfOk result (λ t. string_bytes t ≡ data_spec.excess_json examinee.entry.options.now.states excess (option_map (λ k. (k.0, k.1.now)) known.entry)) }
{
    let excess = excess_of(examinee, excess);
    match known {
        Some((choices, said)) => excess_and_known_json(alloc, excess, choices, said),
        None => excess_json(alloc, excess),
    }
}

fn excess_of(examinee: Examinee<'_>, excess: MarkExcess) -> Excess
    ensures { result ≡ data_spec.excess_of examinee.entry.options.now.states excess }
{
    match excess {
        MarkExcess::States => Excess::States(examinee.options.states),
        MarkExcess::Outcomes => Excess::Outcomes,
    }
}

fn push_known(text: &mut Prose, known: Option<(u8, &str)>)
    ensures { UnlessRefused text.new (appended text.old (spec.known_if (option_map (λ k. (k.0, k.1.now)) known.entry))) }
{
    let Some((choices, said)) = known else {
        return;
    };
    text.put("of all schedules of at most ");
    text.put_display(choices);
    text.put(" choices:\n");
    text.put(said);
}

fn push_excess(text: &mut Prose, examinee: Examinee<'_>, excess: MarkExcess)
    ensures { UnlessRefused text.new (appended text.old (spec.excess_text examinee.entry.options.now.states excess)) }
{
    match excess {
        MarkExcess::States => {
            text.put("too many states: a layer may have ");
            text.put_display(examinee.options.states);
            text.put("\ntry greater --states, or mark --ends\n");
        }
        MarkExcess::Outcomes => text.put("too many outcomes\ntry smaller --choices\n"),
    }
}
