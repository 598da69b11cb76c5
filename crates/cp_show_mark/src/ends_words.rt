//! What is said of expectations of schedules of any length, in words.

ghost use Rattle.std.specs.Prelude.{◌≡◌, IfOk, string_bytes};
ghost use Rattle.cp_prose.specs.Telling.{UnlessRefused, appended};
ghost use Rattle.cp_show_mark.specs.EndsText as spec;
ghost use Rattle.cp_show_mark.specs.MarkText.{setting_of};
ghost use Rattle.cp_show_mark.specs.Told.{ends_saying};

use crate::ends_objects::ends_as_json;
use crate::examinee::Examinee;
use crate::mark_texts::mark_words;
use crate::mark_words::push_end;
use cp_ends::End;
use cp_prose::Prose;
use cp_verdict::Standing;
use cp_verdict::endless::{Against, EndsMark, MarkedEnds, Said};
use std::alloc::{AllocError, Global};

/// What schedules of any length say of the expectations.
pub fn ends_text(
    alloc: Global,
    examinee: Examinee<'_>,
    marked: &MarkedEnds,
) -> Result<String, AllocError>
    ensures { IfOk result (λ t. string_bytes t ≡ ends_saying (setting_of examinee.entry) marked.now) }
{
    if examinee.as_json {
        ends_as_json(alloc, examinee, marked)
    } else {
        ends_as_text(alloc, examinee, marked)
    }
}

// First those that fail, then those that are not settled.
fn ends_as_text(
    alloc: Global,
    examinee: Examinee<'_>,
    marked: &MarkedEnds,
) -> Result<String, AllocError>
    ensures { IfOk result (λ t. string_bytes t ≡ spec.ends_text (setting_of examinee.entry) marked.now) }
{
    let mut text = Prose::new(alloc);
    text.put(held_words(marked.mark));
    text.put(marked.note.as_str());
    push_those(alloc, examinee, &mut text, &marked.each, true);
    push_those(alloc, examinee, &mut text, &marked.each, false);
    text.put(marked.last.as_str());
    text.finish()
}

fn held_words(mark: EndsMark) -> &'static str
    ensures { result.now ≡ spec.held_text mark }
{
    match mark {
        EndsMark::Holds => "holds\n",
        _ => "",
    }
}

// The expectations that fail, or those that are not settled.
fn push_those(alloc: Global, examinee: Examinee<'_>, text: &mut Prose, all: &[Said], failing: bool)
    ensures { UnlessRefused text.new (appended text.old (spec.those_said (setting_of examinee.entry) failing all.now)) }
{
    for said in all {
        push_if(alloc, examinee, text, said, failing);
    }
}

fn push_if(alloc: Global, examinee: Examinee<'_>, text: &mut Prose, said: &Said, failing: bool)
    ensures { UnlessRefused text.new (appended text.old (spec.said_if (setting_of examinee.entry) failing said.now)) }
{
    if is_said(failing, said.standing) {
        push_said(alloc, examinee, text, said);
    }
}

fn is_said(failing: bool, standing: Standing) -> bool
    ensures { result ≡ spec.is_said failing standing }
{
    match standing {
        Standing::Holds => false,
        Standing::Fails => failing,
        Standing::Open => !failing,
    }
}

fn push_said(alloc: Global, examinee: Examinee<'_>, text: &mut Prose, said: &Said)
    ensures { UnlessRefused text.new (appended text.old (spec.said_text (setting_of examinee.entry) said.now)) }
{
    text.put(mark_words(said.standing));
    text.put(": ");
    text.put(said.expectation.as_str());
    text.put("\n");
    push_reason(alloc, examinee, text, said);
}

/// Why an expectation does not hold, or is not settled, and who waits where at the end that is against it.
pub fn push_reason(alloc: Global, examinee: Examinee<'_>, text: &mut Prose, said: &Said)
    ensures { UnlessRefused text.new (appended text.old (spec.said_reason (setting_of examinee.entry) said.now)) }
{
    text.put(said.reason.as_str());
    push_against(alloc, examinee, text, &said.against);
}

fn push_against(alloc: Global, examinee: Examinee<'_>, text: &mut Prose, against: &Option<Against>)
    ensures { UnlessRefused text.new (appended text.old (spec.against_text (setting_of examinee.entry) against.now)) }
{
    if let Some(Against::End(known)) = against {
        push_how(alloc, examinee, text, &known.word, known.end);
    }
}

fn push_how(alloc: Global, examinee: Examinee<'_>, text: &mut Prose, word: &[u8], end: End)
    ensures { UnlessRefused text.new (appended text.old (spec.how_text (setting_of examinee.entry) word.now end)) }
{
    if let End::Over(kind) = end {
        push_end(alloc, examinee, text, word, kind);
    }
}
