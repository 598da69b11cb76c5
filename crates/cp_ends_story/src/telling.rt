//! Ends of schedules of any length, in words or as JSON.

ghost use Rattle.std.specs.Prelude.{◌≡◌, IfOk};
ghost use Rattle.cp_ends_story.specs.Findings.{TellsEnds};
ghost use Rattle.cp_ends_story.specs.Findings as spec;

use crate::finding::findings;
use crate::objects::json;
use crate::subject::{EndsFormat, EndsSubject, EndsSummary, Reach, Telling};
use crate::texts::text;
use cp_progress::ObserveProgress;
use cp_waits::Waits;
use std::alloc::{AllocError, Global};

/// The ends that are possible in schedules of any length, the values that can be displayed, and who may wait for ever, in words or as JSON. An observer is
/// told how far each search has come.
pub fn ends_story<O: ObserveProgress>(
    alloc: Global,
    subject: EndsSubject<'_>,
    form: EndsFormat,
    observer: &mut O,
) -> Result<EndsSummary, AllocError>
    ensures { IfOk result (TellsEnds subject.entry) }
{
    let findings = findings(alloc, subject, observer)?;
    let telling = Telling {
        alloc,
        subject,
        findings: &findings,
    };
    let text = write(telling, form)?;
    Ok(EndsSummary {
        is_whole: is_whole(findings.reach, subject.waits, &findings.waits),
        text,
    })
}

fn write(telling: Telling<'_>, form: EndsFormat) -> Result<String, AllocError> {
    match form {
        EndsFormat::Text => text(telling),
        EndsFormat::Json => json(telling),
    }
}

fn is_whole(reach: Reach, asked: bool, waits: &Option<Waits>) -> bool
    ensures { result ≡ spec.is_whole reach asked waits.now }
{
    match reach {
        Reach::States(_) => is_settled(waits),
        Reach::StatesAtOnce(_) => !asked,
        Reach::Choices(_) | Reach::SomeAtOnce => false,
    }
}

fn is_settled(waits: &Option<Waits>) -> bool
    ensures { result ≡ spec.is_settled waits.now }
{
    !matches!(waits, Some(Waits::NotSettled(_)))
}
