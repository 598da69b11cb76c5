//! What is told of an annotation that is false, as JSON.

ghost use Rattle.std.specs.Prelude.{◌≡◌, option_map, IfOk, OnOk};
ghost use Rattle.serde_json.specs.View.{view};
ghost use Rattle.cp_legend.specs.Names.{legend_seen};
ghost use Rattle.cp_story.specs.Annotations.{violation_seen};
ghost use Rattle.cp_story.specs.Objects.{members_in, with_members};
ghost use Rattle.cp_story.specs.StoryData as spec;

use crate::annotation::{Annotation, Moment, Violation};
use crate::annotation_words::violation_words;
use crate::cause_words::component_path;
use crate::objects::{Object, returned_values};
use cp_legend::Legend;
use serde_json::Value;
use std::alloc::{AllocError, Global};

/// Adds what a run error is of that is one of an annotation: its words, and its parts.
pub fn put_violation(
    alloc: Global,
    legend: &Legend,
    object: &mut Object,
    violation: &Option<Violation>,
) -> Result<(), AllocError>
    ensures { OnOk result (members_in object.new ≡ with_members (members_in object.old) (spec.violation_members (legend_seen legend.now) (option_map violation_seen violation.now))) }
{
    match violation {
        Some(violation) => object.put("cause", violation_value(alloc, legend, violation)?),
        None => Ok(()),
    }
}

#[tactic(auto, using(crate::proofs::Floats::with_both))]
fn violation_value(
    alloc: Global,
    legend: &Legend,
    violation: &Violation,
) -> Result<Value, AllocError>
    ensures { IfOk result (λ v. view v ≡ spec.violation_data (legend_seen legend.now) (violation_seen violation.now)) }
{
    let words = violation_words(alloc, legend, violation)?;
    let mut object = Object::new(alloc);
    object.text("text", words.as_str())?;
    put_annotation(legend, &mut object, violation.annotation)?;
    object.put("values", returned_values(alloc, &violation.values)?)?;
    Ok(object.into_value())
}

fn put_annotation(
    legend: &Legend,
    object: &mut Object,
    annotation: Annotation,
) -> Result<(), AllocError>
    ensures { OnOk result (members_in object.new ≡ with_members (members_in object.old) (spec.annotation_members (legend_seen legend.now) annotation)) }
{
    match annotation {
        Annotation::Assertion => Ok(()),
        Annotation::Invariant(component, moment) => {
            object.text("component", component_path(legend, component))?;
            put_moment(legend, object, moment)
        }
    }
}

fn put_moment(legend: &Legend, object: &mut Object, moment: Moment) -> Result<(), AllocError>
    ensures { OnOk result (members_in object.new ≡ with_members (members_in object.old) (spec.moment_members (legend_seen legend.now) moment)) }
{
    match moment {
        Moment::Delay(line) => put_line(object, "delay", line),
        Moment::Continue(line) => put_line(object, "continue", line),
        Moment::Return(routine) => {
            object.text("at", "return")?;
            object.text("routine", legend.routine_name(routine))
        }
        Moment::Initialised => object.text("at", "init"),
    }
}

fn put_line(object: &mut Object, at: &str, line: u32) -> Result<(), AllocError>
    ensures { OnOk result (members_in object.new ≡ with_members (members_in object.old) (spec.at_line at.now line)) }
{
    object.text("at", at)?;
    object.number("line", u64::from(line))
}
