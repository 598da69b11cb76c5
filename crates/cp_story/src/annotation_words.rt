//! What is told of an annotation that is false, in words.

ghost use Rattle.std.specs.Prelude.{◌≡◌, ◌++◌, map, option_map, string_bytes, IfOk, OnOk};
ghost use Rattle.cp_legend.specs.Names.{legend_seen};
ghost use Rattle.cp_story.specs.AnnotationText as spec;
ghost use Rattle.cp_story.specs.Annotations.{violation_seen};
ghost use Rattle.cp_story.specs.Views.{given_of};

use crate::annotation::{Annotation, Moment, Violation};
use crate::cause::Cause;
use crate::cause_words::{cause_line, component_path};
use crate::event::Returned;
use crate::texts::push_behind_colon;
use cp_legend::Legend;
use cp_machine::ErrorName;
use std::alloc::{AllocError, Global};

/// What is broken and when, and the variables in it: `breaks the invariant of b where b.put returns: count = 3`.
pub fn violation_words(
    alloc: Global,
    legend: &Legend,
    violation: &Violation,
) -> Result<String, AllocError>
    ensures { IfOk result (λ t. string_bytes t ≡ spec.violation_text (legend_seen legend.now) (violation_seen violation.now)) }
{
    let mut text = broken_words(alloc, legend, violation.annotation)?;
    let variables = variables_words(alloc, &violation.values)?;
    push_behind_colon(&mut text, variables.as_str())?;
    Ok(text)
}

// What is broken and when.
fn broken_words(
    alloc: Global,
    legend: &Legend,
    annotation: Annotation,
) -> Result<String, AllocError>
    ensures { IfOk result (λ t. string_bytes t ≡ spec.annotation_text (legend_seen legend.now) annotation) }
{
    match annotation {
        Annotation::Assertion => String::from_str(alloc, "breaks an assertion"),
        Annotation::Invariant(component, moment) => {
            let mut text = String::from_str(alloc, "breaks the invariant of ")?;
            text.push_str(component_path(legend, component))?;
            push_moment(legend, &mut text, component, moment)?;
            Ok(text)
        }
    }
}

fn push_moment(
    legend: &Legend,
    text: &mut String,
    component: usize,
    moment: Moment,
) -> Result<(), AllocError>
    ensures { OnOk result (string_bytes text.new ≡ string_bytes text.old ++ spec.moment_text (legend_seen legend.now) component moment) }
{
    match moment {
        Moment::Delay(line) => write!(text, " before the delay in line {line}"),
        Moment::Continue(line) => write!(text, " before the continue in line {line}"),
        Moment::Return(routine) => {
            text.push_str(" where ")?;
            push_routine(legend, text, component, routine)?;
            text.push_str(" returns")
        }
        Moment::Initialised => text.push_str(" at the end of its initial statement"),
    }
}

// Appends a routine of a component.
fn push_routine(
    legend: &Legend,
    text: &mut String,
    component: usize,
    routine: usize,
) -> Result<(), AllocError>
    ensures { OnOk result (string_bytes text.new ≡ string_bytes text.old ++ spec.routine_text (legend_seen legend.now) component routine) }
{
    text.push_str(component_path(legend, component))?;
    text.push_str(".")?;
    text.push_str(legend.routine_name(routine))
}

// Variables with their values: `count = 3, first = 0`.
#[tactic(auto, using(crate::proofs::Rows::joined_step, crate::proofs::Rows::joined_none))]
fn variables_words(alloc: Global, variables: &[Returned]) -> Result<String, AllocError>
    ensures { IfOk result (λ t. string_bytes t ≡ spec.variables_text (map given_of variables.now)) }
{
    let mut text = String::new(alloc);
    let mut before = "";
    for variable in variables {
        text.push_str(before)?;
        push_variable(&mut text, variable)?;
        before = ", ";
    }
    Ok(text)
}

fn push_variable(text: &mut String, variable: &Returned) -> Result<(), AllocError>
    ensures { OnOk result (string_bytes text.new ≡ string_bytes text.old ++ spec.variable_text (given_of variable.now)) }
{
    text.push_str(variable.name.as_str())?;
    text.push_str(" = ")?;
    variable.value.push_to(text)
}

/// What a run error is of, on a line of its own: the variables of an annotation that is false, or else what failed; none where there is nothing to tell.
pub fn detail_line(
    alloc: Global,
    legend: &Legend,
    name: ErrorName,
    cause: Option<Cause>,
    violation: &Option<Violation>,
) -> Result<Option<String>, AllocError>
    ensures { IfOk result (λ line. option_map string_bytes line ≡ spec.detail_line (legend_seen legend.now) name cause (option_map violation_seen violation.now)) }
{
    match violation {
        Some(violation) => Ok(if_some(variables_words(alloc, &violation.values)?)),
        None => cause_line(alloc, legend, name, cause),
    }
}

// A text, if it says something.
fn if_some(text: String) -> Option<String>
    ensures { option_map string_bytes result ≡ spec.if_some (string_bytes text) }
{
    if text.is_empty() { None } else { Some(text) }
}
