//! What changed in the monitors.

ghost use Rattle.std.specs.Prelude.{◌≡◌, ◌++◌, map, IfOk};
ghost use Rattle.std.specs.String.{string_bytes};
ghost use Rattle.cp_legend.specs.Names.{component_seen, legend_seen, variable_seen};
ghost use Rattle.cp_story.specs.Changes as spec;
ghost use Rattle.cp_story.specs.Views.{changed_of};

use crate::event::Change;
use cp_legend::{Legend, LegendComponent, Variable};
use std::alloc::{AllocError, Global};

/// The variables of monitors whose cells were others before, with their values now.
#[tactic(auto, using(crate::proofs::Changing::components_step, crate::proofs::Changing::components_none))]
pub fn changes(
    alloc: Global,
    legend: &Legend,
    before: &[i16],
    now: &[i16],
) -> Result<Vec<Change>, AllocError>
    ensures { IfOk result (λ v. map changed_of v.items ≡ spec.changes_in (legend_seen legend.now) before.now now.now) }
{
    let mut changes = Vec::new(alloc);
    for component in &legend.components {
        push_changes(alloc, legend, component, before, now, &mut changes)?;
    }
    Ok(changes)
}

// Appends those of a component.
#[tactic(auto, using(crate::proofs::Changing::variables_step, crate::proofs::Changing::variables_none))]
fn push_changes(
    alloc: Global,
    legend: &Legend,
    component: &LegendComponent,
    before: &[i16],
    now: &[i16],
    changes: &mut Vec<Change>,
) -> Result<(), AllocError>
    ensures { IfOk result (λ _. map changed_of changes.new.items ≡ map changed_of changes.old.items ++ spec.changes_of (legend_seen legend.now) before.now now.now (component_seen component.now)) }
{
    let Some(monitor) = component.monitor else {
        return Ok(());
    };
    let variables = legend.variables_of(component);
    for variable in variables {
        push_change(
            alloc, legend, component, monitor, variable, before, now, changes,
        )?;
    }
    Ok(())
}

// Appends that of a variable, if there is one.
fn push_change(
    alloc: Global,
    legend: &Legend,
    component: &LegendComponent,
    monitor: u8,
    variable: &Variable,
    before: &[i16],
    now: &[i16],
    changes: &mut Vec<Change>,
) -> Result<(), AllocError>
    ensures { IfOk result (λ _. map changed_of changes.new.items ≡ map changed_of changes.old.items ++ spec.change_of (legend_seen legend.now) before.now now.now (component_seen component.now) monitor (variable_seen variable.now)) }
{
    if has_changed(legend, component, variable, before, now) {
        let at = place(component, variable);
        changes.push(Change {
            monitor,
            name: name_of(alloc, legend, component, monitor, variable)?,
            value: legend.value(alloc, variable.shape, now, at)?,
        })?;
    }
    Ok(())
}

// The first cell of a variable of a component.
fn place(component: &LegendComponent, variable: &Variable) -> usize
    ensures { result ≡ spec.place (component_seen component.now) (variable_seen variable.now) }
{
    component.base.saturating_add(variable.slot)
}

fn has_changed(
    legend: &Legend,
    component: &LegendComponent,
    variable: &Variable,
    before: &[i16],
    now: &[i16],
) -> bool
    ensures { result ≡ spec.has_changed (legend_seen legend.now) before.now now.now (component_seen component.now) (variable_seen variable.now) }
{
    let at = place(component, variable);
    let end = at.saturating_add(legend.shapes.cells_of(variable.shape));
    before.get(at..end) != now.get(at..end) && !legend.shapes.is_queues(variable.shape)
}

// The name of a variable in a monitor: that of a class inside comes before it.
fn name_of(
    alloc: Global,
    legend: &Legend,
    component: &LegendComponent,
    monitor: u8,
    variable: &Variable,
) -> Result<String, AllocError>
    ensures { IfOk result (λ n. string_bytes n ≡ spec.name_of (legend_seen legend.now) (component_seen component.now) monitor (variable_seen variable.now)) }
{
    let rest = behind(legend.monitor_name(monitor), component.path.as_str());
    let inner = behind(".", rest);
    let mut name = String::from_str(alloc, inner)?;
    if !inner.is_empty() {
        name.push('.')?;
    }
    name.push_str(variable.name.as_str())?;
    Ok(name)
}

// What follows a text where it begins another one.
fn behind<'a>(start: &str, whole: &'a str) -> &'a str
    ensures { result.now ≡ spec.behind start.now whole.now }
{
    match whole.strip_prefix(start) {
        Some(rest) => rest,
        None => "",
    }
}
