//! The variables that stay: those of monitors, and the own ones of processes.

use crate::json::Json;
use crate::register::Register;
use cp_legend::{Legend, LegendComponent};
use cp_slots::ComponentKind;
use cp_symbols::CellType;
use std::alloc::{AllocError, Global};

/// Whose a variable is. That of a class belongs to what contains the class.
#[derive(Clone, Copy)]
pub enum Owner {
    Monitor(u8),
    Process(u8),
}

/// A variable that stays, by its cells among those of all components.
#[derive(Clone, Copy)]
pub struct KeptVariable<'a> {
    pub owner: Owner,
    /// The class in what it belongs to that has it; empty where it is no class's.
    pub class: &'a str,
    pub name: &'a str,
    pub shape: CellType,
    pub at: usize,
    pub end: usize,
}

/// The variables that stay, those of a component after another.
pub fn kept_variables<'a>(
    alloc: Global,
    legend: &'a Legend,
) -> Result<Vec<KeptVariable<'a>>, AllocError> {
    let mut kept = Vec::new(alloc);
    let mut process = 0;
    for component in &legend.components {
        let owner = owner_of(legend, component, process);
        if let Owner::Process(number) = owner {
            process = number;
        }
        push_kept(legend, component, owner, &mut kept)?;
    }
    Ok(kept)
}

// Whose the variables of a component are, where this process is the last one before it: components follow what contains them, and the
// program contains all that is in no other process.
fn owner_of(legend: &Legend, component: &LegendComponent, process: u8) -> Owner {
    match (component.kind, component.monitor) {
        (_, Some(monitor)) => Owner::Monitor(monitor),
        (ComponentKind::Process(number), None) => Owner::Process(number),
        (_, None) => {
            let within = path_inside(legend.process_name(process), component.path.as_str());
            Owner::Process(if within.is_some() { process } else { 0 })
        }
    }
}

/// What of a path comes after that of what contains it.
pub fn path_inside<'a>(outer: &str, path: &'a str) -> Option<&'a str> {
    path.strip_prefix(outer)?.strip_prefix(".")
}

fn push_kept<'a>(
    legend: &'a Legend,
    component: &'a LegendComponent,
    owner: Owner,
    kept: &mut Vec<KeptVariable<'a>>,
) -> Result<(), AllocError> {
    let class = class_of(legend, component, owner);
    for variable in legend.variables_of(component) {
        let cells = legend.shapes.cells_of(variable.shape);
        if cells > 0 {
            let at = component.base.saturating_add(variable.slot);
            kept.push(KeptVariable {
                owner,
                class,
                name: variable.name.as_str(),
                shape: variable.shape,
                at,
                end: at.saturating_add(cells),
            })?;
        }
    }
    Ok(())
}

// The path of a class in what it belongs to; empty for what is no class.
fn class_of<'a>(legend: &Legend, component: &'a LegendComponent, owner: Owner) -> &'a str {
    let path = component.path.as_str();
    let outer = match owner {
        Owner::Monitor(monitor) => legend.monitor_name(monitor),
        Owner::Process(process) => legend.process_name(process),
    };
    if path == outer {
        ""
    } else {
        path_inside(outer, path).unwrap_or(path)
    }
}

impl<'a> Register<'a> {
    /// The place of the text of a value, whose cells begin at a place.
    pub fn place_value(
        &mut self,
        shape: CellType,
        cells: &[i16],
        at: usize,
    ) -> Result<usize, AllocError> {
        let value = self.legend.value(self.alloc, shape, cells, at)?;
        self.strings.place_text(value.text(self.alloc)?.as_str())
    }

    /// Appends the variables that stay, with their values: `[0, monitor, name, value]` or `[1, process, name, value]`; of queues the value is -1.
    pub fn put_variables(
        &mut self,
        json: &mut Json,
        kept: &[KeptVariable<'_>],
        cells: &[i16],
    ) -> Result<(), AllocError> {
        json.open();
        for variable in kept {
            let (kind, owner) = match variable.owner {
                Owner::Monitor(monitor) => (0u8, monitor),
                Owner::Process(process) => (1, process),
            };
            json.open();
            json.put_plain(kind);
            json.put_plain(owner);
            json.put_plain(self.place_variable_name(*variable)?);
            if self.legend.shapes.is_queues(variable.shape) {
                json.put_plain(-1i64);
            } else {
                json.put_plain(self.place_value(variable.shape, cells, variable.at)?);
            }
            json.close();
        }
        json.close();
        Ok(())
    }

    // The place of the name of a variable in what it belongs to: that of a class comes before it.
    fn place_variable_name(&mut self, variable: KeptVariable<'_>) -> Result<usize, AllocError> {
        let KeptVariable { class, name, .. } = variable;
        if class.is_empty() {
            return self.strings.place_text(name);
        }
        let whole = format!(in self.alloc; "{class}.{name}")?;
        self.strings.place_text(whole.as_str())
    }

    /// The variables that stay and have other values than before, each with its value now.
    pub fn changes(
        &mut self,
        kept: &[KeptVariable<'_>],
        before: &[i16],
        now: &[i16],
    ) -> Result<Json, AllocError> {
        let mut changes = Json::new(self.alloc);
        changes.open();
        for (place, variable) in kept.iter().enumerate() {
            let KeptVariable { shape, at, end, .. } = *variable;
            if before.get(at..end) != now.get(at..end) && !self.legend.shapes.is_queues(shape) {
                changes.put_plain(place);
                changes.put_plain(self.place_value(shape, now, at)?);
            }
        }
        changes.close();
        Ok(changes)
    }
}
