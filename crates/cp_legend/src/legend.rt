//! The legend of a program: what its numbers are called in the source.

ghost use Rattle.std.specs.Prelude.{◌≡◌, map, option_map, slice_get, IfOk};
ghost use Rattle.std.specs.Str.{bytes_eq};
ghost use Rattle.cp_tree.specs.Syntax.{nameless};
ghost use Rattle.cp_legend.specs.Names as spec;
ghost use Rattle.cp_legend.specs.Names.{IsLegendOf, component_seen, routine_names_seen, source_seen, system_seen};

use crate::components::components_of;
use crate::sorting::{all_permanents, all_routines, all_systems};
use crate::types::LegendTypes;
use cp_slots::{ComponentKind, Resolved};
use cp_symbols::{CellType, Symbols};
use cp_tree::{NAMELESS, SystemKind};
use std::alloc::{AllocError, Global};

/// A variable, by its first cell.
#[derive(Drop)]
pub struct Variable {
    pub name: String,
    pub slot: usize,
    pub shape: CellType,
}

/// How an argument is passed.
#[derive(Clone, Copy, PartialEq, Eq)]
pub enum LegendPassing {
    Value,
    Reference,
}

/// A parameter of a routine, by its first cell, or by its number among the `var` parameters.
#[derive(Clone, Copy)]
pub struct LegendParameter {
    pub slot: usize,
    pub shape: CellType,
    pub passing: LegendPassing,
}

/// A routine, or an initial statement, whose name is empty.
#[derive(Drop)]
pub struct LegendRoutine {
    pub name: String,
    pub parameters: Vec<LegendParameter>,
    /// The parameters with values, the result and the local variables, by their cells of the frame.
    pub variables: Vec<Variable>,
    /// The place of a function's result among these.
    pub result: Option<usize>,
}

/// A system type, or the program, which has no kind and no name.
#[derive(Drop)]
pub struct LegendSystem {
    pub name: String,
    pub kind: Option<SystemKind>,
}

/// A component.
#[derive(Drop)]
pub struct LegendComponent {
    /// As the source writes it; the program is `program`.
    pub path: String,
    pub kind: ComponentKind,
    pub system: usize,
    /// The monitor that it is, or the one that it is a part of.
    pub monitor: Option<u8>,
    /// The first of its permanent cells.
    pub base: usize,
}

/// The names of a program, by the numbers of its tables.
#[derive(Drop)]
pub struct Legend {
    pub shapes: LegendTypes,
    /// The constants of all enumerations.
    pub constants: Vec<String>,
    pub systems: Vec<LegendSystem>,
    /// The permanent variables of each system type.
    pub permanents: Vec<Vec<Variable>>,
    pub routines: Vec<LegendRoutine>,
    pub components: Vec<LegendComponent>,
}

/// The legend of a program, from its symbols.
pub fn legend_of(alloc: Global, program: &Resolved, symbols: Symbols) -> Result<Legend, AllocError>
    ensures { IfOk result (λ l. IsLegendOf l (source_seen symbols) program.now.components) }
{
    let systems = all_systems(alloc, &symbols)?;
    let permanents = all_permanents(alloc, &symbols)?;
    let routines = all_routines(alloc, &symbols)?;
    let components = components_of(alloc, program, &symbols)?;
    let Symbols {
        types,
        constants,
        ..
    } = symbols;
    Ok(Legend {
        shapes: LegendTypes { compounds: types },
        constants,
        systems,
        permanents,
        routines,
        components,
    })
}

impl Legend {
    /// How many processes there are, the program included.
    #[tactic(auto, using(crate::proofs::Gathering::counted_step, crate::proofs::Gathering::counted_none))]
    pub fn processes(&self) -> u8
        ensures { result ≡ spec.process_count (map component_seen self.now.components.items) }
    {
        let mut count = 0u8;
        for component in &self.components {
            if let ComponentKind::Process(_) = component.kind {
                count = count.saturating_add(1);
            }
        }
        count
    }

    /// How many monitors there are.
    #[tactic(auto, using(crate::proofs::Gathering::counted_step, crate::proofs::Gathering::counted_none))]
    pub fn monitors(&self) -> u8
        ensures { result ≡ spec.monitor_count (map component_seen self.now.components.items) }
    {
        let mut count = 0u8;
        for component in &self.components {
            if let ComponentKind::Monitor(_) = component.kind {
                count = count.saturating_add(1);
            }
        }
        count
    }

    /// The path of a process.
    pub fn process_name(&self, process: u8) -> &str
        ensures { result.now ≡ spec.path_in (spec.process_in (map component_seen self.now.components.items) process) }
    {
        self.process(process)
            .map_or("", |component| component.path.as_str())
    }

    /// The name of the type of a process; the program has none.
    pub fn process_type(&self, process: u8) -> &str
        ensures { result.now ≡ spec.type_in (map system_seen self.now.systems.items) (spec.process_in (map component_seen self.now.components.items) process) }
    {
        self.process(process)
            .map_or("", |component| self.type_name(component.system))
    }

    /// The path of a monitor.
    pub fn monitor_name(&self, monitor: u8) -> &str
        ensures { result.now ≡ spec.path_in (spec.monitor_in (map component_seen self.now.components.items) monitor) }
    {
        self.monitor(monitor)
            .map_or("", |component| component.path.as_str())
    }

    /// The name of the type of a monitor.
    pub fn monitor_type(&self, monitor: u8) -> &str
        ensures { result.now ≡ spec.type_in (map system_seen self.now.systems.items) (spec.monitor_in (map component_seen self.now.components.items) monitor) }
    {
        self.monitor(monitor)
            .map_or("", |component| self.type_name(component.system))
    }

    /// The name of a routine.
    pub fn routine_name(&self, routine: usize) -> &str
        ensures { result.now ≡ spec.name_of_routine (slice_get (map routine_names_seen self.now.routines.items) routine) }
    {
        self.routines
            .get(routine)
            .map_or("", |routine| routine.name.as_str())
    }

    /// Whether a routine has no name, since it says the invariants of a block.
    pub fn is_nameless(&self, routine: usize) -> bool
        ensures { result ≡ bytes_eq (spec.name_of_routine (slice_get (map routine_names_seen self.now.routines.items) routine)) nameless }
    {
        self.routine_name(routine) == NAMELESS
    }

    fn type_name(&self, system: usize) -> &str
        ensures { result.now ≡ spec.name_at (map system_seen self.now.systems.items) system }
    {
        self.systems
            .get(system)
            .map_or("", |system| system.name.as_str())
    }

    fn process(&self, process: u8) -> Option<&LegendComponent>
        ensures { option_map (λ c. component_seen c.now) result ≡ spec.process_in (map component_seen self.now.components.items) process }
    {
        for component in &self.components {
            if is_process(component.kind, process) {
                return Some(component);
            }
        }
        None
    }

    fn monitor(&self, monitor: u8) -> Option<&LegendComponent>
        ensures { option_map (λ c. component_seen c.now) result ≡ spec.monitor_in (map component_seen self.now.components.items) monitor }
    {
        for component in &self.components {
            if is_monitor(component.kind, monitor) {
                return Some(component);
            }
        }
        None
    }
}

fn is_process(kind: ComponentKind, process: u8) -> bool
    ensures { result ≡ spec.is_process kind process }
{
    matches!(kind, ComponentKind::Process(number) if number == process)
}

fn is_monitor(kind: ComponentKind, monitor: u8) -> bool
    ensures { result ≡ spec.is_monitor kind monitor }
{
    matches!(kind, ComponentKind::Monitor(number) if number == monitor)
}
