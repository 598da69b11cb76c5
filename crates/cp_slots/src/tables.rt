//! The tables of a resolved program.

use crate::item::Item;

/// A routine, or an initial statement.
#[derive(Drop)]
pub struct ResolvedRoutine {
    /// The first item.
    pub body: Option<usize>,
    /// The cells of its frame as a call begins: parameters, local variables, result, results of calls.
    pub image: Vec<i16>,
    /// How many `var` parameters it has.
    pub references: usize,
    /// The cell of a function's result.
    pub result: usize,
    /// The cells of its frame and of those above it, at most.
    pub room: usize,
    /// The `var` parameters of its frame and of those above it, at most.
    pub reference_room: usize,
    /// The permanent cells of its component, at least.
    pub own: usize,
    /// The cells of each `var` parameter.
    pub extents: Vec<usize>,
    /// The system type of its component.
    pub system: usize,
}

/// A parameter of a system type that is a component: its permanent cell, and the system type of the component.
#[derive(Clone, Copy, Drop)]
pub struct ComponentParameter {
    pub slot: usize,
    pub system: usize,
}

/// A system type, or the program, which is the last.
#[derive(Drop)]
pub struct SystemType {
    /// The permanent cells of each of its components.
    pub own: usize,
    /// From the left to the right as they are declared.
    pub parameters: Vec<ComponentParameter>,
}

#[derive(Clone, Copy, Drop)]
pub enum ComponentKind {
    /// With its number.
    Process(u8),
    /// With its number.
    Monitor(u8),
    Class,
}

/// A component. Those that it contains follow it.
#[derive(Clone, Copy, Drop)]
pub struct Component {
    pub kind: ComponentKind,
    /// The first of its permanent cells.
    pub base: usize,
    pub system: usize,
}

/// A process.
#[derive(Clone, Copy, Drop)]
pub struct Process {
    pub component: usize,
    /// The routine of its initial statement.
    pub routine: usize,
}

/// The tables of a program. Component 0 and process 0 are the program itself.
#[derive(Drop)]
pub struct Layout {
    pub items: Vec<Item>,
    pub routines: Vec<ResolvedRoutine>,
    pub systems: Vec<SystemType>,
    pub components: Vec<Component>,
    pub processes: Vec<Process>,
    /// The number of monitors.
    pub monitors: u8,
    /// The permanent cells as a run begins.
    pub permanents: Vec<i16>,
    /// How many entries a control stack may have.
    pub depth: usize,
    /// How many cells the frames of a process may have.
    pub cells: usize,
    /// How many `var` parameters the frames of a process may have.
    pub references: usize,
    /// The greatest number of arguments of a call or a start.
    pub arguments: usize,
    /// The constants of all enumerations, in the order of their declarations.
    pub names: Vec<String>,
}
