//! The tables of a tree: its names as slots, its lists of statements as numbered items.

ghost use Rattle.std.specs.Prelude.{◌≡◌, map, slice_get, IfOk};
ghost use Rattle.cp_tree.specs.TreeView.{tree_view};
ghost use Rattle.cp_slots.specs.Tables.{tables_of, routine_view, system_view};
ghost use Rattle.cp_layout.specs.Layers.{layer_seen, system_seen, owned_seen};
ghost use Rattle.cp_layout.specs.Laid as spec;
ghost use Rattle.cp_layout.specs.Laid.{plain, laid, whole};
ghost use Rattle.cp_layout.specs.Symbols.{AreSymbolsOf};

use crate::component::Components;
use crate::layer::{Layouter, Owned, SystemCells};
use cp_slots::{Layout, Process, ResolvedRoutine, SystemType};
use cp_symbols::Symbols;
use cp_tree::Tree;
use std::alloc::{AllocError, Global};

/// The tables of a tree.
#[tactic(auto, unfolding(crate::specs::Laid::laid))]
pub fn lay_out(alloc: Global, tree: &Tree) -> Result<Layout, AllocError>
    ensures { IfOk result (λ l. plain (tables_of l) ≡ laid (tree_view tree.now)) }
{
    let mut layer = Layouter::new(alloc, tree)?;
    layer.program(alloc, &tree.program)?;
    tables(alloc, layer)
}

/// The tables of a tree, and what its names stand for in them.
#[tactic(auto, unfolding(crate::specs::Laid::laid))]
pub fn lay_out_with_symbols(alloc: Global, tree: &Tree) -> Result<(Layout, Symbols), AllocError>
    ensures tables { IfOk result (λ l. plain (tables_of l.0) ≡ laid (tree_view tree.now)) }
    ensures symbols { IfOk result (λ l. AreSymbolsOf l.1 (whole (tree_view tree.now))) }
{
    let mut layer = Layouter::new(alloc, tree)?;
    layer.program(alloc, &tree.program)?;
    let symbols = layer.symbols(alloc)?;
    let layout = tables(alloc, layer)?;
    Ok((layout, symbols))
}

// The tables of what is laid out. The last routine is the program's initial statement.
#[tactic(auto, unfolding(crate::specs::Laid::tables_laid, crate::specs::Layers::layer_seen))]
fn tables(alloc: Global, layer: Layouter<'_>) -> Result<Layout, AllocError>
    ensures { IfOk result (λ l. plain (tables_of l) ≡ spec.tables_laid (layer_seen layer.entry)) }
{
    let initial = layer.lists.routines.len().saturating_sub(1);
    let components = Components::of_program(alloc, &layer.around, initial)?;
    let room = room_of(&layer, &components.processes);
    let systems = system_types(alloc, &layer.around.systems, &layer.around.owned)?;
    let lists = layer.lists;
    Ok(Layout {
        items: lists.items,
        routines: lists.routines,
        systems,
        components: components.items,
        processes: components.processes,
        monitors: components.monitors,
        permanents: components.permanents,
        depth: room.depth,
        cells: room.cells,
        references: room.references,
        arguments: lists.arguments,
        names: lists.constants,
    })
}

// The system types, and the program as the last of them.
fn system_types(
    alloc: Global,
    systems: &[SystemCells],
    program: &Owned,
) -> Result<Vec<SystemType>, AllocError>
    ensures { IfOk result (λ v. map system_view v.items ≡ spec.system_types (map system_seen systems.now) (owned_seen program.now)) }
{
    let mut types = all_types(alloc, systems)?;
    types.push(system_type(alloc, program)?)?;
    Ok(types)
}

#[tactic(auto, using(crate::proofs::Systems::types_step, crate::proofs::Systems::types_none))]
fn all_types(alloc: Global, systems: &[SystemCells]) -> Result<Vec<SystemType>, AllocError>
    ensures { IfOk result (λ v. map system_view v.items ≡ spec.types_of (map system_seen systems.now)) }
{
    let mut types = Vec::new(alloc);
    for system in systems {
        types.push(system_type(alloc, &system.owned)?)?;
    }
    Ok(types)
}

fn system_type(alloc: Global, owned: &Owned) -> Result<SystemType, AllocError>
    ensures { IfOk result (λ t. system_view t ≡ spec.system_type (owned_seen owned.now)) }
{
    Ok(SystemType {
        own: owned.cells,
        parameters: Vec::from_slice(alloc, &owned.parameters)?,
    })
}

/// What each process may need.
#[derive(Clone, Copy, Drop)]
struct RoomNeed {
    depth: usize,
    cells: usize,
    references: usize,
}

#[tactic(auto, using(crate::proofs::Systems::room_step, crate::proofs::Systems::room_none))]
fn room_of(layer: &Layouter<'_>, processes: &[Process]) -> RoomNeed
    ensures { result ≡ spec.room_from (layer_seen layer.now) spec.no_room processes.now }
{
    let mut room = RoomNeed {
        depth: 1,
        cells: 0,
        references: 0,
    };
    for process in processes {
        room = room_for(layer, room, process.routine);
    }
    room
}

// Also for a process with this initial statement.
#[tactic(auto, unfolding(crate::specs::Layers::layer_seen))]
fn room_for(layer: &Layouter<'_>, room: RoomNeed, initial: usize) -> RoomNeed
    ensures { result ≡ spec.room_for (layer_seen layer.now) room (slice_get (layer_seen layer.now).routines initial) }
{
    match layer.lists.routines.get(initial) {
        Some(routine) => {
            let depth = layer.lists.need_of(routine.body).saturating_add(1);
            room.with(routine, depth)
        }
        None => room,
    }
}

impl RoomNeed {
    fn with(self, routine: &ResolvedRoutine, depth: usize) -> RoomNeed
        ensures { result ≡ spec.room_with self (routine_view routine.now) depth }
    {
        RoomNeed {
            depth: self.depth.max(depth),
            cells: self.cells.max(routine.room),
            references: self.references.max(routine.reference_room),
        }
    }
}
