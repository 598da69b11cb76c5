//! Routines, system types and the program.

ghost use Rattle.std.specs.Prelude.{◌≡◌, map, length};
ghost use Rattle.cp_tree.specs.View.{routine_view, body_view, system_view, definition_view, system_definition_view, program_part_view, program_view};
ghost use Rattle.cp_layout.specs.Layers.{layer_seen, heading_seen, Lays, Leads};
ghost use Rattle.cp_layout.specs.LaidDeclarations as spec;
ghost use Rattle.cp_layout.specs.LaidDeclarations.{outer_seen};

use crate::frame::RoutineFrame;
use crate::layer::{HeadingLayout, Layouter, Owned, ParameterLayout, SystemCells};
use crate::names::Names;
use cp_symbols::{CellType, LayoutMeaning};
use cp_tree::{
    Body, Definition, Program, ProgramPart, ProgramPartKind, Routine, System as WrittenSystem,
    SystemDefinition, SystemKind,
};
use std::alloc::{AllocError, Global};
use std::mem;

/// The names and the cells of the program, while a system type is laid out.
#[derive(Drop)]
struct Outer<'a> {
    names: Names<'a>,
    owned: Owned,
}

impl<'a> Layouter<'a> {
    /// The whole program. The last routine is its initial statement.
    #[tactic(auto, unfolding(crate::specs::LaidDeclarations::program))]
    pub fn program(&mut self, alloc: Global, node: &'a Program) -> Result<(), AllocError>
        ensures { Leads (spec.program (layer_seen self.old) (program_view node.now)) (layer_seen self.new) result }
    {
        self.program_parts(alloc, &node.parts)?;
        self.routines(alloc, &node.routines)?;
        self.initial_statement(alloc, Vec::new(alloc), &node.body)
    }

    #[tactic(auto, using(crate::proofs::LaidParts::program_parts_step, crate::proofs::LaidParts::program_parts_none))]
    fn program_parts(&mut self, alloc: Global, parts: &'a [ProgramPart]) -> Result<(), AllocError>
        ensures { Leads (spec.program_parts (layer_seen self.old) (map program_part_view parts.now)) (layer_seen self.new) result }
    {
        for part in parts {
            self.program_part(alloc, part)?;
        }
        Ok(())
    }

    fn program_part(&mut self, alloc: Global, node: &'a ProgramPart) -> Result<(), AllocError>
        ensures { Leads (spec.program_part (layer_seen self.old) (program_part_view node.now)) (layer_seen self.new) result }
    {
        match &node.kind {
            ProgramPartKind::Constants(definitions) => self.constants(definitions),
            ProgramPartKind::Types(definitions) => self.system_definitions(alloc, definitions),
            ProgramPartKind::Variables(groups) => self.variables(alloc, groups),
        }
    }

    #[tactic(auto, using(crate::proofs::LaidParts::system_definitions_step, crate::proofs::LaidParts::system_definitions_none))]
    fn system_definitions(
        &mut self,
        alloc: Global,
        definitions: &'a [SystemDefinition],
    ) -> Result<(), AllocError>
        ensures { Leads (spec.system_definitions (layer_seen self.old) (map system_definition_view definitions.now)) (layer_seen self.new) result }
    {
        for definition in definitions {
            self.system_definition(alloc, definition)?;
        }
        Ok(())
    }

    fn system_definition(
        &mut self,
        alloc: Global,
        node: &'a SystemDefinition,
    ) -> Result<(), AllocError>
        ensures { Leads (spec.system_definition (layer_seen self.old) (system_definition_view node.now)) (layer_seen self.new) result }
    {
        let value_type = self.definition(alloc, &node.value)?;
        self.declare(&node.name, LayoutMeaning::Kind(value_type))
    }

    fn definition(&mut self, alloc: Global, node: &'a Definition) -> Result<CellType, AllocError>
        ensures { Lays (λ t. t) (spec.definition (layer_seen self.old) (definition_view node.now)) (layer_seen self.new) result }
    {
        match node {
            Definition::Type(written) => self.value_type(alloc, written),
            Definition::System(system) => self.system(alloc, system),
        }
    }

    #[tactic(auto, unfolding(crate::specs::LaidDeclarations::system))]
    fn system(&mut self, alloc: Global, node: &'a WrittenSystem) -> Result<CellType, AllocError>
        ensures { Lays (λ t. t) (spec.system (layer_seen self.old) (system_view node.now)) (layer_seen self.new) result }
    {
        let first = self.routine_count();
        let outer = self.enter(alloc)?;
        let parameters = self.system_groups(alloc, &node.parameters)?;
        self.permanent_parts(alloc, &node.parts)?;
        self.routines(alloc, &node.routines)?;
        let initial = self.routine_count();
        self.initial_statement(alloc, parameters, &node.body)?;
        self.leave(outer, node.kind, first, initial)
    }

    #[tactic(auto, unfolding(crate::specs::Layers::layer_seen))]
    fn routine_count(&self) -> usize
        ensures { result ≡ length (layer_seen self.now).routines }
    {
        self.lists.routines.len()
    }

    // A system type begins: it sees some of the names, and has its own cells.
    #[tactic(auto, unfolding(crate::specs::Layers::layer_seen))]
    fn enter(&mut self, alloc: Global) -> Result<Outer<'a>, AllocError>
        ensures { Lays outer_seen (spec.enter_system (layer_seen self.old)) (layer_seen self.new) result }
    {
        let inside = self.around.names.inside(alloc)?;
        self.is_inside = true;
        Ok(Outer {
            names: mem::replace(&mut self.around.names, inside),
            owned: mem::replace(&mut self.around.owned, Owned::new(alloc)),
        })
    }

    // A system type is whole.
    #[tactic(auto, unfolding(crate::specs::Layers::layer_seen))]
    fn leave(
        &mut self,
        outer: Outer<'a>,
        kind: SystemKind,
        first: usize,
        initial: usize,
    ) -> Result<CellType, AllocError>
        ensures { Lays (λ t. t) (spec.leave_system (layer_seen self.old) (outer_seen outer.entry) kind first initial) (layer_seen self.new) result }
    {
        self.is_inside = false;
        self.around.names = outer.names;
        let owned = mem::replace(&mut self.around.owned, outer.owned);
        let number = self.around.systems.len();
        self.around.systems.push(SystemCells {
            kind,
            owned,
            first,
            initial,
        })?;
        Ok(CellType::System(number))
    }

    #[tactic(auto, using(crate::proofs::LaidParts::routines_step, crate::proofs::LaidParts::routines_none))]
    fn routines(&mut self, alloc: Global, nodes: &'a [Routine]) -> Result<(), AllocError>
        ensures { Leads (spec.routines (layer_seen self.old) (map routine_view nodes.now)) (layer_seen self.new) result }
    {
        for node in nodes {
            self.routine(alloc, node)?;
        }
        Ok(())
    }

    fn routine(&mut self, alloc: Global, node: &'a Routine) -> Result<(), AllocError>
        ensures { Leads (spec.routine (layer_seen self.old) (routine_view node.now)) (layer_seen self.new) result }
    {
        let names = self.open(alloc, node)?;
        self.routine_inside(alloc, node)?;
        self.close(names);
        Ok(())
    }

    // Declares a routine. The answer is how many names there are then.
    #[tactic(auto, unfolding(crate::specs::Layers::layer_seen))]
    fn open(&mut self, alloc: Global, node: &'a Routine) -> Result<usize, AllocError>
        ensures { Lays (λ n. n) (spec.open_routine (layer_seen self.old) node.now.name.name) (layer_seen self.new) result }
    {
        let number = self.lists.routines.len();
        self.declare(&node.name, LayoutMeaning::Routine(number))?;
        self.frame = RoutineFrame::new(alloc);
        Ok(self.around.names.open())
    }

    fn routine_inside(&mut self, alloc: Global, node: &'a Routine) -> Result<(), AllocError>
        ensures { Leads (spec.routine_inside (layer_seen self.old) (routine_view node.now)) (layer_seen self.new) result }
    {
        let heading = self.heading(alloc, node.name.name.as_str(), &node.kind)?;
        self.add_heading(heading)?;
        self.local_parts(alloc, &node.parts)?;
        self.body(alloc, &node.body, node.is_entry)
    }

    // Only the first names remain.
    #[tactic(auto, unfolding(crate::specs::Layers::layer_seen))]
    fn close(&mut self, count: usize)
        ensures { layer_seen self.new ≡ spec.close (layer_seen self.old) count }
    {
        self.around.names.close(count);
    }

    #[tactic(auto, unfolding(crate::specs::Layers::layer_seen))]
    fn add_heading(&mut self, heading: HeadingLayout<'a>) -> Result<(), AllocError>
        ensures { Leads (spec.with_heading (layer_seen self.old) (heading_seen heading.entry)) (layer_seen self.new) result }
    {
        self.around.headings.push(heading)?;
        Ok(())
    }

    // A body, at whose end the invariants are looked at or not.
    fn body(&mut self, alloc: Global, node: &'a Body, checks: bool) -> Result<(), AllocError>
        ensures { Leads (spec.body (layer_seen self.old) (body_view node.now) checks) (layer_seen self.new) result }
    {
        let end = self.end_of_body(alloc, checks)?;
        let list = self.list(alloc, &node.statements, end)?;
        self.add_routine(alloc, list)
    }

    // The items at the end of a body.
    fn end_of_body(&mut self, alloc: Global, checks: bool) -> Result<Option<usize>, AllocError>
        ensures { Lays (λ o. o) (spec.end_of_body (layer_seen self.old) checks) (layer_seen self.new) result }
    {
        if checks {
            self.check(alloc, 0)?;
        }
        self.settle(alloc, None)
    }

    // The initial statement of a system type or of the program, whose name is empty.
    fn initial_statement(
        &mut self,
        alloc: Global,
        parameters: Vec<ParameterLayout>,
        node: &'a Body,
    ) -> Result<(), AllocError>
        ensures { Leads (spec.initial_statement (layer_seen self.old) parameters.items (body_view node.now)) (layer_seen self.new) result }
    {
        self.begin_frame(alloc);
        self.add_heading(HeadingLayout {
            name: "",
            parameters,
            result: None,
        })?;
        self.body(alloc, node, true)
    }

    #[tactic(auto, unfolding(crate::specs::Layers::layer_seen))]
    fn begin_frame(&mut self, alloc: Global)
        ensures { layer_seen self.new ≡ spec.with_new_frame (layer_seen self.old) }
    {
        self.frame = RoutineFrame::new(alloc);
    }
}
