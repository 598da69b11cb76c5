//! Parts: constants, types and variables.

ghost use Rattle.std.specs.Prelude.{◌≡◌, map};
ghost use Rattle.cp_tree.specs.View.{constant_definition_view, type_definition_view, variable_group_view, part_view};
ghost use Rattle.cp_layout.specs.Kinds.{types_seen};
ghost use Rattle.cp_layout.specs.Layers.{layer_seen, Lays, Leads};
ghost use Rattle.cp_layout.specs.LaidDeclarations as spec;

use crate::kinds::Types;
use crate::layer::{Contained, Layouter};
use cp_slots::PlaceOrigin;
use cp_symbols::{CellType, LayoutMeaning};
use cp_tree::{ConstantDefinition, Identifier, Part, PartKind, TypeDefinition, VariableGroup};
use std::alloc::{AllocError, Global};

impl<'a> Layouter<'a> {
    /// The parts of a system type.
    #[tactic(auto, using(crate::proofs::LaidParts::permanent_parts_step, crate::proofs::LaidParts::permanent_parts_none))]
    pub fn permanent_parts(&mut self, alloc: Global, parts: &'a [Part]) -> Result<(), AllocError>
        ensures { Leads (spec.permanent_parts (layer_seen self.old) (map part_view parts.now)) (layer_seen self.new) result }
    {
        for part in parts {
            self.permanent_part(alloc, part)?;
        }
        Ok(())
    }

    fn permanent_part(&mut self, alloc: Global, node: &'a Part) -> Result<(), AllocError>
        ensures { Leads (spec.permanent_part (layer_seen self.old) (part_view node.now)) (layer_seen self.new) result }
    {
        match &node.kind {
            PartKind::Constants(definitions) => self.constants(definitions),
            PartKind::Types(definitions) => self.type_definitions(alloc, definitions),
            PartKind::Variables(groups) => self.variables(alloc, groups),
        }
    }

    /// The parts of a routine.
    #[tactic(auto, using(crate::proofs::LaidParts::local_parts_step, crate::proofs::LaidParts::local_parts_none))]
    pub fn local_parts(&mut self, alloc: Global, parts: &'a [Part]) -> Result<(), AllocError>
        ensures { Leads (spec.local_parts (layer_seen self.old) (map part_view parts.now)) (layer_seen self.new) result }
    {
        for part in parts {
            self.local_part(alloc, part)?;
        }
        Ok(())
    }

    fn local_part(&mut self, alloc: Global, node: &'a Part) -> Result<(), AllocError>
        ensures { Leads (spec.local_part (layer_seen self.old) (part_view node.now)) (layer_seen self.new) result }
    {
        match &node.kind {
            PartKind::Constants(definitions) => self.constants(definitions),
            PartKind::Types(definitions) => self.type_definitions(alloc, definitions),
            PartKind::Variables(groups) => self.local_variables(alloc, groups),
        }
    }

    #[tactic(auto, using(crate::proofs::LaidParts::constants_step, crate::proofs::LaidParts::constants_none))]
    pub fn constants(&mut self, definitions: &'a [ConstantDefinition]) -> Result<(), AllocError>
        ensures { Leads (spec.constants (layer_seen self.old) (map constant_definition_view definitions.now)) (layer_seen self.new) result }
    {
        for definition in definitions {
            self.constant_definition(definition)?;
        }
        Ok(())
    }

    #[tactic(auto, unfolding(crate::specs::Layers::layer_seen))]
    fn constant_definition(&mut self, node: &'a ConstantDefinition) -> Result<(), AllocError>
        ensures { Leads (spec.constant (layer_seen self.old) (constant_definition_view node.now)) (layer_seen self.new) result }
    {
        let number = self.around.names.constant(&node.value);
        self.declare(
            &node.name,
            LayoutMeaning::Constant(number.base, number.value),
        )
    }

    #[tactic(auto, using(crate::proofs::LaidParts::type_definitions_step, crate::proofs::LaidParts::type_definitions_none))]
    fn type_definitions(
        &mut self,
        alloc: Global,
        definitions: &'a [TypeDefinition],
    ) -> Result<(), AllocError>
        ensures { Leads (spec.type_definitions (layer_seen self.old) (map type_definition_view definitions.now)) (layer_seen self.new) result }
    {
        for definition in definitions {
            self.type_definition(alloc, definition)?;
        }
        Ok(())
    }

    fn type_definition(&mut self, alloc: Global, node: &'a TypeDefinition) -> Result<(), AllocError>
        ensures { Leads (spec.type_definition (layer_seen self.old) (type_definition_view node.now)) (layer_seen self.new) result }
    {
        let value_type = self.value_type(alloc, &node.value)?;
        self.declare(&node.name, LayoutMeaning::Kind(value_type))
    }

    /// Permanent variables.
    #[tactic(auto, using(crate::proofs::LaidParts::variables_step, crate::proofs::LaidParts::variables_none))]
    pub fn variables(
        &mut self,
        alloc: Global,
        groups: &'a [VariableGroup],
    ) -> Result<(), AllocError>
        ensures { Leads (spec.variables (layer_seen self.old) (map variable_group_view groups.now)) (layer_seen self.new) result }
    {
        for group in groups {
            self.variable_group(alloc, group)?;
        }
        Ok(())
    }

    fn variable_group(&mut self, alloc: Global, group: &'a VariableGroup) -> Result<(), AllocError>
        ensures { Leads (spec.variable_group (layer_seen self.old) (variable_group_view group.now)) (layer_seen self.new) result }
    {
        let value_type = self.value_type(alloc, &group.variable_type)?;
        self.variables_of(value_type, &group.names)
    }

    #[tactic(auto, using(crate::proofs::LaidParts::variables_of_step, crate::proofs::LaidParts::variables_of_none))]
    fn variables_of(
        &mut self,
        value_type: CellType,
        names: &'a [Identifier],
    ) -> Result<(), AllocError>
        ensures { Leads (spec.variables_of (layer_seen self.old) value_type names.now) (layer_seen self.new) result }
    {
        for identifier in names {
            self.variable(identifier, value_type)?;
        }
        Ok(())
    }

    #[tactic(auto, unfolding(crate::specs::Layers::layer_seen))]
    fn variable(
        &mut self,
        identifier: &'a Identifier,
        value_type: CellType,
    ) -> Result<(), AllocError>
        ensures { Leads (spec.variable (layer_seen self.old) identifier.now.name value_type) (layer_seen self.new) result }
    {
        match components_of(&self.around.types, value_type) {
            Some(contained) => self.component_variable(identifier, value_type, contained),
            None => {
                self.cell_variable(identifier, value_type)?;
                Ok(())
            }
        }
    }

    // A variable of components.
    #[tactic(auto, unfolding(crate::specs::Layers::layer_seen))]
    fn component_variable(
        &mut self,
        identifier: &'a Identifier,
        value_type: CellType,
        contained: Contained,
    ) -> Result<(), AllocError>
        ensures { Leads (spec.component_variable (layer_seen self.old) identifier.now.name value_type contained) (layer_seen self.new) result }
    {
        let each = self.around.component_count(contained.system);
        let first = self.around.owned.add_components(contained, each)?;
        self.declare(identifier, LayoutMeaning::Contained(first, value_type))
    }

    /// A variable of permanent cells, by the first of them.
    #[tactic(auto, unfolding(crate::specs::Layers::layer_seen))]
    pub fn cell_variable(
        &mut self,
        identifier: &'a Identifier,
        value_type: CellType,
    ) -> Result<usize, AllocError>
        ensures { Lays (λ n. n) (spec.cell_variable (layer_seen self.old) identifier.now.name value_type) (layer_seen self.new) result }
    {
        let cells = self.around.types.cells_of(value_type);
        let slot = self.around.owned.add_variable(value_type, cells)?;
        self.declare(
            identifier,
            LayoutMeaning::Variable(PlaceOrigin::Permanent(slot), value_type),
        )?;
        Ok(slot)
    }

    #[tactic(auto, using(crate::proofs::LaidParts::local_variables_step, crate::proofs::LaidParts::local_variables_none))]
    fn local_variables(
        &mut self,
        alloc: Global,
        groups: &'a [VariableGroup],
    ) -> Result<(), AllocError>
        ensures { Leads (spec.local_variables (layer_seen self.old) (map variable_group_view groups.now)) (layer_seen self.new) result }
    {
        for group in groups {
            self.local_group(alloc, group)?;
        }
        Ok(())
    }

    fn local_group(&mut self, alloc: Global, group: &'a VariableGroup) -> Result<(), AllocError>
        ensures { Leads (spec.local_group (layer_seen self.old) (variable_group_view group.now)) (layer_seen self.new) result }
    {
        let value_type = self.value_type(alloc, &group.variable_type)?;
        self.locals_of(value_type, &group.names)
    }

    #[tactic(auto, using(crate::proofs::LaidParts::locals_of_step, crate::proofs::LaidParts::locals_of_none))]
    fn locals_of(&mut self, value_type: CellType, names: &'a [Identifier]) -> Result<(), AllocError>
        ensures { Leads (spec.locals_of (layer_seen self.old) value_type names.now) (layer_seen self.new) result }
    {
        for identifier in names {
            self.local(identifier, value_type)?;
        }
        Ok(())
    }

    /// A variable or a constant parameter of a routine, by its first cell.
    #[tactic(auto, unfolding(crate::specs::Layers::layer_seen))]
    pub fn local(
        &mut self,
        identifier: &'a Identifier,
        value_type: CellType,
    ) -> Result<usize, AllocError>
        ensures { Lays (λ n. n) (spec.local_at (layer_seen self.old) identifier.now.name value_type) (layer_seen self.new) result }
    {
        let slot = self.frame.add_cells(&self.around.types, value_type)?;
        self.declare(
            identifier,
            LayoutMeaning::Variable(PlaceOrigin::Local(slot), value_type),
        )?;
        Ok(slot)
    }
}

// The components of a variable.
fn components_of(types: &Types<'_>, value_type: CellType) -> Option<Contained>
    ensures { result ≡ spec.components_of (types_seen types.now) value_type }
{
    if let CellType::System(system) = value_type {
        return Some(Contained { system, count: 1 });
    }
    let array = types.array(value_type)?;
    match array.element {
        CellType::System(system) => Some(Contained {
            system,
            count: array.index.count(),
        }),
        _ => None,
    }
}
