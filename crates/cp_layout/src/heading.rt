//! Headings: the parameters of routines and system types. Each function takes the parameters before those that it adds.

ghost use Rattle.std.specs.Prelude.{[], map};
ghost use Rattle.cp_tree.specs.View.{group_view, parameter_group_view, routine_kind_view};
ghost use Rattle.cp_layout.specs.Layers.{layer_seen, heading_seen, Lays};
ghost use Rattle.cp_layout.specs.LaidDeclarations as spec;

use crate::layer::{HeadingLayout, Layouter, ParameterLayout, Passing};
use cp_slots::PlaceOrigin;
use cp_symbols::{CellType, FunctionResult, LayoutMeaning};
use cp_tree::{Group, Identifier, ParameterGroup, RoutineKind};
use std::alloc::{AllocError, Global};

impl<'a> Layouter<'a> {
    /// A routine's heading, with its parameters declared.
    #[tactic(auto, unfolding(crate::specs::LaidDeclarations::heading, crate::specs::Layers::layer_seen))]
    pub fn heading(
        &mut self,
        alloc: Global,
        name: &'a str,
        kind: &'a RoutineKind,
    ) -> Result<HeadingLayout<'a>, AllocError>
        ensures { Lays heading_seen (spec.heading (layer_seen self.old) name.now (routine_kind_view kind.now)) (layer_seen self.new) result }
    {
        match kind {
            RoutineKind::Procedure(groups) => {
                let parameters = self.parameter_groups(alloc, groups)?;
                Ok(HeadingLayout {
                    name,
                    parameters,
                    result: None,
                })
            }
            RoutineKind::Function(groups, type_name) => {
                let parameters = self.constant_groups(alloc, groups)?;
                let value_type = self.around.names.named_type(type_name.name.as_str());
                let slot = self.frame.add_cells(&self.around.types, value_type)?;
                Ok(HeadingLayout {
                    name,
                    parameters,
                    result: Some(FunctionResult { slot, value_type }),
                })
            }
            RoutineKind::Invariants => Ok(HeadingLayout {
                name,
                parameters: Vec::new(alloc),
                result: None,
            }),
        }
    }

    #[tactic(auto, using(crate::proofs::LaidParts::parameter_groups_step, crate::proofs::LaidParts::parameter_groups_none))]
    fn parameter_groups(
        &mut self,
        alloc: Global,
        groups: &'a [ParameterGroup],
    ) -> Result<Vec<ParameterLayout>, AllocError>
        ensures { Lays (λ v. v.items) (spec.parameter_groups (layer_seen self.old) [] (map parameter_group_view groups.now)) (layer_seen self.new) result }
    {
        let mut parameters = Vec::new(alloc);
        for group in groups {
            parameters = self.parameter_group(parameters, group)?;
        }
        Ok(parameters)
    }

    fn parameter_group(
        &mut self,
        before: Vec<ParameterLayout>,
        node: &'a ParameterGroup,
    ) -> Result<Vec<ParameterLayout>, AllocError>
        ensures { Lays (λ v. v.items) (spec.parameter_group (layer_seen self.old) before.items (parameter_group_view node.now)) (layer_seen self.new) result }
    {
        if node.is_var {
            self.var_group(before, &node.group)
        } else {
            self.constant_group(before, &node.group)
        }
    }

    #[tactic(auto, using(crate::proofs::LaidParts::constant_groups_step, crate::proofs::LaidParts::constant_groups_none))]
    fn constant_groups(
        &mut self,
        alloc: Global,
        groups: &'a [Group],
    ) -> Result<Vec<ParameterLayout>, AllocError>
        ensures { Lays (λ v. v.items) (spec.constant_groups (layer_seen self.old) [] (map group_view groups.now)) (layer_seen self.new) result }
    {
        let mut parameters = Vec::new(alloc);
        for group in groups {
            parameters = self.constant_group(parameters, group)?;
        }
        Ok(parameters)
    }

    #[tactic(auto, unfolding(crate::specs::Layers::layer_seen))]
    fn constant_group(
        &mut self,
        before: Vec<ParameterLayout>,
        group: &'a Group,
    ) -> Result<Vec<ParameterLayout>, AllocError>
        ensures { Lays (λ v. v.items) (spec.constant_group (layer_seen self.old) before.items (group_view group.now)) (layer_seen self.new) result }
    {
        let value_type = self.around.names.named_type(group.type_name.name.as_str());
        self.constant_parameters_of(before, value_type, &group.names)
    }

    #[tactic(auto, using(crate::proofs::LaidParts::constant_parameters_of_step, crate::proofs::LaidParts::constant_parameters_of_none))]
    fn constant_parameters_of(
        &mut self,
        before: Vec<ParameterLayout>,
        value_type: CellType,
        names: &'a [Identifier],
    ) -> Result<Vec<ParameterLayout>, AllocError>
        ensures { Lays (λ v. v.items) (spec.constant_parameters_of (layer_seen self.old) before.items value_type names.now) (layer_seen self.new) result }
    {
        let mut parameters = before;
        for identifier in names {
            parameters = self.constant_parameter(parameters, identifier, value_type)?;
        }
        Ok(parameters)
    }

    fn constant_parameter(
        &mut self,
        before: Vec<ParameterLayout>,
        identifier: &'a Identifier,
        value_type: CellType,
    ) -> Result<Vec<ParameterLayout>, AllocError>
        ensures { Lays (λ v. v.items) (spec.constant_parameter (layer_seen self.old) before.items identifier.now.name value_type) (layer_seen self.new) result }
    {
        let slot = self.local(identifier, value_type)?;
        let mut parameters = before;
        parameters.push(ParameterLayout {
            slot,
            passing: Passing::Constant(value_type),
        })?;
        Ok(parameters)
    }

    #[tactic(auto, unfolding(crate::specs::Layers::layer_seen))]
    fn var_group(
        &mut self,
        before: Vec<ParameterLayout>,
        group: &'a Group,
    ) -> Result<Vec<ParameterLayout>, AllocError>
        ensures { Lays (λ v. v.items) (spec.var_group (layer_seen self.old) before.items (group_view group.now)) (layer_seen self.new) result }
    {
        let value_type = self.around.names.named_type(group.type_name.name.as_str());
        self.var_parameters_of(before, value_type, &group.names)
    }

    #[tactic(auto, using(crate::proofs::LaidParts::var_parameters_of_step, crate::proofs::LaidParts::var_parameters_of_none))]
    fn var_parameters_of(
        &mut self,
        before: Vec<ParameterLayout>,
        value_type: CellType,
        names: &'a [Identifier],
    ) -> Result<Vec<ParameterLayout>, AllocError>
        ensures { Lays (λ v. v.items) (spec.var_parameters_of (layer_seen self.old) before.items value_type names.now) (layer_seen self.new) result }
    {
        let mut parameters = before;
        for identifier in names {
            parameters = self.var_parameter(parameters, identifier, value_type)?;
        }
        Ok(parameters)
    }

    #[tactic(auto, unfolding(crate::specs::Layers::layer_seen))]
    fn var_parameter(
        &mut self,
        before: Vec<ParameterLayout>,
        identifier: &'a Identifier,
        value_type: CellType,
    ) -> Result<Vec<ParameterLayout>, AllocError>
        ensures { Lays (λ v. v.items) (spec.var_parameter (layer_seen self.old) before.items identifier.now.name value_type) (layer_seen self.new) result }
    {
        let cells = self.around.types.cells_of(value_type);
        let slot = self.frame.add_extent(cells)?;
        self.declare(
            identifier,
            LayoutMeaning::Variable(PlaceOrigin::Reference(slot), value_type),
        )?;
        let mut parameters = before;
        parameters.push(ParameterLayout {
            slot,
            passing: Passing::Reference,
        })?;
        Ok(parameters)
    }

    /// The parameters of a system type.
    #[tactic(auto, using(crate::proofs::LaidParts::system_groups_step, crate::proofs::LaidParts::system_groups_none))]
    pub fn system_groups(
        &mut self,
        alloc: Global,
        groups: &'a [Group],
    ) -> Result<Vec<ParameterLayout>, AllocError>
        ensures { Lays (λ v. v.items) (spec.system_groups (layer_seen self.old) [] (map group_view groups.now)) (layer_seen self.new) result }
    {
        let mut parameters = Vec::new(alloc);
        for group in groups {
            parameters = self.system_group(parameters, group)?;
        }
        Ok(parameters)
    }

    #[tactic(auto, unfolding(crate::specs::Layers::layer_seen))]
    fn system_group(
        &mut self,
        before: Vec<ParameterLayout>,
        group: &'a Group,
    ) -> Result<Vec<ParameterLayout>, AllocError>
        ensures { Lays (λ v. v.items) (spec.system_group (layer_seen self.old) before.items (group_view group.now)) (layer_seen self.new) result }
    {
        let value_type = self.around.names.named_type(group.type_name.name.as_str());
        self.system_parameters_of(before, value_type, &group.names)
    }

    #[tactic(auto, using(crate::proofs::LaidParts::system_parameters_of_step, crate::proofs::LaidParts::system_parameters_of_none))]
    fn system_parameters_of(
        &mut self,
        before: Vec<ParameterLayout>,
        value_type: CellType,
        names: &'a [Identifier],
    ) -> Result<Vec<ParameterLayout>, AllocError>
        ensures { Lays (λ v. v.items) (spec.system_parameters_of (layer_seen self.old) before.items value_type names.now) (layer_seen self.new) result }
    {
        let mut parameters = before;
        for identifier in names {
            parameters = self.system_parameter(parameters, identifier, value_type)?;
        }
        Ok(parameters)
    }

    fn system_parameter(
        &mut self,
        before: Vec<ParameterLayout>,
        identifier: &'a Identifier,
        value_type: CellType,
    ) -> Result<Vec<ParameterLayout>, AllocError>
        ensures { Lays (λ v. v.items) (spec.system_parameter (layer_seen self.old) before.items identifier.now.name value_type) (layer_seen self.new) result }
    {
        match value_type {
            CellType::System(system) => self.component_parameter(before, identifier, system),
            _ => self.cell_parameter(before, identifier, value_type),
        }
    }

    #[tactic(auto, unfolding(crate::specs::Layers::layer_seen))]
    fn component_parameter(
        &mut self,
        before: Vec<ParameterLayout>,
        identifier: &'a Identifier,
        system: usize,
    ) -> Result<Vec<ParameterLayout>, AllocError>
        ensures { Lays (λ v. v.items) (spec.component_parameter (layer_seen self.old) before.items identifier.now.name system) (layer_seen self.new) result }
    {
        let slot = self.around.owned.add_component_cell(system)?;
        self.declare(identifier, LayoutMeaning::Bound(slot, system))?;
        let mut parameters = before;
        parameters.push(ParameterLayout {
            slot,
            passing: Passing::Component,
        })?;
        Ok(parameters)
    }

    fn cell_parameter(
        &mut self,
        before: Vec<ParameterLayout>,
        identifier: &'a Identifier,
        value_type: CellType,
    ) -> Result<Vec<ParameterLayout>, AllocError>
        ensures { Lays (λ v. v.items) (spec.cell_parameter (layer_seen self.old) before.items identifier.now.name value_type) (layer_seen self.new) result }
    {
        let slot = self.cell_variable(identifier, value_type)?;
        let mut parameters = before;
        parameters.push(ParameterLayout {
            slot,
            passing: Passing::Constant(value_type),
        })?;
        Ok(parameters)
    }
}
