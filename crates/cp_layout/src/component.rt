//! The components of a program, each followed by those that it contains.

ghost use Rattle.std.specs.Prelude.{◌≡◌, ◌++◌, map, slice_get, IfOk, OnOk};
ghost use Rattle.cp_layout.specs.Kinds.{types_seen};
ghost use Rattle.cp_layout.specs.Layers.{system_seen, owned_seen};
ghost use Rattle.cp_layout.specs.LaidComponents as spec;
ghost use Rattle.cp_layout.specs.LaidComponents.{listing_seen, content_least, contents_least};

use crate::kinds::Types;
use crate::layer::{Contained, Content, Owned, SystemCells};
use crate::surroundings::Surroundings;
use cp_slots::{Component, ComponentKind, Process};
use cp_tree::SystemKind;
use std::alloc::{AllocError, Global};

/// The components so far, with their permanent cells.
#[derive(Drop)]
pub struct Components {
    pub items: Vec<Component>,
    pub processes: Vec<Process>,
    pub monitors: u8,
    pub permanents: Vec<i16>,
}

impl Components {
    fn new(alloc: Global) -> Components
        ensures { listing_seen result ≡ spec.empty_listing }
    {
        Components {
            items: Vec::new(alloc),
            processes: Vec::new(alloc),
            monitors: 0,
            permanents: Vec::new(alloc),
        }
    }

    /// The program as a process, and all that it contains.
    #[tactic(auto, unfolding(crate::specs::LaidComponents::components_of_program))]
    pub fn of_program(
        alloc: Global,
        around: &Surroundings<'_>,
        initial: usize,
    ) -> Result<Components, AllocError>
        ensures { IfOk result (λ c. listing_seen c ≡ spec.components_of_program (types_seen around.now.types) (map system_seen around.now.systems.items) (owned_seen around.now.owned) initial) }
    {
        let mut components = Components::new(alloc);
        let kind = components.new_kind(SystemKind::Process, initial)?;
        let systems = &around.systems;
        components.add_owned(&around.types, systems, kind, &around.owned, systems.len())?;
        Ok(components)
    }

    // A component of a system type, by its number.
    #[cycle(components)]
    #[tactic(auto, using(crate::proofs::Listed::nothing_there))]
    fn add(
        &mut self,
        types: &Types<'_>,
        systems: &[SystemCells],
        number: usize,
    ) -> Result<(), AllocError>
        ensures { OnOk result (listing_seen self.new ≡ spec.system_by (types_seen types.now) (spec.add_below (types_seen types.now) (map system_seen systems.now) number) (slice_get (map system_seen systems.now) number) number (listing_seen self.old)) }
    {
        let Some(system) = systems.get(number) else {
            return Ok(());
        };
        let kind = self.new_kind(system.kind, system.initial)?;
        self.add_owned(types, systems, kind, &system.owned, number)
    }

    // A component and what it owns; it contains components of types before its own.
    #[cycle(components)]
    fn add_owned(
        &mut self,
        types: &Types<'_>,
        systems: &[SystemCells],
        kind: ComponentKind,
        owned: &Owned,
        number: usize,
    ) -> Result<(), AllocError>
        ensures { OnOk result (listing_seen self.new ≡ spec.add_owned (types_seen types.now) (spec.add_below (types_seen types.now) (map system_seen systems.now) number) (kind, listing_seen self.old) (owned_seen owned.now) number) }
    {
        self.add_component(types, kind, &owned.contents, number)?;
        self.add_contained(types, systems, &owned.contained, number)
    }

    #[cycle(components)]
    #[tactic(auto, using(crate::proofs::Listed::contained_step, crate::proofs::Listed::contained_none))]
    fn add_contained(
        &mut self,
        types: &Types<'_>,
        systems: &[SystemCells],
        contained: &[Contained],
        bound: usize,
    ) -> Result<(), AllocError>
        ensures { OnOk result (listing_seen self.new ≡ spec.add_contained (spec.add_below (types_seen types.now) (map system_seen systems.now) bound) contained.now (listing_seen self.old)) }
    {
        for components in contained {
            self.add_each(types, systems, *components, bound)?;
        }
        Ok(())
    }

    #[cycle(components)]
    #[tactic(auto, using(crate::proofs::Listed::again_step, crate::proofs::Listed::again_none))]
    fn add_each(
        &mut self,
        types: &Types<'_>,
        systems: &[SystemCells],
        components: Contained,
        bound: usize,
    ) -> Result<(), AllocError>
        ensures { OnOk result (listing_seen self.new ≡ spec.again_and_again components.count (spec.add_below (types_seen types.now) (map system_seen systems.now) bound components.system) (listing_seen self.old)) }
    {
        for _ in 0..components.count {
            self.add_below(types, systems, components.system, bound)?;
        }
        Ok(())
    }

    // A component of a system type, if the type is one of the first.
    #[cycle(components)]
    #[tactic(auto, using(crate::proofs::Listed::listed_inside, crate::proofs::Listed::listed_outside))]
    fn add_below(
        &mut self,
        types: &Types<'_>,
        systems: &[SystemCells],
        number: usize,
        bound: usize,
    ) -> Result<(), AllocError>
        ensures { OnOk result (listing_seen self.new ≡ spec.add_below (types_seen types.now) (map system_seen systems.now) bound number (listing_seen self.old)) }
    {
        if number < bound {
            return self.add(types, systems, number);
        }
        Ok(())
    }

    fn add_component(
        &mut self,
        types: &Types<'_>,
        kind: ComponentKind,
        contents: &[Content],
        system: usize,
    ) -> Result<(), AllocError>
        ensures { OnOk result (listing_seen self.new ≡ spec.with_component (listing_seen self.old) kind (contents_least (types_seen types.now) contents.now) system) }
    {
        let base = self.permanents.len();
        self.items.push(Component { kind, base, system })?;
        add_contents(&mut self.permanents, types, contents)
    }

    // The kind of the next component, a process or a monitor with the next number.
    fn new_kind(&mut self, kind: SystemKind, initial: usize) -> Result<ComponentKind, AllocError>
        ensures { IfOk result (λ k. spec.next_kind (listing_seen self.old) kind initial ≡ (k, listing_seen self.new)) }
    {
        match kind {
            SystemKind::Class => Ok(ComponentKind::Class),
            SystemKind::Monitor => {
                let number = self.monitors;
                self.monitors = number.saturating_add(1);
                Ok(ComponentKind::Monitor(number))
            }
            SystemKind::Process => {
                let number = self.processes.len().min(255) as u8;
                self.processes.push(Process {
                    component: self.items.len(),
                    routine: initial,
                })?;
                Ok(ComponentKind::Process(number))
            }
        }
    }
}

// The cells as a run begins.
#[tactic(auto, using(crate::proofs::Listed::contents_step, crate::proofs::Listed::contents_none))]
fn add_contents(
    cells: &mut Vec<i16>,
    types: &Types<'_>,
    contents: &[Content],
) -> Result<(), AllocError>
    ensures { OnOk result (cells.new.items ≡ cells.old.items ++ contents_least (types_seen types.now) contents.now) }
{
    for content in contents {
        add_content(cells, types, *content)?;
    }
    Ok(())
}

fn add_content(cells: &mut Vec<i16>, types: &Types<'_>, content: Content) -> Result<(), AllocError>
    ensures { OnOk result (cells.new.items ≡ cells.old.items ++ content_least (types_seen types.now) content) }
{
    match content {
        Content::Variable(value_type) => types.add_least(cells, value_type)?,
        Content::Component => cells.push(0)?,
    }
    Ok(())
}
