//! The components of a program with their paths.

ghost use Rattle.std.specs.Prelude.{◌≡◌, map, length, slice_get, IfOk, OnOk};
ghost use Rattle.std.specs.String.{string_bytes};
ghost use Rattle.cp_legend.specs.Names as spec;
ghost use Rattle.cp_legend.specs.Names.{component_seen, part_seen, parts_seen, source_seen};

use crate::legend::LegendComponent;
use crate::parts::{ComponentPart, all_parts};
use cp_slots::{Component, ComponentKind, Resolved};
use cp_symbols::Symbols;
use std::alloc::{AllocError, Global};

/// The components, by their numbers: the program, and each followed by those that it contains.
#[tactic(auto, unfolding(crate::specs::Names::components_of))]
pub fn components_of(
    alloc: Global,
    program: &Resolved,
    symbols: &Symbols,
) -> Result<Vec<LegendComponent>, AllocError>
    ensures { IfOk result (λ v. map component_seen v.items ≡ spec.components_of (source_seen symbols.now) program.now.components) }
{
    let parts = all_parts(alloc, symbols)?;
    let mut named = Vec::new(alloc);
    let last = symbols.systems.len();
    let naming = Naming {
        alloc,
        program,
        parts: &parts,
    };
    naming.name_below(&mut named, last, "", None, last + 1)?;
    Ok(named)
}

// The monitor that a component is or is a part of: a class belongs to what contains it.
fn monitor_of(kind: ComponentKind, outer: Option<u8>) -> Option<u8>
    ensures { result ≡ spec.monitor_of kind outer }
{
    match kind {
        ComponentKind::Monitor(number) => Some(number),
        ComponentKind::Class => outer,
        ComponentKind::Process(_) => None,
    }
}

// A path inside another one.
fn inside(alloc: Global, path: &str, text: &str) -> Result<String, AllocError>
    ensures { IfOk result (λ t. string_bytes t ≡ spec.inside path.now text.now) }
{
    let mut inner = String::new(alloc);
    if !path.is_empty() {
        inner.push_str(path)?;
        inner.push('.')?;
    }
    inner.push_str(text)?;
    Ok(inner)
}

// What components are named by: the tables, and the parts of each system type.
#[derive(Clone, Copy)]
struct Naming<'a> {
    alloc: Global,
    program: &'a Resolved,
    parts: &'a [Vec<ComponentPart>],
}

impl Naming<'_> {
    // A component of a system type, if the type is one of the first.
    #[cycle(naming)]
    #[tactic(auto, using(crate::proofs::Naming::named_inside, crate::proofs::Naming::named_outside))]
    fn name_below(
        &self,
        named: &mut Vec<LegendComponent>,
        system: usize,
        path: &str,
        outer: Option<u8>,
        bound: usize,
    ) -> Result<(), AllocError>
        ensures { OnOk result (map component_seen named.new.items ≡ spec.named_below self.now.program.now.components (map parts_seen self.now.parts.now) bound system path.now outer (map component_seen named.old.items)) }
    {
        if system < bound {
            return self.name_next(named, system, path, outer);
        }
        Ok(())
    }

    // The next component of the tables, followed by those that it contains.
    #[cycle(naming)]
    fn name_next(
        &self,
        components: &mut Vec<LegendComponent>,
        system: usize,
        path: &str,
        outer: Option<u8>,
    ) -> Result<(), AllocError>
        ensures { OnOk result (map component_seen components.new.items ≡ spec.next_by (spec.named_below self.now.program.now.components (map parts_seen self.now.parts.now) system) (slice_get self.now.program.now.components (length (map component_seen components.old.items))) (spec.parts_at (map parts_seen self.now.parts.now) system) path.now outer (map component_seen components.old.items)) }
    {
        let Some(component) = self.component_at(components.len()) else {
            return Ok(());
        };
        let called = if path.is_empty() { "program" } else { path };
        let monitor = monitor_of(component.kind, outer);
        components.push(LegendComponent {
            path: String::from_str(self.alloc, called)?,
            kind: component.kind,
            system: component.system,
            monitor,
            base: component.base,
        })?;
        self.name_parts(components, self.parts_at(system), path, monitor, system)
    }

    #[tactic(auto, using(crate::proofs::Naming::component_there, crate::proofs::Naming::component_beyond))]
    fn component_at(&self, number: usize) -> Option<Component>
        ensures { result ≡ slice_get self.now.program.now.components number }
    {
        if number < self.program.components() {
            Some(self.program.component(number))
        } else {
            None
        }
    }

    fn parts_at(&self, system: usize) -> &[ComponentPart]
        ensures { map part_seen result.now ≡ spec.parts_at (map parts_seen self.now.parts.now) system }
    {
        match self.parts.get(system) {
            Some(parts) => parts.as_slice(),
            None => &[],
        }
    }

    #[cycle(naming)]
    #[tactic(auto, using(crate::proofs::Naming::parts_step, crate::proofs::Naming::parts_none))]
    fn name_parts(
        &self,
        named: &mut Vec<LegendComponent>,
        parts: &[ComponentPart],
        path: &str,
        outer: Option<u8>,
        bound: usize,
    ) -> Result<(), AllocError>
        ensures { OnOk result (map component_seen named.new.items ≡ spec.parts_by (spec.named_below self.now.program.now.components (map parts_seen self.now.parts.now) bound) (map part_seen parts.now) path.now outer (map component_seen named.old.items)) }
    {
        for part in parts {
            let inner = inside(self.alloc, path, part.text.as_str())?;
            self.name_below(named, part.system, inner.as_str(), outer, bound)?;
        }
        Ok(())
    }
}
