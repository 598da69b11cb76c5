//! The resolved program.

ghost use Rattle.std.specs.Prelude.{◌≡◌, ◌<◌, length};
ghost use Rattle.cp_slots.specs.Fits.{IsSound};
ghost use Rattle.cp_slots.specs.Tables.{component_at, item_at, name_at, process_at, routine_at, routine_view, tables_of};

use crate::item::Item;
use crate::tables::{Component, Layout, Process, ResolvedRoutine};
use std::marker::Model;

/// A program whose names are slots. Its numbers are sound.
pub struct Resolved {
    layout: Layout,
}

// One call where it is dropped, not one for each list: proofs of functions that may end early are much shorter.
impl Drop for Resolved {
    fn drop(self) {
        let Resolved { layout: _ } = self;
    }
}

impl Model for Resolved {
    ghost use Rattle.cp_slots.specs.Tables.{Tables, tables_of};

    ghost Value = { Tables };

    ghost view = { λ r. tables_of r.layout };

    ghost use Rattle.cp_slots.specs.contracts.place.Place as p;
    ghost use Rattle.cp_slots.specs.contracts.place.Index as i;
    ghost use Rattle.cp_slots.specs.contracts.place.OrdinalExpression as e;
    ghost use Rattle.cp_slots.specs.contracts.place.SetExpression as s;
    ghost use Rattle.std.specs.Coded.{codes};

    ghost coded = { Prim.hlevel (codes, p.the_row.coded, i.the_row.coded, e.the_row.coded, s.the_row.coded) };

    ghost use Rattle.cp_slots.specs.Fits.{IsSound};

    ghost invariant = { λ r. IsSound (tables_of r.layout) };
}

impl Resolved {
    /// The program of sound tables.
    pub fn new(layout: Layout) -> Resolved
        requires { IsSound (tables_of layout) }
        ensures { result ≡ tables_of layout }
    {
        Resolved { layout }
    }

    /// How many processes there are, the initial one included.
    pub fn processes(&self) -> u8
        ensures value { result ≡ length self.now.processes }
        ensures sound { IsSound self.now }
    {
        self.layout.processes.len() as u8
    }

    /// How many monitors there are.
    pub fn monitors(&self) -> u8
        ensures { result ≡ self.now.monitors }
    {
        self.layout.monitors
    }

    /// How many components there are, the program included.
    pub fn components(&self) -> usize
        ensures { result ≡ length self.now.components }
    {
        self.layout.components.len()
    }

    /// The spelling of the enumeration constant of this number; the empty text where there is none.
    pub fn name(&self, number: u16) -> &str
        ensures { result.now ≡ name_at self.now number }
    {
        match self.layout.names.get(number as usize) {
            Some(name) => name.as_str(),
            None => "",
        }
    }

    /// An item.
    pub fn item(&self, at: usize) -> &Item
        requires { at < length self.now.items }
        ensures value { result.now ≡ item_at self.now at }
        ensures sound { IsSound self.now }
    {
        &self.layout.items[at]
    }

    /// A routine.
    pub fn routine(&self, number: usize) -> &ResolvedRoutine
        requires { number < length self.now.routines }
        ensures { routine_view result.now ≡ routine_at self.now number }
    {
        &self.layout.routines[number]
    }

    /// A component.
    pub fn component(&self, number: usize) -> Component
        requires { number < length self.now.components }
        ensures value { result ≡ component_at self.now number }
        ensures sound { IsSound self.now }
    {
        self.layout.components[number]
    }

    /// A process.
    pub fn process(&self, number: u8) -> Process
        requires { number < length self.now.processes }
        ensures value { result ≡ process_at self.now number }
        ensures sound { IsSound self.now }
    {
        self.layout.processes[number as usize]
    }

    /// The permanent cells as a run begins.
    pub fn permanents(&self) -> &[i16]
        ensures { result.now ≡ self.now.permanents }
    {
        &self.layout.permanents
    }

    /// How many entries a control stack may have.
    pub fn depth(&self) -> usize
        ensures { result ≡ self.now.depth }
    {
        self.layout.depth
    }

    /// How many cells the frames of a process may have.
    pub fn cells(&self) -> usize
        ensures { result ≡ self.now.cells }
    {
        self.layout.cells
    }

    /// How many `var` parameters the frames of a process may have.
    pub fn references(&self) -> usize
        ensures { result ≡ self.now.references }
    {
        self.layout.references
    }

    /// The greatest number of arguments of a call or a start.
    pub fn arguments(&self) -> usize
        ensures { result ≡ self.now.arguments }
    {
        self.layout.arguments
    }
}
