//! The places of a program.

ghost use Rattle.std.specs.Prelude.{◌≡◌, ◌+◌, ◌≤◌, length};

use crate::runs::Runs;
use cp_slots::{ComponentKind, Resolved};
use std::alloc::{AllocError, Global};

/// To which place each component and each permanent cell of a program belongs. Process q is place q, and monitor k is place `processes + k`. A class
/// belongs to the place of the component before it, and a cell to that of its component.
#[derive(Drop)]
pub struct PlaceTable {
    pub processes: usize,
    pub monitors: usize,
    pub components: Runs,
    pub cells: Runs,
    pub ghost of_components: { length components.spans.items ≡ processes + monitors },
    pub ghost of_cells: { length cells.spans.items ≡ processes + monitors },
    pub ghost few: { processes + monitors ≤ 80 },
}

impl PlaceTable {
    ghost use Rattle.std.specs.Prelude.{◌<◌, ◌≤◌, IfOk};
    ghost use Rattle.cp_slots.specs.Fits.{IsSound, KindFits};
    ghost use Rattle.cp_slots.specs.Tables.{Tables};
    ghost use Rattle.cp_parts.specs.Placed.{ArePlacedBelow, IsNext, IsPlaced, cells_before, places_of};

    // No component has its place.
    fn empty(alloc: Global, resolved: &Resolved) -> Result<PlaceTable, AllocError>
        ensures none { IfOk result (λ table. ArePlacedBelow resolved.now table 0) }
        ensures next { IfOk result (λ table. IsNext table 0) }
        ensures sound { IfOk result (λ _. IsSound resolved.now) }
    {
        let processes = resolved.processes() as usize;
        let monitors = resolved.monitors() as usize;
        let components = Runs::new(alloc, processes + monitors)?;
        let cells = Runs::new(alloc, processes + monitors)?;
        Ok(PlaceTable {
            processes,
            monitors,
            components,
            cells,
        })
    }

    /// The places of a program.
    pub fn new(alloc: Global, resolved: &Resolved) -> Result<PlaceTable, AllocError>
        ensures { IfOk result (λ table. IsPlaced resolved.now table) }
    {
        let mut table = PlaceTable::empty(alloc, resolved)?;
        let mut place = 0;
        for component in 0..resolved.components() {
            place = table.add_component(resolved, component, place)?;
        }
        Ok(table)
    }

    // The place of a component of a kind, where that of the one before is known.
    fn place_by(&self, kind: ComponentKind, before: usize) -> usize
        requires before { before < self.now.processes + self.now.monitors }
        requires kind { (r : Tables) × (self.now.processes ≡ length r.processes) × (self.now.monitors ≡ r.monitors) × KindFits r kind }
        ensures { result < self.now.processes + self.now.monitors }
    {
        match kind {
            ComponentKind::Process(process) => process as usize,
            ComponentKind::Monitor(monitor) => self.of_monitor(monitor),
            ComponentKind::Class => before,
        }
    }

    // A place where the next component may be: this one, or that of the one before.
    fn next_place(&self, place: usize, before: usize) -> usize
        requires place { place < self.now.processes + self.now.monitors }
        requires before { IsNext self.now before }
        ensures { IsNext self.now result }
    {
        if self.components.is_open(place) && self.cells.is_open(place) {
            place
        } else {
            before
        }
    }

    // Where the cells of a component and those up to the next one end.
    fn end_of_cells(resolved: &Resolved, component: usize) -> usize
        requires { component < length resolved.now.components }
        ensures { result ≡ cells_before resolved.now (component + 1) }
    {
        let count = resolved.components();
        let next = component + 1;
        if next < count {
            resolved.component(next).base
        } else {
            resolved.permanents().len()
        }
    }

    // One component more, with its cells and those up to the next component. Answers its place.
    fn add_component(
        &mut self,
        resolved: &Resolved,
        component: usize,
        before: usize,
    ) -> Result<usize, AllocError>
        requires component { component < length resolved.now.components }
        requires placed { ArePlacedBelow resolved.now self.old component }
        requires before { IsNext self.old before }
        ensures placed { IfOk result (λ _. ArePlacedBelow resolved.now self.new (component + 1)) }
        ensures next { IfOk result (λ place. IsNext self.new place) }
    {
        let wanted = self.place_by(resolved.component(component).kind, before);
        let place = self.next_place(wanted, before);
        let end = PlaceTable::end_of_cells(resolved, component);
        self.components.push(place)?;
        self.cells.extend(place, end)?;
        Ok(place)
    }

    /// The place of a component.
    #[inline(always)]
    pub fn of_component(&self, component: usize) -> usize
        requires { component < length self.now.components.labels.items }
        ensures value { result ≡ (places_of self.now).of_component component }
        ensures within { result < self.now.processes + self.now.monitors }
    {
        self.components.labels[component]
    }

    /// The place of a permanent cell.
    #[inline(always)]
    pub fn of_cell(&self, cell: usize) -> usize
        ensures value { result ≡ (places_of self.now).of_cell cell }
        ensures within { cell < length self.now.cells.labels.items → result < self.now.processes + self.now.monitors }
    {
        match self.cells.labels.get(cell) {
            Some(place) => *place,
            None => 0,
        }
    }

    /// The place of a monitor.
    #[inline(always)]
    pub fn of_monitor(&self, monitor: u8) -> usize
        ensures { result ≡ (places_of self.now).of_monitor monitor }
    {
        self.processes + monitor as usize
    }

    /// How many places there are.
    #[inline(always)]
    pub fn places(&self) -> usize
        ensures { result ≡ self.now.processes + self.now.monitors }
    {
        self.processes + self.monitors
    }

    /// How many numbers a row has.
    #[inline(always)]
    pub fn width(&self) -> usize
        ensures { result ≡ self.now.processes + 1 + (self.now.processes + self.now.monitors) }
    {
        self.part_position(self.places())
    }

    /// Where the number of the pending monitor stands in a row.
    #[inline(always)]
    pub fn pending_position(&self) -> usize
        ensures { result ≡ self.now.processes }
    {
        self.processes
    }

    /// Where the number of the part of a place stands in a row.
    #[inline(always)]
    pub fn part_position(&self, place: usize) -> usize
        requires { place ≤ self.now.processes + self.now.monitors }
        ensures { result ≡ self.now.processes + 1 + place }
    {
        self.processes + 1 + place
    }
}
