//! What the next step of a process may touch, noted before it is taken.

ghost use Rattle.std.specs.Prelude.{◌≡◌, ◌+◌, ◌<◌, ◌^◌, ◌∷◌, ℕ, length, true};
ghost use Rattle.cp_slots.specs.Fits.{KindFits};
ghost use Rattle.cp_slots.specs.Tables.{Tables, item_at};
ghost use Rattle.cp_store.specs.declared.memory.Frame.{Frame};
ghost use Rattle.cp_machine.specs.Fits.{IsStateOf};
ghost use Rattle.cp_machine.specs.Machine.{is_ready, machine_of, thread_at, under, is_unstarted};
ghost use Rattle.cp_machine.specs.Reach.{IsBehind, NamesOwner, frame_at};
ghost use Rattle.cp_machine.specs.Stack.{from_end};
ghost use Rattle.cp_effect_laws.specs.Touches.{HasAt, HasComponent, HasEnd, HasFrom, HasNamed, HasStep, HasTarget, HasTop};
ghost use Rattle.cp_parts.specs.Placed.{IsPlaced, places_of};
ghost use Rattle.cp_effects.specs.Noting.{KeepNoted, among};
ghost use Rattle.cp_effects.specs.Touching.{HasBehind, IsOwnOrUnstarted, MayTouch, noted_by};

use crate::reading::{end_of, frame_of, named_component, reference_of, status_of, top_of};
use crate::touched::Touched;
use cp_machine::{Entry, State, Status};
use cp_parts::PlaceTable;
use cp_slots::{Action, ComponentKind, ComponentPlace, Resolved};
use cp_store::Address;

/// Notes the places that the next step of a process may touch. Tells whether there was room for all of them, and nobody but the process and those who are
/// not started is among them.
pub fn touch_step(
    program: &Resolved,
    table: &PlaceTable,
    state: &State,
    pid: u8,
    touched: &mut Touched,
) -> bool
    requires own { IsStateOf program.now state.now }
    requires pid { pid < length state.now.processes.items }
    requires ready { is_ready (machine_of state.now) pid ≡ true }
    requires placed { IsPlaced program.now table.now }
    ensures step { result ≡ true → HasStep (noted_by (places_of table.now) touched.new.places.items (machine_of state.now) pid) program.now (machine_of state.now) pid }
    ensures kept { KeepNoted touched.old.places.items touched.new.places.items }
{
    let frame = frame_of(state, pid);
    if !touch_component(program, table, state, pid, frame.component, touched) {
        return false;
    }
    if !touch_parameters(program, table, state, pid, touched) {
        return false;
    }
    if !touch_end(table, state, pid, touched) {
        return false;
    }
    touch_top(program, table, state, pid, touched)
}

// A component that the process executes, calls or starts.
fn touch_component(
    program: &Resolved,
    table: &PlaceTable,
    state: &State,
    pid: u8,
    component: usize,
    touched: &mut Touched,
) -> bool
    requires own { IsStateOf program.now state.now }
    requires pid { pid < length state.now.processes.items }
    requires placed { IsPlaced program.now table.now }
    requires component { component < length program.now.components }
    ensures component { result ≡ true → HasComponent (noted_by (places_of table.now) touched.new.places.items (machine_of state.now) pid) program.now component }
    ensures kept { KeepNoted touched.old.places.items touched.new.places.items }
{
    if !touched.add(table.of_component(component)) {
        return false;
    }
    let kind = program.component(component).kind;
    touch_kind(table, state, pid, kind, touched)
}

// The monitor or the process that a component is.
fn touch_kind(
    table: &PlaceTable,
    state: &State,
    pid: u8,
    kind: ComponentKind,
    touched: &mut Touched,
) -> bool
    requires { (r : Tables) × IsStateOf r state.now × KindFits r kind }
    ensures may { result ≡ true → MayTouch table.now touched.new.places.items (machine_of state.now) pid kind }
    ensures kept { KeepNoted touched.old.places.items touched.new.places.items }
{
    match kind {
        ComponentKind::Process(number) => { touch_process(state, pid, number, touched) }
        ComponentKind::Monitor(number) => touched.add(table.of_monitor(number)),
        ComponentKind::Class => true,
    }
}

// A process: the one that steps, or one that is not started.
fn touch_process(state: &State, pid: u8, number: u8, touched: &mut Touched) -> bool
    requires { number < length state.now.processes.items }
    ensures may { result ≡ true → IsOwnOrUnstarted touched.new.places.items (machine_of state.now) pid number }
    ensures kept { KeepNoted touched.old.places.items touched.new.places.items }
{
    if number == pid {
        return true;
    }
    touch_unstarted(state, number, touched)
}

// A process that is not started.
fn touch_unstarted(state: &State, number: u8, touched: &mut Touched) -> bool
    requires { number < length state.now.processes.items }
    ensures unstarted { result ≡ true → is_unstarted (thread_at (machine_of state.now).threads number).status ≡ true }
    ensures noted { result ≡ true → among touched.new.places.items number ≡ true }
    ensures kept { KeepNoted touched.old.places.items touched.new.places.items }
{
    match status_of(state, number as usize) {
        Status::Unstarted => touched.add(number as usize),
        Status::Ready | Status::AtGate(_) | Status::Delayed(_) | Status::Ended => false,
    }
}

// What the `var` parameters of the innermost call name.
fn touch_parameters(
    program: &Resolved,
    table: &PlaceTable,
    state: &State,
    pid: u8,
    touched: &mut Touched,
) -> bool
    requires own { IsStateOf program.now state.now }
    requires pid { pid < length state.now.processes.items }
    requires placed { IsPlaced program.now table.now }
    ensures behind { result ≡ true → HasBehind (λ k. among touched.new.places.items ((places_of table.now).of_cell k)) program.now (thread_at (machine_of state.now).threads pid).references (frame_at (machine_of state.now) pid) }
    ensures kept { KeepNoted touched.old.places.items touched.new.places.items }
{
    let frame = frame_of(state, pid);
    let extents = program.routine(frame.routine).extents.as_slice();
    for number in 0..extents.len() {
        let address = reference_of(state, pid, number);
        if !touch_cells(table, address, extents[number], touched) {
            return false;
        }
    }
    true
}

// So many cells from an address on.
fn touch_cells(table: &PlaceTable, address: Address, cells: usize, touched: &mut Touched) -> bool
    requires { (r : Tables) × (f : Frame) × IsBehind r f address cells × (length r.permanents < 2 ^ 64) }
    ensures cells { result ≡ true → HasAt (λ k. among touched.new.places.items ((places_of table.now).of_cell k)) address cells }
    ensures kept { KeepNoted touched.old.places.items touched.new.places.items }
{
    match address {
        Address::Permanent(first) => touch_permanents(table, first, cells, touched),
        Address::Local(_) => true,
    }
}

fn touch_permanents(table: &PlaceTable, first: usize, cells: usize, touched: &mut Touched) -> bool
    requires { first + cells < 2 ^ 64 }
    ensures cells { result ≡ true → HasFrom (λ k. among touched.new.places.items ((places_of table.now).of_cell k)) first cells }
    ensures kept { KeepNoted touched.old.places.items touched.new.places.items }
{
    for cell in first..first + cells {
        if !touched.add(table.of_cell(cell)) {
            return false;
        }
    }
    true
}

// What the end of the innermost call or initial statement changes.
fn touch_end(table: &PlaceTable, state: &State, pid: u8, touched: &mut Touched) -> bool
    requires own { (r : Tables) × IsStateOf r state.now × IsPlaced r table.now }
    requires pid { pid < length state.now.processes.items }
    ensures end { result ≡ true → HasEnd (noted_by (places_of table.now) touched.new.places.items (machine_of state.now) pid) (from_end (thread_at (machine_of state.now).threads pid).stack) }
    ensures kept { KeepNoted touched.old.places.items touched.new.places.items }
{
    match end_of(state, pid) {
        Some(Entry::Return(_, _, Some(monitor))) => touched.add(table.of_monitor(monitor)),
        Some(Entry::InitEnd(_, component)) => touched.add(table.of_component(component)),
        Some(Entry::Return(_, _, None)) => true,
        Some(Entry::Rest(_)) | Some(Entry::Successor(_, _, _)) | None => true,
    }
}

// What the topmost item calls or starts.
fn touch_top(
    program: &Resolved,
    table: &PlaceTable,
    state: &State,
    pid: u8,
    touched: &mut Touched,
) -> bool
    requires own { IsStateOf program.now state.now }
    requires pid { pid < length state.now.processes.items }
    requires placed { IsPlaced program.now table.now }
    requires ready { is_ready (machine_of state.now) pid ≡ true }
    ensures top { result ≡ true → HasTop (noted_by (places_of table.now) touched.new.places.items (machine_of state.now) pid) program.now (machine_of state.now) pid (thread_at (machine_of state.now).threads pid).stack }
    ensures kept { KeepNoted touched.old.places.items touched.new.places.items }
{
    match top_of(state, pid) {
        Some(Entry::Rest(at)) => touch_item(program, table, state, pid, at, touched),
        Some(Entry::Successor(_, _, _)) | None => true,
        Some(Entry::Return(_, _, _)) | Some(Entry::InitEnd(_, _)) => true,
    }
}

fn touch_item(
    program: &Resolved,
    table: &PlaceTable,
    state: &State,
    pid: u8,
    at: usize,
    touched: &mut Touched,
) -> bool
    requires own { IsStateOf program.now state.now }
    requires pid { pid < length state.now.processes.items }
    requires ready { is_ready (machine_of state.now) pid ≡ true }
    requires placed { IsPlaced program.now table.now }
    requires top { (thread_at (machine_of state.now).threads pid).stack ≡ Entry.Rest at ∷ under (machine_of state.now) pid }
    ensures named { result ≡ true → HasNamed (noted_by (places_of table.now) touched.new.places.items (machine_of state.now) pid) program.now (machine_of state.now) pid (item_at program.now at).action }
    ensures kept { KeepNoted touched.old.places.items touched.new.places.items }
{
    match &program.item(at).action {
        Action::Call { component, .. } => {
            touch_target(program, table, state, pid, component, touched)
        }
        Action::Start { component, .. } => {
            touch_target(program, table, state, pid, component, touched)
        }
        _ => true,
    }
}

fn touch_target(
    program: &Resolved,
    table: &PlaceTable,
    state: &State,
    pid: u8,
    place: &ComponentPlace,
    touched: &mut Touched,
) -> bool
    requires own { IsStateOf program.now state.now }
    requires pid { pid < length state.now.processes.items }
    requires placed { IsPlaced program.now table.now }
    requires owner { (routine : ℕ) × NamesOwner program.now (machine_of state.now) pid routine place.now }
    ensures target { result ≡ true → HasTarget (noted_by (places_of table.now) touched.new.places.items (machine_of state.now) pid) program.now (machine_of state.now) pid place.now }
    ensures kept { KeepNoted touched.old.places.items touched.new.places.items }
{
    match named_component(state, pid, place) {
        Ok(component) => touch_component(program, table, state, pid, component, touched),
        Err(_) => true,
    }
}
