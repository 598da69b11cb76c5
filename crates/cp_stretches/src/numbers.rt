//! What comes next, by the numbers that the statuses of a row have.

ghost use Rattle.std.specs.Prelude.{◌≡◌, ◌+◌, ◌<◌, ◌==◌, ◌≤◌, ℕ, false, true, if◌then◌else◌, IfOk, length};
ghost use Rattle.std.specs.List.{filter, range_with_len};
ghost use Rattle.cp_slots.specs.Tables.{Tables};
ghost use Rattle.cp_machine.specs.declared.discipline.Discipline.{Discipline};
ghost use Rattle.cp_machine.specs.declared.process.Status.{Status};
ghost use Rattle.cp_machine.specs.Machine as spec;
ghost use Rattle.cp_machine.specs.Machine.{Machine};
ghost use Rattle.cp_machine.specs.Step.{is_local};
ghost use Rattle.cp_run.specs.Run as run;
ghost use Rattle.cp_run.specs.Slots.{processes_of, slots};
ghost use Rattle.cp_states.specs.Numbers.{number_at};
ghost use Rattle.cp_parts.specs.declared.store.PartStore.{PartStore};
ghost use Rattle.cp_parts.specs.Coded.{option_code};
ghost use Rattle.cp_parts.specs.Parts.{IsStatusNumber, KeepStore};
ghost use Rattle.cp_stretches.specs.Numbers.{AreStatusNumbers, CanRead, rests_at};

use arrayvec::ArrayVec;
use cp_machine::{Event, Readiness, Status};
use cp_parts::decoding::option_of;
use cp_parts::{PartStore, PlaceTable};
use cp_run::{OutcomeKind, Turn};
use std::alloc::{AllocError, Global};

/// The numbers that statuses have in a store.
#[derive(Drop)]
pub struct StatusNumbers {
    pub ready: u32,
    pub unstarted: u32,
    pub ended: u32,
    /// By the monitor at whose gate a process waits.
    pub at_gate: Vec<u32>,
}

// The numbers of those who wait at the gate of each monitor.
fn gate_numbers(
    alloc: Global,
    table: &PlaceTable,
    store: &mut PartStore,
) -> Result<Vec<u32>, AllocError>
    ensures long { IfOk result (λ numbers. length numbers.items ≡ table.now.monitors) }
    ensures each { IfOk result (λ numbers. (monitor : ℕ) → monitor < table.now.monitors → IsStatusNumber store.new (Status.AtGate monitor) (number_at numbers.items monitor)) }
    ensures kept { KeepStore store.old store.new }
{
    let mut numbers = Vec::new(alloc);
    for monitor in 0..table.monitors {
        let number = store.number_status(alloc, Status::AtGate(monitor as u8))?;
        numbers.push(number)?;
    }
    Ok(numbers)
}

// Whether the status of a process has this number.
#[inline(always)]
fn has_number(row: &[u32], process: usize, number: u32) -> bool
    requires { process < length row.now }
    ensures { result ≡ (number_at row.now process == number) }
{
    row[process] == number
}

/// Whether no monitor is pending in the state of a row.
#[inline(always)]
pub fn is_free(table: &PlaceTable, row: &[u32]) -> bool
    requires { table.now.processes < length row.now }
    ensures { result ≡ (number_at row.now table.now.processes == 0) }
{
    row[table.pending_position()] == 0
}

/// The monitor that is pending in the state of a row.
#[inline(always)]
pub fn pending_monitor(table: &PlaceTable, row: &[u32]) -> Option<u8>
    requires long { table.now.processes < length row.now }
    requires few { number_at row.now table.now.processes ≤ 256 }
    ensures { option_code result ≡ number_at row.now table.now.processes }
{
    option_of(row[table.pending_position()])
}

// One process more is ready.
#[inline(always)]
fn one_more(readiness: Readiness, process: u8) -> Readiness
    ensures { result ≡ spec.one_ready_more readiness process }
{
    match readiness {
        Readiness::Nobody => Readiness::One(process),
        Readiness::One(_) | Readiness::Several => Readiness::Several,
    }
}

impl StatusNumbers {
    /// The numbers that a store gives.
    pub fn new(
        alloc: Global,
        table: &PlaceTable,
        store: &mut PartStore,
    ) -> Result<StatusNumbers, AllocError>
        ensures numbers { IfOk result (λ numbers. AreStatusNumbers store.new table.now.monitors numbers) }
        ensures kept { KeepStore store.old store.new }
    {
        let unstarted = store.number_status(alloc, Status::Unstarted)?;
        let ended = store.number_status(alloc, Status::Ended)?;
        let at_gate = gate_numbers(alloc, table, store)?;
        Ok(StatusNumbers {
            ready: store.ready,
            unstarted,
            ended,
            at_gate,
        })
    }

    // Whether no process has the number, one alone, or several.
    #[inline(always)]
    fn readiness(&self, table: &PlaceTable, row: &[u32]) -> Readiness
        requires { table.now.processes < length row.now }
        ensures { result ≡ spec.readiness_of (filter (λ q. number_at row.now q == self.now.ready) (range_with_len 0 table.now.processes)) }
    {
        let mut readiness = Readiness::Nobody;
        for process in 0..table.processes {
            if has_number(row, process, self.ready) {
                readiness = one_more(readiness, process as u8);
            }
            if let Readiness::Several = readiness {
                return Readiness::Several;
            }
        }
        readiness
    }

    /// Whether it is the number of a status in which a process neither is at a gate nor delayed.
    #[inline(always)]
    pub fn rests(&self, number: u32) -> bool
        ensures { result ≡ rests_at self.now number }
    {
        number == self.ready || number == self.unstarted || number == self.ended
    }

    // Whether some process is at a gate or delayed.
    fn waits(&self, table: &PlaceTable, row: &[u32]) -> bool
        requires { table.now.processes < length row.now }
        ensures { (r : Tables) (s : PartStore) (m : Machine) → CanRead r s table.now self.now m row.now → result ≡ spec.waits m }
    {
        for process in 0..table.processes {
            if !self.rests(row[process]) {
                return true;
            }
        }
        false
    }

    // How a run ends in which nobody is ready.
    fn end(&self, table: &PlaceTable, row: &[u32]) -> Turn
        requires { table.now.processes < length row.now }
        ensures { (r : Tables) (s : PartStore) (m : Machine) → CanRead r s table.now self.now m row.now → result ≡ (if spec.waits m then Turn.Over OutcomeKind.AllWaiting else Turn.Over OutcomeKind.Finished) }
    {
        if self.waits(table, row) {
            Turn::Over(OutcomeKind::AllWaiting)
        } else {
            Turn::Over(OutcomeKind::Finished)
        }
    }

    /// What comes next where nothing is pending and the last step was a kernel call, or a process was let in.
    #[inline(always)]
    pub fn settled_turn(&self, table: &PlaceTable, row: &[u32]) -> Turn
        requires { table.now.processes < length row.now }
        ensures { (r : Tables) (s : PartStore) (m : Machine) (discipline : Discipline) (process : ℕ) → CanRead r s table.now self.now m row.now → result ≡ run.settled_turn (slots r discipline) m true process }
    {
        match self.readiness(table, row) {
            Readiness::Nobody => self.end(table, row),
            Readiness::One(process) => Turn::Goes(process),
            Readiness::Several => Turn::Due,
        }
    }

    // What comes next where the last step was a kernel call, or a process ended.
    #[inline(always)]
    fn turn_at(&self, table: &PlaceTable, row: &[u32]) -> Turn
        requires { table.now.processes < length row.now }
        ensures { (r : Tables) (s : PartStore) (m : Machine) (discipline : Discipline) (process : ℕ) → CanRead r s table.now self.now m row.now → result ≡ run.turn_at (slots r discipline) m true process }
    {
        if is_free(table, row) {
            self.settled_turn(table, row)
        } else {
            Turn::Due
        }
    }

    /// What comes after the last step of a leg of a process, which is not local and came to the state of this row.
    #[inline(always)]
    pub fn turn_after(&self, table: &PlaceTable, row: &[u32], process: u8, event: Event) -> Turn
        requires { table.now.processes < length row.now }
        ensures { (r : Tables) (s : PartStore) (m : Machine) (discipline : Discipline) → CanRead r s table.now self.now m row.now → is_local event ≡ false → result ≡ run.turn_after (slots r discipline) m process event }
    {
        match event {
            Event::Local => Turn::Goes(process),
            Event::Kernel(_) => self.turn_at(table, row),
            Event::Ended => self.turn_at(table, row),
            Event::Fault(error) => Turn::Over(OutcomeKind::RunError {
                name: error.name,
                process: error.process,
                line: error.line,
            }),
            Event::OutputFull => Turn::Over(OutcomeKind::OutputLimit),
        }
    }

    // The number that the status of those has who may be chosen.
    fn wanted(&self, table: &PlaceTable, row: &[u32]) -> u32
        requires { (r : Tables) × (s : PartStore) × (m : Machine) × CanRead r s table.now self.now m row.now }
        ensures ready { number_at row.now table.now.processes ≡ 0 → result ≡ self.now.ready }
        ensures gate { (monitor : ℕ) → number_at row.now table.now.processes ≡ monitor + 1 → result ≡ number_at self.now.at_gate.items monitor }
    {
        let pending = row[table.pending_position()];
        if pending == 0 {
            return self.ready;
        }
        self.at_gate[pending as usize - 1]
    }

    /// The processes that a due choice may take, in rising order: the line of the pending monitor, or the ready processes.
    pub fn candidates(&self, table: &PlaceTable, row: &[u32]) -> ArrayVec<u8, 16>
        requires { (r : Tables) × (s : PartStore) × (m : Machine) × CanRead r s table.now self.now m row.now }
        ensures { (r : Tables) (s : PartStore) (m : Machine) (discipline : Discipline) → CanRead r s table.now self.now m row.now → result.items ≡ run.those_below (processes_of r) (run.may (slots r discipline) m) }
    {
        those_with(table, row, self.wanted(table, row))
    }
}

// The processes whose statuses have this number, in rising order.
fn those_with(table: &PlaceTable, row: &[u32], wanted: u32) -> ArrayVec<u8, 16>
    requires few { table.now.processes ≤ 16 }
    requires long { table.now.processes < length row.now }
    ensures { result.items ≡ filter (λ q. number_at row.now q == wanted) (range_with_len 0 table.now.processes) }
{
    let mut those = ArrayVec::new();
    for process in 0..table.processes {
        if has_number(row, process, wanted) {
            those.push(process as u8);
        }
    }
    those
}
