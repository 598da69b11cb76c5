//! A state becomes the one of a row.

ghost use Rattle.std.specs.Prelude.{◌≡◌, ◌+◌, ◌<◌, ◌≤◌, ℕ, length};
ghost use Rattle.cp_states.specs.Numbers.{number_at};
ghost use Rattle.cp_parts.specs.Parts.{body_in, ground_in};
ghost use Rattle.cp_parts.specs.Taken.{IsWritten};

use crate::bodies::{BodyNumbers, BodyStore};
use crate::decoding::{frame_of, holder_of, line_of, option_of, status_of};
use crate::grounds::{Ground, GroundStore};
use crate::placing::PlaceTable;
use crate::span::Span;
use crate::store::PartStore;
use cp_machine::{Gate, Phase, ProcessState, State, take_list};

// The numbers of a part stand in it in this order.
const CELLS: usize = 0;

const BINDINGS: usize = 1;

const PHASES: usize = 2;

const WAITING: usize = 3;

const HOLDER: usize = 4;

const LINE: usize = 5;

const FRAME: usize = 5;

const STACK: usize = 6;

const LOCALS: usize = 7;

const REFERENCES: usize = 8;

// The number of nothing.
const UNKNOWN: u32 = 4_294_967_295;

// The numbers of the longest row.
const LONGEST: usize = 97;

// The longest row of which no number is known.
#[inline(always)]
fn nothing_known() -> [u32; LONGEST]
    ensures long { length result ≡ 97 }
    ensures none { (k : ℕ) → k < 97 → number_at result k ≡ 4294967295 }
{
    [UNKNOWN; LONGEST]
}

// A list has in a span what another one has.
#[inline(always)]
fn take_span<T: Copy>(span: Span, from: &[T], to: &mut [T])
    requires { span.first + length from.now ≤ length to.old }
    ensures { (d : T) → IsWritten d span.first (length from.now) from.now to.old to.new }
{
    for at in 0..from.len() {
        to[span.first + at] = from[at];
    }
}

// The numbers of what a place has, those of a part first.
#[inline(always)]
fn ground_of(part: &[u32]) -> Ground
    requires { 4 ≤ length part.now }
    ensures { result ≡ ground_in part.now }
{
    Ground {
        cells: part[CELLS],
        bindings: part[BINDINGS],
        phases: part[PHASES],
        waiting: part[WAITING],
    }
}

/// The numbers of what a process has beside its status, in a part that has a process.
#[inline(always)]
pub fn body_numbers_of(part: &[u32]) -> BodyNumbers
    requires { length part.now ≡ 9 }
    ensures { result ≡ body_in part.now }
{
    BodyNumbers {
        frame: part[FRAME],
        stack: part[STACK],
        cells: part[LOCALS],
        references: part[REFERENCES],
    }
}

// The numbers of what a monitor has, in a part that has a monitor.
#[derive(Clone, Copy, Drop)]
struct GuardNumbers {
    holder: u32,
    line: u32,
}

#[inline(always)]
fn guard_numbers_of(part: &[u32]) -> GuardNumbers
    requires { length part.now ≡ 6 }
    ensures holder { result.holder ≡ number_at part.now 4 }
    ensures line { result.line ≡ number_at part.now 5 }
{
    GuardNumbers {
        holder: part[HOLDER],
        line: part[LINE],
    }
}

impl GroundStore {
    ghost use Rattle.cp_machine.specs.Machine.{Machine};
    ghost use Rattle.cp_parts.specs.Taken.{AreLaid, CanLay};

    // Permanent cells, bindings and phases become in a place those that have numbers.
    #[inline(always)]
    fn take_ground(
        &self,
        table: &PlaceTable,
        place: usize,
        ground: Ground,
        cells: &mut [i16],
        bindings: &mut [usize],
        phases: &mut [Phase],
    )
        requires { (m : Machine) × CanLay self.now table.now m place ground cells.old bindings.old phases.old }
        ensures { (m : Machine) → CanLay self.now table.now m place ground cells.old bindings.old phases.old → AreLaid table.now (λ x. x ≡ place) m cells.old bindings.old phases.old cells.new bindings.new phases.new }
    {
        let own = table.cells.span(place);
        let within = table.components.span(place);
        take_span(own, self.cells.at(ground.cells as usize), cells);
        take_span(own, self.bindings.at(ground.bindings as usize), bindings);
        take_span(within, self.phases.at(ground.phases as usize), phases);
    }
}

impl BodyStore {
    ghost use Rattle.cp_machine.specs.Bodies.{body_of};
    ghost use Rattle.cp_machine.specs.Machine.{Thread, thread_of};
    ghost use Rattle.cp_parts.specs.Taking.{HasRoomFor, HasRoomOf};
    ghost use Rattle.cp_parts.specs.Parts.{IsBody};

    // A process has the body that has numbers, and keeps its status. There is room for it.
    #[inline(always)]
    fn take_body(&self, body: BodyNumbers, process: &mut ProcessState)
        requires { (t : Thread) × IsBody self.now t body × HasRoomFor process.old t }
        ensures body { (t : Thread) → IsBody self.now t body → body_of (thread_of process.new) ≡ body_of t }
        ensures status { process.new.status ≡ process.old.status }
        ensures room { HasRoomOf process.new process.old }
    {
        process.frame = frame_of(self.frames.at(body.frame as usize));
        take_list(&mut process.stack, self.stacks.at(body.stack as usize));
        take_list(&mut process.room.cells, self.cells.at(body.cells as usize));
        take_list(
            &mut process.room.references,
            self.references.at(body.references as usize),
        );
    }
}

impl PartStore {
    ghost use Rattle.std.specs.Prelude.{◌<◌, ℕ, [], map, slice_index_or};
    ghost use Rattle.cp_slots.specs.Tables.{Tables};
    ghost use Rattle.cp_machine.specs.declared.process.Status.{Status};
    ghost use Rattle.cp_machine.specs.Bodies.{body_of};
    ghost use Rattle.cp_machine.specs.Fits.{IsStateOf};
    ghost use Rattle.cp_machine.specs.Machine.{Machine, Monitor, Thread, machine_of, monitor_of, thread_at, thread_of};
    ghost use Rattle.cp_parts.specs.Taking.{AreTaken, HasRoomFor, HasRoomOf};
    ghost use Rattle.cp_parts.specs.Parts.{IsMonitorPart, IsProcessPart, IsStatusNumber, part_at};
    ghost use Rattle.cp_parts.specs.Taken.{AreLaid, CanLay, CanTake, CanTakeAnew, IsByteStatus};

    // A process has the status of a number, which perhaps is the one that it had.
    #[inline(always)]
    fn take_status(&self, number: u32, known: u32, process: &mut ProcessState)
        requires { (s : Status) × IsStatusNumber self.now s number × IsByteStatus s }
        ensures status { (s : Status) → IsStatusNumber self.now s number → (number ≡ known → process.old.status ≡ s) → process.new.status ≡ s }
        ensures body { body_of (thread_of process.new) ≡ body_of (thread_of process.old) }
        ensures room { HasRoomOf process.new process.old }
    {
        if number == known {
            return;
        }
        process.status = status_of(self.statuses.at(number as usize));
    }

    // A process has the body of a part, which perhaps is the one that it had.
    #[inline(always)]
    fn take_own_body(&self, number: u32, known: u32, process: &mut ProcessState)
        requires within { number < length self.now.parts.ends.items }
        requires part { (t : Thread) × IsProcessPart self.now t (part_at self.now number) × HasRoomFor process.old t }
        ensures body { (t : Thread) → IsProcessPart self.now t (part_at self.now number) → (number ≡ known → body_of (thread_of process.old) ≡ body_of t) → body_of (thread_of process.new) ≡ body_of t }
        ensures status { process.new.status ≡ process.old.status }
        ensures room { HasRoomOf process.new process.old }
    {
        if number == known {
            return;
        }
        let part = self.parts.at(number as usize);
        self.bodies.take_body(body_numbers_of(part), process);
    }

    // A process becomes the one of a row.
    #[inline(always)]
    fn take_process(
        &self,
        table: &PlaceTable,
        row: &[u32],
        known: &[u32],
        at: usize,
        process: &mut ProcessState,
    )
        requires at { at < table.now.processes }
        requires can { (r : Tables) × (m : Machine) × (n : Machine) × CanTake r self.now table.now row.now known.now m n × HasRoomFor process.old (thread_at m.threads at) }
        ensures same { (r : Tables) (m n : Machine) → CanTake r self.now table.now row.now known.now m n → thread_of process.old ≡ thread_at n.threads at → thread_of process.new ≡ thread_at m.threads at }
        ensures room { HasRoomOf process.new process.old }
    {
        let part = table.part_position(at);
        self.take_own_body(row[part], known[part], process);
        self.take_status(row[at], known[at], process);
    }

    // Processes become those of a row.
    fn take_processes(
        &self,
        table: &PlaceTable,
        row: &[u32],
        known: &[u32],
        processes: &mut [ProcessState],
    )
        requires count { length processes.old ≡ table.now.processes }
        requires can { (r : Tables) × (m : Machine) × (n : Machine) × CanTake r self.now table.now row.now known.now m n × ((q : ℕ) (d : ProcessState) → q < length processes.old → HasRoomFor (slice_index_or processes.old q d) (thread_at m.threads q)) }
        ensures { (r : Tables) (m n : Machine) → CanTake r self.now table.now row.now known.now m n → map thread_of processes.old ≡ n.threads → AreTaken (λ q. thread_at m.threads q) processes.old processes.new (length processes.old) }
    {
        for at in 0..processes.len() {
            self.take_process(table, row, known, at, &mut processes[at]);
        }
    }

    // A monitor becomes the one of a part, which perhaps is the one that it was.
    #[inline(always)]
    fn take_guard(&self, number: u32, known: u32, guard: &mut Gate)
        requires within { number < length self.now.parts.ends.items }
        requires part { (x : Monitor) × IsMonitorPart self.now x (part_at self.now number) × (length x.line ≤ 16) }
        ensures { (x : Monitor) → IsMonitorPart self.now x (part_at self.now number) → (number ≡ known → monitor_of guard.old ≡ x) → monitor_of guard.new ≡ x }
    {
        if number == known {
            return;
        }
        let numbers = guard_numbers_of(self.parts.at(number as usize));
        guard.holder = holder_of(self.lines.at(numbers.holder as usize));
        guard.line = line_of(self.lines.at(numbers.line as usize));
    }

    // Monitors become those of a row.
    fn take_guards(&self, table: &PlaceTable, row: &[u32], known: &[u32], guards: &mut [Gate])
        requires count { length guards.old ≡ table.now.monitors }
        requires can { (r : Tables) × (m : Machine) × (n : Machine) × CanTake r self.now table.now row.now known.now m n }
        ensures { (r : Tables) (m n : Machine) → CanTake r self.now table.now row.now known.now m n → map monitor_of guards.old ≡ n.monitors → map monitor_of guards.new ≡ m.monitors }
    {
        for at in 0..guards.len() {
            let part = table.part_position(table.processes + at);
            self.take_guard(row[part], known[part], &mut guards[at]);
        }
    }

    // Lists become in a place those of a part, which perhaps is the one that they had there.
    #[inline(always)]
    fn take_place(
        &self,
        table: &PlaceTable,
        place: usize,
        number: u32,
        known: u32,
        cells: &mut [i16],
        bindings: &mut [usize],
        phases: &mut [Phase],
    )
        requires within { number < length self.now.parts.ends.items }
        requires long { 4 ≤ length (part_at self.now number) }
        requires can { (m : Machine) × CanLay self.now.grounds table.now m place (ground_in (part_at self.now number)) cells.old bindings.old phases.old }
        ensures { (m : Machine) → CanLay self.now.grounds table.now m place (ground_in (part_at self.now number)) cells.old bindings.old phases.old → (number ≡ known → AreLaid table.now (λ x. x ≡ place) m cells.old bindings.old phases.old cells.old bindings.old phases.old) → AreLaid table.now (λ x. x ≡ place) m cells.old bindings.old phases.old cells.new bindings.new phases.new }
    {
        if number == known {
            return;
        }
        let part = self.parts.at(number as usize);
        self.grounds
            .take_ground(table, place, ground_of(part), cells, bindings, phases);
    }

    // Permanent cells, bindings and phases become those of a row.
    fn take_places(
        &self,
        table: &PlaceTable,
        row: &[u32],
        known: &[u32],
        cells: &mut [i16],
        bindings: &mut [usize],
        phases: &mut [Phase],
    )
        requires { (r : Tables) × (m : Machine) × (n : Machine) × CanTake r self.now table.now row.now known.now m n × (cells.old ≡ n.permanents) × (bindings.old ≡ n.bindings) × (phases.old ≡ n.phases) }
        ensures { (r : Tables) (m n : Machine) → CanTake r self.now table.now row.now known.now m n → cells.old ≡ n.permanents → bindings.old ≡ n.bindings → phases.old ≡ n.phases → (cells.new ≡ m.permanents) × (bindings.new ≡ m.bindings) × (phases.new ≡ m.phases) }
    {
        for place in 0..table.places() {
            let part = table.part_position(place);
            self.take_place(
                table,
                place,
                row[part],
                known[part],
                cells,
                bindings,
                phases,
            );
        }
    }

    /// A state becomes the one of the same program that has a row, and displays nothing. Of its own row some numbers are known: where the
    /// row has them, nothing is written. It takes no memory.
    pub fn take_row(&self, table: &PlaceTable, row: &[u32], known: &[u32], state: &mut State)
        requires own { (r : Tables) × (m : Machine) × IsStateOf r state.old × CanTake r self.now table.now row.now known.now m (machine_of state.old) }
        ensures same { (r : Tables) (m : Machine) → IsStateOf r state.old → CanTake r self.now table.now row.now known.now m (machine_of state.old) → m.output ≡ [] → m.discipline ≡ state.old.discipline → machine_of state.new ≡ m }
        ensures own { (r : Tables) (m : Machine) → IsStateOf r state.old → CanTake r self.now table.now row.now known.now m (machine_of state.old) → m.output ≡ [] → m.discipline ≡ state.old.discipline → IsStateOf r state.new }
    {
        self.take_places(
            table,
            row,
            known,
            &mut state.permanents,
            &mut state.bindings,
            &mut state.phases,
        );
        self.take_processes(table, row, known, &mut state.processes);
        self.take_guards(table, row, known, &mut state.guards);
        state.pending = option_of(row[table.pending_position()]);
        state.output.clear();
    }
    /// The same of a state of whose row nothing is known.
    pub fn take_row_anew(&self, table: &PlaceTable, row: &[u32], state: &mut State)
        requires own { (r : Tables) × (m : Machine) × IsStateOf r state.old × CanTakeAnew r self.now table.now row.now m }
        ensures same { (r : Tables) (m : Machine) → IsStateOf r state.old → CanTakeAnew r self.now table.now row.now m → m.output ≡ [] → m.discipline ≡ state.old.discipline → machine_of state.new ≡ m }
        ensures own { (r : Tables) (m : Machine) → IsStateOf r state.old → CanTakeAnew r self.now table.now row.now m → m.output ≡ [] → m.discipline ≡ state.old.discipline → IsStateOf r state.new }
    {
        let known = nothing_known();
        self.take_row(table, row, &known, state);
    }
}
