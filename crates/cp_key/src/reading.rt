//! The state that has a key.

ghost use Rattle.std.specs.Prelude.{◌≡◌, ◌+◌, ◌<◌, ◌≤◌, ◌++◌, ℕ, List, length, map, slice_index_or, true, false, vec_capacity, vec_len};
ghost use Rattle.std.specs.List.{flat_map};
ghost use Rattle.cp_slots.specs.Tables.{Tables};
ghost use Rattle.cp_machine.specs.Bodies.{body_of, has_moved, KeepBodies};
ghost use Rattle.cp_machine.specs.Fits.{HaveCells, HaveReferences, HaveStacks, IsReserved, IsStateOf};
ghost use Rattle.cp_machine.specs.Machine.{Machine, Monitor, Thread, machine_of, monitor_of, thread_at, thread_of};
ghost use Rattle.cp_key.specs.Key.{body_key, key_of, monitor_key, status_key, threads_key};
ghost use Rattle.cp_key.specs.Known.{AreBodies, AreBodiesIn, AreKeyOf, ArePartsOf, AreSameInside, KeepUnmoved, TellsItsEnd, inside};
ghost use Rattle.cp_key.specs.Numbers.{byte_key, integer_key, list_key, number_key};
ghost use Rattle.cp_key.specs.Room.{AreShort, HasMachineRoom, HasThreadRoom, HaveThreadRoom, IsMachineOf};

use crate::bodies::{Bodies, Parts};
use crate::keyed::{Keyed, thaw_list, thaw_numbers};
use crate::reader::KeyReader;
use arrayvec::ArrayVec;
use cp_machine::{Discipline, Gate, MOST_SHOWN, Moved, ProcessState, State, Status, Watch};
use cp_store::Frame;

/// A state becomes the one of the same program that has a key. It takes no memory. Answers the parts that are in the key. Those that
/// are known of the state so far are passed over where the key has the same. The processes whose bodies are not are added to those that
/// moved.
pub fn thaw<'a>(key: &'a [u8], known: &Parts<'a>, state: &mut State, moved: &mut Moved) -> Parts<'a>
    requires key { (r : Tables) × (m : Machine) × IsStateOf r state.old × IsMachineOf r m × (key.now ≡ key_of m) }
    requires known { ArePartsOf known.now (machine_of state.old) }
    ensures same { (m : Machine) → key.now ≡ key_of m → machine_of state.new ≡ m }
    ensures parts { ArePartsOf result (machine_of state.new) }
    ensures all { length result.bodies.rests.items ≡ length (machine_of state.new).threads + 1 }
    ensures kept { (other : Machine) → KeepBodies (has_moved moved.old) (machine_of state.old) other → KeepBodies (has_moved moved.new) (machine_of state.new) other }
    ensures own { (r : Tables) (m : Machine) → IsStateOf r state.old → IsMachineOf r m → key.now ≡ key_of m → IsStateOf r state.new }
{
    thaw_state(&mut KeyReader { bytes: key }, known, state, moved)
}

#[inline(always)]
fn thaw_state<'a>(
    key: &mut KeyReader<'a>,
    known: &Parts<'a>,
    state: &mut State,
    moved: &mut Moved,
) -> Parts<'a>
    requires permanents { AreKeyOf integer_key known.now.permanents.now state.old.permanents.items }
    requires bindings { AreKeyOf number_key known.now.bindings.now state.old.bindings.items }
    requires bodies { AreBodiesIn known.now.bodies state.old.processes.items }
    ensures same { (m : Machine) (more : List ℕ) → key.old.bytes.now ≡ key_of m ++ more → HasMachineRoom state.old m → (machine_of state.new ≡ m) × ArePartsOf result m }
    ensures count { length state.new.processes.items ≡ length state.old.processes.items }
    ensures all { length result.bodies.rests.items ≡ length state.old.processes.items + 1 }
    ensures kept { KeepUnmoved moved.old moved.new state.old.processes.items state.new.processes.items }
    ensures reserved { (r : Tables) → IsReserved r state.old → vec_len state.new.output ≤ MOST_SHOWN → IsReserved r state.new }
{
    thaw_list(key, &mut state.output);
    let permanents = thaw_same(key, known.permanents, &mut state.permanents);
    let bindings = thaw_same(key, known.bindings, &mut state.bindings);
    thaw_numbers(key, &mut state.phases);
    let bodies = thaw_processes(key, &known.bodies, &mut state.processes, moved);
    thaw_guards(key, &mut state.guards);
    state.pending = Option::thaw(key);
    state.discipline = Discipline::thaw(key);
    Parts {
        permanents,
        bindings,
        bodies,
    }
}

// The list of numbers whose key is next, which is passed over where it is the known one. Answers its key.
#[inline(always)]
fn thaw_same<'a, T: Keyed>(key: &mut KeyReader<'a>, known: &'a [u8], list: &mut Vec<T>) -> &'a [u8]
    requires known { AreKeyOf T.key_of known.now list.old.items }
    requires ends { TellsItsEnd T.key_of }
    ensures list { (xs : List T) (more : List ℕ) → key.old.bytes.now ≡ list_key T.key_of xs ++ more → length xs ≤ vec_capacity list.old → (list.new.items ≡ xs) × (key.new.bytes.now ≡ more) × AreKeyOf T.key_of result.now xs }
    ensures room { vec_capacity list.old ≤ vec_capacity list.new }
{
    if thaw_known(key, known) {
        return known;
    }
    let all = key.bytes;
    thaw_numbers(key, list);
    let (bytes, _) = all.split_at(all.len().saturating_sub(key.bytes.len()));
    bytes
}

#[inline(always)]
fn thaw_processes<'a>(
    key: &mut KeyReader<'a>,
    known: &Bodies,
    processes: &mut [ProcessState],
    moved: &mut Moved,
) -> Bodies<'a>
    requires few { length processes.old ≤ 16 }
    requires known { AreBodiesIn known.now processes.old }
    ensures same { (ts : List Thread) (more : List ℕ) → key.old.bytes.now ≡ threads_key ts ++ more → HaveThreadRoom processes.old ts → (map thread_of processes.new ≡ ts) × (key.new.bytes.now ≡ more) × AreBodies result ts }
    ensures all { length result.rests.items ≡ length processes.old + 1 }
    ensures kept { KeepUnmoved moved.old moved.new processes.old processes.new }
    ensures stacks { (depth : ℕ) → HaveStacks depth processes.old → HaveStacks depth processes.new }
    ensures cells { (cells : ℕ) → HaveCells cells processes.old → HaveCells cells processes.new }
    ensures references { (references : ℕ) → HaveReferences references processes.old → HaveReferences references processes.new }
{
    thaw_statuses(key, processes);
    thaw_bodies(key, known, processes, moved)
}

#[inline(always)]
fn thaw_statuses(key: &mut KeyReader, processes: &mut [ProcessState])
    ensures same { (ts : List Thread) (more : List ℕ) → key.old.bytes.now ≡ list_key (λ t. status_key t.status) ts ++ more → length ts ≡ length processes.old → ((q : ℕ) (d : ProcessState) → q < length processes.old → (slice_index_or processes.new q d).status ≡ (thread_at ts q).status) × (key.new.bytes.now ≡ more) }
    ensures insides { (q : ℕ) (d : ProcessState) → AreSameInside (slice_index_or processes.new q d) (slice_index_or processes.old q d) }
{
    let _ = usize::thaw(key);
    for at in 0..processes.len() {
        processes[at].status = Status::thaw(key);
    }
}

// Each body that is the known one is passed over, and the others are read.
#[inline(always)]
fn thaw_bodies<'a>(
    key: &mut KeyReader<'a>,
    known: &Bodies,
    processes: &mut [ProcessState],
    moved: &mut Moved,
) -> Bodies<'a>
    requires few { length processes.old ≤ 16 }
    requires known { AreBodiesIn known.now processes.old }
    ensures same { (ts : List Thread) (more : List ℕ) → key.old.bytes.now ≡ flat_map (λ t. body_key (body_of t)) ts ++ more → HaveThreadRoom processes.old ts → ((q : ℕ) (d : ProcessState) → q < length processes.old → inside (slice_index_or processes.new q d) ≡ body_of (thread_at ts q)) × (key.new.bytes.now ≡ more) × AreBodies result ts }
    ensures statuses { (q : ℕ) (d : ProcessState) → (slice_index_or processes.new q d).status ≡ (slice_index_or processes.old q d).status }
    ensures all { length result.rests.items ≡ length processes.old + 1 }
    ensures kept { KeepUnmoved moved.old moved.new processes.old processes.new }
    ensures stacks { (depth : ℕ) → HaveStacks depth processes.old → HaveStacks depth processes.new }
    ensures cells { (cells : ℕ) → HaveCells cells processes.old → HaveCells cells processes.new }
    ensures references { (references : ℕ) → HaveReferences references processes.old → HaveReferences references processes.new }
{
    let mut bodies = Bodies::of(key.bytes);
    bodies.add(key.bytes);
    for at in 0..processes.len() {
        let body = known.between(at, at + 1);
        thaw_next(key, body, &mut processes[at], at as u8, moved);
        bodies.add(key.bytes);
    }
    bodies
}

// The body of a process that perhaps is the known one.
#[inline(always)]
fn thaw_next(
    key: &mut KeyReader,
    body: &[u8],
    process: &mut ProcessState,
    pid: u8,
    moved: &mut Moved,
)
    requires { 0 < length body.now → body.now ≡ body_key (inside process.old) }
    ensures same { (t : Thread) (more : List ℕ) → key.old.bytes.now ≡ body_key (body_of t) ++ more → HasThreadRoom process.old t → (inside process.new ≡ body_of t) × (key.new.bytes.now ≡ more) }
    ensures status { process.new.status ≡ process.old.status }
    ensures stack { vec_capacity process.old.stack ≤ vec_capacity process.new.stack }
    ensures cells { vec_capacity process.old.room.cells ≤ vec_capacity process.new.room.cells }
    ensures references { vec_capacity process.old.room.references ≤ vec_capacity process.new.room.references }
    ensures moved { (q : ℕ) → has_moved moved.new q ≡ false → has_moved moved.old q ≡ false }
    ensures kept { has_moved moved.new pid ≡ false → inside process.new ≡ inside process.old }
{
    if !thaw_known(key, body) {
        thaw_body(key, process);
        moved.add(pid);
    }
}

// Whether the key goes on with a body that is known, which is passed over then.
#[inline(always)]
fn thaw_known(key: &mut KeyReader, body: &[u8]) -> bool
    ensures known { result ≡ true → (0 < length body.now) × (key.old.bytes.now ≡ body.now ++ key.new.bytes.now) }
    ensures unknown { result ≡ false → key.new.bytes.now ≡ key.old.bytes.now }
{
    if body.is_empty() || !key.bytes.starts_with(body) {
        return false;
    }
    let (_, rest) = key.bytes.split_at(body.len());
    key.bytes = rest;
    true
}

#[inline(always)]
fn thaw_body(key: &mut KeyReader, process: &mut ProcessState)
    ensures same { (t : Thread) (more : List ℕ) → key.old.bytes.now ≡ body_key (body_of t) ++ more → HasThreadRoom process.old t → (inside process.new ≡ body_of t) × (key.new.bytes.now ≡ more) }
    ensures status { process.new.status ≡ process.old.status }
    ensures stack { vec_capacity process.old.stack ≤ vec_capacity process.new.stack }
    ensures cells { vec_capacity process.old.room.cells ≤ vec_capacity process.new.room.cells }
    ensures references { vec_capacity process.old.room.references ≤ vec_capacity process.new.room.references }
{
    process.frame = Frame::thaw(key);
    thaw_list(key, &mut process.stack);
    thaw_numbers(key, &mut process.room.cells);
    thaw_list(key, &mut process.room.references);
}

#[inline(always)]
fn thaw_guards(key: &mut KeyReader, guards: &mut [Gate])
    ensures { (ms : List Monitor) (more : List ℕ) → key.old.bytes.now ≡ list_key monitor_key ms ++ more → length ms ≡ length guards.old → AreShort ms → (map monitor_of guards.new ≡ ms) × (key.new.bytes.now ≡ more) }
{
    let _ = usize::thaw(key);
    for at in 0..guards.len() {
        guards[at] = thaw_guard(key);
    }
}

#[inline(always)]
fn thaw_guard(key: &mut KeyReader) -> Gate
    ensures { (m : Monitor) (more : List ℕ) → key.old.bytes.now ≡ monitor_key m ++ more → length m.line ≤ 16 → (monitor_of result ≡ m) × (key.new.bytes.now ≡ more) }
{
    Gate {
        holder: Option::thaw(key),
        line: thaw_line(key),
    }
}

#[inline(always)]
fn thaw_line(key: &mut KeyReader) -> ArrayVec<u8, 16>
    ensures { (line : List ℕ) (more : List ℕ) → key.old.bytes.now ≡ list_key byte_key line ++ more → length line ≤ 16 → (result.items ≡ line) × (key.new.bytes.now ≡ more) }
{
    let count = usize::thaw(key);
    let mut line = ArrayVec::new();
    for at in 0..count {
        let _ = line.try_push(key.byte());
    }
    line
}
