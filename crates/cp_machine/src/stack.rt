//! Control stacks, which never grow past what was reserved.

ghost use Rattle.std.specs.Prelude.{◌≡◌, ◌+◌, ◌<◌, ◌≤◌, ◌∷◌, vec_len, vec_capacity, drop, length, IfSome, option_copied};
ghost use Rattle.cp_slots.specs.Tables.{Tables};
ghost use Rattle.cp_machine.specs.Fits.{IsReserved};
ghost use Rattle.cp_machine.specs.Machine.{machine_of, thread_at, with_stack};
ghost use Rattle.cp_machine.specs.Premises.{CanReplace};
ghost use Rattle.cp_machine.specs.Stack.{above, top_first, rest_of};

use crate::process::Entry;
use crate::state::State;

/// Puts a list on top.
#[inline(always)]
pub fn put(stack: &mut Vec<Entry>, list: Option<usize>)
    requires { IfSome list (λ _. vec_len stack.old < vec_capacity stack.old) }
    ensures entries { top_first stack.new ≡ rest_of list (top_first stack.old) }
    ensures room { vec_capacity stack.old ≤ vec_capacity stack.new }
{
    if let Some(at) = list {
        stack.push_reserved(Entry::Rest(at));
    }
}

/// Puts an entry in place of the topmost one.
#[inline(always)]
pub fn put_instead(stack: &mut Vec<Entry>, entry: Entry)
    requires { 0 < vec_len stack.old }
    ensures entries { top_first stack.new ≡ entry ∷ drop 1 (top_first stack.old) }
    ensures len { vec_len stack.new ≤ vec_len stack.old }
    ensures room { vec_capacity stack.old ≤ vec_capacity stack.new }
{
    let last = stack.len() - 1;
    stack[last] = entry;
}

/// Puts the rest of a list in place of the topmost entry.
#[inline(always)]
pub fn go_on(stack: &mut Vec<Entry>, next: Option<usize>)
    requires { 0 < vec_len stack.old }
    ensures entries { top_first stack.new ≡ rest_of next (drop 1 (top_first stack.old)) }
    ensures len { vec_len stack.new ≤ vec_len stack.old }
    ensures room { vec_capacity stack.old ≤ vec_capacity stack.new }
{
    match next {
        Some(at) => put_instead(stack, Entry::Rest(at)),
        None => {
            let _ = stack.pop();
        }
    }
}

/// Puts the rest of a list, the end of a call and the list of its body in place of the topmost entry.
pub fn go_into(stack: &mut Vec<Entry>, next: Option<usize>, end: Entry, body: Option<usize>)
    requires busy { 0 < vec_len stack.old }
    requires room { vec_len stack.old + 2 ≤ vec_capacity stack.old }
    ensures entries { top_first stack.new ≡ rest_of body (end ∷ rest_of next (drop 1 (top_first stack.old))) }
    ensures room { vec_capacity stack.old ≤ vec_capacity stack.new }
{
    go_on(stack, next);
    stack.push_reserved(end);
    put(stack, body);
}

/// The topmost entry of a process.
#[inline(always)]
pub fn top_of(state: &State, pid: u8) -> Option<&Entry>
    requires { pid < length state.now.processes.items }
    ensures { (thread_at (machine_of state.now).threads pid).stack ≡ above (option_copied result) (drop 1 (thread_at (machine_of state.now).threads pid).stack) }
{
    let process = &state.processes[pid as usize];
    process.stack.last()
}

/// Puts the rest of a list in place of the topmost entry of a process, and a list above it.
#[inline(always)]
pub fn replace(state: &mut State, pid: u8, list: Option<usize>, next: Option<usize>)
    requires { CanReplace state.old pid list }
    ensures after { machine_of state.new ≡ with_stack (machine_of state.old) pid (rest_of list (rest_of next (drop 1 (thread_at (machine_of state.old).threads pid).stack))) }
    ensures bounds { state.new.bounds ≡ state.old.bounds }
    ensures reserved { (r : Tables) → IsReserved r state.old → IsReserved r state.new }
{
    let process = &mut state.processes[pid as usize];
    go_on(&mut process.stack, next);
    put(&mut process.stack, list);
}

/// Puts an entry in place of the topmost entry of a process, and a list above it.
#[inline(always)]
pub fn replace_by(state: &mut State, pid: u8, list: Option<usize>, entry: Entry)
    requires { CanReplace state.old pid list }
    ensures after { machine_of state.new ≡ with_stack (machine_of state.old) pid (rest_of list (entry ∷ drop 1 (thread_at (machine_of state.old).threads pid).stack)) }
    ensures reserved { (r : Tables) → IsReserved r state.old → IsReserved r state.new }
{
    let process = &mut state.processes[pid as usize];
    put_instead(&mut process.stack, entry);
    put(&mut process.stack, list);
}

/// Puts a list above the topmost entry of a process.
#[inline(always)]
pub fn repeat(state: &mut State, pid: u8, list: Option<usize>)
    requires { CanReplace state.old pid list }
    ensures after { machine_of state.new ≡ with_stack (machine_of state.old) pid (rest_of list (thread_at (machine_of state.old).threads pid).stack) }
    ensures reserved { (r : Tables) → IsReserved r state.old → IsReserved r state.new }
{
    let process = &mut state.processes[pid as usize];
    put(&mut process.stack, list);
}
