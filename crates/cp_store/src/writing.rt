//! Writes into cells.

ghost use Rattle.std.specs.Prelude.{◌≡◌};
ghost use Rattle.cp_slots.specs.Inside.{SET_CELLS};
ghost use Rattle.cp_store.specs.Inside.{HasCells};
ghost use Rattle.cp_store.specs.Memory.{memory_of, put_number, put_copy, KeepsRoom};
ghost use Rattle.cp_store.specs.Sets as spec;

use crate::memory::{Address, Room, cell};
use crate::set::SetValue;

/// Writes the cell at an address.
pub fn write(permanents: &mut [i16], room: &mut Room, at: Address, value: i16)
    requires { HasCells (memory_of permanents.old room.old) at 1 }
    ensures after { memory_of permanents.new room.new ≡ put_number (memory_of permanents.old room.old) at value }
    ensures room { KeepsRoom room.old room.new }
{
    match at {
        Address::Permanent(number) => permanents[number] = value,
        Address::Local(number) => room.cells[number] = value,
    }
}

// Sixteen members of a set.
fn write_word(permanents: &mut [i16], room: &mut Room, at: Address, members: u16)
    requires { HasCells (memory_of permanents.old room.old) at 1 }
    ensures after { memory_of permanents.new room.new ≡ spec.put_word (memory_of permanents.old room.old) at members }
    ensures room { KeepsRoom room.old room.new }
{
    write(permanents, room, at, members.cast_signed());
}

// Thirty-two members.
fn write_pair(permanents: &mut [i16], room: &mut Room, at: Address, members: u32)
    requires { HasCells (memory_of permanents.old room.old) at 2 }
    ensures after { memory_of permanents.new room.new ≡ spec.put_pair (memory_of permanents.old room.old) at members }
    ensures room { KeepsRoom room.old room.new }
{
    write_word(permanents, room, at, (members % 65536) as u16);
    write_word(permanents, room, at.plus(1), (members / 65536) as u16);
}

// Sixty-four members.
fn write_quad(permanents: &mut [i16], room: &mut Room, at: Address, members: u64)
    requires { HasCells (memory_of permanents.old room.old) at 4 }
    ensures after { memory_of permanents.new room.new ≡ spec.put_quad (memory_of permanents.old room.old) at members }
    ensures room { KeepsRoom room.old room.new }
{
    write_pair(permanents, room, at, (members % 4_294_967_296) as u32);
    write_pair(
        permanents,
        room,
        at.plus(2),
        (members / 4_294_967_296) as u32,
    );
}

/// Writes a set into the eight cells from an address on.
pub fn write_set(permanents: &mut [i16], room: &mut Room, at: Address, value: SetValue)
    requires { HasCells (memory_of permanents.old room.old) at SET_CELLS }
    ensures after { memory_of permanents.new room.new ≡ spec.put_set (memory_of permanents.old room.old) at value }
    ensures room { KeepsRoom room.old room.new }
{
    let low = (value.members % 18_446_744_073_709_551_616) as u64;
    let high = (value.members / 18_446_744_073_709_551_616) as u64;
    write_quad(permanents, room, at, low);
    write_quad(permanents, room, at.plus(4), high);
}

/// Copies cells, one after the other.
#[tactic(auto, using(crate::proofs::Alike::copied_has))]
pub fn copy_cells(permanents: &mut [i16], room: &mut Room, to: Address, from: Address, size: usize)
    requires to { HasCells (memory_of permanents.old room.old) to size }
    requires from { HasCells (memory_of permanents.old room.old) from size }
    ensures after { memory_of permanents.new room.new ≡ put_copy (memory_of permanents.old room.old) to from size }
    ensures room { KeepsRoom room.old room.new }
{
    for cells in 0..size {
        let value = cell(permanents, room, from.plus(cells));
        write(permanents, room, to.plus(cells), value);
    }
}
