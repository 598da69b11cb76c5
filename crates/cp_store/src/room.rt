//! Frames are put upon one another within what was reserved, and taken off again.

ghost use Rattle.std.specs.Prelude.{◌≡◌, ◌+◌, ◌≤◌, ◌++◌, length, replicate, take, vec_len, vec_capacity};
ghost use Rattle.cp_store.specs.Memory.{nowhere, KeepsRoom};

use crate::memory::{Address, Room};

/// Puts a frame on top, with the cells of an image and this many references to nothing.
pub fn open_frame(room: &mut Room, image: &[i16], references: usize)
    requires cells { vec_len room.old.cells + length image.now ≤ vec_capacity room.old.cells }
    requires references { vec_len room.old.references + references ≤ vec_capacity room.old.references }
    ensures cells { room.new.cells.items ≡ room.old.cells.items ++ image.now }
    ensures references { room.new.references.items ≡ room.old.references.items ++ replicate references nowhere }
    ensures room { KeepsRoom room.old room.new }
{
    let _ = room.cells.extend_from_slice(image);
    push_references(&mut room.references, references);
}

fn push_references(references: &mut Vec<Address>, count: usize)
    requires { vec_len references.old + count ≤ vec_capacity references.old }
    ensures items { references.new.items ≡ references.old.items ++ replicate count nowhere }
    ensures room { vec_capacity references.old ≤ vec_capacity references.new }
{
    for _ in 0..count {
        let _ = references.push(Address::Local(usize::MAX));
    }
}

/// Takes off what lies above this many cells and references.
pub fn close_frame(room: &mut Room, cells: usize, references: usize)
    ensures cells { room.new.cells.items ≡ take cells room.old.cells.items }
    ensures references { room.new.references.items ≡ take references room.old.references.items }
    ensures room { KeepsRoom room.old room.new }
{
    room.cells.truncate(cells);
    room.references.truncate(references);
}
