//! Frames: the cells of a routine, and its `var` parameters.

ghost use Rattle.std.specs.Prelude.{◌≡◌, pos, [], ◌∷◌, ◌++◌, length, Some, IfOk, OnOk};
ghost use Rattle.cp_slots.specs.Tables.{routine_view};
ghost use Rattle.cp_layout.specs.Kinds.{types_seen, least};
ghost use Rattle.cp_layout.specs.Layers as spec;
ghost use Rattle.cp_layout.specs.Layers.{frame_seen};

use crate::kinds::Types;
use cp_slots::ResolvedRoutine;
use cp_symbols::CellType;
use std::alloc::{AllocError, Global};

/// The frame of the routine that is laid out.
#[derive(Drop)]
pub struct RoutineFrame {
    /// The cells as a call begins.
    pub image: Vec<i16>,
    /// The cells of each `var` parameter.
    pub extents: Vec<usize>,
    /// The most cells and `var` parameters of what is called.
    pub room: usize,
    pub reference_room: usize,
}

impl RoutineFrame {
    pub fn new(alloc: Global) -> RoutineFrame
        ensures { frame_seen result ≡ spec.no_frame }
    {
        RoutineFrame {
            image: Vec::new(alloc),
            extents: Vec::new(alloc),
            room: 0,
            reference_room: 0,
        }
    }

    /// A new cell, for the result of a call.
    pub fn add_cell(&mut self) -> Result<usize, AllocError>
        ensures slot { IfOk result (λ n. n ≡ length (frame_seen self.old).image) }
        ensures cell { OnOk result (frame_seen self.new ≡ record (frame_seen self.old) { image = (frame_seen self.old).image ++ pos 0 ∷ [] }) }
    {
        let cell = self.image.len();
        self.image.push(0)?;
        Ok(cell)
    }

    /// The cells of a parameter, a result or a local variable, by the first of them.
    pub fn add_cells(
        &mut self,
        types: &Types<'_>,
        value_type: CellType,
    ) -> Result<usize, AllocError>
        ensures slot { IfOk result (λ n. n ≡ length (frame_seen self.old).image) }
        ensures cells { OnOk result (frame_seen self.new ≡ record (frame_seen self.old) { image = (frame_seen self.old).image ++ least (types_seen types.now) value_type }) }
    {
        let slot = self.image.len();
        types.add_least(&mut self.image, value_type)?;
        Ok(slot)
    }

    /// A `var` parameter of this many cells, by its number among these.
    pub fn add_extent(&mut self, cells: usize) -> Result<usize, AllocError>
        ensures slot { IfOk result (λ n. n ≡ length (frame_seen self.old).extents) }
        ensures extent { OnOk result (frame_seen self.new ≡ record (frame_seen self.old) { extents = (frame_seen self.old).extents ++ cells ∷ [] }) }
    {
        let slot = self.extents.len();
        self.extents.push(cells)?;
        Ok(slot)
    }

    /// Room for the cells and `var` parameters of a routine that is called.
    pub fn reserve(&mut self, callee: &ResolvedRoutine)
        ensures { frame_seen self.new ≡ spec.frame_with (frame_seen self.old) (Some (routine_view callee.now)) }
    {
        self.room = self.room.max(callee.room);
        self.reference_room = self.reference_room.max(callee.reference_room);
    }
}
