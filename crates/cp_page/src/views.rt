//! Where a process stands: the line of its next statement, and its open calls with their variables.

ghost use Rattle.cp_machine.specs.System.{IsStateOf};

use crate::json::Json;
use crate::register::Register;
use cp_machine::{Entry, ProcessState, State};
use cp_slots::Resolved;
use cp_store::Frame;
use cp_story::aim_of;
use std::alloc::AllocError;

impl<'a> Register<'a> {
    /// The place of the view of a process: `[line, [frame, ..]]`, the outermost frame first. The line is 0 where a call comes to its end.
    pub fn place_view(
        &mut self,
        program: &Resolved,
        state: &State,
        process: u8,
    ) -> Result<usize, AllocError>
        requires { IsStateOf program.now state.now }
    {
        let mut row = Json::new(self.alloc);
        row.open();
        row.put_plain(next_line(program, state, process));
        self.put_frames(&mut row, state, process)?;
        row.close();
        self.views.place(&row)
    }

    fn put_frames(&mut self, row: &mut Json, state: &State, process: u8) -> Result<(), AllocError> {
        row.open();
        if let Some(process) = state.processes.get(process as usize)
            && !process.stack.is_empty()
        {
            for entry in &process.stack {
                if let Some(frame) = outer_frame(entry) {
                    row.put_plain(self.place_frame(process, frame)?);
                }
            }
            row.put_plain(self.place_frame(process, process.frame)?);
        }
        row.close();
        Ok(())
    }

    // The place of a frame: `[name, variable, value, variable, value, ..]`.
    fn place_frame(&mut self, process: &ProcessState, frame: Frame) -> Result<usize, AllocError> {
        let mut row = Json::new(self.alloc);
        row.open();
        row.put_plain(self.place_frame_name(frame)?);
        let legend = self.legend;
        if let Some(routine) = legend.routines.get(frame.routine) {
            for variable in &routine.variables {
                let at = frame.base.saturating_add(variable.slot);
                row.put_plain(self.strings.place_text(variable.name.as_str())?);
                row.put_plain(self.place_value(variable.shape, &process.room.cells, at)?);
            }
        }
        row.close();
        self.frames.place(&row)
    }

    // The path of the component, and the routine where it is no initial statement.
    fn place_frame_name(&mut self, frame: Frame) -> Result<usize, AllocError> {
        let path = match self.legend.components.get(frame.component) {
            Some(component) => component.path.as_str(),
            None => "",
        };
        let routine = self.legend.routine_name(frame.routine);
        if routine.is_empty() {
            return self.strings.place_text(path);
        }
        if self.legend.is_nameless(frame.routine) {
            let name = format!(in self.alloc; "invariant of {path}")?;
            return self.strings.place_text(name.as_str());
        }
        let name = format!(in self.alloc; "{path}.{routine}")?;
        self.strings.place_text(name.as_str())
    }
}

// The frame that goes on when this entry is done.
fn outer_frame(entry: &Entry) -> Option<Frame> {
    match entry {
        Entry::Return(frame, _, _) => Some(*frame),
        Entry::InitEnd(frame, _) => Some(*frame),
        Entry::Rest(_) | Entry::Successor(_, _, _) => None,
    }
}

/// The line of the next statement of a process that is ready; 0 of one that is not.
pub fn next_line(program: &Resolved, state: &State, process: u8) -> u32
    requires { IsStateOf program.now state.now }
{
    let at = process as usize;
    if at >= state.processes.len() {
        return 0;
    }
    let going = &state.processes[at];
    if going.status.is_ready() {
        aim_of(program, state, process).line.unwrap_or(0)
    } else {
        0
    }
}
