//! Events as rows.

ghost use Rattle.cp_machine.specs.System.{IsStateOf};

use crate::json::Json;
use crate::register::Register;
use crate::variables::path_inside;
use cp_legend::SourceValue;
use cp_machine::{Shown, Signals, State};
use cp_slots::Resolved;
use cp_story::{Happening, OpenCall, Queue, Returned, StoryEvent, push_call, push_shown};
use std::alloc::AllocError;

impl<'a> Register<'a> {
    /// The place of an event that led to a state: `[letter, process, line, monitor or process, text or view, [woken, ..], [let in, ..],
    /// [variable, value, ..], view]`. The line of a return belongs to the way and is left out: ways with different calls may meet in one state.
    pub fn place_event(
        &mut self,
        program: &Resolved,
        state: &State,
        event: &StoryEvent,
        changes: &Json,
    ) -> Result<usize, AllocError>
        requires { IsStateOf program.now state.now }
    {
        let started = match event.happening {
            Happening::Start(other) => self.place_view(program, state, other)?,
            _ => 0,
        };
        let view = self.place_view(program, state, event.plain.process)?;
        let (letter, whom, text) = self.tell(event, started)?;
        let line = match event.happening {
            Happening::Leave(_) => 0,
            _ => event.line.unwrap_or(0),
        };
        let mut row = Json::new(self.alloc);
        row.open();
        row.put_quoted(letter);
        row.put_plain(event.plain.process);
        row.put_plain(line);
        row.put_plain(whom);
        row.put_plain(text);
        row.put_processes(event.woken.as_slice());
        row.put_processes(event.let_in.as_slice());
        row.put_value(changes);
        row.put_plain(view);
        row.close();
        self.events.place(&row)
    }

    // What a happening is, by a letter, and what it is about: a monitor or a process, and a text or the view of who is started.
    fn tell(
        &mut self,
        event: &StoryEvent,
        started: usize,
    ) -> Result<(&'static str, u8, usize), AllocError> {
        Ok(match &event.happening {
            Happening::Enter {
                call,
                arguments,
                waits,
            } => {
                let letter = if *waits { "g" } else { "e" };
                (letter, call.monitor, self.place_call(*call, arguments)?)
            }
            Happening::Admit(call) => ("a", call.monitor, self.place_call(*call, &[])?),
            Happening::Leave(call) => ("l", call.monitor, self.place_returned(&event.returned)?),
            Happening::Delay(queue, _) => ("d", queue.monitor, self.place_queue(queue)?),
            Happening::Continue(queue, _, signals) => {
                (letter_of(*signals), queue.monitor, self.place_queue(queue)?)
            }
            Happening::Start(process) => ("s", *process, started),
            Happening::Display(shown) => ("o", 0, self.place_shown(*shown)?),
            Happening::End => ("x", 0, 0),
        })
    }

    fn place_queue(&mut self, queue: &Queue) -> Result<usize, AllocError> {
        self.strings.place_text(queue.name.as_str())
    }

    // The place of a call by its routine and its arguments. Its monitor is told beside it.
    fn place_call(
        &mut self,
        call: OpenCall,
        arguments: &[SourceValue],
    ) -> Result<usize, AllocError> {
        let mut text = String::new(self.alloc);
        push_call(self.legend, &mut text, call, arguments)?;
        let monitor = self.legend.monitor_name(call.monitor);
        let inside = path_inside(monitor, text.as_str()).unwrap_or("");
        self.strings.place_text(inside)
    }

    // The place of what a call gave back: the result of a function, and then the values of the places that were handed over.
    fn place_returned(&mut self, returned: &[Returned]) -> Result<usize, AllocError> {
        let mut text = String::new(self.alloc);
        let mut before = "";
        for is_place in [false, true] {
            for one in returned {
                if one.name.is_empty() != is_place {
                    text.push_str(before)?;
                    push_returned(&mut text, one)?;
                    before = ", ";
                }
            }
        }
        self.strings.place_text(text.as_str())
    }

    // The place of a displayed value.
    fn place_shown(&mut self, shown: Shown) -> Result<usize, AllocError> {
        let mut text = String::new(self.alloc);
        push_shown(self.legend, &mut text, shown)?;
        self.strings.place_text(text.as_str())
    }
}

// A `continue` by who goes on after it.
fn letter_of(signals: Signals) -> &'static str {
    match signals {
        Signals::Return => "c",
        Signals::Continue => "n",
        Signals::Wait => "w",
    }
}

fn push_returned(text: &mut String, one: &Returned) -> Result<(), AllocError> {
    if !one.name.is_empty() {
        text.push_str(one.name.as_str())?;
        text.push_str(" = ")?;
    }
    one.value.push_to(text)
}
