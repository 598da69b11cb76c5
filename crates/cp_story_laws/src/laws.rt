//! Laws over the definitions alone.

ghost use Rattle.cp_story_laws.specs.Statements.{EventsLaw, MonitorsLaw, OpenCallsLaw, QueuesLaw, StopLaw, ValuesLaw, WaitsLaw};

/// Each event of a story is the one of the program on its own names: its process, what it is, the line, the entry call with the name of its routine, its queue, what a call is given and gives back, the
/// displayed value, the choice before it, who is woken and who is let in, how each process stands then, who is inside each monitor, and which variables of monitors changed.
pub fn law_events()
    ensures { EventsLaw }
{}

/// So is who waits where the run stops, in which call and inside which monitors.
pub fn law_waits()
    ensures { WaitsLaw }
{}

/// So is how the run stops where no event tells of it: by a run error, with who waits in a queue that is in use, or at a limit.
pub fn law_stop()
    ensures { StopLaw }
{}

/// Where a run stops, the open calls that are remembered for the next event are the entry calls of monitors that are open by the meaning, each of its routine.
pub fn law_open_calls()
    ensures { OpenCallsLaw }
{}

/// The number that a monitor has in events is that of the component which the legend calls as the language does.
pub fn law_monitors()
    ensures { MonitorsLaw }
{}

/// Where a run stops, the cells from which a story tells a variable of a component are those of the value that the variable of this name has by the meaning.
pub fn law_values()
    ensures { ValuesLaw }
{}

/// Where a run stops, a process that is delayed waits by the meaning in the queue under whose name the story tells it.
pub fn law_queues()
    ensures { QueuesLaw }
{}
