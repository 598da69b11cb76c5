//! Laws over the definitions alone, of every program that is read and accepted.

ghost use Rattle.cp_machine_laws.specs.Following.{FollowingLaw};
ghost use Rattle.cp_machine_laws.specs.Law.{SameRunsLaw};
ghost use Rattle.cp_machine_laws.specs.MeaningLaw.{InStepLaw, MeaningLaw};
ghost use Rattle.cp_machine_laws.specs.Running.{RunningLaw};
ghost use Rattle.cp_machine_laws.specs.Stopped.{MachineAsBeforeLaw, StateAsBeforeLaw};

/// Where the meaning of a tree and its slot machine go in step, they have the same runs, table and traces.
pub fn law_same_runs()
    ensures { SameRunsLaw }
{}

/// They go in step: the opening machine, each step and each admission represent those of the rules on names.
pub fn law_in_step()
    ensures { InStepLaw }
{}

/// So the machine has the runs, the table and the traces of the meaning.
pub fn law_means()
    ensures { MeaningLaw }
{}

/// In each state that the machine reaches at most one process is inside each monitor, and each variable that a step changes is one that its process holds.
pub fn law_running()
    ensures { RunningLaw }
{}

/// No step of a ready process takes a branch by which the definition of a step is total.
pub fn law_never_passed_over()
    ensures { FollowingLaw }
{}

/// After a run error or a full output the state is as it was: that of the meaning, and that of the slot machine.
pub fn law_state_as_before()
    ensures meaning { StateAsBeforeLaw }
    ensures machine { MachineAsBeforeLaw }
{}
