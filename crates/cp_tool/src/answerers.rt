//! Who answers a program: whoever explores its schedules, or whoever looks for its ends.

use crate::answer::Answer;
use crate::ends::find_ends;
use crate::exploring::explore_program;
use crate::options::Options;
use cp_progress::ObserveProgress;
use cp_slots::Resolved;
use std::alloc::{AllocError, Global};
use std::thread::Threads;

/// Who answers a program, as the options say.
pub trait AnswerProgram {
    ghost use Rattle.std.specs.Prelude.{ℕ, List, IfOk};
    ghost use Rattle.cp_tree.specs.Syntax.{Tree};
    ghost use Rattle.cp_tool.specs.OfTables.{OfPrograms};
    ghost use Rattle.cp_tool.specs.declared.answer.Verdict.{Verdict};
    ghost use Rattle.cp_tool.specs.declared.options.Options.{Options};

    /// What is answered to the tree of a program that is accepted.
    ghost answers: { Options → Tree → Verdict → List ℕ → Type 0 };

    /// What has to be known of its threads.
    ghost may_answer: { Type 0 } = { Unit {0} };

    /// What is answered to a program. An observer is told how far the work has come.
    fn answer_program<O: ObserveProgress>(
        &self,
        alloc: Global,
        options: &Options,
        observer: &mut O,
        program: &Resolved,
    ) -> Result<Answer, AllocError>
        requires { may_answer }
        ensures { IfOk result (λ a. OfPrograms program.now (λ t. answers options.now t a.verdict a.text)) };
}

/// Traces one schedule of a program, or explores all of them on threads.
#[derive(Clone, Copy)]
pub struct ScheduleExplorer<'a, X> {
    pub rt: &'a X,
}

impl<X: Threads + Sync> AnswerProgram for ScheduleExplorer<'_, X> {
    ghost use Rattle.std.specs.Thread.{IsSync};
    ghost use Rattle.cp_tool.specs.Answered.{IsExploredAlone};

    ghost answers = { IsExploredAlone };

    ghost may_answer = { IsSync X.row };

    fn answer_program<O: ObserveProgress>(
        &self,
        alloc: Global,
        options: &Options,
        observer: &mut O,
        program: &Resolved,
    ) -> Result<Answer, AllocError> {
        explore_program(self.rt, alloc, options, observer, program)
    }
}

/// Looks for the ends that are possible with any number of choices.
#[derive(Clone, Copy)]
pub struct EndsFinder;

impl AnswerProgram for EndsFinder {
    ghost use Rattle.cp_tool.specs.Ends.{AreEnds};

    ghost answers = { AreEnds };

    fn answer_program<O: ObserveProgress>(
        &self,
        alloc: Global,
        options: &Options,
        observer: &mut O,
        program: &Resolved,
    ) -> Result<Answer, AllocError> {
        find_ends(alloc, options, observer, program)
    }
}
