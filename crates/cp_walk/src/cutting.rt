//! Cuttings: words that cut a table into parts.

ghost use Rattle.std.specs.Prelude.{◌≡◌, ◌<◌, ◌≤◌, ℕ, Ok, Err, Some, None, [], ◌∷◌, length, IfOk, IfErr, OnOk};
ghost use Rattle.cp_run.specs.Slots.{slots};
ghost use Rattle.cp_walk.specs.Cutting.{split_of, deeper, deepened, IsSplitFault};
ghost use Rattle.cp_walk.specs.CuttingProps.{cuts_prop};
ghost use Rattle.cp_walk.specs.Deepening.{Settled, Advanced};
ghost use Rattle.cp_walk.specs.Members.{CutsTable, words_of};

use crate::children::with_children;
use crate::fault::SplitFault;
use crate::wanting::numbers_wanted_after;
use arrayvec::ArrayVec;
use cp_progress::{ObserveProgress, Unobserved, WalkProgress};
use cp_run::Job;
use std::alloc::{AllocError, Global};

/// The most members of a cutting.
pub const MOST_MEMBERS: usize = 4096;

/// Words, in dictionary order, of which each word of a job's table begins with exactly one.
#[derive(Drop)]
pub struct Cutting<'a> {
    pub job: Job<'a>,
    pub words: Vec<ArrayVec<u8, 20>>,
    pub ghost few_choices: { job.limits.choices ≤ 20 },
    pub ghost cuts: { CutsTable job.program.now job.limits words.items } by { cuts_prop job.program.now job.limits words.items },
}

impl<'a> Cutting<'a> {
    /// The one empty word.
    pub fn whole(alloc: Global, job: Job<'a>) -> Result<Cutting<'a>, AllocError>
        requires { job.limits.choices ≤ 20 }
        ensures job { IfOk result (λ c. c.job ≡ job.entry) }
        ensures words { IfOk result (λ c. words_of c.words.items ≡ [] ∷ []) }
    {
        let mut words = Vec::new(alloc);
        words.push(ArrayVec::new())?;
        Ok(Cutting { job, words })
    }

    /// The words.
    pub fn members(&self) -> &[ArrayVec<u8, 20>]
        ensures { result.now ≡ self.now.words.items }
    {
        self.words.as_slice()
    }

    /// Puts in place of a member its children: for each process that its run wants, in rising order, the word that is this number longer.
    pub fn split(&mut self, alloc: Global, i: usize) -> Result<(), SplitFault>
        requires member { i < length self.old.words.items }
        ensures job { self.new.job ≡ self.old.job }
        ensures split { OnOk result (split_of (slots self.old.job.program.now self.old.job.limits.discipline) self.old.job.limits.choices self.old.job.limits.steps (words_of self.old.words.items) i ≡ Ok (words_of self.new.words.items)) }
        ensures unchanged { IfErr result (λ e. self.new.words.items ≡ self.old.words.items) }
        ensures fault { IfErr result (λ e. IsSplitFault e → split_of (slots self.old.job.program.now self.old.job.limits.discipline) self.old.job.limits.choices self.old.job.limits.steps (words_of self.old.words.items) i ≡ Err e) }
    {
        let job = self.job;
        let ready = match numbers_wanted_after(alloc, &job, self.words[i].as_slice()) {
            Ok(Some(ready)) => ready,
            Ok(None) => return Err(SplitFault::Leaf),
            Err(_) => return Err(SplitFault::Memory),
        };
        if self.words.len() + ready.len() > MOST_MEMBERS + 1 {
            return Err(SplitFault::Full);
        }
        let Ok(words) = with_children(alloc, self.words.as_slice(), i, ready.as_slice()) else {
            return Err(SplitFault::Memory);
        };
        self.words = words;
        Ok(())
    }

    /// Splits, again and again, the leftmost member that is shorter than `depth` and no leaf, until there is none or a split would be
    /// Full.
    pub fn to_depth(&mut self, alloc: Global, depth: u8) -> Result<(), AllocError>
        ensures job { self.new.job ≡ self.old.job }
        ensures splits { (n : ℕ) × (deepened (slots self.old.job.program.now self.old.job.limits.discipline) self.old.job.limits.choices self.old.job.limits.steps depth n (words_of self.old.words.items) ≡ Some (words_of self.new.words.items)) }
        ensures done { OnOk result (deeper (slots self.old.job.program.now self.old.job.limits.discipline) self.old.job.limits.choices self.old.job.limits.steps depth (words_of self.new.words.items) ≡ None) }
    {
        self.to_depth_observed(alloc, depth, &mut Unobserved)
    }

    /// The same. An observer is told how many members there are.
    pub fn to_depth_observed<O: ObserveProgress>(
        &mut self,
        alloc: Global,
        depth: u8,
        observer: &mut O,
    ) -> Result<(), AllocError>
        ensures job { self.new.job ≡ self.old.job }
        ensures splits { (n : ℕ) × (deepened (slots self.old.job.program.now self.old.job.limits.discipline) self.old.job.limits.choices self.old.job.limits.steps depth n (words_of self.old.words.items) ≡ Some (words_of self.new.words.items)) }
        ensures done { OnOk result (deeper (slots self.old.job.program.now self.old.job.limits.discipline) self.old.job.limits.choices self.old.job.limits.steps depth (words_of self.new.words.items) ≡ None) }
    {
        let mut at = 0;
        while at < self.words.len() {
            observer.observe_walk(WalkProgress {
                schedules: 0,
                done: 0,
                beginnings: self.words.len() as u32,
            });
            match self.deepen_at(alloc, depth, at)? {
                Some(next) => at = next,
                None => return Ok(()),
            }
        }
        Ok(())
    }

    /// Splits the member at a place where that is shorter than `depth` and no leaf. Answers the next place, or None where the split
    /// would be Full.
    fn deepen_at(
        &mut self,
        alloc: Global,
        depth: u8,
        at: usize,
    ) -> Result<Option<usize>, AllocError>
        requires member { at < length self.old.words.items }
        requires settled { Settled (slots self.old.job.program.now self.old.job.limits.discipline) self.old.job.limits.choices self.old.job.limits.steps depth (words_of self.old.words.items) at }
        ensures job { self.new.job ≡ self.old.job }
        ensures unchanged { IfErr result (λ e. self.new.words.items ≡ self.old.words.items) }
        ensures advanced { IfOk result (λ o. Advanced (slots self.old.job.program.now self.old.job.limits.discipline) self.old.job.limits.choices self.old.job.limits.steps depth (words_of self.old.words.items) at (words_of self.new.words.items) o) }
    {
        if self.words[at].len() >= depth as usize {
            return Ok(Some(at + 1));
        }
        match self.split(alloc, at) {
            Ok(()) => Ok(Some(at)),
            Err(SplitFault::Leaf) => Ok(Some(at + 1)),
            Err(SplitFault::Full) => Ok(None),
            Err(SplitFault::Memory) => Err(AllocError),
        }
    }
}
