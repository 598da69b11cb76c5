//! Which analysis of its schedules is asked for.
ghost use Rattle.std.specs.Prelude.{◌≡◌, IfErr, IfOk, None, Some};
ghost use Rattle.cp_tool.specs.Analysis as spec;
ghost use Rattle.cp_tool.specs.Analysis.{analysis_for, most_choices, usual_states};

/// An analysis of the schedules of a program.
#[derive(Clone, Copy)]
pub enum Analysis {
    /// The table of all of them within the limits, with a line for each row or without.
    Table { rows: bool },
    /// The outcomes of the table alone: schedules that come to one state are taken together.
    Merged,
    /// The ends that are possible in schedules of any length.
    Ends,
    /// The same, and who may wait for ever.
    EndsAndWaits,
    /// The ends, where kernel calls are made at once, so that fewer states are kept.
    EndsAtOnce,
}

impl Analysis {
    /// Whether rows are listed.
    pub fn lists_rows(self) -> bool
        ensures { result ≡ spec.lists_rows self }
    {
        matches!(self, Analysis::Table { rows: true })
    }

    /// Whether schedules that come to one state are taken together.
    pub fn is_merged(self) -> bool
        ensures { result ≡ spec.is_merged self }
    {
        !matches!(self, Analysis::Table { .. })
    }

    /// Whether it is of schedules of any length.
    pub fn is_endless(self) -> bool
        ensures { result ≡ spec.is_endless self }
    {
        !matches!(self, Analysis::Table { .. } | Analysis::Merged)
    }

    /// Whether it tells who may wait for ever.
    pub fn tells_waits(self) -> bool
        ensures { result ≡ spec.tells_waits self }
    {
        matches!(self, Analysis::EndsAndWaits)
    }

    /// Whether kernel calls are made at once.
    pub fn is_at_once(self) -> bool
        ensures { result ≡ spec.is_at_once self }
    {
        matches!(self, Analysis::EndsAtOnce)
    }

    /// The most choices of a schedule.
    pub fn most_choices(self) -> u8
        ensures { result ≡ most_choices self }
    {
        if self.is_merged() { 100 } else { 20 }
    }

    /// How many states there may be where no word says how many.
    pub fn usual_states(self) -> u32
        ensures { result ≡ usual_states self }
    {
        if self.is_at_once() {
            2_000_000
        } else {
            200_000
        }
    }
}

/// The flags that say which analysis is asked for, each as it is given.
#[derive(Clone, Copy)]
pub struct AnalysisFlags {
    pub rows: bool,
    pub merge: bool,
    pub ends: bool,
    pub waits: bool,
    pub at_once: bool,
}

impl AnalysisFlags {
    /// The analysis that they ask for, or why they can't stand together.
    pub fn analysis(self) -> Result<Analysis, &'static str>
        ensures asked { IfOk result (λ a. analysis_for self ≡ Some a) }
        ensures clash { IfErr result (λ _. analysis_for self ≡ None) }
    {
        if self.merge & self.ends {
            return Err("--merge: not beside --ends, which merges in any case");
        }
        if self.rows & (self.merge | self.ends) {
            return Err("--rows: not beside --merge or --ends, which list no schedules");
        }
        if self.waits & !self.ends {
            return Err("--waits: only beside --ends");
        }
        if self.at_once & !self.ends {
            return Err("--at-once: only beside --ends");
        }
        if self.waits & self.at_once {
            return Err("--at-once: not beside --waits");
        }
        match self {
            AnalysisFlags { waits: true, .. } => Ok(Analysis::EndsAndWaits),
            AnalysisFlags { at_once: true, .. } => Ok(Analysis::EndsAtOnce),
            AnalysisFlags { ends: true, .. } => Ok(Analysis::Ends),
            AnalysisFlags { merge: true, .. } => Ok(Analysis::Merged),
            AnalysisFlags { rows, .. } => Ok(Analysis::Table { rows }),
        }
    }
}
