//! Laws over the definitions alone, of programs that go on for ever.

ghost use Rattle.std.specs.Prelude.{ℕ, List, Bool, Contains};
ghost use Rattle.cp_slots.specs.Tables.{Tables};
ghost use Rattle.cp_machine.specs.System.{Machine};
ghost use Rattle.cp_machine.specs.declared.discipline.Discipline.{Discipline};
ghost use Rattle.cp_meaning.specs.State.{State};
ghost use Rattle.cp_run.specs.Slots.{slots};
ghost use Rattle.cp_run.specs.System.{System};
ghost use Rattle.cp_run.specs.declared.outcome.OutcomeKind.{OutcomeKind};
ghost use Rattle.cp_endless_laws.specs.Fair.{ReadyRoundLaw, ReadyServedLaw};
ghost use Rattle.cp_endless_laws.specs.Lasso.{LassoLaw, LassoFoundLaw, LingerLaw, LingerFoundLaw};
ghost use Rattle.cp_endless_laws.specs.Layers.{EndsToLaw};
ghost use Rattle.cp_endless_laws.specs.Meaning.{EndlessMeaningLaw, SettledMeaningLaw};
ghost use Rattle.cp_endless_laws.specs.Moments.{Moment, RoundHappensLaw};
ghost use Rattle.cp_endless_laws.specs.MoreSteps.{MoreStepsLaw, MoreStepsRoundsLaw, MoreStepsTablesLaw};
ghost use Rattle.cp_endless_laws.specs.Ranks.{NoWaitingLaw, NoLingerLaw};
ghost use Rattle.cp_endless_laws.specs.Repeats.{RepeatsLaw};
ghost use Rattle.cp_endless_laws.specs.Rounds.{RoundLaw, CutLaw, AloneLaw};
ghost use Rattle.cp_endless_laws.specs.Settled.{SettledLaw};
ghost use Rattle.cp_endless_laws.specs.Shown.{ValuesLaw, ValuesToLaw};
ghost use Rattle.cp_endless_laws.specs.Silent.{without_output, SlotsForgetLaw, SlotsStayReadyLaw};
ghost use Rattle.cp_endless_laws.specs.Standstill.{StandstillLaw, StandstillFoundLaw};
ghost use Rattle.cp_endless_laws.specs.Tables.{TablesLaw, WitnessLaw};
ghost use Rattle.cp_endless_laws.specs.Traps.{TrapLaw};

/// What is settled is all that can be reached and all that is possible, in any number of choices.
pub fn law_settled()
    ensures machine { (sys : System Machine) → SettledLaw sys }
    ensures meaning { (sys : System State) → SettledLaw sys }
{}

/// Where states are expanded layer by layer, no word of at most so many choices leads to an end that is not listed.
pub fn law_ends_to()
    ensures machine { (sys : System Machine) → EndsToLaw sys }
    ensures meaning { (sys : System State) → EndsToLaw sys }
{}

/// However many choices a table has, none of its rows ends otherwise than the closed states tell.
pub fn law_tables()
    ensures { (r : Tables) (discipline : Discipline) (states : List Machine) → TablesLaw (slots r discipline) without_output (Contains states) }
{}

/// A word that leads to an end is a schedule with this end, unless its output is full before.
pub fn law_witness()
    ensures { (r : Tables) (discipline : Discipline) → WitnessLaw (slots r discipline) without_output }
{}

/// No word shows a value that is not listed; and no word of at most so many choices, where states are expanded layer by layer.
pub fn law_values()
    ensures machine { (sys : System Machine) (forget : Machine → Machine) (states : List Machine) (ends : List OutcomeKind) → ValuesLaw sys forget (Contains states) (Contains ends) }
    ensures meaning { (sys : System State) (forget : State → State) (states : List State) (ends : List OutcomeKind) → ValuesLaw sys forget (Contains states) (Contains ends) }
    ensures machine_to { (sys : System Machine) (forget : Machine → Machine) (layers : ℕ → List Machine) (ends : List OutcomeKind) → ValuesToLaw sys forget (λ k. Contains (layers k)) (Contains ends) }
    ensures meaning_to { (sys : System State) (forget : State → State) (layers : ℕ → List State) (ends : List OutcomeKind) → ValuesToLaw sys forget (λ k. Contains (layers k)) (Contains ends) }
{}

/// A greater limit of steps changes nothing: of what is settled, where no stretch is cut or each that is cut is a round; of a table, where no schedule is cut.
pub fn law_more_steps()
    ensures machine { (sys : System Machine) → MoreStepsLaw sys }
    ensures meaning { (sys : System State) → MoreStepsLaw sys }
    ensures machine_rounds { (sys : System Machine) → MoreStepsRoundsLaw sys }
    ensures meaning_rounds { (sys : System State) → MoreStepsRoundsLaw sys }
    ensures machine_tables { (sys : System Machine) → MoreStepsTablesLaw sys }
    ensures meaning_tables { (sys : System State) → MoreStepsTablesLaw sys }
{}

/// A stretch that comes back to where it was never ends and comes to no choice: each limit of steps cuts it.
pub fn law_round()
    ensures machine { (sys : System Machine) → RoundLaw sys }
    ensures meaning { (sys : System State) → RoundLaw sys }
    ensures machine_cut { (sys : System Machine) → CutLaw sys }
    ensures meaning_cut { (sys : System State) → CutLaw sys }
{}

/// Whatever happens in such a stretch happens before its round is over for the first time.
pub fn law_round_happens()
    ensures machine { (sys : System Machine) (holds : Moment Machine → Bool) → RoundHappensLaw sys holds }
    ensures meaning { (sys : System State) (holds : Moment State → Bool) → RoundHappensLaw sys holds }
{}

/// The word before such a stretch ends at the limit of steps, and at every greater one.
pub fn law_alone()
    ensures machine { (sys : System Machine) → AloneLaw sys }
    ensures meaning { (sys : System State) → AloneLaw sys }
{}

/// Where a stretch is seen to repeat, it ends at each limit of steps; it is alone or spins, and not both, and by one process.
pub fn law_repeats()
    ensures machine { (sys : System Machine) → RepeatsLaw sys }
    ensures meaning { (sys : System State) → RepeatsLaw sys }
{}

/// Whoever has a lasso may wait for ever.
pub fn law_lasso()
    ensures machine { (sys : System Machine) → LassoLaw sys }
    ensures meaning { (sys : System State) → LassoLaw sys }
{}

/// Whoever may wait for ever has a lasso, where the states are in a list and can be told apart.
pub fn law_lasso_found()
    ensures machine { (sys : System Machine) → LassoFoundLaw sys }
    ensures meaning { (sys : System State) → LassoFoundLaw sys }
{}

/// Whoever has a lasso that stays in its call may wait again and again and never come out.
pub fn law_lingers()
    ensures machine { (sys : System Machine) → LingerLaw sys }
    ensures meaning { (sys : System State) → LingerLaw sys }
{}

/// Whoever may wait again and again and never come out of its call has such a lasso.
pub fn law_lingers_found()
    ensures machine { (sys : System Machine) → LingerFoundLaw sys }
    ensures meaning { (sys : System State) → LingerFoundLaw sys }
{}

/// Whoever waits in a fair round without a choice waits for ever.
pub fn law_standstill()
    ensures machine { (sys : System Machine) → StandstillLaw sys }
    ensures meaning { (sys : System State) → StandstillLaw sys }
{}

/// Whoever waits for ever in such a stretch waits in its round, and the round is fair.
pub fn law_standstill_found()
    ensures machine { (sys : System Machine) → StandstillFoundLaw sys }
    ensures meaning { (sys : System State) → StandstillFoundLaw sys }
{}

/// A rank that no choice raises, with a process that is passed over at each rank, shows that nobody waits for ever.
pub fn law_no_waiting()
    ensures machine { (sys : System Machine) (states : List Machine) → NoWaitingLaw sys (Contains states) }
    ensures meaning { (sys : System State) (states : List State) → NoWaitingLaw sys (Contains states) }
{}

/// The same of a process that waits again and again and never comes out of its call.
pub fn law_no_linger()
    ensures machine { (sys : System Machine) (states : List Machine) → NoLingerLaw sys (Contains states) }
    ensures meaning { (sys : System State) (states : List State) → NoLingerLaw sys (Contains states) }
{}

/// Whoever waits in a trap waits whatever is chosen.
pub fn law_trap()
    ensures machine { (sys : System Machine) (trap : List Machine) → TrapLaw sys (Contains trap) }
    ensures meaning { (sys : System State) (trap : List State) → TrapLaw sys (Contains trap) }
{}

/// A round of choices in which something happens is fair exactly where each process that is ready anywhere in it makes a step in it.
pub fn law_ready_round()
    ensures machine { (sys : System Machine) → ReadyRoundLaw sys }
    ensures meaning { (sys : System State) → ReadyRoundLaw sys }
    ensures machine_served { (sys : System Machine) → ReadyServedLaw sys }
    ensures meaning_served { (sys : System State) → ReadyServedLaw sys }
{}

/// What the slot machine displayed decides nothing, but whether its output is full.
pub fn law_slots_forget()
    ensures { SlotsForgetLaw }
{}

/// On slots, who is ready stays ready until its own step.
pub fn law_slots_stay_ready()
    ensures { SlotsStayReadyLaw }
{}

/// The meaning of a program has the ends, the values and the processes that wait of its slot machine.
pub fn law_endless_means()
    ensures { EndlessMeaningLaw }
{}

/// What is settled of the slot machine is so of the meaning, its tables and schedules included.
pub fn law_settled_means()
    ensures { SettledMeaningLaw }
{}
