//! What is expected of a session, whatever its app. Each function does nothing: it is there for its contract.

ghost use Rattle.session_laws.specs.Apart.{LinesInterleave, TranscriptsInterleave};
ghost use Rattle.session_laws.specs.FullJournal.{FullJournalEnds, EventIsJournaled};
ghost use Rattle.session_laws.specs.RightLaws.{FirstIsRight, ChangeKeepsRight, RunKeepsRight, FlushKeepsRight, JournalIsRight, WantedIsFresh, ShownIsFresh};
ghost use Rattle.session_laws.specs.RunLaws.{AliveIsFresh, DependsOnReadsAlone, RunIsByTrace, ExpressionIsByTrace, TermIsByTrace, RunLeavesNow};
ghost use Rattle.session_laws.specs.StandingLaws.{JournalIsConsistent, FirstStands, KeepingAllStands, KeepingWhollyStands, NoneIsMissing};
ghost use Rattle.session_laws.specs.StepLaws.{FirstIsConsistent, VisitKeepsConsistent, OutputKeepsConsistent, BeginKeepsConsistent, TermKeepsConsistent, WriteKeepsConsistent};
ghost use Rattle.session_laws.specs.VisitLaws.{VisitLeavesEach, VisitLeavesRest, VisitIsLeast, VisitAbsorbs, VisitAbsorbsAsked};
ghost use Rattle.session_laws.specs.VisitExample.{RunsTheAsked, TracesSayIt};
ghost use Rattle.session_laws.specs.Parted.{SeesTheSite, MissesTheSite};
ghost use Rattle.session_laws.specs.Laws.{EqualValueChangesNothing, DoneIsSettled, IsWithinBudget, AnswersGoOn, OverStays, OverIsSilent};

/// Setting a source to the value that it has changes nothing.
#[tactic(auto, using(crate::proofs::Expected::equal_value_changes_nothing))]
pub fn change_laws()
    ensures { EqualValueChangesNothing }
{}

/// A flush that is done leaves nobody waiting, and none makes more runs than the budget.
#[tactic(auto, using(crate::proofs::Expected::done_is_settled, crate::proofs::Expected::is_within_budget))]
pub fn flush_laws()
    ensures settled { DoneIsSettled }
    ensures budget { IsWithinBudget }
{}

/// What is sent in answer to a journal begins with what is sent in answer to each front of it, and a session
/// that is over stays as it is and is sent nothing.
#[tactic(auto, using(crate::proofs::Expected::answers_go_on, crate::proofs::Expected::over_stays, crate::proofs::Expected::over_is_silent))]
pub fn journal_laws()
    ensures front { AnswersGoOn }
    ensures stays { OverStays }
    ensures silent { OverIsSilent }
{}

/// Where a session's journal is full, a step writes that it is over in place of the event, which is not journaled; and else
/// the event stands last in the journal.
#[tactic(auto, using(crate::proofs::FullJournal::full_journal_ends, crate::proofs::FullJournal::event_is_journaled))]
pub fn full_journal_laws()
    ensures full { FullJournalEnds }
    ensures journaled { EventIsJournaled }
{}

/// The output of a transcript is an interleaving of what the lines of each session write alone.
#[tactic(auto, using(crate::proofs::Apart::lines_interleave))]
pub fn transcript_laws()
    ensures lines { LinesInterleave }
    ensures transcripts { TranscriptsInterleave }
{}

/// What a session keeps is right: each expression or output that is alive depends on what it reaches now, all that it
/// reads is alive, and each such output has last come to what it gives now. So it is at first, and each change, each run
/// of a flush, each flush and each journal leave it so.
pub fn state_laws()
    ensures first { FirstIsRight }
    ensures change { ChangeKeepsRight }
    ensures run { RunKeepsRight }
    ensures flush { FlushKeepsRight }
    ensures journal { JournalIsRight }
{}

/// Each step of a session leaves a consistent state so, whatever the flush keeps beside it: a read of an expression, the run
/// of an output, the beginning of an observer's run, a term of it, and a write.
pub fn step_laws()
    ensures first { FirstIsConsistent }
    ensures visit { VisitKeepsConsistent }
    ensures output { OutputKeepsConsistent }
    ensures begin { BeginKeepsConsistent }
    ensures term { TermKeepsConsistent }
    ensures write { WriteKeepsConsistent }
{}

/// In a consistent state a read of an expression runs what the traces ask and isn't alive, and nothing else. It leaves each
/// reader as it was, or as its trace says, with all that the trace asks alive; and it may come after a read of any
/// expression that it makes alive, and leaves the same state.
pub fn visit_laws()
    ensures each { VisitLeavesEach }
    ensures rest { VisitLeavesRest }
    ensures least { VisitIsLeast }
    ensures absorbs { VisitAbsorbs }
    ensures asked { VisitAbsorbsAsked }
{}

/// A read of an expression that reads another one, beside a third.
#[tactic(auto, using(crate::proofs::VisitExample::runs_the_asked, crate::proofs::VisitExample::traces_say_it))]
pub fn visit_runs_what_is_asked()
    ensures runs { RunsTheAsked }
    ensures traced { TracesSayIt }
{}

/// What is alive gives what it comes to afresh; after a journal that has not ended the session each output that is shown has
/// last come to its fresh outcome, and where the init was accepted each that runs while it is hidden too; and an outcome
/// depends on the sources that are read alone.
pub fn freshness_laws()
    ensures alive { AliveIsFresh }
    ensures wanted { WantedIsFresh }
    ensures shown { ShownIsFresh }
    ensures reads { DependsOnReadsAlone }
{}

/// In a consistent state a run as it is stated, with the state handed on from read to read, is the run by its trace: one
/// evaluation on what every reader gives now, and a walk through what it asks. The run of an output leaves what every
/// expression and every other output gives now as it is.
pub fn run_laws()
    ensures output { RunIsByTrace }
    ensures expression { ExpressionIsByTrace }
    ensures term { TermIsByTrace }
    ensures now { RunLeavesNow }
{}

/// Each journal leaves a consistent state; a session in which nothing ran stands for the first state, and one that keeps each
/// reader's outcome for each consistent state, with no reader missing.
pub fn standing_laws()
    ensures consistent { JournalIsConsistent }
    ensures first { FirstStands }
    ensures stands { KeepingAllStands }
    ensures wholly { KeepingWhollyStands }
    ensures missing { NoneIsMissing }
{}

/// In a state that no session comes to, a run as it is stated and the run by its trace part.
#[tactic(auto, using(crate::proofs::Parted::sees_the_site, crate::proofs::Parted::misses_the_site))]
pub fn runs_part_in_a_wrong_state()
    ensures stated { SeesTheSite }
    ensures traced { MissesTheSite }
{}
