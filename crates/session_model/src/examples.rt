//! Worked examples of the definitions, which the check finds by computing.

ghost use Rattle.session_model.specs.MissingExample.{CountsTheMissing};
ghost use Rattle.session_model.specs.FaithfulExamples.{OpenIsFaithful, EndedIsFaithful, LinkFailedIsFaithful, RefusedIsFaithful, BudgetSpentIsFaithful, ObserverFailedIsFaithful, JournalFullIsFaithful, MemoryIsFaithful, LinkMemoryIsFaithful, RealLinkIsFaithful, WithheldText, UnjournaledItem, UncountedFault, ShortJournal, EarlyEnd, EndOfAnotherInvocation, EventBehindTheEnd, OpenBehindTheEnd, FailureBehindARefusal, FailureBehindTheEnd};
ghost use Rattle.session_model.specs.StandingExamples.{StateOfAnotherSize, OutputLeftOut, StaleOutput, OneSourceMore, StaleOutcome, RunningThatNeverRan};
ghost use Rattle.session_model.specs.StepExamples.{EqualValue, OtherValue, ClientSets, ForgetsSites, RunsTheBudget, StaysEnded, FullOfEvents, FullOfBytes, LastLineTaken, LineTooMany};

/// Does nothing: it is there for its contract. A cached reader whose keys fail doesn't count as missing, and each other
/// reader that is alive in the state alone does.
#[tactic(auto, using(crate::proofs::MissingExample::counts_the_missing))]
pub fn counts_missing_readers()
    ensures { CountsTheMissing }
{}

/// Does nothing: it is there for its contract. A faithful journal for each way in which a session can be over, and for one
/// that is open.
#[tactic(auto, using(crate::proofs::FaithfulComputed::open_is_faithful, crate::proofs::FaithfulComputed::ended_is_faithful, crate::proofs::FaithfulComputed::link_failed_is_faithful, crate::proofs::FaithfulComputed::refused_is_faithful, crate::proofs::FaithfulComputed::budget_spent_is_faithful, crate::proofs::FaithfulComputed::observer_failed_is_faithful, crate::proofs::FaithfulComputed::memory_is_faithful, crate::proofs::FaithfulComputed::link_memory_is_faithful, crate::proofs::FaithfulComputed::real_link_is_faithful))]
pub fn faithful_examples()
    ensures open { OpenIsFaithful }
    ensures ended { EndedIsFaithful }
    ensures link_failed { LinkFailedIsFaithful }
    ensures refused { RefusedIsFaithful }
    ensures budget_spent { BudgetSpentIsFaithful }
    ensures observer_failed { ObserverFailedIsFaithful }
    ensures journal_full { JournalFullIsFaithful }
    ensures memory { MemoryIsFaithful }
    ensures link_memory { LinkMemoryIsFaithful }
    ensures real_link { RealLinkIsFaithful }
{}

/// Does nothing: it is there for its contract. Journals that are not faithful: a text was withheld, a link is said to have
/// failed that counts no fault, a short journal is said to be full, the link has not ended, an invocation ends that doesn't
/// run, an event stands behind the link's end, a session is said to be open behind it, and a link is said to have failed behind
/// a refusal or its end.
#[tactic(auto, using(crate::proofs::FaithfulComputed::withheld_text, crate::proofs::FaithfulComputed::unjournaled_item, crate::proofs::FaithfulComputed::uncounted_fault, crate::proofs::FaithfulComputed::short_journal, crate::proofs::FaithfulComputed::early_end, crate::proofs::FaithfulComputed::end_of_another_invocation, crate::proofs::FaithfulComputed::event_behind_the_end, crate::proofs::FaithfulComputed::open_behind_the_end, crate::proofs::FaithfulComputed::failure_behind_a_refusal, crate::proofs::FaithfulComputed::failure_behind_the_end))]
pub fn unfaithful_examples()
    ensures text { WithheldText }
    ensures item { UnjournaledItem }
    ensures fault { UncountedFault }
    ensures short { ShortJournal }
    ensures early { EarlyEnd }
    ensures invocation { EndOfAnotherInvocation }
    ensures behind { EventBehindTheEnd }
    ensures open { OpenBehindTheEnd }
    ensures refusal { FailureBehindARefusal }
    ensures link_end { FailureBehindTheEnd }
{}

/// Does nothing: it is there for its contract. What changes and runs come to, that an ended session stays ended, when a
/// journal is full, and how many lines of a transcript are taken today.
#[tactic(auto, using(crate::proofs::StepsComputed::equal_value, crate::proofs::StepsComputed::other_value, crate::proofs::StepsComputed::client_sets, crate::proofs::StepsComputed::forgets_sites, crate::proofs::StepsComputed::runs_the_budget, crate::proofs::StepsComputed::stays_ended, crate::proofs::StepsComputed::full_of_events, crate::proofs::StepsComputed::full_of_bytes, crate::proofs::StepsComputed::last_line_taken, crate::proofs::StepsComputed::line_too_many))]
pub fn step_examples()
    ensures equal { EqualValue }
    ensures other { OtherValue }
    ensures client { ClientSets }
    ensures sites { ForgetsSites }
    ensures budget { RunsTheBudget }
    ensures ended { StaysEnded }
    ensures events { FullOfEvents }
    ensures bytes { FullOfBytes }
    ensures line { LastLineTaken }
    ensures lines { LineTooMany }
{}

/// Does nothing: it is there for its contract. Sessions that don't stand for a state: one of another size, an output that is
/// left out, that is stale, that depends on a source more or has another outcome, and an observer said to run that never ran.
#[tactic(auto, using(crate::proofs::StandingRefused::state_of_another_size, crate::proofs::StandingRefused::output_left_out, crate::proofs::StandingRefused::stale_output, crate::proofs::StandingRefused::one_source_more, crate::proofs::StandingRefused::stale_outcome, crate::proofs::StandingRefused::running_that_never_ran))]
pub fn standing_examples()
    ensures size { StateOfAnotherSize }
    ensures left_out { OutputLeftOut }
    ensures stale { StaleOutput }
    ensures sources { OneSourceMore }
    ensures outcome { StaleOutcome }
    ensures running { RunningThatNeverRan }
{}
