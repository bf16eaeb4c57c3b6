//! How many bodies a session that keeps outcomes runs, whatever its app. Each function does nothing: it is there for its contract.

ghost use Rattle.session_steps.specs.BodyLaws.{EachRunsOnce, NoMoreThanReaders, TermRunsNoMore, ForceIsBounded, OutputIsBounded, TermIsBounded, WriteIsBounded, BeginIsBounded, FinishIsBounded, ForceBeginsBounded, OutputBeginsBounded, TermBeginsBounded};

/// Each body is run at most once in a step, and only where its reader isn't alive, but for the one that is run whether it is
/// alive or not. So there are no more than readers, also in a term of an observer, and where memory is wanting on the way.
pub fn once_laws()
    ensures once { EachRunsOnce }
    ensures readers { NoMoreThanReaders }
    ensures term { TermRunsNoMore }
{}

/// The bodies that a session runs in a step, with the readers that are missing after it, are at most as many as the bodies that
/// the state counts, with those that were missing: of an expression that is made alive, of an output that is run, and of a
/// term of an observer.
pub fn bound_laws()
    ensures force { ForceIsBounded }
    ensures output { OutputIsBounded }
    ensures term { TermIsBounded }
{}

/// A write, the beginning of an observer's run and its end run no body, and no more readers are missing after them.
pub fn quiet_laws()
    ensures write { WriteIsBounded }
    ensures begin { BeginIsBounded }
    ensures finish { FinishIsBounded }
{}

/// Where memory is wanting on the way, the bodies that were run are no more than that either.
pub fn want_laws()
    ensures force { ForceBeginsBounded }
    ensures output { OutputBeginsBounded }
    ensures term { TermBeginsBounded }
{}
