//! What is expected of the steps of a session, whatever its app. Each function does nothing: it is there for its contract.

ghost use Rattle.session_steps.specs.StandLaws.{AlikeStands, ForceStands, OutputStands, BodyIsKeyed, BeginStands, FinishStands, TermStands, WriteStands};

/// A session that stands for a state stands, after each step, for the state that the same step leaves: an expression that is
/// made alive, with runs, waits and hits; an output that is run; the beginning and the end of an observer's run, and each of
/// its terms; and a write. The order of sources says nothing, and the body of a cached reader that wants nothing comes to what
/// the values of its keys say.
pub fn stand_laws()
    ensures alike { AlikeStands }
    ensures force { ForceStands }
    ensures output { OutputStands }
    ensures body { BodyIsKeyed }
    ensures begin { BeginStands }
    ensures finish { FinishStands }
    ensures term { TermStands }
    ensures write { WriteStands }
{}
