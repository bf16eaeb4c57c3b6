//! What the lines that are taken today are of a whole replay.

ghost use Rattle.session_laws.specs.TakenWhole.{TakenIsWhole};

/// Does nothing: it is there for its contract. A transcript of which every line is taken today is taken to its end by the
/// definitions of the whole language and of transcripts of several sessions too, and has the same output.
#[tactic(auto, using(crate::proofs::TakenReplay::taken_is_whole))]
pub fn taken_is_whole()
    ensures { TakenIsWhole }
{}
