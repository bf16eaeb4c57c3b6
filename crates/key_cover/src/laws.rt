//! What is expected of the definition.

ghost use Rattle.key_cover.specs.MetLaws.{CoveredWhereNothingIsMet};

/// Does nothing: it is there for its contract. Nothing is met exactly where the keys cover the body.
#[tactic(auto, using(crate::proofs::Covering::covered_where_nothing_is_met))]
pub fn cover_laws()
    ensures { CoveredWhereNothingIsMet }
{}
