//! What the definition of the first refusal comes to.

ghost use Rattle.app_check.specs.Laws.{RefusesFirst, GivesWherePasses, RefusesFirstUncovered, GivesWhereSound};

/// Does nothing: it is there for its contract. The refusal of a draft is one of the checks that it fails,
/// and none of these precedes it; and a draft gives an app exactly where it fails no check.
#[tactic(auto, using(crate::proofs::Firsts::refuses_first, crate::proofs::Firsts::gives_where_passes))]
pub fn first_refusal_laws()
    ensures refuses { RefusesFirst }
    ensures gives { GivesWherePasses }
{}

/// Does nothing: it is there for its contract. Where no other check refuses a draft, it is refused for the first of
/// its readers, in rising number, whose keys don't cover its body; and it gives its app exactly where there is none.
#[tactic(auto, using(crate::proofs::LastChecks::refuses_first_uncovered, crate::proofs::LastChecks::gives_where_sound))]
pub fn cached_reader_laws()
    ensures refuses { RefusesFirstUncovered }
    ensures gives { GivesWhereSound }
{}
