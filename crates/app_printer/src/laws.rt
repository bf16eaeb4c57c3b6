//! The laws of printing. Each function does nothing: it is there for its contract.

ghost use Rattle.app_printer.specs.Laws.{TokensAreSpelling, TextIsRead, NamedIsUnplaced};

/// The canonical text of a draft is cut into the tokens of the draft's canonical spelling.
#[tactic(auto, using(crate::proofs::DraftLaws::tokens_are_spelling))]
pub fn tokens_are_spelling()
    ensures { TokensAreSpelling }
{}

/// The canonical text of a draft is read as the draft, but for its places.
#[tactic(auto, using(crate::proofs::DraftLaws::text_is_read))]
pub fn text_is_read()
    ensures { TextIsRead }
{}

/// The draft in which an app is written has every place 0.
#[tactic(auto, using(crate::proofs::NamedLaws::named_is_unplaced))]
pub fn named_is_unplaced()
    ensures { NamedIsUnplaced }
{}
