//! The laws of the grammar. Each function does nothing: it is there for its contract.

ghost use Rattle.app_reader.specs.Laws.{CutTokensFit, ReadIsSpelled, SpelledIsRead, CanonicalIsRead, DraftIsOne, RefusedIsNone};

/// The tokens of a file's bytes are such as the other laws ask for: numbers up to
/// 9,223,372,036,854,775,807, texts of at most 65,536 bytes that are UTF-8, none of them below 32 but line
/// feeds, and names that are words which aren't reserved.
pub fn cut_tokens_fit()
    ensures { CutTokensFit }
{}

/// What is read is a draft that a text can give, and the tokens are a spelling of that draft.
pub fn read_is_spelled()
    ensures { ReadIsSpelled }
{}

/// Each spelling of a draft that a text can give is read as that draft.
pub fn spelled_is_read()
    ensures { SpelledIsRead }
{}

/// The spelling of a draft in which its budget is written, a priority where it isn't 0, and no zero
/// with a sign, is read as that draft.
pub fn canonical_is_read()
    ensures { CanonicalIsRead }
{}

/// Tokens are a spelling of one draft at most that a text can give.
pub fn draft_is_one()
    ensures { DraftIsOne }
{}

/// Tokens that are refused are a spelling of no draft that a text can give.
pub fn refused_is_none()
    ensures { RefusedIsNone }
{}
