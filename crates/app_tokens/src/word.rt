ghost use Rattle.std.specs.Prelude.{◌≡◌};
ghost use Rattle.app_tokens.specs.Word.{word_in, word_of, entries};

/// A reserved word. Every other word is a name.
#[derive(Clone, Copy, Debug, PartialEq, Eq)]
pub enum Word {
    Budget,
    Input,
    Value,
    Task,
    Reactive,
    Event,
    Text,
    Plot,
    Observe,
    On,
    Priority,
    IgnoreInit,
    AllowNull,
    WhileHidden,
    Cache,
    Set,
    Invoke,
    Update,
    Freeze,
    Do,
    If,
    Else,
    True,
    False,
    Null,
    C,
    Isolate,
    Req,
    CancelOutput,
    Stop,
    Fold,
    Result,
    Status,
    Width,
    Height,
    Paste0,
    Length,
    Nchar,
    Item,
    Sum,
    Min,
    Max,
    Seq,
    IsNull,
    AsInt,
    Bars,
    Lines,
    Points,
}

/// How each reserved word is spelled.
const RESERVED: [(&str, Word); 48] = [
    ("budget", Word::Budget),
    ("input", Word::Input),
    ("value", Word::Value),
    ("task", Word::Task),
    ("reactive", Word::Reactive),
    ("event", Word::Event),
    ("text", Word::Text),
    ("plot", Word::Plot),
    ("observe", Word::Observe),
    ("on", Word::On),
    ("priority", Word::Priority),
    ("ignoreInit", Word::IgnoreInit),
    ("allowNull", Word::AllowNull),
    ("whileHidden", Word::WhileHidden),
    ("cache", Word::Cache),
    ("set", Word::Set),
    ("invoke", Word::Invoke),
    ("update", Word::Update),
    ("freeze", Word::Freeze),
    ("do", Word::Do),
    ("if", Word::If),
    ("else", Word::Else),
    ("TRUE", Word::True),
    ("FALSE", Word::False),
    ("NULL", Word::Null),
    ("c", Word::C),
    ("isolate", Word::Isolate),
    ("req", Word::Req),
    ("cancelOutput", Word::CancelOutput),
    ("stop", Word::Stop),
    ("fold", Word::Fold),
    ("result", Word::Result),
    ("status", Word::Status),
    ("width", Word::Width),
    ("height", Word::Height),
    ("paste0", Word::Paste0),
    ("length", Word::Length),
    ("nchar", Word::Nchar),
    ("item", Word::Item),
    ("sum", Word::Sum),
    ("min", Word::Min),
    ("max", Word::Max),
    ("seq", Word::Seq),
    ("is_null", Word::IsNull),
    ("as_int", Word::AsInt),
    ("bars", Word::Bars),
    ("lines", Word::Lines),
    ("points", Word::Points),
];

fn word_in(table: &[(&str, Word)], spelling: &[u8]) -> Option<Word>
    ensures { result ≡ word_in (entries table.now) spelling.now }
{
    for (reserved, word) in table {
        if reserved.as_bytes() == spelling {
            return Some(*word);
        }
    }
    None
}

/// The reserved word that is spelled so.
#[tactic(auto, unfolding(crate::specs::Word::word_of))]
pub fn reserved_word(spelling: &[u8]) -> Option<Word>
    ensures { result ≡ word_of spelling.now }
{
    word_in(&RESERVED, spelling)
}
