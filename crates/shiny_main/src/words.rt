ghost use Rattle.std.specs.Prelude.{◌≡◌};
ghost use Rattle.std.specs.Option.{option_map};
ghost use Rattle.shiny_main.specs.Words.{command_named, words_of};

/// What the program may be told to do with an app file.
#[derive(Clone, Copy, Debug, PartialEq, Eq)]
pub enum Command {
    /// Says how many items the app has.
    Check,
    /// Writes the app's canonical text.
    Print,
    /// Replays the transcript on the input.
    Replay,
}

/// A command and the file of its app.
#[derive(Clone, Copy)]
pub struct Words<'a> {
    pub command: Command,
    pub file: &'a str,
}

fn command_named(word: &str) -> Option<Command>
    ensures { result ≡ command_named word.now }
{
    match word {
        "check" => Some(Command::Check),
        "print" => Some(Command::Print),
        "replay" => Some(Command::Replay),
        _ => None,
    }
}

/// The command, where the words are a command's name and a file.
pub fn words_of(words: &[String]) -> Option<Words<'_>>
    ensures { option_map (λ w. (w.command, w.file.now)) result ≡ words_of words.now }
{
    match words {
        [name, file] => match command_named(name.as_str()) {
            Some(command) => Some(Words {
                command,
                file: file.as_str(),
            }),
            None => None,
        },
        _ => None,
    }
}
