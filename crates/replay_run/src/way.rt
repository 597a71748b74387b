ghost use Rattle.std.specs.Prelude.{◌≡◌, map, string_bytes};
ghost use Rattle.replay_run.specs.Words as forms;

/// What the program is asked for.
#[derive(Clone, Copy, Debug, PartialEq, Eq)]
pub enum Way {
    /// The tape of a script's run.
    Record,
    /// A script's run by a tape.
    Replay,
}

fn way_named(word: &str) -> Option<Way>
    ensures { result ≡ forms.way_named word.now }
{
    match word {
        "record" => Some(Way::Record),
        "replay" => Some(Way::Replay),
        _ => None,
    }
}

/// What the words ask for, which are those after the program's name.
pub(crate) fn way_of(words: &[String]) -> Option<Way>
    ensures { result ≡ forms.way_of (map string_bytes words.now) }
{
    match words {
        [word] => way_named(word.as_str()),
        _ => None,
    }
}
