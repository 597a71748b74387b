ghost use Rattle.std.specs.Prelude.{◌≡◌, true, Some, None, map, string_bytes, IfSome, IfNone};
ghost use Rattle.spec_machine.specs.Machine.{are_engine_limits};
ghost use Rattle.binary_run.specs.Words as forms;
ghost use Rattle.binary_run.specs.Words.{asked_of};

use crate::numbers::{unsigned_32, unsigned_64};
use crate::options::{OptionName, Options};

/// The most turns of a command, and how many there are where the words do not say.
const MOST_TURNS: u64 = 1_000_000_000;

/// The pages of all memories together where the words do not say.
const PAGES: u32 = 16_384;

/// The elements of all tables together where the words do not say.
const ELEMENTS: u32 = 10_000_000;

/// What the words ask for: options, the name of an export, and the words of its arguments.
#[derive(Clone, Copy)]
pub(crate) struct CallWords<'a> {
    pub(crate) options: Options,
    pub(crate) name: &'a str,
    pub(crate) arguments: &'a [String],
}

fn option_named(word: &str) -> Option<OptionName>
    ensures { result ≡ forms.option_named word.now }
{
    match word {
        "--fuel" => Some(OptionName::Fuel),
        "--turns" => Some(OptionName::Turns),
        "--pages" => Some(OptionName::Pages),
        "--elements" => Some(OptionName::Elements),
        "--in" => Some(OptionName::In),
        _ => None,
    }
}

fn with_turns(options: Options, turns: u64) -> Option<Options>
    ensures { result ≡ forms.with_turns options turns }
{
    if turns < 1 || turns > MOST_TURNS {
        return None;
    }
    Some(Options { turns, ..options })
}

fn with_number(options: Options, name: OptionName, word: &str) -> Option<Options>
    ensures { result ≡ forms.with_number options name word.now }
{
    match name {
        OptionName::Fuel => {
            let fuel = unsigned_64(word)?;
            Some(Options {
                fuel: Some(fuel),
                ..options
            })
        }
        OptionName::Turns => with_turns(options, unsigned_64(word)?),
        OptionName::Pages => {
            let pages = unsigned_32(word)?;
            Some(Options { pages, ..options })
        }
        OptionName::Elements => {
            let elements = unsigned_32(word)?;
            Some(Options {
                elements,
                ..options
            })
        }
        OptionName::In => {
            let bytes = unsigned_32(word)?;
            Some(Options {
                bytes: Some(bytes),
                ..options
            })
        }
    }
}

/// What the words ask for; `None` exactly where they ask for no call.
pub(crate) fn asked(words: &[String]) -> Option<CallWords<'_>>
    ensures asked { IfSome result (λ a. forms.asked (map string_bytes words.now) ≡ Some (asked_of a)) }
    ensures none { IfNone result (forms.asked (map string_bytes words.now) ≡ None) }
    ensures limits { IfSome result (λ a. are_engine_limits forms.frames a.options.turns ≡ true) }
{
    let mut options = Options {
        fuel: None,
        turns: MOST_TURNS,
        pages: PAGES,
        elements: ELEMENTS,
        bytes: None,
    };
    let mut rest = words;
    'options: while let [word, arguments @ ..] = rest {
        let Some(name) = option_named(word.as_str()) else {
            return Some(CallWords {
                options,
                name: word.as_str(),
                arguments,
            });
        };
        let [number, others @ ..] = arguments else {
            return None;
        };
        options = with_number(options, name, number.as_str())?;
        rest = others;
    }
    None
}
