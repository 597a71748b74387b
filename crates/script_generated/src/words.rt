ghost use Rattle.std.specs.Prelude.{◌≡◌, ◌≤◌, map, string_bytes, IfSome};
ghost use Rattle.script_generated.specs.Words.{IsWithin, calls_of, number_from, origin_of};

/// Where the script of a session comes from.
#[derive(Clone, Copy, Debug, PartialEq, Eq)]
pub enum Origin {
    /// The input spells it.
    Input,
    /// It is generated, with so many calls, from 1 to 1,000.
    Generated(u32),
}

/// The number that digits spell behind those of `n`, where it is at most 1,000.
fn number_from(n: u32, digits: &[u8]) -> Option<u32>
    requires { n ≤ 1000 }
    ensures value { result ≡ number_from n digits.now }
    ensures most { IfSome result (λ n. n ≤ 1000) }
{
    match digits {
        [] => Some(n),
        [digit, rest @ ..] => {
            if *digit < 48 || *digit > 57 {
                return None;
            }
            let more = n * 10 + u32::from(*digit - 48);
            if more > 1000 {
                return None;
            }
            number_from(more, rest)
        }
    }
}

/// The number from 1 to 1,000 that this spells in decimal, without a leading zero.
fn calls_of(number: &[u8]) -> Option<u32>
    ensures value { result ≡ calls_of number.now }
    ensures most { IfSome result (λ n. n ≤ 1000) }
{
    match number {
        [] | [48, ..] => None,
        _ => number_from(0, number),
    }
}

/// Where the words, which are those after the program's name, have a session's script come from: from the input for `run`,
/// and for `gen` and a number from 1 to 1,000, in decimal without a leading zero, it is generated with so many calls. `None`
/// exactly for all other words.
pub fn origin_of(words: &[String]) -> Option<Origin>
    ensures value { result ≡ origin_of (map string_bytes words.now) }
    ensures most { IfSome result IsWithin }
{
    match words {
        [word] if word.as_str() == "run" => Some(Origin::Input),
        [word, number] if word.as_str() == "gen" => match calls_of(number.as_bytes()) {
            Some(n) => Some(Origin::Generated(n)),
            None => None,
        },
        _ => None,
    }
}
