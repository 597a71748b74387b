ghost use Rattle.std.specs.Prelude.{◌≡◌};
ghost use Rattle.std.specs.Int.{w32, w64};
ghost use Rattle.binary_run.specs.Numbers as numbers;

/// A number from 0 on that has 64 bits.
pub(crate) fn unsigned_64(word: &str) -> Option<u64>
    ensures { result ≡ numbers.unsigned 64 word.now }
{
    word.parse::<u64>().ok()
}

/// A number from 0 on that has 32 bits.
pub(crate) fn unsigned_32(word: &str) -> Option<u32>
    ensures { result ≡ numbers.unsigned 32 word.now }
{
    word.parse::<u32>().ok()
}

fn signed_64(word: &str) -> Option<i64>
    ensures { result ≡ numbers.signed 64 word.now }
{
    word.parse::<i64>().ok()
}

fn signed_32(word: &str) -> Option<i32>
    ensures { result ≡ numbers.signed 32 word.now }
{
    word.parse::<i32>().ok()
}

/// An integer of 64 bits: a signed number, or else one from 0 on, which is the signed number of the same bits.
pub(crate) fn integer_64(word: &str) -> Option<i64>
    ensures { result ≡ numbers.integer w64 64 word.now }
{
    match signed_64(word) {
        Some(number) => Some(number),
        None => Some(unsigned_64(word)?.cast_signed()),
    }
}

/// An integer of 32 bits: a signed number, or else one from 0 on, which is the signed number of the same bits.
pub(crate) fn integer_32(word: &str) -> Option<i32>
    ensures { result ≡ numbers.integer w32 32 word.now }
{
    match signed_32(word) {
        Some(number) => Some(number),
        None => Some(unsigned_32(word)?.cast_signed()),
    }
}
