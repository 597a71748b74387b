ghost use Rattle.std.specs.Prelude.{◌≡◌, map, string_bytes, IfOk};
ghost use Rattle.binary_bytes.specs.Runs.{words_in};

use std::alloc::{AllocError, Global};
use wasm_types::OutOfMemory;

/// The pieces between the bytes 0 of a text.
fn pieces<'a>(alloc: Global, text: &'a str) -> Result<Vec<&'a str>, AllocError>
    ensures { IfOk result (λ pieces. map (λ x. x.now) pieces.items ≡ words_in text.now) }
{
    text.split('\0').collect(alloc)
}

/// The same as texts of their own.
fn owned(alloc: Global, pieces: &[&str]) -> Result<Vec<String>, OutOfMemory>
    ensures { IfOk result (λ words. map string_bytes words.items ≡ map (λ x. x.now) pieces.now) }
{
    let mut words = Vec::new(alloc);
    for piece in pieces {
        words.push(String::from_str(alloc, *piece)?)?;
    }
    Ok(words)
}

/// The words of a text, which has a byte 0 between two of them.
pub(crate) fn words_of(alloc: Global, text: &str) -> Result<Vec<String>, OutOfMemory>
    ensures { IfOk result (λ words. map string_bytes words.items ≡ words_in text.now) }
{
    let pieces = pieces(alloc, text)?;
    let words = owned(alloc, pieces.as_slice())?;
    Ok(words)
}
