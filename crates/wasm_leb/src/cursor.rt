ghost use Rattle.std.specs.Prelude.{◌≡◌, ◌+◌, ◌-◌, ◌<◌, ◌≤◌, ◌^◌, length, pos, ◌+ℤ◌, ◌<ℤ◌, ◌≤ℤ◌, IfSome};
ghost use Rattle.std.specs.Option.{option_copied};
ghost use Rattle.wasm_leb.specs.Items.{ReadsItem};
ghost use Rattle.wasm_leb.specs.Names.{IsName, name};
ghost use Rattle.wasm_leb.specs.Numbers.{IsSigned, IsUnsigned, signed, unsigned};
ghost use Rattle.wasm_leb.specs.Places.{Reads, ReadsBytes, ReadsPart, ReadsText, byte, bytes, place};

use crate::numbers::{signed_of, unsigned_of};
use std::marker::Model;

/// A place in bytes, from which they are read item by item.
///
/// Contracts see how many bytes lie before it, and the bytes that are left. What reads an item answers `None` exactly
/// where no front of the bytes left is such an item, and then the cursor stands where it stood; else it stands behind
/// the item. Nothing takes memory.
#[derive(Drop)]
pub struct Cursor<'a> {
    at: usize,
    left: &'a [u8],
}

impl<'a> Model for Cursor<'a> {
    ghost use Rattle.std.specs.Prelude.{◌+◌, ◌^◌, ◌<◌, length};
    ghost use Rattle.wasm_leb.specs.Places.{Place, place};

    ghost Value = { Place };

    ghost view = { λ c. place c.at c.left.now };

    ghost invariant = { λ c. c.at + length c.left.now < 2 ^ 64 };
}

impl<'a> Cursor<'a> {
    /// A cursor before the first of the bytes.
    pub fn new(bytes: &'a [u8]) -> Cursor<'a>
        ensures { result ≡ place 0 bytes.now }
    {
        Cursor { at: 0, left: bytes }
    }

    /// How many bytes lie before it.
    pub fn at(&self) -> usize
        ensures { result ≡ self.now.at }
    {
        self.at
    }

    /// The bytes that are left.
    pub fn left(&self) -> &'a [u8]
        ensures { result.now ≡ self.now.left }
    {
        self.left
    }

    /// One byte.
    pub fn byte(&mut self) -> Option<u8>
        ensures { Reads (byte self.old) self.old result self.new }
    {
        match self.left {
            [b, rest @ ..] => {
                self.at += 1;
                self.left = rest;
                Some(*b)
            }
            [] => None,
        }
    }

    // The number without sign, of so many bits.
    #[tactic(auto, unfolding(crate::specs::Numbers::unsigned))]
    fn unsigned(&mut self, bits: u32) -> Option<u64>
        requires { bits ≤ 64 }
        ensures read { Reads (unsigned bits self.old) self.old result self.new }
        ensures bound { IfSome result (λ n. n < 2 ^ bits) }
    {
        match unsigned_of(bits, self.at, self.left) {
            Some((n, at, left)) => {
                self.at = at;
                self.left = left;
                Some(n)
            }
            None => None,
        }
    }

    /// A number of 32 bits without sign, in at most five bytes.
    #[tactic(auto, using(crate::proofs::NumberLemmas::unsigned_found, crate::proofs::NumberLemmas::unsigned_none))]
    pub fn u32(&mut self) -> Option<u32>
        ensures read { Reads (unsigned 32 self.old) self.old result self.new }
        ensures item { ReadsItem (IsUnsigned 32) self.old result self.new }
    {
        match self.unsigned(32) {
            Some(n) => Some(n as u32),
            None => None,
        }
    }

    // The number with sign, of so many bits.
    #[tactic(auto, unfolding(crate::specs::Numbers::signed))]
    fn signed(&mut self, bits: u32) -> Option<i64>
        requires { (0 < bits) × (bits ≤ 64) }
        ensures read { Reads (signed bits self.old) self.old result self.new }
        ensures below { IfSome result (λ z. z <ℤ pos (2 ^ (bits - 1))) }
        ensures above { IfSome result (λ z. pos 0 ≤ℤ (z +ℤ pos (2 ^ (bits - 1)))) }
    {
        match signed_of(bits, self.at, self.left) {
            Some((z, at, left)) => {
                self.at = at;
                self.left = left;
                Some(z)
            }
            None => None,
        }
    }

    /// A number of 32 bits with sign, in at most five bytes.
    #[tactic(auto, using(crate::proofs::NumberLemmas::signed_found, crate::proofs::NumberLemmas::signed_none))]
    pub fn i32(&mut self) -> Option<i32>
        ensures read { Reads (signed 32 self.old) self.old result self.new }
        ensures item { ReadsItem (IsSigned 32) self.old result self.new }
    {
        match self.signed(32) {
            Some(z) => Some(z as i32),
            None => None,
        }
    }

    /// A number of 64 bits with sign, in at most ten bytes.
    #[tactic(auto, using(crate::proofs::NumberLemmas::signed_item))]
    pub fn i64(&mut self) -> Option<i64>
        ensures read { Reads (signed 64 self.old) self.old result self.new }
        ensures item { ReadsItem (IsSigned 64) self.old result self.new }
    {
        self.signed(64)
    }

    /// A number of 33 bits with sign, in at most five bytes.
    #[tactic(auto, using(crate::proofs::NumberLemmas::signed_item))]
    pub fn s33(&mut self) -> Option<i64>
        ensures read { Reads (signed 33 self.old) self.old result self.new }
        ensures item { ReadsItem (IsSigned 33) self.old result self.new }
        ensures below { IfSome result (λ z. z <ℤ pos (2 ^ 32)) }
    {
        self.signed(33)
    }

    /// So many bytes.
    pub fn take(&mut self, len: usize) -> Option<&'a [u8]>
        ensures { ReadsBytes (bytes len self.old) self.old result self.new }
    {
        if len > self.left.len() {
            return None;
        }
        let (front, rest) = self.left.split_at(len);
        self.at += len;
        self.left = rest;
        Some(front)
    }

    /// So many bytes, as a cursor over them alone, which goes on counting from this one.
    pub fn part(&mut self, len: usize) -> Option<Cursor<'a>>
        ensures { ReadsPart len self.old result self.new }
    {
        if len > self.left.len() {
            return None;
        }
        let (front, rest) = self.left.split_at(len);
        let at = self.at;
        self.at += len;
        self.left = rest;
        Some(Cursor { at, left: front })
    }

    /// A name: a number of bytes, and so many bytes, which are UTF-8.
    #[tactic(auto, using(crate::proofs::NameLemmas::name_found, crate::proofs::NameLemmas::name_none))]
    pub fn name(&mut self) -> Option<&'a str>
        ensures read { ReadsBytes (name self.old) self.old result self.new }
        ensures item { ReadsItem IsName self.old (option_copied result) self.new }
    {
        let at = self.at;
        let left = self.left;
        match self.text() {
            Some(text) => Some(text),
            None => {
                self.at = at;
                self.left = left;
                None
            }
        }
    }

    // As `name`, but where there is none the cursor may stand behind its beginning.
    #[tactic(auto, unfolding(crate::specs::Names::name), using(crate::proofs::Texts::is_text, crate::proofs::Texts::is_no_text))]
    fn text(&mut self) -> Option<&'a str>
        ensures { ReadsText (name self.old) result self.new }
    {
        let count = self.u32()?;
        let bytes = self.take(count as usize)?;
        match str::from_utf8(bytes) {
            Ok(text) => Some(text),
            Err(_) => None,
        }
    }
}
