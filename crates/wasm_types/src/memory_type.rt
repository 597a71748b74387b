ghost use Rattle.std.specs.Prelude.{◌≡◌, ℕ, ◌^◌, ◌<◌, ◌≤◌, ◌↔◌, ◌⊎◌, true, IsOk, IfOk, IfErr, IfSome};
ghost use Rattle.wasm_types.specs.MemoryTypes.{memory_parts, are_memory_limits, within_maximum, within_range, page_size};

use crate::faults::TypeFault;
use std::alloc::AllocError;
use std::marker::Model;

/// The most pages of 64 KiB that a memory type may name: 2^32 bytes.
const MOST_PAGES: u32 = 65536;

/// The type of a memory: its least and greatest number of pages, and the size of a page.
#[derive(PartialEq, Eq, Drop)]
pub struct MemoryType {
    minimum: u32,
    maximum: Option<u32>,
    page_size_log2: u8,
}

impl Model for MemoryType {
    ghost use Rattle.std.specs.Prelude.{◌≡◌, true};
    ghost use Rattle.wasm_types.specs.MemoryTypes.{MemoryParts, memory_parts, are_memory_limits};

    ghost Value = { MemoryParts };

    ghost view = { λ t. memory_parts t.minimum t.maximum t.page_size_log2 };

    ghost invariant = { λ t. are_memory_limits (memory_parts t.minimum t.maximum t.page_size_log2) ≡ true };

    ghost inverse = { λ l. record { minimum = l.minimum; maximum = l.maximum; page_size_log2 = l.page_size_log2 } };
}

fn are_in_order(minimum: u32, maximum: Option<u32>) -> bool
    ensures { result ≡ within_maximum minimum maximum }
{
    match maximum {
        Some(most) => minimum <= most,
        None => true,
    }
}

fn are_in_range(minimum: u32, maximum: Option<u32>) -> bool
    ensures { result ≡ within_range minimum maximum }
{
    match maximum {
        Some(most) => minimum <= MOST_PAGES && most <= MOST_PAGES,
        None => minimum <= MOST_PAGES,
    }
}

impl MemoryType {
    /// A memory type of at least `minimum` and at most `maximum` pages of 2 to the power `page_size_log2` bytes.
    ///
    /// `BadLimits` where the exponent is neither 0 nor 16, where the minimum passes the maximum, or where one of
    /// them passes 65,536 pages of 64 KiB.
    pub fn new(
        minimum: u32,
        maximum: Option<u32>,
        page_size_log2: u8,
    ) -> Result<MemoryType, TypeFault>
        ensures accepted { IsOk result ↔ (are_memory_limits (memory_parts minimum maximum page_size_log2) ≡ true) }
        ensures parts { IfOk result (λ ty. ty ≡ memory_parts minimum maximum page_size_log2) }
        ensures refused { IfErr result (λ fault. fault ≡ TypeFault.BadLimits) }
    {
        if !are_in_order(minimum, maximum) {
            return Err(TypeFault::BadLimits);
        }
        if page_size_log2 == 0 || (page_size_log2 == 16 && are_in_range(minimum, maximum)) {
            return Ok(MemoryType {
                minimum,
                maximum,
                page_size_log2,
            });
        }
        Err(TypeFault::BadLimits)
    }

    /// The least number of pages, below 2^32.
    pub fn minimum(&self) -> u64
        ensures value { result ≡ self.now.minimum }
        ensures within { result < 2 ^ 32 }
    {
        u64::from(self.minimum)
    }

    /// The greatest number of pages, below 2^32, where the type names one.
    pub fn maximum(&self) -> Option<u64>
        ensures value { result ≡ self.now.maximum }
        ensures within { IfSome result (λ most. most < 2 ^ 32) }
    {
        match self.maximum {
            Some(most) => Some(u64::from(most)),
            None => None,
        }
    }

    /// The bytes of a page: 1 or 65,536.
    pub fn page_size(&self) -> u64
        ensures value { result ≡ page_size self.now }
        ensures one_of_two { (result ≡ 1) ⊎ (result ≡ 65536) }
    {
        if self.page_size_log2 == 0 { 1 } else { 65536 }
    }

    /// The size of a page as an exponent of 2: 0 or 16.
    pub fn page_size_log2(&self) -> u8
        ensures value { result ≡ self.now.page_size_log2 }
        ensures one_of_two { (result ≡ 0) ⊎ (result ≡ 16) }
    {
        self.page_size_log2
    }

    /// Each memory type keeps the limits that `new` tests.
    pub fn keeps_limits(&self)
        ensures { are_memory_limits self.now ≡ true }
    {
        let _minimum = &self.minimum;
    }
}

impl Clone for MemoryType {
    ghost use Rattle.std.specs.Prelude.{◌≡◌, IsOk};

    ghost is_clone = { λ x y. y ≡ x };

    fn clone(&self) -> Result<MemoryType, AllocError>
        ensures value { IfOk result (λ ty. ty ≡ self.now) }
        ensures takes_no_memory { IsOk result }
    {
        Ok(MemoryType {
            minimum: self.minimum,
            maximum: self.maximum,
            page_size_log2: self.page_size_log2,
        })
    }
}
