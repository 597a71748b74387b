ghost use Rattle.std.specs.Prelude.{◌≡◌, ◌≤◌, ◌<◌, ◌*◌, ◌^◌, length};
ghost use Rattle.wasm_types.specs.MemoryTypes.{page_size, within_maximum};
ghost use Rattle.spec_machine.specs.Growth.{growth_rule, answered_growth, memory_growing, memory_range as range_of_type, pages, table_growing, table_range};
ghost use Rattle.store_state.specs.Growing.{says, decided, growth_of, memory_says, table_says};
ghost use Rattle.store_state.specs.Questions.{growth};
ghost use Rattle.store_state.specs.Within.{IsMemorySized, IsTableSized};

use wasm_meter::LimiterFailed;
use wasm_objects::{MemoryObject, TableObject};
use wasm_types::{MemoryType, TableType};
use wasm_values::Refusal;

/// The most bytes of a memory.
const MOST_BYTES: u64 = 1 << 32;

/// The most pages of a memory.
const MOST_PAGES: u64 = (1 << 32) - 1;

/// The most elements of a table.
const MOST_ELEMENTS: u64 = (1 << 32) - 1;

/// What may grow.
#[derive(Clone, Copy)]
pub enum Growable {
    Memory,
    Table,
}

/// A question to the limiter: what is to grow, its size, the size that is wanted, and its declared maximum, in bytes of
/// a memory and in elements of a table.
#[derive(Clone, Copy)]
pub struct GrowthQuestion {
    pub object: Growable,
    pub current: usize,
    pub desired: usize,
    pub maximum: Option<usize>,
}

/// What is said of a growth before the limiter is asked.
#[derive(Clone, Copy)]
pub enum GrowthRule {
    /// It is granted.
    Grows,
    /// It fails.
    Fails,
    /// The limiter is to be asked.
    Asks(GrowthQuestion),
}

/// What is said of a growth, and the size before: the pages of a memory, or the elements of a table. Either is below
/// 2^32.
#[derive(Clone, Copy)]
pub struct SizedRule {
    pub before: u32,
    pub rule: GrowthRule,
}

// Whether a size is within a maximum, where there is one.
fn is_within(desired: usize, maximum: Option<usize>) -> bool
    ensures { result ≡ within_maximum desired maximum }
{
    match maximum {
        Some(most) => desired <= most,
        None => true,
    }
}

// What is said of a growth: nothing more is granted, past the range it fails, then the limiter is asked where there is
// one, and past the maximum it fails.
fn rule(
    limited: bool,
    range: u64,
    object: Growable,
    current: u64,
    desired: u128,
    maximum: Option<usize>,
) -> GrowthRule
    ensures { let g = growth object current desired maximum in result ≡ says (growth_rule limited range g) g }
{
    if desired == u128::from(current) {
        return GrowthRule::Grows;
    }
    if desired > u128::from(range) {
        return GrowthRule::Fails;
    }
    let desired = desired as usize;
    if limited {
        let current = current as usize;
        return GrowthRule::Asks(GrowthQuestion {
            object,
            current,
            desired,
            maximum,
        });
    }
    if is_within(desired, maximum) {
        return GrowthRule::Grows;
    }
    GrowthRule::Fails
}

// The range of indices of a memory of this type, in bytes.
fn memory_range(ty: &MemoryType) -> u64
    ensures { result ≡ range_of_type ty.now }
{
    MOST_BYTES.min(MOST_PAGES * ty.page_size())
}

/// What is said of a memory of so many pages that is to have `delta` more.
pub fn memory_rule(limited: bool, ty: &MemoryType, pages: u64, delta: u64) -> GrowthRule
    requires { pages * page_size ty.now ≤ 2 ^ 32 }
    ensures { let g = memory_growing ty.now pages delta in
        result ≡ says (growth_rule limited (range_of_type ty.now) g) g }
{
    let page_size = ty.page_size();
    let current = pages * page_size;
    let desired = (u128::from(pages) + u128::from(delta)) * u128::from(page_size);
    let maximum = match ty.maximum() {
        Some(most) => Some((most * page_size) as usize),
        None => None,
    };
    rule(
        limited,
        memory_range(ty),
        Growable::Memory,
        current,
        desired,
        maximum,
    )
}

/// What is said of a table of so many elements that is to have `delta` more.
pub fn table_rule(limited: bool, ty: &TableType, elements: usize, delta: u64) -> GrowthRule
    ensures { let g = table_growing ty.now elements delta in result ≡ says (growth_rule limited table_range g) g }
{
    let current = elements as u64;
    let desired = u128::from(current) + u128::from(delta);
    let maximum = match ty.maximum() {
        Some(most) => Some(most as usize),
        None => None,
    };
    rule(
        limited,
        MOST_ELEMENTS,
        Growable::Table,
        current,
        desired,
        maximum,
    )
}

/// What is said of a memory that is to have `delta` more pages, and how many it has.
pub fn rule_of_memory(limited: bool, memory: &MemoryObject, delta: u64) -> SizedRule
    requires { IsMemorySized memory.now.memory }
    ensures before { result.before ≡ pages memory.now.memory }
    ensures rule { result.rule ≡ memory_says limited memory.now.memory delta }
{
    let ty = memory.ty();
    let pages = memory.bytes().len() as u64 / ty.page_size();
    SizedRule {
        before: pages as u32,
        rule: memory_rule(limited, ty, pages, delta),
    }
}

/// What is said of a table that is to have `delta` more elements, and how many it has.
pub fn rule_of_table(limited: bool, table: &TableObject, delta: u64) -> SizedRule
    requires { IsTableSized table.now.table }
    ensures before { result.before ≡ length table.now.table.elements }
    ensures rule { result.rule ≡ table_says limited table.now.table delta }
{
    let elements = table.size();
    SizedRule {
        before: elements as u32,
        rule: table_rule(limited, table.ty(), elements, delta),
    }
}

impl GrowthQuestion {
    /// What the limiter's answer to this question comes to: `GrowFailed` where it said no or the maximum is passed,
    /// `LimiterFault` where it failed.
    pub fn decide(&self, answer: Result<bool, LimiterFailed>) -> Result<(), Refusal>
        ensures { result ≡ decided (answered_growth (growth_of self.now) answer) }
    {
        match answer {
            Ok(granted) => {
                if granted && is_within(self.desired, self.maximum) {
                    return Ok(());
                }
                Err(Refusal::GrowFailed)
            }
            Err(_) => Err(Refusal::LimiterFault),
        }
    }
}
