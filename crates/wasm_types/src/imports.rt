ghost use Rattle.std.specs.Prelude.{◌≡◌};
ghost use Rattle.std.specs.Option.{option_copied};
ghost use Rattle.wasm_types.specs.ExternTypes.{maximum_fits, global_fits, table_fits, memory_fits, import_matches};

use crate::extern_type::{ExternType, GlobalType};
use crate::memory_type::MemoryType;
use crate::plain::Mutability;
use crate::table_type::TableType;

fn maximum_fits(declared: Option<u64>, actual: Option<u64>) -> bool
    ensures { result ≡ maximum_fits declared actual }
{
    match (declared, actual) {
        (None, _) => true,
        (Some(_), None) => false,
        (Some(declared), Some(actual)) => actual <= declared,
    }
}

/// Whether a global that is given for an import matches what is declared: a constant one has a content that matches, a
/// variable one an equal content.
#[tactic(auto, using(crate::proofs::DerivedEqualityLemmas::val_alike))]
pub fn global_fits(declared: &GlobalType, actual: &GlobalType) -> bool
    ensures { result ≡ global_fits declared.now actual.now }
{
    match (declared.mutability(), actual.mutability()) {
        (Mutability::Const, Mutability::Const) => actual.content().matches(declared.content()),
        (Mutability::Var, Mutability::Var) => declared.content() == actual.content(),
        _ => false,
    }
}

/// Whether a table of so many elements that is given for an import matches what is declared: the element types are equal,
/// the present size is at least the declared minimum, and where a maximum is declared the actual one is there and is not
/// greater.
#[tactic(auto, using(crate::proofs::DerivedEqualityLemmas::ref_alike))]
pub fn table_fits(declared: &TableType, actual: &TableType, current: u64) -> bool
    ensures { result ≡ table_fits declared.now actual.now current }
{
    declared.element() == actual.element()
        && declared.minimum() <= current
        && maximum_fits(declared.maximum(), actual.maximum())
}

/// The same of a memory of so many pages, whose page size is equal.
pub fn memory_fits(declared: &MemoryType, actual: &MemoryType, current: u64) -> bool
    ensures { result ≡ memory_fits declared.now actual.now current }
{
    declared.page_size_log2() == actual.page_size_log2()
        && declared.minimum() <= current
        && maximum_fits(declared.maximum(), actual.maximum())
}

/// Whether what is given for an import matches what is declared. `current` is the present size of what is given, in
/// pages or elements; a function, a global and a tag have none.
///
/// A function's type matches. A constant global has a content that matches, a variable one an equal content. A
/// table's element type and a memory's page size are equal; the present size is at least the declared minimum, and
/// where a maximum is declared the actual one is there and is not greater. A tag's type is equal.
pub fn import_matches(declared: &ExternType, actual: &ExternType, current: u64) -> bool
    ensures { result ≡ import_matches declared.now actual.now current }
{
    match (declared, actual) {
        (ExternType::Func(declared), ExternType::Func(actual)) => actual.matches(declared),
        (ExternType::Global(declared), ExternType::Global(actual)) => global_fits(declared, actual),
        (ExternType::Table(declared), ExternType::Table(actual)) => {
            table_fits(declared, actual, current)
        }
        (ExternType::Memory(declared), ExternType::Memory(actual)) => {
            memory_fits(declared, actual, current)
        }
        (ExternType::Tag(declared), ExternType::Tag(actual)) => declared.ty() == actual.ty(),
        _ => false,
    }
}
