//! What follows from the definitions that the contracts cite. Each function does nothing: its contract is the law, and
//! a caller that names it has the law in its proof.
ghost use Rattle.wasm_types.specs.ExternTypes.{same_ref_type, same_val_type};
ghost use Rattle.wasm_types.specs.Equality.{same};
ghost use Rattle.wasm_types.specs.Laws.{IsExact, IsReflexive, IsTransitive, HasItsParts, IsOfItsParts, MatchesItsChain, FitsAlongChains, StaysInEngine, KeepsEngine, KeepsHeapEngine};
ghost use Rattle.wasm_types.specs.Matching.{matches, heap_matches, ref_matches, val_matches, all_match};

use crate::extern_type::{ExternType, GlobalType, TagType};
use crate::memory_type::MemoryType;
use crate::table_type::TableType;
use crate::value_types::{FuncType, HeapType, RefType, ValType};

/// `==` is true exactly where two types are equal: function types where all five parts are.
pub fn law_equality_exact()
    ensures functions { IsExact ⟦<FuncType as PartialEq>⟧.eq }
    ensures heaps { IsExact ⟦<HeapType as PartialEq>⟧.eq }
    ensures references { IsExact ⟦<RefType as PartialEq>⟧.eq }
    ensures values { IsExact ⟦<ValType as PartialEq>⟧.eq }
    ensures memories { IsExact ⟦<MemoryType as PartialEq>⟧.eq }
    ensures tables { IsExact ⟦<TableType as PartialEq>⟧.eq }
    ensures globals { IsExact ⟦<GlobalType as PartialEq>⟧.eq }
    ensures tags { IsExact ⟦<TagType as PartialEq>⟧.eq }
    ensures externs { IsExact ⟦<ExternType as PartialEq>⟧.eq }
{}

/// The tests of equality in the definition of matching are true exactly where two types are equal.
pub fn law_sameness_exact()
    ensures functions { IsExact same }
    ensures references { IsExact same_ref_type }
    ensures values { IsExact same_val_type }
{}

/// A function type and its five parts say the same.
pub fn law_parts()
    ensures has { HasItsParts }
    ensures is { IsOfItsParts }
{}

/// A function type matches exactly the members of the list that begins with it and goes on with the supertype of each
/// member.
pub fn law_matching_by_chain()
    ensures { MatchesItsChain }
{}

/// Each type matches itself.
pub fn law_matching_reflexive()
    ensures functions { IsReflexive matches }
    ensures heaps { IsReflexive heap_matches }
    ensures references { IsReflexive ref_matches }
    ensures values { IsReflexive val_matches }
    ensures lists { IsReflexive all_match }
{}

/// What matches a type that matches a third matches the third.
pub fn law_matching_transitive()
    ensures functions { IsTransitive matches }
    ensures heaps { IsTransitive heap_matches }
    ensures references { IsTransitive ref_matches }
    ensures values { IsTransitive val_matches }
    ensures lists { IsTransitive all_match }
{}

/// Matching never leaves an engine.
pub fn law_matching_keeps_engine()
    ensures engine { StaysInEngine }
    ensures functions { KeepsEngine }
    ensures heaps { KeepsHeapEngine }
{}

/// By the supertype rule a function type takes what those that it matches take, and gives what they give.
pub fn law_fits_along_chains()
    ensures { FitsAlongChains }
{}
