//! What follows from the definitions that the contracts cite. Each function does nothing: its contract is the law, and
//! a caller that names it has the law in its proof.
ghost use Rattle.wasm_types.specs.Laws.{IsExact};
ghost use Rattle.wasm_values.specs.Laws.{GivesOthers, GivesBack, HashesAlike, Copies};

use crate::externals::Extern;
use crate::handles::{Func, Global, Instance, Memory, Table, Tag};
use crate::references::{AnyRef, ExternRef, NoFunc, Ref};
use crate::refusals::{Refusal, Trap};
use crate::store_id::StoreId;
use crate::values::{V128, Val};
use std::hash::Hash;

/// What a source of ids gives later is another id.
pub fn law_ids_differ()
    ensures { GivesOthers }
{}

/// A reference that was made a value comes back from it, and no other value gives it.
pub fn law_references_come_back()
    ensures { GivesBack }
{}

/// `==` is true exactly where two ids or two handles are equal: handles where store and place both are.
pub fn law_handle_equality_exact()
    ensures ids { IsExact ⟦<StoreId as PartialEq>⟧.eq }
    ensures functions { IsExact ⟦<Func as PartialEq>⟧.eq }
    ensures globals { IsExact ⟦<Global as PartialEq>⟧.eq }
    ensures tables { IsExact ⟦<Table as PartialEq>⟧.eq }
    ensures memories { IsExact ⟦<Memory as PartialEq>⟧.eq }
    ensures tags { IsExact ⟦<Tag as PartialEq>⟧.eq }
    ensures instances { IsExact ⟦<Instance as PartialEq>⟧.eq }
{}

/// `==` is true exactly where two references, vectors, refusals or traps are equal.
pub fn law_equality_exact()
    ensures external { IsExact ⟦<ExternRef as PartialEq>⟧.eq }
    ensures internal { IsExact ⟦<AnyRef as PartialEq>⟧.eq }
    ensures vectors { IsExact ⟦<V128 as PartialEq>⟧.eq }
    ensures refusals { IsExact ⟦<Refusal as PartialEq>⟧.eq }
    ensures traps { IsExact ⟦<Trap as PartialEq>⟧.eq }
{}

/// Equal ids write the same to a hasher.
pub fn law_ids_hash_alike()
    ensures { HashesAlike ⟦<StoreId as PartialEq>⟧.eq ⟦<StoreId as Hash>⟧.hash_input }
{}

/// `clone` of an id or a handle gives the same, and takes no memory.
pub fn law_handle_clones()
    ensures ids { Copies ⟦<StoreId as Clone>⟧.is_clone ⟦<StoreId as Clone>⟧.is_infallible }
    ensures functions { Copies ⟦<Func as Clone>⟧.is_clone ⟦<Func as Clone>⟧.is_infallible }
    ensures globals { Copies ⟦<Global as Clone>⟧.is_clone ⟦<Global as Clone>⟧.is_infallible }
    ensures tables { Copies ⟦<Table as Clone>⟧.is_clone ⟦<Table as Clone>⟧.is_infallible }
    ensures memories { Copies ⟦<Memory as Clone>⟧.is_clone ⟦<Memory as Clone>⟧.is_infallible }
    ensures tags { Copies ⟦<Tag as Clone>⟧.is_clone ⟦<Tag as Clone>⟧.is_infallible }
    ensures instances { Copies ⟦<Instance as Clone>⟧.is_clone ⟦<Instance as Clone>⟧.is_infallible }
{}

/// `clone` of a value, a reference, an external value, a refusal or a trap gives the same, and takes no memory.
pub fn law_value_clones()
    ensures no_functions { Copies ⟦<NoFunc as Clone>⟧.is_clone ⟦<NoFunc as Clone>⟧.is_infallible }
    ensures external { Copies ⟦<ExternRef as Clone>⟧.is_clone ⟦<ExternRef as Clone>⟧.is_infallible }
    ensures internal { Copies ⟦<AnyRef as Clone>⟧.is_clone ⟦<AnyRef as Clone>⟧.is_infallible }
    ensures vectors { Copies ⟦<V128 as Clone>⟧.is_clone ⟦<V128 as Clone>⟧.is_infallible }
    ensures values { Copies ⟦<Val as Clone>⟧.is_clone ⟦<Val as Clone>⟧.is_infallible }
    ensures references { Copies ⟦<Ref as Clone>⟧.is_clone ⟦<Ref as Clone>⟧.is_infallible }
    ensures externs { Copies ⟦<Extern as Clone>⟧.is_clone ⟦<Extern as Clone>⟧.is_infallible }
    ensures refusals { Copies ⟦<Refusal as Clone>⟧.is_clone ⟦<Refusal as Clone>⟧.is_infallible }
    ensures traps { Copies ⟦<Trap as Clone>⟧.is_clone ⟦<Trap as Clone>⟧.is_infallible }
{}
