//! What a host can rely on of instances. Where a function does nothing, its contract is the law, and a caller that
//! names it has the law in its proof; where it makes calls, its contract is what these calls come to together.
ghost use Rattle.std.specs.Prelude.{◌≡◌, map, reverse, take, drop, IfOk, OnOk};
ghost use Rattle.wasm_values.specs.Externals.{extern_func, extern_table, extern_memory, extern_global, extern_tag};
ghost use Rattle.law_store.specs.Laws.{KeepsObjects};
ghost use Rattle.wasm_call.specs.Calls.{ResultsFit};
ghost use Rattle.wasm_instance.specs.Exports.{export_of};
ghost use Rattle.wasm_instance.specs.Left.{left, entry};
ghost use Rattle.law_instances.specs.CodeGrowths.{MemoriesGrow, TablesGrow, MemoryGrowthsComeFirst, TableGrowthsComeFirst};
ghost use Rattle.law_instances.specs.CodeRuns.{CallsKeepObjects, InstantiationsKeepObjects};
ghost use Rattle.law_instances.specs.ExportLaws.{LookUpsAgree, LookUpsOfKindAgree, EntriesAreFound, NamesDiffer};

use std::alloc::Global;
use wasm_call::{FuncRun, HostBody};
use wasm_instance::{Export, Exports, InstanceCalls};
use wasm_meter::{CallHooks, DeadlineBehaviour, EpochSource, HostData};
use wasm_store::Store;
use wasm_types::OutOfMemory;
use wasm_values::{Extern, Func, Instance, Refusal, Val};

/// Two look-ups of one export of an instance give equal handles, or both give none or the same refusal.
pub fn law_look_ups_agree<T: HostData, K: CallHooks<T>, B: DeadlineBehaviour<T>>(
    store: &Store<T, K, B>,
    instance: Instance,
    name: &str,
) -> (
    Result<Option<Extern>, Refusal>,
    Result<Option<Extern>, Refusal>,
)
    ensures looked_up { result.0 ≡ export_of store.now.machine instance name.now }
    ensures agree { result.0 ≡ result.1 }
{
    let first = instance.get_export(store, name);
    let second = instance.get_export(store, name);
    (first, second)
}

/// A handle that a look-up of an export gave, by `get_export` or by the call of its kind, the same look-up gives again,
/// whatever changed the store between the two and kept its objects: `law_objects_stay` of `law_store` says that of each
/// call of a host, and `law_code_keeps_objects` of code.
pub fn law_exports_stay()
    ensures externals { LookUpsAgree }
    ensures functions { LookUpsOfKindAgree extern_func }
    ensures tables { LookUpsOfKindAgree extern_table }
    ensures memories { LookUpsOfKindAgree extern_memory }
    ensures globals { LookUpsOfKindAgree extern_global }
    ensures tags { LookUpsOfKindAgree extern_tag }
{}

/// What is listed as an export is what a look-up of its name gives, and no two of the list have one name.
pub fn law_listed_exports_are_found()
    ensures found { EntriesAreFound }
    ensures once { NamesDiffer }
{}

/// From the front all that is left comes, each export once, in order. `InstanceCalls::exports` begins with all that the
/// module declares.
pub fn law_exports_in_order<'a>(
    alloc: Global,
    mut exports: Exports<'a>,
) -> Result<Vec<Export<'a>>, OutOfMemory>
    ensures { IfOk result (λ all. map entry all.items ≡ left exports.entry) }
{
    let mut all = Vec::new(alloc);
    'exports: while let Some(export) = exports.next() {
        all.push(export)?;
    }
    Ok(all)
}

/// From the back all that is left comes, each export once, in reverse.
pub fn law_exports_in_reverse<'a>(
    alloc: Global,
    mut exports: Exports<'a>,
) -> Result<Vec<Export<'a>>, OutOfMemory>
    ensures { IfOk result (λ all. map entry all.items ≡ reverse (left exports.entry)) }
{
    let mut all = Vec::new(alloc);
    'exports: while let Some(export) = exports.next_back() {
        all.push(export)?;
    }
    Ok(all)
}

// The first so many of all that is left, or all of them where there are not so many.
fn taken_from_front<'a>(
    alloc: Global,
    exports: &mut Exports<'a>,
    count: usize,
) -> Result<Vec<Export<'a>>, OutOfMemory>
    ensures taken { IfOk result (λ front. map entry front.items ≡ take count (left exports.old)) }
    ensures rest { IfOk result (λ front. left exports.new ≡ drop count (left exports.old)) }
{
    let mut front = Vec::new(alloc);
    'exports: while front.len() < count {
        let Some(export) = exports.next() else {
            return Ok(front);
        };
        front.push(export)?;
    }
    Ok(front)
}

/// After so many from the front, the others come from the back, each export once, in reverse.
pub fn law_exports_from_both_ends<'a>(
    alloc: Global,
    mut exports: Exports<'a>,
    count: usize,
) -> Result<(Vec<Export<'a>>, Vec<Export<'a>>), OutOfMemory>
    ensures front { IfOk result (λ both. map entry both.0.items ≡ take count (left exports.entry)) }
    ensures back { IfOk result (λ both. map entry both.1.items ≡ reverse (drop count (left exports.entry))) }
{
    let front = taken_from_front(alloc, &mut exports, count)?;
    let back = law_exports_in_reverse(alloc, exports)?;
    Ok((front, back))
}

/// Code that grows a memory is left the pages before, and the memory has so many pages more, keeps its bytes and has
/// zeros behind them; or it is left -1, and nothing of the store changed but its fuel. Then the rest of the code runs.
pub fn law_code_grows_memories()
    ensures grown { MemoriesGrow }
    ensures first { MemoryGrowthsComeFirst }
{}

/// Code that grows a table is left the size before, and the table has so many elements more, keeps its elements and has
/// the given reference behind them; or it is left -1, and nothing of the store changed but its fuel. Then the rest of
/// the code runs.
pub fn law_code_grows_tables()
    ensures grown { TablesGrow }
    ensures first { TableGrowthsComeFirst }
{}

/// A call and an instantiation leave every object with its type, no memory or table smaller, each constant global with
/// its value and each instance with its exports, whatever code they run and however that ends.
pub fn law_code_keeps_objects()
    ensures calls { CallsKeepObjects }
    ensures instantiations { InstantiationsKeepObjects }
{}

/// A call of a function by a host, whichever the host, the host data, the hook, the deadline behaviour and the source of
/// epochs, leaves every object with its type, no memory or table smaller, each constant global with its value and each
/// instance with its exports, whatever it answers; and where it answers `Ok` its results are of the function's types.
pub fn law_func_calls_keep_objects<
    T: HostData,
    K: CallHooks<T>,
    B: DeadlineBehaviour<T>,
    H: HostBody<T>,
    E: EpochSource,
>(
    store: &mut Store<T, K, B>,
    host: &mut H,
    epochs: &mut E,
    func: Func,
    params: &[Val],
    results: &mut [Val],
) -> Result<(), Refusal>
    requires ready { H.ready host.old }
    ensures ready { H.ready host.new }
    ensures kept { KeepsObjects store.old.machine store.new.machine }
    ensures fit { OnOk result (ResultsFit store.old.machine func store.new.machine results.new) }
{
    func.call(store, host, epochs, params, results)
}
