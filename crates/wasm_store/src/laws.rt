//! What a host can rely on of the calls on a store, in the terms of their clauses. Each function does nothing: its
//! contract is the law, and a caller that names it has the law in its proof. The laws of `law_store` say more, over the
//! rows of the machine, and ask that it is well formed: `Store::keeps_well_formed` tells that.
ghost use Rattle.wasm_store.specs.Laws.{GrowthsAreGranted, MemoryGrowthSize, TableGrowthSize, MemoryNewKeeps, MemoryGrowthKeeps, TableNewKeeps, TableGrowthKeeps, MemoryWriteKeeps, TableSetKeeps, TableFillKeeps, TableCopyKeeps, GlobalSetKeeps, GlobalNewKeeps, TagNewKeeps, FuncNewKeeps};
ghost use Rattle.wasm_store.specs.LinkLaws.{LinksLeadOn};

use wasm_meter::HostData;

/// A growth that answered was due and granted, and left what it planned: a memory or table that grew answers how many
/// pages or elements it had, and has so many more.
pub fn law_growths<T: HostData>()
    ensures granted { GrowthsAreGranted T.growths }
    ensures memory_size { MemoryGrowthSize T.growths }
    ensures table_size { TableGrowthSize T.growths }
{}

/// A call that makes or grows a memory or a table keeps every object and its type, whatever it answers, and no memory or
/// table shrinks.
pub fn law_growths_keep_objects<T: HostData>()
    ensures memory_new { MemoryNewKeeps T.growths }
    ensures memory_grow { MemoryGrowthKeeps T.growths }
    ensures table_new { TableNewKeeps T.growths }
    ensures table_grow { TableGrowthKeeps T.growths }
{}

/// Every other call that changes a store keeps every object and its type, whatever it answers, and no memory or table
/// shrinks.
pub fn law_calls_keep_objects()
    ensures memory_write { MemoryWriteKeeps }
    ensures table_set { TableSetKeeps }
    ensures table_fill { TableFillKeeps }
    ensures table_copy { TableCopyKeeps }
    ensures global_set { GlobalSetKeeps }
    ensures global_new { GlobalNewKeeps }
    ensures tag_new { TagNewKeeps }
    ensures func_new { FuncNewKeeps }
{}

/// What `Store::link` tells over all places of an object is exactly that to which the object leads, as `spec_reach` defines
/// it: so a walk over links comes to what is reached.
pub fn law_links()
    ensures lead_on { LinksLeadOn }
{}
