//! What a host can rely on. Each function does nothing: its contract is the law, and a caller that names it has the law
//! in its proof.
ghost use Rattle.law_store.specs.Laws.{RefsFitAlong, ValuesFitAlong, NewGlobalGives, SetGlobalGives, SetElementGives, SetKeepsOthers, FilledRangeGives, FillKeepsOthers, CopyGivesSource, CopyKeepsOthers, GrownTableSize, GrownTableKeeps, GrownTableGives, IsWholePages, GrownMemorySize, GrownMemoryKeeps, GrownMemoryIsZero, WrittenRangeGives, WriteKeepsOthers, NewIsWellFormed, CallsKeepWellFormed, ObjectsStayOwn, ObjectsStayAlong, CallsKeepObjects, CallsLeaveRest, FilledFuelIsTold, IntervalKeepsFuel, RowsKeepWellFormed, RowsKeepObjects};
ghost use Rattle.law_store.specs.OtherStores.{MemoriesOfOthers, TablesOfOthers, GlobalsOfOthers, TagsOfOthers, FunctionsOfOthers, InstancesOfOthers, ObjectsOfOthers};

/// A handle of a store with another id is refused by every call, and so is a value that is a function of one.
pub fn law_other_stores_are_refused()
    ensures memories { MemoriesOfOthers }
    ensures tables { TablesOfOthers }
    ensures globals { GlobalsOfOthers }
    ensures tags { TagsOfOthers }
    ensures functions { FunctionsOfOthers }
    ensures instances { InstancesOfOthers }
    ensures objects { ObjectsOfOthers }
{}

/// A reference or value that matches a type matches each type that this one matches.
pub fn law_values_match_along()
    ensures references { RefsFitAlong }
    ensures values { ValuesFitAlong }
{}

/// A global gives the value that it was made with, or that was set last.
pub fn law_globals_give_back()
    ensures new { NewGlobalGives }
    ensures set { SetGlobalGives }
{}

/// A table gives the reference that was set or filled in last, and all other places stay.
pub fn law_tables_give_back()
    ensures set { SetElementGives }
    ensures beside_set { SetKeepsOthers }
    ensures filled { FilledRangeGives }
    ensures beside_filled { FillKeepsOthers }
{}

/// A copied range is the source as it was before, also where the two ranges overlap, and all other places stay.
pub fn law_tables_copy()
    ensures copied { CopyGivesSource }
    ensures beside { CopyKeepsOthers }
{}

/// A table that grew answers the size before, has so many elements more, keeps its elements and has the given reference
/// behind them.
pub fn law_tables_grow()
    ensures size { GrownTableSize }
    ensures kept { GrownTableKeeps }
    ensures appended { GrownTableGives }
{}

/// A memory is whole pages. One that grew answers the pages before, has so many pages more, keeps its bytes and has zeros
/// behind them.
pub fn law_memories_grow()
    ensures whole { IsWholePages }
    ensures size { GrownMemorySize }
    ensures kept { GrownMemoryKeeps }
    ensures appended { GrownMemoryIsZero }
{}

/// A written range is read as the bytes that were written, and a range beside it as before.
pub fn law_memories_give_back()
    ensures written { WrittenRangeGives }
    ensures beside { WriteKeepsOthers }
{}

/// A new store is well formed, and each call of a host keeps a store well formed, and each command that runs no code.
pub fn law_stores_stay_well_formed()
    ensures new { NewIsWellFormed }
    ensures calls { CallsKeepWellFormed }
    ensures rows { RowsKeepWellFormed }
{}

/// Each call of a host leaves every object with its type, no memory or table smaller, each constant global with its
/// value and each instance with its exports; so does each command that runs no code, and so do many one after another.
pub fn law_objects_stay()
    ensures own { ObjectsStayOwn }
    ensures along { ObjectsStayAlong }
    ensures calls { CallsKeepObjects }
    ensures rows { RowsKeepObjects }
{}

/// No call on an object changes the engine, the instances, fuel, deadline, counts, limits or flags.
pub fn law_calls_change_objects_alone()
    ensures { CallsLeaveRest }
{}

/// Fuel that was filled in is told just so. Another interval changes nothing of what is told.
pub fn law_fuel_is_told()
    ensures filled { FilledFuelIsTold }
    ensures interval { IntervalKeepsFuel }
{}
