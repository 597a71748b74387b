ghost use Rattle.std.specs.Prelude.{◌≡◌, ◌≤◌, Some, Ok, Err, IfOk, IfErr, length};
ghost use Rattle.spec_machine.specs.TableCalls.{table_at, table_ty, table_size, table_new, table_get, table_set, table_fill, table_grow, table_copy};
ghost use Rattle.wasm_objects.specs.Tables.{Table as TableParts};
ghost use Rattle.wasm_values.specs.declared.handles.Table.{Table as Handle};
ghost use Rattle.store_state.specs.Calls.{Changes, Copies};
ghost use Rattle.wasm_store.specs.Growths.{GrowsAs};
ghost use Rattle.wasm_store.specs.Stores.{KeepsRest};

use crate::growth::or_refused;
use crate::parts;
use crate::store::Store;
use wasm_meter::{CallHooks, DeadlineBehaviour, HostData};
use wasm_types::TableType;
use wasm_values::{Ref, Refusal, Table};

/// What a host does with tables. Contracts see the implementor as the handle of a table.
///
/// Each call is refused with `WrongStore` where a handle, or a function in a reference, is not of the store, before all
/// else, and a refused call changes nothing but the host's data, which a limiter that was asked may have changed.
/// WebAssembly core specification, "Execution, modules", of tables, and "Execution, table instructions".
pub trait TableCalls {
    /// The handle.
    ghost handle: { Self → Handle };

    /// A new table of the minimum of `ty`, with `init` as each element.
    ///
    /// `WrongEngine` where the type is of another engine, `TypeMismatch` where `init` does not fit it; `GrowFailed`
    /// where the minimum passes the range or the limiter says no, `LimiterFault` where the limiter fails.
    fn new<T: HostData, K: CallHooks<T>, B: DeadlineBehaviour<T>>(
        store: &mut Store<T, K, B>,
        ty: TableType,
        init: Ref,
    ) -> Result<Table, Refusal>
        ensures grows { GrowsAs T.growths (table_new store.old.machine ty (Some init)) store.old result store.new }
        ensures turns { store.new.turns ≡ store.old.turns };

    /// The type that it was made with. It takes memory where the elements' type is that of a function.
    fn ty<T: HostData, K: CallHooks<T>, B: DeadlineBehaviour<T>>(
        &self,
        store: &Store<T, K, B>,
    ) -> Result<TableType, Refusal>
        ensures { Copies (table_ty store.now.machine (handle self.now)) result };

    /// The number of elements.
    fn size<T: HostData, K: CallHooks<T>, B: DeadlineBehaviour<T>>(
        &self,
        store: &Store<T, K, B>,
    ) -> Result<u64, Refusal>
        ensures { result ≡ table_size store.now.machine (handle self.now) };

    /// How many places look-ups filled, of those that instantiation left to be filled as they are looked up.
    fn filled<T: HostData, K: CallHooks<T>, B: DeadlineBehaviour<T>>(
        &self,
        store: &Store<T, K, B>,
    ) -> Result<usize, Refusal>
        ensures within { IfOk result (λ n. (x : TableParts) × (table_at store.now.machine (handle self.now) ≡ Ok x)
            × (n ≤ length x.elements)) }
        ensures refused { IfErr result (λ why. table_at store.now.machine (handle self.now) ≡ Err why) };

    /// The element at a place, from 0; `None` past the end. A place that was unfilled is filled.
    fn get<T: HostData, K: CallHooks<T>, B: DeadlineBehaviour<T>>(
        &self,
        store: &mut Store<T, K, B>,
        index: u64,
    ) -> Result<Option<Ref>, Refusal>
        ensures value { result ≡ table_get store.old.machine (handle self.now) index }
        ensures unchanged { store.new ≡ store.old };

    /// Makes `val` the element at a place, and changes no other.
    ///
    /// `TypeMismatch` where it does not fit, then `Trap(TableOutOfBounds)` past the end.
    fn set<T: HostData, K: CallHooks<T>, B: DeadlineBehaviour<T>>(
        &self,
        store: &mut Store<T, K, B>,
        index: u64,
        val: Ref,
    ) -> Result<(), Refusal>
        ensures machine { Changes (table_set store.old.machine (handle self.now) index (Some val))
            store.old.machine result store.new.machine }
        ensures rest { KeepsRest store.old store.new };

    /// Makes `len` elements from the place `dst` on all `val`.
    ///
    /// `TypeMismatch` where it does not fit, then `Trap(TableOutOfBounds)` where the range passes the end.
    fn fill<T: HostData, K: CallHooks<T>, B: DeadlineBehaviour<T>>(
        &self,
        store: &mut Store<T, K, B>,
        dst: u64,
        val: Ref,
        len: u64,
    ) -> Result<(), Refusal>
        ensures machine { Changes (table_fill store.old.machine (handle self.now) dst (Some val) len)
            store.old.machine result store.new.machine }
        ensures rest { KeepsRest store.old store.new };

    /// Adds `delta` elements, each of them `init`, and answers the number before.
    ///
    /// `TypeMismatch` where `init` does not fit; `GrowFailed` where the size would pass the range or the declared
    /// maximum, or the limiter says no; `LimiterFault` where the limiter fails.
    fn grow<T: HostData, K: CallHooks<T>, B: DeadlineBehaviour<T>>(
        &self,
        store: &mut Store<T, K, B>,
        delta: u64,
        init: Ref,
    ) -> Result<u64, Refusal>
        ensures grows { GrowsAs T.growths (table_grow store.old.machine (handle self.now) delta (Some init))
            store.old result store.new }
        ensures turns { store.new.turns ≡ store.old.turns };

    /// Replaces `len` elements of one table by those of another, or of the same one, as they were before.
    ///
    /// `Trap(TableOutOfBounds)` where a range passes the end of its table, then `TypeMismatch` where the types of the
    /// elements do not match.
    fn copy<T: HostData, K: CallHooks<T>, B: DeadlineBehaviour<T>>(
        store: &mut Store<T, K, B>,
        dst_table: &Table,
        dst_index: u64,
        src_table: &Table,
        src_index: u64,
        len: u64,
    ) -> Result<(), Refusal>
        ensures machine { Changes
            (table_copy store.old.machine dst_table.now dst_index src_table.now src_index len)
            store.old.machine result store.new.machine }
        ensures rest { KeepsRest store.old store.new };
}

impl TableCalls for Table {
    ghost handle = { λ table. table };

    fn new<T: HostData, K: CallHooks<T>, B: DeadlineBehaviour<T>>(
        store: &mut Store<T, K, B>,
        ty: TableType,
        init: Ref,
    ) -> Result<Table, Refusal> {
        let rule = parts::table_new_rule(store, &ty, Some(init))?;
        parts::settle(store, &rule)?;
        or_refused(parts::table_new(store, ty, Some(init)))
    }

    fn ty<T: HostData, K: CallHooks<T>, B: DeadlineBehaviour<T>>(
        &self,
        store: &Store<T, K, B>,
    ) -> Result<TableType, Refusal> {
        store.objects.table_ty(*self)
    }

    fn size<T: HostData, K: CallHooks<T>, B: DeadlineBehaviour<T>>(
        &self,
        store: &Store<T, K, B>,
    ) -> Result<u64, Refusal> {
        store.objects.table_size(*self)
    }

    fn filled<T: HostData, K: CallHooks<T>, B: DeadlineBehaviour<T>>(
        &self,
        store: &Store<T, K, B>,
    ) -> Result<usize, Refusal> {
        store.objects.table_filled(*self)
    }

    fn get<T: HostData, K: CallHooks<T>, B: DeadlineBehaviour<T>>(
        &self,
        store: &mut Store<T, K, B>,
        index: u64,
    ) -> Result<Option<Ref>, Refusal> {
        store.objects.table_get(*self, index)
    }

    fn set<T: HostData, K: CallHooks<T>, B: DeadlineBehaviour<T>>(
        &self,
        store: &mut Store<T, K, B>,
        index: u64,
        val: Ref,
    ) -> Result<(), Refusal> {
        store.objects.table_set(*self, index, Some(val))
    }

    fn fill<T: HostData, K: CallHooks<T>, B: DeadlineBehaviour<T>>(
        &self,
        store: &mut Store<T, K, B>,
        dst: u64,
        val: Ref,
        len: u64,
    ) -> Result<(), Refusal> {
        store.objects.table_fill(*self, dst, Some(val), len)
    }

    fn grow<T: HostData, K: CallHooks<T>, B: DeadlineBehaviour<T>>(
        &self,
        store: &mut Store<T, K, B>,
        delta: u64,
        init: Ref,
    ) -> Result<u64, Refusal> {
        let rule = parts::table_grow_rule(store, *self, delta, Some(init))?;
        parts::settle(store, &rule)?;
        or_refused(parts::table_grow(store, *self, delta, Some(init)))
    }

    fn copy<T: HostData, K: CallHooks<T>, B: DeadlineBehaviour<T>>(
        store: &mut Store<T, K, B>,
        dst_table: &Table,
        dst_index: u64,
        src_table: &Table,
        src_index: u64,
        len: u64,
    ) -> Result<(), Refusal> {
        store
            .objects
            .table_copy(*dst_table, dst_index, *src_table, src_index, len)
    }
}
