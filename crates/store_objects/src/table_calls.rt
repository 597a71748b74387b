ghost use Rattle.std.specs.Prelude.{◌≡◌, ◌≤◌, Some, Ok, Err, IfOk, IfErr, MatchResult, slice_get, length};
ghost use Rattle.spec_machine.specs.TableCalls.{table_at, table_ty, table_size, table_new, table_get, table_set, table_fill, table_grow, table_copy};
ghost use Rattle.wasm_objects.specs.Tables.{Table as TableParts};
ghost use Rattle.wasm_values.specs.Handles.{table_index};
ghost use Rattle.store_state.specs.Calls.{Changes, Copies};
ghost use Rattle.store_state.specs.Growing.{due_says, IsDue, Acts};
ghost use Rattle.store_objects.specs.Machines.{AsksAlike};

use crate::objects::{Objects, is_range};
use store_state::{GrowthRule, raw_given, ref_at, rule_of_table, table_rule};
use wasm_objects::TableObject;
use wasm_types::{OutOfMemory, TableType};
use wasm_values::{Ref, Refusal, Table, Trap};

impl Objects {
    /// The table of a handle, lent.
    pub fn table(&self, table: Table) -> Result<&TableObject, Refusal>
        ensures { MatchResult result
            (λ object. (table_at self.now table ≡ Ok object.now.table)
            × (slice_get self.now.tables (table_index table) ≡ Some object.now.table))
            (λ why. table_at self.now table ≡ Err why) }
    {
        if !self.is_own(table.store_id()) {
            return Err(Refusal::WrongStore);
        }
        match self.held.table(table.index()) {
            Some(object) => Ok(object),
            None => Err(Refusal::WrongStore),
        }
    }

    /// The type that a table was made with. It takes memory where the elements' type is that of a function.
    pub fn table_ty(&self, table: Table) -> Result<TableType, Refusal>
        ensures { Copies (table_ty self.now table) result }
    {
        let object = self.table(table)?;
        match object.ty().clone() {
            Ok(ty) => Ok(ty),
            Err(_) => Err(Refusal::OutOfMemory),
        }
    }

    /// The number of elements of a table.
    pub fn table_size(&self, table: Table) -> Result<u64, Refusal>
        ensures { result ≡ table_size self.now table }
    {
        let object = self.table(table)?;
        Ok(object.size() as u64)
    }

    /// How many places of a table look-ups filled.
    pub fn table_filled(&self, table: Table) -> Result<usize, Refusal>
        ensures within { IfOk result (λ n. (x : TableParts) × (table_at self.now table ≡ Ok x) × (n ≤ length x.elements)) }
        ensures refused { IfErr result (λ why. table_at self.now table ≡ Err why) }
    {
        let object = self.table(table)?;
        Ok(object.filled())
    }

    /// The element of a table at a place, from 0; `None` past the end. A place that was unfilled is filled, which
    /// contracts do not see.
    pub fn table_get(&mut self, table: Table, at: u64) -> Result<Option<Ref>, Refusal>
        ensures value { result ≡ table_get self.old table at }
        ensures same { self.new ≡ self.old }
    {
        let object = self.table(table)?;
        let greatest = object.ty().element().heap_type().top();
        match self.held.look_up(table.index(), at as usize) {
            Some(Some(raw)) => Ok(Some(ref_at(self.id, greatest, raw))),
            _ => Ok(None),
        }
    }

    /// Makes `value` the element of a table at a place, and changes no other.
    ///
    /// `TypeMismatch` where it does not fit (`None` stands for a value that is no reference, and fits no table), then
    /// `Trap(TableOutOfBounds)` past the end.
    pub fn table_set(&mut self, table: Table, at: u64, value: Option<Ref>) -> Result<(), Refusal>
        ensures due { Changes (table_set self.old table at value) self.old result self.new }
        ensures asks { AsksAlike self.old self.new }
    {
        let object = self.table(table)?;
        if !self.owns_given(value) {
            return Err(Refusal::WrongStore);
        }
        if !self.given_fits(value, object.ty().element()) {
            return Err(Refusal::TypeMismatch);
        }
        if self
            .held
            .set_element(table.index(), at as usize, raw_given(value))
        {
            return Ok(());
        }
        Err(Refusal::Trap(Trap::TableOutOfBounds))
    }

    /// Makes `len` elements of a table from a place on all `value`.
    ///
    /// `TypeMismatch` where it does not fit, as `None` does not, then `Trap(TableOutOfBounds)` where the range passes the
    /// end.
    pub fn table_fill(
        &mut self,
        table: Table,
        at: u64,
        value: Option<Ref>,
        len: u64,
    ) -> Result<(), Refusal>
        ensures due { Changes (table_fill self.old table at value len) self.old result self.new }
        ensures asks { AsksAlike self.old self.new }
    {
        let filled = self.table(table)?;
        if !self.owns_given(value) {
            return Err(Refusal::WrongStore);
        }
        if !self.given_fits(value, filled.ty().element()) {
            return Err(Refusal::TypeMismatch);
        }
        if self
            .held
            .fill_elements(table.index(), at as usize, raw_given(value), len as usize)
        {
            return Ok(());
        }
        Err(Refusal::Trap(Trap::TableOutOfBounds))
    }

    /// Replaces `len` elements of the table `dst` by those of the table `src`, or of the same one, as they were before.
    ///
    /// `Trap(TableOutOfBounds)` where a range passes the end of its table, then `TypeMismatch` where the types of the
    /// elements do not match.
    pub fn table_copy(
        &mut self,
        dst: Table,
        dst_at: u64,
        src: Table,
        src_at: u64,
        len: u64,
    ) -> Result<(), Refusal>
        ensures due { Changes (table_copy self.old dst dst_at src src_at len) self.old result self.new }
        ensures asks { AsksAlike self.old self.new }
    {
        let into = self.table(dst)?;
        let from = self.table(src)?;
        if !is_range(into.size(), dst_at, len) || !is_range(from.size(), src_at, len) {
            return Err(Refusal::Trap(Trap::TableOutOfBounds));
        }
        if !from.ty().element().matches(into.ty().element()) {
            return Err(Refusal::TypeMismatch);
        }
        let (dst_at, src_at, len) = (dst_at as usize, src_at as usize, len as usize);
        if self
            .held
            .copy_elements(dst.index(), dst_at, src.index(), src_at, len)
        {
            return Ok(());
        }
        unreachable!()
    }

    /// What is said of a new table.
    ///
    /// `WrongEngine` where the type is of another engine, then `TypeMismatch` where `init` does not fit it.
    pub fn table_new_rule(&self, ty: &TableType, init: Option<Ref>) -> Result<GrowthRule, Refusal>
        ensures { result ≡ due_says self.now (table_new self.now ty.now init) }
    {
        if !self.owns_given(init) {
            return Err(Refusal::WrongStore);
        }
        if !ty.element().comes_from_same_engine(self.engine.id()) {
            return Err(Refusal::WrongEngine);
        }
        if !self.given_fits(init, ty.element()) {
            return Err(Refusal::TypeMismatch);
        }
        Ok(table_rule(self.flags.limited, ty, 0, ty.minimum()))
    }

    /// Makes a table that was granted, with `init` as each element.
    pub fn table_new(&mut self, ty: TableType, init: Option<Ref>) -> Result<Table, OutOfMemory>
        requires { IsDue self.old (table_new self.old ty init) }
        ensures due { Acts (table_new self.old ty init) self.old result self.new }
        ensures asks { AsksAlike self.old self.new }
    {
        let element = ty.element();
        element.keeps_rules();
        let handle = Table::from_parts(self.id, self.held.table_count());
        let object = TableObject::try_new(self.alloc, ty, raw_given(init))?;
        self.held.add_table(object)?;
        Ok(handle)
    }

    /// What is said of a table that is to have `delta` more elements. `TypeMismatch` where `init` does not fit.
    pub fn table_grow_rule(
        &self,
        table: Table,
        delta: u64,
        init: Option<Ref>,
    ) -> Result<GrowthRule, Refusal>
        ensures { result ≡ due_says self.now (table_grow self.now table delta init) }
    {
        let grown = self.table(table)?;
        if !self.owns_given(init) {
            return Err(Refusal::WrongStore);
        }
        if !self.given_fits(init, grown.ty().element()) {
            return Err(Refusal::TypeMismatch);
        }
        let said = rule_of_table(self.flags.limited, grown, delta);
        Ok(said.rule)
    }

    /// Adds elements that were granted, each of them `init`, and answers the number before.
    pub fn table_grow(
        &mut self,
        table: Table,
        delta: u64,
        init: Option<Ref>,
    ) -> Result<u64, OutOfMemory>
        requires { IsDue self.old (table_grow self.old table delta init) }
        ensures due { Acts (table_grow self.old table delta init) self.old result self.new }
        ensures asks { AsksAlike self.old self.new }
    {
        let Ok(object) = self.table(table) else {
            unreachable!();
        };
        let size = object.size() as u64;
        self.held
            .grow_table(table.index(), delta as usize, raw_given(init))?;
        Ok(size)
    }
}
