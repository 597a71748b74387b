ghost use Rattle.std.specs.Prelude.{◌≡◌, nat_eq};
ghost use Rattle.binary_types.specs.Entries as forms;
ghost use Rattle.binary_types.specs.Reading.{Reads};

use crate::constants::constant;
use crate::faults::BinaryFault;
use crate::limits::{global_type, memory_type, table_type};
use crate::reading::{BinaryReader, fixed, next_byte};
use crate::types::type_index;
use std::alloc::Global;
use wasm_leb::Cursor;
use wasm_syntax::{ConstExpr, GlobalDecl, TableDecl};
use wasm_types::{FuncType, MemoryType};

fn valued_table(types: &[FuncType], input: &mut Cursor<'_>) -> Result<TableDecl, BinaryFault>
    ensures { Reads (forms.valued_table types.now input.old) result input.new }
{
    fixed(0x40, input)?;
    fixed(0x00, input)?;
    let ty = table_type(types, input)?;
    let init = constant(types, input)?;
    Ok(TableDecl { ty, init })
}

fn null_table(types: &[FuncType], input: &mut Cursor<'_>) -> Result<TableDecl, BinaryFault>
    ensures { Reads (forms.null_table types.now input.old) result input.new }
{
    let ty = table_type(types, input)?;
    let init = ConstExpr::RefNull(ty.element().heap_type().top());
    Ok(TableDecl { ty, init })
}

fn table(types: &[FuncType], input: &mut Cursor<'_>) -> Result<TableDecl, BinaryFault>
    ensures { Reads (forms.table types.now input.old) result input.new }
{
    if next_byte(input)? == 0x40 {
        valued_table(types, input)
    } else {
        null_table(types, input)
    }
}

/// Reads a table, whose elements may be references to one of these types.
#[derive(Clone, Copy)]
pub struct TableReader<'a> {
    pub types: &'a [FuncType],
}

impl<'a> BinaryReader for TableReader<'a> {
    ghost use Rattle.binary_types.specs.Entries.{table};

    type Item = TableDecl;

    ghost meaning = { λ reader. table reader.types.now };

    fn read(&self, _alloc: Global, input: &mut Cursor<'_>) -> Result<TableDecl, BinaryFault> {
        table(self.types, input)
    }
}

/// Reads a memory.
#[derive(Clone, Copy)]
pub struct MemoryReader;

impl BinaryReader for MemoryReader {
    ghost use Rattle.binary_types.specs.Types.{memory_type};

    type Item = MemoryType;

    ghost meaning = { λ _. memory_type };

    fn read(&self, _alloc: Global, input: &mut Cursor<'_>) -> Result<MemoryType, BinaryFault> {
        memory_type(input)
    }
}

/// Reads the number of one of these types, as the function section has it.
#[derive(Clone, Copy)]
pub struct TypeIndexReader<'a> {
    pub types: &'a [FuncType],
}

impl<'a> BinaryReader for TypeIndexReader<'a> {
    ghost use Rattle.binary_types.specs.Types.{type_index};

    type Item = u32;

    ghost meaning = { λ reader. type_index reader.types.now };

    fn read(&self, _alloc: Global, input: &mut Cursor<'_>) -> Result<u32, BinaryFault> {
        type_index(self.types, input)
    }
}

fn tag(types: &[FuncType], input: &mut Cursor<'_>) -> Result<u32, BinaryFault>
    ensures { Reads (forms.tag types.now input.old) result input.new }
{
    fixed(0x00, input)?;
    type_index(types, input)
}

/// Reads a tag: the number of one of these types.
#[derive(Clone, Copy)]
pub struct TagReader<'a> {
    pub types: &'a [FuncType],
}

impl<'a> BinaryReader for TagReader<'a> {
    ghost use Rattle.binary_types.specs.Entries.{tag};

    type Item = u32;

    ghost meaning = { λ reader. tag reader.types.now };

    fn read(&self, _alloc: Global, input: &mut Cursor<'_>) -> Result<u32, BinaryFault> {
        tag(self.types, input)
    }
}

fn global(types: &[FuncType], input: &mut Cursor<'_>) -> Result<GlobalDecl, BinaryFault>
    ensures { Reads (forms.global types.now input.old) result input.new }
{
    let ty = global_type(types, input)?;
    let init = constant(types, input)?;
    Ok(GlobalDecl { ty, init })
}

/// Reads a global, whose value may be a reference to one of these types.
#[derive(Clone, Copy)]
pub struct GlobalReader<'a> {
    pub types: &'a [FuncType],
}

impl<'a> BinaryReader for GlobalReader<'a> {
    ghost use Rattle.binary_types.specs.Entries.{global};

    type Item = GlobalDecl;

    ghost meaning = { λ reader. global reader.types.now };

    fn read(&self, _alloc: Global, input: &mut Cursor<'_>) -> Result<GlobalDecl, BinaryFault> {
        global(self.types, input)
    }
}
