ghost use Rattle.std.specs.Prelude.{◌≡◌};
ghost use Rattle.binary_types.specs.Imports as forms;
ghost use Rattle.binary_types.specs.Reading.{Reads};

use crate::faults::BinaryFault;
use crate::limits::{global_type, memory_type, table_type};
use crate::reading::{BinaryReader, byte, fixed, name, whole_32};
use crate::types::type_at;
use std::alloc::Global;
use wasm_leb::Cursor;
use wasm_syntax::{EntityIndex, ExportDecl, ImportDecl};
use wasm_types::{ExternType, FuncType, TagType};

fn tag_type(types: &[FuncType], input: &mut Cursor<'_>) -> Result<TagType, BinaryFault>
    ensures { Reads (forms.tag_type types.now input.old) result input.new }
{
    fixed(0x00, input)?;
    let ty = type_at(types, input)?;
    Ok(TagType::new(ty))
}

fn extern_by(
    types: &[FuncType],
    at: usize,
    code: u8,
    input: &mut Cursor<'_>,
) -> Result<ExternType, BinaryFault>
    ensures { Reads (forms.extern_by types.now at code input.old) result input.new }
{
    match code {
        0x00 => Ok(ExternType::Func(type_at(types, input)?)),
        0x01 => Ok(ExternType::Table(table_type(types, input)?)),
        0x02 => Ok(ExternType::Memory(memory_type(input)?)),
        0x03 => Ok(ExternType::Global(global_type(types, input)?)),
        0x04 => Ok(ExternType::Tag(tag_type(types, input)?)),
        _ => Err(BinaryFault::Unsupported {
            at,
            code: u64::from(code),
        }),
    }
}

fn extern_type(types: &[FuncType], input: &mut Cursor<'_>) -> Result<ExternType, BinaryFault>
    ensures { Reads (forms.extern_type types.now input.old) result input.new }
{
    let at = input.at();
    let code = byte(input)?;
    extern_by(types, at, code, input)
}

fn import(
    alloc: Global,
    types: &[FuncType],
    input: &mut Cursor<'_>,
) -> Result<ImportDecl, BinaryFault>
    ensures { Reads (forms.import types.now input.old) result input.new }
{
    let module = name(alloc, input)?;
    let name = name(alloc, input)?;
    let ty = extern_type(types, input)?;
    Ok(ImportDecl { module, name, ty })
}

/// Reads an import, whose type may name one of these types.
#[derive(Clone, Copy)]
pub struct ImportReader<'a> {
    pub types: &'a [FuncType],
}

impl<'a> BinaryReader for ImportReader<'a> {
    ghost use Rattle.binary_types.specs.Imports.{import};

    type Item = ImportDecl;

    ghost meaning = { λ reader. import reader.types.now };

    fn read(&self, alloc: Global, input: &mut Cursor<'_>) -> Result<ImportDecl, BinaryFault> {
        import(alloc, self.types, input)
    }
}

fn entity_by(at: usize, code: u8, input: &mut Cursor<'_>) -> Result<EntityIndex, BinaryFault>
    ensures { Reads (forms.entity_by at code input.old) result input.new }
{
    match code {
        0x00 => Ok(EntityIndex::Func(whole_32(input)?)),
        0x01 => Ok(EntityIndex::Table(whole_32(input)?)),
        0x02 => Ok(EntityIndex::Memory(whole_32(input)?)),
        0x03 => Ok(EntityIndex::Global(whole_32(input)?)),
        0x04 => Ok(EntityIndex::Tag(whole_32(input)?)),
        _ => Err(BinaryFault::Unsupported {
            at,
            code: u64::from(code),
        }),
    }
}

fn entity(input: &mut Cursor<'_>) -> Result<EntityIndex, BinaryFault>
    ensures { Reads (forms.entity input.old) result input.new }
{
    let at = input.at();
    let code = byte(input)?;
    entity_by(at, code, input)
}

fn export(alloc: Global, input: &mut Cursor<'_>) -> Result<ExportDecl, BinaryFault>
    ensures { Reads (forms.export input.old) result input.new }
{
    let name = name(alloc, input)?;
    let entity = entity(input)?;
    Ok(ExportDecl { name, entity })
}

/// Reads an export.
#[derive(Clone, Copy)]
pub struct ExportReader;

impl BinaryReader for ExportReader {
    ghost use Rattle.binary_types.specs.Imports.{export};

    type Item = ExportDecl;

    ghost meaning = { λ _. export };

    fn read(&self, alloc: Global, input: &mut Cursor<'_>) -> Result<ExportDecl, BinaryFault> {
        export(alloc, input)
    }
}
