ghost use Rattle.std.specs.Prelude.{◌≡◌, nat_lt};
ghost use Rattle.binary_types.specs.Reading.{Reads};
ghost use Rattle.binary_types.specs.Segments as forms;

use crate::constants::{ConstantReader, constant};
use crate::faults::BinaryFault;
use crate::reading::{BinaryReader, byte_list, fixed, listed, whole_32};
use crate::types::reference_type;
use std::alloc::Global;
use wasm_leb::Cursor;
use wasm_syntax::{ConstExpr, DataDecl, DataMode, ElemDecl, ElemMode};
use wasm_types::{FuncType, HeapType, RefType};

/// Reads a function of an element segment, by its index.
#[derive(Clone, Copy)]
struct FunctionReader;

impl BinaryReader for FunctionReader {
    ghost use Rattle.binary_types.specs.Segments.{function_item};

    type Item = ConstExpr;

    ghost meaning = { λ _. function_item };

    fn read(&self, _alloc: Global, input: &mut Cursor<'_>) -> Result<ConstExpr, BinaryFault> {
        Ok(ConstExpr::RefFunc(whole_32(input)?))
    }
}

fn functions(alloc: Global, mode: ElemMode, input: &mut Cursor<'_>) -> Result<ElemDecl, BinaryFault>
    ensures { Reads (forms.functions mode input.old) result input.new }
{
    let items = listed(alloc, &FunctionReader, input)?;
    let ty = RefType::new(false, HeapType::Func);
    Ok(ElemDecl { ty, mode, items })
}

fn constants(
    alloc: Global,
    types: &[FuncType],
    ty: RefType,
    mode: ElemMode,
    input: &mut Cursor<'_>,
) -> Result<ElemDecl, BinaryFault>
    ensures { Reads (forms.constants types.now ty mode input.old) result input.new }
{
    let items = listed(alloc, &ConstantReader { types }, input)?;
    Ok(ElemDecl { ty, mode, items })
}

fn typed(
    alloc: Global,
    types: &[FuncType],
    mode: ElemMode,
    input: &mut Cursor<'_>,
) -> Result<ElemDecl, BinaryFault>
    ensures { Reads (forms.typed types.now mode input.old) result input.new }
{
    let ty = reference_type(types, input)?;
    let segment = constants(alloc, types, ty, mode, input)?;
    Ok(segment)
}

fn active_at(
    types: &[FuncType],
    table: u32,
    input: &mut Cursor<'_>,
) -> Result<ElemMode, BinaryFault>
    ensures { Reads (forms.active_at types.now table input.old) result input.new }
{
    let offset = constant(types, input)?;
    Ok(ElemMode::Active { table, offset })
}

fn active(types: &[FuncType], input: &mut Cursor<'_>) -> Result<ElemMode, BinaryFault>
    ensures { Reads (forms.active types.now input.old) result input.new }
{
    let table = whole_32(input)?;
    active_at(types, table, input)
}

fn unnamed(alloc: Global, mode: ElemMode, input: &mut Cursor<'_>) -> Result<ElemDecl, BinaryFault>
    ensures { Reads (forms.unnamed mode input.old) result input.new }
{
    fixed(0x00, input)?;
    functions(alloc, mode, input)
}

fn functions_by(
    alloc: Global,
    types: &[FuncType],
    kind: u32,
    input: &mut Cursor<'_>,
) -> Result<ElemDecl, BinaryFault>
    ensures { Reads (forms.functions_by types.now kind input.old) result input.new }
{
    match kind {
        0 => {
            let mode = active_at(types, 0, input)?;
            functions(alloc, mode, input)
        }
        1 => unnamed(alloc, ElemMode::Passive, input),
        2 => {
            let mode = active(types, input)?;
            unnamed(alloc, mode, input)
        }
        _ => unnamed(alloc, ElemMode::Declared, input),
    }
}

fn elements_by(
    alloc: Global,
    types: &[FuncType],
    at: usize,
    kind: u32,
    input: &mut Cursor<'_>,
) -> Result<ElemDecl, BinaryFault>
    ensures { Reads (forms.elements_by types.now at kind input.old) result input.new }
{
    match kind {
        4 => {
            let mode = active_at(types, 0, input)?;
            constants(
                alloc,
                types,
                RefType::new(true, HeapType::Func),
                mode,
                input,
            )
        }
        5 => typed(alloc, types, ElemMode::Passive, input),
        6 => {
            let mode = active(types, input)?;
            typed(alloc, types, mode, input)
        }
        7 => typed(alloc, types, ElemMode::Declared, input),
        _ => Err(BinaryFault::Unsupported {
            at,
            code: u64::from(kind),
        }),
    }
}

fn element_segment(
    alloc: Global,
    types: &[FuncType],
    input: &mut Cursor<'_>,
) -> Result<ElemDecl, BinaryFault>
    ensures { Reads (forms.element_segment types.now input.old) result input.new }
{
    let at = input.at();
    let kind = whole_32(input)?;
    if kind < 4 {
        functions_by(alloc, types, kind, input)
    } else {
        elements_by(alloc, types, at, kind, input)
    }
}

/// Reads an element segment, whose references may be to one of these types.
#[derive(Clone, Copy)]
pub struct ElementReader<'a> {
    pub types: &'a [FuncType],
}

impl<'a> BinaryReader for ElementReader<'a> {
    ghost use Rattle.binary_types.specs.Segments.{element_segment};

    type Item = ElemDecl;

    ghost meaning = { λ reader. element_segment reader.types.now };

    fn read(&self, alloc: Global, input: &mut Cursor<'_>) -> Result<ElemDecl, BinaryFault> {
        element_segment(alloc, self.types, input)
    }
}

fn data_active_at(
    types: &[FuncType],
    memory: u32,
    input: &mut Cursor<'_>,
) -> Result<DataMode, BinaryFault>
    ensures { Reads (forms.data_active_at types.now memory input.old) result input.new }
{
    let offset = constant(types, input)?;
    Ok(DataMode::Active { memory, offset })
}

fn data_active(types: &[FuncType], input: &mut Cursor<'_>) -> Result<DataMode, BinaryFault>
    ensures { Reads (forms.data_active types.now input.old) result input.new }
{
    let memory = whole_32(input)?;
    data_active_at(types, memory, input)
}

fn data_mode_by(
    types: &[FuncType],
    at: usize,
    kind: u32,
    input: &mut Cursor<'_>,
) -> Result<DataMode, BinaryFault>
    ensures { Reads (forms.data_mode_by types.now at kind input.old) result input.new }
{
    match kind {
        0 => data_active_at(types, 0, input),
        1 => Ok(DataMode::Passive),
        2 => data_active(types, input),
        _ => Err(BinaryFault::Unsupported {
            at,
            code: u64::from(kind),
        }),
    }
}

fn data_segment(
    alloc: Global,
    types: &[FuncType],
    input: &mut Cursor<'_>,
) -> Result<DataDecl, BinaryFault>
    ensures { Reads (forms.data_segment types.now input.old) result input.new }
{
    let at = input.at();
    let kind = whole_32(input)?;
    let mode = data_mode_by(types, at, kind, input)?;
    let bytes = byte_list(alloc, input)?;
    Ok(DataDecl { mode, bytes })
}

/// Reads a data segment, whose offset may name one of these types.
#[derive(Clone, Copy)]
pub struct DataReader<'a> {
    pub types: &'a [FuncType],
}

impl<'a> BinaryReader for DataReader<'a> {
    ghost use Rattle.binary_types.specs.Segments.{data_segment};

    type Item = DataDecl;

    ghost meaning = { λ reader. data_segment reader.types.now };

    fn read(&self, alloc: Global, input: &mut Cursor<'_>) -> Result<DataDecl, BinaryFault> {
        data_segment(alloc, self.types, input)
    }
}
