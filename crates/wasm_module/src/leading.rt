ghost use Rattle.std.specs.Prelude.{◌≡◌, ◌<◌, ◌≤◌, [], length, option_map, replicate, vec_items, IfOk, IfSome};
ghost use Rattle.std.specs.Bool.{OnFalse, then_some};
ghost use Rattle.wasm_syntax.specs.Contexts.{imported, as_table, as_memory};
ghost use Rattle.wasm_module.specs.Images.{
  cell_of,
  cells_of,
  fixed_offset,
  defined_number,
  led_cells,
  led_element,
  led_elements,
  led_bytes,
  led_data,
  led_alone,
  none_written,
};
ghost use Rattle.wasm_module.specs.Fitting.{AreTables, AreMemories, memory_size};

use crate::fronts::Fronts;
use std::alloc::Global;
use wasm_syntax::{ConstExpr, DataMode, ElemMode, ModuleDecl};
use wasm_types::{Cell, HeapTopType, MemoryType, OutOfMemory};

// The most cells that the images of all tables have together, and the most bytes that those of all memories have.
const MOST_CELLS: usize = 1_000_000;

const MOST_BYTES: usize = 1 << 24;

// What an item of a segment writes in a table, where that is known.
fn cell(item: &ConstExpr) -> Option<Cell>
    ensures { result ≡ cell_of item.now }
{
    match item {
        ConstExpr::RefFunc(function) => Some(Cell::Func(*function)),
        ConstExpr::RefNull(_) => Some(Cell::Null),
        _ => None,
    }
}

// The same of all items.
fn cells(alloc: Global, items: &[ConstExpr]) -> Result<Option<Vec<Cell>>, OutOfMemory>
    ensures { IfOk result (λ found. option_map vec_items found ≡ cells_of items.now) }
{
    let mut cells = Vec::with_capacity(alloc, items.len())?;
    let mut rest = items;
    'items: while let [item, tail @ ..] = rest {
        let Some(cell) = cell(item) else {
            return Ok(None);
        };
        cells.push(cell)?;
        rest = tail;
    }
    Ok(Some(cells))
}

// An offset that stands in the module.
fn fixed_offset(offset: &ConstExpr) -> Option<usize>
    ensures { result ≡ fixed_offset offset.now }
{
    match offset {
        ConstExpr::I32(number) => Some(number.cast_unsigned() as usize),
        _ => None,
    }
}

// The number among the defined items of an index behind so many imports.
fn defined_number(imports: usize, index: u32) -> Option<usize>
    ensures { result ≡ defined_number imports index }
{
    let index = index as usize;
    if index < imports {
        return None;
    }
    Some(index - imports)
}

// Writes an active element segment to the images where it leads, and tells whether it does.
fn lead_cells(
    alloc: Global,
    decl: &ModuleDecl,
    imports: usize,
    images: &mut Fronts<Cell>,
    table: u32,
    offset: &ConstExpr,
    items: &[ConstExpr],
) -> Result<bool, OutOfMemory>
    requires imported { imports ≡ length (imported as_table decl.now) }
    requires fitting { AreTables decl.now images.old }
    ensures led { IfOk result (λ led. then_some led images.new
        ≡ led_cells decl.now images.old table offset.now items.now) }
    ensures refused { IfOk result (λ led. OnFalse led (images.new ≡ images.old)) }
{
    let Some(number) = defined_number(imports, table) else {
        return Ok(false);
    };
    let Some(declared) = decl.tables.as_slice().get(number) else {
        return Ok(false);
    };
    let Some(at) = fixed_offset(offset) else {
        return Ok(false);
    };
    let Some(cells) = cells(alloc, items)? else {
        return Ok(false);
    };
    if !matches!(declared.ty.element().heap_type().top(), HeapTopType::Func) {
        return Ok(false);
    }
    let size = declared.ty.minimum() as usize;
    let led = images.write(number, size, Cell::Init, at, cells.as_slice(), MOST_CELLS)?;
    Ok(led)
}

// Writes an element segment to the images where it leads, and tells whether it does.
fn lead_element(
    alloc: Global,
    decl: &ModuleDecl,
    imports: usize,
    images: &mut Fronts<Cell>,
    mode: &ElemMode,
    items: &[ConstExpr],
) -> Result<bool, OutOfMemory>
    requires imported { imports ≡ length (imported as_table decl.now) }
    requires fitting { AreTables decl.now images.old }
    ensures led { IfOk result (λ led.
        then_some led images.new ≡ led_element decl.now images.old mode.now items.now) }
    ensures refused { IfOk result (λ led. OnFalse led (images.new ≡ images.old)) }
{
    match mode {
        ElemMode::Passive | ElemMode::Declared => Ok(true),
        ElemMode::Active { table, offset } => {
            let led = lead_cells(alloc, decl, imports, images, *table, offset, items)?;
            Ok(led)
        }
    }
}

// How many bytes a memory has at first.
fn first_size(ty: &MemoryType) -> usize
    ensures value { result ≡ memory_size ty.now }
    ensures small { result ≤ 281474976710656 }
{
    ty.minimum() as usize * ty.page_size() as usize
}

// Writes an active data segment to the images where it leads, and tells whether it does.
fn lead_bytes(
    decl: &ModuleDecl,
    imports: usize,
    images: &mut Fronts<u8>,
    memory: u32,
    offset: &ConstExpr,
    bytes: &[u8],
) -> Result<bool, OutOfMemory>
    requires imported { imports ≡ length (imported as_memory decl.now) }
    requires fitting { AreMemories decl.now images.old }
    ensures led { IfOk result (λ led. then_some led images.new
        ≡ led_bytes decl.now images.old memory offset.now bytes.now) }
    ensures refused { IfOk result (λ led. OnFalse led (images.new ≡ images.old)) }
{
    let Some(number) = defined_number(imports, memory) else {
        return Ok(false);
    };
    let Some(ty) = decl.memories.as_slice().get(number) else {
        return Ok(false);
    };
    let Some(at) = fixed_offset(offset) else {
        return Ok(false);
    };
    let size = first_size(ty);
    let led = images.write(number, size, 0, at, bytes, MOST_BYTES)?;
    Ok(led)
}

// Writes a data segment to the images where it leads, and tells whether it does.
fn lead_data(
    decl: &ModuleDecl,
    imports: usize,
    images: &mut Fronts<u8>,
    mode: &DataMode,
    bytes: &[u8],
) -> Result<bool, OutOfMemory>
    requires imported { imports ≡ length (imported as_memory decl.now) }
    requires fitting { AreMemories decl.now images.old }
    ensures led { IfOk result (λ led.
        then_some led images.new ≡ led_data decl.now images.old mode.now bytes.now) }
    ensures refused { IfOk result (λ led. OnFalse led (images.new ≡ images.old)) }
{
    match mode {
        DataMode::Passive => Ok(true),
        DataMode::Active { memory, offset } => {
            let led = lead_bytes(decl, imports, images, *memory, offset, bytes)?;
            Ok(led)
        }
    }
}

// How many element segments lead, and what they leave in the images.
pub(crate) fn lead_elements(
    alloc: Global,
    decl: &ModuleDecl,
    imports: usize,
    images: &mut Fronts<Cell>,
) -> Result<usize, OutOfMemory>
    requires imported { imports ≡ length (imported as_table decl.now) }
    requires none { images.old ≡ replicate (length decl.now.tables) [] }
    ensures count { IfOk result (λ count. count ≡ (led_elements decl.now).0) }
    ensures images { IfOk result (λ count. images.new ≡ (led_elements decl.now).1) }
{
    let mut count = 0usize;
    let mut rest = decl.elements.as_slice();
    'segments: while let [segment, tail @ ..] = rest {
        if !lead_element(
            alloc,
            decl,
            imports,
            images,
            &segment.mode,
            segment.items.as_slice(),
        )? {
            return Ok(count);
        }
        count += 1;
        rest = tail;
    }
    Ok(count)
}

// How many data segments lead, where all element segments do, and what they leave in the images.
pub(crate) fn lead_datas(
    decl: &ModuleDecl,
    imports: usize,
    images: &mut Fronts<u8>,
) -> Result<usize, OutOfMemory>
    requires imported { imports ≡ length (imported as_memory decl.now) }
    requires none { images.old ≡ none_written decl.now }
    ensures count { IfOk result (λ count. count ≡ (led_alone decl.now).0) }
    ensures images { IfOk result (λ count. images.new ≡ (led_alone decl.now).1) }
{
    let mut count = 0usize;
    let mut rest = decl.datas.as_slice();
    'segments: while let [segment, tail @ ..] = rest {
        if !lead_data(
            decl,
            imports,
            images,
            &segment.mode,
            segment.bytes.as_slice(),
        )? {
            return Ok(count);
        }
        count += 1;
        rest = tail;
    }
    Ok(count)
}
