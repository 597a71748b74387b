ghost use Rattle.std.specs.Prelude.{◌≡◌, map, IfOk};
ghost use Rattle.spec_execution.specs.Allocation.{reference_of};
ghost use Rattle.store_state.specs.Parts.{segment_parts};
ghost use Rattle.wasm_module.specs.Images.{leading_elements};
ghost use Rattle.law_images.specs.Leading.{references, left_references, whole_data, left_data, left_elements, left_datas, kept_datas};
ghost use Rattle.instance_parts.specs.Objects.{first_of};

use crate::constants::reference_of;
use std::alloc::Global;
use store_state::Segments;
use wasm_module::{ConstExpr, DataDecl, DataMode, ElemDecl, ElemMode, Module};
use wasm_objects::{DataSegment, ElemSegment, RawRef, RawVal};
use wasm_types::OutOfMemory;

// The references that constant expressions give, over the numbers of the functions and the values of the globals.
fn references(
    alloc: Global,
    functions: &[usize],
    globals: &[RawVal],
    items: &[ConstExpr],
) -> Result<Vec<RawRef>, OutOfMemory>
    ensures { IfOk result (λ made. made.items ≡ map (reference_of functions.now globals.now) items.now) }
{
    let mut made = Vec::with_capacity(alloc, items.len())?;
    let mut rest = items;
    'items: while let [item, tail @ ..] = rest {
        made.push(reference_of(functions, globals, item))?;
        rest = tail;
    }
    Ok(made)
}

// What an element segment begins with: where it leads, what taking it leaves, and else all of it.
fn first_items(
    alloc: Global,
    functions: &[usize],
    globals: &[RawVal],
    element: &ElemDecl,
    leads: bool,
) -> Result<Vec<RawRef>, OutOfMemory>
    ensures { IfOk result (λ made. made.items
        ≡ first_of leads (left_references functions.now globals.now) (references functions.now globals.now) element.now) }
{
    let passive = matches!(&element.mode, ElemMode::Passive);
    if leads && !passive {
        return Ok(Vec::new(alloc));
    }
    let items = references(alloc, functions, globals, element.items.as_slice())?;
    Ok(items)
}

// The element segments that are declared, of which so many lead.
fn new_elements(
    alloc: Global,
    functions: &[usize],
    globals: &[RawVal],
    declared: &[ElemDecl],
    leading: usize,
) -> Result<Vec<ElemSegment>, OutOfMemory>
    ensures { IfOk result (λ made.
        made.items ≡ left_elements functions.now globals.now leading declared.now) }
{
    let mut made = Vec::new(alloc);
    let mut rest = declared;
    let mut segment = 0;
    'elements: while let [element, tail @ ..] = rest {
        let items = first_items(alloc, functions, globals, element, segment < leading)?;
        made.push(ElemSegment::try_new(alloc, items.as_slice())?)?;
        segment += 1;
        rest = tail;
    }
    Ok(made)
}

// What a data segment begins with: where it leads, what taking it leaves, and else all of it.
fn first_bytes(declared: &DataDecl, leads: bool) -> &[u8]
    ensures { result.now ≡ first_of leads left_data whole_data declared.now }
{
    let active = matches!(&declared.mode, DataMode::Active { .. });
    if leads && active {
        return &[];
    }
    declared.bytes.as_slice()
}

// The data segments that are declared, of which so many lead.
fn new_datas(
    alloc: Global,
    declared: &[DataDecl],
    leading: usize,
) -> Result<Vec<DataSegment>, OutOfMemory>
    ensures { IfOk result (λ made. made.items ≡ left_datas leading declared.now) }
{
    let mut made = Vec::new(alloc);
    let mut rest = declared;
    let mut segment = 0;
    'datas: while let [data, tail @ ..] = rest {
        let bytes = first_bytes(data, segment < leading);
        made.push(DataSegment::try_new(alloc, bytes)?)?;
        segment += 1;
        rest = tail;
    }
    Ok(made)
}

/// The segments that a module declares: of those that lead what taking them leaves, and the others whole.
pub(crate) fn new_segments(
    alloc: Global,
    functions: &[usize],
    globals: &[RawVal],
    validated: &Module,
) -> Result<Segments, OutOfMemory>
    ensures { IfOk result (λ made. made ≡ segment_parts
        (left_elements functions.now globals.now (leading_elements validated.now) validated.now.elements)
        (kept_datas validated.now)) }
{
    let decl = validated.decl();
    let elements = new_elements(
        alloc,
        functions,
        globals,
        decl.elements.as_slice(),
        validated.leading_elements(),
    )?;
    let datas = new_datas(alloc, decl.datas.as_slice(), validated.leading_datas())?;
    Ok(Segments::new(elements, datas))
}
