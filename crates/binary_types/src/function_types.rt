ghost use Rattle.std.specs.Prelude.{◌≡◌, [], IfOk};
ghost use Rattle.std.specs.Option.{option_copied};
ghost use Rattle.wasm_types.specs.FunctionParts.{parts, supertype_of};
ghost use Rattle.binary_index.specs.Keys.{IsKeyOf, SaysAbove, SaysHeading};
ghost use Rattle.binary_types.specs.FunctionTypes as forms;
ghost use Rattle.binary_types.specs.Reading.{Reads};

use crate::faults::BinaryFault;
use crate::keyed::keyed_values;
use crate::reading::{byte, fixed, whole_32};
use crate::types::named;
use binary_index::{IndexedTypes, TypeKey};
use std::alloc::Global;
use wasm_leb::Cursor;
use wasm_types::{EngineId, Finality, FuncType, Items, TypeFault, ValType};

/// What stands before the parameters of a function type.
#[derive(Drop)]
pub(crate) struct Heading {
    pub(crate) finality: Finality,
    pub(crate) supertype: Option<FuncType>,
}

fn supertype_by(
    types: &IndexedTypes,
    count: u32,
    key: &mut TypeKey,
    input: &mut Cursor<'_>,
) -> Result<Option<FuncType>, BinaryFault>
    ensures read { Reads (forms.supertype_by types.now count input.old) result input.new }
    ensures key { IfOk result (λ s. SaysAbove types.now (supertype_of s) key.old key.new) }
{
    if count == 0 {
        key.push_end()?;
        return Ok(None);
    }
    let at = input.at();
    let number = whole_32(input)?;
    let ty = named(types.as_slice(), at, number)?;
    types.push_to(number, &ty, 1, key)?;
    Ok(Some(ty))
}

fn supertype(
    types: &IndexedTypes,
    key: &mut TypeKey,
    input: &mut Cursor<'_>,
) -> Result<Option<FuncType>, BinaryFault>
    ensures read { Reads (forms.supertype types.now input.old) result input.new }
    ensures key { IfOk result (λ s. SaysAbove types.now (supertype_of s) key.old key.new) }
{
    let count = whole_32(input)?;
    if count > 1 {
        return Err(BinaryFault::Malformed);
    }
    let ty = supertype_by(types, count, key, input)?;
    fixed(0x60, input)?;
    Ok(ty)
}

fn below(
    types: &IndexedTypes,
    finality: Finality,
    key: &mut TypeKey,
    input: &mut Cursor<'_>,
) -> Result<Heading, BinaryFault>
    ensures read { Reads (forms.below types.now finality input.old) result input.new }
    ensures key { IfOk result (λ h. SaysHeading types.now h.finality (supertype_of h.supertype) key.old key.new) }
{
    key.push_finality(finality)?;
    let supertype = supertype(types, key, input)?;
    Ok(Heading {
        finality,
        supertype,
    })
}

fn heading_by(
    types: &IndexedTypes,
    at: usize,
    code: u8,
    key: &mut TypeKey,
    input: &mut Cursor<'_>,
) -> Result<Heading, BinaryFault>
    ensures read { Reads (forms.heading_by types.now at code input.old) result input.new }
    ensures key { IfOk result (λ h. SaysHeading types.now h.finality (supertype_of h.supertype) key.old key.new) }
{
    match code {
        0x60 => {
            key.push_finality(Finality::Final)?;
            key.push_end()?;
            Ok(Heading {
                finality: Finality::Final,
                supertype: None,
            })
        }
        0x50 => below(types, Finality::NonFinal, key, input),
        0x4f => below(types, Finality::Final, key, input),
        _ => Err(BinaryFault::Unsupported {
            at,
            code: u64::from(code),
        }),
    }
}

/// The function type of these parts, which begins at `at`.
///
/// `Refused` exactly where its constructor refuses for another cause than memory.
pub fn made(
    alloc: Global,
    engine: EngineId,
    at: usize,
    finality: Finality,
    supertype: Option<&FuncType>,
    params: &[ValType],
    results: &[ValType],
) -> Result<FuncType, BinaryFault>
    ensures { forms.IsMadeAt at
        (parts engine.0 finality (option_copied supertype.entry) params.now results.now)
        result }
{
    match FuncType::with_finality_and_supertype(
        alloc, engine, finality, supertype, params, results,
    ) {
        Ok(ty) => Ok(ty),
        Err(TypeFault::OutOfMemory) => Err(BinaryFault::OutOfMemory),
        Err(fault) => Err(BinaryFault::Refused { at, fault }),
    }
}

fn finished(
    alloc: Global,
    engine: EngineId,
    at: usize,
    heading: &Heading,
    params: &Items<ValType>,
    results: &Items<ValType>,
) -> Result<FuncType, BinaryFault>
    ensures { forms.IsMadeAt at
        (parts engine.0 heading.now.finality heading.now.supertype params.now results.now)
        result }
{
    made(
        alloc,
        engine,
        at,
        heading.finality,
        heading.supertype.as_ref(),
        params.as_slice(),
        results.as_slice(),
    )
}

fn function_type_at(
    alloc: Global,
    engine: EngineId,
    types: &IndexedTypes,
    at: usize,
    key: &mut TypeKey,
    input: &mut Cursor<'_>,
) -> Result<FuncType, BinaryFault>
    requires { key.old ≡ [] }
    ensures read { Reads (forms.function_type_at engine.0 types.now at input.old) result input.new }
    ensures key { IfOk result (λ t. IsKeyOf types.now t key.new) }
{
    let code = byte(input)?;
    let heading = heading_by(types, at, code, key, input)?;
    let params = keyed_values(alloc, types, key, input)?;
    key.push_end()?;
    let results = keyed_values(alloc, types, key, input)?;
    finished(alloc, engine, at, &heading, &params, &results)
}

fn function_type(
    alloc: Global,
    engine: EngineId,
    types: &IndexedTypes,
    key: &mut TypeKey,
    input: &mut Cursor<'_>,
) -> Result<FuncType, BinaryFault>
    ensures read { Reads (forms.function_type engine.0 types.now input.old) result input.new }
    ensures key { IfOk result (λ t. IsKeyOf types.now t key.new) }
{
    let at = input.at();
    key.clear();
    function_type_at(alloc, engine, types, at, key, input)
}

#[tactic(auto, using(crate::proofs::Repeats::types_begun, crate::proofs::Repeats::types_ended, crate::proofs::Repeats::types_more, crate::proofs::Repeats::types_failed))]
fn types_behind(
    alloc: Global,
    engine: EngineId,
    count: u32,
    input: &mut Cursor<'_>,
) -> Result<IndexedTypes, BinaryFault>
    ensures { Reads (forms.types_behind engine.0 count [] input.old) result input.new }
{
    let mut types = IndexedTypes::new(alloc);
    let mut key = TypeKey::new(alloc);
    for _ in 0..count {
        match function_type(alloc, engine, &types, &mut key, input) {
            Ok(ty) => match types.extended(alloc, ty, &key) {
                Ok(more) => types = more,
                Err(_) => return Err(BinaryFault::OutOfMemory),
            },
            Err(fault) => return Err(fault),
        }
    }
    Ok(types)
}

/// The types of the type section, each of which may name those before it.
pub fn type_section(
    alloc: Global,
    engine: EngineId,
    input: &mut Cursor<'_>,
) -> Result<IndexedTypes, BinaryFault>
    ensures { Reads (forms.type_section engine.0 input.old) result input.new }
{
    let count = whole_32(input)?;
    types_behind(alloc, engine, count, input)
}
