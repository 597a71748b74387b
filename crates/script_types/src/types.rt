ghost use Rattle.std.specs.Prelude.{◌≡◌, [], option_map, slice_get, codes, IfErr};
ghost use Rattle.std.specs.Option.{option_copied};
ghost use Rattle.serde_json.specs.View.{view};
ghost use Rattle.wasm_types.specs.FunctionParts.{parts};
ghost use Rattle.script_json.specs.Fields.{Reads, answered, field, field_or, optional, whole_to};
ghost use Rattle.script_types.specs.Types as forms;

use script_json::{JsonReader, ScriptFault, field, list_or_empty, only, truth_or, whole, whole_to};
use serde_json::Value;
use std::alloc::Global;
use wasm_types::{
    EngineId, Finality, FuncType, GlobalType, HeapType, Items, MemoryType, Mutability, RefType,
    TableType, TypeFault, ValType,
};

/// The engine of all types of a script.
const ENGINE: EngineId = EngineId(1);

/// A whole number from 0 to 2^32 - 1, written as an integer.
///
/// `NotScript` for every other value.
pub fn whole_32(json: &Value) -> Result<u32, ScriptFault>
    ensures read { Reads (forms.whole_32 (view json.now)) result }
    ensures takes_no_memory { IfErr result (λ fault. fault ≡ ScriptFault.NotScript) }
{
    let n = whole_to(u64::from(u32::MAX), json)?;
    Ok(n as u32)
}

fn type_in(types: &[FuncType], number: usize) -> Option<&FuncType>
    ensures { option_copied result ≡ slice_get types.now number }
{
    types.get(number)
}

fn type_lent<'a>(types: &'a [FuncType], json: &Value) -> Result<&'a FuncType, ScriptFault>
    ensures read { option_copied (answered result) ≡ forms.type_at types.now (view json.now) }
    ensures takes_no_memory { IfErr result (λ fault. fault ≡ ScriptFault.NotScript) }
{
    let number = whole(json)?;
    type_in(types, number as usize).ok_or(ScriptFault::NotScript)
}

/// The type of this number in the list, counted from 0.
///
/// `NotScript` exactly where the value is no whole number, or no type has it.
pub fn type_at(types: &[FuncType], json: &Value) -> Result<FuncType, ScriptFault>
    ensures { Reads (forms.type_at types.now (view json.now)) result }
{
    let ty = type_lent(types, json)?;
    match ty.clone() {
        Ok(ty) => Ok(ty),
        Err(_) => Err(ScriptFault::OutOfMemory),
    }
}

fn heap_named(name: &str) -> Result<HeapType, ScriptFault>
    ensures { Reads (forms.heap_named name.now) result }
{
    match name {
        "func" => Ok(HeapType::Func),
        "nofunc" => Ok(HeapType::NoFunc),
        "extern" => Ok(HeapType::Extern),
        "noextern" => Ok(HeapType::NoExtern),
        "any" => Ok(HeapType::Any),
        "eq" => Ok(HeapType::Eq),
        "i31" => Ok(HeapType::I31),
        "none" => Ok(HeapType::None),
        _ => Err(ScriptFault::NotScript),
    }
}

fn heap_type(types: &[FuncType], json: &Value) -> Result<HeapType, ScriptFault>
    ensures { Reads (forms.heap_type_of types.now (view json.now)) result }
{
    match json.as_str() {
        Some(name) => heap_named(name),
        None => Ok(HeapType::ConcreteFunc(type_at(types, json)?)),
    }
}

fn reference(types: &[FuncType], json: &Value) -> Result<RefType, ScriptFault>
    ensures { Reads (forms.reference_of types.now (view json.now)) result }
{
    only(json, &["ref", "null"])?;
    let heap = heap_type(types, field(json, "ref")?)?;
    let nullable = truth_or(true, json, "null")?;
    Ok(RefType::new(nullable, heap))
}

fn val_named(name: &str) -> Result<ValType, ScriptFault>
    ensures { Reads (forms.val_named name.now) result }
{
    match name {
        "i32" => Ok(ValType::I32),
        "i64" => Ok(ValType::I64),
        "f32" => Ok(ValType::F32),
        "f64" => Ok(ValType::F64),
        "v128" => Ok(ValType::V128),
        "funcref" => Ok(ValType::funcref()),
        "externref" => Ok(ValType::externref()),
        "anyref" => Ok(ValType::anyref()),
        _ => Err(ScriptFault::NotScript),
    }
}

/// A value type, which may name one of these types.
///
/// `NotScript` exactly where the value spells none.
pub fn val_type(types: &[FuncType], json: &Value) -> Result<ValType, ScriptFault>
    ensures { Reads (forms.val_type_of types.now (view json.now)) result }
{
    match json.as_str() {
        Some(name) => val_named(name),
        None => Ok(ValType::Ref(reference(types, json)?)),
    }
}

/// A value type that is a reference, which may name one of these types.
///
/// `NotScript` exactly where the value spells none.
pub fn ref_type(types: &[FuncType], json: &Value) -> Result<RefType, ScriptFault>
    ensures { Reads (forms.ref_type_of types.now (view json.now)) result }
{
    match val_type(types, json)? {
        ValType::Ref(ty) => Ok(ty),
        _ => Err(ScriptFault::NotScript),
    }
}

/// Reads a value type, which may name one of these types.
#[derive(Clone, Copy)]
pub struct ValTypeReader<'a> {
    pub types: &'a [FuncType],
}

impl<'a> JsonReader for ValTypeReader<'a> {
    ghost use Rattle.script_types.specs.Types.{val_type_of};

    type Item = ValType;

    ghost meaning = { λ reader json. val_type_of reader.types.now json };

    fn read(&self, alloc: Global, json: &Value) -> Result<ValType, ScriptFault> {
        val_type(self.types, json)
    }
}

fn finality(is_final: bool) -> Finality
    ensures { result ≡ forms.finality_of is_final }
{
    if is_final {
        Finality::Final
    } else {
        Finality::NonFinal
    }
}

fn made(
    alloc: Global,
    finality: Finality,
    supertype: Option<&FuncType>,
    params: &[ValType],
    results: &[ValType],
) -> Result<FuncType, ScriptFault>
    ensures { Reads
        (forms.function_type_by
        (parts 1 finality (option_copied supertype.entry) params.now results.now))
        result }
{
    match FuncType::with_finality_and_supertype(
        alloc, ENGINE, finality, supertype, params, results,
    ) {
        Ok(ty) => Ok(ty),
        Err(TypeFault::OutOfMemory) => Err(ScriptFault::OutOfMemory),
        Err(_) => Err(ScriptFault::NotScript),
    }
}

fn supertype<'a>(types: &'a [FuncType], json: &Value) -> Result<Option<&'a FuncType>, ScriptFault>
    ensures read { option_map (λ t. option_copied t) (answered result)
        ≡ optional (forms.type_at types.now) (field (codes "super") (view json.now)) }
    ensures takes_no_memory { IfErr result (λ fault. fault ≡ ScriptFault.NotScript) }
{
    match json.get("super") {
        Some(number) => Ok(Some(type_lent(types, number)?)),
        None => Ok(None),
    }
}

fn function_type(alloc: Global, types: &[FuncType], json: &Value) -> Result<FuncType, ScriptFault>
    ensures { Reads (forms.function_type_of types.now (view json.now)) result }
{
    only(json, &["params", "results", "final", "super"])?;
    let reader = ValTypeReader { types };
    let params = list_or_empty(alloc, json, "params", &reader)?;
    let results = list_or_empty(alloc, json, "results", &reader)?;
    let is_final = truth_or(true, json, "final")?;
    let supertype = supertype(types, json)?;
    made(
        alloc,
        finality(is_final),
        supertype,
        params.as_slice(),
        results.as_slice(),
    )
}

fn type_list(alloc: Global, json: &Value) -> Result<Items<FuncType>, ScriptFault>
    ensures { Reads (forms.type_list_of (view json.now)) result }
{
    let Some(list) = json.as_array() else {
        return Err(ScriptFault::NotScript);
    };
    let mut types = Vec::new(alloc);
    for item in list {
        let ty = function_type(alloc, types.as_slice(), item)?;
        if types.push(ty).is_err() {
            return Err(ScriptFault::OutOfMemory);
        }
    }
    Ok(Items(types))
}

/// The types at the key `types` of an object, each of which may name those before it; none where there is no such key.
///
/// `NotScript` exactly where what is there is no list of types.
pub fn types_of(alloc: Global, json: &Value) -> Result<Items<FuncType>, ScriptFault>
    ensures { Reads
        (field_or [] forms.type_list_of (field (codes "types") (view json.now)))
        result }
{
    match json.get("types") {
        Some(list) => type_list(alloc, list),
        None => Ok(Items(Vec::new(alloc))),
    }
}

fn maximum(json: &Value) -> Result<Option<u32>, ScriptFault>
    ensures { Reads (optional forms.whole_32 (field (codes "max") (view json.now))) result }
{
    match json.get("max") {
        Some(most) => Ok(Some(whole_32(most)?)),
        None => Ok(None),
    }
}

fn page_size_log2(json: &Value) -> Result<u8, ScriptFault>
    ensures { Reads (field_or 16 (whole_to 16) (field (codes "page") (view json.now))) result }
{
    match json.get("page") {
        Some(exponent) => Ok(whole_to(16, exponent)? as u8),
        None => Ok(16),
    }
}

fn table_type_by(
    element: RefType,
    minimum: u32,
    maximum: Option<u32>,
) -> Result<TableType, ScriptFault>
    ensures { Reads (forms.table_type_by element minimum maximum) result }
{
    match TableType::new(element, minimum, maximum) {
        Ok(ty) => Ok(ty),
        Err(_) => Err(ScriptFault::NotScript),
    }
}

/// The table type by the keys `ref`, `min` and `max` of an object: the sizes in elements.
///
/// `NotScript` exactly where they make none.
pub fn table_type(types: &[FuncType], json: &Value) -> Result<TableType, ScriptFault>
    ensures { Reads (forms.table_type_in types.now (view json.now)) result }
{
    let element = ref_type(types, field(json, "ref")?)?;
    let minimum = whole_32(field(json, "min")?)?;
    let maximum = maximum(json)?;
    table_type_by(element, minimum, maximum)
}

fn memory_type_by(
    minimum: u32,
    maximum: Option<u32>,
    page_size_log2: u8,
) -> Result<MemoryType, ScriptFault>
    ensures { Reads (forms.memory_type_by minimum maximum page_size_log2) result }
{
    match MemoryType::new(minimum, maximum, page_size_log2) {
        Ok(ty) => Ok(ty),
        Err(_) => Err(ScriptFault::NotScript),
    }
}

/// The memory type by the keys `min`, `max` and `page` of an object: the sizes in pages, and that of a page as an
/// exponent of 2.
///
/// `NotScript` exactly where they make none.
pub fn memory_type(json: &Value) -> Result<MemoryType, ScriptFault>
    ensures { Reads (forms.memory_type_in (view json.now)) result }
{
    let minimum = whole_32(field(json, "min")?)?;
    let maximum = maximum(json)?;
    let page_size_log2 = page_size_log2(json)?;
    memory_type_by(minimum, maximum, page_size_log2)
}

fn mutability(is_variable: bool) -> Mutability
    ensures { result ≡ forms.mutability_of is_variable }
{
    if is_variable {
        Mutability::Var
    } else {
        Mutability::Const
    }
}

/// The global type by the keys `val` and `mut` of an object.
///
/// `NotScript` exactly where they make none.
pub fn global_type(types: &[FuncType], json: &Value) -> Result<GlobalType, ScriptFault>
    ensures { Reads (forms.global_type_in types.now (view json.now)) result }
{
    let content = val_type(types, field(json, "val")?)?;
    let is_variable = truth_or(false, json, "mut")?;
    Ok(GlobalType::new(content, mutability(is_variable)))
}
