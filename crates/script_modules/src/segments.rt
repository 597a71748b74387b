ghost use Rattle.std.specs.Prelude.{◌≡◌};
ghost use Rattle.serde_json.specs.View.{view};
ghost use Rattle.script_json.specs.Fields.{Reads};
ghost use Rattle.script_modules.specs.Segments as segments;

use crate::constants::{ConstantReader, constant};
use crate::kinds::has_only;
use script_json::{JsonReader, ScriptFault, field, hex_bytes, list_of, only, yes};
use script_types::{ref_type, whole_32};
use serde_json::Value;
use std::alloc::Global;
use wasm_syntax::{DataDecl, DataMode, ElemDecl, ElemMode};
use wasm_types::FuncType;

fn active_elements(json: &Value) -> Result<ElemMode, ScriptFault>
    ensures { Reads (segments.active_elements_of (view json.now)) result }
{
    only(json, &["ref", "items", "table", "offset"])?;
    let table = whole_32(field(json, "table")?)?;
    let offset = constant(field(json, "offset")?)?;
    Ok(ElemMode::Active { table, offset })
}

fn declared_elements(json: &Value) -> Result<ElemMode, ScriptFault>
    ensures { Reads (segments.declared_elements_of (view json.now)) result }
{
    yes(field(json, "declared")?)?;
    Ok(ElemMode::Declared)
}

fn elem_mode(json: &Value) -> Result<ElemMode, ScriptFault>
    ensures { Reads (segments.elem_mode_of (view json.now)) result }
{
    if has_only(json, &["ref", "items"]) {
        return Ok(ElemMode::Passive);
    }
    if has_only(json, &["ref", "items", "declared"]) {
        return declared_elements(json);
    }
    active_elements(json)
}

fn elements(alloc: Global, types: &[FuncType], json: &Value) -> Result<ElemDecl, ScriptFault>
    ensures { Reads (segments.elements_of types.now (view json.now)) result }
{
    let mode = elem_mode(json)?;
    let ty = ref_type(types, field(json, "ref")?)?;
    let items = list_of(alloc, field(json, "items")?, &ConstantReader)?;
    Ok(ElemDecl { ty, mode, items })
}

fn active_data(json: &Value) -> Result<DataMode, ScriptFault>
    ensures { Reads (segments.active_data_of (view json.now)) result }
{
    only(json, &["bytes", "memory", "offset"])?;
    let memory = whole_32(field(json, "memory")?)?;
    let offset = constant(field(json, "offset")?)?;
    Ok(DataMode::Active { memory, offset })
}

fn data_mode(json: &Value) -> Result<DataMode, ScriptFault>
    ensures { Reads (segments.data_mode_of (view json.now)) result }
{
    if has_only(json, &["bytes"]) {
        return Ok(DataMode::Passive);
    }
    active_data(json)
}

fn data(alloc: Global, json: &Value) -> Result<DataDecl, ScriptFault>
    ensures { Reads (segments.data_of (view json.now)) result }
{
    let mode = data_mode(json)?;
    let bytes = hex_bytes(alloc, field(json, "bytes")?)?;
    Ok(DataDecl { mode, bytes })
}

/// Reads an element segment, whose type may name one of these types.
#[derive(Clone, Copy)]
pub(crate) struct ElementsReader<'a> {
    pub(crate) types: &'a [FuncType],
}

impl<'a> JsonReader for ElementsReader<'a> {
    ghost use Rattle.script_modules.specs.Segments.{elements_of};

    type Item = ElemDecl;

    ghost meaning = { λ reader json. elements_of reader.types.now json };

    fn read(&self, alloc: Global, json: &Value) -> Result<ElemDecl, ScriptFault> {
        elements(alloc, self.types, json)
    }
}

/// Reads a data segment.
pub(crate) struct DataReader;

impl JsonReader for DataReader {
    ghost use Rattle.script_modules.specs.Segments.{data_of};

    type Item = DataDecl;

    ghost meaning = { λ _ json. data_of json };

    fn read(&self, alloc: Global, json: &Value) -> Result<DataDecl, ScriptFault> {
        data(alloc, json)
    }
}
