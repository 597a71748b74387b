ghost use Rattle.std.specs.Prelude.{◌≡◌};
ghost use Rattle.serde_json.specs.View.{view};
ghost use Rattle.script_json.specs.Fields.{Reads};
ghost use Rattle.script_modules.specs.Imports as imports;

use crate::kinds::{EntityKind, import_kind};
use crate::texts::line;
use script_json::{JsonReader, ScriptFault, field, only};
use script_types::{global_type, memory_type, table_type, type_at};
use serde_json::Value;
use std::alloc::Global;
use wasm_syntax::ImportDecl;
use wasm_types::{ExternType, FuncType, TagType};

fn table_import(types: &[FuncType], json: &Value) -> Result<ExternType, ScriptFault>
    ensures { Reads (imports.table_import_of types.now (view json.now)) result }
{
    only(json, &["ref", "min", "max"])?;
    Ok(ExternType::Table(table_type(types, json)?))
}

fn memory_import(json: &Value) -> Result<ExternType, ScriptFault>
    ensures { Reads (imports.memory_import_of (view json.now)) result }
{
    only(json, &["min", "max", "page"])?;
    Ok(ExternType::Memory(memory_type(json)?))
}

fn global_import(types: &[FuncType], json: &Value) -> Result<ExternType, ScriptFault>
    ensures { Reads (imports.global_import_of types.now (view json.now)) result }
{
    only(json, &["val", "mut"])?;
    Ok(ExternType::Global(global_type(types, json)?))
}

fn tag_import(types: &[FuncType], json: &Value) -> Result<ExternType, ScriptFault>
    ensures { Reads (imports.tag_import_of types.now (view json.now)) result }
{
    let ty = type_at(types, json)?;
    Ok(ExternType::Tag(TagType::new(ty)))
}

fn extern_type(
    types: &[FuncType],
    kind: EntityKind,
    json: &Value,
) -> Result<ExternType, ScriptFault>
    ensures { Reads (imports.extern_type_of types.now kind (view json.now)) result }
{
    match kind {
        EntityKind::Func => Ok(ExternType::Func(type_at(types, json)?)),
        EntityKind::Table => table_import(types, json),
        EntityKind::Memory => memory_import(json),
        EntityKind::Global => global_import(types, json),
        EntityKind::Tag => tag_import(types, json),
    }
}

fn import(alloc: Global, types: &[FuncType], json: &Value) -> Result<ImportDecl, ScriptFault>
    ensures { Reads (imports.import_of types.now (view json.now)) result }
{
    let kind = import_kind(json)?;
    let module = line(alloc, field(json, "module")?)?;
    let name = line(alloc, field(json, "name")?)?;
    let ty = extern_type(types, kind, field(json, kind.key())?)?;
    Ok(ImportDecl { module, name, ty })
}

/// Reads an import, which may name one of these types.
#[derive(Clone, Copy)]
pub(crate) struct ImportReader<'a> {
    pub(crate) types: &'a [FuncType],
}

impl<'a> JsonReader for ImportReader<'a> {
    ghost use Rattle.script_modules.specs.Imports.{import_of};

    type Item = ImportDecl;

    ghost meaning = { λ reader json. import_of reader.types.now json };

    fn read(&self, alloc: Global, json: &Value) -> Result<ImportDecl, ScriptFault> {
        import(alloc, self.types, json)
    }
}
