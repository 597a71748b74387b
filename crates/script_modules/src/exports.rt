ghost use Rattle.std.specs.Prelude.{◌≡◌};
ghost use Rattle.serde_json.specs.View.{view};
ghost use Rattle.script_json.specs.Fields.{Reads};
ghost use Rattle.script_modules.specs.Exports as exports;

use crate::kinds::{EntityKind, export_kind};
use crate::texts::line;
use script_json::{JsonReader, ScriptFault, field};
use script_types::whole_32;
use serde_json::Value;
use std::alloc::Global;
use wasm_syntax::{EntityIndex, ExportDecl};

fn entity(kind: EntityKind, index: u32) -> EntityIndex
    ensures { result ≡ exports.entity kind index }
{
    match kind {
        EntityKind::Func => EntityIndex::Func(index),
        EntityKind::Table => EntityIndex::Table(index),
        EntityKind::Memory => EntityIndex::Memory(index),
        EntityKind::Global => EntityIndex::Global(index),
        EntityKind::Tag => EntityIndex::Tag(index),
    }
}

fn export(alloc: Global, json: &Value) -> Result<ExportDecl, ScriptFault>
    ensures { Reads (exports.export_of (view json.now)) result }
{
    let kind = export_kind(json)?;
    let name = line(alloc, field(json, "name")?)?;
    let index = whole_32(field(json, kind.key())?)?;
    Ok(ExportDecl {
        name,
        entity: entity(kind, index),
    })
}

/// Reads an export.
pub(crate) struct ExportReader;

impl JsonReader for ExportReader {
    ghost use Rattle.script_modules.specs.Exports.{export_of};

    type Item = ExportDecl;

    ghost meaning = { λ _ json. export_of json };

    fn read(&self, alloc: Global, json: &Value) -> Result<ExportDecl, ScriptFault> {
        export(alloc, json)
    }
}
