ghost use Rattle.std.specs.Prelude.{◌≡◌, codes};
ghost use Rattle.serde_json.specs.View.{view};
ghost use Rattle.script_json.specs.Fields.{Reads, field};
ghost use Rattle.script_modules.specs.Functions as functions;

use crate::code::block;
use crate::code_parts::{CodeParts, begin_block};
use script_json::{JsonReader, ScriptFault, field, list_or_empty, only};
use script_types::{ValTypeReader, whole_32};
use serde_json::Value;
use std::alloc::Global;
use wasm_syntax::FuncDecl;
use wasm_types::{FuncType, Items};

/// Code that nests deeper is not read. Arrays of JSON nest at most 127 deep, so there is none.
const DEEPEST: u32 = 128;

/// The body of a function of this type by the key `code` of an object, or an empty one where there is no such key.
fn body(alloc: Global, ty: u32, json: &Value) -> Result<CodeParts, ScriptFault>
    ensures { Reads (functions.body_of ty (field (codes "code") (view json.now))) result }
{
    let mut parts = CodeParts {
        blocks: Items(Vec::new(alloc)),
        targets: Items(Vec::new(alloc)),
    };
    let _number = match json.get("code") {
        Some(code) => block(alloc, DEEPEST, ty, code, &mut parts)?,
        None => begin_block(alloc, ty, &mut parts)?,
    };
    Ok(parts)
}

fn function(alloc: Global, types: &[FuncType], json: &Value) -> Result<FuncDecl, ScriptFault>
    ensures { Reads (functions.function_of types.now (view json.now)) result }
{
    only(json, &["type", "locals", "code"])?;
    let ty = whole_32(field(json, "type")?)?;
    let locals = list_or_empty(alloc, json, "locals", &ValTypeReader { types })?;
    let parts = body(alloc, ty, json)?;
    Ok(FuncDecl {
        ty,
        locals,
        blocks: parts.blocks,
        targets: parts.targets,
    })
}

/// Reads a function, whose locals may name one of these types.
#[derive(Clone, Copy)]
pub(crate) struct FunctionReader<'a> {
    pub(crate) types: &'a [FuncType],
}

impl<'a> JsonReader for FunctionReader<'a> {
    ghost use Rattle.script_modules.specs.Functions.{function_of};

    type Item = FuncDecl;

    ghost meaning = { λ reader json. function_of reader.types.now json };

    fn read(&self, alloc: Global, json: &Value) -> Result<FuncDecl, ScriptFault> {
        function(alloc, self.types, json)
    }
}
