ghost use Rattle.std.specs.Prelude.{◌≡◌, map};
ghost use Rattle.serde_json.specs.View.{view};
ghost use Rattle.script_json.specs.Fields.{Reads};
ghost use Rattle.script_modules.specs.Kinds as kinds;

use script_json::{ScriptFault, only};
use serde_json::Value;

/// What is imported or exported.
#[derive(Clone, Copy)]
pub(crate) enum EntityKind {
    Func,
    Table,
    Memory,
    Global,
    Tag,
}

impl EntityKind {
    /// The key at which it stands.
    pub(crate) fn key(self) -> &'static str
        ensures { result.now ≡ kinds.key_of self }
    {
        match self {
            EntityKind::Func => "func",
            EntityKind::Table => "table",
            EntityKind::Memory => "memory",
            EntityKind::Global => "global",
            EntityKind::Tag => "tag",
        }
    }
}

/// Whether the value is an object with no other keys than these, of which some may not be there.
pub(crate) fn has_only(json: &Value, keys: &[&str]) -> bool
    ensures { result ≡ kinds.has_only (map (λ k. k.now) keys.now) (view json.now) }
{
    only(json, keys).is_ok()
}

/// What an import imports: the key of its kind is the only one beside those of its names.
pub(crate) fn import_kind(json: &Value) -> Result<EntityKind, ScriptFault>
    ensures { Reads (kinds.import_kind_of (view json.now)) result }
{
    if has_only(json, &["module", "name", "func"]) {
        return Ok(EntityKind::Func);
    }
    if has_only(json, &["module", "name", "table"]) {
        return Ok(EntityKind::Table);
    }
    if has_only(json, &["module", "name", "memory"]) {
        return Ok(EntityKind::Memory);
    }
    if has_only(json, &["module", "name", "global"]) {
        return Ok(EntityKind::Global);
    }
    if has_only(json, &["module", "name", "tag"]) {
        return Ok(EntityKind::Tag);
    }
    Err(ScriptFault::NotScript)
}

/// What an export exports: the key of its kind is the only one beside that of its name.
pub(crate) fn export_kind(json: &Value) -> Result<EntityKind, ScriptFault>
    ensures { Reads (kinds.export_kind_of (view json.now)) result }
{
    if has_only(json, &["name", "func"]) {
        return Ok(EntityKind::Func);
    }
    if has_only(json, &["name", "table"]) {
        return Ok(EntityKind::Table);
    }
    if has_only(json, &["name", "memory"]) {
        return Ok(EntityKind::Memory);
    }
    if has_only(json, &["name", "global"]) {
        return Ok(EntityKind::Global);
    }
    if has_only(json, &["name", "tag"]) {
        return Ok(EntityKind::Tag);
    }
    Err(ScriptFault::NotScript)
}
