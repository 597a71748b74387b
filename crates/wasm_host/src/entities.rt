ghost use Rattle.std.specs.Prelude.{◌≡◌};
ghost use Rattle.wasm_host.specs.Callers.{is_entity, exports_entity, is_export_of};

use wasm_syntax::{EntityIndex, ExportDecl, ModuleDecl, ModuleExport};

/// Whether both name the same of a module.
fn is_entity(given: EntityIndex, wanted: EntityIndex) -> bool
    ensures { result ≡ is_entity given wanted }
{
    match (given, wanted) {
        (EntityIndex::Func(k), EntityIndex::Func(n)) => k == n,
        (EntityIndex::Table(k), EntityIndex::Table(n)) => k == n,
        (EntityIndex::Memory(k), EntityIndex::Memory(n)) => k == n,
        (EntityIndex::Global(k), EntityIndex::Global(n)) => k == n,
        (EntityIndex::Tag(k), EntityIndex::Tag(n)) => k == n,
        _ => false,
    }
}

/// Whether one of these exports names this.
fn has_entity(exports: &[ExportDecl], wanted: EntityIndex) -> bool
    ensures { result ≡ exports_entity wanted exports.now }
{
    exports
        .iter()
        .any(|export| is_entity(export.entity, wanted))
}

/// Whether a module has this export.
pub(crate) fn is_exported(decl: &ModuleDecl, export: &ModuleExport) -> bool
    ensures { result ≡ is_export_of decl.now export.now }
{
    decl.number == export.module && has_entity(decl.exports.as_slice(), export.entity)
}
