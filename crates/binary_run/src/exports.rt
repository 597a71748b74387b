ghost use Rattle.std.specs.Prelude.{◌≡◌};
ghost use Rattle.std.specs.Option.{option_copied};
ghost use Rattle.binary_run.specs.Exports as forms;

use module_typing::Spaces;
use wasm_module::Module;
use wasm_syntax::EntityIndex;
use wasm_types::FuncType;

/// The type of the function that a module exports under a name, where the spaces are those of its declaration; `None`
/// exactly where it exports no function under it.
pub fn exported_function<'a>(
    guest: &Module,
    spaces: &Spaces<'a>,
    name: &str,
) -> Option<&'a FuncType>
    requires { spaces.now.decl.now ≡ guest.now }
    ensures { option_copied result ≡ forms.exported_function guest.now name.now }
{
    match guest.get_export_index(name)?.entity {
        EntityIndex::Func(index) => spaces.function_type(index),
        _ => None,
    }
}

/// Whether a module exports a memory under a name.
pub(crate) fn exports_memory(guest: &Module, name: &str) -> bool
    ensures { result ≡ forms.exports_memory guest.now name.now }
{
    match guest.get_export_index(name) {
        Some(export) => matches!(export.entity, EntityIndex::Memory(_)),
        None => false,
    }
}
