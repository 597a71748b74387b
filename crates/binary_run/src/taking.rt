//! What of a module takes bytes, or does not.
ghost use Rattle.std.specs.Prelude.{◌≡◌, Ok, Err, IfOk, IfErr};
ghost use Rattle.std.specs.Option.{option_copied};
ghost use Rattle.binary_run.specs.Bytes as forms;

use crate::exports::{exported_function, exports_memory};
use crate::status::BytesPart;
use module_typing::Spaces;
use wasm_module::Module;
use wasm_types::{FuncType, ValType};

/// The name of the memory that bytes go into and come out of.
pub(crate) const MEMORY: &str = "memory";

/// The name of the function that makes room for bytes.
pub(crate) const ALLOC: &str = "alloc";

fn is_one_i32(types: &[ValType]) -> bool
    ensures { result ≡ forms.is_one_i32 types.now }
{
    matches!(types, [ValType::I32])
}

fn is_one_i64(types: &[ValType]) -> bool
    ensures { result ≡ forms.is_one_i64 types.now }
{
    matches!(types, [ValType::I64])
}

fn are_two_i32(types: &[ValType]) -> bool
    ensures { result ≡ forms.are_two_i32 types.now }
{
    matches!(types, [ValType::I32, ValType::I32])
}

/// The parameters before a pointer and a length; `None` exactly where these are not the last two.
fn before_bytes(types: &[ValType]) -> Option<&[ValType]>
    ensures { option_copied result ≡ forms.before_bytes types.now }
{
    let (before, last) = types.split_at(types.len().saturating_sub(2));
    if are_two_i32(last) {
        Some(before)
    } else {
        None
    }
}

fn answers_bytes(types: &[ValType]) -> bool
    ensures { result ≡ forms.answers_bytes types.now }
{
    is_one_i32(types) || is_one_i64(types)
}

/// Whether a module exports a function that makes room for so many bytes.
fn exports_alloc(guest: &Module, spaces: &Spaces<'_>) -> bool
    requires { spaces.now.decl.now ≡ guest.now }
    ensures { result ≡ forms.exports_alloc guest.now }
{
    match exported_function(guest, spaces, ALLOC) {
        Some(ty) => is_one_i32(ty.params()) && is_one_i32(ty.results()),
        None => false,
    }
}

/// The parameters that a function of a module has beside the bytes that it is given, or what of the module takes none; the
/// spaces are those of its declaration.
pub fn taking_bytes<'a>(
    guest: &Module,
    spaces: &Spaces<'a>,
    ty: &'a FuncType,
) -> Result<&'a [ValType], BytesPart>
    requires { spaces.now.decl.now ≡ guest.now }
    ensures takes { IfOk result (λ types. forms.taking_bytes guest.now ty.now ≡ Ok types.now) }
    ensures takes_none { IfErr result (λ part. forms.taking_bytes guest.now ty.now ≡ Err part) }
{
    if !exports_memory(guest, MEMORY) {
        return Err(BytesPart::Memory);
    }
    if !exports_alloc(guest, spaces) {
        return Err(BytesPart::Alloc);
    }
    if !answers_bytes(ty.results()) {
        return Err(BytesPart::Function);
    }
    match before_bytes(ty.params()) {
        Some(types) => Ok(types),
        None => Err(BytesPart::Function),
    }
}
