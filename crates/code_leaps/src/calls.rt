ghost use Rattle.std.specs.Prelude.{◌≡◌};
ghost use Rattle.wasm_values.specs.Values.{default_of};
ghost use Rattle.spec_execution.specs.Entering.{begun};
ghost use Rattle.code_leaps.specs.Calling.{IsCallee};

use code_stack::item;
use store_state::Program;
use wasm_module::Module;
use wasm_objects::{RawRef, RawVal};
use wasm_syntax::FuncDecl;
use wasm_types::{FuncType, ValType};

/// A function of an instance that is to be entered: its module, its declaration and its type.
#[derive(Clone, Copy)]
pub struct Callee<'p> {
    pub module: &'p Module,
    pub function: &'p FuncDecl,
    pub ty: &'p FuncType,
}

/// A function of an instance, by the number among those that its module defines.
#[inline]
pub fn find_callee(program: &Program, instance: usize, number: usize) -> Option<Callee<'_>>
    ensures { IsCallee program.now instance number result }
{
    let module = program.instance(instance)?.module();
    let decl = module.decl();
    let function = item(decl.functions.as_slice(), number)?;
    let ty = item(decl.types.as_slice(), function.ty as usize)?;
    Some(Callee {
        module,
        function,
        ty,
    })
}

/// What a local of a type begins with.
pub fn begun_value(ty: &ValType) -> RawVal
    ensures { result ≡ begun (default_of ty.now) }
{
    match ty {
        ValType::I32 => RawVal::I32(0),
        ValType::I64 => RawVal::I64(0),
        ValType::F32 => RawVal::F32(0),
        ValType::F64 => RawVal::F64(0),
        ValType::V128 => RawVal::V128(0),
        ValType::Ref(ty) => {
            if ty.is_nullable() {
                RawVal::Reference(RawRef::Null)
            } else {
                RawVal::I32(0)
            }
        }
    }
}
