ghost use Rattle.std.specs.Prelude.{◌≡◌, false, option_copied, option_and_then, slice_get};
ghost use Rattle.wasm_types.specs.FunctionParts.{ref_type};
ghost use Rattle.wasm_types.specs.Matching.{ref_matches};
ghost use Rattle.wasm_syntax.specs.Constants.{null_type, constant_content, const_fits, globals_before};
ghost use Rattle.wasm_syntax.specs.Contexts.{functions};

use module_typing::Spaces;
use wasm_syntax::ConstExpr;
use wasm_types::{FuncType, HeapTopType, HeapType, Mutability, RefType, ValType};

// The type of a family's null.
fn null_of(family: HeapTopType) -> RefType
    ensures { ValType.Ref result ≡ null_type family }
{
    match family {
        HeapTopType::Func => RefType::new(true, HeapType::NoFunc),
        HeapTopType::Extern => RefType::new(true, HeapType::NoExtern),
        HeapTopType::Any => RefType::new(true, HeapType::None),
    }
}

// Whether a non-null reference to a function of this type may stand where one of the other is wanted. No type is made
// for it, since that could fail where the count of sharers is full.
fn function_fits(ty: &FuncType, wanted: &RefType) -> bool
    ensures { result ≡ ref_matches (ref_type false (HeapType.ConcreteFunc ty.now)) wanted.now }
{
    match wanted.heap_type() {
        HeapType::ConcreteFunc(declared) => ty.matches(declared),
        HeapType::Func => true,
        _ => false,
    }
}

// The content of a constant global, where it is an import or one of the first `known` defined globals.
#[tactic(auto, using(crate::proofs::GlobalLemmas::get_known, crate::proofs::GlobalLemmas::get_unknown))]
fn content<'a>(spaces: &Spaces<'a>, known: usize, index: u32) -> Option<&'a ValType>
    ensures { option_copied result
        ≡ option_and_then constant_content (slice_get (globals_before spaces.now.decl.now known) index) }
{
    let place = index as usize;
    let imported = spaces.imported_global_count();
    if place >= imported && place - imported >= known {
        return None;
    }
    let global = spaces.global(index)?;
    match global.mutability() {
        Mutability::Const => Some(global.content()),
        Mutability::Var => None,
    }
}

// Whether a constant expression is of a reference type, where it may name the imported globals and the first `known`
// defined ones.
pub(crate) fn ref_fits(spaces: &Spaces, known: usize, wanted: &RefType, expr: &ConstExpr) -> bool
    ensures { let d = spaces.now.decl.now in
        result ≡ const_fits (functions d) (globals_before d known) (ValType.Ref wanted.now) expr.now }
{
    match expr {
        ConstExpr::RefNull(family) => null_of(*family).matches(wanted),
        ConstExpr::RefFunc(function) => match spaces.function_type(*function) {
            None => false,
            Some(ty) => function_fits(ty, wanted),
        },
        ConstExpr::GlobalGet(global) => match content(spaces, known, *global) {
            Some(ValType::Ref(ty)) => ty.matches(wanted),
            _ => false,
        },
        _ => false,
    }
}

// Whether a constant expression is of a type, where it may name the imported globals and the first `known` defined
// ones.
pub(crate) fn val_fits(spaces: &Spaces, known: usize, wanted: &ValType, expr: &ConstExpr) -> bool
    ensures { let d = spaces.now.decl.now in
        result ≡ const_fits (functions d) (globals_before d known) wanted.now expr.now }
{
    match wanted {
        ValType::Ref(ty) => ref_fits(spaces, known, ty, expr),
        _ => match expr {
            ConstExpr::I32(_) => ValType::I32.matches(wanted),
            ConstExpr::I64(_) => ValType::I64.matches(wanted),
            ConstExpr::F32(_) => ValType::F32.matches(wanted),
            ConstExpr::F64(_) => ValType::F64.matches(wanted),
            ConstExpr::V128(_) => ValType::V128.matches(wanted),
            ConstExpr::RefNull(_) | ConstExpr::RefFunc(_) => false,
            ConstExpr::GlobalGet(global) => match content(spaces, known, *global) {
                None => false,
                Some(ty) => ty.matches(wanted),
            },
        },
    }
}
