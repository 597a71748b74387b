ghost use Rattle.std.specs.Prelude.{◌≡◌};
ghost use Rattle.typed_values.specs.StaticTypes.{all_checked, is_tested_later, miscounted, pair_fits, same_top};

use wasm_types::{HeapTopType, ValType};
use wasm_values::Refusal;

/// Whether a type is tested as that of a parameter or of a result.
#[derive(Clone, Copy, Debug, PartialEq, Eq)]
pub enum TypeCheckPosition {
    Param,
    Result,
}

/// Tests pairs in order, and then whether there are as many.
pub(crate) fn check_all(
    own: &[ValType],
    actual: &[ValType],
    position: TypeCheckPosition,
) -> Result<(), Refusal>
    ensures { result ≡ all_checked own.now actual.now position }
{
    match own {
        [] => match actual {
            [] => Ok(()),
            [_, ..] => Err(miscounted(position)),
        },
        [own, owns @ ..] => match actual {
            [] => Err(miscounted(position)),
            [actual, actuals @ ..] => {
                if fits(own, actual, position) {
                    check_all(owns, actuals, position)
                } else {
                    Err(Refusal::TypeMismatch)
                }
            }
        },
    }
}

fn miscounted(position: TypeCheckPosition) -> Refusal
    ensures { result ≡ miscounted position }
{
    match position {
        TypeCheckPosition::Param => Refusal::ArgumentCount,
        TypeCheckPosition::Result => Refusal::ResultCount,
    }
}

/// Whether a type that the host has may stand for one that a function has.
pub(crate) fn fits(own: &ValType, actual: &ValType, position: TypeCheckPosition) -> bool
    ensures { result ≡ pair_fits own.now actual.now position }
{
    match position {
        TypeCheckPosition::Result => actual.matches(own),
        TypeCheckPosition::Param => own.matches(actual) || is_tested_later(own, actual),
    }
}

/// Whether both are references below one greatest type, and the second is to functions of one type.
fn is_tested_later(own: &ValType, actual: &ValType) -> bool
    ensures { result ≡ is_tested_later own.now actual.now }
{
    match (own, actual) {
        (ValType::Ref(own), ValType::Ref(actual)) => actual.heap_type().is_concrete()
            && is_same_top(own.heap_type().top(), actual.heap_type().top()),
        _ => false,
    }
}

fn is_same_top(a: HeapTopType, b: HeapTopType) -> bool
    ensures { result ≡ same_top a b }
{
    match (a, b) {
        (HeapTopType::Func, HeapTopType::Func) => true,
        (HeapTopType::Extern, HeapTopType::Extern) => true,
        (HeapTopType::Any, HeapTopType::Any) => true,
        _ => false,
    }
}
