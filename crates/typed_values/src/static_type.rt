ghost use Rattle.std.specs.Prelude.{◌≡◌, Option, Some, is_some, true};
ghost use Rattle.spec_machine.specs.Machine.{Machine};
ghost use Rattle.spec_machine.specs.Values.{val_fits};
ghost use Rattle.typed_values.specs.StaticTypes.{Kind, is_of_kind, is_plain, checked};
ghost use Rattle.wasm_types.specs.declared.value_types.ValType.{ValType as Static};
ghost use Rattle.wasm_values.specs.declared.values.Val.{Val as Value};

use crate::checks::{TypeCheckPosition, fits};
use wasm_types::{EngineId, ValType};
use wasm_values::{Refusal, Val};

/// A type of the host that stands for a type of WebAssembly: a number, or a reference to a function.
pub trait WasmTy: Copy {
    /// The type that it stands for.
    ghost ty: { Static };

    /// Which values there is a way back from.
    ghost kind: { Kind };

    /// What each value of the type keeps: of an unsigned number, that it is in range.
    ghost is_value: { Self → Type 0 };

    /// A value of it as one of WebAssembly.
    ghost to_val: { Self → Value };

    /// What a value of WebAssembly stands for, where it is of the kind.
    ghost of_val: { Value → Option Self };

    /// The type that it stands for.
    fn valtype() -> ValType
        ensures { result ≡ ty };

    /// Whether it may be the type of a parameter, or of a result, of a function that has `actual` there; `TypeMismatch`
    /// where it may not. The engine is not looked at: a type tells its own.
    ///
    /// As a result it may where `actual` matches `valtype()`. As a parameter it may where `valtype()` matches `actual`,
    /// and also where both are references to functions and `actual` is to those of one type: whether a value fits, null
    /// among them, is then tested at each call.
    fn typecheck(
        _engine: EngineId,
        actual: &ValType,
        position: TypeCheckPosition,
    ) -> Result<(), Refusal>
        ensures { result ≡ checked ty actual.now position }
    {
        if fits(&Self::valtype(), actual, position) {
            Ok(())
        } else {
            Err(Refusal::TypeMismatch)
        }
    }

    /// The value, as one of WebAssembly. An unsigned number keeps its bits.
    fn into_val(self) -> Val
        ensures value { result ≡ to_val self }
        ensures known { is_value self };

    /// What the value stands for. `None` exactly where it is not of the kind.
    fn from_val(val: Val) -> Option<Self>
        ensures { result ≡ of_val val };

    /// There and back again.
    ghost there_and_back: { (x : Self) → is_value x → of_val (to_val x) ≡ Some x };

    /// There is no way back exactly from what is not of the kind.
    ghost of_the_kind: { (v : Value) → is_some (of_val v) ≡ is_of_kind kind v };

    /// A value of it fits the type, in each store.
    ghost fits_its_type: { (m : Machine) (x : Self) → val_fits m (to_val x) ty ≡ true };

    /// Each value that fits the type has a way back.
    ghost each_that_fits: { (m : Machine) (v : Value) → val_fits m v ty ≡ true → is_some (of_val v) ≡ true };

    /// No function type is in it.
    ghost plain: { is_plain ty ≡ true };
}
