ghost use Rattle.std.specs.Prelude.{◌≡◌, nat_le, List, length, Option, is_some, IfOk, true};
ghost use Rattle.typed_values.specs.StaticTypes.{Kind, are_of_kinds, are_plain};
ghost use Rattle.wasm_types.specs.declared.value_types.ValType.{ValType as Static};
ghost use Rattle.wasm_values.specs.declared.values.Val.{Val as Value};

use std::alloc::Global;
use typed_values::{WasmResults, WasmTy};
use wasm_types::{OutOfMemory, ValType};
use wasm_values::Val;

/// What a closure of the host takes: a tuple of up to six static types.
pub trait WasmTyList: Drop {
    /// The types that it stands for.
    ghost tys: { List Static };

    /// The kinds of its members.
    ghost kinds: { List Kind };

    /// The list of these values, where each is of its kind.
    ghost of_vals: { List Value → Option Self };

    /// The types, in order. It takes memory.
    fn valtypes(alloc: Global) -> Result<Vec<ValType>, OutOfMemory>
        ensures { IfOk result (λ types. types.items ≡ tys) };

    /// The list of these values. `None` exactly where the number or a kind misfits.
    fn from_vals(vals: &[Val]) -> Option<Self>
        ensures { result ≡ of_vals vals.now };

    /// There is no way back exactly where the number or a kind misfits.
    ghost of_the_kinds: { (vs : List Value) → is_some (of_vals vs) ≡ are_of_kinds kinds vs };

    /// No function type is in it.
    ghost plain: { are_plain tys ≡ true };

    /// It has at most six members.
    ghost few: { nat_le (length tys) 6 ≡ true };
}

impl WasmTyList for () {
    ghost use Rattle.std.specs.Prelude.{[], refl};
    ghost use Rattle.typed_values.specs.Lists.{from_none};
    ghost use Rattle.typed_values.specs.ListLaws.{none_of_kinds};

    ghost tys = { [] };

    ghost kinds = { [] };

    ghost of_vals = { from_none };

    ghost of_the_kinds = { none_of_kinds };

    ghost plain = { refl };

    ghost few = { refl };

    fn valtypes(alloc: Global) -> Result<Vec<ValType>, OutOfMemory> {
        Ok(Vec::new(alloc))
    }

    fn from_vals(vals: &[Val]) -> Option<Self> {
        <Self as WasmResults>::from_vals(vals)
    }
}

impl<A: WasmTy> WasmTyList for (A,) {
    ghost use Rattle.std.specs.Prelude.{[], ◌∷◌, refl};
    ghost use Rattle.typed_values.specs.Tuples.{ways1};
    ghost use Rattle.typed_values.specs.TupleLaws.{of_kinds1};
    ghost use Rattle.typed_closures.specs.PlainLists.{plain1};

    ghost tys = { A.ty ∷ [] };

    ghost kinds = { A.kind ∷ [] };

    ghost of_vals = { ways1 A.of_val };

    ghost of_the_kinds = { of_kinds1 A.of_val A.kind A.of_the_kind };

    ghost plain = { plain1 A.ty A.plain };

    ghost few = { refl };

    fn valtypes(alloc: Global) -> Result<Vec<ValType>, OutOfMemory> {
        Ok(vec![in alloc; A::valtype()]?)
    }

    fn from_vals(vals: &[Val]) -> Option<Self> {
        <Self as WasmResults>::from_vals(vals)
    }
}

impl<A: WasmTy, B: WasmTy> WasmTyList for (A, B) {
    ghost use Rattle.std.specs.Prelude.{[], ◌∷◌, refl};
    ghost use Rattle.typed_values.specs.Tuples.{ways2};
    ghost use Rattle.typed_values.specs.TupleLaws.{of_kinds2};
    ghost use Rattle.typed_closures.specs.PlainLists.{plain2};

    ghost tys = { A.ty ∷ B.ty ∷ [] };

    ghost kinds = { A.kind ∷ B.kind ∷ [] };

    ghost of_vals = { ways2 A.of_val B.of_val };

    ghost of_the_kinds = { of_kinds2 A.of_val B.of_val A.kind B.kind A.of_the_kind B.of_the_kind };

    ghost plain = { plain2 A.ty B.ty A.plain B.plain };

    ghost few = { refl };

    fn valtypes(alloc: Global) -> Result<Vec<ValType>, OutOfMemory> {
        Ok(vec![in alloc; A::valtype(), B::valtype()]?)
    }

    fn from_vals(vals: &[Val]) -> Option<Self> {
        <Self as WasmResults>::from_vals(vals)
    }
}

impl<A: WasmTy, B: WasmTy, C: WasmTy> WasmTyList for (A, B, C) {
    ghost use Rattle.std.specs.Prelude.{[], ◌∷◌, refl};
    ghost use Rattle.typed_values.specs.Tuples.{ways3};
    ghost use Rattle.typed_values.specs.TupleLaws.{of_kinds3};
    ghost use Rattle.typed_closures.specs.PlainLists.{plain3};

    ghost tys = { A.ty ∷ B.ty ∷ C.ty ∷ [] };

    ghost kinds = { A.kind ∷ B.kind ∷ C.kind ∷ [] };

    ghost of_vals = { ways3 A.of_val B.of_val C.of_val };

    ghost of_the_kinds = { of_kinds3 A.of_val B.of_val C.of_val A.kind B.kind C.kind A.of_the_kind B.of_the_kind C.of_the_kind };

    ghost plain = { plain3 A.ty B.ty C.ty A.plain B.plain C.plain };

    ghost few = { refl };

    fn valtypes(alloc: Global) -> Result<Vec<ValType>, OutOfMemory> {
        Ok(vec![in alloc; A::valtype(), B::valtype(), C::valtype()]?)
    }

    fn from_vals(vals: &[Val]) -> Option<Self> {
        <Self as WasmResults>::from_vals(vals)
    }
}

impl<A: WasmTy, B: WasmTy, C: WasmTy, D: WasmTy> WasmTyList for (A, B, C, D) {
    ghost use Rattle.std.specs.Prelude.{[], ◌∷◌, refl};
    ghost use Rattle.typed_values.specs.Tuples.{ways4};
    ghost use Rattle.typed_values.specs.TupleLaws.{of_kinds4};
    ghost use Rattle.typed_closures.specs.PlainLists.{plain4};

    ghost tys = { A.ty ∷ B.ty ∷ C.ty ∷ D.ty ∷ [] };

    ghost kinds = { A.kind ∷ B.kind ∷ C.kind ∷ D.kind ∷ [] };

    ghost of_vals = { ways4 A.of_val B.of_val C.of_val D.of_val };

    ghost of_the_kinds = { of_kinds4 A.of_val B.of_val C.of_val D.of_val A.kind B.kind C.kind D.kind A.of_the_kind B.of_the_kind C.of_the_kind D.of_the_kind };

    ghost plain = { plain4 A.ty B.ty C.ty D.ty A.plain B.plain C.plain D.plain };

    ghost few = { refl };

    fn valtypes(alloc: Global) -> Result<Vec<ValType>, OutOfMemory> {
        Ok(vec![in alloc; A::valtype(), B::valtype(), C::valtype(), D::valtype()]?)
    }

    fn from_vals(vals: &[Val]) -> Option<Self> {
        <Self as WasmResults>::from_vals(vals)
    }
}

impl<A: WasmTy, B: WasmTy, C: WasmTy, D: WasmTy, E: WasmTy> WasmTyList for (A, B, C, D, E) {
    ghost use Rattle.std.specs.Prelude.{[], ◌∷◌, refl};
    ghost use Rattle.typed_values.specs.Tuples.{ways5};
    ghost use Rattle.typed_values.specs.TupleLaws.{of_kinds5};
    ghost use Rattle.typed_closures.specs.PlainLists.{plain5};

    ghost tys = { A.ty ∷ B.ty ∷ C.ty ∷ D.ty ∷ E.ty ∷ [] };

    ghost kinds = { A.kind ∷ B.kind ∷ C.kind ∷ D.kind ∷ E.kind ∷ [] };

    ghost of_vals = { ways5 A.of_val B.of_val C.of_val D.of_val E.of_val };

    ghost of_the_kinds = { of_kinds5 A.of_val B.of_val C.of_val D.of_val E.of_val A.kind B.kind C.kind D.kind E.kind A.of_the_kind B.of_the_kind C.of_the_kind D.of_the_kind E.of_the_kind };

    ghost plain = { plain5 A.ty B.ty C.ty D.ty E.ty A.plain B.plain C.plain D.plain E.plain };

    ghost few = { refl };

    fn valtypes(alloc: Global) -> Result<Vec<ValType>, OutOfMemory> {
        Ok(vec![in alloc;
            A::valtype(),
            B::valtype(),
            C::valtype(),
            D::valtype(),
            E::valtype(),
        ]?)
    }

    fn from_vals(vals: &[Val]) -> Option<Self> {
        <Self as WasmResults>::from_vals(vals)
    }
}

impl<A: WasmTy, B: WasmTy, C: WasmTy, D: WasmTy, E: WasmTy, F: WasmTy> WasmTyList
    for (A, B, C, D, E, F) {
    ghost use Rattle.std.specs.Prelude.{[], ◌∷◌, refl};
    ghost use Rattle.typed_values.specs.Tuples.{ways6};
    ghost use Rattle.typed_values.specs.TupleLaws.{of_kinds6};
    ghost use Rattle.typed_closures.specs.PlainLists.{plain6};

    ghost tys = { A.ty ∷ B.ty ∷ C.ty ∷ D.ty ∷ E.ty ∷ F.ty ∷ [] };

    ghost kinds = { A.kind ∷ B.kind ∷ C.kind ∷ D.kind ∷ E.kind ∷ F.kind ∷ [] };

    ghost of_vals = { ways6 A.of_val B.of_val C.of_val D.of_val E.of_val F.of_val };

    ghost of_the_kinds = { of_kinds6 A.of_val B.of_val C.of_val D.of_val E.of_val F.of_val A.kind B.kind C.kind D.kind E.kind F.kind A.of_the_kind B.of_the_kind C.of_the_kind D.of_the_kind E.of_the_kind F.of_the_kind };

    ghost plain = { plain6 A.ty B.ty C.ty D.ty E.ty F.ty A.plain B.plain C.plain D.plain E.plain F.plain };

    ghost few = { refl };

    fn valtypes(alloc: Global) -> Result<Vec<ValType>, OutOfMemory> {
        Ok(vec![in alloc;
            A::valtype(),
            B::valtype(),
            C::valtype(),
            D::valtype(),
            E::valtype(),
            F::valtype(),
        ]?)
    }

    fn from_vals(vals: &[Val]) -> Option<Self> {
        <Self as WasmResults>::from_vals(vals)
    }
}
