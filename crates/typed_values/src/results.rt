ghost use Rattle.std.specs.Prelude.{◌≡◌, List, Option, Some, is_some, Ok, true};
ghost use Rattle.spec_machine.specs.Machine.{Machine};
ghost use Rattle.spec_machine.specs.Values.{all_fit};
ghost use Rattle.typed_values.specs.declared.checks.TypeCheckPosition.TheVariants as at;
ghost use Rattle.typed_values.specs.StaticTypes.{Kind, all_checked, are_of_kinds};
ghost use Rattle.wasm_types.specs.declared.value_types.ValType.{ValType as Static};
ghost use Rattle.wasm_values.specs.declared.values.Val.{Val as Value};

use crate::params::WasmParams;
use crate::static_type::WasmTy;
use wasm_values::Val;

/// What a host takes from a function: a list of static types with a way back.
pub trait WasmResults: WasmParams {
    /// The kinds of its members.
    ghost kinds: { List Kind };

    /// The list of these values, where each is of its kind.
    ghost of_vals: { List Value → Option Self };

    /// The list of these values. `None` exactly where the number or a kind misfits.
    fn from_vals(vals: &[Val]) -> Option<Self>
        ensures { result ≡ of_vals vals.now };

    /// There and back again.
    ghost there_and_back: { (x : Self) → Self.are_values x → of_vals (Self.to_vals x) ≡ Some x };

    /// There is no way back exactly where the number or a kind misfits.
    ghost of_the_kinds: { (vs : List Value) → is_some (of_vals vs) ≡ are_of_kinds kinds vs };

    /// Values that fit types that are accepted for results have a way back.
    ghost each_accepted: { (m : Machine) (vs : List Value) (ts : List Static) → all_fit m vs ts ≡ true
        → all_checked Self.tys ts at.Result ≡ Ok tt → is_some (of_vals vs) ≡ true };
}

impl WasmResults for () {
    ghost use Rattle.std.specs.Prelude.{[], refl};
    ghost use Rattle.typed_values.specs.Lists.{from_none};
    ghost use Rattle.typed_values.specs.ListLaws.{none_of_kinds, none_accepted};

    ghost kinds = { [] };

    ghost of_vals = { from_none };

    ghost there_and_back = { λ x _. refl };

    ghost of_the_kinds = { none_of_kinds };

    ghost each_accepted = { none_accepted };

    fn from_vals(vals: &[Val]) -> Option<Self> {
        match vals {
            [] => Some(()),
            _ => None,
        }
    }
}

impl<A: WasmTy> WasmResults for (A,) {
    ghost use Rattle.std.specs.Prelude.{[], ◌∷◌};
    ghost use Rattle.typed_values.specs.Tuples.{ways1};
    ghost use Rattle.typed_values.specs.TupleLaws.{of_kinds1, accepted1, back1};

    ghost kinds = { A.kind ∷ [] };

    ghost of_vals = { ways1 A.of_val };

    ghost there_and_back = { λ x h. back1 (A.there_and_back x.0 h) };

    ghost of_the_kinds = { of_kinds1 A.of_val A.kind A.of_the_kind };

    ghost each_accepted = { accepted1 A.of_val A.ty A.plain A.each_that_fits };

    fn from_vals(vals: &[Val]) -> Option<Self> {
        match vals {
            [a] => Some((A::from_val(*a)?,)),
            _ => None,
        }
    }
}

impl<A: WasmTy, B: WasmTy> WasmResults for (A, B) {
    ghost use Rattle.std.specs.Prelude.{[], ◌∷◌};
    ghost use Rattle.typed_values.specs.Tuples.{ways2};
    ghost use Rattle.typed_values.specs.TupleLaws.{of_kinds2, accepted2, back2};

    ghost kinds = { A.kind ∷ B.kind ∷ [] };

    ghost of_vals = { ways2 A.of_val B.of_val };

    ghost there_and_back = { λ x h. back2 (A.there_and_back x.0 h.0) (B.there_and_back x.1 h.1) };

    ghost of_the_kinds = { of_kinds2 A.of_val B.of_val A.kind B.kind A.of_the_kind B.of_the_kind };

    ghost each_accepted = { accepted2 A.of_val B.of_val A.ty B.ty A.plain B.plain A.each_that_fits B.each_that_fits };

    fn from_vals(vals: &[Val]) -> Option<Self> {
        match vals {
            [a, b] => Some((A::from_val(*a)?, B::from_val(*b)?)),
            _ => None,
        }
    }
}

impl<A: WasmTy, B: WasmTy, C: WasmTy> WasmResults for (A, B, C) {
    ghost use Rattle.std.specs.Prelude.{[], ◌∷◌};
    ghost use Rattle.typed_values.specs.Tuples.{ways3};
    ghost use Rattle.typed_values.specs.TupleLaws.{of_kinds3, accepted3, back3};

    ghost kinds = { A.kind ∷ B.kind ∷ C.kind ∷ [] };

    ghost of_vals = { ways3 A.of_val B.of_val C.of_val };

    ghost there_and_back = { λ x h. back3 (A.there_and_back x.0 h.0) (B.there_and_back x.1 h.1) (C.there_and_back x.2 h.2) };

    ghost of_the_kinds = { of_kinds3 A.of_val B.of_val C.of_val A.kind B.kind C.kind A.of_the_kind B.of_the_kind C.of_the_kind };

    ghost each_accepted = { accepted3 A.of_val B.of_val C.of_val A.ty B.ty C.ty A.plain B.plain C.plain A.each_that_fits B.each_that_fits C.each_that_fits };

    fn from_vals(vals: &[Val]) -> Option<Self> {
        match vals {
            [a, b, c] => Some((A::from_val(*a)?, B::from_val(*b)?, C::from_val(*c)?)),
            _ => None,
        }
    }
}

impl<A: WasmTy, B: WasmTy, C: WasmTy, D: WasmTy> WasmResults for (A, B, C, D) {
    ghost use Rattle.std.specs.Prelude.{[], ◌∷◌};
    ghost use Rattle.typed_values.specs.Tuples.{ways4};
    ghost use Rattle.typed_values.specs.TupleLaws.{of_kinds4, accepted4, back4};

    ghost kinds = { A.kind ∷ B.kind ∷ C.kind ∷ D.kind ∷ [] };

    ghost of_vals = { ways4 A.of_val B.of_val C.of_val D.of_val };

    ghost there_and_back = { λ x h. back4 (A.there_and_back x.0 h.0) (B.there_and_back x.1 h.1) (C.there_and_back x.2 h.2) (D.there_and_back x.3 h.3) };

    ghost of_the_kinds = { of_kinds4 A.of_val B.of_val C.of_val D.of_val A.kind B.kind C.kind D.kind A.of_the_kind B.of_the_kind C.of_the_kind D.of_the_kind };

    ghost each_accepted = { accepted4 A.of_val B.of_val C.of_val D.of_val A.ty B.ty C.ty D.ty A.plain B.plain C.plain D.plain A.each_that_fits B.each_that_fits C.each_that_fits D.each_that_fits };

    fn from_vals(vals: &[Val]) -> Option<Self> {
        match vals {
            [a, b, c, d] => Some((
                A::from_val(*a)?,
                B::from_val(*b)?,
                C::from_val(*c)?,
                D::from_val(*d)?,
            )),
            _ => None,
        }
    }
}

impl<A: WasmTy, B: WasmTy, C: WasmTy, D: WasmTy, E: WasmTy> WasmResults for (A, B, C, D, E) {
    ghost use Rattle.std.specs.Prelude.{[], ◌∷◌};
    ghost use Rattle.typed_values.specs.Tuples.{ways5};
    ghost use Rattle.typed_values.specs.TupleLaws.{of_kinds5, accepted5, back5};

    ghost kinds = { A.kind ∷ B.kind ∷ C.kind ∷ D.kind ∷ E.kind ∷ [] };

    ghost of_vals = { ways5 A.of_val B.of_val C.of_val D.of_val E.of_val };

    ghost there_and_back = { λ x h. back5 (A.there_and_back x.0 h.0) (B.there_and_back x.1 h.1) (C.there_and_back x.2 h.2) (D.there_and_back x.3 h.3) (E.there_and_back x.4 h.4) };

    ghost of_the_kinds = { of_kinds5 A.of_val B.of_val C.of_val D.of_val E.of_val A.kind B.kind C.kind D.kind E.kind A.of_the_kind B.of_the_kind C.of_the_kind D.of_the_kind E.of_the_kind };

    ghost each_accepted = { accepted5 A.of_val B.of_val C.of_val D.of_val E.of_val A.ty B.ty C.ty D.ty E.ty A.plain B.plain C.plain D.plain E.plain A.each_that_fits B.each_that_fits C.each_that_fits D.each_that_fits E.each_that_fits };

    fn from_vals(vals: &[Val]) -> Option<Self> {
        match vals {
            [a, b, c, d, e] => Some((
                A::from_val(*a)?,
                B::from_val(*b)?,
                C::from_val(*c)?,
                D::from_val(*d)?,
                E::from_val(*e)?,
            )),
            _ => None,
        }
    }
}

impl<A: WasmTy, B: WasmTy, C: WasmTy, D: WasmTy, E: WasmTy, F: WasmTy> WasmResults
    for (A, B, C, D, E, F) {
    ghost use Rattle.std.specs.Prelude.{[], ◌∷◌};
    ghost use Rattle.typed_values.specs.Tuples.{ways6};
    ghost use Rattle.typed_values.specs.TupleLaws.{of_kinds6, accepted6, back6};

    ghost kinds = { A.kind ∷ B.kind ∷ C.kind ∷ D.kind ∷ E.kind ∷ F.kind ∷ [] };

    ghost of_vals = { ways6 A.of_val B.of_val C.of_val D.of_val E.of_val F.of_val };

    ghost there_and_back = { λ x h. back6 (A.there_and_back x.0 h.0) (B.there_and_back x.1 h.1) (C.there_and_back x.2 h.2) (D.there_and_back x.3 h.3) (E.there_and_back x.4 h.4) (F.there_and_back x.5 h.5) };

    ghost of_the_kinds = { of_kinds6 A.of_val B.of_val C.of_val D.of_val E.of_val F.of_val A.kind B.kind C.kind D.kind E.kind F.kind A.of_the_kind B.of_the_kind C.of_the_kind D.of_the_kind E.of_the_kind F.of_the_kind };

    ghost each_accepted = { accepted6 A.of_val B.of_val C.of_val D.of_val E.of_val F.of_val A.ty B.ty C.ty D.ty E.ty F.ty A.plain B.plain C.plain D.plain E.plain F.plain A.each_that_fits B.each_that_fits C.each_that_fits D.each_that_fits E.each_that_fits F.each_that_fits };

    fn from_vals(vals: &[Val]) -> Option<Self> {
        match vals {
            [a, b, c, d, e, f] => Some((
                A::from_val(*a)?,
                B::from_val(*b)?,
                C::from_val(*c)?,
                D::from_val(*d)?,
                E::from_val(*e)?,
                F::from_val(*f)?,
            )),
            _ => None,
        }
    }
}
