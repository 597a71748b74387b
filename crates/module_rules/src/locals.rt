ghost use Rattle.std.specs.Prelude.{◌≡◌, None};
ghost use Rattle.std.specs.List.{list_all};
ghost use Rattle.wasm_syntax.specs.FirstBroken.{broken};
ghost use Rattle.wasm_syntax.specs.Rules.{has_default};
ghost use Rattle.wasm_syntax.specs.declared.module_fault.Rule.TheVariants as rule;

use crate::walk::{Test, first_in};
use wasm_syntax::{FuncDecl, ModuleDecl, Part, Place};
use wasm_types::ValType;

// A local has no default value.
struct WithoutDefault;

fn has_default(ty: &ValType) -> bool
    ensures { result ≡ has_default ty.now }
{
    match ty {
        ValType::Ref(ty) => ty.is_nullable(),
        _ => true,
    }
}

fn have_defaults(types: &[ValType]) -> bool
    ensures { result ≡ list_all has_default types.now }
{
    types.iter().all(|ty| has_default(ty))
}

impl Test<FuncDecl> for WithoutDefault {
    ghost use Rattle.std.specs.Prelude.{not};
    ghost use Rattle.std.specs.List.{list_all};
    ghost use Rattle.wasm_syntax.specs.Rules.{has_default};

    ghost breaks = { λ t n f. not (list_all has_default f.locals) };

    fn breaks(&self, _number: u32, item: &FuncDecl) -> bool {
        !have_defaults(item.locals.as_slice())
    }
}

/// The first function with a local that has no default value: one of a non-null reference type.
///
/// The caller has seen that `size` gives none, so that the number of each item has 32 bits.
#[tactic(auto, using(crate::proofs::SizeLemmas::few))]
pub fn local(decl: &ModuleDecl) -> Option<Place>
    requires { broken rule.Size decl.now ≡ None }
    ensures { result ≡ broken rule.Local decl.now }
{
    first_in(Part::Functions, decl.functions.as_slice(), &WithoutDefault)
}
