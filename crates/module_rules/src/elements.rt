ghost use Rattle.std.specs.Prelude.{◌≡◌, None};
ghost use Rattle.wasm_syntax.specs.FirstBroken.{broken};
ghost use Rattle.wasm_syntax.specs.Rules.{fits_table};
ghost use Rattle.wasm_syntax.specs.declared.module_fault.Rule.TheVariants as rule;

use crate::walk::{Test, first_in};
use module_typing::Spaces;
use wasm_syntax::{ElemDecl, ElemMode, Part, Place};
use wasm_types::RefType;

// The type of a segment does not match that of its table.
#[derive(Drop)]
struct Mismatched<'a> {
    spaces: &'a Spaces<'a>,
}

fn fits_table(spaces: &Spaces, ty: &RefType, mode: &ElemMode) -> bool
    ensures { result ≡ fits_table spaces.now.decl.now ty.now mode.now }
{
    let ElemMode::Active { table, .. } = mode else {
        return true;
    };
    match spaces.table(*table) {
        None => true,
        Some(table) => ty.matches(table.element()),
    }
}

impl Test<ElemDecl> for Mismatched<'_> {
    ghost use Rattle.std.specs.Prelude.{not};
    ghost use Rattle.wasm_syntax.specs.Rules.{fits_table};

    ghost breaks = { λ t n segment. not (fits_table t.spaces.now.decl.now segment.ty segment.mode) };

    fn breaks(&self, _number: u32, item: &ElemDecl) -> bool {
        !fits_table(self.spaces, &item.ty, &item.mode)
    }
}

/// The first active element segment of a type that does not match the element type of its table. One whose table is not
/// there breaks the rule on indices, and not this one.
///
/// The caller has seen that `size` gives none, so that the number of each item has 32 bits.
#[tactic(auto, using(crate::proofs::SizeLemmas::few))]
pub fn element(spaces: &Spaces) -> Option<Place>
    requires { broken rule.Size spaces.now.decl.now ≡ None }
    ensures { result ≡ broken rule.Element spaces.now.decl.now }
{
    let decl = spaces.decl;
    let test = Mismatched { spaces };
    first_in(Part::Elements, decl.elements.as_slice(), &test)
}
