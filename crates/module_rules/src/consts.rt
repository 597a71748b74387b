ghost use Rattle.std.specs.Prelude.{◌≡◌, None};
ghost use Rattle.std.specs.List.{list_all};
ghost use Rattle.wasm_syntax.specs.Constants.{const_fits, offset_fits, elem_offset_fits, data_offset_fits};
ghost use Rattle.wasm_syntax.specs.Contexts.{functions, globals};
ghost use Rattle.wasm_syntax.specs.FirstBroken.{broken};
ghost use Rattle.wasm_syntax.specs.declared.module_fault.Rule.TheVariants as rule;

use crate::expressions::{ref_fits, val_fits};
use crate::walk::{Test, first_in, first_there};
use module_typing::Spaces;
use wasm_syntax::{
    ConstExpr, DataDecl, DataMode, ElemDecl, ElemMode, GlobalDecl, Part, Place, TableDecl,
};
use wasm_types::{RefType, ValType};

// A constant expression does not fit.
#[derive(Drop)]
struct Unfit<'a> {
    spaces: &'a Spaces<'a>,
}

#[tactic(auto, using(crate::proofs::GlobalLemmas::all_known))]
fn offset_fits(spaces: &Spaces, offset: &ConstExpr) -> bool
    ensures { result ≡ offset_fits spaces.now.decl.now offset.now }
{
    let known = spaces.decl.globals.len();
    val_fits(spaces, known, &ValType::I32, offset)
}

fn elem_offset_fits(spaces: &Spaces, mode: &ElemMode) -> bool
    ensures { result ≡ elem_offset_fits spaces.now.decl.now mode.now }
{
    match mode {
        ElemMode::Active { offset, .. } => offset_fits(spaces, offset),
        _ => true,
    }
}

#[tactic(auto, using(crate::proofs::GlobalLemmas::all_known))]
fn item_fits(spaces: &Spaces, ty: &RefType, item: &ConstExpr) -> bool
    ensures { let d = spaces.now.decl.now in
        result ≡ const_fits (functions d) (globals d) (ValType.Ref ty.now) item.now }
{
    let known = spaces.decl.globals.len();
    ref_fits(spaces, known, ty, item)
}

fn items_fit(spaces: &Spaces, ty: &RefType, items: &[ConstExpr]) -> bool
    ensures { let d = spaces.now.decl.now in
        result ≡ list_all (const_fits (functions d) (globals d) (ValType.Ref ty.now)) items.now }
{
    items.iter().all(|item| item_fits(spaces, ty, item))
}

fn data_offset_fits(spaces: &Spaces, mode: &DataMode) -> bool
    ensures { result ≡ data_offset_fits spaces.now.decl.now mode.now }
{
    match mode {
        DataMode::Active { offset, .. } => offset_fits(spaces, offset),
        DataMode::Passive => true,
    }
}

// No defined global is before a table.
impl Test<TableDecl> for Unfit<'_> {
    ghost use Rattle.std.specs.Prelude.{not};
    ghost use Rattle.wasm_syntax.specs.Constants.{table_fits};

    ghost breaks = { λ t n table. not (table_fits t.spaces.now.decl.now table) };

    #[tactic(auto, using(crate::proofs::GlobalLemmas::none_known))]
    fn breaks(&self, _number: u32, item: &TableDecl) -> bool {
        !ref_fits(self.spaces, 0, item.ty.element(), &item.init)
    }
}

impl Test<GlobalDecl> for Unfit<'_> {
    ghost use Rattle.std.specs.Prelude.{not};
    ghost use Rattle.wasm_syntax.specs.Constants.{global_fits};

    ghost breaks = { λ t n global. not (global_fits t.spaces.now.decl.now n global) };

    fn breaks(&self, number: u32, item: &GlobalDecl) -> bool {
        !val_fits(self.spaces, number as usize, item.ty.content(), &item.init)
    }
}

impl Test<ElemDecl> for Unfit<'_> {
    ghost use Rattle.std.specs.Prelude.{not};
    ghost use Rattle.wasm_syntax.specs.Constants.{element_fits};

    ghost breaks = { λ t n segment. not (element_fits t.spaces.now.decl.now segment) };

    fn breaks(&self, _number: u32, item: &ElemDecl) -> bool {
        !(elem_offset_fits(self.spaces, &item.mode)
            && items_fit(self.spaces, &item.ty, item.items.as_slice()))
    }
}

impl Test<DataDecl> for Unfit<'_> {
    ghost use Rattle.std.specs.Prelude.{not};
    ghost use Rattle.wasm_syntax.specs.Constants.{data_fits};

    ghost breaks = { λ t n segment. not (data_fits t.spaces.now.decl.now segment) };

    fn breaks(&self, _number: u32, item: &DataDecl) -> bool {
        !data_offset_fits(self.spaces, &item.mode)
    }
}

/// The first place of a constant expression that does not fit: the start value of a table's elements or of a global, an
/// item of an element segment, or the offset of an active segment.
///
/// It fits where the function or the constant global that it names is there, and its type matches the wanted one. A
/// table may name the imported globals, a global also those that are defined before it, a segment every global.
///
/// The caller has seen that `size` gives none, so that the number of each item has 32 bits.
#[tactic(auto, using(crate::proofs::SizeLemmas::few))]
pub fn constants(spaces: &Spaces) -> Option<Place>
    requires { broken rule.Size spaces.now.decl.now ≡ None }
    ensures { result ≡ broken rule.Const spaces.now.decl.now }
{
    let decl = spaces.decl;
    let test = Unfit { spaces };
    first_there(&[
        first_in(Part::Tables, decl.tables.as_slice(), &test),
        first_in(Part::Globals, decl.globals.as_slice(), &test),
        first_in(Part::Elements, decl.elements.as_slice(), &test),
        first_in(Part::Datas, decl.datas.as_slice(), &test),
    ])
}
