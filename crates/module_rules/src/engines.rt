ghost use Rattle.std.specs.Prelude.{◌≡◌, None};
ghost use Rattle.std.specs.List.{list_all};
ghost use Rattle.wasm_types.specs.FunctionParts.{val_is_of};
ghost use Rattle.wasm_syntax.specs.FirstBroken.{broken};
ghost use Rattle.wasm_syntax.specs.Rules.{extern_is_of};
ghost use Rattle.wasm_syntax.specs.declared.module_fault.Rule.TheVariants as rule;

use crate::walk::{Test, first_in, first_there};
use wasm_syntax::{ElemDecl, FuncDecl, GlobalDecl, ImportDecl, ModuleDecl, Part, Place, TableDecl};
use wasm_types::{EngineId, ExternType, FuncType, ValType};

// A type within an item is of another engine than this.
#[derive(Drop)]
struct OtherThan {
    engine: EngineId,
}

fn extern_is_of(engine: EngineId, ty: &ExternType) -> bool
    ensures { result ≡ extern_is_of engine.0 ty.now }
{
    match ty {
        ExternType::Func(ty) => ty.comes_from_same_engine(engine),
        ExternType::Global(ty) => ty.content().comes_from_same_engine(engine),
        ExternType::Table(ty) => ty.element().comes_from_same_engine(engine),
        ExternType::Memory(_) => true,
        ExternType::Tag(ty) => ty.ty().comes_from_same_engine(engine),
    }
}

fn are_of(engine: EngineId, types: &[ValType]) -> bool
    ensures { result ≡ list_all (val_is_of engine.0) types.now }
{
    types.iter().all(|ty| ty.comes_from_same_engine(engine))
}

impl Test<FuncType> for OtherThan {
    ghost use Rattle.std.specs.Prelude.{not};
    ghost use Rattle.wasm_types.specs.Signatures.{is_of};

    ghost breaks = { λ t n ty. not (is_of t.engine.0 ty) };

    fn breaks(&self, _number: u32, item: &FuncType) -> bool {
        !item.comes_from_same_engine(self.engine)
    }
}

impl Test<ImportDecl> for OtherThan {
    ghost use Rattle.std.specs.Prelude.{not};
    ghost use Rattle.wasm_syntax.specs.Rules.{extern_is_of};

    ghost breaks = { λ t n import. not (extern_is_of t.engine.0 import.ty) };

    fn breaks(&self, _number: u32, item: &ImportDecl) -> bool {
        !extern_is_of(self.engine, &item.ty)
    }
}

impl Test<FuncDecl> for OtherThan {
    ghost use Rattle.std.specs.Prelude.{not};
    ghost use Rattle.std.specs.List.{list_all};
    ghost use Rattle.wasm_types.specs.FunctionParts.{val_is_of};

    ghost breaks = { λ t n f. not (list_all (val_is_of t.engine.0) f.locals) };

    fn breaks(&self, _number: u32, item: &FuncDecl) -> bool {
        !are_of(self.engine, item.locals.as_slice())
    }
}

impl Test<TableDecl> for OtherThan {
    ghost use Rattle.std.specs.Prelude.{not};
    ghost use Rattle.wasm_types.specs.FunctionParts.{ref_is_of};

    ghost breaks = { λ t n table. not (ref_is_of t.engine.0 table.ty.element) };

    fn breaks(&self, _number: u32, item: &TableDecl) -> bool {
        !item.ty.element().comes_from_same_engine(self.engine)
    }
}

impl Test<GlobalDecl> for OtherThan {
    ghost use Rattle.std.specs.Prelude.{not};
    ghost use Rattle.wasm_types.specs.FunctionParts.{val_is_of};

    ghost breaks = { λ t n global. not (val_is_of t.engine.0 global.ty.content) };

    fn breaks(&self, _number: u32, item: &GlobalDecl) -> bool {
        !item.ty.content().comes_from_same_engine(self.engine)
    }
}

impl Test<ElemDecl> for OtherThan {
    ghost use Rattle.std.specs.Prelude.{not};
    ghost use Rattle.wasm_types.specs.FunctionParts.{ref_is_of};

    ghost breaks = { λ t n segment. not (ref_is_of t.engine.0 segment.ty) };

    fn breaks(&self, _number: u32, item: &ElemDecl) -> bool {
        !item.ty.comes_from_same_engine(self.engine)
    }
}

/// The first place where a type within an item is of another engine than the module.
///
/// The caller has seen that `size` gives none, so that the number of each item has 32 bits.
#[tactic(auto, using(crate::proofs::SizeLemmas::few))]
pub fn engine(decl: &ModuleDecl) -> Option<Place>
    requires { broken rule.Size decl.now ≡ None }
    ensures { result ≡ broken rule.Engine decl.now }
{
    let test = OtherThan {
        engine: decl.engine,
    };
    first_there(&[
        first_in(Part::Types, decl.types.as_slice(), &test),
        first_in(Part::Imports, decl.imports.as_slice(), &test),
        first_in(Part::Functions, decl.functions.as_slice(), &test),
        first_in(Part::Tables, decl.tables.as_slice(), &test),
        first_in(Part::Globals, decl.globals.as_slice(), &test),
        first_in(Part::Elements, decl.elements.as_slice(), &test),
    ])
}
