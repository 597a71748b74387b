ghost use Rattle.std.specs.Prelude.{◌≡◌, slice_get};
ghost use Rattle.wasm_syntax.specs.Contexts.{params_of};
ghost use Rattle.wasm_syntax.specs.FirstBroken.{broken};
ghost use Rattle.wasm_syntax.specs.declared.module_fault.Rule.TheVariants as rule;

use crate::walk::{Test, first_in_long, first_past, first_there};
use wasm_syntax::{DataDecl, ElemDecl, FuncDecl, ModuleDecl, Part, Place};
use wasm_types::{FuncType, ValType};

// A function has at most so many parameters and locals.
const MOST_LOCALS: usize = 10_000;

// An element segment has at most so many items.
const MOST_ELEMENTS: usize = 1_000_000;

// A data segment has at most so many bytes.
const MOST_BYTES: usize = 1 << 24;

// An item holds too many of what it is made of.
#[derive(Drop)]
struct TooMany<'a> {
    decl: &'a ModuleDecl,
}

// The parameters of the type of this number, or none where it is not there.
fn params_of(types: &[FuncType], number: u32) -> &[ValType]
    ensures { result.now ≡ params_of (slice_get types.now number) }
{
    match types.get(number as usize) {
        None => &[],
        Some(ty) => ty.params(),
    }
}

impl Test<FuncDecl> for TooMany<'_> {
    ghost use Rattle.wasm_syntax.specs.Rules.{has_many_locals};

    ghost breaks = { λ t n f. has_many_locals t.decl.now f };

    fn breaks(&self, _number: u32, item: &FuncDecl) -> bool {
        let params = params_of(self.decl.types.as_slice(), item.ty);
        params.len() + item.locals.as_slice().len() > MOST_LOCALS
    }
}

impl Test<ElemDecl> for TooMany<'_> {
    ghost use Rattle.wasm_syntax.specs.Rules.{has_many_items};

    ghost breaks = { λ t n s. has_many_items s };

    fn breaks(&self, _number: u32, item: &ElemDecl) -> bool {
        item.items.len() > MOST_ELEMENTS
    }
}

impl Test<DataDecl> for TooMany<'_> {
    ghost use Rattle.wasm_syntax.specs.Rules.{has_many_bytes};

    ghost breaks = { λ t n s. has_many_bytes s };

    fn breaks(&self, _number: u32, item: &DataDecl) -> bool {
        item.bytes.len() > MOST_BYTES
    }
}

/// The first place where a list of the declaration has more than 1,000,000 items, a function more than 10,000
/// parameters and locals, an element segment more than 1,000,000 items, or a data segment more than 2^24 bytes. Where a
/// list is too long, that is its item 1,000,000.
pub fn size(decl: &ModuleDecl) -> Option<Place>
    ensures { result ≡ broken rule.Size decl.now }
{
    let test = TooMany { decl };
    first_there(&[
        first_past(Part::Types, decl.types.as_slice()),
        first_past(Part::Imports, decl.imports.as_slice()),
        first_in_long(Part::Functions, decl.functions.as_slice(), &test),
        first_past(Part::Tables, decl.tables.as_slice()),
        first_past(Part::Memories, decl.memories.as_slice()),
        first_past(Part::Globals, decl.globals.as_slice()),
        first_past(Part::Tags, decl.tags.as_slice()),
        first_past(Part::Exports, decl.exports.as_slice()),
        first_in_long(Part::Elements, decl.elements.as_slice(), &test),
        first_in_long(Part::Datas, decl.datas.as_slice(), &test),
    ])
}
