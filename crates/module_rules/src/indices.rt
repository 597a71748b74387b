ghost use Rattle.std.specs.Prelude.{◌≡◌, None, option_to_list};
ghost use Rattle.std.specs.List.{list_all};
ghost use Rattle.wasm_syntax.specs.FirstBroken.{broken, first_in};
ghost use Rattle.wasm_syntax.specs.Rules.{is_there, has_types, has_entity, has_table, has_memory, index};
ghost use Rattle.wasm_syntax.specs.declared.module_fault.Part.TheVariants as part;
ghost use Rattle.wasm_syntax.specs.declared.module_fault.Rule.TheVariants as rule;

use crate::walk::{Test, first_in, first_there};
use module_typing::Spaces;
use wasm_syntax::{
    Block, DataDecl, DataMode, ElemDecl, ElemMode, EntityIndex, ExportDecl, FuncDecl, Part, Place,
};
use wasm_types::FuncType;

// An item names what is not there.
#[derive(Drop)]
struct NamesNothing<'a> {
    spaces: &'a Spaces<'a>,
}

fn is_there<T>(items: &[T], index: u32) -> bool
    ensures { result ≡ is_there items.now index }
{
    (index as usize) < items.len()
}

fn are_there(types: &[FuncType], blocks: &[Block]) -> bool
    ensures { result ≡ list_all (λ b. is_there types.now b.ty) blocks.now }
{
    blocks.iter().all(|block| is_there(types, block.ty))
}

fn has_entity(spaces: &Spaces, entity: EntityIndex) -> bool
    ensures { result ≡ has_entity spaces.now.decl.now entity }
{
    match entity {
        EntityIndex::Func(index) => (index as usize) < spaces.function_count(),
        EntityIndex::Global(index) => (index as usize) < spaces.global_count(),
        EntityIndex::Table(index) => (index as usize) < spaces.table_count(),
        EntityIndex::Memory(index) => (index as usize) < spaces.memory_count(),
        EntityIndex::Tag(index) => (index as usize) < spaces.tag_count(),
    }
}

fn has_table(spaces: &Spaces, mode: &ElemMode) -> bool
    ensures { result ≡ has_table spaces.now.decl.now mode.now }
{
    match mode {
        ElemMode::Active { table, .. } => (*table as usize) < spaces.table_count(),
        _ => true,
    }
}

fn has_memory(spaces: &Spaces, mode: &DataMode) -> bool
    ensures { result ≡ has_memory spaces.now.decl.now mode.now }
{
    match mode {
        DataMode::Active { memory, .. } => (*memory as usize) < spaces.memory_count(),
        DataMode::Passive => true,
    }
}

impl Test<FuncDecl> for NamesNothing<'_> {
    ghost use Rattle.std.specs.Prelude.{not};
    ghost use Rattle.wasm_syntax.specs.Rules.{has_types};

    ghost breaks = { λ t n f. not (has_types t.spaces.now.decl.now f) };

    fn breaks(&self, _number: u32, item: &FuncDecl) -> bool {
        let types = self.spaces.decl.types.as_slice();
        !(is_there(types, item.ty) && are_there(types, item.blocks.as_slice()))
    }
}

// A tag is the number of its type.
impl Test<u32> for NamesNothing<'_> {
    ghost use Rattle.std.specs.Prelude.{not};
    ghost use Rattle.wasm_syntax.specs.Rules.{is_there};

    ghost breaks = { λ t n tag. not (is_there t.spaces.now.decl.now.types tag) };

    fn breaks(&self, _number: u32, item: &u32) -> bool {
        !is_there(self.spaces.decl.types.as_slice(), *item)
    }
}

impl Test<ExportDecl> for NamesNothing<'_> {
    ghost use Rattle.std.specs.Prelude.{not};
    ghost use Rattle.wasm_syntax.specs.Rules.{has_entity};

    ghost breaks = { λ t n export. not (has_entity t.spaces.now.decl.now export.entity) };

    fn breaks(&self, _number: u32, item: &ExportDecl) -> bool {
        !has_entity(self.spaces, item.entity)
    }
}

impl Test<ElemDecl> for NamesNothing<'_> {
    ghost use Rattle.std.specs.Prelude.{not};
    ghost use Rattle.wasm_syntax.specs.Rules.{has_table};

    ghost breaks = { λ t n segment. not (has_table t.spaces.now.decl.now segment.mode) };

    fn breaks(&self, _number: u32, item: &ElemDecl) -> bool {
        !has_table(self.spaces, &item.mode)
    }
}

impl Test<DataDecl> for NamesNothing<'_> {
    ghost use Rattle.std.specs.Prelude.{not};
    ghost use Rattle.wasm_syntax.specs.Rules.{has_memory};

    ghost breaks = { λ t n segment. not (has_memory t.spaces.now.decl.now segment.mode) };

    fn breaks(&self, _number: u32, item: &DataDecl) -> bool {
        !has_memory(self.spaces, &item.mode)
    }
}

// The start function, if it is not there.
fn absent_start(spaces: &Spaces) -> Option<Place>
    ensures { let d = spaces.now.decl.now in
        result ≡ first_in part.Start (index d).start (option_to_list d.start) }
{
    let start = spaces.decl.start?;
    if (start as usize) < spaces.function_count() {
        return None;
    }
    Some(Place {
        part: Part::Start,
        item: 0,
    })
}

/// The first place where the type number of a function, a block or a tag, the entity of an export, the table of an
/// active element segment, the memory of an active data segment, or the start function is not there.
///
/// The caller has seen that `size` gives none, so that the number of each item has 32 bits.
#[tactic(auto, using(crate::proofs::SizeLemmas::few))]
pub fn index(spaces: &Spaces) -> Option<Place>
    requires { broken rule.Size spaces.now.decl.now ≡ None }
    ensures { result ≡ broken rule.Index spaces.now.decl.now }
{
    let decl = spaces.decl;
    let test = NamesNothing { spaces };
    first_there(&[
        first_in(Part::Functions, decl.functions.as_slice(), &test),
        first_in(Part::Tags, decl.tags.as_slice(), &test),
        first_in(Part::Exports, decl.exports.as_slice(), &test),
        first_in(Part::Elements, decl.elements.as_slice(), &test),
        first_in(Part::Datas, decl.datas.as_slice(), &test),
        absent_start(spaces),
    ])
}
