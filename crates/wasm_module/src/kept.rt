ghost use Rattle.std.specs.Prelude.{◌≡◌, ◌-◌, ◌*◌, IfOk};
ghost use Rattle.wasm_module.specs.Images.{
  leading_elements,
  leading_datas,
  table_images,
  memory_images,
  none_written,
};
ghost use Rattle.wasm_module.specs.Kept.{items_held, bytes_held, kept_tables, kept_memories, kept_of};

use crate::fronts::Fronts;
use crate::images::{MemoryImages, TableImages};
use crate::leading::{lead_datas, lead_elements};
use module_typing::Spaces;
use std::alloc::Global;
use std::marker::Model;
use wasm_syntax::ModuleDecl;
use wasm_types::{Cell, OutOfMemory};

// How many segments of a module lead, and what they leave in its tables and in its memories, each where it is dense. Contracts
// see all of it.
#[derive(Drop)]
pub(crate) struct Kept {
    elements: usize,
    tables: Option<TableImages>,
    datas: usize,
    memories: Option<MemoryImages>,
}

impl Model for Kept {
    ghost use Rattle.wasm_module.specs.Kept.{KeptParts, kept_parts};

    ghost Value = { KeptParts };

    ghost view = { λ k. kept_parts k.elements k.tables k.datas k.memories };
}

// How many element segments lead, and what they leave.
fn lead_tables(alloc: Global, spaces: &Spaces<'_>) -> Result<(usize, Fronts<Cell>), OutOfMemory>
    ensures count { IfOk result (λ led. led.0 ≡ leading_elements spaces.now.decl.now) }
    ensures images { IfOk result (λ led. led.1 ≡ table_images spaces.now.decl.now) }
{
    let mut images = Fronts::new(alloc, spaces.decl.tables.len())?;
    let count = lead_elements(
        alloc,
        spaces.decl,
        spaces.imported_table_count(),
        &mut images,
    )?;
    Ok((count, images))
}

// How many data segments lead, and what they leave: none where an element segment does not lead, which may trap.
fn lead_behind(
    spaces: &Spaces<'_>,
    elements: usize,
    images: &mut Fronts<u8>,
) -> Result<usize, OutOfMemory>
    requires leading { elements ≡ leading_elements spaces.now.decl.now }
    requires none { images.old ≡ none_written spaces.now.decl.now }
    ensures count { IfOk result (λ count. count ≡ leading_datas spaces.now.decl.now) }
    ensures images { IfOk result (λ count. images.new ≡ memory_images spaces.now.decl.now) }
{
    if elements != spaces.decl.elements.len() {
        return Ok(0);
    }
    let count = lead_datas(spaces.decl, spaces.imported_memory_count(), images)?;
    Ok(count)
}

// The same of all data segments, behind so many element segments that lead.
fn lead_memories(
    alloc: Global,
    spaces: &Spaces<'_>,
    elements: usize,
) -> Result<(usize, Fronts<u8>), OutOfMemory>
    requires leading { elements ≡ leading_elements spaces.now.decl.now }
    ensures count { IfOk result (λ led. led.0 ≡ leading_datas spaces.now.decl.now) }
    ensures images { IfOk result (λ led. led.1 ≡ memory_images spaces.now.decl.now) }
{
    let mut images = Fronts::new(alloc, spaces.decl.memories.len())?;
    let count = lead_behind(spaces, elements, &mut images)?;
    Ok((count, images))
}

// What is left of a number where each item of the element segments takes 8 away.
fn behind_items(decl: &ModuleDecl, number: usize) -> usize
    ensures { result ≡ number - 8 * items_held decl.now }
{
    let mut left = number;
    let mut rest = decl.elements.as_slice();
    'segments: while let [segment, tail @ ..] = rest {
        left = left.saturating_sub(segment.items.len().saturating_mul(8));
        rest = tail;
    }
    left
}

// What is left of a number where each byte of the data segments takes 8 away.
fn behind_bytes(decl: &ModuleDecl, number: usize) -> usize
    ensures { result ≡ number - 8 * bytes_held decl.now }
{
    let mut left = number;
    let mut rest = decl.datas.as_slice();
    'segments: while let [segment, tail @ ..] = rest {
        left = left.saturating_sub(segment.bytes.len().saturating_mul(8));
        rest = tail;
    }
    left
}

// What is kept of the images of tables.
fn keep_tables(
    alloc: Global,
    decl: &ModuleDecl,
    images: Fronts<Cell>,
) -> Result<Option<TableImages>, OutOfMemory>
    requires { images ≡ table_images decl.now }
    ensures { IfOk result (λ kept. kept ≡ kept_tables decl.now) }
{
    if behind_items(decl, images.total()) != 0 {
        return Ok(None);
    }
    let kept = TableImages::new(alloc, images)?;
    Ok(Some(kept))
}

// What is kept of the images of memories.
fn keep_memories(
    alloc: Global,
    decl: &ModuleDecl,
    images: Fronts<u8>,
) -> Result<Option<MemoryImages>, OutOfMemory>
    requires { images ≡ memory_images decl.now }
    ensures { IfOk result (λ kept. kept ≡ kept_memories decl.now) }
{
    if behind_bytes(decl, images.total()) != 0 {
        return Ok(None);
    }
    let kept = MemoryImages::new(alloc, images)?;
    Ok(Some(kept))
}

impl Kept {
    // What a module keeps of its images.
    pub(crate) fn new(alloc: Global, spaces: &Spaces<'_>) -> Result<Kept, OutOfMemory>
        ensures { IfOk result (λ made. made ≡ kept_of spaces.now.decl.now) }
    {
        let (elements, tables) = lead_tables(alloc, spaces)?;
        let tables = keep_tables(alloc, spaces.decl, tables)?;
        let (datas, memories) = lead_memories(alloc, spaces, elements)?;
        let memories = keep_memories(alloc, spaces.decl, memories)?;
        Ok(Kept {
            elements,
            tables,
            datas,
            memories,
        })
    }

    pub(crate) fn elements(&self) -> usize
        ensures { result ≡ self.now.elements }
    {
        self.elements
    }

    pub(crate) fn datas(&self) -> usize
        ensures { result ≡ self.now.datas }
    {
        self.datas
    }

    // The images of the tables of a declaration, shared where they are kept, and else made anew.
    pub(crate) fn tables(
        &self,
        alloc: Global,
        decl: &ModuleDecl,
    ) -> Result<TableImages, OutOfMemory>
        requires { self.now ≡ kept_of decl.now }
        ensures { IfOk result (λ images. images ≡ table_images decl.now) }
    {
        if let Some(kept) = &self.tables {
            let shared = kept.clone()?;
            return Ok(shared);
        }
        let spaces = Spaces::new(alloc, decl)?;
        let (_count, images) = lead_tables(alloc, &spaces)?;
        let made = TableImages::new(alloc, images)?;
        Ok(made)
    }

    // The same of its memories.
    pub(crate) fn memories(
        &self,
        alloc: Global,
        decl: &ModuleDecl,
    ) -> Result<MemoryImages, OutOfMemory>
        requires { self.now ≡ kept_of decl.now }
        ensures { IfOk result (λ images. images ≡ memory_images decl.now) }
    {
        if let Some(kept) = &self.memories {
            let shared = kept.clone()?;
            return Ok(shared);
        }
        let spaces = Spaces::new(alloc, decl)?;
        let (_count, images) = lead_memories(alloc, &spaces, self.elements)?;
        let made = MemoryImages::new(alloc, images)?;
        Ok(made)
    }
}
