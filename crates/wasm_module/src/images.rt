ghost use Rattle.std.specs.Prelude.{◌≡◌, ◌<◌, length, map, slice_get, vec_items, Some, IfOk};
ghost use Rattle.std.specs.Rc.{rc_slice_items};

use crate::fronts::Fronts;
use std::alloc::Global;
use std::marker::Model;
use std::rc::{Rc, RcSlice};
use wasm_types::{Cell, OutOfMemory};

/// What the leading segments of a module leave in the tables that it defines, which are numbered from 0 on, without the
/// imported ones. Contracts see the images, in order.
pub struct TableImages {
    images: Rc<Vec<RcSlice<Cell>>>,
}

// Written out, so that the crates above do not prove it again of all that is in it.
impl Drop for TableImages {
    fn drop(self) {
        let TableImages { images: _images } = self;
    }
}

impl Model for TableImages {
    ghost use Rattle.std.specs.Prelude.{List, map};
    ghost use Rattle.std.specs.Rc.{rc_slice_items};
    ghost use Rattle.wasm_types.specs.declared.plain.Cell.{Cell as CellParts};

    ghost Value = { List (List CellParts) };

    ghost view = { λ i. map rc_slice_items i.images.value.items };
}

/// What the leading segments of a module leave in the memories that it defines, which are numbered from 0 on, without the
/// imported ones. Contracts see the images, in order.
pub struct MemoryImages {
    images: Rc<Vec<Vec<u8>>>,
}

// Written out, as that of tables.
impl Drop for MemoryImages {
    fn drop(self) {
        let MemoryImages { images: _images } = self;
    }
}

impl Model for MemoryImages {
    ghost use Rattle.std.specs.Prelude.{ℕ, List, map, vec_items};

    ghost Value = { List (List ℕ) };

    ghost view = { λ i. map vec_items i.images.value.items };
}

// The images of tables, to be shared with the tables that are made of them.
fn shared(alloc: Global, images: Vec<Vec<Cell>>) -> Result<Vec<RcSlice<Cell>>, OutOfMemory>
    ensures { IfOk result (λ made. map rc_slice_items made.items ≡ map vec_items images.items) }
{
    let mut shared = Vec::with_capacity(alloc, images.len())?;
    for image in images {
        let image = RcSlice::from_vec(image)?;
        shared.push(image)?;
    }
    Ok(shared)
}

impl TableImages {
    pub(crate) fn new(alloc: Global, fronts: Fronts<Cell>) -> Result<TableImages, OutOfMemory>
        ensures { IfOk result (λ made. made ≡ fronts) }
    {
        let images = shared(alloc, fronts.into_vec())?;
        let images = Rc::new(alloc, images)?;
        Ok(TableImages { images })
    }

    /// The image of the table of this number, shared. `OutOfMemory` where the count of sharers is full.
    pub fn image(&self, table: u32) -> Result<RcSlice<Cell>, OutOfMemory>
        requires { table < length self.now }
        ensures { IfOk result (λ image. slice_get self.now table ≡ Some (rc_slice_items image)) }
    {
        let image = self.images[table as usize].clone()?;
        Ok(image)
    }

    // The same images, shared.
    pub(crate) fn clone(&self) -> Result<TableImages, OutOfMemory>
        ensures { IfOk result (λ shared. shared ≡ self.now) }
    {
        let images = self.images.clone()?;
        Ok(TableImages { images })
    }
}

impl MemoryImages {
    pub(crate) fn new(alloc: Global, fronts: Fronts<u8>) -> Result<MemoryImages, OutOfMemory>
        ensures { IfOk result (λ made. made ≡ fronts) }
    {
        let images = Rc::new(alloc, fronts.into_vec())?;
        Ok(MemoryImages { images })
    }

    /// The image of the memory of this number, lent.
    pub fn image(&self, memory: u32) -> &[u8]
        requires { memory < length self.now }
        ensures { slice_get self.now memory ≡ Some result.now }
    {
        self.images[memory as usize].as_slice()
    }

    // The same images, shared.
    pub(crate) fn clone(&self) -> Result<MemoryImages, OutOfMemory>
        ensures { IfOk result (λ shared. shared ≡ self.now) }
    {
        let images = self.images.clone()?;
        Ok(MemoryImages { images })
    }
}
