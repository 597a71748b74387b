ghost use Rattle.std.specs.Prelude.{◌≡◌, option_and_then, option_copied, slice_get};
ghost use Rattle.spec_execution.specs.Bodies.{target};
ghost use Rattle.code_stack.specs.Layers.{frame_of};
ghost use Rattle.code_stack.specs.Steps.{IsOpening};

use crate::layers::{Activation, Opening};

/// The item at a place, lent.
#[inline]
pub fn item<T>(items: &[T], place: usize) -> Option<&T>
    ensures { option_copied result ≡ slice_get items.now place }
{
    items.get(place)
}

// The label of a target list at a place, or the last one where the list has no such place.
#[inline]
fn label_at(labels: &[u32], place: usize) -> Option<u32>
    ensures { result ≡ target labels.now place }
{
    match labels.get(place) {
        Some(label) => Some(*label),
        None => labels.last().copied(),
    }
}

impl<'p> Activation<'p> {
    /// A block of the function.
    #[inline]
    pub fn opening(&self, index: u32) -> Option<Opening<'p>>
        ensures { IsOpening (frame_of self.now) index result }
    {
        let block = item(self.function.blocks.as_slice(), index as usize)?;
        let ty = item(self.module.decl().types.as_slice(), block.ty as usize)?;
        Some(Opening {
            code: block.instrs.as_slice(),
            params: ty.params().len(),
            results: ty.results().len(),
        })
    }

    /// The label that a branch table of the function gives for an operand.
    #[inline]
    pub fn table_label(&self, table: u32, place: u32) -> Option<u32>
        ensures { result ≡ option_and_then (λ labels. target labels place)
            (slice_get self.now.function.now.targets table) }
    {
        let labels = item(self.function.targets.as_slice(), table as usize)?;
        label_at(labels.as_slice(), place as usize)
    }
}
