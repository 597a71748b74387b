ghost use Rattle.binary_types.specs.Reading.{Reads};
ghost use Rattle.binary_code.specs.Code as forms;

use binary_types::{BinaryFault, BinaryReader, listed, whole_32};
use std::alloc::Global;
use wasm_leb::Cursor;
use wasm_syntax::TargetList;

/// Reads a label.
#[derive(Clone, Copy)]
struct LabelReader;

impl BinaryReader for LabelReader {
    ghost use Rattle.binary_types.specs.Reading.{u32};

    type Item = u32;

    ghost meaning = { λ _. u32 };

    fn read(&self, _alloc: Global, input: &mut Cursor<'_>) -> Result<u32, BinaryFault> {
        whole_32(input)
    }
}

/// The labels of a branch table, the last of which stands behind the list of the others.
pub(crate) fn labels(alloc: Global, input: &mut Cursor<'_>) -> Result<TargetList, BinaryFault>
    ensures { Reads (forms.labels input.old) result input.new }
{
    let front = listed(alloc, &LabelReader, input)?;
    let last = whole_32(input)?;
    let mut labels = front.into_vec();
    match labels.push(last) {
        Ok(()) => Ok(TargetList(labels)),
        Err(_) => Err(BinaryFault::OutOfMemory),
    }
}
