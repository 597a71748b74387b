ghost use Rattle.std.specs.Prelude.{◌≡◌, IfOk};
ghost use Rattle.wasm_syntax.specs.Shapes.{has_shape, begins_with_type};

use crate::counts::are_named_once;
use crate::heights::are_nested_within;
use crate::sizes::{are_few_instructions, are_few_labels, have_default};
use std::alloc::Global;
use wasm_syntax::{Block, FuncDecl};
use wasm_types::OutOfMemory;

// Blocks may be nested this deep, the body being at depth 1.
const MOST_NESTED: u16 = 256;

// Whether the first block is there, and of this type.
fn begins_with_type(ty: u32, blocks: &[Block]) -> bool
    ensures { result ≡ begins_with_type ty blocks.now }
{
    match blocks.first() {
        None => false,
        Some(body) => body.ty == ty,
    }
}

/// Whether the blocks of a function are a tree below block 0, within the limits: block 0 is there and of the function's
/// type, each block that a block names is there and has a greater number, each block but block 0 is named exactly once,
/// the blocks hold at most 2^20 instructions, each target list has a label, the target lists hold at most 2^20 labels,
/// and no block is nested more than 256 deep, block 0 being at depth 1. This project's own rule.
///
/// The time is linear in the blocks, the instructions and the target lists. `OutOfMemory` where the allocator had no
/// memory left for a few bytes a block, and for no other cause.
pub fn has_shape(alloc: Global, function: &FuncDecl) -> Result<bool, OutOfMemory>
    ensures { IfOk result (λ shaped. shaped ≡ has_shape function.now) }
{
    let blocks = function.blocks.as_slice();
    let targets = function.targets.as_slice();
    if !begins_with_type(function.ty, blocks) || !are_few_instructions(blocks) {
        return Ok(false);
    }
    if !have_default(targets) || !are_few_labels(targets) {
        return Ok(false);
    }
    if !are_named_once(alloc, blocks)? {
        return Ok(false);
    }
    are_nested_within(alloc, MOST_NESTED, blocks)
}
