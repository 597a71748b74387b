ghost use Rattle.std.specs.Prelude.{◌≡◌, ℕ, List, length, flat_map, replicate, drop, count_by, nat_eq, IfOk};
ghost use Rattle.std.specs.List.{list_all};
ghost use Rattle.wasm_syntax.specs.Instructions.{blocks_named};
ghost use Rattle.wasm_syntax.specs.Shapes.{names, all_from};
ghost use Rattle.module_shapes.specs.Counts.{with_one, counted};

use std::alloc::Global;
use wasm_syntax::{Block, Instr};
use wasm_types::OutOfMemory;

// Counts that a block is named. Counts stop at 255.
fn count(counts: &mut [u8], block: u32)
    ensures { counts.new ≡ with_one counts.old block }
{
    let place = block as usize;
    if place < counts.len() {
        counts[place] = counts[place].saturating_add(1);
    }
}

// Counts the blocks that an instruction names.
fn count_instr(counts: &mut [u8], instr: Instr)
    ensures { counts.new ≡ counted counts.old (blocks_named instr) }
{
    match instr {
        Instr::Block(block) => count(counts, block),
        Instr::Loop(block) => count(counts, block),
        Instr::If(block, other) => {
            count(counts, block);
            count(counts, other);
        }
        _ => {}
    }
}

// Counts the blocks that code names.
fn count_code(counts: &mut [u8], code: &[Instr])
    ensures { counts.new ≡ counted counts.old (flat_map blocks_named code.now) }
{
    let mut rest = code;
    while let [instr, tail @ ..] = rest {
        count_instr(counts, *instr);
        rest = tail;
    }
}

// Counts the blocks that blocks name.
fn count_all(counts: &mut [u8], blocks: &[Block])
    ensures { counts.new ≡ counted counts.old (flat_map names blocks.now) }
{
    let mut rest = blocks;
    while let [block, tail @ ..] = rest {
        count_code(counts, block.instrs.as_slice());
        rest = tail;
    }
}

// For each block how often blocks name it.
fn counts_of(alloc: Global, blocks: &[Block]) -> Result<Vec<u8>, OutOfMemory>
    ensures { IfOk result (λ counts.
        counts.items ≡ counted (replicate (length blocks.now) 0) (flat_map names blocks.now)) }
{
    let mut counts = vec![in alloc; 0u8; blocks.len()]?;
    count_all(&mut counts, blocks);
    Ok(counts)
}

// Whether each count but the first is 1.
fn others_are_one(counts: &[u8]) -> bool
    ensures { result ≡ list_all (λ count. nat_eq count 1) (drop 1 counts.now) }
{
    counts.iter().skip(1).all(|count| *count == 1)
}

// Whether each block but the first is named exactly once.
pub(crate) fn are_named_once(alloc: Global, blocks: &[Block]) -> Result<bool, OutOfMemory>
    ensures { IfOk result (λ once. once
        ≡ all_from (λ own b. nat_eq (count_by (nat_eq own) (flat_map names blocks.now)) 1) 1
        (drop 1 blocks.now)) }
{
    let counts = counts_of(alloc, blocks)?;
    Ok(others_are_one(&counts))
}
