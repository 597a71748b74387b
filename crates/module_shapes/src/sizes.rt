ghost use Rattle.std.specs.Prelude.{◌≡◌, ◌^◌, ◌&&◌, not, length, sum_by, nat_lt};
ghost use Rattle.std.specs.List.{list_all};
ghost use Rattle.wasm_syntax.specs.Shapes.{is_empty};
ghost use Rattle.wasm_syntax.specs.declared.declarations.Block.{Block};

use wasm_syntax::{Block, TargetList};

// A function has at most so many instructions, and its target lists so many labels.
const MOST: usize = 1 << 20;

// Whether the blocks hold at most 2^20 instructions.
pub(crate) fn are_few_instructions(blocks: &[Block]) -> bool
    ensures { result ≡ not (nat_lt (2 ^ 20) (sum_by (λ (b : Block). length b.instrs) blocks.now)) }
{
    let mut count = 0;
    let mut rest = blocks;
    while let [block, tail @ ..] = rest {
        let more = block.instrs.len();
        if more > MOST - count {
            return false;
        }
        count += more;
        rest = tail;
    }
    true
}

// Whether the lists hold at most 2^20 labels.
pub(crate) fn are_few_labels(targets: &[TargetList]) -> bool
    ensures { result ≡ not (nat_lt (2 ^ 20) (sum_by length targets.now)) }
{
    let mut count = 0;
    let mut rest = targets;
    while let [labels, tail @ ..] = rest {
        let more = labels.as_slice().len();
        if more > MOST - count {
            return false;
        }
        count += more;
        rest = tail;
    }
    true
}

// Whether each list has a label.
pub(crate) fn have_default(targets: &[TargetList]) -> bool
    ensures { result ≡ list_all (λ labels. not (is_empty labels)) targets.now }
{
    targets.iter().all(|labels| !labels.as_slice().is_empty())
}
