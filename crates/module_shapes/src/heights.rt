ghost use Rattle.std.specs.Prelude.{◌≡◌, ◌<◌, ◌≤◌, ◌&&◌, [], ◌∷◌, flat_map, length, IfOk, OnOk, slice_get, false, nat_le};
ghost use Rattle.std.specs.Option.{option_map_or};
ghost use Rattle.wasm_syntax.specs.Instructions.{blocks_named};
ghost use Rattle.wasm_syntax.specs.Shapes.{names, all_from, are_later, is_within};
ghost use Rattle.module_shapes.specs.Heights.{height_of, over_all};

use std::alloc::Global;
use std::marker::Model;
use wasm_syntax::{Block, Instr};
use wasm_types::OutOfMemory;

// How deep the blocks behind a block are nested, themselves counted. Contracts see these heights in the order of the
// blocks.
#[derive(Drop)]
struct Heights {
    backwards: Vec<u16>,
}

impl Model for Heights {
    ghost use Rattle.std.specs.Prelude.{List, ℕ, reverse};

    ghost Value = { List ℕ };

    ghost view = { λ h. reverse h.backwards.items };
}

impl Heights {
    fn new(alloc: Global) -> Heights
        ensures { result ≡ [] }
    {
        Heights {
            backwards: Vec::new(alloc),
        }
    }

    // Adds the height of the block in front.
    fn push(&mut self, height: u16) -> Result<(), OutOfMemory>
        ensures { OnOk result (self.new ≡ height ∷ self.old) }
    {
        self.backwards.push(height)?;
        Ok(())
    }

    // The height at a place.
    fn at(&self, place: usize) -> Option<u16>
        ensures { result ≡ slice_get self.now place }
    {
        let backwards = self.backwards.len().checked_sub(place)?.checked_sub(1)?;
        self.backwards.get(backwards).copied()
    }

    // Whether the first height is there and at most a number.
    fn is_first_within(&self, most: u16) -> bool
        ensures { result ≡ option_map_or (λ height. nat_le height most) (slice_get self.now 0) false }
    {
        self.at(0).is_some_and(|height| height <= most)
    }

    // The height of a block, where it stands behind the block `own`.
    fn of(&self, own: usize, block: u32) -> Option<u16>
        ensures { result ≡ height_of own self.now block }
    {
        let place = (block as usize).checked_sub(own)?.checked_sub(1)?;
        self.at(place)
    }

    // The greatest height of the blocks that an instruction names, and `tallest`; `None` where one does not stand behind
    // the block `own`.
    fn over_instr(&self, own: usize, tallest: u16, instr: Instr) -> Option<u16>
        ensures { result ≡ over_all own self.now tallest (blocks_named instr) }
    {
        match instr {
            Instr::Block(block) => Some(tallest.max(self.of(own, block)?)),
            Instr::Loop(block) => Some(tallest.max(self.of(own, block)?)),
            Instr::If(block, other) => {
                let height = tallest.max(self.of(own, block)?);
                Some(height.max(self.of(own, other)?))
            }
            _ => Some(tallest),
        }
    }

    // The greatest height of the blocks that code names; `None` where one does not stand behind the block `own`.
    fn over_code(&self, own: usize, code: &[Instr]) -> Option<u16>
        ensures { result ≡ over_all own self.now 0 (flat_map blocks_named code.now) }
    {
        let mut tallest = 0;
        let mut rest = code;
        while let [instr, tail @ ..] = rest {
            tallest = self.over_instr(own, tallest, *instr)?;
            rest = tail;
        }
        Some(tallest)
    }
}

// Whether each block that a block names is there and has a greater number, and the blocks in the first are nested at
// most so deep, itself counted.
pub(crate) fn are_nested_within(
    alloc: Global,
    most: u16,
    blocks: &[Block],
) -> Result<bool, OutOfMemory>
    requires { most < 65535 }
    ensures { IfOk result (λ fits. fits
        ≡ (all_from (λ own b. are_later (length blocks.now) own (names b)) 0 blocks.now
        && is_within most blocks.now 0)) }
{
    let mut heights = Heights::new(alloc);
    let mut rest = blocks;
    while let Some((block, front)) = rest.split_last() {
        let Some(tallest) = heights.over_code(front.len(), block.instrs.as_slice()) else {
            return Ok(false);
        };
        heights.push(tallest.min(most) + 1)?;
        rest = front;
    }
    Ok(heights.is_first_within(most))
}
