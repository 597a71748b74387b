ghost use Rattle.std.specs.Prelude.{◌≡◌, IfErr, IfOk, length};
ghost use Rattle.binary_code.specs.CodeParts.{begun, ended, listed_in};

use crate::code_types::{CodeTypes, number_32};
use binary_types::BinaryFault;
use std::alloc::Global;
use wasm_syntax::{Block, Instr, TargetList};
use wasm_types::Items;

/// The types that code names, and the blocks and the target lists of a function, as far as they are read.
#[derive(Drop)]
pub(crate) struct CodeParts {
    pub(crate) types: CodeTypes,
    pub(crate) blocks: Items<Block>,
    pub(crate) targets: Items<TargetList>,
}

impl CodeParts {
    /// Makes the place of a block of this type, as yet without instructions, and answers its number.
    pub(crate) fn begin_block(&mut self, alloc: Global, ty: u32) -> Result<u32, BinaryFault>
        ensures ok { IfOk result (λ n. (n ≡ length self.old.blocks) × (self.new ≡ begun ty self.old)) }
        ensures err { IfErr result (λ e. e ≡ BinaryFault.OutOfMemory) }
    {
        let number = number_32(self.blocks.len())?;
        let instrs = Items(Vec::new(alloc));
        match self.blocks.0.push(Block { ty, instrs }) {
            Ok(()) => Ok(number),
            Err(_) => Err(BinaryFault::OutOfMemory),
        }
    }

    /// Puts the instructions of the block of this number and type into its place.
    pub(crate) fn end_block(&mut self, number: u32, ty: u32, instrs: Items<Instr>)
        ensures { self.new ≡ ended number ty instrs self.old }
    {
        if let Some(block) = self.blocks.0.get_mut(number as usize) {
            *block = Block { ty, instrs };
        }
    }

    /// Adds a target list, and answers its number.
    pub(crate) fn add_targets(&mut self, targets: TargetList) -> Result<u32, BinaryFault>
        ensures ok { IfOk result (λ n. (n ≡ length self.old.targets) × (self.new ≡ listed_in targets self.old)) }
        ensures err { IfErr result (λ e. e ≡ BinaryFault.OutOfMemory) }
    {
        let number = number_32(self.targets.len())?;
        match self.targets.0.push(targets) {
            Ok(()) => Ok(number),
            Err(_) => Err(BinaryFault::OutOfMemory),
        }
    }
}
