ghost use Rattle.std.specs.Prelude.{◌≡◌, ◌<◌, ◌≤◌, Some, length};
ghost use Rattle.script_json.specs.Fields.{Reads};
ghost use Rattle.script_modules.specs.CodeParts.{ReadsIn, begun, ended, listed};

use script_json::ScriptFault;
use std::alloc::Global;
use wasm_syntax::{Block, Instr, TargetList};
use wasm_types::Items;

/// The blocks and the target lists of a function, as far as they are read.
#[derive(Drop)]
pub(crate) struct CodeParts {
    pub(crate) blocks: Items<Block>,
    pub(crate) targets: Items<TargetList>,
}

// A number has 32 bits. More items than that are more than there is memory for, since a script has at most 2^24 bytes.
fn next_number(length: usize) -> Result<u32, ScriptFault>
    ensures { Reads (Some length) result }
{
    match u32::try_from(length) {
        Ok(number) => Ok(number),
        Err(_) => Err(ScriptFault::OutOfMemory),
    }
}

/// Makes the place of a block of this type, as yet without instructions, and answers its number.
pub(crate) fn begin_block(alloc: Global, ty: u32, parts: &mut CodeParts) -> Result<u32, ScriptFault>
    ensures reads { ReadsIn (Some (begun ty parts.old)) result parts.new }
    ensures grows { length parts.old.blocks ≤ length parts.new.blocks }
{
    let number = next_number(parts.blocks.len())?;
    let instrs = Items(Vec::new(alloc));
    match parts.blocks.0.push(Block { ty, instrs }) {
        Ok(()) => Ok(number),
        Err(_) => Err(ScriptFault::OutOfMemory),
    }
}

/// Puts the instructions of the block of this number and type into its place.
pub(crate) fn end_block(number: u32, ty: u32, instrs: Items<Instr>, parts: &mut CodeParts)
    requires { number < length parts.old.blocks }
    ensures { parts.new ≡ ended number ty instrs parts.old }
{
    parts.blocks.0[number as usize] = Block { ty, instrs };
}

/// Adds a target list, and answers its number.
pub(crate) fn add_targets(targets: TargetList, parts: &mut CodeParts) -> Result<u32, ScriptFault>
    ensures reads { ReadsIn (Some (listed targets parts.old)) result parts.new }
    ensures blocks { parts.new.blocks ≡ parts.old.blocks }
{
    let number = next_number(parts.targets.len())?;
    match parts.targets.0.push(targets) {
        Ok(()) => Ok(number),
        Err(_) => Err(ScriptFault::OutOfMemory),
    }
}
