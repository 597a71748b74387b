ghost use Rattle.std.specs.Prelude.{◌≡◌, MatchOption, false};
ghost use Rattle.module_typing.specs.Answers.{names_block, nested_instr};

use wasm_syntax::Instr;

// An instruction that names a block, and so code that is nested in it.
#[derive(Clone, Copy)]
pub(crate) enum Nested {
    Block(u32),
    Loop(u32),
    If(u32, u32),
}

// The same instruction, where it names a block.
pub(crate) fn block_named(instr: Instr) -> Option<Nested>
    ensures { MatchOption result (names_block instr ≡ false) (λ n. instr ≡ nested_instr n) }
{
    match instr {
        Instr::Block(block) => Some(Nested::Block(block)),
        Instr::Loop(block) => Some(Nested::Loop(block)),
        Instr::If(block, other) => Some(Nested::If(block, other)),
        _ => None,
    }
}
