ghost use Rattle.std.specs.Prelude.{◌≡◌, IfOk, [], ◌∷◌};
ghost use Rattle.wasm_syntax.specs.Typing.{Typed, given, from_to, address, on_memory};
ghost use Rattle.module_typing.specs.Answers.{typed_as, on_named};
ghost use Rattle.module_typing.specs.Code.{in_code};
ghost use Rattle.module_typing.specs.Operands.{types_in};

use crate::code::Code;
use crate::operand::Operand;
use crate::reach::Reach;
use crate::stack::Stack;
use wasm_types::ValType::I32;
use wasm_types::{OutOfMemory, ValType};

// A memory, a table or a segment that an instruction names.
#[derive(Clone, Copy)]
pub(crate) enum Named {
    Memory(u32),
    Table(u32),
    Data(u32),
    Elements(u32),
}

impl Code<'_, '_> {
    // Whether it is there.
    fn has(&self, named: Named) -> bool
        ensures { (t : Typed) → on_named (in_code self.now) named t ≡ given result t }
    {
        match named {
            Named::Memory(index) => self.spaces.memory(index).is_some(),
            Named::Table(index) => self.spaces.table(index).is_some(),
            Named::Data(index) => self.spaces.data(index).is_some(),
            Named::Elements(index) => self.spaces.element(index).is_some(),
        }
    }

    // Where it is there, operands of the first types, and in their place the second types.
    pub(crate) fn on_named(
        &self,
        operands: &mut Stack<Operand>,
        named: Named,
        old: &[ValType],
        new: &[ValType],
    ) -> Result<Reach, OutOfMemory>
        ensures { IfOk result (λ reach.
            on_named (in_code self.now) named (from_to old.now new.now (types_in self.now operands.old))
            ≡ typed_as reach (types_in self.now operands.new)) }
    {
        if !self.has(named) {
            return Ok(Reach::IllTyped);
        }
        self.from_to(operands, old, new)
    }

    // `memory.copy` and `memory.init`: bytes go to a memory, from a memory or from a data segment.
    pub(crate) fn bytes_from(
        &self,
        operands: &mut Stack<Operand>,
        memory: u32,
        source: Named,
    ) -> Result<Reach, OutOfMemory>
        ensures { IfOk result (λ reach.
            on_memory (in_code self.now) memory (on_named (in_code self.now) source
            (from_to (address ∷ address ∷ address ∷ []) [] (types_in self.now operands.old)))
            ≡ typed_as reach (types_in self.now operands.new)) }
    {
        if !self.has(Named::Memory(memory)) {
            return Ok(Reach::IllTyped);
        }
        self.on_named(operands, source, &[I32, I32, I32], &[])
    }
}
