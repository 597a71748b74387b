ghost use Rattle.std.specs.Prelude.{◌≡◌, IfOk, [], ◌∷◌, is_some};
ghost use Rattle.wasm_syntax.specs.Typing.{Typed, given, ends_in, inside, type_one};
ghost use Rattle.wasm_syntax.specs.Typing.{type_list, typing_to, is_typed};
ghost use Rattle.wasm_syntax.specs.declared.instr.Instr.TheVariants as I;
ghost use Rattle.module_typing.specs.Imported.{seen};
ghost use Rattle.module_typing.specs.Answers.{typed_as, both_branches, behind_condition};
ghost use Rattle.module_typing.specs.Code.{in_code};
ghost use Rattle.module_typing.specs.Operands.{types_in};

use crate::code::Code;
use crate::nested::{Nested, block_named};
use crate::operand::Operand;
use crate::reach::Reach;
use crate::spaces::Spaces;
use crate::stack::Stack;
use std::alloc::Global;
use wasm_syntax::{Block, FuncDecl, Instr};
use wasm_types::ValType::I32;
use wasm_types::{FuncType, OutOfMemory, ValType};

// Code may be nested this deep, the body being at depth 1.
const MOST_NESTED: u32 = 256;

impl<'a, 'd> Code<'a, 'd> {
    // A block's code: it sees its own parameters alone, and ends with its results. Where it is well typed, the greatest
    // number of its operands.
    #[cycle(walk)]
    fn inside(
        &self,
        alloc: Global,
        depth: u32,
        labels: &mut Stack<&'d [ValType]>,
        label: &'d [ValType],
        block: &'a Block,
        ty: &'d FuncType,
    ) -> Result<Option<u32>, OutOfMemory>
        ensures typed { IfOk result (λ height. (next : Typed) →
            inside (in_code self.now) (typing_to (in_code self.now) depth) (seen labels.old)
            label.now block.now ty.now next
            ≡ given (is_some height) next) }
        ensures labels { IfOk result (λ _. labels.new ≡ labels.old) }
    {
        let mut operands = self.no_operands(alloc);
        self.push_all(&mut operands, ty.params())?;
        labels.push(label)?;
        let reach = self.type_code(alloc, depth, labels, &mut operands, block.instrs.as_slice())?;
        let _label = labels.pop();
        Ok(operands.greatest_if(self.ends_in(&operands, ty.results(), reach)))
    }

    // `block`
    #[cycle(walk)]
    fn type_block(
        &self,
        alloc: Global,
        depth: u32,
        labels: &mut Stack<&'d [ValType]>,
        operands: &mut Stack<Operand>,
        index: u32,
    ) -> Result<Reach, OutOfMemory>
        ensures typed { IfOk result (λ reach.
            type_one (in_code self.now) (typing_to (in_code self.now) depth) (seen labels.old)
            (I.Block index) (types_in self.now operands.old)
            ≡ typed_as reach (types_in self.now operands.new)) }
        ensures labels { IfOk result (λ _. labels.new ≡ labels.old) }
    {
        let Some((block, ty)) = self.typed_block(index) else {
            return Ok(Reach::IllTyped);
        };
        if !self.want_all(operands, ty.params()) {
            return Ok(Reach::IllTyped);
        }
        let Some(height) = self.inside(alloc, depth, labels, ty.results(), block, ty)? else {
            return Ok(Reach::IllTyped);
        };
        self.end_block(operands, height, ty.results())?;
        Ok(Reach::Reached)
    }

    // `loop`
    #[cycle(walk)]
    fn type_loop(
        &self,
        alloc: Global,
        depth: u32,
        labels: &mut Stack<&'d [ValType]>,
        operands: &mut Stack<Operand>,
        index: u32,
    ) -> Result<Reach, OutOfMemory>
        ensures typed { IfOk result (λ reach.
            type_one (in_code self.now) (typing_to (in_code self.now) depth) (seen labels.old)
            (I.Loop index) (types_in self.now operands.old)
            ≡ typed_as reach (types_in self.now operands.new)) }
        ensures labels { IfOk result (λ _. labels.new ≡ labels.old) }
    {
        let Some((block, ty)) = self.typed_block(index) else {
            return Ok(Reach::IllTyped);
        };
        if !self.want_all(operands, ty.params()) {
            return Ok(Reach::IllTyped);
        }
        let Some(height) = self.inside(alloc, depth, labels, ty.params(), block, ty)? else {
            return Ok(Reach::IllTyped);
        };
        self.end_block(operands, height, ty.results())?;
        Ok(Reach::Reached)
    }

    // The branches of an `if`.
    #[cycle(walk)]
    fn type_both(
        &self,
        alloc: Global,
        depth: u32,
        labels: &mut Stack<&'d [ValType]>,
        operands: &mut Stack<Operand>,
        block: &'a Block,
        other: &'a Block,
        ty: &'d FuncType,
    ) -> Result<Reach, OutOfMemory>
        ensures typed { IfOk result (λ reach.
            both_branches (in_code self.now) (typing_to (in_code self.now) depth) (seen labels.old)
            block.now other.now ty.now (types_in self.now operands.old)
            ≡ typed_as reach (types_in self.now operands.new)) }
        ensures labels { IfOk result (λ _. labels.new ≡ labels.old) }
    {
        if !self.want_all(operands, ty.params()) {
            return Ok(Reach::IllTyped);
        }
        let Some(height) = self.inside(alloc, depth, labels, ty.results(), block, ty)? else {
            return Ok(Reach::IllTyped);
        };
        let Some(other) = self.inside(alloc, depth, labels, ty.results(), other, ty)? else {
            return Ok(Reach::IllTyped);
        };
        self.end_block(operands, height.max(other), ty.results())?;
        Ok(Reach::Reached)
    }

    // An `if` behind its condition.
    #[cycle(walk)]
    fn type_branches(
        &self,
        alloc: Global,
        depth: u32,
        labels: &mut Stack<&'d [ValType]>,
        operands: &mut Stack<Operand>,
        index: u32,
        other: u32,
    ) -> Result<Reach, OutOfMemory>
        ensures typed { IfOk result (λ reach.
            behind_condition (in_code self.now) (typing_to (in_code self.now) depth) (seen labels.old)
            index other (types_in self.now operands.old)
            ≡ typed_as reach (types_in self.now operands.new)) }
        ensures labels { IfOk result (λ _. labels.new ≡ labels.old) }
    {
        let Some((block, ty)) = self.typed_block(index) else {
            return Ok(Reach::IllTyped);
        };
        let Some((other, _)) = self.typed_block(other) else {
            return Ok(Reach::IllTyped);
        };
        if block.ty != other.ty {
            return Ok(Reach::IllTyped);
        }
        self.type_both(alloc, depth, labels, operands, block, other, ty)
    }

    // `if`
    #[cycle(walk)]
    fn type_if(
        &self,
        alloc: Global,
        depth: u32,
        labels: &mut Stack<&'d [ValType]>,
        operands: &mut Stack<Operand>,
        index: u32,
        other: u32,
    ) -> Result<Reach, OutOfMemory>
        ensures typed { IfOk result (λ reach.
            type_one (in_code self.now) (typing_to (in_code self.now) depth) (seen labels.old)
            (I.If index other) (types_in self.now operands.old)
            ≡ typed_as reach (types_in self.now operands.new)) }
        ensures labels { IfOk result (λ _. labels.new ≡ labels.old) }
    {
        if !self.want(operands, &I32) {
            return Ok(Reach::IllTyped);
        }
        let reach = self.type_branches(alloc, depth, labels, operands, index, other)?;
        Ok(reach)
    }

    // An instruction.
    #[cycle(walk)]
    fn type_one(
        &self,
        alloc: Global,
        depth: u32,
        labels: &mut Stack<&'d [ValType]>,
        operands: &mut Stack<Operand>,
        instr: Instr,
    ) -> Result<Reach, OutOfMemory>
        ensures typed { IfOk result (λ reach.
            type_one (in_code self.now) (typing_to (in_code self.now) depth) (seen labels.old)
            instr (types_in self.now operands.old)
            ≡ typed_as reach (types_in self.now operands.new)) }
        ensures labels { IfOk result (λ _. labels.new ≡ labels.old) }
    {
        match block_named(instr) {
            Some(Nested::Block(block)) => self.type_block(alloc, depth, labels, operands, block),
            Some(Nested::Loop(block)) => self.type_loop(alloc, depth, labels, operands, block),
            Some(Nested::If(block, other)) => {
                self.type_if(alloc, depth, labels, operands, block, other)
            }
            None => self.type_plain(labels, operands, instr),
        }
    }

    // Instructions one behind another.
    #[cycle(walk)]
    fn type_list(
        &self,
        alloc: Global,
        depth: u32,
        labels: &mut Stack<&'d [ValType]>,
        operands: &mut Stack<Operand>,
        instrs: &[Instr],
    ) -> Result<Reach, OutOfMemory>
        ensures typed { IfOk result (λ reach.
            type_list (in_code self.now) (typing_to (in_code self.now) depth) (seen labels.old)
            (types_in self.now operands.old) instrs.now
            ≡ typed_as reach (types_in self.now operands.new)) }
        ensures labels { IfOk result (λ _. labels.new ≡ labels.old) }
    {
        let mut rest = instrs;
        while let Some((instr, tail)) = rest.split_first() {
            match self.type_one(alloc, depth, labels, operands, *instr)? {
                Reach::Reached => {}
                Reach::Unreached => return Ok(Reach::Unreached),
                Reach::IllTyped => return Ok(Reach::IllTyped),
            }
            rest = tail;
        }
        Ok(Reach::Reached)
    }

    // Code that is nested at most so deep.
    #[cycle(walk)]
    fn type_code(
        &self,
        alloc: Global,
        depth: u32,
        labels: &mut Stack<&'d [ValType]>,
        operands: &mut Stack<Operand>,
        instrs: &[Instr],
    ) -> Result<Reach, OutOfMemory>
        ensures typed { IfOk result (λ reach.
            typing_to (in_code self.now) depth (seen labels.old) (types_in self.now operands.old) instrs.now
            ≡ typed_as reach (types_in self.now operands.new)) }
        ensures labels { IfOk result (λ _. labels.new ≡ labels.old) }
    {
        if depth == 0 {
            return Ok(Reach::IllTyped);
        }
        self.type_list(alloc, depth - 1, labels, operands, instrs)
    }

    // Where code that is nested at most so deep ends with the function's results, the greatest number of its operands.
    fn ends(&self, alloc: Global, depth: u32, body: &'a Block) -> Result<Option<u32>, OutOfMemory>
        ensures { IfOk result (λ height.
            is_some height
            ≡ ends_in (in_code self.now).results
            (typing_to (in_code self.now) depth ((in_code self.now).results ∷ []) [] body.now.instrs)) }
    {
        let mut operands = self.no_operands(alloc);
        let mut labels = Stack::new(alloc);
        labels.push(self.results())?;
        let reach = self.type_code(
            alloc,
            depth,
            &mut labels,
            &mut operands,
            body.instrs.as_slice(),
        )?;
        Ok(operands.greatest_if(self.ends_in(&operands, self.results(), reach)))
    }
}

/// A number exactly where the body of a function of the module is well typed: where its first block, from no operands,
/// never ends, or ends with the results of the function's type. Code behind an instruction that never goes on is not
/// typed, and code that is nested more than 256 deep is badly typed.
///
/// The number is the greatest number of operands that typing saw at one moment, those of all open blocks together, or
/// `u32::MAX` where it is greater. It is a hint by which an interpreter makes room once, as a function is entered:
/// nothing is proved of it but that it is there, and nothing but speed is to stand on it.
///
/// The time is linear in the code where no block is named twice, but in two cases. A branch table takes time in the labels
/// of its list, so that many that name one long list take quadratic time. A reference to a function type takes time in
/// the size of the type wherever it goes, but from a local back to that local: types are compared part by part, even
/// where they share their parts, since no proof follows from an address.
///
/// `OutOfMemory` where the allocator had no memory left, and for no other cause.
pub fn body_is_typed(
    alloc: Global,
    spaces: &Spaces<'_>,
    function: &FuncDecl,
) -> Result<Option<u32>, OutOfMemory>
    ensures { IfOk result (λ height.
        is_some height ≡ is_typed spaces.now.decl.now function.now) }
{
    let code = Code::new(spaces, function);
    match code.block(0) {
        None => Ok(None),
        Some(body) => code.ends(alloc, MOST_NESTED, body),
    }
}
