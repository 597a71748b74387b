ghost use Rattle.std.specs.Prelude.{◌≡◌, suc, ℕ, IfErr, IfOk};
ghost use Rattle.wasm_leb.specs.Places.{Place};
ghost use Rattle.binary_code.specs.Nesting.{IsDue, IsDueBy, Leaves, Outcome, Steps, entered, fresh, left_list, pushed, switched, with_block, with_straight, with_table};
ghost use Rattle.binary_code.specs.CodeParts.{ended};
ghost use Rattle.binary_code.specs.Nesting as nesting;
ghost use Rattle.binary_code.specs.declared.context.CodeContext.{CodeContext};
ghost use Rattle.binary_code.specs.declared.forms.Form.TheVariants as forms;

use crate::block_types::block_type;
use crate::code_parts::CodeParts;
use crate::code_types::CodeTypes;
use crate::context::CodeContext;
use crate::forms::{Form, Opener, StraightForm};
use crate::instr_codes::form_of;
use crate::instructions::straight;
use crate::targets::labels;
use binary_types::{BinaryFault, byte};
use std::alloc::Global;
use std::mem;
use wasm_leb::Cursor;
use wasm_syntax::{Instr, TargetList};
use wasm_types::Items;

/// What a list of instructions within another belongs to.
#[derive(Clone, Copy)]
pub(crate) enum Owner {
    Block,
    Loop,
    /// The first list of an `if`.
    First,
    /// The second list of an `if`, whose first one is the block of this number.
    Second(u32),
}

/// A list of instructions that is open: what it belongs to, the number and the type of its block, and the instructions
/// before it of the list that it stands in.
#[derive(Drop)]
pub(crate) struct OpenList {
    pub(crate) owner: Owner,
    pub(crate) number: u32,
    pub(crate) ty: u32,
    pub(crate) before: Items<Instr>,
}

/// Code as far as it is read: its parts, the lists that are open within the outermost one, and the instructions of the
/// innermost one.
#[derive(Drop)]
pub(crate) struct Nesting {
    pub(crate) parts: CodeParts,
    pub(crate) lists: Items<OpenList>,
    pub(crate) instrs: Items<Instr>,
}

fn owner_of(opener: Opener) -> Owner
    ensures { result ≡ nesting.owner_of opener }
{
    match opener {
        Opener::Block => Owner::Block,
        Opener::Loop => Owner::Loop,
        Opener::If => Owner::First,
    }
}

// After an instruction the outermost list still goes on.
fn not_whole(read: Result<(), BinaryFault>) -> Result<bool, BinaryFault>
    ensures { result ≡ nesting.not_whole read }
{
    match read {
        Ok(()) => Ok(false),
        Err(fault) => Err(fault),
    }
}

impl Nesting {
    /// At the beginning of the code of a function of this type.
    pub(crate) fn new(alloc: Global, ty: u32, types: CodeTypes) -> Result<Nesting, BinaryFault>
        ensures ok { IfOk result (λ s. s ≡ fresh ty types) }
        ensures err { IfErr result (λ e. e ≡ BinaryFault.OutOfMemory) }
    {
        let mut parts = CodeParts {
            types,
            blocks: Items(Vec::new(alloc)),
            targets: Items(Vec::new(alloc)),
        };
        let _ = parts.begin_block(alloc, ty)?;
        Ok(Nesting {
            parts,
            lists: Items(Vec::new(alloc)),
            instrs: Items(Vec::new(alloc)),
        })
    }

    fn push(&mut self, instr: Instr) -> Result<(), BinaryFault>
        ensures ok { IfOk result (λ _. self.new ≡ pushed instr self.old) }
        ensures err { IfErr result (λ e. e ≡ BinaryFault.OutOfMemory) }
    {
        match self.instrs.0.push(instr) {
            Ok(()) => Ok(()),
            Err(_) => Err(BinaryFault::OutOfMemory),
        }
    }

    // A list of this type begins within the innermost one.
    fn enter(&mut self, alloc: Global, owner: Owner, ty: u32) -> Result<(), BinaryFault>
        ensures ok { IfOk result (λ _. self.new ≡ entered owner ty self.old) }
        ensures err { IfErr result (λ e. e ≡ BinaryFault.OutOfMemory) }
    {
        let number = self.parts.begin_block(alloc, ty)?;
        let before = mem::replace(&mut self.instrs, Items(Vec::new(alloc)));
        match self.lists.0.push(OpenList {
            owner,
            number,
            ty,
            before,
        }) {
            Ok(()) => Ok(()),
            Err(_) => Err(BinaryFault::OutOfMemory),
        }
    }

    // The innermost list ended, which was this one.
    fn leave(&mut self, alloc: Global, list: OpenList) -> Result<(), BinaryFault>
        ensures ok { IfOk result (λ _. self.new ≡ left_list list self.old) }
        ensures err { IfErr result (λ e. e ≡ BinaryFault.OutOfMemory) }
    {
        let OpenList {
            owner,
            number,
            ty,
            before,
        } = list;
        let instrs = mem::replace(&mut self.instrs, before);
        self.parts.end_block(number, ty, instrs);
        match owner {
            Owner::Block => self.push(Instr::Block(number)),
            Owner::Loop => self.push(Instr::Loop(number)),
            Owner::First => {
                let second = self.parts.begin_block(alloc, ty)?;
                self.push(Instr::If(number, second))
            }
            Owner::Second(first) => self.push(Instr::If(first, number)),
        }
    }

    #[tactic(auto, using(crate::proofs::Owed::ends, crate::proofs::Owed::leaves))]
    fn end(&mut self, alloc: Global) -> Result<bool, BinaryFault>
        ensures { (c : CodeContext) (m : ℕ) (p : Place) (outer : Outcome) →
            IsDueBy c m forms.End self.old p outer → Steps c m outer result self.new p }
    {
        match self.lists.0.pop() {
            None => Ok(true),
            Some(list) => {
                self.leave(alloc, list)?;
                Ok(false)
            }
        }
    }

    // The first list of an if ended, which was this one, and the second one begins.
    fn switch(&mut self, alloc: Global, list: OpenList) -> Result<(), BinaryFault>
        ensures ok { IfOk result (λ _. self.new ≡ switched list self.old) }
        ensures err { IfErr result (λ e. e ≡ BinaryFault.OutOfMemory) }
    {
        let OpenList {
            owner: _,
            number: first,
            ty,
            before,
        } = list;
        let instrs = mem::replace(&mut self.instrs, Items(Vec::new(alloc)));
        self.parts.end_block(first, ty, instrs);
        let number = self.parts.begin_block(alloc, ty)?;
        match self.lists.0.push(OpenList {
            owner: Owner::Second(first),
            number,
            ty,
            before,
        }) {
            Ok(()) => Ok(()),
            Err(_) => Err(BinaryFault::OutOfMemory),
        }
    }

    #[tactic(auto, using(crate::proofs::Owed::switches, crate::proofs::Owed::no_else_within, crate::proofs::Owed::no_else_outermost))]
    fn turn(&mut self, alloc: Global) -> Result<bool, BinaryFault>
        ensures { (c : CodeContext) (m : ℕ) (p : Place) (outer : Outcome) →
            IsDueBy c m forms.Else self.old p outer → Steps c m outer result self.new p }
    {
        match self.lists.0.pop() {
            None => Err(BinaryFault::Malformed),
            Some(list) => match list.owner {
                Owner::First => {
                    self.switch(alloc, list)?;
                    Ok(false)
                }
                _ => Err(BinaryFault::Malformed),
            },
        }
    }

    fn straight(
        &mut self,
        context: CodeContext,
        form: StraightForm,
        input: &mut Cursor<'_>,
    ) -> Result<(), BinaryFault>
        ensures { Leaves (with_straight context form self.old input.old) result self.new input.new }
    {
        let types = self.parts.types.first(context.declared);
        let instr = straight(types, context.counted, form, input)?;
        self.push(instr)
    }

    fn branch_table(&mut self, alloc: Global, input: &mut Cursor<'_>) -> Result<(), BinaryFault>
        ensures { Leaves (with_table self.old input.old) result self.new input.new }
    {
        let targets = labels(alloc, input)?;
        let number = self.parts.add_targets(targets)?;
        self.push(Instr::BrTable(number))
    }

    fn begin(
        &mut self,
        alloc: Global,
        context: CodeContext,
        opener: Opener,
        input: &mut Cursor<'_>,
    ) -> Result<(), BinaryFault>
        ensures { Leaves (with_block context opener self.old input.old) result self.new input.new }
    {
        let ty = block_type(alloc, context, &mut self.parts.types, input)?;
        self.enter(alloc, owner_of(opener), ty)
    }

    // What follows the code of an instruction.
    fn go_on_by(
        &mut self,
        alloc: Global,
        context: CodeContext,
        form: Form,
        input: &mut Cursor<'_>,
    ) -> Result<bool, BinaryFault>
        ensures { (m : ℕ) (outer : Outcome) →
            IsDueBy context m form self.old input.old outer → Steps context m outer result self.new input.new }
    {
        match form {
            Form::Straight(form) => not_whole(self.straight(context, form, input)),
            Form::BrTable => not_whole(self.branch_table(alloc, input)),
            Form::Opens(opener) => not_whole(self.begin(alloc, context, opener, input)),
            Form::Else => self.turn(alloc),
            Form::End => self.end(alloc),
        }
    }

    /// Reads one instruction, or the border of a list. True where the outermost list is whole.
    pub(crate) fn go_on(
        &mut self,
        alloc: Global,
        context: CodeContext,
        input: &mut Cursor<'_>,
    ) -> Result<bool, BinaryFault>
        ensures { (m : ℕ) (outer : Outcome) →
            IsDue context (suc m) self.old input.old outer → Steps context m outer result self.new input.new }
    {
        let at = input.at();
        match byte(input) {
            Ok(code) => match form_of(code) {
                Some(form) => self.go_on_by(alloc, context, form, input),
                None => Err(BinaryFault::Unsupported {
                    at,
                    code: u64::from(code),
                }),
            },
            Err(fault) => Err(fault),
        }
    }

    /// The outermost list, which is that of a function of this type, ended.
    pub(crate) fn into_parts(self, ty: u32) -> CodeParts
        ensures { result ≡ ended 0 ty self.instrs self.parts }
    {
        let mut parts = self.parts;
        parts.end_block(0, ty, self.instrs);
        parts
    }
}
