ghost use Rattle.std.specs.Prelude.{◌<◌, IfOk, MatchBool, length};
ghost use Rattle.spec_execution.specs.Bodies as bodies;
ghost use Rattle.code_run.specs.Steps.{HasEntered};

use code_stack::{Activation, Label, Layer, Opening, Stack, Step, Values};
use std::alloc::Global;
use wasm_syntax::Instr;
use wasm_types::OutOfMemory;

/// Guest code that runs, or waits for a function of the host that it called: the function at work, the code that is left
/// of its innermost block, what stands around it, the values, and whether the check of the function is still due, as of
/// one that was just started.
///
/// It borrows from the program alone. It knows nothing of bodies of the host: a function of the host that its code calls
/// is run by its caller, as a nested call is, which is a thread of its own.
#[derive(Drop)]
pub struct Thread<'p> {
    pub(crate) activation: Activation<'p>,
    pub(crate) code: &'p [Instr],
    pub(crate) layers: Stack<Layer<'p>>,
    pub(crate) values: Values,
    pub(crate) unchecked: bool,
    // How the last step that ended or paused it did so.
    pub(crate) step: Step<'p>,
    // The bulk form that was passed last: it is put down here, so that a beat stays small.
    pub(crate) bulk: Instr,
    pub(crate) alloc: Global,
}

impl<'p> Thread<'p> {
    // Enters a block, which takes its parameters along; `false` where there are fewer operands.
    #[inline]
    pub(crate) fn enter(
        &mut self,
        opening: Opening<'p>,
        arity: usize,
        again: Option<u32>,
    ) -> Result<bool, OutOfMemory>
        ensures { IfOk result (λ entered. MatchBool entered
            (HasEntered opening.entry arity again self.old self.new)
            (length self.old.values.operands < opening.entry.params)) }
    {
        if !self.values.open(opening.params)? {
            return Ok(false);
        }
        let rest = self.code;
        self.layers
            .push(Layer::Block(Label { rest, arity, again }))?;
        self.code = opening.code;
        Ok(true)
    }
}
