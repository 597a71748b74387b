ghost use Rattle.std.specs.Prelude.{◌≡◌, ◌++◌, ◌≤◌, IfOk, OnOk, length};
ghost use Rattle.wasm_types.specs.FunctionParts.{params};
ghost use Rattle.code_stack.specs.Values.{values_parts};
ghost use Rattle.code_leaps.specs.Calling.{begun_values};
ghost use Rattle.code_run.specs.Calling.{Calls, CallsGuest, CallsHost, Begins};
ghost use Rattle.code_run.specs.Steps.{came};

use crate::steps::Signal;
use crate::thread::Thread;
use code_leaps::{Callee, begun_value, find_callee};
use code_stack::{Activation, Caller, Fault, HostCall, Layer, Step, Values, item};
use store_state::{FunctionKind, Program};
use wasm_types::{OutOfMemory, ValType};
use wasm_values::Trap;

// Adds the declared locals of a function, behind its parameters.
#[tactic(auto, using(crate::proofs::CallLemmas::begun_more, crate::proofs::CallLemmas::begun_all))]
pub(crate) fn begin_locals(values: &mut Values, types: &[ValType]) -> Result<(), OutOfMemory>
    ensures { OnOk result (values.new ≡ values_parts values.old.operands (values.old.locals ++ begun_values types.now)
        values.old.below values.old.room) }
{
    let mut rest = types;
    'locals: while let Some((ty, tail)) = rest.split_first() {
        values.add_local(begun_value(ty))?;
        rest = tail;
    }
    Ok(())
}

impl<'p> Thread<'p> {
    // Enters a function of an instance, which takes its parameters along.
    #[inline]
    pub(crate) fn begin(
        &mut self,
        callee: Callee<'p>,
        instance: usize,
        depth: usize,
    ) -> Result<Signal, OutOfMemory>
        requires { length (params callee.ty.now) ≤ length self.old.values.operands }
        ensures { IfOk result (λ s. Begins callee.entry instance depth self.old (came s self.new) self.new) }
    {
        let Some(body) = item(callee.function.blocks.as_slice(), 0) else {
            self.step = Step::Fails(Fault::Stuck);
            return Ok(Signal::Ends);
        };
        if !self.values.enter(callee.ty.params().len())? {
            self.step = Step::Fails(Fault::Stuck);
            return Ok(Signal::Ends);
        }
        begin_locals(&mut self.values, callee.function.locals.as_slice())?;
        let caller = Caller {
            activation: self.activation,
            rest: self.code,
        };
        self.layers.push(Layer::Call(caller))?;
        self.activation = Activation {
            instance,
            module: callee.module,
            function: callee.function,
            results: callee.ty.results().len(),
            depth,
        };
        self.code = body.instrs.as_slice();
        Ok(Signal::Checks)
    }

    // A call of a function of an instance.
    #[inline]
    fn call_guest(
        &mut self,
        program: &'p Program,
        frames: usize,
        instance: usize,
        number: usize,
    ) -> Result<Signal, OutOfMemory>
        ensures { IfOk result (λ s. CallsGuest program.now frames instance number self.old (came s self.new) self.new) }
    {
        let Some(callee) = find_callee(program, instance, number) else {
            self.step = Step::Fails(Fault::Stuck);
            return Ok(Signal::Ends);
        };
        if self.values.operands().len() < callee.ty.params().len() {
            self.step = Step::Fails(Fault::Stuck);
            return Ok(Signal::Ends);
        }
        if self.activation.depth == frames {
            self.step = Step::Fails(Fault::Trapped(Trap::StackOverflow));
            return Ok(Signal::Ends);
        }
        // Never wanting: fewer functions are open than there are frames.
        let Some(depth) = self.activation.depth.checked_add(1) else {
            return Err(OutOfMemory);
        };
        let step = self.begin(callee, instance, depth)?;
        Ok(step)
    }

    // A call of a function of the host.
    #[inline]
    fn call_host(&mut self, frames: usize, call: HostCall<'p>) -> Signal
        ensures { CallsHost frames call.entry self.old (came result self.new) self.new }
    {
        if self.values.operands().len() < call.ty.params().len() {
            self.step = Step::Fails(Fault::Stuck);
            return Signal::Ends;
        }
        if self.activation.depth == frames {
            self.step = Step::Fails(Fault::Trapped(Trap::StackOverflow));
            return Signal::Ends;
        }
        self.step = Step::Calls(call);
        Signal::Ends
    }

    // A call of a function of the store.
    // Out of place, so that what a call needs of registers is not saved around all else that a step does.
    #[inline(never)]
    pub(crate) fn call(
        &mut self,
        program: &'p Program,
        frames: usize,
        number: usize,
    ) -> Result<Signal, OutOfMemory>
        ensures { IfOk result (λ s. Calls program.now frames number self.old (came s self.new) self.new) }
    {
        match program.function(number) {
            None => {
                self.step = Step::Fails(Fault::Stuck);
                Ok(Signal::Ends)
            }
            Some(FunctionKind::Guest { instance, number }) => {
                let step = self.call_guest(program, frames, instance, number)?;
                Ok(step)
            }
            Some(FunctionKind::Host { ty, body, stored }) => {
                let host = HostCall { ty, body, stored };
                Ok(self.call_host(frames, host))
            }
        }
    }
}
