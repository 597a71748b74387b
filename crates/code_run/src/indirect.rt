ghost use Rattle.std.specs.Prelude.{◌≡◌, ℕ, IfOk, option_map};
ghost use Rattle.wasm_syntax.specs.declared.instr.Instr.TheVariants as i;
ghost use Rattle.code_run.specs.Choosing.{chosen_by, CallsSigned};
ghost use Rattle.code_leaps.specs.Running.{Steps, ruled, charged, executing};
ghost use Rattle.code_stack.specs.declared.rules.Rules.{Rules};
ghost use Rattle.code_leaps.specs.Choosing.{table_in};
ghost use Rattle.code_run.specs.Steps.{came, seen};
ghost use Rattle.store_state.specs.Lists.{element_at};

use crate::steps::Signal;
use crate::thread::Thread;
use code_stack::{Fault, Step, item};
use store_state::{Held, Program};
use wasm_objects::RawRef;
use wasm_types::{FuncType, OutOfMemory};
use wasm_values::Trap;

// The function in an element of a table, by its number in the store, or why there is none.
#[derive(Clone, Copy)]
pub(crate) enum Chosen {
    Function(usize),
    Fails(Fault),
}

// By the element at the place.
fn choose(element: Option<RawRef>) -> Chosen
    ensures { result ≡ chosen_by element }
{
    match element {
        None => Chosen::Fails(Fault::Trapped(Trap::TableOutOfBounds)),
        Some(RawRef::Null) => Chosen::Fails(Fault::Trapped(Trap::IndirectCallToNull)),
        Some(RawRef::Func(number)) => Chosen::Function(number),
        Some(_) => Chosen::Fails(Fault::Stuck),
    }
}

// The element at a place of the table that an instance names under an index.
fn element_in(
    program: &Program,
    held: &mut Held,
    instance: usize,
    index: u32,
    place: usize,
) -> Option<Option<RawRef>>
    ensures value { result ≡ option_map (element_at place) (table_in program.now held.old instance index) }
    ensures same { held.new ≡ held.old }
{
    let number = program.table_number(instance, index)?;
    held.look_up(number, place)
}

impl<'p> Thread<'p> {
    // A call of a function of the store, where its type matches this one.
    fn call_signed(
        &mut self,
        program: &'p Program,
        frames: usize,
        number: usize,
        wanted: &FuncType,
    ) -> Result<Signal, OutOfMemory>
        ensures { IfOk result (λ s. CallsSigned program.now frames wanted.now number self.old (came s self.new) self.new) }
    {
        let Some(own) = program.function_type(number) else {
            self.step = Step::Fails(Fault::Stuck);
            return Ok(Signal::Ends);
        };
        if !own.matches(wanted) {
            self.step = Step::Fails(Fault::Trapped(Trap::BadSignature));
            return Ok(Signal::Ends);
        }
        let step = self.call(program, frames, number)?;
        Ok(step)
    }

    // `call_indirect`
    pub(crate) fn call_indirect(
        &mut self,
        program: &'p Program,
        frames: usize,
        held: &mut Held,
        ty: u32,
        index: u32,
    ) -> Result<Signal, OutOfMemory>
        ensures steps { IfOk result (λ s. (rules : Rules) (owed : ℕ) → rules.frames ≡ frames →
            Steps (ruled program.now rules) (executing (seen self.old) (i.CallIndirect ty index))
            (charged rules.consumes_fuel held.old owed) (came s self.new) (seen self.new)
            (charged rules.consumes_fuel held.new owed)) }
        ensures same { held.new ≡ held.old }
    {
        let Some(place) = self.values.pop_i32() else {
            self.step = Step::Fails(Fault::Stuck);
            return Ok(Signal::Ends);
        };
        let Some(wanted) = item(self.activation.module.decl().types.as_slice(), ty as usize) else {
            self.step = Step::Fails(Fault::Stuck);
            return Ok(Signal::Ends);
        };
        let Some(element) = element_in(
            program,
            held,
            self.activation.instance,
            index,
            place as usize,
        ) else {
            self.step = Step::Fails(Fault::Stuck);
            return Ok(Signal::Ends);
        };
        match choose(element) {
            Chosen::Fails(fault) => {
                self.step = Step::Fails(fault);
                Ok(Signal::Ends)
            }
            Chosen::Function(number) => {
                let step = self.call_signed(program, frames, number, wanted)?;
                Ok(step)
            }
        }
    }
}
