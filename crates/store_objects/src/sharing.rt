ghost use Rattle.std.specs.Prelude.{◌≡◌, ◌++◌, ◌∷◌, [], IfSome, IfNone, IfOk, OnOk, OnErr};
ghost use Rattle.store_state.specs.Parts.{program_parts};
ghost use Rattle.store_objects.specs.Sharing.{shared_program};

use std::alloc::Global;
use std::marker::Model;
use std::mem;
use std::rc::Rc;
use store_state::{Function, Program};
use wasm_types::OutOfMemory;

/// What a run of code reads. It can be shared, so that a run reads it while operations work on the rest of the store.
/// Contracts see the functions and the instances, whoever else holds them.
pub struct SharedProgram {
    program: Shared,
}

// Written out, so that the crates above do not prove it again of all that is in it.
impl Drop for SharedProgram {
    fn drop(self) {
        let SharedProgram { program: _program } = self;
    }
}

#[derive(Drop)]
enum Shared {
    Own(Program),
    Counted(Rc<Program>),
}

impl Model for SharedProgram {
    ghost use Rattle.store_state.specs.Codes.{program_code};
    ghost use Rattle.store_state.specs.Parts.{ProgramParts};
    ghost use Rattle.store_objects.specs.Sharing.{shared_program};

    ghost Value = { ProgramParts };

    ghost coded = { program_code };

    ghost view = { λ p. shared_program p.program };
}

impl SharedProgram {
    /// No functions and no instances. It takes no memory.
    pub fn new(alloc: Global) -> SharedProgram
        ensures { result ≡ program_parts [] [] }
    {
        SharedProgram::from_program(Program::new(alloc))
    }

    /// What a run reads, held by nobody else.
    pub fn from_program(program: Program) -> SharedProgram
        ensures { result ≡ program }
    {
        SharedProgram {
            program: Shared::Own(program),
        }
    }

    /// What others hold, too.
    pub fn of_shared(program: Rc<Program>) -> SharedProgram
        ensures { result ≡ program.value }
    {
        SharedProgram {
            program: Shared::Counted(program),
        }
    }

    /// The functions and the instances, lent.
    #[inline]
    pub fn get(&self) -> &Program
        ensures { result.now ≡ self.now }
    {
        match &self.program {
            Shared::Own(program) => program,
            Shared::Counted(program) => program.as_ref(),
        }
    }

    /// The same for one who holds it too. `OutOfMemory` where there is no memory for the count of those who hold it, or
    /// where the count is full.
    pub fn share(&mut self, alloc: Global) -> Result<Rc<Program>, OutOfMemory>
        ensures shared { IfOk result (λ shared. shared.value ≡ self.old) }
        ensures kept { self.new ≡ self.old }
    {
        let program = mem::replace(&mut self.program, Shared::Own(Program::new(alloc)));
        let (program, shared) = to_shared(alloc, program);
        self.program = program;
        shared
    }

    /// Where nobody else holds it, it is owned again. It takes no memory.
    pub fn unshare(&mut self, alloc: Global)
        ensures { self.new ≡ self.old }
    {
        let program = mem::replace(&mut self.program, Shared::Own(Program::new(alloc)));
        self.program = to_own(program);
    }

    /// The program itself, to be changed and put back; in its place there are no functions and no instances.
    ///
    /// `None` only where somebody else holds it, which nobody does outside of a run.
    pub fn take(&mut self, alloc: Global) -> Option<Program>
        ensures taken { IfSome result (λ program. program ≡ self.old) }
        ensures left { IfSome result (λ _. self.new ≡ program_parts [] []) }
        ensures none { IfNone result (self.new ≡ self.old) }
    {
        let program = mem::replace(&mut self.program, Shared::Own(Program::new(alloc)));
        match to_own(program) {
            Shared::Own(program) => Some(program),
            Shared::Counted(program) => {
                self.program = Shared::Counted(program);
                None
            }
        }
    }

    /// A function more.
    ///
    /// Where it is shared there is no room for one, and the answer is `OutOfMemory`. Functions are only added outside of
    /// runs, when it is not shared.
    pub(crate) fn add_function(&mut self, function: Function) -> Result<(), OutOfMemory>
        ensures ok { OnOk result (self.new ≡ program_parts (self.old.functions ++ function ∷ []) self.old.instances) }
        ensures err { OnErr result (self.new ≡ self.old) }
    {
        match &mut self.program {
            Shared::Own(program) => program.add_function(function),
            Shared::Counted(_) => Err(OutOfMemory),
        }
    }
}

// What a run reads, as it is shared from now on, and the same for one who holds it too.
fn to_shared(alloc: Global, program: Shared) -> (Shared, Result<Rc<Program>, OutOfMemory>)
    ensures kept { shared_program result.0 ≡ shared_program program }
    ensures shared { IfOk result.1 (λ shared. shared.value ≡ shared_program program) }
{
    match program {
        Shared::Own(program) => match Rc::new(alloc, program) {
            Ok(program) => with_sharer(program),
            Err(failed) => (Shared::Own(failed.value), Err(OutOfMemory)),
        },
        Shared::Counted(program) => with_sharer(program),
    }
}

// What is shared, and the same for one who holds it too.
fn with_sharer(program: Rc<Program>) -> (Shared, Result<Rc<Program>, OutOfMemory>)
    ensures kept { shared_program result.0 ≡ program.value }
    ensures shared { IfOk result.1 (λ shared. shared.value ≡ program.value) }
{
    match program.clone() {
        Ok(shared) => (Shared::Counted(program), Ok(shared)),
        Err(_) => (Shared::Counted(program), Err(OutOfMemory)),
    }
}

// What a run reads, owned where nobody else holds it.
fn to_own(program: Shared) -> Shared
    ensures { shared_program result ≡ shared_program program }
{
    match program {
        Shared::Own(program) => Shared::Own(program),
        Shared::Counted(program) => match Rc::try_unwrap(program) {
            Ok(program) => Shared::Own(program),
            Err(program) => Shared::Counted(program),
        },
    }
}
