use wasm_module::Module;
use wasm_syntax::{FuncDecl, Instr};

/// A function of an instance at work: the number of the instance, its module, the function, how many results it has,
/// and how many functions are open, this one among them.
#[derive(Clone, Copy)]
pub struct Activation<'p> {
    pub instance: usize,
    pub module: &'p Module,
    pub function: &'p FuncDecl,
    pub results: usize,
    pub depth: usize,
}

/// An open label: the code behind its block, how many operands a branch to it takes along, and the block that such a
/// branch begins again, where it is a loop's.
#[derive(Clone, Copy)]
pub struct Label<'p> {
    pub rest: &'p [Instr],
    pub arity: usize,
    pub again: Option<u32>,
}

/// A function that waits for one that it called, and the code behind the call.
#[derive(Clone, Copy)]
pub struct Caller<'p> {
    pub activation: Activation<'p>,
    pub rest: &'p [Instr],
}

/// What stands around the code that runs.
#[derive(Clone, Copy)]
pub enum Layer<'p> {
    /// A block that was entered.
    Block(Label<'p>),
    /// A call.
    Call(Caller<'p>),
}

/// A block of the function at work that is to be entered: its code, and how many parameters and results its type has.
#[derive(Clone, Copy)]
pub struct Opening<'p> {
    pub code: &'p [Instr],
    pub params: usize,
    pub results: usize,
}
