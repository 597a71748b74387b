//! Operations on the objects of a store, as commands name them, calls of functions among them: which object or value a
//! name stands for, and what an operation does and answers as an outermost command. And calls by a host that has the
//! function's handle.
#![tactic(auto)]

mod arguments;
mod body_operations;
mod calls;
mod fuel;
mod func_run;
mod functions;
mod globals;
mod growth;
mod invocations;
pub mod laws;
mod memories;
mod operations;
mod outermost;
mod outside;
mod results;
mod start_functions;
mod tables;
mod turns;
mod value_calls;

pub use func_run::FuncRun;
pub use outermost::{begin_turns, outermost_objects, run_func_new, run_op};
pub use spec_machine::{
    ByteList, Name, NameList, Op, Operand, OperandList, Reply, TextName, ValList,
};
pub use start_functions::{StartEnd, run_start};
pub use wasm_host::{Answer, Caller, Event, HostBody, NoHost};
