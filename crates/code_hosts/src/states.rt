use code_run::{HostCall, Thread};
use wasm_host::{Activation, Event};
use wasm_types::ValType;

/// What is at work: code of instances, or a body of the host that is to be stepped. A thread stays where it is in memory,
/// while what is at work and what waits are handed on.
#[derive(Drop)]
pub enum Open<'p> {
    Code(Box<Thread<'p>>),
    Body(Activation<'p>, Event),
}

/// What waits for another function: code that called one of the host, or a body that asked for the call of one with
/// these results.
#[derive(Drop)]
pub enum Waiting<'p> {
    Calls(Box<Thread<'p>>, HostCall<'p>),
    Asks(Activation<'p>, &'p [ValType]),
}
