//! Calls of modules in the binary format: values in, values out.
#![tactic(auto)]

mod answers;
mod arguments;
mod bounds;
mod calls;
mod faults;
mod guests;

pub use answers::Answer;
pub use bounds::Bounds;
pub use calls::call;
pub use faults::CallFault;

#[cfg(test)]
mod tests;
