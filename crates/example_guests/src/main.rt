//! Hosts and their guests, one idea in each file. It prints the name of each part, and what its host saw.
#![tactic(auto)]

mod bytes;
mod callback;
mod externref;
mod gcd;
mod guests;
mod linking;
mod multi_memory;
mod multi_value;
mod prepared;
mod tables;

use wasm_embedding::Fault;

fn main(rt: HostRuntime) -> Result<(), Fault> {
    let alloc = rt.alloc();
    gcd::show(&rt, alloc)?;
    bytes::show(&rt, alloc)?;
    callback::show(&rt, alloc)?;
    linking::show(&rt, alloc)?;
    prepared::show(&rt, alloc)?;
    multi_value::show(&rt, alloc)?;
    multi_memory::show(&rt, alloc)?;
    tables::show(&rt, alloc)?;
    externref::show(&rt, alloc)
}
