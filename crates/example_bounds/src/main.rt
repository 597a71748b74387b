//! Hosts that bound what their guests take, one bound in each file. It prints the name of each part, and what its host saw.
#![tactic(auto)]

mod cancelled;
mod fuel;
mod granting;
mod interrupt;
mod limits;
mod own_data;

use wasm_embedding::Fault;

fn main(rt: HostRuntime) -> Result<(), Fault> {
    let alloc = rt.alloc();
    fuel::show(&rt, alloc)?;
    interrupt::show(&rt, alloc)?;
    cancelled::show(&rt, alloc)?;
    limits::show(&rt, alloc)?;
    granting::show(&rt, alloc)?;
    own_data::show(&rt, alloc)
}
