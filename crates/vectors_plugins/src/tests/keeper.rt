//! A host that keeps the function that it is given, and hands it out later.
ghost use Rattle.std.specs.Prelude.{◌≢◌, Ok};

use std::alloc::Global as Heap;
use wasm_call::{Answer, Caller, Event, HostBody, Op, Operand, ValList};
use wasm_meter::ListedData;
use wasm_types::{GlobalType, Mutability, OutOfMemory, ValType};
use wasm_values::Val;

/// The number of the body that keeps its argument, of the one that returns what was kept, of the one that makes a
/// global of it, and of the one that returns its argument.
pub const KEEP: usize = 0;

pub const GIVE: usize = 1;

pub const STORE: usize = 2;

pub const ECHO: usize = 3;

#[derive(Drop)]
pub struct Keeper {
    pub kept: Option<Val>,
}

fn returned(alloc: Heap, val: Option<Val>) -> Result<Answer, OutOfMemory>
    ensures never_fails { result ≢ Ok Answer.Fail }
{
    let mut vals = Vec::new(alloc);
    if let Some(val) = val {
        vals.push(val)?;
    }
    Ok(Answer::Return(ValList(vals)))
}

/// A global of what was kept is asked for once; then nothing is returned.
fn stored(alloc: Heap, state: &mut u64, kept: Val) -> Result<Answer, OutOfMemory>
    ensures never_fails { result ≢ Ok Answer.Fail }
{
    if *state == 1 {
        return returned(alloc, None);
    }
    *state = 1;
    Ok(Answer::Call(Op::GlobalNew {
        ty: GlobalType::new(ValType::funcref(), Mutability::Var),
        init: Operand::Val(kept),
    }))
}

impl HostBody<ListedData> for Keeper {
    ghost use Rattle.std.specs.Prelude.{nat_lt};
    ghost use Rattle.wasm_host.specs.Hosts.{Harmless, harmless_keep, harmless_on};
    ghost use Rattle.wasm_meter.specs.declared.lists.ListedData.{ListedData as Data};

    ghost ready = { λ _. Unit {0} };

    ghost has = { λ h body. nat_lt body 4 };

    ghost steps = { λ h s body state cause view after say k t. Harmless s say t };

    ghost host_faults = { λ _. 0 };

    ghost steps_keep = { λ h k s t body state after cause view say i.
        harmless_keep (λ (x : Data). x.denials) (λ (x : Data). x.limiter_faults) (λ (x : Data). x.hook_faults)
        (λ (x : Data). x.behaviour_faults) s t say i };

    ghost steps_fail = { λ h k s t body state after cause view i. harmless_on s t i };

    fn has(&self, body: usize) -> bool {
        body < 4
    }

    fn step(
        &mut self,
        alloc: Heap,
        body: usize,
        caller: &mut Caller<'_, ListedData>,
        state: &mut u64,
        _event: Event,
    ) -> Result<Answer, OutOfMemory> {
        let argument = caller.args().get(0).copied();
        match body {
            KEEP => {
                self.kept = argument;
                returned(alloc, None)
            }
            GIVE => returned(alloc, self.kept),
            STORE => stored(alloc, state, self.kept.unwrap_or(Val::FuncRef(None))),
            _ => returned(alloc, argument),
        }
    }
}
