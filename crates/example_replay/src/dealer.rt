//! The host: what it deals differs from run to run.

use std::alloc::Global as Heap;
use wasm_embedding::{Answer, Caller, Event, HostBody, HostData, OutOfMemory, Val, ValList};
use wasm_replay::TapedHost;

/// The number of the body of `deal`, which is followed by those of `odd` and `even`.
const DEAL: usize = 0;

/// How many bodies there are.
pub(crate) const BODIES: usize = 3;

/// Deals one number after another. Another host reads a clock here, a file or a network.
#[derive(Drop)]
pub(crate) struct Dealer {
    pub(crate) next: i32,
}

impl Dealer {
    fn deal(&mut self, alloc: Heap) -> Result<ValList, OutOfMemory> {
        let number = self.next;
        self.next = self.next.wrapping_add(1);
        Ok(ValList(vec![in alloc; Val::I32(number)]?))
    }
}

impl<T: HostData> HostBody<T> for Dealer {
    ghost use Rattle.std.specs.Prelude.{nat_lt};
    ghost use Rattle.wasm_host.specs.Hosts.{Harmless, harmless_keep, harmless_on};

    ghost ready = { λ _. Unit {0} };

    ghost has = { λ h body. nat_lt body 3 };

    ghost steps = { λ h s body state cause view after say k t. Harmless s say t };

    ghost host_faults = { λ _. 0 };

    ghost steps_keep = { λ h k s t body state after cause view say i.
        harmless_keep T.denials T.limiter_faults T.hook_faults T.behaviour_faults s t say i };

    ghost steps_fail = { λ h k s t body state after cause view i. harmless_on s t i };

    fn has(&self, body: usize) -> bool {
        body < BODIES
    }

    /// A number is dealt, or nothing is returned.
    fn step(
        &mut self,
        alloc: Heap,
        body: usize,
        _caller: &mut Caller<'_, T>,
        _state: &mut u64,
        _event: Event,
    ) -> Result<Answer, OutOfMemory> {
        if body == DEAL {
            return Ok(Answer::Return(self.deal(alloc)?));
        }
        Ok(Answer::Return(ValList(Vec::new(alloc))))
    }
}

impl<T: HostData> TapedHost<T> for Dealer {
    ghost use Rattle.std.proofs.Common.{ap};

    ghost keeps_record = { λ h k s t body state after cause view say g.
        (ap (λ x. x.kept) g.data_is, ap (λ x. x.past) g.data_is) };
}
