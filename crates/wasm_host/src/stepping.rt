ghost use Rattle.std.specs.Prelude.{◌≡◌};
ghost use Rattle.wasm_host.specs.Callers.{looks};
ghost use Rattle.wasm_host.specs.StoreViews.{store_of};

use crate::bodies::HostBody;
use crate::caller::Caller;
use crate::store_view::StoreView;
use spec_execution::{Answer, Event};
use spec_machine::Reply;
use std::alloc::Global;
use wasm_meter::HostData;
use wasm_types::OutOfMemory;
use wasm_values::{Extern, Val};

/// What a function of the host was entered with: the number of its body, its arguments, the objects that were stored
/// with it, the replies to its operations so far, and the number of the instance whose code called it, where code did.
#[derive(Clone, Copy)]
pub(crate) struct Entered<'a> {
    pub(crate) body: usize,
    pub(crate) arguments: &'a [Val],
    pub(crate) stored: &'a [Extern],
    pub(crate) replies: &'a [Reply],
    pub(crate) caller: Option<usize>,
}

/// Steps a body over what it sees of a store, and what the host keeps in that.
pub(crate) fn step<T: HostData, H: HostBody<T>>(
    alloc: Global,
    host: &mut H,
    host_data: &mut T,
    store: StoreView<'_>,
    entered: Entered<'_>,
    state: &mut u64,
    event: Event,
) -> Result<Answer, OutOfMemory>
    requires { H.ready host.old }
    ensures ready { H.ready host.new }
    ensures stepped { H.steps host.old host_data.old entered.entry.body state.old event
        (looks (store_of store.entry) entered.entry.arguments.now entered.entry.stored.now entered.entry.replies.now entered.entry.caller)
        state.new result host.new host_data.new }
{
    let mut caller = Caller {
        host_data,
        store,
        instance: entered.caller,
        args: entered.arguments,
        stored: entered.stored,
        replies: entered.replies,
    };
    host.step(alloc, entered.body, &mut caller, state, event)
}
