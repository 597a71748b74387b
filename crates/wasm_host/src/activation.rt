ghost use Rattle.std.specs.Prelude.{◌≡◌, [], OnOk, OnErr, IfOk};
ghost use Rattle.spec_machine.specs.Machine.{Machine};
ghost use Rattle.spec_execution.specs.Activations as execution;
ghost use Rattle.spec_execution.specs.Entering as entering;
ghost use Rattle.wasm_host.specs.Activations.{activation_of};
ghost use Rattle.store_state.specs.Machine.{run_machine};
ghost use Rattle.wasm_host.specs.Scopes.{scope_of};
ghost use Rattle.wasm_host.specs.StoreViews.{IsSeen};

use crate::bodies::HostBody;
use crate::names::Scope;
use crate::stepping::{Entered, step};
use crate::store_view::StoreView;
use crate::values::values_at;
use spec_execution::{Answer, Event};
use spec_machine::Reply;
use std::alloc::Global;
use wasm_meter::HostData;
use wasm_objects::RawVal;
use wasm_types::{FuncType, OutOfMemory, ValType};
use wasm_values::{Extern, Instance, StoreId, Val};

/// A function of the host at work: the number of its body, the state of that, the types of its results, what it was
/// called with, what is stored with it, the replies to its operations so far, the number of the instance whose code
/// called it, where code did, and how many functions are open around it.
#[derive(Drop)]
pub struct Activation<'p> {
    pub body: usize,
    pub state: u64,
    pub results: &'p [ValType],
    pub arguments: Vec<Val>,
    pub stored: &'p [Extern],
    pub replies: Vec<Reply>,
    pub caller: Option<usize>,
    pub depth: usize,
}

impl<'p> Activation<'p> {
    /// A function of the host of this type, as it is entered: it was not stepped yet. `id` is that of the store whose
    /// values these are.
    pub fn enter(
        alloc: Global,
        id: StoreId,
        ty: &'p FuncType,
        body: usize,
        stored: &'p [Extern],
        arguments: &[RawVal],
        caller: Option<usize>,
        depth: usize,
    ) -> Result<Activation<'p>, OutOfMemory>
        ensures { IfOk result (λ a. (m : Machine) → m.id ≡ id →
            activation_of a ≡ entering.activation m depth ty.now body stored.now arguments.now caller) }
    {
        Ok(Activation {
            body,
            state: 0,
            results: ty.results(),
            arguments: values_at(alloc, id, ty.params(), arguments)?,
            stored,
            replies: Vec::new(alloc),
            caller,
            depth,
        })
    }

    /// Where the names in its operations are looked up, in a store of this id.
    pub fn scope(&self, id: StoreId) -> Scope<'_>
        ensures { (m : Machine) → m.id ≡ id → scope_of result ≡ execution.scope_of m (activation_of self.now) }
    {
        Scope {
            replies: self.replies.as_slice(),
            arguments: self.arguments.as_slice(),
            stored: self.stored,
            caller: match self.caller {
                Some(number) => Some(Instance::from_parts(id, number)),
                None => None,
            },
        }
    }

    /// The next step of its body.
    pub fn step<T: HostData, H: HostBody<T>>(
        &mut self,
        alloc: Global,
        host: &mut H,
        host_data: &mut T,
        store: StoreView<'_>,
        event: Event,
    ) -> Result<Answer, OutOfMemory>
        requires { H.ready host.old }
        ensures ready { H.ready host.new }
        ensures stepped { (base : Machine) → IsSeen store.entry base →
            H.steps host.old host_data.old self.old.body self.old.state event
            (execution.view (run_machine base store.entry.program.now store.entry.held.now) (activation_of self.old))
            self.new.state result host.new host_data.new }
        ensures rest { activation_of self.new ≡ record (activation_of self.old) { state = self.new.state } }
    {
        let entered = Entered {
            body: self.body,
            arguments: self.arguments.as_slice(),
            stored: self.stored,
            replies: self.replies.as_slice(),
            caller: self.caller,
        };
        step(
            alloc,
            host,
            host_data,
            store,
            entered,
            &mut self.state,
            event,
        )
    }

    /// Adds the reply to its operation.
    pub fn reply(&mut self, reply: Reply) -> Result<(), OutOfMemory>
        ensures added { OnOk result (activation_of self.new ≡ execution.replied (activation_of self.old) reply) }
        ensures short { OnErr result (activation_of self.new ≡ activation_of self.old) }
    {
        self.replies.push(reply)?;
        Ok(())
    }
}
