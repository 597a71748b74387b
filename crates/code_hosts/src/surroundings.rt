ghost use Rattle.std.specs.Prelude.{◌≡◌, ℕ, Bool, IfOk, IfErr, OnErr, true};
ghost use Rattle.spec_machine.specs.Machine.{Machine};
ghost use Rattle.spec_execution.specs.Askings.{Question as Asked, Having, Passing, Answer as Given, Has, Passed, Stepped};
ghost use Rattle.wasm_host.specs.Activations.{activation_of};
ghost use Rattle.wasm_host.specs.Scopes.{scope_of};
ghost use Rattle.code_hosts.specs.Contexts.{IsFormedIn, IsSeenIn, KeepsStores, opened_in, stepping_in};
ghost use Rattle.code_hosts.specs.Operating.{AsksFor, Operates, Misses, Returns};
ghost use Rattle.code_hosts.specs.Replies.{is_told};
ghost use Rattle.code_hosts.specs.Room.{takes_memory, IsNotRefused};
ghost use Rattle.code_hosts.specs.declared.context.RunContext.{RunContext as Context};

use crate::context::RunContext;
use crate::operations::Operation;
use crate::replies::{How, Unfinished};
use code_run::Surroundings;
use spec_machine::Op;
use store_state::Held;
use wasm_host::{Activation, Answer, Event, Scope};
use wasm_meter::{CallHook, HookFailed};
use wasm_types::{OutOfMemory, ValType};
use wasm_values::Val;

/// What is outside of a call where the host has bodies, and whom it asks: whom code asks, who is told of the borders between
/// host and guest code, who steps the bodies of the host, and who does what their steps ask for.
///
/// No operation makes a function or an instance, so what a run reads stays as it is.
pub trait HostSurroundings: Surroundings {
    /// It is what is outside of such a call: a body of the host may be stepped, and an operation done on its store.
    ghost fits: { Self → Context → Type 0 };

    /// Tells of a border between host and guest code.
    fn ask_hook(&mut self, event: CallHook) -> Result<(), HookFailed>
        ensures { Self.moves self.old (Passing event) (Passed result) self.new };

    /// Whether the host has a body of this number.
    fn has_body(&self, body: usize) -> bool
        ensures { Self.moves self.now (Having body) (Has result) self.now };

    /// The next step of a body at work, which sees a store of the call with what is held now.
    fn ask_step(
        &mut self,
        context: &RunContext<'_>,
        held: &Held,
        activation: &mut Activation<'_>,
        event: Event,
    ) -> Result<Answer, OutOfMemory>
        requires fits { fits self.old context.now }
        ensures stepped { (base : Machine) → IsSeenIn context.now base →
            Self.moves self.old (stepping_in context.now base held.now (activation_of activation.old) event)
            (Stepped activation.new.state result) self.new }
        ensures rest { activation_of activation.new
            ≡ record (activation_of activation.old) { state = activation.new.state } };

    /// Does an operation whose names are looked up in this scope, in so many turns at most. `Unfinished` comes for want of
    /// memory alone: of an operation that takes memory, and is not refused.
    fn operate(
        &mut self,
        context: &RunContext<'_>,
        held: &mut Held,
        scope: &Scope<'_>,
        op: &Op,
        left: u64,
    ) -> Result<Operation, Unfinished>
        requires fits { fits self.old context.now }
        requires formed { IsFormedIn context.now held.old }
        ensures operates { IfOk result (λ d. Operates (opened_in context.now) context.now.program.now (AsksFor Self.moves)
            (scope_of scope.now) op.now held.old self.old left d held.new self.new) }
        ensures misses { IfErr result (λ u. Misses (opened_in context.now) context.now.program.now (AsksFor Self.moves)
            (scope_of scope.now) op.now held.old self.old left u.turns held.new self.new) }
        ensures room { OnErr result (takes_memory op.now ≡ true) }
        ensures met { OnErr result (IsNotRefused (opened_in context.now) held.old (scope_of scope.now) op.now) }
        ensures formed { IsFormedIn context.now held.new };

    /// What a body whose results are of these types ends with that returns these values: the values as the store holds
    /// them, or a refusal, where there are not as many, one is not of the store, or one is not of its type.
    fn returned(
        &mut self,
        context: &RunContext<'_>,
        held: &mut Held,
        types: &[ValType],
        vals: &[Val],
    ) -> Result<How, OutOfMemory>
        requires fits { fits self.old context.now }
        requires formed { IsFormedIn context.now held.old }
        ensures returns { IfOk result (λ how.
            Returns (opened_in context.now) types.now vals.now held.old how held.new) }
        ensures told { IfOk result (λ how. is_told how ≡ true) }
        ensures stays { KeepsStores (opened_in context.now) held.old held.new }
        ensures same { self.new ≡ self.old };

    /// The host says of each number whether it has such a body.
    ghost can_answer: { (w : Self) (body : ℕ) → (has : Bool) × Self.moves w (Having body) (Has has) w };

    /// It is so whatever is asked.
    ghost stays_fit: { (old : Self) (q : Asked) (a : Given) (new : Self) (context : Context) → Self.moves old q a new →
        fits old context → fits new context };
}
