//! What is outside of code that runs on the objects of a store: the store, out of which they were taken, and with it a
//! host and a source of epochs.
ghost use Rattle.std.specs.Prelude.{◌≡◌};

use crate::body_operations::do_operation;
use crate::invocations::raw_values;
use crate::results::are_results;
use code_hosts::{HostSurroundings, How, Operation, RunContext, Unfinished};
use code_run::Surroundings;
use spec_machine::Op;
use std::mem;
use store_objects::SharedProgram;
use store_state::{GrowthQuestion, Held};
use wasm_host::{Activation, Answer, Event, HostBody, Scope, StoreView};
use wasm_meter::{
    BehaviourFailed, CallHook, CallHooks, DeadlineBehaviour, EpochFailed, EpochSource, HookFailed,
    HostData, LimiterFailed, UpdateDeadline,
};
use wasm_store::Store;
use wasm_store::parts::{ask, ask_behaviour, ask_hook, refill, set_turns, take_objects};
use wasm_types::{OutOfMemory, ValType};
use wasm_values::{Refusal, Val};

/// A store without its objects, lent with a host and a source of epochs for as long as a run on the objects lasts: its
/// limiter, its hook and its deadline behaviour are asked, and bodies of the host are stepped over its host data.
///
/// A hold of what the run reads is lent with them: an operation of a body moves it into the store with what the run
/// changes, and takes both out again, so that nobody more has to be counted.
#[derive(Drop)]
pub(crate) struct Outside<'s, T, K, B, H, E> {
    pub(crate) store: &'s mut Store<T, K, B>,
    pub(crate) host: &'s mut H,
    pub(crate) epochs: &'s mut E,
    pub(crate) program: &'s mut SharedProgram,
}

impl<'s, T, K, B, H, E> Outside<'s, T, K, B, H, E> {
    /// These, with a hold of what the run reads.
    pub(crate) fn new(
        store: &'s mut Store<T, K, B>,
        host: &'s mut H,
        epochs: &'s mut E,
        program: &'s mut SharedProgram,
    ) -> Outside<'s, T, K, B, H, E>
        ensures same_store { result.store.ghost_name ≡ store.entry.ghost_name }
        ensures same_host { result.host.ghost_name ≡ host.entry.ghost_name }
        ensures same_epochs { result.epochs.ghost_name ≡ epochs.entry.ghost_name }
        ensures same_hold { result.program.ghost_name ≡ program.entry.ghost_name }
        ensures store { result.store.now ≡ store.old }
        ensures host { result.host.now ≡ host.old }
        ensures epochs { result.epochs.now ≡ epochs.old }
        ensures program { result.program.now ≡ program.old }
    {
        Outside {
            store,
            host,
            epochs,
            program,
        }
    }
}

impl<
    T: HostData,
    K: CallHooks<T>,
    B: DeadlineBehaviour<T>,
    H: HostBody<T>,
    E: EpochSource,
> Surroundings for Outside<'_, T, K, B, H, E> {
    ghost use Rattle.code_hosts.specs.Asked.{asked};
    ghost use Rattle.wasm_call.specs.Asking.{Goes};

    ghost moves = { Goes (asked T.growths H.has K.hooks B.behaves E.readings H.steps) H.ready };

    /// Asks the limiter of the store.
    fn ask_growth(&mut self, question: GrowthQuestion) -> Result<bool, LimiterFailed> {
        ask(self.store, &question)
    }

    /// The present epoch.
    fn read_epoch(&mut self) -> Result<u64, EpochFailed> {
        self.epochs.current()
    }

    /// Asks the deadline behaviour of the store.
    fn ask_behaviour(&mut self) -> Result<UpdateDeadline, BehaviourFailed> {
        ask_behaviour(self.store)
    }
}

impl<
    T: HostData,
    K: CallHooks<T>,
    B: DeadlineBehaviour<T>,
    H: HostBody<T>,
    E: EpochSource,
> HostSurroundings for Outside<'_, T, K, B, H, E> {
    ghost use Rattle.code_hosts.specs.Asked.{asked};
    ghost use Rattle.wasm_call.specs.Asking.{IsFit, can_answer, stays_fit};

    ghost fits = { IsFit H.ready };

    /// Tells the hook of the store.
    fn ask_hook(&mut self, event: CallHook) -> Result<(), HookFailed> {
        ask_hook(self.store, event)
    }

    /// Asks the host.
    fn has_body(&self, body: usize) -> bool {
        self.host.has(body)
    }

    /// Steps a body of the host over the host data of the store.
    fn ask_step(
        &mut self,
        context: &RunContext<'_>,
        held: &Held,
        activation: &mut Activation<'_>,
        event: Event,
    ) -> Result<Answer, OutOfMemory> {
        let view = StoreView {
            id: context.id,
            engine: context.engine,
            program: context.program,
            held,
        };
        activation.step(context.alloc, self.host, self.store.data_mut(), view, event)
    }

    /// Does an operation on the store, into which the objects are put meanwhile.
    fn operate(
        &mut self,
        context: &RunContext<'_>,
        held: &mut Held,
        scope: &Scope<'_>,
        op: &Op,
        left: u64,
    ) -> Result<Operation, Unfinished> {
        let alloc = context.alloc;
        let turns = self.store.turns();
        let program = mem::replace(self.program, SharedProgram::new(alloc));
        refill(self.store, program, mem::replace(held, Held::new(alloc)));
        set_turns(self.store, 0);
        let done = do_operation(self.store, self.epochs, scope, op, left);
        set_turns(self.store, turns);
        let parts = take_objects(self.store).into_parts();
        *self.program = parts.program;
        *held = parts.held;
        done
    }

    /// The values as the store holds them, or a refusal.
    fn returned(
        &mut self,
        context: &RunContext<'_>,
        held: &mut Held,
        types: &[ValType],
        vals: &[Val],
    ) -> Result<How, OutOfMemory> {
        if !are_results(self.program, context, held, types, vals) {
            return Ok(How::Refused(Refusal::HostResultType));
        }
        let raws = raw_values(context.alloc, vals)?;
        Ok(How::Returned(raws))
    }

    ghost can_answer = { λ w body.
        can_answer (asked T.growths H.has K.hooks B.behaves E.readings H.steps) H.ready w body };

    ghost stays_fit = { λ old q a new context.
        stays_fit (asked T.growths H.has K.hooks B.behaves E.readings H.steps) H.ready old q a new context };
}
