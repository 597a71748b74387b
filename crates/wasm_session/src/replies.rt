ghost use Rattle.std.specs.Prelude.{◌≡◌, ◌+◌, [], length, slice_get, IfErr, OnOk, OnErr};
ghost use Rattle.std.specs.Option.{option_copied};
ghost use Rattle.wasm_call.specs.Outside.{asked, surrounded};
ghost use Rattle.wasm_call.specs.Runs.{Steps, Breaks};
ghost use Rattle.wasm_session.specs.Short.{CommandShort};

use crate::commands::{Unfinished, perform};
use spec_machine::Command;
use std::alloc::Global;
use std::marker::Model;
use wasm_call::{HostBody, Reply};
use wasm_meter::{CallHooks, DeadlineBehaviour, EpochSource, HostData};
use wasm_module::Module;
use wasm_store::Store;
use wasm_store::parts::set_turns;

/// The replies of finished commands, in order.
#[derive(Drop)]
pub struct Replies {
    list: Vec<Reply>,
}

impl Model for Replies {
    ghost use Rattle.std.specs.Prelude.{List};
    ghost use Rattle.spec_machine.specs.declared.reply.Reply.{Reply};

    ghost Value = { List Reply };

    ghost view = { λ r. r.list.items };
}

impl Replies {
    /// No replies. It takes no memory.
    pub fn new(alloc: Global) -> Replies
        ensures { result ≡ [] }
    {
        Replies {
            list: Vec::new(alloc),
        }
    }

    /// How many replies there are.
    pub fn len(&self) -> usize
        ensures { result ≡ length self.now }
    {
        self.list.len()
    }

    /// The reply at a place, counted from 0; `None` exactly past the last one.
    pub fn get(&self, place: usize) -> Option<&Reply>
        ensures { option_copied result ≡ slice_get self.now place }
    {
        self.list.get(place)
    }

    /// The replies, lent.
    pub fn as_slice(&self) -> &[Reply]
        ensures { result.now ≡ self.now }
    {
        self.list.as_slice()
    }

    /// Does one outermost command over the modules of the session, and adds its reply, whose place is made first.
    pub(crate) fn answer<
        T: HostData,
        K: CallHooks<T>,
        B: DeadlineBehaviour<T>,
        H: HostBody<T>,
        E: EpochSource,
    >(
        &mut self,
        store: &mut Store<T, K, B>,
        modules: &[Module],
        host: &mut H,
        epochs: &mut E,
        command: &Command,
    ) -> Result<(), Unfinished>
        requires ready { H.ready host.old }
        ensures ready { H.ready host.new }
        ensures done { OnOk result (Steps (asked T.growths H.has K.hooks B.behaves E.readings H.steps) modules.now command.now
            (surrounded store.old host.old epochs.old) self.old (surrounded store.new host.new epochs.new) self.new) }
        ensures answered { OnOk result (length self.new ≡ length self.old + 1) }
        ensures unfinished { IfErr result (λ unfinished. Breaks (asked T.growths H.has K.hooks B.behaves E.readings H.steps) modules.now
            command.now unfinished.turns
            (surrounded store.old host.old epochs.old) self.old (surrounded store.new host.new epochs.new) self.new) }
        ensures short { OnErr result (CommandShort (asked T.growths H.has K.hooks B.behaves E.readings H.steps) modules.now self.old
            command.now (surrounded store.old host.old epochs.old) (surrounded store.new host.new epochs.new)) }
        ensures engine { store.new.machine.engine ≡ store.old.machine.engine }
    {
        let Ok(()) = self.list.reserve(1) else {
            store.keeps_well_formed();
            set_turns(store, 0);
            return Err(Unfinished { turns: 0 });
        };
        match perform(store, modules, host, epochs, self.list.as_slice(), command) {
            Ok(reply) => {
                self.list.push_reserved(reply);
                Ok(())
            }
            Err(_) => Err(Unfinished {
                turns: store.turns(),
            }),
        }
    }
}
