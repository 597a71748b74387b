ghost use Rattle.std.specs.Prelude.{◌≡◌, ◌≤◌, [], length, map, slice_get, string_bytes, vec_capacity, OnOk, OnErr};
ghost use Rattle.std.specs.Option.{option_copied};
ghost use Rattle.script_commands.specs.declared.engine.ScriptEngine.{ScriptEngine};
ghost use Rattle.script_commands.specs.declared.host_answers.HostAnswers.{HostAnswers};
ghost use Rattle.wasm_run.specs.SessionViews.{parts_of};
ghost use Rattle.wasm_run.specs.Sessions.{empty, events_in, script_parts, HasRun, HasStopped};
ghost use Rattle.wasm_run.specs.Starts.{Starts};

use crate::lines::Noted;
use crate::noting::run_noted;
use crate::store::ScriptStore;
use script_commands::Action;
use script_host::ScriptHost;
use spec_machine::Command;
use std::alloc::Global;
use wasm_meter::{CallHook, EpochSource};
use wasm_module::Module;
use wasm_session::Replies;
use wasm_types::{Items, OutOfMemory};

/// What a session holds: its store once there is one, the host of its script, the replies of its finished commands, and how
/// many notes the host had when each of these was finished.
#[derive(Drop)]
pub struct Session {
    alloc: Global,
    store: Option<ScriptStore>,
    host: ScriptHost,
    replies: Replies,
    notes_after: Vec<usize>,
    turns: u64,
}

impl Session {
    /// An empty session: no store, a host without bodies, and no replies. It takes no memory.
    pub fn new(alloc: Global) -> Session
        ensures { parts_of result ≡ empty }
    {
        Session {
            alloc,
            store: None,
            host: ScriptHost::new(alloc, Items(Vec::new(alloc))),
            replies: Replies::new(alloc),
            notes_after: Vec::new(alloc),
            turns: 0,
        }
    }

    /// The store, once the commands of a script began to run.
    pub fn store(&self) -> Option<&ScriptStore>
        ensures { option_copied result ≡ (parts_of self.now).store }
    {
        self.store.as_ref()
    }

    /// The host: of the script's bodies, once its commands began to run, with the notes that they took.
    pub fn host(&self) -> &ScriptHost
        ensures { result.now ≡ (parts_of self.now).host }
    {
        &self.host
    }

    /// How many notes the host had when the command at this place was finished; `None` exactly past the last finished one.
    pub fn notes_after(&self, place: usize) -> Option<usize>
        ensures { result ≡ slice_get (parts_of self.now).notes_after place }
    {
        self.notes_after.get(place).copied()
    }

    /// The replies of the finished commands, in order.
    pub fn replies(&self) -> &Replies
        ensures { result.now ≡ (parts_of self.now).replies }
    {
        &self.replies
    }

    /// How many turns the unfinished command made; 0 where no command is unfinished.
    pub fn turns(&self) -> u64
        ensures { result ≡ (parts_of self.now).turns }
    {
        self.turns
    }

    /// The events that the store's data kept, in order; none where there is no store.
    pub(crate) fn events(&self) -> &[CallHook]
        ensures { result.now ≡ events_in (parts_of self.now).store }
    {
        match &self.store {
            Some(store) => store.data().events(),
            None => &[],
        }
    }

    /// What its lines are written of.
    pub(crate) fn noted(&self) -> Noted<'_>
        ensures replies { result.replies.now ≡ (parts_of self.now).replies }
        ensures notes_after { result.notes_after.now ≡ (parts_of self.now).notes_after }
        ensures notes { map string_bytes result.notes.now ≡ (parts_of self.now).host.notes }
    {
        Noted {
            replies: self.replies.as_slice(),
            notes_after: self.notes_after.as_slice(),
            notes: self.host.notes(),
        }
    }

    /// Runs the commands over the modules, from the store of a script before its first command and with a host of these
    /// bodies. In `notes_after` there is room for the counts. `Store::turns` tells the turns of the last one.
    pub(crate) fn run<E: EpochSource>(
        &mut self,
        mut store: ScriptStore,
        bodies: Items<Items<Action>>,
        mut notes_after: Vec<usize>,
        epochs: &mut E,
        modules: &[Module],
        commands: &[Command],
    ) -> Result<(), OutOfMemory>
        requires empty { notes_after.items ≡ [] }
        requires room { length commands.now ≤ vec_capacity notes_after }
        ensures done { OnOk result ((engine : ScriptEngine) (answers : HostAnswers) → Starts engine answers store
            → HasRun E.readings (script_parts engine modules.now answers bodies commands.now) epochs.old epochs.new
            (parts_of self.new)) }
        ensures failed { OnErr result ((engine : ScriptEngine) (answers : HostAnswers) → Starts engine answers store
            → HasStopped E.readings (script_parts engine modules.now answers bodies commands.now) epochs.old epochs.new
            (parts_of self.new)) }
    {
        let mut host = ScriptHost::new(self.alloc, bodies);
        let mut replies = Replies::new(self.alloc);
        let ended = run_noted(
            &mut store,
            modules,
            &mut host,
            epochs,
            commands,
            &mut replies,
            &mut notes_after,
        );
        self.store = Some(store);
        self.host = host;
        self.replies = replies;
        self.notes_after = notes_after;
        match ended {
            Ok(()) => {
                self.turns = 0;
                Ok(())
            }
            Err(unfinished) => {
                self.turns = unfinished.turns;
                Err(OutOfMemory)
            }
        }
    }
}
