ghost use Rattle.std.specs.Prelude.{◌≡◌, ◌≤◌, [], length, take, map, string_bytes, OnErr, IfOk};

use crate::notes::Sight;
use crate::steps::{act, actions_from, faults_after, place_after, take_notes};
use script_commands::Action;
use script_data::ScriptData;
use spec_execution::{Answer, Event};
use std::alloc::Global;
use std::marker::Model;
use wasm_host::{Caller, HostBody, Scope};
use wasm_types::{Items, OutOfMemory};
use wasm_values::Extern;

/// The host of a script: its bodies, each a list of actions, and the notes that they took.
///
/// Each step takes notes up to the first other action, and does that one; at the end of the list the body returns no
/// values.
#[derive(Drop)]
pub struct ScriptHost {
    bodies: Items<Items<Action>>,
    faults: u64,
    notes: Vec<String>,
}

impl Model for ScriptHost {
    ghost use Rattle.std.specs.Prelude.{map, string_bytes};
    ghost use Rattle.script_host.specs.HostCodes.{host_code};
    ghost use Rattle.script_host.specs.ScriptSteps.{HostParts, host_parts};

    ghost Value = { HostParts };

    ghost coded = { host_code };

    ghost view = { λ h. host_parts h.bodies h.faults (map string_bytes h.notes.items) };
}

impl ScriptHost {
    ghost use Rattle.script_host.specs.ScriptSteps.{host_parts, Goes};

    /// A host of these bodies, which took no notes yet. It takes no memory.
    pub fn new(alloc: Global, bodies: Items<Items<Action>>) -> ScriptHost
        ensures { result ≡ host_parts bodies 0 [] }
    {
        ScriptHost {
            bodies,
            faults: 0,
            notes: Vec::new(alloc),
        }
    }

    /// The notes that were taken, the first one first.
    pub fn notes(&self) -> &[String]
        ensures { map string_bytes result.now ≡ self.now.notes }
    {
        self.notes.as_slice()
    }

    /// How often a body has failed; it stops at 2^64 - 1.
    pub fn faults(&self) -> u64
        ensures { result ≡ self.now.faults }
    {
        self.faults
    }

    // A step but for the notes of one that has no memory, some of which may stand behind those of before.
    #[tactic(auto, using(crate::proofs::HostLemmas::goes, crate::proofs::HostLemmas::taken_count))]
    fn go(
        &mut self,
        alloc: Global,
        body: usize,
        sight: Sight<'_>,
        stored: &[Extern],
        state: &mut u64,
    ) -> Result<Answer, OutOfMemory>
        ensures goes { IfOk result (λ answer. Goes self.old sight.entry.number sight.entry.arguments.now sight.entry.replies.now stored.now
            body state.old answer state.new self.new) }
        ensures state { OnErr result (state.new ≡ state.old) }
        ensures bodies { self.new.bodies ≡ self.old.bodies }
        ensures faults { OnErr result (self.new.faults ≡ self.old.faults) }
        ensures notes { OnErr result (take (length self.old.notes) self.new.notes ≡ self.old.notes) }
        ensures never_falls { self.old.faults ≤ self.new.faults }
    {
        let before = self.notes.len();
        let actions = actions_from(&self.bodies, body, *state);
        let rest = take_notes(alloc, &mut self.notes, sight, actions)?;
        let scope = Scope {
            replies: sight.replies,
            arguments: sight.arguments,
            stored,
            caller: None,
        };
        let answer = act(alloc, &scope, rest)?;
        *state = place_after(*state, self.notes.len() - before, rest);
        self.faults = faults_after(&answer, self.faults);
        Ok(answer)
    }

    /// A step over what it sees, whatever the host's data keep beside their number, as those of a recording do. Where it has
    /// no memory nothing changes.
    pub fn step_on(
        &mut self,
        alloc: Global,
        body: usize,
        sight: Sight<'_>,
        stored: &[Extern],
        state: &mut u64,
    ) -> Result<Answer, OutOfMemory>
        ensures goes { IfOk result (λ answer. Goes self.old sight.entry.number sight.entry.arguments.now sight.entry.replies.now stored.now
            body state.old answer state.new self.new) }
        ensures short { OnErr result ((self.new ≡ self.old) × (state.new ≡ state.old)) }
        ensures never_falls { self.old.faults ≤ self.new.faults }
    {
        let before = self.notes.len();
        match self.go(alloc, body, sight, stored, state) {
            Ok(answer) => Ok(answer),
            Err(fault) => {
                self.notes.truncate(before);
                Err(fault)
            }
        }
    }
}

impl HostBody<ScriptData> for ScriptHost {
    ghost use Rattle.std.specs.Prelude.{length, nat_lt};
    ghost use Rattle.script_host.specs.ScriptSteps.{Steps};
    ghost use Rattle.script_host.specs.StepLaws.{steps_keep, steps_fail};

    ghost ready = { λ _. Unit {0} };

    ghost has = { λ h body. nat_lt body (length h.bodies) };

    ghost steps = { λ h s body place cause view after say k t. Steps h s body place view after say k t };

    ghost host_faults = { λ h. h.faults };

    ghost steps_keep = { λ h k s t body place after cause view say g. steps_keep h k s t body place after view say g };

    ghost steps_fail = { λ h k s t body place after cause view g. steps_fail h k s t body place after view g };

    /// Whether the script has so many bodies and one more.
    fn has(&self, body: usize) -> bool {
        body < self.bodies.len()
    }

    /// Takes notes up to the first other action from the place `state` on, does that one, and leaves the place behind
    /// it.
    #[tactic(auto, using(crate::proofs::HostLemmas::steps_of))]
    fn step(
        &mut self,
        alloc: Global,
        body: usize,
        caller: &mut Caller<'_, ScriptData>,
        state: &mut u64,
        _event: Event,
    ) -> Result<Answer, OutOfMemory> {
        let sight = Sight {
            number: caller.data().number(),
            arguments: caller.args(),
            replies: caller.replies(),
        };
        self.step_on(alloc, body, sight, caller.stored(), state)
    }
}
