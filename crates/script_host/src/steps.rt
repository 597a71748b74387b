ghost use Rattle.std.specs.Prelude.{◌≡◌, ◌+◌, ◌^◌, ◌++◌, ◌<◌, ◌≤◌, length, drop, slice_get, take, map, OnOk, OnErr, IfOk, string_bytes};
ghost use Rattle.spec_machine.specs.Names.{operand_values};
ghost use Rattle.wasm_host.specs.Scopes.{scope_of};
ghost use Rattle.script_host.specs.Notes.{note_text, notes_before, behind_notes};
ghost use Rattle.script_host.specs.ScriptSteps.{says, returned, from_place, place_behind, faults_after};

use crate::notes::{Sight, note};
use script_commands::Action;
use spec_execution::Answer;
use spec_machine::{Operand, ValList};
use std::alloc::Global;
use wasm_host::{Scope, operand_values};
use wasm_types::{Items, OutOfMemory};

/// Takes the notes up to the first other action, and answers the actions from that one on. Where there is no memory,
/// the notes of before still stand, and maybe some of these behind them.
#[tactic(auto, using(crate::proofs::NoteLemmas::begins, crate::proofs::NoteLemmas::takes, crate::proofs::NoteLemmas::kept_first, crate::proofs::NoteLemmas::all_taken, crate::proofs::NoteLemmas::all_behind, crate::proofs::NoteLemmas::other_behind, crate::proofs::NoteLemmas::other_before))]
pub(crate) fn take_notes<'a>(
    alloc: Global,
    notes: &mut Vec<String>,
    sight: Sight<'_>,
    actions: &'a [Action],
) -> Result<&'a [Action], OutOfMemory>
    ensures rest { IfOk result (λ rest. rest.now ≡ behind_notes actions.now) }
    ensures taken { OnOk result (map string_bytes notes.new.items ≡ map string_bytes notes.old.items
        ++ notes_before (note_text sight.entry.number sight.entry.arguments.now sight.entry.replies.now) actions.now) }
    ensures kept { OnErr result (take (length notes.old.items) notes.new.items ≡ notes.old.items) }
{
    let mut rest = actions;
    while let [first, tail @ ..] = rest {
        let Action::Note(parts) = first else {
            return Ok(rest);
        };
        let text = note(alloc, sight, parts.as_slice())?;
        notes.push(text)?;
        rest = tail;
    }
    Ok(rest)
}

/// What is returned, or that it fails where an operand gives no value.
fn returned(alloc: Global, scope: &Scope<'_>, operands: &[Operand]) -> Result<Answer, OutOfMemory>
    ensures { IfOk result (λ answer. answer ≡ returned (operand_values (scope_of scope.now) operands.now)) }
{
    match operand_values(alloc, scope, operands)? {
        Some(vals) => Ok(Answer::Return(ValList(vals))),
        None => Ok(Answer::Fail),
    }
}

/// What the first of these actions comes to, which is no note.
pub(crate) fn act(
    alloc: Global,
    scope: &Scope<'_>,
    actions: &[Action],
) -> Result<Answer, OutOfMemory>
    ensures { IfOk result (λ answer. answer ≡ says (scope_of scope.now) actions.now) }
{
    match actions.first() {
        Some(Action::Do(op)) => Ok(Answer::Call(op.copy(alloc)?)),
        Some(Action::Return(operands)) => returned(alloc, scope, operands.as_slice()),
        Some(Action::Fail) => Ok(Answer::Fail),
        Some(Action::Note(_)) => Ok(Answer::Return(ValList(Vec::new(alloc)))),
        None => Ok(Answer::Return(ValList(Vec::new(alloc)))),
    }
}

/// The actions from a place on; none past the last one.
fn behind(actions: &[Action], place: u64) -> &[Action]
    ensures rest { result.now ≡ drop place actions.now }
    ensures within { place + length result.now < 2 ^ 64 }
{
    if place >= actions.len() as u64 {
        return &[];
    }
    &actions[place as usize..]
}

/// The actions of a body from a place on; none where there is no such body.
pub(crate) fn actions_from(bodies: &Items<Items<Action>>, body: usize, place: u64) -> &[Action]
    ensures rest { result.now ≡ from_place place (slice_get bodies.now body) }
    ensures within { place + length result.now < 2 ^ 64 }
{
    match bodies.as_slice().get(body) {
        Some(actions) => behind(actions.as_slice(), place),
        None => &[],
    }
}

/// The place behind so many notes and the action behind them, where there is one.
pub(crate) fn place_after(place: u64, taken: usize, rest: &[Action]) -> u64
    requires { place + taken + length rest.now < 2 ^ 64 }
    ensures { result ≡ place_behind place taken rest.now }
{
    let behind = place + taken as u64;
    if rest.is_empty() { behind } else { behind + 1 }
}

/// The count of faults after an answer; it stops at 2^64 - 1.
pub(crate) fn faults_after(answer: &Answer, faults: u64) -> u64
    ensures counted { result ≡ faults_after answer.now faults }
    ensures never_falls { faults ≤ result }
{
    match answer {
        Answer::Fail => faults.saturating_add(1),
        _ => faults,
    }
}
