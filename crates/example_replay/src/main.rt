//! A run that is told again: the host of a session deals other numbers in each run, and one run is recorded. The tape is
//! written in JSON, read again, and a new store runs the same session by the tape alone, without the host. A tape with
//! one answer changed shows where the session left it.
#![tactic(auto)]

mod dealer;
mod deck;
mod fault;

use dealer::{BODIES, Dealer};
use deck::{Deck, session};
use fault::Fault;
use script_lines::append_line;
use serde_json::Value;
use std::alloc::Global as Heap;
use std::io;
use wasm_embedding::{CountEpochs, OutOfMemory, Reply, StoreIds, plain_store};
use wasm_replay::{Recorded, ReplayEnd, Replayed, record_commands, replay_commands};
use wasm_session::Replies;
use wasm_tape::Tape;

/// Room for the limiter's answers and for the readings of the epoch, of which this session has none.
const ROOM: usize = 8;

/// How many instances, memories and tables a replay may make.
const LIMIT: usize = 8;

/// The tape of a session, on which the second number is another one: the guest takes it for an even one.
const CHANGED: &str = r#"{
  "growths": [],
  "readings": [],
  "steps": [
    {"body": 0, "state": 0, "event": "start", "answer": {"return": [{"i32": 40}]}, "next": 0},
    {"body": 2, "state": 0, "event": "start", "answer": {"return": []}, "next": 0},
    {"body": 0, "state": 0, "event": "start", "answer": {"return": [{"i32": 44}]}, "next": 0},
    {"body": 1, "state": 0, "event": "start", "answer": {"return": []}, "next": 0}
  ]
}"#;

fn lines(alloc: Heap, replies: &[Reply]) -> Result<String, OutOfMemory> {
    let mut text = String::new(alloc);
    for reply in replies {
        append_line(alloc, &mut text, reply)?;
    }
    Ok(text)
}

/// A run that was recorded: its lines, and its tape.
#[derive(Drop)]
struct Run {
    lines: String,
    tape: Tape,
}

/// Runs the session over a host that deals from this number on.
fn record(alloc: Heap, deck: &Deck, first: i32) -> Result<Run, Fault> {
    let host_data = Recorded::new(alloc, (), ROOM)?;
    let mut store = plain_store(alloc, &mut StoreIds::new(), host_data);
    let mut replies = Replies::new(alloc);
    let taped = record_commands(
        alloc,
        &mut store,
        deck.modules.as_slice(),
        &mut Dealer { next: first },
        BODIES,
        &mut CountEpochs::new(),
        ROOM,
        deck.commands.as_slice(),
        &mut replies,
    );
    store.into_data();
    match taped {
        Ok(tape) => Ok(Run {
            lines: lines(alloc, replies.as_slice())?,
            tape,
        }),
        Err(_) => Err(Fault::NoTape),
    }
}

/// A replay: its lines, and how it ended.
#[derive(Drop)]
struct Told {
    lines: String,
    end: ReplayEnd,
}

/// Runs the session by this tape alone.
fn replay(alloc: Heap, deck: &Deck, tape: &Tape) -> Result<Told, Fault> {
    let host_data = Replayed::new(alloc, tape, LIMIT, LIMIT, LIMIT)?;
    let mut store = plain_store(alloc, &mut StoreIds::new(), host_data);
    let mut replies = Replies::new(alloc);
    let ended = replay_commands(
        alloc,
        &mut store,
        deck.modules.as_slice(),
        tape,
        BODIES,
        deck.commands.as_slice(),
        &mut replies,
    );
    store.into_data();
    match ended {
        Ok(end) => Ok(Told {
            lines: lines(alloc, replies.as_slice())?,
            end,
        }),
        Err(_) => Err(Fault::Unfinished),
    }
}

fn written(alloc: Heap, tape: &Tape) -> Result<String, Fault> {
    Ok(tape.to_value(alloc, &[])?.to_string(alloc)?)
}

/// The tape of this text.
fn read(alloc: Heap, text: &str) -> Result<Tape, Fault> {
    let Ok(value) = Value::from_str(alloc, text) else {
        return Err(Fault::NoTape);
    };
    Ok(Tape::from_value(alloc, &[], &value)?)
}

/// What is shown: two runs, the first one's tape, its replay, and that of the changed tape.
#[derive(Drop)]
struct Shown {
    first: String,
    second: String,
    tape: String,
    told: Told,
    changed: Told,
}

fn show(alloc: Heap) -> Result<Shown, Fault> {
    let deck = session(alloc)?;
    let first = record(alloc, &deck, 40)?;
    let second = record(alloc, &deck, 71)?;
    let tape = written(alloc, &first.tape)?;
    let told = replay(alloc, &deck, &read(alloc, tape.as_str())?)?;
    let changed = replay(alloc, &deck, &read(alloc, CHANGED)?)?;
    Ok(Shown {
        first: first.lines,
        second: second.lines,
        tape,
        told,
        changed,
    })
}

fn main(rt: HostRuntime) -> io::Result<()> {
    let shown = match show(rt.alloc()) {
        Ok(shown) => shown,
        Err(fault) => return println!(rt; "{fault:?}"),
    };
    println!(rt;
        "a run\n{}another run\n{}the tape of the first\n{}",
        shown.first, shown.second, shown.tape
    )?;
    println!(rt; "its replay\n{}{:?}", shown.told.lines, shown.told.end)?;
    println!(rt;
        "a changed tape\n{}{:?}",
        shown.changed.lines, shown.changed.end
    )
}
