//! The session that is run: a guest that has the host deal numbers, in the format of a session's script.

use crate::fault::Fault;
use script_commands::{Script, read_script};
use spec_machine::Command;
use std::alloc::Global as Heap;
use wasm_embedding::{Module, ModuleDecl};
use wasm_types::Items;

/// The guest has `deal` give a number, which is the host's body 0; it hands the number to the body 1 where it is odd and to
/// the body 2 where it is even, and gives it back. The session plays twice.
const SCRIPT: &str = r#"{
  "types": [{"results": ["i32"]}, {"params": ["i32"]}, {}],
  "modules": [{
    "imports": [
      {"module": "host", "name": "deal", "func": 0},
      {"module": "host", "name": "odd", "func": 1},
      {"module": "host", "name": "even", "func": 1}
    ],
    "functions": [
      {"type": 0, "locals": ["i32"], "code": [
        ["call", 0], ["local.set", 0],
        ["local.get", 0], ["i32.const", 1], ["i32.and"],
        ["if", 2, [["local.get", 0], ["call", 1]], [["local.get", 0], ["call", 2]]],
        ["local.get", 0]
      ]}
    ],
    "exports": [{"name": "play", "func": 3}]
  }],
  "commands": [
    {"do": "func_new", "type": 0, "body": 0},
    {"do": "func_new", "type": 1, "body": 1},
    {"do": "func_new", "type": 1, "body": 2},
    {"do": "instantiate", "module": 0, "imports": [0, 1, 2]},
    {"do": "get_export", "instance": 3, "name": "play"},
    {"do": "call", "func": 4},
    {"do": "call", "func": 4}
  ]
}"#;

/// The modules of a session, and its commands.
#[derive(Drop)]
pub(crate) struct Deck {
    pub(crate) modules: Vec<Module>,
    pub(crate) commands: Items<Command>,
}

fn modules_of(alloc: Heap, decls: Items<ModuleDecl>) -> Result<Vec<Module>, Fault> {
    let mut modules = Vec::new(alloc);
    for decl in decls.into_vec() {
        let Ok(module) = Module::validate(alloc, decl) else {
            return Err(Fault::NoSession);
        };
        let Ok(()) = modules.push(module) else {
            return Err(Fault::OutOfMemory);
        };
    }
    Ok(modules)
}

fn session_of(alloc: Heap, script: Script) -> Result<Deck, Fault> {
    Ok(Deck {
        modules: modules_of(alloc, script.modules)?,
        commands: script.commands,
    })
}

/// The session of `SCRIPT`.
pub(crate) fn session(alloc: Heap) -> Result<Deck, Fault> {
    match read_script(alloc, SCRIPT.as_bytes()) {
        Ok(script) => session_of(alloc, script),
        Err(_) => Err(Fault::NoSession),
    }
}
