//! The modules of these tests. A module is a text that the reader of modules reads, but for the one whose blocks are
//! nested deeper than JSON may be.
use crate::tests::ENGINE;
use script_json::json_of;
use script_modules::read_module;
use script_types::types_of;
use serde_json::Value;
use std::alloc::Global as Heap;
use std::process::Abort;
use wasm_module::{
    Block, EntityIndex, ExportDecl, FuncDecl, Instr, Module, ModuleDecl, ModuleFault,
};
use wasm_types::{FuncType, Items, Text};

/// What a test lacks where it can't be done.
const MEMORY: &str = "memory for the test";

/// A function that gives its argument twice.
pub const TWICE: &str =
    r#"{"types":[{"params":["i32"],"results":["i32","i32"]}],"module":{"functions":[{"type":0,"code":[["local.get",0],["local.get",0]]}],"exports":[{"name":"f","func":0}]}}"#;

/// An object of each kind, exported by a letter.
pub const OBJECTS: &str =
    r#"{"types":[{}],"module":{"functions":[{"type":0}],"globals":[{"val":"i32","mut":true,"init":["i32.const",5]}],"tables":[{"ref":"externref","min":1}],"memories":[{"min":1}],"tags":[0],"exports":[{"name":"f","func":0},{"name":"g","global":0},{"name":"t","table":0},{"name":"m","memory":0},{"name":"e","tag":0}]}}"#;

/// Functions of no code, of a trap, and of a loop of as many rounds as the argument says: the loop takes one
/// instruction, and each round five.
pub const ROUNDS: &str =
    r#"{"types":[{},{"params":["i32"]}],"module":{"functions":[{"type":0},{"type":0,"code":[["unreachable"]]},{"type":1,"code":[["loop",0,[["local.get",0],["i32.const",1],["i32.sub"],["local.tee",0],["br_if",0]]]]}],"exports":[{"name":"f","func":0},{"name":"trap","func":1},{"name":"rounds","func":2}]}}"#;

/// A function that is imported, and called by the start function.
pub const STARTS: &str =
    r#"{"types":[{}],"module":{"imports":[{"module":"h","name":"f","func":0}],"functions":[{"type":0,"code":[["call",0]]}],"exports":[{"name":"f","func":0},{"name":"go","func":1}],"start":1}}"#;

/// A function that calls the one that it imports on its argument, and a memory.
pub const HOSTED: &str =
    r#"{"types":[{"params":["i32"],"results":["i32"]}],"module":{"imports":[{"module":"h","name":"f","func":0}],"memories":[{"min":1}],"functions":[{"type":0,"code":[["local.get",0],["call",0]]}],"exports":[{"name":"f","func":1},{"name":"m","memory":0}]}}"#;

/// A function that writes a byte into a memory.
pub const WRITES: &str =
    r#"{"types":[{}],"module":{"memories":[{"min":1}],"functions":[{"type":0,"code":[["i32.const",0],["i32.const",255],["i32.store8",0,0]]}],"exports":[{"name":"f","func":0},{"name":"m","memory":0}]}}"#;

/// A function that calls the one that it imports, puts the function that it is given into a table and calls it there; then
/// it writes a byte into a memory.
pub const CALLS_WHAT_IT_IS_GIVEN: &str =
    r#"{"types":[{},{"results":["funcref"]}],"module":{"imports":[{"module":"h","name":"f","func":1}],"tables":[{"ref":"funcref","min":1}],"memories":[{"min":1}],"functions":[{"type":0,"code":[["i32.const",0],["call",0],["table.set",0],["i32.const",0],["call_indirect",0,0],["i32.const",0],["i32.const",1],["i32.store8",0,0]]}],"exports":[{"name":"f","func":1},{"name":"m","memory":0}]}}"#;

/// A loop without an end that counts its rounds in a global.
pub const COUNTS: &str =
    r#"{"types":[{}],"module":{"globals":[{"val":"i32","mut":true,"init":["i32.const",0]}],"functions":[{"type":0,"code":[["loop",0,[["global.get",0],["i32.const",1],["i32.add"],["global.set",0],["br",0]]]]}],"exports":[{"name":"f","func":0},{"name":"g","global":0}]}}"#;

/// A table of four places whose first two an element segment writes.
pub const LAZY: &str =
    r#"{"types":[{"results":["i32"],"final":false},{"results":["i32"],"super":0},{"params":["i32"],"results":["i32"]},{}],"module":{"functions":[{"type":1,"code":[["i32.const",7]]},{"type":3,"code":[]},{"type":2,"code":[["local.get",0],["call_indirect",0,0]]}],"tables":[{"ref":"funcref","min":4}],"elements":[{"ref":"funcref","table":0,"offset":["i32.const",0],"items":[["ref.func",0],["ref.func",1]]}],"exports":[{"name":"f","func":2}]}}"#;

/// Two functions, a table of two places with a segment that writes the first, a memory, a global, and a segment of a null
/// and of the second function, which is kept.
pub const LINKED: &str =
    r#"{"types":[{}],"module":{"functions":[{"type":0},{"type":0}],"globals":[{"val":"i32","mut":true,"init":["i32.const",5]}],"tables":[{"ref":"funcref","min":2}],"memories":[{"min":1}],"elements":[{"ref":"funcref","table":0,"offset":["i32.const",0],"items":[["ref.func",0]]},{"ref":"funcref","items":[["ref.null","func"],["ref.func",1]]}]}}"#;

/// Nothing.
const EMPTY: &str = r#"{"module":{}}"#;

fn json_in(rt: &impl Abort, alloc: Heap, text: &str) -> Value {
    json_of(alloc, text.as_bytes()).expect(rt, "JSON")
}

fn module_of<'a>(rt: &impl Abort, json: &'a Value) -> &'a Value {
    json.get("module").expect(rt, "a module")
}

fn types_in(rt: &impl Abort, alloc: Heap, json: &Value) -> Items<FuncType> {
    types_of(alloc, json).expect(rt, "types")
}

fn declared(rt: &impl Abort, alloc: Heap, text: &str) -> ModuleDecl {
    let json = json_in(rt, alloc, text);
    let types = types_in(rt, alloc, &json);
    read_module(alloc, types.as_slice(), ENGINE, 7, module_of(rt, &json)).expect(rt, "a module")
}

fn validate(alloc: Heap, decl: ModuleDecl) -> Result<Module, ModuleFault> {
    Module::validate(alloc, decl)
}

fn valid(rt: &impl Abort, alloc: Heap, decl: ModuleDecl) -> Module {
    match validate(alloc, decl) {
        Ok(module) => module,
        Err(_) => panic!(rt; "a module that is not valid"),
    }
}

/// The module in a text, of the number 7.
pub fn module_in(rt: &impl Abort, alloc: Heap, text: &str) -> Module {
    valid(rt, alloc, declared(rt, alloc, text))
}

/// A list of one item.
fn one<A: Drop>(rt: &impl Abort, alloc: Heap, item: A) -> Items<A> {
    let mut list = Vec::new(alloc);
    match list.push(item) {
        Ok(()) => Items(list),
        Err(_) => panic!(rt; "{MEMORY}"),
    }
}

/// A block of one instruction.
fn block(rt: &impl Abort, alloc: Heap, instr: Instr) -> Block {
    Block {
        ty: 0,
        instrs: one(rt, alloc, instr),
    }
}

/// So many blocks, each with the next one alone in it, and the last with a call of the function.
fn nested(rt: &impl Abort, alloc: Heap, count: u32) -> Items<Block> {
    let mut blocks = Vec::new(alloc);
    for next in 1..count {
        blocks
            .push(block(rt, alloc, Instr::Block(next)))
            .expect(rt, MEMORY);
    }
    blocks
        .push(block(rt, alloc, Instr::Call(0)))
        .expect(rt, MEMORY);
    Items(blocks)
}

/// A function of 256 blocks within one another, in the last of which it calls itself.
fn nested_function(rt: &impl Abort, alloc: Heap) -> FuncDecl {
    FuncDecl {
        ty: 0,
        locals: Items(Vec::new(alloc)),
        blocks: nested(rt, alloc, 256),
        targets: Items(Vec::new(alloc)),
    }
}

fn export_of_it(rt: &impl Abort, alloc: Heap) -> ExportDecl {
    ExportDecl {
        name: Text(String::from_str(alloc, "f").expect(rt, MEMORY)),
        entity: EntityIndex::Func(0),
    }
}

/// The type of functions without parameters and results.
pub fn plain_type(rt: &impl Abort, alloc: Heap) -> FuncType {
    FuncType::try_new(alloc, ENGINE, &[], &[]).expect(rt, MEMORY)
}

/// The module of that function, which it exports as `f`.
pub fn nested_module(rt: &impl Abort, alloc: Heap) -> Module {
    let mut decl = declared(rt, alloc, EMPTY);
    decl.types = one(rt, alloc, plain_type(rt, alloc));
    decl.functions = one(rt, alloc, nested_function(rt, alloc));
    decl.exports = one(rt, alloc, export_of_it(rt, alloc));
    valid(rt, alloc, decl)
}
