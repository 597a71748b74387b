mod modules;
mod rules;

use script_json::{field, json_of};
use script_modules::read_modules;
use script_types::types_of;
use serde_json::Value;
use std::alloc::Global;
use std::fmt::Debug;
use std::process::Abort;
use wasm_module::{EntityIndex, Module, ModuleDecl, ModuleFault};
use wasm_types::{EngineId, FuncType, Items};

// Each of these calls says nothing of itself, so that the proof of a test carries no clause of it.

fn json_in(rt: &impl Abort, alloc: Global, text: &str) -> Value {
    json_of(alloc, text.as_bytes()).expect(rt, "JSON")
}

fn types_in(rt: &impl Abort, alloc: Global, json: &Value) -> Items<FuncType> {
    types_of(alloc, json).expect(rt, "types")
}

fn list_in<'a>(rt: &impl Abort, json: &'a Value) -> &'a Value {
    field(json, "modules").expect(rt, "a list of modules")
}

fn modules_in(
    rt: &impl Abort,
    alloc: Global,
    types: &[FuncType],
    list: &Value,
) -> Items<ModuleDecl> {
    read_modules(alloc, types, EngineId(1), list).expect(rt, "modules")
}

fn validate(alloc: Global, decl: ModuleDecl) -> Result<Module, ModuleFault> {
    Module::validate(alloc, decl)
}

fn export(module: &Module, name: &str) -> Option<EntityIndex> {
    match module.get_export_index(name) {
        Some(found) => Some(found.entity),
        None => None,
    }
}

/// How many element segments, data segments and imports a module has.
fn lengths(module: &Module) -> [usize; 3] {
    let decl = module.decl();
    [
        decl.elements.as_slice().len(),
        decl.datas.as_slice().len(),
        decl.imports.as_slice().len(),
    ]
}

/// The declaration of the last module in the list at `modules`, over the types at `types`.
fn declared(rt: &impl Abort, alloc: Global, text: &str) -> ModuleDecl {
    let json = json_in(rt, alloc, text);
    let types = types_in(rt, alloc, &json);
    let mut modules = modules_in(rt, alloc, types.as_slice(), list_in(rt, &json)).into_vec();
    match modules.pop() {
        Some(module) => module,
        None => panic!(rt; "no module"),
    }
}

fn validated(rt: &impl Abort, alloc: Global, text: &str) -> Result<Module, ModuleFault> {
    validate(alloc, declared(rt, alloc, text))
}

/// The module of a text that is valid.
fn valid(rt: &impl Abort, alloc: Global, text: &str) -> Module {
    match validated(rt, alloc, text) {
        Ok(module) => module,
        Err(_) => panic!(rt; "not valid: {text}"),
    }
}

/// What a text's module comes to is what was expected.
fn check_same<A: PartialEq + Debug + Drop>(rt: &impl Abort, got: A, expected: A, text: &str) {
    assert_eq!(rt; got, expected, "{text}");
}
