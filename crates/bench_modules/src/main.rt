//! Makes a declaration of so many functions of so many instructions each, validates it, and prints how many functions the
//! module has. It is timed from outside, by bench/modules.py. The words are the two numbers; where there is a third, the
//! functions move references to a function type of so many parameters.
#![tactic(auto)]

use std::alloc::Global;
use std::{env, io};
use wasm_module::{BinOp, Block, FuncDecl, Instr, Module, ModuleDecl};
use wasm_types::{EngineId, FuncType, HeapType, Items, RefType, ValType};

/// Two instructions, again and again: local 0 is read and written.
fn moves(alloc: Global, length: usize) -> Option<Items<Instr>> {
    let mut instrs = Vec::with_capacity(alloc, length).ok()?;
    for _ in 0..length / 2 {
        instrs.push(Instr::LocalGet(0)).ok()?;
        instrs.push(Instr::LocalSet(0)).ok()?;
    }
    Some(Items(instrs))
}

/// Four instructions, again and again: 5 is added to local 0.
fn sums(alloc: Global, length: usize) -> Option<Items<Instr>> {
    let mut instrs = Vec::with_capacity(alloc, length).ok()?;
    for _ in 0..length / 4 {
        instrs.push(Instr::LocalGet(0)).ok()?;
        instrs.push(Instr::Const32(5)).ok()?;
        instrs.push(Instr::Binary(BinOp::I32Add)).ok()?;
        instrs.push(Instr::LocalSet(0)).ok()?;
    }
    Some(Items(instrs))
}

/// Nullable references to functions of a type of so many parameters.
fn references(alloc: Global, size: usize) -> Option<ValType> {
    let mut params = Vec::new(alloc);
    for _ in 0..size {
        params.push(ValType::I32).ok()?;
    }
    let ty = FuncType::try_new(alloc, EngineId(1), params.as_slice(), &[]).ok()?;
    Some(ValType::Ref(RefType::new(true, HeapType::ConcreteFunc(ty))))
}

fn function(alloc: Global, length: usize, local: &ValType) -> Option<FuncDecl> {
    let instrs = match local {
        ValType::Ref(_) => moves(alloc, length)?,
        _ => sums(alloc, length)?,
    };
    let mut blocks = Vec::new(alloc);
    blocks.push(Block { ty: 0, instrs }).ok()?;
    let mut locals = Vec::new(alloc);
    locals.push(local.clone().ok()?).ok()?;
    Some(FuncDecl {
        ty: 0,
        locals: Items(locals),
        blocks: Items(blocks),
        targets: Items(Vec::new(alloc)),
    })
}

fn functions(
    alloc: Global,
    count: usize,
    length: usize,
    local: &ValType,
) -> Option<Items<FuncDecl>> {
    let mut functions = Vec::new(alloc);
    for _ in 0..count {
        functions.push(function(alloc, length, local)?).ok()?;
    }
    Some(Items(functions))
}

fn declaration(alloc: Global, count: usize, length: usize, local: &ValType) -> Option<ModuleDecl> {
    let mut types = Vec::new(alloc);
    let ty = FuncType::try_new(alloc, EngineId(1), &[], &[]).ok()?;
    types.push(ty).ok()?;
    Some(ModuleDecl {
        engine: EngineId(1),
        number: 0,
        types: Items(types),
        imports: Items(Vec::new(alloc)),
        functions: functions(alloc, count, length, local)?,
        tables: Items(Vec::new(alloc)),
        memories: Items(Vec::new(alloc)),
        globals: Items(Vec::new(alloc)),
        tags: Items(Vec::new(alloc)),
        exports: Items(Vec::new(alloc)),
        elements: Items(Vec::new(alloc)),
        datas: Items(Vec::new(alloc)),
        start: None,
    })
}

fn next_number(words: &mut env::Args) -> Option<usize> {
    words.next()?.as_str().parse().ok()
}

fn run(rt: &HostRuntime) -> Option<usize> {
    let mut words = env::args(rt).ok()?;
    words.next();
    let count = next_number(&mut words)?;
    let length = next_number(&mut words)?;
    let local = match next_number(&mut words) {
        Some(size) => references(rt.alloc(), size)?,
        None => ValType::I32,
    };
    let decl = declaration(rt.alloc(), count, length, &local)?;
    let module = Module::validate(rt.alloc(), decl).ok()?;
    Some(module.decl().functions.len())
}

fn main(rt: HostRuntime) -> io::Result<()> {
    let count = run(&rt);
    println!(rt; "{count:?}")
}
